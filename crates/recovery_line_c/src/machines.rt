// The two machines: a participant's first state and receipt, an initiator's beginning and receipt.
ghost use Rattle.std.specs.Prelude.{◌≡◌};
ghost use Rattle.recovery_line.specs.Machines.{participant_first_answer, participant_first_state, participant_receive_answer, participant_receive_state, participant_receive_out, participant_receive_lengths, initiator_begin_answer, initiator_begin_state, initiator_begin_out, initiator_begin_lengths, initiator_receive_answer, initiator_receive_state, initiator_receive_out, initiator_receive_lengths};

use book::Counter;

// A participant's first state.
#[unsafe(no_mangle)]
pub extern "C" fn recovery_line_participant_first(
    shape: &[u64],
    sent: &[Counter],
    received: &[Counter],
    me: u64,
    initiator: u64,
    purpose: u64,
    state: &mut [u64],
) -> u32
    ensures value { result ≡ participant_first_answer shape.now sent.now received.now me initiator purpose state.old }
    ensures state_after { state.new ≡ participant_first_state shape.now sent.now received.now me initiator purpose state.old }
{
    recovery_line::machines::recovery_line_participant_first(
        shape, sent, received, me, initiator, purpose, state,
    )
}

// A participant receives a message.
#[unsafe(no_mangle)]
pub extern "C" fn recovery_line_participant_receive(
    state: &mut [u64],
    shape: &[u64],
    sent: &[Counter],
    received: &[Counter],
    message: &[u8],
    out: &mut [u8],
    lengths: &mut [u64],
) -> u32
    ensures value { result ≡ participant_receive_answer state.old shape.now sent.now received.now message.now out.old lengths.old }
    ensures state_after { state.new ≡ participant_receive_state state.old shape.now sent.now received.now message.now out.old lengths.old }
    ensures out_after { out.new ≡ participant_receive_out state.old shape.now sent.now received.now message.now out.old lengths.old }
    ensures lengths_after { lengths.new ≡ participant_receive_lengths state.old shape.now sent.now received.now message.now out.old lengths.old }
{
    recovery_line::machines::recovery_line_participant_receive(
        state, shape, sent, received, message, out, lengths,
    )
}

// An initiator begins a search, or a bare restart.
#[unsafe(no_mangle)]
pub extern "C" fn recovery_line_initiator_begin(
    shape: &[u64],
    sent: &[Counter],
    received: &[Counter],
    me: u64,
    purpose: u64,
    state: &mut [u64],
    out: &mut [u8],
    lengths: &mut [u64],
) -> u32
    ensures value { result ≡ initiator_begin_answer shape.now sent.now received.now me purpose state.old out.old lengths.old }
    ensures state_after { state.new ≡ initiator_begin_state shape.now sent.now received.now me purpose state.old out.old lengths.old }
    ensures out_after { out.new ≡ initiator_begin_out shape.now sent.now received.now me purpose state.old out.old lengths.old }
    ensures lengths_after { lengths.new ≡ initiator_begin_lengths shape.now sent.now received.now me purpose state.old out.old lengths.old }
{
    recovery_line::machines::recovery_line_initiator_begin(
        shape, sent, received, me, purpose, state, out, lengths,
    )
}

// An initiator receives a report.
#[unsafe(no_mangle)]
pub extern "C" fn recovery_line_initiator_receive(
    state: &mut [u64],
    shape: &[u64],
    sent: &[Counter],
    received: &[Counter],
    message: &[u8],
    out: &mut [u8],
    lengths: &mut [u64],
) -> u32
    ensures value { result ≡ initiator_receive_answer state.old shape.now sent.now received.now message.now out.old lengths.old }
    ensures state_after { state.new ≡ initiator_receive_state state.old shape.now sent.now received.now message.now out.old lengths.old }
    ensures out_after { out.new ≡ initiator_receive_out state.old shape.now sent.now received.now message.now out.old lengths.old }
    ensures lengths_after { lengths.new ≡ initiator_receive_lengths state.old shape.now sent.now received.now message.now out.old lengths.old }
{
    recovery_line::machines::recovery_line_initiator_receive(
        state, shape, sent, received, message, out, lengths,
    )
}
