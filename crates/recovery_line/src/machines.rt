// The two machines: a participant's first state and receipt, an initiator's beginning and receipt.
ghost use Rattle.std.specs.Prelude.{◌≡◌};
ghost use Rattle.recovery_line.specs.Machines.{participant_first_answer, participant_first_state, participant_receive_answer, participant_receive_state, participant_receive_out, participant_receive_lengths, initiator_begin_answer, initiator_begin_state, initiator_begin_out, initiator_begin_lengths, initiator_receive_answer, initiator_receive_state, initiator_receive_out, initiator_receive_lengths};

use book::{Counter, Process};
use initiator::Initiator;
use participant::Participant;
use words::layout;

// A participant's first state.
pub fn recovery_line_participant_first(
    shape: &[u64],
    sent: &[Counter],
    received: &[Counter],
    me: u64,
    initiator: u64,
    purpose: u64,
    state: &mut [u64],
) -> u32
    ensures value { result ≡ participant_first_answer shape.now sent.now received.now me initiator purpose state.old }
    ensures state_after { state.new ≡ participant_first_state shape.now sent.now received.now me initiator purpose state.old }
{
    let question = crate::two_question(shape.len(), state.len(), layout::PARTICIPANT_WORDS);
    if question != 0 {
        return question;
    }
    let given = words::shape_in(shape);
    let process = Process(words::number(me));
    let inviter = Process(words::number(initiator));
    match Participant::first(given, sent, received, process, inviter, purpose) {
        Ok(first) => {
            state_words::put_participant(first, state, 0);
            0
        }
        Err(question) => question.number(),
    }
}

// A participant receives a message.
pub fn recovery_line_participant_receive(
    state: &mut [u64],
    shape: &[u64],
    sent: &[Counter],
    received: &[Counter],
    message: &[u8],
    out: &mut [u8],
    lengths: &mut [u64],
) -> u32
    ensures value { result ≡ participant_receive_answer state.old shape.now sent.now received.now message.now out.old lengths.old }
    ensures state_after { state.new ≡ participant_receive_state state.old shape.now sent.now received.now message.now out.old lengths.old }
    ensures out_after { out.new ≡ participant_receive_out state.old shape.now sent.now received.now message.now out.old lengths.old }
    ensures lengths_after { lengths.new ≡ participant_receive_lengths state.old shape.now sent.now received.now message.now out.old lengths.old }
{
    let question = crate::three_question(
        shape.len(),
        state.len(),
        layout::PARTICIPANT_WORDS,
        lengths.len(),
        layout::LENGTHS_WORDS,
    );
    if question != 0 {
        return question;
    }
    let given = words::shape_in(shape);
    let machine = state_words::participant_in(state);
    match machine.receive(given, sent, received, message, out) {
        Ok(after) => {
            state_words::put_participant(after.state, state, 0);
            words::put_numbers(after.lengths, lengths, 0);
            0
        }
        Err(question) => question.number(),
    }
}

// An initiator begins a search, or a bare restart.
pub fn recovery_line_initiator_begin(
    shape: &[u64],
    sent: &[Counter],
    received: &[Counter],
    me: u64,
    purpose: u64,
    state: &mut [u64],
    out: &mut [u8],
    lengths: &mut [u64],
) -> u32
    ensures value { result ≡ initiator_begin_answer shape.now sent.now received.now me purpose state.old out.old lengths.old }
    ensures state_after { state.new ≡ initiator_begin_state shape.now sent.now received.now me purpose state.old out.old lengths.old }
    ensures out_after { out.new ≡ initiator_begin_out shape.now sent.now received.now me purpose state.old out.old lengths.old }
    ensures lengths_after { lengths.new ≡ initiator_begin_lengths shape.now sent.now received.now me purpose state.old out.old lengths.old }
{
    let question = crate::three_question(
        shape.len(),
        state.len(),
        layout::INITIATOR_WORDS,
        lengths.len(),
        layout::LENGTHS_WORDS,
    );
    if question != 0 {
        return question;
    }
    let given = words::shape_in(shape);
    let process = Process(words::number(me));
    match Initiator::begin(given, sent, received, process, purpose, out) {
        Ok(begun) => {
            state_words::put_initiator(begun.state, state, 0);
            words::put_numbers(begun.lengths, lengths, 0);
            0
        }
        Err(question) => question.number(),
    }
}

// An initiator receives a report.
pub fn recovery_line_initiator_receive(
    state: &mut [u64],
    shape: &[u64],
    sent: &[Counter],
    received: &[Counter],
    message: &[u8],
    out: &mut [u8],
    lengths: &mut [u64],
) -> u32
    ensures value { result ≡ initiator_receive_answer state.old shape.now sent.now received.now message.now out.old lengths.old }
    ensures state_after { state.new ≡ initiator_receive_state state.old shape.now sent.now received.now message.now out.old lengths.old }
    ensures out_after { out.new ≡ initiator_receive_out state.old shape.now sent.now received.now message.now out.old lengths.old }
    ensures lengths_after { lengths.new ≡ initiator_receive_lengths state.old shape.now sent.now received.now message.now out.old lengths.old }
{
    let question = crate::three_question(
        shape.len(),
        state.len(),
        layout::INITIATOR_WORDS,
        lengths.len(),
        layout::LENGTHS_WORDS,
    );
    if question != 0 {
        return question;
    }
    let given = words::shape_in(shape);
    let machine = state_words::initiator_in(state);
    match machine.receive(given, sent, received, message, out) {
        Ok(after) => {
            state_words::put_initiator(after.state, state, 0);
            words::put_numbers(after.lengths, lengths, 0);
            0
        }
        Err(question) => question.number(),
    }
}
