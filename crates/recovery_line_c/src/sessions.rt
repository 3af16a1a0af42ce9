// Sessions: start, turn, search.
ghost use Rattle.std.specs.Prelude.{◌≡◌};
ghost use Rattle.recovery_line.specs.Sessions.{start_answer, start_session, start_strands, turn_answer, turn_session, turn_strands, search_answer, search_set, search_newer, search_rounds, search_messages};

use book::Counter;

// A session begins.
#[unsafe(no_mangle)]
pub extern "C" fn recovery_line_session_start(
    shape: &[u64],
    sent: &[Counter],
    received: &[Counter],
    initiator: u64,
    purpose: u64,
    session: &mut [u64],
    strands: &mut [u8],
) -> u32
    ensures value { result ≡ start_answer shape.now sent.now received.now initiator purpose session.old strands.old }
    ensures session_after { session.new ≡ start_session shape.now sent.now received.now initiator purpose session.old strands.old }
    ensures strands_after { strands.new ≡ start_strands shape.now sent.now received.now initiator purpose session.old strands.old }
{
    recovery_line::sessions::recovery_line_session_start(
        shape, sent, received, initiator, purpose, session, strands,
    )
}

// A turn on process p's strand.
#[unsafe(no_mangle)]
pub extern "C" fn recovery_line_session_turn(
    session: &mut [u64],
    shape: &[u64],
    sent: &[Counter],
    received: &[Counter],
    p: u64,
    strands: &mut [u8],
) -> u32
    ensures value { result ≡ turn_answer session.old shape.now sent.now received.now p strands.old }
    ensures session_after { session.new ≡ turn_session session.old shape.now sent.now received.now p strands.old }
    ensures strands_after { strands.new ≡ turn_strands session.old shape.now sent.now received.now p strands.old }
{
    recovery_line::sessions::recovery_line_session_turn(session, shape, sent, received, p, strands)
}

// A search from its start to its end.
#[unsafe(no_mangle)]
pub extern "C" fn recovery_line_search(
    shape: &[u64],
    sent: &[Counter],
    received: &[Counter],
    initiator: u64,
    purpose: u64,
    set: &mut [u64],
    newer: &mut u64,
    rounds: &mut u64,
    messages: &mut u64,
) -> u32
    ensures value { result ≡ search_answer shape.now sent.now received.now initiator purpose set.old }
    ensures set_after { set.new ≡ search_set shape.now sent.now received.now initiator purpose set.old }
    ensures newer_after { newer.new ≡ search_newer shape.now sent.now received.now initiator purpose set.old newer.old }
    ensures rounds_after { rounds.new ≡ search_rounds shape.now sent.now received.now initiator purpose set.old rounds.old }
    ensures messages_after { messages.new ≡ search_messages shape.now sent.now received.now initiator purpose set.old messages.old }
{
    recovery_line::sessions::recovery_line_search(
        shape, sent, received, initiator, purpose, set, newer, rounds, messages,
    )
}
