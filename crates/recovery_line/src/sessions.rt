// Sessions: start, turn, search.
ghost use Rattle.std.specs.Prelude.{◌≡◌};
ghost use Rattle.recovery_line.specs.Sessions.{start_answer, start_session, start_strands, turn_answer, turn_session, turn_strands, search_answer, search_set, search_newer, search_rounds, search_messages};

use book::{Counter, Process};
use words::layout;

// A session begins.
pub fn recovery_line_session_start(
    shape: &[u64],
    sent: &[Counter],
    received: &[Counter],
    initiator: u64,
    purpose: u64,
    session: &mut [u64],
    strands: &mut [u8],
) -> u32
    ensures value { result ≡ start_answer shape.now sent.now received.now initiator purpose session.old strands.old }
    ensures session_after { session.new ≡ start_session shape.now sent.now received.now initiator purpose session.old strands.old }
    ensures strands_after { strands.new ≡ start_strands shape.now sent.now received.now initiator purpose session.old strands.old }
{
    let question = crate::two_question(shape.len(), session.len(), layout::SESSION_WORDS);
    if question != 0 {
        return question;
    }
    let given = words::shape_in(shape);
    let process = Process(words::number(initiator));
    match turns::start(given, sent, received, process, purpose, strands) {
        Ok(begun) => {
            state_words::put_session(begun, session);
            0
        }
        Err(question) => question.number(),
    }
}

// A turn on process p's strand.
pub fn recovery_line_session_turn(
    session: &mut [u64],
    shape: &[u64],
    sent: &[Counter],
    received: &[Counter],
    p: u64,
    strands: &mut [u8],
) -> u32
    ensures value { result ≡ turn_answer session.old shape.now sent.now received.now p strands.old }
    ensures session_after { session.new ≡ turn_session session.old shape.now sent.now received.now p strands.old }
    ensures strands_after { strands.new ≡ turn_strands session.old shape.now sent.now received.now p strands.old }
{
    let question = crate::two_question(shape.len(), session.len(), layout::SESSION_WORDS);
    if question != 0 {
        return question;
    }
    let given = words::shape_in(shape);
    let process = Process(words::number(p));
    let held = state_words::session_in(session);
    match turns::turn(held, given, sent, received, process, strands) {
        Ok(after) => {
            state_words::put_session(after, session);
            0
        }
        Err(question) => question.number(),
    }
}

// A search from its start to its end.
pub fn recovery_line_search(
    shape: &[u64],
    sent: &[Counter],
    received: &[Counter],
    initiator: u64,
    purpose: u64,
    set: &mut [u64],
    newer: &mut u64,
    rounds: &mut u64,
    messages: &mut u64,
) -> u32
    ensures value { result ≡ search_answer shape.now sent.now received.now initiator purpose set.old }
    ensures set_after { set.new ≡ search_set shape.now sent.now received.now initiator purpose set.old }
    ensures newer_after { newer.new ≡ search_newer shape.now sent.now received.now initiator purpose set.old newer.old }
    ensures rounds_after { rounds.new ≡ search_rounds shape.now sent.now received.now initiator purpose set.old rounds.old }
    ensures messages_after { messages.new ≡ search_messages shape.now sent.now received.now initiator purpose set.old messages.old }
{
    let question = crate::two_question(shape.len(), set.len(), layout::SET_WORDS);
    if question != 0 {
        return question;
    }
    let given = words::shape_in(shape);
    let process = Process(words::number(initiator));
    match searches::search(given, sent, received, process, purpose) {
        Ok(found) => {
            words::put_set(found.set, set, 0);
            *newer = words::of_number(found.newer);
            *rounds = words::of_tally(found.rounds);
            *messages = words::of_tally(found.messages);
            0
        }
        Err(question) => question.number(),
    }
}
