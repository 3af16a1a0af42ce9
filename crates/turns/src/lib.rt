#![tactic(auto)]
// Document 01, "Session": the calls `start` and `turn`.
mod deliver;

ghost use Rattle.std.specs.Prelude.{◌≡◌, true, ◌&&◌, ◌-◌, ◌≤◌};
ghost use Rattle.accepted.specs.Holding.{tables_in};
ghost use Rattle.book.specs.Lent.{lent};
ghost use Rattle.book.specs.InTurn.{◌then◌, ask, answer_to, answer_with, unless_refused};
ghost use Rattle.book.specs.Numbers.{by_number};
ghost use Rattle.machine.specs.Named.{participant_named};
ghost use Rattle.strands.specs.Strands.{have_room, posted};
ghost use Rattle.session.specs.Fits.{session_named, session_purposes, session_fits};
ghost use Rattle.session.specs.Steps.{with_posted};
ghost use Rattle.session.specs.Calls.{start_question, session_started, strands_started, turn_question, session_after, strands_after};
ghost use Rattle.turns.specs.Parts.{room_asked, strands_with};

use accepted::Accepted;
use book::{Counter, Process, Question, Shape};
use session::{Session, Turned};

// What a step sends is put on the strands, for a caller that has made sure of the room.
fn post(turned: Turned, n: usize, strands: &mut [u8]) -> Session
    requires le_n { (1 ≤ n) × (n ≤ 16) }
    requires le_initiator { 1 ≤ turned.session.initiator.0 }
    requires strands_value { have_room n (turned.session.initiator.0 - 1) turned.outgoing strands.old ≡ true }
    ensures value { result ≡ with_posted turned }
    ensures strands_after { strands.new ≡ posted n (turned.session.initiator.0 - 1) turned.outgoing strands.old }
{
    let mut session = turned.session;
    let outgoing = turned.outgoing;
    let initiator = session.initiator;
    let before = session.lengths;
    let lengths = strands::post(outgoing, n, initiator.0 - 1, before, strands);
    session.lengths = lengths;
    session
}

// What a step sends is put on the strands if it fits there (question 17).
fn post_if_room(turned: Turned, n: usize, strands: &mut [u8]) -> Result<Session, Question>
    requires le_n { (1 ≤ n) × (n ≤ 16) }
    requires le_initiator { 1 ≤ turned.session.initiator.0 }
    ensures answer { by_number result ≡ answer_with (room_asked n turned strands.old) (with_posted turned) }
    ensures strands_after { strands.new ≡ unless_refused (room_asked n turned strands.old) strands.old (strands_with n turned strands.old) }
{
    let session = turned.session;
    let outgoing = turned.outgoing;
    let initiator = session.initiator;
    if !strands::have_room(outgoing, n, initiator.0 - 1, strands) {
        return Err(Question::Room);
    }
    Ok(post(turned, n, strands))
}

// A search, or a bare restart, begins: everybody else's invitation waits on its strand. Questions: the tables', 10, 11, 17.
pub fn start(
    shape: Shape,
    sent: &[Counter],
    received: &[Counter],
    initiator: Process,
    purpose: u64,
    strands: &mut [u8],
) -> Result<Session, Question>
    ensures answer { by_number result ≡ answer_with (start_question (lent shape sent.now received.now) initiator purpose strands.old) (session_started (lent shape sent.now received.now) initiator purpose strands.old) }
    ensures strands_after { strands.new ≡ strands_started (lent shape sent.now received.now) initiator purpose strands.old }
{
    let tables = accepted::accept(shape, sent, received)?;
    initiator::begin_question(tables.rows.shape.n, initiator, purpose)?;
    let begun = session_steps::begin(&tables, initiator, purpose);
    post_if_room(begun, tables.rows.shape.n, strands)
}

// A start, without the questions. Inner: asks for a start that no question refuses.
pub fn take_start(
    tables: &Accepted,
    initiator: Process,
    purpose: u64,
    strands: &mut [u8],
) -> Session
    requires { start_question (tables_in tables.now) initiator purpose strands.old ≡ 0 }
    ensures value { result ≡ session_started (tables_in tables.now) initiator purpose strands.old }
    ensures strands_after { strands.new ≡ strands_started (tables_in tables.now) initiator purpose strands.old }
{
    let turned = session_steps::begin(tables, initiator, purpose);
    post(turned, tables.rows.shape.n, strands)
}

// Questions 10, 11 and 13 of a turn, on accepted tables.
fn session_question(
    session: Session,
    tables: &Accepted,
    p: Process,
    strands: &[u8],
) -> Result<(), Question>
    ensures { by_number result ≡ answer_to (ask 10 (participant_named tables.now.rows.shape.n p.0 session.initiator.0 && session_named tables.now.rows.shape.n session) then λ _. ask 11 (session_purposes session) then λ _. ask 13 (session_fits (tables_in tables.now) session strands.now)) }
{
    let shape = tables.rows.shape;
    let initiator = session.initiator;
    if !machine::participant_named(shape.n, p, initiator) {
        return Err(Question::Named);
    }
    if !session_check::named(session, shape.n) {
        return Err(Question::Named);
    }
    if !session_check::purposes(session) {
        return Err(Question::Purpose);
    }
    if !session_check::fits(session, tables, strands) {
        return Err(Question::StateFits);
    }
    Ok(())
}

// A turn: the message on p's strand is delivered, and the replies wait on theirs. Questions: the tables', 10, 11, 13, 17, 18; a
// refusal changes nothing.
pub fn turn(
    session: Session,
    shape: Shape,
    sent: &[Counter],
    received: &[Counter],
    p: Process,
    strands: &mut [u8],
) -> Result<Session, Question>
    ensures answer { by_number result ≡ answer_with (turn_question (lent shape sent.now received.now) session p strands.old) (session_after (lent shape sent.now received.now) session p strands.old) }
    ensures strands_after { strands.new ≡ strands_after (lent shape sent.now received.now) session p strands.old }
{
    let tables = accepted::accept(shape, sent, received)?;
    session_question(session, &tables, p, strands)?;
    let lengths = session.lengths;
    let place = p.0 - 1;
    if lengths[place] == 0 {
        return Err(Question::Waiting);
    }
    let turned = deliver::deliver(session, &tables, place, strands);
    post_if_room(turned, tables.rows.shape.n, strands)
}

// A turn, without the questions. Inner: asks for a turn that no question refuses.
pub fn take_turn(session: Session, tables: &Accepted, p: Process, strands: &mut [u8]) -> Session
    requires { turn_question (tables_in tables.now) session p strands.old ≡ 0 }
    ensures value { result ≡ session_after (tables_in tables.now) session p strands.old }
    ensures strands_after { strands.new ≡ strands_after (tables_in tables.now) session p strands.old }
{
    let turned = deliver::deliver(session, tables, p.0 - 1, strands);
    post(turned, tables.rows.shape.n, strands)
}
