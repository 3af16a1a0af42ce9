#![tactic(auto)]
// Document 01, "Session": a search from its start to its end, and a list of turns on a book, with strands of their own.
mod finish;

ghost use Rattle.std.specs.Prelude.{◌≡◌, ◌≤◌};
ghost use Rattle.accepted.specs.Holding.{tables_in};
ghost use Rattle.book.specs.Lent.{lent};
ghost use Rattle.book.specs.InTurn.{answer_with};
ghost use Rattle.book.specs.Numbers.{by_number};
ghost use Rattle.session.specs.Turns.{started, after_turns};
ghost use Rattle.searches.specs.Lowest.{strands_inside, searched};
ghost use Rattle.searches.specs.Run.{as_processes, run_question, sent_run, received_run, run_end, CarriesDemand3};
ghost use Rattle.searches.specs.Search.{search_question, search_end, EndedThere};

use accepted::Accepted;
use book::{Checkpoint, Counter, Process, Question, Shape};
use session::Session;

// Where `run` ends: the book's shape, and the session after the turns.
#[derive(Clone, Copy)]
pub struct RunEnd {
    pub shape: Shape,
    pub session: Session,
}

// Where `search` ends: the checkpoint that each worker has ended on, how many are newer than these, how many rounds it took
// and how many messages were delivered.
#[derive(Clone, Copy)]
pub struct SearchEnd {
    pub set: [Checkpoint; 16],
    pub newer: usize,
    pub rounds: u32,
    pub messages: u32,
}

// The strands of a search, which lie inside: made by a function of their own, so that no proof meets their many bytes one by one.
fn strands_inside() -> [u8; strands::ROOM_FOR_ALL]
    ensures { result ≡ strands_inside }
{
    [0; strands::ROOM_FOR_ALL]
}

// The turns of a list, refused ones included, each on what the one before left.
fn take_turns(
    session: Session,
    shape: Shape,
    sent: &[Counter],
    received: &[Counter],
    list: &[usize],
    strands: &mut [u8],
) -> Session
    ensures value { result ≡ (after_turns (lent shape sent.now received.now) (record { session = session; strands = strands.old }) (as_processes list.now)).session }
    ensures strands_after { strands.new ≡ (after_turns (lent shape sent.now received.now) (record { session = session; strands = strands.old }) (as_processes list.now)).strands }
{
    let mut next = session;
    for i in 0..list.len() {
        let p = list[i];
        if let Ok(after) = turns::turn(next, shape, sent, received, Process(p), strands) {
            next = after;
        }
    }
    next
}

// A session is started on strands of its own, and a list of turns taken.
fn start_and_take(
    shape: Shape,
    sent: &[Counter],
    received: &[Counter],
    initiator: Process,
    purpose: u64,
    list: &[usize],
) -> Session
    ensures { result ≡ (after_turns (lent shape sent.now received.now) (started (lent shape sent.now received.now) initiator purpose strands_inside) (as_processes list.now)).session }
{
    let mut strands = strands_inside();
    let begun = match turns::start(shape, sent, received, initiator, purpose, &mut strands) {
        Ok(begun) => begun,
        Err(_) => session_steps::no_session(),
    };
    take_turns(begun, shape, sent, received, list, &mut strands)
}

// A book is read, a session begun on it, and a list of turns taken. Questions: 1 to 9, then 10 and 11; a refusal changes nothing.
// After an accepted search, demand 3 holds of the session.
pub fn run(
    bytes: &[u8],
    sent: &mut [Counter],
    received: &mut [Counter],
    initiator: Process,
    purpose: u64,
    list: &[usize],
) -> Result<RunEnd, Question>
    ensures answer { by_number result ≡ answer_with (run_question bytes.now sent.old received.old initiator purpose) (run_end bytes.now sent.old received.old initiator purpose list.now) }
    ensures sent_after { sent.new ≡ sent_run bytes.now sent.old received.old initiator purpose }
    ensures received_after { received.new ≡ received_run bytes.now sent.old received.old initiator purpose }
    ensures carries_demand3 { CarriesDemand3 bytes.now sent.old received.old initiator purpose list.now }
{
    let shape = reader::check(bytes, sent, received)?;
    initiator::begin_question(shape.n, initiator, purpose)?;
    reader::fill(bytes, sent, received);
    let session = start_and_take(shape, sent, received, initiator, purpose, list);
    Ok(RunEnd { shape, session })
}

// A session is started on strands of its own, and turns taken until nothing waits. Inner: asks for what `search` has asked.
fn start_and_finish(tables: &Accepted, initiator: Process, purpose: u64) -> Session
    requires { search_question (tables_in tables.now) initiator purpose ≡ 0 }
    ensures { result ≡ (searched (tables_in tables.now) initiator purpose).session }
{
    let mut strands = strands_inside();
    let begun = turns::take_start(tables, initiator, purpose, &mut strands);
    finish::finish(begun, tables, &mut strands)
}

// A search from its start to its end: turns are taken, lowest waiting strand first, until nothing waits; then everybody has
// ended. Questions: the tables', 10, 11.
pub fn search(
    shape: Shape,
    sent: &[Counter],
    received: &[Counter],
    initiator: Process,
    purpose: u64,
) -> Result<SearchEnd, Question>
    ensures answer { by_number result ≡ answer_with (search_question (lent shape sent.now received.now) initiator purpose) (search_end (lent shape sent.now received.now) initiator purpose) }
    ensures ended_there { EndedThere (lent shape sent.now received.now) initiator purpose }
{
    let tables = accepted::accept(shape, sent, received)?;
    initiator::begin_question(tables.rows.shape.n, initiator, purpose)?;
    let ended = start_and_finish(&tables, initiator, purpose);
    let set = finish::stands(ended);
    let newer = finish::newer(tables.rows.shape, set);
    let machine = ended.machine;
    Ok(SearchEnd {
        set,
        newer,
        rounds: machine.rounds,
        messages: ended.delivered,
    })
}
