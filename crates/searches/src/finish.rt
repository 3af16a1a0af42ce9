// Document 01, "Program `line`": turns, lowest waiting strand first, until nothing waits; and where everybody stands then.
ghost use Rattle.std.specs.Prelude.{◌≡◌, ◌-◌, ◌≤◌};
ghost use Rattle.accepted.specs.Holding.{tables_in};
ghost use Rattle.book.specs.View.{count};
ghost use Rattle.lists.specs.Over.{sum_to};
ghost use Rattle.line_theory.specs.OfTables.{view_of};
ghost use Rattle.consistency.specs.Set.{chosen};
ghost use Rattle.finder.specs.Line.{checkpoints};
ghost use Rattle.session.specs.Workers.{stands_on};
ghost use Rattle.demand3.specs.Statement.{most_delivered};
ghost use Rattle.searches.specs.Lowest.{lowest_waiting, to_end};
ghost use Rattle.searches.specs.Parts.{Started, Among};

use accepted::Accepted;
use book::{Checkpoint, Process, Shape};
use session::Session;

// The lowest process on whose strand a message waits; 0 for none.
fn lowest_waiting(lengths: [usize; 16]) -> Process
    ensures { (session : Session) → session.lengths ≡ lengths → result ≡ lowest_waiting session }
{
    for k in 0..book::MOST_PROCESSES {
        if lengths[k] != 0 {
            return Process(k + 1);
        }
    }
    Process(0)
}

// Turns until nothing waits. Inner: asks for a session that has just started, with room: no question refuses its turns, and they
// come to an end.
pub(crate) fn finish(session: Session, tables: &Accepted, strands: &mut [u8]) -> Session
    requires { Started (tables_in tables.now) session strands.old }
    ensures { result ≡ (to_end (tables_in tables.now) (most_delivered (view_of (tables_in tables.now))) (record { session = session; strands = strands.old })).session }
{
    let mut next = session;
    let lengths = next.lengths;
    let mut p = lowest_waiting(lengths);
    while p.0 != 0 {
        next = turns::take_turn(next, tables, p, strands);
        let lengths = next.lengths;
        p = lowest_waiting(lengths);
    }
    next
}

// The checkpoint that each worker stands on; 0 for absent processes.
pub(crate) fn stands(session: Session) -> [Checkpoint; 16]
    requires { 1 ≤ session.initiator.0 }
    ensures { result ≡ checkpoints (stands_on session) }
{
    let participants = session.participants;
    let machine = session.machine;
    let initiator = session.initiator;
    let own = initiator.0 - 1;
    let mut set = [Checkpoint(0); 16];
    for j in 0..book::MOST_PROCESSES {
        let participant = participants[j];
        set[j] = if j == own {
            machine.candidate
        } else {
            participant.candidate
        };
    }
    set
}

// How many checkpoints are newer than a set's, added up.
pub(crate) fn newer(shape: Shape, set: [Checkpoint; 16]) -> usize
    requires { Among shape set }
    ensures { result ≡ sum_to shape.n (λ j. count shape j - chosen set j) }
{
    let counts = shape.counts;
    let mut sum = 0;
    for j in 0..shape.n {
        let r = set[j];
        sum += counts[j] - r.0;
    }
    sum
}
