#![tactic(auto)]
// Document 01, "The line": finding it, the consistent set that is nowhere earlier than any other.
ghost use Rattle.std.specs.Prelude.{◌≡◌, ◌≤◌, ◌<◌, length};
ghost use Rattle.book.specs.Lent.{lent};
ghost use Rattle.book.specs.View.{count};
ghost use Rattle.book.specs.InTurn.{answer_with};
ghost use Rattle.book.specs.Numbers.{by_number};
ghost use Rattle.book.specs.Check.{tables_question};
ghost use Rattle.accepted.specs.Holding.{tables_in};
ghost use Rattle.line_theory.specs.Sets.{cut};
ghost use Rattle.line_theory.specs.OfTables.{view_of};
ghost use Rattle.consistency.specs.Set.{chosen};
ghost use Rattle.consistency.specs.Given.{AllNamed};
ghost use Rattle.finder.specs.Line.{checkpoints, found_in, IsLineOf};
ghost use Rattle.finder.specs.Steps.{AbsentZero, Named, SameSet, set_at, row_of, by_row, RowsGiven, ForSixteen, must_step_back, flagged, AreFlags, FlaggedBeside, SteppedBack, IsFirstFlagged};

use accepted::Accepted;
use book::{Checkpoint, Counter, Question, Shape, TableRows};

// A line, and how many steps of one checkpoint back led to it.
#[derive(Clone, Copy)]
pub struct Line {
    pub set: [Checkpoint; 16],
    pub passed: usize,
}

// The row of each process's checkpoint of a set, in both tables; 0 for absent processes.
fn rows_at(rows: TableRows, set: [Checkpoint; 16]) -> [usize; 16]
    requires { Named rows (chosen set) }
    ensures { SameSet rows.shape.n (set_at rows.shape.counts result) (chosen set) }
{
    let shape = rows.shape;
    let n = shape.n;
    let first = rows.first;
    let mut at = [0usize; 16];
    for j in 0..n {
        let r = set[j];
        at[j] = first[j] + (r.0 - 1);
    }
    at
}

// The set whose checkpoints lie in these rows; 0 for absent processes.
fn set_at(rows: TableRows, at: &[usize; 16]) -> [Checkpoint; 16]
    requires { Named rows (set_at rows.shape.counts at.now) }
    ensures same_set { SameSet rows.shape.n (chosen result) (set_at rows.shape.counts at.now) }
    ensures absent_zero { AbsentZero rows result }
{
    let shape = rows.shape;
    let n = shape.n;
    let first = rows.first;
    let mut set = [Checkpoint(0); 16];
    for j in 0..n {
        set[j] = Checkpoint(at[j] - first[j] + 1);
    }
    set
}

// Must process j step back: has its checkpoint received more from some partner than that one's has sent? From here to
// `find_from` processes count from 0, and a checkpoint is known by its row.
fn must_step_back(
    sent: &[Counter],
    received: &[Counter],
    at: &[usize; 16],
    n: usize,
    j: usize,
) -> bool
    requires { RowsGiven n sent.now received.now at.now × (j < n) }
    ensures { result ≡ must_step_back (by_row n sent.now received.now) (row_of at.now) j }
{
    let own = at[j] * book::ROW_WIDTH;
    for p in 0..n {
        let other = at[p] * book::ROW_WIDTH;
        if sent[other + j] < received[own + p] {
            return true;
        }
    }
    false
}

// Whether each process must step back.
fn flags_of(sent: &[Counter], received: &[Counter], at: &[usize; 16], n: usize) -> [bool; 16]
    requires { RowsGiven n sent.now received.now at.now }
    ensures { AreFlags (by_row n sent.now received.now) (row_of at.now) (flagged result) }
{
    let mut flags = [false; 16];
    for j in 0..n {
        flags[j] = must_step_back(sent, received, at, n, j);
    }
    flags
}

// Flags, beside those that are flagged, exactly those processes whose checkpoint received more from process j than j's has
// sent.
fn flag_at_fault(
    sent: &[Counter],
    received: &[Counter],
    at: &[usize; 16],
    flags: &mut [bool; 16],
    n: usize,
    j: usize,
)
    requires { RowsGiven n sent.now received.now at.now × ((j < n) × (length flags.old ≡ 16)) }
    ensures flagged_beside { FlaggedBeside (by_row n sent.now received.now) (row_of at.now) j (flagged flags.old) (flagged flags.new) }
    ensures flags_len { length flags.new ≡ 16 }
{
    let own = at[j] * book::ROW_WIDTH;
    for p in 0..n {
        let other = at[p] * book::ROW_WIDTH;
        if sent[own + p] < received[other + j] {
            flags[p] = true;
        }
    }
}

// One step back of process j. Only what j has sent changes, and it does not rise (question 8): so j's own flag is found
// anew, and the others keep theirs, but for those that now received more from j than it has sent.
fn step_back(
    sent: &[Counter],
    received: &[Counter],
    at: &mut [usize; 16],
    flags: &mut [bool; 16],
    n: usize,
    j: usize,
)
    requires rows_given { RowsGiven n sent.now received.now at.old × ((j < n) × (1 ≤ row_of at.old j)) }
    requires for_sixteen { ForSixteen at.old flags.old }
    ensures stepped_back { SteppedBack (by_row n sent.now received.now) j (row_of at.old) (row_of at.new) (flagged flags.old) (flagged flags.new) }
    ensures for_sixteen_2 { ForSixteen at.new flags.new }
{
    at[j] = at[j] - 1;
    flag_at_fault(sent, received, at, flags, n, j);
    flags[j] = must_step_back(sent, received, at, n, j);
}

// The first flagged process, n for none.
fn first_flagged(flags: &[bool; 16], n: usize) -> usize
    requires { n ≤ 16 }
    ensures { IsFirstFlagged n (flagged flags.now) result }
{
    for j in 0..n {
        if flags[j] {
            return j;
        }
    }
    n
}

// The line of the checkpoints up to those of a set, with the steps back from it. Inner: asks for a set of the tables.
//
// Only processes that must step back are flagged, and a step back flags exactly those that it puts at fault: so every pass
// of the loop takes one checkpoint back for good, and there are as many passes as checkpoints passed from the given set (T,
// from the newest). A pass makes two rows of n comparisons of a received counter with a sent one: j's new checkpoint
// against the others' sent counters, and the others' against its own. With n rows for the first flags that is n + 2T rows,
// twice as many entries; beside it up to n flags a pass. Nothing is copied in a pass: each process's row is known, and rows
// and flags are lent. A sweep of all pairs for each step would be n rows instead of two.
pub fn find_from(tables: &Accepted, set: [Checkpoint; 16]) -> Line
    requires all_named { AllNamed tables.now.rows.shape set }
    requires absent_zero { AbsentZero tables.now.rows set }
    ensures { IsLineOf (cut (view_of (tables_in tables.now)) (chosen set)) result }
{
    let n = tables.rows.shape.n;
    let mut at = rows_at(tables.rows, set);
    let mut flags = flags_of(tables.sent, tables.received, &at, n);
    let mut passed = 0;
    let mut j = first_flagged(&flags, n);
    while j < n {
        step_back(tables.sent, tables.received, &mut at, &mut flags, n, j);
        passed += 1;
        j = first_flagged(&flags, n);
    }
    let line = set_at(tables.rows, &at);
    Line { set: line, passed }
}

// The newest checkpoint of every process.
pub fn newest_set(shape: Shape) -> [Checkpoint; 16]
    ensures { result ≡ checkpoints (count shape) }
{
    let counts = shape.counts;
    let mut set = [Checkpoint(0); 16];
    for j in 0..book::MOST_PROCESSES {
        set[j] = Checkpoint(counts[j]);
    }
    set
}

// The line of the tables, and T. The tables' questions come first.
pub fn find_line(shape: Shape, sent: &[Counter], received: &[Counter]) -> Result<Line, Question>
    ensures { by_number result ≡ answer_with (tables_question (lent shape sent.now received.now)) (found_in (lent shape sent.now received.now)) }
{
    let tables = accepted::accept(shape, sent, received)?;
    Ok(find_from(&tables, newest_set(shape)))
}
