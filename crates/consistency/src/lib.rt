#![tactic(auto)]
// Document 01, "The line", and 02, E3: testing a named set of checkpoints, and one checkpoint against known sent counters; and
// what every search needs: the newest checkpoint that they permit.
ghost use Rattle.std.specs.Prelude.{◌≡◌, ◌-◌, ◌≤◌};
ghost use Rattle.book.specs.Lent.{lent};
ghost use Rattle.book.specs.View.{count, R};
ghost use Rattle.book.specs.Accepted.{IsProcess};
ghost use Rattle.book.specs.Numbers.{by_number};
ghost use Rattle.accepted.specs.Holding.{tables_in};
ghost use Rattle.line_theory.specs.Sets.{first_fault};
ghost use Rattle.line_theory.specs.Search.{lowest_offending, newest};
ghost use Rattle.line_theory.specs.OfTables.{view_of};
ghost use Rattle.consistency.specs.Set.{chosen, is_there, all_there, shown_as, answer_to_test};
ghost use Rattle.consistency.specs.Known.{counters, named_as, answer_to_column};
ghost use Rattle.consistency.specs.Given.{Whole, Rises, AllNamed, AreSentTo, in_set};

use accepted::Accepted;
use book::{Checkpoint, Count, Counter, Process, Question, Shape, TableRows};

// The lowest partner that offends: the received counter of process j's checkpoint r is higher than the known sent one. None
// where the checkpoint is permitted. The mark is above every counter.
fn test_row(
    rows: TableRows,
    received: &[Counter],
    j: Process,
    r: Checkpoint,
    known: [Count; 16],
) -> Option<Process>
    requires whole { Whole rows received.now × IsProcess rows j.0 }
    requires le_r { (1 ≤ r.0) × (r.0 ≤ count rows.shape (j.0 - 1)) }
    ensures { result ≡ named_as (lowest_offending rows.shape.n (λ p. R rows.shape received.now (j.0 - 1) r.0 p) (counters known)) }
{
    let shape = rows.shape;
    let n = shape.n;
    let firsts = rows.first;
    let place = j.0 - 1;
    let first = firsts[place];
    for p in 0..n {
        let had = book::counter(received, first, r, Process(p + 1));
        let sent = known[p];
        if sent.0 < had.0 {
            return Some(Process(p + 1));
        }
    }
    None
}

// The newest checkpoint of process j, from one back, that the known sent counters permit; 0 for none, but in a book there
// is one.
fn newest_permitted(
    rows: TableRows,
    received: &[Counter],
    j: Process,
    from: Checkpoint,
    known: [Count; 16],
) -> Checkpoint
    requires whole { Whole rows received.now × IsProcess rows j.0 }
    requires from_bound { from.0 ≤ count rows.shape (j.0 - 1) }
    ensures { result.0 ≡ newest rows.shape.n (λ r p. R rows.shape received.now (j.0 - 1) r p) (counters known) from.0 }
{
    for r in (1..=from.0).rev() {
        if test_row(rows, received, j, Checkpoint(r), known).is_none() {
            return Checkpoint(r);
        }
    }
    Checkpoint(0)
}

// A checkpoint, or the process's newest if it is beyond that.
fn within(shape: Shape, j: Process, r: Checkpoint) -> Checkpoint
    requires { (1 ≤ j.0) × (j.0 ≤ 16) }
    ensures { result.0 ≤ count shape (j.0 - 1) }
{
    let counts = shape.counts;
    let place = j.0 - 1;
    let newest = counts[place];
    if newest < r.0 {
        return Checkpoint(newest);
    }
    r
}

// Up from a checkpoint that is the newest permitted from itself back, while the next is permitted too.
fn upwards(
    rows: TableRows,
    received: &[Counter],
    j: Process,
    from: Checkpoint,
    known: [Count; 16],
) -> Checkpoint
    requires whole { Whole rows received.now × IsProcess rows j.0 }
    requires rises { Rises rows.shape received.now j.0 }
    requires from_bound { from.0 ≤ count rows.shape (j.0 - 1) }
    requires from_value { newest rows.shape.n (λ r p. R rows.shape received.now (j.0 - 1) r p) (counters known) from.0 ≡ from.0 }
    ensures { result.0 ≡ newest rows.shape.n (λ r p. R rows.shape received.now (j.0 - 1) r p) (counters known) (count rows.shape (j.0 - 1)) }
{
    let shape = rows.shape;
    let counts = shape.counts;
    let place = j.0 - 1;
    let count = counts[place];
    for last in from.0..count {
        if test_row(rows, received, j, Checkpoint(last + 1), known).is_some() {
            return Checkpoint(last);
        }
    }
    Checkpoint(count)
}

// The newest checkpoint of process j that the known sent counters permit, looked for from a number that is thought near: as
// received counters rise, all that is older than a permitted checkpoint is permitted. Inner: asks for the rows of a whole table.
pub fn newest_near(
    rows: TableRows,
    received: &[Counter],
    j: Process,
    near: Checkpoint,
    known: [Count; 16],
) -> Checkpoint
    requires whole { Whole rows received.now × IsProcess rows j.0 }
    requires rises { Rises rows.shape received.now j.0 }
    ensures { result.0 ≡ newest rows.shape.n (λ r p. R rows.shape received.now (j.0 - 1) r p) (counters known) (count rows.shape (j.0 - 1)) }
{
    let shape = rows.shape;
    let from = within(shape, j, near);
    let down = newest_permitted(rows, received, j, from, known);
    if down.0 != from.0 {
        return down;
    }
    upwards(rows, received, j, from, known)
}

// What the checkpoints of a set have sent to process j; zero for absent processes.
fn sent_to(rows: TableRows, sent: &[Counter], set: [Checkpoint; 16], j: Process) -> [Count; 16]
    requires whole { Whole rows sent.now × IsProcess rows j.0 }
    requires all_named { AllNamed rows.shape set }
    ensures { AreSentTo rows sent.now set (j.0 - 1) result }
{
    let shape = rows.shape;
    let n = shape.n;
    let first = rows.first;
    let mut known = [Count(0); 16];
    for p in 0..n {
        let r = set[p];
        known[p] = book::counter(sent, first[p], r, j);
    }
    known
}

// Process j's checkpoint in a set against what the others' have sent to it.
fn test_in_set(tables: &Accepted, set: [Checkpoint; 16], j: Process) -> Option<Process>
    requires is_process { IsProcess tables.now.rows j.0 }
    requires all_named { AllNamed tables.now.rows.shape set }
    ensures { result ≡ in_set (view_of (tables_in tables.now)) (chosen set) (j.0 - 1) }
{
    let known = sent_to(tables.rows, tables.sent, set, j);
    let i = j.0 - 1;
    let r = set[i];
    test_row(tables.rows, tables.received, j, r, known)
}

// Does each named checkpoint exist (question 12)? Absent processes have 0.
fn all_there(shape: Shape, set: [Checkpoint; 16]) -> bool
    ensures { result ≡ all_there shape set }
{
    let n = shape.n;
    let counts = shape.counts;
    for j in 0..book::MOST_PROCESSES {
        let r = set[j];
        if !is_there(j < n, counts[j], r) {
            return false;
        }
    }
    true
}

// Does a checkpoint exist, of a process that there is or of an absent one?
fn is_there(present: bool, count: usize, r: Checkpoint) -> bool
    ensures { result ≡ is_there present count r.0 }
{
    if !present {
        return r.0 == 0;
    }
    if r.0 < 1 {
        return false;
    }
    r.0 <= count
}

// The first pair at fault in a set, if there is one: (j, p) is when j's checkpoint received more from p than p's sent to j.
// Processes are tested in turn, and each names its lowest partner: so the pair has the lowest j, and for it the lowest p.
fn test_pairs(tables: &Accepted, set: [Checkpoint; 16]) -> Option<(Process, Process)>
    requires { AllNamed tables.now.rows.shape set }
    ensures { result ≡ shown_as (first_fault (view_of (tables_in tables.now)) (chosen set)) }
{
    for j in 0..tables.rows.shape.n {
        if let Some(p) = test_in_set(tables, set, Process(j + 1)) {
            return Some((Process(j + 1), p));
        }
    }
    None
}

// The first pair at fault in a named set; none where the set is consistent. The tables' questions come first, then 12.
pub fn test_set(
    shape: Shape,
    sent: &[Counter],
    received: &[Counter],
    set: [Checkpoint; 16],
) -> Result<Option<(Process, Process)>, Question>
    ensures { by_number result ≡ answer_to_test (lent shape sent.now received.now) set }
{
    let tables = accepted::accept(shape, sent, received)?;
    if !all_there(shape, set) {
        return Err(Question::Exists);
    }
    Ok(test_pairs(&tables, set))
}

// The lowest partner from which process j's checkpoint r received more than is known to be sent to it, if there is one. The
// mark for "not known" permits everything. The tables' questions come first, then 10 and 12.
pub fn test_checkpoint(
    shape: Shape,
    sent: &[Counter],
    received: &[Counter],
    j: Process,
    r: Checkpoint,
    known: [Count; 16],
) -> Result<Option<Process>, Question>
    ensures { by_number result ≡ answer_to_column (lent shape sent.now received.now) j.0 r.0 known }
{
    let tables = accepted::accept(shape, sent, received)?;
    if !book::is_named(shape.n, j.0) {
        return Err(Question::Named);
    }
    let place = j.0 - 1;
    if !is_there(true, shape.counts[place], r) {
        return Err(Question::Exists);
    }
    Ok(test_row(tables.rows, tables.received, j, r, known))
}
