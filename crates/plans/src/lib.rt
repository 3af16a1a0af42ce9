#![tactic(auto)]
// Document 01, "The move (K 5.4)": what a move will do, as a plan by value, and the restart order with what is sent again (02, E5).
// Nothing is changed here.
ghost use Rattle.std.specs.Prelude.{◌≡◌, ◌-◌, ◌≤◌};
ghost use Rattle.book.specs.Lent.{lent};
ghost use Rattle.book.specs.View.{count, counter_at};
ghost use Rattle.book.specs.InTurn.{answer_with};
ghost use Rattle.book.specs.Numbers.{by_number};
ghost use Rattle.accepted.specs.Holding.{tables_in, accepted_in};
ghost use Rattle.line_theory.specs.OfTables.{view_of};
ghost use Rattle.lists.specs.Pick.{pick};
ghost use Rattle.consistency.specs.Set.{chosen};
ghost use Rattle.consistency.specs.Given.{Whole, AllNamed};
ghost use Rattle.matrix.specs.Matrix.{entry};
ghost use Rattle.finder.specs.Line.{checkpoints};
ghost use Rattle.restart.specs.Plan.{advances, restarts, line_checkpoint, first_missing, last_missing, planned};
ghost use Rattle.restart.specs.Values.{present, numbers, rows_of, plan_of};
ghost use Rattle.restart.specs.Calls.{move_question, order_given};

use accepted::Accepted;
use book::{Checkpoint, Count, Counter, Process, Question, Shape, TableRows};
use restart::{Order, Plan, Resend, TakenOff};

// With purpose 1 or 3 the line becomes the oldest.
fn advances(purpose: u64) -> bool
    ensures { result ≡ advances purpose }
{
    purpose == 1 || purpose == 3
}

// With purpose 2 or 3 only the then oldest is kept.
fn restarts(purpose: u64) -> bool
    ensures { result ≡ restarts purpose }
{
    purpose == 2 || purpose == 3
}

// Checkpoint 1 of every process.
fn oldest_set(n: usize) -> [Checkpoint; 16]
    requires { n ≤ 16 }
    ensures { result ≡ checkpoints (present n (λ _. 1)) }
{
    let mut set = [Checkpoint(0); 16];
    for j in 0..n {
        set[j] = Checkpoint(1);
    }
    set
}

// The line checkpoint of every process.
fn line_checkpoints(tables: &Accepted, purpose: u64) -> [Checkpoint; 16]
    ensures { result ≡ checkpoints (present tables.now.rows.shape.n (line_checkpoint (view_of (tables_in tables.now)) purpose)) }
{
    let shape = tables.rows.shape;
    if !advances(purpose) {
        return oldest_set(shape.n);
    }
    let newest = finder::newest_set(shape);
    finder::find_from(tables, newest).set
}

// How many checkpoints go after the line checkpoint, of so many.
fn go_after(purpose: u64, count: usize, line: Checkpoint) -> usize
    requires { line.0 ≤ count }
    ensures { result ≡ pick (restarts purpose) (count - line.0) 0 }
{
    if restarts(purpose) { count - line.0 } else { 0 }
}

// How many are kept.
fn are_kept(purpose: u64, count: usize, line: Checkpoint) -> usize
    requires { (1 ≤ line.0) × (line.0 ≤ count) }
    ensures { result ≡ pick (restarts purpose) 1 (count - (line.0 - 1)) }
{
    if restarts(purpose) {
        1
    } else {
        count - (line.0 - 1)
    }
}

// The restart order to a line, with what is sent again.
fn order_to(shape: Shape, line: [Checkpoint; 16], purpose: u64, resend: Resend) -> Order
    requires { (shape.n ≤ 16) × AllNamed shape line }
    ensures from_value { (result.from ≡ line) × (result.resend ≡ resend) }
    ensures before_value { result.before ≡ numbers shape.n (λ j. chosen line j - 1) }
    ensures after_value { result.after ≡ numbers shape.n (λ j. pick (restarts purpose) (count shape j - chosen line j) 0) }
{
    let n = shape.n;
    let counts = shape.counts;
    let mut before = [0usize; 16];
    let mut after = [0usize; 16];
    for j in 0..n {
        let r = line[j];
        before[j] = r.0 - 1;
        after[j] = go_after(purpose, counts[j], r);
    }
    Order {
        from: line,
        before,
        after,
        resend,
    }
}

// How many checkpoints of each process are kept.
fn kept_from(shape: Shape, line: [Checkpoint; 16], purpose: u64) -> [usize; 16]
    requires { (shape.n ≤ 16) × AllNamed shape line }
    ensures { result ≡ numbers shape.n (λ j. pick (restarts purpose) 1 (count shape j - (chosen line j - 1))) }
{
    let n = shape.n;
    let counts = shape.counts;
    let mut kept = [0usize; 16];
    for j in 0..n {
        kept[j] = are_kept(purpose, counts[j], line[j]);
    }
    kept
}

// The counters of the line checkpoints in one of the tables, a row for each process. Of what they had received: what is taken off the
// receivers' counters.
fn line_rows(rows: TableRows, table: &[Counter], line: [Checkpoint; 16]) -> [Count; 256]
    requires { Whole rows table.now × AllNamed rows.shape line }
    ensures { result ≡ rows_of rows.shape.n (λ j p. counter_at rows.shape.counts table.now j (chosen line j) p) }
{
    let shape = rows.shape;
    let n = shape.n;
    let first = rows.first;
    let mut held = [Count(0); 256];
    for i in 0..n * book::ROW_WIDTH {
        let j = i / book::ROW_WIDTH;
        let p = i % book::ROW_WIDTH;
        held[i] = book::counter(table, first[j], line[j], Process(p + 1));
    }
    held
}

// What is taken off the senders' counters: the same matrix read the other way.
fn by_sender(n: usize, received: [Count; 256]) -> [Count; 256]
    requires { n ≤ 16 }
    ensures { result ≡ rows_of n (λ a b. entry received b a) }
{
    let mut sent = [Count(0); 256];
    for i in 0..n * book::ROW_WIDTH {
        let a = i / book::ROW_WIDTH;
        let b = i % book::ROW_WIDTH;
        sent[i] = received[b * book::ROW_WIDTH + a];
    }
    sent
}

// The first message to send again on a channel, by its two counts; 0 for none.
fn first_missing(received: Count, sent: Count) -> Count
    ensures { result.0 ≡ first_missing received.0 sent.0 }
{
    if received.0 < sent.0 {
        return Count(received.0 + 1);
    }
    Count(0)
}

// And the last one.
fn last_missing(received: Count, sent: Count) -> Count
    ensures { result.0 ≡ last_missing received.0 sent.0 }
{
    if received.0 < sent.0 {
        return sent;
    }
    Count(0)
}

// What is sent again on each channel, by what was received on it and what was sent, a row for each sender.
fn resend_from(n: usize, received: [Count; 256], sent: [Count; 256]) -> Resend
    requires { n ≤ 16 }
    ensures first_value { result.first ≡ rows_of n (λ a b. first_missing (entry received a b) (entry sent a b)) }
    ensures last_value { result.last ≡ rows_of n (λ a b. last_missing (entry received a b) (entry sent a b)) }
{
    let mut first = [Count(0); 256];
    let mut last = [Count(0); 256];
    for i in 0..n * book::ROW_WIDTH {
        first[i] = first_missing(received[i], sent[i]);
        last[i] = last_missing(received[i], sent[i]);
    }
    Resend { first, last }
}

// The tables of a move, if no question fails: theirs, then 11.
pub fn accept<'a>(
    shape: Shape,
    sent: &'a [Counter],
    received: &'a [Counter],
    purpose: u64,
) -> Result<Accepted<'a>, Question>
    ensures { accepted_in result ≡ answer_with (move_question (lent shape sent.now received.now) purpose) (lent shape sent.now received.now) }
{
    let tables = accepted::accept(shape, sent, received)?;
    if !book::is_purpose(purpose) {
        return Err(Question::Purpose);
    }
    Ok(tables)
}

// The plan of a move.
pub fn plan_move(tables: &Accepted, purpose: u64) -> Plan
    ensures { result ≡ plan_of tables.now.rows.shape.n (planned (view_of (tables_in tables.now)) purpose) }
{
    let shape = tables.rows.shape;
    let line = line_checkpoints(tables, purpose);
    let kept = kept_from(shape, line, purpose);
    let off_received = line_rows(tables.rows, tables.received, line);
    let off_sent = by_sender(shape.n, off_received);
    let sent_rows = line_rows(tables.rows, tables.sent, line);
    let resend = resend_from(shape.n, off_sent, sent_rows);
    let order = order_to(shape, line, purpose, resend);
    let off = TakenOff {
        sent: off_sent,
        received: off_received,
    };
    Plan {
        line,
        kept,
        off,
        order,
    }
}

// The restart order of the tables, which stay as they are. The tables' questions come first, then 11.
pub fn restart_order(
    shape: Shape,
    sent: &[Counter],
    received: &[Counter],
    purpose: u64,
) -> Result<Order, Question>
    ensures { by_number result ≡ answer_with (move_question (lent shape sent.now received.now) purpose) (order_given (lent shape sent.now received.now) purpose) }
{
    let tables = accept(shape, sent, received, purpose)?;
    Ok(plan_move(&tables, purpose).order)
}
