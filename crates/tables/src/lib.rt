#![tactic(auto)]
// The questions that lent tables meet (document 01, questions 2 and 4 to 9), put by every call that takes tables.
mod quick;

ghost use Rattle.std.specs.Prelude.{◌≡◌, true, false, ◌&&◌, ◌+◌, ◌-◌, ◌*◌, ◌≤◌, ◌<◌, length, take, drop, eqb};
ghost use Rattle.book.specs.Lent.{lent};
ghost use Rattle.book.specs.Bounds.{mark};
ghost use Rattle.book.specs.Tables.{others, checkpoints_of, processes_of};
ghost use Rattle.book.specs.Check.{counts_question, rows_question, contents_question, tables_question};
ghost use Rattle.book.specs.Layout.{joined};
ghost use Rattle.book.specs.InTurn.{answer_to};
ghost use Rattle.book.specs.Numbers.{by_number};
ghost use Rattle.book.specs.Questions.{length_question, all_zero, unused_of, unused_from, unused_zero};
ghost use Rattle.book.specs.Along.{counters_question, process_question};
ghost use Rattle.book.specs.Fits.{RowsFit, BookFits};
ghost use Rattle.book.specs.Before.{counters_before};
ghost use Rattle.tables.specs.Row.{RowFits};

use book::{Counter, Question, Shape};

// All of question 5.
fn counts_question(shape: Shape) -> Result<(), Question>
    requires { shape.n ≤ 16 }
    ensures { by_number result ≡ answer_to (counts_question 0 (take shape.n shape.counts)) }
{
    let n = shape.n;
    let counts = shape.counts;
    let mut sum = 0;
    for j in 0..n {
        let count = counts[j];
        if count < 1 {
            return Err(Question::Checkpoints);
        }
        if book::MOST_CHECKPOINTS - sum < count {
            return Err(Question::Checkpoints);
        }
        sum += count;
    }
    Ok(())
}

// Questions 6 to 8 of the row of process j that starts at an entry of one table, given the row before it: an oldest row has none
// before it; `zeros` says whether question 7 is asked.
fn row_question(
    table: &[Counter],
    start: usize,
    n: usize,
    j: usize,
    oldest: bool,
    zeros: bool,
) -> Result<(), Question>
    requires { RowFits oldest n j start table.now }
    ensures { by_number result ≡ answer_to (counters_question mark zeros (counters_before oldest n j start table.now) (others n j (drop start table.now))) }
{
    for k in 0..n - 1 {
        let at = start + book::partner_column(j, k);
        let v = u64::from(table[at]);
        let before = book::entry_before(table, at, oldest);
        book::counter_question(book::MARK, zeros, before, v)?;
    }
    Ok(())
}

// Questions 6 to 8 of the checkpoints of process j, whose first row is `first`.
fn process_question(
    sent: &[Counter],
    received: &[Counter],
    first: usize,
    n: usize,
    j: usize,
    count: usize,
) -> Result<(), Question>
    requires rows_fit { RowsFit n j first count sent.now }
    requires rows_fit_2 { RowsFit n j first count received.now }
    ensures { by_number result ≡ answer_to (process_question mark n count (joined (checkpoints_of n j count (drop (first * 16) sent.now) (drop (first * 16) received.now)))) }
{
    for r in 0..count {
        let start = (first + r) * book::ROW_WIDTH;
        let oldest = r == 0;
        row_question(sent, start, n, j, oldest, book::sent_zeros(oldest))?;
        row_question(received, start, n, j, oldest, book::received_zeros(oldest))?;
    }
    Ok(())
}

// Questions 6 to 8 in book order. The first row of each process is kept as we go.
fn rows_question(shape: Shape, sent: &[Counter], received: &[Counter]) -> Result<(), Question>
    requires book_fits { BookFits shape.n shape.counts sent.now }
    requires book_fits_2 { BookFits shape.n shape.counts received.now }
    ensures { by_number result ≡ answer_to (rows_question mark shape.n (processes_of shape.n 0 (take shape.n shape.counts) sent.now received.now)) }
{
    let n = shape.n;
    let counts = shape.counts;
    let mut first = 0;
    for j in 0..n {
        let count = counts[j];
        process_question(sent, received, first, n, j, count)?;
        first += count;
    }
    Ok(())
}

// Still clear after one more entry?
fn still_clear(clear: bool, v: Counter) -> bool
    ensures { result ≡ (clear && eqb v 0) }
{
    if v != 0 {
        return false;
    }
    clear
}

// Are the entries from a place up to another all zero? The loop looks at all of them, so that the compiler takes several at a time.
fn all_zero(table: &[Counter], from: usize, to: usize) -> bool
    requires { (from ≤ to) × (to ≤ length table.now) }
    ensures { result ≡ all_zero (drop from (take to table.now)) }
{
    let mut clear = true;
    for i in from..to {
        clear = still_clear(clear, table[i]);
    }
    clear
}

// Are the counts of absent processes zero?
fn absent_zero(shape: Shape) -> bool
    requires { shape.n ≤ 16 }
    ensures { result ≡ all_zero (drop shape.n shape.counts) }
{
    let counts = shape.counts;
    for j in shape.n..book::MOST_PROCESSES {
        if counts[j] != 0 {
            return false;
        }
    }
    true
}

// Is everything unused zero in the rows of process j, its own column and those of absent processes?
fn process_unused_zero(table: &[Counter], first: usize, n: usize, j: usize, count: usize) -> bool
    requires { RowsFit n j first count table.now }
    ensures { result ≡ all_zero (unused_of n j count (drop (first * 16) table.now)) }
{
    for r in 0..count {
        let start = (first + r) * book::ROW_WIDTH;
        let own = start + j;
        if table[own] != 0 {
            return false;
        }
        let is_zero = all_zero(table, start + n, start + book::ROW_WIDTH);
        if !is_zero {
            return false;
        }
    }
    true
}

// Is everything unused zero in one table?
fn unused_zero(shape: Shape, table: &[Counter]) -> bool
    requires { BookFits shape.n shape.counts table.now }
    ensures { result ≡ all_zero (unused_from shape.n 0 (take shape.n shape.counts) table.now) }
{
    let n = shape.n;
    let counts = shape.counts;
    let mut first = 0;
    for j in 0..n {
        let count = counts[j];
        let is_zero = process_unused_zero(table, first, n, j, count);
        if !is_zero {
            return false;
        }
        first += count;
    }
    all_zero(table, first * book::ROW_WIDTH, book::ENTRIES)
}

// All of question 9: the counts of absent processes, and both tables.
fn everything_unused_zero(shape: Shape, sent: &[Counter], received: &[Counter]) -> bool
    requires book_fits { BookFits shape.n shape.counts sent.now }
    requires book_fits_2 { BookFits shape.n shape.counts received.now }
    ensures { result ≡ unused_zero (lent shape sent.now received.now) }
{
    if !absent_zero(shape) {
        return false;
    }
    if !unused_zero(shape, sent) {
        return false;
    }
    unused_zero(shape, received)
}

// Question 2.
pub fn length_question(sent: &[Counter], received: &[Counter]) -> Result<(), Question>
    ensures { by_number result ≡ answer_to (length_question sent.now received.now) }
{
    if sent.len() != book::ENTRIES {
        return Err(Question::TableEntries);
    }
    if received.len() != book::ENTRIES {
        return Err(Question::TableEntries);
    }
    Ok(())
}

// The questions after 2, of tables of that length.
pub fn contents_question(
    shape: Shape,
    sent: &[Counter],
    received: &[Counter],
) -> Result<(), Question>
    requires { (length sent.now ≡ 4096) × (length received.now ≡ 4096) }
    ensures { by_number result ≡ answer_to (contents_question (lent shape sent.now received.now)) }
{
    let n = shape.n;
    if n < 1 {
        return Err(Question::Processes);
    }
    if book::MOST_PROCESSES < n {
        return Err(Question::Processes);
    }
    counts_question(shape)?;
    if quick::sound(shape, sent, received) {
        return Ok(());
    }
    rows_question(shape, sent, received)?;
    let is_zero = everything_unused_zero(shape, sent, received);
    if !is_zero {
        return Err(Question::Unused);
    }
    Ok(())
}

// Do lent tables pass?
pub fn check(shape: Shape, sent: &[Counter], received: &[Counter]) -> Result<(), Question>
    ensures { by_number result ≡ answer_to (tables_question (lent shape sent.now received.now)) }
{
    length_question(sent, received)?;
    contents_question(shape, sent, received)
}
