// The quick test of tables, for almost all of them pass: does no question from 6 to 9 fail?
ghost use Rattle.std.specs.Prelude.{◌≡◌, true, ◌+◌, ◌≤◌, ◌<◌, length, take};
ghost use Rattle.book.specs.Bounds.{mark};
ghost use Rattle.book.specs.Lent.{lent};
ghost use Rattle.book.specs.Check.{counts_question};
ghost use Rattle.book.specs.Fits.{RowsFit, BookFits};
ghost use Rattle.tables.specs.Sound.{Between, Known, Zero, Rising, RowsSound, TableSound, Passed};

use book::{Counter, Shape};

// The mark as an entry.
const MARK: Counter = book::MARK as Counter;

// Still below the mark after one more entry?
fn still_known(known: bool, v: Counter) -> bool
    ensures { result ≡ true → (known ≡ true) × (v < mark) }
{
    if MARK <= v {
        return false;
    }
    known
}

// Is every entry below the mark, from a place up to another?
fn none_mark(table: &[Counter], from: usize, to: usize) -> bool
    requires { (from ≤ to) × (to ≤ length table.now) }
    ensures { result ≡ true → Between from to (Known table.now) }
{
    let mut known = true;
    for i in from..to {
        known = still_known(known, table[i]);
    }
    known
}

// Still rising after one more entry?
fn still_rising(rising: bool, before: Counter, v: Counter) -> bool
    ensures { result ≡ true → (rising ≡ true) × (before ≤ v) }
{
    if v < before {
        return false;
    }
    rising
}

// Is no entry, from a place up to another, lower than the one a row before?
fn all_rising(table: &[Counter], from: usize, to: usize) -> bool
    requires { (16 ≤ from) × (from ≤ to) × (to ≤ length table.now) }
    ensures { result ≡ true → Between from to (Rising table.now) }
{
    let mut rising = true;
    for i in from..to {
        let row_before = i - book::ROW_WIDTH;
        rising = still_rising(rising, table[row_before], table[i]);
    }
    rising
}

// Is the oldest row, which starts at an entry, zero where it must be (question 7)?
fn oldest_passes(table: &[Counter], start: usize, zeros: bool) -> bool
    requires { start + 16 ≤ length table.now }
    ensures { result ≡ true → zeros ≡ true → Between start (start + 16) (Zero table.now) }
{
    if zeros {
        crate::all_zero(table, start, start + book::ROW_WIDTH)
    } else {
        true
    }
}

// Are the rows of process j sound? Since they rise, the newest tells of marks and of what is unused in all of them.
fn process_sound(
    table: &[Counter],
    first: usize,
    n: usize,
    j: usize,
    count: usize,
    zeros: bool,
) -> bool
    requires rows_fit { RowsFit n j first count table.now }
    requires le_count { 1 ≤ count }
    ensures { result ≡ true → RowsSound zeros n j first count table.now }
{
    let oldest = first * book::ROW_WIDTH;
    let second = oldest + book::ROW_WIDTH;
    let end = (first + count) * book::ROW_WIDTH;
    let newest = end - book::ROW_WIDTH;
    if !oldest_passes(table, oldest, zeros) {
        return false;
    }
    if !all_rising(table, second, end) {
        return false;
    }
    if !none_mark(table, newest, end) {
        return false;
    }
    let own = newest + j;
    if table[own] != 0 {
        return false;
    }
    crate::all_zero(table, newest + n, end)
}

// Is one table sound?
fn table_sound(shape: Shape, table: &[Counter], zeros: bool) -> bool
    requires book_fits { BookFits shape.n shape.counts table.now }
    requires counts_value { counts_question 0 (take shape.n shape.counts) ≡ 0 }
    ensures { result ≡ true → TableSound zeros shape.n shape.counts table.now }
{
    let n = shape.n;
    let counts = shape.counts;
    let mut first = 0;
    for j in 0..n {
        let count = counts[j];
        let is_sound = process_sound(table, first, n, j, count, zeros);
        if !is_sound {
            return false;
        }
        first += count;
    }
    let end = first * book::ROW_WIDTH;
    crate::all_zero(table, end, book::ENTRIES)
}

// Does no question from 6 to 9 fail? Almost all tables pass, and this looks at several entries at a time; which question fails is looked for only after a no.
pub fn sound(shape: Shape, sent: &[Counter], received: &[Counter]) -> bool
    requires book_fits { BookFits shape.n shape.counts sent.now }
    requires book_fits_2 { BookFits shape.n shape.counts received.now }
    requires counts_value { counts_question 0 (take shape.n shape.counts) ≡ 0 }
    ensures { result ≡ true → Passed (lent shape sent.now received.now) }
{
    if !crate::absent_zero(shape) {
        return false;
    }
    if !table_sound(shape, sent, book::sent_zeros(true)) {
        return false;
    }
    table_sound(shape, received, book::received_zeros(true))
}
