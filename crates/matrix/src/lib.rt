#![tactic(auto)]
// Document 01, "A search": what a machine knows of sent counters, as rows of sixteen entries and a matrix of sixteen rows,
// and what differs between two rows.
mod whole;

ghost use Rattle.std.specs.Prelude.{◌≡◌, ◌-◌, ◌≤◌};
ghost use Rattle.matrix.specs.Matrix.{row, column, with_row, is_pair, not_known_at, not_known_row, not_known_matrix};
ghost use Rattle.matrix.specs.Entries.{differing, changed, diff, patch, zero_from, rest_zero, all_lower};

use book::{Count, Counter, Process};
use std::array;
pub use whole::{all_none_above, all_not_known, all_rest_zero, columns_differ, invitations, polls};

// The mark for "not known", as an entry.
pub const NOT_KNOWN: Counter = book::MARK as Counter;

// How many entries a matrix has.
pub const ENTRIES: usize = 256;

// What process j sent to each.
pub fn row(matrix: [Count; 256], j: Process) -> [Count; 16]
    requires { (1 ≤ j.0) × (j.0 ≤ 16) }
    ensures { result ≡ row matrix (j.0 - 1) }
{
    let first = (j.0 - 1) * book::ROW_WIDTH;
    array::from_fn(|p| matrix[first + p])
}

// What each sent to process p.
pub fn column(matrix: [Count; 256], p: Process) -> [Count; 16]
    requires { (1 ≤ p.0) × (p.0 ≤ 16) }
    ensures { result ≡ column matrix (p.0 - 1) }
{
    let across = p.0 - 1;
    array::from_fn(|j| matrix[j * book::ROW_WIDTH + across])
}

// The matrix with another row of process j.
pub fn with_row(matrix: [Count; 256], j: Process, entries: [Count; 16]) -> [Count; 256]
    requires { (1 ≤ j.0) × (j.0 ≤ 16) }
    ensures { result ≡ with_row matrix (j.0 - 1) entries }
{
    let mut next = matrix;
    let first = (j.0 - 1) * book::ROW_WIDTH;
    next[first..first + book::ROW_WIDTH].copy_from_slice(&entries);
    next
}

// Are j and p two processes that there are? Both count from 0.
fn is_pair(n: usize, j: usize, p: usize) -> bool
    ensures { result ≡ is_pair n j p }
{
    j < n && p < n && j != p
}

// "Not known" where j and p are two processes that there are, else zero; both count from 0.
fn not_known_at(n: usize, j: usize, p: usize) -> Count
    ensures { result.0 ≡ not_known_at n j p }
{
    if is_pair(n, j, p) {
        Count(NOT_KNOWN)
    } else {
        Count(0)
    }
}

// A row of process j in which nothing is known.
pub fn not_known_row(n: usize, j: Process) -> [Count; 16]
    requires { 1 ≤ j.0 }
    ensures { result ≡ not_known_row n (j.0 - 1) }
{
    let down = j.0 - 1;
    array::from_fn(|p| not_known_at(n, down, p))
}

// A matrix in which nothing is known.
pub fn not_known_matrix(n: usize) -> [Count; 256]
    ensures { result ≡ not_known_matrix n }
{
    array::from_fn(|i| not_known_at(n, i / book::ROW_WIDTH, i % book::ROW_WIDTH))
}

// The present entry as news, where it differs from the one held.
fn differing(now: Count, held: Count) -> Count
    ensures { result.0 ≡ differing now.0 held.0 }
{
    if now == held { Count(NOT_KNOWN) } else { now }
}

// The entry after news of it.
fn changed(held: Count, news: Count) -> Count
    ensures { result.0 ≡ changed held.0 news.0 }
{
    if news == Count(NOT_KNOWN) { held } else { news }
}

// News of the entries that differ from those held.
pub fn diff(now: [Count; 16], held: [Count; 16]) -> [Count; 16]
    ensures { result ≡ diff now held }
{
    array::from_fn(|p| differing(now[p], held[p]))
}

// The entries after the news.
pub fn patch(held: [Count; 16], news: [Count; 16]) -> [Count; 16]
    ensures { result ≡ patch held news }
{
    array::from_fn(|p| changed(held[p], news[p]))
}

// Are the entries from a place on zero?
fn zero_from(from: usize, a: [Count; 16]) -> bool
    ensures { result ≡ zero_from from a }
{
    for p in from..book::MOST_PROCESSES {
        let x = a[p];
        if x.0 != 0 {
            return false;
        }
    }
    true
}

// Are the diagonal and the entries of absent processes zero, in what process j sent or was sent? Only those are looked at.
pub fn rest_zero(n: usize, j: Process, a: [Count; 16]) -> bool
    requires { 1 ≤ j.0 }
    ensures { result ≡ rest_zero n (j.0 - 1) a }
{
    let down = j.0 - 1;
    if n <= down {
        return zero_from(0, a);
    }
    if book::MOST_PROCESSES <= down {
        return zero_from(n, a);
    }
    let own = a[down];
    if own.0 != 0 {
        return false;
    }
    zero_from(n, a)
}

// Is every counter of the news lower than the entry held?
pub fn all_lower(news: [Count; 16], held: [Count; 16]) -> bool
    ensures { result ≡ all_lower news held }
{
    for p in 0..book::MOST_PROCESSES {
        let x = news[p];
        let y = held[p];
        if x.0 != NOT_KNOWN && y.0 <= x.0 {
            return false;
        }
    }
    true
}
