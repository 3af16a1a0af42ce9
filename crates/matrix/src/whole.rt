// Tests of a whole matrix, and news for each receiver.
ghost use Rattle.std.specs.Prelude.{◌≡◌, ◌&&◌, ◌||◌, not, ◌-◌, ◌≤◌, leb, eqb};
ghost use Rattle.matrix.specs.Whole.{all_rest_zero, all_not_known, all_none_above, columns_differ, invitations, polls};

use book::{Count, Process};
use std::array;

// Are the diagonal and the entries of absent processes zero?
pub fn all_rest_zero(n: usize, matrix: [Count; 256]) -> bool
    ensures { result ≡ all_rest_zero n matrix }
{
    for j in 0..book::MOST_PROCESSES {
        let row = crate::row(matrix, Process(j + 1));
        if !crate::rest_zero(n, Process(j + 1), row) {
            return false;
        }
    }
    true
}

// Is nothing known?
pub fn all_not_known(n: usize, matrix: [Count; 256]) -> bool
    ensures { result ≡ all_not_known n matrix }
{
    for j in 0..book::MOST_PROCESSES {
        let row = crate::row(matrix, Process(j + 1));
        let unknown = crate::not_known_row(n, Process(j + 1));
        if row != unknown {
            return false;
        }
    }
    true
}

// Still below after one more entry?
fn still_below(below: bool, x: Count, y: Count) -> bool
    ensures { result ≡ (leb x.0 y.0 && below) }
{
    if y.0 < x.0 {
        return false;
    }
    below
}

// Is no entry above the copy's? The loop looks at all of them, so that the compiler takes several at a time.
pub fn all_none_above(matrix: [Count; 256], copy: [Count; 256]) -> bool
    ensures { result ≡ all_none_above matrix copy }
{
    let mut below = true;
    for i in 0..crate::ENTRIES {
        below = still_below(below, matrix[i], copy[i]);
    }
    below
}

// Different, with one more entry?
fn or_differ(differ: bool, x: Count, y: Count) -> bool
    ensures { result ≡ (not (eqb x.0 y.0) || differ) }
{
    x != y || differ
}

// For each process, whether its column differs from the copy's: all columns in one sweep along the rows.
pub fn columns_differ(matrix: [Count; 256], copy: [Count; 256]) -> [bool; 16]
    ensures { result ≡ columns_differ matrix copy }
{
    let mut differ = [false; 16];
    for i in 0..crate::ENTRIES {
        let p = i % book::ROW_WIDTH;
        differ[p] = or_differ(differ[p], matrix[i], copy[i]);
    }
    differ
}

// For each receiver one pair: the sender's own counter for it. Tried by `from_fn`: what a call gives, by two cases, did not close.
pub fn invitations(me: Process, sent: [Count; 16]) -> [Count; 256]
    requires { 1 ≤ me.0 }
    ensures { result ≡ invitations (me.0 - 1) sent }
{
    let mut news = [Count(crate::NOT_KNOWN); 256];
    let own = me.0 - 1;
    for i in 0..crate::ENTRIES {
        if i % book::ROW_WIDTH == own {
            news[i] = sent[i / book::ROW_WIDTH];
        }
    }
    news
}

// For each receiver its column's entries that differ from the copy's.
pub fn polls(matrix: [Count; 256], copy: [Count; 256]) -> [Count; 256]
    ensures { result ≡ polls matrix copy }
{
    array::from_fn(|i| {
        let across = i % book::ROW_WIDTH * book::ROW_WIDTH + i / book::ROW_WIDTH;
        crate::differing(matrix[across], copy[across])
    })
}
