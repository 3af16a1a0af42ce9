#![tactic(auto)]
// What crosses to other languages as words of 64 bits: the definitions of every value, and the code of those that are numbers.
pub mod layout;

ghost use Rattle.std.specs.Prelude.{◌≡◌, ◌+◌, ◌≤◌, length};
ghost use Rattle.std.proofs.lemmas.List.Edits.{sets};
ghost use Rattle.book.specs.Bounds.{most_processes};
ghost use Rattle.words.specs.Words.{shape_length, set_length, resend_length, order_length, matrix_length, all_below, counter_in, tally_in, sixteen_at, counts_at, count_words};
ghost use Rattle.words.specs.Plain.{shape_in, shape_words, set_in, counts_in, number_words, set_words, resend_words, order_words};

use book::{Checkpoint, Count, Counter, Shape};
use restart::{Order, Resend};

// What a counter's word is below: a counter is at most the mark for "not known".
pub const COUNTER_BOUND: u64 = book::MARK + 1;

// What the word of a tally is below, a count of rounds or of deliveries.
pub const TALLY_BOUND: u64 = machine::TALLY_LIMIT as u64 + 1;

// A word as a number of a shape, a name or a length.
pub fn number(w: u64) -> usize
    ensures { result ≡ w }
{
    w as usize
}

// A number as a word.
pub fn of_number(v: usize) -> u64
    ensures { result ≡ v }
{
    v as u64
}

// A word as a counter; of a longer one the low bits. No `From`: neither type is of this crate, and a bound's remainder says more.
pub fn counter_in(w: u64) -> Counter
    ensures { result ≡ counter_in w }
{
    (w % COUNTER_BOUND) as Counter
}

// A word as a tally, likewise.
pub fn tally_in(w: u64) -> u32
    ensures { result ≡ tally_in w }
{
    (w % TALLY_BOUND) as u32
}

// A tally as a word.
pub fn of_tally(v: u32) -> u64
    ensures { result ≡ v }
{
    v as u64
}

// Are k words from a place on each below a bound?
pub fn all_below(bound: u64, words: &[u64], at: usize, k: usize) -> bool
    requires { at + k ≤ length words.now }
    ensures { result ≡ all_below bound words.now at k }
{
    for i in 0..k {
        if bound <= words[at + i] {
            return false;
        }
    }
    true
}

// Sixteen numbers from a place on.
pub fn numbers_at(words: &[u64], at: usize) -> [usize; 16]
    requires { at + most_processes ≤ length words.now }
    ensures { result ≡ sixteen_at words.now at }
{
    let mut numbers = [0usize; 16];
    for i in 0..book::MOST_PROCESSES {
        numbers[i] = words[at + i] as usize;
    }
    numbers
}

// N counters from a place on: a row or a column, or a matrix.
pub fn counts_at<const N: usize>(words: &[u64], at: usize) -> [Count; N]
    requires { at + N ≤ length words.now }
    ensures { result ≡ counts_at N words.now at }
{
    let mut counts = [Count(0); N];
    for i in 0..N {
        counts[i] = Count(counter_in(words[at + i]));
    }
    counts
}

// The shape in a slice of words.
pub fn shape_in(words: &[u64]) -> Shape
    requires { length words.now ≡ shape_length }
    ensures { result ≡ shape_in words.now }
{
    let n = words[0] as usize;
    let counts = numbers_at(words, layout::SHAPE_COUNTS_AT);
    Shape { n, counts }
}

// The set in a slice of words.
pub fn set_in(words: &[u64]) -> [Checkpoint; 16]
    requires { length words.now ≡ set_length }
    ensures { result ≡ set_in words.now }
{
    let mut set = [Checkpoint(0); 16];
    for i in 0..book::MOST_PROCESSES {
        set[i] = Checkpoint(words[i] as usize);
    }
    set
}

// Sixteen counters lent beside the tables.
pub fn counts_in(entries: &[Counter]) -> [Count; 16]
    requires { length entries.now ≡ most_processes }
    ensures { result ≡ counts_in entries.now }
{
    let mut counts = [Count(0); 16];
    for i in 0..book::MOST_PROCESSES {
        counts[i] = Count(entries[i]);
    }
    counts
}

// Sixteen numbers, to a place on.
pub fn put_numbers(numbers: [usize; 16], words: &mut [u64], at: usize)
    requires { at + most_processes ≤ length words.old }
    ensures { words.new ≡ sets words.old at (number_words numbers) }
{
    for i in 0..book::MOST_PROCESSES {
        words[at + i] = numbers[i] as u64;
    }
}

// Sixteen checkpoint numbers.
pub fn put_set(set: [Checkpoint; 16], words: &mut [u64], at: usize)
    requires { at + most_processes ≤ length words.old }
    ensures { words.new ≡ sets words.old at (set_words set) }
{
    for i in 0..book::MOST_PROCESSES {
        let r = set[i];
        words[at + i] = r.0 as u64;
    }
}

// N counters, likewise.
pub fn put_counts<const N: usize>(counts: [Count; N], words: &mut [u64], at: usize)
    requires { at + N ≤ length words.old }
    ensures { words.new ≡ sets words.old at (count_words N counts.entry) }
{
    for i in 0..N {
        let count = counts[i];
        words[at + i] = u64::from(count.0);
    }
}

// A shape, to a slice of its length.
pub fn put_shape(shape: Shape, words: &mut [u64])
    requires { length words.old ≡ shape_length }
    ensures { words.new ≡ shape_words shape }
{
    let counts = shape.counts;
    words[0] = shape.n as u64;
    put_numbers(counts, words, layout::SHAPE_COUNTS_AT);
}

// What to send again, to a place on.
pub fn put_resend(resend: Resend, words: &mut [u64], at: usize)
    requires { at + resend_length ≤ length words.old }
    ensures { words.new ≡ sets words.old at (resend_words resend) }
{
    put_counts(resend.first, words, at);
    put_counts(resend.last, words, at + layout::RESEND_LAST_AT);
}

// An order, to a slice of its length.
pub fn put_order(order: Order, words: &mut [u64])
    requires { length words.old ≡ order_length }
    ensures { words.new ≡ order_words order }
{
    let from = order.from;
    let before = order.before;
    let after = order.after;
    let resend = order.resend;
    put_set(from, words, 0);
    put_numbers(before, words, layout::ORDER_BEFORE_AT);
    put_numbers(after, words, layout::ORDER_AFTER_AT);
    put_resend(resend, words, layout::ORDER_RESEND_AT);
}
