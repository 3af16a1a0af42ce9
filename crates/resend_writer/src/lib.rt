#![tactic(auto)]
// Writing the list of what to send again (document 02, E5), as bytes at the start of a lent buffer.
ghost use Rattle.std.specs.Prelude.{◌≡◌, true, ◌+◌, ◌*◌, ◌≤◌, ◌<◌, length};
ghost use Rattle.std.proofs.lemmas.List.Edits.{sets};
ghost use Rattle.varint.specs.Sequence.{encode_all};
ghost use Rattle.book.specs.Lent.{lent};
ghost use Rattle.book.specs.Numbers.{by_number};
ghost use Rattle.restart.specs.Values.{matrix_entries};
ghost use Rattle.resend.specs.Layout.{has_entry, one_entry, entry_count, entries_of, entry_size, list_bytes};
ghost use Rattle.resend.specs.Calls.{answer_to_write_list, list_written};

use book::{Count, Counter, Question, Shape};
use restart::Resend;

// Has a channel an entry, by its first message?
fn has_entry(first: Count) -> bool
    ensures { result ≡ has_entry first.0 }
{
    first.0 != 0
}

// How many entries a list has.
fn entry_count(list: Resend) -> usize
    ensures value { result ≡ entry_count list }
    ensures upper_bound { result ≤ matrix_entries }
{
    let firsts = list.first;
    let mut count = 0;
    for i in 0..matrix::ENTRIES {
        if has_entry(firsts[i]) {
            count += 1;
        }
    }
    count
}

// How many bytes the entry of the channel at place i takes. The bounds on sizes are there for the sums to fit.
fn entry_size(i: usize, first: Count, last: Count) -> usize
    requires { i < matrix_entries }
    ensures value { result ≡ length (encode_all (one_entry true i first.0 last.0)) }
    ensures upper_bound { result ≤ entry_size }
{
    let sender = varint::size_of((i / book::ROW_WIDTH + 1) as u64);
    let receiver = varint::size_of((i % book::ROW_WIDTH + 1) as u64);
    sender + receiver + varint::size_of(u64::from(first.0)) + varint::size_of(u64::from(last.0))
}

// How many bytes the entries take.
fn entries_size(list: Resend) -> usize
    ensures value { result ≡ length (encode_all (entries_of list)) }
    ensures upper_bound { result ≤ matrix_entries * entry_size }
{
    let firsts = list.first;
    let lasts = list.last;
    let mut size = 0;
    for i in 0..matrix::ENTRIES {
        let first = firsts[i];
        if has_entry(first) {
            size += entry_size(i, first, lasts[i]);
        }
    }
    size
}

// How many bytes a list takes.
fn list_size(list: Resend) -> usize
    ensures { result ≡ length (list_bytes list) }
{
    varint::size_of(entry_count(list) as u64) + entries_size(list)
}

// The entry of the channel at place i, written at a place; it returns the place after it.
fn put_entry(i: usize, first: Count, last: Count, out: &mut [u8], at: usize) -> usize
    requires { (i < matrix_entries) × (at + length (encode_all (one_entry true i first.0 last.0)) ≤ length out.old) }
    ensures value { result ≡ at + length (encode_all (one_entry true i first.0 last.0)) }
    ensures out_after { out.new ≡ sets out.old at (encode_all (one_entry true i first.0 last.0)) }
{
    let second = varint::put_number((i / book::ROW_WIDTH + 1) as u64, out, at);
    let third = varint::put_number((i % book::ROW_WIDTH + 1) as u64, out, second);
    let fourth = varint::put_number(u64::from(first.0), out, third);
    varint::put_number(u64::from(last.0), out, fourth)
}

// The entries, written at a place; it returns the place after them.
fn put_entries(list: Resend, out: &mut [u8], at: usize) -> usize
    requires { at + length (encode_all (entries_of list)) ≤ length out.old }
    ensures value { result ≡ at + length (encode_all (entries_of list)) }
    ensures out_after { out.new ≡ sets out.old at (encode_all (entries_of list)) }
{
    let firsts = list.first;
    let lasts = list.last;
    let mut next = at;
    for i in 0..matrix::ENTRIES {
        let first = firsts[i];
        if has_entry(first) {
            next = put_entry(i, first, lasts[i], out, next);
        }
    }
    next
}

// A list's bytes at the start of a buffer, for a caller that has made sure of the room; it returns how many.
fn put_list(list: Resend, out: &mut [u8]) -> usize
    requires { length (list_bytes list) ≤ length out.old }
    ensures value { result ≡ length (list_bytes list) }
    ensures out_after { out.new ≡ sets out.old 0 (list_bytes list) }
{
    let entries = varint::put_number(entry_count(list) as u64, out, 0);
    put_entries(list, out, entries)
}

// The list of the tables' restart order, written to the start of a buffer: how many bytes, or the first question that fails, the buffer
// then unchanged. The tables' questions come first, then 11, then 17. Bytes after the written ones are not touched.
pub fn write(
    shape: Shape,
    sent: &[Counter],
    received: &[Counter],
    purpose: u64,
    out: &mut [u8],
) -> Result<usize, Question>
    ensures answer { by_number result ≡ answer_to_write_list (lent shape sent.now received.now) purpose out.old }
    ensures bytes { out.new ≡ list_written (lent shape sent.now received.now) purpose out.old }
{
    let order = plans::restart_order(shape, sent, received, purpose)?;
    let list = order.resend;
    if out.len() < list_size(list) {
        return Err(Question::Room);
    }
    Ok(put_list(list, out))
}
