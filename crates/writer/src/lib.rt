#![tactic(auto)]
// Writing a book: accepted tables to the bytes of document 01, at the start of a lent buffer.
ghost use Rattle.std.specs.Prelude.{◌≡◌, ◌+◌, ◌*◌, ◌≤◌, ◌<◌, length, get_or, leb};
ghost use Rattle.std.proofs.lemmas.List.Edits.{sets};
ghost use Rattle.book.specs.Tables.{partner_column};
ghost use Rattle.book.specs.Lent.{lent};
ghost use Rattle.book.specs.Accepted.{AreAccepted};
ghost use Rattle.book.specs.Numbers.{by_number};
ghost use Rattle.book.specs.Write.{bytes_of, answer_to_write, bytes_written};
ghost use Rattle.book.specs.Fits.{RowsFit, BookFits};
ghost use Rattle.writer.specs.Parts.{row_bytes, checkpoint_bytes, checkpoints_bytes, process_bytes};

use book::{Counter, Question, Shape};

// The k-th counter of a row of process j.
fn nth_counter(table: &[Counter], j: usize, row: usize, k: usize) -> u64
    requires { (row < 256) × ((k < 15) × (length table.now ≡ 4096)) }
    ensures { result ≡ get_or table.now (row * 16 + partner_column j k) 0 }
{
    let at = row * book::ROW_WIDTH + book::partner_column(j, k);
    u64::from(table[at])
}

// How many bytes the counters of a row of process j take. The bounds on sizes are there for the sums to fit.
fn row_size(table: &[Counter], n: usize, j: usize, row: usize) -> usize
    requires { RowsFit n j row 1 table.now }
    ensures value { result ≡ length (row_bytes n j row 0 table.now) }
    ensures upper_bound { result ≤ 150 }
{
    let mut size = 0;
    for k in 0..n - 1 {
        size += varint::size_of(nth_counter(table, j, row, k));
    }
    size
}

// How many bytes a checkpoint of process j takes.
fn checkpoint_size(sent: &[Counter], received: &[Counter], n: usize, j: usize, row: usize) -> usize
    requires rows_fit { RowsFit n j row 1 sent.now }
    requires rows_fit_2 { RowsFit n j row 1 received.now }
    ensures value { result ≡ length (checkpoint_bytes n j row sent.now received.now) }
    ensures upper_bound { result ≤ 300 }
{
    row_size(sent, n, j, row) + row_size(received, n, j, row)
}

// How many bytes the checkpoints of process j take, whose first row is `first`.
fn checkpoints_size(
    sent: &[Counter],
    received: &[Counter],
    n: usize,
    j: usize,
    first: usize,
    count: usize,
) -> usize
    requires rows_fit { RowsFit n j first count sent.now }
    requires rows_fit_2 { RowsFit n j first count received.now }
    ensures value { result ≡ length (checkpoints_bytes n j first count sent.now received.now) }
    ensures upper_bound { result ≤ 300 * count }
{
    let mut size = 0;
    for r in 0..count {
        size += checkpoint_size(sent, received, n, j, first + r);
    }
    size
}

// How many bytes process j takes with its count.
fn process_size(
    sent: &[Counter],
    received: &[Counter],
    n: usize,
    j: usize,
    first: usize,
    count: usize,
) -> usize
    requires rows_fit { RowsFit n j first count sent.now }
    requires rows_fit_2 { RowsFit n j first count received.now }
    ensures value { result ≡ length (process_bytes n j first count sent.now received.now) }
    ensures upper_bound { result ≤ 80000 }
{
    varint::size_of(count as u64) + checkpoints_size(sent, received, n, j, first, count)
}

// How many bytes the book takes.
fn book_size(shape: Shape, sent: &[Counter], received: &[Counter]) -> usize
    requires book_fits { BookFits shape.n shape.counts sent.now }
    requires book_fits_2 { BookFits shape.n shape.counts received.now }
    ensures { result ≡ length (bytes_of (lent shape sent.now received.now)) }
{
    let n = shape.n;
    let counts = shape.counts;
    let mut size = varint::size_of(n as u64);
    let mut first = 0;
    for j in 0..n {
        size += process_size(sent, received, n, j, first, counts[j]);
        first += counts[j];
    }
    size
}

// The counters of a row of process j, written at a place; it returns the place after them.
fn write_row(table: &[Counter], n: usize, j: usize, row: usize, out: &mut [u8], at: usize) -> usize
    requires rows_fit { RowsFit n j row 1 table.now }
    requires table_in_bounds { at + length (row_bytes n j row 0 table.now) ≤ length out.old }
    ensures value { result ≡ at + length (row_bytes n j row 0 table.now) }
    ensures out_after { out.new ≡ sets out.old at (row_bytes n j row 0 table.now) }
{
    let mut next = at;
    for k in 0..n - 1 {
        next = varint::put_number(nth_counter(table, j, row, k), out, next);
    }
    next
}

// A checkpoint of process j, written at a place: its row in both tables.
fn write_checkpoint(
    sent: &[Counter],
    received: &[Counter],
    n: usize,
    j: usize,
    row: usize,
    out: &mut [u8],
    at: usize,
) -> usize
    requires rows_fit { RowsFit n j row 1 sent.now }
    requires rows_fit_2 { RowsFit n j row 1 received.now }
    requires received_in_bounds { at + length (checkpoint_bytes n j row sent.now received.now) ≤ length out.old }
    ensures value { result ≡ at + length (checkpoint_bytes n j row sent.now received.now) }
    ensures out_after { out.new ≡ sets out.old at (checkpoint_bytes n j row sent.now received.now) }
{
    let middle = write_row(sent, n, j, row, out, at);
    write_row(received, n, j, row, out, middle)
}

// The checkpoints of process j, whose first row is `first`, written at a place.
fn write_checkpoints(
    sent: &[Counter],
    received: &[Counter],
    n: usize,
    j: usize,
    first: usize,
    count: usize,
    out: &mut [u8],
    at: usize,
) -> usize
    requires rows_fit { RowsFit n j first count sent.now }
    requires rows_fit_2 { RowsFit n j first count received.now }
    requires received_in_bounds { at + length (checkpoints_bytes n j first count sent.now received.now) ≤ length out.old }
    ensures value { result ≡ at + length (checkpoints_bytes n j first count sent.now received.now) }
    ensures out_after { out.new ≡ sets out.old at (checkpoints_bytes n j first count sent.now received.now) }
{
    let mut next = at;
    for r in 0..count {
        next = write_checkpoint(sent, received, n, j, first + r, out, next);
    }
    next
}

// Process j with its count, written at a place.
fn write_process(
    sent: &[Counter],
    received: &[Counter],
    n: usize,
    j: usize,
    first: usize,
    count: usize,
    out: &mut [u8],
    at: usize,
) -> usize
    requires rows_fit { RowsFit n j first count sent.now }
    requires rows_fit_2 { RowsFit n j first count received.now }
    requires received_in_bounds { at + length (process_bytes n j first count sent.now received.now) ≤ length out.old }
    ensures value { result ≡ at + length (process_bytes n j first count sent.now received.now) }
    ensures out_after { out.new ≡ sets out.old at (process_bytes n j first count sent.now received.now) }
{
    let next = varint::put_number(count as u64, out, at);
    write_checkpoints(sent, received, n, j, first, count, out, next)
}

// The book's bytes at the start of the buffer, for a caller that has made sure of the room; it returns how many.
fn write_book(shape: Shape, sent: &[Counter], received: &[Counter], out: &mut [u8]) -> usize
    requires book_fits { BookFits shape.n shape.counts sent.now }
    requires book_fits_2 { BookFits shape.n shape.counts received.now }
    requires received_in_bounds { length (bytes_of (lent shape sent.now received.now)) ≤ length out.old }
    ensures value { result ≡ length (bytes_of (lent shape sent.now received.now)) }
    ensures out_after { out.new ≡ sets out.old 0 (bytes_of (lent shape sent.now received.now)) }
{
    let n = shape.n;
    let counts = shape.counts;
    let mut next = varint::put_number(n as u64, out, 0);
    let mut first = 0;
    for j in 0..n {
        next = write_process(sent, received, n, j, first, counts[j], out, next);
        first += counts[j];
    }
    next
}

// Is there room for the book (question 17)? A buffer for the largest book always has it: only a smaller one makes us measure.
fn has_room(shape: Shape, sent: &[Counter], received: &[Counter], room: usize) -> bool
    requires { AreAccepted (lent shape sent.now received.now) }
    ensures { result ≡ leb (length (bytes_of (lent shape sent.now received.now))) room }
{
    if book::MOST_BYTES <= room {
        return true;
    }
    book_size(shape, sent, received) <= room
}

// The tables' book written to the start of a buffer: how many bytes, or the first question that fails, the buffer then
// unchanged. Bytes after the written ones are not touched.
pub fn write(
    shape: Shape,
    sent: &[Counter],
    received: &[Counter],
    out: &mut [u8],
) -> Result<usize, Question>
    ensures answer { by_number result ≡ answer_to_write (lent shape sent.now received.now) out.old }
    ensures bytes { out.new ≡ bytes_written (lent shape sent.now received.now) out.old }
{
    tables::check(shape, sent, received)?;
    if !has_room(shape, sent, received, out.len()) {
        return Err(Question::Room);
    }
    let size = write_book(shape, sent, received, out);
    Ok(size)
}
