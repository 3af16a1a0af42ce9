#![tactic(auto)]
// Reading a book (document 01, questions 1 to 9): one pass along the bytes, which asks everything and puts the counters into
// tables of its own. Only those of an accepted book are copied to the lent ones, so that a refusal has touched nothing.
ghost use Rattle.std.specs.Prelude.{◌≡◌, ◌≤◌};
ghost use Rattle.book.specs.Read.{book_read, read_question, sent_read, received_read};
ghost use Rattle.book.specs.Tables.{shape_of, sent_table, received_table};
ghost use Rattle.book.specs.InTurn.{answer_to, answer_with};
ghost use Rattle.book.specs.Numbers.{by_number};
ghost use Rattle.reader.specs.Parts.{sizes_question, empty_table, RowClear, RowsClear};
ghost use Rattle.reader.specs.Parts.{RowTaken, CheckpointsTaken, ProcessTaken, ProcessesTaken, BookTaken};

use book::{Counter, Question, Shape};

// A table of the pass's own, made by a function of its own, so that no proof meets its many entries one by one.
fn empty_table() -> [Counter; 4096]
    ensures { result ≡ empty_table }
{
    [0; 4096]
}

// Questions 1 and 2, which ask only lengths.
fn sizes_question(bytes: usize, sent: usize, received: usize) -> Result<(), Question>
    ensures { by_number result ≡ answer_to (sizes_question bytes sent received) }
{
    if book::MOST_BYTES < bytes {
        return Err(Question::BookBytes);
    }
    if sent != book::ENTRIES {
        return Err(Question::TableEntries);
    }
    if received != book::ENTRIES {
        return Err(Question::TableEntries);
    }
    Ok(())
}

// The counters of one row of process j: questions 3 and 6 to 8 of each, which is put into its column, and the place after them. An
// oldest row has none before it; `zeros` says whether question 7 is asked. Books are mostly counters: these are read by the function
// that has no loop.
fn take_each_counter(
    s: &[u8],
    at: usize,
    oldest: bool,
    zeros: bool,
    n: usize,
    j: usize,
    table: &mut [Counter],
    start: usize,
) -> Result<usize, Question>
    requires { RowClear oldest n j start table.old }
    ensures { RowTaken oldest zeros n j start s.now at result table.old table.new }
{
    let mut next = at;
    for k in 0..n - 1 {
        let Some((v, after)) = varint::read_short(s, next, book::LARGEST) else {
            return Err(Question::Number);
        };
        let c = start + book::partner_column(j, k);
        let before = book::entry_before(table, c, oldest);
        book::counter_question(book::MARK, zeros, before, v)?;
        table[c] = v as Counter;
        next = after;
    }
    Ok(next)
}

// One row of process j. A single process has no counters, and its rows cost no call.
#[inline(always)]
fn take_counters(
    s: &[u8],
    at: usize,
    oldest: bool,
    zeros: bool,
    n: usize,
    j: usize,
    table: &mut [Counter],
    start: usize,
) -> Result<usize, Question>
    requires { RowClear oldest n j start table.old }
    ensures { RowTaken oldest zeros n j start s.now at result table.old table.new }
{
    if n < 2 {
        return Ok(at);
    }
    take_each_counter(s, at, oldest, zeros, n, j, table, start)
}

// The checkpoints of process j, whose rows begin at `first`: for each, a row of sent counters, then one of received. The place
// after them.
fn take_checkpoints(
    s: &[u8],
    at: usize,
    n: usize,
    j: usize,
    first: usize,
    count: usize,
    sent: &mut [Counter],
    received: &mut [Counter],
) -> Result<usize, Question>
    requires rows_clear { RowsClear n j first count sent.old }
    requires rows_clear_2 { RowsClear n j first count received.old }
    ensures { CheckpointsTaken n j first count s.now at result sent.old received.old sent.new received.new }
{
    let mut next = at;
    for r in 0..count {
        let start = (first + r) * book::ROW_WIDTH;
        let oldest = r == 0;
        let zeros = book::sent_zeros(oldest);
        let middle = take_counters(s, next, oldest, zeros, n, j, sent, start)?;
        let zeros = book::received_zeros(oldest);
        next = take_counters(s, middle, oldest, zeros, n, j, received, start)?;
    }
    Ok(next)
}

// Process j, after processes with `sum` checkpoints: its count, question 5, and its checkpoints; the count, and the place after.
fn take_process(
    s: &[u8],
    at: usize,
    n: usize,
    j: usize,
    sum: usize,
    sent: &mut [Counter],
    received: &mut [Counter],
) -> Result<(usize, usize), Question>
    requires rows_clear { RowsClear n j sum 0 sent.old }
    requires rows_clear_2 { RowsClear n j sum 0 received.old }
    ensures { ProcessTaken n j sum s.now at result sent.old received.old sent.new received.new }
{
    let Some((c, next)) = varint::read_number(s, at, book::GROUPS, book::LARGEST) else {
        return Err(Question::Number);
    };
    if c < 1 {
        return Err(Question::Checkpoints);
    }
    if ((book::MOST_CHECKPOINTS - sum) as u64) < c {
        return Err(Question::Checkpoints);
    }
    let count = c as usize;
    let after = take_checkpoints(s, next, n, j, sum, count, sent, received)?;
    Ok((count, after))
}

// The n processes that follow, then question 9; the book's shape.
fn take_processes(
    s: &[u8],
    at: usize,
    n: usize,
    sent: &mut [Counter],
    received: &mut [Counter],
) -> Result<Shape, Question>
    requires le_n { (1 ≤ n) × (n ≤ 16) }
    requires sent_value { (sent.old ≡ empty_table) × (received.old ≡ empty_table) }
    ensures { ProcessesTaken n s.now at result sent.new received.new }
{
    let mut counts = [0usize; 16];
    let mut sum = 0;
    let mut next = at;
    for j in 0..n {
        let (count, after) = take_process(s, next, n, j, sum, sent, received)?;
        counts[j] = count;
        sum += count;
        next = after;
    }
    if next != s.len() {
        return Err(Question::Unused);
    }
    Ok(Shape { n, counts })
}

// Questions 3 to 9 along the book, whose counters go into two empty tables.
fn take_book(s: &[u8], sent: &mut [Counter], received: &mut [Counter]) -> Result<Shape, Question>
    requires { (sent.old ≡ empty_table) × (received.old ≡ empty_table) }
    ensures { BookTaken s.now result sent.new received.new }
{
    let Some((n, next)) = varint::read_number(s, 0, book::GROUPS, book::LARGEST) else {
        return Err(Question::Number);
    };
    if n < 1 {
        return Err(Question::Processes);
    }
    if (book::MOST_PROCESSES as u64) < n {
        return Err(Question::Processes);
    }
    take_processes(s, next, n as usize, sent, received)
}

// Questions 1 to 9 alone, which writes nothing of the caller's: the book's shape, or the first question that fails.
pub fn check(bytes: &[u8], sent: &[Counter], received: &[Counter]) -> Result<Shape, Question>
    ensures { by_number result ≡ answer_with (read_question bytes.now sent.now received.now) (shape_of (book_read bytes.now)) }
{
    sizes_question(bytes.len(), sent.len(), received.len())?;
    let mut sent_inside = empty_table();
    let mut received_inside = empty_table();
    take_book(bytes, &mut sent_inside, &mut received_inside)
}

// The tables of a book that a check has accepted.
pub fn fill(bytes: &[u8], sent: &mut [Counter], received: &mut [Counter])
    requires { read_question bytes.now sent.old received.old ≡ 0 }
    ensures sent { sent.new ≡ sent_table (book_read bytes.now) }
    ensures received { received.new ≡ received_table (book_read bytes.now) }
{
    let _ = read(bytes, sent, received);
}

// A book's bytes taken into the lent tables, or refused by the first question that fails, the tables then unchanged. Not inlined, so
// that the tables inside leave the stack before the caller goes on.
#[inline(never)]
pub fn read(bytes: &[u8], sent: &mut [Counter], received: &mut [Counter]) -> Result<Shape, Question>
    ensures answer { by_number result ≡ answer_with (read_question bytes.now sent.old received.old) (shape_of (book_read bytes.now)) }
    ensures sent { sent.new ≡ sent_read bytes.now sent.old received.old }
    ensures received { received.new ≡ received_read bytes.now sent.old received.old }
{
    sizes_question(bytes.len(), sent.len(), received.len())?;
    let mut sent_inside = empty_table();
    let mut received_inside = empty_table();
    let shape = take_book(bytes, &mut sent_inside, &mut received_inside)?;
    sent.copy_from_slice(&sent_inside);
    received.copy_from_slice(&received_inside);
    Ok(shape)
}
