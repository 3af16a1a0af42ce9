#![tactic(auto)]
// Checkpoint books and their tables (document 01, "The book"): the values that every layer shares, and what the reader,
// the check of tables and the writer have in common. The definitions that their contracts cite are this crate's specs.
ghost use Rattle.std.specs.Prelude.{◌≡◌, false, ◌+◌, ◌-◌, ◌*◌, ◌≤◌, ◌<◌, length, replicate};
ghost use Rattle.std.proofs.lemmas.List.Edits.{sets};
ghost use Rattle.book.specs.Names.{is_named, is_purpose};
ghost use Rattle.book.specs.Tables.{partner_column};
ghost use Rattle.book.specs.View.{sum, first_rows, counter_from};
ghost use Rattle.book.specs.Before.{entry_before};
ghost use Rattle.book.specs.InTurn.{answer_to};
ghost use Rattle.book.specs.Numbers.{number, by_number};
ghost use Rattle.book.specs.Questions.{zero_if_asked, counter_question};
ghost use Rattle.book.specs.Along.{sent_zeros, received_zeros};

// The bounds of document 01.
pub const MOST_PROCESSES: usize = 16;

pub const MOST_CHECKPOINTS: usize = 256;

pub const MOST_BYTES: usize = 65536;

pub const GROUPS: u32 = 5;

pub const LARGEST: u64 = 4294967295;
// The mark for "not known": never a counter in a book or message.
pub const MARK: u64 = 4294967295;

pub const ROW_WIDTH: usize = 16;

pub const ENTRIES: usize = 4096;

// A process number, from 1 to n (K's j).
#[derive(Clone, Copy, PartialEq, Eq)]
pub struct Process(pub usize);

// A checkpoint number within its process, from 1, the oldest (K's r).
#[derive(Clone, Copy, PartialEq, Eq)]
pub struct Checkpoint(pub usize);

// An entry of a table.
pub type Counter = u32;

// A count of messages sent or received (K's counters).
#[derive(Clone, Copy, PartialEq, Eq)]
pub struct Count(pub Counter);

// n, and how many checkpoints each of sixteen processes has; 0 for absent ones.
#[derive(Clone, Copy)]
pub struct Shape {
    pub n: usize,
    pub counts: [usize; 16],
}

// A shape, and the first row of each process in the tables: found once, so that no place is added up anew.
#[derive(Clone, Copy)]
pub struct TableRows {
    pub shape: Shape,
    pub first: [usize; 16],
}

// The questions of documents 01 and 02, each under the number that it has there: what a call that refuses answers is the first
// one that fails.
#[derive(Clone, Copy, Debug, PartialEq, Eq)]
pub enum Question {
    // Are there at most 65,536 book bytes?
    BookBytes = 1,
    // Has each table 4,096 entries?
    TableEntries = 2,
    // Is the number whole, shortest, at most 5 bytes and 4,294,967,295?
    Number = 3,
    // Is n from 1 to 16?
    Processes = 4,
    // Is the count at least 1 and the sum so far at most 256?
    Checkpoints = 5,
    // Is the counter other than the mark?
    Mark = 6,
    // Of a received counter: is it zero, in an oldest checkpoint?
    OldestZero = 7,
    // Is it no lower than the same counter one checkpoint before?
    NoLower = 8,
    // Does nothing follow, and in tables, is everything unused zero?
    Unused = 9,
    // Is each process named from 1 to n (a participant: other than the initiator)?
    Named = 10,
    // Is the purpose 1, 2 or 3?
    Purpose = 11,
    // Does each named checkpoint exist?
    Exists = 12,
    // Does the state fit the tables?
    StateFits = 13,
    // Is the message formed?
    MessageFormed = 14,
    // Is it awaited here?
    Awaited = 15,
    // Is each counter lower than the entry now held?
    Lower = 16,
    // Do the bytes to be written fit the buffer?
    Room = 17,
    // Is a message waiting on that strand?
    Waiting = 18,
    // Is the event formed?
    EventFormed = 19,
    // Of a receipt: is a message underway from the partner to the process?
    Underway = 20,
    // Is the list of what to send again formed?
    ListFormed = 21,
}

impl Question {
    // Its number in the documents, by which callers from other languages know it.
    pub fn number(self) -> u32
        ensures { result ≡ number self }
    {
        self as u32
    }
}

// Is the purpose 1, 2 or 3 (question 11)?
pub fn is_purpose(purpose: u64) -> bool
    ensures { result ≡ is_purpose purpose }
{
    1 <= purpose && purpose <= 3
}

// Is the process from 1 to n (question 10)?
pub fn is_named(n: usize, process: usize) -> bool
    ensures { result ≡ is_named n process }
{
    1 <= process && process <= n
}

// Must the sent counters of a checkpoint be zero (question 7)? Not those of an oldest one either: they count what was on its way
// across the line.
pub fn sent_zeros(oldest: bool) -> bool
    ensures { result ≡ sent_zeros oldest }
{
    false
}

// Must its received counters be? Those of an oldest one must.
pub fn received_zeros(oldest: bool) -> bool
    ensures { result ≡ received_zeros oldest }
{
    oldest
}

// Question 7 asks only counters that must be zero.
fn zero_if_asked(zeros: bool, v: u64) -> bool
    ensures { result ≡ zero_if_asked zeros v }
{
    if zeros { v == 0 } else { true }
}

// Questions 6 to 8 of one counter.
pub fn counter_question(mark: u64, zeros: bool, before: u64, v: u64) -> Result<(), Question>
    ensures { by_number result ≡ answer_to (counter_question mark zeros before v) }
{
    if mark <= v {
        return Err(Question::Mark);
    }
    let is_zero = zero_if_asked(zeros, v);
    if !is_zero {
        return Err(Question::OldestZero);
    }
    if v < before {
        return Err(Question::NoLower);
    }
    Ok(())
}

// The same counter one checkpoint before; before the oldest there is nothing to be lower than.
pub fn entry_before(table: &[Counter], at: usize, oldest: bool) -> u64
    requires { (at < length table.now) × (oldest ≡ false → 16 ≤ at) }
    ensures { result ≡ entry_before oldest at table.now }
{
    if oldest {
        0
    } else {
        u64::from(table[at - ROW_WIDTH])
    }
}

// The column of the k-th of the other processes, in rising order, in a row of process j; both count from 0.
pub fn partner_column(j: usize, k: usize) -> usize
    requires { k < 16 }
    ensures { result ≡ partner_column j k }
{
    if k < j { k } else { k + 1 }
}

// The first rows of a shape's processes.
pub fn rows_of(shape: Shape) -> TableRows
    requires { sum shape.counts ≤ 256 }
    ensures { (result.shape ≡ shape) × (result.first ≡ first_rows shape.counts) }
{
    let counts = shape.counts;
    let mut first = [0usize; 16];
    let mut row = 0;
    for j in 0..MOST_PROCESSES {
        first[j] = row;
        row += counts[j];
    }
    TableRows { shape, first }
}

// The counter for partner p of checkpoint r, of a process whose first row is given: S in the sent table, R in the received
// one.
pub fn counter(table: &[Counter], first: usize, r: Checkpoint, p: Process) -> Count
    requires le_r { (1 ≤ r.0) × (first + r.0 ≤ 256) }
    requires le_p { (1 ≤ p.0) × ((p.0 ≤ 16) × (length table.now ≡ 4096)) }
    ensures { result.0 ≡ counter_from table.now first r.0 (p.0 - 1) }
{
    let row = first + (r.0 - 1);
    let at = row * ROW_WIDTH + (p.0 - 1);
    Count(table[at])
}

// Zeros from an entry up to another.
pub fn clear(table: &mut [Counter], from: usize, to: usize)
    requires { (from ≤ to) × (to ≤ length table.old) }
    ensures { table.new ≡ sets table.old from (replicate (to - from) 0) }
{
    table[from..to].fill(0);
}
