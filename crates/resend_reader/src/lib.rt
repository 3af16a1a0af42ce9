#![tactic(auto)]
// Reading a list of what to send again (document 02, E5).
ghost use Rattle.std.specs.Prelude.{◌≡◌, ◌≤◌};
ghost use Rattle.book.specs.Bounds.{most_processes};
ghost use Rattle.book.specs.InTurn.{answer_with, answer_to};
ghost use Rattle.book.specs.Numbers.{by_number};
ghost use Rattle.resend.specs.Questions.{entry_formed, entry_question, list_question};
ghost use Rattle.resend.specs.Calls.{list_read};
ghost use Rattle.resend_reader.specs.Parts.{EntryFound, question_from, entries_from};

use book::{Count, Counter, Question};
use restart::Resend;

// The four numbers of an entry, before any is asked.
#[derive(Clone, Copy)]
pub struct Entry {
    pub sender: u64,
    pub receiver: u64,
    pub first: u64,
    pub last: u64,
}

// The entry at a place of a list, and the place after it; none where a number is missing (question 3).
fn read_entry(s: &[u8], at: usize) -> Option<(Entry, usize)>
    ensures { EntryFound s.now at result }
{
    let (sender, second) = varint::read_number(s, at, book::GROUPS, book::LARGEST)?;
    let (receiver, third) = varint::read_number(s, second, book::GROUPS, book::LARGEST)?;
    let (first, fourth) = varint::read_number(s, third, book::GROUPS, book::LARGEST)?;
    let (last, next) = varint::read_number(s, fourth, book::GROUPS, book::LARGEST)?;
    let entry = Entry {
        sender,
        receiver,
        first,
        last,
    };
    Some((entry, next))
}

// Does an entry rise, by sender, then receiver, after one of the channel from s to r, and has it two processes, and a first message
// that is not past the last?
fn entry_formed(s: u64, r: u64, entry: Entry) -> bool
    ensures { result ≡ entry_formed s r entry.sender entry.receiver entry.first entry.last }
{
    (s, r) < (entry.sender, entry.receiver)
        && entry.sender != entry.receiver
        && 1 <= entry.first
        && entry.first <= entry.last
}

// Questions 10 and 21 of an entry.
fn entry_question(n: usize, s: u64, r: u64, entry: Entry) -> Result<(), Question>
    ensures { by_number result ≡ answer_to (entry_question n s r entry.sender entry.receiver entry.first entry.last) }
{
    if !book::is_named(n, entry.sender as usize) {
        return Err(Question::Named);
    }
    if !book::is_named(n, entry.receiver as usize) {
        return Err(Question::Named);
    }
    if !entry_formed(s, r, entry) {
        return Err(Question::ListFormed);
    }
    Ok(())
}

// So many entries from a place on, up to the end of the bytes.
fn read_entries(s: &[u8], at: usize, n: usize, count: u64) -> Result<Resend, Question>
    requires { n ≤ most_processes }
    ensures { by_number result ≡ answer_with (question_from n s.now at count) (entries_from s.now at) }
{
    let mut list = Resend {
        first: [Count(0); 256],
        last: [Count(0); 256],
    };
    let mut sender: u64 = 0;
    let mut receiver: u64 = 0;
    let mut next = at;
    for k in 0..count {
        let Some((entry, after)) = read_entry(s, next) else {
            return Err(Question::Number);
        };
        entry_question(n, sender, receiver, entry)?;
        sender = entry.sender;
        receiver = entry.receiver;
        let place = (sender as usize - 1) * book::ROW_WIDTH + (receiver as usize - 1);
        list.first[place] = Count(entry.first as Counter);
        list.last[place] = Count(entry.last as Counter);
        next = after;
    }
    if next != s.len() {
        return Err(Question::ListFormed);
    }
    Ok(list)
}

// The list that bytes hold, among n processes: question 4 of n, 3 of the leading count, then entry by entry 3, 10 and 21.
pub fn read(n: usize, bytes: &[u8]) -> Result<Resend, Question>
    ensures { by_number result ≡ answer_with (list_question n bytes.now) (list_read n bytes.now) }
{
    if n < 1 {
        return Err(Question::Processes);
    }
    if book::MOST_PROCESSES < n {
        return Err(Question::Processes);
    }
    let Some((count, first)) = varint::read_number(bytes, 0, book::GROUPS, book::LARGEST) else {
        return Err(Question::Number);
    };
    read_entries(bytes, first, n, count)
}
