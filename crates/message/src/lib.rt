#![tactic(auto)]
// Document 01, "Message (own)": messages as data and as bytes, and reading them.
ghost use Rattle.std.specs.Prelude.{◌≡◌, ◌≤◌, Some, None};
ghost use Rattle.lists.specs.Pick.{pick};
ghost use Rattle.message.specs.Layout.{pair_count};
ghost use Rattle.message.specs.Formed.{head_formed, participant_end, pair_formed, invitation_formed, message_formed};
ghost use Rattle.message.specs.Read.{message_read};
ghost use Rattle.message.specs.Parts.{HeadFound, end_number, counted_read, pairs_read};

use book::{Count, Counter, Process};

// The most bytes of the four numbers before a message's pairs, and of a pair: a process of one byte, and a counter.
pub const HEAD_SIZE: usize = 4;

pub const PAIR_SIZE: usize = 1 + book::GROUPS as usize;

// What stands before the pairs of a message.
#[derive(Clone, Copy)]
pub struct Head {
    pub kind: u64,
    pub purpose: u64,
    pub sender: Process,
}

// A message: its head, and for each process the counter that a pair names, or the mark where none does.
#[derive(Clone, Copy)]
pub struct Message {
    pub head: Head,
    pub news: [Count; 16],
}

// Is the head formed: a kind, a purpose, a sender, and purpose 2 only in an invitation?
fn head_formed(n: usize, kind: u64, purpose: u64, sender: u64) -> bool
    ensures { result ≡ head_formed n kind purpose sender }
{
    if kind != 1 && kind != 2 {
        return false;
    }
    if !book::is_purpose(purpose) {
        return false;
    }
    if !book::is_named(n, sender as usize) {
        return false;
    }
    purpose != 2 || kind == 1
}

// The head of a message and the place after it, where it is formed: read apart from its pairs, so that a reader can decide by it.
pub fn read_head(s: &[u8], n: usize) -> Option<(Head, usize)>
    ensures { HeadFound n s.now result }
{
    let (kind, second) = varint::read_number(s, 0, book::GROUPS, book::LARGEST)?;
    let (purpose, third) = varint::read_number(s, second, book::GROUPS, book::LARGEST)?;
    let (sender, next) = varint::read_number(s, third, book::GROUPS, book::LARGEST)?;
    if !head_formed(n, kind, purpose, sender) {
        return None;
    }
    let head = Head {
        kind,
        purpose,
        sender: Process(sender as usize),
    };
    Some((head, next))
}

// The participant at whose end of the strand a message is read; none where the initiator reads one that names itself.
fn participant_end(me: Process, initiator: Process, sender: Process) -> Option<Process>
    ensures { end_number result ≡ participant_end me.0 initiator.0 sender.0 }
{
    if me != initiator {
        return Some(me);
    }
    if sender == initiator {
        return None;
    }
    Some(sender)
}

// Is a pair formed, after one that names process `last`?
fn pair_formed(n: usize, end: Option<Process>, last: u64, process: u64, counter: u64) -> bool
    ensures { result ≡ pair_formed n (end_number end) last process counter }
{
    if process <= last {
        return false;
    }
    if n < process as usize {
        return false;
    }
    if Some(Process(process as usize)) == end {
        return false;
    }
    counter < book::MARK
}

// What so many pairs from a place on carry, where they are formed and end the bytes; none names the participant `end`.
fn read_counted(
    s: &[u8],
    at: usize,
    n: usize,
    end: Option<Process>,
    count: u64,
) -> Option<[Count; 16]>
    requires { n ≤ 16 }
    ensures { result ≡ counted_read n (end_number end) s.now at count }
{
    let mut news = [Count(matrix::NOT_KNOWN); 16];
    let mut last: u64 = 0;
    let mut next = at;
    for k in 0..count {
        let (process, middle) = varint::read_number(s, next, book::GROUPS, book::LARGEST)?;
        let (counter, after) = varint::read_number(s, middle, book::GROUPS, book::LARGEST)?;
        if !pair_formed(n, end, last, process, counter) {
            return None;
        }
        let place = process as usize - 1;
        news[place] = Count(counter as Counter);
        last = process;
        next = after;
    }
    if next != s.len() {
        return None;
    }
    Some(news)
}

// What the pairs from a place on carry, their count before them, where they are formed and end the bytes.
pub fn read_pairs(s: &[u8], at: usize, n: usize, end: Option<Process>) -> Option<[Count; 16]>
    requires { n ≤ 16 }
    ensures { result ≡ pairs_read n (end_number end) s.now at }
{
    let (count, first) = varint::read_number(s, at, book::GROUPS, book::LARGEST)?;
    read_counted(s, first, n, end, count)
}

// How many pairs a message has.
pub fn pair_count(news: [Count; 16]) -> usize
    ensures value { result ≡ pair_count news }
    ensures upper_bound { result ≤ 16 }
{
    let mut count = 0;
    for p in 0..book::MOST_PROCESSES {
        let counter = news[p];
        if counter.0 != matrix::NOT_KNOWN {
            count += 1;
        }
    }
    count
}

// Has an invitation just the pair of its sender, and one of purpose 2 none?
fn invitation_formed(message: Message) -> bool
    requires { (1 ≤ message.head.sender.0) × (message.head.sender.0 ≤ 16) }
    ensures { result ≡ invitation_formed message }
{
    let head = message.head;
    let news = message.news;
    if head.kind != 1 {
        return true;
    }
    let pairs = pair_count(news);
    if head.purpose == 2 {
        return pairs == 0;
    }
    let sender = head.sender;
    let place = sender.0 - 1;
    let own = news[place];
    pairs == 1 && own.0 != matrix::NOT_KNOWN
}

// The message that bytes hold, read by process `me` in the initiator's search, where it is formed (question 14). Inner: asks for
// at most sixteen processes.
pub fn read_message(s: &[u8], n: usize, me: Process, initiator: Process) -> Option<Message>
    requires { n ≤ 16 }
    ensures { result
        ≡ pick (message_formed n me.0 initiator.0 s.now) (Some (message_read n me.0 initiator.0 s.now)) None }
{
    let (head, at) = read_head(s, n)?;
    let end = participant_end(me, initiator, head.sender);
    let news = read_pairs(s, at, n, end)?;
    let message = Message { head, news };
    if !invitation_formed(message) {
        return None;
    }
    Some(message)
}
