#![tactic(auto)]
// Document 01, "A search": what the initiator's and the participant's machine share, and flags for processes.
ghost use Rattle.std.specs.Prelude.{◌≡◌, ◌&&◌, not, ◌-◌, ◌≤◌, ◌<◌, eqb};
ghost use Rattle.book.specs.Accepted.{IsProcess};
ghost use Rattle.book.specs.View.{count, S};
ghost use Rattle.lists.specs.Over.{tab};
ghost use Rattle.matrix.specs.Matrix.{as_row, as_matrix};
ghost use Rattle.consistency.specs.Known.{counters};
ghost use Rattle.consistency.specs.Given.{Whole};
ghost use Rattle.machine.specs.Named.{participant_named, is_participant};
ghost use Rattle.machine.specs.Flags.{flag, someone, only_participants, participants};
ghost use Rattle.machine.specs.Sends.{nothing, only_to, is_termination};

use book::{Checkpoint, Count, Counter, Process, TableRows};
use mail::Outgoing;
use message::{Head, Message};
use std::array;

// What counts of rounds and of deliveries stay below.
pub const TALLY_LIMIT: u32 = 4294967295;

// Are both named, and is the participant another process than the initiator (question 10)?
pub fn participant_named(n: usize, me: Process, initiator: Process) -> bool
    ensures { result ≡ participant_named n me.0 initiator.0 }
{
    if !book::is_named(n, me.0) {
        return false;
    }
    if !book::is_named(n, initiator.0) {
        return false;
    }
    me != initiator
}

// Is it a participant? Both count from 0.
pub fn is_participant(n: usize, me: usize, p: usize) -> bool
    ensures { result ≡ is_participant n me p }
{
    p < n && p != me
}

// Every participant.
pub fn participants(n: usize, me: Process) -> [bool; 16]
    requires { 1 ≤ me.0 }
    ensures { result ≡ participants n (me.0 - 1) }
{
    let own = me.0 - 1;
    array::from_fn(|p| is_participant(n, own, p))
}

// Is some process flagged? Whether the initiator still waits is asked here.
pub fn someone(flags: [bool; 16]) -> bool
    ensures { result ≡ someone flags }
{
    flags.contains(&true)
}

// Are only participants awaited?
pub fn only_participants(n: usize, me: Process, flags: [bool; 16]) -> bool
    requires { 1 ≤ me.0 }
    ensures { result ≡ only_participants n (me.0 - 1) flags }
{
    let own = me.0 - 1;
    for p in 0..book::MOST_PROCESSES {
        if flags[p] && !is_participant(n, own, p) {
            return false;
        }
    }
    true
}

// The flags without process j's.
pub fn without(flags: [bool; 16], j: Process) -> [bool; 16]
    requires { 1 ≤ j.0 }
    ensures { result ≡ tab 16 (λ p. flag flags p && not (eqb p (j.0 - 1))) }
{
    let own = j.0 - 1;
    array::from_fn(|p| flags[p] && p != own)
}

// The sent counters of process j's checkpoint r. Inner: asks for the rows of a whole table and a checkpoint that exists.
// Tried by `from_fn`: that the closure may call `counter` at each turn did not close.
pub fn sent_row(rows: TableRows, sent: &[Counter], j: Process, r: Checkpoint) -> [Count; 16]
    requires whole { Whole rows sent.now × IsProcess rows j.0 }
    requires le_r { (1 ≤ r.0) × (r.0 ≤ count rows.shape (j.0 - 1)) }
    ensures { result ≡ as_row (λ p. S rows.shape sent.now (j.0 - 1) r.0 p) }
{
    let firsts = rows.first;
    let place = j.0 - 1;
    let first = firsts[place];
    let mut entries = [Count(0); 16];
    for p in 0..book::MOST_PROCESSES {
        entries[p] = book::counter(sent, first, r, Process(p + 1));
    }
    entries
}

// No message.
pub fn nothing(head: Head) -> Outgoing
    ensures { result ≡ nothing head }
{
    let to = [false; 16];
    let news = [Count(matrix::NOT_KNOWN); 256];
    Outgoing { head, to, news }
}

// The same row of news for every receiver.
fn for_each(news: [Count; 16]) -> [Count; 256]
    ensures { result ≡ as_matrix (λ p k. counters news k) }
{
    array::from_fn(|i| news[i % book::ROW_WIDTH])
}

// One message.
pub fn only_to(head: Head, receiver: Process, news: [Count; 16]) -> Outgoing
    requires { (1 ≤ receiver.0) × (receiver.0 ≤ 16) }
    ensures { result ≡ only_to head (receiver.0 - 1) news }
{
    let mut to = [false; 16];
    to[receiver.0 - 1] = true;
    let all = for_each(news);
    Outgoing {
        head,
        to,
        news: all,
    }
}

// Is it a termination, if it comes from the initiator?
pub fn is_termination(message: Message) -> bool
    ensures { result ≡ is_termination message }
{
    let head = message.head;
    let news = message.news;
    head.kind == 2 && message::pair_count(news) == 0
}
