// Document 01, question 13 of a session: what a strand holds.
ghost use Rattle.std.specs.Prelude.{◌≡◌, true, ◌+◌, ◌-◌, ◌≤◌, ◌<◌, length};
ghost use Rattle.strands.specs.Strands.{strand_start};
ghost use Rattle.session.specs.Held.{ends_search, held_down, held_up, is_report, waiting_bytes, held};
ghost use Rattle.session.specs.Fits.{strand_within};
ghost use Rattle.session_check.specs.Parts.{length_fits, bytes_on, Told};

use book::Process;
use initiator::Initiator;
use message::Message;
use participant::Participant;
use session::{Session, Waiting};

// Does a message to a participant end it?
fn ends_search(message: Message) -> bool
    ensures { result ≡ ends_search message }
{
    let head = message.head;
    head.purpose == 2 || machine::is_termination(message)
}

// A message to a participant.
fn held_down(n: usize, p: Participant, s: &[u8]) -> Waiting
    requires { n ≤ 16 }
    ensures { result ≡ held_down n p s.now }
{
    let me = p.me;
    let initiator = p.initiator;
    let read = message::read_message(s, n, me, initiator);
    let Ok(message) = p.message_question(read) else {
        return Waiting::Stray;
    };
    if ends_search(message) {
        return Waiting::Ending;
    }
    Waiting::Asking
}

// A message to the initiator.
fn held_up(n: usize, machine: Initiator, s: &[u8]) -> Waiting
    requires { (n ≤ 16) × (machine.n ≡ n) }
    ensures { result ≡ held_up n machine s.now }
{
    let me = machine.me;
    let Some(message) = message::read_message(s, n, me, me) else {
        return Waiting::Stray;
    };
    if machine.awaited_question(message).is_err() {
        return Waiting::Stray;
    }
    Waiting::Report
}

// What bytes on participant k's strand are, a report only if it passes at the initiator.
fn held_below(n: usize, initiator: Process, p: Participant, k: usize, s: &[u8]) -> Waiting
    requires { (n ≤ 16) × (k < 16) }
    ensures { Told n initiator.0 p k s.now result }
{
    if s.len() == 0 {
        return Waiting::Nothing;
    }
    let Some((head, _)) = message::read_head(s, n) else {
        return Waiting::Stray;
    };
    let sender = head.sender;
    if sender.0 == initiator.0 {
        return held_down(n, p, s);
    }
    if sender.0 != k + 1 {
        return Waiting::Stray;
    }
    Waiting::Report
}

// The same of what waits on it.
pub(crate) fn below(
    n: usize,
    initiator: Process,
    p: Participant,
    waits: usize,
    strands: &[u8],
    k: usize,
) -> Waiting
    requires le_n { (1 ≤ n) × (n ≤ 16) }
    requires le_initiator { (1 ≤ initiator.0) × (k < 16) }
    requires strands_value { length_fits n (initiator.0 - 1) k waits (length strands.now) ≡ true }
    ensures told { Told n initiator.0 p k (bytes_on n (initiator.0 - 1) waits strands.now k) result }
    ensures waits_in_bounds { is_report result ≡ true → strand_start n (initiator.0 - 1) k + waits ≤ length strands.now }
{
    if waits == 0 {
        return Waiting::Nothing;
    }
    let at = strands::strand_start(n, initiator.0 - 1, k);
    let end = at + waits;
    held_below(n, initiator, p, k, &strands[at..end])
}

// What a report on participant k's strand is to the initiator.
pub(crate) fn above(
    n: usize,
    initiator: Process,
    machine: Initiator,
    waits: usize,
    strands: &[u8],
    k: usize,
) -> Waiting
    requires le_n { (1 ≤ n) × ((n ≤ 16) × (machine.n ≡ n)) }
    requires le_initiator { (1 ≤ initiator.0) × (k < 16) }
    requires waits_in_bounds { strand_start n (initiator.0 - 1) k + waits ≤ length strands.now }
    ensures { result ≡ held_up n machine (bytes_on n (initiator.0 - 1) waits strands.now k) }
{
    let at = strands::strand_start(n, initiator.0 - 1, k);
    let end = at + waits;
    held_up(n, machine, &strands[at..end])
}

// What waits on participant k's strand. Inner: asks that it lies within its slot and the buffer.
pub fn held_on(session: Session, n: usize, strands: &[u8], k: usize) -> Waiting
    requires le_n { (1 ≤ n) × ((n ≤ 16) × (session.machine.n ≡ n)) }
    requires le_initiator { (1 ≤ session.initiator.0) × (k < 16) }
    requires k_value { strand_within n session strands.now k ≡ true }
    ensures { result ≡ held n session k (waiting_bytes n session strands.now k) }
{
    let initiator = session.initiator;
    let participants = session.participants;
    let lengths = session.lengths;
    let waits = lengths[k];
    let w = below(n, initiator, participants[k], waits, strands, k);
    if w != Waiting::Report {
        return w;
    }
    let machine = session.machine;
    above(n, initiator, machine, waits, strands, k)
}
