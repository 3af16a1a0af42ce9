#![tactic(auto)]
// Document 01, "Session": where each strand's message lies in one lent buffer, and putting messages there. Processes and the
// initiator count from 0 here.
ghost use Rattle.std.specs.Prelude.{◌≡◌, true, not, ◌||◌, ◌+◌, ◌≤◌, ◌<◌, length, leb};
ghost use Rattle.std.proofs.lemmas.List.Edits.{sets};
ghost use Rattle.book.specs.Bounds.{most_processes};
ghost use Rattle.mail.specs.Outgoing.{goes_to, bytes_to};
ghost use Rattle.strands.specs.Strands.{slot_size, strand_start, room_for_all, have_room, posted, lengths_posted};

use mail::Outgoing;

// The bytes that suffice for the strands of any number of processes: a slot for each participant.
pub const ROOM_FOR_ALL: usize = (book::MOST_PROCESSES - 1)
    * (message::HEAD_SIZE + (book::MOST_PROCESSES - 1) * message::PAIR_SIZE);

// How many bytes the longest message of n processes takes.
pub fn slot_size(n: usize) -> usize
    requires { (1 ≤ n) × (n ≤ 16) }
    ensures value { result ≡ slot_size n }
    ensures upper_bound { result ≤ slot_size most_processes }
{
    message::HEAD_SIZE + (n - 1) * message::PAIR_SIZE
}

// Where process k's slot begins.
pub fn strand_start(n: usize, initiator: usize, k: usize) -> usize
    requires le_n { (1 ≤ n) × (n ≤ 16) }
    requires k_bound { k < 16 }
    ensures value { result ≡ strand_start n initiator k }
    ensures upper_bound { result ≤ room_for_all most_processes }
{
    let size = slot_size(n);
    if initiator < k {
        return (k - 1) * size;
    }
    k * size
}

// Does the message to process k, if it gets one, fit a buffer of so many bytes?
fn has_room(outgoing: Outgoing, n: usize, initiator: usize, k: usize, room: usize) -> bool
    requires le_n { (1 ≤ n) × (n ≤ 16) }
    requires k_bound { k < 16 }
    ensures { result ≡ (not (goes_to outgoing k) || leb (strand_start n initiator k + length (bytes_to outgoing k)) room) }
{
    let to = outgoing.to;
    if !to[k] {
        return true;
    }
    strand_start(n, initiator, k) + mail::size_to(outgoing, k) <= room
}

// Do the messages fit (question 17)?
pub fn have_room(outgoing: Outgoing, n: usize, initiator: usize, strands: &[u8]) -> bool
    requires { (1 ≤ n) × (n ≤ 16) }
    ensures { result ≡ have_room n initiator outgoing strands.now }
{
    for k in 0..book::MOST_PROCESSES {
        if !has_room(outgoing, n, initiator, k, strands.len()) {
            return false;
        }
    }
    true
}

// The message to process k at the start of its slot, if it gets one; it returns the length.
fn post_to(outgoing: Outgoing, n: usize, initiator: usize, k: usize, strands: &mut [u8]) -> usize
    requires le_n { (1 ≤ n) × (n ≤ 16) }
    requires k_bound { k < 16 }
    requires strands_value { (not (goes_to outgoing k) || leb (strand_start n initiator k + length (bytes_to outgoing k)) (length strands.old)) ≡ true }
    ensures value { result ≡ length (bytes_to outgoing k) }
    ensures strands_after { strands.new ≡ sets strands.old (strand_start n initiator k) (bytes_to outgoing k) }
{
    let to = outgoing.to;
    if !to[k] {
        return 0;
    }
    let at = strand_start(n, initiator, k);
    mail::put_to(outgoing, k, &mut strands[at..])
}

// The messages, each at the start of its receiver's slot, for a caller that has made sure of the room; it returns how many
// bytes wait on each strand then.
pub fn post(
    outgoing: Outgoing,
    n: usize,
    initiator: usize,
    lengths: [usize; 16],
    strands: &mut [u8],
) -> [usize; 16]
    requires le_n { (1 ≤ n) × (n ≤ 16) }
    requires strands_value { have_room n initiator outgoing strands.old ≡ true }
    ensures value { result ≡ lengths_posted outgoing lengths }
    ensures strands_after { strands.new ≡ posted n initiator outgoing strands.old }
{
    let to = outgoing.to;
    let mut next = [0usize; 16];
    for k in 0..book::MOST_PROCESSES {
        let size = post_to(outgoing, n, initiator, k, strands);
        if to[k] {
            next[k] = size;
        } else {
            next[k] = lengths[k];
        }
    }
    next
}
