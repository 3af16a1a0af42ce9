// One process's running counts (document 02, E1): "changed by each event that names it".
ghost use Rattle.std.specs.Prelude.{◌≡◌, ◌+◌};
ghost use Rattle.journal.specs.Running.{no_counts, one_more, counts_after, counts_next, HasRoomAt, HasRoomFor, HasRoomOf};

use crate::Event;
use book::Process;

// What one process has sent to each partner and received from each so far, and how many checkpoints it has. Sixteen bits are enough,
// since no journal has more bytes than they count, and they are what is copied for each event.
#[derive(Clone, Copy)]
pub struct Counts {
    pub sent: [u16; 16],
    pub received: [u16; 16],
    pub checkpoints: usize,
}

// One more at a partner's place, which counts from 0. All sixteen are added to, most of them nothing, which takes fewer steps than to store one and then
// copy them all.
fn one_more(counts: [u16; 16], p: u16) -> [u16; 16]
    requires { HasRoomAt (p + 1) counts }
    ensures { result ≡ one_more (p + 1) counts }
{
    let mut next = counts;
    for q in 0..16u16 {
        let i = q as usize;
        next[i] = counts[i] + (q == p) as u16;
    }
    next
}

impl Counts {
    // Nothing sent or received, and checkpoint 1.
    pub fn none() -> Counts
        ensures { result ≡ no_counts }
    {
        Counts {
            sent: [0; 16],
            received: [0; 16],
            checkpoints: 1,
        }
    }

    // The counts after an event of this process.
    pub fn after(self, event: Event) -> Counts
        requires { HasRoomFor event self }
        ensures { result ≡ counts_after event self }
    {
        let mut next = self;
        match event {
            Event::Sent(_, partner) => {
                next.sent = one_more(self.sent, (partner.0 - 1) as u16);
            }
            Event::Received(_, partner) => {
                next.received = one_more(self.received, (partner.0 - 1) as u16);
            }
            Event::Checkpointed(_) => {
                next.checkpoints += 1;
            }
        }
        next
    }
}

// An event of a process logged in its counts, which are lent.
pub fn log(counts: &mut Counts, event: Event)
    requires { HasRoomFor event counts.old }
    ensures { counts.new ≡ counts_after event counts.old }
{
    let before = *counts;
    *counts = before.after(event);
}

// The same, with the counts in and back.
pub fn logged(counts: Counts, event: Event) -> Counts
    requires { HasRoomFor event counts }
    ensures { result ≡ counts_after event counts }
{
    let mut lent = counts;
    log(&mut lent, event);
    lent
}

// The counts of a process after an event: one that names it changes them, and every other leaves them, also where it is the partner.
pub fn after_event(counts: Counts, process: Process, event: Event) -> Counts
    requires { HasRoomOf process.0 event counts }
    ensures { result ≡ counts_next process.0 event counts }
{
    if crate::process_of(event) != process {
        return counts;
    }
    logged(counts, event)
}
