#![tactic(auto)]
// Document 01, "Session": the machines of one search, joined by strands. Values and definitions; the calls are in the crates
// above.
use book::Process;
use initiator::Initiator;
use mail::Outgoing;
use participant::Participant;

// What a strand holds: nothing; a message to the participant that it answers by a report (a searching invitation, a poll), or
// that ends it (a termination, the invitation of a restart); a report; or something that passes at neither end.
#[derive(Clone, Copy, PartialEq, Eq)]
pub enum Waiting {
    Nothing,
    Asking,
    Ending,
    Report,
    Stray,
}

// A session: the initiator's machine, a participant's machine at each other process's place, how many bytes wait on each
// strand (0 for no message; they lie in a lent buffer), and how many messages were delivered.
#[derive(Clone, Copy)]
pub struct Session {
    pub n: usize,
    pub initiator: Process,
    pub purpose: u64,
    pub machine: Initiator,
    pub participants: [Participant; 16],
    pub lengths: [usize; 16],
    pub delivered: u32,
}

// A session whose machines have taken a step, and what the step puts on strands: here a message is addressed by the participant
// whose strand it is put on, also where it goes to the initiator.
#[derive(Clone, Copy)]
pub struct Turned {
    pub session: Session,
    pub outgoing: Outgoing,
}
