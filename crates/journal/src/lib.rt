#![tactic(auto)]
// Journals (document 02, E1): workers log events instead of keeping counters. The definitions that the contracts of the reader of
// journals cite are this crate's specs; here are an event as a value, and an event read from bytes.
pub mod counts;

ghost use Rattle.std.specs.Prelude.{◌≡◌};
ghost use Rattle.journal.specs.Running.{process_of};
ghost use Rattle.journal.specs.Parts.{EventFound, ShortFound, NamedAt, StandsAt};

use book::Process;

// The bounds of a journal's numbers: its own, whatever a book's may be.
pub const GROUPS: u32 = 5;

pub const LARGEST: u64 = 4294967295;

// An event of a journal: a message sent by a process to a partner, one received by a process from a partner, or a checkpoint made by
// a process.
#[derive(Clone, Copy)]
pub enum Event {
    Sent(Process, Process),
    Received(Process, Process),
    Checkpointed(Process),
}

// An event, and the place after it.
#[derive(Clone, Copy)]
pub struct Placed {
    pub event: Event,
    pub next: usize,
}

// The process that an event names first, whose counts it changes.
pub fn process_of(event: Event) -> Process
    ensures { result.0 ≡ process_of event }
{
    match event {
        Event::Sent(process, _) => process,
        Event::Received(process, _) => process,
        Event::Checkpointed(process) => process,
    }
}

// The event at a place, whatever bytes its numbers take: a number missing or not formed, an unknown kind, or a partner equal to the
// process make it none (question 19).
fn read_any_event(s: &[u8], at: usize) -> Option<Placed>
    ensures { EventFound s.now at result }
{
    let (kind, second) = varint::read_number(s, at, GROUPS, LARGEST)?;
    let (process, third) = varint::read_number(s, second, GROUPS, LARGEST)?;
    let by = Process(process as usize);
    if kind == 3 {
        return Some(Placed {
            event: Event::Checkpointed(by),
            next: third,
        });
    }
    let (partner, next) = varint::read_number(s, third, GROUPS, LARGEST)?;
    if partner == process {
        return None;
    }
    let with = Process(partner as usize);
    if kind == 1 {
        return Some(Placed {
            event: Event::Sent(by, with),
            next,
        });
    }
    if kind == 2 {
        return Some(Placed {
            event: Event::Received(by, with),
            next,
        });
    }
    None
}

// The same where three bytes are left and the event's numbers have one byte each, as they all have in a journal that passes; no event
// found says nothing.
fn read_short_event(s: &[u8], at: usize) -> Option<Placed>
    ensures { ShortFound s.now at result }
{
    if s.len() < 3 {
        return None;
    }
    if s.len() - 3 < at {
        return None;
    }
    let kind = s[at];
    let process = s[at + 1];
    let partner = s[at + 2];
    if 128 <= process {
        return None;
    }
    let by = Process(process as usize);
    if kind == 3 {
        return Some(Placed {
            event: Event::Checkpointed(by),
            next: at + 2,
        });
    }
    if 128 <= partner {
        return None;
    }
    if partner == process {
        return None;
    }
    let with = Process(partner as usize);
    if kind == 1 {
        return Some(Placed {
            event: Event::Sent(by, with),
            next: at + 3,
        });
    }
    if kind == 2 {
        return Some(Placed {
            event: Event::Received(by, with),
            next: at + 3,
        });
    }
    None
}

// The event at a place, none where none is formed there (question 19).
pub fn read_event(s: &[u8], at: usize) -> Option<Placed>
    ensures { EventFound s.now at result }
{
    if let Some(placed) = read_short_event(s, at) {
        return Some(placed);
    }
    read_any_event(s, at)
}

// The event at a place of an accepted journal, whose numbers have one byte each.
pub fn accepted_event(s: &[u8], at: usize) -> Placed
    requires { NamedAt s.now at }
    ensures { StandsAt s.now at result.event result.next }
{
    let kind = s[at];
    let process = s[at + 1];
    let by = Process(process as usize);
    if kind == 3 {
        return Placed {
            event: Event::Checkpointed(by),
            next: at + 2,
        };
    }
    let partner = s[at + 2];
    let with = Process(partner as usize);
    if kind == 1 {
        return Placed {
            event: Event::Sent(by, with),
            next: at + 3,
        };
    }
    Placed {
        event: Event::Received(by, with),
        next: at + 3,
    }
}
