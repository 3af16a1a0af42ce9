// The pass that puts every question of a journal and changes nothing of the caller's.
ghost use Rattle.std.specs.Prelude.{◌≡◌, ◌≤◌, ◌<◌, length};
ghost use Rattle.book.specs.Bounds.{most_processes, most_bytes};
ghost use Rattle.book.specs.InTurn.{answer_with};
ghost use Rattle.book.specs.Numbers.{by_number};
ghost use Rattle.book.specs.Tables.{shape_of};
ghost use Rattle.journal.specs.Calls.{journal_question, journal_book};
ghost use Rattle.journal_reader.specs.Asking.{ChannelFound, channels, HasChannels, are_named, none_underway, first_counts};
ghost use Rattle.journal_reader.specs.Asking.{MessagesFit, CountsFit, HasRoom};
ghost use Rattle.journal_reader.specs.Asking.{SendingTaken, ReceiptTaken, CheckpointTaken, EventTaken, EventsTaken, JournalTaken};

use book::{Counter, Process, Question, Shape};
use journal::Event;

// Nothing underway, made by a function of its own, so that no proof meets its many entries one by one.
fn none_underway() -> [Counter; 256]
    ensures { result ≡ none_underway }
{
    [0; 256]
}

// Checkpoint 1 of every process is there from the start.
fn first_counts(n: usize) -> [usize; 16]
    requires { n ≤ most_processes }
    ensures { result ≡ first_counts n }
{
    let mut counts = [0usize; 16];
    counts[..n].fill(1);
    counts
}

// The place of a channel among those underway.
fn channel(sender: Process, receiver: Process) -> usize
    requires { HasChannels sender.0 × HasChannels receiver.0 }
    ensures { ChannelFound sender.0 receiver.0 result }
{
    (sender.0 - 1) * book::ROW_WIDTH + (receiver.0 - 1)
}

// Question 10 of a message.
fn are_named(n: usize, process: Process, partner: Process) -> bool
    ensures { result ≡ are_named n process.0 partner.0 }
{
    book::is_named(n, process.0) && book::is_named(n, partner.0)
}

// A message sent: one more is underway.
fn take_sending(
    n: usize,
    process: Process,
    partner: Process,
    underway: &mut [Counter],
) -> Result<(), Question>
    requires { (n ≤ most_processes) × MessagesFit underway.old }
    ensures { SendingTaken n process.0 partner.0 underway.old result underway.new }
{
    if !are_named(n, process, partner) {
        return Err(Question::Named);
    }
    let c = channel(process, partner);
    underway[c] += 1;
    Ok(())
}

// A message received: it is no longer underway.
fn take_receipt(
    n: usize,
    process: Process,
    partner: Process,
    underway: &mut [Counter],
) -> Result<(), Question>
    requires { (n ≤ most_processes) × (length underway.old ≡ channels) }
    ensures { ReceiptTaken n process.0 partner.0 underway.old result underway.new }
{
    if !are_named(n, process, partner) {
        return Err(Question::Named);
    }
    let c = channel(partner, process);
    if underway[c] == 0 {
        return Err(Question::Underway);
    }
    underway[c] -= 1;
    Ok(())
}

// A checkpoint.
fn take_checkpoint(
    n: usize,
    process: Process,
    counts: &mut [usize],
    total: usize,
) -> Result<(), Question>
    requires { (n ≤ most_processes) × CountsFit counts.old }
    ensures { CheckpointTaken n process.0 counts.old total result counts.new }
{
    if !book::is_named(n, process.0) {
        return Err(Question::Named);
    }
    if book::MOST_CHECKPOINTS <= total {
        return Err(Question::Checkpoints);
    }
    let j = process.0 - 1;
    counts[j] += 1;
    Ok(())
}

// The questions of one event, and what it changes; and how many checkpoints there are then.
fn take_event(
    n: usize,
    event: Event,
    underway: &mut [Counter],
    counts: &mut [usize],
    total: usize,
) -> Result<usize, Question>
    requires { (n ≤ most_processes) × HasRoom underway.old counts.old total }
    ensures { EventTaken n event underway.old counts.old total result underway.new counts.new }
{
    match event {
        Event::Sent(process, partner) => {
            take_sending(n, process, partner, underway)?;
            Ok(total)
        }
        Event::Received(process, partner) => {
            take_receipt(n, process, partner, underway)?;
            Ok(total)
        }
        Event::Checkpointed(process) => {
            take_checkpoint(n, process, counts, total)?;
            Ok(total + 1)
        }
    }
}

// The events from a place on, and the shape of the book that they build.
fn take_events(s: &[u8], at: usize, n: usize) -> Result<Shape, Question>
    requires { (n ≤ most_processes) × ((at ≤ length s.now) × (length s.now ≤ most_bytes)) }
    ensures { EventsTaken n s.now at result }
{
    let mut underway = none_underway();
    let mut counts = first_counts(n);
    let mut total = n;
    let mut next = at;
    // Not a `for`: where an event ends is known once it is read.
    while next < s.len() {
        let Some(placed) = journal::read_event(s, next) else {
            return Err(Question::EventFormed);
        };
        total = take_event(n, placed.event, &mut underway, &mut counts, total)?;
        next = placed.next;
    }
    Ok(Shape { n, counts })
}

// Questions 3 and 4 of the leading n, then those of the events.
fn take_journal(s: &[u8]) -> Result<Shape, Question>
    requires { length s.now ≤ most_bytes }
    ensures { JournalTaken s.now result }
{
    let Some((n, at)) = varint::read_number(s, 0, journal::GROUPS, journal::LARGEST) else {
        return Err(Question::Number);
    };
    if n < 1 {
        return Err(Question::Processes);
    }
    if (book::MOST_PROCESSES as u64) < n {
        return Err(Question::Processes);
    }
    take_events(s, at, n as usize)
}

// Every question of a journal, and the shape of the book that it builds.
pub fn question(bytes: &[u8], sent: &[Counter], received: &[Counter]) -> Result<Shape, Question>
    ensures { by_number result ≡ answer_with (journal_question bytes.now sent.now received.now) (shape_of (journal_book bytes.now)) }
{
    if book::MOST_BYTES < bytes.len() {
        return Err(Question::BookBytes);
    }
    if sent.len() != book::ENTRIES {
        return Err(Question::TableEntries);
    }
    if received.len() != book::ENTRIES {
        return Err(Question::TableEntries);
    }
    take_journal(bytes)
}
