// The pass that fills the tables of an accepted journal.
ghost use Rattle.std.specs.Prelude.{◌≡◌, ◌*◌};
ghost use Rattle.std.proofs.lemmas.List.Edits.{sets};
ghost use Rattle.book.specs.Bounds.{row_width};
ghost use Rattle.book.specs.Tables.{shape_of, sent_table, received_table};
ghost use Rattle.journal.specs.Calls.{journal_question, journal_book};
ghost use Rattle.journal_reader.specs.Filling.{is_checkpoint_event, IsRow, ToFill};

use book::{Counter, Shape};
use journal::Event;
use journal::counts::Counts;

fn is_checkpoint(event: Event) -> bool
    ensures { result ≡ is_checkpoint_event event }
{
    matches!(event, Event::Checkpointed(_))
}

// A row of counters put at its place.
fn put_row(table: &mut [Counter], row: usize, counters: [u16; 16])
    requires { IsRow row table.old }
    ensures { table.new ≡ sets table.old (row * row_width) counters }
{
    // Not `copy_from_slice`: each counter is widened.
    for p in 0..book::ROW_WIDTH {
        table[row * book::ROW_WIDTH + p] = Counter::from(counters[p]);
    }
}

// Both rows of a checkpoint: its process's counts as they are.
fn put_rows(sent: &mut [Counter], received: &mut [Counter], row: usize, counts: Counts)
    requires { IsRow row sent.old × IsRow row received.old }
    ensures sent { sent.new ≡ sets sent.old (row * row_width) counts.sent }
    ensures received { received.new ≡ sets received.old (row * row_width) counts.received }
{
    put_row(sent, row, counts.sent);
    put_row(received, row, counts.received);
}

// The rows of all checkpoints but the oldest, which hold zeros.
fn put_events(
    s: &[u8],
    at: usize,
    first: [usize; 16],
    sent: &mut [Counter],
    received: &mut [Counter],
)
    requires { ToFill s.now at first sent.old received.old }
    ensures sent { sent.new ≡ sent_table (journal_book s.now) }
    ensures received { received.new ≡ received_table (journal_book s.now) }
{
    let mut all = [Counts::none(); 16];
    let mut next = at;
    // Not a `for`: where an event ends is known once it is read.
    while next < s.len() {
        let found = journal::accepted_event(s, next);
        let event = found.event;
        let process = journal::process_of(event);
        let j = process.0 - 1;
        let counts = all[j];
        if is_checkpoint(event) {
            put_rows(sent, received, first[j] + counts.checkpoints, counts);
        }
        all[j] = journal::counts::after_event(counts, process, event);
        next = found.next;
    }
}

// Both tables of an accepted journal's book.
pub fn fill(bytes: &[u8], shape: Shape, sent: &mut [Counter], received: &mut [Counter])
    requires received_value { journal_question bytes.now sent.old received.old ≡ 0 }
    requires shape_value { shape ≡ shape_of (journal_book bytes.now) }
    ensures sent { sent.new ≡ sent_table (journal_book bytes.now) }
    ensures received { received.new ≡ received_table (journal_book bytes.now) }
{
    book::clear(sent, 0, book::ENTRIES);
    book::clear(received, 0, book::ENTRIES);
    let first = book::rows_of(shape).first;
    let Some((_, at)) = varint::read_number(bytes, 0, journal::GROUPS, journal::LARGEST) else {
        return;
    };
    put_events(bytes, at, first, sent, received);
}
