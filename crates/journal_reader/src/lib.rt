#![tactic(auto)]
// Taking a journal (document 02, E1): one pass along the bytes that puts every question, and one that fills the lent tables. The
// first learns how many checkpoints each process has, without which no row has its place.
mod asking;
mod filling;

ghost use Rattle.std.specs.Prelude.{◌≡◌};
ghost use Rattle.book.specs.InTurn.{answer_with};
ghost use Rattle.book.specs.Numbers.{by_number};
ghost use Rattle.book.specs.Tables.{shape_of};
ghost use Rattle.journal.specs.Calls.{journal_question, journal_book, sent_built, received_built};

use book::{Counter, Question, Shape};

// A journal's bytes taken into the lent tables, and the shape of the book that they build; or refused by the first question that fails,
// the tables then unchanged.
pub fn read(bytes: &[u8], sent: &mut [Counter], received: &mut [Counter]) -> Result<Shape, Question>
    ensures answer { by_number result ≡ answer_with (journal_question bytes.now sent.old received.old) (shape_of (journal_book bytes.now)) }
    ensures sent { sent.new ≡ sent_built bytes.now sent.old received.old }
    ensures received { received.new ≡ received_built bytes.now sent.old received.old }
{
    let shape = asking::question(bytes, sent, received)?;
    filling::fill(bytes, shape, sent, received);
    Ok(shape)
}
