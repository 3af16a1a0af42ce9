#![tactic(auto)]
// Accepted tables: that they have passed every question goes with them, so that no function below a call asks it of its caller.
mod lent;

ghost use Rattle.std.specs.Prelude.{◌≡◌};
ghost use Rattle.book.specs.Check.{tables_question};
ghost use Rattle.book.specs.InTurn.{answer_with};
ghost use Rattle.book.specs.Lent.{lent};
ghost use Rattle.accepted.specs.Holding.{accepted_in};

use book::{Counter, Question, Shape};
pub use lent::Accepted;

// Lent tables, if they pass.
pub fn accept<'a>(
    shape: Shape,
    sent: &'a [Counter],
    received: &'a [Counter],
) -> Result<Accepted<'a>, Question>
    ensures { accepted_in result ≡ answer_with (tables_question (lent shape sent.now received.now)) (lent shape sent.now received.now) }
{
    tables::check(shape, sent, received)?;
    let rows = book::rows_of(shape);
    Ok(Accepted {
        rows,
        sent,
        received,
    })
}
