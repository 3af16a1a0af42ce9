// The value that goes with accepted tables.
ghost use Rattle.book.specs.Accepted.{AcceptedRows};

use book::{Counter, TableRows};

// Lent tables that pass every question, with the first row of each process in them.
#[derive(Clone, Copy)]
pub struct Accepted<'a> {
    pub rows: TableRows,
    pub sent: &'a [Counter],
    pub received: &'a [Counter],
    ghost passed: { AcceptedRows rows sent.now received.now },
}
