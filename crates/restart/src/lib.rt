#![tactic(auto)]
// Document 01, "The move (K 5.4)": plans of moves and restart orders. Values and definitions; the calls are in the crates above.
use book::{Checkpoint, Count};

// What to send again (document 02, E5): for each channel the number of the first message and of the last, as counted before the move.
// A row for each sender, a column for each receiver; 0 where nothing is sent again.
#[derive(Clone, Copy)]
pub struct Resend {
    pub first: [Count; 256],
    pub last: [Count; 256],
}

// A restart order: for each process the checkpoint restarted from, numbered as before the move, and how many go before and after
// it, absent processes with 0; and what to send again.
#[derive(Clone, Copy)]
pub struct Order {
    pub from: [Checkpoint; 16],
    pub before: [usize; 16],
    pub after: [usize; 16],
    pub resend: Resend,
}

// What a move takes off the counters of each process, of what it sent and of what it received: a row of sixteen for each, one
// matrix read both ways.
#[derive(Clone, Copy)]
pub struct TakenOff {
    pub sent: [Count; 256],
    pub received: [Count; 256],
}

// A plan of a move: for each process its line checkpoint, which is its oldest afterwards, and how many of its checkpoints are kept;
// what is taken off; and the restart order, whose checkpoints are the same. Once it is made, the move may write over the rows that it
// was made from.
#[derive(Clone, Copy)]
pub struct Plan {
    pub line: [Checkpoint; 16],
    pub kept: [usize; 16],
    pub off: TakenOff,
    pub order: Order,
}
