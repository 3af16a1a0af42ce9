#![tactic(auto)]
// Document 01, "The move (K 5.4)": moving the line of lent tables, in place.
ghost use Rattle.std.specs.Prelude.{◌≡◌, ◌+◌, ◌-◌, ◌*◌, ◌≤◌, length};
ghost use Rattle.std.proofs.lemmas.List.Edits.{sets};
ghost use Rattle.book.specs.Lent.{lent};
ghost use Rattle.book.specs.Tables.{padded};
ghost use Rattle.book.specs.InTurn.{answer_with};
ghost use Rattle.book.specs.Numbers.{by_number};
ghost use Rattle.lists.specs.Over.{tab};
ghost use Rattle.shown.specs.Rows.{rows_to};
ghost use Rattle.restart.specs.Calls.{move_question, sent_moved, received_moved};
ghost use Rattle.moves.specs.Parts.{lowered, Movable, rows_moved, line_moved};

use book::{Checkpoint, Count, Counter, Process, Question, Shape, TableRows};
use restart::{Order, Plan};

// What `move_line` answers: the shape of the moved tables, and the restart order.
#[derive(Clone, Copy)]
pub struct Moved {
    pub shape: Shape,
    pub order: Order,
}

// One row to an earlier place, or to its own, less what is taken off. In accepted tables that is never more than the counter
// (`FallsExactly`).
fn move_row(table: &mut [Counter], from: usize, to: usize, off: [Count; 16])
    requires { (to ≤ from) × (from * 16 + 16 ≤ length table.old) }
    ensures { table.new ≡ sets table.old (to * 16) (tab 16 (lowered table.old from off)) }
{
    for p in 0..book::ROW_WIDTH {
        let v = table[from * book::ROW_WIDTH + p];
        table[to * book::ROW_WIDTH + p] = v.saturating_sub(off[p].0);
    }
}

// The kept rows of one process.
fn move_process(table: &mut [Counter], from: usize, to: usize, kept: usize, off: [Count; 16])
    requires { (to ≤ from) × ((from + kept) * 16 ≤ length table.old) }
    ensures { table.new ≡ sets table.old (to * 16) (rows_to (λ r. lowered table.old (from + (r - 1)) off) kept) }
{
    for k in 0..kept {
        move_row(table, from + k, to + k, off);
    }
}

// The kept rows of all processes, from the start of the table on; answers how many. No row is written over before it is read: those
// of the processes before take no more room than they had.
fn move_rows(
    rows: TableRows,
    table: &mut [Counter],
    line: [Checkpoint; 16],
    kept: [usize; 16],
    off: [Count; 256],
) -> usize
    requires { Movable rows line kept × (length table.old ≡ 4096) }
    ensures upper_bound { (result ≤ 256) × (length (rows_moved rows table.old line kept off) ≡ result * 16) }
    ensures table_after { table.new ≡ sets table.old 0 (rows_moved rows table.old line kept off) }
{
    let shape = rows.shape;
    let n = shape.n;
    let first = rows.first;
    let mut to = 0;
    for j in 0..n {
        let r = line[j];
        let own = matrix::row(off, Process(j + 1));
        move_process(table, first[j] + (r.0 - 1), to, kept[j], own);
        to += kept[j];
    }
    to
}

// A whole table: its kept rows, and zeros after them.
fn move_table(
    rows: TableRows,
    table: &mut [Counter],
    line: [Checkpoint; 16],
    kept: [usize; 16],
    off: [Count; 256],
)
    requires { Movable rows line kept × (length table.old ≡ 4096) }
    ensures { table.new ≡ padded 4096 (rows_moved rows table.old line kept off) }
{
    let to = move_rows(rows, table, line, kept, off);
    book::clear(table, to * book::ROW_WIDTH, book::ENTRIES);
}

// A plan applied: both tables, and the shape of what they hold then.
fn apply(rows: TableRows, plan: Plan, sent: &mut [Counter], received: &mut [Counter]) -> Shape
    requires movable { Movable rows plan.line plan.kept }
    requires sent_len { (length sent.old ≡ 4096) × (length received.old ≡ 4096) }
    ensures n_value { (result.n ≡ rows.shape.n) × (result.counts ≡ plan.kept) }
    ensures sent_after { sent.new ≡ padded 4096 (rows_moved rows sent.old plan.line plan.kept plan.off.sent) }
    ensures received_after { received.new ≡ padded 4096 (rows_moved rows received.old plan.line plan.kept plan.off.received) }
{
    let line = plan.line;
    let kept = plan.kept;
    let off = plan.off;
    let off_sent = off.sent;
    let off_received = off.received;
    move_table(rows, sent, line, kept, off_sent);
    move_table(rows, received, line, kept, off_received);
    let shape = rows.shape;
    Shape {
        n: shape.n,
        counts: kept,
    }
}

// The line moved, with the restart order. The tables' questions come first, then 11.
pub fn move_line(
    shape: Shape,
    sent: &mut [Counter],
    received: &mut [Counter],
    purpose: u64,
) -> Result<Moved, Question>
    ensures answer { by_number result ≡ answer_with (move_question (lent shape sent.old received.old) purpose) (line_moved (lent shape sent.old received.old) purpose) }
    ensures sent_after { sent.new ≡ sent_moved (lent shape sent.old received.old) purpose }
    ensures received_after { received.new ≡ received_moved (lent shape sent.old received.old) purpose }
{
    let tables = plans::accept(shape, sent, received, purpose)?;
    let rows = tables.rows;
    let plan = plans::plan_move(&tables, purpose);
    let moved = apply(rows, plan, sent, received);
    Ok(Moved {
        shape: moved,
        order: plan.order,
    })
}
