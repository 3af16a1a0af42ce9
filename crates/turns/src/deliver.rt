// Document 01, "Session": the message on a strand is delivered, by what it is.
ghost use Rattle.std.specs.Prelude.{◌≡◌, true, ◌≤◌};
ghost use Rattle.accepted.specs.Holding.{tables_in};
ghost use Rattle.machine.specs.Named.{is_participant};
ghost use Rattle.strands.specs.Strands.{length_on};
ghost use Rattle.session.specs.Workers.{initiator_of};
ghost use Rattle.session.specs.Held.{waiting_bytes, held};
ghost use Rattle.session.specs.Fits.{session_fits};
ghost use Rattle.session.specs.Steps.{deliver};
ghost use Rattle.turns.specs.Parts.{Deliverable};

use accepted::Accepted;
use session::{Session, Turned, Waiting};

// The message goes to the participant or to the initiator, or is none.
fn hand_over(session: Session, tables: &Accepted, k: usize, s: &[u8], w: Waiting) -> Turned
    requires deliverable { Deliverable tables.now.rows session k }
    requires w_value { w ≡ held tables.now.rows.shape.n session k s.now }
    ensures { result ≡ deliver (tables_in tables.now) session k s.now w }
{
    match w {
        Waiting::Nothing | Waiting::Stray => session_steps::as_before(session),
        Waiting::Asking | Waiting::Ending => {
            let participants = session.participants;
            let p = participants[k];
            let message = message::read_message(s, tables.rows.shape.n, p.me, p.initiator).unwrap();
            session_steps::deliver_message(session, tables, k, message)
        }
        Waiting::Report => session_steps::deliver_up(session, tables, k, s),
    }
}

// On a session that fits the tables, where a message waits on participant k's strand.
pub(crate) fn deliver(session: Session, tables: &Accepted, k: usize, strands: &[u8]) -> Turned
    requires strands_value { session_fits (tables_in tables.now) session strands.now ≡ true }
    requires le_initiator { (1 ≤ session.initiator.0) × (session.initiator.0 ≤ tables.now.rows.shape.n) }
    requires k_value { is_participant tables.now.rows.shape.n (initiator_of session) k ≡ true }
    requires fact { length_on session.lengths k ≡ 0 → ⊥ }
    ensures { result ≡ deliver (tables_in tables.now) session k (waiting_bytes tables.now.rows.shape.n session strands.now k) (held tables.now.rows.shape.n session k (waiting_bytes tables.now.rows.shape.n session strands.now k)) }
{
    let n = tables.rows.shape.n;
    let initiator = session.initiator;
    let lengths = session.lengths;
    let at = strands::strand_start(n, initiator.0 - 1, k);
    let end = at + lengths[k];
    let w = session_check::held_on(session, n, strands, k);
    hand_over(session, tables, k, &strands[at..end], w)
}
