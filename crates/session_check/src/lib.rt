#![tactic(auto)]
// Document 01, questions 10, 11 and 13 of a session: are the processes named, are the purposes purposes, does it fit the tables?
// And what a strand holds.
mod held;

ghost use Rattle.std.specs.Prelude.{◌≡◌, true, false, not, ◌&&◌, ◌+◌, ◌-◌, ◌≤◌, ◌<◌, length, eqb};
ghost use Rattle.accepted.specs.Holding.{tables_in};
ghost use Rattle.book.specs.Bounds.{most_processes};
ghost use Rattle.lists.specs.Over.{all_to};
ghost use Rattle.strands.specs.Strands.{strand_start};
ghost use Rattle.session.specs.Held.{is_report, is_stray};
ghost use Rattle.session.specs.Fits.{session_named, session_purposes, is_absent, place_fits, session_fits};
ghost use Rattle.session_check.specs.Parts.{all_named, all_purposes, initiator_on, machine_fits, length_fits, held_fits, PlaceTold};

use accepted::Accepted;
use book::{Checkpoint, Count, Process};
pub use held::held_on;
use initiator::Initiator;
use participant::{Participant, Stage};
use session::{Session, Waiting};

// Is the machine all zero, as at a place that is empty?
fn is_absent(p: Participant) -> bool
    ensures { result ≡ is_absent p }
{
    let none = [Count(0); 16];
    p.n == 0
        && p.me == Process(0)
        && p.initiator == Process(0)
        && p.purpose == 0
        && p.stage == Stage::Before
        && p.candidate == Checkpoint(0)
        && p.row == none
        && p.column == none
}

// Are the processes named at each place that is not empty, and is each another process than the initiator that it names?
fn all_named(n: usize, participants: [Participant; 16]) -> bool
    ensures { result ≡ all_named n participants }
{
    for k in 0..book::MOST_PROCESSES {
        let p = participants[k];
        let me = p.me;
        let its = p.initiator;
        if !is_absent(p) && !machine::participant_named(n, me, its) {
            return false;
        }
    }
    true
}

// Are the purposes at the places that are not empty purposes?
fn all_purposes(participants: [Participant; 16]) -> bool
    ensures { result ≡ all_purposes participants }
{
    for k in 0..book::MOST_PROCESSES {
        let p = participants[k];
        if !is_absent(p) && !book::is_purpose(p.purpose) {
            return false;
        }
    }
    true
}

// Question 10 of a session.
pub fn named(session: Session, n: usize) -> bool
    ensures { result ≡ session_named n session }
{
    let initiator = session.initiator;
    let machine = session.machine;
    let me = machine.me;
    let participants = session.participants;
    if !book::is_named(n, initiator.0) {
        return false;
    }
    if !book::is_named(n, me.0) {
        return false;
    }
    all_named(n, participants)
}

// Question 11 of a session.
pub fn purposes(session: Session) -> bool
    ensures { result ≡ session_purposes session }
{
    let machine = session.machine;
    let participants = session.participants;
    if !book::is_purpose(session.purpose) {
        return false;
    }
    if !book::is_purpose(machine.purpose) {
        return false;
    }
    all_purposes(participants)
}

// Does the initiator's machine fit, and is it the session's?
fn initiator_fits(tables: &Accepted, initiator: Process, purpose: u64, machine: Initiator) -> bool
    requires { (1 ≤ initiator.0) × (initiator.0 ≤ tables.now.rows.shape.n) }
    ensures { result ≡ initiator_on (tables_in tables.now) initiator.0 purpose machine }
{
    let me = machine.me;
    if me.0 != initiator.0 {
        return false;
    }
    if machine.purpose != purpose {
        return false;
    }
    machine.fits(tables)
}

// Does the machine at participant k's place fit, and is it of the session?
fn machine_fits(
    tables: &Accepted,
    initiator: Process,
    purpose: u64,
    p: Participant,
    k: usize,
) -> bool
    requires { k < tables.now.rows.shape.n }
    ensures { result ≡ machine_fits (tables_in tables.now) initiator.0 purpose p k }
{
    let me = p.me;
    let its = p.initiator;
    if me.0 != k + 1 {
        return false;
    }
    if its.0 != initiator.0 {
        return false;
    }
    if p.purpose != purpose {
        return false;
    }
    p.fits(tables)
}

// Does what waits lie within its slot and within a buffer of so many bytes?
fn within(n: usize, initiator: usize, k: usize, waits: usize, room: usize) -> bool
    requires le_n { (1 ≤ n) × (n ≤ 16) }
    requires k_bound { k < 16 }
    ensures { result ≡ length_fits n initiator k waits room }
{
    if waits == 0 {
        return true;
    }
    if strands::slot_size(n) < waits {
        return false;
    }
    strands::strand_start(n, initiator, k) + waits <= room
}

// Does what a strand holds fit who is awaited, whether the initiator has ended, and how far the participant is?
fn held_fits(awaited: bool, ended: bool, stage: Stage, w: Waiting) -> bool
    ensures { result ≡ held_fits awaited ended stage w }
{
    let going = ended || stage != Stage::Ended;
    match w {
        Waiting::Nothing => !awaited && going,
        Waiting::Asking => awaited && going,
        Waiting::Ending => !awaited && ended,
        Waiting::Report => awaited && going,
        Waiting::Stray => false,
    }
}

// What the strand of a place that is no participant's holds: nothing; stray where it does not fit.
fn absent_holds(p: Participant, waits: usize) -> Waiting
    ensures { (not (is_stray result) ≡ (is_absent p && eqb waits 0)) × (is_report result ≡ false) }
{
    if waits != 0 {
        return Waiting::Stray;
    }
    if !is_absent(p) {
        return Waiting::Stray;
    }
    Waiting::Nothing
}

// What the strand of process k's place holds, a report only if it passes at the initiator; stray where the place does not fit.
fn place_holds(
    tables: &Accepted,
    initiator: Process,
    purpose: u64,
    p: Participant,
    awaited: bool,
    ended: bool,
    waits: usize,
    strands: &[u8],
    k: usize,
) -> Waiting
    requires { (1 ≤ initiator.0) × (k < 16) }
    ensures place_told { PlaceTold (tables_in tables.now) initiator.0 purpose p awaited ended waits strands.now k result }
    ensures waits_in_bounds { is_report result ≡ true → strand_start tables.now.rows.shape.n (initiator.0 - 1) k + waits ≤ length strands.now }
{
    let n = tables.rows.shape.n;
    let stage = p.stage;
    if !machine::is_participant(n, initiator.0 - 1, k) {
        return absent_holds(p, waits);
    }
    if !machine_fits(tables, initiator, purpose, p, k) {
        return Waiting::Stray;
    }
    if !within(n, initiator.0 - 1, k, waits, strands.len()) {
        return Waiting::Stray;
    }
    let w = held::below(n, initiator, p, waits, strands, k);
    if !held_fits(awaited, ended, stage, w) {
        return Waiting::Stray;
    }
    w
}

// Does each place fit, with its strand?
fn places_fit(session: Session, tables: &Accepted, strands: &[u8]) -> bool
    requires le_initiator { 1 ≤ session.initiator.0 }
    requires n_value { session.machine.n ≡ tables.now.rows.shape.n }
    ensures { result ≡ all_to most_processes (place_fits (tables_in tables.now) session strands.now) }
{
    let n = tables.rows.shape.n;
    let initiator = session.initiator;
    let machine = session.machine;
    let awaited = machine.awaited;
    let participants = session.participants;
    let lengths = session.lengths;
    for k in 0..book::MOST_PROCESSES {
        let p = participants[k];
        let waits = lengths[k];
        let w = place_holds(
            tables,
            initiator,
            session.purpose,
            p,
            awaited[k],
            machine.ended,
            waits,
            strands,
            k,
        );
        if w == Waiting::Stray {
            return false;
        }
        if w == Waiting::Report
            && held::above(n, initiator, machine, waits, strands, k) == Waiting::Stray
        {
            return false;
        }
    }
    true
}

// Does the session fit the tables (question 13)?
pub fn fits(session: Session, tables: &Accepted, strands: &[u8]) -> bool
    requires { (1 ≤ session.initiator.0) × (session.initiator.0 ≤ tables.now.rows.shape.n) }
    ensures { result ≡ session_fits (tables_in tables.now) session strands.now }
{
    let initiator = session.initiator;
    let machine = session.machine;
    if session.n != tables.rows.shape.n {
        return false;
    }
    if !initiator_fits(tables, initiator, session.purpose, machine) {
        return false;
    }
    if machine::TALLY_LIMIT <= session.delivered {
        return false;
    }
    places_fit(session, tables, strands)
}
