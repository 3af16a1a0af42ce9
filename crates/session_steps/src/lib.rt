#![tactic(auto)]
// Document 01, "Session": beginning a search, and delivering a message. Inner functions, for the calls of a session, which have
// put the questions. Processes count from 0 here, but for those that are named.
ghost use Rattle.std.specs.Prelude.{◌≡◌, [], suc, ◌-◌, ◌≤◌, ◌<◌};
ghost use Rattle.book.specs.Lent.{lent};
ghost use Rattle.lists.specs.Over.{tab};
ghost use Rattle.machine.specs.Named.{tally_limit};
ghost use Rattle.accepted.specs.Holding.{tables_in};
ghost use Rattle.book.specs.Accepted.{IsProcess};
ghost use Rattle.message.specs.Read.{no_message};
ghost use Rattle.participant.specs.Calls.{read_by};
ghost use Rattle.initiator.specs.Calls as calls;
ghost use Rattle.session.specs.Workers.{participant_at};
ghost use Rattle.session.specs.Calls.{no_session};
ghost use Rattle.session.specs.Steps.{place_at_start, begun, delivered_on, on_strand, deliver_message, deliver_down, deliver_up, as_before};

use accepted::Accepted;
use book::{Count, Process, Shape};
use initiator::Initiator;
use mail::Outgoing;
use message::{Head, Message};
use participant::Participant;
use session::{Session, Turned};

// What stands for a session that did not start: all zero.
pub fn no_session() -> Session
    ensures { result ≡ no_session }
{
    let nobody = participant::no_participant();
    let participants = [nobody; 16];
    let lengths = [0usize; 16];
    Session {
        n: 0,
        initiator: Process(0),
        purpose: 0,
        machine: initiator::no_initiator(),
        participants,
        lengths,
        delivered: 0,
    }
}

// The machine at process k's place before the invitation.
fn first_place(shape: Shape, initiator: Process, purpose: u64, k: usize) -> Participant
    requires { (1 ≤ initiator.0) × (k < 16) }
    ensures { result ≡ place_at_start (lent shape [] []) initiator purpose k }
{
    let counts = shape.counts;
    if !machine::is_participant(shape.n, initiator.0 - 1, k) {
        return participant::no_participant();
    }
    let newest = book::Checkpoint(counts[k]);
    Participant::before(shape.n, newest, Process(k + 1), initiator, purpose)
}

// The machines at all places.
fn first_places(shape: Shape, initiator: Process, purpose: u64) -> [Participant; 16]
    requires { 1 ≤ initiator.0 }
    ensures { result ≡ tab 16 (place_at_start (lent shape [] []) initiator purpose) }
{
    let nobody = participant::no_participant();
    let mut places = [nobody; 16];
    for k in 0..book::MOST_PROCESSES {
        places[k] = first_place(shape, initiator, purpose, k);
    }
    places
}

// A session begins: the initiator's first step, everybody else before the invitation.
pub fn begin(tables: &Accepted, initiator: Process, purpose: u64) -> Turned
    requires { IsProcess tables.now.rows initiator.0 }
    ensures { result ≡ begun (tables_in tables.now) initiator purpose }
{
    let shape = tables.rows.shape;
    let next = initiator::first_step(tables, initiator, purpose);
    let machine = next.state;
    let outgoing = next.outgoing;
    let participants = first_places(shape, initiator, purpose);
    let lengths = [0usize; 16];
    let session = Session {
        n: shape.n,
        initiator,
        purpose,
        machine,
        participants,
        lengths,
        delivered: 0,
    };
    Turned { session, outgoing }
}

// The session once the message on k's strand is delivered.
fn delivered_on(
    session: Session,
    k: usize,
    machine: Initiator,
    participants: [Participant; 16],
) -> Session
    requires { (k < 16) × (session.delivered < tally_limit) }
    ensures { result ≡ delivered_on session k machine participants }
{
    let initiator = session.initiator;
    let mut lengths = session.lengths;
    lengths[k] = 0;
    Session {
        n: session.n,
        initiator,
        purpose: session.purpose,
        machine,
        participants,
        lengths,
        delivered: session.delivered + 1,
    }
}

// What participant k sends, for its own strand.
fn on_strand(k: usize, initiator: usize, outgoing: Outgoing) -> Outgoing
    requires { (k < 16) × (initiator < 16) }
    ensures { result ≡ on_strand k initiator outgoing }
{
    let to = outgoing.to;
    let head = outgoing.head;
    let all = outgoing.news;
    if !to[initiator] {
        return machine::nothing(head);
    }
    let news = matrix::row(all, Process(initiator + 1));
    machine::only_to(head, Process(k + 1), news)
}

// Participant k takes the step that a message asks for.
pub fn deliver_message(session: Session, tables: &Accepted, k: usize, message: Message) -> Turned
    requires is_process { IsProcess tables.now.rows (suc k) }
    requires k_value { (participant_at session k).me.0 ≡ suc k }
    requires k_value_2 { (participant_at session k).initiator.0 ≡ session.initiator.0 }
    requires le_initiator { (1 ≤ session.initiator.0) × (session.initiator.0 ≤ 16) }
    requires k_bound { (k < 16) × (session.delivered < tally_limit) }
    ensures { result ≡ deliver_message (tables_in tables.now) session k message }
{
    let mut participants = session.participants;
    let p = participants[k];
    let initiator = session.initiator;
    let machine = session.machine;
    let next = p.step(tables, message);
    let outgoing = next.outgoing;
    let state = next.state;
    participants[k] = state;
    Turned {
        session: delivered_on(session, k, machine, participants),
        outgoing: on_strand(k, initiator.0 - 1, outgoing),
    }
}

// What bytes that are not formed are read as.
fn no_message() -> Message
    ensures { result ≡ no_message }
{
    Message {
        head: Head {
            kind: 0,
            purpose: 0,
            sender: Process(0),
        },
        news: [Count(0); 16],
    }
}

// The message that bytes hold for a participant.
fn read_for(p: Participant, n: usize, s: &[u8]) -> Message
    requires { n ≤ 16 }
    ensures { result ≡ read_by n p s.now }
{
    match message::read_message(s, n, p.me, p.initiator) {
        Some(message) => message,
        None => no_message(),
    }
}

// Participant k takes the step that the message asks for which the bytes hold.
pub fn deliver_down(session: Session, tables: &Accepted, k: usize, s: &[u8]) -> Turned
    requires is_process { IsProcess tables.now.rows (suc k) }
    requires k_value { (participant_at session k).me.0 ≡ suc k }
    requires k_value_2 { (participant_at session k).initiator.0 ≡ session.initiator.0 }
    requires le_initiator { (1 ≤ session.initiator.0) × (session.initiator.0 ≤ 16) }
    requires k_bound { (k < 16) × (session.delivered < tally_limit) }
    ensures { result ≡ deliver_down (tables_in tables.now) session k s.now }
{
    let participants = session.participants;
    let message = read_for(participants[k], tables.rows.shape.n, s);
    deliver_message(session, tables, k, message)
}

// The initiator takes the step that k's report asks for.
pub fn deliver_up(session: Session, tables: &Accepted, k: usize, s: &[u8]) -> Turned
    requires is_process { IsProcess tables.now.rows session.initiator.0 }
    requires me_value { session.machine.me.0 ≡ session.initiator.0 }
    requires s_value { calls.message_question tables.now.rows.shape.n session.machine s.now ≡ 0 }
    requires rounds_lt_tally_limit { session.machine.rounds < tally_limit }
    requires k_bound { (k < 16) × (session.delivered < tally_limit) }
    ensures { result ≡ deliver_up (tables_in tables.now) session k s.now }
{
    let machine = session.machine;
    let me = machine.me;
    let participants = session.participants;
    let message = message::read_message(s, tables.rows.shape.n, me, me).unwrap();
    let next = machine.step(tables, message);
    let state = next.state;
    let outgoing = next.outgoing;
    Turned {
        session: delivered_on(session, k, state, participants),
        outgoing,
    }
}

// Nothing is delivered.
pub fn as_before(session: Session) -> Turned
    ensures { result ≡ as_before session }
{
    let initiator = session.initiator;
    let head = Head {
        kind: 2,
        purpose: session.purpose,
        sender: initiator,
    };
    Turned {
        session,
        outgoing: machine::nothing(head),
    }
}
