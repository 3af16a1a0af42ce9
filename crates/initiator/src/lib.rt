#![tactic(auto)]
// Document 01, "A search", and K 5.2: the initiator's machine, a struct by value whose steps take it and hand it back.
mod fits;
mod step;

ghost use Rattle.std.specs.Prelude.{◌≡◌, ◌-◌, ◌≤◌, ◌<◌};
ghost use Rattle.accepted.specs.Holding.{tables_in};
ghost use Rattle.book.specs.InTurn.{◌then◌, ask, answer_to, answer_with};
ghost use Rattle.book.specs.Numbers.{by_number};
ghost use Rattle.lists.specs.Pick.{pick};
ghost use Rattle.matrix.specs.Matrix.{row};
ghost use Rattle.matrix.specs.Entries.{all_lower};
ghost use Rattle.book.specs.Names.{is_named, is_purpose};
ghost use Rattle.machine.specs.Own.{own_of};
ghost use Rattle.machine.specs.Named.{tally_limit};
ghost use Rattle.machine.specs.Flags.{someone};
ghost use Rattle.book.specs.Lent.{lent};
ghost use Rattle.book.specs.Accepted.{IsProcess};
ghost use Rattle.initiator.specs.Begin.{wait, without_wait, begin_search, begin_restart, begin};
ghost use Rattle.initiator.specs.Step.{sender_of, awaits};
ghost use Rattle.initiator.specs.Calls.{begin_question, no_initiator, state_begun, lengths_begun, bytes_begun, state_question, receive_question, state_after, lengths_after, bytes_after};

use accepted::Accepted;
use book::{Checkpoint, Count, Counter, Process, Question, Shape};
use mail::Outgoing;
use message::{Head, Message};

// An initiator's state: its candidate; for every ordered pair of processes the sent counter of the sender's candidate, or
// "not known" (K's V); the copy of that before the present wait (K's V'); who is awaited; and how many waits there were.
#[derive(Clone, Copy)]
pub struct Initiator {
    pub n: usize,
    pub me: Process,
    pub purpose: u64,
    pub ended: bool,
    pub candidate: Checkpoint,
    pub rounds: u32,
    pub awaited: [bool; 16],
    pub matrix: [Count; 256],
    pub copy: [Count; 256],
}

// A state after a step, and what the step sends.
#[derive(Clone, Copy)]
pub struct InitiatorStep {
    pub state: Initiator,
    pub outgoing: Outgoing,
}

// What `begin` and `receive` answer: the state afterwards, and the length written for each process.
#[derive(Clone, Copy)]
pub struct InitiatorAfter {
    pub state: Initiator,
    pub lengths: [usize; 16],
}

// Has ended on a checkpoint, with this matrix, no round and nobody awaited: where no wait begins.
fn without_wait(
    n: usize,
    me: Process,
    purpose: u64,
    candidate: Checkpoint,
    matrix: [Count; 256],
) -> Initiator
    ensures { result ≡ without_wait n me purpose candidate.0 matrix }
{
    let awaited = [false; 16];
    Initiator {
        n,
        me,
        purpose,
        ended: true,
        candidate,
        rounds: 0,
        awaited,
        matrix,
        copy: matrix,
    }
}

// Where there is none.
pub fn no_initiator() -> Initiator
    ensures { result ≡ no_initiator }
{
    let matrix = [Count(0); 256];
    without_wait(0, Process(0), 0, Checkpoint(0), matrix)
}

// A search begins: everybody else is invited.
fn begin_search(tables: &Accepted, me: Process, purpose: u64) -> InitiatorStep
    requires { IsProcess tables.now.rows me.0 }
    ensures { result ≡ begin_search (own_of (tables_in tables.now) (me.0 - 1)) me purpose }
{
    let shape = tables.rows.shape;
    let n = shape.n;
    let counts = shape.counts;
    let place = me.0 - 1;
    let newest = Checkpoint(counts[place]);
    let row = machine::sent_row(tables.rows, tables.sent, me, newest);
    let unknown = matrix::not_known_matrix(n);
    let first = matrix::with_row(unknown, me, row);
    let to = machine::participants(n, me);
    let news = matrix::invitations(me, row);
    let head = Head {
        kind: 1,
        purpose,
        sender: me,
    };
    let start = without_wait(n, me, purpose, newest, first);
    let state = start.wait_if(to);
    let outgoing = Outgoing { head, to, news };
    InitiatorStep { state, outgoing }
}

// A bare restart: everybody goes to the oldest checkpoint.
fn begin_restart(n: usize, me: Process, purpose: u64) -> InitiatorStep
    requires { 1 ≤ me.0 }
    ensures { result ≡ begin_restart n me purpose }
{
    let unknown = matrix::not_known_matrix(n);
    let to = machine::participants(n, me);
    let news = [Count(matrix::NOT_KNOWN); 256];
    let head = Head {
        kind: 1,
        purpose,
        sender: me,
    };
    let state = without_wait(n, me, purpose, Checkpoint(1), unknown);
    let outgoing = Outgoing { head, to, news };
    InitiatorStep { state, outgoing }
}

impl Initiator {
    // A wait begins: the matrix is copied, and the round counted.
    fn wait(self, awaited: [bool; 16]) -> Initiator
        requires { self.rounds < tally_limit }
        ensures { result ≡ wait self awaited }
    {
        let me = self.me;
        let candidate = self.candidate;
        let matrix = self.matrix;
        Initiator {
            n: self.n,
            me,
            purpose: self.purpose,
            ended: false,
            candidate,
            rounds: self.rounds + 1,
            awaited,
            matrix,
            copy: matrix,
        }
    }

    // A wait begins if there is somebody to wait for.
    fn wait_if(self, to: [bool; 16]) -> Initiator
        requires { self.rounds < tally_limit }
        ensures { result ≡ pick (someone to) (wait self to) self }
    {
        if machine::someone(to) {
            return self.wait(to);
        }
        self
    }

    // Questions 10, 11 and 13 of a state, on accepted tables.
    fn state_question(self, tables: &Accepted) -> Result<(), Question>
        ensures { by_number result ≡ answer_to (state_question tables.now.rows.shape.n (own_of (tables_in tables.now) (self.me.0 - 1)) self) }
    {
        let me = self.me;
        if !book::is_named(tables.rows.shape.n, me.0) {
            return Err(Question::Named);
        }
        if !book::is_purpose(self.purpose) {
            return Err(Question::Purpose);
        }
        if !self.fits(tables) {
            return Err(Question::StateFits);
        }
        Ok(())
    }

    // Questions 15 and 16 of a message that is formed.
    pub fn awaited_question(self, message: Message) -> Result<(), Question>
        requires le_sender { (1 ≤ message.head.sender.0) × (message.head.sender.0 ≤ 16) }
        requires le_n { 1 ≤ self.n }
        ensures { by_number result ≡ answer_to (ask 15 (awaits self message) then λ _. ask 16 (all_lower message.news (row self.matrix (sender_of message)))) }
    {
        let head = message.head;
        let sender = head.sender;
        let news = message.news;
        let matrix = self.matrix;
        if !self.awaits(message) {
            return Err(Question::Awaited);
        }
        let held = matrix::row(matrix, sender);
        if !matrix::all_lower(news, held) {
            return Err(Question::Lower);
        }
        Ok(())
    }

    // The initiator begins: its first state, and the invitations at the start of the buffer. Questions: the tables', then 10,
    // 11 and 17.
    pub fn begin(
        shape: Shape,
        sent: &[Counter],
        received: &[Counter],
        me: Process,
        purpose: u64,
        out: &mut [u8],
    ) -> Result<InitiatorAfter, Question>
        ensures answer { by_number result ≡ answer_with (begin_question (lent shape sent.now received.now) me purpose out.old) (record { state = state_begun (lent shape sent.now received.now) me purpose out.old; lengths = lengths_begun (lent shape sent.now received.now) me purpose out.old }) }
        ensures out_after { out.new ≡ bytes_begun (lent shape sent.now received.now) me purpose out.old }
    {
        let tables = accepted::accept(shape, sent, received)?;
        begin_question(shape.n, me, purpose)?;
        let next = first_step(&tables, me, purpose);
        let outgoing = next.outgoing;
        let lengths = mail::send(outgoing, out)?;
        let state = next.state;
        Ok(InitiatorAfter { state, lengths })
    }

    // The initiator receives a message: the step, and what it sends at the start of the buffer. Questions: the tables', 10, 11,
    // 13, then 14 to 17; a refusal changes nothing.
    pub fn receive(
        self,
        shape: Shape,
        sent: &[Counter],
        received: &[Counter],
        s: &[u8],
        out: &mut [u8],
    ) -> Result<InitiatorAfter, Question>
        ensures answer { by_number result ≡ answer_with (receive_question (lent shape sent.now received.now) self s.now out.old) (record { state = state_after (lent shape sent.now received.now) self s.now out.old; lengths = lengths_after (lent shape sent.now received.now) self s.now out.old }) }
        ensures out_after { out.new ≡ bytes_after (lent shape sent.now received.now) self s.now out.old }
    {
        let tables = accepted::accept(shape, sent, received)?;
        self.state_question(&tables)?;
        let me = self.me;
        let Some(message) = message::read_message(s, shape.n, me, me) else {
            return Err(Question::MessageFormed);
        };
        self.awaited_question(message)?;
        let next = self.step(&tables, message);
        let outgoing = next.outgoing;
        let lengths = mail::send(outgoing, out)?;
        let state = next.state;
        Ok(InitiatorAfter { state, lengths })
    }
}

// Questions 10 and 11 of a beginning.
pub fn begin_question(n: usize, me: Process, purpose: u64) -> Result<(), Question>
    ensures { by_number result ≡ answer_to (ask 10 (is_named n me.0) then λ _. ask 11 (is_purpose purpose)) }
{
    if !book::is_named(n, me.0) {
        return Err(Question::Named);
    }
    if !book::is_purpose(purpose) {
        return Err(Question::Purpose);
    }
    Ok(())
}

// A search, or a bare restart with purpose 2. Inner: a process of accepted tables.
pub fn first_step(tables: &Accepted, me: Process, purpose: u64) -> InitiatorStep
    requires { IsProcess tables.now.rows me.0 }
    ensures { result ≡ begin (own_of (tables_in tables.now) (me.0 - 1)) me purpose }
{
    if purpose == 2 {
        return begin_restart(tables.rows.shape.n, me, purpose);
    }
    begin_search(tables, me, purpose)
}
