#![tactic(auto)]
// Document 01, "A search", and K 5.3: the participant's machine, a struct by value whose steps take it and hand it back.
mod fits;
mod step;

ghost use Rattle.std.specs.Prelude.{◌≡◌, ◌-◌, ◌≤◌};
ghost use Rattle.book.specs.Lent.{lent};
ghost use Rattle.accepted.specs.Holding.{tables_in};
ghost use Rattle.book.specs.InTurn.{answer_to, answer_with};
ghost use Rattle.book.specs.Numbers.{by_number};
ghost use Rattle.machine.specs.Own.{own_of};
ghost use Rattle.participant.specs.Step.{first_of};
ghost use Rattle.participant.specs.Calls.{no_participant, first_question, first_state, state_question, message_answer, receive_question, state_after, lengths_after, bytes_after};

use accepted::Accepted;
use book::{Checkpoint, Count, Counter, Process, Question, Shape};
use mail::Outgoing;
use message::Message;

// How far a participant has come: before the invitation, in the search, or ended.
#[derive(Clone, Copy, PartialEq, Eq)]
pub enum Stage {
    Before,
    Searching,
    Ended,
}

// A participant's state: its candidate, the row of sent counters that it last reported, and the column of sent counters that
// it knows of the others.
#[derive(Clone, Copy)]
pub struct Participant {
    pub n: usize,
    pub me: Process,
    pub initiator: Process,
    pub purpose: u64,
    pub stage: Stage,
    pub candidate: Checkpoint,
    pub row: [Count; 16],
    pub column: [Count; 16],
}

// A state after a step, and what the step sends.
#[derive(Clone, Copy)]
pub struct ParticipantStep {
    pub state: Participant,
    pub outgoing: Outgoing,
}

// What `receive` answers: the state afterwards, and the length written for each process.
#[derive(Clone, Copy)]
pub struct ParticipantAfter {
    pub state: Participant,
    pub lengths: [usize; 16],
}

// At a place that is no participant's.
pub fn no_participant() -> Participant
    ensures { result ≡ no_participant }
{
    let row = [Count(0); 16];
    Participant {
        n: 0,
        me: Process(0),
        initiator: Process(0),
        purpose: 0,
        stage: Stage::Before,
        candidate: Checkpoint(0),
        row,
        column: row,
    }
}

impl Participant {
    // A participant's first state, before the invitation: at its newest checkpoint, nothing known. Questions: the tables',
    // then 10 and 11.
    pub fn first(
        shape: Shape,
        sent: &[Counter],
        received: &[Counter],
        me: Process,
        initiator: Process,
        purpose: u64,
    ) -> Result<Participant, Question>
        ensures { by_number result ≡ answer_with (first_question (lent shape sent.now received.now) me.0 initiator.0 purpose) (first_state (lent shape sent.now received.now) me initiator purpose) }
    {
        tables::check(shape, sent, received)?;
        let n = shape.n;
        let counts = shape.counts;
        if !machine::participant_named(n, me, initiator) {
            return Err(Question::Named);
        }
        if !book::is_purpose(purpose) {
            return Err(Question::Purpose);
        }
        let place = me.0 - 1;
        let newest = Checkpoint(counts[place]);
        Ok(Participant::before(n, newest, me, initiator, purpose))
    }

    // Before the invitation: at its newest checkpoint, nothing known. Inner: the process counts from 1.
    pub fn before(
        n: usize,
        newest: Checkpoint,
        me: Process,
        initiator: Process,
        purpose: u64,
    ) -> Participant
        requires { 1 ≤ me.0 }
        ensures { result ≡ first_of n newest.0 me initiator purpose }
    {
        let row = matrix::not_known_row(n, me);
        Participant {
            n,
            me,
            initiator,
            purpose,
            stage: Stage::Before,
            candidate: newest,
            row,
            column: row,
        }
    }

    // Questions 10, 11 and 13 of a state, on accepted tables.
    fn state_question(self, tables: &Accepted) -> Result<(), Question>
        ensures { by_number result ≡ answer_to (state_question tables.now.rows.shape.n (own_of (tables_in tables.now) (self.me.0 - 1)) self) }
    {
        let me = self.me;
        let initiator = self.initiator;
        if !machine::participant_named(tables.rows.shape.n, me, initiator) {
            return Err(Question::Named);
        }
        if !book::is_purpose(self.purpose) {
            return Err(Question::Purpose);
        }
        if !self.fits(tables) {
            return Err(Question::StateFits);
        }
        Ok(())
    }

    // Questions 14 to 16 of a message that was read; the message, if they pass.
    pub fn message_question(self, read: Option<Message>) -> Result<Message, Question>
        ensures { by_number result ≡ message_answer self read }
    {
        let Some(message) = read else {
            return Err(Question::MessageFormed);
        };
        let news = message.news;
        let column = self.column;
        if !self.awaits(message) {
            return Err(Question::Awaited);
        }
        if !matrix::all_lower(news, column) {
            return Err(Question::Lower);
        }
        Ok(message)
    }

    // A participant receives a message: the step, and its report at the start of the buffer. Questions: the tables', 10, 11,
    // 13, then 14 to 17; a refusal changes nothing.
    pub fn receive(
        self,
        shape: Shape,
        sent: &[Counter],
        received: &[Counter],
        s: &[u8],
        out: &mut [u8],
    ) -> Result<ParticipantAfter, Question>
        ensures answer { by_number result ≡ answer_with (receive_question (lent shape sent.now received.now) self s.now out.old) (record { state = state_after (lent shape sent.now received.now) self s.now out.old; lengths = lengths_after (lent shape sent.now received.now) self s.now out.old }) }
        ensures out_after { out.new ≡ bytes_after (lent shape sent.now received.now) self s.now out.old }
    {
        let tables = accepted::accept(shape, sent, received)?;
        self.state_question(&tables)?;
        let me = self.me;
        let initiator = self.initiator;
        let read = message::read_message(s, shape.n, me, initiator);
        let message = self.message_question(read)?;
        let next = self.step(&tables, message);
        let outgoing = next.outgoing;
        let lengths = mail::send(outgoing, out)?;
        let state = next.state;
        Ok(ParticipantAfter { state, lengths })
    }
}
