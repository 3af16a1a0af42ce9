// Document 01, "A search", and K 5.3: what a participant awaits, and what it does with it.
ghost use Rattle.std.specs.Prelude.{◌≡◌, ◌-◌, ◌≤◌};
ghost use Rattle.accepted.specs.Holding.{tables_in};
ghost use Rattle.machine.specs.Own.{own_of};
ghost use Rattle.book.specs.Accepted.{IsProcess};
ghost use Rattle.participant.specs.Step.{kind_awaited, awaits, end_on_oldest, end, step_back, report_of, silent, step};

use crate::{Participant, ParticipantStep, Stage};
use accepted::Accepted;
use book::Checkpoint;
use message::{Head, Message};

// What kind of message is awaited?
fn kind_awaited(stage: Stage, kind: u64) -> bool
    ensures { result ≡ kind_awaited stage kind }
{
    match stage {
        Stage::Before => kind == 1,
        Stage::Searching => kind == 2,
        Stage::Ended => false,
    }
}

impl Participant {
    // Is the message awaited here (question 15)?
    pub(crate) fn awaits(self, message: Message) -> bool
        ensures { result ≡ awaits self message }
    {
        let head = message.head;
        let sender = head.sender;
        let initiator = self.initiator;
        let stage = self.stage;
        if sender != initiator {
            return false;
        }
        if head.purpose != self.purpose {
            return false;
        }
        kind_awaited(stage, head.kind)
    }

    // The invitation of purpose 2.
    fn end_on_oldest(self) -> Participant
        ensures { result ≡ end_on_oldest self }
    {
        let me = self.me;
        let initiator = self.initiator;
        let row = self.row;
        let column = self.column;
        Participant {
            n: self.n,
            me,
            initiator,
            purpose: self.purpose,
            stage: Stage::Ended,
            candidate: Checkpoint(1),
            row,
            column,
        }
    }

    // The termination.
    fn end(self) -> Participant
        ensures { result ≡ end self }
    {
        let me = self.me;
        let initiator = self.initiator;
        let candidate = self.candidate;
        let row = self.row;
        let column = self.column;
        Participant {
            n: self.n,
            me,
            initiator,
            purpose: self.purpose,
            stage: Stage::Ended,
            candidate,
            row,
            column,
        }
    }

    // The newest checkpoint that is permitted with the message's counters, and its row.
    fn step_back(self, tables: &Accepted, message: Message) -> Participant
        requires { IsProcess tables.now.rows self.me.0 }
        ensures { result ≡ step_back (own_of (tables_in tables.now) (self.me.0 - 1)) self message }
    {
        let me = self.me;
        let initiator = self.initiator;
        let near = self.candidate;
        let held = self.column;
        let news = message.news;
        let column = matrix::patch(held, news);
        let candidate = consistency::newest_near(tables.rows, tables.received, me, near, column);
        let row = machine::sent_row(tables.rows, tables.sent, me, candidate);
        Participant {
            n: self.n,
            me,
            initiator,
            purpose: self.purpose,
            stage: Stage::Searching,
            candidate,
            row,
            column,
        }
    }

    // The report of a step back.
    fn report_of(self, after: Participant) -> ParticipantStep
        requires { (1 ≤ self.initiator.0) × (self.initiator.0 ≤ 16) }
        ensures { result ≡ report_of self after }
    {
        let me = self.me;
        let initiator = self.initiator;
        let held = self.row;
        let row = after.row;
        let news = matrix::diff(row, held);
        let head = Head {
            kind: 2,
            purpose: self.purpose,
            sender: me,
        };
        let outgoing = machine::only_to(head, initiator, news);
        ParticipantStep {
            state: after,
            outgoing,
        }
    }

    // A state that sends nothing.
    fn silent(self) -> ParticipantStep
        ensures { result ≡ silent self }
    {
        let me = self.me;
        let head = Head {
            kind: 2,
            purpose: self.purpose,
            sender: me,
        };
        ParticipantStep {
            state: self,
            outgoing: machine::nothing(head),
        }
    }

    // The step that a message asks for. Inner: the message was awaited.
    pub fn step(self, tables: &Accepted, message: Message) -> ParticipantStep
        requires is_process { IsProcess tables.now.rows self.me.0 }
        requires le_initiator { (1 ≤ self.initiator.0) × (self.initiator.0 ≤ 16) }
        ensures { result ≡ step (own_of (tables_in tables.now) (self.me.0 - 1)) self message }
    {
        let head = message.head;
        if head.purpose == 2 {
            return self.end_on_oldest().silent();
        }
        if machine::is_termination(message) {
            return self.end().silent();
        }
        self.report_of(self.step_back(tables, message))
    }
}
