// Document 01, "A search", and K 5.2, steps 4 to 9: the initiator takes a report in.
ghost use Rattle.std.specs.Prelude.{◌≡◌, ◌-◌, ◌≤◌, ◌<◌};
ghost use Rattle.accepted.specs.Holding.{tables_in};
ghost use Rattle.machine.specs.Own.{own_of};
ghost use Rattle.machine.specs.Named.{tally_limit};
ghost use Rattle.book.specs.Accepted.{IsProcess};
ghost use Rattle.initiator.specs.Step.{whole_if_first, awaits, take_report, step_back, polled, poll, terminate, compare, silent, step};

use crate::{Initiator, InitiatorStep};
use accepted::Accepted;
use book::Count;
use mail::Outgoing;
use message::{Head, Message};

impl Initiator {
    // Has a first report all pairs?
    fn whole_if_first(self, message: Message) -> bool
        requires le_sender { (1 ≤ message.head.sender.0) × (message.head.sender.0 ≤ 16) }
        requires le_n { 1 ≤ self.n }
        ensures { result ≡ whole_if_first self message }
    {
        let head = message.head;
        let sender = head.sender;
        let news = message.news;
        let matrix = self.matrix;
        let row = matrix::row(matrix, sender);
        let unknown = matrix::not_known_row(self.n, sender);
        if row != unknown {
            return true;
        }
        message::pair_count(news) == self.n - 1
    }

    // Is the message awaited here (question 15)?
    pub(crate) fn awaits(self, message: Message) -> bool
        requires le_sender { (1 ≤ message.head.sender.0) × (message.head.sender.0 ≤ 16) }
        requires le_n { 1 ≤ self.n }
        ensures { result ≡ awaits self message }
    {
        let head = message.head;
        let sender = head.sender;
        let awaited = self.awaited;
        let place = sender.0 - 1;
        if self.ended {
            return false;
        }
        if !awaited[place] {
            return false;
        }
        if head.purpose != self.purpose {
            return false;
        }
        if head.kind != 2 {
            return false;
        }
        self.whole_if_first(message)
    }

    // A report comes in.
    fn take_report(self, message: Message) -> Initiator
        requires { (1 ≤ message.head.sender.0) × (message.head.sender.0 ≤ 16) }
        ensures { result ≡ take_report self message }
    {
        let head = message.head;
        let sender = head.sender;
        let news = message.news;
        let me = self.me;
        let candidate = self.candidate;
        let held = self.matrix;
        let flags = self.awaited;
        let copy = self.copy;
        let row = matrix::patch(matrix::row(held, sender), news);
        let matrix = matrix::with_row(held, sender, row);
        let awaited = machine::without(flags, sender);
        Initiator {
            n: self.n,
            me,
            purpose: self.purpose,
            ended: self.ended,
            candidate,
            rounds: self.rounds,
            awaited,
            matrix,
            copy,
        }
    }

    // The initiator's own step back, once all awaited reports are in.
    fn step_back(self, tables: &Accepted) -> Initiator
        requires { IsProcess tables.now.rows self.me.0 }
        ensures { result ≡ step_back (own_of (tables_in tables.now) (self.me.0 - 1)) self }
    {
        let me = self.me;
        let near = self.candidate;
        let held = self.matrix;
        let awaited = self.awaited;
        let copy = self.copy;
        let known = matrix::column(held, me);
        let candidate = consistency::newest_near(tables.rows, tables.received, me, near, known);
        let row = machine::sent_row(tables.rows, tables.sent, me, candidate);
        let matrix = matrix::with_row(held, me, row);
        Initiator {
            n: self.n,
            me,
            purpose: self.purpose,
            ended: self.ended,
            candidate,
            rounds: self.rounds,
            awaited,
            matrix,
            copy,
        }
    }

    // Each participant whose column differs from the copy.
    fn polled(self) -> [bool; 16]
        requires { 1 ≤ self.me.0 }
        ensures { result ≡ polled self }
    {
        let n = self.n;
        let me = self.me;
        let matrix = self.matrix;
        let copy = self.copy;
        let own = me.0 - 1;
        let differ = matrix::columns_differ(matrix, copy);
        let mut flags = [false; 16];
        for p in 0..book::MOST_PROCESSES {
            flags[p] = machine::is_participant(n, own, p) && differ[p];
        }
        flags
    }

    // A poll goes to them.
    fn poll(self, to: [bool; 16]) -> InitiatorStep
        requires rounds_lt_tally_limit { self.rounds < tally_limit }
        requires to_value { to ≡ polled self }
        ensures { result ≡ poll self }
    {
        let me = self.me;
        let matrix = self.matrix;
        let copy = self.copy;
        let news = matrix::polls(matrix, copy);
        let head = Head {
            kind: 2,
            purpose: self.purpose,
            sender: me,
        };
        let state = self.wait(to);
        let outgoing = Outgoing { head, to, news };
        InitiatorStep { state, outgoing }
    }

    // Every participant gets a termination.
    fn terminate(self) -> InitiatorStep
        requires { 1 ≤ self.me.0 }
        ensures { result ≡ terminate self }
    {
        let me = self.me;
        let candidate = self.candidate;
        let awaited = self.awaited;
        let matrix = self.matrix;
        let copy = self.copy;
        let to = machine::participants(self.n, me);
        let news = [Count(matrix::NOT_KNOWN); 256];
        let head = Head {
            kind: 2,
            purpose: self.purpose,
            sender: me,
        };
        let state = Initiator {
            n: self.n,
            me,
            purpose: self.purpose,
            ended: true,
            candidate,
            rounds: self.rounds,
            awaited,
            matrix,
            copy,
        };
        let outgoing = Outgoing { head, to, news };
        InitiatorStep { state, outgoing }
    }

    // Compares with the copy: polls, or terminates if no column differs.
    fn compare(self) -> InitiatorStep
        requires { (1 ≤ self.me.0) × (self.rounds < tally_limit) }
        ensures { result ≡ compare self }
    {
        let to = self.polled();
        if machine::someone(to) {
            return self.poll(to);
        }
        self.terminate()
    }

    // Goes on waiting.
    fn silent(self) -> InitiatorStep
        ensures { result ≡ silent self }
    {
        let me = self.me;
        let head = Head {
            kind: 2,
            purpose: self.purpose,
            sender: me,
        };
        InitiatorStep {
            state: self,
            outgoing: machine::nothing(head),
        }
    }

    // The step that a report asks for. Inner: the message was awaited.
    pub fn step(self, tables: &Accepted, message: Message) -> InitiatorStep
        requires is_process { IsProcess tables.now.rows self.me.0 }
        requires le_sender { (1 ≤ message.head.sender.0) × (message.head.sender.0 ≤ 16) }
        requires rounds_lt_tally_limit { self.rounds < tally_limit }
        ensures { result ≡ step (own_of (tables_in tables.now) (self.me.0 - 1)) self message }
    {
        let taken = self.take_report(message);
        let awaited = taken.awaited;
        if machine::someone(awaited) {
            return taken.silent();
        }
        let stepped = taken.step_back(tables);
        stepped.compare()
    }
}
