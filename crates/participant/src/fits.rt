// Document 01, question 13: does a participant's state fit the tables?
ghost use Rattle.std.specs.Prelude.{◌≡◌, ◌-◌, ◌≤◌};
ghost use Rattle.accepted.specs.Holding.{tables_in};
ghost use Rattle.book.specs.View.{count};
ghost use Rattle.machine.specs.Own.{own_of};
ghost use Rattle.book.specs.Accepted.{IsProcess};
ghost use Rattle.participant.specs.declared.Stage.TheVariants.{Ended};
ghost use Rattle.participant.specs.Fits.{search_fits, unknown_on, stage_fits, fits};

use crate::{Participant, Stage};
use accepted::Accepted;
use book::Checkpoint;

impl Participant {
    // Is the kept row the candidate's, and the candidate the newest that the kept column permits?
    fn search_fits(self, tables: &Accepted) -> bool
        requires is_process { IsProcess tables.now.rows self.me.0 }
        requires le_candidate { (1 ≤ self.candidate.0) × (self.candidate.0 ≤ count tables.now.rows.shape (self.me.0 - 1)) }
        ensures { result ≡ search_fits (own_of (tables_in tables.now) (self.me.0 - 1)) self }
    {
        let me = self.me;
        let candidate = self.candidate;
        let row = self.row;
        let column = self.column;
        let own = machine::sent_row(tables.rows, tables.sent, me, candidate);
        if row != own {
            return false;
        }
        let newest = consistency::newest_near(tables.rows, tables.received, me, candidate, column);
        candidate == newest
    }

    // Is nothing known, on this checkpoint?
    fn unknown_on(self, r: Checkpoint) -> bool
        requires { 1 ≤ self.me.0 }
        ensures { result ≡ unknown_on r.0 self }
    {
        let me = self.me;
        let candidate = self.candidate;
        let row = self.row;
        let column = self.column;
        if candidate != r {
            return false;
        }
        let unknown = matrix::not_known_row(self.n, me);
        if row != unknown {
            return false;
        }
        column == unknown
    }

    // Once it has ended: by purpose 2 on the oldest checkpoint, nothing known.
    fn end_fits(self, tables: &Accepted) -> bool
        requires is_process { IsProcess tables.now.rows self.me.0 }
        requires le_candidate { (1 ≤ self.candidate.0) × (self.candidate.0 ≤ count tables.now.rows.shape (self.me.0 - 1)) }
        ensures { result ≡ stage_fits (own_of (tables_in tables.now) (self.me.0 - 1)) self Ended }
    {
        if self.purpose == 2 {
            return self.unknown_on(Checkpoint(1));
        }
        self.search_fits(tables)
    }

    // The conditions that depend on how far it has come.
    fn stage_fits(self, tables: &Accepted) -> bool
        requires is_process { IsProcess tables.now.rows self.me.0 }
        requires le_candidate { (1 ≤ self.candidate.0) × (self.candidate.0 ≤ count tables.now.rows.shape (self.me.0 - 1)) }
        ensures { result ≡ stage_fits (own_of (tables_in tables.now) (self.me.0 - 1)) self self.stage }
    {
        let counts = tables.rows.shape.counts;
        let me = self.me;
        let place = me.0 - 1;
        let stage = self.stage;
        match stage {
            Stage::Before => self.unknown_on(Checkpoint(counts[place])),
            Stage::Searching => self.search_fits(tables),
            Stage::Ended => self.end_fits(tables),
        }
    }

    // Does the state fit the tables (question 13)?
    pub fn fits(self, tables: &Accepted) -> bool
        requires { IsProcess tables.now.rows self.me.0 }
        ensures { result ≡ fits (own_of (tables_in tables.now) (self.me.0 - 1)) self }
    {
        let shape = tables.rows.shape;
        let counts = shape.counts;
        let me = self.me;
        let candidate = self.candidate;
        let place = me.0 - 1;
        let row = self.row;
        let column = self.column;
        if self.n != shape.n {
            return false;
        }
        if candidate.0 < 1 || counts[place] < candidate.0 {
            return false;
        }
        if !matrix::rest_zero(self.n, me, row) {
            return false;
        }
        if !matrix::rest_zero(self.n, me, column) {
            return false;
        }
        self.stage_fits(tables)
    }
}
