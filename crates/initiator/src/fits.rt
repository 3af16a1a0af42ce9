// Document 01, question 13: does an initiator's state fit the tables?
ghost use Rattle.std.specs.Prelude.{◌≡◌, ◌-◌, ◌≤◌};
ghost use Rattle.accepted.specs.Holding.{tables_in};
ghost use Rattle.book.specs.View.{count};
ghost use Rattle.machine.specs.Own.{own_of};
ghost use Rattle.book.specs.Accepted.{IsProcess};
ghost use Rattle.initiator.specs.Fits.{kept_matrix, search_fits, restart_fits, stage_fits, entries_fit, wait_fits, fits};

use crate::Initiator;
use accepted::Accepted;
use book::Count;

impl Initiator {
    // The matrix whose column the candidate goes by.
    fn kept_matrix(self) -> [Count; 256]
        ensures { result ≡ kept_matrix self }
    {
        let matrix = self.matrix;
        let copy = self.copy;
        if self.ended {
            return matrix;
        }
        copy
    }

    // Is the kept row the candidate's, and the candidate the newest that the kept column permits?
    fn search_fits(self, tables: &Accepted) -> bool
        requires is_process { IsProcess tables.now.rows self.me.0 }
        requires le_candidate { (1 ≤ self.candidate.0) × (self.candidate.0 ≤ count tables.now.rows.shape (self.me.0 - 1)) }
        ensures { result ≡ search_fits (own_of (tables_in tables.now) (self.me.0 - 1)) self }
    {
        let me = self.me;
        let candidate = self.candidate;
        let matrix = self.matrix;
        let kept = self.kept_matrix();
        let row = matrix::row(matrix, me);
        let own = machine::sent_row(tables.rows, tables.sent, me, candidate);
        if row != own {
            return false;
        }
        let column = matrix::column(kept, me);
        let newest = consistency::newest_near(tables.rows, tables.received, me, candidate, column);
        candidate == newest
    }

    // Ended by purpose 2: on the oldest checkpoint, nothing known.
    fn restart_fits(self) -> bool
        ensures { result ≡ restart_fits self }
    {
        let candidate = self.candidate;
        let matrix = self.matrix;
        let copy = self.copy;
        if candidate.0 != 1 {
            return false;
        }
        if !matrix::all_not_known(self.n, matrix) {
            return false;
        }
        matrix::all_not_known(self.n, copy)
    }

    // The conditions that depend on how far it has come.
    fn stage_fits(self, tables: &Accepted) -> bool
        requires is_process { IsProcess tables.now.rows self.me.0 }
        requires le_candidate { (1 ≤ self.candidate.0) × (self.candidate.0 ≤ count tables.now.rows.shape (self.me.0 - 1)) }
        ensures { result ≡ stage_fits (own_of (tables_in tables.now) (self.me.0 - 1)) self }
    {
        if self.ended && self.purpose == 2 {
            return self.restart_fits();
        }
        self.search_fits(tables)
    }

    // The conditions of the matrix, the copy and the flags alone.
    fn entries_fit(self) -> bool
        requires { 1 ≤ self.me.0 }
        ensures { result ≡ entries_fit self }
    {
        let me = self.me;
        let matrix = self.matrix;
        let copy = self.copy;
        let awaited = self.awaited;
        if !matrix::all_rest_zero(self.n, matrix) {
            return false;
        }
        if !matrix::all_rest_zero(self.n, copy) {
            return false;
        }
        machine::only_participants(self.n, me, awaited)
    }

    // The conditions of a wait: the matrix below the copy, somebody awaited, and room for one more round.
    fn wait_fits(self) -> bool
        ensures { result ≡ wait_fits self }
    {
        let matrix = self.matrix;
        let copy = self.copy;
        let awaited = self.awaited;
        if !matrix::all_none_above(matrix, copy) {
            return false;
        }
        if !self.ended && !machine::someone(awaited) {
            return false;
        }
        self.rounds < machine::TALLY_LIMIT
    }

    // Does the state fit the tables (question 13)?
    pub fn fits(self, tables: &Accepted) -> bool
        requires { IsProcess tables.now.rows self.me.0 }
        ensures { result ≡ fits (own_of (tables_in tables.now) (self.me.0 - 1)) self }
    {
        let shape = tables.rows.shape;
        let counts = shape.counts;
        let me = self.me;
        let candidate = self.candidate;
        let place = me.0 - 1;
        if self.n != shape.n {
            return false;
        }
        if candidate.0 < 1 || counts[place] < candidate.0 {
            return false;
        }
        if !self.entries_fit() {
            return false;
        }
        if !self.stage_fits(tables) {
            return false;
        }
        self.wait_fits()
    }
}
