//! The table of an outcome: a table of its parties' values, while everyone else keeps the value.
ghost use Rattle.std.specs.Prelude.{◌≡◌, ◌<◌, [], length, slice_get, slice_index_or, IfOk};
ghost use Rattle.nego_base.specs.Members.{is_in};
ghost use Rattle.nego_data.specs.Parts.{widened, IsPart};
ghost use Rattle.nego_data.specs.Tables.{IsTable};

use crate::Sizes;
use crate::lender::Lender;
use crate::parts::{are_kept, are_same, part_number};
use crate::rows::Rows;
use nego_base::{AgentSet, Memory};
use std::alloc::Global;
use std::marker::Model;

/// What an outcome relates, kept as a row of bits for each choice of values of its parties: everyone else keeps the
/// value. Contracts see it as the list that gives for each joint data the rising list of those to which it is related.
#[derive(Debug, Drop)]
pub struct Table {
    sizes: Sizes,
    parties: AgentSet,
    part: Sizes,
    rows: Rows,
}

impl Model for Table {
    ghost use Rattle.std.specs.Prelude.{ℕ, List};
    ghost use Rattle.nego_data.specs.Parts.{widened, IsPart};

    ghost Value = { List (List ℕ) };

    ghost view = { λ t. widened t.parties t.sizes t.rows };

    ghost invariant = { λ t. IsPart t.parties t.sizes t.part t.rows };
}

impl Table {
    /// The table that rows of the parties' values are.
    pub(crate) fn widened(sizes: &Sizes, parties: AgentSet, part: Sizes, rows: Rows) -> Table
        requires { IsPart parties sizes.now part rows }
        ensures { result ≡ widened parties sizes.now rows }
    {
        Table {
            sizes: *sizes,
            parties,
            part,
            rows,
        }
    }

    /// Whether d is related to e. Both are below the number of joint data.
    pub fn related(&self, d: u16, e: u16) -> bool
        requires from { d < length self.now }
        requires to { e < length self.now }
        ensures value { result ≡ is_in e (slice_index_or self.now d []) }
        ensures table { IsTable (length self.now) self.now }
    {
        if are_same(&self.part, &self.sizes) {
            return self.rows.related(d, e);
        }
        let old = self.sizes.split(d);
        let new = self.sizes.split(e);
        let d = part_number(self.parties, &self.part, &old);
        let e = part_number(self.parties, &self.part, &new);
        are_kept(self.parties, &old, &new) && self.rows.related(d, e)
    }

    /// The table, ready to lend its rows.
    pub fn lend(&self, alloc: Global) -> Result<Lender<'_>, Memory>
        ensures { IfOk result (λ lender. lender ≡ self.now) }
    {
        Lender::new(alloc, &self.sizes, self.parties, &self.part, &self.rows)
    }

    /// How many joint data there are.
    fn all(&self) -> u16
        ensures value { result ≡ length self.now }
        ensures table { IsTable (length self.now) self.now }
    {
        self.sizes.all()
    }

    /// To how many joint data d is related. d is below the number of joint data.
    pub fn count(&self, d: u16) -> u16
        requires { d < length self.now }
        ensures value { result ≡ length (slice_index_or self.now d []) }
        ensures table { IsTable (length self.now) self.now }
    {
        if are_same(&self.part, &self.sizes) {
            return self.rows.count(d);
        }
        let all = self.all();
        (0..all).filter(|e| self.related(d, *e)).count() as u16
    }

    /// The k-th of the joint data to which d is related, in rising order and from 0; `None` where they are no more than
    /// k. d is below the number of joint data.
    pub fn nth(&self, d: u16, k: u16) -> Option<u16>
        requires { d < length self.now }
        ensures value { result ≡ slice_get (slice_index_or self.now d []) k }
        ensures table { IsTable (length self.now) self.now }
    {
        if are_same(&self.part, &self.sizes) {
            return self.rows.nth(d, k);
        }
        let all = self.all();
        let mut row = (0..all).filter(|e| self.related(d, *e));
        row.nth(k as usize)
    }
}
