//! How many alive outcomes are of each atom, or lead to it.
ghost use Rattle.std.specs.Prelude.{◌≡◌, ℕ, ◌+◌, ◌<◌, ◌==◌, if◌then◌else◌, IsTrue, slice_index};
ghost use Rattle.nego_base.specs.Members.{is_in};
ghost use Rattle.nego_expr.specs.Counts.{AreOnes};

use nego_base::{AtomId, AtomSet};
use std::marker::Model;

/// A count for each atom that a set may have. Contracts see the list of these numbers.
#[derive(Debug, Drop)]
pub(crate) struct Counts {
    counts: [u32; 64],
    /// The atoms whose count is one.
    ones: AtomSet,
}

impl Model for Counts {
    ghost use Rattle.std.specs.Prelude.{List, ℕ};
    ghost use Rattle.nego_expr.specs.Counts.{AreOnes};

    ghost Value = { List ℕ };

    ghost view = { λ c. c.counts };

    ghost invariant = { λ c. AreOnes c.counts c.ones };
}

impl Counts {
    /// None of any atom.
    pub(crate) fn none() -> Counts
        ensures { (m : ℕ) → slice_index result m ≡ 0 }
    {
        Counts {
            counts: [0; 64],
            ones: AtomSet::none(),
        }
    }

    /// How many are of the atom.
    pub(crate) fn count(&self, n: AtomId) -> u32
        ensures { result ≡ slice_index self.now n.0 }
    {
        self.counts.get(n.0 as usize).copied().unwrap_or(0)
    }

    /// The atoms whose count is one.
    pub(crate) fn ones(&self) -> AtomSet
        ensures { AreOnes self.now result }
    {
        self.ones
    }

    /// One more is of the atom.
    pub(crate) fn add(&mut self, n: AtomId)
        requires atom { n.0 < 64 }
        requires few { slice_index self.old n.0 < 4294967295 }
        ensures { (m : ℕ) → slice_index self.new m ≡ slice_index self.old m + (if n.0 == m then 1 else 0) }
    {
        let count = self.counts[n.0 as usize] + 1;
        self.counts[n.0 as usize] = count;
        self.ones = ones_with(self.ones, n, count);
    }

    /// One less is of the atom.
    pub(crate) fn remove(&mut self, n: AtomId)
        requires { 0 < slice_index self.old n.0 }
        ensures { (m : ℕ) → slice_index self.old m ≡ slice_index self.new m + (if n.0 == m then 1 else 0) }
    {
        let count = self.counts[n.0 as usize] - 1;
        self.counts[n.0 as usize] = count;
        self.ones = ones_with(self.ones, n, count);
    }

    /// One more is of each of the atoms.
    pub(crate) fn add_each(&mut self, atoms: AtomSet)
        requires { (m : ℕ) → IsTrue (is_in m atoms) → slice_index self.old m < 4294967295 }
        ensures { (m : ℕ) → slice_index self.new m ≡ slice_index self.old m + (if is_in m atoms then 1 else 0) }
    {
        let mut rest = atoms;
        while let Some(n) = rest.least() {
            self.add(n);
            rest = rest.without(n);
        }
    }

    /// One less is of each of the atoms.
    pub(crate) fn remove_each(&mut self, atoms: AtomSet)
        requires { (m : ℕ) → IsTrue (is_in m atoms) → 0 < slice_index self.old m }
        ensures { (m : ℕ) → slice_index self.old m ≡ slice_index self.new m + (if is_in m atoms then 1 else 0) }
    {
        let mut rest = atoms;
        while let Some(n) = rest.least() {
            self.remove(n);
            rest = rest.without(n);
        }
    }
}

/// The atoms whose count is one, where the atom has this count now.
fn ones_with(ones: AtomSet, n: AtomId, count: u32) -> AtomSet
    requires { n.0 < 64 }
    ensures { (m : ℕ) → is_in m result ≡ (if n.0 == m then count == 1 else is_in m ones) }
{
    if count == 1 {
        ones.with(n)
    } else {
        ones.without(n)
    }
}
