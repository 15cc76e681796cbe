//! Where an outcome sends the agents.
ghost use Rattle.std.specs.Prelude.{◌≡◌, ◌==◌, ◌<◌, ◌≤◌, ◌&&◌, ◌||◌, not, nat_lt, ℕ, Some, None, IfSome, replicate, length, slice_get, slice_index_or, slice_set, map, option_map};
ghost use Rattle.std.specs.List.{list_any};
ghost use Rattle.std.specs.Option.{option_cmp};
ghost use Rattle.std.specs.Ordering.{nat_cmp};
ghost use Rattle.std.specs.Cmp.Lexicographic.{slice_cmp};
ghost use Rattle.nego_base.specs.Members.{is_in};
ghost use Rattle.nego_expr.specs.Use.{same_target};
ghost use Rattle.nego_expr.specs.Targets.{target_of};

use nego_base::{AgentId, AtomId, AtomSet};
use std::cmp::Ordering;
use std::marker::Model;

/// The most agents that there are.
const MOST: usize = 16;

/// Where an outcome sends each agent: an atom or nothing. Contracts see one entry for each agent. A byte is kept for
/// each: 0 for nothing, and else one more than the atom's number.
#[derive(Debug, Drop)]
pub struct Targets {
    entries: [u8; MOST],
    agents: u8,
}

impl Model for Targets {
    ghost use Rattle.std.specs.Prelude.{ℕ, ◌≤◌, List, Option, map, take};
    ghost use Rattle.nego_expr.specs.Targets.{target_of};

    ghost Value = { List (Option ℕ) };

    ghost view = { λ t. map target_of (take t.agents t.entries) };

    ghost invariant = { λ t. t.agents ≤ 16 };
}

impl Targets {
    /// Nothing for each of so many agents.
    pub fn none(agents: u32) -> Targets
        requires { agents ≤ 16 }
        ensures { result ≡ replicate agents None }
    {
        Targets {
            entries: [0; MOST],
            agents: agents as u8,
        }
    }

    /// Where the agent is sent.
    pub fn get(&self, a: AgentId) -> Option<AtomId>
        requires { a.0 < length self.now }
        ensures value { slice_get self.now a.0 ≡ Some (option_map (λ n. n.0) result) }
        ensures bound { IfSome result (λ n. n.0 < 255) }
    {
        atom_of(self.entries[a.0 as usize])
    }

    /// The same for an agent of any number: one past the end is sent nowhere.
    pub(crate) fn entry(&self, a: AgentId) -> Option<AtomId>
        ensures value { option_map (λ n. n.0) result ≡ slice_index_or self.now a.0 None }
        ensures bound { IfSome result (λ n. n.0 < 255) }
    {
        if a.0 < self.agents as u32 {
            self.get(a)
        } else {
            None
        }
    }

    /// The atoms that are targets, but for the given one, and of those that a set may have.
    pub(crate) fn others(&self, n: AtomId) -> AtomSet
        ensures { (m : ℕ) → is_in m result ≡ (nat_lt m 64 && (not (n.0 == m) && list_any (λ target. same_target target (Some m)) self.now)) }
    {
        let mut atoms = AtomSet::none();
        for a in 0..self.agents as u32 {
            atoms = with_other(atoms, self.entry(AgentId(a)), n);
        }
        atoms
    }

    /// How these targets compare with others: agent by agent, where nothing is below each atom.
    pub fn compare(&self, other: &Targets) -> Ordering
        ensures { result ≡ slice_cmp (option_cmp nat_cmp) self.now other.now }
    {
        self.kept().cmp(other.kept())
    }

    /// Sends the agent to the atom.
    pub fn set(&mut self, a: AgentId, n: AtomId)
        requires agent { a.0 < length self.old }
        requires bound { n.0 < 255 }
        ensures { self.new ≡ slice_set self.old a.0 (Some n.0) }
    {
        self.entries[a.0 as usize] = n.0 as u8 + 1;
    }

    /// The same targets once more.
    pub fn copy(&self) -> Targets
        ensures { result ≡ self.now }
    {
        Targets {
            entries: self.entries,
            agents: self.agents,
        }
    }

    /// What is kept of the agents.
    fn kept(&self) -> &[u8]
        ensures { self.now ≡ map target_of result.now }
    {
        &self.entries[..self.agents as usize]
    }
}

/// The atom of which this byte is kept.
fn atom_of(kept: u8) -> Option<AtomId>
    ensures value { option_map (λ n. n.0) result ≡ target_of kept }
    ensures bound { IfSome result (λ n. n.0 < 255) }
{
    match kept {
        0 => None,
        _ => Some(AtomId(kept as u32 - 1)),
    }
}

/// The atoms with the target too, where it is another than the given one, and one that a set may have.
fn with_other(atoms: AtomSet, target: Option<AtomId>, n: AtomId) -> AtomSet
    ensures { (m : ℕ) → is_in m result ≡ (is_in m atoms || (nat_lt m 64 && (not (n.0 == m) && same_target (option_map (λ k. k.0) target) (Some m)))) }
{
    match target {
        Some(k) if k != n && k.0 < 64 => atoms.with(k),
        _ => atoms,
    }
}
