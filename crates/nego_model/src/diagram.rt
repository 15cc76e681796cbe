//! Diagrams, and what one reads of them.
ghost use Rattle.std.specs.Prelude.{◌≡◌, ◌≢◌, ℕ, ◌+◌, ◌<◌, ◌≤◌, [], length, All, IsTrue};
ghost use Rattle.std.specs.List.{range_with_len};
ghost use Rattle.nego_base.specs.Members.{is_in};
ghost use Rattle.nego_base.specs.Name.{is_name};
ghost use Rattle.nego_data.specs.Data.{data_count};
ghost use Rattle.nego_data.specs.Tables.{IsTable, is_related};
ghost use Rattle.nego_model.specs.Negotiation.{IsOutcome};
ghost use Rattle.nego_model.specs.Diagram.{IsDiagram, negotiation_of, relation_of, agent_name, atom_name, outcome_name, parties_of, leader_of, outcomes_from, atom_of, nexts_of, outcome_table};
ghost use Rattle.nego_model.specs.Limits.{IsWithinLimits, HasNames, AreInOrder};
ghost use Rattle.nego_model.specs.Parts.{plain_of, AreParts};

use crate::Parts;
use nego_base::{AgentId, AgentSet, AtomId, AtomSet, OutcomeId};
use nego_data::{Sizes, Table};
use std::marker::Model;

/// A diagram that the program takes. Contracts see it as a plain diagram, whose agents, atoms and outcomes are
/// numbered by their places, from 0. No reader takes memory.
#[derive(Debug, Drop)]
pub struct Diagram {
    parts: Parts,
}

impl Model for Diagram {
    ghost use Rattle.nego_model.specs.Diagram.{PlainDiagram};

    ghost Value = { PlainDiagram };

    ghost use Rattle.nego_model.specs.Parts.{plain_of, AreParts};

    ghost view = { λ d. plain_of d.parts };

    ghost invariant = { λ d. AreParts d.parts };
}

impl Diagram {
    /// The diagram of these parts.
    pub fn from_parts(parts: Parts) -> Diagram
        requires { AreParts parts }
        ensures { result ≡ plain_of parts }
    {
        Diagram { parts }
    }

    /// How many agents there are, from 1 to 16.
    pub fn agents(&self) -> u32
        ensures value { result ≡ length self.now.agents }
        ensures some { 0 < result }
        ensures diagram { IsDiagram self.now }
        ensures limits { IsWithinLimits self.now }
    {
        self.parts.agents.len() as u32
    }

    /// How many atoms there are, from 1 to 64.
    pub fn atoms(&self) -> u32
        ensures value { result ≡ length self.now.atoms }
        ensures some { 0 < result }
        ensures diagram { IsDiagram self.now }
        ensures limits { IsWithinLimits self.now }
    {
        self.parts.atoms.len() as u32
    }

    /// How many outcomes there are, from 1 to 256.
    pub fn outcomes(&self) -> u32
        ensures value { result ≡ length self.now.outcomes }
        ensures some { 0 < result }
        ensures diagram { IsDiagram self.now }
        ensures limits { IsWithinLimits self.now }
        ensures order { AreInOrder self.now.outcomes }
    {
        self.parts.outcomes.len() as u32
    }

    /// The sizes of the agents' data.
    pub fn sizes(&self) -> &Sizes
        ensures { result.now ≡ self.now.sizes }
    {
        &self.parts.sizes
    }

    /// The atom for which everyone is ready at first.
    pub fn first(&self) -> AtomId
        ensures value { result.0 ≡ self.now.first }
        ensures in_range { result.0 < length self.now.atoms }
        ensures limits { IsWithinLimits self.now }
    {
        self.parts.first
    }

    /// The atom whose outcomes are final.
    pub fn last(&self) -> AtomId
        ensures value { result.0 ≡ self.now.last }
        ensures in_range { result.0 < length self.now.atoms }
    {
        self.parts.last
    }

    /// The parties of an atom.
    pub fn parties(&self, n: AtomId) -> AgentSet
        requires { n.0 < length self.now.atoms }
        ensures value { result ≡ parties_of self.now n.0 }
        ensures some { result ≢ [] }
        ensures in_range { All (λ a. a < length self.now.agents) result }
    {
        self.parts.atoms[n.0 as usize].parties
    }

    /// The leader of an atom, which is the least of its parties.
    pub fn leader(&self, n: AtomId) -> AgentId
        requires { n.0 < length self.now.atoms }
        ensures value { result.0 ≡ leader_of self.now n.0 }
        ensures party { IsTrue (is_in result.0 (parties_of self.now n.0)) }
        ensures least { All (λ a. result.0 ≤ a) (parties_of self.now n.0) }
        ensures in_range { result.0 < length self.now.agents }
    {
        self.parties(n).least().unwrap()
    }

    /// The numbers of an atom's outcomes: the least, and how many they are. They follow one another.
    pub fn outcomes_of(&self, n: AtomId) -> (u32, u32)
        requires { n.0 < length self.now.atoms }
        ensures value { range_with_len result.0 result.1 ≡ outcomes_from 0 self.now.outcomes n.0 }
        ensures some { 0 < result.1 }
        ensures in_range { result.0 + result.1 ≤ length self.now.outcomes }
        ensures limits { IsWithinLimits self.now }
    {
        let atom = &self.parts.atoms[n.0 as usize];
        (atom.start, atom.count)
    }

    /// The atom of an outcome.
    pub fn atom_of(&self, o: OutcomeId) -> AtomId
        requires { o.0 < length self.now.outcomes }
        ensures value { result.0 ≡ atom_of self.now o.0 }
        ensures outcome { IsOutcome (negotiation_of self.now) result.0 o.0 }
        ensures in_range { result.0 < length self.now.atoms }
    {
        self.parts.outcomes[o.0 as usize].atom
    }

    /// The next atoms of an agent after an outcome.
    pub fn nexts(&self, o: OutcomeId, a: AgentId) -> AtomSet
        requires outcome { o.0 < length self.now.outcomes }
        requires agent { a.0 < length self.now.agents }
        ensures value { result ≡ nexts_of self.now o.0 a.0 }
        ensures in_range { All (λ n. n < length self.now.atoms) result }
    {
        self.parts.outcomes[o.0 as usize].nexts[a.0 as usize]
    }

    /// The table of an outcome, which says what it does to joint data.
    pub fn table(&self, o: OutcomeId) -> &Table
        requires { o.0 < length self.now.outcomes }
        ensures value { result.now ≡ outcome_table self.now o.0 }
        ensures relation { (d e : ℕ) → relation_of self.now o.0 d e ≡ is_related result.now d e }
        ensures rows { IsTable (data_count self.now.sizes) result.now }
    {
        &self.parts.outcomes[o.0 as usize].table
    }

    /// The name of an agent.
    pub fn agent_name(&self, a: AgentId) -> &[u8]
        requires { a.0 < length self.now.agents }
        ensures value { result.now ≡ agent_name self.now a.0 }
        ensures name { IsTrue (is_name result.now) }
        ensures names { HasNames self.now }
    {
        self.parts.agents[a.0 as usize].as_slice()
    }

    /// The name of an atom.
    pub fn atom_name(&self, n: AtomId) -> &[u8]
        requires { n.0 < length self.now.atoms }
        ensures value { result.now ≡ atom_name self.now n.0 }
        ensures name { IsTrue (is_name result.now) }
        ensures names { HasNames self.now }
    {
        self.parts.atoms[n.0 as usize].name.as_slice()
    }

    /// The name of an outcome.
    pub fn outcome_name(&self, o: OutcomeId) -> &[u8]
        requires { o.0 < length self.now.outcomes }
        ensures value { result.now ≡ outcome_name self.now o.0 }
        ensures name { IsTrue (is_name result.now) }
        ensures names { HasNames self.now }
    {
        self.parts.outcomes[o.0 as usize].name.as_slice()
    }
}
