//! The numbers of names: agents count from 0 in the order of the agent lines, and atoms in that of the atom lines.

ghost use Rattle.std.specs.Prelude.{◌≡◌, ◌<◌, ◌≤◌, [], ◌∷◌, map, IfOk, OnOk};
ghost use Rattle.std.specs.Str.{bytes_eq};
ghost use Rattle.indexmap.specs.IndexSet.{index_set_len, insert_key};
ghost use Rattle.nego_reader.specs.Content.{content_of};
ghost use Rattle.nego_shape.specs.Faults.{others};
ghost use Rattle.nego_shape.specs.Answer.{Tells};
ghost use Rattle.nego_shape.specs.Naming.{place_of, agent_names, atom_names, agent_in};
ghost use Rattle.nego_shape.specs.Conditions.{Holds, FewAgents, FewAtoms};
ghost use Rattle.nego_shape.specs.Shaped.{AreDifferent, AreNamedOnce};
ghost use Rattle.nego_shape.specs.Undeclared.{first_unknown, Declares};

use crate::fault::{ShapeAnswer, ShapeFault, ShapeKind};
use indexmap::IndexSet;
use nego_base::{AgentId, AtomId, Memory, ShortText, Text, Word};
use nego_reader::{PAgent, PAtom, Parsed};
use std::alloc::Global;
use std::marker::Model;

/// A text with the numbers of its names. Contracts see the text.
#[derive(Drop)]
pub(crate) struct Numbered<'a> {
    text: &'a Parsed,
    agents: IndexSet<ShortText>,
    atoms: IndexSet<ShortText>,
}

impl<'a> Model for Numbered<'a> {
    ghost use Rattle.std.specs.Prelude.{◌≡◌};
    ghost use Rattle.nego_shape.specs.Conditions.{Holds, FewAgents, FewAtoms};
    ghost use Rattle.nego_reader.specs.declared.parsed.Parsed.{Parsed};
    ghost use Rattle.nego_reader.specs.Content.{content_of};
    ghost use Rattle.nego_shape.specs.Naming.{agent_names, atom_names};

    ghost Value = { Parsed };

    ghost view = { λ p. p.text.now };

    ghost invariant = { λ p. (p.agents.keys ≡ agent_names (content_of p.text.now)) × (p.atoms.keys ≡ atom_names (content_of p.text.now)) × Holds FewAgents (content_of p.text.now) × Holds FewAtoms (content_of p.text.now) };
}

impl<'a> Numbered<'a> {
    /// Numbers the names of the text, in which no name stands twice, and those of agents and atoms aren't too many.
    pub(crate) fn new(alloc: Global, text: &'a Parsed) -> Result<Numbered<'a>, Memory>
        requires agents { Holds FewAgents (content_of text.now) }
        requires atoms { Holds FewAtoms (content_of text.now) }
        requires named_once { AreNamedOnce (content_of text.now) }
        ensures { IfOk result (λ p. p ≡ text.now) }
    {
        let agents = agent_numbers(alloc, text.agents.as_slice())?;
        let atoms = atom_numbers(alloc, text.atoms.as_slice())?;
        Ok(Numbered {
            text,
            agents,
            atoms,
        })
    }

    /// The text.
    pub(crate) fn text(&self) -> &Parsed
        ensures { result.now ≡ self.now }
    {
        self.text
    }

    /// The agent of this name; an error tells that there is none.
    pub(crate) fn declared_agent(&self, alloc: Global, name: &Word) -> Result<AgentId, ShapeAnswer>
        ensures agent { IfOk result (λ agent. agent ≡ agent_in (content_of self.now) name.now.text) }
        ensures below { IfOk result (λ agent. agent.0 < 16) }
        ensures declared { Declares result (others (agent_names (content_of self.now)) (name.now ∷ [])) }
    {
        let n = number_of(&self.agents, name);
        if (n as usize) < self.agents.len() {
            Ok(AgentId(n))
        } else {
            Err(unknown(alloc, name))
        }
    }

    /// The atom of this name, and the number behind the last where there is none.
    pub(crate) fn atom(&self, name: &Word) -> AtomId
        ensures { result.0 ≡ place_of name.now.text (atom_names (content_of self.now)) }
    {
        AtomId(number_of(&self.atoms, name))
    }

    /// The atom of this name; an error tells that there is none.
    pub(crate) fn declared_atom(&self, alloc: Global, name: &Word) -> Result<AtomId, ShapeAnswer>
        ensures atom { IfOk result (λ atom. atom.0 ≡ place_of name.now.text (atom_names (content_of self.now))) }
        ensures declared { Declares result (others (atom_names (content_of self.now)) (name.now ∷ [])) }
    {
        let atom = self.atom(name);
        if (atom.0 as usize) < self.atoms.len() {
            Ok(atom)
        } else {
            Err(unknown(alloc, name))
        }
    }
}

/// The agents' names, numbered.
fn agent_numbers(alloc: Global, agents: &[PAgent]) -> Result<IndexSet<ShortText>, Memory>
    requires { AreDifferent (map (λ agent. agent.name.text) agents.now) }
    ensures { IfOk result (λ names. names.keys ≡ map (λ agent. agent.name.text) agents.now) }
{
    let mut names = IndexSet::new(alloc);
    for agent in agents {
        add(alloc, &mut names, &agent.name)?;
    }
    Ok(names)
}

/// The atoms' names, numbered.
fn atom_numbers(alloc: Global, atoms: &[PAtom]) -> Result<IndexSet<ShortText>, Memory>
    requires { AreDifferent (map (λ atom. atom.name.text) atoms.now) }
    ensures { IfOk result (λ names. names.keys ≡ map (λ atom. atom.name.text) atoms.now) }
{
    let mut names = IndexSet::new(alloc);
    for atom in atoms {
        add(alloc, &mut names, &atom.name)?;
    }
    Ok(names)
}

/// Gives the name the next number.
fn add(alloc: Global, names: &mut IndexSet<ShortText>, name: &Word) -> Result<(), Memory>
    ensures { OnOk result (names.new.keys ≡ insert_key bytes_eq names.old.keys name.now.text) }
{
    let text = ShortText::copy(alloc, name.text.as_slice())?;
    names.insert(text)?;
    Ok(())
}

/// The number of the name, and the count of names where it is none of them.
fn number_of(names: &IndexSet<ShortText>, name: &Word) -> u32
    requires { index_set_len names.now ≤ 64 }
    ensures { result ≡ place_of name.now.text names.now.keys }
{
    names.get_index_of(&name.text).unwrap_or(names.len()) as u32
}

/// The answer that no agent, or no atom, has this name.
fn unknown(alloc: Global, name: &Word) -> ShapeAnswer
    ensures { Tells result (first_unknown (name.now ∷ [])) }
{
    match Text::copy(alloc, name.text.as_slice()) {
        Ok(text) => ShapeAnswer::Off(ShapeFault {
            line: name.line,
            kind: ShapeKind::Unknown(text),
        }),
        Err(memory) => ShapeAnswer::from(memory),
    }
}
