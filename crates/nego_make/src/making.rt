//! A made diagram as a text's value.
ghost use Rattle.std.specs.Prelude.{◌≡◌, ◌<◌, ◌≤◌, map, IfOk};
ghost use Rattle.std.specs.List.{range_with_len};
ghost use Rattle.nego_model.specs.Negotiation.{IsDeterministic};
ghost use Rattle.nego_model.specs.Acyclic.{IsAcyclic};
ghost use Rattle.nego_model.specs.Occurring.{IsSound};
ghost use Rattle.nego_model.specs.Diagram.{negotiation_of};
ghost use Rattle.nego_reader.specs.Content.{agent_content, atom_content, content_of};
ghost use Rattle.nego_reader.specs.Printable.{IsPrintableDiagram, FitsPart};
ghost use Rattle.nego_shape.specs.Naming.{diagram_in};
ghost use Rattle.nego_shape.specs.Conditions.{HasShape};
ghost use Rattle.nego_shape.specs.Shaped.{HasNameWords};
ghost use Rattle.nego_make.specs.Generated.{everyone, agent, atom, generated};

use crate::outcomes::outcomes;
use crate::parties::{everyone, parties};
use crate::words::{agent_name, agent_names, atom_name};
use nego_base::{Memory, Seq};
use nego_reader::{PAgent, PAtom, Parsed};
use std::alloc::Global;

/// The agents.
fn agents(alloc: Global) -> Result<Seq<PAgent>, Memory>
    ensures { IfOk result (λ agents. map agent_content agents ≡ map agent everyone) }
{
    let mut agents = Seq::new(alloc);
    for a in everyone() {
        let name = agent_name(alloc, *a)?;
        agents.push(PAgent { name, size: 4 })?;
    }
    Ok(agents)
}

/// Atom i of n.
fn atom(alloc: Global, n: u32, i: u32) -> Result<PAtom, Memory>
    requires { i < n }
    ensures { IfOk result (λ made. atom_content made ≡ atom n i) }
{
    Ok(PAtom {
        name: atom_name(alloc, i)?,
        parties: agent_names(alloc, parties(n, i))?,
        outs: outcomes(alloc, n, i)?,
    })
}

/// The atoms.
fn atoms(alloc: Global, n: u32) -> Result<Seq<PAtom>, Memory>
    ensures { IfOk result (λ atoms. map atom_content atoms ≡ map (atom n) (range_with_len 0 n)) }
{
    let mut atoms = Seq::new(alloc);
    for i in 0..n {
        atoms.push(atom(alloc, n, i)?)?;
    }
    Ok(atoms)
}

/// The value that says the diagram of n atoms.
fn parsed(alloc: Global, n: u32) -> Result<Parsed, Memory>
    requires { 0 < n }
    ensures { IfOk result (λ p. content_of p ≡ generated n) }
{
    Ok(Parsed {
        agents: agents(alloc)?,
        atoms: atoms(alloc, n)?,
        first: atom_name(alloc, 0)?,
        last: atom_name(alloc, n - 1)?,
    })
}

/// The diagram of n atoms that the generator makes, n from 2 to 64. No rule of shape refuses it, it is deterministic,
/// acyclic and sound, and its printed text is an input.
pub fn make_diagram(alloc: Global, n: u32) -> Result<Parsed, Memory>
    requires some { 2 ≤ n }
    requires few { n ≤ 64 }
    ensures content { IfOk result (λ p. content_of p ≡ generated n) }
    ensures named { IfOk result (λ p. HasNameWords (content_of p)) }
    ensures shaped { IfOk result (λ p. HasShape (content_of p)) }
    ensures deterministic { IfOk result (λ p. IsDeterministic (negotiation_of (diagram_in (content_of p)))) }
    ensures acyclic { IfOk result (λ p. IsAcyclic (negotiation_of (diagram_in (content_of p)))) }
    ensures sound { IfOk result (λ p. IsSound (negotiation_of (diagram_in (content_of p)))) }
    ensures printable { IfOk result IsPrintableDiagram }
    ensures fits { IfOk result (FitsPart 262144) }
{
    parsed(alloc, n)
}
