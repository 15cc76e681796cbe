//! No agent, and too many agents, atoms or outcomes.

ghost use Rattle.std.specs.Prelude.{◌≡◌, [], ◌∷◌, slice_get};
ghost use Rattle.std.specs.List.{flat_map};
ghost use Rattle.std.specs.Option.{option_map};
ghost use Rattle.nego_shape.specs.declared.fault.ShapeKind.TheVariants as kinds;
ghost use Rattle.nego_shape.specs.Faults.{first_fault};
ghost use Rattle.nego_shape.specs.Conditions.{SomeAgent, FewAgents, FewAtoms, FewOutcomes};

use crate::fault::{Many, ShapeFault, ShapeKind};
use nego_reader::{PAtom, Parsed};

/// That there is no agent, or the first agent, atom or outcome that is one too many.
pub(crate) fn count_fault(p: &Parsed) -> Option<ShapeFault>
    ensures { result ≡ first_fault (SomeAgent ∷ FewAgents ∷ FewAtoms ∷ FewOutcomes ∷ []) p.now }
{
    if p.agents.is_empty() {
        return Some(ShapeFault {
            line: 1,
            kind: ShapeKind::NoAgent,
        });
    }
    if let Some(agent) = p.agents.get(16) {
        return Some(too_many(agent.name.line, Many::Agents));
    }
    if let Some(atom) = p.atoms.get(64) {
        return Some(too_many(atom.name.line, Many::Atoms));
    }
    let line = out_line(p.atoms.as_slice(), 256)?;
    Some(too_many(line, Many::Outcomes))
}

/// The fault that what stands on the line is one too many.
fn too_many(line: u32, many: Many) -> ShapeFault
    ensures { result ≡ record { line = line; kind = kinds.TooMany many } }
{
    ShapeFault {
        line,
        kind: ShapeKind::TooMany(many),
    }
}

/// The line of the outcome of a place among all, which counts from 0.
fn out_line(atoms: &[PAtom], place: usize) -> Option<u32>
    ensures { result ≡ option_map (λ out. out.name.line) (slice_get (flat_map (λ atom. atom.outs) atoms.now) place) }
{
    let mut left = place;
    for atom in atoms {
        if let Some(out) = atom.outs.get(left) {
            return Some(out.name.line);
        }
        left -= atom.outs.len();
    }
    None
}
