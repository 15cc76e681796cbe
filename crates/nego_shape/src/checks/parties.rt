//! Atoms without parties or outcomes, and agents who are no party of the first or the last atom.

ghost use Rattle.std.specs.Prelude.{◌≡◌, ◌≤◌, ◌==◌, [], ◌∷◌, length, map};
ghost use Rattle.std.specs.Option.{option_map};
ghost use Rattle.nego_base.specs.declared.ids.AgentId.{AgentId};
ghost use Rattle.nego_reader.specs.Content.{content_of};
ghost use Rattle.nego_shape.specs.declared.fault.ShapeKind.{ShapeKind};
ghost use Rattle.nego_shape.specs.declared.fault.ShapeKind.TheVariants as kinds;
ghost use Rattle.nego_shape.specs.Faults.{spot_if, numbered, faults, first_of, first_fault, lacking};
ghost use Rattle.nego_shape.specs.Conditions.{SomeParty, SomeOutcome, AllBegin, AllEnd};
ghost use Rattle.nego_shape.specs.Made.{HasNumbers, atom_numbers};
ghost use Rattle.nego_shape.specs.Naming.{atom_names};
ghost use Rattle.nego_shape.specs.Shaped.{IsDeclared};

use crate::fault::{ShapeFault, ShapeKind};
use crate::numbering::Numbered;
use crate::numbers::AtomNumbers;
use nego_base::{AgentId, AgentSet, AtomId, Word};
use nego_reader::PAtom;

/// The first atom without a party, else the first without an outcome, else the least agent who is no party of the first
/// atom, else the least who is none of the last.
#[tactic(auto, unfolding(nego_base::specs::Firsts::first_among))]
pub(crate) fn party_fault(p: &Numbered, numbers: &[AtomNumbers]) -> Option<ShapeFault>
    requires names { HasNumbers (content_of p.now) }
    requires numbers { numbers.now ≡ map (atom_numbers (content_of p.now)) p.now.atoms }
    ensures { result ≡ first_fault (SomeParty ∷ SomeOutcome ∷ AllBegin ∷ AllEnd ∷ []) p.now }
{
    let atoms = p.text().atoms.as_slice();
    if let Some(fault) = no_party(atoms).or_else(|| no_outcome(atoms)) {
        return Some(fault);
    }
    if let Some(fault) = first_lacks(p, numbers) {
        return Some(fault);
    }
    last_lacks(p, numbers)
}

/// The first atom without a party.
#[tactic(auto, unfolding(crate::specs::Faults::numbered))]
fn no_party(atoms: &[PAtom]) -> Option<ShapeFault>
    requires { length atoms.now ≤ 64 }
    ensures { result ≡ first_of (numbered (λ n atom. spot_if (length atom.parties == 0) atom.name.line (kinds.NoParty (record { 0 = n }))) 0 atoms.now) }
{
    for (n, atom) in atoms.iter().enumerate() {
        if atom.parties.is_empty() {
            return Some(ShapeFault {
                line: atom.name.line,
                kind: ShapeKind::NoParty(AtomId(n as u32)),
            });
        }
    }
    None
}

/// The first atom without an outcome.
#[tactic(auto, unfolding(crate::specs::Faults::numbered))]
fn no_outcome(atoms: &[PAtom]) -> Option<ShapeFault>
    requires { length atoms.now ≤ 64 }
    ensures { result ≡ first_of (numbered (λ n atom. spot_if (length atom.outs == 0) atom.name.line (kinds.NoOutcome (record { 0 = n }))) 0 atoms.now) }
{
    for (n, atom) in atoms.iter().enumerate() {
        if atom.outs.is_empty() {
            return Some(ShapeFault {
                line: atom.name.line,
                kind: ShapeKind::NoOutcome(AtomId(n as u32)),
            });
        }
    }
    None
}

/// The least agent who is no party of the atom of this name.
fn lacking(p: &Numbered, numbers: &[AtomNumbers], name: &Word) -> Option<AgentId>
    requires names { HasNumbers (content_of p.now) }
    requires numbers { numbers.now ≡ map (atom_numbers (content_of p.now)) p.now.atoms }
    requires declared { IsDeclared (atom_names (content_of p.now)) name.now.text }
    ensures { (kind : AgentId → ShapeKind) → first_of (lacking (content_of p.now) kind name.now) ≡ option_map (λ a. record { line = name.now.line; kind = kind a }) result }
{
    let count = p.text().agents.len() as u32;
    let parties = numbers[p.atom(name).0 as usize].parties;
    AgentSet::below(count).difference(parties).least()
}

/// The least agent who is no party of the first atom.
fn first_lacks(p: &Numbered, numbers: &[AtomNumbers]) -> Option<ShapeFault>
    requires names { HasNumbers (content_of p.now) }
    requires numbers { numbers.now ≡ map (atom_numbers (content_of p.now)) p.now.atoms }
    ensures { result ≡ first_of (faults AllBegin p.now) }
{
    let first = &p.text().first;
    lacking(p, numbers, first).map(|a| ShapeFault {
        line: first.line,
        kind: ShapeKind::FirstLacks(a),
    })
}

/// The least agent who is no party of the last atom.
fn last_lacks(p: &Numbered, numbers: &[AtomNumbers]) -> Option<ShapeFault>
    requires names { HasNumbers (content_of p.now) }
    requires numbers { numbers.now ≡ map (atom_numbers (content_of p.now)) p.now.atoms }
    ensures { result ≡ first_of (faults AllEnd p.now) }
{
    let last = &p.text().last;
    lacking(p, numbers, last).map(|a| ShapeFault {
        line: last.line,
        kind: ShapeKind::LastLacks(a),
    })
}
