//! Finds a cycle where no atom can be placed.
ghost use Rattle.std.specs.Prelude.{◌≡◌, ℕ, ◌+◌, ◌<◌, ◌≤◌, ◌++◌, length, reverse, slice_index, IfOk, IsTrue};
ghost use Rattle.nego_base.specs.Members.{is_in};
ghost use Rattle.nego_model.specs.Diagram.{negotiation_of};
ghost use Rattle.nego_shape.specs.Ordering.{IsLeft, IsStuck, IsLeastLeft, IsLeastBehind};
ghost use Rattle.nego_shape.specs.Walks.{IsWalk, ClosesRound};
ghost use Rattle.nego_shape.specs.Answers.{numbers};

use crate::placing::least_behind;
use nego_base::{AtomId, AtomSet, Memory, Seq};
use nego_model::Diagram;
use std::alloc::Global;

/// The atoms of a walk, each once, and the one to which it comes a second time.
#[derive(Drop)]
pub(crate) struct Walk {
    pub(crate) atoms: Seq<AtomId>,
    pub(crate) again: AtomId,
}

/// Goes from the least left atom to the least left predecessor, until an atom comes a second time.
pub(crate) fn walk_back(
    alloc: Global,
    d: &Diagram,
    placed: AtomSet,
    start: AtomId,
) -> Result<Walk, Memory>
    requires stuck { IsStuck (negotiation_of d.now) placed }
    requires least { IsLeastLeft (negotiation_of d.now) placed start.0 }
    requires bound { start.0 < 64 }
    ensures walk { IfOk result (λ walk. IsWalk (negotiation_of d.now) placed (numbers walk.atoms) walk.again.0) }
    ensures again { IfOk result (λ walk. IsTrue (is_in walk.again.0 (numbers walk.atoms))) }
{
    let mut atoms = Seq::new(alloc);
    let mut seen = AtomSet::none();
    let mut here = start;
    while !seen.has(here) {
        atoms.push(here)?;
        seen = seen.with(here);
        here = go_back(d, placed, here);
    }
    Ok(Walk { atoms, again: here })
}

/// The least left predecessor of a left atom. There is one where no atom can be placed.
fn go_back(d: &Diagram, placed: AtomSet, n: AtomId) -> AtomId
    requires stuck { IsStuck (negotiation_of d.now) placed }
    requires left { IsLeft (negotiation_of d.now) placed n.0 }
    ensures behind { IsLeastBehind (negotiation_of d.now) placed n.0 result.0 }
    ensures bound { result.0 < 64 }
{
    let _count = d.atoms();
    least_behind(d, placed, n).unwrap()
}

/// The cycle that the walk closes when it comes to this atom again: along the edges, from its least atom on.
pub(crate) fn cycle_of(alloc: Global, walk: &[AtomId], again: AtomId) -> Result<Seq<AtomId>, Memory>
    requires { IsTrue (is_in again.0 (numbers walk.now)) }
    ensures { IfOk result (λ cycle. ClosesRound (numbers walk.now) again.0 (numbers cycle)) }
{
    let round = &walk[place_of(walk, again)..];
    let behind = least_place(round) + 1;
    turned(alloc, &round[..behind], &round[behind..])
}

/// The two parts, each turned round.
fn turned(alloc: Global, front: &[AtomId], rest: &[AtomId]) -> Result<Seq<AtomId>, Memory>
    ensures { IfOk result (λ turned. turned ≡ reverse front.now ++ reverse rest.now) }
{
    let atoms = front.iter().rev().chain(rest.iter().rev());
    Ok(Seq::from_vec(atoms.copied().collect(alloc)?))
}

/// The first place of an atom of the list.
fn place_of(atoms: &[AtomId], n: AtomId) -> usize
    requires { IsTrue (is_in n.0 (numbers atoms.now)) }
    ensures within { result < length atoms.now }
    ensures there { slice_index (numbers atoms.now) result ≡ n.0 }
{
    for (i, m) in atoms.iter().enumerate() {
        if m.0 == n.0 {
            return i;
        }
    }
    unreachable!()
}

/// The place of the least atom of the list.
fn least_place(atoms: &[AtomId]) -> usize
    requires { 0 < length atoms.now }
    ensures within { result < length atoms.now }
    ensures least { (k : ℕ) → k < length atoms.now → slice_index (numbers atoms.now) result ≤ slice_index (numbers atoms.now) k }
{
    let mut least = 0;
    for i in 1..atoms.len() {
        if atoms[i].0 < atoms[least].0 {
            least = i;
        }
    }
    least
}
