//! Places atoms behind their predecessors.
ghost use Rattle.std.specs.Prelude.{◌≡◌, ℕ, ◌<◌, true, false, length, IfSome, IfNone, IfOk, IsTrue, ◌↔◌};
ghost use Rattle.nego_base.specs.Members.{is_in};
ghost use Rattle.nego_model.specs.Diagram.{negotiation_of};
ghost use Rattle.nego_model.specs.Acyclic.{IsEdge};
ghost use Rattle.nego_shape.specs.Ordering.{IsLeft, IsReady, IsLeastReady, PlacesLeast, IsStuck, IsLeastLeft, IsLeastBehind};
ghost use Rattle.nego_shape.specs.Answers.{numbers};

use crate::edges::before;
use nego_base::{AtomId, AtomSet, Memory, Seq};
use nego_model::Diagram;
use std::alloc::Global;

/// The placed atoms: in their order, and as a set.
#[derive(Drop)]
pub(crate) struct Placed {
    pub(crate) order: Seq<AtomId>,
    pub(crate) atoms: AtomSet,
}

/// Places the least atom that can be placed, until none can be.
pub(crate) fn place_all(alloc: Global, d: &Diagram) -> Result<Placed, Memory>
    ensures least { IfOk result (λ placed. PlacesLeast (negotiation_of d.now) (numbers placed.order)) }
    ensures stuck { IfOk result (λ placed. IsStuck (negotiation_of d.now) placed.atoms) }
    ensures same { IfOk result (λ placed. (n : ℕ) → is_in n placed.atoms ≡ is_in n (numbers placed.order)) }
{
    let mut order = Seq::new(alloc);
    let mut atoms = AtomSet::none();
    while let Some(n) = next_ready(d, atoms) {
        order.push(n)?;
        atoms = atoms.with(n);
    }
    Ok(Placed { order, atoms })
}

/// The least atom that can be placed.
fn next_ready(d: &Diagram, placed: AtomSet) -> Option<AtomId>
    ensures some { IfSome result (λ n. IsLeastReady (negotiation_of d.now) placed n.0) }
    ensures bound { IfSome result (λ n. n.0 < 64) }
    ensures none { IfNone result (IsStuck (negotiation_of d.now) placed) }
{
    for n in 0..d.atoms() {
        if is_ready(d, placed, AtomId(n)) {
            return Some(AtomId(n));
        }
    }
    None
}

/// Whether the atom can be placed.
fn is_ready(d: &Diagram, placed: AtomSet, n: AtomId) -> bool
    requires { n.0 < length d.now.atoms }
    ensures yes { result ≡ true → IsReady (negotiation_of d.now) placed n.0 }
    ensures otherwise { result ≡ false → IsReady (negotiation_of d.now) placed n.0 → ⊥ }
    ensures bound { n.0 < 64 }
{
    let _count = d.atoms();
    if placed.has(n) {
        return false;
    }
    before(d, n).within(placed)
}

/// The least atom that is left.
pub(crate) fn least_left(d: &Diagram, placed: AtomSet) -> Option<AtomId>
    ensures some { IfSome result (λ n. IsLeastLeft (negotiation_of d.now) placed n.0) }
    ensures bound { IfSome result (λ n. n.0 < 64) }
    ensures none { IfNone result ((n : ℕ) → IsLeft (negotiation_of d.now) placed n → ⊥) }
{
    for n in 0..d.atoms() {
        if !placed.has(AtomId(n)) {
            return Some(AtomId(n));
        }
    }
    None
}

/// The least left predecessor of an atom.
pub(crate) fn least_behind(d: &Diagram, placed: AtomSet, n: AtomId) -> Option<AtomId>
    requires { n.0 < length d.now.atoms }
    ensures some { IfSome result (λ m. IsLeastBehind (negotiation_of d.now) placed n.0 m.0) }
    ensures bound { IfSome result (λ m. m.0 < length d.now.atoms) }
    ensures none { IfNone result ((m : ℕ) → IsEdge (negotiation_of d.now) m n.0 → IsLeft (negotiation_of d.now) placed m → ⊥) }
{
    let behind = before(d, n);
    for m in 0..d.atoms() {
        let m = AtomId(m);
        if behind.has(m) && !placed.has(m) {
            return Some(m);
        }
    }
    None
}
