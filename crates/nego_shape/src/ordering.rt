//! An order of a diagram's atoms, or a cycle.
ghost use Rattle.std.specs.Prelude.{IfOk};
ghost use Rattle.nego_model.specs.Diagram.{negotiation_of};
ghost use Rattle.nego_shape.specs.Answers.{OrderHolds};

use crate::answer::Order;
use crate::cycles::{cycle_of, walk_back};
use crate::placing::{Placed, least_left, place_all};
use nego_base::Memory;
use nego_model::Diagram;
use std::alloc::Global;

/// An order of all atoms in which every edge goes forward, or a cycle where there is no such order. The order places,
/// again and again, the least atom whose predecessors are all placed. Where none can be placed and some are left, a
/// walk begins with the least of them and goes again and again to the least left predecessor, until an atom comes a
/// second time: the cycle has the atoms from there on, turned round so that edges go forward, from its least one on.
pub fn order(alloc: Global, d: &Diagram) -> Result<Order, Memory>
    ensures { IfOk result (λ answer. OrderHolds (negotiation_of d.now) answer) }
{
    let Placed { order, atoms } = place_all(alloc, d)?;
    match least_left(d, atoms) {
        None => Ok(Order::Acyclic(order)),
        Some(start) => {
            let walk = walk_back(alloc, d, atoms, start)?;
            let cycle = cycle_of(alloc, walk.atoms.as_slice(), walk.again)?;
            Ok(Order::Cycle(cycle))
        }
    }
}
