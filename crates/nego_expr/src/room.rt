//! Room for more nodes and outcomes, made before the edits that need it.
ghost use Rattle.std.specs.Prelude.{◌≡◌, ◌≢◌, ◌↔◌, ◌+◌, ◌<◌, ◌≤◌, OnOk, Err, length};
ghost use Rattle.nego_expr.specs.Use.{most_nodes};

use crate::{RuleFault, Work};

/// The most nodes that a work has.
const MAX_NODES: u32 = 20_000;

impl Work {
    /// Makes room for so many more nodes and outcomes. `Nodes` where there would be more nodes than a work has. Numbers of
    /// outcomes past 32 bits count as want of memory.
    pub fn room(&mut self, nodes: u32, outcomes: u32) -> Result<(), RuleFault>
        ensures plain { self.new.plain ≡ self.old.plain }
        ensures ok { OnOk result ((nodes ≤ self.new.spare_nodes) × (outcomes ≤ self.new.spare_outcomes)) }
        ensures kept { (self.old.spare_nodes ≤ self.new.spare_nodes) × (self.old.spare_outcomes ≤ self.new.spare_outcomes) }
        ensures nodes { (result ≡ Err RuleFault.Nodes) ↔ (most_nodes < length self.old.plain.nodes + nodes) }
        ensures never { result ≢ Err RuleFault.Guard }
    {
        if nodes > MAX_NODES - self.nodes.len() {
            return Err(RuleFault::Nodes);
        }
        if outcomes > u32::MAX - self.numbers {
            return Err(RuleFault::Memory);
        }
        self.nodes.reserve(nodes)?;
        self.outcomes.reserve(outcomes as usize)?;
        self.slots.reserve(outcomes as usize)?;
        self.members.reserve(outcomes as usize)?;
        Ok(())
    }
}
