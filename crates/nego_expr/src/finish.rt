//! The summary that a work of one atom leaves.
ghost use Rattle.std.specs.Prelude.{◌≡◌, length, map, IfOk};
ghost use Rattle.nego_expr.specs.Work.{IsWork};
ghost use Rattle.nego_expr.specs.Finish.{finals_of, summary_of_work};
ghost use Rattle.nego_expr.specs.SummaryText.{plain_final, plain_summary};
ghost use Rattle.nego_expr.specs.WorkView.{plain_outcome};

use crate::{Final, Outcome, Summary, Work};
use nego_base::{Memory, Seq, Text};

impl Work {
    /// The summary of a work of which one atom is left: all nodes, and for each of the atom's outcomes its name and its
    /// node.
    pub fn finish(self) -> Result<Summary, Memory>
        requires work { IsWork self.plain }
        requires one { length self.plain.atoms ≡ 1 }
        ensures { IfOk result (λ s. plain_summary s ≡ summary_of_work self.plain) }
    {
        let Work {
            nodes,
            outcomes,
            names,
            ..
        } = self;
        let finals = finals_of(names, outcomes.as_slice())?;
        Ok(Summary { nodes, finals })
    }
}

/// Each name, with the node of the outcome at its place.
fn finals_of(names: Seq<Text>, outcomes: &[Outcome]) -> Result<Seq<Final>, Memory>
    requires { length names ≡ length outcomes.now }
    ensures { IfOk result (λ finals. map plain_final finals ≡ finals_of names (map plain_outcome outcomes.now)) }
{
    let names = names.into_vec();
    let mut finals = Seq::new(*names.allocator());
    for name in names {
        let node = outcomes[finals.len()].node;
        finals.push(Final { name, node })?;
    }
    Ok(finals)
}
