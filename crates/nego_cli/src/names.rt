//! The names of outcomes and agents in a text.

ghost use Rattle.std.specs.Prelude.{◌<◌, length, OnOk};
ghost use Rattle.nego_base.specs.Appending.{Appends};
ghost use Rattle.nego_cli.specs.Refusals.{choice_words};

use nego_base::{AgentId, Memory, OutcomeId, Text};
use nego_model::Diagram;

/// Adds an outcome and an agent.
pub(crate) fn add_choice(
    text: &mut Text,
    d: &Diagram,
    o: OutcomeId,
    a: AgentId,
) -> Result<(), Memory>
    requires outcome { o.0 < length d.now.outcomes }
    requires agent { a.0 < length d.now.agents }
    ensures { OnOk result (Appends text.old text.new (choice_words d.now o.0 a.0)) }
{
    text.extend_from_slice(d.atom_name(d.atom_of(o)))?;
    text.extend_from_slice(b".")?;
    text.extend_from_slice(d.outcome_name(o))?;
    text.extend_from_slice(b" ")?;
    text.extend_from_slice(d.agent_name(a))
}
