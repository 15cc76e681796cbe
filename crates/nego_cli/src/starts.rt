//! The start values of a diagram's agents.

ghost use Rattle.std.specs.Prelude.{◌<◌, IfOk};
ghost use Rattle.nego_data.specs.Data.{data_count};
ghost use Rattle.nego_cli.specs.Starts.{StartsAt};

use crate::failure::StartFault;
use nego_base::AgentId;
use nego_model::Diagram;

/// The joint data that the values are, where they are one for each agent and each is below its agent's size.
pub(crate) fn start_of(d: &Diagram, values: &[u32]) -> Result<u16, StartFault>
    ensures at { StartsAt d.now values.now result }
    ensures in_range { IfOk result (λ start. start < data_count d.now.sizes) }
{
    if values.len() != d.agents() as usize {
        return Err(StartFault::StartCount(values.len()));
    }
    let mut tuple = [0; 16];
    for (a, value) in values.iter().enumerate() {
        let agent = AgentId(a as u32);
        if *value >= u32::from(d.sizes().size(agent)) {
            return Err(StartFault::StartTooLarge(agent));
        }
        tuple[a] = *value as u16;
    }
    Ok(d.sizes().joint(&tuple))
}
