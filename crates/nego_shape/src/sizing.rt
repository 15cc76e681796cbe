//! The sizes that a text gives its agents.

ghost use Rattle.std.specs.Prelude.{◌≡◌, map, IfOk};
ghost use Rattle.nego_data.specs.Sizes.{AreSizes};
ghost use Rattle.nego_reader.specs.Content.{content_of};
ghost use Rattle.nego_shape.specs.Naming.{sizes_in};

use nego_base::{Memory, Seq};
use nego_data::Sizes;
use nego_reader::Parsed;
use std::alloc::Global;

/// The sizes of the agents' data. They are asked to be sizes: 1 to 16 of them, each from 1 to 64, and with at most
/// 1,024 joint data.
pub fn sizes_of(alloc: Global, p: &Parsed) -> Result<Sizes, Memory>
    requires { AreSizes (sizes_in (content_of p.now)) }
    ensures { IfOk result (λ sizes. sizes ≡ sizes_in (content_of p.now)) }
{
    let sizes = numbers_of(alloc, p)?;
    Ok(Sizes::new(sizes.as_slice()).unwrap())
}

/// The sizes as numbers.
pub(crate) fn numbers_of(alloc: Global, p: &Parsed) -> Result<Seq<u32>, Memory>
    ensures { IfOk result (λ sizes. sizes ≡ map (λ agent. agent.size) p.now.agents) }
{
    let mut sizes = Seq::new(alloc);
    for agent in p.agents.iter() {
        sizes.push(agent.size)?;
    }
    Ok(sizes)
}
