//! The values of all joint data, counted up.
ghost use Rattle.std.specs.Prelude.{◌≡◌, ◌+◌, ◌<◌, map, IfOk, OnOk, OnErr};
ghost use Rattle.std.specs.List.{range_with_len};
ghost use Rattle.nego_data.specs.Data.{data_count, joint};
ghost use Rattle.nego_data.specs.Makers.{AreMadeOnce};
ghost use Rattle.nego_data.specs.Sizes.{IsTuple, tuple_of};

use crate::Sizes;
use crate::places::place_of;
use nego_base::{AgentId, Memory, Seq};
use std::alloc::Global;

/// Makes the values of all joint data, one after the other, where they weren't made.
pub(crate) fn make_once(
    alloc: Global,
    sizes: &Sizes,
    values: &mut Seq<[u16; 16]>,
) -> Result<(), Memory>
    requires { AreMadeOnce sizes.now values.old }
    ensures ok { OnOk result (values.new ≡ map (tuple_of sizes.now) (range_with_len 0 (data_count sizes.now))) }
    ensures err { OnErr result (values.new ≡ values.old) }
{
    if values.is_empty() {
        *values = all_values(alloc, sizes)?;
    }
    Ok(())
}

/// The values of all joint data, one after the other.
fn all_values(alloc: Global, sizes: &Sizes) -> Result<Seq<[u16; 16]>, Memory>
    ensures { IfOk result (λ values. values ≡ map (tuple_of sizes.now) (range_with_len 0 (data_count sizes.now))) }
{
    let mut values = Seq::new(alloc);
    let mut tuple = [0; 16];
    for _ in 0..sizes.all() {
        values.push(tuple)?;
        count_up(sizes, &mut tuple);
    }
    Ok(values)
}

/// Makes the values those of the next joint data: the last agents that have their greatest get 0, and the one before
/// them one more.
fn count_up(sizes: &Sizes, tuple: &mut [u16; 16])
    requires { IsTuple sizes.now tuple.old }
    ensures tuple { IsTuple sizes.now tuple.new }
    ensures next { joint sizes.now tuple.old + 1 < data_count sizes.now → joint sizes.now tuple.new ≡ joint sizes.now tuple.old + 1 }
{
    for a in (0..sizes.count()).rev() {
        let place = place_of(AgentId(a));
        let more = tuple[place] + 1;
        if more < sizes.size(AgentId(a)) {
            tuple[place] = more;
            return;
        }
        tuple[place] = 0;
    }
}
