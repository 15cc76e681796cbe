//! The parties' part of joint data, which is all that an outcome reads and changes.
ghost use Rattle.std.specs.Prelude.{◌≡◌, IsTrue, ◌<◌, length, slice_index, if◌then◌else◌};
ghost use Rattle.nego_base.specs.Members.{is_in};
ghost use Rattle.nego_data.specs.Data.{data_count, joint};
ghost use Rattle.nego_data.specs.Sizes.{AreBelow, AreSizes};
ghost use Rattle.nego_data.specs.Parts.{part_sizes, part_values, are_kept};

use crate::Sizes;
use crate::places::place_of;
use nego_base::{AgentId, AgentSet};

impl Sizes {
    /// The sizes of the parties, and 1 for everyone else.
    pub(crate) fn part(&self, parties: AgentSet) -> Sizes
        ensures value { result ≡ part_sizes parties self.now }
        ensures sizes { AreSizes self.now }
    {
        let count = self.count();
        let mut part = [1; 16];
        for k in 0..count {
            part[k as usize] = part_size(self, parties, AgentId(k));
        }
        Sizes::new(&part[..count as usize]).unwrap()
    }
}

/// The agent's size, but 1 where it is no party.
fn part_size(sizes: &Sizes, parties: AgentSet, a: AgentId) -> u32
    requires { a.0 < length sizes.now }
    ensures { result ≡ (if is_in a.0 parties then slice_index sizes.now a.0 else 1) }
{
    let size = u32::from(sizes.size(a));
    if parties.has(a) { size } else { 1 }
}

/// The values of the parties, and 0 for everyone else.
pub(crate) fn part_values(parties: AgentSet, values: &[u16; 16]) -> [u16; 16]
    ensures { result ≡ part_values parties values.now }
{
    let mut part = [0; 16];
    for k in 0..16 {
        part[k] = part_value(parties, values, AgentId(k as u32));
    }
    part
}

/// The agent's value, but 0 where it is no party.
fn part_value(parties: AgentSet, values: &[u16; 16], a: AgentId) -> u16
    requires { a.0 < 16 }
    ensures { result ≡ (if is_in a.0 parties then slice_index values.now a.0 else 0) }
{
    if parties.has(a) {
        values[place_of(a)]
    } else {
        0
    }
}

/// The number of the parties' values, among all that they may have.
pub(crate) fn part_number(parties: AgentSet, part: &Sizes, values: &[u16; 16]) -> u16
    requires { AreBelow part.now (part_values parties values.now) }
    ensures value { result ≡ joint part.now (part_values parties values.now) }
    ensures in_range { result < data_count part.now }
{
    part.joint(&part_values(parties, values))
}

/// Whether everyone but the parties has the same value in both.
pub(crate) fn are_kept(parties: AgentSet, old: &[u16; 16], new: &[u16; 16]) -> bool
    ensures { result ≡ are_kept parties old.now new.now }
{
    (0..16).all(|k| parties.has(AgentId(k)) || old[k as usize] == new[k as usize])
}

/// Whether these are the same sizes, so that nobody but the parties has a choice.
pub(crate) fn are_same(one: &Sizes, two: &Sizes) -> bool
    ensures { IsTrue result → one.now ≡ two.now }
{
    one == two
}
