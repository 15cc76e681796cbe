//! The joint data of the agents: a value for each, numbered so that the first agent is the most significant.
ghost use Rattle.std.specs.Prelude.{◌≡◌, ◌-◌, ◌<◌, ◌≤◌, ◌++◌, ◌==◌, nat_lt, length, replicate, slice_index, position, IfOk, IfErr, All};
ghost use Rattle.nego_data.specs.Data.{data_count, joint};
ghost use Rattle.nego_data.specs.Sizes.{AreSizes, HasFault, fault_of_sizes, place_past_joint, AreBelow, tuple_of};
ghost use Rattle.std.specs.Option.{option_map};
ghost use Rattle.std.specs.Result.{result_err};

use crate::places::place_of;
use nego_base::AgentId;
use std::marker::Model;
use thiserror::Error;

/// The greatest size of an agent's data.
const MAX_SIZE: u32 = 64;

/// The greatest product of all sizes.
const MAX_JOINT: u32 = 1024;

/// Why numbers are not the sizes of agents. It names the first agent at whom it shows.
#[derive(Clone, Copy, Debug, PartialEq, Eq, Error)]
pub enum SizeFault {
    /// An agent has no value.
    #[error("the size of an agent is 0")]
    ZeroSize(AgentId),
    /// An agent has more than 64 values.
    #[error("the size of an agent is above 64")]
    SizeTooLarge(AgentId),
    /// The product of the sizes up to this agent's is above 1,024.
    #[error("the product of the sizes is above 1,024")]
    JointTooLarge(AgentId),
}

/// The sizes of the agents' data: how many values each agent may have, which are the numbers below its size.
/// Contracts see the list of the sizes.
#[derive(Clone, Copy, Debug, PartialEq, Eq)]
pub struct Sizes {
    count: u32,
    sizes: [u16; 16],
    all: u16,
}

impl Model for Sizes {
    ghost use Rattle.std.specs.Prelude.{ℕ, ◌-◌, List, ◌++◌, length, replicate};
    ghost use Rattle.nego_data.specs.Data.{data_count};

    ghost Value = { List ℕ };

    ghost use Rattle.nego_data.specs.Kept.{sizes_kept, AreKept, same_kept};

    ghost view = { sizes_kept };

    ghost invariant = { AreKept };

    ghost inverse = { λ sizes. record { count = length sizes; sizes = sizes ++ replicate (16 - length sizes) 0; all = data_count sizes } };

    ghost inverse_ok = { same_kept };
}

impl Sizes {
    /// The sizes of 1 to 16 agents.
    pub fn new(sizes: &[u32]) -> Result<Sizes, SizeFault>
        requires some_agent { 0 < length sizes.now }
        requires few_agents { length sizes.now ≤ 16 }
        ensures ok { IfOk result (λ s. s ≡ sizes.now) }
        ensures sizes { IfOk result AreSizes }
        ensures fault { result_err result ≡ fault_of_sizes sizes.now }
        ensures err { IfErr result (HasFault sizes.now) }
    {
        if let Some(a) = first_zero(sizes) {
            return Err(SizeFault::ZeroSize(AgentId(a as u32)));
        }
        if let Some(a) = first_too_large(sizes) {
            return Err(SizeFault::SizeTooLarge(AgentId(a as u32)));
        }
        let all = product(sizes)?;
        Ok(Sizes {
            count: sizes.len() as u32,
            sizes: padded(sizes),
            all,
        })
    }

    /// How many agents there are.
    pub fn count(&self) -> u32
        ensures value { result ≡ length self.now }
        ensures sizes { AreSizes self.now }
    {
        self.count
    }

    /// How many values the agent may have.
    pub fn size(&self, a: AgentId) -> u16
        requires { a.0 < length self.now }
        ensures value { result ≡ slice_index self.now a.0 }
        ensures sizes { AreSizes self.now }
    {
        self.sizes[place_of(a)]
    }

    /// How many joint data there are: the product of the sizes.
    pub fn all(&self) -> u16
        ensures value { result ≡ data_count self.now }
        ensures sizes { AreSizes self.now }
    {
        self.all
    }

    /// The number of the joint data with these values of the agents. What stands past the agents is not read.
    pub fn joint(&self, tuple: &[u16; 16]) -> u16
        requires { AreBelow self.now tuple.now }
        ensures value { result ≡ joint self.now tuple.now }
        ensures in_range { result < data_count self.now }
        ensures sizes { AreSizes self.now }
    {
        let mut d = 0;
        for a in 0..self.count as usize {
            d = d * self.sizes[a] + tuple[a];
        }
        d
    }

    /// The values of the agents in joint data, and 0 past the agents.
    pub fn split(&self, d: u16) -> [u16; 16]
        requires { d < data_count self.now }
        ensures value { result ≡ tuple_of self.now d }
        ensures in_range { AreBelow self.now result }
        ensures sizes { AreSizes self.now }
    {
        let mut tuple = [0; 16];
        let mut rest = d;
        for a in (0..self.count as usize).rev() {
            tuple[a] = rest % self.sizes[a];
            rest /= self.sizes[a];
        }
        tuple
    }
}

/// The place of the first size that is 0.
fn first_zero(sizes: &[u32]) -> Option<usize>
    ensures { result ≡ position (λ size. size == 0) sizes.now }
{
    sizes.iter().position(|size| *size == 0)
}

/// The place of the first size that is above the greatest.
fn first_too_large(sizes: &[u32]) -> Option<usize>
    ensures { result ≡ position (λ size. nat_lt 64 size) sizes.now }
{
    sizes.iter().position(|size| *size > MAX_SIZE)
}

/// The product of the sizes, where it doesn't pass the greatest.
fn product(sizes: &[u32]) -> Result<u16, SizeFault>
    requires few_agents { length sizes.now ≤ 16 }
    requires each { All (λ size. (0 < size) × (size ≤ 64)) sizes.now }
    ensures ok { IfOk result (λ all. all ≡ data_count sizes.now) }
    ensures small { IfOk result (λ all. all ≤ 1024) }
    ensures err { result_err result ≡ option_map (λ k. SizeFault.JointTooLarge (record { 0 = k })) (place_past_joint sizes.now) }
{
    let mut all = 1;
    for (a, size) in sizes.iter().enumerate() {
        all *= *size;
        if all > MAX_JOINT {
            return Err(SizeFault::JointTooLarge(AgentId(a as u32)));
        }
    }
    Ok(all as u16)
}

/// The sizes, and 0 for each further agent that there might be.
fn padded(sizes: &[u32]) -> [u16; 16]
    requires few_agents { length sizes.now ≤ 16 }
    requires each { All (λ size. (0 < size) × (size ≤ 64)) sizes.now }
    ensures { result ≡ sizes.now ++ replicate (16 - length sizes.now) 0 }
{
    let mut padded = [0; 16];
    for (a, size) in sizes.iter().enumerate() {
        padded[a] = *size as u16;
    }
    padded
}
