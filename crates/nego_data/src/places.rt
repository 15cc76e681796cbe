//! Where agents' values stand among the values of joint data: the one place where agents' numbers index values.
ghost use Rattle.std.specs.Prelude.{◌≡◌};
ghost use Rattle.nego_data.specs.Places.{place_of};

use nego_base::AgentId;

/// The place of the agent's value.
pub(crate) fn place_of(a: AgentId) -> usize
    ensures { result ≡ place_of a }
{
    a.0 as usize
}
