ghost use Rattle.std.specs.Prelude.{◌≡◌, ◌<◌, ◌≤◌, [], ◌∷◌, length, slice_get, Some, IfSome, MatchOption};
ghost use Rattle.std.specs.List.{range_with_len};
ghost use Rattle.nego_base.specs.Members.{is_in, all_in, any_in, with_member, without_member, united, difference, IsRisingBelow};

use crate::AgentId;
use crate::number_set::NumberSet;
use std::marker::Model;

/// A set of agents whose numbers are below 16. Contracts see it as the rising list of the numbers.
#[derive(Clone, Copy, Debug)]
pub struct AgentSet {
    numbers: NumberSet<16>,
}

impl Model for AgentSet {
    ghost use Rattle.std.specs.Prelude.{List, ℕ};

    ghost Value = { List ℕ };

    ghost view = { λ s. s.numbers };

    ghost inverse = { λ xs. record { numbers = xs } };
}

impl PartialEq for AgentSet {
    ghost use Rattle.std.specs.Prelude.{nat_eq};
    ghost use Rattle.std.specs.Cmp.{partial_equiv_from_equiv};
    ghost use Rattle.std.specs.Cmp.Lexicographic.{pointwise, nat_list_eq_equiv};

    ghost eq = { pointwise nat_eq };

    ghost laws = { partial_equiv_from_equiv nat_list_eq_equiv };

    fn eq(&self, other: &AgentSet) -> bool {
        self.numbers == other.numbers
    }
}

impl Eq for AgentSet {
    ghost use Rattle.std.specs.Cmp.Lexicographic.{nat_list_eq_equiv};

    ghost laws = { nat_list_eq_equiv };
}

impl AgentSet {
    /// The set without members.
    pub fn none() -> AgentSet
        ensures value { result ≡ [] }
        ensures rising { IsRisingBelow 16 result }
    {
        AgentSet {
            numbers: NumberSet::none(),
        }
    }

    /// The set of all agents whose numbers are below n.
    pub fn below(n: u32) -> AgentSet
        requires { n ≤ 16 }
        ensures value { result ≡ range_with_len 0 n }
        ensures rising { IsRisingBelow 16 result }
    {
        AgentSet {
            numbers: NumberSet::below(n),
        }
    }

    /// Whether the agent is a member.
    pub fn has(self, x: AgentId) -> bool
        requires { x.0 < 16 }
        ensures value { result ≡ is_in x.0 self }
        ensures members { IsRisingBelow 16 self }
    {
        self.numbers.has(x.0)
    }

    /// The set with the agent too.
    pub fn with(self, x: AgentId) -> AgentSet
        requires { x.0 < 16 }
        ensures value { result ≡ with_member x.0 self }
        ensures members { IsRisingBelow 16 self }
        ensures rising { IsRisingBelow 16 result }
    {
        AgentSet {
            numbers: self.numbers.with(x.0),
        }
    }

    /// The set without the agent.
    pub fn without(self, x: AgentId) -> AgentSet
        requires { x.0 < 16 }
        ensures value { result ≡ without_member x.0 self }
        ensures members { IsRisingBelow 16 self }
        ensures rising { IsRisingBelow 16 result }
    {
        AgentSet {
            numbers: self.numbers.without(x.0),
        }
    }

    /// The members of both sets.
    pub fn union(self, other: AgentSet) -> AgentSet
        ensures value { result ≡ united self other }
        ensures members { IsRisingBelow 16 self }
        ensures others { IsRisingBelow 16 other }
        ensures rising { IsRisingBelow 16 result }
    {
        AgentSet {
            numbers: self.numbers.union(other.numbers),
        }
    }

    /// The members that aren't in the other set.
    pub fn difference(self, other: AgentSet) -> AgentSet
        ensures value { result ≡ difference self other }
        ensures members { IsRisingBelow 16 self }
        ensures others { IsRisingBelow 16 other }
        ensures rising { IsRisingBelow 16 result }
    {
        AgentSet {
            numbers: self.numbers.difference(other.numbers),
        }
    }

    /// Whether each member is one of the other set.
    pub fn within(self, other: AgentSet) -> bool
        ensures value { result ≡ all_in self other }
        ensures members { IsRisingBelow 16 self }
        ensures others { IsRisingBelow 16 other }
    {
        self.numbers.within(other.numbers)
    }

    /// Whether some member is one of the other set.
    pub fn meets(self, other: AgentSet) -> bool
        ensures value { result ≡ any_in self other }
        ensures members { IsRisingBelow 16 self }
        ensures others { IsRisingBelow 16 other }
    {
        self.numbers.meets(other.numbers)
    }

    /// The member of the least number, where there is a member.
    pub fn least(self) -> Option<AgentId>
        ensures value { MatchOption result (self ≡ []) (λ x. slice_get self 0 ≡ Some x.0) }
        ensures rest { IfSome result (λ x. self ≡ x.0 ∷ without_member x.0 self) }
        ensures bound { IfSome result (λ x. x.0 < 16) }
        ensures members { IsRisingBelow 16 self }
    {
        self.numbers.least().map(AgentId)
    }

    /// How many members there are.
    pub fn count(self) -> u32
        ensures value { result ≡ length self }
        ensures members { IsRisingBelow 16 self }
    {
        self.numbers.count()
    }
}
