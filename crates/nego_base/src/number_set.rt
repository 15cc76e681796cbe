ghost use Rattle.std.specs.Prelude.{◌≡◌, ◌-◌, ◌^◌, ◌<◌, ◌≤◌, [], ◌∷◌, length, slice_get, Some, IfSome, MatchOption};
ghost use Rattle.std.specs.List.{range_with_len};
ghost use Rattle.nego_base.specs.Members.{is_in, all_in, any_in, with_member, without_member, united, difference, IsRisingBelow};

use std::marker::Model;

/// A set of numbers below `WIDTH`, which is at most 64. Contracts see it as the rising list of the numbers.
#[derive(Clone, Copy, Debug)]
pub struct NumberSet<const WIDTH: u32> {
    bits: u64,
}

impl<const WIDTH: u32> Model for NumberSet<WIDTH> {
    ghost use Rattle.std.specs.Prelude.{List, ℕ};
    ghost use Rattle.std.proofs.Common.{ap};
    ghost use Rattle.nego_base.specs.Bits.{members, word_of, word_of-members, FitsWidth};

    ghost Value = { List ℕ };

    ghost view = { λ s. members WIDTH s.bits };

    ghost invariant = { λ s. FitsWidth WIDTH s.bits };

    ghost inverse = { λ xs. record { bits = word_of xs } };

    ghost inverse_ok = { λ a h. ap (λ (n : ℕ). record { bits = n }) (word_of-members WIDTH a.bits h.fits) };
}

impl<const WIDTH: u32> PartialEq for NumberSet<WIDTH> {
    ghost use Rattle.std.specs.Prelude.{nat_eq};
    ghost use Rattle.std.specs.Cmp.{partial_equiv_from_equiv};
    ghost use Rattle.std.specs.Cmp.Lexicographic.{pointwise, nat_list_eq_equiv};

    ghost eq = { pointwise nat_eq };

    ghost laws = { partial_equiv_from_equiv nat_list_eq_equiv };

    fn eq(&self, other: &NumberSet<WIDTH>) -> bool {
        self.bits == other.bits
    }
}

impl<const WIDTH: u32> Eq for NumberSet<WIDTH> {
    ghost use Rattle.std.specs.Cmp.Lexicographic.{nat_list_eq_equiv};

    ghost laws = { nat_list_eq_equiv };
}

impl<const WIDTH: u32> NumberSet<WIDTH> {
    /// The set without members.
    pub fn none() -> NumberSet<WIDTH>
        requires { WIDTH ≤ 64 }
        ensures value { result ≡ [] }
        ensures rising { IsRisingBelow WIDTH result }
    {
        NumberSet { bits: 0 }
    }

    /// The set of all numbers below n.
    pub fn below(n: u32) -> NumberSet<WIDTH>
        requires width { WIDTH ≤ 64 }
        requires within { n ≤ WIDTH }
        ensures value { result ≡ range_with_len 0 n }
        ensures rising { IsRisingBelow WIDTH result }
    {
        NumberSet { bits: low_bits(n) }
    }

    /// Whether the number is a member.
    pub fn has(self, x: u32) -> bool
        requires { x < WIDTH }
        ensures value { result ≡ is_in x self.entry }
        ensures members { IsRisingBelow WIDTH self.entry }
    {
        self.bits >> x & 1 == 1
    }

    /// The set with the number too.
    pub fn with(self, x: u32) -> NumberSet<WIDTH>
        requires { x < WIDTH }
        ensures value { result ≡ with_member x self.entry }
        ensures members { IsRisingBelow WIDTH self.entry }
        ensures rising { IsRisingBelow WIDTH result }
    {
        NumberSet {
            bits: self.bits | 1 << x,
        }
    }

    /// The set without the number.
    pub fn without(self, x: u32) -> NumberSet<WIDTH>
        requires { x < WIDTH }
        ensures value { result ≡ without_member x self.entry }
        ensures members { IsRisingBelow WIDTH self.entry }
        ensures rising { IsRisingBelow WIDTH result }
    {
        NumberSet {
            bits: self.bits & !(1 << x),
        }
    }

    /// The members of both sets.
    pub fn union(self, other: NumberSet<WIDTH>) -> NumberSet<WIDTH>
        ensures value { result ≡ united self.entry other.entry }
        ensures members { IsRisingBelow WIDTH self.entry }
        ensures others { IsRisingBelow WIDTH other.entry }
        ensures rising { IsRisingBelow WIDTH result }
    {
        NumberSet {
            bits: self.bits | other.bits,
        }
    }

    /// The members that aren't in the other set.
    pub fn difference(self, other: NumberSet<WIDTH>) -> NumberSet<WIDTH>
        ensures value { result ≡ difference self.entry other.entry }
        ensures members { IsRisingBelow WIDTH self.entry }
        ensures others { IsRisingBelow WIDTH other.entry }
        ensures rising { IsRisingBelow WIDTH result }
    {
        NumberSet {
            bits: self.bits & !other.bits,
        }
    }

    /// Whether each member is one of the other set.
    pub fn within(self, other: NumberSet<WIDTH>) -> bool
        ensures value { result ≡ all_in self.entry other.entry }
        ensures members { IsRisingBelow WIDTH self.entry }
        ensures others { IsRisingBelow WIDTH other.entry }
    {
        self.bits & other.bits == self.bits
    }

    /// Whether some member is one of the other set.
    pub fn meets(self, other: NumberSet<WIDTH>) -> bool
        ensures value { result ≡ any_in self.entry other.entry }
        ensures members { IsRisingBelow WIDTH self.entry }
        ensures others { IsRisingBelow WIDTH other.entry }
    {
        self.bits & other.bits != 0
    }

    /// The least member, where there is a member.
    pub fn least(self) -> Option<u32>
        ensures value { MatchOption result (self.entry ≡ []) (λ x. slice_get self.entry 0 ≡ Some x) }
        ensures rest { IfSome result (λ x. self.entry ≡ x ∷ without_member x self.entry) }
        ensures bound { IfSome result (λ x. x < WIDTH) }
        ensures members { IsRisingBelow WIDTH self.entry }
    {
        if self.bits == 0 {
            return None;
        }
        Some(self.bits.trailing_zeros())
    }

    /// How many members there are.
    pub fn count(self) -> u32
        ensures value { result ≡ length self.entry }
        ensures members { IsRisingBelow WIDTH self.entry }
    {
        self.bits.count_ones()
    }
}

/// The word of which the n lowest bits are set.
fn low_bits(n: u32) -> u64
    requires { n ≤ 64 }
    ensures { result ≡ 2 ^ n - 1 }
{
    match 1u64.checked_shl(n) {
        Some(bit) => bit - 1,
        None => u64::MAX,
    }
}
