//! What a case gives the agents: the values that it fixes, and the agents that may have any.
ghost use Rattle.std.specs.Prelude.{◌≡◌, ℕ, List, ◌+◌, ◌<◌, ◌==◌, map, slice_index, length, All, IfSome};
ghost use Rattle.std.specs.List.{list_any, range_with_len};
ghost use Rattle.nego_base.specs.Members.{is_in};
ghost use Rattle.nego_data.specs.Data.{data_count, split, joint};
ghost use Rattle.nego_data.specs.Sizes.{AreBelow, AreSizes, tuple_of};
ghost use Rattle.nego_data.specs.Cases.{term_for};
ghost use Rattle.nego_data.specs.CaseForm.{AssignsBelow, AssignsOnce, FitsSize, SetBelow, TermBelow};
ghost use Rattle.nego_data.specs.Makers.{AreOffsets, HasOffsets};
ghost use Rattle.nego_data.specs.Given.{offsets_of, is_above, least_values, least_given, least_after, is_any, is_free, is_offset};

use crate::Sizes;
use crate::bit_row::BitRow;
use crate::cases::{Case, Term};
use crate::places::place_of;
use nego_base::{AgentId, AgentSet, Seq};

/// Of how many sets of free agents the offsets are kept.
const MOST_OFFSETS: usize = 128;

/// Agents who are free, as they may have any value, and their offsets.
#[derive(Clone, Copy, Debug)]
pub(crate) struct FreeOffsets {
    free: AgentSet,
    those: BitRow,
}

/// The least values that the agents may have after the case.
fn least_values(sizes: &Sizes, case: &Case, old: &[u16; 16]) -> [u16; 16]
    requires agents { All (SetBelow (length sizes.now)) case.now.sets }
    requires fits { AssignsBelow sizes.now case.now }
    requires once { AssignsOnce case.now }
    requires values { AreBelow sizes.now old.now }
    ensures least { (a : ℕ) → a < length sizes.now →
        slice_index result a ≡ least_after (term_for case.now.sets a) (slice_index sizes.now a) old.now (slice_index old.now a) }
    ensures in_range { AreBelow sizes.now result }
    ensures sixteen { length result ≡ 16 }
{
    let mut new = *old;
    for set in case.sets.iter() {
        new[place_of(set.agent)] = least_given(set.term, sizes.size(set.agent), old);
    }
    new
}

/// The number of the least values that the agents may have after the case and these joint data, which have these values.
pub(crate) fn least_number(sizes: &Sizes, case: &Case, d: u16, old: &[u16; 16]) -> u16
    requires agents { All (SetBelow (length sizes.now)) case.now.sets }
    requires fits { AssignsBelow sizes.now case.now }
    requires once { AssignsOnce case.now }
    requires below { d < data_count sizes.now }
    requires values { old.now ≡ tuple_of sizes.now d }
    ensures value { result ≡ joint sizes.now (least_values sizes.now case.now.sets (split sizes.now d)) }
    ensures in_range { result < data_count sizes.now }
{
    if case.sets.is_empty() {
        return d;
    }
    sizes.joint(&least_values(sizes, case, old))
}

/// The least value that the term gives an agent of this size.
fn least_given(term: Term, size: u16, old: &[u16; 16]) -> u16
    requires some_value { 0 < size }
    requires fits { FitsSize term size }
    requires agents { TermBelow 16 term }
    ensures { result ≡ least_given term size old.now }
{
    match term {
        Term::Any => 0,
        Term::Number(n) => n as u16,
        Term::Plus(b, n) => {
            let sum = u64::from(old[place_of(b)]) + u64::from(n);
            sum.min(u64::from(size - 1)) as u16
        }
        Term::Minus(b, n) => {
            let difference = u32::from(old[place_of(b)]).saturating_sub(n);
            difference.min(u32::from(size - 1)) as u16
        }
    }
}

/// The agents to whom the case gives any value.
pub(crate) fn free_agents(case: &Case) -> AgentSet
    requires agents { All (SetBelow 16) case.now.sets }
    requires once { AssignsOnce case.now }
    ensures { (a : ℕ) → is_in a result ≡ is_free (term_for case.now.sets a) }
{
    let mut free = AgentSet::none();
    for set in case.sets.iter() {
        if is_any(set.term) {
            free = free.with(set.agent);
        }
    }
    free
}

/// Whether the term gives any value.
fn is_any(term: Term) -> bool
    ensures { result ≡ is_any term }
{
    matches!(term, Term::Any)
}

/// The offsets of the free agents: the joint data in which no other agent has a value above 0. `None` where no agent is
/// free, and the one offset is 0. The values are those of all joint data. The offsets are kept from then on, where there
/// is room and memory.
pub(crate) fn offsets_above(
    kept: &mut Seq<FreeOffsets>,
    sizes: &Sizes,
    values: &[[u16; 16]],
    free: AgentSet,
) -> Option<BitRow>
    requires sizes { AreSizes sizes.now }
    requires values { values.now ≡ map (tuple_of sizes.now) (range_with_len 0 (data_count sizes.now)) }
    requires kept { All (HasOffsets sizes.now) kept.old }
    ensures above { (least e : ℕ) → is_above result least e ≡ list_any (λ o. least + o == e) (offsets_of sizes.now free) }
    ensures kept { All (HasOffsets sizes.now) kept.new }
{
    if free.least().is_none() {
        return None;
    }
    Some(offsets_once(kept, sizes, values, free))
}

/// The offsets of the free agents, which are looked up, or made and kept.
fn offsets_once(
    kept: &mut Seq<FreeOffsets>,
    sizes: &Sizes,
    values: &[[u16; 16]],
    free: AgentSet,
) -> BitRow
    requires values { values.now ≡ map (tuple_of sizes.now) (range_with_len 0 (data_count sizes.now)) }
    requires kept { All (HasOffsets sizes.now) kept.old }
    ensures offsets { AreOffsets sizes.now free result.words }
    ensures kept { All (HasOffsets sizes.now) kept.new }
{
    if let Some(those) = offsets_kept(kept.as_slice(), free) {
        return those;
    }
    let those = row_of_offsets(sizes, values, free);
    if kept.len() < MOST_OFFSETS {
        let _ = kept.push(FreeOffsets { free, those });
    }
    those
}

/// The offsets of the free agents, where they are kept.
fn offsets_kept(kept: &[FreeOffsets], free: AgentSet) -> Option<BitRow>
    ensures { (sizes : List ℕ) → All (HasOffsets sizes) kept.now → IfSome result (λ those. AreOffsets sizes free those.words) }
{
    for one in kept {
        if one.free == free {
            return Some(one.those);
        }
    }
    None
}

/// Makes room for the offsets of another table's cases, where many are kept.
pub(crate) fn forget_offsets(kept: &mut Seq<FreeOffsets>)
    ensures { (sizes : List ℕ) → All (HasOffsets sizes) kept.old → All (HasOffsets sizes) kept.new }
{
    if kept.len() > MOST_OFFSETS / 2 {
        kept.clear();
    }
}

/// The offsets of the free agents as a row of bits.
fn row_of_offsets(sizes: &Sizes, values: &[[u16; 16]], free: AgentSet) -> BitRow
    requires { values.now ≡ map (tuple_of sizes.now) (range_with_len 0 (data_count sizes.now)) }
    ensures { AreOffsets sizes.now free result.words }
{
    let mut offsets = BitRow::none();
    for o in 0..sizes.all() {
        offsets.insert_where(o, is_offset(free, &values[o as usize]));
    }
    offsets
}

/// Whether no agent but the free ones has a value above 0.
fn is_offset(free: AgentSet, tuple: &[u16; 16]) -> bool
    ensures { result ≡ is_offset free tuple.now }
{
    (0..16).all(|a| tuple[a as usize] == 0 || free.has(AgentId(a)))
}
