//! Of which joint data comparisons hold, and which joint data cases cover, as sets.
ghost use Rattle.std.specs.Prelude.{◌≡◌, ◌≤◌, ℕ, List, map, All, IfSome, MatchOption};
ghost use Rattle.std.specs.List.{list_all, range_with_len};
ghost use Rattle.nego_data.specs.Data.{data_count};
ghost use Rattle.nego_data.specs.BitRows.{is_set};
ghost use Rattle.nego_data.specs.Sizes.{tuple_of};
ghost use Rattle.nego_data.specs.Cases.{covers, test_holds};
ghost use Rattle.nego_data.specs.CaseForm.{TestBelow};
ghost use Rattle.nego_data.specs.Covered.{AreThose, AreAmongThose, IsKnown};

use crate::Sizes;
use crate::bit_row::BitRow;
use crate::cases::{Case, Test};
use crate::covering::test_holds;
use nego_base::Seq;

/// Of how many comparisons it is kept where they hold.
const MOST_KNOWN: usize = 128;

/// A comparison, and the joint data of which it holds.
#[derive(Clone, Copy, Debug)]
pub(crate) struct Known {
    test: Test,
    set: BitRow,
}

/// The joint data of which the comparison holds, where they are known.
fn recalled(known: &[Known], test: &Test) -> Option<BitRow>
    ensures { (sizes : List ℕ) → All (IsKnown sizes) known.now → IfSome result (λ set. AreThose sizes (test_holds test.now) set.words) }
{
    for one in known {
        if one.test == *test {
            return Some(one.set);
        }
    }
    None
}

/// The joint data of which the comparison holds, told by the values of all.
fn told(sizes: &Sizes, values: &[[u16; 16]], test: &Test) -> BitRow
    requires values { values.now ≡ map (tuple_of sizes.now) (range_with_len 0 (data_count sizes.now)) }
    requires agents { TestBelow 16 test.now }
    ensures { AreThose sizes.now (test_holds test.now) result.words }
{
    let mut set = BitRow::none();
    for d in 0..sizes.all() {
        set.insert_where(d, test_holds(test, &values[d as usize]));
    }
    set
}

/// The joint data of which the comparison holds. They are known from then on, where there is room and memory.
fn those_of(known: &mut Seq<Known>, sizes: &Sizes, values: &[[u16; 16]], test: &Test) -> BitRow
    requires values { values.now ≡ map (tuple_of sizes.now) (range_with_len 0 (data_count sizes.now)) }
    requires agents { TestBelow 16 test.now }
    requires known { All (IsKnown sizes.now) known.old }
    ensures those { AreThose sizes.now (test_holds test.now) result.words }
    ensures known { All (IsKnown sizes.now) known.new }
{
    if let Some(set) = recalled(known.as_slice(), test) {
        return set;
    }
    let set = told(sizes, values, test);
    if known.len() < MOST_KNOWN {
        let _ = known.push(Known { test: *test, set });
    }
    set
}

/// Makes room for the comparisons of another table's cases, where many are known.
pub(crate) fn forget_known(known: &mut Seq<Known>)
    ensures { (sizes : List ℕ) → All (IsKnown sizes) known.old → All (IsKnown sizes) known.new }
{
    if known.len() > MOST_KNOWN / 2 {
        known.clear();
    }
}

/// The joint data that the case covers, of which all its comparisons hold; `None` where all of these are among the old
/// ones, which may show before all comparisons are evaluated.
pub(crate) fn newly_covered(
    known: &mut Seq<Known>,
    sizes: &Sizes,
    values: &[[u16; 16]],
    case: &Case,
    old: &BitRow,
) -> Option<BitRow>
    requires few { data_count sizes.now ≤ 1024 }
    requires values { values.now ≡ map (tuple_of sizes.now) (range_with_len 0 (data_count sizes.now)) }
    requires agents { All (TestBelow 16) case.now.tests }
    requires known { All (IsKnown sizes.now) known.old }
    ensures covered { MatchOption result (AreAmongThose sizes.now (covers case.now) old.now.words) (λ set. AreThose sizes.now (covers case.now) set.words) }
    ensures known { All (IsKnown sizes.now) known.new }
{
    let mut covered = BitRow::all();
    for test in case.tests.iter() {
        if covered.is_within(old) {
            return None;
        }
        covered.keep(&those_of(known, sizes, values, test));
    }
    if covered.is_within(old) {
        return None;
    }
    Some(covered)
}

/// Whether all joint data are in the set.
pub(crate) fn has_all(sizes: &Sizes, set: &BitRow) -> bool
    ensures { result ≡ list_all (is_set set.now.words) (range_with_len 0 (data_count sizes.now)) }
{
    (0..sizes.all()).all(|d| set.has(d))
}
