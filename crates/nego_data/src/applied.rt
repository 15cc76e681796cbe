//! To which joint data lists of assignments were applied already, so that none is applied to them again.
ghost use Rattle.std.specs.Prelude.{ℕ, ◌≤◌, List, All};
ghost use Rattle.nego_data.specs.Data.{data_count};
ghost use Rattle.nego_data.specs.Assignments.{IsApplied, IsAppliedTo};

use crate::bit_row::BitRow;
use crate::cases::Case;
use nego_base::Seq;

/// Of how many lists of assignments it is kept to what they were applied.
const MOST_APPLIED: usize = 128;

/// A case, and joint data to which its assignments were applied, by it or by another case that has them too.
#[derive(Clone, Copy, Debug)]
pub(crate) struct Applied<'a> {
    case: &'a Case,
    those: BitRow,
}

/// Joint data to which the assignments of the case were applied.
pub(crate) fn applied_to(applied: &[Applied<'_>], case: &Case) -> BitRow
    ensures { (sizes : List ℕ) (table : List (List ℕ)) → All (IsApplied sizes table) applied.now → IsAppliedTo sizes table case.now.sets result.words }
{
    for one in applied {
        if one.case.sets == case.sets {
            return one.those;
        }
    }
    BitRow::none()
}

/// Keeps that the assignments of the case were applied to the joint data, where there is room and memory.
pub(crate) fn keep_applied<'a>(applied: &mut Seq<Applied<'a>>, case: &'a Case, those: &BitRow)
    ensures { (sizes : List ℕ) (table : List (List ℕ)) → All (IsApplied sizes table) applied.old → data_count sizes ≤ 1024 → IsAppliedTo sizes table case.now.sets those.now.words → All (IsApplied sizes table) applied.new }
{
    for i in 0..applied.len() {
        if applied[i].case.sets == case.sets {
            applied[i].those.add(those);
            return;
        }
    }
    if applied.len() < MOST_APPLIED {
        let _ = applied.push(Applied {
            case,
            those: *those,
        });
    }
}
