//! Uses of rules, each in its arms.

ghost use Rattle.nego_expr.specs.Work.{IsWork};

use crate::tests::runs::shaped;
use nego_base::{AtomId, OutcomeId};
use nego_expr::{Use, Work};
use nego_iterate::iterate;
use nego_merge::merge;
use nego_shortcut::{close, shortcut};
use std::alloc::Global;
use std::process::Abort;
use std::test::Fail;

/// A diagram whose first atom has three outcomes that lead to the second, which has two: one leads on, one back to it.
const ROUND: &[u8] = b"nego 1
agent a 4
atom start a
out x
case :
next mid a
out y
case : a:=1
next mid a
out z
case : a:=2
next mid a
atom mid a
out again
case : a:=a+1
next mid a
out on
case :
next stop a
atom stop a
out ok
case :
first start
last stop
end
";

/// Makes a use, after which the first and the second atom have so many outcomes.
fn used(rt: &impl Abort, w: &mut Work, u: Use, first: u32, second: u32)
    requires { IsWork w.old.plain }
    ensures { IsWork w.new.plain }
{
    let made = match u {
        Use::Merge(o1, o2) => merge(w, o1, o2),
        Use::Iterate(o) => iterate(w, o),
        Use::Shortcut(o, n) => shortcut(w, o, n),
        Use::Close => close(w),
    };
    assert!(rt; made == Ok(()), "{u:?}");
    assert!(rt; w.count_of(AtomId(0)) == first, "{u:?}");
    assert!(rt; w.count_of(AtomId(1)) == second, "{u:?}");
}

/// That each use is made, with memory at hand.
pub(crate) fn rules_are_used(rt: &impl Abort, alloc: Global) -> Result<(), Fail> {
    let d = shaped(rt, alloc, ROUND)?;
    let mut w = Work::new(alloc, &d)?;
    used(rt, &mut w, Use::Merge(OutcomeId(0), OutcomeId(1)), 2, 2);
    used(rt, &mut w, Use::Shortcut(OutcomeId(2), AtomId(1)), 3, 2);
    used(rt, &mut w, Use::Iterate(OutcomeId(3)), 3, 1);
    used(rt, &mut w, Use::Shortcut(OutcomeId(0), AtomId(1)), 3, 1);
    used(rt, &mut w, Use::Merge(OutcomeId(0), OutcomeId(6)), 2, 1);
    used(rt, &mut w, Use::Shortcut(OutcomeId(2), AtomId(1)), 2, 0);
    used(rt, &mut w, Use::Merge(OutcomeId(0), OutcomeId(2)), 1, 0);
    used(rt, &mut w, Use::Close, 0, 0);
    Ok(())
}
