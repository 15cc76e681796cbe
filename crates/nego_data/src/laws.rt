//! Laws over the definitions. Each function does nothing; its clause is the law.

ghost use Rattle.nego_data.specs.Sizes.{FirstFaultIsSo, JointAndSplitAreInverse};

/// Joint data and tuples are one for one: `joint` and `split` of sizes are inverse to each other.
pub fn joint_and_split_are_inverse()
    ensures { JointAndSplitAreInverse }
{}

/// What the first fault of sizes says: its agent is the first whose size, or product so far, is so, and no agent has a
/// fault of a kind before.
pub fn first_fault_is_so()
    ensures { FirstFaultIsSo }
{}
