//! Laws of the order of uses. Each function does nothing; its clause is the law.

ghost use Rattle.nego_reduce.specs.Order.{NextUsesAreOne};
ghost use Rattle.nego_reduce.specs.Laws.{OneAtomAllowsNoUse, ReducedTells, ReductionsAreOne};
ghost use Rattle.nego_expr.specs.Keeps.{UsesKeep};
ghost use Rattle.nego_reduce.specs.Laws.{AcyclicWorksStayRanked, PassedAtomsNeverHinder, AcyclicIsDecided, SoundAcyclicWorksGoOn, UsesAreFew, AliveAreOfTheDiagram, AcyclicIsNeverFull, AcyclicNodesAreCounted, AcyclicNodesAreFew};

/// A work has at most one next use, so that the uses of the order are determined.
pub fn next_uses_are_one()
    ensures { NextUsesAreOne }
{}

/// A work has at most one reduction: whether one atom is left, it is stuck, or there would be too many nodes; the uses that
/// were made; and the summary or the work that is left.
pub fn reductions_are_one()
    ensures { ReductionsAreOne }
{}

/// A work of one atom allows no use.
pub fn one_atom_allows_no_use()
    ensures { OneAtomAllowsNoUse }
{}

/// The summary to which a diagram is reduced tells the diagram.
pub fn reduced_tells()
    ensures { ReducedTells }
{}

/// Each use that a work allows, by whichever rule, leaves a work and keeps what this one was.
pub fn uses_keep()
    ensures { UsesKeep }
{}

/// The works to which uses lead from the fresh work of an acyclic diagram are ranked by the diagram's own forward orders, so
/// that no iteration is ever allowed there.
pub fn acyclic_works_stay_ranked()
    ensures { AcyclicWorksStayRanked }
{}

/// On these works an outcome that may enter an atom has never passed it, so that passed atoms hinder no shortcut there.
pub fn passed_atoms_never_hinder()
    ensures { PassedAtomsNeverHinder }
{}

/// An acyclic work allows no iteration. A sound one with more than one atom allows a merge, a shortcut into an atom of one
/// outcome, or closing.
pub fn sound_acyclic_works_go_on()
    ensures { SoundAcyclicWorksGoOn }
{}

/// When the order's uses have come to an end on the fresh work of an acyclic diagram, one atom is left exactly where the
/// diagram is sound.
pub fn acyclic_is_decided()
    ensures { AcyclicIsDecided }
{}

/// The uses that are made of the fresh work of a deterministic diagram, each the next one in its turn, are few. The diagram
/// may be cyclic.
pub fn uses_are_few()
    ensures { UsesAreFew }
{}

/// The works to which uses lead from the fresh work of a deterministic diagram, each the next one in its turn, have no more
/// alive outcomes than the diagram, and these have numbers of its outcomes.
pub fn alive_are_of_the_diagram()
    ensures { AliveAreOfTheDiagram }
{}

/// From the fresh work of an acyclic diagram the next use never makes more than 20,000 nodes.
pub fn acyclic_is_never_full()
    ensures { AcyclicIsNeverFull }
{}

/// The nodes that the order's uses leave, from the fresh work of an acyclic diagram: each use makes one, but for the closing,
/// which makes one for each final outcome. So they are few.
pub fn acyclic_nodes_are_counted()
    ensures counted { AcyclicNodesAreCounted }
    ensures few { AcyclicNodesAreFew }
{}
