//! Laws of works. Each function does nothing; its clause is the law.

ghost use Rattle.nego_expr.specs.Finish.{FinishedWorksTell, OneAtomWorksAreSound};
ghost use Rattle.nego_expr.specs.Keeps.{WorksAreLocal};
ghost use Rattle.nego_expr.specs.Lead.{AllowedUsesKeepWhatStands, AllowedUsesLeadToOneWork};
ghost use Rattle.nego_expr.specs.Sorted.{SortedSlotsAreOne};
ghost use Rattle.nego_expr.specs.StandsFor.{FreshWorksHaveTheRuns, FreshWorksStand, KeptWorksStand};

/// The fresh work of a deterministic diagram is a work, has the same runs, and relates what the diagram does. What is
/// made of it by uses that keep does so too.
pub fn fresh_works_stand()
    ensures stand { FreshWorksStand }
    ensures runs { FreshWorksHaveTheRuns }
    ensures kept { KeptWorksStand }
{}

/// The outcomes of a work act on their parties alone, where the outcomes that were read do so.
pub fn works_are_local()
    ensures { WorksAreLocal }
{}

/// Alive outcomes have one sorted list.
pub fn sorted_slots_are_one()
    ensures { SortedSlotsAreOne }
{}

/// Allowed uses, made one after the other, lead to one work, and keep what stands for a diagram.
pub fn uses_that_lead()
    ensures stand { AllowedUsesKeepWhatStands }
    ensures one { AllowedUsesLeadToOneWork }
{}

/// A work of one atom is sound, and its outcomes' expressions are what its complete runs relate.
pub fn one_atom_works_are_sound()
    ensures { OneAtomWorksAreSound }
{}

/// The summary of a work of one atom that stands for a diagram tells the diagram.
pub fn finished_works_tell()
    ensures { FinishedWorksTell }
{}
