//! Laws over the definitions. Each function does nothing; its clause is the law.

ghost use Rattle.nego_model.specs.Laws.{CompleteRunsEndWithTheLastAtom, JoinsThroughBetween, OlderNodesKeepTheirMeaning, CompleteRunsPassEveryoneAtTheLastAtom, StepsApartCommute, StepsApartJoinTheSame, NeighboursChangePlaces, NeighboursKeepJoinedData, NeighboursKeepEntries, NeighboursKeepProjections, ReadinessFollowsFromTheProjection, SameProjectionsLeaveTheSame, OwnEntriesProject, ValuesFollowFromOwnEntries, ForwardOrdersRank, FirstAndLastIsAlone, ReducedIsClosable, PoliciesExist, PoliciesComplete, ChosenAtomsOccurOnce, ChosenPathsDependOnThePlace, OneWayOut, SomeAtomMayBeSwept};

/// A complete run isn't empty, and its last entry is of the last atom.
pub fn complete_runs_end_with_the_last_atom()
    ensures { CompleteRunsEndWithTheLastAtom }
{}

/// Two runs, one after the other, join what they join through some data between.
pub fn joins_through_between()
    ensures { JoinsThroughBetween }
{}

/// A node that is added at the end changes the meaning of no other.
pub fn older_nodes_keep_their_meaning()
    ensures { OlderNodesKeepTheirMeaning }
{}

/// In a deterministic negotiation a complete run is a way to everyone at the last atom, and one outcome of it.
pub fn complete_runs_pass_everyone_at_the_last_atom()
    ensures { CompleteRunsPassEveryoneAtTheLastAtom }
{}

/// Two occurrences that a marking allows, of atoms without a common party, happen in each order and leave the same
/// marking. They join the same data where each outcome acts on its parties' data alone.
pub fn steps_apart_commute()
    ensures marking { StepsApartCommute }
    ensures joined { StepsApartJoinTheSame }
{}

/// Two neighbours in a run, of atoms without a common party, may change places: the same marking is left, and each agent
/// sees the same. Where each outcome acts on its parties' data alone, the same data are joined; of the data along the
/// run those between the two change, and the parties of each have after it what they had.
pub fn neighbours_apart_change_places()
    ensures marking { NeighboursChangePlaces }
    ensures joined { NeighboursKeepJoinedData }
    ensures entries { NeighboursKeepEntries }
    ensures projections { NeighboursKeepProjections }
{}

/// What an agent is ready for after a run follows from the run's projection on it, which is that of a history's own
/// entries.
pub fn readiness_follows_from_the_projection()
    ensures ready { ReadinessFollowsFromTheProjection }
    ensures marking { SameProjectionsLeaveTheSame }
    ensures entries { OwnEntriesProject }
{}

/// An agent's value after a history follows from its own entries, where each outcome acts on its parties' data alone.
pub fn values_follow_from_own_entries()
    ensures { ValuesFollowFromOwnEntries }
{}

/// A forward order gives ranks: each edge leads to an atom of a greater rank.
pub fn forward_orders_rank()
    ensures { ForwardOrdersRank }
{}

/// A sound deterministic negotiation has a policy: for each atom an outcome, and a party whom this sends nearer to the
/// last atom. Occurrences by it lead from each marking that a run leaves to the final one. No atom occurs twice in them,
/// and an agent's path depends on its place alone.
pub fn policies_complete()
    ensures exists { PoliciesExist }
    ensures completes { PoliciesComplete }
    ensures once { ChosenAtomsOccurOnce }
    ensures paths { ChosenPathsDependOnThePlace }
{}

/// In a sound deterministic negotiation, cyclic ones too, two outcomes of an atom send each party alike, where neither
/// sends all parties of some atom there from this atom alone.
pub fn outcomes_that_enter_none_send_alike()
    ensures { OneWayOut }
{}

/// What is left of a sound deterministic negotiation whose edges go forward, when no two outcomes merge and no outcome
/// enters an atom of one outcome: the last atom alone, or the first and the last, which close.
pub fn reduced_negotiations_close()
    ensures alone { FirstAndLastIsAlone }
    ensures closable { ReducedIsClosable }
{}

/// In a sound deterministic negotiation, cyclic ones too, of which nothing iterates, some atom may be swept, as long as
/// there is one beside the first and the last.
pub fn some_atom_may_be_swept()
    ensures { SomeAtomMayBeSwept }
{}
