//! Laws of worlds. Each function does nothing; its clause is the law.

ghost use Rattle.nego_world.specs.Laws.{FirstWorldsAreConsistent, EventsKeepWorldsConsistent, SchedulesLeaveConsistentWorlds, ConsistentWorldsFinishComplete, AgentsOfConsistentWorldsAreValid};

/// The world at the beginning is consistent.
pub fn first_worlds_are_consistent()
    ensures { FirstWorldsAreConsistent }
{}

/// Whatever happens, lost, repeated, late or stopped, a consistent world of a deterministic diagram stays consistent.
pub fn events_keep_worlds_consistent()
    ensures { EventsKeepWorldsConsistent }
{}

/// Every schedule that isn't refused leaves a consistent world.
pub fn schedules_leave_consistent_worlds()
    ensures { SchedulesLeaveConsistentWorlds }
{}

/// Where every agent of a consistent world is finished, its history is a complete run, and each summary that tells the
/// diagram relates the start to the last data.
pub fn consistent_worlds_finish_complete()
    ensures { ConsistentWorldsFinishComplete }
{}

/// Each agent of a consistent world is valid.
pub fn agents_of_consistent_worlds_are_valid()
    ensures { AgentsOfConsistentWorldsAreValid }
{}
