//! A schedule is played from the beginning on.
ghost use Rattle.std.specs.Prelude.{◌≡◌, ◌<◌, ◌≤◌, length, Ok, IfOk, IfErr, OnOk};
ghost use Rattle.nego_data.specs.Data.{data_count};
ghost use Rattle.nego_model.specs.Negotiation.{IsDeterministic};
ghost use Rattle.nego_model.specs.Diagram.{negotiation_of};
ghost use Rattle.agent_core.specs.Worlds.{first_world, step, plays};
ghost use Rattle.agent_core.specs.Consistency.{IsConsistent};
ghost use Rattle.agent_core.specs.Finished.{FinishesComplete};
ghost use Rattle.nego_world.specs.Events.{plain_event, plain_lines, NamesAgent, NamesAgents};
ghost use Rattle.nego_world.specs.Stepping.{fault_at, HasLineFault, HasPlayFault, HasFewRecords};

use crate::{EventLine, PlayFault, Schedule, StepFault, StepWhy, World};
use nego_model::Diagram;
use std::alloc::Global;

/// The world that a schedule of up to 10,000 events leaves from the beginning on, or the line of the first event that is
/// refused, and why.
pub fn play(alloc: Global, d: &Diagram, start: u16, schedule: &Schedule) -> Result<World, PlayFault>
    requires deterministic { IsDeterministic (negotiation_of d.now) }
    requires start { start < data_count d.now.sizes }
    requires known { NamesAgents d.now (plain_lines schedule.now) }
    requires few { length (plain_lines schedule.now) ≤ 10000 }
    ensures world { IfOk result (λ w. plays d.now (first_world d.now start) (plain_lines schedule.now) ≡ Ok w) }
    ensures start { IfOk result (λ w. w.start ≡ start) }
    ensures consistent { IfOk result (IsConsistent d.now) }
    ensures finished { IfOk result (FinishesComplete d.now) }
    ensures err { IfErr result (HasPlayFault d.now start (plain_lines schedule.now)) }
{
    let _agents = d.agents();
    let mut world = World::new(alloc, d, start)?;
    for line in schedule.events.iter() {
        world.step_line(d, line)?;
    }
    Ok(world)
}

impl World {
    /// Lets the event of a line happen.
    fn step_line(&mut self, d: &Diagram, line: &EventLine) -> Result<(), PlayFault>
        requires deterministic { IsDeterministic (negotiation_of d.now) }
        requires consistent { IsConsistent d.now self.old }
        requires few { HasFewRecords self.old }
        requires known { NamesAgent d.now (plain_event line.now.event) }
        ensures world { OnOk result (step d.now self.old (plain_event line.now.event) ≡ Ok self.new) }
        ensures consistent { IsConsistent d.now self.new }
        ensures err { IfErr result (HasLineFault d.now self.old line.now.line (plain_event line.now.event)) }
    {
        match self.step(d, &line.event) {
            Ok(_) => Ok(()),
            Err(fault) => Err(fault_at(line.line, fault)),
        }
    }
}

/// The fault of a schedule at a line whose event has this fault.
fn fault_at(line: u32, fault: StepFault) -> PlayFault
    ensures { result ≡ fault_at line fault }
{
    match fault {
        StepFault::NoMessage(i) => PlayFault::At(line, StepWhy::NoMessage(i)),
        StepFault::Finished => PlayFault::At(line, StepWhy::Finished),
        StepFault::NotLeader => PlayFault::At(line, StepWhy::NotLeader),
        StepFault::Waits(p) => PlayFault::At(line, StepWhy::Waits(p)),
        StepFault::Memory => PlayFault::Memory,
    }
}
