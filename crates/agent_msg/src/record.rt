//! Records of a journal.
ghost use Rattle.std.specs.Prelude.{◌≡◌, ◌<◌, IsTrue, option_map};
ghost use Rattle.nego_base.specs.Members.{is_in};
ghost use Rattle.agent_msg.specs.Messages.{decide_message};
ghost use Rattle.agent_msg.specs.Records.{entry, decide_of};

use crate::Decide;
use nego_base::{AgentId, AgentSet, AtomId, OutcomeId};

/// What an agent keeps of an atom that occurred.
#[derive(Clone, Copy, Debug, PartialEq, Eq)]
pub enum Record {
    /// Its leader decided, and the agent moved. The value after is the agent's.
    Move {
        atom: AtomId,
        outcome: OutcomeId,
        after: u16,
    },
    /// The agent led the atom and decided. For each party there is the visit of its Ready, and its value after; for
    /// the others both are 0.
    Decision {
        atom: AtomId,
        outcome: OutcomeId,
        parties: AgentSet,
        visits: [u16; 16],
        afters: [u16; 16],
    },
}

/// Whether the agent is one of the parties.
fn is_party(parties: AgentSet, a: AgentId) -> bool
    ensures value { result ≡ is_in a.0 parties }
    ensures below { IsTrue result → a.0 < 16 }
{
    if parties.count() == 0 || a.0 >= 16 {
        return false;
    }
    parties.has(a)
}

/// What a leader tells an agent of its record. None exactly where the record is a move, or the agent is the leader
/// itself or no party.
pub fn decide_for(r: &Record, from: AgentId, to: AgentId) -> Option<Decide>
    ensures { option_map decide_message result ≡ decide_of from.0 to.0 (entry r.now) }
{
    let Record::Decision {
        atom,
        outcome,
        parties,
        visits,
        afters,
    } = r
    else {
        return None;
    };
    if to == from || !is_party(*parties, to) {
        return None;
    }
    Some(Decide {
        from,
        to,
        atom: *atom,
        outcome: *outcome,
        visit: visits[to.0 as usize],
        after: afters[to.0 as usize],
    })
}
