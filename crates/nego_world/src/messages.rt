//! The messages that were sent.
ghost use Rattle.std.specs.Prelude.{◌≡◌, ◌+◌, ◌<◌, ◌≤◌, [], length, map, fold, slice_get, Some, IfSome, IfNone, OnOk};
ghost use Rattle.std.specs.List.{Contains};
ghost use Rattle.std.specs.Option.{option_map, option_to_list};
ghost use Rattle.agent_msg.specs.Messages.{ReadyOf, DecideOf, message, ready_message, decide_message};
ghost use Rattle.agent_msg.specs.Records.{entry};
ghost use Rattle.agent_core.specs.Agents.{shares_in};
ghost use Rattle.agent_core.specs.Deciding.{decides_of};
ghost use Rattle.agent_core.specs.Worlds.{with_message};

use agent_msg::{Decide, Msg, Ready, Record, decide_for};
use indexmap::IndexSet;
use nego_base::{AgentId, AgentSet, Memory};
use std::alloc::Global;
use std::marker::Model;

/// How many messages there may be, so that 32 bits number them.
const MOST: usize = 4_294_967_295;

/// The messages that were sent, each once, in the order of first sending, with room for more. What is put within the room
/// takes no memory. Contracts see the messages, and for how many more there is room.
#[derive(Drop)]
pub(crate) struct Messages {
    messages: IndexSet<Msg>,
    room: usize,
}

impl Model for Messages {
    ghost use Rattle.nego_world.specs.Roomy.{RoomyMessages};

    ghost Value = { RoomyMessages };

    ghost use Rattle.nego_world.specs.WorldView.{roomy_messages, IsKept};

    ghost view = { roomy_messages };

    ghost invariant = { IsKept };
}

impl Messages {
    /// No message, and no room.
    pub(crate) fn new(alloc: Global) -> Messages
        ensures { result.messages ≡ [] }
    {
        Messages {
            messages: IndexSet::new(alloc),
            room: 0,
        }
    }

    /// How many messages there are.
    pub(crate) fn len(&self) -> u32
        ensures { result ≡ length self.now.messages }
    {
        self.messages.len() as u32
    }

    /// The message of a number.
    pub(crate) fn get(&self, i: u32) -> Option<Msg>
        ensures { option_map message result ≡ slice_get self.now.messages i }
    {
        self.messages.get_index(i as usize).copied()
    }

    /// The number of a message. None exactly where it isn't there.
    pub(crate) fn number_of(&self, m: &Msg) -> Option<u32>
        ensures some { IfSome result (λ i. slice_get self.now.messages i ≡ Some (message m.now)) }
        ensures none { IfNone result (¬ Contains self.now.messages (message m.now)) }
    {
        let i = self.messages.get_index_of(m)?;
        Some(i as u32)
    }

    /// Makes room for up to 16 more messages. On refusal nothing changes.
    pub(crate) fn reserve(&mut self, more: usize) -> Result<(), Memory>
        requires { more ≤ 16 }
        ensures messages { self.new.messages ≡ self.old.messages }
        ensures room { OnOk result (self.new.room ≡ more) }
    {
        if self.messages.len() >= MOST - 16 {
            return Err(Memory);
        }
        self.messages.reserve(more)?;
        self.room = more;
        Ok(())
    }

    /// Puts a message at the end, unless it is there. There is to be room for it.
    pub(crate) fn put(&mut self, m: Msg)
        requires { 0 < self.old.room }
        ensures messages { self.new.messages ≡ with_message self.old.messages (message m) }
        ensures room { self.new.room + 1 ≡ self.old.room }
    {
        self.messages.insert(m).unwrap();
        self.room -= 1;
    }

    /// Puts a Ready, where there is one. There is to be room for it.
    pub(crate) fn put_ready(&mut self, ready: Option<Ready>)
        requires { 0 < self.old.room }
        ensures { self.new.messages ≡ fold with_message self.old.messages (map ReadyOf (option_to_list (option_map ready_message ready))) }
    {
        if let Some(ready) = ready {
            self.put(Msg::Ready(ready));
        }
    }

    /// Puts a Decide, where there is one. There is to be room for it.
    pub(crate) fn put_again(&mut self, decide: Option<Decide>)
        requires { 0 < self.old.room }
        ensures messages { self.new.messages ≡ fold with_message self.old.messages (map DecideOf (option_to_list (option_map decide_message decide))) }
        ensures room { self.old.room ≤ self.new.room + 1 }
    {
        if let Some(decide) = decide {
            self.put(Msg::Decide(decide));
        }
    }

    /// Puts the Decides of a record, in rising order of those who are told. There is to be room for 16.
    pub(crate) fn put_decides(&mut self, from: AgentId, r: &Record)
        requires { 16 ≤ self.old.room }
        ensures { self.new.messages ≡ fold with_message self.old.messages (decides_of from.0 (map (λ s. s.agent) (shares_in (entry r.now))) (entry r.now)) }
    {
        let mut left = parties_in(r);
        while let Some(to) = left.least() {
            self.put_again(decide_for(r, from, to));
            left = left.without(to);
        }
    }
}

/// The parties of a record: of a decision those whom it names, of a move none.
fn parties_in(r: &Record) -> AgentSet
    ensures { result ≡ map (λ s. s.agent) (shares_in (entry r.now)) }
{
    match r {
        Record::Decision { parties, .. } => *parties,
        Record::Move { .. } => AgentSet::none(),
    }
}
