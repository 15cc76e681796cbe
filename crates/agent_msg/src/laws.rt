//! What bytes spell.
ghost use Rattle.std.specs.Prelude.{◌≡◌, ℕ, List};
ghost use Rattle.agent_msg.specs.Messages.{Message};
ghost use Rattle.agent_msg.specs.Records.{PlainRecord};
ghost use Rattle.agent_msg.specs.Bytes.{SpellsMessage, SpellsRecord};

/// Bytes spell one message at most, and one record at most.
pub fn one_value_of_bytes()
    ensures message { (bytes : List ℕ) (m other : Message) → SpellsMessage bytes m → SpellsMessage bytes other → m ≡ other }
    ensures record { (bytes : List ℕ) (e other : PlainRecord) → SpellsRecord bytes e → SpellsRecord bytes other → e ≡ other }
{}
