//! What files stand for.
ghost use Rattle.std.specs.Prelude.{◌≡◌, ℕ, ◌++◌, ◌∷◌, [], List};
ghost use Rattle.agent_msg.specs.Records.{PlainRecord};
ghost use Rattle.agent_msg.specs.Bytes.{RecordFits, entry_bytes};
ghost use Rattle.agent_journal.specs.Slots.{kept, StandsFor};

/// What a file stands for hangs on the records that it keeps alone: with the same it stands for the same list, and with
/// one more for the list with that one more. It stands for one list at most.
pub fn lists_of_files()
    ensures once { (file : List ℕ) (journal other : List PlainRecord) → StandsFor file journal → StandsFor file other → journal ≡ other }
    ensures same { (image file : List ℕ) (journal : List PlainRecord) → kept image ≡ kept file → StandsFor file journal → StandsFor image journal }
    ensures more { (image file : List ℕ) (journal : List PlainRecord) (e : PlainRecord) → kept image ≡ kept file ++ entry_bytes e ∷ [] → RecordFits e → StandsFor file journal → StandsFor image (journal ++ e ∷ []) }
{}
