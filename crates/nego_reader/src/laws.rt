//! What texts spell, where their faults are, and what is printed. Each function does nothing; its clause is the law.

ghost use Rattle.std.specs.Prelude.{◌≡◌, ◌⊎◌, ℕ, List};
ghost use Rattle.nego_reader.specs.declared.parsed.Parsed.{Parsed};
ghost use Rattle.nego_reader.specs.Content.{content_of};
ghost use Rattle.nego_reader.specs.Printable.{IsPrintableDiagram};
ghost use Rattle.nego_reader.specs.Printing.{printed_diagram};
ghost use Rattle.nego_reader.specs.Rising.{HasRisingWords};
ghost use Rattle.nego_reader.specs.Spelling.{Spells};
ghost use Rattle.nego_reader.specs.Table.{IsFirstFault};
ghost use Rattle.nego_base.specs.declared.fault.Fault.{Fault};

/// A text spells at most one diagram.
pub fn texts_spell_one_diagram()
    ensures { (bytes : List ℕ) (p q : Parsed) → Spells bytes p → Spells bytes q → p ≡ q }
{}

/// Lines rise from each line of a spelled diagram to the next, and in a line columns rise from name to name.
pub fn spelled_words_rise()
    ensures { (bytes : List ℕ) (p : Parsed) → Spells bytes p → HasRisingWords p }
{}

/// A text spells a diagram or has a first fault, never both, and it has one first fault at most.
pub fn texts_have_one_fault_or_none()
    ensures either { (bytes : List ℕ) → ((p : Parsed) × Spells bytes p) ⊎ ((fault : Fault) × IsFirstFault bytes fault) }
    ensures apart { (bytes : List ℕ) (p : Parsed) (fault : Fault) → Spells bytes p → IsFirstFault bytes fault → ⊥ }
    ensures once { (bytes : List ℕ) (one two : Fault) → IsFirstFault bytes one → IsFirstFault bytes two → one ≡ two }
{}

/// The printed text of a diagram that can be printed spells it: all but the places of its words. What a text spells can be
/// printed. Diagrams that differ in these places alone are printed alike.
pub fn printed_diagrams_are_spelled()
    ensures spelled { (p : Parsed) → IsPrintableDiagram p → (q : Parsed) × Spells (printed_diagram p) q × (content_of q ≡ content_of p) }
    ensures printable { (text : List ℕ) (p : Parsed) → Spells text p → IsPrintableDiagram p }
    ensures alike { (p q : Parsed) → content_of p ≡ content_of q → printed_diagram p ≡ printed_diagram q }
{}
