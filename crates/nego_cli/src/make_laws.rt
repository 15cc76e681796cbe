//! Laws of diagrams that are made. Each function does nothing; its clause is the law.

ghost use Rattle.nego_cli.specs.MakeLaws.{MadeTextsAreInputs};

/// What `make` prints begins with a part, whatever stands behind this part, which spells a diagram. This diagram is
/// deterministic, acyclic and sound, and the last line tells how many uses and nodes `reduce` tells of it.
pub fn made_texts_are_inputs()
    ensures { MadeTextsAreInputs }
{}
