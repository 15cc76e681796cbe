//! Laws of what texts say. Each function does nothing; its clause is the law.
ghost use Rattle.nego_shape.specs.ContentLaws.{SpelledWordsAreNames, ShapedContentsAreDiagrams, ShapedContentsAreWithinLimits, ShapedContentsHaveNames, ShapedContentsAreInOrder};

/// The names of agents, atoms and outcomes of a value that some text spells are names.
pub fn spelled_words_are_names()
    ensures { SpelledWordsAreNames }
{}

/// What a text says that has no fault of shape is a diagram within the limits, with outcomes in the order of their
/// atoms; where its names are names the diagram has names.
pub fn shaped_contents_are_diagrams()
    ensures diagram { ShapedContentsAreDiagrams }
    ensures limits { ShapedContentsAreWithinLimits }
    ensures names { ShapedContentsHaveNames }
    ensures order { ShapedContentsAreInOrder }
{}
