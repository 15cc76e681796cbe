//! Laws over the words of a call. Each function does nothing; its clause is the law.

ghost use Rattle.nego_cli.specs.Words.{NumberWordsAreDecimals};

/// A word gives a number just where it is the number's decimal text and the number is in range.
pub fn number_words_are_decimals()
    ensures { NumberWordsAreDecimals }
{}
