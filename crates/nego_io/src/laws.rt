ghost use Rattle.std.specs.Prelude.{◌≡◌, ℕ, ◌+◌, List, [], ◌∷◌, ◌++◌, true, Result};
ghost use Rattle.std.specs.List.{concat, list_all};
ghost use Rattle.nego_base.specs.Lines.{lines, words, without_end, is_newline, is_blank, is_word_end};
ghost use Rattle.nego_io.specs.Answer.{Answers, TakesWithin, TakesUpTo};
ghost use Rattle.nego_io.specs.Laws.{HasNo, ClosedPartsStand, PartsAreFound, PastLimitIsFound, UnendedIsFound};
ghost use Rattle.nego_io.specs.Disks.{AreCallsOn, AreCallsOnDisks};

use crate::{Disks, Part, ReadAnswer};

/// What the lines of a text are: they make up the text, which can be parted behind a newline; each ends with its only
/// newline, but the last may lack one.
pub fn lines_of_a_text()
    ensures joined { (text : List ℕ) → concat (lines text) ≡ text }
    ensures parted { (body rest : List ℕ) → lines ((body ++ 10 ∷ []) ++ rest) ≡ lines (body ++ 10 ∷ []) ++ lines rest }
    ensures whole { (body rest : List ℕ) → HasNo is_newline body → lines ((body ++ 10 ∷ []) ++ rest) ≡ (body ++ 10 ∷ []) ∷ lines rest }
    ensures last { (b : ℕ) (bs : List ℕ) → HasNo is_newline (b ∷ bs) → lines (b ∷ bs) ≡ (b ∷ bs) ∷ [] }
{}

/// What a line loses with its end: a newline, and one carriage return directly before it.
pub fn ends_of_lines()
    ensures both { (body : List ℕ) → without_end ((body ++ 13 ∷ []) ++ 10 ∷ []) ≡ body }
    ensures newline { (body : List ℕ) → ((front : List ℕ) → body ≡ front ++ 13 ∷ [] → ⊥) → without_end (body ++ 10 ∷ []) ≡ body }
    ensures none { (line : List ℕ) → ((front : List ℕ) → line ≡ front ++ 10 ∷ [] → ⊥) → without_end line ≡ line }
{}

/// What the words of a text are: where no word goes on a text can be parted; blanks are no word; other bytes are one.
pub fn words_of_a_text()
    ensures parted { (front back : List ℕ) → is_word_end back ≡ true → words (front ++ back) ≡ words front ++ words back }
    ensures blank { (blanks : List ℕ) → list_all is_blank blanks ≡ true → words blanks ≡ [] }
    ensures word { (b : ℕ) (bs : List ℕ) → HasNo is_blank (b ∷ bs) → words (b ∷ bs) ≡ (b ∷ bs) ∷ [] }
{}

/// How much is taken of an input: whatever is answered of it, nothing of what is behind its part, so at most one byte
/// above the limit.
pub fn taken_of_an_input()
    ensures within { (limit : ℕ) (result : Result Part ReadAnswer) (before now : List ℕ) → Answers limit result before now → TakesWithin limit before now }
    ensures most { (limit : ℕ) (before now : List ℕ) → TakesWithin limit before now → TakesUpTo (limit + 1) before now }
{}

/// What an input holds for one who takes at most so many bytes of a part: just one of three things.
pub fn parts_of_an_input()
    ensures part { PartsAreFound }
    ensures past_limit { PastLimitIsFound }
    ensures unended { UnendedIsFound }
{}

/// A text whose last line, with its newline, is its only end line is a part, whatever follows it.
pub fn texts_that_are_parts()
    ensures { ClosedPartsStand }
{}

/// What calls on several disks keep: calls on one disk are such calls, and one after another they are calls on all of
/// their disks.
pub fn calls_on_disks<D: Disks>()
    ensures one { (i : ℕ) (a b : D) → AreCallsOn i (D.told a) (D.told b) → AreCallsOnDisks (i ∷ []) (D.told a) (D.told b) }
    ensures then { (is js : List ℕ) (a b c : D) → AreCallsOnDisks is (D.told a) (D.told b) → AreCallsOnDisks js (D.told b) (D.told c) → AreCallsOnDisks (is ++ js) (D.told a) (D.told c) }
{}
