//! What the words of a line, the lines of a printed text, numbers and names are, said anew.
ghost use Rattle.std.specs.Prelude.{◌≡◌, ◌≢◌, ℕ, ◌+◌, ◌^◌, ◌<◌, ◌≤◌, ◌==◌, ◌↔◌, false, true, List, length, map, slice_index, Some, None, All};
ghost use Rattle.std.specs.Fmt.{decimal};
ghost use Rattle.std.specs.List.{list_all, list_any};
ghost use Rattle.nego_base.specs.Lines.{is_blank, lines, words};
ghost use Rattle.nego_base.specs.Name.{is_name, is_name_byte};
ghost use Rattle.nego_base.specs.Number.{is_digit, number_of};
ghost use Rattle.nego_base.specs.Printed.{printed, ArePrintable};
ghost use Rattle.nego_base.specs.Sound.{is_sound_line, IsFirstFault};
ghost use Rattle.nego_base.specs.Scan.{words_at, StandsIn, scan_fault, scanned, count_lines};

use crate::Fault;

/// The words of a line with their places: they are the line's words, and each stands in it at its column.
pub fn words_of_a_line()
    ensures words { (number : ℕ) (line : List ℕ) → map (λ w. w.text) (words_at number 1 line) ≡ words line }
    ensures places { (number : ℕ) (line : List ℕ) → All (StandsIn number 1 line) (words_at number 1 line) }
{}

/// What the first fault of a text is, and when it has none: each line, also a comment, has at most 1,024 bytes, and each
/// other line has only blanks and bytes from 0x21 to 0x7E.
pub fn faults_of_a_text()
    ensures first { (bytes : List ℕ) (fault : Fault) → scan_fault bytes ≡ Some fault → IsFirstFault (lines bytes) 1 fault }
    ensures none { (bytes : List ℕ) → (scan_fault bytes ≡ None) ↔ (list_all is_sound_line (lines bytes) ≡ true) }
{}

/// A text of lines of words, as programs print it, has no fault and is scanned to these lines of words, and to no more.
pub fn printed_texts_are_scanned()
    ensures sound { (lists : List (List (List ℕ))) → ArePrintable lists → scan_fault (printed lists) ≡ None }
    ensures words { (lists : List (List (List ℕ))) → ArePrintable lists → map (λ line. map (λ w. w.text) line.words) (scanned (printed lists)) ≡ lists }
    ensures count { (lists : List (List (List ℕ))) → ArePrintable lists → count_lines (printed lists) ≡ length lists }
{}

/// A text is a number exactly where it is the decimal of one of at most six digits.
pub fn numbers_are_decimals()
    ensures { (bytes : List ℕ) (n : ℕ) → (number_of bytes ≡ Some n) ↔ ((bytes ≡ decimal n) × (n ≤ 999999)) }
{}

/// No name is a number, and none has a blank or another byte that isn't a small letter, a digit or a low line.
pub fn names_are_no_numbers()
    ensures number { (bytes : List ℕ) → is_name bytes ≡ true → number_of bytes ≡ None }
    ensures blank { (bytes : List ℕ) → is_name bytes ≡ true → list_any is_blank bytes ≡ false }
    ensures other { (c : ℕ) → is_name_byte c ≡ false → (bytes : List ℕ) → is_name bytes ≡ true → list_any (λ b. b == c) bytes ≡ false }
{}
