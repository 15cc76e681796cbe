//! Sets of joint data, kept as rows of bits.
ghost use Rattle.std.specs.Prelude.{◌≡◌, ℕ, ◌/◌, ◌%◌, ◌<◌, ◌≤◌, true, false, ◌&&◌, ◌||◌, ◌==◌, length};
ghost use Rattle.std.specs.Int.{bit_at};
ghost use Rattle.nego_data.specs.BitRows.{is_set, is_moved, word_below};

use crate::data_set::first_besides;

/// The bits of a word.
pub(crate) const WORD_BITS: usize = 64;

/// The words that have a bit for each of the most joint data, 1,024.
const MOST_WORDS: usize = 16;

/// A set of joint data as a row of bits: bit `e % 64` of word `e / 64` tells whether e is in it.
#[derive(Clone, Copy, Debug)]
pub(crate) struct BitRow {
    words: [u64; MOST_WORDS],
}

impl BitRow {
    /// The empty set.
    pub(crate) fn none() -> BitRow
        ensures { (e : ℕ) → is_set result.words e ≡ false }
    {
        BitRow {
            words: [0; MOST_WORDS],
        }
    }

    /// The set of all that are below 1,024.
    pub(crate) fn all() -> BitRow
        ensures { (e : ℕ) → e < 1024 → is_set result.words e ≡ true }
    {
        BitRow {
            words: [u64::MAX; MOST_WORDS],
        }
    }

    /// Whether e is in the set.
    pub(crate) fn has(&self, e: u16) -> bool
        requires { e < 1024 }
        ensures { result ≡ is_set self.now.words e }
    {
        self.words[e as usize / WORD_BITS] >> (e as usize % WORD_BITS) & 1 == 1
    }

    /// Keeps what is in the other set too.
    pub(crate) fn keep(&mut self, other: &BitRow)
        ensures { (e : ℕ) → e < 1024 → is_set self.new.words e ≡ (is_set self.old.words e && is_set other.now.words e) }
    {
        for (place, word) in self.words.iter_mut().enumerate() {
            *word &= other.words[place];
        }
    }

    /// Adds the other set.
    pub(crate) fn add(&mut self, other: &BitRow)
        ensures { (e : ℕ) → e < 1024 → is_set self.new.words e ≡ (is_set self.old.words e || is_set other.now.words e) }
    {
        other.add_to(&mut self.words);
    }

    /// Whether all that is in the set is in the other too.
    pub(crate) fn is_within(&self, other: &BitRow) -> bool
        ensures { result ≡ true → (e : ℕ) → e < 1024 → is_set self.now.words e ≡ true → is_set other.now.words e ≡ true }
    {
        first_besides(&self.words, &other.words, 0).is_none()
    }

    /// Puts e into the set.
    pub(crate) fn insert(&mut self, e: u16)
        requires { e < 1024 }
        ensures { (f : ℕ) → is_set self.new.words f ≡ (is_set self.old.words f || f == e) }
    {
        set_bit(&mut self.words, e);
    }

    /// Puts e into the set where this holds.
    pub(crate) fn insert_where(&mut self, e: u16, holds: bool)
        requires { e < 1024 }
        ensures { (f : ℕ) → is_set self.new.words f ≡ (is_set self.old.words f || (f == e && holds)) }
    {
        if holds {
            self.insert(e);
        }
    }

    /// Adds the set, each number in it moved up, to the set that a row of words is.
    pub(crate) fn add_moved(&self, by: u16, row: &mut [u64])
        requires { length row.old ≤ 16 }
        ensures { (e : ℕ) → e / 64 < length row.old → is_set row.new e ≡ (is_set row.old e || is_moved self.now.words by e) }
    {
        if by == 0 {
            return self.add_to(row);
        }
        for (place, word) in row.iter_mut().enumerate() {
            *word |= self.moved_word(place, by as usize);
        }
    }

    /// Adds the set to the set that a row of words is.
    fn add_to(&self, row: &mut [u64])
        requires { length row.old ≤ 16 }
        ensures { (e : ℕ) → e / 64 < length row.old → is_set row.new e ≡ (is_set row.old e || is_set self.now.words e) }
    {
        for (place, word) in row.iter_mut().enumerate() {
            *word |= self.words[place];
        }
    }

    /// The word at the place once the bits are moved up: its high bits come from one word, and its low bits from the
    /// one before.
    fn moved_word(&self, place: usize, by: usize) -> u64
        requires { place < 16 }
        ensures { (e : ℕ) → e / 64 ≡ place → (bit_at result (e % 64) == 1) ≡ is_moved self.now.words by e }
    {
        let bits = by % WORD_BITS;
        let high = self.word_below(place, by / WORD_BITS);
        let low = self.word_below(place, by / WORD_BITS + 1);
        // Shifted twice, since at no bits the one shift would be by a whole word.
        (high << bits) | (low >> 1 >> (WORD_BITS - 1 - bits))
    }

    /// The word so many places below this one; 0 where the row begins above it.
    fn word_below(&self, place: usize, down: usize) -> u64
        requires { place < 16 }
        ensures { result ≡ word_below self.now.words place down }
    {
        if down <= place {
            self.words[place - down]
        } else {
            0
        }
    }
}

/// Puts e into the set that a row of words is.
pub(crate) fn set_bit(row: &mut [u64], e: u16)
    requires { e / 64 < length row.old }
    ensures { (f : ℕ) → is_set row.new f ≡ (is_set row.old f || f == e) }
{
    row[e as usize / WORD_BITS] |= 1 << (e as usize % WORD_BITS);
}
