//! Sets of joint data.
ghost use Rattle.std.specs.Prelude.{◌≡◌, ℕ, ◌+◌, ◌/◌, ◌%◌, ◌<◌, ◌≤◌, ◌&&◌, ◌||◌, ◌==◌, nat_lt, length, true, false, slice_index, MatchOption};
ghost use Rattle.std.specs.Int.{bit_at};
ghost use Rattle.nego_base.specs.Members.{is_in, IsRisingBelow};
ghost use Rattle.nego_data.specs.BitRows.{is_set};
ghost use Rattle.nego_data.specs.DataSets.{IsLeastBesides, IsNoneBesides};
ghost use Rattle.nego_data.specs.Tables.{row_words};

use crate::bit_row::set_bit;
use std::marker::Model;

/// The words that have a bit for each of the most joint data, 1,024.
const WORDS: usize = 16;

/// The bits of a word.
const BITS: u16 = 64;

/// A set of joint data, which are below 1,024, kept as a row of bits. Contracts see it as the rising list of their
/// numbers.
#[derive(Debug, Drop)]
pub struct DataSet {
    words: [u64; WORDS],
}

impl Model for DataSet {
    ghost use Rattle.std.specs.Prelude.{ℕ, List};
    ghost use Rattle.nego_data.specs.DataSets.{set_members};

    ghost Value = { List ℕ };

    ghost view = { λ s. set_members s.words };
}

impl DataSet {
    /// The empty set.
    pub fn none() -> DataSet
        ensures value { (e : ℕ) → is_in e result ≡ false }
        ensures rising { IsRisingBelow 1024 result }
    {
        DataSet { words: [0; WORDS] }
    }

    /// The set of the numbers below a count whose bits are set in a row of words.
    pub(crate) fn below(words: &[u64], count: u16) -> DataSet
        requires few { count ≤ 1024 }
        requires long { length words.now ≡ row_words count }
        ensures value { (e : ℕ) → is_in e result ≡ (is_set words.now e && nat_lt e count) }
        ensures rising { IsRisingBelow count result }
    {
        let mut row = padded(words);
        cut(&mut row, count);
        DataSet { words: row }
    }

    /// Whether e is in the set.
    pub fn has(&self, e: u16) -> bool
        requires { e < 1024 }
        ensures { result ≡ is_in e self.now }
    {
        self.words[(e / BITS) as usize] >> (e % BITS) & 1 == 1
    }

    /// Puts e into the set.
    pub fn insert(&mut self, e: u16)
        requires { e < 1024 }
        ensures value { (f : ℕ) → is_in f self.new ≡ (e == f || is_in f self.old) }
        ensures rising { IsRisingBelow 1024 self.new }
    {
        set_bit(&mut self.words, e);
    }

    /// Adds all that is in the other set.
    pub fn add(&mut self, other: &DataSet)
        ensures value { (e : ℕ) → is_in e self.new ≡ (is_in e self.old || is_in e other.now) }
        ensures rising { IsRisingBelow 1024 self.new }
    {
        unite(&mut self.words, &other.words);
    }

    /// The least number from one on that is in the set and not in the other.
    pub fn least_besides(&self, other: &DataSet, from: u16) -> Option<u16>
        requires { from ≤ 1024 }
        ensures { MatchOption result (IsNoneBesides (λ e. is_in e self.now) (λ e. is_in e other.now) from 1024) (IsLeastBesides (λ e. is_in e self.now) (λ e. is_in e other.now) from 1024) }
    {
        first_besides(&self.words, &other.words, from)
    }
}

/// The words, and 0 behind them.
fn padded(words: &[u64]) -> [u64; WORDS]
    requires { length words.now ≤ 16 }
    ensures value { (k : ℕ) → slice_index result k ≡ slice_index words.now k }
    ensures sixteen { length result ≡ 16 }
{
    let mut row = [0; WORDS];
    for (k, word) in words.iter().enumerate() {
        row[k] = *word;
    }
    row
}

/// Takes the numbers from a count on out of the words that have bits below it.
fn cut(row: &mut [u64; WORDS], count: u16)
    requires { count ≤ 1024 }
    ensures words { (e : ℕ) → e / 64 < row_words count → is_set row.new e ≡ (is_set row.old e && nat_lt e count) }
    ensures rest { (k : ℕ) → row_words count ≤ k → slice_index row.new k ≡ slice_index row.old k }
{
    if count % BITS != 0 {
        row[(count / BITS) as usize] &= (1 << (count % BITS)) - 1;
    }
}

/// Adds to each word the bits of the other at its place.
fn unite(words: &mut [u64; WORDS], others: &[u64; WORDS])
    ensures { (e : ℕ) → e / 64 < 16 → is_set words.new e ≡ (is_set words.old e || is_set others.now e) }
{
    let mut all = *words;
    for k in 0..WORDS {
        all[k] |= others[k];
    }
    *words = all;
}

/// The least number from one on that is in the words and not in the others.
pub(crate) fn first_besides(words: &[u64; WORDS], others: &[u64; WORDS], from: u16) -> Option<u16>
    requires { from ≤ 1024 }
    ensures { MatchOption result (IsNoneBesides (is_set words.now) (is_set others.now) from 1024) (IsLeastBesides (is_set words.now) (is_set others.now) from 1024) }
{
    let mut low = from % BITS;
    for k in from / BITS..WORDS as u16 {
        if let Some(bit) = least_bit(words[k as usize], others[k as usize], low) {
            return Some(BITS * k + bit);
        }
        low = 0;
    }
    None
}

/// The least bit from one on that is set in the word and not in the other.
fn least_bit(word: u64, other: u64, low: u16) -> Option<u16>
    requires { low < 64 }
    ensures { MatchOption result (IsNoneBesides (λ i. bit_at word i == 1) (λ i. bit_at other i == 1) low 64) (IsLeastBesides (λ i. bit_at word i == 1) (λ i. bit_at other i == 1) low 64) }
{
    let left = (word & !other) >> low;
    if left == 0 {
        return None;
    }
    Some(low + left.trailing_zeros() as u16)
}
