//! Tables of numbers, kept as rows of bits.
ghost use Rattle.std.specs.Prelude.{◌≡◌, ℕ, ◌<◌, ◌≤◌, ◌&&◌, ◌||◌, ◌==◌, [], length, replicate, slice_get, slice_index_or, IfOk};
ghost use Rattle.nego_base.specs.Members.{is_in};
ghost use Rattle.nego_data.specs.BitRows.{is_moved};
ghost use Rattle.nego_data.specs.Tables.{IsTable, is_related, row_words, word_place};

use crate::bit_row::{BitRow, WORD_BITS, set_bit};
use crate::data_set::DataSet;
use nego_base::Memory;
use std::alloc::Global;
use std::marker::Model;

/// A table of so many numbers: for each of them a row of bits, one for each of them. Contracts see it as the list that
/// gives for each number the rising list of those to which it is related.
#[derive(Debug, Drop)]
pub struct Rows {
    all: u16,
    words: Vec<u64>,
}

impl Model for Rows {
    ghost use Rattle.std.specs.Prelude.{ℕ, List};
    ghost use Rattle.nego_data.specs.Tables.{rows_of_words, IsPacked};

    ghost Value = { List (List ℕ) };

    ghost view = { λ t. rows_of_words t.all t.words.items };

    ghost invariant = { λ t. IsPacked t.all t.words.items };
}

impl Rows {
    /// The table of so many joint data of which none are related.
    pub(crate) fn empty(alloc: Global, all: u16) -> Result<Rows, Memory>
        requires { all ≤ 1024 }
        ensures { IfOk result (λ rows. rows ≡ replicate all []) }
    {
        let words = vec![in alloc; 0; all as usize * row_words(all)]?;
        Ok(Rows { all, words })
    }

    /// The table of so many joint data of which each is related to itself alone.
    pub(crate) fn identity(alloc: Global, all: u16) -> Result<Rows, Memory>
        requires { all ≤ 1024 }
        ensures table { IfOk result (IsTable all) }
        ensures related { IfOk result (λ rows. (d e : ℕ) → d < all → e < all → is_related rows d e ≡ (d == e)) }
    {
        let mut rows = Rows::empty(alloc, all)?;
        for d in 0..all {
            rows.relate(d, d);
        }
        Ok(rows)
    }

    /// Relates d to the joint data that are above the least by an offset.
    pub(crate) fn relate_all(&mut self, d: u16, least: u16, offsets: &BitRow)
        requires { d < length self.old }
        ensures table { IsTable (length self.old) self.new }
        ensures related { (c e : ℕ) → c < length self.old → e < length self.old →
            is_related self.new c e ≡ (is_related self.old c e || (c == d && is_moved offsets.now.words least e)) }
    {
        let words = row_words(self.all);
        let start = d as usize * words;
        offsets.add_moved(least, &mut self.words[start..start + words]);
    }

    /// Relates d to e too.
    pub(crate) fn relate(&mut self, d: u16, e: u16)
        requires from { d < length self.old }
        requires to { e < length self.old }
        ensures table { IsTable (length self.old) self.new }
        ensures related { (b f : ℕ) → b < length self.old → f < length self.old →
            is_related self.new b f ≡ (is_related self.old b f || (b == d && f == e)) }
    {
        let words = row_words(self.all);
        let start = d as usize * words;
        set_bit(&mut self.words[start..start + words], e);
    }

    /// Whether d is related to e. Both are below the number of joint data.
    pub fn related(&self, d: u16, e: u16) -> bool
        requires from { d < length self.now }
        requires to { e < length self.now }
        ensures value { result ≡ is_in e (slice_index_or self.now d []) }
        ensures table { IsTable (length self.now) self.now }
    {
        let word = self.words[word_place(self.all, d, e)];
        word >> (e as usize % WORD_BITS) & 1 == 1
    }

    /// The numbers to which d is related, as a set. d is below the number of numbers.
    pub(crate) fn row(&self, d: u16) -> DataSet
        requires { d < length self.now }
        ensures value { result ≡ slice_index_or self.now d [] }
        ensures table { IsTable (length self.now) self.now }
    {
        let words = row_words(self.all);
        let start = d as usize * words;
        DataSet::below(&self.words[start..start + words], self.all)
    }

    /// How many numbers there are.
    fn all(&self) -> u16
        ensures value { result ≡ length self.now }
        ensures table { IsTable (length self.now) self.now }
    {
        self.all
    }

    /// To how many joint data d is related. d is below the number of joint data.
    pub fn count(&self, d: u16) -> u16
        requires { d < length self.now }
        ensures value { result ≡ length (slice_index_or self.now d []) }
        ensures table { IsTable (length self.now) self.now }
    {
        let all = self.all();
        (0..all).filter(|e| self.related(d, *e)).count() as u16
    }

    /// The k-th of the joint data to which d is related, in rising order and from 0; `None` where they are no more than
    /// k. d is below the number of joint data.
    pub fn nth(&self, d: u16, k: u16) -> Option<u16>
        requires { d < length self.now }
        ensures value { result ≡ slice_get (slice_index_or self.now d []) k }
        ensures table { IsTable (length self.now) self.now }
    {
        let all = self.all();
        let mut row = (0..all).filter(|e| self.related(d, *e));
        row.nth(k as usize)
    }
}

/// How many words have a bit for each of so many joint data.
fn row_words(all: u16) -> usize
    ensures { result ≡ row_words all }
{
    (all as usize).div_ceil(WORD_BITS)
}

/// In which word the bit for d and e stands.
fn word_place(all: u16, d: u16, e: u16) -> usize
    ensures { result ≡ word_place all d e }
{
    d as usize * row_words(all) + e as usize / WORD_BITS
}
