//! A list as a slice: `seq[i]`, `seq.iter()` and the other methods of a slice.
ghost use Rattle.std.specs.Prelude.{◌≡◌, ◌<◌, ◌↔◌, length, slice_get, slice_index_or, Some, IsSome, IfSome};
ghost use Rattle.std.specs.Option.{option_copied_mut};
ghost use Rattle.std.specs.Borrow.{sem};
ghost use Rattle.nego_base.specs.Lends.{lends_item, lends_get};

use crate::Seq;
use std::ops::{DerefSlice, Index, IndexMut};

impl<T> DerefSlice for Seq<T> {
    type Elem = T;

    ghost deref_gives = { λ s xs. xs ≡ s };

    fn deref(&self) -> &[T]
        ensures { result.now ≡ self.now }
    {
        self.as_slice()
    }
}

impl<T> Index<usize> for Seq<T> {
    type Output = T;

    ghost can_index = { λ s i. i < length s };

    ghost index_gives = { λ s i x. slice_get s i ≡ Some x };

    fn index(&self, i: usize) -> &T
        requires { i < length self.now }
        ensures { slice_get self.now i ≡ Some result.now }
    {
        &self.as_slice()[i]
    }
}

impl<T> IndexMut<usize> for Seq<T> {
    fn index_mut(&mut self, i: usize) -> &mut T
        requires { i < length self.old }
        ensures* writes_back { sem 𝓛 (lends_item T.row self.entry i result) }
        ensures value { slice_get self.old i ≡ Some result.now }
    {
        let items = &mut self.items;
        &mut items[i]
    }
}

impl<T> Seq<T> {
    /// The item at a place, to be written.
    pub fn get_mut(&mut self, i: usize) -> Option<&mut T>
        ensures* writes_back { sem 𝓛 (lends_get T.row self.entry i result) }
        ensures value { option_copied_mut result ≡ slice_get self.old i }
    {
        self.items.get_mut(i)
    }
}
