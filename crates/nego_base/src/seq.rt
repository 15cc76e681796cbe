ghost use Rattle.std.specs.Prelude.{◌≡◌, ◌==◌, ◌+◌, ◌-◌, ◌<◌, ◌≤◌, ◌↔◌, [], ◌∷◌, ◌++◌, length, take, OnOk, OnErr, IfOk, IsOk, IsSome, slice_get, slice_set, insert, remove, swap, decimal};
ghost use Rattle.std.specs.List.Sorted.{IsPermutation, IsSorted, IsStable, IsSortedByKeyClosure, IsStableByKeyClosure};
ghost use Rattle.std.specs.Option.{option_copied, option_to_list};

mod equals;
mod views;

use crate::Memory;
use std::alloc::Global;
use std::marker::Model;

/// A list. Contracts see it as the list of its items.
#[derive(Debug, Drop)]
pub struct Seq<T> {
    items: Vec<T>,
}

impl<T> Model for Seq<T> {
    ghost use Rattle.std.specs.Prelude.{List};
    ghost use Rattle.std.specs.Coded.{coded_list};

    ghost Value = { List T };

    ghost coded = { coded_list T.code };

    ghost view = { λ s. s.items.items };
}

/// A list of bytes.
pub type Text = Seq<u8>;

impl<T> Seq<T> {
    /// The empty list. It takes no memory.
    pub fn new(alloc: Global) -> Seq<T>
        ensures { result ≡ [] }
    {
        Seq {
            items: Vec::new(alloc),
        }
    }

    /// The list of the vector's items, in its memory.
    pub fn from_vec(items: Vec<T>) -> Seq<T>
        ensures { result ≡ items.items }
    {
        Seq { items }
    }

    /// The items as a vector, in the list's memory.
    pub fn into_vec(self) -> Vec<T>
        ensures { result.items ≡ self }
    {
        let Seq { items } = self;
        items
    }

    /// How many items there are.
    pub fn len(&self) -> usize
        ensures { result ≡ length self.now }
    {
        self.items.len()
    }

    /// Whether there is no item.
    pub fn is_empty(&self) -> bool
        ensures { result ≡ (length self.now == 0) }
    {
        self.items.is_empty()
    }

    /// The item at a place, which counts from 0.
    pub fn get(&self, i: usize) -> Option<&T>
        ensures { option_copied result ≡ slice_get self.now i }
    {
        self.items.get(i)
    }

    /// The last item.
    pub fn last(&self) -> Option<&T>
        ensures { option_copied result ≡ slice_get self.now (length self.now - 1) }
    {
        self.items.last()
    }

    /// The items in order.
    pub fn as_slice(&self) -> &[T]
        ensures { result.now ≡ self.now }
    {
        self.items.as_slice()
    }

    /// Puts an item at the end. On refusal it is dropped.
    pub fn push(&mut self, x: T) -> Result<(), Memory>
    where
        T: Drop,
        ensures ok { OnOk result (self.new ≡ self.old ++ x ∷ []) }
        ensures err { OnErr result (self.new ≡ self.old) }
    {
        self.items.push(x)?;
        Ok(())
    }

    /// Puts an item at a place; the items from there on move up by one. On refusal it is dropped.
    pub fn insert(&mut self, i: usize, x: T) -> Result<(), Memory>
    where
        T: Drop,
        requires { i ≤ length self.old }
        ensures ok { OnOk result (self.new ≡ insert self.old i x) }
        ensures err { OnErr result (self.new ≡ self.old) }
    {
        self.items.insert(i, x)?;
        Ok(())
    }

    /// Takes the last item.
    pub fn pop(&mut self) -> Option<T>
        ensures items { self.old ≡ self.new ++ option_to_list result }
        ensures some { IsSome result ↔ (0 < length self.old) }
    {
        self.items.pop()
    }

    /// Takes the item at a place; the items behind it move down by one.
    pub fn remove(&mut self, i: usize) -> T
        requires { i < length self.old }
        ensures value { slice_get self.old i ≡ Some result }
        ensures items { self.new ≡ remove self.old i }
    {
        self.items.remove(i)
    }

    /// Puts an item in the place of another, which is dropped.
    pub fn set(&mut self, i: usize, x: T)
    where
        T: Drop,
        requires { i < length self.old }
        ensures { self.new ≡ slice_set self.old i x }
    {
        self.items[i] = x;
    }

    /// Puts an item in the place of another, which it answers.
    pub fn replace(&mut self, i: usize, x: T) -> T
        requires { i < length self.old }
        ensures value { slice_get self.old i ≡ Some result }
        ensures items { self.new ≡ slice_set self.old i x }
    {
        std::mem::replace(&mut self.items[i], x)
    }

    /// Changes two items over.
    pub fn swap(&mut self, i: usize, j: usize)
        requires first { i < length self.old }
        requires second { j < length self.old }
        ensures { self.new ≡ swap self.old i j }
    {
        self.items.swap(i, j);
    }

    /// Keeps the first items and drops the others.
    pub fn truncate(&mut self, n: usize)
    where
        T: Drop,
        ensures { self.new ≡ take n self.old }
    {
        self.items.truncate(n);
    }

    /// Drops all items.
    pub fn clear(&mut self)
    where
        T: Drop,
        ensures { self.new ≡ [] }
    {
        self.items.clear();
    }

    /// Puts the items in the order of their keys; items of equal keys stay in the order that they have.
    pub fn sort_by_key<K: Ord + Drop, F: FnMut(&T) -> K>(&mut self, key: F) -> Result<(), Memory>
        requires { F.IsAlwaysCallable key }
        ensures items { IsPermutation self.old self.new }
        ensures sorted { OnOk result (IsSortedByKeyClosure F.FnMut K.cmp key self.new) }
        ensures stable { IsStableByKeyClosure F.FnMut K.cmp key self.old self.new }
        ensures err { OnErr result (self.new ≡ self.old) }
        // A short list is sorted without memory.
        ensures short { length self.old ≤ 20 → IsOk result }
    {
        self.items.sort_by_key(key)?;
        Ok(())
    }

    /// Puts the items in the order of their keys, without memory; items of equal keys may change places.
    pub fn sort_unstable_by_key<K: Ord + Drop, F: FnMut(&T) -> K>(&mut self, key: F)
        requires { F.IsAlwaysCallable key }
        ensures items { IsPermutation self.old self.new }
        ensures sorted { IsSortedByKeyClosure F.FnMut K.cmp key self.new }
    {
        self.items.sort_unstable_by_key(key);
    }

    /// Moves the items of the other list to the end. On refusal both are as before.
    pub fn append(&mut self, other: &mut Seq<T>) -> Result<(), Memory>
        ensures ok { OnOk result (self.new ≡ self.old ++ other.old) }
        ensures taken { OnOk result (other.new ≡ []) }
        ensures err { OnErr result (self.new ≡ self.old) }
        ensures kept { OnErr result (other.new ≡ other.old) }
    {
        self.items.append(&mut other.items)?;
        Ok(())
    }
}

impl<T: Copy> Seq<T> {
    /// A list of the items of a slice.
    pub fn copy_of(alloc: Global, items: &[T]) -> Result<Seq<T>, Memory>
        ensures { IfOk result (λ s. s ≡ items.now) }
    {
        let items = Vec::from_slice(alloc, items)?;
        Ok(Seq { items })
    }

    /// Puts the items of a slice at the end.
    pub fn extend_from_slice(&mut self, items: &[T]) -> Result<(), Memory>
        ensures ok { OnOk result (self.new ≡ self.old ++ items.now) }
        ensures err { OnErr result (self.new ≡ self.old) }
    {
        self.items.extend_from_slice(items)?;
        Ok(())
    }
}

impl Seq<u8> {
    /// A text of these bytes.
    pub fn copy(alloc: Global, bytes: &[u8]) -> Result<Text, Memory>
        ensures { IfOk result (λ t. t ≡ bytes.now) }
    {
        Seq::copy_of(alloc, bytes)
    }

    /// Puts the decimal of a number at the end.
    pub fn push_decimal(&mut self, n: u64) -> Result<(), Memory>
        ensures ok { OnOk result (self.new ≡ self.old ++ decimal n) }
        ensures err { OnErr result (self.new ≡ self.old) }
    {
        let mut digits = itoa::Buffer::new();
        self.extend_from_slice(digits.format(n).as_bytes())
    }
}

impl<T: Ord> Seq<T> {
    /// Puts the items in order; equal ones stay in the order that they have.
    pub fn sort(&mut self) -> Result<(), Memory>
        ensures items { IsPermutation self.old self.new }
        ensures sorted { OnOk result (IsSorted T.cmp self.new) }
        ensures stable { IsStable T.cmp self.old self.new }
        ensures err { OnErr result (self.new ≡ self.old) }
        // A short list is sorted without memory.
        ensures short { length self.old ≤ 20 → IsOk result }
    {
        self.items.sort()?;
        Ok(())
    }
    /// Puts the items in order, without memory; equal ones may change places.
    pub fn sort_unstable(&mut self)
        ensures items { IsPermutation self.old self.new }
        ensures sorted { IsSorted T.cmp self.new }
    {
        self.items.sort_unstable();
    }
}
