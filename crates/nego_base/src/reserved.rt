ghost use Rattle.std.specs.Prelude.{◌≡◌, ◌==◌, ◌+◌, ◌-◌, ◌<◌, ◌≤◌, [], ◌∷◌, ◌++◌, length, take, max, OnOk, OnErr, IfOk, slice_get, slice_set, swap, insert, remove};
ghost use Rattle.std.specs.Borrow.{sem};
ghost use Rattle.std.specs.Fn.{CalledAt};
ghost use Rattle.std.specs.List.Retain.{IsFiltered};
ghost use Rattle.std.specs.Option.{option_copied_mut};
ghost use Rattle.nego_base.specs.RoomLends.{lends_reserved};

use crate::{Memory, Seq};
use std::alloc::Global;
use std::marker::Model;

/// A list with room for more items. What is put within the room takes no memory, so it can't be refused.
/// Contracts see the items and for how many more there is room.
#[derive(Debug, Drop)]
pub struct Reserved<T> {
    items: Vec<T>,
    room: usize,
}

impl<T> Model for Reserved<T> {
    ghost use Rattle.std.specs.Prelude.{◌+◌, ◌≤◌, vec_len};
    ghost use Rattle.std.specs.Vec.{vec_capacity};
    ghost use Rattle.nego_base.specs.Room.{WithRoom, with_room_code};

    ghost Value = { WithRoom T };

    ghost coded = { with_room_code T.code };

    ghost view = { λ r. record { items = r.items.items; room = r.room } };

    ghost invariant = { λ r. vec_len r.items + r.room ≤ vec_capacity r.items };
}

impl<T> Reserved<T> {
    /// The empty list with this much room.
    pub fn new(alloc: Global, room: usize) -> Result<Reserved<T>, Memory>
        ensures items { IfOk result (λ r. r.items ≡ []) }
        ensures room { IfOk result (λ r. r.room ≡ room) }
    {
        let items = Vec::with_capacity(alloc, room)?;
        Ok(Reserved { items, room })
    }

    /// The list with this much room behind its items. On refusal it is dropped.
    pub fn of(list: Seq<T>, room: usize) -> Result<Reserved<T>, Memory>
    where
        T: Drop,
        ensures items { IfOk result (λ r. r.items ≡ list) }
        ensures room { IfOk result (λ r. r.room ≡ room) }
    {
        let mut items = list.into_vec();
        items.reserve(room)?;
        Ok(Reserved { items, room })
    }

    /// The items as a list, in the same memory.
    pub fn into_seq(self) -> Seq<T>
        ensures { result ≡ self.items }
    {
        let Reserved { items, room: _ } = self;
        Seq::from_vec(items)
    }

    /// For how many more items there is room.
    pub fn room(&self) -> usize
        ensures { result ≡ self.now.room }
    {
        self.room
    }

    /// How many items there are.
    pub fn len(&self) -> usize
        ensures { result ≡ length self.now.items }
    {
        self.items.len()
    }

    /// Whether there is no item.
    pub fn is_empty(&self) -> bool
        ensures { result ≡ (length self.now.items == 0) }
    {
        self.items.is_empty()
    }

    /// The items in order.
    pub fn as_slice(&self) -> &[T]
        ensures { result.now ≡ self.now.items }
    {
        self.items.as_slice()
    }

    /// Puts an item at the end.
    pub fn push(&mut self, x: T)
        requires { 0 < self.old.room }
        ensures items { self.new.items ≡ self.old.items ++ x ∷ [] }
        ensures room { self.new.room ≡ self.old.room - 1 }
    {
        self.room -= 1;
        self.items.push_reserved(x);
    }

    /// Puts an item in the place of another, which is dropped.
    pub fn set(&mut self, i: usize, x: T)
    where
        T: Drop,
        requires { i < length self.old.items }
        ensures items { self.new.items ≡ slice_set self.old.items i x }
        ensures room { self.new.room ≡ self.old.room }
    {
        self.items[i] = x;
    }

    /// The item at a place, to be written.
    pub fn get_mut(&mut self, i: usize) -> Option<&mut T>
        ensures* writes_back { sem 𝓛 (lends_reserved T.row self.entry i result) }
        ensures value { option_copied_mut result ≡ slice_get self.old.items i }
    {
        self.items.get_mut(i)
    }

    /// Changes two items over.
    pub fn swap(&mut self, i: usize, j: usize)
        requires first { i < length self.old.items }
        requires second { j < length self.old.items }
        ensures items { self.new.items ≡ swap self.old.items i j }
        ensures room { self.new.room ≡ self.old.room }
    {
        self.items.swap(i, j);
    }

    /// Puts an item at a place. The items from there on move up by one.
    pub fn insert(&mut self, i: usize, x: T)
    where
        T: Drop,
        requires place { i ≤ length self.old.items }
        requires room { 0 < self.old.room }
        ensures items { self.new.items ≡ insert self.old.items i x }
        ensures room { self.new.room ≡ self.old.room - 1 }
    {
        self.room -= 1;
        self.items.insert(i, x).unwrap();
    }

    /// Makes room for at least so many more items. On refusal the list is as before.
    pub fn reserve(&mut self, room: usize) -> Result<(), Memory>
        ensures items { self.new.items ≡ self.old.items }
        ensures ok { OnOk result (self.new.room ≡ max self.old.room room) }
        ensures err { OnErr result (self.new.room ≡ self.old.room) }
    {
        if self.room < room {
            self.items.reserve(room)?;
            self.room = room;
        }
        Ok(())
    }

    /// Takes the item at a place. The items behind it move down by one, and a place is room again.
    pub fn remove(&mut self, i: usize) -> T
        requires { i < length self.old.items }
        ensures value { slice_get self.old.items i ≡ Some result }
        ensures items { self.new.items ≡ remove self.old.items i }
        ensures room { self.new.room ≡ self.old.room + 1 }
    {
        self.room += 1;
        self.items.remove(i)
    }

    /// Keeps the items that pass the test, and drops the others, whose places are room again.
    pub fn retain<F: FnMut(&T) -> bool>(&mut self, test: F)
    where
        T: Drop,
        requires { F.IsAlwaysCallable test }
        ensures items { IsFiltered (CalledAt F.FnMut) test self.old.items self.new.items }
        ensures room { length self.new.items + self.new.room ≡ length self.old.items + self.old.room }
    {
        let before = self.items.len();
        self.items.retain(test);
        self.room += before - self.items.len();
    }

    /// Keeps the first items and drops the others, whose places are room again.
    pub fn truncate(&mut self, n: usize)
    where
        T: Drop,
        ensures items { self.new.items ≡ take n self.old.items }
        ensures room { self.new.room ≡ self.old.room + (length self.old.items - n) }
    {
        let cut = self.items.len().saturating_sub(n);
        self.items.truncate(n);
        self.room += cut;
    }
}

impl<T: Copy> Reserved<T> {
    /// Puts the items of a slice at the end.
    pub fn extend_from_slice(&mut self, items: &[T])
        requires { length items.now ≤ self.old.room }
        ensures items { self.new.items ≡ self.old.items ++ items.now }
        ensures room { self.new.room ≡ self.old.room - length items.now }
    {
        self.room -= items.len();
        self.items.extend_from_slice(items).unwrap();
    }
}
