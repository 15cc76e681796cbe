//! The alive outcomes of a work in the order of their atoms, their targets and their numbers.
ghost use Rattle.std.specs.Prelude.{◌≡◌, ◌≢◌, ◌↔◌, ◌⊎◌, ℕ, ◌+◌, ◌-◌, ◌<◌, ◌≤◌, [], Some, length, map, max, slice_get, insert, remove, All, AllPairs, Contains, IfOk, IfErr, IfSome, IfNone, IsTrue, OnOk, OnErr};
ghost use Rattle.std.specs.List.Sorted.{IsPartitionPoint};
ghost use Rattle.nego_expr.specs.Sorted.{PlainSlot, plain_slot, slot_of, slot_cmp, member, IsBelow, IsNextOf};
ghost use Rattle.nego_expr.specs.WorkView.{plain_outcome};

use crate::{Outcome, Targets};
use nego_base::{AtomId, Memory, OutcomeId, Reserved};
use std::alloc::Global;
use std::cmp::Ordering;
use std::marker::Model;

/// What is sorted of an alive outcome: its atom, where it sends the agents, and its number.
#[derive(Debug, Drop)]
pub struct Slot {
    pub atom: AtomId,
    pub targets: Targets,
    pub outcome: OutcomeId,
}

impl Slot {
    /// The slot of an outcome.
    fn of(x: &Outcome) -> Slot
        ensures { plain_slot result ≡ slot_of (plain_outcome x.now) }
    {
        Slot {
            atom: x.atom,
            targets: x.targets.copy(),
            outcome: x.number,
        }
    }

    /// How it compares with the slot of this atom, these targets and this number.
    fn compare(&self, n: AtomId, targets: &Targets, o: OutcomeId) -> Ordering
        ensures { result ≡ slot_cmp (plain_slot self.now) (record { atom = n.0; targets = targets.now; outcome = o.0 }) }
    {
        self.atom
            .cmp(&n)
            .then_with(|| self.targets.compare(targets))
            .then_with(|| self.outcome.cmp(&o))
    }
}

/// Slots that rise, each once, with room for more. Contracts see them and for how many more there is room.
#[derive(Debug, Drop)]
pub(crate) struct Slots {
    slots: Reserved<Slot>,
}

impl Model for Slots {
    ghost use Rattle.std.specs.Prelude.{map, AllPairs};
    ghost use Rattle.nego_base.specs.Room.{WithRoom};
    ghost use Rattle.nego_expr.specs.Sorted.{PlainSlot, plain_slot, IsBelow};

    ghost Value = { WithRoom PlainSlot };

    ghost view = { λ s. record { items = map plain_slot s.slots.items; room = s.slots.room } };

    ghost invariant = { λ s. AllPairs IsBelow (map plain_slot s.slots.items) };
}

impl Slots {
    /// No slot, with this much room.
    pub(crate) fn new(alloc: Global, room: usize) -> Result<Slots, Memory>
        ensures items { IfOk result (λ s. s.items ≡ []) }
        ensures room { IfOk result (λ s. s.room ≡ room) }
    {
        Ok(Slots {
            slots: Reserved::new(alloc, room)?,
        })
    }

    /// Makes room for at least so many more slots. On refusal all is as before.
    pub(crate) fn reserve(&mut self, room: usize) -> Result<(), Memory>
        ensures items { self.new.items ≡ self.old.items }
        ensures ok { OnOk result (self.new.room ≡ max self.old.room room) }
        ensures err { OnErr result (self.new.room ≡ self.old.room) }
    {
        self.slots.reserve(room)
    }

    /// The slots in their order.
    pub(crate) fn as_slice(&self) -> &[Slot]
        ensures items { map plain_slot result.now ≡ self.now.items }
        ensures rise { AllPairs IsBelow (map plain_slot result.now) }
    {
        self.slots.as_slice()
    }

    /// Puts the slot of an outcome among them.
    pub(crate) fn insert(&mut self, x: &Outcome)
        requires { 0 < self.old.room }
        ensures items { (slot : PlainSlot) → Contains self.new.items slot ↔ (Contains self.old.items slot ⊎ (slot ≡ slot_of (plain_outcome x.now))) }
        ensures room { (Contains self.old.items (slot_of (plain_outcome x.now)) → ⊥) → self.new.room ≡ self.old.room - 1 }
        ensures kept { self.old.room ≤ self.new.room + 1 }
    {
        if let Err(i) = search(self.slots.as_slice(), x) {
            self.slots.insert(i, Slot::of(x));
        }
    }

    /// Takes the slot of an outcome away.
    pub(crate) fn remove(&mut self, x: &Outcome)
        requires { Contains self.old.items (slot_of (plain_outcome x.now)) }
        ensures items { (slot : PlainSlot) → Contains self.new.items slot ↔ (Contains self.old.items slot × (slot ≢ slot_of (plain_outcome x.now))) }
        ensures room { self.new.room ≡ self.old.room + 1 }
    {
        let i = place_of_slot(self.slots.as_slice(), x);
        let _ = self.slots.remove(i);
    }

    /// Puts the slot of an outcome in the place of another's. Where they are the same nothing is moved.
    pub(crate) fn replace(&mut self, old: &Outcome, new: &Outcome)
        requires { Contains self.old.items (slot_of (plain_outcome old.now)) }
        ensures items { (slot : PlainSlot) → Contains self.new.items slot ↔ ((Contains self.old.items slot × (slot ≢ slot_of (plain_outcome old.now))) ⊎ (slot ≡ slot_of (plain_outcome new.now))) }
        ensures room { self.old.room ≤ self.new.room }
    {
        if are_alike(old, new) {
            return;
        }
        self.exchange(old, new);
    }

    /// The same, with a search for each of the two places.
    fn exchange(&mut self, old: &Outcome, new: &Outcome)
        requires { Contains self.old.items (slot_of (plain_outcome old.now)) }
        ensures items { (slot : PlainSlot) → Contains self.new.items slot ↔ ((Contains self.old.items slot × (slot ≢ slot_of (plain_outcome old.now))) ⊎ (slot ≡ slot_of (plain_outcome new.now))) }
        ensures room { self.old.room ≤ self.new.room }
    {
        let from = place_of_slot(self.slots.as_slice(), old);
        match search(self.slots.as_slice(), new) {
            Err(i) => {
                let to = if from < i { i - 1 } else { i };
                put_instead(&mut self.slots, from, to, new);
            }
            // The new slot is there already: it is the old one, or another's.
            Ok(_) => {
                self.remove(old);
                self.insert(new);
            }
        }
    }

    /// Of slots without targets: the least number of those of the atom that isn't below this one.
    pub(crate) fn next_of(&self, n: AtomId, from: OutcomeId) -> Option<OutcomeId>
        requires { All (λ s. s.targets ≡ []) self.now.items }
        ensures found { IfSome result (λ o. IsNextOf self.now.items n.0 from.0 o.0) }
        ensures none { IfNone result ((m : ℕ) → from.0 ≤ m → Contains self.now.items (member n.0 m) → ⊥) }
    {
        let slots = self.slots.as_slice();
        match search_for(slots, n, &Targets::none(0), from) {
            Ok(_) => Some(from),
            Err(i) => {
                let slot = slots.get(i)?;
                if slot.atom != n {
                    return None;
                }
                Some(slot.outcome)
            }
        }
    }
}

/// The place of the slot of an outcome, which is one of these rising slots.
pub fn place_of_slot(slots: &[Slot], x: &Outcome) -> usize
    requires rise { AllPairs IsBelow (map plain_slot slots.now) }
    requires there { Contains (map plain_slot slots.now) (slot_of (plain_outcome x.now)) }
    ensures { slice_get (map plain_slot slots.now) result ≡ Some (slot_of (plain_outcome x.now)) }
{
    search(slots, x).unwrap()
}

/// Takes the slot at a place away, and puts the slot of an outcome at a place among the others. Only the slots between
/// the two places move.
fn put_instead(slots: &mut Reserved<Slot>, from: usize, to: usize, x: &Outcome)
    requires from { from < length slots.old.items }
    requires to { to < length slots.old.items }
    ensures items { map plain_slot slots.new.items ≡ insert (remove (map plain_slot slots.old.items) from) to (slot_of (plain_outcome x.now)) }
    ensures room { slots.new.room ≡ slots.old.room }
{
    let mut gap = from;
    while gap != to {
        let next = if gap < to { gap + 1 } else { gap - 1 };
        slots.swap(gap, next);
        gap = next;
    }
    slots.set(to, Slot::of(x));
}

/// Whether two outcomes have the same slot.
fn are_alike(x: &Outcome, y: &Outcome) -> bool
    ensures { IsTrue result → slot_of (plain_outcome x.now) ≡ slot_of (plain_outcome y.now) }
{
    Slot::of(x).compare(y.atom, &y.targets, y.number).is_eq()
}

/// The place of the slot of an outcome, or the place where it is to stand.
fn search(slots: &[Slot], x: &Outcome) -> Result<usize, usize>
    requires { AllPairs IsBelow (map plain_slot slots.now) }
    ensures ok { IfOk result (λ i. slice_get (map plain_slot slots.now) i ≡ Some (slot_of (plain_outcome x.now))) }
    ensures within { IfErr result (λ i. i ≤ length slots.now) }
    ensures err { IfErr result (λ i. IsPartitionPoint (λ s. slot_cmp s (slot_of (plain_outcome x.now)) ≡ Ordering.Less) (λ s. slot_cmp s (slot_of (plain_outcome x.now)) ≡ Ordering.Greater) (map plain_slot slots.now) i) }
{
    search_for(slots, x.atom, &x.targets, x.number)
}

/// The place of the slot of this atom, these targets and this number, or the place where it is to stand.
fn search_for(slots: &[Slot], n: AtomId, targets: &Targets, o: OutcomeId) -> Result<usize, usize>
    requires { AllPairs IsBelow (map plain_slot slots.now) }
    ensures ok { IfOk result (λ i. slice_get (map plain_slot slots.now) i ≡ Some (record { atom = n.0; targets = targets.now; outcome = o.0 })) }
    ensures within { IfErr result (λ i. i ≤ length slots.now) }
    ensures err { IfErr result (λ i. IsPartitionPoint (λ s. slot_cmp s (record { atom = n.0; targets = targets.now; outcome = o.0 }) ≡ Ordering.Less)
        (λ s. slot_cmp s (record { atom = n.0; targets = targets.now; outcome = o.0 }) ≡ Ordering.Greater) (map plain_slot slots.now) i) }
{
    slots.binary_search_by(|s| s.compare(n, targets, o))
}
