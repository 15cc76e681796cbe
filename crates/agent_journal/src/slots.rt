//! The slots of a journal on a disk: a gate, the 127 bytes of a record, and so on.
ghost use Rattle.std.specs.Prelude.{◌≡◌, ◌<◌, ◌≤◌, ◌+◌, ◌*◌, ◌++◌, ◌∷◌, [], All, length, drop, take, IsTrue, IfSome, IfOk, IfErr, OnOk, Some};
ghost use Rattle.nego_io.specs.Outside.{HasCause};
ghost use Rattle.nego_io.specs.Disks.{LeavesOnly, AreCallsOn, HasContent, IsRead, IsSynced, overwritten, Torn, Ragged};
ghost use Rattle.agent_msg.specs.Records.{entry, entries, IsTidy};
ghost use Rattle.agent_msg.specs.Bytes.{entry_bytes};
ghost use Rattle.agent_journal.specs.Slots.{kept, StandsFor, Closes, SaysFirst};
ghost use Rattle.agent_journal.specs.Journal.{IsSettled, KeepsAll, KeepsOrAdds, LoadFails, SlotFails};

use crate::JournalFault;
use agent_msg::{Record, read_record, write_record};
use nego_base::Seq;
use nego_io::{Disks, Failed};
use std::alloc::Global;

/// The most records that count.
pub const MOST: u32 = 10_000;

/// The gate before a record that counts, and the one before a record that doesn't.
const OPEN: u8 = 1;

const CLOSED: u8 = 0;

/// The place of a slot's gate.
fn gate(k: u32) -> u64
    requires { k ≤ 10000 }
    ensures { result ≡ 128 * k }
{
    128 * u64::from(k)
}

/// The record of a slot. None where the slot doesn't count by itself.
fn read_slot<D: Disks>(disks: &mut D, i: u32, k: u32) -> Result<Option<Record>, JournalFault>
    requires disk { i < (D.told disks.old).disks }
    requires place { k < 10000 }
    ensures read { IsRead i (D.told disks.old) (D.told disks.new) }
    ensures ok { IfOk result (λ slot. IsTrue (D.told disks.new).telling → SaysFirst (drop (128 * k) ((D.told disks.old).content i)) slot) }
    ensures tidy { IfOk result (λ slot. IfSome slot IsTidy) }
    ensures stayed { IfOk result (λ _. (D.told disks.new).faults i ≡ (D.told disks.old).faults i) }
    ensures err { IfErr result (SlotFails i k (D.told disks.old) (D.told disks.new)) }
{
    let mut slot = [0; 129];
    let n = disks.read(i, gate(k), &mut slot)?;
    if n < slot.len() || slot[0] != OPEN {
        return Ok(None);
    }
    match read_record(&slot[1..128]) {
        Some(record) => Ok(Some(record)),
        None => Err(JournalFault::BadRecord(k)),
    }
}

/// The records that a disk keeps.
pub fn read_records<D: Disks>(
    alloc: Global,
    disks: &mut D,
    i: u32,
) -> Result<Seq<Record>, JournalFault>
    requires { i < (D.told disks.old).disks }
    ensures read { IsRead i (D.told disks.old) (D.told disks.new) }
    ensures records { IfOk result (λ records. IsTrue (D.told disks.new).telling → StandsFor ((D.told disks.old).content i) (entries records)) }
    ensures count { IfOk result (λ records. length records ≤ 10000) }
    ensures tidy { IfOk result (All IsTidy) }
    ensures stayed { IfOk result (λ _. (D.told disks.new).faults i ≡ (D.told disks.old).faults i) }
    ensures err { IfErr result (LoadFails i (D.told disks.old) (D.told disks.new)) }
{
    let mut records = Seq::new(alloc);
    for k in 0..MOST {
        let Some(record) = read_slot(disks, i, k)? else {
            return Ok(records);
        };
        records.push(record)?;
    }
    Ok(records)
}

/// Cuts a disk to a length where it is longer.
fn shorten<D: Disks>(disks: &mut D, i: u32, to: u64) -> Result<(), Failed>
    requires disk { i < (D.told disks.old).disks }
    requires synced { IsSynced (D.told disks.old) i }
    ensures images { LeavesOnly (Ragged to ((D.told disks.old).content i)) i (D.told disks.old) (D.told disks.new) }
    ensures content { OnOk result (HasContent (D.told disks.new) i (take to ((D.told disks.old).content i))) }
    ensures synced { OnOk result (IsSynced (D.told disks.new) i) }
    ensures calls { AreCallsOn i (D.told disks.old) (D.told disks.new) }
    ensures cause { HasCause ((D.told disks.old).faults i) ((D.told disks.new).faults i) result }
{
    if disks.len(i)? > to {
        disks.cut(i, to)?;
        disks.sync(i)?;
    }
    Ok(())
}

/// Writes a piece over a disk, and sees that it is on the disk.
fn write_through<D: Disks>(disks: &mut D, i: u32, at: u64, piece: &[u8]) -> Result<(), Failed>
    requires disk { i < (D.told disks.old).disks }
    requires synced { IsSynced (D.told disks.old) i }
    requires within { IsTrue (D.told disks.old).telling → at ≤ length ((D.told disks.old).content i) }
    ensures images { LeavesOnly (Torn at (length piece.now) ((D.told disks.old).content i)) i (D.told disks.old) (D.told disks.new) }
    ensures content { OnOk result (HasContent (D.told disks.new) i (overwritten at piece.now ((D.told disks.old).content i))) }
    ensures synced { OnOk result (IsSynced (D.told disks.new) i) }
    ensures calls { AreCallsOn i (D.told disks.old) (D.told disks.new) }
    ensures cause { HasCause ((D.told disks.old).faults i) ((D.told disks.new).faults i) result }
{
    disks.write_at(i, at, piece)?;
    disks.sync(i)
}

/// Closes the gate at a place where it isn't closed.
fn close<D: Disks>(disks: &mut D, i: u32, at: u64) -> Result<(), Failed>
    requires disk { i < (D.told disks.old).disks }
    requires synced { IsSynced (D.told disks.old) i }
    requires within { IsTrue (D.told disks.old).telling → at ≤ length ((D.told disks.old).content i) }
    ensures images { LeavesOnly (Torn at 1 ((D.told disks.old).content i)) i (D.told disks.old) (D.told disks.new) }
    ensures content { OnOk result (HasContent (D.told disks.new) i (overwritten at (0 ∷ []) ((D.told disks.old).content i))) }
    ensures closes { OnOk result (IsTrue (D.told disks.new).telling → Closes at ((D.told disks.old).content i) ((D.told disks.new).content i)) }
    ensures synced { OnOk result (IsSynced (D.told disks.new) i) }
    ensures calls { AreCallsOn i (D.told disks.old) (D.told disks.new) }
    ensures cause { HasCause ((D.told disks.old).faults i) ((D.told disks.new).faults i) result }
{
    let mut found = [OPEN];
    let n = disks.read(i, at, &mut found)?;
    if n == 0 || found[0] != CLOSED {
        return write_through(disks, i, at, &[CLOSED]);
    }
    Ok(())
}

/// Cuts off what stands behind so many records that count, and closes the gate behind them.
pub fn repair<D: Disks>(disks: &mut D, i: u32, count: u32) -> Result<(), Failed>
    requires disk { i < (D.told disks.old).disks }
    requires place { count ≤ 10000 }
    requires synced { IsSynced (D.told disks.old) i }
    requires all { IsTrue (D.told disks.old).telling → length (kept ((D.told disks.old).content i)) ≡ count }
    ensures images { LeavesOnly (KeepsAll (kept ((D.told disks.old).content i))) i (D.told disks.old) (D.told disks.new) }
    ensures content { OnOk result (HasContent (D.told disks.new) i (take (128 * count) ((D.told disks.old).content i) ++ 0 ∷ [])) }
    ensures kept { OnOk result (IsTrue (D.told disks.new).telling → kept ((D.told disks.new).content i) ≡ kept ((D.told disks.old).content i)) }
    ensures settled { OnOk result (IsSettled (D.told disks.new) i count) }
    ensures calls { AreCallsOn i (D.told disks.old) (D.told disks.new) }
    ensures cause { HasCause ((D.told disks.old).faults i) ((D.told disks.new).faults i) result }
{
    shorten(disks, i, gate(count) + 1)?;
    close(disks, i, gate(count))
}

/// A record with a closed gate behind it.
fn closed_behind(r: &Record) -> [u8; 128]
    ensures value { result ≡ entry_bytes (entry r.now) ++ 0 ∷ [] }
    ensures whole { length (entry_bytes (entry r.now)) ≡ 127 }
{
    let mut slot = [CLOSED; 128];
    slot[..127].copy_from_slice(&write_record(r));
    slot
}

/// Puts a record behind those that a disk keeps: first itself with a closed gate behind it, and then, once it is on the
/// disk, its open gate.
pub fn put<D: Disks>(disks: &mut D, i: u32, count: u32, r: &Record) -> Result<(), Failed>
    requires disk { i < (D.told disks.old).disks }
    requires place { count < 10000 }
    requires settled { IsSettled (D.told disks.old) i count }
    ensures images { LeavesOnly (KeepsOrAdds (kept ((D.told disks.old).content i)) (entry r.now)) i (D.told disks.old) (D.told disks.new) }
    ensures settled { OnOk result (IsSettled (D.told disks.new) i (count + 1)) }
    ensures content { OnOk result (HasContent (D.told disks.new) i (overwritten (128 * count) (1 ∷ (entry_bytes (entry r.now) ++ 0 ∷ [])) ((D.told disks.old).content i))) }
    ensures added { OnOk result (IsTrue (D.told disks.new).telling → kept ((D.told disks.new).content i) ≡ kept ((D.told disks.old).content i) ++ entry_bytes (entry r.now) ∷ []) }
    ensures calls { AreCallsOn i (D.told disks.old) (D.told disks.new) }
    ensures cause { HasCause ((D.told disks.old).faults i) ((D.told disks.new).faults i) result }
{
    write_through(disks, i, gate(count) + 1, &closed_behind(r))?;
    write_through(disks, i, gate(count), &[OPEN])
}
