//! A journal that is stopped at each call of its disk.
ghost use Rattle.std.specs.Prelude.{◌≡◌, ◌<◌, ◌≤◌, length, IfOk};
ghost use Rattle.agent_msg.specs.Records.{entry};
ghost use Rattle.agent_msg.specs.Bytes.{RecordFits};

use crate::Journal;
use agent_msg::Record;
use nego_base::{AtomId, OutcomeId, Seq, Text};
use nego_io::{Disks, MemDisks};
use std::alloc::Global;
use std::test::Fail;

/// How many calls of the disk a load of an empty one and three appends make.
const CALLS: u64 = 18;

/// A move whose value after is the number.
fn moved(after: u16) -> Record
    requires { after < 64 }
    ensures { RecordFits (entry result) }
{
    Record::Move {
        atom: AtomId(0),
        outcome: OutcomeId(1),
        after,
    }
}

/// Loads a journal, appends three records, and answers how many were appended.
fn append_three<D: Disks>(alloc: Global, disks: &mut D) -> u16
    requires { 0 < (D.told disks.old).disks }
    ensures few { result ≤ 3 }
    ensures disks { (D.told disks.new).disks ≡ (D.told disks.old).disks }
{
    let mut journal = match Journal::load(alloc, disks, 0) {
        Ok(loaded) => loaded.0,
        Err(_) => return 0,
    };
    let Ok(()) = journal.append(disks, 0, &moved(1)) else {
        return 0;
    };
    let Ok(()) = journal.append(disks, 0, &moved(2)) else {
        return 1;
    };
    let Ok(()) = journal.append(disks, 0, &moved(3)) else {
        return 2;
    };
    3
}

/// Disks of one disk with this content, of which every call from the fuse on fails.
fn one_disk(alloc: Global, content: Text, fuse: Option<u64>) -> Result<MemDisks, Fail>
    ensures { IfOk result (λ d. length d.first ≡ 1) }
{
    let mut contents = Seq::new(alloc);
    contents.push(content)?;
    Ok(MemDisks::new(alloc, contents, Seq::new(alloc), fuse)?)
}

/// Whether what a stop leaves, with this filler, keeps the records that were appended, or these and one more.
fn keeps(alloc: Global, disks: &MemDisks, filler: u8, appended: u16) -> Result<bool, Fail>
    requires disk { 0 < length disks.now.first }
    requires few { appended ≤ 3 }
{
    let mut left = one_disk(alloc, disks.remains(alloc, 0, filler)?, None)?;
    let Ok((_, records)) = Journal::load(alloc, &mut left, 0) else {
        return Ok(false);
    };
    let mut next = 1;
    for record in records.iter() {
        if next > 3 || *record != moved(next) {
            return Ok(false);
        }
        next += 1;
    }
    Ok(next == appended + 1 || next == appended + 2)
}

#[test]
fn a_stop_at_each_call_keeps_the_records(rt: HostRuntime) -> Result<(), Fail> {
    let alloc = rt.alloc();
    for fuse in 0..CALLS + 1 {
        let mut disks = one_disk(alloc, Text::new(alloc), Some(fuse))?;
        let appended = append_three(alloc, &mut disks);
        for filler in [0, 1, 0xff] {
            assert!(rt;
                keeps(alloc, &disks, filler, appended)?,
                "fuse {fuse}, filler {filler}"
            );
        }
        assert!(rt; (appended == 3) == (fuse == CALLS), "fuse {fuse}");
    }
    Ok(())
}
