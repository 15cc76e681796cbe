//! Each call once, with memory at hand: that it answers what its name says, and not always want of memory.
ghost use Rattle.std.specs.Prelude.{◌≡◌, ◌<◌};

use crate::{AgentId, AgentSet, AtomId, AtomSet, Op, Reserved, Seq, Steps, Text, is_name};
use std::alloc::Global;
use std::marker::Brand;
use std::process::Abort;
use std::sync::ledger::{Blank, Ledger};
use std::test::Fail;

#[test]
fn calls_answer(rt: HostRuntime) -> Result<(), Fail> {
    lists(&rt, rt.alloc())?;
    edits(&rt, rt.alloc())?;
    order(&rt, rt.alloc())?;
    room(&rt, rt.alloc())?;
    agents(&rt);
    atoms(&rt);
    names(&rt);
    assert_ne!(rt; Op::Lt, Op::Le);
    count::<Brand>(Blank::new(1));
    Ok(())
}

fn lists(rt: &impl Abort, alloc: Global) -> Result<(), Fail> {
    let mut list = Seq::new(alloc);
    assert!(rt; list.is_empty());
    for x in [3u32, 1, 2] {
        list.push(x)?;
    }
    assert!(rt; list.len() == 3);
    assert!(rt; list.as_slice() == [3, 1, 2].as_slice());
    assert!(rt; list[1] == 1);
    assert!(rt; list.get(2) == Some(&2) && list.get(3) == None);
    assert!(rt; list.last() == Some(&2));
    list.extend_from_slice(&[7, 8])?;
    let mut more = Seq::copy_of(alloc, &[9])?;
    list.append(&mut more)?;
    assert!(rt; more.is_empty());
    assert!(rt; Seq::from_vec(list.into_vec()) == Seq::copy_of(alloc, &[3, 1, 2, 7, 8, 9])?);
    let mut text = Text::copy(alloc, b"end ")?;
    text.push_decimal(u64::MAX)?;
    assert!(rt; text.as_slice() == b"end 18446744073709551615".as_slice());
    Ok(())
}

fn edits(rt: &impl Abort, alloc: Global) -> Result<(), Fail> {
    let mut list = Seq::copy_of(alloc, &[1u8, 2, 3])?;
    list.insert(1, 9)?;
    assert!(rt; list.as_slice() == [1, 9, 2, 3].as_slice());
    assert!(rt; list.remove(0) == 1);
    assert!(rt; list.replace(0, 4) == 9);
    list.set(1, 5);
    list.swap(0, 2);
    assert!(rt; list.as_slice() == [3, 5, 4].as_slice());
    assert!(rt; list.pop() == Some(4));
    list[0] = 6;
    if let Some(x) = list.get_mut(1) {
        *x = 7;
    }
    assert!(rt; list.as_slice() == [6, 7].as_slice());
    list.truncate(1);
    assert!(rt; list.as_slice() == [6].as_slice());
    list.clear();
    assert!(rt; list.pop() == None);
    Ok(())
}

fn order(rt: &impl Abort, alloc: Global) -> Result<(), Fail> {
    let mut list = Seq::copy_of(alloc, &[3u8, 1, 2])?;
    list.sort()?;
    assert!(rt; list.as_slice() == [1, 2, 3].as_slice());
    list.set(0, 9);
    list.sort_unstable();
    assert!(rt; list.as_slice() == [2, 3, 9].as_slice());
    let mut pairs = Seq::copy_of(alloc, &[(2u8, 0u8), (1, 1), (2, 2), (1, 3)])?;
    pairs.sort_by_key(|pair| pair.0)?;
    assert!(rt; pairs.as_slice() == [(1, 1), (1, 3), (2, 0), (2, 2)].as_slice());
    pairs.sort_unstable_by_key(|pair| pair.1);
    assert!(rt; pairs.as_slice() == [(2, 0), (1, 1), (2, 2), (1, 3)].as_slice());
    Ok(())
}

fn room(rt: &impl Abort, alloc: Global) -> Result<(), Fail> {
    let mut list = Reserved::new(alloc, 4)?;
    list.push(1u8);
    list.extend_from_slice(&[2, 3]);
    list.set(0, 7);
    assert!(rt; list.len() == 3 && list.room() == 1);
    list.truncate(2);
    assert!(rt; list.as_slice() == [7, 2].as_slice() && list.room() == 2 && !list.is_empty());
    let mut list = Reserved::of(list.into_seq(), 1)?;
    list.push(5);
    assert!(rt; list.as_slice() == [7, 2, 5].as_slice());
    Ok(())
}

fn agents(rt: &impl Abort) {
    let set = AgentSet::none()
        .with(AgentId(15))
        .with(AgentId(4))
        .with(AgentId(0));
    assert!(rt; set.has(AgentId(4)) && !set.has(AgentId(5)));
    assert!(rt; set.count() == 3 && set.least() == Some(AgentId(0)));
    let rest = set.without(AgentId(0));
    assert!(rt; rest.least() == Some(AgentId(4)));
    assert!(rt; rest.within(set) && !set.within(rest) && rest.meets(set));
    assert!(rt; !rest.meets(AgentSet::none().with(AgentId(0))));
    assert!(rt; AgentSet::none().least() == None);
    assert!(rt; rest.union(AgentSet::below(1)) == set);
    assert!(rt; set.difference(AgentSet::below(5)) == AgentSet::none().with(AgentId(15)));
    assert!(rt; AgentSet::below(16).count() == 16);
}

fn atoms(rt: &impl Abort) {
    let set = AtomSet::none()
        .with(AtomId(63))
        .with(AtomId(31))
        .with(AtomId(32));
    assert!(rt; set.has(AtomId(63)) && !set.has(AtomId(0)));
    assert!(rt; set.count() == 3 && set.least() == Some(AtomId(31)));
    let rest = set.without(AtomId(31));
    assert!(rt; rest.least() == Some(AtomId(32)));
    assert!(rt; rest.within(set) && !set.within(rest) && rest.meets(set));
    assert!(rt; !rest.meets(AtomSet::none().with(AtomId(31))));
    assert!(rt; AtomSet::none().least() == None);
    assert!(rt; rest.union(AtomSet::none().with(AtomId(31))) == set);
    assert!(rt; set.difference(AtomSet::below(63)) == AtomSet::none().with(AtomId(63)));
    assert!(rt; AtomSet::below(64).count() == 64);
}

fn names(rt: &impl Abort) {
    for (name, want) in [
        ("a", true),
        ("bob_2", true),
        ("abcdefghijklmnopqrstuvwx", true),
        ("abcdefghijklmnopqrstuvwxy", false),
        ("", false),
        ("2a", false),
        ("_a", false),
        ("aB", false),
        ("a-b", false),
    ] {
        assert!(rt; is_name(name.as_bytes()) == want, "{name}");
    }
}

fn count<C: Ledger>(blank: Blank)
    requires name { blank.name ≡ C.name }
    requires parts { blank.parts ≡ C.parts }
    requires share { 0 < blank.parts }
{
    let mut steps = Steps::<C>::open(blank);
    steps.tick();
}
