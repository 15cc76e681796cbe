//! A work under edits, and room for them.

use crate::counts::Counts;
use crate::slots::Slots;
use crate::{Node, Nodes, RuleFault, Targets, Work};
use nego_base::{AgentId, AgentSet, AtomId, AtomSet, Memory, OutcomeId, Reserved, Seq};
use std::alloc::Global;
use std::process::Abort;
use std::test::Fail;

const FIRST: AtomId = AtomId(0);

const LAST: AtomId = AtomId(1);

#[test]
fn edits_follow_one_another(rt: HostRuntime) -> Result<(), Fail> {
    let alloc = rt.alloc();
    let mut w = two_atoms(alloc)?;
    assert_eq!(rt; w.room(20_001, 0), Err(RuleFault::Nodes));
    w.room(20_000, 2)?;
    let base = w.add_node(Node::Base(OutcomeId(0)));
    assert!(rt; w.left().has(FIRST) && w.left().has(LAST));
    let o = w.add_outcome(FIRST, Targets::none(w.agents()), base, AtomSet::none());
    let p = w.add_outcome(LAST, Targets::none(w.agents()), base, AtomSet::none());
    assert!(rt; o == OutcomeId(0) && p == OutcomeId(1) && w.numbers() == 2);
    assert!(rt; w.alive(o) && w.alive(p) && !w.alive(OutcomeId(2)));
    assert!(rt; w.atom_of(o) == FIRST && w.count_of(LAST) == 1);
    let star = w.add_node(Node::Star(base));
    w.set_outcome(
        p,
        Targets::none(w.agents()),
        star,
        AtomSet::none().with(FIRST),
    );
    assert!(rt; w.alive(p) && w.node_of(p) == star && w.passed(p).has(FIRST));
    leave_last(&rt, &mut w, o);
    assert!(rt; w.alive(p));
    w.drop_outcome(p);
    assert!(rt; !w.alive(p) && w.count_of(LAST) == 0);
    Ok(())
}

fn leave_last(rt: &impl Abort, w: &mut Work, o: OutcomeId) {
    assert!(rt; w.left().has(FIRST));
    w.drop_atom(FIRST);
    assert!(rt; w.left().has(LAST) && !w.left().has(FIRST) && !w.alive(o));
    w.set_first(LAST);
    assert!(rt; w.first() == LAST && w.last() == LAST && w.parties(LAST).count() == 1);
}

/// An atom, a number, and the least number of an alive outcome of the atom that isn't below it: the first atom has the
/// outcomes 0 and 3, the last 1 and 4, and another none.
static NEXT: [(u32, u32, Option<u32>); 11] = [
    (0, 0, Some(0)),
    (0, 1, Some(3)),
    (0, 2, Some(3)),
    (0, 3, Some(3)),
    (0, 4, None),
    (0, u32::MAX, None),
    (1, 0, Some(1)),
    (1, 2, Some(4)),
    (1, 4, Some(4)),
    (1, 5, None),
    (2, 0, None),
];

#[test]
fn next_outcomes_are_found(rt: HostRuntime) -> Result<(), Fail> {
    let w = four_outcomes(&rt, rt.alloc())?;
    for &(n, from, next) in &NEXT {
        assert!(rt; next_number(&w, n, from) == next);
    }
    Ok(())
}

fn next_number(w: &Work, n: u32, from: u32) -> Option<u32> {
    Some(w.next_of(AtomId(n), OutcomeId(from))?.number.0)
}

/// The outcomes 0 and 3 of the first atom, and 1 and 4 of the last.
fn four_outcomes(rt: &impl Abort, alloc: Global) -> Result<Work, Fail> {
    let mut w = two_atoms(alloc)?;
    w.room(1, 5)?;
    let base = w.add_node(Node::Base(OutcomeId(0)));
    assert!(rt; w.left().has(FIRST) && w.left().has(LAST));
    w.add_outcome(FIRST, Targets::none(w.agents()), base, AtomSet::none());
    w.add_outcome(LAST, Targets::none(w.agents()), base, AtomSet::none());
    w.add_outcome(FIRST, Targets::none(w.agents()), base, AtomSet::none());
    w.add_outcome(FIRST, Targets::none(w.agents()), base, AtomSet::none());
    w.add_outcome(LAST, Targets::none(w.agents()), base, AtomSet::none());
    assert!(rt; w.alive(OutcomeId(2)));
    w.drop_outcome(OutcomeId(2));
    Ok(w)
}

/// A work of two atoms that has no outcome yet.
fn two_atoms(alloc: Global) -> Result<Work, Memory> {
    let everyone = AgentSet::none().with(AgentId(0));
    let mut parties = Seq::new(alloc);
    parties.push(everyone)?;
    parties.push(everyone)?;
    Ok(Work {
        agents: 1,
        left: AtomSet::none().with(FIRST).with(LAST),
        parties,
        first: FIRST,
        last: LAST,
        nodes: Nodes::new(alloc, 0)?,
        numbers: 0,
        outcomes: Reserved::new(alloc, 0)?,
        slots: Slots::new(alloc, 0)?,
        members: Slots::new(alloc, 0)?,
        counts: Counts::none(),
        entries: Counts::none(),
        names: Seq::new(alloc),
        bases: Seq::new(alloc),
    })
}
