//! The verdicts of `reduce` on diagrams of more atoms.

use crate::tests::calls::{Call, PURCHASE, REDUCED, call_over, words_in};
use crate::tests::diagrams::{DEAD, FORK, LATER, LOOP, ROUND};
use nego_base::{Memory, Seq, Text};
use nego_io::{MemSink, MemSource};
use std::alloc::Global;
use std::process::Abort;
use std::test::Fail;

/// What is told of each.
pub(crate) static VERDICTS: [Call; 8] = [
    // Two parties go on side by side.
    Call {
        input: FORK,
        out: b"certificate 1
shortcut 0 1
shortcut 0 2
close
end
sound uses 3
summary 1
node 0 base 0
node 1 base 1
node 2 base 2
node 3 base 3
node 4 then 0 1
node 5 then 4 2
node 6 then 5 3
final ok 6
end
",
        ..REDUCED
    },
    // A choice after which one of two waits for ever.
    Call {
        status: 1,
        input: b"nego 1
agent a 1
agent b 1
agent c 1
atom start a b c
out go
case :
next pick a
next ab b
next ac c
atom pick a
out r1
case :
next ab a
out r2
case :
next ac a
atom ab a b
out x
case :
next end a b
atom ac a c
out y
case :
next end a c
atom end a b c
out ok
case :
first start
last end
end
",
        out: b"certificate 1
end
unsound uses 0
left start
left pick
left ab
left ac
left end
",
        ..REDUCED
    },
    // A party that comes later.
    Call {
        input: LATER,
        out: b"certificate 1
shortcut 0 1
shortcut 0 2
close
end
sound uses 3
summary 1
node 0 base 0
node 1 base 1
node 2 base 2
node 3 base 3
node 4 then 0 1
node 5 then 4 2
node 6 then 5 3
final ok 6
end
",
        ..REDUCED
    },
    // An atom to which nothing leads.
    Call {
        status: 1,
        input: DEAD,
        out: b"certificate 1
end
unsound uses 0
left start
left extra
left stop
",
        ..REDUCED
    },
    // One beside an atom that is first and last at once.
    Call {
        status: 1,
        input: b"nego 1
agent a 2
agent b 2
atom extra a b
out x
case :
next only a b
atom only a b
out set
case : a:=1
first only
last only
end
",
        out: b"certificate 1
end
unsound uses 0
left extra
left only
",
        ..REDUCED
    },
    // A loop.
    Call {
        input: LOOP,
        out: b"certificate 1
iterate 0
close
end
sound uses 2
summary 1
node 0 base 0
node 1 base 1
node 2 base 2
node 3 star 0
node 4 then 3 1
node 5 then 4 2
final ok 5
end
",
        ..REDUCED
    },
    // Two atoms that go round for ever.
    Call {
        status: 4,
        input: ROUND,
        out: b"certificate 1
shortcut 0 1
shortcut 0 2
shortcut 1 2
end
undecided stuck uses 3
left start
left x
left end
",
        ..REDUCED
    },
    Call {
        input: PURCHASE,
        out: b"certificate 1
merge 2 3
iterate 1
shortcut 0 1
shortcut 4 3
shortcut 4 4
merge 4 5
shortcut 0 2
close
end
sound uses 8
summary 1
node 0 base 0
node 1 base 1
node 2 base 2
node 3 base 3
node 4 base 4
node 5 base 5
node 6 base 6
node 7 base 7
node 8 base 8
node 9 base 9
node 10 join 2 3
node 11 star 1
node 12 then 11 10
node 13 then 0 12
node 14 then 4 6
node 15 then 14 7
node 16 join 15 5
node 17 then 13 16
node 18 then 17 8
node 19 then 17 9
final delivered 18
final cancelled 19
end
",
        ..REDUCED
    },
];

/// A hub of two agents, from which one goes to any of fifteen atoms and the other to any of fourteen, each of which leads
/// back to the hub.
fn hub(alloc: Global) -> Result<Text, Memory> {
    let mut text = Text::copy(alloc, b"nego 1\nagent a 1\nagent b 1\natom hub a b\n")?;
    for i in 0..15u64 {
        for j in 0..14u64 {
            add_pair(&mut text, i, j)?;
        }
    }
    text.extend_from_slice(b"out stop\ncase :\nnext end a b\n")?;
    for i in 0..15u64 {
        add_back(&mut text, b"x", i, b"a")?;
    }
    for j in 0..14u64 {
        add_back(&mut text, b"y", j, b"b")?;
    }
    text.extend_from_slice(b"atom end a b\nout ok\ncase :\nfirst hub\nlast end\nend\n")?;
    Ok(text)
}

/// An outcome of the hub.
fn add_pair(text: &mut Text, i: u64, j: u64) -> Result<(), Memory> {
    text.extend_from_slice(b"out p_")?;
    text.push_decimal(i)?;
    text.extend_from_slice(b"_")?;
    text.push_decimal(j)?;
    text.extend_from_slice(b"\ncase :\nnext x")?;
    text.push_decimal(i)?;
    text.extend_from_slice(b" a\nnext y")?;
    text.push_decimal(j)?;
    text.extend_from_slice(b" b\n")
}

/// An atom of one agent that leads back to the hub.
fn add_back(text: &mut Text, name: &[u8], i: u64, agent: &[u8]) -> Result<(), Memory> {
    text.extend_from_slice(b"atom ")?;
    text.extend_from_slice(name)?;
    text.push_decimal(i)?;
    text.extend_from_slice(b" ")?;
    text.extend_from_slice(agent)?;
    text.extend_from_slice(b"\nout back\ncase :\nnext hub ")?;
    text.extend_from_slice(agent)?;
    text.extend_from_slice(b"\n")
}

/// How the reduction of the hub begins, and how it ends.
const HUB_BEGINS: &[u8] = b"certificate 1
shortcut 0 1
shortcut 0 16
iterate 0
";

const HUB_ENDS: &[u8] = b"
end
undecided nodes uses 407
left hub
left x9
left x10
left x11
left x12
left x13
left x14
left y0
left y1
left y2
left y3
left y4
left y5
left y6
left y7
left y8
left y9
left y10
left y11
left y12
left y13
left end
";

/// That the reduction of the hub stops at the limit of nodes, after 407 uses.
pub(crate) fn hub_is_undecided(rt: &impl Abort, alloc: Global) -> Result<(), Fail> {
    let words = words_in(alloc, "reduce")?;
    let mut source = MemSource::new(hub(alloc)?, Seq::new(alloc));
    let mut out = MemSink::new(alloc, Seq::new(alloc))?;
    let mut err = MemSink::new(alloc, Seq::new(alloc))?;
    let status = call_over(alloc, &words, &mut source, &mut out, &mut err);
    assert!(rt; status.number() == 4);
    let text = out.bytes();
    assert!(rt; text.starts_with(HUB_BEGINS));
    assert!(rt; text.ends_with(HUB_ENDS));
    assert!(rt; text.iter().filter(|b| **b == b'\n').count() == 432);
    assert!(rt; err.bytes().is_empty());
    Ok(())
}
