//! Diagrams that `make` prints, and what other commands say of them.

use crate::tests::calls::{Call, REDUCED, SET, told, words_in};
use nego_base::{Memory, Seq, Text};
use std::alloc::Global;
use std::process::Abort;
use std::test::Fail;

/// The diagram of two atoms, with its line.
const TWO: &[u8] = b"nego 1
agent a0 4
agent a1 4
agent a2 4
agent a3 4
atom m0 a0 a1 a2 a3
out go
case :
next m1 a0 a1 a2 a3
atom m1 a0 a1 a2 a3
out good
case :
out bad
case : a0:=0
first m0
last m1
end
made atoms 2 outcomes 3 uses 1 nodes 5
";

/// `make` takes nothing of its input, and needs none.
pub(crate) static MADE: [Call; 3] = [
    Call {
        words: "make 2",
        out: TWO,
        left: SET,
        ..REDUCED
    },
    Call {
        words: "make 2",
        input: b"",
        out: TWO,
        ..REDUCED
    },
    Call {
        words: "make 2",
        out_fails: &[0],
        status: 6,
        out: b"",
        err: b"write fault\n",
        left: SET,
        ..REDUCED
    },
];

/// How `ask 0 0 0 0` answers over the diagram of 64 atoms.
const ANSWERED: &[u8] = b"good 0 0 0 0
good 0 0 1 0
good 0 0 2 0
good 0 0 3 0
good 1 0 0 0
good 1 0 1 0
good 1 0 2 0
good 1 0 3 0
good 2 0 0 0
good 2 0 1 0
good 2 0 2 0
good 2 0 3 0
good 3 0 0 0
good 3 0 1 0
good 3 0 2 0
good 3 0 3 0
bad 0 0 0 0
bad 0 0 1 0
bad 0 0 2 0
bad 0 0 3 0
";

/// The words `make` and this number.
fn make_words(alloc: Global, n: u32) -> Result<Seq<Text>, Memory> {
    let mut words = Seq::new(alloc);
    words.push(Text::copy(alloc, b"make")?)?;
    let mut size = Text::new(alloc);
    size.push_decimal(u64::from(n))?;
    words.push(size)?;
    Ok(words)
}

/// The line behind the diagram of n atoms: it has an outcome at the first atom and two at each other; all atoms but the
/// first and the last are merged and entered, and then the first is closed into the last.
fn made_line(alloc: Global, n: u32) -> Result<Text, Memory> {
    let n = u64::from(n);
    let mut line = Text::copy(alloc, b"\nend\nmade atoms ")?;
    line.push_decimal(n)?;
    line.extend_from_slice(b" outcomes ")?;
    line.push_decimal((2 * n).saturating_sub(1))?;
    line.extend_from_slice(b" uses ")?;
    line.push_decimal((2 * n).saturating_sub(3))?;
    line.extend_from_slice(b" nodes ")?;
    line.push_decimal((4 * n).saturating_sub(3))?;
    line.extend_from_slice(b"\n")?;
    Ok(line)
}

/// That the numbers behind each diagram are the formulas.
pub(crate) fn numbers_are_the_formulas(rt: &impl Abort, alloc: Global) -> Result<(), Fail> {
    for n in 2..65u32 {
        let (status, made) = told(alloc, &make_words(alloc, n)?, Text::new(alloc))?;
        assert!(rt; status == 0, "make {n}");
        assert!(rt; made.ends_with(&made_line(alloc, n)?), "make {n}");
    }
    Ok(())
}

/// That `reduce` calls such diagrams sound, in so many lines: one for each use, node and final outcome, and five others.
pub(crate) fn made_diagrams_are_sound(rt: &impl Abort, alloc: Global) -> Result<(), Fail> {
    let reduce = words_in(alloc, "reduce")?;
    for n in [2, 3, 8, 33, 64u32] {
        let (_, made) = told(alloc, &make_words(alloc, n)?, Text::new(alloc))?;
        let (status, reduction) = told(alloc, &reduce, made)?;
        assert!(rt; status == 0, "make {n}");
        let lines = reduction.iter().filter(|b| **b == b'\n').count();
        assert!(rt; lines as u64 == 6 * u64::from(n) + 1, "make {n}");
    }
    Ok(())
}

/// That the runs of the largest diagram, more than 2^62, end in just these ways.
pub(crate) fn largest_is_answered(rt: &impl Abort, alloc: Global) -> Result<(), Fail> {
    let (_, made) = told(alloc, &make_words(alloc, 64)?, Text::new(alloc))?;
    let (status, answers) = told(alloc, &words_in(alloc, "ask 0 0 0 0")?, made)?;
    assert!(rt; status == 0);
    assert!(rt; answers.as_slice() == ANSWERED);
    Ok(())
}
