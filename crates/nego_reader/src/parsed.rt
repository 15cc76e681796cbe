//! What the text of a diagram says, each word with its place. A word inside of a bigger one, as an agent's name in a
//! comparison, has the place of its own first byte.

use nego_base::{Op, Seq, Word};

/// A diagram as its text spells it.
#[derive(Debug, Drop)]
pub struct Parsed {
    pub agents: Seq<PAgent>,
    pub atoms: Seq<PAtom>,
    /// The name of the first atom.
    pub first: Word,
    /// The name of the last atom.
    pub last: Word,
}

/// An agent, and the size of its data.
#[derive(Debug, Drop)]
pub struct PAgent {
    pub name: Word,
    pub size: u32,
}

/// An atom, its parties and its outcomes.
#[derive(Debug, Drop)]
pub struct PAtom {
    pub name: Word,
    pub parties: Seq<Word>,
    pub outs: Seq<POut>,
}

/// An outcome, its cases, and where it sends the agents.
#[derive(Debug, Drop)]
pub struct POut {
    pub name: Word,
    pub cases: Seq<PCase>,
    pub nexts: Seq<PNext>,
}

/// An atom to which the agents may go next.
#[derive(Debug, Drop)]
pub struct PNext {
    pub atom: Word,
    pub agents: Seq<Word>,
}

/// A case of an outcome: the comparisons that it demands, and what it assigns.
#[derive(Debug, Drop)]
pub struct PCase {
    pub tests: Seq<PTest>,
    pub sets: Seq<PSet>,
}

/// A comparison of an agent's value.
#[derive(Debug, Drop)]
pub struct PTest {
    pub left: Word,
    pub op: Op,
    pub right: PRight,
}

/// The right side of a comparison: a number up to 999,999, or an agent.
#[derive(Debug, Drop)]
pub enum PRight {
    Number(u32),
    Name(Word),
}

/// An assignment to an agent.
#[derive(Debug, Drop)]
pub struct PSet {
    pub agent: Word,
    pub term: PTerm,
}

/// What is assigned: any value, a number up to 999,999, or an agent's value before plus or minus such a number. A name
/// alone is the name plus 0.
#[derive(Debug, Drop)]
pub enum PTerm {
    Any,
    Number(u32),
    Plus(Word, u32),
    Minus(Word, u32),
}
