//! Summaries that are read.

use nego_base::{Fault, FaultKind, ReadFaults, Text};
use nego_cert::read_summary;
use nego_expr::{Summary, print_summary};
use std::alloc::Global;
use std::process::Abort;
use std::test::Fail;

/// Texts of summaries as they are printed.
static PRINTED: [&[u8]; 2] = [
    b"summary 1
node 0 base 0
node 1 base 1
node 2 base 2
node 3 join 0 1
node 4 then 3 2
final ok 4
end
",
    b"summary 1
node 0 base 999999
node 1 star 0
final yes 0
final abcdefghijklmnopqrstuvw_ 1
end
",
];

/// Texts that are off the form, each with the line and the column of its first fault, and its kind.
static OFF: [(&[u8], u32, u32, FaultKind); 12] = [
    (b"summary 2\nend\n", 1, 9, FaultKind::Version),
    (b"summary 1\nend\n", 2, 1, FaultKind::Word),
    (b"summary 1\nnode 0 base 0\nend\n", 3, 1, FaultKind::Word),
    (
        b"summary 1\nnode 0\nfinal ok 0\nend\n",
        2,
        7,
        FaultKind::Count,
    ),
    (
        b"summary 1\nnode 1 both 0 0 0\nfinal ok 0\nend\n",
        2,
        8,
        FaultKind::Word,
    ),
    (
        b"summary 1\nnode 1 base 0 0\nfinal ok 0\nend\n",
        2,
        15,
        FaultKind::Count,
    ),
    (
        b"summary 1\nnode 1 base 0\nfinal ok 0\nend\n",
        2,
        6,
        FaultKind::Number,
    ),
    (
        b"summary 1\nnode 0 star 0\nfinal ok 0\nend\n",
        2,
        13,
        FaultKind::Number,
    ),
    (
        b"summary 1\nnode 0 base 0\nnode 1 join 0 1\nfinal ok 0\nend\n",
        3,
        15,
        FaultKind::Number,
    ),
    (
        b"summary 1\nnode 0 base 0\nfinal ok 1\nend\n",
        3,
        10,
        FaultKind::Number,
    ),
    (
        b"summary 1\nnode 0 base 0\nfinal ok 0\nfinal ok 1\nend\n",
        4,
        7,
        FaultKind::Name,
    ),
    (
        b"summary 1\nnode 0 base 0\nfinal ok 0\nnode 1 base 1\nend\n",
        4,
        1,
        FaultKind::Word,
    ),
];

/// The summary of a text that isn't long.
fn read(rt: &impl Abort, alloc: Global, text: &[u8]) -> Result<Summary, ReadFaults> {
    assert!(rt; text.len() < 1_000_000);
    read_summary(alloc, text)
}

/// A summary of so many nodes.
fn with_nodes(alloc: Global, count: u32) -> Result<Text, Fail> {
    let mut text = Text::copy(alloc, b"summary 1\n")?;
    for i in 0..count {
        let line = format!(in alloc; "node {i} base 0\n")?;
        text.extend_from_slice(line.as_bytes())?;
    }
    text.extend_from_slice(b"final ok 0\nend\n")?;
    Ok(text)
}

/// That the text is read, and printed again.
fn is_read(rt: &impl Abort, alloc: Global, text: &[u8]) -> Result<(), Fail> {
    let summary = read(rt, alloc, text)?;
    let again = print_summary(alloc, &summary)?;
    assert!(rt; again.as_slice() == text);
    Ok(())
}

/// That printed summaries are read as they were printed, and other texts have their faults.
pub(crate) fn summaries_are_read(rt: &impl Abort, alloc: Global) -> Result<(), Fail> {
    for text in PRINTED.iter() {
        is_read(rt, alloc, text)?;
    }
    let most = with_nodes(alloc, 20_000)?;
    is_read(rt, alloc, most.as_slice())?;
    for (text, line, column, kind) in OFF.iter() {
        let fault = read(rt, alloc, text).err();
        assert!(rt; fault == off(*line, *column, *kind));
    }
    let many = with_nodes(alloc, 20_001)?;
    let fault = read(rt, alloc, many.as_slice()).err();
    assert!(rt; fault == off(20_002, 6, FaultKind::Number));
    Ok(())
}

/// The fault of a text at this place.
fn off(line: u32, column: u32, kind: FaultKind) -> Option<ReadFaults> {
    Some(ReadFaults::Off(Fault { line, column, kind }))
}
