//! Texts that are scanned, texts that are not, and numbers.
use crate::{Fault, FaultKind, Line, Lines, ScanAnswer, Text, number_of, scan};
use std::alloc::Global;
use std::process::Abort;
use std::test::Fail;

/// A word's line, its column and its bytes.
type Place = (u32, u32, &'static [u8]);

/// A text, how many lines it has, and its words.
type Good = (&'static [u8], u32, &'static [Place]);

static GOOD: [Good; 6] = [
    (b"", 0, &[]),
    (b"#\x01", 1, &[]),
    (b"a\n\n", 2, &[(1, 1, b"a")]),
    (
        b"nego 1\nend\n",
        2,
        &[(1, 1, b"nego"), (1, 6, b"1"), (2, 1, b"end")],
    ),
    (
        b"nego 1\r\n\n \t\r\n# c\n  # d \x01\n\t a  b#\t\nend",
        7,
        &[
            (1, 1, b"nego"),
            (1, 6, b"1"),
            (6, 3, b"a"),
            (6, 6, b"b#"),
            (7, 1, b"end"),
        ],
    ),
    (b" !~ \n\n~", 3, &[(1, 2, b"!~"), (3, 1, b"~")]),
];

/// A byte and how often it stands in front of the other bytes, and the line, the column and the kind of the fault.
type Bad = (u8, usize, &'static [u8], u32, u32, FaultKind);

static BAD: [Bad; 14] = [
    (b'x', 0, b"\x80", 1, 1, FaultKind::Byte),
    (b'x', 1, b"\x1fb", 1, 2, FaultKind::Byte),
    (b'x', 1, b" \x7f\n", 1, 3, FaultKind::Byte),
    (b'x', 1, b"\r", 1, 2, FaultKind::Byte),
    (b'x', 1, b"\rb\n", 1, 2, FaultKind::Byte),
    (b'x', 1, b"\r\r\n", 1, 2, FaultKind::Byte),
    (b'#', 1, b"\x01\n\n\tb\x00", 3, 3, FaultKind::Byte),
    (b'x', 1023, b"\x01yz", 1, 1024, FaultKind::Byte),
    (b'x', 1024, b"\x01", 1, 1025, FaultKind::Line),
    (b'x', 1024, b"\r", 1, 1025, FaultKind::Line),
    (b'x', 1025, b"\n\x01", 1, 1025, FaultKind::Line),
    (b'x', 1024, b"\r\n\x01", 2, 1, FaultKind::Byte),
    (b'#', 1024, b"\x01", 1, 1025, FaultKind::Line),
    (b' ', 1025, b"", 1, 1025, FaultKind::Line),
];

/// How many words there are once the line's are taken from those that are wanted, or None where they aren't these.
fn behind(line: &Line, want: &[Place], from: usize) -> Option<usize> {
    let mut k = from;
    for word in line.words.iter() {
        if k >= want.len() {
            return None;
        }
        let (number, column, text) = want[k];
        if line.number != number || word.line != number || word.column != column || !word.is(text) {
            return None;
        }
        k += 1;
    }
    Some(k)
}

fn has_words(text: &Lines, want: &[Place]) -> bool {
    let mut k = 0;
    for line in text.lines.iter() {
        let Some(next) = behind(line, want, k) else {
            return false;
        };
        k = next;
    }
    k == want.len()
}

/// The byte so often, and the other bytes.
fn text_of(alloc: Global, byte: u8, times: usize, rest: &[u8]) -> Result<Text, Fail> {
    let mut text = Text::new(alloc);
    for _ in 0..times {
        text.push(byte)?;
    }
    text.extend_from_slice(rest)?;
    Ok(text)
}

fn good_texts(rt: &impl Abort, alloc: Global) -> Result<(), Fail> {
    for (bytes, count, words) in GOOD {
        assert!(rt; bytes.len() < 99);
        let text = scan(alloc, bytes)?;
        assert!(rt; text.count == count && has_words(&text, words));
    }
    Ok(())
}

fn bad_texts(rt: &impl Abort, alloc: Global) -> Result<(), Fail> {
    for (byte, times, rest, line, column, kind) in BAD {
        let text = text_of(alloc, byte, times, rest)?;
        assert!(rt; text.as_slice().len() < 1099);
        let fault = Fault { line, column, kind };
        assert!(rt; scan(alloc, text.as_slice()).err() == Some(ScanAnswer::Off(fault)));
    }
    Ok(())
}

fn numbers(rt: &impl Abort) {
    for (text, want) in [
        ("0", Some(0)),
        ("7", Some(7)),
        ("10", Some(10)),
        ("999999", Some(999_999)),
        ("1000000", None),
        ("", None),
        ("00", None),
        ("01", None),
        ("1a", None),
        ("+1", None),
        ("1 ", None),
    ] {
        assert!(rt; number_of(text.as_bytes()) == want);
    }
}

#[test]
fn texts_are_scanned(rt: HostRuntime) -> Result<(), Fail> {
    good_texts(&rt, rt.alloc())?;
    bad_texts(&rt, rt.alloc())?;
    numbers(&rt);
    let text = scan(rt.alloc(), b"\n a bc \r\n")?;
    assert!(rt; text.lines.len() == 1);
    let line = &text.lines[0];
    assert!(rt; line.number == 2 && line.length == 6);
    Ok(())
}
