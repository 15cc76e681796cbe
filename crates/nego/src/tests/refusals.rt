//! Lines of refusals, and faults of the streams.

use crate::tests::calls::{Call, REDUCED, REFUSED, SET, answers_to};
use crate::tests::diagrams::SPLIT;
use nego_base::{Memory, Text};
use std::alloc::Global;
use std::process::Abort;
use std::test::Fail;

/// What is refused.
pub(crate) static REFUSALS: [Call; 14] = [
    Call {
        input: SPLIT,
        err: b"refused NotDeterministic start.go a\n",
        ..REFUSED
    },
    Call {
        words: "check",
        input: b"nego 1
agent a 4
agent b 2
atom only a b
out reply
case a<3 : a:=b
first only
last only
end
",
        err: b"refused diagram line 5 NotTotal only.reply 3 0\n",
        ..REFUSED
    },
    Call {
        words: "check",
        input: b"nego 1
agent a 0
agent b 2
atom only a b
out reply
case a<3 : a:=b
first only
last only
end
",
        err: b"refused diagram line 2 ZeroSize a\n",
        ..REFUSED
    },
    Call {
        words: "check",
        input: b"nego 1
agent a 25
agent b 41
atom only a b
out reply
case a<3 : a:=b
first only
last only
end
",
        err: b"refused diagram line 3 JointTooLarge b\n",
        ..REFUSED
    },
    Call {
        words: "check",
        input: b"nego 1
agent a0 1
agent a1 1
agent a2 1
agent a3 1
agent a4 1
agent a5 1
agent a6 1
agent a7 1
agent a8 1
agent a9 1
agent a10 1
agent a11 1
agent a12 1
agent a13 1
agent a14 1
agent a15 1
agent a16 1
first x
last x
end
",
        err: b"refused diagram line 18 TooMany agents\n",
        ..REFUSED
    },
    Call {
        input: b"nego 3
agent a 2
atom only a
out s\x07t
case : a:=1
first only
last only
end
",
        err: b"refused diagram line 4 column 6 Byte\n",
        ..REFUSED
    },
    // The fault of shape comes before the second next atom, and faults of the grammar before both.
    Call {
        input: b"nego 1
agent a 2
atom start a
out go
case : a:=2
next p a
next q a
atom p a
out o
case :
next end a
atom q a
out o
case :
next end a
atom end a
out ok
case :
first start
last end
end
",
        err: b"refused diagram line 5 ValueTooLarge start.go a\n",
        ..REFUSED
    },
    Call {
        words: "check",
        input: b"nego 1
agent a 2
atom start a
out go
case : a:=2
next p a
next q a
atom p a
out o
case :
next end a
atom q a
out o
case :
next end a
atom end a
out ok
case :
first start
last end
end
",
        err: b"refused diagram line 5 ValueTooLarge start.go a\n",
        ..REFUSED
    },
    Call {
        input: b"nego 1
agent a 02
atom start a
out go
case : a:=2
next p a
next q a
atom p a
out o
case :
next end a
atom q a
out o
case :
next end a
atom end a
out ok
case :
first start
last end
end
",
        err: b"refused diagram line 2 column 9 Number\n",
        ..REFUSED
    },
    Call {
        input: b"nego 1
agent a 2
atom start a
out go
case : a:=2
next p a
next q a
atom p a
out o
case :
next end a
atom q a
out o
case :
next end a
atom end a
out Ok
case :
first start
last end
end
",
        err: b"refused diagram line 17 column 5 Name\n",
        ..REFUSED
    },
    Call {
        input: b"",
        err: b"refused diagram line 1 NoEnd\n",
        ..REFUSED
    },
    Call {
        hashes: 262_145,
        input: b"",
        err: b"refused diagram TooLong\n",
        ..REFUSED
    },
    Call {
        hashes: 262_140,
        input: b"\nend",
        err: b"refused diagram line 1 column 1025 Line\n",
        ..REFUSED
    },
    Call {
        hashes: 262_140,
        input: b"
end
",
        err: b"refused diagram TooLong\n",
        ..REFUSED
    },
];

/// A line of `set.nego`, counted from 1, with what stands in its place, and what is told of it.
type Row = (usize, &'static [u8], &'static [u8]);

static LINES: [Row; 12] = [
    (1, b"nego 3\n", b"refused diagram line 1 column 6 Version\n"),
    (
        2,
        b"agent a 01\n",
        b"refused diagram line 2 column 9 Number\n",
    ),
    (2, b"agent A 2\n", b"refused diagram line 2 column 7 Name\n"),
    (
        5,
        b"case a=0 a:=1\n",
        b"refused diagram line 5 column 1 Case\n",
    ),
    (3, b"foo\n", b"refused diagram line 3 column 1 Word\n"),
    (2, b"agent a\n", b"refused diagram line 2 column 8 Count\n"),
    (
        2,
        b"agent a 2 3\n",
        b"refused diagram line 2 column 11 Count\n",
    ),
    (
        6,
        b"first other\n",
        b"refused diagram line 6 Unknown other\n",
    ),
    (
        5,
        b"case : a:=2\n",
        b"refused diagram line 5 ValueTooLarge only.set a\n",
    ),
    (
        2,
        b"agent a 65\n",
        b"refused diagram line 2 SizeTooLarge a\n",
    ),
    (
        2,
        b"agent a 2\nagent b 1\n",
        b"refused diagram line 7 FirstLacks b\n",
    ),
    (
        5,
        b"case a=0 : a:=1\n",
        b"refused diagram line 4 NotTotal only.set 1\n",
    ),
];

/// Faults of the source and of the sinks.
pub(crate) static FAULTS: [Call; 4] = [
    Call {
        source_fails: &[0],
        status: 5,
        out: b"",
        err: b"read fault\n",
        left: SET,
        ..REDUCED
    },
    Call {
        out_fails: &[0],
        status: 6,
        out: b"",
        err: b"write fault\n",
        ..REDUCED
    },
    Call {
        out_fails: &[0],
        err_fails: &[0],
        status: 6,
        out: b"",
        ..REDUCED
    },
    Call {
        input: b"",
        err_fails: &[0],
        status: 6,
        ..REFUSED
    },
];

/// That each of these lines is refused so.
pub(crate) fn lines_are_refused(rt: &impl Abort, alloc: Global) -> Result<(), Fail> {
    for (i, (n, line, want)) in LINES.iter().enumerate() {
        let call = Call {
            err: want,
            ..REFUSED
        };
        answers_to(rt, alloc, &call, with_line(alloc, *n, line)?, "line", i)?;
    }
    Ok(())
}

/// `set.nego` with this in place of its line of that number.
fn with_line(alloc: Global, n: usize, line: &[u8]) -> Result<Text, Memory> {
    let mut text = Text::new(alloc);
    for (i, old) in SET.split_inclusive(|b| *b == b'\n').enumerate() {
        text.extend_from_slice(if i + 1 == n { line } else { old })?;
    }
    Ok(text)
}
