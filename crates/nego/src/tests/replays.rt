//! Certificates that `replay` is given behind a diagram.

use crate::tests::calls::{Call, PURCHASE, REDUCED, SET, answers_to, told, words_in};
use crate::tests::diagrams::{LATER, SPLIT};
use nego_base::{Memory, Seq, Text};
use std::alloc::Global;
use std::process::Abort;
use std::test::Fail;

/// An atom that leads to itself for ever.
const FOR_EVER: &[u8] = b"nego 1
agent a 1
atom start a
out go
case :
next x a
atom x a
out u
case :
next x a
atom end a
out ok
case :
first start
last end
end
";

const REPLAYED: Call = Call {
    words: "replay",
    input: LATER,
    ..REDUCED
};

/// What stands behind the diagram of each call, and what is told of it.
pub(crate) static REPLAYS: [(&[u8], Call); 17] = [
    (
        b"certificate 1
shortcut 0 2
close
end
",
        Call {
            status: 1,
            out: b"rejected line 2 Guard\n",
            ..REPLAYED
        },
    ),
    (
        b"certificate 1
shortcut 0 1
shortcut 0 2
close
end
",
        Call {
            out: b"accepted uses 3
summary 1
node 0 base 0
node 1 base 1
node 2 base 2
node 3 base 3
node 4 then 0 1
node 5 then 4 2
node 6 then 5 3
final ok 6
end
",
            ..REPLAYED
        },
    ),
    (
        b"certificate 1
end
",
        Call {
            status: 1,
            out: b"not one 4\n",
            ..REPLAYED
        },
    ),
    (
        b"certificate 1
merge 0
end
",
        Call {
            status: 3,
            out: b"",
            err: b"refused certificate line 2 column 8 Count\n",
            ..REPLAYED
        },
    ),
    // The line of a use is counted with those that say nothing.
    (
        b"certificate 1
# first the later party

shortcut 0 1
shortcut 0 1
end
",
        Call {
            status: 1,
            out: b"rejected line 5 Guard\n",
            ..REPLAYED
        },
    ),
    // Some atoms are left.
    (
        b"certificate 1
shortcut 0 1
shortcut 0 2
end
",
        Call {
            status: 1,
            out: b"not one 2\n",
            ..REPLAYED
        },
    ),
    // Numbers that name nothing, and one that is too long.
    (
        b"certificate 1
merge 900 999999
end
",
        Call {
            status: 1,
            out: b"rejected line 2 Guard\n",
            ..REPLAYED
        },
    ),
    (
        b"certificate 1
shortcut 0 1000000
end
",
        Call {
            status: 3,
            out: b"",
            err: b"refused certificate line 2 column 12 Number\n",
            ..REPLAYED
        },
    ),
    // Behind the certificate nothing is taken.
    (
        b"certificate 1
end
sound uses 0
",
        Call {
            input: SET,
            out: b"accepted uses 0
summary 1
node 0 base 0
final set 0
end
",
            left: b"sound uses 0\n",
            ..REPLAYED
        },
    ),
    (
        b"certificate 1
close
end
",
        Call {
            status: 1,
            input: SET,
            out: b"rejected line 2 Guard\n",
            ..REPLAYED
        },
    ),
    // No certificate, another part, or one of another version.
    (
        b"",
        Call {
            status: 3,
            out: b"",
            err: b"refused certificate line 1 NoEnd\n",
            ..REPLAYED
        },
    ),
    (
        b"nego 1
end
",
        Call {
            status: 3,
            out: b"",
            err: b"refused certificate line 1 column 1 Word\n",
            ..REPLAYED
        },
    ),
    (
        b"certificate 2
end
",
        Call {
            status: 3,
            out: b"",
            err: b"refused certificate line 1 column 13 Version\n",
            ..REPLAYED
        },
    ),
    // A call of the source fails behind the diagram.
    (
        b"certificate 1
end
",
        Call {
            status: 5,
            input: SET,
            source_fails: &[23],
            out: b"",
            err: b"read fault\n",
            left: b"certificate 1\nend\n",
            ..REPLAYED
        },
    ),
    // What the diagram says comes first.
    (
        b"certificate 2
end
",
        Call {
            status: 3,
            input: SPLIT,
            out: b"",
            err: b"refused NotDeterministic start.go a\n",
            left: b"certificate 2\nend\n",
            ..REPLAYED
        },
    ),
    (
        b"certificate 2
end
",
        Call {
            status: 3,
            input: b"nego 2\nend\n",
            out: b"",
            err: b"refused diagram line 1 column 6 Version\n",
            left: b"certificate 2\nend\n",
            ..REPLAYED
        },
    ),
    (
        b"certificate 1
shortcut 0 1
shortcut 0 1
end
",
        Call {
            status: 1,
            input: FOR_EVER,
            out: b"not one 3\n",
            ..REPLAYED
        },
    ),
];

/// A certificate of as many shortcuts as a diagram's nodes allow, and one more.
fn long_certificate(alloc: Global) -> Result<Text, Memory> {
    let mut text = Text::copy(alloc, b"certificate 1\n")?;
    for _ in 0..19_998 {
        text.extend_from_slice(b"shortcut 0 1\n")?;
    }
    text.extend_from_slice(b"end\n")?;
    Ok(text)
}

/// That too many nodes are told with the line of their use, and that a certificate has a greatest length.
pub(crate) fn long_certificates_end(rt: &impl Abort, alloc: Global) -> Result<(), Fail> {
    let call = Call {
        status: 1,
        input: FOR_EVER,
        out: b"rejected line 19999 Nodes\n",
        ..REPLAYED
    };
    let mut input = Text::copy(alloc, FOR_EVER)?;
    input.extend_from_slice(&long_certificate(alloc)?)?;
    answers_to(rt, alloc, &call, input, "long certificate", 0)?;
    let call = Call {
        status: 3,
        out: b"",
        err: b"refused certificate TooLong\n",
        ..REPLAYED
    };
    let mut input = Text::copy(alloc, LATER)?;
    let hashes = Seq::from_vec(vec![in alloc; b'#'; 262_145]?);
    input.extend_from_slice(&hashes)?;
    answers_to(rt, alloc, &call, input, "long certificate", 1)
}

/// That what `reduce` prints of the diagram, behind the diagram, is replayed so: this front of the print is replaced by
/// this line, and what is behind it is the same.
fn is_replayed(
    rt: &impl Abort,
    alloc: Global,
    diagram: &[u8],
    front: &[u8],
    line: &[u8],
) -> Result<(), Fail> {
    let (status, reduction) = told(
        alloc,
        &words_in(alloc, "reduce")?,
        Text::copy(alloc, diagram)?,
    )?;
    assert!(rt; reduction.starts_with(front));
    let mut input = Text::copy(alloc, diagram)?;
    input.extend_from_slice(&reduction)?;
    let (again, replayed) = told(alloc, &words_in(alloc, "replay")?, input)?;
    assert!(rt; again == status.min(1));
    let mut wanted = Text::copy(alloc, line)?;
    if status == 0 {
        wanted.extend_from_slice(&reduction[front.len()..])?;
    }
    assert!(rt; replayed.as_slice() == wanted.as_slice());
    Ok(())
}

/// Diagrams, with the certificate and the verdict that `reduce` prints of each, and the line of `replay`.
static REDUCTIONS: [(&[u8], &[u8], &[u8]); 4] = [
    (
        SET,
        b"certificate 1\nend\nsound uses 0\n",
        b"accepted uses 0\n",
    ),
    (
        LATER,
        b"certificate 1
shortcut 0 1
shortcut 0 2
close
end
sound uses 3
",
        b"accepted uses 3\n",
    ),
    (
        PURCHASE,
        b"certificate 1
merge 2 3
iterate 1
shortcut 0 1
shortcut 4 3
shortcut 4 4
merge 4 5
shortcut 0 2
close
end
sound uses 8
",
        b"accepted uses 8\n",
    ),
    (
        FOR_EVER,
        b"certificate 1
shortcut 0 1
end
undecided stuck uses 1
",
        b"not one 3\n",
    ),
];

/// That what `reduce` prints is replayed behind its diagram.
pub(crate) fn reductions_are_replayed(rt: &impl Abort, alloc: Global) -> Result<(), Fail> {
    for (diagram, front, line) in REDUCTIONS.iter() {
        is_replayed(rt, alloc, diagram, front, line)?;
    }
    Ok(())
}
