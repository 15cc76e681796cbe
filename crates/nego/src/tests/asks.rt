//! The answers of `ask`.

use crate::tests::calls::{Call, PURCHASE, REDUCED, REFUSED};
use crate::tests::diagrams::{DEAD, FINALS, FLIP, FORK, LOOP, ROUND, SET_AND_ADD, SPLIT, UNION};

const ASKED: Call = Call {
    words: "ask 0",
    ..REDUCED
};

const NOT_STARTED: Call = Call {
    input: FORK,
    ..REFUSED
};

/// Two agents go round until the one stops, which the other is told.
const TURNS: &[u8] = b"nego 1
agent a 4
agent b 2
atom turn a b
out again
case : a:=a+1
next turn a b
out stop
case : b:=1
next end a b
atom end a b
out ok
case :
first turn
last end
end
";

pub(crate) static ASKS: [Call; 17] = [
    Call {
        input: SET_AND_ADD,
        out: b"ok 2\n",
        ..ASKED
    },
    Call {
        words: "ask 2",
        input: UNION,
        out: b"ok 0\nok 2\n",
        ..ASKED
    },
    Call {
        words: "ask 0 1 0",
        input: FORK,
        out: b"ok 1 0 1\n",
        ..ASKED
    },
    Call {
        input: FINALS,
        out: b"accept 0\naccept 1\nreject 0\n",
        ..ASKED
    },
    Call {
        input: LOOP,
        out: b"ok 0\nok 1\nok 2\nok 3\n",
        ..ASKED
    },
    Call {
        words: "ask 2",
        input: LOOP,
        out: b"ok 2\nok 3\n",
        ..ASKED
    },
    Call {
        words: "ask 0 0",
        input: TURNS,
        out: b"ok 0 1\nok 1 1\nok 2 1\nok 3 1\n",
        ..ASKED
    },
    Call {
        words: "ask 0 2 0 0",
        input: PURCHASE,
        out: b"delivered 0 2 0 0
delivered 0 2 1 1
delivered 2 2 0 0
delivered 2 2 1 1
delivered 3 2 0 0
delivered 3 2 1 1
cancelled 0 2 0 0
cancelled 2 2 0 0
cancelled 3 2 0 0
",
        ..ASKED
    },
    // The verdict, where more than one atom is left.
    Call {
        status: 1,
        input: DEAD,
        out: b"unsound uses 0\n",
        ..ASKED
    },
    Call {
        status: 4,
        input: ROUND,
        out: b"undecided stuck uses 3\n",
        ..ASKED
    },
    // Start values that aren't one for each agent, also where one is too large.
    Call {
        words: "ask 0 0",
        err: b"refused StartCount 2\n",
        input: FLIP,
        ..NOT_STARTED
    },
    Call {
        words: "ask 2",
        err: b"refused StartCount 1\n",
        ..NOT_STARTED
    },
    // Values that are too large, the first of them told.
    Call {
        words: "ask 2",
        err: b"refused StartTooLarge a\n",
        input: FLIP,
        ..NOT_STARTED
    },
    Call {
        words: "ask 1 2 999999",
        err: b"refused StartTooLarge b\n",
        ..NOT_STARTED
    },
    // The second next atom comes before the start values, and these before the verdict.
    Call {
        words: "ask 0 9",
        err: b"refused NotDeterministic start.go a\n",
        input: SPLIT,
        ..NOT_STARTED
    },
    Call {
        words: "ask 4",
        err: b"refused StartTooLarge a\n",
        input: DEAD,
        ..NOT_STARTED
    },
    Call {
        input: b"",
        err: b"refused diagram line 1 NoEnd\n",
        words: "ask 0 9",
        ..NOT_STARTED
    },
];
