//! Schedules that `run` is given behind a diagram.

use crate::tests::calls::{Call, PURCHASE, REDUCED, SET, answers_to};
use crate::tests::diagrams::SPLIT;
use nego_base::{Memory, Text};
use std::alloc::Global;
use std::process::Abort;
use std::test::Fail;

/// A turn that is repeated, or stopped by the party that follows.
const TURNS: &[u8] = b"nego 1
agent a 4
agent b 2
atom turn a b
out again
case : a:=a+1
next turn a b
out stop
case : b:=1
next end a b
atom end a b
out ok
case :
first turn
last end
end
";

/// Two agents who meet once.
const MEET: &[u8] = b"nego 1
agent a 1
agent b 1
atom meet a b
out ok
case :
first meet
last meet
end
";

const PLAYED: Call = Call {
    words: "run 0 0",
    input: TURNS,
    out: b"",
    ..REDUCED
};

/// What stands behind the diagram of each call, and what is told of it.
pub(crate) static SCHEDULES: [(&[u8], Call); 25] = [
    // Repeats and old messages.
    (
        b"schedule 1
tell b
give 0
give 0
give 0
decide a 0 0
give 0
give 1
give 1
tell b
give 2
give 0
decide a 1 0
give 3
give 1
tell b
give 4
decide a 0 0
give 5
give 3
give 2
end
",
        Call {
            out: b"world 1
events 20
sent 6
did turn again 1 0
did turn stop 1 1
did end ok 1 1
agent a done 1 records 3
decision turn again a:0:1 b:0:0
decision turn stop a:1:1 b:1:1
decision end ok a:2:1 b:2:1
agent b done 1 records 3
move turn again 0
move turn stop 1
move end ok 1
finished 2 of 2
",
            ..PLAYED
        },
    ),
    // Stopped after the record.
    (
        b"schedule 1
tell b
give 0
decide_kept a 1 0
tell b
give 0
give 1
end
",
        Call {
            out: b"world 1
events 6
sent 2
did turn stop 0 1
agent a at end 0 records 1
decision turn stop a:0:0 b:0:1
agent b at end 1 records 1
move turn stop 1
finished 0 of 2
",
            ..PLAYED
        },
    ),
    // Each way to be stopped, and what is then given, told or decided again.
    (
        b"schedule 1
tell b
give_lost 0
give 0
stop a
give 0
decide_lost a 1 0
give 0
decide a 1 0
give_lost 1
give_kept 1
give 1
tell b
give 2
decide_kept a 0 0
give 2
give 3
end
",
        Call {
            out: b"world 1
events 16
sent 4
did turn stop 0 1
did end ok 0 1
agent a done 0 records 2
decision turn stop a:0:0 b:0:1
decision end ok a:1:0 b:1:1
agent b done 1 records 2
move turn stop 1
move end ok 1
finished 2 of 2
",
            ..PLAYED
        },
    ),
    (
        b"schedule 1
end
",
        Call {
            out: b"world 1
events 0
sent 0
agent a at turn 0 records 0
agent b at turn 0 records 0
finished 0 of 2
",
            ..PLAYED
        },
    ),
    // The purchase.
    (
        b"schedule 1
tell seller
tell bank
tell carrier
give 0
give 1
give 2
decide buyer 0 0
give 3
give 4
give 5
tell seller
give 6
decide buyer 1 0
give 7
tell seller
tell bank
tell carrier
give 8
give 9
give 10
decide buyer 0 0
give 11
give 12
give 13
tell bank
tell carrier
give 14
give 15
decide seller 0 0
give 16
decide buyer 0 0
give 17
tell seller
tell bank
tell carrier
give 18
give 19
give 20
decide buyer 0 0
give 21
give 22
give 23
end
",
        Call {
            words: "run 0 2 0 0",
            input: PURCHASE,
            out: b"world 1
events 42
sent 24
did open go 0 2 0 0
did talk agree 2 2 0 0
did deal proceed 2 2 0 0
did ship sent 2 2 0 1
did pay paid 2 2 1 1
did close delivered 2 2 1 1
agent buyer done 2 records 5
decision open go buyer:0:0 seller:0:2 bank:0:0 carrier:0:0
decision talk agree buyer:1:2 seller:1:2
decision deal proceed buyer:2:2 seller:2:2 bank:1:0 carrier:1:0
decision pay paid buyer:3:2 bank:2:1
decision close delivered buyer:4:2 seller:4:2 bank:3:1 carrier:3:1
agent seller done 2 records 5
move open go 2
move talk agree 2
move deal proceed 2
decision ship sent seller:3:2 carrier:2:1
move close delivered 2
agent bank done 1 records 4
move open go 0
move deal proceed 0
move pay paid 1
move close delivered 1
agent carrier done 1 records 4
move open go 0
move deal proceed 0
move ship sent 1
move close delivered 1
finished 4 of 4
",
            ..PLAYED
        },
    ),
    // A schedule with what `node` tells behind it, which isn't taken.
    (
        b"schedule 1
tell b
give 0
decide a 0 0
give 1
end
turns 2
foreign 2
link_faults 1
",
        Call {
            input: MEET,
            out: b"world 1
events 4
sent 2
did meet ok 0 0
agent a done 0 records 1
decision meet ok a:0:0 b:0:0
agent b done 0 records 1
move meet ok 0
finished 2 of 2
",
            left: b"turns 2\nforeign 2\nlink_faults 1\n",
            ..PLAYED
        },
    ),
    // Events that are refused, by the line and why.
    (
        b"schedule 1
decide a 0 0
end
",
        Call {
            status: 3,
            err: b"refused schedule line 2 Waits b\n",
            ..PLAYED
        },
    ),
    (
        b"schedule 1
give 0
end
",
        Call {
            status: 3,
            err: b"refused schedule line 2 NoMessage 0\n",
            ..PLAYED
        },
    ),
    (
        b"schedule 1
tell b
decide b 0 0
end
",
        Call {
            status: 3,
            err: b"refused schedule line 3 NotLeader\n",
            ..PLAYED
        },
    ),
    (
        b"schedule 1
# decided once

decide a 0 0
decide_lost a 0 0
end
",
        Call {
            status: 3,
            words: "run 0",
            input: SET,
            err: b"refused schedule line 5 Finished\n",
            ..PLAYED
        },
    ),
    // After a stop nothing is held.
    (
        b"schedule 1
tell b
give 0
stop a
decide_kept a 0 0
end
",
        Call {
            status: 3,
            err: b"refused schedule line 5 Waits b\n",
            ..PLAYED
        },
    ),
    (
        b"schedule 1
tell b
give_kept 7
end
",
        Call {
            status: 3,
            err: b"refused schedule line 3 NoMessage 7\n",
            ..PLAYED
        },
    ),
    // Faults of the text, which come before any event.
    (
        b"schedule 1
decide a 0 0
tell c
end
",
        Call {
            status: 3,
            err: b"refused schedule line 3 column 6 Agent\n",
            ..PLAYED
        },
    ),
    (
        b"schedule 1
tell B
end
",
        Call {
            status: 3,
            err: b"refused schedule line 2 column 6 Name\n",
            ..PLAYED
        },
    ),
    (
        b"schedule 1
give 01
end
",
        Call {
            status: 3,
            err: b"refused schedule line 2 column 6 Number\n",
            ..PLAYED
        },
    ),
    (
        b"schedule 1
decide_lost a 0
end
",
        Call {
            status: 3,
            err: b"refused schedule line 2 column 16 Count\n",
            ..PLAYED
        },
    ),
    (
        b"schedule 1
stop b b
end
",
        Call {
            status: 3,
            err: b"refused schedule line 2 column 8 Count\n",
            ..PLAYED
        },
    ),
    (
        b"schedule 1
hold b
end
",
        Call {
            status: 3,
            err: b"refused schedule line 2 column 1 Word\n",
            ..PLAYED
        },
    ),
    (
        b"schedule 2
end
",
        Call {
            status: 3,
            err: b"refused schedule line 1 column 10 Version\n",
            ..PLAYED
        },
    ),
    (
        b"certificate 1
end
",
        Call {
            status: 3,
            err: b"refused schedule line 1 column 1 Word\n",
            ..PLAYED
        },
    ),
    (
        b"schedule 1
tell b
",
        Call {
            status: 3,
            err: b"refused schedule line 3 NoEnd\n",
            ..PLAYED
        },
    ),
    // What comes before the schedule leaves it unread.
    (
        b"schedule 2
end
",
        Call {
            status: 3,
            words: "run 0",
            err: b"refused StartCount 1\n",
            left: b"schedule 2\nend\n",
            ..PLAYED
        },
    ),
    (
        b"schedule 2
end
",
        Call {
            status: 3,
            words: "run 3 2",
            err: b"refused StartTooLarge b\n",
            left: b"schedule 2\nend\n",
            ..PLAYED
        },
    ),
    (
        b"schedule 2
end
",
        Call {
            status: 3,
            input: SPLIT,
            err: b"refused NotDeterministic start.go a\n",
            left: b"schedule 2\nend\n",
            ..PLAYED
        },
    ),
    // A call of the source fails behind the diagram.
    (
        b"schedule 1
end
",
        Call {
            status: 5,
            words: "run 0",
            input: SET,
            source_fails: &[23],
            err: b"read fault\n",
            left: b"schedule 1\nend\n",
            ..PLAYED
        },
    ),
];

/// A schedule of so many events, in which an agent stops again and again.
fn long_schedule(alloc: Global, events: usize) -> Result<Text, Memory> {
    let mut text = Text::copy(alloc, SET)?;
    text.extend_from_slice(b"schedule 1\n")?;
    for _ in 0..events {
        text.extend_from_slice(b"stop a\n")?;
    }
    text.extend_from_slice(b"end\n")?;
    Ok(text)
}

/// That a schedule has a greatest number of events.
pub(crate) fn long_schedules_end(rt: &impl Abort, alloc: Global) -> Result<(), Fail> {
    let call = Call {
        words: "run 0",
        out: b"world 1
events 10000
sent 0
agent a at only 0 records 0
finished 0 of 1
",
        ..PLAYED
    };
    answers_to(
        rt,
        alloc,
        &call,
        long_schedule(alloc, 10_000)?,
        "long schedule",
        0,
    )?;
    let call = Call {
        status: 3,
        words: "run 0",
        err: b"refused schedule line 10002 column 1 Many\n",
        ..PLAYED
    };
    answers_to(
        rt,
        alloc,
        &call,
        long_schedule(alloc, 10_001)?,
        "long schedule",
        1,
    )
}
