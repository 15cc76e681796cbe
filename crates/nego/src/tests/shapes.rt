//! What `check` tells of texts: the line of the first fault of shape, or the form.

use crate::tests::calls::{Call, REDUCED, REFUSED, answers_to};
use crate::tests::data::DATA;
use crate::tests::linking::LINKING;
use crate::tests::naming::NAMING;
use nego_base::Text;
use std::alloc::Global;
use std::process::Abort;
use std::test::Fail;

/// A text, and what `check` tells of it.
pub(crate) type Row = (&'static [u8], &'static [u8]);

/// Whether diagrams are deterministic, and their order or a cycle.
static FORMS: [Row; 4] = [
    // Atom t comes as soon as s is placed, p as soon as t is, before u, which could be placed with it.
    (
        b"nego 1
agent a 1
atom e a
out x
case :
atom p a
out x
case :
next e a
atom q a
out x
case :
next e a
atom s a
out x
case :
next t a
out y
case :
next u a
atom t a
out x
case :
next p a
atom u a
out x
case :
next q a
first s
last e
end
",
        b"agents 1
atoms 6
outcomes 7
joint 1
deterministic
acyclic s t p u q e
",
    ),
    // Next lines name z before y, whose atom line stands before that of z: y is placed first.
    (
        b"nego 1
agent a 1
agent b 1
atom s a b
out x
case :
next e b
next z a
out y
case :
next e a
next y b
atom y b
out x
case :
next e b
atom z a
out x
case :
next e a
atom e a b
out x
case :
first s
last e
end
",
        b"agents 2
atoms 4
outcomes 5
joint 1
deterministic
acyclic s y z e
",
    ),
    // Atom s alone is placed. The search begins with e, behind the cycles, and goes to r, p, q and again r.
    (
        b"nego 1
agent a 1
atom e a
out x
case :
atom s a
out x
case :
next q a
atom p a
out x
case :
next r a
atom q a
out x
case :
next p a
out y
case :
next t a
atom r a
out x
case :
next e a
out y
case :
next q a
atom t a
out x
case :
next u a
out y
case :
next p a
atom u a
out x
case :
next e a
out y
case :
next t a
first s
last e
end
",
        b"agents 1
atoms 7
outcomes 11
joint 1
deterministic
cyclic p r q
",
    ),
    // Agents b and c have two next atoms after p.x, and a and b after p.y.
    (
        b"nego 1
agent a 1
agent b 1
agent c 1
atom m a b c
out x
case :
next p a
next p b c
atom p a b c
out x
case :
next n a c b
next m c b
out y
case :
next n a b c
next p b a
atom n a b c
out x
case :
first m
last n
end
",
        b"agents 3
atoms 3
outcomes 4
joint 1
not deterministic p.x b
cyclic m p
",
    ),
];

/// Of several faults of one kind, the first place.
static PLACES: [Row; 7] = [
    // Two outcomes miss an agent.
    (
        b"nego 1
agent a 2
agent b 2
atom m a b
out x
case :
next n b
out y
case :
next n a
atom n a b
out z
case :
first m
last n
end
",
        b"refused diagram line 5 NextMissing m.x a\n",
    ),
    // Three next lines name a stranger of the next atom.
    (
        b"nego 1
agent a 2
agent b 2
atom m a b
out x
next n a b
next o a
next p a
out y
next n a b
next o a
atom o b
out w
next n b
atom p b
out v
next n b
atom n a b
out z
first m
last n
end
",
        b"refused diagram line 7 NextStranger m.x a o\n",
    ),
    // The last atom has three next lines.
    (
        b"nego 1
agent a 2
atom m a
out x
next k a
next m a
out y
next m a
atom k a
out w
next m a
first m
last m
end
",
        b"refused diagram line 5 LastLeads m.x\n",
    ),
    // Three cases name an agent that is no party: in a test, in an assignment, and in a test of the next outcome.
    (
        b"nego 1
agent a 2
agent b 2
atom m a b
out x
next o b
next n a
atom o b
out y
case a=0 :
case : a:=1
next n b
out z
case a=1 :
next n b
atom n a b
out w
first m
last n
end
",
        b"refused diagram line 10 NotParty o.y a\n",
    ),
    // Three cases assign too much, that of the second agent first.
    (
        b"nego 1
agent a 2
agent b 2
atom m a b
out x
case : b:=2
case : a:=2
out y
case : a:=3
first m
last m
end
",
        b"refused diagram line 6 ValueTooLarge m.x b\n",
    ),
    // Neither the atom nor the agent of a next line is declared.
    (
        b"nego 1
agent a 2
atom m a
out x
next zz yy
first m
last m
end
",
        b"refused diagram line 5 Unknown zz\n",
    ),
    // Two parties stand twice in an atom line, the later declared first.
    (
        b"nego 1
agent a 2
agent b 2
atom m a b b a
out x
first m
last m
end
",
        b"refused diagram line 4 Twice b\n",
    ),
];

/// A text that is made, and what `check` tells of it.
struct Made {
    /// What stands before the agents.
    head: &'static [u8],
    /// How many agents there are. Each has one value.
    agents: u32,
    /// How many outcomes the atom has that is both the first and the last.
    outcomes: u32,
    /// How many other atoms there are. Each has one party, and leads it to the last atom.
    others: u32,
    /// How many outcomes each other atom has.
    each: u32,
    want: &'static [u8],
}

/// One agent, and one atom with one outcome.
const LEAST: Made = Made {
    head: b"nego 1\n",
    agents: 1,
    outcomes: 1,
    others: 0,
    each: 1,
    want: b"agents 1
atoms 1
outcomes 1
joint 1
deterministic
acyclic l
",
};

/// The kinds of too many in the same way, and the limits.
static MADE: [Made; 10] = [
    // Nothing too many.
    LEAST,
    // NoAgent with TooMany(Atoms).
    Made {
        agents: 0,
        others: 64,
        want: b"refused diagram line 1 NoAgent\n",
        ..LEAST
    },
    // TooMany(Agents), of 17.
    Made {
        agents: 17,
        want: b"refused diagram line 18 TooMany agents\n",
        ..LEAST
    },
    // TooMany(Agents) with TooMany(Atoms). Agents stand before atoms in every text.
    Made {
        agents: 17,
        others: 64,
        want: b"refused diagram line 18 TooMany agents\n",
        ..LEAST
    },
    // TooMany(Atoms), of 65.
    Made {
        others: 64,
        want: b"refused diagram line 258 TooMany atoms\n",
        ..LEAST
    },
    // TooMany(Atoms) with TooMany(Outcomes) before it.
    Made {
        outcomes: 257,
        others: 64,
        want: b"refused diagram line 770 TooMany atoms\n",
        ..LEAST
    },
    // TooMany(Outcomes), of 257: of one atom, and of 64.
    Made {
        outcomes: 257,
        want: b"refused diagram line 516 TooMany outcomes\n",
        ..LEAST
    },
    Made {
        agents: 16,
        outcomes: 5,
        others: 63,
        each: 4,
        want: b"refused diagram line 845 TooMany outcomes\n",
        ..LEAST
    },
    // TooMany(Outcomes) with Twice before it.
    Made {
        head: b"nego 1
agent a0 1
",
        outcomes: 257,
        want: b"refused diagram line 517 TooMany outcomes\n",
        ..LEAST
    },
    // 16 agents, 64 atoms and 256 outcomes.
    Made {
        agents: 16,
        outcomes: 4,
        others: 63,
        each: 4,
        want: b"agents 16
atoms 64
outcomes 256
joint 1
deterministic
acyclic m0 m1 m2 m3 m4 m5 m6 m7 m8 m9 m10 m11 m12 m13 m14 m15 m16 m17 m18 m19 m20 m21 m22 m23 m24 m25 m26 m27 m28 m29 m30 m31 m32 m33 m34 m35 m36 m37 m38 m39 m40 m41 m42 m43 m44 m45 m46 m47 m48 m49 m50 m51 m52 m53 m54 m55 m56 m57 m58 m59 m60 m61 m62 l
",
        ..LEAST
    },
];

/// That `check` tells all this.
pub(crate) fn shapes_are_told(rt: &impl Abort, alloc: Global) -> Result<(), Fail> {
    table_is_told(rt, alloc, &FORMS, "form")?;
    table_is_told(rt, alloc, &NAMING, "naming")?;
    table_is_told(rt, alloc, &LINKING, "linking")?;
    table_is_told(rt, alloc, &DATA, "data")?;
    table_is_told(rt, alloc, &PLACES, "place")?;
    for (i, made) in MADE.iter().enumerate() {
        answers_to(
            rt,
            alloc,
            &checked(made.want),
            text_of(alloc, made)?,
            "made",
            i,
        )?;
    }
    Ok(())
}

/// The same of the texts of a table.
fn table_is_told(rt: &impl Abort, alloc: Global, rows: &[Row], table: &str) -> Result<(), Fail> {
    for (i, (text, want)) in rows.iter().enumerate() {
        answers_to(
            rt,
            alloc,
            &checked(want),
            Text::copy(alloc, text)?,
            table,
            i,
        )?;
    }
    Ok(())
}

/// The call of `check` that tells this: on `err` where it is the line of a refusal, else on `out`.
fn checked(want: &'static [u8]) -> Call {
    if want.starts_with(b"refused ") {
        return Call {
            words: "check",
            err: want,
            ..REFUSED
        };
    }
    Call {
        words: "check",
        out: want,
        ..REDUCED
    }
}

/// The text that is made so.
fn text_of(alloc: Global, made: &Made) -> Result<Text, Fail> {
    let mut text = Text::copy(alloc, made.head)?;
    add(alloc, &mut text, made.agents, "agent a", " 1\n")?;
    text.extend_from_slice(b"atom l")?;
    add(alloc, &mut text, made.agents, " a", "")?;
    add(alloc, &mut text, made.outcomes, "\nout x", "\ncase :")?;
    for n in 0..made.others {
        let atom = format!(in alloc; "\natom m{n} a0")?;
        text.extend_from_slice(atom.as_bytes())?;
        add(
            alloc,
            &mut text,
            made.each,
            "\nout x",
            "\ncase :\nnext l a0",
        )?;
    }
    text.extend_from_slice(
        b"
first l
last l
end
",
    )?;
    Ok(text)
}

/// Puts the numbers below the count at the end, each between these.
fn add(alloc: Global, text: &mut Text, count: u32, before: &str, after: &str) -> Result<(), Fail> {
    for n in 0..count {
        let piece = format!(in alloc; "{before}{n}{after}")?;
        text.extend_from_slice(piece.as_bytes())?;
    }
    Ok(())
}
