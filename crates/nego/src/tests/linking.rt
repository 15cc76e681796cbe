//! Texts of which a fault of shape is one of parties or next atoms.

use crate::tests::shapes::Row;

/// The next kinds of fault, likewise.
pub(crate) static LINKING: [Row; 26] = [
    // Unknown: of a party, in a comparison, in an assignment, on a next line, and of the first and the last atom.
    (
        b"nego 1
agent a 2
atom m a
out x
case :
case b=0 :
first m
last m
end
",
        b"refused diagram line 6 Unknown b\n",
    ),
    (
        b"nego 1
agent a 2
atom m a b c
out x
first m
last m
end
",
        b"refused diagram line 3 Unknown b\n",
    ),
    (
        b"nego 1
agent a 2
atom m a
out x
case a=b c=0 : d:=a
first m
last m
end
",
        b"refused diagram line 5 Unknown b\n",
    ),
    (
        b"nego 1
agent a 2
atom m a
out x
case : a:=e-1 d:=a
first m
last m
end
",
        b"refused diagram line 5 Unknown e\n",
    ),
    (
        b"nego 1
agent a 2
agent b 2
atom m a b
out x
case : a:=b
case : c:=a
next n a
first m
last m
end
",
        b"refused diagram line 7 Unknown c\n",
    ),
    (
        b"nego 1
agent a 2
atom m a
out x
next a a
first m
last m
end
",
        b"refused diagram line 5 Unknown a\n",
    ),
    (
        b"nego 1
agent a 2
atom m a
out x
next m m
first m
last m
end
",
        b"refused diagram line 5 Unknown m\n",
    ),
    (
        b"nego 1
agent a 2
atom m a
first n
last o
end
",
        b"refused diagram line 4 Unknown n\n",
    ),
    (
        b"nego 1
agent a 2
atom m a
first m
last o
end
",
        b"refused diagram line 5 Unknown o\n",
    ),
    // Unknown with NoParty before it.
    (
        b"nego 1
agent a 2
atom k
out x
case :
atom m a zz
out y
case :
first m
last m
end
",
        b"refused diagram line 6 Unknown zz\n",
    ),
    // NoParty.
    (
        b"nego 1
agent a 2
atom m a
out x
case :
atom n
out y
case :
first m
last m
end
",
        b"refused diagram line 6 NoParty n\n",
    ),
    // NoParty with NoOutcome before it.
    (
        b"nego 1
agent a 2
atom m a
atom n
first m
last n
end
",
        b"refused diagram line 4 NoParty n\n",
    ),
    // NoOutcome.
    (
        b"nego 1
agent a 2
atom m a
first m
last m
end
",
        b"refused diagram line 3 NoOutcome m\n",
    ),
    // NoOutcome with FirstLacks. The first atom is named behind all atoms in every text.
    (
        b"nego 1
agent a 2
agent b 2
atom m a
out x
case :
next l a
atom l a b
first m
last l
end
",
        b"refused diagram line 8 NoOutcome l\n",
    ),
    // FirstLacks, of two agents.
    (
        b"nego 1
agent a 2
agent b 2
agent c 2
atom m a
out x
case :
next l a
atom l a b c
out y
case :
first m
last l
end
",
        b"refused diagram line 12 FirstLacks b\n",
    ),
    // FirstLacks with LastLacks, of a lesser agent and of the same. The first atom is named before the last in every text.
    (
        b"nego 1
agent a 2
agent b 2
atom m a
out x
case :
next m a
atom l b
out y
case :
first m
last l
end
",
        b"refused diagram line 11 FirstLacks b\n",
    ),
    (
        b"nego 1
agent a 2
agent b 2
agent c 2
atom m a
out x
first m
last m
end
",
        b"refused diagram line 7 FirstLacks b\n",
    ),
    // LastLacks.
    (
        b"nego 1
agent a 2
agent b 2
atom m a b
out x
case :
next m a
next n b
atom n b
out y
case :
first m
last n
end
",
        b"refused diagram line 13 LastLacks a\n",
    ),
    // LastLacks with NextMissing before it.
    (
        b"nego 1
agent a 2
agent b 2
atom m a b
out x
case :
atom n a
out y
case :
first m
last n
end
",
        b"refused diagram line 11 LastLacks b\n",
    ),
    (
        b"nego 1
agent a 2
agent b 2
atom m a b
out x
atom n b
out y
first m
last n
end
",
        b"refused diagram line 9 LastLacks a\n",
    ),
    // NextMissing, of two agents and of one.
    (
        b"nego 1
agent a 2
agent b 2
atom m b a
out x
case :
atom n a b
out y
case :
first m
last n
end
",
        b"refused diagram line 5 NextMissing m.x a\n",
    ),
    (
        b"nego 1
agent a 2
agent b 2
atom m b a
out x
next n a b
out y
next n b
atom n b a
out z
first m
last n
end
",
        b"refused diagram line 7 NextMissing m.y a\n",
    ),
    // NextMissing with NextStranger before it.
    (
        b"nego 1
agent a 2
agent b 2
atom m a b
out x
case :
next k a b
atom k b
out y
case :
atom n a b
out z
case :
first m
last n
end
",
        b"refused diagram line 9 NextMissing k.y b\n",
    ),
    // NextStranger: of two agents, of no party of the next atom, and of no party of the outcome's atom.
    (
        b"nego 1
agent a 2
agent b 2
agent c 2
atom m a b c
out x
case :
next k c b a
atom k c
out y
case :
next n c
atom n a b c
out z
case :
first m
last n
end
",
        b"refused diagram line 8 NextStranger m.x a k\n",
    ),
    (
        b"nego 1
agent a 2
agent b 2
atom m b a
out x
next o b
next o a
atom n b a
out z
atom o b
out y
next n b
first m
last n
end
",
        b"refused diagram line 7 NextStranger m.x a o\n",
    ),
    (
        b"nego 1
agent a 2
agent b 2
atom m b a
out x
next o b
next n a
atom n b a
out z
atom o b
out y
next n b a
first m
last n
end
",
        b"refused diagram line 12 NextStranger o.y a n\n",
    ),
];
