//! Texts of which a fault of shape is one of names or counts.

use crate::tests::shapes::Row;

/// The first kinds of fault in their order. Each has texts without another fault, where there are such, and behind them
/// texts that have the next kind too, before it in the text where it can stand there.
pub(crate) static NAMING: [Row; 15] = [
    // No fault. Agents, atoms and the outcomes of each atom have names of their own, and a sum isn't a constant.
    (
        b"nego 1
agent a 2
agent b 2
atom f a b
out x
case a=0 : b:=a+1
case :
next l a b
atom l b a
out d
case : a:=1
first f
last l
end
",
        b"agents 2
atoms 2
outcomes 2
joint 4
deterministic
acyclic f l
",
    ),
    (
        b"nego 1
agent a 2
atom a a
out a
case :
next n a
next a a
atom n a
out a
case :
first a
last n
end
",
        b"agents 1
atoms 2
outcomes 2
joint 2
not deterministic a.a a
cyclic a
",
    ),
    (
        b"nego 1
agent a 2
agent b 3
atom m a b
out x
case : a:=a+999999 b:=a-999999
case a=999999 :
first m
last m
end
",
        b"agents 2
atoms 1
outcomes 1
joint 6
deterministic
acyclic m
",
    ),
    // NoAgent. It never stands alone: an atom has no party then, or the first atom isn't declared. No text has it with
    // TooMany(Agents).
    (
        b"nego 1
atom m
first m
last m
end
",
        b"refused diagram line 1 NoAgent\n",
    ),
    (
        b"# c

nego 1
first m
last m
end
",
        b"refused diagram line 1 NoAgent\n",
    ),
    // TooMany(Agents) with Twice. The other texts with too many are made, below.
    (
        b"nego 1
agent a 2
agent b 2
agent c 2
agent d 2
agent e 2
agent f 2
agent g 2
agent h 2
agent i 2
agent j 2
agent k 2
agent l 2
agent m 2
agent n 2
agent o 2
agent p 2
agent p 2
agent r 2
atom m
first m
last m
end
",
        b"refused diagram line 18 TooMany agents\n",
    ),
    // Twice: of agents, of atoms, of parties, of outcomes, of assignments, and of agents on next lines for one atom.
    (
        b"nego 1
agent a 2
agent a 2
atom m a
out x
case :
first m
last m
end
",
        b"refused diagram line 3 Twice a\n",
    ),
    (
        b"nego 1
agent a 2
agent b 2
agent a 0
atom m
first m
last m
end
",
        b"refused diagram line 4 Twice a\n",
    ),
    (
        b"nego 1
agent a 2
atom m a
atom n a
out x
atom m a
first m
last m
end
",
        b"refused diagram line 6 Twice m\n",
    ),
    (
        b"nego 1
agent a 2
atom m a zz zz
out x
out x
first m
last m
end
",
        b"refused diagram line 3 Twice zz\n",
    ),
    (
        b"nego 1
agent a 2
atom m a
out x
out y
out x
first m
last m
end
",
        b"refused diagram line 6 Twice x\n",
    ),
    (
        b"nego 1
agent a 2
atom m a
out x
case : a:=0 b:=1 a:=b b:=0
first m
last m
end
",
        b"refused diagram line 5 Twice a\n",
    ),
    (
        b"nego 1
agent a 2
atom m a
out x
next n a
next n a
atom n a
out y
first m
last n
end
",
        b"refused diagram line 6 Twice a\n",
    ),
    (
        b"nego 1
agent a 2
atom m a
out x
case :
next n a a
atom n a
out y
case :
first m
last n
end
",
        b"refused diagram line 6 Twice a\n",
    ),
    // Twice with Unknown before it.
    (
        b"nego 1
agent a 2
atom m a
out x
next m a b
next n a b
next m c b a
first m
last m
end
",
        b"refused diagram line 7 Twice b\n",
    ),
];
