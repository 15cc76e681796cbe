//! Texts of which a fault of shape is one of cases or sizes.

use crate::tests::shapes::Row;

/// The last kinds of fault, likewise.
pub(crate) static DATA: [Row; 24] = [
    // NextStranger with LastLeads before it, at another atom and at the last.
    (
        b"nego 1
agent a 2
agent b 2
atom n a b
out z
case :
next m a b
atom m a b
out x
case :
next n a b
next k a
atom k b
out y
case :
next n b
first m
last n
end
",
        b"refused diagram line 12 NextStranger m.x a k\n",
    ),
    (
        b"nego 1
agent a 2
agent b 2
atom k b
out y
case :
next n b
atom n a b
out z
case :
next n a b
next k a b
first n
last n
end
",
        b"refused diagram line 12 NextStranger n.z a k\n",
    ),
    // LastLeads.
    (
        b"nego 1
agent a 2
atom m a
out x
case :
out y
case :
next m a
first m
last m
end
",
        b"refused diagram line 8 LastLeads m.y\n",
    ),
    (
        b"nego 1
agent a 2
atom m a
out x
out y
next m a
first m
last m
end
",
        b"refused diagram line 6 LastLeads m.y\n",
    ),
    // LastLeads with NotParty before it.
    (
        b"nego 1
agent a 2
agent b 2
atom m b a
out x
case :
next k b
next n a
atom k b
out y
case a=0 :
case :
next n b
atom n b a
out z
case :
next n a
first m
last n
end
",
        b"refused diagram line 17 LastLeads n.z\n",
    ),
    // NotParty, of two agents.
    (
        b"nego 1
agent a 2
agent b 2
agent c 2
atom m a b c
out x
case :
next k c
next n a b
atom k c
out y
case :
case b=a : c:=0
next n c
atom n a b c
out z
case :
first m
last n
end
",
        b"refused diagram line 13 NotParty k.y a\n",
    ),
    // NotParty with ZeroSize before it: in a comparison and in an assignment.
    (
        b"nego 1
agent a 0
agent b 0
atom m a b
out w
next o b
next n a
atom o b
out x
case :
case b=a :
next n b
atom n b a
out z
first m
last n
end
",
        b"refused diagram line 11 NotParty o.x a\n",
    ),
    (
        b"nego 1
agent a 0
agent b 0
atom m a b
out w
next o b
next n a
atom o b
out x
case : b:=a+0
next n b
atom n b a
out z
first m
last n
end
",
        b"refused diagram line 10 NotParty o.x a\n",
    ),
    // ZeroSize.
    (
        b"nego 1
agent a 2
agent b 0
atom m a b
out x
case :
first m
last m
end
",
        b"refused diagram line 3 ZeroSize b\n",
    ),
    // ZeroSize with SizeTooLarge before it.
    (
        b"nego 1
agent a 65
agent b 0
atom m a b
out x
case : a:=65
first m
last m
end
",
        b"refused diagram line 3 ZeroSize b\n",
    ),
    // SizeTooLarge, of 65.
    (
        b"nego 1
agent a 65
atom m a
out x
case :
first m
last m
end
",
        b"refused diagram line 2 SizeTooLarge a\n",
    ),
    // SizeTooLarge with JointTooLarge before it.
    (
        b"nego 1
agent a 64
agent b 64
agent c 65
atom m a b c
out x
case :
first m
last m
end
",
        b"refused diagram line 4 SizeTooLarge c\n",
    ),
    (
        b"nego 1
agent a 64
agent b 65
atom m a b
out x
case : a:=65
first m
last m
end
",
        b"refused diagram line 3 SizeTooLarge b\n",
    ),
    // JointTooLarge, of 1,025.
    (
        b"nego 1
agent a 25
agent b 41
atom m a b
out x
case :
first m
last m
end
",
        b"refused diagram line 3 JointTooLarge b\n",
    ),
    // JointTooLarge, of 64 values of each of 16 agents.
    (
        b"nego 1
agent a 64
agent b 64
agent c 64
agent d 64
agent e 64
agent f 64
agent g 64
agent h 64
agent i 64
agent j 64
agent k 64
agent l 64
agent m 64
agent n 64
agent o 64
agent p 64
atom m a b c d e f g h i j k l m n o p
out x
case :
first m
last m
end
",
        b"refused diagram line 3 JointTooLarge b\n",
    ),
    // JointTooLarge with ValueTooLarge. Agents stand before cases in every text.
    (
        b"nego 1
agent a 64
agent b 16
agent c 1
agent d 2
agent e 64
atom m a b c d e
out x
case : a:=65
first m
last m
end
",
        b"refused diagram line 5 JointTooLarge d\n",
    ),
    // A size of 64, and a product of 1,024, with the greatest constants.
    (
        b"nego 1
agent a 64
atom m a
out x
case :
first m
last m
end
",
        b"agents 1
atoms 1
outcomes 1
joint 64
deterministic
acyclic m
",
    ),
    (
        b"nego 1
agent a 64
agent b 16
atom m a b
out x
case : a:=63 b:=15
first m
last m
end
",
        b"agents 2
atoms 1
outcomes 1
joint 1024
deterministic
acyclic m
",
    ),
    // ValueTooLarge, of one agent and of two.
    (
        b"nego 1
agent a 2
agent b 2
atom m a b
out x
case : a:=1 b:=2
first m
last m
end
",
        b"refused diagram line 6 ValueTooLarge m.x b\n",
    ),
    (
        b"nego 1
agent a 64
agent b 16
atom m a b
out x
case : a:=63
case a=99 : b:=16 a:=64
first m
last m
end
",
        b"refused diagram line 7 ValueTooLarge m.x a\n",
    ),
    // ValueTooLarge with NotTotal before it.
    (
        b"nego 1
agent a 4
atom m a
out x
case a<3 :
out y
case : a:=4
first m
last m
end
",
        b"refused diagram line 7 ValueTooLarge m.y a\n",
    ),
    // NotTotal: of two data, of an outcome without a case, and of two outcomes.
    (
        b"nego 1
agent a 4
agent b 2
atom only a b
out reply
case a<3 : a:=b
first only
last only
end
",
        b"refused diagram line 5 NotTotal only.reply 3 0\n",
    ),
    (
        b"nego 1
agent a 2
atom m a
out x
case :
out y
first m
last m
end
",
        b"refused diagram line 6 NotTotal m.y 0\n",
    ),
    (
        b"nego 1
agent a 4
atom m a
out w
case :
out x
case a!=3 :
out y
case a>0 :
first m
last m
end
",
        b"refused diagram line 6 NotTotal m.x 3\n",
    ),
];
