//! What is told on `out`.

use crate::tests::calls::{Call, PURCHASE, REDUCED};
use crate::tests::diagrams::{FINALS, FLIP, FORK, LOOP, SET_AND_ADD, SPLIT, UNION};

pub(crate) static ANSWERS: [Call; 15] = [
    REDUCED,
    Call {
        input: b"nego 1
agent a 2
atom only a
out set
case : a:=1
first only
last only
end
end
more",
        left: b"end\nmore",
        ..REDUCED
    },
    Call {
        input: b"nego 1
# x

agent a 2
atom only a
 out \t set
case  : a:=1
first only
last only
end
",
        ..REDUCED
    },
    Call {
        input: b"nego 1\r
agent a 2
atom only a
out set
case : a:=1
first only
last only
end
",
        ..REDUCED
    },
    Call {
        input: b"nego 1
agent a 2
atom only a
out set
case : a:=1
out keep
case :
first only
last only
end
",
        out: b"certificate 1
end
sound uses 0
summary 1
node 0 base 0
node 1 base 1
final set 0
final keep 1
end
",
        ..REDUCED
    },
    Call {
        input: FLIP,
        out: b"certificate 1
end
sound uses 0
summary 1
node 0 base 0
final flip 0
end
",
        ..REDUCED
    },
    Call {
        input: SET_AND_ADD,
        out: b"certificate 1
close
end
sound uses 1
summary 1
node 0 base 0
node 1 base 1
node 2 then 0 1
final ok 2
end
",
        ..REDUCED
    },
    Call {
        input: UNION,
        out: b"certificate 1
merge 0 1
close
end
sound uses 2
summary 1
node 0 base 0
node 1 base 1
node 2 base 2
node 3 join 0 1
node 4 then 3 2
final ok 4
end
",
        ..REDUCED
    },
    Call {
        input: FINALS,
        out: b"certificate 1
close
end
sound uses 1
summary 1
node 0 base 0
node 1 base 1
node 2 base 2
node 3 then 0 1
node 4 then 0 2
final accept 3
final reject 4
end
",
        ..REDUCED
    },
    Call {
        input: b"nego 1
agent a 2
agent b 3
atom start a b
out go
case a=b : a:=0
case a!=b : b:=a
next stop a b
atom stop a b
out ok
case :
first start
last stop
end
",
        out: b"certificate 1
close
end
sound uses 1
summary 1
node 0 base 0
node 1 base 1
node 2 then 0 1
final ok 2
end
",
        ..REDUCED
    },
    Call {
        input: b"nego 1
agent a 2
agent b 3
atom only a b
out set
case a<b : a:=0 b:=a
case a>=b : b:=2
out keep
case :
first only
last only
end
",
        out: b"certificate 1
end
sound uses 0
summary 1
node 0 base 0
node 1 base 1
final set 0
final keep 1
end
",
        ..REDUCED
    },
    Call {
        words: "check",
        input: FORK,
        out: b"agents 3
atoms 4
outcomes 4
joint 8
deterministic
acyclic fork ab cc join
",
        ..REDUCED
    },
    Call {
        words: "check",
        input: LOOP,
        out: b"agents 1
atoms 2
outcomes 3
joint 4
deterministic
cyclic turn
",
        ..REDUCED
    },
    Call {
        words: "check",
        input: SPLIT,
        out: b"agents 1
atoms 4
outcomes 4
joint 2
not deterministic start.go a
acyclic start p q end
",
        ..REDUCED
    },
    Call {
        words: "check",
        input: PURCHASE,
        out: b"agents 4
atoms 6
outcomes 10
joint 64
deterministic
cyclic talk
",
        ..REDUCED
    },
];
