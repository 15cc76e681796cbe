//! Diagrams that several tables of calls read.

/// An agent whose two values are changed over.
pub(crate) const FLIP: &[u8] = b"nego 1
agent a 2
atom only a
out flip
case a=0 : a:=1
case a=1 : a:=0
first only
last only
end
";

/// The first atom sets the value, and the last adds to it.
pub(crate) const SET_AND_ADD: &[u8] = b"nego 1
agent a 4
atom start a
out go
case : a:=1
next stop a
atom stop a
out ok
case : a:=a+1
first start
last stop
end
";

/// The first atom sets the value to 0, or keeps it.
pub(crate) const UNION: &[u8] = b"nego 1
agent a 3
atom start a
out zero
case : a:=0
next stop a
out keep
case :
next stop a
atom stop a
out ok
case :
first start
last stop
end
";

/// Two parties go on side by side.
pub(crate) const FORK: &[u8] = b"nego 1
agent a 2
agent b 2
agent c 2
atom fork a b c
out go
case :
next ab a b
next cc c
atom ab a b
out x
case : a:=b b:=a
next join a b
atom cc c
out y
case : c:=1
next join c
atom join a b c
out ok
case :
first fork
last join
end
";

/// An atom to which nothing leads.
pub(crate) const DEAD: &[u8] = b"nego 1
agent a 4
atom start a
out go
case : a:=1
next stop a
atom extra a
out x
case :
next stop a
atom stop a
out ok
case : a:=a+1
first start
last stop
end
";

/// Two final outcomes behind any value.
pub(crate) const FINALS: &[u8] = b"nego 1
agent a 2
atom start a
out go
case : a:=*
next stop a
atom stop a
out accept
case :
out reject
case : a:=0
first start
last stop
end
";

/// A loop that adds to the value.
pub(crate) const LOOP: &[u8] = b"nego 1
agent a 4
atom turn a
out again
case : a:=a+1
next turn a
out stop
case :
next end a
atom end a
out ok
case :
first turn
last end
end
";

/// Two atoms that go round for ever.
pub(crate) const ROUND: &[u8] = b"nego 1
agent a 1
atom start a
out go
case :
next x a
atom x a
out u
case :
next y a
atom y a
out v
case :
next x a
atom end a
out ok
case :
first start
last end
end
";

/// An agent with two next atoms.
pub(crate) const SPLIT: &[u8] = b"nego 1
agent a 2
atom start a
out go
case :
next p a
next q a
atom p a
out o
case :
next end a
atom q a
out o
case :
next end a
atom end a
out ok
case :
first start
last end
end
";

/// Two agents, of whom one comes later to the atom where they meet.
pub(crate) const LATER: &[u8] = b"nego 1
agent a 1
agent b 1
atom start a b
out go
case :
next meet a
next prep b
atom prep b
out p
case :
next meet b
atom meet a b
out m
case :
next end a b
atom end a b
out ok
case :
first start
last end
end
";
