//! Diagrams that are made, as their texts.
use crate::make_diagram;
use nego_reader::print_diagram;
use std::process::Abort;
use std::test::Fail;

/// The diagram of five atoms.
const FIVE: &[u8] = b"\
nego 1
agent a0 4
agent a1 4
agent a2 4
agent a3 4
atom m0 a0 a1 a2 a3
out go
case :
next m1 a0 a1
next m2 a2 a3
atom m1 a0 a1
out x
case : a0:=a0+1
next m3 a0 a1
out y
case : a0:=a1
next m3 a0 a1
atom m2 a2 a3
out x
case : a2:=a2+1
next m3 a2 a3
out y
case : a2:=a3
next m3 a2 a3
atom m3 a0 a1 a2 a3
out x
case : a0:=a0+1
next m4 a0 a1 a2 a3
out y
case : a0:=a1
next m4 a0 a1 a2 a3
atom m4 a0 a1 a2 a3
out good
case :
out bad
case : a0:=0
first m0
last m4
end
";

#[test]
fn diagrams_are_made(rt: HostRuntime) -> Result<(), Fail> {
    let made = make_diagram(rt.alloc(), 5)?;
    let printed = print_diagram(rt.alloc(), &made)?;
    assert!(rt; printed.as_slice() == FIVE);
    Ok(())
}
