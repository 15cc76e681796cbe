//! Where texts are refused and why, and a text read and printed.

ghost use Rattle.std.specs.Prelude.{◌≡◌, IfOk, length};

use crate::{print_diagram, read_diagram};
use nego_base::{Fault, FaultKind, ReadFaults, Seq, Text};
use std::alloc::Global;
use std::process::Abort;
use std::test::Fail;

/// A text, and its fault's line, column and kind.
type Row = (&'static [u8], Option<(u32, u32, FaultKind)>);

static ROWS: [Row; 51] = [
    (
        b"nego 1\nagent a 2\natom m a\nout x\ncase a=0 a!=b a<1 a<=b a>2 a>=999999 : a:=* b:=0 c:=b d:=b+0 e:=b+7 f:=b-7\nnext m a b\nfirst m\nlast m\nend\n",
        None,
    ),
    (b"nego 1\natom m\nfirst m\nlast m\nend", None),
    (
        b"# a\n\nnego\t1\r\n # b\n  first   m\r\nlast m \nend\n\n# c\n",
        None,
    ),
    (b"", Some((1, 1, FaultKind::Word))),
    (b"foo\n", Some((1, 1, FaultKind::Word))),
    (b"  foo 1\n", Some((1, 3, FaultKind::Word))),
    (b"nego\n", Some((1, 5, FaultKind::Count))),
    (b"nego 3 1\n", Some((1, 8, FaultKind::Count))),
    (b"nego 3\n", Some((1, 6, FaultKind::Version))),
    (b"nego 1\nnego 1\n", Some((2, 1, FaultKind::Word))),
    (b"nego 1\nout x\n", Some((2, 1, FaultKind::Word))),
    (b"nego 1\nagent a\n", Some((2, 8, FaultKind::Count))),
    (b"nego 1\nagent a 2 3\n", Some((2, 11, FaultKind::Count))),
    (b"nego 1\nagent A 2\n", Some((2, 7, FaultKind::Name))),
    (b"nego 1\nagent A 01\n", Some((2, 7, FaultKind::Name))),
    (b"nego 1\nagent a 01\n", Some((2, 9, FaultKind::Number))),
    (
        b"nego 1\nagent a 1000000\n",
        Some((2, 9, FaultKind::Number)),
    ),
    (b"nego 1\natom\n", Some((2, 5, FaultKind::Count))),
    (b"nego 1\natom m a B\n", Some((2, 10, FaultKind::Name))),
    (b"nego 1\natom M A B\n", Some((2, 6, FaultKind::Name))),
    (
        b"nego 1\natom m a\nagent b 1\n",
        Some((3, 1, FaultKind::Word)),
    ),
    (b"nego 1\natom m a\ncase :\n", Some((3, 1, FaultKind::Word))),
    (b"nego 1\natom m a\nout\n", Some((3, 4, FaultKind::Count))),
    (
        b"nego 1\natom m a\nout x y\n",
        Some((3, 7, FaultKind::Count)),
    ),
    (b"nego 1\natom m a\nout X\n", Some((3, 5, FaultKind::Name))),
    (
        b"nego 1\natom m a\nout x\ncase\n",
        Some((4, 5, FaultKind::Count)),
    ),
    (
        b"nego 1\natom m a\nout x\ncase a=0 a:=1\n",
        Some((4, 1, FaultKind::Case)),
    ),
    (
        b"nego 1\natom m a\nout x\ncase a:=1 : :\n",
        Some((4, 1, FaultKind::Case)),
    ),
    (
        b"nego 1\natom m a\nout x\ncase A=1 : a:=\n",
        Some((4, 6, FaultKind::Case)),
    ),
    (
        b"nego 1\natom m a\nout x\ncase a<>1 :\n",
        Some((4, 6, FaultKind::Case)),
    ),
    (
        b"nego 1\natom m a\nout x\ncase a==1 :\n",
        Some((4, 6, FaultKind::Case)),
    ),
    (
        b"nego 1\natom m a\nout x\ncase a=01 :\n",
        Some((4, 6, FaultKind::Case)),
    ),
    (
        b"nego 1\natom m a\nout x\ncase a=1 : a:=\n",
        Some((4, 12, FaultKind::Case)),
    ),
    (
        b"nego 1\natom m a\nout x\ncase : a:=0 a:=b+c\n",
        Some((4, 13, FaultKind::Case)),
    ),
    (
        b"nego 1\natom m a\nout x\ncase a=01 b=01 :\n",
        Some((4, 6, FaultKind::Case)),
    ),
    (
        b"nego 1\natom m a\nout x\ncase : a:=A b:=B\n",
        Some((4, 8, FaultKind::Case)),
    ),
    (
        b"nego 1\natom m a\nout x\nnext M A\n",
        Some((4, 6, FaultKind::Name)),
    ),
    (
        b"nego 1\natom m a\nout x\nnext m\n",
        Some((4, 7, FaultKind::Count)),
    ),
    (
        b"nego 1\natom m a\nout x\nnext m A\n",
        Some((4, 8, FaultKind::Name)),
    ),
    (
        b"nego 1\natom m a\nout x\nnext m a\ncase :\n",
        Some((5, 1, FaultKind::Word)),
    ),
    (b"nego 1\nfirst\n", Some((2, 6, FaultKind::Count))),
    (b"nego 1\nfirst 1\n", Some((2, 7, FaultKind::Name))),
    (
        b"nego 1\nfirst m\nagent a 1\n",
        Some((3, 1, FaultKind::Word)),
    ),
    (
        b"nego 1\nfirst m\nlast m m\n",
        Some((3, 8, FaultKind::Count)),
    ),
    (b"nego 1\nfirst m\nlast M\n", Some((3, 6, FaultKind::Name))),
    (
        b"nego 1\nfirst m\nlast m\nlast m\n",
        Some((4, 1, FaultKind::Word)),
    ),
    (
        b"nego 1\nfirst m\nlast m\nend x\n",
        Some((4, 5, FaultKind::Count)),
    ),
    (
        b"nego 1\nfirst m\nlast m\nend\n\nend\n",
        Some((6, 1, FaultKind::Word)),
    ),
    (b"nego 1\nfirst m\nlast m\n", Some((4, 1, FaultKind::Word))),
    (b"nego 1\nfirst m\nlast m", Some((4, 1, FaultKind::Word))),
    (b"nego 3\nagent \x7f 2\n", Some((2, 7, FaultKind::Byte))),
];

/// A purchase, with a comment.
const PURCHASE: &[u8] =
    b"nego 1\nagent buyer 4\nagent seller 4\nagent bank 2\nagent carrier 2\n# prices are settled first\natom open buyer seller bank carrier\nout go\ncase :\nnext talk buyer seller\nnext deal bank carrier\natom talk buyer seller\nout counter\ncase : buyer:=buyer+1\nnext talk buyer seller\nout agree\ncase buyer>=seller :\ncase buyer<seller : buyer:=seller\nnext deal buyer seller\nout walk\ncase : buyer:=0\nnext deal buyer seller\natom deal buyer seller bank carrier\nout proceed\ncase :\nnext pay buyer bank\nnext ship seller carrier\nout drop\ncase :\nnext close buyer seller bank carrier\natom pay buyer bank\nout paid\ncase : bank:=1\nnext close buyer bank\natom ship seller carrier\nout sent\ncase : carrier:=1\nnext close seller carrier\natom close buyer seller bank carrier\nout delivered\ncase :\nout cancelled\ncase : bank:=0 carrier:=0\nfirst open\nlast close\nend\n";

/// The same as it is printed.
const PRINTED: &[u8] =
    b"nego 1\nagent buyer 4\nagent seller 4\nagent bank 2\nagent carrier 2\natom open buyer seller bank carrier\nout go\ncase :\nnext talk buyer seller\nnext deal bank carrier\natom talk buyer seller\nout counter\ncase : buyer:=buyer+1\nnext talk buyer seller\nout agree\ncase buyer>=seller :\ncase buyer<seller : buyer:=seller\nnext deal buyer seller\nout walk\ncase : buyer:=0\nnext deal buyer seller\natom deal buyer seller bank carrier\nout proceed\ncase :\nnext pay buyer bank\nnext ship seller carrier\nout drop\ncase :\nnext close buyer seller bank carrier\natom pay buyer bank\nout paid\ncase : bank:=1\nnext close buyer bank\natom ship seller carrier\nout sent\ncase : carrier:=1\nnext close seller carrier\natom close buyer seller bank carrier\nout delivered\ncase :\nout cancelled\ncase : bank:=0 carrier:=0\nfirst open\nlast close\nend\n";

#[test]
fn texts_are_read(rt: HostRuntime) -> Result<(), Fail> {
    for (text, fault) in &ROWS {
        meets(&rt, rt.alloc(), text, *fault);
    }
    long_lines(&rt, rt.alloc())?;
    let p = read_diagram(rt.alloc(), PURCHASE)?;
    let text = print_diagram(rt.alloc(), &p)?;
    assert!(rt; text.as_slice() == PRINTED);
    Ok(())
}

/// That the text has this fault, or none.
fn meets(rt: &impl Abort, alloc: Global, text: &[u8], fault: Option<(u32, u32, FaultKind)>) {
    assert!(rt; text.len() < 2000);
    let got = match read_diagram(alloc, text) {
        Ok(_) => None,
        Err(ReadFaults::Off(Fault { line, column, kind })) => Some((line, column, kind)),
        Err(ReadFaults::Memory) => Some((0, 0, FaultKind::Many)),
    };
    assert!(rt; got == fault);
}

/// Comments of 1,024 and 1,025 bytes, and a bad byte in column 1,025.
fn long_lines(rt: &impl Abort, alloc: Global) -> Result<(), Fail> {
    let mut text = hashes(alloc, 1024)?;
    text.extend_from_slice(b"\r\nnego 1\nfirst m\nlast m\nend\n")?;
    meets(rt, alloc, text.as_slice(), None);
    let mut text = hashes(alloc, 1025)?;
    meets(rt, alloc, text.as_slice(), Some((1, 1025, FaultKind::Line)));
    text.set(0, b'x');
    text.set(1024, 0x7f);
    meets(rt, alloc, text.as_slice(), Some((1, 1025, FaultKind::Line)));
    Ok(())
}

/// So many bytes `#`.
fn hashes(alloc: Global, count: usize) -> Result<Text, Fail>
    ensures { IfOk result (λ text. length text ≡ count) }
{
    let mut text = Seq::new(alloc);
    for _ in 0..count {
        text.push(b'#')?;
    }
    Ok(text)
}
