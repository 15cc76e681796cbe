use crate::{MemSink, MemSource, ReadAnswer, Sink, put_all, read_part};
use nego_base::{Seq, Text};
use std::test::Fail;

/// An input, the limit, the numbers of the calls that fail, and how many bytes the part has, or why there is none.
type Read = (
    &'static [u8],
    u32,
    &'static [u64],
    Result<usize, ReadAnswer>,
);

static READS: [Read; 24] = [
    (b"", 99, &[], Err(ReadAnswer::NoEnd { line: 1 })),
    (b"end", 99, &[], Ok(3)),
    (b"end\n", 99, &[], Ok(4)),
    (b"end\r\n", 99, &[], Ok(5)),
    (b"end\r", 99, &[], Err(ReadAnswer::NoEnd { line: 1 })),
    (b"end\r\r\n", 99, &[], Err(ReadAnswer::NoEnd { line: 2 })),
    (b" \tend  \n", 99, &[], Ok(8)),
    (b"# end", 99, &[], Err(ReadAnswer::NoEnd { line: 1 })),
    (b"# end\n", 99, &[], Err(ReadAnswer::NoEnd { line: 2 })),
    (
        b"end end\nends\nen d\n",
        99,
        &[],
        Err(ReadAnswer::NoEnd { line: 4 }),
    ),
    (b"a b\n\n \nend\nend\nc", 99, &[], Ok(11)),
    (b"", 0, &[], Err(ReadAnswer::NoEnd { line: 1 })),
    (b"x", 0, &[], Err(ReadAnswer::TooLong)),
    (b"end", 3, &[], Ok(3)),
    (b"end\n", 3, &[], Err(ReadAnswer::TooLong)),
    (b"end\n", 4, &[], Ok(4)),
    (b"end\nx", 4, &[], Ok(4)),
    (b"a\nb\n", 4, &[], Err(ReadAnswer::NoEnd { line: 3 })),
    (b"a\nb\nc", 4, &[], Err(ReadAnswer::TooLong)),
    (b"a\nend", 4, &[], Err(ReadAnswer::TooLong)),
    (b"end\n", 99, &[0], Err(ReadAnswer::ReadFault)),
    (b"end\n", 99, &[9, 3], Err(ReadAnswer::ReadFault)),
    (b"end\n", 99, &[4], Ok(4)),
    (b"end", 99, &[3], Err(ReadAnswer::ReadFault)),
];

/// Three pieces that are put one after another, the numbers of the calls that fail, how many pieces go before a fault,
/// and what is taken.
type Put = ([&'static [u8]; 3], &'static [u64], usize, &'static [u8]);

static PUTS: [Put; 5] = [
    ([b"one", b"", b"two"], &[], 3, b"onetwo"),
    ([b"one", b"", b"two"], &[0], 0, b""),
    ([b"one", b"", b"two"], &[1], 2, b"one"),
    ([b"one", b"", b"two"], &[2], 3, b"onetwo"),
    ([b"", b"", b""], &[0], 3, b""),
];

/// Puts one piece after another up to a fault, and answers how many went before it.
fn put_each<O: Sink>(sink: &mut O, pieces: &[&[u8]]) -> usize {
    for (i, piece) in pieces.iter().enumerate() {
        if put_all(sink, piece).is_err() {
            return i;
        }
    }
    pieces.len()
}

#[test]
fn parts_are_read_and_bytes_are_put(rt: HostRuntime) -> Result<(), Fail> {
    let alloc = rt.alloc();
    for (i, (input, limit, fails, want)) in READS.iter().enumerate() {
        assert!(rt; *limit < 100);
        let mut source = MemSource::new(Text::copy(alloc, input)?, Seq::copy_of(alloc, fails)?);
        let answer = read_part(alloc, &mut source, *limit).map(|part| part.bytes.len());
        assert_eq!(rt; answer, *want, "read {i}");
    }
    for (i, (pieces, fails, go, taken)) in PUTS.iter().enumerate() {
        let mut sink = MemSink::new(alloc, Seq::copy_of(alloc, fails)?)?;
        assert_eq!(rt; put_each(&mut sink, pieces), *go, "put {i}");
        assert_eq!(rt; sink.bytes(), *taken, "put {i}");
        assert_eq!(rt; sink.starved(), 0, "put {i}");
    }
    Ok(())
}
