//! Calls of `nego` over memory, as rows of tables.

ghost use Rattle.std.specs.Prelude.{◌≡◌, ◌<◌};

use nego_base::{Memory, Seq, Steps, Text};
use nego_cli::{Status, nego};
use nego_io::{MemSink, MemSource, Source};
use std::alloc::Global;
use std::marker::Brand;
use std::process::Abort;
use std::sync::ledger::{Blank, Ledger};
use std::test::Fail;

/// A call over memory, and what comes of it.
#[derive(Clone, Copy)]
pub(crate) struct Call {
    /// The words, with a blank between them.
    pub words: &'static str,
    /// How many bytes `#` the input begins with, and its other bytes.
    pub hashes: usize,
    pub input: &'static [u8],
    /// The numbers of the calls of the source, of `out` and of `err` that fail, counted from 0.
    pub source_fails: &'static [u64],
    pub out_fails: &'static [u64],
    pub err_fails: &'static [u64],
    pub status: u8,
    pub out: &'static [u8],
    pub err: &'static [u8],
    /// What is left of the source.
    pub left: &'static [u8],
}

/// The examples `set.nego` and `purchase.nego`.
pub(crate) const SET: &[u8] = b"nego 1
agent a 2
atom only a
out set
case : a:=1
first only
last only
end
";

pub(crate) const PURCHASE: &[u8] = b"nego 1
agent buyer 4
agent seller 4
agent bank 2
agent carrier 2
# prices are settled first
atom open buyer seller bank carrier
out go
case :
next talk buyer seller
next deal bank carrier
atom talk buyer seller
out counter
case : buyer:=buyer+1
next talk buyer seller
out agree
case buyer>=seller :
case buyer<seller : buyer:=seller
next deal buyer seller
out walk
case : buyer:=0
next deal buyer seller
atom deal buyer seller bank carrier
out proceed
case :
next pay buyer bank
next ship seller carrier
out drop
case :
next close buyer seller bank carrier
atom pay buyer bank
out paid
case : bank:=1
next close buyer bank
atom ship seller carrier
out sent
case : carrier:=1
next close seller carrier
atom close buyer seller bank carrier
out delivered
case :
out cancelled
case : bank:=0 carrier:=0
first open
last close
end
";

/// The reduction of `set.nego`.
pub(crate) const REDUCTION: &[u8] = b"certificate 1
end
sound uses 0
summary 1
node 0 base 0
final set 0
end
";

pub(crate) const USAGE: &[u8] =
    b"usage: nego check, reduce, replay, ask START.., run START.., node SEED TURNS START.., make N\n";

pub(crate) const REDUCED: Call = Call {
    words: "reduce",
    hashes: 0,
    input: SET,
    source_fails: &[],
    out_fails: &[],
    err_fails: &[],
    status: 0,
    out: REDUCTION,
    err: b"",
    left: b"",
};

pub(crate) const REFUSED: Call = Call {
    status: 3,
    out: b"",
    ..REDUCED
};

pub(crate) const BAD_WORDS: Call = Call {
    status: 2,
    out: b"",
    err: USAGE,
    left: SET,
    ..REDUCED
};

/// The words of a line, which stand between its blanks.
pub(crate) fn words_in(alloc: Global, line: &str) -> Result<Seq<Text>, Memory> {
    let mut words = Seq::new(alloc);
    for word in line.split(' ') {
        words.push(Text::copy(alloc, word.as_bytes())?)?;
    }
    Ok(words)
}

/// The status of a call over memory.
pub(crate) fn call_over(
    alloc: Global,
    words: &[Text],
    source: &mut MemSource,
    out: &mut MemSink,
    err: &mut MemSink,
) -> Status {
    counted::<Brand>(alloc, words, source, out, err, Blank::new(1))
}

/// The same, with the steps counted in a ledger of this blank.
fn counted<C: Ledger>(
    alloc: Global,
    words: &[Text],
    source: &mut MemSource,
    out: &mut MemSink,
    err: &mut MemSink,
    blank: Blank,
) -> Status
    requires name { blank.name ≡ C.name }
    requires parts { blank.parts ≡ C.parts }
    requires share { 0 < blank.parts }
{
    let mut steps = Steps::<C>::open(blank);
    nego(alloc, words, source, out, err, &mut steps)
}

/// That the call, of this place in this table, answers as the row says.
pub(crate) fn answers(
    rt: &impl Abort,
    alloc: Global,
    call: &Call,
    table: &str,
    i: usize,
) -> Result<(), Fail> {
    let mut input = Seq::from_vec(vec![in alloc; b'#'; call.hashes]?);
    input.extend_from_slice(call.input)?;
    answers_to(rt, alloc, call, input, table, i)
}

/// That each call answers so where this stands behind its diagram.
pub(crate) fn answers_behind(
    rt: &impl Abort,
    alloc: Global,
    rows: &[(&'static [u8], Call)],
    table: &str,
) -> Result<(), Fail> {
    for (i, (behind, call)) in rows.iter().enumerate() {
        let mut input = Text::copy(alloc, call.input)?;
        input.extend_from_slice(behind)?;
        answers_to(rt, alloc, call, input, table, i)?;
    }
    Ok(())
}

/// The same of a call over this input.
pub(crate) fn answers_to(
    rt: &impl Abort,
    alloc: Global,
    call: &Call,
    input: Text,
    table: &str,
    i: usize,
) -> Result<(), Fail> {
    let words = words_in(alloc, call.words)?;
    let mut source = MemSource::new(input, Seq::copy_of(alloc, call.source_fails)?);
    let mut out = MemSink::new(alloc, Seq::copy_of(alloc, call.out_fails)?)?;
    let mut err = MemSink::new(alloc, Seq::copy_of(alloc, call.err_fails)?)?;
    let status = call_over(alloc, &words, &mut source, &mut out, &mut err);
    assert!(rt; status.number() == call.status, "{table} {i}");
    assert!(rt; out.bytes() == call.out, "{table} {i}");
    assert!(rt; err.bytes() == call.err, "{table} {i}");
    let mut left = [0u8; 128];
    let n = source.take(&mut left)?;
    assert!(rt; &left[..n] == call.left, "{table} {i}");
    Ok(())
}

/// What a call over memory ends with and puts on `out`, where nothing fails.
pub(crate) fn told(alloc: Global, words: &[Text], input: Text) -> Result<(u8, Text), Memory> {
    let mut source = MemSource::new(input, Seq::new(alloc));
    let mut out = MemSink::new(alloc, Seq::new(alloc))?;
    let mut err = MemSink::new(alloc, Seq::new(alloc))?;
    let status = call_over(alloc, words, &mut source, &mut out, &mut err);
    Ok((status.number(), Text::copy(alloc, out.bytes())?))
}
