ghost use Rattle.std.specs.Prelude.{◌≡◌, [], OnOk, OnErr, IsOk};
ghost use Rattle.nego_io.specs.Outside.{HasCause, Puts, PutsFront};

use crate::{Failed, Sink};
use thiserror::Error;

/// A call of the sink failed, or took nothing of bytes that were left.
#[derive(Clone, Copy, Debug, PartialEq, Eq, Error)]
#[error("the sink failed")]
pub struct WriteFault;

/// Puts all the bytes behind what the sink took, in as many calls as it needs. Programs write all their output so.
/// Where it fails, some of the bytes were left.
pub fn put_all<O: Sink>(sink: &mut O, bytes: &[u8]) -> Result<(), WriteFault>
    ensures ok { OnOk result (Puts bytes.now (O.taken sink.old) (O.taken sink.new)) }
    ensures err { OnErr result (PutsFront bytes.now (O.taken sink.old) (O.taken sink.new)) }
    ensures cause { HasCause (O.faults sink.old) (O.faults sink.new) result }
    // For no bytes there is no call.
    ensures nothing { bytes.now ≡ [] → IsOk result × (sink.new ≡ sink.old) }
{
    let mut done = 0;
    while done < bytes.len() {
        match sink.put(&bytes[done..]) {
            Ok(0) => return Err(WriteFault),
            Ok(n) => done += n,
            Err(Failed) => return Err(WriteFault),
        }
    }
    Ok(())
}
