//! Records as bytes.
ghost use Rattle.std.specs.Prelude.{◌≡◌, ◌↔◌, ◌∷◌, ◌++◌, IsTrue, IfSome, Some, option_map, replicate};
ghost use Rattle.agent_msg.specs.Records.{PlainRecord, entry, IsTidy};
ghost use Rattle.agent_msg.specs.Bytes.{low_byte, two_bytes, entry_bytes, RecordFits, SpellsRecord};

use crate::Record;
use crate::bytes::{high, low, number};
use crate::shares::{Shares, read_counted};
use nego_base::{AtomId, OutcomeId};

/// The record as bytes. Of numbers past their bounds the low bytes are written.
pub fn write_record(r: &Record) -> [u8; 127]
    ensures { result ≡ entry_bytes (entry r.now) }
{
    match r {
        Record::Move {
            atom,
            outcome,
            after,
        } => headed(1, *atom, *outcome, u32::from(*after)),
        Record::Decision {
            atom,
            outcome,
            parties,
            visits,
            afters,
        } => {
            let shares = Shares {
                parties: *parties,
                visits: *visits,
                afters: *afters,
            };
            let mut bytes = headed(2, *atom, *outcome, 0);
            shares.put_into(&mut bytes);
            bytes
        }
    }
}

/// The first six bytes of a record: its kind, its atom, its outcome and one more number.
fn headed(kind: u8, atom: AtomId, outcome: OutcomeId, number: u32) -> [u8; 127]
    ensures { result ≡ kind ∷ (two_bytes atom.0 ++ (two_bytes outcome.0 ++ low_byte number ∷ replicate 121 0)) }
{
    let mut bytes = [0; 127];
    bytes[0] = kind;
    bytes[1] = high(atom.0);
    bytes[2] = low(atom.0);
    bytes[3] = high(outcome.0);
    bytes[4] = low(outcome.0);
    bytes[5] = low(number);
    bytes
}

/// The record that the bytes spell. None exactly where they spell none.
pub fn read_record(bytes: &[u8]) -> Option<Record>
    ensures entry { (e : PlainRecord) → (option_map entry result ≡ Some e) ↔ SpellsRecord bytes.now e }
    ensures tidy { IfSome result IsTidy }
{
    let r = guess(bytes)?;
    if fits(&r) && write_record(&r).as_slice() == bytes {
        Some(r)
    } else {
        None
    }
}

/// The only record that the bytes may spell.
fn guess(bytes: &[u8]) -> Option<Record>
    ensures entry { (e : PlainRecord) → SpellsRecord bytes.now e → option_map entry result ≡ Some e }
    ensures tidy { IfSome result IsTidy }
{
    let [
        kind,
        atom_high,
        atom_low,
        outcome_high,
        outcome_low,
        count,
        rest @ ..,
    ] = bytes
    else {
        return None;
    };
    let atom = AtomId(u32::from(number(*atom_high, *atom_low)));
    let outcome = OutcomeId(u32::from(number(*outcome_high, *outcome_low)));
    if *kind == 1 {
        return Some(Record::Move {
            atom,
            outcome,
            after: u16::from(*count),
        });
    }
    let Shares {
        parties,
        visits,
        afters,
    } = read_counted(*count, rest)?;
    Some(Record::Decision {
        atom,
        outcome,
        parties,
        visits,
        afters,
    })
}

/// Whether the numbers of the record are within their bounds.
fn fits(r: &Record) -> bool
    ensures { IsTrue result ↔ RecordFits (entry r.now) }
{
    match r {
        Record::Move {
            atom,
            outcome,
            after,
        } => atom.0 < 64 && outcome.0 < 256 && *after < 64,
        Record::Decision {
            atom,
            outcome,
            parties,
            visits,
            afters,
        } => {
            let shares = Shares {
                parties: *parties,
                visits: *visits,
                afters: *afters,
            };
            atom.0 < 64 && outcome.0 < 256 && shares.fit()
        }
    }
}
