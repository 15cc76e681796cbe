//! Messages as bytes.
ghost use Rattle.std.specs.Prelude.{◌≡◌, ◌↔◌, ◌∷◌, ◌++◌, IsTrue, Some, option_map, replicate};
ghost use Rattle.agent_msg.specs.Messages.{Message, message};
ghost use Rattle.agent_msg.specs.Bytes.{low_byte, two_bytes, message_bytes, MessageFits, SpellsMessage};

use crate::bytes::{high, low, number};
use crate::{Decide, Msg, Ready};
use nego_base::{AgentId, AtomId, OutcomeId};

/// The message as bytes. Of numbers past their bounds the low bytes are written.
pub fn write_msg(m: &Msg) -> [u8; 16]
    ensures { result ≡ message_bytes (message m.now) }
{
    match m {
        Msg::Ready(r) => spelled(
            b'R',
            (r.from, r.to),
            r.atom,
            r.visit,
            (low(u32::from(r.value)), 0, 0),
        ),
        Msg::Decide(d) => spelled(
            b'D',
            (d.from, d.to),
            d.atom,
            d.visit,
            (high(d.outcome.0), low(d.outcome.0), low(u32::from(d.after))),
        ),
    }
}

/// The bytes of a message: its kind, its agents, its atom, its visit, and what else it says.
fn spelled(
    kind: u8,
    agents: (AgentId, AgentId),
    atom: AtomId,
    visit: u16,
    rest: (u8, u8, u8),
) -> [u8; 16]
    ensures { result ≡ 0x4e ∷ kind ∷ low_byte agents.0.0 ∷ low_byte agents.1.0 ∷ (two_bytes atom.0 ++ (two_bytes visit ++ rest.0 ∷ rest.1 ∷ rest.2 ∷ replicate 5 0)) }
{
    let [from, to] = [low(agents.0.0), low(agents.1.0)];
    let [atom_high, atom_low] = [high(atom.0), low(atom.0)];
    let visit = u32::from(visit);
    let [visit_high, visit_low] = [high(visit), low(visit)];
    let (x, y, z) = rest;
    [
        b'N', kind, from, to, atom_high, atom_low, visit_high, visit_low, x, y, z, 0, 0, 0, 0, 0,
    ]
}

/// The message that the bytes spell. None exactly where they spell none.
pub fn read_msg(bytes: &[u8]) -> Option<Msg>
    ensures { (m : Message) → (option_map message result ≡ Some m) ↔ SpellsMessage bytes.now m }
{
    let m = guess(bytes)?;
    if fits(&m) && write_msg(&m).as_slice() == bytes {
        Some(m)
    } else {
        None
    }
}

/// The only message that the bytes may spell.
fn guess(bytes: &[u8]) -> Option<Msg>
    ensures { (m : Message) → SpellsMessage bytes.now m → option_map message result ≡ Some m }
{
    let [
        _,
        kind,
        from,
        to,
        atom_high,
        atom_low,
        visit_high,
        visit_low,
        x,
        y,
        z,
        ..
    ] = bytes
    else {
        return None;
    };
    let [from, to] = [AgentId(u32::from(*from)), AgentId(u32::from(*to))];
    let atom = AtomId(u32::from(number(*atom_high, *atom_low)));
    let visit = number(*visit_high, *visit_low);
    if *kind == b'R' {
        return Some(Msg::Ready(Ready {
            from,
            to,
            atom,
            visit,
            value: u16::from(*x),
        }));
    }
    Some(Msg::Decide(Decide {
        from,
        to,
        atom,
        outcome: OutcomeId(u32::from(number(*x, *y))),
        visit,
        after: u16::from(*z),
    }))
}

/// Whether the numbers of the message are within their bounds.
fn fits(m: &Msg) -> bool
    ensures { IsTrue result ↔ MessageFits (message m.now) }
{
    match m {
        Msg::Ready(r) => {
            r.from != r.to
                && r.from.0 < 16
                && r.to.0 < 16
                && r.atom.0 < 64
                && r.visit < 10_000
                && r.value < 64
        }
        Msg::Decide(d) => {
            d.from != d.to
                && d.from.0 < 16
                && d.to.0 < 16
                && d.atom.0 < 64
                && d.outcome.0 < 256
                && d.visit < 10_000
                && d.after < 64
        }
    }
}
