use crate::{Decide, Msg, Ready, Record, read_msg, read_record, write_msg, write_record};
use nego_base::{AgentId, AgentSet, AtomId, OutcomeId};
use std::test::Fail;

/// A ready agent, and its message as bytes.
const READY: Msg = Msg::Ready(Ready {
    from: AgentId(1),
    to: AgentId(0),
    atom: AtomId(0),
    visit: 0,
    value: 0,
});

const READY_BYTES: [u8; 16] = [0x4e, 0x52, 1, 0, 0, 0, 0, 0, 0, 0, 0, 0, 0, 0, 0, 0];

/// A decision that is told, and its message as bytes.
const DECIDE: Msg = Msg::Decide(Decide {
    from: AgentId(0),
    to: AgentId(1),
    atom: AtomId(0),
    outcome: OutcomeId(1),
    visit: 1,
    after: 1,
});

const DECIDE_BYTES: [u8; 16] = [0x4e, 0x44, 0, 1, 0, 0, 0, 1, 0, 1, 1, 0, 0, 0, 0, 0];

/// What an agent with 10,000 records would tell, whose visit is past its bound, and its message as bytes.
const FULL: Msg = Msg::Ready(Ready {
    from: AgentId(1),
    to: AgentId(0),
    atom: AtomId(0),
    visit: 10_000,
    value: 0,
});

const FULL_BYTES: [u8; 16] = [0x4e, 0x52, 1, 0, 0, 0, 0x27, 0x10, 0, 0, 0, 0, 0, 0, 0, 0];

/// The first bytes of a decision of two parties, of a move and of a decision of one party. Zeros follow.
static RECORDS: [&[u8]; 3] = [
    &[2, 0, 0, 0, 1, 2, 0, 0, 1, 1, 1, 0, 1, 1],
    &[1, 0, 0, 0, 1, 1],
    &[2, 0, 0, 0, 0, 1, 0, 0, 0, 1],
];

#[test]
fn vectors_are_written_and_read(rt: HostRuntime) -> Result<(), Fail> {
    assert!(rt; write_msg(&READY) == READY_BYTES);
    assert!(rt; read_msg(&READY_BYTES) == Some(READY));
    assert!(rt; write_msg(&DECIDE) == DECIDE_BYTES);
    assert!(rt; read_msg(&DECIDE_BYTES) == Some(DECIDE));
    assert!(rt; write_msg(&FULL) == FULL_BYTES);
    assert!(rt; read_msg(&FULL_BYTES) == None);
    for (i, (record, front)) in records().iter().zip(&RECORDS).enumerate() {
        let bytes = padded(front);
        assert!(rt; write_record(record) == bytes, "record {i}");
        assert!(rt; read_record(&bytes) == Some(*record), "record {i}");
        assert!(rt; read_record(&bytes[1..]) == None, "record {i}");
    }
    Ok(())
}

fn records() -> [Record; 3] {
    let first = AgentSet::none().with(AgentId(0));
    let atom = AtomId(0);
    let outcome = OutcomeId(1);
    let mut afters = [0; 16];
    afters[0] = 1;
    let alone = Record::Decision {
        atom,
        outcome: OutcomeId(0),
        parties: first,
        visits: [0; 16],
        afters,
    };
    afters[1] = 1;
    let both = Record::Decision {
        atom,
        outcome,
        parties: first.with(AgentId(1)),
        visits: afters,
        afters,
    };
    let moved = Record::Move {
        atom,
        outcome,
        after: 1,
    };
    [both, moved, alone]
}

/// A record's bytes, of which these are the first.
fn padded(front: &[u8]) -> [u8; 127] {
    let mut bytes = [0; 127];
    for (byte, of_front) in bytes.iter_mut().zip(front) {
        *byte = *of_front;
    }
    bytes
}
