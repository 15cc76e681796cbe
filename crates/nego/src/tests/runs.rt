//! Runs of the purchase, followed entry by entry.

use crate::tests::calls::PURCHASE;
use nego_base::{AtomId, Memory, OutcomeId, Seq};
use nego_model::{Diagram, Follow, Marking, Run, follow};
use nego_reader::read_diagram;
use nego_shape::{shape, spelled_words_are_names};
use std::alloc::Global;
use std::process::Abort;
use std::test::Fail;

/// An atom and an outcome, by their places in the text.
type Entry = (u32, u32);

/// The entries of the purchase.
const OPEN_GO: Entry = (0, 0);

const TALK_COUNTER: Entry = (1, 1);

const TALK_AGREE: Entry = (1, 2);

const TALK_WALK: Entry = (1, 3);

const DEAL_PROCEED: Entry = (2, 4);

const DEAL_DROP: Entry = (2, 5);

const PAY_PAID: Entry = (3, 6);

const SHIP_SENT: Entry = (4, 7);

const CLOSE_DELIVERED: Entry = (5, 8);

const CLOSE_CANCELLED: Entry = (5, 9);

/// How far a run goes.
enum Far {
    Complete,
    /// All entries occur, and then everyone is ready for this atom alone.
    ReadyFor(u32),
    /// The entry at this place is the first that doesn't occur.
    Stops(usize),
}

/// A run, and how far it goes.
struct Row {
    run: &'static [Entry],
    far: Far,
}

/// A run that is complete.
const DELIVERED: [Entry; 6] = [
    OPEN_GO,
    TALK_AGREE,
    DEAL_PROCEED,
    SHIP_SENT,
    PAY_PAID,
    CLOSE_DELIVERED,
];

static ROWS: [Row; 8] = [
    Row {
        run: &[],
        far: Far::ReadyFor(0),
    },
    Row {
        run: &DELIVERED,
        far: Far::Complete,
    },
    Row {
        run: &[
            OPEN_GO,
            TALK_AGREE,
            DEAL_PROCEED,
            PAY_PAID,
            SHIP_SENT,
            CLOSE_DELIVERED,
        ],
        far: Far::Complete,
    },
    Row {
        run: &[
            OPEN_GO,
            TALK_COUNTER,
            TALK_COUNTER,
            TALK_WALK,
            DEAL_DROP,
            CLOSE_CANCELLED,
        ],
        far: Far::Complete,
    },
    Row {
        run: &[OPEN_GO, TALK_AGREE, DEAL_PROCEED, SHIP_SENT, PAY_PAID],
        far: Far::ReadyFor(5),
    },
    // After the talk nobody is ready for it.
    Row {
        run: &[
            OPEN_GO,
            TALK_AGREE,
            DEAL_PROCEED,
            TALK_WALK,
            PAY_PAID,
            CLOSE_DELIVERED,
        ],
        far: Far::Stops(3),
    },
    // The talk with an outcome of the deal, and with a number that is no outcome's.
    Row {
        run: &[OPEN_GO, (1, 4), DEAL_PROCEED],
        far: Far::Stops(1),
    },
    Row {
        run: &[OPEN_GO, (1, 10)],
        far: Far::Stops(1),
    },
];

/// That the runs of the purchase go so far.
pub(crate) fn runs_go_so_far(rt: &impl Abort, alloc: Global) -> Result<(), Fail> {
    let d = shaped(rt, alloc, PURCHASE)?;
    for (i, row) in ROWS.iter().enumerate() {
        let far = follow(&d, &run_of(alloc, row.run)?);
        assert!(rt; goes(&far, &row.far), "row {i}");
    }
    fires(rt, &d);
    Ok(())
}

/// The diagram of a text that is one.
pub(crate) fn shaped(rt: &impl Abort, alloc: Global, text: &[u8]) -> Result<Diagram, Fail> {
    assert!(rt; text.len() < 9_000);
    let parsed = read_diagram(alloc, text)?;
    spelled_words_are_names();
    Ok(shape(alloc, &parsed)?)
}

fn run_of(alloc: Global, entries: &[Entry]) -> Result<Run, Memory> {
    let mut run = Seq::new(alloc);
    for (n, o) in entries {
        run.push((AtomId(*n), OutcomeId(*o)))?;
    }
    Ok(run)
}

/// Whether the run goes as far as it is to.
fn goes(far: &Follow, want: &Far) -> bool {
    match (far, want) {
        (Follow::Complete, Far::Complete) => true,
        (Follow::Partial(marking), Far::ReadyFor(n)) => are_ready(marking, AtomId(*n)),
        (Follow::Stops(i), Far::Stops(place)) => i == place,
        _ => false,
    }
}

/// Whether each of the four agents is ready for this atom alone.
fn are_ready(marking: &Marking, n: AtomId) -> bool {
    let agents = &marking.ready[..4];
    agents
        .iter()
        .all(|atoms| atoms.count() == 1 && atoms.least() == Some(n))
}

/// Fires the entries of a complete run, one after another. What isn't enabled, or is no outcome of the atom, doesn't
/// fire, and leaves the marking as it is.
fn fires(rt: &impl Abort, d: &Diagram) {
    let mut marking = Marking::opening(d);
    assert!(rt; !marking.enabled(d, AtomId(1)));
    assert!(rt; !marking.fire(d, AtomId(1), OutcomeId(2)));
    assert!(rt; are_ready(&marking, AtomId(0)));
    for (n, o) in &DELIVERED {
        let n = AtomId(*n);
        assert!(rt; !marking.is_final(d));
        assert!(rt; !marking.fire(d, n, OutcomeId(10)));
        assert!(rt; marking.enabled(d, n));
        assert!(rt; marking.fire(d, n, OutcomeId(*o)));
        assert!(rt; !marking.enabled(d, n));
    }
    assert!(rt; marking.is_final(d));
}
