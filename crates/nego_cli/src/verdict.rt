//! The verdict on a diagram: how the order of uses ends for it.

ghost use Rattle.std.specs.Prelude.{◌≡◌, IfOk, OnOk};
ghost use Rattle.nego_base.specs.Appending.{Appends};
ghost use Rattle.nego_cli.specs.Verdict.{IsVerdictOn, verdict_line, verdict_status, verdict_words};

use crate::Status;
use nego_base::{Memory, Text};
use nego_model::Diagram;
use nego_reduce::Reduced;
use nego_shape::{Order, order};
use std::alloc::Global;

/// How the order of uses ends for a diagram.
#[derive(Clone, Copy, Debug, PartialEq, Eq)]
pub enum Verdict {
    /// One atom is left: the diagram is sound.
    Sound,
    /// The diagram is acyclic and isn't sound: more than one atom is left, and no use is the next one.
    Unsound,
    /// The diagram is cyclic: more than one atom is left, and no use is the next one.
    Stuck,
    /// The diagram is cyclic, and the next use would make too many nodes.
    NodeLimit,
}

impl Verdict {
    /// The status with which it is told.
    pub(crate) fn status(self) -> Status
        ensures { result ≡ verdict_status self }
    {
        match self {
            Verdict::Sound => Status::Done,
            Verdict::Unsound => Status::No,
            Verdict::Stuck | Verdict::NodeLimit => Status::Undecided,
        }
    }

    /// Its words.
    fn words(self) -> &'static [u8]
        ensures { result.now ≡ verdict_words self }
    {
        match self {
            Verdict::Sound => b"sound",
            Verdict::Unsound => b"unsound",
            Verdict::Stuck => b"undecided stuck",
            Verdict::NodeLimit => b"undecided nodes",
        }
    }

    /// Adds its line, with the number of the uses that were made.
    pub(crate) fn add_line(self, text: &mut Text, uses: usize) -> Result<(), Memory>
        ensures { OnOk result (Appends text.old text.new (verdict_line self uses)) }
    {
        text.extend_from_slice(self.words())?;
        text.extend_from_slice(b" uses ")?;
        text.push_decimal(uses as u64)?;
        text.extend_from_slice(b"\n")
    }
}

/// The verdict on the diagram whose fresh work was reduced to this. Where more than one atom is left and no use is the
/// next one, the diagram is unsound where it is acyclic.
pub(crate) fn verdict_on(alloc: Global, d: &Diagram, reduced: &Reduced) -> Result<Verdict, Memory>
    ensures { IfOk result (IsVerdictOn d.now reduced.now) }
{
    match reduced {
        Reduced::One(_, _) => Ok(Verdict::Sound),
        Reduced::Stuck(_, _) => match order(alloc, d)? {
            Order::Acyclic(_) => Ok(Verdict::Unsound),
            Order::Cycle(_) => Ok(Verdict::Stuck),
        },
        Reduced::NodeLimit(_, _) => Ok(Verdict::NodeLimit),
    }
}
