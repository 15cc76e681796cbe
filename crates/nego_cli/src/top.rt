//! The top call.

ghost use Rattle.std.specs.Prelude.{◌≡◌, ◌⊎◌, ℕ, ◌≤◌, List, [], None};
ghost use Rattle.nego_io.specs.Outside.{WhereTold};
ghost use Rattle.nego_cli.specs.Effect.{HasFaulted, effect};
ghost use Rattle.nego_cli.specs.Parts.{reads_at};
ghost use Rattle.nego_cli.specs.Turn.{TellsText, Refuses};
ghost use Rattle.nego_cli.specs.Commands.{TurnOf, asked, Asks, most_parts};
ghost use Rattle.nego_cli.specs.Status.{IsTelling};
ghost use Rattle.nego_cli.specs.Answer.{Says, ShowsLine, ShowsText, FailsToRead};
ghost use Rattle.nego_cli.specs.Headline.{Headline};
ghost use Rattle.nego_cli.specs.ReplayHeadline.{ReplayHeadline};
ghost use Rattle.nego_cli.specs.RunHeadline.{RunHeadline};

use crate::deliver::deliver;
use crate::dispatch::find_answer;
use crate::failure::{Failure, Refusal};
use crate::{Command, Status};
use nego_base::{Steps, Text};
use nego_io::{Sink, Source};
use std::alloc::Global;
use std::sync::ledger::Ledger;

/// Does what the words say: takes its parts from the source, and puts a text on `out` or a line on `err`. The steps are
/// for the guards that are tested, and no clause here says how many; a caller that counts nothing hands in a fresh counter.
pub fn nego<S: Source, O: Sink, E: Sink, C: Ledger>(
    alloc: Global,
    words: &[Text],
    source: &mut S,
    out: &mut O,
    err: &mut E,
    steps: &mut Steps<C>,
) -> Status
    // What was put on `out` and `err`, what is left of the source, and why.
    ensures says { Says words.now (effect S.left S.faults source.old source.new) (effect O.taken O.faults out.old out.new) (effect E.taken E.faults err.old err.new) result }

    // Where the words are no command that is built, the usage line is shown.
    ensures usage { asked words.now ≡ None → ShowsLine Failure.Words (effect O.taken O.faults out.old out.new) (effect E.taken E.faults err.old err.new) result }

    // Where the command that they are refuses what the input begins with, the refusal's line is shown, or a call of the
    // source failed.
    ensures refusal { WhereTold (S.left source.old) (S.left source.new) (λ input _. (command : Command) (n : ℕ) (why : Refusal) → Asks words.now command → TurnOf command (reads_at n input) (Refuses why) →
        ShowsLine (Failure.Refused why) (effect O.taken O.faults out.old out.new) (effect E.taken E.faults err.old err.new) result ⊎ FailsToRead (effect S.left S.faults source.old source.new) result) }

    // Where it takes what the input begins with, its text is shown, or a call of the source failed.
    ensures text { WhereTold (S.left source.old) (S.left source.new) (λ input _. (command : Command) (n : ℕ) → Asks words.now command → TurnOf command (reads_at n input) TellsText →
        ShowsText command (reads_at n input) (effect O.taken O.faults out.old out.new) (effect E.taken E.faults err.old err.new) result ⊎ FailsToRead (effect S.left S.faults source.old source.new) result) }

    // `reduce` decides soundness for each acyclic deterministic diagram, and whatever it calls sound is so.
    ensures headline { Asks words.now Command.Reduce → Headline (effect S.left S.faults source.old source.new) (effect O.taken O.faults out.old out.new) (effect E.taken E.faults err.old err.new) result }

    // What `replay` accepts leads from the diagram to the printed summary, which tells the diagram; and its status is that
    // of the certificate's verdict.
    ensures certificate { Asks words.now Command.Replay → ReplayHeadline (effect S.left S.faults source.old source.new) (effect O.taken O.faults out.old out.new) (effect E.taken E.faults err.old err.new) result }

    // What stands behind the report of `run` follows one run, whatever the schedule; and each schedule gets its report, or the
    // line and the reason of its first event that is refused.
    ensures schedule { (values : List ℕ) → Asks words.now (Command.Run values) → RunHeadline values (effect S.left S.faults source.old source.new) (effect O.taken O.faults out.old out.new) (effect E.taken E.faults err.old err.new) result }

    // `make` tells its text whatever the source is.
    ensures made { (n : ℕ) → Asks words.now (Command.Make n) → ShowsText (Command.Make n) [] (effect O.taken O.faults out.old out.new) (effect E.taken E.faults err.old err.new) result }

    // What has no part in the answer stays as it is, whether it tells or not: the source where the command that is asked
    // for reads no part, `out` where no text is put there, and `err` where the text is on `out`.
    ensures source_untouched { most_parts (asked words.now) ≡ 0 → source.new ≡ source.old }
    ensures out_untouched { IsTelling result
        ⊎ (((result ≡ Status.WriteFault) × HasFaulted (effect O.taken O.faults out.old out.new)) ⊎ (out.new ≡ out.old)) }
    ensures err_untouched { IsTelling result → err.new ≡ err.old }

    // No count of faults falls.
    ensures source_faults { S.faults source.old ≤ S.faults source.new }
    ensures out_faults { O.faults out.old ≤ O.faults out.new }
    ensures err_faults { E.faults err.old ≤ E.faults err.new }
{
    let answer = find_answer(alloc, words, source, steps);
    deliver(alloc, &answer, out, err)
}
