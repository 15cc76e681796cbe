//! `replay`: the replay of a certificate on a diagram.

ghost use Rattle.std.specs.Prelude.{◌≡◌, ◌≤◌, IfOk};
ghost use Rattle.nego_model.specs.Negotiation.{IsDeterministic};
ghost use Rattle.nego_model.specs.Diagram.{negotiation_of};
ghost use Rattle.nego_cert.specs.Replay.{plain_verdict};
ghost use Rattle.nego_cli.specs.Effect.{effect};
ghost use Rattle.nego_cli.specs.Dispatch.{IsAnswerBy};
ghost use Rattle.nego_cli.specs.Replay.{ReplayTurn, ReplayText, IsReplayText, replay_status, replay_text, why_name};

use crate::Status;
use crate::answer::Answer;
use crate::determined::deterministic;
use crate::failure::Failure;
use crate::load::load_certificate;
use nego_base::{Memory, Text};
use nego_cert::{Cert, RuleWhy, Verdict};
use nego_expr::print_summary;
use nego_io::Source;
use nego_model::Diagram;
use std::alloc::Global;

/// Reads the certificate behind the diagram, and replays it.
pub(crate) fn replay<S: Source>(
    alloc: Global,
    d: Diagram,
    source: &mut S,
) -> Result<Answer, Failure>
    ensures found { IsAnswerBy (ReplayTurn d) (ReplayText d) 1 (effect S.left S.faults source.old source.new) result }
    ensures later { S.faults source.old ≤ S.faults source.new }
{
    let d = deterministic(d)?;
    let cert = load_certificate(alloc, source)?;
    Ok(replayed(alloc, &d, &cert)?)
}

/// Replays the certificate, and tells the verdict.
fn replayed(alloc: Global, d: &Diagram, cert: &Cert) -> Result<Answer, Memory>
    requires { IsDeterministic (negotiation_of d.now) }
    ensures { IfOk result (λ answer. IsReplayText d.now cert.now answer.status answer.text) }
{
    let verdict = nego_cert::replay(alloc, d, cert)?;
    let text = print_verdict(alloc, &verdict, cert.uses.len())?;
    Ok(Answer {
        status: verdict_status(&verdict),
        text,
    })
}

/// The status of the verdict.
fn verdict_status(verdict: &Verdict) -> Status
    ensures { result ≡ replay_status (plain_verdict verdict.now) }
{
    match verdict {
        Verdict::Accepted(_) => Status::Done,
        Verdict::Rejected(_, _) | Verdict::NotOne(_) => Status::No,
    }
}

/// The text of the verdict on a certificate of so many uses.
fn print_verdict(alloc: Global, verdict: &Verdict, uses: usize) -> Result<Text, Memory>
    ensures { IfOk result (λ text. text ≡ replay_text uses (plain_verdict verdict.now)) }
{
    match verdict {
        Verdict::Accepted(summary) => {
            let mut text = Text::copy(alloc, b"accepted uses ")?;
            text.push_decimal(uses as u64)?;
            text.extend_from_slice(b"\n")?;
            let summary = print_summary(alloc, summary)?;
            text.extend_from_slice(summary.as_slice())?;
            Ok(text)
        }
        Verdict::Rejected(line, why) => {
            let mut text = Text::copy(alloc, b"rejected line ")?;
            text.push_decimal(u64::from(*line))?;
            text.extend_from_slice(b" ")?;
            text.extend_from_slice(why_name(*why))?;
            text.extend_from_slice(b"\n")?;
            Ok(text)
        }
        Verdict::NotOne(left) => {
            let mut text = Text::copy(alloc, b"not one ")?;
            text.push_decimal(u64::from(*left))?;
            text.extend_from_slice(b"\n")?;
            Ok(text)
        }
    }
}

/// The word for why a use can't be made.
fn why_name(why: RuleWhy) -> &'static [u8]
    ensures { result.now ≡ why_name why }
{
    match why {
        RuleWhy::Guard => b"Guard",
        RuleWhy::Nodes => b"Nodes",
    }
}
