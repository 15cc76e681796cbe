//! The replay of a certificate.
ghost use Rattle.std.specs.Prelude.{◌≡◌, ◌<◌, IfOk, IfSome, IfNone, OnOk};
ghost use Rattle.nego_model.specs.Negotiation.{IsDeterministic};
ghost use Rattle.nego_model.specs.Diagram.{negotiation_of};
ghost use Rattle.nego_expr.specs.Work.{IsWork};
ghost use Rattle.nego_expr.specs.Lead.{Allowed, Lead};
ghost use Rattle.nego_expr.specs.Made.{IsMade};
ghost use Rattle.nego_expr.specs.StandsFor.{IsFresh, StandsFor};
ghost use Rattle.nego_expr.specs.UseView.{plain_use};
ghost use Rattle.nego_cert.specs.Replay.{IsFinished, IsFirstFailing, IsVerdict, TellsIfAccepted, plain_verdict, uses_on};

use crate::{Cert, CertLine, RuleWhy, Verdict};
use nego_base::Memory;
use nego_expr::{RuleFault, Use, Work};
use nego_iterate::iterate;
use nego_merge::merge;
use nego_model::Diagram;
use nego_shortcut::{close, shortcut};
use std::alloc::Global;

/// Makes the uses of the certificate one after the other, each where its rule allows it, beginning with the diagram.
/// Numbers that name nothing make a use that isn't allowed.
pub fn replay(alloc: Global, d: &Diagram, c: &Cert) -> Result<Verdict, Memory>
    requires { IsDeterministic (negotiation_of d.now) }
    ensures verdict { IfOk result (λ v. IsVerdict d.now c.now.uses (plain_verdict v)) }
    ensures tells { IfOk result (λ v. TellsIfAccepted d.now (plain_verdict v)) }
{
    let mut work = fresh(alloc, d)?;
    match make_all(&mut work, c.uses.as_slice())? {
        Some((line, why)) => Ok(Verdict::Rejected(line, why)),
        None => finish(work),
    }
}

/// The work that the diagram begins as. It has one, so only memory can be wanted.
fn fresh(alloc: Global, d: &Diagram) -> Result<Work, Memory>
    requires { IsDeterministic (negotiation_of d.now) }
    ensures fresh { IfOk result (λ w. IsFresh w.plain d.now) }
    ensures stands { IfOk result (λ w. StandsFor w.plain d.now) }
{
    Work::new(alloc, d).map_err(|_| Memory)
}

/// Makes the uses of the lines, up to the first that can't be made, and tells its line and why.
fn make_all(work: &mut Work, lines: &[CertLine]) -> Result<Option<(u32, RuleWhy)>, Memory>
    requires { IsWork work.old.plain }
    ensures all { IfOk result (λ r. IfNone r (Lead Allowed work.old.plain (uses_on lines.now) work.new.plain)) }
    ensures first { IfOk result (λ r. IfSome r (λ x. IsFirstFailing work.old.plain lines.now x.0 x.1)) }
    ensures work { IsWork work.new.plain }
{
    for line in lines {
        match make(work, line.what) {
            Ok(()) => {}
            Err(RuleFault::Guard) => return Ok(Some((line.line, RuleWhy::Guard))),
            Err(RuleFault::Nodes) => return Ok(Some((line.line, RuleWhy::Nodes))),
            Err(RuleFault::Memory) => return Err(Memory),
        }
    }
    Ok(None)
}

/// Makes the use, by its rule.
fn make(work: &mut Work, what: Use) -> Result<(), RuleFault>
    requires { IsWork work.old.plain }
    ensures { IsMade (plain_use what) work.old.plain work.new.plain result }
{
    match what {
        Use::Merge(o1, o2) => merge(work, o1, o2),
        Use::Iterate(o) => iterate(work, o),
        Use::Shortcut(o, n) => shortcut(work, o, n),
        Use::Close => close(work),
    }
}

/// The verdict where all uses were made.
fn finish(work: Work) -> Result<Verdict, Memory>
    requires { IsWork work.plain }
    ensures { IfOk result (λ v. IsFinished work.plain (plain_verdict v)) }
{
    let left = work.left().count();
    if left == 1 {
        Ok(Verdict::Accepted(work.finish()?))
    } else {
        Ok(Verdict::NotOne(left))
    }
}
