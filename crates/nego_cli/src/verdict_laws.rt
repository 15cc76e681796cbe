//! Laws of verdicts. Each function does nothing; its clause is the law.

ghost use Rattle.nego_cli.specs.Verdict.{VerdictsAreOne};

/// A diagram has at most one verdict, after one list of uses.
pub fn verdicts_are_one()
    ensures { VerdictsAreOne }
{}
