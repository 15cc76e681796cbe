//! Laws of replayed reductions. Each function does nothing; its clause is the law.

ghost use Rattle.nego_cli.specs.ReplayLaws.{ReductionsAreReplayed};

/// A diagram followed by what `reduce` prints of it is an input of `replay`, which accepts the certificate with the same
/// summary where the diagram is called sound.
pub fn reductions_are_replayed()
    ensures { ReductionsAreReplayed }
{}
