//! Which agents are parties of which atoms, and to which atoms they go.
ghost use Rattle.std.specs.Prelude.{◌≡◌, ◌<◌};
ghost use Rattle.nego_base.specs.Members.{is_in};
ghost use Rattle.nego_make.specs.Generated.{everyone, parties, is_next};

/// All agents.
pub(crate) fn everyone() -> &'static [u32]
    ensures { result.now ≡ everyone }
{
    &[0, 1, 2, 3]
}

/// The parties of atom i of n.
pub(crate) fn parties(n: u32, i: u32) -> &'static [u32]
    requires { i < n }
    ensures { result.now ≡ parties n i }
{
    if i + 1 == n {
        return everyone();
    }
    match i % 3 {
        1 => &[0, 1],
        2 => &[2, 3],
        _ => everyone(),
    }
}

/// Whether the agent is a party of atom i of n.
fn is_party(n: u32, i: u32, a: u32) -> bool
    requires { i < n }
    ensures { result ≡ is_in a (parties n i) }
{
    parties(n, i).iter().any(|b| *b == a)
}

/// Whether atom j of n is the first behind atom i that has the agent as a party.
pub(crate) fn is_next(n: u32, i: u32, j: u32, a: u32) -> bool
    requires behind { i < j }
    requires within { j < n }
    ensures { result ≡ is_next n i j a }
{
    for k in i + 1..j {
        if is_party(n, k, a) {
            return false;
        }
    }
    is_party(n, j, a)
}
