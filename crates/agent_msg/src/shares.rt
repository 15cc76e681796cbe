//! The parties of a decision, with their visits and values after, as bytes.
ghost use Rattle.std.specs.Prelude.{◌≡◌, ◌≢◌, ℕ, ◌↔◌, ◌<◌, [], ◌∷◌, ◌++◌, List, length, IsTrue, IfSome, Some, option_map, replicate, flat_map, slice_index};
ghost use Rattle.agent_msg.specs.Records.{Share, ZeroElsewhere};
ghost use Rattle.agent_msg.specs.Bytes.{share_bytes, tail_bytes, SharesFit};
ghost use Rattle.agent_msg.specs.Shares.{shares_of, with_share};

use crate::bytes::{high, low, number};
use nego_base::{AgentId, AgentSet};

/// The parties of a decision, and for each its visit and its value after.
#[derive(Clone, Copy, Debug)]
pub struct Shares {
    pub parties: AgentSet,
    pub visits: [u16; 16],
    pub afters: [u16; 16],
}

impl Shares {
    /// The share of a party as bytes.
    fn bytes_of(&self, a: AgentId) -> [u8; 4]
        requires { a.0 < 16 }
        ensures { result ≡ share_bytes (record { agent = a.0; visit = slice_index self.now.visits a.0; after = slice_index self.now.afters a.0 }) }
    {
        let visit = u32::from(self.visits[a.0 as usize]);
        let after = u32::from(self.afters[a.0 as usize]);
        [low(a.0), high(visit), low(visit), low(after)]
    }

    /// Puts how many parties there are, and their shares, behind the first five bytes of a record.
    pub fn put_into(&self, bytes: &mut [u8; 127])
        ensures { (head : List ℕ) → length head ≡ 5 → bytes.old ≡ head ++ replicate 122 0 → bytes.new ≡ head ++ tail_bytes (shares_of self.now) }
    {
        bytes[5] = low(self.parties.count());
        let mut at = 6;
        let mut left = self.parties;
        while let Some(a) = left.least() {
            bytes[at..at + 4].copy_from_slice(&self.bytes_of(a));
            at += 4;
            left = left.without(a);
        }
    }

    /// Whether there is a party, and all numbers are within their bounds.
    pub fn fit(&self) -> bool
        ensures { IsTrue result ↔ (SharesFit (shares_of self.now) × (shares_of self.now ≢ [])) }
    {
        if self.parties.count() == 0 {
            return false;
        }
        let mut left = self.parties;
        while let Some(a) = left.least() {
            if self.visits[a.0 as usize] >= 10_000 || self.afters[a.0 as usize] >= 64 {
                return false;
            }
            left = left.without(a);
        }
        true
    }

    /// Adds a party with its visit and its value after.
    fn add(&mut self, a: AgentId, visit: u16, after: u16)
        requires { a.0 < 16 }
        ensures { self.new ≡ with_share a.0 visit after self.old }
    {
        self.parties = self.parties.with(a);
        self.visits[a.0 as usize] = visit;
        self.afters[a.0 as usize] = after;
    }
}

/// The only shares that so many of them and the bytes behind their number may spell.
pub fn read_counted(count: u8, rest: &[u8]) -> Option<Shares>
    ensures found { (shares : List Share) → SharesFit shares → count ∷ rest.now ≡ tail_bytes shares → option_map shares_of result ≡ Some shares }
    ensures tidy { IfSome result (λ s. ZeroElsewhere s.parties s.visits s.afters) }
{
    let length = 4 * usize::from(count);
    if rest.len() < length {
        return None;
    }
    read_shares(&rest[..length])
}

/// The only shares that the bytes may spell.
fn read_shares(bytes: &[u8]) -> Option<Shares>
    ensures found { (shares : List Share) → SharesFit shares → bytes.now ≡ flat_map share_bytes shares → option_map shares_of result ≡ Some shares }
    ensures tidy { IfSome result (λ s. ZeroElsewhere s.parties s.visits s.afters) }
{
    let mut shares = Shares {
        parties: AgentSet::none(),
        visits: [0; 16],
        afters: [0; 16],
    };
    let mut rest = bytes;
    while let [agent, visit_high, visit_low, after, behind @ ..] = rest {
        if *agent >= 16 {
            return None;
        }
        let visit = number(*visit_high, *visit_low);
        shares.add(AgentId(u32::from(*agent)), visit, u16::from(*after));
        rest = behind;
    }
    Some(shares)
}
