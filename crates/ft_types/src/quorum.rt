//! How many keepers there are, and how many of them must hold an output.

ghost use Rattle.ft_types.specs.declared.names.TheConstants.{KEEPER_LIMIT};
ghost use Rattle.std.specs.Prelude.{◌≡◌, ◌<◌, ◌≤◌, ◌↔◌, IsSome, IfSome};

use crate::names::KEEPER_LIMIT;

/// Keepers, and how many of them must hold an output before it goes out.
#[derive(Clone, Copy, PartialEq, Eq)]
pub struct Quorum {
    keepers: u8,
    need: u8,
    ghost sized: { (0 < need) × (need ≤ keepers) × (keepers ≤ KEEPER_LIMIT) },
}

impl Quorum {
    /// 1 to 5 keepers, of whom 1 to all must hold an output: `None` for other numbers.
    pub fn new(keepers: u64, need: u64) -> Option<Quorum>
        ensures exact { IsSome result ↔ ((0 < need) × (need ≤ keepers) × (keepers ≤ KEEPER_LIMIT)) }
        ensures parts { IfSome result (λ q. (q.keepers ≡ keepers) × (q.need ≡ need)) }
    {
        if need == 0 || need > keepers || keepers > u64::from(KEEPER_LIMIT) {
            return None;
        }
        Some(Quorum {
            keepers: keepers as u8,
            need: need as u8,
        })
    }

    /// The number of keepers.
    pub fn keepers(self) -> u8
        ensures value { result ≡ self.keepers }
        ensures some { 0 < result }
        ensures limit { result ≤ KEEPER_LIMIT }
    {
        self.keepers
    }

    /// How many of them must hold an output.
    pub fn need(self) -> u8
        ensures value { result ≡ self.need }
        ensures some { 0 < result }
        ensures limit { result ≤ self.keepers }
    {
        self.need
    }
}
