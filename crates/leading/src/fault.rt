//! Why no primary leads a term.

use fenced_live::GivenFault;

/// Why no primary leads a term. The first of these that holds is the answer.
#[derive(Clone, Copy, PartialEq, Eq)]
pub enum LeadFault {
    /// A store is of a number that is none of the keepers'.
    NoKeeper,
    /// No primary goes live from the stores.
    NotLive(GivenFault),
}

impl From<GivenFault> for LeadFault {
    ghost use Rattle.std.specs.Prelude.{◌≡◌};
    ghost use Rattle.leading.specs.declared.fault.LeadFault.TheVariants.{NotLive};

    ghost from_gives = { λ fault e. e ≡ NotLive fault };

    fn from(fault: GivenFault) -> LeadFault {
        LeadFault::NotLive(fault)
    }
}
