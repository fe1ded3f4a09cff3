//! Why no primary goes live from given stores.

use go_live::LiveFault;

/// Why no primary goes live from given stores. The first of these that holds is the answer.
#[derive(Clone, Copy, PartialEq, Eq)]
pub enum GivenFault {
    /// A store was given to another term.
    OtherTerm,
    /// No primary goes live from these stores.
    Live(LiveFault),
}

impl From<LiveFault> for GivenFault {
    ghost use Rattle.std.specs.Prelude.{◌≡◌};
    ghost use Rattle.fenced_live.specs.declared.fault.GivenFault.TheVariants.{Live};

    ghost from_gives = { λ fault e. e ≡ Live fault };

    fn from(fault: LiveFault) -> GivenFault {
        GivenFault::Live(fault)
    }
}
