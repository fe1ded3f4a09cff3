//! What a tick finds of keepers.

use ft_types::{Keeper, Term};

/// What a tick finds of keepers.
#[derive(Clone, Copy, PartialEq, Eq)]
pub enum Finding {
    /// This one is heard, and has lacked for too long some of what it was sent: it is to be sent all once more.
    Lacks(Keeper),
    /// Nothing was heard of this one for two ticks.
    Lost(Keeper),
    /// It is heard again.
    Back(Keeper),
    /// It acknowledged something in this later term: it was fenced off.
    Fenced(Keeper, Term),
    /// Outputs wait for keepers, and so many are heard that are not fenced off, too few.
    Few(u8),
    /// So many are heard again, which is enough.
    Enough(u8),
}
