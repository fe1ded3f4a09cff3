//! How far above the last term one may lie.

ghost use Rattle.std.specs.Prelude.{◌+◌, ◌<◌, ◌↔◌, IsTrue};
ghost use Rattle.stations.specs.declared.reach.TheConstants.{TERM_REACH};

use ft_types::Term;

/// So far above the last term one may lie: behind one that was mistyped or forged, thousands of others are left.
pub const TERM_REACH: Term = 1 << 20;

/// Whether the term lies further above the last one.
pub(crate) fn is_out_of_reach(last: Term, term: Term) -> bool
    ensures { IsTrue result ↔ (last + TERM_REACH < term) }
{
    u64::from(last) + u64::from(TERM_REACH) < u64::from(term)
}
