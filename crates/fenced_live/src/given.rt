//! What is looked at in given stores before anything grows, and the stores themselves.

ghost use Rattle.std.specs.Prelude.{◌≡◌, ◌≢◌, ◌≤◌, ◌↔◌, map, IsTrue, IfOk, All};
ghost use Rattle.std.specs.List.{Any};
ghost use Rattle.ft_types.specs.declared.names.TheConstants.{KEEPER_LIMIT};
ghost use Rattle.go_live.specs.Quorums.{AreEnough, AreMembers, IsNew, IsOld};
ghost use Rattle.frame_content.specs.Tests.{same_guest};

use ft_types::{Guest, Keeper, KeeperSet, Memory, Term};
use go_live::suffice;
use log_join::Store;
use std::alloc::Global;
use std::result::Result;

/// A keeper's store, given to a term.
#[derive(Clone, Copy)]
pub struct Given<'k> {
    pub keeper: Keeper,
    pub term: Term,
    pub store: &'k Store,
}

/// Whether all stores were given to this term.
pub(crate) fn are_to(given: &[Given<'_>], term: Term) -> bool
    ensures own { IsTrue result → All (λ g. g.term ≡ term) given.now }
    ensures other { (IsTrue result → ⊥) → Any (λ g. g.term ≢ term) given.now }
{
    for one in given {
        if one.term != term {
            return false;
        }
    }
    true
}

/// The keepers that gave their stores.
fn givers(given: &[Given<'_>]) -> KeeperSet
    ensures { AreMembers result (map (λ g. g.keeper) given.now) }
{
    let mut keepers = KeeperSet::new();
    for one in given {
        keepers = keepers.with(one.keeper);
    }
    keepers
}

/// Whether more keepers gave their stores than can be left out where `need` hold an output.
pub(crate) fn are_enough(given: &[Given<'_>], keepers: u8, need: u8) -> bool
    requires { (need ≤ keepers) × (keepers ≤ KEEPER_LIMIT) }
    ensures { IsTrue result ↔ AreEnough keepers need (map (λ g. g.keeper) given.now) }
{
    suffice(givers(given), keepers, need)
}

/// Whether the term is not 0, and greater than that of every key in the stores.
pub(crate) fn is_new(given: &[Given<'_>], term: Term) -> bool
    ensures new { IsTrue result → IsNew (map (λ g. g.store.now) given.now) term }
    ensures old { (IsTrue result → ⊥) → IsOld (map (λ g. g.store.now) given.now) term }
{
    if term == 0 {
        return false;
    }
    for one in given {
        if one.store.last_term() >= term {
            return false;
        }
    }
    true
}

/// Whether all stores are of this guest.
pub(crate) fn are_of(given: &[Given<'_>], guest: &Guest) -> bool
    ensures own { IsTrue result → All (λ s. s.guest ≡ guest.now) (map (λ g. g.store.now) given.now) }
    ensures foreign { (IsTrue result → ⊥) → Any (λ s. s.guest ≢ guest.now) (map (λ g. g.store.now) given.now) }
{
    for one in given {
        if one.store.guest() != *guest {
            return false;
        }
    }
    true
}

/// The keepers with the stores that they gave.
pub(crate) fn stores_of<'k>(
    alloc: Global,
    given: &[Given<'k>],
) -> Result<Vec<(Keeper, &'k Store)>, Memory>
    ensures keepers { IfOk result (λ stores. map (λ s. s.0) stores.items ≡ map (λ g. g.keeper) given.now) }
    ensures stores { IfOk result (λ stores. map (λ s. s.1.now) stores.items ≡ map (λ g. g.store.now) given.now) }
{
    let mut stores = Vec::new(alloc);
    stores.reserve(given.len())?;
    for one in given {
        stores.push_reserved((one.keeper, one.store));
    }
    Ok(stores)
}
