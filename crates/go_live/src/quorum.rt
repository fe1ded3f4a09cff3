//! Whether keepers, terms and stores are those that a primary may go live with.

ghost use Rattle.std.specs.Prelude.{◌≡◌, ◌≢◌, ◌≤◌, ◌-◌, ◌+◌, ◌↔◌, map, take, count_by, IsTrue, All};
ghost use Rattle.std.specs.List.{Any};
ghost use Rattle.ft_types.specs.declared.names.TheConstants.{KEEPER_LIMIT};
ghost use Rattle.go_live.specs.Quorums.{AreEnough, AreMembers, IsNew, IsOld};
ghost use Rattle.frame_content.specs.Tests.{same_guest};

use ft_types::{Guest, Keeper, KeeperSet, Term};
use log_join::Store;

/// The keepers whose stores these are.
pub fn keepers_of(stores: &[(Keeper, &Store)]) -> KeeperSet
    ensures { AreMembers result (map (λ s. s.0) stores.now) }
{
    let mut keepers = KeeperSet::new();
    for (keeper, _) in stores {
        keepers = keepers.with(*keeper);
    }
    keepers
}

/// Whether more of the keepers, which have the numbers below `keepers`, are in the set than can be left out where `need` hold an output.
pub fn suffice(set: KeeperSet, keepers: u8, need: u8) -> bool
    requires { (need ≤ keepers) × (keepers ≤ KEEPER_LIMIT) }
    ensures { IsTrue result ↔ (keepers - need + 1 ≤ count_by (λ member. member) (take keepers set)) }
{
    let mut here = 0;
    for number in 0..keepers {
        if set.contains(Keeper::new(number)) {
            here += 1;
        }
    }
    here > keepers - need
}

/// Whether the stores are of more keepers than can be left out where `need` hold an output.
pub(crate) fn are_enough(stores: &[(Keeper, &Store)], keepers: u8, need: u8) -> bool
    requires { (need ≤ keepers) × (keepers ≤ KEEPER_LIMIT) }
    ensures { IsTrue result ↔ AreEnough keepers need (map (λ s. s.0) stores.now) }
{
    suffice(keepers_of(stores), keepers, need)
}

/// Whether the term is not 0, and greater than that of every key in the stores.
pub fn is_new(stores: &[(Keeper, &Store)], term: Term) -> bool
    ensures new { IsTrue result → IsNew (map (λ s. s.1.now) stores.now) term }
    ensures old { (IsTrue result → ⊥) → IsOld (map (λ s. s.1.now) stores.now) term }
{
    if term == 0 {
        return false;
    }
    for (_, store) in stores {
        if store.last_term() >= term {
            return false;
        }
    }
    true
}

/// Whether all stores are of this guest.
pub fn are_of(stores: &[(Keeper, &Store)], guest: &Guest) -> bool
    ensures own { IsTrue result → All (λ s. s.guest ≡ guest.now) (map (λ s. s.1.now) stores.now) }
    ensures foreign { (IsTrue result → ⊥) → Any (λ s. s.guest ≢ guest.now) (map (λ s. s.1.now) stores.now) }
{
    for (_, store) in stores {
        if store.guest() != *guest {
            return false;
        }
    }
    true
}
