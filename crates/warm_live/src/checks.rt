//! Whether keepers, terms and stores are those that a primary may go live with, where one of them is its own.

ghost use Rattle.std.specs.Prelude.{◌≡◌, ◌≢◌, ◌<◌, ◌≤◌, ◌-◌, ◌+◌, ◌⊎◌, ◌↔◌, ◌∷◌, map, Err, All, IfErr, IsTrue, OnOk};
ghost use Rattle.std.specs.List.{Any};
ghost use Rattle.guest_image.specs.Image.{guest_of};
ghost use Rattle.go_live.specs.Quorums.{distinct_below, AreEnough, IsNew, IsOld};

use ft_types::{Keeper, Quorum, Term};
use go_live::{LiveFault, are_of, is_new, keepers_of, suffice};
use hart_replay::ReplayFault;
use log_join::Store;
use std::result::Result;
use warm_backup::Backup;

/// Whether the stores and this keeper's are of more keepers than can be left out where as many as are needed hold an output.
fn are_enough(own: Keeper, stores: &[(Keeper, &Store)], quorum: Quorum) -> bool
    ensures { IsTrue result ↔ AreEnough quorum.keepers quorum.need (own ∷ map (λ s. s.0) stores.now) }
{
    suffice(
        keepers_of(stores).with(own),
        quorum.keepers(),
        quorum.need(),
    )
}

/// Whether the term is not 0, and greater than that of every key in this store and the others.
fn is_new_to(own: &Store, stores: &[(Keeper, &Store)], term: Term) -> bool
    ensures new { IsTrue result → IsNew (own.now ∷ map (λ s. s.1.now) stores.now) term }
    ensures old { (IsTrue result → ⊥) → IsOld (own.now ∷ map (λ s. s.1.now) stores.now) term }
{
    if own.last_term() >= term {
        return false;
    }
    is_new(stores, term)
}

/// Whether a primary may go live in the term from what the backup, which is this keeper's, and the other stores hold.
pub(crate) fn may_go(
    backup: &Backup,
    own: Keeper,
    stores: &[(Keeper, &Store)],
    quorum: Quorum,
    term: Term,
) -> Result<(), LiveFault>
    ensures too_few { (result ≡ Err LiveFault.TooFewStores) ↔ (distinct_below quorum.keepers (own ∷ map (λ s. s.0) stores.now) < quorum.keepers - quorum.need + 1) }
    ensures not_new { (result ≡ Err LiveFault.TermNotNew)
        ↔ (AreEnough quorum.keepers quorum.need (own ∷ map (λ s. s.0) stores.now) × IsOld (backup.now.store ∷ map (λ s. s.1.now) stores.now) term) }
    ensures other_guest { (result ≡ Err (LiveFault.Replay ReplayFault.OtherGuest))
        ↔ (AreEnough quorum.keepers quorum.need (own ∷ map (λ s. s.0) stores.now) × IsNew (backup.now.store ∷ map (λ s. s.1.now) stores.now) term
        × Any (λ store. store.guest ≢ guest_of backup.now.image) (backup.now.store ∷ map (λ s. s.1.now) stores.now)) }
    ensures enough { OnOk result (AreEnough quorum.keepers quorum.need (own ∷ map (λ s. s.0) stores.now)) }
    ensures new { OnOk result (IsNew (backup.now.store ∷ map (λ s. s.1.now) stores.now) term) }
    ensures guest { OnOk result (All (λ store. store.guest ≡ guest_of backup.now.image) (backup.now.store ∷ map (λ s. s.1.now) stores.now)) }
    ensures no_other { IfErr result (λ f. (f ≡ LiveFault.TooFewStores) ⊎ (f ≡ LiveFault.TermNotNew) ⊎ (f ≡ LiveFault.Replay ReplayFault.OtherGuest)) }
{
    if !are_enough(own, stores, quorum) {
        return Err(LiveFault::TooFewStores);
    }
    if !is_new_to(backup.store(), stores, term) {
        return Err(LiveFault::TermNotNew);
    }
    let guest = backup.image().guest();
    if !are_of(stores, &guest) {
        return Err(LiveFault::Replay(ReplayFault::OtherGuest));
    }
    Ok(())
}
