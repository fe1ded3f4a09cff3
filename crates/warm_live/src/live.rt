//! A primary that goes live from a backup.

ghost use Rattle.std.specs.Prelude.{◌≡◌, ◌≢◌, ◌<◌, ◌≤◌, ◌+◌, ◌-◌, ◌↔◌, ◌∷◌, ℕ, map, take, sum, Err, All, IfOk, IfErr, OnOk, OnErr};
ghost use Rattle.std.specs.List.{Any};
ghost use Rattle.input_log.specs.Waiting.{bells_of};
ghost use Rattle.book_modes.specs.Silences.{unheard_bells};
ghost use Rattle.ft_types.specs.Counts.{count_at};
ghost use Rattle.hart_lease.specs.Runs.{counts_of};
ghost use Rattle.book_modes.specs.Recordings.{IsUnused};
ghost use Rattle.closed_cut.specs.Position.{IsPosition};
ghost use Rattle.guest_image.specs.Image.{guest_of};
ghost use Rattle.go_live.specs.Joined.{AreJoined, AreJoinedTo};
ghost use Rattle.go_live.specs.Quorums.{distinct_below, AreEnough, IsNew, IsOld};
ghost use Rattle.primary.specs.Outputs.{outputs_in};
ghost use Rattle.go_live.specs.Faults.{IfReplay};
ghost use Rattle.hart_replay.specs.GoingOn.{GoOnFrom};
ghost use Rattle.hart_replay.specs.Images.{GuestHistory};
ghost use Rattle.hart_replay.specs.Laws.{ArePlanned};
ghost use Rattle.go_live.specs.Histories.{AreOfHistory, IsOfHistory, MakesLonger};
ghost use Rattle.go_live.specs.Lives.{IsAtPosition, LeadNowhere};
ghost use Rattle.primary.specs.Primaries.{BeginsFrom};

use crate::checks::may_go;
use crate::onward::{catch_up, go_on};
use ft_types::{Keeper, Quorum, Term};
use go_live::{Live, LiveFault};
use hart_replay::ReplayFault;
use log_join::Store;
use std::alloc::Global;
use std::result::Result;
use warm_backup::Backup;

/// A primary of a new term, as of `go_live`, where the first of the stores is a keeper's own, whose backup goes on from where it stands
/// in place of from boot.
pub fn go_live_warm(
    alloc: Global,
    backup: &mut Backup,
    own: Keeper,
    stores: &[(Keeper, &Store)],
    quorum: Quorum,
    term: Term,
) -> Result<Live, LiveFault>
    // The book begins with the machine at the position of the joined stores, and nothing is settled in it; the opening names
    // that position, and the marks are what is noted inside.
    ensures position { IfOk result (λ live. IsAtPosition backup.old.image (backup.old.store ∷ map (λ s. s.1.now) stores.now) term
        live.book.start live.opening live.marks) }
    ensures book { IfOk result (λ live. BeginsFrom live.book.start live.book) }

    // Nothing is recorded, each hart's limit is its count, and only the bells that were rung and not heard wait.
    ensures mode { IfOk result (λ live. IsUnused live.book.mode live.book.start live.opening.base) }
    ensures limits { IfOk result (λ live. (hart : ℕ) → count_at live.book.mode.limits hart ≡ counts_of live.book.start hart) }
    ensures bells { IfOk result (λ live. (hart : ℕ) → bells_of live.book.mode.desk hart ≡ unheard_bells live.book.start hart) }
    ensures outputs { IfOk result (λ live. live.outputs.items ≡ outputs_in live.book.start) }

    // It is where the backup has gone: its steps are those from its old position on, where what it had replayed begins what all
    // stores tell, else all.
    ensures here { IfOk result (λ live. (live.book.start ≡ backup.new.machine) × (live.opening.base ≡ backup.new.position.counts)) }
    ensures steps_on { OnOk result (GoOnFrom backup.old.legs backup.new.legs →
        backup.new.last_steps ≡ sum backup.new.position.counts - sum backup.old.position.counts) }
    ensures steps_anew { OnOk result ((GoOnFrom backup.old.legs backup.new.legs → ⊥) → backup.new.last_steps ≡ sum backup.new.position.counts) }
    ensures joined { OnOk result (AreJoined (guest_of backup.old.image) (backup.old.store ∷ map (λ s. s.1.now) stores.now) backup.new.store) }
    ensures reached { OnOk result (IsPosition backup.new.store backup.new.position) }
    ensures planned { OnOk result (ArePlanned backup.new.store backup.new.position backup.new.legs) }
    ensures image { backup.new.image ≡ backup.old.image }

    // The faults, each exactly where it is due, in this order. Memory may be refused once the first two are looked at.
    ensures too_few { (result ≡ Err LiveFault.TooFewStores) ↔ (distinct_below quorum.keepers (own ∷ map (λ s. s.0) stores.now) < quorum.keepers - quorum.need + 1) }
    ensures not_new { (result ≡ Err LiveFault.TermNotNew)
        ↔ (AreEnough quorum.keepers quorum.need (own ∷ map (λ s. s.0) stores.now) × IsOld (backup.old.store ∷ map (λ s. s.1.now) stores.now) term) }
    ensures other_guest { (result ≡ Err (LiveFault.Replay ReplayFault.OtherGuest))
        ↔ (AreEnough quorum.keepers quorum.need (own ∷ map (λ s. s.0) stores.now) × IsNew (backup.old.store ∷ map (λ s. s.1.now) stores.now) term
        × Any (λ store. store.guest ≢ guest_of backup.old.image) (backup.old.store ∷ map (λ s. s.1.now) stores.now)) }
    ensures replay { IfErr result (λ f. IfReplay f (λ fault. fault ≢ ReplayFault.OtherGuest →
        LeadNowhere backup.old.image (backup.old.store ∷ map (λ s. s.1.now) stores.now) fault)) }
    ensures enough { OnOk result (AreEnough quorum.keepers quorum.need (own ∷ map (λ s. s.0) stores.now)) }
    ensures new { OnOk result (IsNew (backup.old.store ∷ map (λ s. s.1.now) stores.now) term) }
    ensures guest { OnOk result (All (λ store. store.guest ≡ guest_of backup.old.image) (backup.old.store ∷ map (λ s. s.1.now) stores.now)) }

    // Refused, some of the stores may be joined, and where it is not memory it stands where it stood.
    ensures some { OnErr result ((n : ℕ) × AreJoinedTo backup.old.store (take n (map (λ s. s.1.now) stores.now)) backup.new.store) }
    ensures stands { IfErr result (λ f. f ≢ LiveFault.Memory → backup.new ≡ record backup.old { store = backup.new.store }) }

    // Where the stores have frames of one history, the machine is the history's, no replay fails but for another guest or
    // memory, and with the book's term the history is one again, also once the book has gone on.
    ensures history { IfOk result (λ live. (history : GuestHistory) →
        AreOfHistory backup.old.image history (backup.old.store ∷ map (λ s. s.1.now) stores.now) →
        IsOfHistory backup.old.image history live.book.start live.opening) }
    ensures history_ends { IfErr result (λ f. IfReplay f (λ fault. (history : GuestHistory) →
        AreOfHistory backup.old.image history (backup.old.store ∷ map (λ s. s.1.now) stores.now) → fault ≡ ReplayFault.OtherGuest)) }
    ensures longer { IfOk result (λ live. (history : GuestHistory) →
        AreOfHistory backup.old.image history (backup.old.store ∷ map (λ s. s.1.now) stores.now) →
        MakesLonger backup.old.image history term live.book.start live.opening) }
{
    match may_go(backup, own, stores, quorum, term) {
        Ok(()) => {}
        Err(fault) => return Err(fault),
    }
    catch_up(alloc, backup, stores)?;
    Ok(go_on(alloc, backup, term)?)
}
