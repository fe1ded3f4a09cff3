//! A backup that goes on to what is joined to its store, and the primary that begins there.

ghost use Rattle.std.specs.Prelude.{◌≡◌, ◌≢◌, ◌<◌, ◌∷◌, ℕ, map, take, length, IfOk, IfErr, OnOk, OnErr};
ghost use Rattle.book_modes.specs.Recordings.{IsUnused};
ghost use Rattle.ft_types.specs.Counts.{count_at};
ghost use Rattle.guest_image.specs.Image.{guest_of};
ghost use Rattle.go_live.specs.Joined.{AreJoinedTo};
ghost use Rattle.go_live.specs.Lives.{opening_from, LeadNowhere};
ghost use Rattle.hart_replay.specs.Plans.{noted_in};
ghost use Rattle.primary.specs.Outputs.{outputs_in};
ghost use Rattle.primary.specs.Primaries.{BeginsFrom};
ghost use Rattle.warm_live.specs.machinery.Onward.{HasCaughtUp};

use ft_types::{Keeper, Memory, Term};
use go_live::{Live, begin, opening_of};
use hart_replay::ReplayFault;
use log_join::Store;
use std::alloc::Global;
use std::result::Result;
use warm_backup::Backup;

/// Joins the stores to what the backup holds, one after the other. Refused, some of them are.
fn join_all(alloc: Global, backup: &mut Backup, stores: &[(Keeper, &Store)]) -> Result<(), Memory>
    ensures joined { OnOk result (AreJoinedTo backup.old.store (map (λ s. s.1.now) stores.now) backup.new.store) }
    ensures some { OnErr result ((n : ℕ) × AreJoinedTo backup.old.store (take n (map (λ s. s.1.now) stores.now)) backup.new.store) }
    ensures rest { backup.new ≡ record backup.old { store = backup.new.store } }
{
    for (_, store) in stores {
        match backup.join(alloc, store) {
            Ok(()) => {}
            Err(_) => return Err(Memory),
        }
    }
    Ok(())
}

/// Joins the stores to what the backup holds, and goes to where all of them lead.
pub(crate) fn catch_up(
    alloc: Global,
    backup: &mut Backup,
    stores: &[(Keeper, &Store)],
) -> Result<(), ReplayFault>
    ensures caught { OnOk result (HasCaughtUp backup.old (map (λ s. s.1.now) stores.now) backup.new) }
    ensures fault { IfErr result (λ f. f ≢ ReplayFault.Memory → LeadNowhere backup.old.image (backup.old.store ∷ map (λ s. s.1.now) stores.now) f) }
    ensures some { OnErr result ((n : ℕ) × AreJoinedTo backup.old.store (take n (map (λ s. s.1.now) stores.now)) backup.new.store) }
    ensures err { OnErr result (backup.new ≡ record backup.old { store = backup.new.store }) }
{
    // proof: a backup's store is of its image's guest.
    let _own = backup.image();
    join_all(alloc, backup, stores)?;
    // proof: a store keeps its rules by type.
    let _rules = backup.store().guest();
    backup.advance(alloc)?;
    // proof: so does a plan.
    let _planned = backup.machine();
    Ok(())
}

/// A primary of a new term that goes on from where the backup stands.
pub(crate) fn go_on(alloc: Global, backup: &Backup, term: Term) -> Result<Live, Memory>
    requires harts { length backup.now.position.counts ≡ backup.now.image.harts }
    requires machine { length backup.now.machine.harts ≡ backup.now.image.harts }
    requires later { backup.now.position.term < term }
    requires boot { backup.now.position.term ≡ 0 → (hart : ℕ) → count_at backup.now.position.counts hart ≡ 0 }
    ensures opening { IfOk result (λ live. live.opening ≡ opening_from (guest_of backup.now.image) term backup.now.position) }
    ensures book { IfOk result (λ live. BeginsFrom backup.now.machine live.book) }
    ensures mode { IfOk result (λ live. IsUnused live.book.mode backup.now.machine backup.now.position.counts) }
    ensures outputs { IfOk result (λ live. live.outputs.items ≡ outputs_in backup.now.machine) }
    ensures marks { IfOk result (λ live. (hart : ℕ) → count_at live.marks hart ≡ noted_in backup.now.legs hart) }
{
    let position = *backup.position();
    let machine = backup.machine().copy()?;
    let opening = opening_of(backup.image().guest(), term, &position);
    let marks = backup.marks();
    Ok(begin(alloc, machine, position.counts, opening, marks)?)
}
