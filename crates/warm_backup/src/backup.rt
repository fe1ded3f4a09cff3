//! A machine that keeps up with a store.

ghost use Rattle.std.specs.Prelude.{◌≡◌, ◌≢◌, ◌⊎◌, ◌↔◌, ◌-◌, ℕ, List, [], length, replicate, sum, Ok, Err, IfOk, IfErr, OnOk, OnErr, IsTrue};
ghost use Rattle.fragment_codec.specs.declared.frame.Frame.{Frame as frame_of_specs};
ghost use Rattle.fragment_codec.specs.Rules.{FragmentParts};
ghost use Rattle.guest_image.specs.Image.{guest_of};
ghost use Rattle.guest_image.specs.Machine.{boot_machine};
ghost use Rattle.log_join.specs.Answers.{answer_to};
ghost use Rattle.log_join.specs.Stores.{IsJoin, nothing, alone};
ghost use Rattle.closed_cut.specs.Position.{IsPosition};
ghost use Rattle.tracked_position.specs.machinery.Keeping.{MayGrow};
ghost use Rattle.ft_types.specs.Counts.{count_at};
ghost use Rattle.hart_replay.specs.GoingOn.{GoOnFrom};
ghost use Rattle.hart_replay.specs.Plans.{IsPlan, noted_in};
ghost use Rattle.hart_replay.specs.Replays.{IsOutcome};
ghost use Rattle.hart_replay.specs.KeepingUp.{IsFaultOfStore};
ghost use Rattle.hart_replay.specs.Laws.{ArePlanned};
ghost use Rattle.warm_backup.specs.Backups.{FollowsHistory};
ghost use Rattle.warm_backup.specs.machinery.Working.{TellsOn};

use crate::stand::{Stand, go_to, marks_at};
use closed_cut::Position;
use fragment_codec::Frame;
use ft_types::{Counts, Memory};
use guest_image::{Image, Machine};
use hart_replay::{PlannedLeg, ReplayFault};
use log_join::{Put, Store, StoreFault};
use std::alloc::Global;
use std::marker::Model;
use std::result::Result;
use tracked_position::Tracked;

/// A machine that follows what a store of its own tells of an image's guest. An advance costs its steps, and what it costs to find
/// what came since the one before.
pub struct Backup {
    image: Image,
    tracked: Tracked,
    /// The legs that were replayed, but the last.
    front: Vec<PlannedLeg>,
    stand: Stand,
    position: Position,
    last_steps: u64,
}

impl Drop for Backup {
    fn drop(self) {
        let Backup {
            image: _,
            tracked: _,
            front: _,
            stand: _,
            position: _,
            last_steps: _,
        } = self;
    }
}

impl Model for Backup {
    ghost use Rattle.warm_backup.specs.Backups.{BackupView};
    ghost use Rattle.warm_backup.specs.machinery.Working.{IsBackup, legs_of, machine_of};
    ghost use Rattle.std.specs.Coded.{codes};
    ghost use Rattle.log_join.specs.Stores.{coded_store};

    ghost Value = { BackupView };

    ghost coded = { Prim.hlevel (codes, coded_store) };

    ghost view = { λ b. record {
      image = b.image;
      store = b.tracked;
      legs = legs_of b.front.items b.stand b.position.counts;
      position = b.position;
      machine = machine_of b.stand;
      last_steps = b.last_steps;
    } };

    ghost invariant = { λ b. IsBackup b.image b.tracked b.front.items b.stand b.position };
}

/// Whether the frame is a piece.
fn is_piece(frame: &Frame) -> bool
    ensures { IsTrue result → (f : FragmentParts) × (frame.now ≡ frame_of_specs.Log f) }
{
    match frame {
        Frame::Log(_) => true,
        Frame::Opening(_) => false,
    }
}

/// Whether a store to which the frame came with this answer tells all that it told.
fn tells_on(piece: bool, put: Put) -> bool
    ensures { IsTrue result → TellsOn piece put }
{
    match put {
        Put::New => piece,
        Put::Same | Put::OtherGuest => true,
        Put::Clash => false,
    }
}

/// Goes to a position.
fn go_there(position: &mut Position, end: &Position)
    ensures { position.new ≡ end.now }
{
    position.term = end.term;
    position.counts.copy_from(&end.counts);
    position.top = end.top;
}

impl Backup {
    /// A backup of an image to which nothing came: its machine is at boot.
    pub fn new(alloc: Global, image: &Image) -> Result<Backup, Memory>
        ensures { IfOk result (λ b. b ≡ record {
          image = image.now;
          store = nothing (guest_of image.now);
          legs = [];
          position = record { term = 0; counts = replicate image.now.harts 0; top = 0 };
          machine = boot_machine image.now;
          last_steps = 0;
        }) }
    {
        let machine = Machine::boot(alloc, image)?;
        Ok(Backup {
            image: image.copy()?,
            tracked: Tracked::new(alloc, image.guest()),
            front: Vec::new(alloc),
            stand: Stand::Boot(machine),
            position: Position {
                term: 0,
                counts: Counts::zero(image.harts()),
                top: 0,
            },
            last_steps: 0,
        })
    }

    /// The image of whose guest it is.
    pub fn image(&self) -> &Image
        ensures value { result.now ≡ self.now.image }
        ensures guest { self.now.store.guest ≡ guest_of self.now.image }
    {
        &self.image
    }

    /// What came.
    pub fn store(&self) -> &Store
        ensures { result.now ≡ self.now.store }
    {
        self.tracked.store()
    }

    /// The machine at the position.
    pub fn machine(&self) -> &Machine
        ensures value { result.now ≡ self.now.machine }
        // Schedules of what was planned lead to it from boot, one leg after the other.
        ensures plan { IsPlan (guest_of self.now.image) self.now.legs }
        ensures outcome { IsOutcome self.now.image self.now.legs result.now }
    {
        self.stand.machine()
    }

    /// For each hart the greatest number that is noted in what was planned, or 0.
    pub fn marks(&self) -> Counts
        ensures { (hart : ℕ) → count_at result hart ≡ noted_in self.now.legs hart }
    {
        marks_at(
            self.front.as_slice(),
            &self.stand,
            &self.position,
            self.image.harts(),
        )
    }

    /// The position to which it last went.
    pub fn position(&self) -> &Position
        ensures { result.now ≡ self.now.position }
    {
        &self.position
    }

    /// The position of all that came.
    pub fn reached(&self) -> &Position
        ensures position { IsPosition self.now.store result.now }
        ensures harts { length result.now.counts ≡ self.now.store.guest.harts }
    {
        self.tracked.position()
    }

    /// How many steps the last advance took that was not refused.
    pub fn last_steps(&self) -> u64
        ensures { result ≡ self.now.last_steps }
    {
        self.last_steps
    }

    /// Takes a frame.
    pub fn put(&mut self, alloc: Global, frame: Frame) -> Result<Put, Memory>
        // The answer is as its key stood, and OtherGuest first.
        ensures answer { IfOk result (λ p. p ≡ answer_to self.old.store frame) }
        // What came is joined with the store of that one frame.
        ensures joined { IfOk result (λ p. p ≢ Put.OtherGuest → IsJoin self.old.store (alone frame) self.new.store) }
        ensures same { result ≡ Ok Put.Same → self.new ≡ self.old }
        ensures other_guest { result ≡ Ok Put.OtherGuest → self.new ≡ self.old }
        // Nothing goes on before it advances.
        ensures rest { self.new ≡ record self.old { store = self.new.store } }
        // Memory is refused only where the store would change, and then nothing changes.
        ensures memory { OnErr result (MayGrow self.old.store frame) }
        ensures err { OnErr result (self.new ≡ self.old) }
    {
        let piece = is_piece(&frame);
        let put = self.tracked.put(alloc, frame)?;
        // proof: a store keeps the rules by type.
        let _rules = self.tracked.store().guest();
        if !tells_on(piece, put) {
            self.stand.look_anew();
        }
        Ok(put)
    }

    /// Joins a store to its own.
    pub fn join(&mut self, alloc: Global, other: &Store) -> Result<(), StoreFault>
        ensures joined { OnOk result (IsJoin self.old.store other.now self.new.store) }
        ensures other_guest { (result ≡ Err StoreFault.OtherGuest) ↔ (self.old.store.guest ≢ other.now.guest) }
        ensures rest { self.new ≡ record self.old { store = self.new.store } }
        ensures err { OnErr result (self.new ≡ self.old) }
    {
        self.tracked.join(alloc, other)?;
        self.stand.look_anew();
        Ok(())
    }

    /// Goes to the store's position: from where it stands, where what it replayed begins what the store tells, else from boot.
    /// Where it is refused nothing has changed.
    pub fn advance(&mut self, alloc: Global) -> Result<(), ReplayFault>
        ensures image { self.new.image ≡ self.old.image }
        ensures store { self.new.store ≡ self.old.store }
        ensures position { OnOk result (IsPosition self.old.store self.new.position) }
        ensures harts { OnOk result (length self.new.position.counts ≡ self.old.store.guest.harts) }
        ensures planned { OnOk result (ArePlanned self.old.store self.new.position self.new.legs) }
        ensures outcome { OnOk result (IsOutcome self.new.image self.new.legs self.new.machine) }
        // Its steps are those from the old position to the new one where it went on, else all.
        ensures steps_on { OnOk result (GoOnFrom self.old.legs self.new.legs →
            self.new.last_steps ≡ sum self.new.position.counts - sum self.old.position.counts) }
        ensures steps_anew { OnOk result ((GoOnFrom self.old.legs self.new.legs → ⊥) → self.new.last_steps ≡ sum self.new.position.counts) }
        ensures fault { IfErr result (λ f. (f ≡ ReplayFault.Memory) ⊎ IsFaultOfStore self.old.image self.old.store f) }
        // Of honest frames nothing is cyclic or halted inside, and the machine is the one that they tell of.
        ensures history { FollowsHistory self.old.store result self.new }
        ensures err { OnErr result (self.new ≡ self.old) }
    {
        let end = self.tracked.position();
        let steps = go_to(
            alloc,
            &self.image,
            self.tracked.store(),
            &mut self.front,
            &mut self.stand,
            &self.position,
            end,
        )?;
        self.last_steps = steps;
        go_there(&mut self.position, end);
        Ok(())
    }
}
