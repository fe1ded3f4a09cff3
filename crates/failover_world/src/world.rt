//! The world: a primary, the terms before it, what was sent, what keepers hold, and what went out.

ghost use Rattle.std.specs.Prelude.{◌≡◌, ◌≢◌, ◌<◌, ◌≤◌, ◌∷◌, [], true, false, replicate, None, Some, IfOk, IfErr, OnOk, OnErr, IfSome, IfNone};
ghost use Rattle.std.specs.Vec.{vec_len, vec_capacity};
ghost use Rattle.ft_types.specs.declared.names.TheConstants.{KEEPER_LIMIT};
ghost use Rattle.log_join.specs.Stores.{nothing};
ghost use Rattle.guest_image.specs.Image.{guest_of};
ghost use Rattle.fragment_codec.specs.declared.frame.Frame.TheVariants.{Opening as opens};
ghost use Rattle.scripts.specs.declared.event.Event.TheVariants as on;
ghost use Rattle.failover_world.specs.declared.fault.WorldFault.TheVariants.{NoPrimary};
ghost use Rattle.primary.specs.Primaries.{IsBooted};
ghost use Rattle.scripts.specs.Coming.{MayCome};
ghost use Rattle.term_gate.specs.TermGates.{IsNewGate};
ghost use Rattle.failover_world.specs.Worlds.{term_of};
ghost use Rattle.failover_world.specs.Happenings.{GoesLiveFrom, Grants, Happens};
ghost use Rattle.failover_world.specs.Refusals.{Refuses, RefusesGrant, CannotGoLive, IsLeft};
ghost use Rattle.go_live.specs.declared.fault.LiveFault.{LiveFault as live_fault};
ghost use Rattle.go_live.specs.declared.fault.LiveFault.TheVariants.{Memory as NoLive};
ghost use Rattle.input_log.specs.Inputs.{is_bell};
ghost use Rattle.failover_world.specs.Promises.{AreHonest, IsOne, IsOfMachine, IsKept, AreHeld, AreAckedInside, AreNotesReleased, NoneIsNoted};

use crate::fault::WorldFault;
use crate::keepers::{
    are_there, count_named, empty_stores, held_by, join, keeper_at, put, stores_named,
};
use fragment_codec::{FIRST_TERM, Frame};
use ft_types::{Counts, Hart, Memory, Term};
use go_live::{LiveFault, go_live};
use guest_image::{Image, Machine};
use input_log::Input;
use primary::{Primary, Released, offer_all};
use scripts::Event;
use std::alloc::Global;
use std::marker::Model;
use std::mem;
use std::result::Result;
use term_gate::TermGate;
use tracked_position::Tracked;

/// Primaries that come one after the other, the keepers of their log, and the gate of the term that was granted last.
///
/// Contracts see its parts, as a `WorldView`.
pub struct World {
    image: Image,
    keepers: u8,
    need: u8,
    primary: Primary,
    runs: bool,
    stopped: Vec<Primary>,
    sent: Vec<Frame>,
    stores: Vec<Option<Tracked>>,
    gate: TermGate,
    released: Vec<Released>,
}

impl Drop for World {
    fn drop(self) {
        let World {
            image: _,
            keepers: _,
            need: _,
            primary: _,
            runs: _,
            stopped: _,
            sent: _,
            stores: _,
            gate: _,
            released: _,
        } = self;
    }
}

impl Model for World {
    ghost use Rattle.failover_world.specs.Worlds.{WorldView};

    ghost Value = { WorldView };

    ghost use Rattle.std.specs.Coded.{codes};
    ghost use Rattle.log_join.specs.Stores.{coded_store};

    ghost coded = { Prim.hlevel (codes, coded_store) };

    ghost use Rattle.failover_world.specs.machinery.Tied.{IsWorld};

    ghost view = { λ w. record {
      image = w.image;
      keepers = w.keepers;
      need = w.need;
      primary = w.primary;
      runs = w.runs;
      stopped = w.stopped.items;
      sent = w.sent.items;
      stores = w.stores.items;
      gate = w.gate;
      released = w.released.items;
    } };

    ghost invariant = { λ w. IsWorld (record {
      image = w.image;
      keepers = w.keepers;
      need = w.need;
      primary = w.primary;
      runs = w.runs;
      stopped = w.stopped.items;
      sent = w.sent.items;
      stores = w.stores.items;
      gate = w.gate;
      released = w.released.items;
    }) };
}

/// Makes room for one more primary that stopped, and for one more frame that was sent.
fn make_room(stopped: &mut Vec<Primary>, sent: &mut Vec<Frame>) -> Result<(), Memory>
    ensures stopped { stopped.new.items ≡ stopped.old.items }
    ensures sent { sent.new.items ≡ sent.old.items }
    ensures room { OnOk result (vec_len stopped.new < vec_capacity stopped.new) }
    ensures frames { OnOk result (vec_len sent.new < vec_capacity sent.new) }
{
    stopped.reserve(1)?;
    sent.reserve(1)?;
    Ok(())
}

impl World {
    /// A primary of term 1 that runs from boot, one to five keepers to which nothing came, of whom `need` hold whatever goes out,
    /// and its opening sent as frame 0.
    pub fn new(alloc: Global, image: &Image, keepers: u8, need: u8) -> Result<World, Memory>
        requires quorum { (0 < need) × (need ≤ keepers) × (keepers ≤ KEEPER_LIMIT) }
        ensures image { IfOk result (λ w. w.image ≡ image.now) }
        ensures quorum { IfOk result (λ w. (w.keepers ≡ keepers) × (w.need ≡ need)) }
        ensures primary { IfOk result (λ w. IsBooted image.now w.primary) }
        ensures runs { IfOk result (λ w. (w.runs ≡ true) × (w.stopped ≡ [])) }
        ensures sent { IfOk result (λ w. w.sent ≡ opens w.primary.opening ∷ []) }
        ensures stores { IfOk result (λ w. w.stores ≡ replicate keepers (Some (nothing (guest_of image.now)))) }
        ensures gate { IfOk result (λ w. IsNewGate w.gate 1 keepers need image.now.harts []) }
        ensures released { IfOk result (λ w. w.released ≡ []) }
    {
        let guest = image.guest();
        let primary = Primary::boot(alloc, image)?;
        let mut sent = Vec::new(alloc);
        sent.push(Frame::Opening(primary.opening.copy()))?;
        let own = image.copy()?;
        let stores = empty_stores(alloc, guest, keepers)?;
        let gate = TermGate::new(
            alloc,
            FIRST_TERM,
            guest.harts(),
            keepers,
            need,
            &Counts::zero(0),
        )?;
        Ok(World {
            image: own,
            keepers,
            need,
            primary,
            runs: true,
            stopped: Vec::new(alloc),
            sent,
            stores,
            gate,
            released: Vec::new(alloc),
        })
    }

    /// All outputs that went out, in the order in which they did, each with the term of the primary whose gate let it.
    pub fn released(&self) -> &[Released]
        ensures value { result.now ≡ self.now.released }

        // Over all that happened to the world: a hart's output of a number has one step and one word; the machine of the term
        // that was granted last has it; each later term has it inside its chain; enough keepers hold it; and each keeper's
        // position has inside what it acknowledged in the last term.
        ensures one { IsOne self.now }
        ensures machine { IsOfMachine self.now }
        ensures kept { IsKept self.now }
        ensures held { AreHeld self.now }
        ensures acknowledged { AreAckedInside self.now }
        // What a primary's book notes went out, and none of it again in a term that has the note inside its chain.
        ensures noted { AreNotesReleased self.now }
        ensures fresh { NoneIsNoted self.now }
    {
        let _machine = self.primary.book.machine();
        self.released.as_slice()
    }

    /// The machine of the primary that runs.
    pub fn machine(&self) -> Option<&Machine>
        ensures runs { IfSome result (λ m. (self.now.runs ≡ true) × (m.now ≡ self.now.primary.book.machine)) }
        ensures stopped { IfNone result (self.now.runs ≡ false) }
    {
        if self.runs {
            Some(self.primary.book.machine())
        } else {
            None
        }
    }

    /// All frames that were sent, in the order of their numbers: frame 0 is the opening of term 1, and each piece of a seal and
    /// each granted opening has the next number.
    pub fn frames(&self) -> &[Frame]
        ensures value { result.now ≡ self.now.sent }

        // Over all that happened to the world: they are of one history of the image, as is what keepers hold; its last term is that
        // of the primary's book, and its other terms are those of the primaries that stopped.
        ensures honest { AreHonest self.now }
    {
        self.sent.as_slice()
    }

    /// The term that was granted last.
    pub fn term(&self) -> Term
        ensures { result ≡ term_of self.now }
    {
        self.primary.opening.term()
    }

    /// The primaries of the terms before, the first term's first, as they stopped.
    pub fn stopped(&self) -> &[Primary]
        ensures { result.now ≡ self.now.stopped }
    {
        self.stopped.as_slice()
    }

    fn step(&mut self, alloc: Global, hart: Hart) -> Result<(), WorldFault>
        requires hart { hart < self.old.image.harts }
        ensures happens { OnOk result (Happens self.old (on.Step hart) self.new) }
        ensures refused { IfErr result (λ f. Refuses self.old (on.Step hart) f) }
        ensures left { OnErr result (IsLeft self.old (on.Step hart) self.new) }
        ensures image { self.new.image ≡ self.old.image }
    {
        if !self.runs {
            return Err(WorldFault::NoPrimary);
        }
        Ok(self.primary.step(alloc, hart)?)
    }

    fn offer(&mut self, hart: Hart, input: Input) -> Result<(), WorldFault>
        requires hart { hart < self.old.image.harts }
        requires input { is_bell input ≡ false }
        ensures happens { OnOk result (Happens self.old (on.Offer hart input) self.new) }
        ensures refused { IfErr result (λ f. Refuses self.old (on.Offer hart input) f) }
        ensures left { OnErr result (IsLeft self.old (on.Offer hart input) self.new) }
        ensures image { self.new.image ≡ self.old.image }
    {
        if !self.runs {
            return Err(WorldFault::NoPrimary);
        }
        Ok(self.primary.offer(hart, 0, input)?)
    }

    fn seal(&mut self, alloc: Global) -> Result<(), WorldFault>
        ensures happens { OnOk result (Happens self.old on.Seal self.new) }
        ensures refused { IfErr result (λ f. Refuses self.old on.Seal f) }
        ensures left { OnErr result (IsLeft self.old on.Seal self.new) }
        ensures image { self.new.image ≡ self.old.image }
    {
        if !self.runs {
            return Err(WorldFault::NoPrimary);
        }
        Ok(self.primary.seal(alloc, &mut self.sent)?)
    }

    fn deliver(&mut self, alloc: Global, keeper: u64, frame: u64) -> Result<(), WorldFault>
        ensures happens { OnOk result (Happens self.old (on.Deliver keeper frame) self.new) }
        ensures refused { IfErr result (λ f. Refuses self.old (on.Deliver keeper frame) f) }
        ensures left { OnErr result (IsLeft self.old (on.Deliver keeper frame) self.new) }
        ensures image { self.new.image ≡ self.old.image }
    {
        let Some(keeper) = keeper_at(&self.stores, keeper) else {
            return Err(WorldFault::NoKeeper);
        };
        if frame >= self.sent.len() as u64 {
            return Err(WorldFault::NoFrame);
        }
        let copy = self.sent[frame as usize].copy(alloc)?;
        Ok(put(&mut self.stores, alloc, keeper, copy)?)
    }

    fn join(&mut self, alloc: Global, keeper: u64, other: u64) -> Result<(), WorldFault>
        ensures happens { OnOk result (Happens self.old (on.Join keeper other) self.new) }
        ensures refused { IfErr result (λ f. Refuses self.old (on.Join keeper other) f) }
        ensures left { OnErr result (IsLeft self.old (on.Join keeper other) self.new) }
        ensures image { self.new.image ≡ self.old.image }
    {
        let Some(keeper) = keeper_at(&self.stores, keeper) else {
            return Err(WorldFault::NoKeeper);
        };
        let Some(other) = keeper_at(&self.stores, other) else {
            return Err(WorldFault::NoKeeper);
        };
        Ok(join(&mut self.stores, alloc, keeper, other)?)
    }

    fn acknowledge(&mut self, keeper: u64) -> Result<(), WorldFault>
        ensures happens { OnOk result (Happens self.old (on.Acknowledge keeper) self.new) }
        ensures refused { IfErr result (λ f. Refuses self.old (on.Acknowledge keeper) f) }
        ensures left { OnErr result (IsLeft self.old (on.Acknowledge keeper) self.new) }
        ensures image { self.new.image ≡ self.old.image }
    {
        let Some(store) = held_by(&self.stores, keeper) else {
            return Err(WorldFault::NoKeeper);
        };
        let Some(keeper) = keeper_at(&self.stores, keeper) else {
            return Err(WorldFault::NoKeeper);
        };
        match self.gate.acknowledge(keeper, store.position()) {
            Ok(()) => Ok(()),
            Err(fault) => Err(WorldFault::Ack(fault)),
        }
    }

    fn release(&mut self, alloc: Global) -> Result<(), WorldFault>
        ensures happens { OnOk result (Happens self.old on.Release self.new) }
        ensures refused { IfErr result (λ f. Refuses self.old on.Release f) }
        ensures left { OnErr result (IsLeft self.old on.Release self.new) }
        ensures image { self.new.image ≡ self.old.image }
    {
        if !self.runs {
            return Err(WorldFault::NoPrimary);
        }
        self.primary
            .release(alloc, &mut self.gate, &mut self.released)?;
        Ok(())
    }

    fn stop(&mut self) -> Result<(), WorldFault>
        ensures happens { OnOk result (Happens self.old on.Stop self.new) }
        ensures refused { IfErr result (λ f. Refuses self.old on.Stop f) }
        ensures left { OnErr result (IsLeft self.old on.Stop self.new) }
        ensures image { self.new.image ≡ self.old.image }
    {
        if !self.runs {
            return Err(WorldFault::NoPrimary);
        }
        self.runs = false;
        Ok(())
    }

    fn lose(&mut self, keeper: u64) -> Result<(), WorldFault>
        ensures happens { OnOk result (Happens self.old (on.Lose keeper) self.new) }
        ensures refused { IfErr result (λ f. Refuses self.old (on.Lose keeper) f) }
        ensures left { OnErr result (IsLeft self.old (on.Lose keeper) self.new) }
        ensures image { self.new.image ≡ self.old.image }
    {
        let Some(keeper) = keeper_at(&self.stores, keeper) else {
            return Err(WorldFault::NoKeeper);
        };
        self.stores[keeper.index()] = None;
        Ok(())
    }

    /// Why no primary can go live in the term with these keepers' stores, if none can. It is looked at before anything grows.
    fn why_not_live(&self, term: Term, keepers: &[u64]) -> Option<LiveFault>
        ensures due { IfSome result (λ f. CannotGoLive self.now term keepers.now f) }
        ensures none { IfNone result ((fault : live_fault) → CannotGoLive self.now term keepers.now fault → ⊥) }
    {
        let (many, last) = count_named(&self.stores, keepers);
        if many <= usize::from(self.keepers - self.need) {
            return Some(LiveFault::TooFewStores);
        }
        if term <= self.term() || term <= last {
            return Some(LiveFault::TermNotNew);
        }
        None
    }

    /// The primary that goes live in the term, and its gate. A term that is not later than the last one is not new.
    fn revived(
        &self,
        alloc: Global,
        term: Term,
        keepers: &[u64],
    ) -> Result<(Primary, TermGate), LiveFault>
        ensures goes { IfOk result (λ p. GoesLiveFrom self.now term keepers.now p.0 p.1) }
        ensures refused { IfErr result (λ f. f ≢ NoLive → CannotGoLive self.now term keepers.now f) }
    {
        let stores = stores_named(alloc, &self.stores, keepers)?;
        let asked = if term <= self.term() { 0 } else { term };
        let live = go_live(
            alloc,
            &self.image,
            stores.as_slice(),
            self.keepers,
            self.need,
            asked,
        )?;
        let marks = live.marks;
        let primary = Primary::going_on(live.opening, live.book);
        let harts = self.image.harts();
        let mut gate = TermGate::new(alloc, term, harts, self.keepers, self.need, &marks)?;
        offer_all(&mut gate, primary.book.machine())?;
        // proof: what a gate passes over is below its marks.
        gate.offered(Hart::new(0));
        Ok((primary, gate))
    }

    fn grant(&mut self, alloc: Global, term: Term, keepers: &[u64]) -> Result<(), WorldFault>
        ensures happens { OnOk result (Grants self.old term keepers.now self.new) }
        ensures refused { IfErr result (λ f. RefusesGrant self.old term keepers.now f) }
        ensures left { OnErr result (self.new ≡ self.old) }
        ensures image { self.new.image ≡ self.old.image }
    {
        if !are_there(&self.stores, keepers) {
            return Err(WorldFault::NoKeeper);
        }
        if self.runs {
            return Err(WorldFault::NotStopped);
        }
        if let Some(fault) = self.why_not_live(term, keepers) {
            return Err(WorldFault::Live(fault));
        }
        let (primary, gate) = self.revived(alloc, term, keepers)?;
        make_room(&mut self.stopped, &mut self.sent)?;
        self.sent
            .push_reserved(Frame::Opening(primary.opening.copy()));
        let before = mem::replace(&mut self.primary, primary);
        self.stopped.push_reserved(before);
        self.gate = gate;
        self.runs = true;
        Ok(())
    }

    /// Does what the event says, or says why not.
    pub fn apply(&mut self, alloc: Global, event: Event) -> Result<(), WorldFault>
        requires { MayCome self.old.image.harts event }
        ensures happens { OnOk result (Happens self.old event self.new) }
        ensures refused { IfErr result (λ f. Refuses self.old event f) }
        ensures left { OnErr result (IsLeft self.old event self.new) }
        ensures image { self.new.image ≡ self.old.image }
    {
        match event {
            Event::Step(hart) => self.step(alloc, hart),
            Event::Offer(hart, input) => self.offer(hart, input),
            Event::Seal => self.seal(alloc),
            Event::Deliver { keeper, frame } => self.deliver(alloc, keeper, frame),
            Event::Join { keeper, other } => self.join(alloc, keeper, other),
            Event::Acknowledge(keeper) => self.acknowledge(keeper),
            Event::Release => self.release(alloc),
            Event::Stop => self.stop(),
            Event::Lose(keeper) => self.lose(keeper),
            Event::Grant { term, keepers } => self.grant(alloc, term, &keepers),
        }
    }
}
