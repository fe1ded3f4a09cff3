//! A primary of a term that leads.

ghost use Rattle.std.specs.Prelude.{◌≡◌, ◌≤◌, ◌+◌, ◌↔◌, ℕ, [], Some, false, length, slice_get, IfOk, IfErr, IsTrue, OnOk, OnErr};
ghost use Rattle.ft_types.specs.Counts.{count_at};
ghost use Rattle.rv32_hart.specs.Hart.{Hart as HartRecord};
ghost use Rattle.hart_lease.specs.Runs.{counts_of};
ghost use Rattle.fragment_codec.specs.declared.frame.Frame.TheVariants.{Opening as OpeningFrame};
ghost use Rattle.log_pieces.specs.Pieces.{IsCut, book_log};
ghost use Rattle.output_gate.specs.Gates.{mark_at, waiting_count};
ghost use Rattle.input_log.specs.declared.Input.TheVariants.{Timer as TimerInput, Word as WordInput};
ghost use Rattle.primary.specs.Gating.{AreAllOffered, OffersMore};
ghost use Rattle.requests.specs.Queues.{at_room, comes_of};
ghost use Rattle.requests.specs.declared.queue.Came.TheVariants.{Taken as WasTaken};
ghost use Rattle.leading.specs.Beginning.{GoesLiveGiven, CannotGoLive};
ghost use Rattle.leading.specs.Clients.{GaveWords};
ghost use Rattle.leading.specs.Hearing.{Comes, Hears, LetsGo, LetsNothingGo, Notes, WithNoted};
ghost use Rattle.leading.specs.Leaders.{AreHandedOn, BeginBehind};
ghost use Rattle.leading.specs.Rounds.{IsRound, NoneIsHanded};
ghost use Rattle.leading.specs.Telling.{told_again};
ghost use Rattle.leading.specs.Waiting.{OnlyWaits};

use crate::fault::LeadFault;
use crate::heard::Heard;
use crate::inputs::{Spacing, hand_all, has_input, queues_of};
use crate::rounds::go_on;
use crate::sent::is_of_sent;
use crate::starting::started;
use crate::telling::tell_again;
use crate::waiting::only_waits;
use fenced_live::{Given, GivenFault};
use fragment_codec::Frame;
use ft_types::{Count, Counts, Hart, Memory, Position, Quorum, Term, boxed};
use go_live::LiveFault;
use guest_image::{Image, Machine};
use lease_rounds::has_run;
use primary::{Primary, Released, offer_all};
use requests::Queue;
use std::alloc::Global;
use std::marker::Model;
use std::result::Result;
use term_gate::TermGate;
use wire::{Acknowledgement, Answer, Request};

/// A primary of a term, with the gate of its term, the inputs that wait, and what went out.
/// Its greater parts are boxed: it is moved from round to round.
pub struct Leader {
    primary: Box<Primary>,
    gate: Box<TermGate>,
    /// The inputs that wait for each hart.
    queues: Vec<Queue>,
    /// The outputs that went out.
    released: Vec<Released>,
    /// How many keepers there are, and how many must hold an output.
    quorum: Quorum,
    /// For each hart the number below which its outputs are known to be out.
    marks: Counts,
}

impl Drop for Leader {
    fn drop(self) {
        let Leader {
            primary: _,
            gate: _,
            queues: _,
            released: _,
            quorum: _,
            marks: _,
        } = self;
    }
}

impl Model for Leader {
    ghost use Rattle.std.specs.Prelude.{◌≡◌, ℕ};
    ghost use Rattle.ft_types.specs.Counts.{count_at};
    ghost use Rattle.output_gate.specs.Gates.{mark_at};
    ghost use Rattle.leading.specs.Leaders.{AreHandedOn, LeaderView, IsSound};

    ghost Value = { LeaderView };

    ghost view = { λ l. record { primary = l.primary.value; gate = l.gate.value; queues = l.queues.items; released = l.released.items } };

    ghost invariant = { λ l. IsSound l.primary.value l.gate.value l.queues.items × (l.gate.value.gate.keepers ≡ l.quorum.keepers)
        × ((hart : ℕ) → mark_at l.gate.value.gate hart ≡ count_at l.marks hart)
        × AreHandedOn l.primary.value.book l.queues.items };
}

/// A primary and a gate, each in a box.
fn boxed_both(
    alloc: Global,
    primary: Primary,
    gate: TermGate,
) -> Result<(Box<Primary>, Box<TermGate>), Memory>
    ensures { IfOk result (λ r. (r.0.value ≡ primary) × (r.1.value ≡ gate)) }
{
    let primary = boxed(alloc, primary)?;
    let gate = boxed(alloc, gate)?;
    Ok((primary, gate))
}

impl Leader {
    /// The primary of a new term, from stores that more than half of its keepers gave to it, and the frame by which the term begins, which
    /// is sent to the keepers before all others.
    pub fn go_live(
        alloc: Global,
        image: &Image,
        given: &[Given<'_>],
        quorum: Quorum,
        term: Term,
    ) -> Result<(Leader, Frame), LeadFault>
        ensures live { IfOk result (λ r. GoesLiveGiven image.now quorum term given.now r.0.primary r.0.gate) }
        ensures opening { IfOk result (λ r. r.1 ≡ OpeningFrame r.0.primary.opening) }
        ensures queues { IfOk result (λ r. BeginBehind r.0.primary.book.start r.0.queues) }
        ensures released { IfOk result (λ r. r.0.released ≡ []) }
        ensures refused { IfErr result (λ fault. CannotGoLive image.now quorum term given.now fault) }
    {
        let (primary, gate, marks) = started(alloc, image, given, quorum, term)?;
        let Ok(queues) = queues_of(alloc, primary.book.machine()) else {
            return Err(LeadFault::NotLive(GivenFault::Live(LiveFault::Memory)));
        };
        let opening = primary.opening.copy();
        let Ok((primary, gate)) = boxed_both(alloc, primary, gate) else {
            return Err(LeadFault::NotLive(GivenFault::Live(LiveFault::Memory)));
        };
        let leader = Leader {
            primary,
            gate,
            queues,
            released: Vec::new(alloc),
            quorum,
            marks,
        };
        Ok((leader, Frame::Opening(opening)))
    }

    /// The term.
    pub fn term(&self) -> Term
        ensures { result ≡ self.now.primary.opening.term }
    {
        self.primary.opening.term()
    }

    /// The machine.
    pub fn machine(&self) -> &Machine
        ensures { result.now ≡ self.now.primary.book.machine }
    {
        self.primary.book.machine()
    }

    /// The counts of its harts.
    pub fn counts(&self) -> Counts
        ensures counts { (hart : ℕ) → count_at result hart ≡ counts_of self.now.primary.book.machine hart }
        ensures harts { length result ≡ length self.now.primary.book.machine.harts }
    {
        self.primary.book.counts()
    }

    /// What went out, in its order.
    pub fn released(&self) -> &[Released]
        ensures { result.now ≡ self.now.released }
    {
        self.released.as_slice()
    }

    /// How many outputs wait at the gate for keepers.
    pub fn waiting(&self) -> usize
        ensures { result ≡ waiting_count self.now.gate.gate.lines }
    {
        self.gate.waiting()
    }

    /// Whether a hart is handed an input in the next round.
    pub fn may_hand(&self) -> bool
        ensures handed { (result ≡ false) ↔ NoneIsHanded self.now.primary.book.machine self.now.queues }
        // Whatever was called before.
        ensures counted { AreHandedOn self.now.primary.book self.now.queues }
        // INSEQ of each hart counts the words that the log gave it.
        ensures given { (hart : ℕ) (h : HartRecord) → slice_get self.now.primary.book.start.harts hart ≡ Some h → GaveWords self.now.primary.book hart }
    {
        let book = &self.primary.book;
        // proof: the log has the inputs of its steps, by which it ran.
        let _inputs = book.inputs();
        has_input(book.machine(), &self.queues)
    }

    /// Whether rounds would change nothing but counts until an input comes: no hart is handed one, and all of them only wait, which
    /// few steps of a copy of each show. It steers rounds alone, and costs no more as the past grows.
    pub fn only_waits(&self, alloc: Global) -> Result<bool, Memory>
        ensures { IfOk result (λ waits. IsTrue waits
            ↔ (NoneIsHanded self.now.primary.book.machine self.now.queues × OnlyWaits self.now.primary.book.machine)) }
    {
        if self.may_hand() {
            return Ok(false);
        }
        only_waits(alloc, self.machine())
    }

    /// Takes a word that is asked for, where its hart is there and has room for it.
    fn take_word(&mut self, hart: Hart, word: u32, number: Option<Count>) -> Result<Heard, Memory>
        ensures ok { IfOk result (λ heard. Comes self.old hart (WordInput word) (λ q. comes_of q number) self.new heard) }
        ensures err { OnErr result (self.new ≡ self.old) }
    {
        if hart.index() >= self.queues.len() {
            return Ok(Heard::NoHart);
        }
        let queue = &mut self.queues[hart.index()];
        let came = queue.put_word(word, number)?;
        // proof: no more words came than a queue takes.
        let _words = queue.words();
        Ok(Heard::Came(came))
    }

    /// Takes the timer's interrupt for a hart, where it is there and has room for it.
    fn take_timer(&mut self, hart: Hart) -> Result<Heard, Memory>
        ensures ok { IfOk result (λ heard. Comes self.old hart TimerInput (λ q. at_room (length q.waiting) WasTaken) self.new heard) }
        ensures err { OnErr result (self.new ≡ self.old) }
    {
        if hart.index() >= self.queues.len() {
            return Ok(Heard::NoHart);
        }
        let queue = &mut self.queues[hart.index()];
        let came = queue.put_timer()?;
        // proof: no more words came than a queue takes.
        let _words = queue.words();
        Ok(Heard::Came(came))
    }

    /// What is told once more: the outputs of a hart, from this number on, that are known to be out.
    fn tell_again(&self, alloc: Global, hart: Hart, number: Count) -> Result<Vec<Answer>, Memory>
        ensures { IfOk result (λ answers. answers.items ≡ told_again self.now.primary.opening.term self.now.primary.book.machine
            (mark_at self.now.gate.gate hart) self.now.released hart number) }
    {
        let mark = if hart.number() < self.marks.harts() {
            self.marks.get(hart)
        } else {
            0
        };
        tell_again(
            alloc,
            self.term(),
            self.machine(),
            mark,
            &self.released,
            hart,
            number,
        )
    }

    /// Takes a request. What comes of it is told; one that is refused, and want of memory, change nothing.
    pub fn hear(&mut self, alloc: Global, request: &Request) -> Result<Heard, Memory>
        ensures hears { IfOk result (λ heard. Hears self.old request.now self.new heard) }
        ensures err { OnErr result (self.new ≡ self.old) }
    {
        match request {
            Request::Timer(hart) => self.take_timer(*hart),
            Request::Word { hart, word, number } => self.take_word(*hart, *word, *number),
            Request::From { hart, number } => {
                let answers = self.tell_again(alloc, *hart, *number)?;
                Ok(Heard::Told(answers))
            }
        }
    }

    /// All outputs are offered at the gate, those go out whose step enough keepers acknowledged, and the book notes that they did.
    fn release(&mut self, alloc: Global) -> Result<(), Memory>
        ensures lets { OnOk result (LetsGo self.old self.old.gate self.new) }
        ensures nothing { OnErr result (LetsNothingGo self.old self.old.gate self.new) }
        ensures rest { self.new ≡ record self.old {
          primary = record self.old.primary { book = self.new.primary.book };
          gate = self.new.gate;
          released = self.new.released;
        } }
    {
        self.primary
            .release(alloc, &mut self.gate, &mut self.released)
    }

    /// Has a keeper's acknowledgement noted. One of another term, below what the keeper acknowledged, above what was sent, or of no keeper
    /// is none.
    fn note(&mut self, acknowledgement: &Acknowledgement)
        ensures notes { Notes self.old.primary.sealed self.old.gate acknowledgement.now self.new.gate }
        ensures rest { self.new ≡ record self.old { gate = self.new.gate } }
    {
        let Acknowledgement {
            term,
            keeper,
            counts,
        } = *acknowledgement;
        if keeper.number() < self.quorum.keepers()
            && usize::from(counts.harts()) == self.queues.len()
            && is_of_sent(&self.primary.sealed, &counts)
        {
            let position = Position {
                term,
                counts,
                top: term,
            };
            let _taken = self.gate.acknowledge(keeper, &position);
        }
    }

    /// Takes an acknowledgement. What goes out then stands behind what went out before. Want of memory lets nothing go.
    pub fn acknowledge(
        &mut self,
        alloc: Global,
        acknowledgement: &Acknowledgement,
    ) -> Result<(), Memory>
        ensures lets { OnOk result (WithNoted self.old acknowledgement.now (λ noted. LetsGo self.old noted self.new)) }
        ensures nothing { OnErr result (WithNoted self.old acknowledgement.now (λ noted. LetsNothingGo self.old noted self.new)) }
        ensures rest { self.new ≡ record self.old {
          primary = record self.old.primary { book = self.new.primary.book };
          gate = self.new.gate;
          released = self.new.released;
        } }
    {
        self.note(acknowledgement);
        self.release(alloc)
    }

    /// One round: inputs go from the queues to the machine, each hart goes on for so many steps, and its outputs come to the gate. Nothing
    /// of it is cut. Want of memory ends the primary.
    pub fn round(self, alloc: Global, steps: Count, spacing: Spacing) -> Result<Leader, Memory>
        ensures opening { IfOk result (λ l. l.primary.opening ≡ self.primary.opening) }
        ensures round { IfOk result (λ l. IsRound spacing steps self l) }
        ensures sealed { IfOk result (λ l. l.primary.sealed ≡ self.primary.sealed) }
        ensures gate { IfOk result (λ l. OffersMore self.gate l.gate) }
        ensures offered { IfOk result (λ l. AreAllOffered l.gate.gate l.primary.book.machine) }
        ensures released { IfOk result (λ l. l.released ≡ self.released) }
    {
        let Leader {
            primary,
            mut gate,
            mut queues,
            released,
            quorum,
            marks,
        } = self;
        let mut primary = Box::into_inner(primary);
        // proof: its journal leads to its machine, before and after.
        has_run(&primary.book);
        hand_all(&mut primary, &mut queues, spacing)?;
        let led = go_on(alloc, primary, steps)?;
        has_run(&led.book);
        offer_all(&mut gate, led.book.machine())?;
        let primary = boxed(alloc, led)?;
        Ok(Leader {
            primary,
            gate,
            queues,
            released,
            quorum,
            marks,
        })
    }

    /// Cuts what is new of the log. The frames are sent to the keepers. Want of memory leaves all as it was.
    pub fn seal(&mut self, alloc: Global) -> Result<Vec<Frame>, Memory>
        ensures cut { IfOk result (λ frames. IsCut (book_log self.old.primary.opening.guest self.old.primary.opening.term self.old.primary.book)
            self.old.primary.opening.guest.harts self.old.primary.sealed frames.items self.new.primary.sealed) }
        ensures rest { self.new ≡ record self.old { primary = record self.old.primary { sealed = self.new.primary.sealed } } }
        ensures err { OnErr result (self.new ≡ self.old) }
    {
        let mut frames = Vec::new(alloc);
        self.primary.seal(alloc, &mut frames)?;
        Ok(frames)
    }
}
