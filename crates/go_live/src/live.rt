//! A primary that goes live.

ghost use Rattle.std.specs.Prelude.{◌≡◌, ◌≢◌, ◌<◌, ◌≤◌, ◌+◌, ◌-◌, ◌↔◌, ℕ, map, length, Err, All, IfOk, IfErr, OnOk};
ghost use Rattle.std.specs.List.{Any};
ghost use Rattle.ft_types.specs.declared.names.TheConstants.{KEEPER_LIMIT};
ghost use Rattle.input_log.specs.Waiting.{bells_of};
ghost use Rattle.book_modes.specs.Silences.{unheard_bells};
ghost use Rattle.ft_types.specs.Counts.{count_at};
ghost use Rattle.hart_lease.specs.Runs.{counts_of};
ghost use Rattle.book_modes.specs.Recordings.{IsUnused};
ghost use Rattle.guest_image.specs.Image.{guest_of};
ghost use Rattle.go_live.specs.Quorums.{distinct_below, AreEnough, IsNew, IsOld};
ghost use Rattle.primary.specs.Outputs.{outputs_in};
ghost use Rattle.go_live.specs.Faults.{IfReplay};
ghost use Rattle.hart_replay.specs.Images.{GuestHistory};
ghost use Rattle.go_live.specs.Histories.{AreOfHistory, IsOfHistory, MakesLonger};
ghost use Rattle.go_live.specs.Lives.{opening_from, IsReplayed, IsAtPosition, HasNoMachine, LeadNowhere};
ghost use Rattle.primary.specs.Primaries.{BeginsFrom};

use crate::fault::LiveFault;
use crate::joining::join_all;
use crate::quorum::{are_enough, are_of, is_new};
use closed_cut::position;
use fragment_codec::Opening;
use ft_types::{Counts, Guest, Keeper, Memory, Output, Position, Term};
use guest_image::{Image, Machine};
use hart_replay::{ReplayFault, plan, replay_plain};
use log_join::Store;
use page_book::{Book, Recording};
use primary::all_outputs;
use std::alloc::Global;
use std::result::Result;

/// A primary that goes on where the log of its keepers ends.
#[derive(Drop)]
pub struct Live {
    /// The book, in which no step is settled. No hart may go on until its limit is set higher.
    pub book: Book<Recording>,
    /// The opening of its term.
    pub opening: Opening,
    /// All outputs of the machine with which it begins, by hart and number: they are to be offered again.
    pub outputs: Vec<Output>,
    /// For each hart the greatest number that is noted inside the position, or 0: its outputs with lower numbers were released.
    pub marks: Counts,
}

/// The store's position, the machine there, and what is noted of its harts.
fn replay_to(
    alloc: Global,
    image: &Image,
    store: &Store,
) -> Result<(Position, Machine, Counts), ReplayFault>
    requires { store.now.guest ≡ guest_of image.now }
    ensures replayed { IfOk result (λ p. IsReplayed image.now store.now p.0 p.1 p.2) }
    ensures harts { IfOk result (λ p. (length p.0.counts ≡ image.now.harts) × (length p.1.harts ≡ image.now.harts)) }
    ensures fault { IfErr result (λ fault. fault ≢ ReplayFault.Memory → HasNoMachine image.now store.now fault) }
{
    // proof: a store's guest keeps the rules.
    let _rules = store.guest();
    let position = position(alloc, store)?;
    let plan = plan(alloc, store, &position)?;
    // proof: a plan keeps its rules by type.
    let _planned = plan.legs();
    let machine = replay_plain(alloc, image, &plan)?;
    Ok((position, machine, plan.marks()))
}

/// The opening of a term that goes on from the position.
pub fn opening_of(guest: Guest, term: Term, position: &Position) -> Opening
    requires harts { length position.now.counts ≡ guest.harts }
    requires later { position.now.term < term }
    requires boot { position.now.term ≡ 0 → (hart : ℕ) → count_at position.now.counts hart ≡ 0 }
    ensures { result ≡ opening_from guest term position.now }
{
    // proof: a guest has its rules by type.
    let _rules = guest.harts();
    let base = position.counts;
    // proof: counts are below their limit.
    let _counts = base.as_slice();
    Opening::new(guest, term, position.term, base).unwrap()
}

/// A primary that goes on from a machine, which has these counts and marks.
pub fn begin(
    alloc: Global,
    machine: Machine,
    counts: Counts,
    opening: Opening,
    marks: Counts,
) -> Result<Live, Memory>
    requires { length counts ≡ length machine.harts }
    ensures opening { IfOk result (λ live. live.opening ≡ opening) }
    ensures book { IfOk result (λ live. BeginsFrom machine live.book) }
    ensures mode { IfOk result (λ live. IsUnused live.book.mode machine counts) }
    ensures outputs { IfOk result (λ live. live.outputs.items ≡ outputs_in machine) }
    ensures marks { IfOk result (λ live. live.marks ≡ marks) }
{
    let outputs = all_outputs(alloc, &machine)?;
    let book = Book::<Recording>::begin(alloc, machine, counts)?;
    Ok(Live {
        book,
        opening,
        outputs,
        marks,
    })
}

/// A primary of a new term, from the stores of so many keepers that one of them holds each output that went out.
pub fn go_live(
    alloc: Global,
    image: &Image,
    stores: &[(Keeper, &Store)],
    keepers: u8,
    need: u8,
    term: Term,
) -> Result<Live, LiveFault>
    requires quorum { (0 < need) × (need ≤ keepers) × (keepers ≤ KEEPER_LIMIT) }

    // The book begins with the machine at the position of the joined stores, and nothing is settled in it; the opening names
    // that position, and the marks are what is noted inside.
    ensures position { IfOk result (λ live. IsAtPosition image.now (map (λ s. s.1.now) stores.now) term live.book.start live.opening live.marks) }
    ensures book { IfOk result (λ live. BeginsFrom live.book.start live.book) }

    // Nothing is recorded, each hart's limit is its count, and only the bells that were rung and not heard wait.
    ensures mode { IfOk result (λ live. IsUnused live.book.mode live.book.start live.opening.base) }
    ensures limits { IfOk result (λ live. (hart : ℕ) → count_at live.book.mode.limits hart ≡ counts_of live.book.start hart) }
    ensures bells { IfOk result (λ live. (hart : ℕ) → bells_of live.book.mode.desk hart ≡ unheard_bells live.book.start hart) }
    ensures outputs { IfOk result (λ live. live.outputs.items ≡ outputs_in live.book.start) }

    // The faults, each exactly where it is due, in this order. Memory may be refused once the first two are looked at.
    ensures too_few { (result ≡ Err LiveFault.TooFewStores) ↔ (distinct_below keepers (map (λ s. s.0) stores.now) < keepers - need + 1) }
    ensures not_new { (result ≡ Err LiveFault.TermNotNew)
        ↔ (AreEnough keepers need (map (λ s. s.0) stores.now) × IsOld (map (λ s. s.1.now) stores.now) term) }
    ensures other_guest { (result ≡ Err (LiveFault.Replay ReplayFault.OtherGuest))
        ↔ (AreEnough keepers need (map (λ s. s.0) stores.now) × IsNew (map (λ s. s.1.now) stores.now) term
        × Any (λ store. store.guest ≢ guest_of image.now) (map (λ s. s.1.now) stores.now)) }
    ensures replay { IfErr result (λ f. IfReplay f (λ fault. fault ≢ ReplayFault.OtherGuest →
        LeadNowhere image.now (map (λ s. s.1.now) stores.now) fault)) }
    ensures enough { OnOk result (AreEnough keepers need (map (λ s. s.0) stores.now)) }
    ensures new { OnOk result (IsNew (map (λ s. s.1.now) stores.now) term) }
    ensures own { OnOk result (All (λ store. store.guest ≡ guest_of image.now) (map (λ s. s.1.now) stores.now)) }

    // Where the stores have frames of one history, the machine is the history's, no replay fails but for another guest or
    // memory, and with the book's term the history is one again, also once the book has gone on.
    ensures history { IfOk result (λ live. (history : GuestHistory) → AreOfHistory image.now history (map (λ s. s.1.now) stores.now) →
        IsOfHistory image.now history live.book.start live.opening) }
    ensures history_ends { IfErr result (λ f. IfReplay f (λ fault. (history : GuestHistory) →
        AreOfHistory image.now history (map (λ s. s.1.now) stores.now) → fault ≡ ReplayFault.OtherGuest)) }
    ensures longer { IfOk result (λ live. (history : GuestHistory) → AreOfHistory image.now history (map (λ s. s.1.now) stores.now) →
        MakesLonger image.now history term live.book.start live.opening) }
{
    if !are_enough(stores, keepers, need) {
        return Err(LiveFault::TooFewStores);
    }
    if !is_new(stores, term) {
        return Err(LiveFault::TermNotNew);
    }
    let guest = image.guest();
    if !are_of(stores, &guest) {
        return Err(LiveFault::Replay(ReplayFault::OtherGuest));
    }
    let joined = join_all(alloc, guest, stores)?;
    let (position, machine, marks) = replay_to(alloc, image, &joined)?;
    let opening = opening_of(guest, term, &position);
    Ok(begin(alloc, machine, position.counts, opening, marks)?)
}
