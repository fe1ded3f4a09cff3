//! A primary that goes live from given stores.

ghost use Rattle.std.specs.Prelude.{◌≡◌, ◌≢◌, ◌<◌, ◌≤◌, ◌+◌, ◌-◌, ◌↔◌, ℕ, map, Err, All, IfOk, IfErr, OnOk};
ghost use Rattle.std.specs.List.{Any};
ghost use Rattle.ft_types.specs.declared.names.TheConstants.{KEEPER_LIMIT};
ghost use Rattle.input_log.specs.Waiting.{bells_of};
ghost use Rattle.book_modes.specs.Silences.{unheard_bells};
ghost use Rattle.ft_types.specs.Counts.{count_at};
ghost use Rattle.hart_lease.specs.Runs.{counts_of};
ghost use Rattle.book_modes.specs.Recordings.{IsUnused};
ghost use Rattle.guest_image.specs.Image.{guest_of};
ghost use Rattle.go_live.specs.Quorums.{distinct_below, AreEnough, IsNew, IsOld};
ghost use Rattle.primary.specs.Outputs.{outputs_in};
ghost use Rattle.hart_replay.specs.Images.{GuestHistory};
ghost use Rattle.go_live.specs.Histories.{AreOfHistory, IsOfHistory, MakesLonger};
ghost use Rattle.primary.specs.Primaries.{BeginsFrom};
ghost use Rattle.go_live.specs.Lives.{IsAtPosition, LeadNowhere};
ghost use Rattle.fenced_live.specs.Given.{AreTo, IfReplay};

use crate::fault::GivenFault;
use crate::given::{Given, are_enough, are_of, are_to, is_new, stores_of};
use ft_types::Term;
use go_live::{Live, LiveFault, go_live};
use guest_image::Image;
use hart_replay::ReplayFault;
use std::alloc::Global;
use std::result::Result;

/// A primary of a new term, from the stores that so many keepers gave to that term that one of them holds each output that went out.
pub fn go_live_given(
    alloc: Global,
    image: &Image,
    given: &[Given<'_>],
    keepers: u8,
    need: u8,
    term: Term,
) -> Result<Live, GivenFault>
    requires quorum { (0 < need) × (need ≤ keepers) × (keepers ≤ KEEPER_LIMIT) }

    // Each store was given to this very term: its keeper's fence was raised to it first.
    ensures given { OnOk result (AreTo given.now term) }
    ensures other_term { (result ≡ Err GivenFault.OtherTerm) ↔ Any (λ g. g.term ≢ term) given.now }

    // The book begins with the machine at the position of the joined stores, and nothing is settled in it; the opening names
    // that position, and the marks are what is noted inside.
    ensures position { IfOk result (λ live. IsAtPosition image.now (map (λ g. g.store.now) given.now) term live.book.start live.opening live.marks) }
    ensures book { IfOk result (λ live. BeginsFrom live.book.start live.book) }

    // Nothing is recorded, each hart's limit is its count, and only the bells that were rung and not heard wait.
    ensures mode { IfOk result (λ live. IsUnused live.book.mode live.book.start live.opening.base) }
    ensures limits { IfOk result (λ live. (hart : ℕ) → count_at live.book.mode.limits hart ≡ counts_of live.book.start hart) }
    ensures bells { IfOk result (λ live. (hart : ℕ) → bells_of live.book.mode.desk hart ≡ unheard_bells live.book.start hart) }
    ensures outputs { IfOk result (λ live. live.outputs.items ≡ outputs_in live.book.start) }

    // The other faults, each exactly where it is due, in this order. Memory may be refused once the first two are looked at.
    ensures too_few { (result ≡ Err (GivenFault.Live LiveFault.TooFewStores))
        ↔ (AreTo given.now term × (distinct_below keepers (map (λ g. g.keeper) given.now) < keepers - need + 1)) }
    ensures not_new { (result ≡ Err (GivenFault.Live LiveFault.TermNotNew))
        ↔ (AreTo given.now term × AreEnough keepers need (map (λ g. g.keeper) given.now) × IsOld (map (λ g. g.store.now) given.now) term) }
    ensures other_guest { (result ≡ Err (GivenFault.Live (LiveFault.Replay ReplayFault.OtherGuest)))
        ↔ (AreTo given.now term × AreEnough keepers need (map (λ g. g.keeper) given.now) × IsNew (map (λ g. g.store.now) given.now) term
        × Any (λ store. store.guest ≢ guest_of image.now) (map (λ g. g.store.now) given.now)) }
    ensures replay { IfErr result (λ f. IfReplay f (λ fault. fault ≢ ReplayFault.OtherGuest →
        LeadNowhere image.now (map (λ g. g.store.now) given.now) fault)) }
    ensures enough { OnOk result (AreEnough keepers need (map (λ g. g.keeper) given.now)) }
    ensures new { OnOk result (IsNew (map (λ g. g.store.now) given.now) term) }
    ensures own { OnOk result (All (λ store. store.guest ≡ guest_of image.now) (map (λ g. g.store.now) given.now)) }

    // Where the stores have frames of one history, the machine is the history's, no replay fails but for another guest or
    // memory, and with the book's term the history is one again, also once the book has gone on.
    ensures history { IfOk result (λ live. (history : GuestHistory) → AreOfHistory image.now history (map (λ g. g.store.now) given.now) →
        IsOfHistory image.now history live.book.start live.opening) }
    ensures history_ends { IfErr result (λ f. IfReplay f (λ fault. (history : GuestHistory) →
        AreOfHistory image.now history (map (λ g. g.store.now) given.now) → fault ≡ ReplayFault.OtherGuest)) }
    ensures longer { IfOk result (λ live. (history : GuestHistory) → AreOfHistory image.now history (map (λ g. g.store.now) given.now) →
        MakesLonger image.now history term live.book.start live.opening) }
{
    if !are_to(given, term) {
        return Err(GivenFault::OtherTerm);
    }
    if !are_enough(given, keepers, need) {
        return Err(GivenFault::Live(LiveFault::TooFewStores));
    }
    if !is_new(given, term) {
        return Err(GivenFault::Live(LiveFault::TermNotNew));
    }
    let guest = image.guest();
    if !are_of(given, &guest) {
        return Err(GivenFault::Live(LiveFault::Replay(ReplayFault::OtherGuest)));
    }
    let Ok(stores) = stores_of(alloc, given) else {
        return Err(GivenFault::Live(LiveFault::Memory));
    };
    let live = go_live(alloc, image, stores.as_slice(), keepers, need, term)?;
    Ok(live)
}
