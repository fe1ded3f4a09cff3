//! A primary that goes live from what keepers gave, with its gate.

ghost use Rattle.std.specs.Prelude.{◌≡◌, ◌<◌, ◌≤◌, ◌↔◌, ℕ, List, All, IfOk, IfErr, IsTrue};
ghost use Rattle.std.specs.List.{Any};
ghost use Rattle.ft_types.specs.Counts.{count_at};
ghost use Rattle.go_live.specs.Quorums.{AreEnough, MostOf};
ghost use Rattle.output_gate.specs.Gates.{mark_at};
ghost use Rattle.leading.specs.Beginning.{GoesLiveGiven, CannotGoLive};

use crate::fault::LeadFault;
use fenced_live::{Given, GivenFault, go_live_given};
use ft_types::{Counts, Hart, Quorum, Term};
use go_live::{Live, LiveFault};
use guest_image::Image;
use primary::{Primary, offer_all};
use std::alloc::Global;
use std::result::Result;
use term_gate::TermGate;

/// Whether all stores are keepers', which have the numbers below `keepers`.
fn are_keepers(given: &[Given<'_>], keepers: u8) -> bool
    ensures all { IsTrue result → All (λ g. g.keeper < keepers) given.now }
    ensures some { (IsTrue result → ⊥) → Any (λ g. keepers ≤ g.keeper) given.now }
{
    for one in given {
        if one.keeper.number() >= keepers {
            return false;
        }
    }
    true
}

/// A need with which those are enough that are enough with this one and more than half of the keepers: two primaries of one term then
/// have a keeper in common, whatever the need.
fn need_with_most(keepers: u8, need: u8) -> u8
    requires { (0 < need) × (need ≤ keepers) }
    ensures limits { (0 < result) × (result ≤ keepers) }
    ensures both { (here : List ℕ) → AreEnough keepers result here ↔ (AreEnough keepers need here × MostOf keepers here) }
{
    let most = keepers - keepers / 2;
    if need < most { need } else { most }
}

/// The primary that goes live in the term from the stores that were given to it, its gate, and the gate's marks.
pub(crate) fn started(
    alloc: Global,
    image: &Image,
    given: &[Given<'_>],
    quorum: Quorum,
    term: Term,
) -> Result<(Primary, TermGate, Counts), LeadFault>
    ensures goes { IfOk result (λ s. GoesLiveGiven image.now quorum term given.now s.0 s.1) }
    ensures marks { IfOk result (λ s. (hart : ℕ) → mark_at s.1.gate hart ≡ count_at s.2 hart) }
    ensures refused { IfErr result (λ fault. CannotGoLive image.now quorum term given.now fault) }
{
    let (keepers, need) = (quorum.keepers(), quorum.need());
    if !are_keepers(given, keepers) {
        return Err(LeadFault::NoKeeper);
    }
    let live = go_live_given(
        alloc,
        image,
        given,
        keepers,
        need_with_most(keepers, need),
        term,
    )?;
    let marks = live.marks;
    let primary = Primary::going_on(live.opening, live.book);
    let harts = image.harts();
    let Ok(mut gate) = TermGate::new(alloc, term, harts, keepers, need, &marks) else {
        return Err(LeadFault::NotLive(GivenFault::Live(LiveFault::Memory)));
    };
    let all = offer_all(&mut gate, primary.book.machine());
    // proof: what a gate passes over is below its marks.
    gate.offered(Hart::new(0));
    if all.is_err() {
        return Err(LeadFault::NotLive(GivenFault::Live(LiveFault::Memory)));
    }
    Ok((primary, gate, marks))
}
