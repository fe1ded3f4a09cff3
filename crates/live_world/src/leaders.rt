//! What happens to primaries.

ghost use Rattle.std.specs.Prelude.{◌≡◌, ℕ, List, [], ◌∷◌, IfOk, IfErr, OnOk, OnErr};
ghost use Rattle.ft_types.specs.Guests.{GuestParts};
ghost use Rattle.ft_types.specs.declared.quorum.Quorum.{Quorum as quorum_of_specs};
ghost use Rattle.guest_image.specs.Image.{ImageContents, guest_of};
ghost use Rattle.fenced_live.specs.declared.given.Given.{Given as given_of_specs};
ghost use Rattle.fragment_codec.specs.declared.frame.Frame.TheVariants.{Opening as OpeningFrame};
ghost use Rattle.leading.specs.Beginning.{GoesLiveGiven};
ghost use Rattle.live_world.specs.declared.hand.HandedTo.{HandedTo as handed_of_specs};
ghost use Rattle.leading.specs.Leaders.{BeginBehind};
ghost use Rattle.live_world.specs.Grants.{AreGivenBy, IsNotLive, HasLogs};

use crate::fault::EventFault;
use crate::hand::HandedTo;
use crate::room::make_room;
use fenced_live::Given;
use fragment_codec::Frame;
use ft_types::{Guest, Memory, Quorum, Term};
use guest_image::Image;
use leading::{HandedLog, Leader, read_handed_log};
use std::alloc::Global;
use std::result::Result;

/// The logs with these numbers of those that were handed over.
fn logs_of(
    alloc: Global,
    guest: Guest,
    handed: &[HandedTo],
    numbers: &[usize],
) -> Result<Vec<HandedLog>, EventFault>
    ensures logs { IfOk result (λ logs. HasLogs guest handed.now numbers.now logs.items) }
    ensures refused { IfErr result (λ f. (image : ImageContents) (quorum : quorum_of_specs) (term : ℕ) → guest_of image ≡ guest → IsNotLive image quorum term handed.now numbers.now f) }
{
    let mut logs = Vec::new(alloc);
    for number in numbers {
        if *number >= handed.len() {
            return Err(EventFault::NoneHanded);
        }
        match read_handed_log(alloc, guest, handed[*number].bytes.as_slice()) {
            Ok(log) => {
                make_room(&mut logs)?;
                logs.push_reserved(log);
            }
            Err(fault) => return Err(EventFault::Handed(fault)),
        }
    }
    Ok(logs)
}

/// The stores of these logs, as they were given.
fn given_of<'k>(alloc: Global, logs: &'k [HandedLog]) -> Result<Vec<Given<'k>>, Memory>
    ensures { (guest : GuestParts) (handed : List handed_of_specs) (numbers : List ℕ) → HasLogs guest handed numbers logs.now →
        IfOk result (λ given. AreGivenBy guest handed numbers given.items) }
{
    let mut given = Vec::new(alloc);
    given.reserve(logs.len())?;
    for log in logs {
        given.push_reserved(log.given());
    }
    Ok(given)
}

/// The primary of a term that goes live from what was handed over, by these numbers, and the frame that it sends first.
pub(crate) fn go_live(
    alloc: Global,
    image: &Image,
    quorum: Quorum,
    term: Term,
    handed: &[HandedTo],
    numbers: &[usize],
) -> Result<(Leader, Frame), EventFault>
    ensures live { IfOk result (λ r. (given : List given_of_specs) × AreGivenBy (guest_of image.now) handed.now numbers.now given ×
        GoesLiveGiven image.now quorum term given r.0.primary r.0.gate) }
    ensures opening { IfOk result (λ r. r.1 ≡ OpeningFrame r.0.primary.opening) }
    ensures queues { IfOk result (λ r. BeginBehind r.0.primary.book.start r.0.queues) }
    ensures released { IfOk result (λ r. r.0.released ≡ []) }
    ensures refused { IfErr result (λ f. IsNotLive image.now quorum term handed.now numbers.now f) }
{
    let logs = logs_of(alloc, image.guest(), handed, numbers)?;
    let given = given_of(alloc, &logs)?;
    match Leader::go_live(alloc, image, &given, quorum, term) {
        Ok(live) => Ok(live),
        Err(fault) => Err(EventFault::Lead(fault)),
    }
}
