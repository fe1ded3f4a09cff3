//! What can go wrong, as it is told.

ghost use Rattle.std.specs.Prelude.{◌≡◌};
ghost use Rattle.live_primary.specs.Faults.{told_of_handed, told_of_image, told_of_lead, told_of_store};
ghost use Rattle.ends.specs.declared.faults.Fault.TheVariants.{Frames as WithFrames};
ghost use Rattle.ends.specs.declared.faults.Frames.TheVariants.{AllHanded, Handed};
ghost use Rattle.ends.specs.declared.faults.FramesFault.TheVariants.{Clash, Pair as OfPair, Quorum as OfQuorum};

use ends::{Fault, Frames, FramesFault};
use fenced_live::GivenFault;
use go_live::LiveFault;
use guest_image::ImageFault;
use leading::{HandedFault, LeadFault};
use log_join::StoreFault;

/// What is wrong with the image.
pub(crate) fn image_fault(fault: ImageFault) -> Fault
    ensures { result ≡ told_of_image fault }
{
    match fault {
        ImageFault::BadLine(line) => Fault::ImageLine(line),
        ImageFault::Memory => Fault::Memory,
        fault => Fault::Image(fault.number()),
    }
}

/// What is wrong with what was handed over, with this number.
pub(crate) fn handed_fault(number: usize, fault: HandedFault) -> Fault
    ensures { result ≡ told_of_handed number fault }
{
    let fault = match fault {
        HandedFault::Line => FramesFault::Line,
        HandedFault::Length => FramesFault::Length,
        HandedFault::Torn => FramesFault::Torn,
        HandedFault::Frame(fault) => FramesFault::Frame(fault.number()),
        HandedFault::OtherGuest => FramesFault::Guest,
        HandedFault::Clash => FramesFault::Clash,
        HandedFault::Memory => return Fault::Memory,
    };
    Fault::Frames(Frames::Handed(number), fault)
}

/// What was handed over with this number names no pair, or another than those before.
pub(crate) fn other_pair(number: usize) -> Fault
    ensures { result ≡ WithFrames (Handed number) OfPair }
{
    Fault::Frames(Frames::Handed(number), FramesFault::Pair)
}

/// What was handed over with this number names another quorum.
pub(crate) fn other_quorum(number: usize) -> Fault
    ensures { result ≡ WithFrames (Handed number) OfQuorum }
{
    Fault::Frames(Frames::Handed(number), FramesFault::Quorum)
}

/// Two that were handed over don't go together.
pub(crate) fn clash() -> Fault
    ensures { result ≡ WithFrames AllHanded Clash }
{
    Fault::Frames(Frames::AllHanded, FramesFault::Clash)
}

/// Why two that were handed over are not joined.
pub(crate) fn store_fault(fault: StoreFault) -> Fault
    ensures { result ≡ told_of_store fault }
{
    match fault {
        StoreFault::Memory => Fault::Memory,
        StoreFault::OtherGuest => clash(),
    }
}

/// Why no primary leads a term with what was handed over.
pub(crate) fn lead_fault(fault: LeadFault) -> Fault
    ensures { result ≡ told_of_lead fault }
{
    match fault {
        LeadFault::NoKeeper => Fault::Frames(Frames::AllHanded, FramesFault::Keeper),
        LeadFault::NotLive(GivenFault::OtherTerm) => {
            Fault::Frames(Frames::AllHanded, FramesFault::Term)
        }
        LeadFault::NotLive(GivenFault::Live(LiveFault::Memory)) => Fault::Memory,
        LeadFault::NotLive(GivenFault::Live(fault)) => Fault::Live(fault.number()),
    }
}
