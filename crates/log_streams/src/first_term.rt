//! A primary's run of a guest, in term 1.

ghost use Rattle.std.specs.Prelude.{◌≡◌, ◌<◌, ◌≤◌, ◌^◌, ℕ, length, replicate, slice_index, IfOk, OnOk};
ghost use Rattle.ft_types.specs.declared.names.TheConstants.{HART_LIMIT};
ghost use Rattle.guest_image.specs.Image.{guest_of};
ghost use Rattle.scripts.specs.Script.{AreOffered};
ghost use Rattle.log_streams.specs.Primary.{AreOfferedTo, IsFirst, IsReady, IsRunBy, AreFramesOf};
ghost use Rattle.log_streams.specs.Ends.{ReachItsEnd};

use crate::budget::Budget;
use crate::runs::Runs;
use fragment_codec::{FIRST_TERM, Frame, first_opening};
use ft_types::{Counts, Hart, Memory};
use guest_image::Image;
use log_pieces::{Sealed, cut_pieces};
use page_book::{Book, Recording};
use primary::Primary;
use scripts::Offered;
use std::alloc::Global;

/// One limit for all harts.
fn limits_of(harts: u8, limit: Budget) -> Counts
    requires { harts ≤ HART_LIMIT }
    ensures { result ≡ replicate harts limit }
{
    let mut limits = Counts::zero(harts);
    for number in 0..harts {
        limits.set(Hart::new(number), limit.steps());
    }
    limits
}

/// Offers all that the script says, in its order.
fn offer_script(primary: &mut Primary, script: &[Offered]) -> Result<(), Memory>
    requires { AreOffered (length primary.old.book.machine.harts) script.now }
    ensures offered { OnOk result (AreOfferedTo primary.old.book.mode script.now primary.new.book.mode) }
    ensures rest { OnOk result (primary.new ≡ record primary.old { book = record primary.old.book { mode = primary.new.book.mode } }) }
{
    for offered in script {
        primary.offer(offered.hart, offered.not_before, offered.input)?;
    }
    Ok(())
}

/// A primary of the image from boot, whose harts may go to the limit, with what the script offers.
pub fn begin_primary(
    alloc: Global,
    image: &Image,
    script: &[Offered],
    limit: Budget,
) -> Result<Primary, Memory>
    requires { AreOffered image.now.harts script.now }
    ensures ready { IfOk result (λ p. IsReady image.now script.now limit p.book) }
    ensures first { IfOk result (λ p. IsFirst p) }
    ensures guest { IfOk result (λ p. p.opening.guest ≡ guest_of image.now) }
{
    let mut primary = Primary::boot(alloc, image)?;
    primary.book.limit_at(limits_of(image.harts(), limit));
    offer_script(&mut primary, script)?;
    Ok(primary)
}

/// A book of the image from boot, with what the script offers.
pub fn begin_run(
    alloc: Global,
    image: &Image,
    script: &[Offered],
    limit: Budget,
) -> Result<Book<Recording>, Memory>
    requires { AreOffered image.now.harts script.now }
    ensures { IfOk result (λ b. IsReady image.now script.now limit b) }
{
    let primary = begin_primary(alloc, image, script, limit)?;
    Ok(primary.book)
}

/// Runs a primary of the image from boot, with what the script offers, until each hart is halted or at the limit.
pub fn run_primary<P: Runs>(
    alloc: Global,
    runs: &P,
    image: &Image,
    script: &[Offered],
    limit: Budget,
) -> Result<Book<Recording>, Memory>
    requires may { P.may_run runs.now }
    requires script { AreOffered image.now.harts script.now }
    ensures run { IfOk result (λ b. IsRunBy (P.goes runs.now) image.now script.now limit b) }
    ensures harts { IfOk result (λ b. length b.machine.harts ≡ image.now.harts) }
{
    let book = begin_run(alloc, image, script, limit)?;
    runs.run_book(alloc, book)
}

/// The opening of the term, and the pieces of the book's log.
pub fn frames_of(alloc: Global, image: &Image, book: &Book<Recording>) -> Result<Vec<Frame>, Memory>
    requires { length book.now.machine.harts ≡ image.now.harts }
    ensures frames { IfOk result (λ frames. AreFramesOf (guest_of image.now) book.now frames.items) }
    // Whoever gathers them has its position at the end of the run.
    ensures end { IfOk result (λ frames. ReachItsEnd (guest_of image.now) book.now frames.items) }
{
    // proof: the log keeps the rules by type.
    let _edges = book.edges();
    let harts = image.harts();
    let guest = image.guest();
    let opening = first_opening(guest);
    let mut sealed = Sealed::new(Counts::zero(harts));
    let mut frames = cut_pieces(alloc, book, &guest, FIRST_TERM, &mut sealed)?;
    frames.insert(0, Frame::Opening(opening))?;
    Ok(frames)
}
