//! What lists and logs that fall by chance start from. What is refused memory is asked for once more by who began.

use fragment_codec::{Frame, Opening};
use ft_types::{Count, Counts, Guest, HART_ROW, Memory, Term};
use guest_image::{Image, Machine, read_image};
use log_join::Store;
use page_book::{Book, Recording};
use std::alloc::Global;

/// The image of a right file.
pub fn image_in(alloc: Global, file: &[u8]) -> Result<Image, Memory> {
    match read_image(alloc, file) {
        Ok(image) => Ok(image),
        Err(_) => Err(Memory),
    }
}

/// The opening of a term that goes on from the term of this number.
pub fn opens(guest: Guest, term: Term, parent: Term, base: Counts) -> Result<Frame, Memory> {
    match Opening::new(guest, term, parent, base) {
        Some(opening) => Ok(Frame::Opening(opening)),
        None => Err(Memory),
    }
}

/// The frame comes to the store.
pub fn deliver(alloc: Global, store: &mut Store, frame: &Frame) -> Result<(), Memory> {
    let _put = store.put(frame.copy(alloc)?)?;
    Ok(())
}

/// The book of a primary that goes on from the machine, each hart up to this count.
pub fn recorder_from(
    alloc: Global,
    start: Machine,
    limit: Count,
) -> Result<Book<Recording>, Memory> {
    let limits = [limit; HART_ROW];
    let limits = limits.get(..usize::from(start.harts())).unwrap_or(&[]);
    match Counts::from_slice(limits) {
        Some(limits) if limits.harts() == start.harts() => {
            Ok(Book::<Recording>::begin(alloc, start, limits)?)
        }
        _ => Err(Memory),
    }
}

/// That of one that goes on from the image's boot.
pub fn recorder_of(alloc: Global, image: &Image, limit: Count) -> Result<Book<Recording>, Memory> {
    recorder_from(alloc, Machine::boot(alloc, image)?, limit)
}
