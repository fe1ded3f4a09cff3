//! Books that fall by chance begin so, and what is compared of them.

use crate::starts::begin;
use edge_log::EdgeLog;
use fixtures::{Crew, recorder};
use ft_types::{Count, Counts, Memory};
use guest_image::Image;
use input_log::InputLog;
use page_book::{Book, Leg, Mode, Recording, Replaying};
use std::alloc::Global;
use std::test::Fail;

/// A crew over a book that records what a guest does up to these limits.
pub fn recording(alloc: Global, image: &Image, limits: &[Count]) -> Result<Crew<Recording>, Fail> {
    Ok(Crew::new(recorder(alloc, image, limits)?))
}

/// What is to be obeyed: these edges and inputs, up to these counts.
pub fn leg_of(ends: Counts, edges: &EdgeLog, inputs: &InputLog) -> Result<Leg, Memory> {
    let edges = edges.copy()?;
    let inputs = inputs.copy()?;
    Ok(Leg {
        ends,
        edges,
        inputs,
    })
}

fn replayer_once(
    alloc: Global,
    image: &Image,
    ends: Counts,
    edges: &EdgeLog,
    inputs: &InputLog,
) -> Option<Book<Replaying>> {
    begin(alloc, image, leg_of(ends, edges, inputs).ok()?)
}

/// A book that obeys these edges and gives these inputs, up to these counts.
pub fn replayer(
    alloc: Global,
    image: &Image,
    ends: Counts,
    edges: &EdgeLog,
    inputs: &InputLog,
) -> Result<Book<Replaying>, Fail> {
    let book = match replayer_once(alloc, image, ends, edges, inputs) {
        None => replayer_once(alloc, image, ends, edges, inputs),
        book => book,
    };
    match book {
        Some(book) => Ok(book),
        None => Err("book".into()),
    }
}

/// Whether two books came to the same machine.
pub fn same_machine<M: Mode, N: Mode>(one: &Book<M>, other: &Book<N>) -> bool {
    one.machine().same(other.machine())
}
