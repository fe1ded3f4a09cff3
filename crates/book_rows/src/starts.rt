//! Books that plays begin with. What memory is refused once is asked for once more, so that a play says the same where one
//! allocation fails.

ghost use Rattle.std.specs.Prelude.{◌≡◌, length};

use crate::rows::{Edge, Heard, Play};
use edge_log::EdgeLog;
use fixtures::{edge, hart, image_of, recorder};
use ft_types::{Count, Counts, HART_LIMIT, HART_ROW, Hart, Memory};
use guest_image::{Image, Machine};
use input_log::{Input, InputLog};
use page_book::{Book, Leg, Mode, Recording, Replaying};
use std::alloc::Global;
use std::test::Fail;

/// A book that records what a play's guest does.
pub fn recorder_of(alloc: Global, play: &Play) -> Result<Book<Recording>, Fail> {
    let image = image_of(alloc, play.file)?;
    recorder(alloc, &image, play.limits)
}

fn add_edge(log: &mut EdgeLog, number: u8, (at, other, after): Edge) -> bool {
    let edge = edge(number, at, other, after);
    log.may_add(&edge) && log.add(edge).is_ok()
}

fn add_edges(log: &mut EdgeLog, edges: &[(u8, Edge)]) -> bool {
    for (number, edge) in edges {
        if !add_edge(log, *number, *edge) {
            return false;
        }
    }
    true
}

/// A log of these edges from a start at 0.
fn edges_of(alloc: Global, harts: u8, edges: &[(u8, Edge)]) -> Option<EdgeLog> {
    let mut log = EdgeLog::new(alloc, Counts::zero(harts.min(HART_LIMIT)));
    if add_edges(&mut log, edges) {
        Some(log)
    } else {
        None
    }
}

fn add_input(log: &mut InputLog, number: u8, count: Count, heard: &Heard) -> bool {
    let hart = hart(number);
    log.may_add(hart, count) && log.add(hart, count, heard.input()).is_ok()
}

fn add_inputs(log: &mut InputLog, inputs: &[(u8, Count, Heard)]) -> bool {
    for (number, count, heard) in inputs {
        if !add_input(log, *number, *count, heard) {
            return false;
        }
    }
    true
}

fn inputs_of(alloc: Global, inputs: &[(u8, Count, Heard)]) -> Option<InputLog> {
    let mut log = InputLog::new(alloc);
    if add_inputs(&mut log, inputs) {
        Some(log)
    } else {
        None
    }
}

fn leg_of(alloc: Global, harts: u8, play: &Play) -> Option<Leg> {
    let Some(obeyed) = &play.obeyed else {
        return None;
    };
    let ends = Counts::from_slice(play.limits)?;
    let edges = edges_of(alloc, harts, obeyed.edges)?;
    let inputs = inputs_of(alloc, obeyed.inputs)?;
    Some(Leg {
        ends,
        edges,
        inputs,
    })
}

/// A book that obeys a leg from boot.
pub fn begin(alloc: Global, image: &Image, leg: Leg) -> Option<Book<Replaying>> {
    let start = Machine::boot(alloc, image).ok()?;
    Book::<Replaying>::begin(alloc, start, leg).ok()
}

fn replayer_once(alloc: Global, image: &Image, play: &Play) -> Option<Book<Replaying>> {
    begin(alloc, image, leg_of(alloc, image.harts(), play)?)
}

fn replayer(alloc: Global, image: &Image, play: &Play) -> Result<Book<Replaying>, Fail> {
    let book = match replayer_once(alloc, image, play) {
        None => replayer_once(alloc, image, play),
        book => book,
    };
    match book {
        Some(book) => Ok(book),
        None => Err("book".into()),
    }
}

/// A book that obeys what a play gives.
pub fn replayer_of(alloc: Global, play: &Play) -> Result<Book<Replaying>, Fail> {
    let image = image_of(alloc, play.file)?;
    replayer(alloc, &image, play)
}

fn next_once(alloc: Global, machine: &Machine) -> Option<Book<Recording>> {
    let limits = Counts::from_slice([100; HART_ROW].get(..usize::from(machine.harts()))?)?;
    if machine.harts() != limits.harts() {
        return None;
    }
    Book::<Recording>::begin(alloc, machine.copy().ok()?, limits).ok()
}

/// A book that begins where another one ended.
pub fn next_book(alloc: Global, book: &Book<Recording>) -> Option<Book<Recording>> {
    match next_once(alloc, book.machine()) {
        Some(next) => Some(next),
        None => next_once(alloc, book.machine()),
    }
}

/// How many harts a book has.
pub fn harts_of<M: Mode>(book: &Book<M>) -> u8
    ensures { result ≡ length book.now.machine.harts }
{
    book.machine().harts()
}

fn offer_once(
    book: &mut Book<Recording>,
    hart: Hart,
    count: Count,
    input: &Input,
) -> Result<(), Memory> {
    if hart.number() >= harts_of(book) || input.is_bell() {
        return Err(Memory);
    }
    book.offer(hart, count, *input)
}

/// Offers a hart an input, a second time where memory was refused.
pub fn offer(book: &mut Book<Recording>, hart: Hart, count: Count, input: &Input) -> bool {
    offer_once(book, hart, count, input).is_ok() || offer_once(book, hart, count, input).is_ok()
}

/// Raises the limits of a book of as many harts.
pub fn raise(book: &mut Book<Recording>, limits: &[Count]) -> bool {
    let Some(limits) = Counts::from_slice(limits) else {
        return false;
    };
    if harts_of(book) != limits.harts() {
        return false;
    }
    book.limit_to(limits);
    true
}
