//! Frames as rows of tables, and stores to which they come. A put that is refused memory is asked for once more.

use fixtures::{edge, guest_with, hart, key, opening_of, piece_of};
use fragment_codec::{Frame, Record};
use ft_types::{Count, Guest, Memory, Term};
use input_log::Input;
use log_join::{Put, Store};
use std::alloc::Global;
use std::test::Fail;

/// A record of a piece.
#[derive(Clone, Copy)]
pub enum Fact {
    /// An edge at a count to a hart, after a count of that one.
    Edge(Count, u8, Count),
    /// A timer at a count.
    Timer(Count),
    /// A word at a count.
    Word(Count, u32),
    /// A bell at a count from a hart.
    Bell(Count, u8),
    /// At a count, outputs below a number were released.
    Note(Count, u64),
}

/// A frame that comes to a store.
#[derive(Clone, Copy)]
pub enum Come {
    /// The opening of a term, its parent and its base.
    Opening(Term, Term, &'static [Count]),
    /// A piece of a term, a hart and a place, from a count to another.
    Piece(Term, u8, u32, Count, Count, &'static [Fact]),
}

/// A guest of so many harts.
pub fn guest_of(harts: u8) -> Guest {
    guest_with([7; 32], harts)
}

/// The records of a hart's piece.
pub fn records_of(alloc: Global, number: u8, facts: &[Fact]) -> Result<Vec<Record>, Memory> {
    let mut records = Vec::new(alloc);
    for fact in facts {
        let record = match *fact {
            Fact::Edge(at, other, after) => Record::Edge(edge(number, at, other, after)),
            Fact::Timer(at) => Record::Input(at, Input::Timer),
            Fact::Word(at, word) => Record::Input(at, Input::Word(word)),
            Fact::Bell(at, source) => Record::Input(at, Input::Bell(hart(source))),
            Fact::Note(at, number) => Record::Note(at, number),
        };
        records.push(record)?;
    }
    Ok(records)
}

/// The frame of a guest.
pub fn frame_of(alloc: Global, guest: Guest, come: &Come) -> Result<Frame, Fail> {
    match *come {
        Come::Opening(term, parent, base) => opening_of(guest, term, parent, base),
        Come::Piece(term, number, place, from, to, facts) => {
            let records = records_of(alloc, number, facts)?;
            piece_of(alloc, guest, key(term, number, place), from, to, &records)
        }
    }
}

/// What a store tells of itself in numbers: terms, keys, clashes, the last term.
pub type Marks = (usize, usize, usize, Term);

/// Clashes, and the last term.
fn told(store: &Store) -> (usize, Term) {
    (store.clashes(), store.last_term())
}

/// What a store tells.
pub fn marks(alloc: Global, store: &Store) -> Result<Marks, Memory> {
    let (terms, keys) = (store.terms(alloc)?, store.keys(alloc)?);
    let (clashes, last) = told(store);
    Ok((terms.len(), keys.len(), clashes, last))
}

/// Puts a frame of a guest, again where memory was refused, which must have left the store as it was.
pub fn put(alloc: Global, store: &mut Store, guest: Guest, come: &Come) -> Result<Put, Fail> {
    let frame = frame_of(alloc, guest, come)?;
    let again = frame.copy(alloc)?;
    let before = told(&*store);
    match store.put(frame) {
        Ok(answer) => Ok(answer),
        Err(Memory) if told(&*store) == before => Ok(store.put(again)?),
        Err(Memory) => Err("a refusal changed the store".into()),
    }
}

/// Puts these frames of a guest.
fn put_all(alloc: Global, store: &mut Store, guest: Guest, frames: &[Come]) -> Result<(), Fail> {
    for come in frames {
        let _put = put(alloc, store, guest, come)?;
    }
    Ok(())
}

/// A store of a guest to which these frames came.
pub fn store_of(alloc: Global, guest: Guest, frames: &[Come]) -> Result<Store, Fail> {
    let mut store = Store::new(alloc, guest);
    put_all(alloc, &mut store, guest, frames)?;
    Ok(store)
}
