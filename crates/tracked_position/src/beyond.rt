//! How far what came of a term goes.

ghost use Rattle.std.specs.Prelude.{◌≡◌, ◌+◌, IsTrue};
ghost use Rattle.fragment_codec.specs.declared.types.Key.{Key as key_of_specs};
ghost use Rattle.log_join.specs.Cells.{Absent};
ghost use Rattle.log_join.specs.Stores.{StoreView, fragment_at};
ghost use Rattle.closed_cut.specs.Position.{pieces_of};
ghost use Rattle.tracked_position.specs.machinery.Keeping.{AreBeyond, IsSameBeside};

use fragment_codec::Key;
use ft_types::{HART_ROW, Term};

/// From which place on nothing came of each hart in a term, where that is known.
#[derive(Clone, Copy)]
pub(crate) struct Beyond {
    known: bool,
    term: Term,
    places: [u64; HART_ROW],
}

impl Beyond {
    /// It is not known.
    pub(crate) fn unknown() -> Beyond
        ensures { (store : StoreView) → AreBeyond store result }
    {
        Beyond {
            known: false,
            term: 0,
            places: [0; HART_ROW],
        }
    }

    /// Nothing came in the term.
    pub(crate) fn nothing_in(term: Term) -> Beyond
        ensures { (store : StoreView) → ((key : key_of_specs) → key.term ≡ term → fragment_at store key ≡ Absent) → AreBeyond store result }
    {
        Beyond {
            known: true,
            term,
            places: [0; HART_ROW],
        }
    }

    /// Whether it is known that nothing came at this key.
    pub(crate) fn has(&self, key: Key) -> bool
        ensures { IsTrue result → (store : StoreView) → AreBeyond store self.now → fragment_at store key ≡ Absent }
    {
        self.known && self.term == key.term && self.places[key.hart.index()] <= u64::from(key.place)
    }

    /// Something comes at this key. Whether it is known that nothing came at the place behind it.
    pub(crate) fn add(&mut self, key: Key) -> bool
        ensures kept { (old new : StoreView) → IsSameBeside old key new → AreBeyond old self.old → AreBeyond new self.new }
        ensures last { IsTrue result → (store : StoreView) → AreBeyond store self.new → pieces_of store key.term key.hart (key.place + 1) ≡ Absent }
    {
        let index = key.hart.index();
        let next = u64::from(key.place) + 1;
        if !self.known || self.term != key.term || next < self.places[index] {
            return false;
        }
        self.places[index] = next;
        true
    }
}
