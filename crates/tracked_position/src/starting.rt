//! Where the walks of a term begin.

ghost use Rattle.std.specs.Prelude.{◌≡◌, ℕ, length};
ghost use Rattle.fragment_codec.specs.Rules.{OpeningParts};
ghost use Rattle.log_join.specs.Cells.{One};
ghost use Rattle.log_join.specs.Stores.{opening_at, IsStore};
ghost use Rattle.closed_cut.specs.Position.{base_of};
ghost use Rattle.tracked_position.specs.declared.walk.Ahead.TheVariants.{Unseen};
ghost use Rattle.tracked_position.specs.machinery.Walks.{AreOver, cursor_at};

use crate::walk::{Ahead, Cursor};
use closed_cut::opening_of;
use ft_types::{HART_ROW, Hart, Term};
use log_join::Store;

/// Cursors of walks that did not begin.
pub(crate) fn unseen() -> [Cursor; HART_ROW]
    ensures wide { length result ≡ HART_ROW }
    ensures each { (hart : ℕ) → cursor_at result hart ≡ record { place = 0; end = 0; ahead = Unseen } }
{
    [Cursor {
        place: 0,
        end: 0,
        ahead: Ahead::Unseen,
    }; HART_ROW]
}

/// Cursors at the base of a term, where it is opened.
pub(crate) fn start(store: &Store, term: Term) -> [Cursor; HART_ROW]
    ensures rules { IsStore store.now }
    ensures over { (o : OpeningParts) (cut : ℕ → ℕ) → opening_at store.now term ≡ One o → AreOver store.now term (base_of o) cut result }
{
    let mut cursors = unseen();
    let Some(opening) = opening_of(store, term) else {
        return cursors;
    };
    let base = opening.base();
    for number in 0..base.harts() {
        let hart = Hart::new(number);
        cursors[hart.index()] = Cursor {
            place: 0,
            end: base.get(hart),
            ahead: Ahead::Unseen,
        };
    }
    cursors
}
