//! What a book's machine tells of its harts to who steers them.

ghost use Rattle.std.specs.Prelude.{◌≡◌};

use ft_types::{Count, HART_ROW, Hart};
use page_book::{Book, Mode};
use steering::{Returned, Steering, trace_of};

/// Whether the hart is to go on.
pub(crate) fn may_go<M: Mode>(book: &Book<M>, hart: Hart, end: Count) -> bool {
    if hart.number() >= book.machine().harts() {
        return false;
    }
    let state = book.machine().hart(hart);
    !state.is_halted() && state.count() < end
}

/// How often the hart has rung each hart, by its settled steps.
pub(crate) fn rung_by<M: Mode>(book: &Book<M>, hart: Hart) -> [u64; HART_ROW] {
    if hart.number() >= book.machine().harts() {
        return [0; HART_ROW];
    }
    *book.machine().hart(hart).rung()
}

/// Tells of the hart's settled lease, before which it had rung each hart so often.
pub(crate) fn tell_settled<M: Mode>(
    book: &Book<M>,
    steering: &mut Steering,
    hart: Hart,
    returned: Returned,
    before: &[u64; HART_ROW],
) {
    if steering.has_rests() && hart.number() < book.machine().harts() {
        let state = book.machine().hart(hart);
        let trace = trace_of(state.registers());
        steering.settle(returned, trace, before, state.rung());
    }
}
