//! Rights that harts give up, so that another is given its own.

ghost use Rattle.std.specs.Prelude.{◌≡◌, ◌<◌, ◌≤◌, ◌+◌, ℕ, false, true};
ghost use Rattle.book_modes.specs.machinery.Words.{count_at};
ghost use Rattle.crew_pages.specs.Rights.{has_it, right_of};
ghost use Rattle.ft_types.specs.declared.names.TheConstants.{HART_LIMIT};
ghost use Rattle.book_modes.specs.machinery.Yielding.{yielded};

use crew_pages::PageRight;
use ft_types::{Counts, HART_LIMIT, Hart};
use hart_lease::Asked;

/// Whether the asker has what it wants at hand: then nobody stands in its way, so that nobody has to yield.
pub(crate) fn is_at_hand(right: &PageRight, asked: &Asked) -> bool
    ensures has { result ≡ true → has_it (right_of right.now) asked.now.hart asked.now.want ≡ true }
    ensures lacks { result ≡ false → has_it (right_of right.now) asked.now.hart asked.now.want ≡ false }
    ensures stays { result ≡ true → (settled : ℕ → ℕ) → yielded asked.now settled HART_LIMIT (right_of right.now) ≡ right_of right.now }
{
    right.has(asked.hart, asked.want)
}

/// Each hart that stands in the asker's way gives the right up.
pub(crate) fn yield_right(right: &mut PageRight, settled: &Counts, asked: &Asked)
    ensures { right_of right.new ≡ yielded asked.now (count_at settled.now) HART_LIMIT (right_of right.old) }
{
    if right.against(asked.hart, asked.want).is_empty() {
        return;
    }
    for number in 0..HART_LIMIT {
        let other = Hart::new(number);
        if right.stands(asked.hart, asked.want, other) {
            right.give_up(other, settled.count_of(other));
        }
    }
}
