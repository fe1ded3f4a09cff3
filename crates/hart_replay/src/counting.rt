//! How many steps counts are.

ghost use Rattle.std.specs.Prelude.{◌≡◌, sum};

use ft_types::{Counts, Hart};

/// How many steps the counts are.
pub fn steps_in(counts: &Counts) -> u64
    ensures { result ≡ sum counts.now }
{
    let mut steps = 0u64;
    for number in 0..counts.harts() {
        steps += counts.get(Hart::new(number));
    }
    steps
}
