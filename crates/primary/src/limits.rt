//! How far the harts of a primary may go.

ghost use Rattle.std.specs.Prelude.{◌≡◌, ◌≤◌};
ghost use Rattle.ft_types.specs.declared.names.TheConstants.{HART_LIMIT};
ghost use Rattle.primary.specs.Primaries.{no_limits as greatest_limits};

use ft_types::{COUNT_LIMIT, Counts, Hart};

/// The greatest limit, for each hart.
pub fn no_limits(harts: u8) -> Counts
    requires { harts ≤ HART_LIMIT }
    ensures { result ≡ greatest_limits harts }
{
    let mut limits = Counts::zero(harts);
    for number in 0..harts {
        limits.set(Hart::new(number), COUNT_LIMIT - 1);
    }
    limits
}
