//! How far the harts of a run may go.

ghost use Rattle.std.specs.Prelude.{◌≡◌, ◌<◌, ℕ};
ghost use Rattle.ft_types.specs.declared.names.TheConstants.{COUNT_LIMIT};

use ft_types::{COUNT_LIMIT, Count};
use std::marker::Model;

/// How many steps each hart of a run may take: a count.
#[derive(Clone, Copy)]
pub struct Budget {
    steps: Count,
}

impl Model for Budget {
    ghost use Rattle.std.specs.Prelude.{ℕ, ◌<◌};
    ghost use Rattle.ft_types.specs.declared.names.TheConstants.{COUNT_LIMIT};

    ghost Value = { ℕ };

    ghost view = { λ b. b.steps };

    ghost invariant = { λ b. b.steps < COUNT_LIMIT };

    ghost inverse = { λ n. record { steps = n } };
}

impl Budget {
    /// The budget of so many steps.
    pub fn new(steps: Count) -> Budget
        requires { steps < COUNT_LIMIT }
        ensures { result ≡ steps }
    {
        Budget { steps }
    }

    /// The number of steps.
    pub fn steps(self) -> Count
        ensures value { result ≡ self }
        ensures limit { result < COUNT_LIMIT }
    {
        self.steps
    }
}
