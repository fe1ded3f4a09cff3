//! How many steps the harts of a machine have taken.

ghost use Rattle.std.specs.Prelude.{◌≡◌, ◌<◌, ◌≤◌, ℕ, length, slice_index};
ghost use Rattle.book_modes.specs.machinery.Words.{count_at, counts_of};

use ft_types::{Count, Counts, HART_LIMIT, Hart};
use guest_image::Machine;

/// How many steps the hart has taken: none where the machine has no such hart.
pub fn steps_taken(machine: &Machine, hart: Hart) -> Count
    ensures { result ≡ counts_of machine.now hart }
{
    if hart.number() < machine.harts() {
        machine.hart(hart).count()
    } else {
        0
    }
}

/// How many steps each hart has taken.
pub fn settled_counts(machine: &Machine) -> Counts
    ensures harts { length result ≡ length machine.now.harts }
    ensures value { (hart : ℕ) → hart < length result → slice_index result hart ≡ counts_of machine.now hart }
    ensures all { (hart : ℕ) → count_at result hart ≡ counts_of machine.now hart }
    ensures few { length machine.now.harts ≤ HART_LIMIT }
{
    let mut counts = Counts::zero(machine.harts());
    for number in 0..machine.harts() {
        let hart = Hart::new(number);
        counts.set(hart, machine.hart(hart).count());
    }
    counts
}
