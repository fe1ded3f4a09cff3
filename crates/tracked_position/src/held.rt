//! Whether each hart that waits, waits at last for one that goes no further anyhow.

ghost use Rattle.std.specs.Prelude.{◌≡◌, ◌↔◌, ◌≤◌, ℕ, true, false, None, All, IsTrue, slice_index_or};
ghost use Rattle.ft_types.specs.declared.names.TheConstants.{HART_LIMIT};
ghost use Rattle.tracked_position.specs.machinery.Waits.{IsHeld};

use ft_types::{HART_ROW, Hart};
use std::option::Option;

/// Whether each flag is set.
fn are_set(flags: &[bool]) -> bool
    ensures { IsTrue result ↔ All (λ flag. flag ≡ true) flags.now }
{
    flags.iter().all(|flag| *flag)
}

/// Flags each hart that waits for none, or for one that has its flag. Whether a flag changed.
fn hold_more(waits: &[Option<Hart>; HART_ROW], held: &mut [bool; HART_ROW]) -> bool
    requires { (hart : ℕ) → slice_index_or held.old hart false ≡ true → IsHeld waits.now hart }
    ensures { (hart : ℕ) → slice_index_or held.new hart false ≡ true → IsHeld waits.now hart }
{
    let mut more = false;
    for index in 0..HART_ROW {
        let waits_for = waits[index];
        let before = held[index];
        held[index] = match waits_for {
            None => true,
            Some(other) => held[other.index()],
        };
        more = more || held[index] != before;
    }
    more
}

/// Whether none waits of so many harts, the only ones that do.
fn is_none_waiting(waits: &[Option<Hart>; HART_ROW], harts: u8) -> bool
    requires limit { harts ≤ HART_LIMIT }
    requires rest { (hart : ℕ) → harts ≤ hart → slice_index_or waits.now hart None ≡ None }
    ensures { IsTrue result → (hart : ℕ) → IsHeld waits.now hart }
{
    for index in 0..usize::from(harts) {
        if waits[index].is_some() {
            return false;
        }
    }
    true
}

/// No hart's flag is set.
fn no_flags() -> [bool; HART_ROW]
    ensures { (hart : ℕ) → slice_index_or result hart false ≡ false }
{
    [false; HART_ROW]
}

/// Whether the chain of those for whom it waits ends, for each hart: none then waits for itself in a circle. Only of so many does one wait.
pub(crate) fn all_held(waits: &[Option<Hart>; HART_ROW], harts: u8) -> bool
    requires limit { harts ≤ HART_LIMIT }
    requires rest { (hart : ℕ) → harts ≤ hart → slice_index_or waits.now hart None ≡ None }
    ensures { IsTrue result → (hart : ℕ) → IsHeld waits.now hart }
{
    if is_none_waiting(waits, harts) {
        return true;
    }
    let mut held = no_flags();
    for _ in 0..HART_ROW {
        if !hold_more(waits, &mut held) {
            return are_set(&held);
        }
    }
    are_set(&held)
}
