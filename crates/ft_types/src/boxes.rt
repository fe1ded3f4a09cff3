//! Values in memory of their own.

ghost use Rattle.std.specs.Prelude.{◌≡◌, IfOk};

use crate::errors::Memory;
use std::alloc::Global;
use std::result::Result;

/// A value in memory of its own, so that what has it is small where it goes from hand to hand.
pub fn boxed<T: Drop>(alloc: Global, value: T) -> Result<Box<T>, Memory>
    ensures { IfOk result (λ own. own.value ≡ value) }
{
    Ok(Box::new(alloc, value)?)
}
