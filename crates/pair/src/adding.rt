//! One list behind another.

ghost use Rattle.std.specs.Prelude.{◌≡◌, ◌++◌, OnOk};

use ft_types::Memory;
use std::result::Result;

/// Puts these behind those that are there. Where there are none it is a move.
pub(crate) fn add_all<T: Drop>(all: &mut Vec<T>, more: Vec<T>) -> Result<(), Memory>
    ensures { OnOk result (all.new.items ≡ all.old.items ++ more.items) }
{
    if all.is_empty() {
        *all = more;
        return Ok(());
    }
    let mut more = more;
    all.append(&mut more)?;
    Ok(())
}
