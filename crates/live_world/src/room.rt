//! Room for more.

ghost use Rattle.std.specs.Prelude.{◌≡◌, ◌+◌, ◌≤◌, ◌++◌, OnOk, OnErr, vec_len, vec_capacity};

use ft_types::Memory;
use std::result::Result;

/// Makes room for one more.
pub(crate) fn make_room<T: Drop>(items: &mut Vec<T>) -> Result<(), Memory>
    ensures same { items.new.items ≡ items.old.items }
    ensures room { OnOk result (vec_len items.new + 1 ≤ vec_capacity items.new) }
{
    items.reserve(1)?;
    Ok(())
}

/// Puts these behind the others, or none of them.
pub(crate) fn add_all<T: Drop>(items: &mut Vec<T>, mut more: Vec<T>) -> Result<(), Memory>
    ensures ok { OnOk result (items.new.items ≡ items.old.items ++ more.items) }
    ensures err { OnErr result (items.new.items ≡ items.old.items) }
{
    items.append(&mut more)?;
    Ok(())
}
