//! The join of stores.

ghost use Rattle.std.specs.Prelude.{◌≡◌, map, IfOk, All};
ghost use Rattle.log_join.specs.Stores.{IsStore};
ghost use Rattle.go_live.specs.Joined.{AreJoined};

use ft_types::{Guest, Keeper, Memory};
use log_join::Store;
use std::alloc::Global;
use std::result::Result;

/// The join of stores of a guest.
pub(crate) fn join_all(
    alloc: Global,
    guest: Guest,
    stores: &[(Keeper, &Store)],
) -> Result<Store, Memory>
    requires { All (λ s. s.guest ≡ guest) (map (λ s. s.1.now) stores.now) }
    ensures { IfOk result (λ store. AreJoined guest (map (λ s. s.1.now) stores.now) store) }
{
    let mut joined = Store::new(alloc, guest);
    for (_, store) in stores {
        match joined.join(alloc, store) {
            Ok(()) => {}
            Err(_) => return Err(Memory),
        }
    }
    Ok(joined)
}
