//! The store of frames, up to the first that does not go with those before it.

ghost use Rattle.std.specs.Prelude.{◌≡◌, None, IfOk, IfSome};
ghost use Rattle.log_join.specs.Answers.{answer_to};
ghost use Rattle.log_join.specs.Stores.{IsJoin, alone};
ghost use Rattle.log_mending.specs.Gathering.{IsGathered, put_of};

use crate::faults::Misfit;
use fragment_codec::Frame;
use ft_types::{Guest, Memory};
use log_join::{Put, Store};
use std::alloc::Global;
use std::option::Option;
use std::result::Result;

/// Puts a frame into the store, where that takes it: why it does not.
fn put_fit(store: &mut Store, frame: Frame) -> Result<Option<Misfit>, Memory>
    ensures joined { IfOk result (λ misfit. misfit ≡ None → IsJoin store.old (alone frame) store.new) }
    ensures misfit { IfOk result (λ misfit. IfSome misfit (λ m. (store.new ≡ store.old) × (answer_to store.old frame ≡ put_of m))) }
{
    match store.answer(&frame) {
        Put::New | Put::Same => {
            store.put(frame)?;
            Ok(None)
        }
        Put::OtherGuest => Ok(Some(Misfit::OtherGuest)),
        Put::Clash => Ok(Some(Misfit::Clash)),
    }
}

/// What frames make, up to the first that does not go with those before it.
#[derive(Drop)]
pub(crate) struct Gathered {
    /// The store of those before it.
    pub store: Store,
    /// How many they are.
    pub taken: usize,
    /// Why that one is not put, where there is one.
    pub misfit: Option<Misfit>,
}

/// Puts the frames into a store of the guest, up to the first that it does not take.
pub(crate) fn gather(alloc: Global, guest: Guest, frames: Vec<Frame>) -> Result<Gathered, Memory>
    ensures { IfOk result (λ g. IsGathered guest frames.items g.taken g.misfit g.store) }
{
    let mut store = Store::new(alloc, guest);
    let mut taken = 0;
    for frame in frames {
        if let Some(misfit) = put_fit(&mut store, frame)? {
            return Ok(Gathered {
                store,
                taken,
                misfit: Some(misfit),
            });
        }
        taken += 1;
    }
    Ok(Gathered {
        store,
        taken,
        misfit: None,
    })
}
