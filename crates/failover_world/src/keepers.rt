//! What each keeper holds.

ghost use Rattle.std.specs.Prelude.{◌≡◌, ◌≢◌, ◌<◌, ◌≤◌, ℕ, length, map, replicate, slice_set, None, Some, IsTrue, IfOk, OnOk, OnErr, IfSome, IfNone, All, ◌↔◌, ◌+◌, ◌++◌, ◌∷◌, [], vec_len, vec_capacity};
ghost use Rattle.std.specs.List.{Any};
ghost use Rattle.ft_types.specs.declared.names.TheConstants.{KEEPER_LIMIT};
ghost use Rattle.log_join.specs.Stores.{StoreView, IsJoin, alone, nothing};
ghost use Rattle.log_join.specs.Answers.{answer_to};
ghost use Rattle.log_join.specs.declared.answers.Put.TheVariants.{OtherGuest};
ghost use Rattle.go_live.specs.Quorums.{IsNew, IsOld};
ghost use Rattle.failover_world.specs.Worlds.{store_at};
ghost use Rattle.failover_world.specs.Happenings.{if_named, stores_of};

use fragment_codec::Frame;
use ft_types::{Guest, Keeper, Memory, Term};
use log_join::{Put, Store};
use std::alloc::Global;
use std::result::Result;
use tracked_position::Tracked;

/// The stores of so many keepers to which nothing came.
pub(crate) fn empty_stores(
    alloc: Global,
    guest: Guest,
    keepers: u8,
) -> Result<Vec<Option<Tracked>>, Memory>
    ensures { IfOk result (λ stores. stores.items ≡ replicate keepers (Some (nothing guest))) }
{
    let mut stores = Vec::new(alloc);
    for _keeper in 0..keepers {
        stores.push(Some(Tracked::new(alloc, guest)))?;
    }
    Ok(stores)
}

/// The store of the keeper of this number, where there is one that is not lost.
pub(crate) fn held_by(stores: &[Option<Tracked>], number: u64) -> Option<&Tracked>
    ensures some { IfSome result (λ s. store_at stores.now number ≡ Some s.now) }
    ensures below { IfSome result (λ s. number < length stores.now) }
    ensures none { IfNone result (store_at stores.now number ≡ None) }
{
    if number >= stores.len() as u64 {
        return None;
    }
    stores[number as usize].as_ref()
}

/// The keeper of this number, where there is one that is not lost.
pub(crate) fn keeper_at(stores: &[Option<Tracked>], number: u64) -> Option<Keeper>
    requires { length stores.now ≤ KEEPER_LIMIT }
    ensures some { IfSome result (λ k. k ≡ number) }
    ensures below { IfSome result (λ k. number < length stores.now) }
    ensures there { IfSome result (λ k. (s : StoreView) × (store_at stores.now number ≡ Some s)) }
    ensures none { IfNone result (store_at stores.now number ≡ None) }
{
    let _store = held_by(stores, number)?;
    Some(Keeper::new(number as u8))
}

/// A frame comes to the keeper, who is not lost. Where memory is refused its store is as it was.
pub(crate) fn put(
    stores: &mut [Option<Tracked>],
    alloc: Global,
    keeper: Keeper,
    frame: Frame,
) -> Result<(), Memory>
    requires below { keeper < length stores.old }
    requires own { (s : StoreView) → store_at stores.old keeper ≡ Some s → answer_to s frame ≢ OtherGuest }
    requires there { (s : StoreView) × (store_at stores.old keeper ≡ Some s) }
    ensures joined { OnOk result ((s : StoreView) → store_at stores.old keeper ≡ Some s →
        (r : StoreView) × IsJoin s (alone frame) r × (stores.new ≡ slice_set stores.old keeper (Some r))) }
    ensures kept { OnErr result (stores.new ≡ stores.old) }
{
    let taken = stores[keeper.index()].take();
    let Some(mut store) = taken else {
        unreachable!();
    };
    let answer = store.put(alloc, frame);
    stores[keeper.index()] = Some(store);
    let _put = answer?;
    Ok(())
}

/// The keeper joins the other's store. Neither is lost. Where memory is refused its store is as it was.
pub(crate) fn join(
    stores: &mut [Option<Tracked>],
    alloc: Global,
    keeper: Keeper,
    other: Keeper,
) -> Result<(), Memory>
    requires below { (keeper < length stores.old) × (other < length stores.old) }
    requires there { (s : StoreView) × (store_at stores.old keeper ≡ Some s) }
    requires at_other { (s : StoreView) × (store_at stores.old other ≡ Some s) }
    requires own { (s t : StoreView) → store_at stores.old keeper ≡ Some s → store_at stores.old other ≡ Some t → s.guest ≡ t.guest }
    ensures joined { OnOk result ((s t : StoreView) → store_at stores.old keeper ≡ Some s → store_at stores.old other ≡ Some t →
        (r : StoreView) × IsJoin s t r × (stores.new ≡ slice_set stores.old keeper (Some r))) }
    ensures kept { OnErr result (stores.new ≡ stores.old) }
{
    if keeper == other {
        return Ok(());
    }
    let taken = stores[keeper.index()].take();
    let Some(mut store) = taken else {
        unreachable!();
    };
    let Some(held) = &stores[other.index()] else {
        unreachable!();
    };
    let joined = store.join(alloc, held.store());
    stores[keeper.index()] = Some(store);
    match joined {
        Ok(()) => Ok(()),
        Err(_) => Err(Memory),
    }
}

/// Whether each of these keepers is there.
pub(crate) fn are_there(stores: &[Option<Tracked>], numbers: &[u64]) -> bool
    ensures all { IsTrue result → All (λ k. store_at stores.now k ≢ None) numbers.now }
    ensures missing { (IsTrue result → ⊥) → Any (λ k. store_at stores.now k ≡ None) numbers.now }
{
    for number in numbers {
        if held_by(stores, *number).is_none() {
            return false;
        }
    }
    true
}

/// The store of the keeper of this number, where it is among these and is not lost.
fn store_if_named<'a>(
    stores: &'a [Option<Tracked>],
    number: usize,
    numbers: &[u64],
) -> Option<&'a Store>
    ensures some { IfSome result (λ s. if_named numbers.now number (store_at stores.now number) ≡ (number, s.now) ∷ []) }
    ensures none { IfNone result (if_named numbers.now number (store_at stores.now number) ≡ []) }
{
    let tracked = held_by(stores, number as u64)?;
    if !numbers.contains(&(number as u64)) {
        return None;
    }
    Some(tracked.store())
}

/// How many of these keepers have a store, and the greatest term of a key in those stores, 0 where there is none.
pub(crate) fn count_named(stores: &[Option<Tracked>], numbers: &[u64]) -> (usize, Term)
    ensures many { result.0 ≡ length (stores_of stores.now numbers.now) }
    ensures new { IsNew (map (λ s. s.1) (stores_of stores.now numbers.now)) (result.1 + 1) }
    ensures old { IsOld (map (λ s. s.1) (stores_of stores.now numbers.now)) result.1 }
{
    let mut many = 0usize;
    let mut last: Term = 0;
    for number in 0..stores.len() {
        if let Some(store) = store_if_named(stores, number, numbers) {
            many += 1;
            last = last.max(store.last_term());
        }
    }
    (many, last)
}

/// Adds the keeper of this number with its store, where it is among these and is not lost. There is room for one more.
fn add_if_named<'a>(
    named: &mut Vec<(Keeper, &'a Store)>,
    stores: &'a [Option<Tracked>],
    number: usize,
    numbers: &[u64],
)
    requires few { number < KEEPER_LIMIT }
    requires room { vec_len named.old < vec_capacity named.old }
    ensures keepers { map (λ s. s.0) named.new.items
        ≡ map (λ s. s.0) named.old.items ++ map (λ s. s.0) (if_named numbers.now number (store_at stores.now number)) }
    ensures stores { map (λ s. s.1.now) named.new.items
        ≡ map (λ s. s.1.now) named.old.items ++ map (λ s. s.1) (if_named numbers.now number (store_at stores.now number)) }
    ensures one_more { vec_len named.new ≤ vec_len named.old + 1 }
    ensures capacity { vec_capacity named.new ≡ vec_capacity named.old }
{
    if let Some(store) = store_if_named(stores, number, numbers) {
        named.push_reserved((Keeper::new(number as u8), store));
    }
}

/// The stores of these keepers, each once; of those that are not there, none.
pub(crate) fn stores_named<'a>(
    alloc: Global,
    stores: &'a [Option<Tracked>],
    numbers: &[u64],
) -> Result<Vec<(Keeper, &'a Store)>, Memory>
    requires { length stores.now ≤ KEEPER_LIMIT }
    ensures keepers { IfOk result (λ named. map (λ s. s.0) named.items ≡ map (λ s. s.0) (stores_of stores.now numbers.now)) }
    ensures stores { IfOk result (λ named. map (λ s. s.1.now) named.items ≡ map (λ s. s.1) (stores_of stores.now numbers.now)) }
{
    let mut named = Vec::new(alloc);
    named.reserve(stores.len())?;
    for number in 0..stores.len() {
        add_if_named(&mut named, stores, number, numbers);
    }
    Ok(named)
}
