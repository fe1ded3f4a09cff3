//! Maps from keys to contents.

ghost use Rattle.std.specs.Prelude.{◌≡◌, ◌&&◌, ◌<◌, ◌^◌, false, if◌then◌else◌, not, is_some, None, Some, IfOk, OnOk, OnErr, count_by};
ghost use Rattle.std.specs.Ordering.{eq_by_cmp};
ghost use Rattle.std.specs.BTreeMap.{get, values, IsOrdered};
ghost use Rattle.log_join.specs.machinery.Contents.{marked, copied, taken, put_answer, is_among};
ghost use Rattle.frame_content.specs.machinery.Contents.{clashes};

use crate::answers::Put;
use fragment_codec::Frame;
use frame_content::{Content, Kept};
use ft_types::Memory;
use std::alloc::Global;
use std::collections::BTreeMap;

/// Takes a frame at its key.
pub(crate) fn put_at<K: Ord + Drop>(
    alloc: Global,
    shelf: &mut BTreeMap<K, Content>,
    key: K,
    frame: Frame,
) -> Result<Put, Memory>
    ensures answer { IfOk result (λ p. p ≡ put_answer (get K.cmp shelf.old key) frame) }
    ensures taken { OnOk result ((q : K) → get K.cmp shelf.new q ≡ (if eq_by_cmp K.cmp key q then Some (taken (get K.cmp shelf.old key) frame) else get K.cmp
        shelf.old q)) }
    ensures err { OnErr result ((q : K) → get K.cmp shelf.new q ≡ get K.cmp shelf.old q) }
    ensures memory { OnErr result (get K.cmp shelf.old key ≡ None) }
{
    let (put, content) = match shelf.get(&key) {
        None => (Put::New, Content::One(Kept::new(alloc, frame)?)),
        Some(there) if there.is(&frame) => return Ok(Put::Same),
        Some(_) => (Put::Clash, Content::Clash),
    };
    shelf.insert(key, content)?;
    Ok(put)
}

/// Takes a frame at its key, at which nothing is.
pub(crate) fn put_first<K: Ord + Drop>(
    alloc: Global,
    shelf: &mut BTreeMap<K, Content>,
    key: K,
    frame: Frame,
) -> Result<(), Memory>
    requires new { get K.cmp shelf.old key ≡ None }
    ensures taken { OnOk result ((q : K) → get K.cmp shelf.new q ≡ (if eq_by_cmp K.cmp key q then Some (taken None frame) else get K.cmp shelf.old q)) }
    ensures err { OnErr result ((q : K) → get K.cmp shelf.new q ≡ get K.cmp shelf.old q) }
{
    shelf.insert(key, Content::One(Kept::new(alloc, frame)?))?;
    Ok(())
}

/// The keys of one map that the other lacks.
pub(crate) fn missing_keys<K: Ord + Copy>(
    alloc: Global,
    mine: &BTreeMap<K, Content>,
    theirs: &BTreeMap<K, Content>,
) -> Result<Vec<K>, Memory>
    ensures { IfOk result (λ missing. (q : K) → is_among K.cmp missing.items q ≡ (is_some (get K.cmp theirs.now q) && not (is_some (get K.cmp mine.now q)))) }
{
    let mut missing = Vec::new(alloc);
    for key in theirs.keys() {
        if !mine.contains_key(key) {
            missing.push(*key)?;
        }
    }
    Ok(missing)
}

/// Copies what stands there at this key.
fn copy_one<K: Ord + Copy>(
    alloc: Global,
    shelf: &mut BTreeMap<K, Content>,
    key: K,
    theirs: &BTreeMap<K, Content>,
) -> Result<(), Memory>
    ensures ok { OnOk result ((q : K) → get K.cmp shelf.new q ≡ copied (eq_by_cmp K.cmp key q) (get K.cmp shelf.old q) (get K.cmp theirs.now q)) }
    ensures err { OnErr result ((q : K) → get K.cmp shelf.new q ≡ get K.cmp shelf.old q) }
{
    if let Some(content) = theirs.get(&key) {
        shelf.insert(key, content.copy(alloc)?)?;
    }
    Ok(())
}

/// Copies what stands there at these keys, or, where memory is refused, at some of them.
pub(crate) fn copy_at<K: Ord + Copy>(
    alloc: Global,
    shelf: &mut BTreeMap<K, Content>,
    keys: &[K],
    theirs: &BTreeMap<K, Content>,
) -> Result<(), Memory>
    ensures ok { OnOk result ((q : K) → get K.cmp shelf.new q ≡ copied (is_among K.cmp keys.now q) (get K.cmp shelf.old q) (get K.cmp theirs.now q)) }
    ensures others { (q : K) → is_among K.cmp keys.now q ≡ false → get K.cmp shelf.new q ≡ get K.cmp shelf.old q }
{
    for key in keys {
        copy_one(alloc, shelf, *key, theirs)?;
    }
    Ok(())
}

/// Takes out what stands at these keys.
pub(crate) fn remove_at<K: Ord + Copy>(shelf: &mut BTreeMap<K, Content>, keys: &[K])
    ensures { (q : K) → get K.cmp shelf.new q ≡ (if is_among K.cmp keys.now q then None else get K.cmp shelf.old q) }
{
    for key in keys {
        let _ = shelf.remove(key);
    }
}

/// Joins a content to what stands at its key, if anything does.
fn mark_one<K: Ord>(mine: &mut BTreeMap<K, Content>, key: &K, there: &Content)
    ensures { (q : K) → get K.cmp mine.new q ≡ (if eq_by_cmp K.cmp key.now q then marked (get K.cmp mine.old q) (Some there.now) else get K.cmp mine.old q) }
{
    if let Some(here) = mine.get_mut(key) {
        here.join(there);
    }
}

/// Joins what stands there to what stands here, at the keys that both have.
pub(crate) fn mark_clashes<K: Ord>(mine: &mut BTreeMap<K, Content>, theirs: &BTreeMap<K, Content>)
    ensures { (q : K) → get K.cmp mine.new q ≡ marked (get K.cmp mine.old q) (get K.cmp theirs.now q) }
{
    for (key, there) in theirs {
        mark_one(mine, key, there);
    }
}

/// How many keys clash.
pub(crate) fn count_clashes<K: Ord>(shelf: &BTreeMap<K, Content>) -> usize
    ensures count { result ≡ count_by clashes (values shelf.now) }
    ensures small { result < 2 ^ 63 }
    ensures ordered { IsOrdered K.cmp shelf.now }
{
    shelf.values().filter(|content| content.is_clash()).count()
}
