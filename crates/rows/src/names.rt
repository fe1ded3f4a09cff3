//! Counts, sets and devices in memory.

ghost use Rattle.std.specs.Prelude.{◌<◌, length};

use ft_types::{
    COUNT_LIMIT, Count, Counts, HART_LIMIT, HART_ROW, Hart, HartSet, Keeper, KeeperSet, LineBuffer,
    Memory, MemorySink, MemorySource, Source, write_all,
};
use std::alloc::Global;

/// A row of two counts.
fn two(first: Count, second: Count) -> Counts {
    let mut row = Counts::zero(2);
    if first < COUNT_LIMIT && second < COUNT_LIMIT {
        row.set(Hart::new(0), first);
        row.set(Hart::new(1), second);
    }
    row
}

fn numbers(row: &Counts) -> [Count; 2] {
    let mut numbers = [0; 2];
    numbers.copy_from_slice(row.as_slice().get(..2).unwrap_or(&[0; 2]));
    numbers
}

/// The lesser and the greater of two rows, count by count, and whether the first is within the second.
fn beside(one: Counts, other: Counts) -> Option<([Count; 2], [Count; 2], bool)> {
    if one.harts() != other.harts() {
        return None;
    }
    let (lesser, greater) = (one.meet(other), one.max(other));
    Some((numbers(&lesser), numbers(&greater), one.within(other)))
}

/// One count more than there are harts at the most.
const TOO_MANY: usize = HART_ROW + 1;

fn fits(row: &[Count]) -> bool {
    Counts::from_slice(row).is_some()
}

fn counts_are_right() -> bool {
    let (one, other) = (two(5, 7), two(4, 9));
    beside(one, other) == Some(([4, 7], [5, 9], false))
        && beside(two(4, 7), one) == Some(([4, 7], [5, 7], true))
        && !fits(&[0; TOO_MANY])
        && !fits(&[COUNT_LIMIT])
        && fits(&[COUNT_LIMIT - 1])
}

fn has_hart(set: HartSet, number: u8) -> bool {
    set.contains(Hart::new(number % HART_LIMIT))
}

/// A set of the first hart and the last, which came twice.
fn first_and_last() -> HartSet {
    let last = Hart::new(HART_LIMIT - 1);
    HartSet::new().with(last).with(Hart::new(0)).with(last)
}

/// Which harts are in it, and how many.
fn harts() -> ([bool; 4], usize, bool) {
    let (set, last) = (first_and_last(), HART_LIMIT - 1);
    let there = [
        has_hart(set, 0),
        has_hart(set, 1),
        has_hart(set, last - 1),
        has_hart(set, last),
    ];
    (there, set.len(), set.is_empty())
}

fn has_keeper(set: KeeperSet, number: u8) -> bool {
    set.contains(Keeper::new(number % 5))
}

/// Which of the first keeper and the last are in a set of them, of which the last came twice, and how many are.
fn keepers() -> ([bool; 4], usize) {
    let last = Keeper::new(4);
    let set = KeeperSet::new().with(last).with(Keeper::new(0)).with(last);
    let there = [
        has_keeper(set, 0),
        has_keeper(set, 1),
        has_keeper(set, 3),
        has_keeper(set, 4),
    ];
    (there, set.len())
}

fn sets_are_right() -> bool {
    let there = [true, false, false, true];
    harts() == (there, 2, false) && HartSet::new().is_empty() && keepers() == (there, 2)
}

/// What a read of at most four bytes takes: none where it fails.
fn read(source: &mut MemorySource, piece: &mut [u8; 4]) -> Option<usize> {
    source.read(piece).ok()
}

/// What three such reads take, and what then stands where they put it.
fn three_reads(mut source: MemorySource) -> ([Option<usize>; 3], [u8; 4]) {
    let mut piece = [0; 4];
    let first = read(&mut source, &mut piece);
    let second = read(&mut source, &mut piece);
    let third = read(&mut source, &mut piece);
    ([first, second, third], piece)
}

/// What is written of a piece where there is this room, and whether all of it is.
fn written(alloc: Global, piece: &[u8], room: usize) -> (MemorySink, bool) {
    let mut sink = MemorySink::new(alloc, room);
    let done = write_all(&mut sink, piece).is_ok();
    (sink, done)
}

fn filled() -> LineBuffer
    ensures { length result < 96 }
{
    let mut line = LineBuffer::new();
    line.push(b"count ");
    line.push_number(281_474_976_710_655);
    line.push(b" word ");
    line.push_word(0xdead_beef);
    line
}

/// What of a line is written.
fn line(alloc: Global) -> MemorySink {
    let mut sink = MemorySink::new(alloc, 100);
    let _written = filled().write(&mut sink);
    sink
}

fn reads_end(alloc: Global) -> Result<bool, Memory> {
    let failing = three_reads(MemorySource::failing_at(b"abcdef".to_vec(alloc)?, 5));
    let ending = three_reads(MemorySource::new(b"ab".to_vec(alloc)?));
    Ok(
        failing == ([Some(4), Some(1), None], *b"ebcd")
            && ending == ([Some(2), Some(0), Some(0)], *b"ab\0\0"),
    )
}

fn writes_end(alloc: Global) -> bool {
    let (sink, done) = written(alloc, b"abcd", 3);
    sink.bytes() == b"abc".as_slice() && !done
}

fn is_written(alloc: Global, text: &[u8]) -> bool {
    line(alloc).bytes() == text
}

#[test]
fn counts_sets_and_devices(rt: HostRuntime) -> Result<(), Memory> {
    assert!(rt; counts_are_right());
    assert!(rt; sets_are_right());
    assert!(rt; reads_end(rt.alloc())?);
    assert!(rt; writes_end(rt.alloc()));
    assert!(rt; is_written(rt.alloc(), b"count 281474976710655 word deadbeef\n"));
    Ok(())
}
