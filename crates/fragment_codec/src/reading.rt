//! Bodies of frames, from bytes.

ghost use Rattle.std.specs.Prelude.{◌≡◌, ◌≤◌, List, length, Option, Some, None};
ghost use Rattle.fragment_codec.specs.Rules.{OpeningParts, IsFragment, IsOpening};
ghost use Rattle.std.specs.Int.{w16, w32, w64};
ghost use Rattle.fragment_codec.specs.machinery.Reading.{Gives, Makes, behind, number_at, byte_at, digest_at, guest_at, input_of, edge_at, heard_at, note_at, record_at, many, place_at, rest_of};
ghost use Rattle.fragment_codec.specs.declared.types.Record.TheVariants.{Edge as EdgeRecord, Input as InputRecord, Note as NoteRecord};
ghost use Rattle.fragment_codec.specs.machinery.Reading.{log_of, opening_of, stand_at, is_span, harts_limit};

use crate::frame::{Fragment, Opening, is_short};
use crate::types::{FIRST_HARTS, FIRST_VERSION, Key, Record};
use arrayvec::ArrayVec;
use byteorder::{ByteOrder, LittleEndian};
use edge_log::Edge;
use ft_types::{Count, Counts, Guest, HART_LIMIT, HART_ROW, Hart, Term};
use input_log::Input;
use std::alloc::{AllocError, AllocFailed, Global};

/// Why a body was not read.
#[derive(Drop)]
pub enum BodyError {
    Memory,
    Broken,
}

impl From<AllocError> for BodyError {
    ghost use Rattle.std.specs.Prelude.{◌≡◌};
    ghost use Rattle.fragment_codec.specs.declared.reading.BodyError.TheVariants.{Memory};

    ghost from_gives = { λ _ e. e ≡ Memory };

    fn from(_e: AllocError) -> BodyError {
        BodyError::Memory
    }
}

impl<T: Drop> From<AllocFailed<T>> for BodyError {
    ghost use Rattle.std.specs.Prelude.{◌≡◌};
    ghost use Rattle.fragment_codec.specs.declared.reading.BodyError.TheVariants.{Memory};

    ghost from_gives = { λ _ e. e ≡ Memory };

    fn from(_e: AllocFailed<T>) -> BodyError {
        BodyError::Memory
    }
}

#[tactic(auto, unfolding(crate::specs::machinery::Reading::byte_at))]
fn u8_at(bytes: &[u8]) -> Result<(u8, &[u8]), BodyError>
    ensures { Gives (λ x. (x.0, x.1.now)) result (byte_at bytes.now) }
{
    match bytes {
        [] => Err(BodyError::Broken),
        [byte, rest @ ..] => Ok((*byte, rest)),
    }
}

#[tactic(auto, using(crate::proofs::bytes::Numbers::little_16), unfolding(crate::specs::machinery::Reading::number_at))]
fn u16_at(bytes: &[u8]) -> Result<(u16, &[u8]), BodyError>
    ensures { Gives (λ x. (x.0, x.1.now)) result (number_at w16 bytes.now) }
{
    if bytes.len() < 2 {
        return Err(BodyError::Broken);
    }
    let (front, rest) = bytes.split_at(2);
    Ok((LittleEndian::read_u16(front), rest))
}

#[tactic(auto, using(crate::proofs::bytes::Numbers::little_32), unfolding(crate::specs::machinery::Reading::number_at))]
fn u32_at(bytes: &[u8]) -> Result<(u32, &[u8]), BodyError>
    ensures { Gives (λ x. (x.0, x.1.now)) result (number_at w32 bytes.now) }
{
    if bytes.len() < 4 {
        return Err(BodyError::Broken);
    }
    let (front, rest) = bytes.split_at(4);
    Ok((LittleEndian::read_u32(front), rest))
}

#[tactic(auto, using(crate::proofs::bytes::Numbers::little_64), unfolding(crate::specs::machinery::Reading::number_at))]
fn u64_at(bytes: &[u8]) -> Result<(u64, &[u8]), BodyError>
    ensures { Gives (λ x. (x.0, x.1.now)) result (number_at w64 bytes.now) }
{
    if bytes.len() < 8 {
        return Err(BodyError::Broken);
    }
    let (front, rest) = bytes.split_at(8);
    Ok((LittleEndian::read_u64(front), rest))
}

#[tactic(auto, unfolding(crate::specs::machinery::Reading::digest_at))]
fn digest_of(bytes: &[u8]) -> Result<([u8; 32], &[u8]), BodyError>
    ensures { Gives (λ x. (x.0, x.1.now)) result (digest_at bytes.now) }
{
    if bytes.len() < 32 {
        return Err(BodyError::Broken);
    }
    let (front, rest) = bytes.split_at(32);
    let mut digest = [0; 32];
    digest.copy_from_slice(front);
    Ok((digest, rest))
}

#[tactic(auto, unfolding(crate::specs::machinery::Reading::input_of))]
fn make_input(kind: u8, value: u32) -> Result<Input, BodyError>
    ensures { Gives (λ x. x) result (input_of kind value) }
{
    match kind {
        0 if value == 0 => Ok(Input::Timer),
        1 => Ok(Input::Word(value)),
        2 if value < u32::from(HART_LIMIT) => Ok(Input::Bell(Hart::new(value as u8))),
        _ => Err(BodyError::Broken),
    }
}

/// The count at which a record stands.
#[tactic(auto, unfolding(crate::specs::machinery::Reading::stand_at))]
fn read_stand(version: u8, from: Count, bytes: &[u8]) -> Result<(Count, &[u8]), BodyError>
    ensures { Gives (λ x. (x.0, x.1.now)) result (stand_at version from bytes.now) }
{
    if version == FIRST_VERSION {
        return u64_at(bytes);
    }
    let (distance, rest) = u32_at(bytes)?;
    match from.checked_add(u64::from(distance)) {
        Some(at) => Ok((at, rest)),
        None => Err(BodyError::Broken),
    }
}

#[tactic(auto, unfolding(crate::specs::machinery::Reading::edge_at))]
fn read_edge(version: u8, from: Count, hart: Hart, bytes: &[u8]) -> Result<(Edge, &[u8]), BodyError>
    ensures { Gives (λ x. (EdgeRecord x.0, x.1.now)) result (edge_at version from hart bytes.now) }
{
    let (at, rest) = read_stand(version, from, bytes)?;
    let (other, rest) = u8_at(rest)?;
    let (after, rest) = u64_at(rest)?;
    if other < HART_LIMIT {
        let edge = Edge {
            hart,
            at,
            other: Hart::new(other),
            after,
        };
        Ok((edge, rest))
    } else {
        Err(BodyError::Broken)
    }
}

#[tactic(auto, unfolding(crate::specs::machinery::Reading::heard_at))]
fn read_heard(version: u8, from: Count, bytes: &[u8]) -> Result<(Count, Input, &[u8]), BodyError>
    ensures { Gives (λ x. (InputRecord x.0 x.1, x.2.now)) result (heard_at version from bytes.now) }
{
    let (at, rest) = read_stand(version, from, bytes)?;
    let (kind, rest) = u8_at(rest)?;
    let (value, rest) = u32_at(rest)?;
    let input = make_input(kind, value)?;
    Ok((at, input, rest))
}

#[tactic(auto, unfolding(crate::specs::machinery::Reading::note_at))]
fn read_note(version: u8, from: Count, bytes: &[u8]) -> Result<(Count, u64, &[u8]), BodyError>
    ensures { Gives (λ x. (NoteRecord x.0 x.1, x.2.now)) result (note_at version from bytes.now) }
{
    let (at, rest) = read_stand(version, from, bytes)?;
    let (number, rest) = u64_at(rest)?;
    Ok((at, number, rest))
}

/// Puts the record that stands here behind others, and hands out the bytes after it. Each kind is put where it was read, so that its parts are stored as they are.
#[tactic(auto, unfolding(crate::specs::machinery::Reading::record_at))]
fn read_record<'a>(
    version: u8,
    from: Count,
    hart: Hart,
    bytes: &'a [u8],
    records: &mut Vec<Record>,
) -> Result<&'a [u8], BodyError>
    ensures { Gives (λ x. (records.new.items, x.now)) result (behind records.old.items (record_at version from hart bytes.now)) }
{
    let (kind, rest) = u8_at(bytes)?;
    match kind {
        1 => match read_edge(version, from, hart, rest) {
            Ok((edge, rest)) => {
                records.push(Record::Edge(edge))?;
                Ok(rest)
            }
            Err(error) => Err(error),
        },
        2 => match read_heard(version, from, rest) {
            Ok((at, input, rest)) => {
                records.push(Record::Input(at, input))?;
                Ok(rest)
            }
            Err(error) => Err(error),
        },
        3 if version != FIRST_VERSION => match read_note(version, from, rest) {
            Ok((at, number, rest)) => {
                records.push(Record::Note(at, number))?;
                Ok(rest)
            }
            Err(error) => Err(error),
        },
        _ => Err(BodyError::Broken),
    }
}

fn read_records(
    alloc: Global,
    version: u8,
    from: Count,
    hart: Hart,
    count: u16,
    bytes: &[u8],
) -> Result<(Vec<Record>, &[u8]), BodyError>
    ensures { Gives (λ x. (x.0.items, x.1.now)) result (many (record_at version from hart) count bytes.now) }
{
    let mut records = Vec::new(alloc);
    let mut rest = bytes;
    for _ in 0..count {
        rest = read_record(version, from, hart, rest, &mut records)?;
    }
    Ok((records, rest))
}

fn read_counts(count: u8, bytes: &[u8]) -> Result<(ArrayVec<u64, HART_ROW>, &[u8]), BodyError>
    requires { count ≤ HART_LIMIT }
    ensures { Gives (λ x. (x.0.items, x.1.now)) result (many (number_at w64) count bytes.now) }
{
    let mut counts = ArrayVec::new();
    let mut rest = bytes;
    for _ in 0..count {
        let (number, after) = u64_at(rest)?;
        counts.push(number);
        rest = after;
    }
    Ok((counts, rest))
}

/// How many harts a version tells of at the most.
fn most_harts(version: u8) -> u8
    ensures { result ≡ harts_limit version }
{
    if version == FIRST_VERSION {
        FIRST_HARTS
    } else {
        HART_LIMIT
    }
}

#[tactic(auto, unfolding(crate::specs::machinery::Reading::guest_at))]
fn read_guest(version: u8, bytes: &[u8]) -> Result<(Guest, &[u8]), BodyError>
    ensures { Gives (λ x. (x.0, x.1.now)) result (guest_at version bytes.now) }
{
    let (digest, rest) = digest_of(bytes)?;
    let (harts, rest) = u8_at(rest)?;
    if harts > most_harts(version) {
        return Err(BodyError::Broken);
    }
    match Guest::new(digest, harts) {
        Some(guest) => Ok((guest, rest)),
        None => Err(BodyError::Broken),
    }
}

#[tactic(auto, unfolding(crate::specs::machinery::Reading::place_at))]
fn read_place(version: u8, bytes: &[u8]) -> Result<(Guest, Key, &[u8]), BodyError>
    ensures { Gives (λ x. (x.0, x.1, x.2.now)) result (place_at version bytes.now) }
{
    let (guest, rest) = match read_guest(version, bytes) {
        Ok(read) => read,
        Err(error) => return Err(error),
    };
    let (hart, rest) = u8_at(rest)?;
    let (term, rest) = u32_at(rest)?;
    let (place, rest) = u32_at(rest)?;
    if hart < HART_LIMIT {
        let hart = Hart::new(hart);
        Ok((guest, Key { term, hart, place }, rest))
    } else {
        Err(BodyError::Broken)
    }
}

/// Whether the version tells of so many counts in one fragment.
fn tells_span(version: u8, from: Count, to: Count) -> bool
    ensures { result ≡ is_span version from to }
{
    version == FIRST_VERSION || is_short(from, to)
}

#[tactic(auto, unfolding(crate::specs::machinery::Reading::rest_of))]
fn read_rest(
    alloc: Global,
    version: u8,
    guest: Guest,
    key: Key,
    bytes: &[u8],
) -> Result<Fragment, BodyError>
    ensures { Makes IsFragment result (rest_of version guest key bytes.now) }
{
    let (from, rest) = u64_at(bytes)?;
    let (to, rest) = u64_at(rest)?;
    let (count, rest) = u16_at(rest)?;
    match read_records(alloc, version, from, key.hart, count, rest) {
        Ok((records, rest)) => {
            if !tells_span(version, from, to) || !rest.is_empty() {
                return Err(BodyError::Broken);
            }
            match Fragment::new(guest, key, from, to, records) {
                Some(fragment) => Ok(fragment),
                None => Err(BodyError::Broken),
            }
        }
        Err(error) => Err(error),
    }
}

/// A piece of a hart's log, from the body of a frame of this version, behind its head and before its digest. `Broken` where it is none, `Memory` where there is no room for it.
#[tactic(auto, unfolding(crate::specs::machinery::Reading::log_of))]
pub fn read_log(alloc: Global, version: u8, body: &[u8]) -> Result<Fragment, BodyError>
    ensures { Makes IsFragment result (log_of version body.now) }
{
    match read_place(version, body) {
        Ok((guest, key, rest)) => read_rest(alloc, version, guest, key, rest),
        Err(error) => Err(error),
    }
}

fn make_opening(guest: Guest, term: Term, parent: Term, base: &[u64]) -> Result<Opening, BodyError>
    ensures { let parts : OpeningParts = record { guest = guest; term = term; parent = parent; base = base.now } in
        Makes IsOpening result (Some parts) }
{
    match Counts::from_slice(base) {
        Some(counts) => match Opening::new(guest, term, parent, counts) {
            Some(opening) => Ok(opening),
            None => Err(BodyError::Broken),
        },
        None => Err(BodyError::Broken),
    }
}

/// A term's opening, from such a body. `Broken` where it is none.
#[tactic(auto, unfolding(crate::specs::machinery::Reading::opening_of))]
pub fn read_opening(version: u8, body: &[u8]) -> Result<Opening, BodyError>
    ensures { Makes IsOpening result (opening_of version body.now) }
{
    let (guest, rest) = match read_guest(version, body) {
        Ok(read) => read,
        Err(error) => return Err(error),
    };
    let (term, rest) = u32_at(rest)?;
    let (parent, rest) = u32_at(rest)?;
    let (base, rest) = read_counts(guest.harts(), rest)?;
    if !rest.is_empty() {
        return Err(BodyError::Broken);
    }
    make_opening(guest, term, parent, &base)
}
