//! Frames, from a stream in any pieces.

ghost use Rattle.std.specs.Prelude.{◌≡◌, ◌≢◌, ◌↔◌, ◌⊎◌, ◌+◌, ◌-◌, ◌<◌, ◌≤◌, ◌++◌, ℕ, List, [], length, take, drop, slice_index, Option, Some, None, Ok, Err};
ghost use Rattle.std.specs.Prelude.{IfOk, IfErr, OnOk, OnErr, IsTrue, IsOk, vec_capacity, min};
ghost use Rattle.fragment_codec.specs.machinery.Reading.{Makes, frame_of};
ghost use Rattle.fragment_codec.specs.Streams.{IsFrame, is_other, is_body_len, longest_body, head_of, IsWhole, HasDigest, IsPartial, HasFault, Splits, Unread};
ghost use Rattle.fragment_codec.specs.Streams.{Keeps, Follows};
ghost use Rattle.fragment_codec.specs.machinery.Fronts.{IsFront, Advances};

use crate::fault::FrameFault;
use crate::frame::Frame;
use crate::front::Front;
use crate::reading::{BodyError, read_log, read_opening};
use crate::types::{
    BODY_LIMIT, FIRST_BODY_LIMIT, FIRST_OPENING_LIMIT, FIRST_VERSION, FRAME_LIMIT, FRAME_VERSION,
    OPENING_LIMIT,
};
use byteorder::{ByteOrder, LittleEndian};
use ft_types::Memory;
use sha2::{Digest, Sha256};
use std::alloc::{AllocError, Global};
use std::marker::Model;

fn differs_at(bytes: &[u8], i: usize, byte: u8) -> bool
    ensures { result ≡ is_other bytes.now i byte }
{
    i < bytes.len() && bytes[i] != byte
}

/// The length of the longest body of the kind in the version.
fn longest(version: u8, kind: u8) -> usize
    ensures { result ≡ longest_body version kind }
{
    match (version == FIRST_VERSION, kind == 1) {
        (true, true) => FIRST_BODY_LIMIT,
        (true, false) => FIRST_OPENING_LIMIT,
        (false, true) => BODY_LIMIT,
        (false, false) => OPENING_LIMIT,
    }
}

fn is_right_len(version: u8, kind: u8, len: u32) -> bool
    ensures { result ≡ is_body_len version kind len }
{
    let least = if kind == 1 { 60 } else { 49 };
    least <= len && len as usize <= longest(version, kind)
}

#[tactic(auto, using(crate::proofs::bytes::Numbers::little_32), unfolding(crate::specs::Streams::head_of))]
fn head(bytes: &[u8]) -> Result<Option<usize>, FrameFault>
    ensures { result ≡ head_of bytes.now }
{
    if differs_at(bytes, 0, 0x56) || differs_at(bytes, 1, 0x46) {
        return Err(FrameFault::Magic);
    }
    if differs_at(bytes, 2, FIRST_VERSION) && differs_at(bytes, 2, FRAME_VERSION) {
        return Err(FrameFault::Version);
    }
    if differs_at(bytes, 3, 1) && differs_at(bytes, 3, 2) {
        return Err(FrameFault::Kind);
    }
    if bytes.len() < 8 {
        return Ok(None);
    }
    let (_, behind) = bytes.split_at(4);
    let (len, _) = behind.split_at(4);
    let len = LittleEndian::read_u32(len);
    if is_right_len(bytes[2], bytes[3], len) {
        Ok(Some(len as usize + 40))
    } else {
        Err(FrameFault::Length)
    }
}

fn is_sealed(bytes: &[u8]) -> bool
    requires { 32 ≤ length bytes.now }
    ensures { IsTrue result ↔ HasDigest bytes.now }
{
    let (front, seal) = bytes.split_at(bytes.len() - 32);
    let digest = Sha256::digest(front);
    seal == digest.as_slice()
}

#[tactic(auto, unfolding(crate::specs::machinery::Reading::frame_of))]
fn read_body(alloc: Global, version: u8, kind: u8, body: &[u8]) -> Result<Frame, BodyError>
    ensures { Makes IsFrame result (frame_of version kind body.now) }
{
    if kind == 1 {
        Ok(Frame::Log(read_log(alloc, version, body)?))
    } else {
        Ok(Frame::Opening(read_opening(version, body)?))
    }
}

/// What stands at the front of the bytes.
fn front(alloc: Global, bytes: &[u8]) -> Result<Front, FrameFault>
    ensures front { IfOk result (λ f. IsFront bytes.now f) }
    ensures fault { IfErr result (λ e. (e ≡ FrameFault.Memory) ⊎ HasFault bytes.now e) }
{
    let Some(n) = head(bytes)? else {
        return Ok(Front::Partial);
    };
    if bytes.len() < n {
        return Ok(Front::Partial);
    }
    let (whole, _) = bytes.split_at(n);
    if !is_sealed(whole) {
        return Err(FrameFault::Digest);
    }
    let (text, _) = whole.split_at(n - 32);
    let (_, body) = text.split_at(8);
    match read_body(alloc, bytes[2], bytes[3], body) {
        Ok(frame) => Ok(Front::Whole(frame, n)),
        Err(BodyError::Memory) => Err(FrameFault::Memory),
        Err(BodyError::Broken) => Err(FrameFault::Body),
    }
}

/// Moves bytes from the front of the piece behind the bytes held, until these are `end`.
fn fill_to(held: &mut Vec<u8>, piece: &[u8], end: usize) -> usize
    requires room { end ≤ vec_capacity held.old }
    ensures taken { result ≡ min (end - length held.old.items) (length piece.now) }
    ensures items { held.new.items ≡ held.old.items ++ take result piece.now }
    ensures len { length held.new.items ≡ length held.old.items + result }
    ensures capacity { vec_capacity held.old ≤ vec_capacity held.new }
{
    let taken = end.saturating_sub(held.len()).min(piece.len());
    let (front, _) = piece.split_at(taken);
    let _room = held.extend_from_slice(front);
    taken
}

/// Moves bytes from the front of the piece behind the bytes held, up to the end of a frame.
fn fill(held: &mut Vec<u8>, piece: &[u8]) -> usize
    requires room { FRAME_LIMIT ≤ vec_capacity held.old }
    requires partial { IsPartial held.old.items }
    ensures taken { result ≤ length piece.now }
    ensures items { held.new.items ≡ held.old.items ++ take result piece.now }
    ensures capacity { FRAME_LIMIT ≤ vec_capacity held.new }
    ensures partial { IsPartial held.new.items → result ≡ length piece.now }
    ensures whole { (n : ℕ) → head_of held.new.items ≡ Ok (Some n) → length held.new.items ≤ n }
{
    let first = fill_to(held, piece, 8);
    let (_, rest) = piece.split_at(first);
    match head(held) {
        Ok(Some(n)) => first + fill_to(held, rest, n),
        Ok(None) => first,
        Err(_) => first,
    }
}

/// Reads frames from the front of the bytes, and says what is left and the fault that stands there.
fn read_frames<'a>(
    alloc: Global,
    bytes: &'a [u8],
    frames: &mut Vec<Frame>,
) -> Result<(&'a [u8], Option<FrameFault>), AllocError>
    ensures splits { IfOk result (λ x. (stream : List ℕ) → Splits stream frames.old.items bytes.now → Splits stream frames.new.items x.0.now) }
    ensures rest { IfOk result (λ x. Keeps x.0.now x.0.now x.1) }
{
    let mut rest = bytes;
    loop {
        match front(alloc, rest) {
            Ok(Front::Partial) => return Ok((rest, None)),
            Ok(Front::Whole(frame, n)) => {
                frames.push(frame)?;
                let (_, after) = rest.split_at(n);
                rest = after;
            }
            Err(FrameFault::Memory) => return Err(AllocError),
            Err(fault) => return Ok((rest, Some(fault))),
        }
    }
}

/// Holds the rest of a stream that has met no fault.
fn keep(held: &mut Vec<u8>, rest: &[u8], fault: Option<FrameFault>)
    requires room { FRAME_LIMIT ≤ vec_capacity held.old }
    requires len { fault ≡ None → length rest.now ≤ FRAME_LIMIT }
    ensures kept { fault ≡ None → held.new.items ≡ rest.now }
    ensures capacity { FRAME_LIMIT ≤ vec_capacity held.new }
{
    held.clear();
    if fault.is_none() {
        let _room = held.extend_from_slice(rest);
    }
}

fn try_advance(
    alloc: Global,
    held: &mut Vec<u8>,
    piece: &[u8],
) -> Result<(Vec<Frame>, Option<FrameFault>), AllocError>
    requires room { FRAME_LIMIT ≤ vec_capacity held.old }
    requires partial { IsPartial held.old.items }
    ensures capacity { FRAME_LIMIT ≤ vec_capacity held.new }
    ensures ok { IfOk result (λ x. Advances held.old.items piece.now x.0.items x.1 held.new.items) }
    ensures err { OnErr result (take (length held.old.items) held.new.items ≡ held.old.items) }
{
    let mut frames = Vec::new(alloc);
    let taken = fill(held, piece);
    match front(alloc, held) {
        Ok(Front::Partial) => Ok((frames, None)),
        Ok(Front::Whole(frame, _)) => {
            frames.push(frame)?;
            let (_, behind) = piece.split_at(taken);
            let (rest, fault) = read_frames(alloc, behind, &mut frames)?;
            keep(held, rest, fault);
            Ok((frames, fault))
        }
        Err(FrameFault::Memory) => Err(AllocError),
        Err(fault) => Ok((frames, Some(fault))),
    }
}

fn advance(
    alloc: Global,
    held: &mut Vec<u8>,
    piece: &[u8],
) -> Result<(Vec<Frame>, Option<FrameFault>), AllocError>
    requires room { FRAME_LIMIT ≤ vec_capacity held.old }
    requires partial { IsPartial held.old.items }
    ensures capacity { FRAME_LIMIT ≤ vec_capacity held.new }
    ensures ok { IfOk result (λ x. Advances held.old.items piece.now x.0.items x.1 held.new.items) }
    ensures err { OnErr result (held.new.items ≡ held.old.items) }
{
    let len = held.len();
    let advanced = try_advance(alloc, held, piece);
    if advanced.is_err() {
        held.truncate(len);
    }
    advanced
}

/// A stream of frames that comes in pieces.
pub struct Feed {
    held: Vec<u8>,
    fault: Option<FrameFault>,
}

impl Drop for Feed {
    fn drop(self) {
        let Feed { held: _, fault: _ } = self;
    }
}

impl Model for Feed {
    ghost use Rattle.fragment_codec.specs.declared.types.TheConstants.{FRAME_LIMIT};
    ghost use Rattle.std.specs.Prelude.{◌≡◌, ◌≤◌, None, vec_capacity};
    ghost use Rattle.fragment_codec.specs.Streams.{Unread, IsPartial};

    ghost Value = { Unread };

    ghost view = { λ a. record { rest = a.held.items; fault = a.fault } };

    ghost invariant = { λ a. (FRAME_LIMIT ≤ vec_capacity a.held) × (a.fault ≡ None → IsPartial a.held.items) };
}

impl Feed {
    /// A stream of which nothing has come.
    pub fn new(alloc: Global) -> Result<Feed, Memory>
        ensures follows { IfOk result (λ feed. Follows [] [] feed) }
        ensures sound { IfOk result (λ feed. feed.fault ≡ None) }
    {
        Ok(Feed {
            held: Vec::with_capacity(alloc, FRAME_LIMIT)?,
            fault: None,
        })
    }

    /// The fault that the stream has met, which each further piece is answered.
    pub fn fault(&self) -> Option<FrameFault>
        ensures { result ≡ self.now.fault }
    {
        self.fault
    }

    /// Takes the next piece of the stream, and gives the frames that it completes.
    pub fn push(&mut self, alloc: Global, piece: &[u8]) -> Result<Vec<Frame>, FrameFault>
        // The frames given so far are all whole right frames at the front of the stream so far, however it was cut.
        ensures given { (stream : List ℕ) (given : List Frame) → Follows stream given self.old →
            IfOk result (λ frames. Follows (stream ++ piece.now) (given ++ frames.items) self.new) }

        // A fault is the stream's, and the piece completes no frame.
        ensures fault { (stream : List ℕ) (given : List Frame) → Follows stream given self.old →
            IfErr result (λ f. f ≢ FrameFault.Memory → Follows (stream ++ piece.now) given self.new) }

        // A fault is answered as soon as no frame is completed, and from then on always.
        ensures for_good { (f : FrameFault) → (self.old.fault ≡ Some f → result ≡ Err f) × (result ≡ Err f → f ≢ FrameFault.Memory → self.new.fault ≡ Some f) }
        ensures at_once { IfOk result (λ frames. frames.items ≡ [] → self.new.fault ≡ None) }

        // Want of memory changes nothing.
        ensures memory { IfErr result (λ f. f ≡ FrameFault.Memory → self.new ≡ self.old) }

        // What is held is less than a whole frame.
        ensures partial { self.new.fault ≡ None → IsPartial self.new.rest }
    {
        if let Some(fault) = self.fault {
            return Err(fault);
        }
        let (frames, fault) = advance(alloc, &mut self.held, piece)?;
        self.fault = fault;
        match fault {
            Some(fault) if frames.is_empty() => Err(fault),
            _ => Ok(frames),
        }
    }
}
