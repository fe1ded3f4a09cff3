//! Lines out of pieces.

ghost use Rattle.std.specs.Prelude.{◌≡◌, ℕ, ◌≤◌, ◌++◌, ◌∷◌, [], List, None, Some, length, take, IfOk, OnErr, if◌then◌else◌};
ghost use Rattle.wire.specs.Feeds.{Follows, is_short};

use crate::line::{LINE_LIMIT, Line};
use crate::text::LineText;
use ft_types::Memory;
use std::alloc::Global;
use std::marker::Model;

/// A stream of lines that comes in pieces.
#[derive(Drop)]
pub struct LineFeed {
    /// What has come of the line that is under way: its first bytes, where it is longer than a line may be.
    held: Line,
}

impl Model for LineFeed {
    ghost use Rattle.std.specs.Prelude.{ℕ, List};

    ghost Value = { List ℕ };

    ghost view = { λ f. f.held };
}

/// The text of a line, unless it is too long.
fn text_of(alloc: Global, held: &Line) -> Result<Option<LineText>, Memory>
    ensures { IfOk result (λ text. text ≡ (if is_short held.now then Some held.now else None)) }
{
    if held.len() >= LINE_LIMIT {
        return Ok(None);
    }
    Ok(Some(LineText::of(alloc, held.as_slice())?))
}

/// Takes a byte of the line under way, and gives the text of the line that it ends, unless that is too long.
fn take(alloc: Global, held: &mut Line, byte: u8) -> Result<Option<LineText>, Memory>
    ensures ends { byte ≡ 10 → IfOk result (λ text. (held.new ≡ []) × (text ≡ (if is_short held.old then Some held.old else None))) }
    ensures goes_on { (byte ≡ 10 → ⊥) → IfOk result (λ text. (held.new ≡ take LINE_LIMIT (held.old ++ byte ∷ [])) × (text ≡ None)) }
{
    if byte == b'\n' {
        let text = text_of(alloc, held)?;
        held.clear();
        return Ok(text);
    }
    if held.len() < LINE_LIMIT {
        held.push(&[byte]);
    }
    Ok(None)
}

/// Takes the bytes of a piece, and gives the texts of the lines that they end.
fn take_all(alloc: Global, held: &mut Line, piece: &[u8]) -> Result<Vec<LineText>, Memory>
    ensures { (stream : List ℕ) (given : List (List ℕ)) → Follows stream given held.old →
        IfOk result (λ lines. Follows (stream ++ piece.now) (given ++ lines.items) held.new) }
{
    let mut lines = Vec::new(alloc);
    for byte in piece {
        let text = take(alloc, held, *byte)?;
        if let Some(text) = text {
            lines.push(text)?;
        }
    }
    Ok(lines)
}

/// Holds these bytes again.
fn hold_again(held: &mut Line, before: &[u8])
    requires { length before.now ≤ LINE_LIMIT }
    ensures { held.new ≡ before.now }
{
    held.clear();
    held.push(before);
}

impl LineFeed {
    /// A stream of which nothing has come.
    pub fn new() -> LineFeed
        ensures { Follows [] [] result }
    {
        LineFeed { held: Line::new() }
    }

    /// Takes the next piece of the stream, and gives the texts of the lines that it ends, without their line feeds.
    pub fn push(&mut self, alloc: Global, piece: &[u8]) -> Result<Vec<LineText>, Memory>
        // The texts given so far are those of the lines so far, however the stream was cut. Lines that are too long are left out.
        ensures given { (stream : List ℕ) (given : List (List ℕ)) → Follows stream given self.old →
            IfOk result (λ lines. Follows (stream ++ piece.now) (given ++ lines.items) self.new) }

        // Want of memory changes nothing.
        ensures memory { OnErr result (self.new ≡ self.old) }
    {
        let before = LineText::of(alloc, self.held.as_slice())?;
        let lines = take_all(alloc, &mut self.held, piece);
        if lines.is_err() {
            hold_again(&mut self.held, before.as_slice());
        }
        lines
    }
}
