//! Seals, by which a line is known to be whole, and of this guest.

ghost use Rattle.std.specs.Prelude.{◌≡◌, ℕ, ◌+◌, ◌≤◌, ◌++◌, ◌∷◌, List, length, IfSome, IfNone};
ghost use Rattle.ft_types.specs.Text.{line as line_of};
ghost use Rattle.wire.specs.Fields.{ArePlain, IsPlain, spelling};
ghost use Rattle.wire.specs.Seals.{seal, sealed};

use crate::fields::{Fields, is};
use crate::line::{LINE_LIMIT, Line};
use ft_types::{Guest, word_text};
use sha2::{Digest, Sha256};

/// The number of bytes of a seal with the space before it.
const SEAL_BYTES: usize = 9;

/// The first four bytes, as a word, of SHA-256 of the image's digest and the text.
fn seal_of(guest: &Guest, text: &[u8]) -> u32
    ensures { result ≡ seal guest.now text.now }
{
    let mut hasher = Sha256::new();
    hasher.update(guest.digest().as_slice());
    hasher.update(text);
    let digest: [u8; 32] = hasher.finalize();
    u32::from_be_bytes([digest[0], digest[1], digest[2], digest[3]])
}

/// The text before its seal.
fn unsealed<'a>(guest: &Guest, bytes: &'a [u8]) -> Option<&'a [u8]>
    ensures found { IfSome result (λ text. bytes.now ≡ sealed guest.now text.now) }
    ensures none { IfNone result ((text : List ℕ) → bytes.now ≡ sealed guest.now text → ⊥) }
{
    if bytes.len() < SEAL_BYTES {
        return None;
    }
    let (text, end) = bytes.split_at(bytes.len() - SEAL_BYTES);
    let (space, word) = end.split_at(1);
    if is(space, b" ") && is(word, &word_text(seal_of(guest, text))) {
        Some(text)
    } else {
        None
    }
}

/// The fields behind this name, in a text that has its seal.
pub(crate) fn read_sealed<'a>(guest: &Guest, name: &[u8], bytes: &'a [u8]) -> Option<Fields<'a>>
    requires { IsPlain name.now }
    ensures found { IfSome result (λ fields. bytes.now ≡ sealed guest.now (spelling (name.now ∷ fields))) }
    ensures one { IfSome result (λ fields. (others : List (List ℕ)) → ArePlain others →
        bytes.now ≡ sealed guest.now (spelling (name.now ∷ others)) → fields ≡ others) }
    ensures none { IfNone result ((others : List (List ℕ)) → ArePlain others →
        bytes.now ≡ sealed guest.now (spelling (name.now ∷ others)) → ⊥) }
{
    let mut fields = Fields::new(unsealed(guest, bytes)?);
    fields.take_name(name)?;
    Some(fields)
}

/// The line of a text, with its seal.
pub(crate) fn seal_line(guest: &Guest, mut text: Line) -> Line
    requires { length text + 10 ≤ LINE_LIMIT }
    ensures { result ≡ line_of (sealed guest.now text) }
{
    let seal = seal_of(guest, text.as_slice());
    text.push_word(seal);
    text.push(b"\n");
    text
}
