//! The fields of a line, and what they say.

ghost use Rattle.std.specs.Prelude.{◌≡◌, ℕ, ◌<◌, ◌++◌, ◌∷◌, decimal, IfSome, IfNone};
ghost use Rattle.scripts.specs.Script.{HasNone, IsHart};

use ft_types::{COUNT_LIMIT, HART_LIMIT, Hart, read_number};
use std::option::Option;

/// The first field, which a space ends, and what stands behind that space.
pub(super) fn first_field(text: &[u8]) -> Option<(&[u8], &[u8])>
    ensures found { IfSome result (λ f. text.now ≡ f.0.now ++ 32 ∷ f.1.now) }
    ensures one { IfSome result (λ f. HasNone 32 f.0.now) }
    ensures none { IfNone result (HasNone 32 text.now) }
{
    match text.iter().position(|b| *b == b' ') {
        None => None,
        Some(end) => Some((&text[..end], &text[end + 1..])),
    }
}

/// The text up to the first space, and what stands behind that space.
pub(super) fn cut(text: &[u8]) -> (&[u8], Option<&[u8]>)
    ensures one { HasNone 32 result.0.now }
    ensures some { IfSome result.1 (λ behind. text.now ≡ result.0.now ++ 32 ∷ behind.now) }
    ensures none { IfNone result.1 (text.now ≡ result.0.now) }
{
    match first_field(text) {
        None => (text, None),
        Some((field, behind)) => (field, Some(behind)),
    }
}

/// The number that the text is, below `COUNT_LIMIT`.
pub(super) fn read_small(text: &[u8]) -> Option<u64>
    ensures found { IfSome result (λ n. (n < COUNT_LIMIT) × (text.now ≡ decimal n)) }
    ensures none { IfNone result ((n : ℕ) → n < COUNT_LIMIT → text.now ≡ decimal n → ⊥) }
{
    let number = read_number(text)?;
    if number < COUNT_LIMIT {
        Some(number)
    } else {
        None
    }
}

/// The hart of this number, below this number of harts.
pub(super) fn hart_of(harts: u8, number: u64) -> Option<Hart>
    ensures found { IfSome result (λ h. IsHart harts number × (h ≡ number)) }
    ensures none { IfNone result (IsHart harts number → ⊥) }
{
    if number < u64::from(harts.min(HART_LIMIT)) {
        Some(Hart::new(number as u8))
    } else {
        None
    }
}

/// The hart that the text is, below this number of harts.
pub(super) fn read_hart(harts: u8, text: &[u8]) -> Option<Hart>
    ensures found { IfSome result (λ h. IsHart harts h × (text.now ≡ decimal h)) }
    ensures none { IfNone result ((h : ℕ) → IsHart harts h → text.now ≡ decimal h → ⊥) }
{
    let number = read_small(text)?;
    hart_of(harts, number)
}
