//! Words of 64 bits, which have sixteen digits.

ghost use Rattle.std.specs.Prelude.{◌≡◌, ℕ, ◌+◌, ◌<◌, ◌≤◌, ◌^◌, ◌++◌, ◌∷◌, List, length, IfSome, IfNone};
ghost use Rattle.wire.specs.Pairs.{IsLongWord, long_word};

use crate::fields::Fields;
use crate::line::{LINE_LIMIT, Line};
use ft_types::{read_word, word_text};

/// How many words a half has.
const HALF: u64 = 1 << 32;

/// The word of 64 bits that the text is.
pub fn read_long_word(text: &[u8]) -> Option<u64>
    ensures found { IfSome result (λ w. IsLongWord text.now w) }
    ensures none { IfNone result ((w : ℕ) → IsLongWord text.now w → ⊥) }
{
    if text.len() != 16 {
        return None;
    }
    let (upper, lower) = text.split_at(8);
    let upper = read_word(upper)?;
    let lower = read_word(lower)?;
    Some(u64::from(upper) * HALF + u64::from(lower))
}

/// Takes the next field, which is a word of 64 bits.
pub(crate) fn take_long_word(fields: &mut Fields<'_>) -> Option<u64>
    ensures found { IfSome result (λ w. (w < 2 ^ 64) × (fields.old ≡ long_word w ∷ fields.new)) }
    ensures none { IfNone result ((w : ℕ) (rest : List (List ℕ)) → w < 2 ^ 64 → fields.old ≡ long_word w ∷ rest → ⊥) }
{
    read_long_word(fields.take()?)
}

/// Adds a word of 64 bits behind a space.
pub(crate) fn push_long_word(text: &mut Line, value: u64)
    requires { length text.old + 17 ≤ LINE_LIMIT }
    ensures bytes { text.new ≡ text.old ++ 32 ∷ long_word value }
    ensures len { length text.new ≡ length text.old + 17 }
{
    text.push_word((value / HALF) as u32);
    text.push(&word_text((value % HALF) as u32));
}
