//! Lines, numbers and words of text files.

ghost use Rattle.std.specs.Prelude.{◌≡◌, ℕ, ◌+◌, ◌*◌, ◌/◌, ◌%◌, ◌^◌, ◌<◌, ◌≤◌, ◌++◌, ◌∷◌, [], length, IfSome, IfNone};
ghost use Rattle.std.specs.List.{AllByRecursion};
ghost use Rattle.ft_types.specs.Text.{line, hex_digit, word, IsWord, IsNumber, BeginsWithLine};

use std::option::Option;

/// The value of a digit to the base 16.
fn hex_value(byte: u8) -> Option<u32>
    ensures found { IfSome result (λ d. (d < 16) × (byte ≡ hex_digit d)) }
    ensures none { IfNone result ((d : ℕ) → d < 16 → byte ≡ hex_digit d → ⊥) }
{
    match byte {
        48..=57 => Some(u32::from(byte) - 48),
        97..=102 => Some(u32::from(byte) - 87),
        _ => None,
    }
}

/// The word that the text is.
pub fn read_word(text: &[u8]) -> Option<u32>
    ensures found { IfSome result (λ w. IsWord text.now w) }
    ensures none { IfNone result ((w : ℕ) → IsWord text.now w → ⊥) }
{
    if text.len() != 8 {
        return None;
    }
    let mut value: u32 = 0;
    for byte in text {
        match hex_value(*byte) {
            None => return None,
            Some(digit) => value = value * 16 + digit,
        }
    }
    Some(value)
}

/// The value of a digit.
fn digit_value(byte: u8) -> Option<u64>
    ensures found { IfSome result (λ d. (d < 10) × (byte ≡ 48 + d)) }
    ensures none { IfNone result ((d : ℕ) → d < 10 → byte ≡ 48 + d → ⊥) }
{
    match byte {
        48..=57 => Some(u64::from(byte) - 48),
        _ => None,
    }
}

/// The number that the text is.
pub fn read_number(text: &[u8]) -> Option<u64>
    ensures found { IfSome result (λ n. IsNumber text.now n) }
    ensures none { IfNone result ((n : ℕ) → IsNumber text.now n → ⊥) }
{
    if text.len() == 0 {
        return None;
    }
    if text.len() > 15 {
        return None;
    }
    if text.len() > 1 {
        if text[0] == b'0' {
            return None;
        }
    }
    let mut value: u64 = 0;
    for byte in text {
        match digit_value(*byte) {
            None => return None,
            Some(digit) => value = value * 10 + digit,
        }
    }
    Some(value)
}

/// The text of the first line, and what stands behind its line feed.
pub fn first_line(bytes: &[u8]) -> Option<(&[u8], &[u8])>
    ensures found { IfSome result (λ f. BeginsWithLine bytes.now f.0.now f.1.now) }
    ensures one { IfSome result (λ f. AllByRecursion (λ b. b ≡ 10 → ⊥) f.0.now) }
    ensures none { IfNone result (AllByRecursion (λ b. b ≡ 10 → ⊥) bytes.now) }
{
    match bytes.iter().position(|b| *b == 10) {
        None => None,
        Some(end) => Some((&bytes[..end], &bytes[end + 1..])),
    }
}

// The two digits of each byte, to the base 16.
static PAIRS: [u8; 512] =
    *b"000102030405060708090a0b0c0d0e0f101112131415161718191a1b1c1d1e1f202122232425262728292a2b2c2d2e2f303132333435363738393a3b3c3d3e3f404142434445464748494a4b4c4d4e4f505152535455565758595a5b5c5d5e5f606162636465666768696a6b6c6d6e6f707172737475767778797a7b7c7d7e7f808182838485868788898a8b8c8d8e8f909192939495969798999a9b9c9d9e9fa0a1a2a3a4a5a6a7a8a9aaabacadaeafb0b1b2b3b4b5b6b7b8b9babbbcbdbebfc0c1c2c3c4c5c6c7c8c9cacbcccdcecfd0d1d2d3d4d5d6d7d8d9dadbdcdddedfe0e1e2e3e4e5e6e7e8e9eaebecedeeeff0f1f2f3f4f5f6f7f8f9fafbfcfdfeff";

/// The two digits of a byte to the base 16.
#[inline(always)]
pub(crate) fn byte_text(byte: u32) -> (u8, u8)
    requires { byte < 256 }
    ensures { (result.0 ≡ hex_digit (byte / 16)) × (result.1 ≡ hex_digit (byte % 16)) }
{
    let place = byte as usize * 2;
    (PAIRS[place], PAIRS[place + 1])
}

/// The text of a word.
#[inline]
pub fn word_text(value: u32) -> [u8; 8]
    ensures { result ≡ word value }
{
    let first = byte_text(value / 0x100_0000);
    let second = byte_text(value / 0x1_0000 % 256);
    let third = byte_text(value / 256 % 256);
    let last = byte_text(value % 256);
    [
        first.0, first.1, second.0, second.1, third.0, third.1, last.0, last.1,
    ]
}
