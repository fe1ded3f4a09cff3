//! Numbers in packets.

ghost use Rattle.std.specs.Prelude.{◌≡◌, ◌⊎◌, ◌↔◌, IsTrue, ℕ, List, ◌-◌, ◌<◌, ◌≤◌, [], ◌++◌, ◌∷◌, codes, length, take, replicate, slice_index, Some, None, IfSome, IfNone};
ghost use Rattle.ft_types.specs.declared.names.TheConstants.{HART_LIMIT};
ghost use Rattle.debugging.specs.declared.numbers.Thread.{Thread as ThreadOf};
ghost use Rattle.debugging.specs.Asked.{IsHex, IsRange, IsThread, IsOfHart, HasNone};

use ft_types::{Hart, read_word};
use plan_lines::Bytes;

/// A thread, as packets name it: threads are numbered from 1 on.
#[derive(Clone, Copy)]
pub(crate) enum Thread {
    /// Every one, any, or none that is named.
    Any,
    Number(u32),
    /// None that there could be.
    Wrong,
}

/// Whether the text is the other.
pub(crate) fn is(text: &[u8], other: &[u8]) -> bool
    ensures { IsTrue result ↔ (text.now ≡ other.now) }
{
    text == other
}

/// What stands behind these bytes, where the text begins with them.
#[tactic(auto, using(crate::proofs::Digits::front_longer))]
pub(crate) fn behind<'a>(text: &'a [u8], front: &[u8]) -> Option<&'a [u8]>
    ensures some { IfSome result (λ rest. text.now ≡ front.now ++ rest.now) }
    ensures none { IfNone result ((rest : List ℕ) → text.now ≡ front.now ++ rest → ⊥) }
{
    if text.len() < front.len() {
        return None;
    }
    let (head, rest) = text.split_at(front.len());
    if is(head, front) {
        return Some(rest);
    }
    None
}

/// The first byte, and what stands behind it.
pub(crate) fn first_byte(text: &[u8]) -> Option<(u8, &[u8])>
    ensures some { IfSome result (λ p. text.now ≡ p.0 ∷ p.1.now) }
    ensures none { IfNone result (text.now ≡ []) }
{
    match text.split_first() {
        Some((first, rest)) => Some((*first, rest)),
        None => None,
    }
}

/// These digits, with as many zeros before them as a word lacks.
fn padded(text: &[u8]) -> [u8; 8]
    requires { length text.now ≤ 8 }
    ensures { result ≡ replicate (8 - length text.now) 48 ++ text.now }
{
    let mut digits = [b'0'; 8];
    digits[8 - text.len()..].copy_from_slice(text);
    digits
}

/// The number that these digits to the base 16 are, one to eight of them.
pub(crate) fn read_hex(text: &[u8]) -> Option<u32>
    ensures number { (n : ℕ) → IsHex text.now n → result ≡ Some n }
    ensures empty { text.now ≡ [] → result ≡ None }
{
    if text.len() == 0 {
        return None;
    }
    if text.len() > 8 {
        return None;
    }
    read_word(&padded(text))
}

/// How many bytes stand before the first such byte.
#[tactic(auto, using(crate::proofs::Digits::none_more))]
fn end_before(text: &[u8], byte: u8) -> usize
    ensures few { result ≤ length text.now }
    ensures one { HasNone byte (take result text.now) }
    ensures end { result < length text.now → slice_index text.now result ≡ byte }
{
    let mut end = 0;
    while end < text.len() && text[end] != byte {
        end += 1;
    }
    end
}

/// What stands before the first such byte, and behind it. Nothing stands behind it where there is none.
#[tactic(auto, using(crate::proofs::Digits::cut_none, crate::proofs::Digits::cut_there))]
pub(crate) fn cut(text: &[u8], byte: u8) -> (&[u8], &[u8])
    ensures one { HasNone byte result.0.now }
    ensures all { (text.now ≡ result.0.now ++ byte ∷ result.1.now) ⊎ ((text.now ≡ result.0.now) × (result.1.now ≡ [])) }
{
    let end = end_before(text, byte);
    if end == text.len() {
        return (text, b"");
    }
    (&text[..end], &text[end + 1..])
}

/// `A,L`: so many bytes from an address on.
pub(crate) fn read_range(text: &[u8]) -> Option<Bytes>
    ensures { (address many : ℕ) → IsRange text.now address many → result ≡ Some (record { first = address; length = many }) }
{
    let (first, length) = cut(text, b',');
    let first = read_hex(first)?;
    let length = read_hex(length)?;
    Some(Bytes { first, length })
}

/// Whether the text names any thread, or every one, and is no number.
fn names_any(text: &[u8]) -> bool
    ensures { IsTrue result ↔ ((text.now ≡ []) ⊎ (text.now ≡ codes "-1")) }
{
    text.is_empty() || is(text, b"-1")
}

/// The thread that the text names.
pub(crate) fn read_thread(text: &[u8]) -> Thread
    ensures { (thread : ThreadOf) → IsThread text.now thread → result ≡ thread }
{
    if names_any(text) {
        return Thread::Any;
    }
    let Some(number) = read_hex(text) else {
        return Thread::Wrong;
    };
    if number == 0 {
        return Thread::Any;
    }
    Thread::Number(number)
}

/// The hart of the thread, of so many harts.
pub(crate) fn hart_of(thread: Thread, harts: u8) -> Option<Hart>
    requires { harts ≤ HART_LIMIT }
    ensures some { (hart : ℕ) → IsOfHart harts thread hart → result ≡ Some hart }
    ensures found { IfSome result (IsOfHart harts thread) }
{
    match thread {
        Thread::Number(number) if number > 0 && number <= u32::from(harts) => {
            Some(Hart::new((number - 1) as u8))
        }
        _ => None,
    }
}
