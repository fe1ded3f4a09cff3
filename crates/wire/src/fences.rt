//! Fences: `fence T S`, behind which a keeper acknowledges nothing of a term below T. A file of fences has one for each term for which
//! its log was handed out, and the greatest counts.

ghost use Rattle.std.specs.Prelude.{◌≡◌, ◌↔◌, ℕ, ◌∷◌, [], decimal, IfSome, IfNone, Some};
ghost use Rattle.ft_types.specs.Text.{line};
ghost use Rattle.wire.specs.Fences.{SaysFence, IsGreatest, IsLastFence, added_fence, fence_text};
ghost use Rattle.wire.specs.Values.{IsTerm};

use crate::fields::Fields;
use crate::line::Line;
use crate::seals::{read_sealed, seal_line};
use ft_types::{Guest, Term, first_line};

/// The line of a fence.
pub fn fence_line(guest: &Guest, term: Term) -> Line
    ensures { result ≡ line (fence_text guest.now term) }
{
    let mut text = Line::new();
    text.push(b"fence");
    text.push_number(u64::from(term));
    seal_line(guest, text)
}

/// What is added to a file of fences, as one piece: a line feed, which ends what a writer that died has left, and then the fence's
/// line.
pub fn fence_entry(guest: &Guest, term: Term) -> Line
    ensures { result ≡ added_fence guest.now term }
{
    let mut entry = Line::new();
    entry.push(b"\n");
    entry.push(fence_line(guest, term).as_slice());
    entry
}

/// The term that the fields behind the name are.
fn term_of(mut fields: Fields<'_>) -> Option<Term>
    ensures found { IfSome result (λ t. IsTerm t × (fields.entry ≡ decimal t ∷ [])) }
    ensures none { IfNone result ((t : ℕ) → IsTerm t × (fields.entry ≡ decimal t ∷ []) → ⊥) }
{
    let term = fields.take_term()?;
    if fields.is_done() { Some(term) } else { None }
}

/// The term of the fence that a line's text is.
pub fn read_fence(guest: &Guest, text: &[u8]) -> Option<Term>
    ensures exact { (t : ℕ) → (result ≡ Some t) ↔ SaysFence guest.now text.now t }
{
    let fields = read_sealed(guest, b"fence", text)?;
    term_of(fields)
}

/// The term of a fence, or 0 where the text is none.
fn fence_of(guest: &Guest, text: &[u8]) -> Term
    ensures { IsGreatest guest.now result (text.now ∷ []) }
{
    read_fence(guest, text).unwrap_or(0)
}

/// The greatest fence of a file of fences, or 0. A line of another form is none.
pub fn last_fence(guest: &Guest, bytes: &[u8]) -> Term
    ensures { IsLastFence guest.now bytes.now result }
{
    let mut last = 0;
    let mut rest = bytes;
    while let Some((text, behind)) = first_line(rest) {
        last = fence_of(guest, text).max(last);
        rest = behind;
    }
    fence_of(guest, rest).max(last)
}
