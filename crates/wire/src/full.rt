//! What a client is told whose hart is given no more words: `H full`.

ghost use Rattle.std.specs.Prelude.{◌≡◌, ◌↔◌, ℕ, IfSome, IfNone, Some};
ghost use Rattle.ft_types.specs.Text.{line};
ghost use Rattle.wire.specs.Requests.{HasFull, SaysFull, full_text};

use crate::fields::Fields;
use crate::line::Line;
use ft_types::Hart;

/// The line that says that the hart is given no more words.
pub fn full_line(hart: Hart) -> Line
    ensures { result ≡ line (full_text hart) }
{
    let mut text = Line::new();
    text.push_digits(u64::from(hart.number()));
    text.push_field(b"full");
    text.push(b"\n");
    text
}

/// The hart of which the fields say so, for this number of harts.
fn full_of(harts: u8, mut fields: Fields<'_>) -> Option<Hart>
    ensures found { IfSome result (λ h. HasFull harts fields.entry h) }
    ensures none { IfNone result ((h : ℕ) → HasFull harts fields.entry h → ⊥) }
{
    let hart = fields.take_hart(harts)?;
    fields.take_name(b"full")?;
    if fields.is_done() { Some(hart) } else { None }
}

/// The hart of which a line's text says so, for this number of harts.
pub fn read_full(harts: u8, text: &[u8]) -> Option<Hart>
    ensures exact { (h : ℕ) → (result ≡ Some h) ↔ SaysFull harts text.now h }
{
    full_of(harts, Fields::new(text))
}
