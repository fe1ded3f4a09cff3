//! What is handed out: `handed T K L S`, the line before the L bytes of frames that keeper K hands out behind its fence of term T.

ghost use Rattle.std.specs.Prelude.{◌≡◌, ◌↔◌, IfSome, IfNone, Some};
ghost use Rattle.ft_types.specs.Text.{line};
ghost use Rattle.wire.specs.Handed.{SaysHanded, HasHanded, handed_text};
ghost use Rattle.wire.specs.declared.handed.Handed.{Handed as handed_of_specs};

use crate::fields::Fields;
use crate::line::Line;
use crate::seals::{read_sealed, seal_line};
use ft_types::{Guest, Keeper, Term};

/// What is handed out.
#[derive(Clone, Copy, PartialEq, Eq)]
pub struct Handed {
    /// The term that may go live from it.
    pub term: Term,
    /// The keeper whose frames these are.
    pub keeper: Keeper,
    /// The number of bytes that the frames have, by which a stream that broke off is known. It is below `COUNT_LIMIT` where it is read.
    pub length: u64,
}

/// The line before frames that are handed out.
pub fn handed_line(guest: &Guest, handed: &Handed) -> Line
    ensures { result ≡ line (handed_text guest.now handed.now) }
{
    let mut text = Line::new();
    text.push(b"handed");
    text.push_number(u64::from(handed.term));
    text.push_number(u64::from(handed.keeper.number()));
    text.push_number(handed.length);
    seal_line(guest, text)
}

/// What the fields behind the name say.
fn handed_of(mut fields: Fields<'_>) -> Option<Handed>
    ensures found { IfSome result (λ h. HasHanded fields.entry h) }
    ensures none { IfNone result ((h : handed_of_specs) → HasHanded fields.entry h → ⊥) }
{
    let term = fields.take_term()?;
    let keeper = fields.take_keeper()?;
    let length = fields.take_count()?;
    if fields.is_done() {
        Some(Handed {
            term,
            keeper,
            length,
        })
    } else {
        None
    }
}

/// What is handed out behind a line of this text.
pub fn read_handed(guest: &Guest, text: &[u8]) -> Option<Handed>
    ensures exact { (h : handed_of_specs) → (result ≡ Some h) ↔ SaysHanded guest.now text.now h }
{
    let fields = read_sealed(guest, b"handed", text)?;
    handed_of(fields)
}
