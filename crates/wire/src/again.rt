//! What a keeper asks that begins anew: `again K S`, by which its connection begins again, with every frame.

ghost use Rattle.std.specs.Prelude.{◌≡◌, ◌↔◌, ℕ, ◌<◌, ◌∷◌, [], decimal, IfSome, IfNone, Some};
ghost use Rattle.ft_types.specs.Text.{line};
ghost use Rattle.wire.specs.Acknowledgements.{SaysAgain, again_text};

use crate::fields::Fields;
use crate::line::Line;
use crate::seals::{read_sealed, seal_line};
use ft_types::{Guest, KEEPER_LIMIT, Keeper};

/// The line by which a keeper asks for all frames once more.
pub fn again_line(guest: &Guest, keeper: Keeper) -> Line
    ensures { result ≡ line (again_text guest.now keeper) }
{
    let mut text = Line::new();
    text.push(b"again");
    text.push_number(u64::from(keeper.number()));
    seal_line(guest, text)
}

/// The keeper that the fields behind the name are.
fn keeper_of(mut fields: Fields<'_>) -> Option<Keeper>
    ensures found { IfSome result (λ k. (k < KEEPER_LIMIT) × (fields.entry ≡ decimal k ∷ [])) }
    ensures none { IfNone result ((k : ℕ) → (k < KEEPER_LIMIT) × (fields.entry ≡ decimal k ∷ []) → ⊥) }
{
    let keeper = fields.take_keeper()?;
    if fields.is_done() { Some(keeper) } else { None }
}

/// The keeper that asks so by a line's text.
pub fn read_again(guest: &Guest, text: &[u8]) -> Option<Keeper>
    ensures exact { (k : ℕ) → (result ≡ Some k) ↔ SaysAgain guest.now text.now k }
{
    let fields = read_sealed(guest, b"again", text)?;
    keeper_of(fields)
}
