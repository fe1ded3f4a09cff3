//! A pair: `pair KEEPERS NEED PAIR S`, the line before what a keeper of it hands out.

ghost use Rattle.std.specs.Prelude.{◌≡◌, ◌↔◌, ℕ, ◌+◌, ◌≤◌, ◌++◌, ◌∷◌, List, length, IfSome, IfNone, Some, decimal};
ghost use Rattle.ft_types.specs.Text.{line};
ghost use Rattle.ft_types.specs.declared.quorum.Quorum.{Quorum as quorum_of_specs};
ghost use Rattle.wire.specs.Fields.{spelling};
ghost use Rattle.wire.specs.Pairs.{IsPair, HasPair, SaysPair, pair_fields, pair_text};
ghost use Rattle.wire.specs.declared.pairs.Pair.{Pair as pair_of_specs};

use crate::fields::Fields;
use crate::line::{LINE_LIMIT, Line};
use crate::long_words::{push_long_word, take_long_word};
use crate::seals::{read_sealed, seal_line};
use ft_types::{Guest, Quorum};

/// A pair.
#[derive(Clone, Copy, PartialEq, Eq)]
pub struct Pair {
    /// How many keepers it has, and how many must hold an output.
    pub quorum: Quorum,
    /// The number that was chosen for it, by which it is told from others of its guest.
    pub name: u64,
}

/// Adds the fields of a pair behind a space.
pub(crate) fn push_pair(text: &mut Line, pair: &Pair)
    requires { length text.old + 59 ≤ LINE_LIMIT }
    ensures bytes { text.new ≡ text.old ++ 32 ∷ spelling (pair_fields pair.now) }
    ensures len { length text.new ≤ length text.old + 59 }
{
    text.push_number(u64::from(pair.quorum.keepers()));
    text.push_number(u64::from(pair.quorum.need()));
    push_long_word(text, pair.name);
}

/// The line of a pair.
pub fn pair_line(guest: &Guest, pair: &Pair) -> Line
    ensures { result ≡ line (pair_text guest.now pair.now) }
{
    let mut text = Line::new();
    text.push(b"pair");
    push_pair(&mut text, pair);
    seal_line(guest, text)
}

/// Takes the next fields, which are numbers of keepers.
fn take_quorum(fields: &mut Fields<'_>) -> Option<Quorum>
    ensures found { IfSome result (λ q. fields.old ≡ decimal q.keepers ∷ decimal q.need ∷ fields.new) }
    ensures none { IfNone result ((q : quorum_of_specs) (rest : List (List ℕ)) → fields.old ≡ decimal q.keepers ∷ decimal q.need ∷ rest → ⊥) }
{
    let keepers = fields.take_count()?;
    let need = fields.take_count()?;
    Quorum::new(keepers, need)
}

/// Takes the next fields, which are those of a pair.
pub(crate) fn take_pair(fields: &mut Fields<'_>) -> Option<Pair>
    ensures found { IfSome result (λ p. IsPair p × (fields.old ≡ pair_fields p ++ fields.new)) }
    ensures none { IfNone result ((p : pair_of_specs) (rest : List (List ℕ)) → IsPair p → fields.old ≡ pair_fields p ++ rest → ⊥) }
{
    let quorum = take_quorum(fields)?;
    let name = take_long_word(fields)?;
    Some(Pair { quorum, name })
}

/// The pair that the fields behind the name are.
fn pair_of(mut fields: Fields<'_>) -> Option<Pair>
    ensures found { IfSome result (λ p. HasPair fields.entry p) }
    ensures none { IfNone result ((p : pair_of_specs) → HasPair fields.entry p → ⊥) }
{
    let pair = take_pair(&mut fields)?;
    if fields.is_done() { Some(pair) } else { None }
}

/// The pair of which a line's text says so.
pub fn read_pair(guest: &Guest, text: &[u8]) -> Option<Pair>
    ensures exact { (p : pair_of_specs) → (result ≡ Some p) ↔ SaysPair guest.now text.now p }
{
    let fields = read_sealed(guest, b"pair", text)?;
    pair_of(fields)
}
