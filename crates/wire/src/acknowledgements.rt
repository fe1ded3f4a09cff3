//! Acknowledgements: `ack T K C .. S`, a term, a keeper, a count for each hart, and the line's seal.

ghost use Rattle.std.specs.Prelude.{◌≡◌, ◌↔◌, ℕ, ◌≤◌, List, IfSome, IfNone, Some};
ghost use Rattle.ft_types.specs.Text.{line};
ghost use Rattle.wire.specs.Acknowledgements.{SaysAcknowledgement, HasAcknowledgement, acknowledgement_fields, acknowledgement_text};
ghost use Rattle.wire.specs.declared.acknowledgements.Acknowledgement.{Acknowledgement as acknowledgement_of_specs};

use crate::fields::Fields;
use crate::line::Line;
use crate::seals::{read_sealed, seal_line};
use ft_types::{Counts, Guest, HART_LIMIT, Keeper, Term};

/// A keeper's position: what it keeps leads the guest to these counts of a term.
#[derive(Clone, Copy, PartialEq, Eq)]
pub struct Acknowledgement {
    /// The term.
    pub term: Term,
    /// The keeper.
    pub keeper: Keeper,
    /// A count for each hart.
    pub counts: Counts,
}

/// The line of an acknowledgement.
pub fn acknowledgement_line(guest: &Guest, acknowledgement: &Acknowledgement) -> Line
    ensures { result ≡ line (acknowledgement_text guest.now acknowledgement.now) }
{
    let mut text = Line::new();
    text.push(b"ack");
    text.push_number(u64::from(acknowledgement.term));
    text.push_number(u64::from(acknowledgement.keeper.number()));
    for count in acknowledgement.counts.as_slice() {
        text.push_number(*count);
    }
    seal_line(guest, text)
}

/// The acknowledgement that the fields behind its name are.
fn acknowledgement_of(harts: u8, mut fields: Fields<'_>) -> Option<Acknowledgement>
    requires { harts ≤ HART_LIMIT }
    ensures found { IfSome result (λ a. HasAcknowledgement harts fields.entry a) }
    ensures none { IfNone result ((a : acknowledgement_of_specs) → HasAcknowledgement harts fields.entry a → ⊥) }
{
    let term = fields.take_term()?;
    let keeper = fields.take_keeper()?;
    let counts = fields.take_counts(harts)?;
    if fields.is_done() {
        Some(Acknowledgement {
            term,
            keeper,
            counts,
        })
    } else {
        None
    }
}

/// The acknowledgement that a line's text is, of this guest.
pub fn read_acknowledgement(guest: &Guest, text: &[u8]) -> Option<Acknowledgement>
    ensures exact { (a : acknowledgement_of_specs) → (result ≡ Some a) ↔ SaysAcknowledgement guest.now text.now a }
{
    let fields = read_sealed(guest, b"ack", text)?;
    acknowledgement_of(guest.harts(), fields)
}
