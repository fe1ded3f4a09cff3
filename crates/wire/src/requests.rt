//! Requests: `H timer`, `H word V`, `H word V N` for the word that is hart H's number N, from 0 on, and `H from N`, which asks for the
//! hart's outputs from number N on once more.

ghost use Rattle.std.specs.Prelude.{◌≡◌, ◌↔◌, ℕ, ◌∷◌, List, Option, IfSome, IfNone, Some, codes, decimal};
ghost use Rattle.ft_types.specs.Counts.{IsCount};
ghost use Rattle.ft_types.specs.Text.{line};
ghost use Rattle.wire.specs.Requests.{HasRequest, SaysRequest, hart_of, number_fields, request_text};
ghost use Rattle.wire.specs.Values.{IsHart};
ghost use Rattle.wire.specs.declared.requests.Request.{Request as request_of_specs};

use crate::fields::{Fields, is};
use crate::line::Line;
use ft_types::{Count, Hart};

/// What a client asks of a primary.
#[derive(Clone, Copy, PartialEq, Eq)]
pub enum Request {
    /// The timer's interrupt.
    Timer(Hart),
    /// A word, and its number among the hart's words where it is told.
    Word {
        hart: Hart,
        word: u32,
        number: Option<Count>,
    },
    /// What the hart put out, from this number on.
    From {
        hart: Hart,
        number: Count,
    },
}

impl Request {
    /// The hart of which something is asked.
    pub fn hart(&self) -> Hart
        ensures { result ≡ hart_of self.now }
    {
        match self {
            Request::Timer(hart) | Request::Word { hart, .. } | Request::From { hart, .. } => *hart,
        }
    }
}

/// The line of a request.
pub fn request_line(request: &Request) -> Line
    ensures { result ≡ line (request_text request.now) }
{
    let mut text = Line::new();
    match request {
        Request::Timer(hart) => {
            text.push_digits(u64::from(hart.number()));
            text.push_field(b"timer");
        }
        Request::Word { hart, word, number } => {
            text.push_digits(u64::from(hart.number()));
            text.push_field(b"word");
            text.push_word(*word);
            if let Some(number) = number {
                text.push_number(*number);
            }
        }
        Request::From { hart, number } => {
            text.push_digits(u64::from(hart.number()));
            text.push_field(b"from");
            text.push_number(*number);
        }
    }
    text.push(b"\n");
    text
}

/// The number that the fields are, or that there is none where no field is left.
fn number_of(mut fields: Fields<'_>) -> Option<Option<Count>>
    ensures found { IfSome result (λ n. IfSome n IsCount × (fields.entry ≡ number_fields n)) }
    ensures none { IfNone result ((n : Option ℕ) → IfSome n IsCount × (fields.entry ≡ number_fields n) → ⊥) }
{
    if fields.is_done() {
        return Some(None);
    }
    let number = fields.take_count()?;
    if fields.is_done() {
        Some(Some(number))
    } else {
        None
    }
}

/// The word to the hart that the fields behind the name are.
fn word_of(hart: Hart, mut fields: Fields<'_>) -> Option<Request>
    ensures found { IfSome result (λ r. (harts : ℕ) → IsHart harts hart → HasRequest harts (decimal hart ∷ codes "word" ∷ fields.entry) r) }
    ensures none { IfNone result ((harts : ℕ) (r : request_of_specs) → HasRequest harts (decimal hart ∷ codes "word" ∷ fields.entry) r → ⊥) }
{
    let word = fields.take_word()?;
    let number = number_of(fields)?;
    Some(Request::Word { hart, word, number })
}

/// The request for the hart's outputs that the fields behind the name are.
fn from_of(hart: Hart, mut fields: Fields<'_>) -> Option<Request>
    ensures found { IfSome result (λ r. (harts : ℕ) → IsHart harts hart → HasRequest harts (decimal hart ∷ codes "from" ∷ fields.entry) r) }
    ensures none { IfNone result ((harts : ℕ) (r : request_of_specs) → HasRequest harts (decimal hart ∷ codes "from" ∷ fields.entry) r → ⊥) }
{
    let number = fields.take_count()?;
    if fields.is_done() {
        Some(Request::From { hart, number })
    } else {
        None
    }
}

/// The request that the fields are, for this number of harts.
fn request_of(harts: u8, mut fields: Fields<'_>) -> Option<Request>
    ensures found { IfSome result (λ r. HasRequest harts fields.entry r) }
    ensures none { IfNone result ((r : request_of_specs) → HasRequest harts fields.entry r → ⊥) }
{
    let hart = fields.take_hart(harts)?;
    let name = fields.take()?;
    if is(name, b"word") {
        word_of(hart, fields)
    } else if is(name, b"from") {
        from_of(hart, fields)
    } else if is(name, b"timer") && fields.is_done() {
        Some(Request::Timer(hart))
    } else {
        None
    }
}

/// The request that a line's text is, for this number of harts.
pub fn read_request(harts: u8, text: &[u8]) -> Option<Request>
    ensures exact { (r : request_of_specs) → (result ≡ Some r) ↔ SaysRequest harts text.now r }
{
    request_of(harts, Fields::new(text))
}
