//! The lines of a script.

ghost use Rattle.std.specs.Prelude.{◌≡◌, IfSome, IfNone};
ghost use Rattle.input_log.specs.declared.Input.{Input as input_of_specs};
ghost use Rattle.scripts.specs.declared.script.Offered.{Offered as offered_of_specs};
ghost use Rattle.scripts.specs.Script.{IsWaited, MayBeOffered, input_text, offered_text, BeginsWith, LacksLine};

use crate::fields::{first_field, read_hart, read_small};
use crate::script::Offered;
use ft_types::{first_line, read_word};
use input_log::Input;
use std::option::Option;

/// The input that the text is.
fn read_input(text: &[u8]) -> Option<Input>
    ensures found { IfSome result (λ i. IsWaited i × (text.now ≡ input_text i)) }
    ensures none { IfNone result ((i : input_of_specs) → IsWaited i → text.now ≡ input_text i → ⊥) }
{
    if text == b"timer".as_slice() {
        return Some(Input::Timer);
    }
    match text.strip_prefix(b"word ") {
        None => None,
        Some(digits) => match read_word(digits) {
            None => None,
            Some(word) => Some(Input::Word(word)),
        },
    }
}

/// What the text of a line offers.
fn read_offered(harts: u8, text: &[u8]) -> Option<Offered>
    ensures found { IfSome result (λ o. MayBeOffered harts o × (text.now ≡ offered_text o)) }
    ensures none { IfNone result ((o : offered_of_specs) → MayBeOffered harts o → text.now ≡ offered_text o → ⊥) }
{
    let (hart, behind) = first_field(text)?;
    let (count, input) = first_field(behind)?;
    Some(Offered {
        hart: read_hart(harts, hart)?,
        not_before: read_small(count)?,
        input: read_input(input)?,
    })
}

/// What the first line offers, and what stands behind the line.
pub(super) fn read_line(harts: u8, bytes: &[u8]) -> Option<(Offered, &[u8])>
    ensures found { IfSome result (λ f. BeginsWith harts bytes.now f.0 f.1.now) }
    ensures none { IfNone result (LacksLine harts bytes.now) }
{
    let (text, behind) = first_line(bytes)?;
    let offered = read_offered(harts, text)?;
    Some((offered, behind))
}
