//! Answers: `term T hart H number K step N word V`, an output that went out in a term.

ghost use Rattle.std.specs.Prelude.{◌≡◌, ◌↔◌, IfSome, IfNone, Some};
ghost use Rattle.ft_types.specs.Text.{line};
ghost use Rattle.wire.specs.Answers.{HasAnswer, SaysAnswer, answer_text};
ghost use Rattle.wire.specs.declared.answers.Answer.{Answer as answer_of_specs};

use crate::fields::Fields;
use crate::line::Line;
use ft_types::{Output, Term};

/// An output that went out.
#[derive(Clone, Copy, PartialEq, Eq)]
pub struct Answer {
    /// The term in which it did.
    pub term: Term,
    /// The output.
    pub output: Output,
}

/// The line of an output that went out.
pub fn answer_line(answer: &Answer) -> Line
    ensures { result ≡ line (answer_text answer.now) }
{
    let output = &answer.output;
    let mut text = Line::new();
    text.push(b"term");
    text.push_number(u64::from(answer.term));
    text.push_field(b"hart");
    text.push_number(u64::from(output.hart.number()));
    text.push_field(b"number");
    text.push_number(output.number);
    text.push_field(b"step");
    text.push_number(output.step);
    text.push_field(b"word");
    text.push_word(output.word);
    text.push(b"\n");
    text
}

/// The answer that the fields are, for this number of harts.
fn answer_of(harts: u8, mut fields: Fields<'_>) -> Option<Answer>
    ensures found { IfSome result (λ a. HasAnswer harts fields.entry a) }
    ensures none { IfNone result ((a : answer_of_specs) → HasAnswer harts fields.entry a → ⊥) }
{
    fields.take_name(b"term")?;
    let term = fields.take_term()?;
    fields.take_name(b"hart")?;
    let hart = fields.take_hart(harts)?;
    fields.take_name(b"number")?;
    let number = fields.take_count()?;
    fields.take_name(b"step")?;
    let step = fields.take_count()?;
    fields.take_name(b"word")?;
    let word = fields.take_word()?;
    if !fields.is_done() {
        return None;
    }
    let output = Output {
        hart,
        number,
        step,
        word,
    };
    Some(Answer { term, output })
}

/// The answer that a line's text is, for this number of harts.
pub fn read_answer(harts: u8, text: &[u8]) -> Option<Answer>
    ensures exact { (a : answer_of_specs) → (result ≡ Some a) ↔ SaysAnswer harts text.now a }
{
    answer_of(harts, Fields::new(text))
}
