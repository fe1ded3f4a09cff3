//! The lines of a list of events.

ghost use Rattle.std.specs.Prelude.{◌≡◌, ◌↔◌, ◌++◌, ◌∷◌, [], List, ℕ, codes, IfSome, IfNone, IfOk};
ghost use Rattle.std.specs.Bool.{IsTrue};
ghost use Rattle.scripts.specs.declared.event.Event.{Event as event_of_specs};
ghost use Rattle.scripts.specs.Events.{AreNumbers, BeginsWith, LacksLine, MayHappen, event_text};
ghost use Rattle.scripts.specs.machinery.Reading.{Says, SaysNothing};

use crate::event::Event;
use crate::fields::{cut, first_field, hart_of, read_hart};
use crate::numbers::read_numbers;
use ft_types::{Memory, Term, first_line, read_word};
use input_log::Input;
use std::alloc::Global;

/// Whether the text is this name.
fn is(text: &[u8], name: &[u8]) -> bool
    ensures { IsTrue result ↔ (text.now ≡ name.now) }
{
    text == name
}

/// The event of this name, without numbers.
fn event_of_none(name: &[u8]) -> Option<Event>
    ensures found { IfSome result (λ e. (harts : ℕ) → Says harts name.now [] e) }
    ensures none { IfNone result ((harts : ℕ) → SaysNothing harts name.now []) }
{
    if is(name, b"seal") {
        Some(Event::Seal)
    } else if is(name, b"release") {
        Some(Event::Release)
    } else if is(name, b"stop") {
        Some(Event::Stop)
    } else {
        None
    }
}

/// The event of this name and a number below `COUNT_LIMIT`.
fn event_of_one(harts: u8, name: &[u8], number: u64) -> Option<Event>
    requires { AreNumbers (number ∷ []) }
    ensures found { IfSome result (λ e. Says harts name.now (number ∷ []) e) }
    ensures none { IfNone result (SaysNothing harts name.now (number ∷ [])) }
{
    if is(name, b"step") {
        Some(Event::Step(hart_of(harts, number)?))
    } else if is(name, b"timer") {
        Some(Event::Offer(hart_of(harts, number)?, Input::Timer))
    } else if is(name, b"ack") {
        Some(Event::Acknowledge(number))
    } else if is(name, b"lose") {
        Some(Event::Lose(number))
    } else {
        None
    }
}

/// The term that goes live from the stores of keepers: the numbers are the term's and theirs, at least one.
fn grant_of(mut numbers: Vec<u64>) -> Option<Event>
    requires { AreNumbers numbers.items }
    ensures found { IfSome result (λ e. (harts : ℕ) → Says harts (codes "grant") numbers.items e) }
    ensures none { IfNone result ((harts : ℕ) → SaysNothing harts (codes "grant") numbers.items) }
{
    if numbers.len() < 2 {
        return None;
    }
    match Term::try_from(numbers.remove(0)) {
        Ok(term) => Some(Event::Grant {
            term,
            keepers: numbers,
        }),
        Err(_) => None,
    }
}

/// The event of this name and two numbers below `COUNT_LIMIT`.
fn event_of_two(name: &[u8], first: u64, second: u64) -> Option<Event>
    requires { AreNumbers (first ∷ second ∷ []) }
    ensures found { IfSome result (λ e. (harts : ℕ) → Says harts name.now (first ∷ second ∷ []) e) }
    ensures none { IfNone result ((harts : ℕ) → (name.now ≡ codes "grant" → ⊥) → SaysNothing harts name.now (first ∷ second ∷ [])) }
{
    if is(name, b"deliver") {
        Some(Event::Deliver {
            keeper: first,
            frame: second,
        })
    } else if is(name, b"join") {
        Some(Event::Join {
            keeper: first,
            other: second,
        })
    } else {
        None
    }
}

/// The event of this name and these numbers, each below `COUNT_LIMIT`.
fn event_of(harts: u8, name: &[u8], numbers: Vec<u64>) -> Option<Event>
    requires { AreNumbers numbers.items }
    ensures found { IfSome result (λ e. Says harts name.now numbers.items e) }
    ensures none { IfNone result (SaysNothing harts name.now numbers.items) }
{
    if is(name, b"grant") {
        return grant_of(numbers);
    }
    match numbers.as_slice() {
        [] => event_of_none(name),
        [number] => event_of_one(harts, name, *number),
        [first, second] => event_of_two(name, *first, *second),
        _ => None,
    }
}

/// The word that is offered to a hart: the text has the hart's number, a space and the word.
fn offer_of(harts: u8, text: &[u8]) -> Option<Event>
    ensures found { IfSome result (λ e. MayHappen harts e × (codes "word" ++ 32 ∷ text.now ≡ event_text e)) }
    ensures none { IfNone result ((e : event_of_specs) → MayHappen harts e → codes "word" ++ 32 ∷ text.now ≡ event_text e → ⊥) }
{
    let (number, behind) = first_field(text)?;
    let hart = read_hart(harts, number)?;
    let word = read_word(behind)?;
    Some(Event::Offer(hart, Input::Word(word)))
}

/// The event that the text of a line says.
fn read_event(alloc: Global, harts: u8, text: &[u8]) -> Result<Option<Event>, Memory>
    ensures found { IfOk result (λ r. IfSome r (λ e. MayHappen harts e × (text.now ≡ event_text e))) }
    ensures none { IfOk result (λ r. IfNone r ((e : event_of_specs) → MayHappen harts e → text.now ≡ event_text e → ⊥)) }
{
    let (name, behind) = cut(text);
    let Some(behind) = behind else {
        return Ok(event_of_none(name));
    };
    if is(name, b"word") {
        return Ok(offer_of(harts, behind));
    }
    match read_numbers(alloc, behind)? {
        Some(numbers) => Ok(event_of(harts, name, numbers)),
        None => Ok(None),
    }
}

/// The event that the first line says, and what stands behind the line.
pub(super) fn read_line(
    alloc: Global,
    harts: u8,
    bytes: &[u8],
) -> Result<Option<(Event, &[u8])>, Memory>
    ensures found { IfOk result (λ r. IfSome r (λ f. BeginsWith harts bytes.now f.0 f.1.now)) }
    ensures none { IfOk result (λ r. IfNone r (LacksLine harts bytes.now)) }
{
    let Some((text, behind)) = first_line(bytes) else {
        return Ok(None);
    };
    match read_event(alloc, harts, text)? {
        Some(event) => Ok(Some((event, behind))),
        None => Ok(None),
    }
}
