//! What is told.

ghost use Rattle.std.specs.Prelude.{◌≡◌, ◌++◌, ◌∷◌, [], map, OnOk};
ghost use Rattle.primary_turns.specs.declared.deeds.Deed.TheVariants.{Tell};
ghost use Rattle.primary_turns.specs.Deeds.{deeds_of, noted, tells};

use crate::deeds::Deed;
use crate::told::Told;
use ft_types::{Memory, Term};
use leading::{Came, Heard};
use primary::Released;
use std::result::Result;
use wire::{Answer, Request};

/// Tells an answer.
fn tell(told: &mut Told, deeds: &mut Vec<Deed>, answer: Answer) -> Result<(), Memory>
    ensures deeds { OnOk result (deeds.new.items ≡ deeds.old.items ++ Tell answer ∷ []) }
    ensures told { OnOk result (told.new ≡ noted told.old (Tell answer ∷ [])) }
{
    told.note(&answer.output);
    Ok(deeds.push(Deed::Tell(answer))?)
}

/// Tells answers, one behind the other.
fn tell_all(told: &mut Told, deeds: &mut Vec<Deed>, answers: &[Answer]) -> Result<(), Memory>
    ensures deeds { OnOk result (deeds.new.items ≡ deeds.old.items ++ map Tell answers.now) }
    ensures told { OnOk result (told.new ≡ noted told.old (map Tell answers.now)) }
{
    for answer in answers {
        tell(told, deeds, *answer)?;
    }
    Ok(())
}

/// Tells outputs that went out in the term, one behind the other.
pub(crate) fn tell_released(
    told: &mut Told,
    deeds: &mut Vec<Deed>,
    term: Term,
    released: &[Released],
) -> Result<(), Memory>
    ensures deeds { OnOk result (deeds.new.items ≡ deeds.old.items ++ tells term released.now) }
    ensures told { OnOk result (told.new ≡ noted told.old (tells term released.now)) }
{
    for one in released {
        tell(
            told,
            deeds,
            Answer {
                term,
                output: one.output,
            },
        )?;
    }
    Ok(())
}

/// Tells what comes of a request: outputs that are known to be out, or that its hart is given no more words.
pub(crate) fn tell_heard(
    told: &mut Told,
    deeds: &mut Vec<Deed>,
    request: &Request,
    heard: &Heard,
) -> Result<(), Memory>
    ensures deeds { OnOk result (deeds.new.items ≡ deeds.old.items ++ deeds_of request.now heard.now) }
    ensures told { OnOk result (told.new ≡ noted told.old (deeds_of request.now heard.now)) }
{
    match heard {
        Heard::Told(answers) => tell_all(told, deeds, answers),
        Heard::Came(Came::Full) => Ok(deeds.push(Deed::Full(request.hart()))?),
        _ => Ok(()),
    }
}
