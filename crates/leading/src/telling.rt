//! Outputs that are told once more.

ghost use Rattle.std.specs.Prelude.{◌≡◌, ◌<◌, ◌+◌, ◌^◌, ◌++◌, drop, filter, length, map, take, IfOk, OnOk};
ghost use Rattle.primary.specs.Outputs.{numbered_from, said_at};
ghost use Rattle.leading.specs.Telling.{told_in, is_from, told_again};

use ft_types::{Count, Hart, Memory, Output, Term};
use guest_image::Machine;
use primary::Released;
use std::alloc::Global;
use std::result::Result;
use wire::Answer;

/// What a hart has put out; nothing where it is not there.
fn said(machine: &Machine, hart: Hart) -> &[(Count, u32)]
    ensures { result.now ≡ said_at machine.now hart }
{
    if hart.number() >= machine.harts() {
        return &[];
    }
    machine.hart(hart).outputs()
}

/// The first so many, but for so many of them.
fn between(said: &[(Count, u32)], first: usize, end: usize) -> &[(Count, u32)]
    ensures { result.now ≡ drop first (take end said.now) }
{
    let front = &said[..end.min(said.len())];
    &front[first.min(front.len())..]
}

/// Adds outputs of a hart, the first of which has this number.
fn add_known(
    answers: &mut Vec<Answer>,
    term: Term,
    hart: Hart,
    first: usize,
    said: &[(Count, u32)],
) -> Result<(), Memory>
    requires { first + length said.now < 2 ^ 64 }
    ensures { OnOk result (answers.new.items ≡ answers.old.items ++ told_in term (numbered_from hart first said.now)) }
{
    for (index, (step, word)) in said.iter().enumerate() {
        let output = Output {
            hart,
            number: (first + index) as u64,
            step: *step,
            word: *word,
        };
        answers.push(Answer { term, output })?;
    }
    Ok(())
}

/// Adds the outputs of a hart, from this number on, that went out.
fn add_released(
    answers: &mut Vec<Answer>,
    term: Term,
    hart: Hart,
    number: Count,
    released: &[Released],
) -> Result<(), Memory>
    ensures { OnOk result (answers.new.items ≡ answers.old.items
        ++ told_in term (filter (is_from hart number) (map (λ r. r.output) released.now))) }
{
    for one in released {
        let output = one.output;
        if output.hart == hart && output.number >= number {
            answers.push(Answer { term, output })?;
        }
    }
    Ok(())
}

/// The outputs of a hart that are known to be out, from this number on: those of the machine with numbers below a mark, and those that
/// went out.
pub(crate) fn tell_again(
    alloc: Global,
    term: Term,
    machine: &Machine,
    mark: Count,
    released: &[Released],
    hart: Hart,
    number: Count,
) -> Result<Vec<Answer>, Memory>
    ensures { IfOk result (λ answers. answers.items ≡ told_again term machine.now mark released.now hart number) }
{
    let mut answers = Vec::new(alloc);
    let first = number as usize;
    let known = between(said(machine, hart), first, mark as usize);
    add_known(&mut answers, term, hart, first, known)?;
    add_released(&mut answers, term, hart, number, released)?;
    Ok(answers)
}
