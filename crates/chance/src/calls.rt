//! Calls of crews that fall by chance.

use fixtures::{Crew, Dice, hart, offer};
use ft_types::Hart;
use input_log::Input;
use page_book::{BookFault, Keep, Recording};
use std::alloc::Global;

/// The hart is lent, where it is not yet, and its lease has so many turns, each a step or a page that it lacks.
fn go(crew: &mut Crew<Recording>, alloc: Global, hart: Hart, turns: u8) -> Result<(), BookFault> {
    let lent = crew.lend(alloc, hart);
    let _steps = crew.go(hart, u32::from(turns));
    lent
}

/// A call by chance: the hart's lease is settled or discarded, or goes on; an input is offered to it, if it is to be, from a count on.
/// Where none is offered leases are short.
fn make(crew: &mut Crew<Recording>, alloc: Global, hart: Hart, offers: bool, dice: &mut Dice) {
    let roll = dice.roll();
    let kind = if offers { roll % 12 } else { roll % 8 };
    let _answer = match (kind, offers) {
        (0, _) => crew.settle(hart, Keep::All),
        (1, _) => crew.settle(hart, Keep::Readable),
        (2, _) => crew.settle(hart, Keep::Nothing),
        (3, _) => crew.discard(hart),
        (4, true) => {
            offer(&mut crew.book, hart, u64::from(dice.roll()), Input::Timer);
            Ok(())
        }
        (5, true) => {
            let word = Input::Word(u32::from(dice.roll()));
            offer(&mut crew.book, hart, 0, word);
            Ok(())
        }
        (_, true) => go(crew, alloc, hart, dice.roll() % 32),
        _ => go(crew, alloc, hart, dice.roll() % 8),
    };
}

/// Makes so many calls by chance, each for a hart by chance. Inputs are among them, if they are to be.
pub fn make_many(
    crew: &mut Crew<Recording>,
    alloc: Global,
    calls: u32,
    offers: bool,
    dice: &mut Dice,
) {
    let harts = crew.book.machine().harts().max(1);
    for _call in 0..calls {
        let hart = hart(dice.roll() % harts);
        make(crew, alloc, hart, offers, dice);
    }
}
