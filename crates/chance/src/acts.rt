//! Events as tests write them.

ghost use Rattle.std.specs.Prelude.{◌<◌, ◌≤◌, IfOk};
ghost use Rattle.ft_types.specs.declared.names.TheConstants.{HART_LIMIT};
ghost use Rattle.scripts.specs.Coming.{MayCome};

use failover_world::Event;
use ft_types::{Hart, Memory, Term};
use input_log::Input;
use std::alloc::Global;

/// An event, with the keepers of a grant in a list. A hart is named by any number, of which the remainder by the
/// number of harts counts. Where primaries stop, the term is that of the one that runs.
#[derive(Clone, Copy)]
pub enum Act {
    Step(Term, u8),
    Timer(Term, u8),
    Word(Term, u8, u32),
    Seal(Term),
    Release(Term),
    Stop(Term),
    Deliver(u64, u64),
    Join(u64, u64),
    Save(u64),
    Restart(u64),
    Fence(u64, Term),
    Ack(u64),
    Lose(u64),
    Grant(Term, &'static [u64]),
}

/// The hart that a number names, of so many.
pub fn hart_of(number: u8, harts: u8) -> Hart
    requires { (0 < harts) × (harts ≤ HART_LIMIT) }
    ensures { result < harts }
{
    Hart::new(number % harts)
}

/// The event where primaries stop, for a guest of so many harts. `Memory` for one of a keeper that fences terms off: none falls there.
pub fn event_of(alloc: Global, act: Act, harts: u8) -> Result<Event, Memory>
    requires { (0 < harts) × (harts ≤ HART_LIMIT) }
    ensures { IfOk result (λ event. MayCome harts event) }
{
    Ok(match act {
        Act::Step(_, hart) => Event::Step(hart_of(hart, harts)),
        Act::Timer(_, hart) => Event::Offer(hart_of(hart, harts), Input::Timer),
        Act::Word(_, hart, word) => Event::Offer(hart_of(hart, harts), Input::Word(word)),
        Act::Seal(_) => Event::Seal,
        Act::Release(_) => Event::Release,
        Act::Stop(_) => Event::Stop,
        Act::Deliver(keeper, frame) => Event::Deliver { keeper, frame },
        Act::Join(keeper, other) => Event::Join { keeper, other },
        Act::Ack(keeper) => Event::Acknowledge(keeper),
        Act::Lose(keeper) => Event::Lose(keeper),
        Act::Grant(term, keepers) => Event::Grant {
            term,
            keepers: Vec::from_slice(alloc, keepers)?,
        },
        Act::Save(_) | Act::Restart(_) | Act::Fence(..) => return Err(Memory),
    })
}
