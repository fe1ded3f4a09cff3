//! Audits by the definition: one run of a leg, step by step, and all pairs of its steps.

use fixtures::{Crew, hart};
use ft_types::{Count, HART_LIMIT, Hart, Memory, PageNo, Want};
use guest_image::{Image, Machine};
use hart_replay::PlannedLeg;
use page_book::{Book, BookFault, Keep, Leg, Replaying};
use rv32_hart::Tick;
use std::alloc::Global;

/// A page that a step asked for, and what for.
type Use = (PageNo, Want);

/// A step of a run.
#[derive(Drop)]
struct Taken {
    hart: Hart,
    count: Count,
    uses: Vec<Use>,
    /// Of each step that was taken earlier, whether it comes before this one by the edges and the harts' own orders.
    before: Vec<bool>,
}

/// A page that two steps use of which one writes it and neither comes before the other, by their harts and counts. The lesser
/// hart stands first.
pub type Pair = (PageNo, (Hart, Count), (Hart, Count));

/// What a leg comes to from boot.
#[derive(Drop)]
pub struct Outcome {
    pub pairs: Vec<Pair>,
    /// Whether each hart came to its end.
    pub ended: bool,
    pub machine: Machine,
}

/// One turn of the hart's lease: a step, or a page that it lacks.
fn turn(crew: &mut Crew<Replaying>, hart: Hart) -> Tick {
    match crew.lease_mut(hart) {
        None => Tick::Halted,
        Some(lease) if lease.full() => Tick::Halted,
        Some(lease) => lease.tick(),
    }
}

/// Takes the next step of a hart that is lent, and adds which pages it asked for.
fn add_uses(crew: &mut Crew<Replaying>, uses: &mut Vec<Use>, hart: Hart) -> Result<(), Memory> {
    for _turn in 0..8 {
        match turn(crew, hart) {
            Tick::Done => return Ok(()),
            Tick::Miss(page, want) => {
                uses.push((page, want))?;
                if crew.ask(hart, page, want).is_err() {
                    return Err(Memory);
                }
            }
            Tick::Halted | Tick::Memory => return Err(Memory),
        }
    }
    Err(Memory)
}

/// Adds the step of this place, and all that comes before it.
fn add_known(before: &mut [bool], its: &[bool], step: usize) {
    for place in 0..before.len() {
        if place == step || is_before(its, place) {
            if let Some(known) = before.get_mut(place) {
                *known = true;
            }
        }
    }
}

/// Whether the step of this place is one of those that come before.
fn is_before(before: &[bool], place: usize) -> bool {
    match before.get(place) {
        Some(is_before) => *is_before,
        None => false,
    }
}

/// Adds a step, by its hart and count, and all that comes before it.
fn add_before(before: &mut [bool], steps: &[Taken], hart: Hart, count: Count) {
    let mut place = 0usize;
    for step in steps {
        if step.hart == hart && step.count == count {
            add_known(before, &step.before, place);
        }
        place = place.saturating_add(1);
    }
}

/// Which of the steps come before the hart's step of this count.
fn before_of(
    alloc: Global,
    leg: &PlannedLeg,
    steps: &[Taken],
    hart: Hart,
    count: Count,
) -> Result<Vec<bool>, Memory> {
    let mut before = vec![in alloc; false; steps.len()]?;
    if count > 0 {
        add_before(&mut before, steps, hart, count - 1);
    }
    for edge in leg.edges.at(hart, count) {
        add_before(&mut before, steps, edge.other, edge.after.saturating_sub(1));
    }
    Ok(before)
}

/// Takes the hart's next step, where it may go on.
fn take(
    crew: &mut Crew<Replaying>,
    alloc: Global,
    leg: &PlannedLeg,
    steps: &mut Vec<Taken>,
    hart: Hart,
) -> Result<(), Memory> {
    match crew.lend(alloc, hart) {
        Ok(()) => {}
        Err(BookFault::Memory) => return Err(Memory),
        Err(_) => return Ok(()),
    }
    let count = crew.book.counts().count_of(hart);
    let mut uses = Vec::new(alloc);
    add_uses(crew, &mut uses, hart)?;
    if crew.settle(hart, Keep::Nothing).is_err() {
        return Err(Memory);
    }
    let before = before_of(alloc, leg, steps, hart, count)?;
    let step = Taken {
        hart,
        count,
        uses,
        before,
    };
    Ok(steps.push(step)?)
}

/// Takes a step of each hart in turn, the greatest first.
fn take_each(
    crew: &mut Crew<Replaying>,
    alloc: Global,
    leg: &PlannedLeg,
    steps: &mut Vec<Taken>,
) -> Result<(), Memory> {
    for number in 0..HART_LIMIT {
        let last = HART_LIMIT - 1 - number;
        take(crew, alloc, leg, steps, hart(last))?;
    }
    Ok(())
}

/// Takes a step of each again and again until none may go on.
fn run(
    crew: &mut Crew<Replaying>,
    alloc: Global,
    leg: &PlannedLeg,
    steps: &mut Vec<Taken>,
) -> Result<(), Memory> {
    for _round in 0..1000 {
        let taken = steps.len();
        take_each(crew, alloc, leg, steps)?;
        if steps.len() == taken {
            return Ok(());
        }
    }
    Err(Memory)
}

fn pair_of(page: PageNo, one: &Taken, other: &Taken) -> Pair {
    let (first, second) = ((one.hart, one.count), (other.hart, other.count));
    if one.hart.number() < other.hart.number() {
        (page, first, second)
    } else {
        (page, second, first)
    }
}

/// Adds a pair for each page that both steps use and one of them writes.
fn add_conflicts(pairs: &mut Vec<Pair>, one: &Taken, other: &Taken) -> Result<(), Memory> {
    for (page, want) in &one.uses {
        for (other_page, other_want) in &other.uses {
            if page == other_page && (*want == Want::Write || *other_want == Want::Write) {
                pairs.push(pair_of(*page, one, other))?;
            }
        }
    }
    Ok(())
}

/// Adds the pairs of a step with those among these that it follows, and that nothing puts before it.
fn add_pairs(pairs: &mut Vec<Pair>, steps: &[Taken], later: &Taken) -> Result<(), Memory> {
    let mut place = 0usize;
    for earlier in steps {
        let is_earlier = place < later.before.len();
        if is_earlier && earlier.hart != later.hart && !is_before(&later.before, place) {
            add_conflicts(pairs, earlier, later)?;
        }
        place = place.saturating_add(1);
    }
    Ok(())
}

/// Adds the pairs among the steps of a run.
fn add_all_pairs(pairs: &mut Vec<Pair>, steps: &[Taken]) -> Result<(), Memory> {
    for later in steps {
        add_pairs(pairs, steps, later)?;
    }
    Ok(())
}

/// A crew over a book that obeys a leg from boot.
fn crew_of(alloc: Global, image: &Image, leg: &PlannedLeg) -> Result<Crew<Replaying>, Memory> {
    let edges = leg.edges.copy()?;
    let inputs = leg.inputs.copy()?;
    let start = Machine::boot(alloc, image)?;
    let obeyed = Leg {
        ends: leg.ends,
        edges,
        inputs,
    };
    Ok(Crew::new(Book::<Replaying>::begin(alloc, start, obeyed)?))
}

/// The pairs of a run of the crew.
fn pairs_run(
    crew: &mut Crew<Replaying>,
    alloc: Global,
    leg: &PlannedLeg,
) -> Result<Vec<Pair>, Memory> {
    let mut steps = Vec::new(alloc);
    run(crew, alloc, leg, &mut steps)?;
    let mut pairs = Vec::new(alloc);
    add_all_pairs(&mut pairs, &steps)?;
    Ok(pairs)
}

/// What the leg comes to from boot.
pub fn outcome_of(alloc: Global, image: &Image, leg: &PlannedLeg) -> Result<Outcome, Memory> {
    let mut crew = crew_of(alloc, image, leg)?;
    let pairs = pairs_run(&mut crew, alloc, leg);
    let book = crew.end();
    let ended = book.counts() == leg.ends;
    let machine = book.into_machine();
    Ok(Outcome {
        pairs: pairs?,
        ended,
        machine,
    })
}
