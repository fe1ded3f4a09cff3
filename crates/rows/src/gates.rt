//! The gate and a term's gate, by calls.

ghost use Rattle.std.specs.Prelude.{◌≡◌, ◌<◌, ℕ, length};
ghost use Rattle.ack_core.specs.Seats.{IsGateOf};
ghost use Rattle.output_gate.specs.Gates.{noted_at};
ghost use Rattle.rows.specs.machinery.Made.{IsOfTwo, IsOfThree};

use crate::boards::{desk, position, publish, told};
use crate::tables::{all_right, number, row, word};
use ack_core::{Board, GateSeat};
use ft_types::{Count, Counts, HART_LIMIT, Hart, Keeper, Memory, Position};
use output_gate::{Gate, Output, outputs_go_in_order};
use std::alloc::Global;
use std::result::Result;
use term_gate::TermGate;

/// An output of a hart, by its number and its step.
fn output(hart: Hart, number: usize, step: Count) -> Output
    ensures { result ≡ record { hart = hart; number = number; step = step; word = 7 } }
{
    Output {
        hart,
        number: number as u64,
        step,
        word: 7,
    }
}

/// Whether these outputs are given, each told by its hart, its number and its step.
fn are_given(given: &[Output], told: &str) -> bool {
    let mut rest = told;
    for output in given {
        let (hart, behind) = word(rest);
        let (place, behind) = word(behind);
        let (step, behind) = word(behind);
        let same_hart = u64::from(output.hart.number()) == number(hart);
        if !same_hart || output.number != number(place) || output.step != number(step) {
            return false;
        }
        rest = behind;
    }
    rest.is_empty()
}

/// Offers a hart's output at a step, by the hart's next number.
fn offer(gate: &mut Gate, number: u8, step: Count) -> Result<(), Memory>
    ensures { gate.new ≡ record gate.old { lines = gate.new.lines } }
{
    let hart = Hart::new(number % HART_LIMIT);
    let next = output(hart, gate.offered(hart), step);
    gate.offer(next)
}

/// Offers outputs of harts, each at a step.
pub fn offer_all(gate: &mut Gate, outputs: &[(u8, Count)]) -> Result<(), Memory>
    ensures { gate.new ≡ record gate.old { lines = gate.new.lines } }
{
    for (number, step) in outputs {
        offer(gate, *number, *step)?;
    }
    Ok(())
}

/// Notes a count of a keeper and the first hart.
fn note(gate: &mut Gate, keeper: Keeper, count: Count)
    requires { keeper < gate.old.keepers }
    ensures { gate.new.keepers ≡ gate.old.keepers }
{
    gate.note(keeper, Hart::new(0), count);
}

/// Notes these counts of the first hart, one of each of three keepers.
fn note_all(gate: &mut Gate, counts: &str)
    requires { gate.old.keepers ≡ 3 }
    ensures { gate.new.keepers ≡ 3 }
{
    let (first, behind) = word(counts);
    let (second, third) = word(behind);
    note(gate, Keeper::new(0), number(first));
    note(gate, Keeper::new(1), number(second));
    note(gate, Keeper::new(2), number(third));
}

/// Whether so many are kept, and these given.
fn is_left(kept: usize, given: &[Output], answer: &str) -> bool {
    let (left, told) = word(answer);
    kept as u64 == number(left) && are_given(given, told)
}

/// Whether a release keeps so many, and gives this.
fn releases(alloc: Global, gate: &mut Gate, answer: &str) -> Result<bool, Memory>
    ensures { gate.new.keepers ≡ gate.old.keepers }
{
    let given = gate.release(alloc)?;
    Ok(is_left(gate.kept(), given.as_slice(), answer))
}

/// Which keepers are counted above a step of the first hart, each a bit, and how many.
fn counted(gate: &Gate, step: Count) -> (u8, usize) {
    outputs_go_in_order(gate);
    let counted = gate.counted(Hart::new(0), step);
    let mut bits = 0u8;
    for number in 0..5u8 {
        if counted.contains(Keeper::new(number)) {
            bits |= 1 << number;
        }
    }
    (bits, counted.len())
}

/// A gate of three keepers, of which two are needed, that passes over the first hart's outputs below a mark.
fn marked(alloc: Global, mark: Count) -> Gate
    ensures { result.keepers ≡ 3 }
{
    let mut marks = Counts::zero(1);
    marks.set(Hart::new(0), mark % 100);
    Gate::new_after(alloc, 1, 3, 2, &marks)
}

/// Whether a gate does this: `offer STEP` of the first hart; `new`, and `after MARK`, which begin another gate; `end`, where the first and
/// the last keeper alone are counted above step 9; or what three keepers are noted to hold of the first hart, and then how many outputs a
/// release keeps, and which it gives.
fn does(alloc: Global, gate: &mut Gate, asked: &str, answer: &str) -> Result<bool, Memory>
    requires { gate.old.keepers ≡ 3 }
    ensures { gate.new.keepers ≡ 3 }
{
    let (call, behind) = word(asked);
    match call {
        "offer" => offer(gate, 0, number(behind))?,
        "new" => *gate = Gate::new(alloc, 1, 3, 2),
        "after" => *gate = marked(alloc, number(behind)),
        "end" => return Ok(counted(gate, 9) == (5, 2)),
        _ => {
            note_all(gate, asked);
            return releases(alloc, gate, answer);
        }
    }
    Ok(true)
}

/// The first row that goes otherwise.
fn first_wrong(
    alloc: Global,
    gate: &mut Gate,
    rows: &'static str,
) -> Result<Option<&'static str>, Memory>
    requires { gate.old.keepers ≡ 3 }
{
    for line in rows.lines() {
        let (asked, answer) = row(line);
        if !does(alloc, gate, asked, answer)? {
            return Ok(Some(line));
        }
    }
    Ok(None)
}

fn goes_wrong(alloc: Global) -> Result<Option<&'static str>, Memory> {
    let mut gate = Gate::new(alloc, 1, 3, 2);
    first_wrong(alloc, &mut gate, RELEASES)
}

/// The output goes out once the second keeper holds it, and not again. Of three outputs the first has the latest step, and the second the
/// earliest: they go out one by one, and the last two at once by their numbers. Then the first of two outputs is known to be out: it is
/// never given.
static RELEASES: &str = "\
offer 9|
10 9 9|1
10 9 12|0 0 0 9
0 0 0|0
end|
new|
offer 9|
offer 5|
offer 7|
5 0 9|3
6 0 9|2 0 1 5
8 0 9|1 0 2 7
10 0 10|0 0 0 9
end|
new|
offer 9|
offer 5|
offer 7|
8 8 0|1 0 1 5 0 2 7
10 8 11|0 0 0 9
end|
after 1|
offer 4|
offer 6|
10 5 6|2
10 7 12|1 0 1 6
0 0 0|1
end|
";

/// Whether a gate of three outputs that looks gives this and keeps so many. Where the look is refused memory it keeps all, its
/// notes stand, and a release without a further look gives what the look would have given.
fn gives(
    alloc: Global,
    gate: &mut Gate,
    board: &Board,
    seat: &mut GateSeat,
    answer: &str,
) -> Result<bool, Memory>
    requires board { IsOfTwo board.now × IsGateOf board.now seat.old }
    requires parts { (gate.old.term ≡ 1) × (gate.old.keepers ≡ 2) }
    requires noted { (keeper hart : ℕ) → noted_at gate.old keeper hart ≡ 0 }
{
    match gate.look(alloc, board, seat) {
        Ok(given) => Ok(is_left(gate.kept(), given.as_slice(), answer)),
        Err(Memory) if gate.kept() == 3 => releases(alloc, gate, answer),
        Err(Memory) => Ok(false),
    }
}

/// Whether the gate is offered three outputs, looks, and keeps so many and gives this; and one keeper is counted above step 5 of the first
/// hart then.
fn looked(
    alloc: Global,
    gate: &mut Gate,
    board: &Board,
    seat: &mut GateSeat,
    answer: &str,
) -> Result<bool, Memory>
    requires board { IsOfTwo board.now × IsGateOf board.now seat.old }
    requires parts { (gate.old.term ≡ 1) × (gate.old.keepers ≡ 2) }
    requires noted { (keeper hart : ℕ) → noted_at gate.old keeper hart ≡ 0 }
{
    offer_all(gate, &[(0, 4), (0, 6), (1, 3)])?;
    Ok(gives(alloc, gate, board, seat, answer)? && counted(gate, 5).1 == 1)
}

/// The same of a gate of two keepers, of which both are needed.
fn looked_by_both(
    alloc: Global,
    board: &Board,
    seat: &mut GateSeat,
    answer: &str,
) -> Result<bool, Memory>
    requires { IsOfTwo board.now × IsGateOf board.now seat.old }
{
    let mut gate = Gate::new(alloc, 1, 2, 2);
    looked(alloc, &mut gate, board, seat, answer)
}

/// One keeper publishes, or both do, and the gate looks: whether it keeps so many and gives this.
fn looks(alloc: Global, both: bool, answer: &str) -> Result<bool, Memory> {
    let (board, mut first, mut second, mut seat) = desk(alloc)?;
    let _published = publish(&board, &mut first, 1, 7, 7);
    if both {
        let _published = publish(&board, &mut second, 1, 5, 4);
    }
    looked_by_both(alloc, &board, &mut seat, answer)
}

/// Where one alone publishes, the gate gives nothing; then it gives what is of steps that both hold.
fn both_look(alloc: Global) -> Result<bool, Memory> {
    Ok(looks(alloc, false, "3")? && looks(alloc, true, "1 0 0 4 1 0 3")?)
}

/// Offers a term's gate an output of the first hart at a step, by its next number.
fn offer_in_term(gate: &mut TermGate, step: Count) -> Result<(), Memory>
    requires { IsOfThree gate.old }
    ensures { IsOfThree gate.new }
{
    let hart = Hart::new(0);
    let next = output(hart, gate.offered(hart), step);
    gate.offer(next)
}

/// What comes of an acknowledgement of one of three keepers.
fn acknowledge(gate: &mut TermGate, number: u8, position: &Position) -> u64
    requires gate { IsOfThree gate.old }
    requires position { length position.now.counts ≡ 2 }
    ensures { IsOfThree gate.new }
{
    told(gate.acknowledge(Keeper::new(number % 3), position))
}

/// Whether a release keeps so many, and gives this.
fn term_releases(alloc: Global, gate: &mut TermGate, answer: &str) -> Result<bool, Memory>
    requires { IsOfThree gate.old }
    ensures { IsOfThree gate.new }
{
    let given = gate.release(alloc)?;
    Ok(is_left(gate.kept(), given.as_slice(), answer))
}

/// A keeper's acknowledgement, by its number, term and counts; what it tells; and how many a release keeps then and which it gives.
/// The third keeper's second position is lower, and the second keeper's is of another term.
static ACKNOWLEDGED: &str = "\
0 1 7 7|0 2
2 1 5 4|0 1 0 0 4
2 1 4 9|1 1
1 2 9 9|2 1
";

/// A small number.
fn small(text: &str) -> u32 {
    (number(text) % 100) as u32
}

/// The position of an acknowledgement.
fn position_of(told: &str) -> Position
    ensures { length result.counts ≡ 2 }
{
    let (term, behind) = word(told);
    let (first, second) = word(behind);
    position(small(term), small(first), small(second))
}

/// Whether the acknowledgement tells and releases what it says.
fn tells(alloc: Global, gate: &mut TermGate, asked: &str, answer: &str) -> Result<bool, Memory>
    requires { IsOfThree gate.old }
    ensures { IsOfThree gate.new }
{
    let (keeper, behind) = word(asked);
    let (says, left) = word(answer);
    let told = acknowledge(gate, (number(keeper) % 3) as u8, &position_of(behind));
    Ok(term_releases(alloc, gate, left)? && told == number(says))
}

/// The first acknowledgement that tells otherwise, behind two outputs.
fn first_untold(alloc: Global, gate: &mut TermGate) -> Result<Option<&'static str>, Memory>
    requires { IsOfThree gate.old }
{
    offer_in_term(gate, 4)?;
    offer_in_term(gate, 6)?;
    for line in ACKNOWLEDGED.lines() {
        let (asked, answer) = row(line);
        if !tells(alloc, gate, asked, answer)? {
            return Ok(Some(line));
        }
    }
    Ok(None)
}

/// The first at a term's gate of two harts and three keepers, of which two are needed.
fn acknowledged(alloc: Global) -> Result<Option<&'static str>, Memory> {
    let mut gate = TermGate::new(alloc, 1, 2, 3, 2, &Counts::zero(2))?;
    first_untold(alloc, &mut gate)
}

/// What gates do, all of it once more where memory was refused.
#[test]
fn gates(rt: HostRuntime) -> Result<(), Memory> {
    let wrong = match goes_wrong(rt.alloc()) {
        Err(Memory) => goes_wrong(rt.alloc())?,
        Ok(wrong) => wrong,
    };
    all_right(&rt, wrong);
    let looked = match both_look(rt.alloc()) {
        Err(Memory) => both_look(rt.alloc())?,
        Ok(looked) => looked,
    };
    assert!(rt; looked);
    let untold = match acknowledged(rt.alloc()) {
        Err(Memory) => acknowledged(rt.alloc())?,
        Ok(untold) => untold,
    };
    all_right(&rt, untold);
    Ok(())
}
