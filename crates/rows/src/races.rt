//! Keepers and a gate on threads of their own, over one board.

ghost use Rattle.std.specs.Prelude.{◌≡◌, ℕ, IfOk};
ghost use Rattle.ack_core.specs.Seats.{term_of, harts_of, keepers_of, IsKeeperOf, IsGateOf};
ghost use Rattle.output_gate.specs.Gates.{noted_at};
ghost use Rattle.output_gate.specs.Looks.{IsSeen};
ghost use Rattle.rows.specs.machinery.Made.{IsOfTwo};

use crate::boards::{desk, position};
use crate::gates::offer_all;
use ack_core::{Board, GateSeat, KeeperSeat};
use ft_types::{Hart, Keeper, Memory};
use output_gate::Gate;
use std::alloc::Global;
use std::result::Result;
use std::thread;
use std::thread::Threads;

/// How often each of two keepers publishes.
const ROUNDS: u32 = 50_000;

/// Publishes one position after another: the first hart's counts are even, the second's are a third more.
fn acknowledge(board: &Board, mut seat: KeeperSeat) -> KeeperSeat
    requires { IsKeeperOf board.now seat × (harts_of board.now ≡ 2) }
    ensures { IsKeeperOf board.now result }
{
    for round in 1..=ROUNDS {
        let _ = board.publish(&mut seat, &position(1, round * 2, round * 3));
    }
    seat
}

/// How often a count fell, or was one that nobody published.
fn watch(board: &Board, mut gate: GateSeat) -> (GateSeat, u64)
    requires { IsGateOf board.now gate × (keepers_of board.now ≡ 2) × (harts_of board.now ≡ 2) }
    ensures { IsGateOf board.now result.0 }
{
    let mut wrong = 0u64;
    let mut last = [0u64; 2];
    for round in 0..ROUNDS {
        let number = (round % 2) as u8;
        let count = board.see(&mut gate, Keeper::new(number), Hart::new(0));
        if count < last[number as usize] || count % 2 != 0 || count > u64::from(ROUNDS) * 2 {
            wrong = wrong.wrapping_add(1);
        }
        last[number as usize] = count;
    }
    (gate, wrong)
}

fn both<R: Threads + Sync>(
    rt: &R,
    board: &Board,
    first: KeeperSeat,
    second: KeeperSeat,
) -> (KeeperSeat, KeeperSeat)
    requires { IsKeeperOf board.now first × IsKeeperOf board.now second × (harts_of board.now ≡ 2) }
    ensures { IsKeeperOf board.now result.0 × IsKeeperOf board.now result.1 }
{
    thread::join(
        rt,
        move ||
            requires { IsKeeperOf board.now first × (harts_of board.now ≡ 2) }
            ensures { IsKeeperOf board.entry.now result }
        { acknowledge(board, first) },
        move ||
            requires { IsKeeperOf board.now second × (harts_of board.now ≡ 2) }
            ensures { IsKeeperOf board.entry.now result }
        { acknowledge(board, second) },
    )
}

fn race<R: Threads + Sync>(
    rt: &R,
    board: &Board,
    first: KeeperSeat,
    second: KeeperSeat,
    gate: GateSeat,
) -> (KeeperSeat, KeeperSeat, GateSeat, u64)
    requires { IsKeeperOf board.now first × IsKeeperOf board.now second × IsGateOf board.now gate × (keepers_of board.now ≡ 2) × (harts_of board.now ≡ 2) }
    ensures { IsKeeperOf board.now result.0 × IsKeeperOf board.now result.1 × IsGateOf board.now result.2 }
{
    let ((first, second), (gate, wrong)) = thread::join(
        rt,
        move ||
            requires { IsKeeperOf board.now first × IsKeeperOf board.now second × (harts_of board.now ≡ 2) }
            ensures { IsKeeperOf board.entry.now result.0 × IsKeeperOf board.entry.now result.1 }
        { both(rt, board, first, second) },
        move ||
            requires { IsGateOf board.now gate × (keepers_of board.now ≡ 2) × (harts_of board.now ≡ 2) }
            ensures { IsGateOf board.entry.now result.0 }
        { watch(board, gate) },
    );
    (first, second, gate, wrong)
}

/// What is seen in the end: of the first keeper's first hart and the second one's second, and of the first hart of each with its seat at hand.
fn seen_last(
    board: &Board,
    gate: &mut GateSeat,
    first: &mut KeeperSeat,
    second: &mut KeeperSeat,
) -> [u64; 4]
    requires board { IsOfTwo board.now }
    requires seats { IsKeeperOf board.now first.old × IsKeeperOf board.now second.old × IsGateOf board.now gate.old }
{
    [
        board.see(gate, Keeper::new(0), Hart::new(0)),
        board.see(gate, Keeper::new(1), Hart::new(1)),
        board.see_beside(gate, first, Hart::new(0)),
        board.see_beside(gate, second, Hart::new(0)),
    ]
}

/// Whether nothing wrong was seen, and in the end what was published last.
fn is_seen_last(
    board: &Board,
    gate: &mut GateSeat,
    first: &mut KeeperSeat,
    second: &mut KeeperSeat,
) -> bool
    requires board { IsOfTwo board.now }
    requires seats { IsKeeperOf board.now first.old × IsKeeperOf board.now second.old × IsGateOf board.now gate.old }
{
    let (twice, thrice) = (u64::from(ROUNDS) * 2, u64::from(ROUNDS) * 3);
    seen_last(board, gate, first, second) == [twice, thrice, twice, twice]
}

#[test]
fn keepers_and_a_gate_share_a_board(rt: HostRuntime) -> Result<(), Memory> {
    let (board, first, second, gate) = desk(rt.alloc())?;
    let (mut first, mut second, mut gate, wrong) = race(&rt, &board, first, second, gate);
    assert!(rt; wrong == 0);
    assert!(rt; is_seen_last(&board, &mut gate, &mut first, &mut second));
    Ok(())
}

/// How many outputs come out, by one look after another.
fn look_on(
    alloc: Global,
    board: &Board,
    mut gate: Gate,
    mut seat: GateSeat,
) -> (Gate, GateSeat, usize)
    requires board { (term_of board.now ≡ gate.term) × (keepers_of board.now ≡ gate.keepers) }
    requires seat { IsGateOf board.now seat × ((keeper hart : ℕ) → noted_at gate keeper hart ≡ 0) }
    ensures board { (term_of board.now ≡ result.0.term) × (keepers_of board.now ≡ result.0.keepers) }
    ensures seat { IsGateOf board.now result.1 × IsSeen board.now result.0 result.1 }
{
    let mut released = 0usize;
    for _ in 0..1000 {
        if let Ok(given) = gate.look(alloc, board, &mut seat) {
            released = released.saturating_add(given.len());
        }
    }
    (gate, seat, released)
}

fn publish_and_look<R: Threads + Sync>(
    rt: &R,
    alloc: Global,
    board: &Board,
    keeper: KeeperSeat,
    gate: Gate,
    seat: GateSeat,
) -> Result<(Gate, usize, usize), Memory>
    requires board { (term_of board.now ≡ gate.term) × (keepers_of board.now ≡ gate.keepers) × (harts_of board.now ≡ 2) }
    requires seats { IsKeeperOf board.now keeper × IsGateOf board.now seat × ((keeper hart : ℕ) → noted_at gate keeper hart ≡ 0) }
{
    let (_keeper, (mut gate, mut seat, released)) = thread::join(
        rt,
        move ||
            requires { IsKeeperOf board.now keeper × (harts_of board.now ≡ 2) }
            ensures { IsKeeperOf board.entry.now result }
        { acknowledge(board, keeper) },
        move ||
            requires { (term_of board.now ≡ gate.term) × (keepers_of board.now ≡ gate.keepers)
                × IsGateOf board.now seat × ((keeper hart : ℕ) → noted_at gate keeper hart ≡ 0) }
            ensures { (term_of board.entry.now ≡ result.0.term) × (keepers_of board.entry.now ≡ result.0.keepers)
                × IsGateOf board.entry.now result.1 × IsSeen board.entry.now result.0 result.1 }
        { look_on(alloc, board, gate, seat) },
    );
    let last = gate.look(alloc, board, &mut seat)?;
    Ok((gate, released, last.len()))
}

/// A gate of two keepers, of which one is enough, with four outputs.
fn four_outputs(alloc: Global) -> Result<Gate, Memory>
    ensures parts { IfOk result (λ gate. (gate.term ≡ 1) × (gate.keepers ≡ 2)) }
    ensures noted { IfOk result (λ gate. (keeper hart : ℕ) → noted_at gate keeper hart ≡ 0) }
{
    let mut gate = Gate::new(alloc, 1, 2, 1);
    offer_all(&mut gate, &[(0, 1), (0, 50_000), (0, 99_999), (0, 100_000)])?;
    Ok(gate)
}

/// Whether three of four outputs came out, and one keeper is counted above the step of the third.
fn is_seen_to(gate: &Gate, released: usize) -> bool {
    released == 3 && gate.kept() == 1 && gate.counted(Hart::new(0), 99_999).len() == 1
}

#[test]
fn a_gate_looks_while_a_keeper_publishes(rt: HostRuntime) -> Result<(), Memory> {
    let (board, _first, keeper, seat) = desk(rt.alloc())?;
    let gate = four_outputs(rt.alloc())?;
    let (gate, released, last) = publish_and_look(&rt, rt.alloc(), &board, keeper, gate, seat)?;
    assert!(rt; is_seen_to(&gate, released.saturating_add(last)));
    Ok(())
}
