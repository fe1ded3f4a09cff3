//! The board, by calls.

ghost use Rattle.std.specs.Prelude.{◌≡◌, ◌<◌, length, IfOk};
ghost use Rattle.ack_core.specs.Seats.{IsKeeperOf, IsGateOf};
ghost use Rattle.rows.specs.machinery.Made.{AreKeepersOf, IsOfTwo};

use ack_core::{AckFault, Board, GateSeat, KeeperSeat};
use ft_types::{Counts, Hart, Keeper, Memory, Position, Term};
use std::alloc::Global;
use std::result::Result;

/// A board of term 1, two harts and two keepers, with the seats.
pub type Desk = (Board, KeeperSeat, KeeperSeat, GateSeat);

/// The last of the seats.
fn last_seat(board: &Board, seats: &mut Vec<KeeperSeat>) -> Result<KeeperSeat, Memory>
    requires { AreKeepersOf board.now seats.old.items }
    ensures seat { IfOk result (λ seat. IsKeeperOf board.now seat) }
    ensures rest { AreKeepersOf board.now seats.new.items }
{
    match seats.pop() {
        Some(seat) => Ok(seat),
        None => Err(Memory),
    }
}

/// A desk.
pub fn desk(alloc: Global) -> Result<Desk, Memory>
    ensures board { IfOk result (λ r. IsOfTwo r.0) }
    ensures first { IfOk result (λ r. IsKeeperOf r.0 r.1) }
    ensures second { IfOk result (λ r. IsKeeperOf r.0 r.2) }
    ensures gate { IfOk result (λ r. IsGateOf r.0 r.3) }
{
    let (board, mut seats, gate) = Board::new(alloc, 1, 2, 2)?;
    let second = last_seat(&board, &mut seats)?;
    let first = last_seat(&board, &mut seats)?;
    Ok((board, first, second, gate))
}

/// A position of two harts.
pub fn position(term: Term, first: u32, second: u32) -> Position
    ensures { length result.counts ≡ 2 }
{
    let mut counts = Counts::zero(2);
    counts.set(Hart::new(0), u64::from(first));
    counts.set(Hart::new(1), u64::from(second));
    Position {
        term,
        counts,
        top: term,
    }
}

/// The number of what a publication told: 0, 1 where it is lower than the one before, 2 where it is of another term.
pub fn told(answer: Result<(), AckFault>) -> u64 {
    match answer {
        Ok(()) => 0,
        Err(AckFault::Lower) => 1,
        Err(AckFault::OtherTerm) => 2,
    }
}

/// What comes of a publication of a position.
pub fn publish(board: &Board, seat: &mut KeeperSeat, term: Term, first: u32, second: u32) -> u64
    requires board { IsOfTwo board.now }
    requires seat { IsKeeperOf board.now seat.old }
    ensures { IsKeeperOf board.now seat.new }
{
    told(board.publish(seat, &position(term, first, second)))
}

/// What is seen of a keeper's first hart.
fn see(board: &Board, gate: &mut GateSeat, keeper: u8) -> u64
    requires board { IsOfTwo board.now }
    requires keeper { keeper < 2 }
    requires gate { IsGateOf board.now gate.old }
    ensures { IsGateOf board.now gate.new }
{
    board.see(gate, Keeper::new(keeper), Hart::new(0))
}

/// What is seen of its second hart with its own seat at hand.
fn see_beside(board: &Board, gate: &mut GateSeat, seat: &mut KeeperSeat) -> u64
    requires board { IsOfTwo board.now }
    requires keeper { IsKeeperOf board.now seat.old }
    requires gate { IsGateOf board.now gate.old }
    ensures { IsGateOf board.now gate.new }
{
    board.see_beside(gate, seat, Hart::new(1))
}

/// The first keeper publishes 5 and 7: what is seen of it before and after.
fn sees(board: &Board, seat: &mut KeeperSeat, gate: &mut GateSeat) -> [u64; 4]
    requires board { IsOfTwo board.now }
    requires seats { IsKeeperOf board.now seat.old × IsGateOf board.now gate.old }
{
    let before = see(board, gate, 0);
    let published = publish(board, seat, 1, 5, 7);
    let beside = see_beside(board, gate, seat);
    [before, published, beside, see(board, gate, 0)]
}

/// It publishes a lower position and one of another term behind it: what is told, and its last count.
fn refuses(board: &Board, seat: &mut KeeperSeat, gate: &mut GateSeat) -> [u64; 4]
    requires board { IsOfTwo board.now }
    requires seats { IsKeeperOf board.now seat.old × IsGateOf board.now gate.old }
{
    let first = publish(board, seat, 1, 5, 7);
    let lower = publish(board, seat, 1, 4, 9);
    let other = publish(board, seat, 2, 6, 9);
    [first, lower, other, board.beside(gate, seat, Hart::new(0))]
}

/// The second keeper publishes 5 and 0: what is seen of it, and of the first.
fn tells_apart(board: &Board, seat: &mut KeeperSeat, gate: &mut GateSeat) -> [u64; 4]
    requires board { IsOfTwo board.now }
    requires seats { IsKeeperOf board.now seat.old × IsGateOf board.now gate.old }
{
    let published = publish(board, seat, 1, 5, 0);
    let right = see_beside(board, gate, seat);
    let first = see(board, gate, 0);
    [published, right, first, see(board, gate, 1)]
}

/// Calls, each on a board of its own.
#[derive(Drop)]
enum Calls {
    Sees,
    Refuses,
    TellsApart,
}

/// What these calls answer.
fn made(alloc: Global, calls: Calls) -> Result<[u64; 4], Memory> {
    let (board, mut first, mut second, mut gate) = desk(alloc)?;
    Ok(match calls {
        Calls::Sees => sees(&board, &mut first, &mut gate),
        Calls::Refuses => refuses(&board, &mut first, &mut gate),
        Calls::TellsApart => tells_apart(&board, &mut second, &mut gate),
    })
}

/// Whether all answer as they do.
fn all_answer(alloc: Global) -> Result<bool, Memory> {
    Ok(
        made(alloc, Calls::Sees)? == [0, 0, 7, 5]
            && made(alloc, Calls::Refuses)? == [0, 1, 2, 5]
            && made(alloc, Calls::TellsApart)? == [0, 0, 0, 5],
    )
}

#[test]
fn a_board_shows_what_was_published(rt: HostRuntime) -> Result<(), Memory> {
    let right = match all_answer(rt.alloc()) {
        Err(Memory) => all_answer(rt.alloc())?,
        Ok(right) => right,
    };
    assert!(rt; right);
    Ok(())
}
