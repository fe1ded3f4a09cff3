//! A look at the board.

ghost use Rattle.std.specs.Prelude.{◌≡◌, ◌≢◌, ◌⊎◌, ℕ, ◌<◌, ◌≤◌, IfOk, OnOk, OnErr};
ghost use Rattle.std.specs.List.{AllByRecursion};
ghost use Rattle.std.specs.List.Sorted.{IsPermutation};
ghost use Rattle.ft_types.specs.declared.names.TheConstants.{HART_LIMIT};
ghost use Rattle.ack_core.specs.Lists.{StartsWith};
ghost use Rattle.ack_core.specs.Seats.{term_of, harts_of, keepers_of, heard, seen, IsGateOf};
ghost use Rattle.output_gate.specs.Gates.{noted_at, line_of, offered_of, after_release, held_outputs};
ghost use Rattle.output_gate.specs.Looks.{IsSeen, IsInside};
ghost use Rattle.output_gate.specs.Orders.{StepsRise, RiseByHart, AreAbove, AreEarlier};

use crate::gate::Gate;
use ack_core::{Board, GateSeat};
use ft_types::{Hart, Keeper, Memory, Output};
use std::alloc::Global;
use std::result::Result;

impl Gate {
    /// Sees and notes each hart's count of one keeper.
    fn see_keeper(&mut self, board: &Board, seat: &mut GateSeat, keeper: Keeper)
        requires fits { IsGateOf board.now seat.old }
        requires keeper { (keeper < keepers_of board.now) × (keepers_of board.now ≡ self.old.keepers) }
        requires below { (hart : ℕ) → hart < harts_of board.now → noted_at self.old keeper hart ≤ seen seat.old keeper hart }
        ensures fits { IsGateOf board.now seat.new }
        ensures noted { (hart : ℕ) → hart < harts_of board.now → noted_at self.new keeper hart ≡ seen seat.new keeper hart }
        ensures begins { (hart : ℕ) → hart < harts_of board.now → StartsWith (heard seat.new keeper hart) (heard seat.old keeper hart) }
        ensures others_seen { (k hart : ℕ) → hart < harts_of board.now → k ≢ keeper → heard seat.new k hart ≡ heard seat.old k hart }
        ensures others_noted { (k hart : ℕ) → (k ≢ keeper) ⊎ (harts_of board.now ≤ hart) → noted_at self.new k hart ≡ noted_at self.old k hart }
        ensures rest { self.new ≡ record self.old { noted = self.new.noted } }
    {
        for number in 0..board.harts() {
            let hart = Hart::new(number);
            let count = board.see(seat, keeper, hart);
            self.note(keeper, hart, count);
        }
    }

    /// Sees and notes each word.
    fn see_all(&mut self, board: &Board, seat: &mut GateSeat)
        requires fits { IsGateOf board.now seat.old }
        requires keepers { keepers_of board.now ≡ self.old.keepers }
        requires seen { IsSeen board.now self.old seat.old }
        ensures fits { IsGateOf board.now seat.new }
        ensures noted { (keeper hart : ℕ) → keeper < keepers_of board.now → hart < harts_of board.now →
            noted_at self.new keeper hart ≡ seen seat.new keeper hart }
        ensures begins { (keeper hart : ℕ) → keeper < keepers_of board.now → hart < harts_of board.now →
            StartsWith (heard seat.new keeper hart) (heard seat.old keeper hart) }
        ensures seen { IsSeen board.now self.new seat.new }
        ensures rest { self.new ≡ record self.old { noted = self.new.noted } }
    {
        for number in 0..board.keepers() {
            self.see_keeper(board, seat, Keeper::new(number));
        }
    }

    /// Sees and notes every word of the board, and then releases. Where memory is refused, it was seen and noted all the same.
    pub fn look(
        &mut self,
        alloc: Global,
        board: &Board,
        seat: &mut GateSeat,
    ) -> Result<Vec<Output>, Memory>
        requires board { (term_of board.now ≡ self.old.term) × (keepers_of board.now ≡ self.old.keepers) }
        requires seat { IsGateOf board.now seat.old }
        requires seen { IsSeen board.now self.old seat.old }
        ensures seat { IsGateOf board.now seat.new }
        ensures noted { (keeper hart : ℕ) → keeper < keepers_of board.now → hart < harts_of board.now →
            noted_at self.new keeper hart ≡ seen seat.new keeper hart }
        ensures heard { (keeper hart : ℕ) → keeper < keepers_of board.now → hart < harts_of board.now →
            StartsWith (heard seat.new keeper hart) (heard seat.old keeper hart) }
        ensures seen { IsSeen board.now self.new seat.new }
        ensures given { IfOk result (λ given. given.items ≡ held_outputs self.new.need self.new.noted self.old.lines) }
        ensures inside { IfOk result (λ given. AllByRecursion (IsInside board.now self.new seat.new) given.items) }
        ensures rising { IfOk result (λ given. RiseByHart given.items) }
        ensures above { IfOk result (λ given. AreAbove self.old given.items) }
        ensures lines { OnOk result ((hart : ℕ) → hart < HART_LIMIT → line_of self.new hart ≡ after_release self.new.need self.new.noted (line_of self.old hart)) }
        ensures same { OnOk result ((hart : ℕ) → hart < HART_LIMIT → IsPermutation (offered_of self.old hart) (offered_of self.new hart)) }
        ensures offered { OnOk result ((hart : ℕ) → hart < HART_LIMIT → StepsRise (offered_of self.old hart) →
            offered_of self.new hart ≡ offered_of self.old hart) }
        ensures earlier { IfOk result (λ given. AreEarlier given.items self.new) }
        ensures rest { self.new ≡ record self.old { noted = self.new.noted; lines = self.new.lines } }
        ensures err { OnErr result (self.new.lines ≡ self.old.lines) }
    {
        self.see_all(board, seat);
        self.release(alloc)
    }
}
