//! One step of a primary's hart.

ghost use Rattle.std.specs.Prelude.{◌≡◌, ◌<◌, ◌≤◌, ◌+◌, ◌++◌, ℕ, List, None, false, length, OnOk, OnErr, IfErr};
ghost use Rattle.ft_types.specs.Counts.{count_at};
ghost use Rattle.hart_lease.specs.declared.stretch.Stretch.{Stretch};
ghost use Rattle.hart_lease.specs.Runs.{counts_of};
ghost use Rattle.page_book.specs.Tellings.{TellsOn};
ghost use Rattle.lease_rounds.specs.Running.{IsIdle};
ghost use Rattle.lease_rounds.specs.Steps.{AreWithin, HasStepped, HoldsNothing, IsUnmoved, IsRefused, RefusesStep, Runs};

use crate::rounds::go;
use ft_types::{Counts, Hart, Memory};
use page_book::{Book, BookFault, Keep, Recording};
use std::alloc::Global;
use std::result::Result;

/// Lets the hart, which runs, go on to a limit that is one above its count. The limits are then what they were.
fn go_once(
    alloc: Global,
    book: &mut Book<Recording>,
    hart: Hart,
    once: Counts,
) -> Result<(), Memory>
    requires hart { hart < length book.old.machine.harts }
    requires idle { IsIdle book.old }
    requires within { AreWithin book.old }
    requires runs { Runs book.old hart }
    requires below { counts_of book.old.machine hart < count_at book.old.mode.limits hart }
    requires harts { length once ≡ length book.old.machine.harts }
    requires settled { (other : ℕ) → counts_of book.old.machine other ≤ count_at once other }
    requires one { count_at once hart ≡ counts_of book.old.machine hart + 1 }
    ensures stepped { OnOk result (HasStepped hart book.old book.new) }
    ensures within { OnOk result (AreWithin book.new) }
    ensures rights { OnOk result (HoldsNothing book.new hart) }
    ensures unmoved { OnErr result (IsUnmoved hart book.old book.new) }
{
    let limits = book.limits();
    book.limit_at(once);
    let went = go(alloc, book, hart, Keep::Nothing);
    book.limit_at(limits);
    match went {
        Ok(true) => Ok(()),
        Ok(false) => unreachable!(),
        Err(Memory) => Err(Memory),
    }
}

/// Takes one step of the hart, which keeps no rights, and settles it. Where it is refused no step is taken.
pub fn take_step(alloc: Global, book: &mut Book<Recording>, hart: Hart) -> Result<(), BookFault>
    requires hart { hart < length book.old.machine.harts }
    requires idle { IsIdle book.old }
    requires within { AreWithin book.old }
    ensures stepped { OnOk result (HasStepped hart book.old book.new) }
    ensures rights { OnOk result (HoldsNothing book.new hart) }
    ensures open { OnOk result (IsRefused book.old hart None) }
    ensures refused { IfErr result (λ fault. RefusesStep book.old hart fault) }
    ensures unmoved { OnErr result (IsUnmoved hart book.old book.new) }
    // In either case:
    ensures idle { IsIdle book.new }
    ensures within { AreWithin book.new }
    ensures start { book.new.start ≡ book.old.start }
    ensures journal { (more : List Stretch) × (book.new.journal ≡ book.old.journal ++ more) }
    ensures comes { TellsOn book.old book.new }
{
    let state = book.machine().hart(hart);
    if state.is_halted() {
        return Err(BookFault::Halted);
    }
    let count = state.count();
    if count >= book.limits().get(hart) {
        return Err(BookFault::AtLimit);
    }
    let mut once = book.counts();
    once.set(hart, count + 1);
    match go_once(alloc, book, hart, once) {
        Ok(()) => Ok(()),
        Err(Memory) => Err(BookFault::Memory),
    }
}
