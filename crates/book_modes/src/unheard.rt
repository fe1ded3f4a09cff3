//! The bells that a machine's harts rang, and that nobody heard yet.

ghost use Rattle.std.specs.Prelude.{◌≡◌, ◌≢◌, ◌<◌, ◌++◌, ℕ, [], length, replicate, slice_get, Some, OnOk, IfOk};
ghost use Rattle.rv32_hart.specs.Hart.{Hart as HartRecord};
ghost use Rattle.input_log.specs.declared.WaitingBell.{WaitingBell as bell_of_specs};
ghost use Rattle.book_modes.specs.machinery.Words.{bells_of, counts_of, others_of};
ghost use Rattle.book_modes.specs.Silences.{many_unheard, bell_from, unheard_from, unheard_bells};

use ft_types::{Count, HART_ROW, Hart, Memory};
use guest_image::Machine;
use input_log::Desk;
use std::alloc::Global;

/// How many bells that one hart rang for the other were not heard: none where more were heard than rung.
fn many_unheard(machine: &Machine, source: Hart, target: Hart) -> u64
    requires source { source < length machine.now.harts }
    requires target { target < length machine.now.harts }
    ensures value { result ≡ many_unheard machine.now source target }
    ensures row { (h : HartRecord) → slice_get machine.now.harts target ≡ Some h → length h.received.heard ≡ HART_ROW }
{
    let rung = machine.hart(source).rung()[target.index()];
    let heard = machine.hart(target).heard()[source.index()];
    rung.saturating_sub(heard)
}

/// Puts so many bells of one source on the desk.
fn put_many(
    desk: &mut Desk,
    target: Hart,
    source: Hart,
    after: Count,
    many: u64,
) -> Result<(), Memory>
    ensures bells { OnOk result (bells_of desk.new target ≡ bells_of desk.old target ++ replicate many (bell_from source after)) }
    ensures bells_of_others { (other : ℕ) → other ≢ target → bells_of desk.new other ≡ bells_of desk.old other }
    ensures others { (other : ℕ) → others_of desk.new other ≡ others_of desk.old other }
{
    for _bell in 0..many {
        desk.put_bell(target, source, after)?;
    }
    Ok(())
}

/// Puts on the desk the bells that nobody heard of one target, by rising source.
fn put_unheard(desk: &mut Desk, machine: &Machine, target: Hart) -> Result<(), Memory>
    requires { target < length machine.now.harts }
    ensures bells { OnOk result (bells_of desk.new target ≡ bells_of desk.old target ++ unheard_from machine.now target (length machine.now.harts)) }
    ensures bells_of_others { (other : ℕ) → other ≢ target → bells_of desk.new other ≡ bells_of desk.old other }
    ensures others { (other : ℕ) → others_of desk.new other ≡ others_of desk.old other }
    ensures row { OnOk result ((h : HartRecord) → slice_get machine.now.harts target ≡ Some h → length h.received.heard ≡ HART_ROW) }
{
    for number in 0..machine.harts() {
        let source = Hart::new(number);
        let many = many_unheard(machine, source, target);
        put_many(desk, target, source, machine.hart(source).count(), many)?;
    }
    Ok(())
}

/// A desk where the bells wait that this machine's harts rang, and that nobody heard. Each hart counts the bells of `HART_LIMIT`.
pub(crate) fn desk_of(alloc: Global, machine: &Machine) -> Result<Desk, Memory>
    ensures bells { IfOk result (λ d. (target : ℕ) → bells_of d target ≡ unheard_bells machine.now target) }
    ensures others { IfOk result (λ d. (target : ℕ) → others_of d target ≡ []) }
    ensures rows { OnOk result ((hart : ℕ) (h : HartRecord) → slice_get machine.now.harts hart ≡ Some h → length h.received.heard ≡ HART_ROW) }
{
    let mut desk = Desk::new(alloc);
    for number in 0..machine.harts() {
        put_unheard(&mut desk, machine, Hart::new(number))?;
    }
    Ok(desk)
}
