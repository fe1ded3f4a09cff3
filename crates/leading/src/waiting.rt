//! Whether a machine only waits. This steers alone: no promise leans on it.

ghost use Rattle.std.specs.Prelude.{◌≡◌, ◌↔◌, ◌<◌, ◌⊎◌, ℕ, Some, true, false, length, map, slice_get, slice_index, IfOk, IsTrue};
ghost use Rattle.rv32_hart.specs.Hart.{Hart as HartRecord};
ghost use Rattle.rv32_hart.specs.Ram.{may_write};
ghost use Rattle.hart_lease.specs.Slots.{ram_of};
ghost use Rattle.hart_lease.specs.declared.lease_pages.Slot.TheVariants.{Readable};
ghost use Rattle.leading.specs.Waiting.{GoesRound, HasHeardAll, OnlyWaits, StandsAgain, TakesStep, Waits, only_read};

use ft_types::{COUNT_LIMIT, Hart, Memory, PageNo};
use guest_image::{Machine, SharedPage};
use hart_lease::{LeasePages, Slot};
use rv32_hart::{HartState, Tick, tick};
use std::alloc::Global;
use std::result::Result;
use std::sync::Arc;

/// How many steps a loop has in which a hart is found to wait, at the most.
const LOOP: usize = 64;

/// Whether a hart stands where it stood: nothing of it is another but its count.
fn stands_again(then: &HartState, now: &HartState) -> bool
    ensures { IsTrue result ↔ StandsAgain then.now now.now }
{
    if then.pc() != now.pc() || then.is_halted() != now.is_halted() {
        return false;
    }
    if then.registers() != now.registers() || then.csr_words() != now.csr_words() {
        return false;
    }
    if then.device_words() != now.device_words() {
        return false;
    }
    then.rung() == now.rung() && then.heard() == now.heard()
}

/// Whether the hart takes one more step, where it writes no page and puts nothing out.
fn goes_on(state: &mut HartState, pages: &mut LeasePages) -> bool
    requires { (page : ℕ) → may_write (ram_of pages.old) page ≡ false }
    ensures goes { result ≡ true → TakesStep (ram_of pages.old) state.old state.new }
    ensures stuck { result ≡ false → (k : HartRecord) → TakesStep (ram_of pages.old) state.old k → ⊥ }
    ensures pages { ram_of pages.new ≡ ram_of pages.old }
{
    if state.count() >= COUNT_LIMIT - 1 {
        return false;
    }
    match tick(state, &[], pages) {
        Tick::Done => state.outputs().is_empty(),
        _ => false,
    }
}

/// The pages of a machine as they stand, each to be read alone.
fn pages_of(alloc: Global, machine: &Machine) -> Result<LeasePages, Memory>
    ensures { IfOk result (λ pages. pages ≡ map (λ bytes. Readable bytes) machine.now.pages) }
{
    let mut pages = LeasePages::missing(alloc, machine.pages())?;
    for number in 0..machine.pages() {
        let page = PageNo::new(number);
        let part = SharedPage::new(Arc::try_clone(machine.page(page))?);
        let _missing = pages.put(page, Slot::Readable(part));
    }
    Ok(pages)
}

/// Whether a hart comes to where it stands by so many steps that write no page and put nothing out.
fn goes_round(stand: &HartState, pages: &mut LeasePages) -> bool
    requires { (page : ℕ) → may_write (ram_of pages.old) page ≡ false }
    ensures round { IsTrue result ↔ GoesRound (ram_of pages.old) stand.now }
    ensures pages { ram_of pages.new ≡ ram_of pages.old }
{
    let mut state = stand.without_outputs();
    for _step in 0..LOOP {
        if !goes_on(&mut state, pages) {
            return false;
        }
        if stands_again(stand, &state) {
            return true;
        }
    }
    false
}

/// Whether the hart is halted, or goes round.
fn comes_round(stand: &HartState, pages: &mut LeasePages) -> bool
    requires { (page : ℕ) → may_write (ram_of pages.old) page ≡ false }
    ensures round { IsTrue result ↔ ((stand.now.halted ≡ true) ⊎ GoesRound (ram_of pages.old) stand.now) }
    ensures pages { ram_of pages.new ≡ ram_of pages.old }
{
    stand.is_halted() || goes_round(stand, pages)
}

/// Whether a hart that heard so many bells of another one has heard all that were rung for it.
fn has_heard(source: &HartState, hart: Hart, heard: u64) -> bool
    ensures { IsTrue result ↔ (slice_index source.now.rung hart ≡ heard) }
{
    source.rung()[hart.index()] == heard
}

/// Whether the hart has heard each bell that was rung for it.
fn has_heard_all(machine: &Machine, hart: Hart, state: &HartState) -> bool
    ensures { IsTrue result ↔ HasHeardAll machine.now hart state.now }
{
    let heard = state.heard();
    for number in 0..machine.harts() {
        let source = machine.hart(Hart::new(number));
        let bells = heard[usize::from(number)];
        if !has_heard(source, hart, bells) {
            return false;
        }
    }
    true
}

/// Whether a hart of the machine only waits.
fn waits(machine: &Machine, hart: Hart, pages: &mut LeasePages) -> bool
    requires hart { hart < length machine.now.harts }
    requires pages { ram_of pages.old ≡ only_read machine.now }
    ensures waits { (h : HartRecord) → slice_get machine.now.harts hart ≡ Some h → IsTrue result ↔ Waits machine.now hart h }
    ensures pages { ram_of pages.new ≡ ram_of pages.old }
{
    let state = machine.hart(hart);
    has_heard_all(machine, hart, state) && comes_round(state, pages)
}

/// Whether the machine only waits: each hart has heard all bells, and comes to where it stands by steps that write no page, or is halted. The same steps may
/// come again for ever, unless an input comes. They are taken by a copy of the hart, so a look neither costs much nor leaves anything.
pub(crate) fn only_waits(alloc: Global, machine: &Machine) -> Result<bool, Memory>
    ensures { IfOk result (λ waits. IsTrue waits ↔ OnlyWaits machine.now) }
{
    let mut pages = pages_of(alloc, machine)?;
    for number in 0..machine.harts() {
        if !waits(machine, Hart::new(number), &mut pages) {
            return Ok(false);
        }
    }
    Ok(true)
}
