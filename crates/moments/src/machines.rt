//! Machines whose harts go step by step.

ghost use Rattle.std.specs.Prelude.{◌≡◌, ◌<◌, ◌≤◌, ◌-◌, ◌+◌, ℕ, length, slice_get, slice_index, slice_index_or, [], false, Some, IfOk, OnOk, OnErr};
ghost use Rattle.ft_types.specs.Counts.{count_at};
ghost use Rattle.ft_types.specs.declared.names.TheConstants.{HART_LIMIT, INPUT_LIMIT, PAGE_LIMIT};
ghost use Rattle.interleaving.specs.Stored.{stored_after};
ghost use Rattle.rv32_hart.specs.Hart.{Hart as HartRecord};
ghost use Rattle.rv32_hart.specs.Ram.{word_at};
ghost use Rattle.rv32_hart.specs.Step.{effect};
ghost use Rattle.hart_lease.specs.Runs.{counts_of};

use crate::ram::SharedRam;
use ft_types::{COUNT_LIMIT, Counts, HART_LIMIT, Hart, Memory, PageNo};
use guest_image::Machine;
use input_log::Input;
use rv32_hart::{Decoder, HartState, Tick, tick_with};
use std::alloc::Global;
use std::result::Result;

/// Harts, and RAM that other machines may have too.
#[derive(Drop)]
pub(crate) struct SteppedMachine {
    harts: Vec<HartState>,
    ram: SharedRam,
    ghost few: { length harts.items ≤ HART_LIMIT },
}

fn harts_of(alloc: Global, machine: &Machine) -> Result<Vec<HartState>, Memory>
    ensures { IfOk result (λ v. v.items ≡ machine.now.harts) }
{
    let mut harts = Vec::with_capacity(alloc, machine.harts() as usize)?;
    for number in 0..machine.harts() {
        harts.push(machine.hart(Hart::new(number)).copy()?)?;
    }
    Ok(harts)
}

fn harts_copied(alloc: Global, harts: &[HartState]) -> Result<Vec<HartState>, Memory>
    ensures { IfOk result (λ v. v.items ≡ harts.now) }
{
    let mut copies = Vec::with_capacity(alloc, harts.len())?;
    for hart in harts {
        copies.push(hart.copy()?)?;
    }
    Ok(copies)
}

impl SteppedMachine {
    ghost use Rattle.moments.specs.machinery.Machines.{machine_of};

    /// This machine, whose pages both have.
    pub(crate) fn of(alloc: Global, machine: &Machine) -> Result<SteppedMachine, Memory>
        ensures { IfOk result (λ m. machine_of m ≡ machine.now) }
    {
        // proof: a machine has at most so many harts.
        let _whole = machine.harts();
        let harts = harts_of(alloc, machine)?;
        let ram = SharedRam::of(alloc, machine)?;
        Ok(SteppedMachine { harts, ram })
    }

    /// An equal machine, which has the pages too.
    pub(crate) fn share(&mut self) -> Result<SteppedMachine, Memory>
        ensures same { IfOk result (λ m. machine_of m ≡ machine_of self.old) }
        ensures kept { machine_of self.new ≡ machine_of self.old }
    {
        self.ram.share()?;
        self.copy()
    }

    /// An equal machine.
    pub(crate) fn copy(&self) -> Result<SteppedMachine, Memory>
        ensures { IfOk result (λ m. machine_of m ≡ machine_of self.now) }
    {
        let harts = harts_copied(*self.harts.allocator(), &self.harts)?;
        let ram = self.ram.copy()?;
        Ok(SteppedMachine { harts, ram })
    }

    /// The number of harts.
    pub(crate) fn harts(&self) -> u8
        ensures value { result ≡ length (machine_of self.now).harts }
        ensures limit { result ≤ HART_LIMIT }
    {
        self.harts.len() as u8
    }

    /// The number of pages.
    pub(crate) fn pages(&self) -> u16
        ensures value { result ≡ length (machine_of self.now).pages }
        ensures limit { result ≤ PAGE_LIMIT }
    {
        self.ram.pages()
    }

    /// A hart.
    #[inline(always)]
    pub(crate) fn hart(&self, hart: Hart) -> &HartState
        requires { hart < length (machine_of self.now).harts }
        ensures { slice_get (machine_of self.now).harts hart ≡ Some result.now }
    {
        &self.harts[hart.index()]
    }

    /// How many steps a hart has taken, 0 where there is no such hart.
    pub(crate) fn count_of(&self, hart: Hart) -> u64
        ensures value { result ≡ counts_of (machine_of self.now) hart }
        ensures limit { result < COUNT_LIMIT }
    {
        match self.harts.get(hart.index()) {
            Some(state) => state.count(),
            None => 0,
        }
    }

    /// How many steps each hart has taken.
    pub(crate) fn counts(&self) -> Counts
        ensures harts { length result ≡ length (machine_of self.now).harts }
        ensures value { (hart : ℕ) → count_at result hart ≡ counts_of (machine_of self.now) hart }
    {
        let mut counts = Counts::zero(self.harts());
        for number in 0..self.harts() {
            let hart = Hart::new(number);
            counts.set(hart, self.hart(hart).count());
        }
        counts
    }

    /// The byte at an offset of a page.
    pub(crate) fn byte(&self, page: PageNo, offset: u32) -> u8
        requires page { page < length (machine_of self.now).pages }
        requires offset { offset < 4096 }
        ensures { result ≡ slice_index (slice_index_or (machine_of self.now).pages page []) offset }
    {
        self.ram.byte(page, offset)
    }

    /// The word at an offset of a page.
    pub(crate) fn word(&self, page: PageNo, offset: u32) -> u32
        requires page { page < length (machine_of self.now).pages }
        requires offset { offset + 4 ≤ 4096 }
        ensures { result ≡ word_at (slice_index_or (machine_of self.now).pages page []) offset }
    {
        self.ram.word(page, offset)
    }

    /// One step of a hart on these inputs. Memory changes nothing.
    #[inline(always)]
    pub(crate) fn step(
        &mut self,
        hart: Hart,
        inputs: &[Input],
        decoder: &mut Decoder,
    ) -> Result<(), Memory>
        requires hart { hart < length (machine_of self.old).harts }
        requires few { length inputs.now ≤ INPUT_LIMIT }
        requires runs { (h : HartRecord) → slice_get (machine_of self.old).harts hart ≡ Some h → (h.halted ≡ false) × (h.count < COUNT_LIMIT - 1) }
        ensures taken { OnOk result ((h : HartRecord) → slice_get (machine_of self.old).harts hart ≡ Some h →
            machine_of self.new ≡ stored_after (machine_of self.old) hart (effect (length (machine_of self.old).pages) h inputs.now
            (slice_get (machine_of self.old).pages))) }
        ensures kept { OnErr result (machine_of self.new ≡ machine_of self.old) }
    {
        loop {
            let state = &mut self.harts[hart.index()];
            match tick_with(state, inputs, decoder, &mut self.ram) {
                Tick::Done => return Ok(()),
                Tick::Miss(page, _) => self.ram.own(page)?,
                Tick::Halted => unreachable!(),
                Tick::Memory => return Err(Memory),
            }
        }
    }
}
