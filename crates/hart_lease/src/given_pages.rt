//! The pages that a lease is given, and whether all that it has is still as it was lent.

ghost use Rattle.std.specs.Prelude.{◌≡◌, ◌<◌, ◌-◌, ◌↔◌, ℕ, List, length, map, slice_get, Option, Some, None, false, IfOk, IfSome, IfNone, IsTrue};
ghost use Rattle.rv32_hart.specs.Hart.{Hart as HartRecord, with_outputs_of, without_outputs};
ghost use Rattle.std.specs.Arc.{arc_value};
ghost use Rattle.hart_lease.specs.Slots.{slot_at, want_of, is_writable, part_of};
ghost use Rattle.hart_lease.specs.OpenLeases.{idle};
ghost use Rattle.hart_lease.specs.Leases.{fresh, IsLent, IsLentAt, base_at, whole_in, with_page_to_read, with_page_to_write, laid};

use crate::alike::{is_base, same_edges, same_inputs};
use crate::lease::Lease;
use crate::lease_pages::{Slot, clear_bases};
use crate::taken::Taken;
use edge_log::Edge;
use ft_types::{LEASE_STEPS, Memory, PageNo, Want};
use guest_image::{Machine, Page, SharedPage};
use input_log::Input;
use std::sync::Arc;

impl Lease {
    /// The page as it was lent, where the lease took it.
    pub fn base_page(&self, page: PageNo) -> Option<&Arc<Page>>
        requires { page < length self.now.slots }
        ensures some { IfSome result (λ p. base_at self.now page ≡ Some (arc_value p.now)) }
        ensures none { IfNone result (want_of (slot_at self.now.slots page) ≡ None) }
    {
        match (self.pages.slot(page), &self.bases[page.index()]) {
            (Slot::Readable(here), _) => Some(here.part()),
            (Slot::Writable(_), Some(base)) => Some(base.part()),
            _ => None,
        }
    }

    /// Shared parts of the pages that it may write, by rising page.
    pub fn parts(&self) -> Result<Vec<Option<SharedPage>>, Memory>
        ensures { IfOk result (λ v. v.items ≡ map part_of self.now.slots) }
    {
        self.pages.parts()
    }

    /// Takes a page in to read.
    pub fn take_to_read(&mut self, page: PageNo, here: SharedPage)
        requires page { page < length self.old.slots }
        requires missing { slot_at self.old.slots page ≡ Slot.Missing }
        ensures { self.new ≡ with_page_to_read self.old page here }
    {
        self.taken.take(page, Want::Read, self.present.count());
        drop(self.pages.put(page, Slot::Readable(here)));
    }

    /// Takes a page in to write, with a copy of it.
    pub fn take_to_write(&mut self, page: PageNo, base: SharedPage, copy: Page)
        requires page { page < length self.old.slots }
        requires unwritten { is_writable (slot_at self.old.slots page) ≡ false }
        requires lent { (bytes : List ℕ) → base_at self.old page ≡ Some bytes → bytes ≡ base }
        requires same { copy ≡ base }
        ensures { self.new ≡ with_page_to_write self.old page base copy }
    {
        self.taken.take(page, Want::Write, self.present.count());
        let (base, present) = base.opened(copy);
        self.bases[page.index()] = Some(base);
        drop(self.pages.put(page, Slot::Writable(present)));
    }

    /// Takes a page in to write that it has to read, by a copy of it. What is decoded of it stays.
    pub fn raise_to_write(&mut self, page: PageNo, copy: Page)
        requires page { page < length self.old.slots }
        requires readable { slot_at self.old.slots page ≡ Slot.Readable copy }
        ensures { self.new ≡ with_page_to_write self.old page copy copy }
    {
        self.taken.take(page, Want::Write, self.present.count());
        let base = self.pages.raise(page, copy);
        self.bases[page.index()] = Some(base);
    }

    /// Whether the lease's hart and pages were lent by the machine, the pages at these counts.
    #[tactic(auto, using(crate::proofs::steps::EarlierOutputs::lent_whole, crate::proofs::steps::EarlierOutputs::lent_bare))]
    pub fn is_lent(&self, machine: &Machine, taken: &[Option<Taken>]) -> bool
        requires { self.now.hart < length machine.now.harts }
        ensures { IsTrue result ↔ IsLent machine.now taken.now (whole_in machine.now self.now) }
    {
        machine.hart(self.hart).is_without_outputs(&self.base)
            && machine.pages() as usize == self.pages.len()
            && self.took(taken)
            && self.pages_are_lent(machine)
    }

    /// Whether these edges wait in it.
    pub fn waits_with(&self, edges: &[Edge]) -> bool
        ensures { IsTrue result ↔ (self.now.edges ≡ edges.now) }
    {
        same_edges(self.edges.as_slice(), edges)
    }

    /// Whether these are the inputs of its first step.
    pub fn hears(&self, inputs: &[Input]) -> bool
        ensures { IsTrue result ↔ (self.now.inputs ≡ inputs.now) }
    {
        same_inputs(self.inputs.as_slice(), inputs)
    }

    /// Whether it took its pages at these counts.
    fn took(&self, taken: &[Option<Taken>]) -> bool
        ensures { IsTrue result ↔ (self.now.taken ≡ taken.now) }
    {
        self.taken.same(taken)
    }

    fn pages_are_lent(&self, machine: &Machine) -> bool
        requires { length self.now.slots ≡ length machine.now.pages }
        ensures { IsTrue result ↔ ((page : ℕ) → page < length self.now.slots → IsLentAt machine.now self.now page) }
    {
        for number in 0..machine.pages() {
            if !self.page_is_lent(PageNo::new(number), machine) {
                return false;
            }
        }
        true
    }

    fn page_is_lent(&self, page: PageNo, machine: &Machine) -> bool
        requires slots { page < length self.now.slots }
        requires pages { page < length machine.now.pages }
        ensures { IsTrue result ↔ IsLentAt machine.now self.now page }
    {
        is_base(
            self.pages.slot(page),
            &self.bases[page.index()],
            machine.page(page),
        )
    }

    /// Puts its hart into the machine, which keeps the outputs that it has there, and its pages, of which these are the parts. It
    /// is one without steps and pages then, and has not been sent out.
    pub fn lay_in(&mut self, machine: &mut Machine, parts: Vec<Option<SharedPage>>)
        requires state { (h : HartRecord) × (slice_get machine.old.harts self.old.hart ≡ Some h) × (without_outputs h ≡ without_outputs self.old.base) }
        requires as_many { length self.old.slots ≡ length machine.old.pages }
        requires unwritten { (page : ℕ) (bytes : List ℕ) → slot_at self.old.slots page ≡ Slot.Readable bytes → slice_get machine.old.pages page ≡ Some bytes }
        requires parts { parts.items ≡ map part_of self.old.slots }
        ensures machine { (h : HartRecord) → slice_get machine.old.harts self.old.hart ≡ Some h → machine.new ≡ laid machine.old
            (record self.old { present = with_outputs_of h self.old.present }) }
        ensures idle { self.new ≡ fresh self.old.hart (without_outputs self.old.present) (length self.old.slots) idle }
    {
        // proof: a machine's harts have its places for their numbers.
        let _pages = machine.pages();
        machine.take_hart_but_outputs(self.hart, &self.present);
        self.pages.lay_in(machine, self.hart, parts);
        self.present.cut_outputs(0);
        self.base.cut_outputs(0);
        self.base.become_but_outputs(&self.present);
        self.inputs.clear();
        clear_bases(&mut self.bases);
        self.taken.clear();
        self.edges.clear();
        self.most = LEASE_STEPS;
        self.stop = 0;
        self.last = 0;
    }
}
