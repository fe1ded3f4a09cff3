//! Harts go out on leases, and leases are given pages.

ghost use Rattle.std.specs.Prelude.{◌≡◌, ◌≢◌, ◌<◌, ◌⊎◌, ◌+◌, ◌↔◌, ◌++◌, ℕ, List, length, replicate, slice_set, slice_get, Some, None, Err, IfOk, IfErr};
ghost use Rattle.std.specs.Prelude.{IfSome, IfNone, OnOk, OnErr};
ghost use Rattle.page_book.specs.machinery.Words.{asked_by, count_at, counts_of, edges_after, fresh, given_more, HasUnmet, IsAsking, IsBareLease, IsMember};
ghost use Rattle.page_book.specs.machinery.Words.{IsMet, lent_with, nothing_taken, open_at, OpenView, with_page};
ghost use Rattle.page_book.specs.Books.{IsOurs, HasTaken, refusal};
ghost use Rattle.page_book.specs.Answers.{IfHeldBy, OnHeldBy, OnGiven};
ghost use Rattle.rv32_hart.specs.Hart.{Hart as HartRecord, without_outputs};

use crate::answers::{BookFault, Need};
use crate::book::Book;
use crate::giving::{Owed, give, note_taken, with_edges};
use crate::lease::Lease;
use book_modes::Mode;
use edge_log::Edge;
use ft_types::{COUNT_LIMIT, Count, Counts, Hart, Memory, PageNo, Want};
use guest_image::{Page, SharedPage};
use hart_lease::{Asked, EDGE_ROOM, Lent, OpenLease, TakenPages};
use smallvec::SmallVec;
use std::alloc::Global;

impl<M: Mode> Book<M> {
    /// Lends a hart, unless it has an open lease, is halted, is at its limit, or has to wait for another.
    pub fn lease(&mut self, alloc: Global, hart: Hart) -> Result<Lease, BookFault>
        requires { hart < length self.old.machine.harts }
        ensures lent { IfOk result (λ l. (h : HartRecord) → slice_get self.old.machine.harts hart ≡ Some h → l ≡ fresh hart (without_outputs h)
            (length self.old.machine.pages) (lent_with l.stop l.inputs l.edges)) }
        // It goes out with what the mode lends it.
        ensures mode { IfOk result (λ l. M.lends self.old.mode hart (counts_of self.old.machine hart) (lent_with l.stop l.inputs l.edges) self.new.mode) }
        ensures unrefused { OnOk result ((h : HartRecord) → slice_get self.old.machine.harts hart ≡ Some h →
            refusal (open_at self.old.leases hart) h (count_at (M.stops self.old.mode) hart) ≡ None) }
        ensures met { OnOk result (IsMet (M.obeyed self.old.mode) (counts_of self.old.machine) hart) }
        ensures ours { IfOk result (λ l. IsOurs self.new l) }
        ensures kept_open { IfOk result (λ l. self.new ≡ record self.old {
          leases = slice_set self.old.leases hart
              (Some (nothing_taken (length self.old.machine.pages) (lent_with l.stop l.inputs l.edges)));
          mode = self.new.mode;
        }) }
        ensures refused { IfErr result (λ f. f ≢ BookFault.EdgeOpen → f ≢ BookFault.Memory → (h : HartRecord) → slice_get self.old.machine.harts hart ≡ Some h →
            refusal (open_at self.old.leases hart) h (count_at (M.stops self.old.mode) hart) ≡ Some f) }
        // Only then is an edge asked for, and only where each is met, memory.
        ensures later { IfErr result (λ f. (f ≡ BookFault.EdgeOpen) ⊎ (f ≡ BookFault.Memory) → (h : HartRecord) → slice_get self.old.machine.harts hart ≡ Some
            h →
            refusal (open_at self.old.leases hart) h (count_at (M.stops self.old.mode) hart) ≡ None) }
        ensures edge_open { IfErr result (λ f. f ≡ BookFault.EdgeOpen → HasUnmet (M.obeyed self.old.mode) (counts_of self.old.machine) hart) }
        ensures memory { IfErr result (λ f. f ≡ BookFault.Memory → IsMet (M.obeyed self.old.mode) (counts_of self.old.machine) hart) }
        ensures err { OnErr result (self.new ≡ self.old) }
    {
        if let Some(fault) = self.why_not(hart) {
            return Err(fault);
        }
        let state = self.machine.hart(hart);
        let count = state.count();
        let pages = self.machine.pages();
        let taken = TakenPages::none(alloc, pages)?;
        let mut own = self.spare.lease(alloc, hart, state, pages)?;
        let lent = self.lend_out(alloc, hart, count, taken);
        own.go_out(lent);
        Ok(Lease { own })
    }

    /// Why the hart is not lent, where it is not: it has an open lease, is halted, is at its limit, or has to wait for another.
    fn why_not(&self, hart: Hart) -> Option<BookFault>
        requires { hart < length self.now.machine.harts }
        ensures unrefused { IfNone result ((h : HartRecord) → slice_get self.now.machine.harts hart ≡ Some h →
            refusal (open_at self.now.leases hart) h (count_at (M.stops self.now.mode) hart) ≡ None) }
        ensures met { IfNone result (IsMet (M.obeyed self.now.mode) (counts_of self.now.machine) hart) }
        ensures unlent { IfNone result (open_at self.now.leases hart ≡ None) }
        ensures limit { IfNone result (counts_of self.now.machine hart < count_at (M.stops self.now.mode) hart) }
        ensures refused { IfSome result (λ f. f ≢ BookFault.EdgeOpen → (h : HartRecord) → slice_get self.now.machine.harts hart ≡ Some h →
            refusal (open_at self.now.leases hart) h (count_at (M.stops self.now.mode) hart) ≡ Some f) }
        ensures later { IfSome result (λ f. f ≡ BookFault.EdgeOpen → (h : HartRecord) → slice_get self.now.machine.harts hart ≡ Some h →
            refusal (open_at self.now.leases hart) h (count_at (M.stops self.now.mode) hart) ≡ None) }
        ensures edge_open { IfSome result (λ f. f ≡ BookFault.EdgeOpen → HasUnmet (M.obeyed self.now.mode) (counts_of self.now.machine) hart) }
        ensures few { IfSome result (λ f. f ≢ BookFault.Memory) }
    {
        if self.leases[hart.index()].is_some() {
            return Some(BookFault::Leased);
        }
        let state = self.machine.hart(hart);
        if state.is_halted() {
            return Some(BookFault::Halted);
        }
        if state.count() >= self.mode.limit(hart) {
            return Some(BookFault::AtLimit);
        }
        if self.mode.is_open(hart, &self.machine) {
            return Some(BookFault::EdgeOpen);
        }
        None
    }

    /// What the hart, which is at this count, goes out with. It has an open lease then, of no page.
    fn lend_out(&mut self, alloc: Global, hart: Hart, count: Count, taken: TakenPages) -> Lent
        requires taken { taken ≡ replicate (length self.old.machine.pages) None }
        requires hart { hart < length self.old.machine.harts }
        requires unlent { open_at self.old.leases hart ≡ None }
        requires count { count ≡ counts_of self.old.machine hart }
        requires limit { count < count_at (M.stops self.old.mode) hart }
        requires met { HasUnmet (M.obeyed self.old.mode) (counts_of self.old.machine) hart → ⊥ }
        ensures book { self.new ≡ record self.old { leases = slice_set self.old.leases hart (Some (nothing_taken (length self.old.machine.pages) result)); mode = self.new.mode } }
        ensures lent { M.lends self.old.mode hart count result self.new.mode }
        ensures stop { result.stop < COUNT_LIMIT }
    {
        let lent = self.mode.lend(alloc, hart, count);
        self.leases[hart.index()] = Some(OpenLease::new(alloc, &lent, taken));
        lent
    }

    /// Gives the lease a page, unless another open lease holds a right that stands against it.
    pub fn need(&mut self, lease: &mut Lease, page: PageNo, want: Want) -> Result<Need, BookFault>
        requires { page < length self.old.machine.pages }
        ensures foreign { (result ≡ Err BookFault.Foreign) ↔ ¬ (IsOurs self.old lease.old) }
        ensures memory { IfErr result (λ f. f ≢ BookFault.Foreign → (f ≡ BookFault.Memory) × ((g : ℕ) → M.is_holder self.old.mode self.old.leases
            (asked_by lease.old page want) g → ⊥)) }
        ensures held { IfOk result (λ answer. IfHeldBy answer (λ harts. (g : ℕ) → IsMember harts g ↔ M.is_holder self.old.mode self.old.leases
            (asked_by lease.old page want) g)) }
        ensures not_free { IfOk result (λ answer. OnHeldBy answer (((g : ℕ) → M.is_holder self.old.mode self.old.leases (asked_by lease.old page want) g → ⊥) →
            ⊥)) }
        ensures free { IfOk result (λ answer. OnGiven answer ((g : ℕ) → M.is_holder self.old.mode self.old.leases (asked_by lease.old page want) g → ⊥)) }
        // The page comes as it stands in the machine, to read, or to read and to write.
        ensures given { IfOk result (λ answer. OnGiven answer ((here : List ℕ) → slice_get self.old.machine.pages page ≡ Some here →
            lease.new ≡ record (with_page lease.old page want here) { edges = lease.new.edges })) }
        // The edges that the hart's next step owes wait in the lease.
        ensures taken { IfOk result (λ answer. OnGiven answer (HasTaken (M.owes self.old.mode (counts_of self.old.machine) (asked_by lease.old page want))
            self.old.leases (asked_by lease.old page want) lease.old.edges lease.new.edges self.new.leases)) }
        ensures mode { IfOk result (λ answer. OnGiven answer (M.gives self.old.mode (counts_of self.old.machine) (asked_by lease.old page want)
            self.new.mode)) }
        ensures ours { OnOk result (IsOurs self.new lease.new) }
        // Where it waits or is refused, neither has changed.
        ensures book_waits { IfOk result (λ answer. OnHeldBy answer (self.new ≡ self.old)) }
        ensures lease_waits { IfOk result (λ answer. OnHeldBy answer (lease.new ≡ lease.old)) }
        ensures book_kept { OnErr result (self.new ≡ self.old) }
        ensures lease_kept { OnErr result (lease.new ≡ lease.old) }
        // The book's machine and journal and the lease's hart and steps stay as they were.
        ensures book { self.new ≡ record self.old { leases = self.new.leases; mode = self.new.mode } }
        ensures hart { lease.new.hart ≡ lease.old.hart }
        ensures base { lease.new.base ≡ lease.old.base }
        ensures present { lease.new.present ≡ lease.old.present }
        ensures steps { lease.new.steps ≡ lease.old.steps }
        ensures stop { lease.new.stop ≡ lease.old.stop }
    {
        if !self.is_ours(&*lease.own) {
            return Err(BookFault::Foreign);
        }
        self.need_own(lease, page, want)
    }

    /// The same, of a lease that is known to be this book's.
    pub fn need_own(
        &mut self,
        lease: &mut Lease,
        page: PageNo,
        want: Want,
    ) -> Result<Need, BookFault>
        requires ours { IsOurs self.old lease.old }
        requires page { page < length self.old.machine.pages }
        ensures memory { IfErr result (λ f. (f ≡ BookFault.Memory) × ((g : ℕ) → M.is_holder self.old.mode self.old.leases (asked_by lease.old page want) g →
            ⊥)) }
        ensures held { IfOk result (λ answer. IfHeldBy answer (λ harts. (g : ℕ) → IsMember harts g ↔ M.is_holder self.old.mode self.old.leases
            (asked_by lease.old page want) g)) }
        ensures not_free { IfOk result (λ answer. OnHeldBy answer (((g : ℕ) → M.is_holder self.old.mode self.old.leases (asked_by lease.old page want) g → ⊥) →
            ⊥)) }
        ensures free { IfOk result (λ answer. OnGiven answer ((g : ℕ) → M.is_holder self.old.mode self.old.leases (asked_by lease.old page want) g → ⊥)) }
        // The page comes as it stands in the machine, to read, or to read and to write.
        ensures given { IfOk result (λ answer. OnGiven answer ((here : List ℕ) → slice_get self.old.machine.pages page ≡ Some here →
            lease.new ≡ record (with_page lease.old page want here) { edges = lease.new.edges })) }
        // The edges that the hart's next step owes wait in the lease.
        ensures taken { IfOk result (λ answer. OnGiven answer (HasTaken (M.owes self.old.mode (counts_of self.old.machine) (asked_by lease.old page want))
            self.old.leases (asked_by lease.old page want) lease.old.edges lease.new.edges self.new.leases)) }
        ensures mode { IfOk result (λ answer. OnGiven answer (M.gives self.old.mode (counts_of self.old.machine) (asked_by lease.old page want)
            self.new.mode)) }
        ensures ours { OnOk result (IsOurs self.new lease.new) }
        // Where it waits or is refused, neither has changed.
        ensures book_waits { IfOk result (λ answer. OnHeldBy answer (self.new ≡ self.old)) }
        ensures lease_waits { IfOk result (λ answer. OnHeldBy answer (lease.new ≡ lease.old)) }
        ensures book_kept { OnErr result (self.new ≡ self.old) }
        ensures lease_kept { OnErr result (lease.new ≡ lease.old) }
        // The book's machine and journal and the lease's hart and steps stay as they were.
        ensures book { self.new ≡ record self.old { leases = self.new.leases; mode = self.new.mode } }
        ensures hart { lease.new.hart ≡ lease.old.hart }
        ensures base { lease.new.base ≡ lease.old.base }
        ensures present { lease.new.present ≡ lease.old.present }
        ensures steps { lease.new.steps ≡ lease.old.steps }
        ensures stop { lease.new.stop ≡ lease.old.stop }
    {
        let own = &mut *lease.own;
        let asked = own.asks(page, want);
        let harts = self.mode.holders(&*self.leases, &asked);
        if !harts.is_empty() {
            return Ok(Need::HeldBy(harts));
        }
        let here = self.lend_page(asked.hart, page)?;
        let copy = self.take_copy(page, want);
        self.give_page(own, page, want, here, copy)?;
        Ok(Need::Given)
    }

    /// A page, with what the hart has decoded of it.
    fn lend_page(&mut self, hart: Hart, page: PageNo) -> Result<SharedPage, Memory>
        requires { page < length self.old.machine.pages }
        ensures lent { IfOk result (λ p. slice_get self.old.machine.pages page ≡ Some p) }
        ensures kept { self.new ≡ self.old }
    {
        self.machine.lend_page(hart, page)
    }

    /// The copy by which a page was written last, where one is kept, for whoever is to write it.
    fn take_copy(&mut self, page: PageNo, want: Want) -> Option<Page>
        requires { page < length self.old.machine.pages }
        ensures copy { IfSome result (λ p. slice_get self.old.machine.pages page ≡ Some p) }
        ensures kept { self.new ≡ self.old }
    {
        match want {
            Want::Read => None,
            Want::Write => self.machine.take_copy(page),
        }
    }

    /// Gives the lease, which is this book's, a page as it stands in the machine. No open lease stands against it.
    fn give_page(
        &mut self,
        lease: &mut hart_lease::Lease,
        page: PageNo,
        want: Want,
        here: SharedPage,
        copy: Option<Page>,
    ) -> Result<(), Memory>
        requires ours { IsOurs self.old lease.old }
        requires page { page < length self.old.machine.pages }
        requires free { (g : ℕ) → M.is_holder self.old.mode self.old.leases (asked_by lease.old page want) g → ⊥ }
        requires here { slice_get self.old.machine.pages page ≡ Some here }
        requires copy { IfSome copy (λ p. p ≡ here) }
        ensures given { OnOk result (lease.new ≡ record (with_page lease.old page want here) { edges = lease.new.edges }) }
        ensures taken { OnOk result (HasTaken (M.owes self.old.mode (counts_of self.old.machine) (asked_by lease.old page want)) self.old.leases
            (asked_by lease.old page want) lease.old.edges lease.new.edges self.new.leases) }
        ensures mode { OnOk result (M.gives self.old.mode (counts_of self.old.machine) (asked_by lease.old page want) self.new.mode) }
        ensures ours { OnOk result (IsOurs self.new lease.new) }
        ensures book_kept { OnErr result (self.new ≡ self.old) }
        ensures lease_kept { OnErr result (lease.new ≡ lease.old) }
        ensures book { self.new ≡ record self.old { leases = self.new.leases; mode = self.new.mode } }
        ensures hart { lease.new.hart ≡ lease.old.hart }
        ensures base { lease.new.base ≡ lease.old.base }
        ensures present { lease.new.present ≡ lease.old.present }
        ensures steps { lease.new.steps ≡ lease.old.steps }
        ensures stop { lease.new.stop ≡ lease.old.stop }
    {
        let asked = lease.asks(page, want);
        let alloc = *self.journal.allocator();
        let settled = self.counts();
        let Owed {
            found,
            waiting,
            known,
        } = self.owed(alloc, lease, &settled, &asked)?;
        give(lease, page, here, want, copy)?;
        lease.wait_with(waiting);
        self.hand_over(&settled, &asked, found.as_slice(), known);
        Ok(())
    }

    /// The edges that the next step of this book's lease owes for what it asks, against which no open lease stands.
    fn owed(
        &self,
        alloc: Global,
        lease: &hart_lease::Lease,
        settled: &Counts,
        asked: &Asked,
    ) -> Result<Owed, Memory>
        requires ours { IsOurs self.now lease.now }
        requires asked { asked.now ≡ asked_by lease.now asked.now.page asked.now.want }
        requires bare { IsBareLease lease.now }
        requires count { asked.now.count < COUNT_LIMIT }
        requires page { asked.now.page < length self.now.machine.pages }
        requires free { (g : ℕ) → M.is_holder self.now.mode self.now.leases asked.now g → ⊥ }
        requires harts { length settled.now ≡ length self.now.machine.harts }
        requires settled { (hart : ℕ) → count_at settled.now hart ≡ counts_of self.now.machine hart }
        ensures found { IfOk result (λ o. M.owes self.now.mode (count_at settled.now) asked.now o.found.items) }
        ensures waiting { IfOk result (λ o. edges_after o.waiting lease.now.edges ≡ lease.now.edges ++ o.found.items) }
        ensures known { IfOk result (λ o. edges_after o.known lease.now.edges ≡ lease.now.edges ++ o.found.items) }
    {
        let found = self.mode.edges_owed(alloc, settled, asked);
        let waiting = with_edges(alloc, lease.edges(), found.as_slice())?;
        let known = with_edges(alloc, lease.edges(), found.as_slice())?;
        Ok(Owed {
            found,
            waiting,
            known,
        })
    }

    /// Gives the asker its right, and writes down that its open lease has the page, and that these edges wait in it.
    fn hand_over(
        &mut self,
        settled: &Counts,
        asked: &Asked,
        found: &[Edge],
        waiting: Option<Box<SmallVec<Edge, EDGE_ROOM>>>,
    )
        requires asks { IsAsking (M.keeps self.old.mode) self.old.machine self.old.leases asked.now }
        requires free { (g : ℕ) → M.is_holder self.old.mode self.old.leases asked.now g → ⊥ }
        requires harts { length settled.now ≡ length self.old.machine.harts }
        requires settled { (hart : ℕ) → count_at settled.now hart ≡ counts_of self.old.machine hart }
        requires found { M.owes self.old.mode (count_at settled.now) asked.now found.now }
        requires waiting { (lent : OpenView) → open_at self.old.leases asked.now.hart ≡ Some lent → edges_after waiting lent.edges ≡ lent.edges ++ found.now }
        ensures book { self.new ≡ record self.old {
          leases = slice_set self.old.leases asked.now.hart (given_more (open_at self.old.leases asked.now.hart)
              asked.now.page asked.now.want asked.now.count found.now);
          mode = self.new.mode;
        } }
        ensures given { M.gives self.old.mode (count_at settled.now) asked.now self.new.mode }
    {
        let alloc = *self.journal.allocator();
        self.mode.give(alloc, settled, asked);
        note_taken(&mut self.leases[asked.hart.index()], asked, found, waiting);
    }
}
