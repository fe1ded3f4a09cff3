//! What lies under the lock.

ghost use Rattle.std.specs.Prelude.{◌≡◌, ◌<◌, length};
ghost use Rattle.page_book.specs.Books.{IsOurs};

use crate::overseer::Overseer;
use crate::standing::Bounds;
use crate::telling::{may_go, rung_by, tell_settled};
use crate::turns::{Answer, Asker, Brought, Stop, Turn};
use ft_types::{Count, Hart, HartSet, LEASE_STEPS, PageNo, Want};
use lease_rounds::PageMask;
use page_book::{Book, BookFault, Keep, Lease, Mode, Need};
use std::alloc::Global;
use std::sync::Wait;
use steering::Steering;

/// A book, beside what steers its harts and how far an overseer lets them go: no promise leans on that.
#[derive(Drop)]
pub(crate) struct Desk<M: Mode> {
    book: Book<M>,
    steering: Steering,
    bounds: Bounds,
}

impl<M: Mode> Desk<M> {
    /// A book whose harts all go on, each of them once an overseer has looked, where there is one.
    pub(crate) fn new(book: Book<M>, steering: Steering, is_seen: bool) -> Desk<M> {
        let bounds = Bounds::new(is_seen);
        Desk {
            book,
            steering,
            bounds,
        }
    }

    /// The book.
    pub(crate) fn into_book(self) -> Book<M> {
        self.book
    }

    /// Whether the hart is to go on.
    pub(crate) fn may_go(&self, hart: Hart, end: Count) -> bool {
        may_go(&self.book, hart, end)
    }

    /// A lease of the hart, with the pages that it takes at once. Whoever leads all harts gets one where the hart has more to do than to wait.
    pub(crate) fn lend(&mut self, alloc: Global, hart: Hart, end: Count, asker: Asker) -> Turn {
        if hart.number() >= self.book.machine().harts() || !self.may_go(hart, end) {
            return Turn::Ends;
        }
        if self.bounds.left(hart, self.count_of(hart)) == 0 {
            return self.stand(hart);
        }
        let may_have = match asker {
            Asker::Itself => self.steering.may_ask(hart),
            Asker::Leader => self.steering.may_be_led(hart),
        };
        if !may_have {
            return Turn::Waits;
        }
        self.go_out(alloc, hart)
    }

    /// A lease of the hart, which it may have, as far as others tell.
    fn go_out(&mut self, alloc: Global, hart: Hart) -> Turn
        requires { hart < length self.old.book.machine.harts }
    {
        match self.book.lease(alloc, hart) {
            Ok(lease) => {
                self.steering.go_out(hart);
                self.bounds.go_out(hart);
                let mut lease = self.with_pages(lease);
                let reach = self.reach(hart);
                if reach < LEASE_STEPS {
                    lease.allow(reach);
                }
                Turn::Goes(lease, reach)
            }
            Err(BookFault::EdgeOpen) => {
                if self.steering.wait_for_steps(hart) {
                    Turn::Waits
                } else {
                    Turn::Ends
                }
            }
            Err(_) => Turn::Ends,
        }
    }

    /// The lease with the pages that its hart takes at once, where nobody is in the way.
    fn with_pages(&mut self, lease: Lease) -> Lease
        requires ours { IsOurs self.old.book lease }
    {
        let mut lease = lease;
        let hart = lease.hart();
        let woken = !lease.inputs().is_empty();
        let pages = self.steering.pages_at_once(hart, woken);
        if !pages.is_some() {
            return lease;
        }
        let in_the_way = self.steering.in_the_way(hart);
        for number in 0..self.book.machine().pages() {
            let page = PageNo::new(number);
            if let Some(want) = pages.want(page) {
                if !in_the_way.is_against(PageMask::of(page, want)) {
                    self.give(&mut lease, page, want);
                }
            }
        }
        lease
    }

    /// Gives the book's own lease a page, where it may have it.
    fn give(&mut self, lease: &mut Lease, page: PageNo, want: Want)
        requires ours { IsOurs self.old.book lease.old }
        requires page { page < length self.old.book.machine.pages }
        ensures ours { IsOurs self.new.book lease.new }
        ensures pages { self.new.book.machine ≡ self.old.book.machine }
    {
        if let Ok(Need::Given) = self.book.need_own(lease, page, want) {
            self.steering.take(lease.hart(), PageMask::of(page, want));
        }
    }

    /// Takes in a lease which stops here: it is given the page that it lacked, or else its steps are settled.
    pub(crate) fn bring(&mut self, lease: Lease, stop: Stop) -> Brought {
        let mut lease = lease;
        let answer = match stop {
            Stop::Full => Answer::Held,
            Stop::Lacks(page, want) => self.ask(&mut lease, page, want),
            Stop::Memory => Answer::Refused,
        };
        match answer {
            Answer::Given => Brought::Goes(lease),
            Answer::Held => match self.take_back(lease) {
                Some((steps, count)) => Brought::Settled(steps, count),
                None => Brought::Ends,
            },
            Answer::Refused => {
                let _settled = self.take_back(lease);
                Brought::Ends
            }
        }
    }

    /// The same, and lends the hart its next lease, where one is settled.
    pub(crate) fn exchange(&mut self, alloc: Global, lease: Lease, stop: Stop, end: Count) -> Turn {
        let hart = lease.hart();
        let lacked = stop.lacked();
        match self.bring(lease, stop) {
            Brought::Goes(lease) => Turn::Goes(lease, self.reach(hart)),
            Brought::Settled(_, count) => {
                self.steering.queue_up(hart, lacked);
                if self.bounds.is_due(hart, count) && self.may_go(hart, end) {
                    return Turn::Looks;
                }
                match self.steering.begin_to_lead() {
                    Some(rounds) => Turn::Leads(rounds),
                    None => self.lend(alloc, hart, end, Asker::Itself),
                }
            }
            Brought::Ends => Turn::Ends,
        }
    }

    /// Asks for a page.
    fn ask(&mut self, lease: &mut Lease, page: PageNo, want: Want) -> Answer {
        if page.index() >= self.book.machine().pages() as usize {
            return Answer::Refused;
        }
        let hart = lease.hart();
        let pages = PageMask::of(page, want);
        if self.steering.is_barred(hart, pages) {
            return self.refuse(lease, pages);
        }
        match self.book.need(lease, page, want) {
            Ok(Need::Given) => {
                self.steering.take(hart, pages);
                Answer::Given
            }
            Ok(Need::HeldBy(_)) => self.refuse(lease, pages),
            Err(_) => Answer::Refused,
        }
    }

    /// The lease is refused these pages.
    fn refuse(&mut self, lease: &Lease, pages: PageMask) -> Answer {
        self.steering.refuse(lease.hart(), lease.steps(), pages);
        Answer::Held
    }

    /// Takes the lease back, with its steps: how many, and up to which count. None where they were not added.
    fn take_back(&mut self, lease: Lease) -> Option<(u64, Count)> {
        let (hart, steps, count) = (lease.hart(), lease.steps(), lease.count());
        let woken = !lease.inputs().is_empty();
        let takes_over = !lease.edges().is_empty();
        let before = rung_by(&self.book, hart);
        let keep = if self.steering.keeps_rights(hart) {
            Keep::All
        } else {
            Keep::Nothing
        };
        let is_short = steps < LEASE_STEPS.min(self.stride(hart));
        let returned = self
            .steering
            .come_back(hart, steps, is_short, lease.stop(), woken);
        if takes_over {
            self.steering.take_over();
        }
        match self.book.settle(lease, keep) {
            Ok(()) => {
                tell_settled(&self.book, &mut self.steering, hart, returned, &before);
                Some((steps, count))
            }
            Err((lease, _)) => {
                let _ended = self.book.discard(lease);
                None
            }
        }
    }

    /// The hart's settled count.
    fn count_of(&self, hart: Hart) -> Count {
        if hart.number() >= self.book.machine().harts() {
            return 0;
        }
        self.book.machine().hart(hart).count()
    }

    /// How many steps a lease of the hart may take for all that an overseer has said.
    fn stride(&self, hart: Hart) -> u64 {
        self.bounds.stride(hart, self.count_of(hart))
    }

    /// How many it may take while nobody waits for it.
    fn reach(&self, hart: Hart) -> u64 {
        self.steering.reach(hart).min(self.stride(hart))
    }

    /// The hart waits until the overseer has looked, or ends where he looks no more.
    fn stand(&mut self, hart: Hart) -> Turn {
        if self.bounds.stand(hart) {
            Turn::Stands
        } else {
            Turn::Ends
        }
    }

    /// Whether a hart waits until the overseer has looked.
    pub(crate) fn has_standing(&self) -> bool {
        self.bounds.has_standing()
    }

    /// The overseer looks, where a hart waits for that, or this one is due still. Whose threads are to go on then, or to end.
    pub(crate) fn see<R: Wait, O: Overseer<M>>(
        &mut self,
        rt: &R,
        alloc: Global,
        hart: Hart,
        overseer: &mut O,
    ) -> Option<HartSet> {
        if !self.has_standing() && !self.bounds.is_due(hart, self.count_of(hart)) {
            return None;
        }
        let grant = overseer.look(rt, alloc, &mut self.book);
        let counts = self.book.counts();
        Some(self.bounds.grant(grant, &counts))
    }

    /// Whoever led all harts ends that. Whose threads are to look again.
    pub(crate) fn end_to_lead(&mut self) -> HartSet {
        self.steering.end_to_lead()
    }

    /// The hart does not go on. Whose threads are to look again.
    pub(crate) fn leave(&mut self, hart: Hart) -> HartSet {
        self.steering.leave(hart)
    }

    /// For whose leases others wait since this visit.
    pub(crate) fn wanted(&mut self) -> HartSet {
        self.steering.wanted()
    }

    /// Whose threads are to look again. They sleep no longer.
    pub(crate) fn called(&mut self) -> HartSet {
        self.steering.called()
    }
}
