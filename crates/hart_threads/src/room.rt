//! What the threads of a run share, and how they visit it.

use crate::calls::Calls;
use crate::desk::Desk;
use crate::overseer::Overseer;
use crate::turns::{Asker, Brought, Stop, Turn};
use ft_types::{Count, Counts, Hart, HartSet};
use page_book::{Lease, Mode};
use std::alloc::Global;
use std::hint;
use std::sync::{Mutex, MutexGuard, Wait};

/// How often a thread looks for the lock before it sleeps: leases hold it for a few microseconds, and being woken takes longer.
const LOOKS: u32 = 100;

/// How long it waits between two looks: each takes the lock's line from the processor of whoever holds it.
const PAUSES: u32 = 8;

/// What the threads of a run share.
#[derive(Drop)]
pub(crate) struct Room<M: Mode, O: Overseer<M> + Drop> {
    pub(crate) desk: Mutex<Desk<M>>,
    /// How far each hart is to come.
    pub(crate) ends: Counts,
    pub(crate) calls: Calls,
    /// Who has it holds it while he takes the desk, never the other way round, and nobody waits for it.
    pub(crate) overseer: Mutex<O>,
}

impl<M: Mode, O: Overseer<M> + Drop> Room<M, O> {
    /// The lock.
    pub(crate) fn hold<R: Wait>(&self, rt: &R) -> MutexGuard<'_, Desk<M>> {
        for _look in 0..LOOKS {
            if let Some(held) = self.desk.try_lock() {
                return held;
            }
            for _pause in 0..PAUSES {
                hint::spin_loop();
            }
        }
        self.desk.lock(rt)
    }

    /// What asking for a lease comes to.
    pub(crate) fn ask<R: Wait>(&self, rt: &R, alloc: Global, hart: Hart, end: Count) -> Turn {
        let (turn, wanted) = self.visit_to_ask(rt, alloc, hart, end);
        self.calls.want(wanted);
        turn
    }

    fn visit_to_ask<R: Wait>(
        &self,
        rt: &R,
        alloc: Global,
        hart: Hart,
        end: Count,
    ) -> (Turn, HartSet) {
        let mut held = self.hold(rt);
        let turn = held.lend(alloc, hart, end, Asker::Itself);
        (turn, held.wanted())
    }

    /// What asking for the lease of a hart comes to, where this thread leads all harts.
    pub(crate) fn ask_led<R: Wait>(&self, rt: &R, alloc: Global, hart: Hart, end: Count) -> Turn {
        self.hold(rt).lend(alloc, hart, end, Asker::Leader)
    }

    /// This thread leads all harts no longer.
    pub(crate) fn end_to_lead<R: Wait>(&self, rt: &R) {
        let called = self.hold(rt).end_to_lead();
        self.calls.make(rt, called);
    }

    /// Brings the lease, which stops here.
    pub(crate) fn bring<R: Wait>(&self, rt: &R, lease: Lease, stop: Stop) -> Brought {
        let (brought, called) = self.visit_to_bring(rt, lease, stop);
        self.calls.make(rt, called);
        brought
    }

    fn visit_to_bring<R: Wait>(&self, rt: &R, lease: Lease, stop: Stop) -> (Brought, HartSet) {
        let mut held = self.hold(rt);
        let brought = held.bring(lease, stop);
        (brought, held.called())
    }

    /// Brings the lease, which stops here, and asks for the next one.
    pub(crate) fn exchange<R: Wait>(
        &self,
        rt: &R,
        alloc: Global,
        lease: Lease,
        stop: Stop,
        end: Count,
    ) -> Turn {
        self.calls.come_back(lease.hart());
        let (turn, called, wanted) = self.visit_to_exchange(rt, alloc, lease, stop, end);
        self.calls.want(wanted);
        self.calls.make(rt, called);
        turn
    }

    fn visit_to_exchange<R: Wait>(
        &self,
        rt: &R,
        alloc: Global,
        lease: Lease,
        stop: Stop,
        end: Count,
    ) -> (Turn, HartSet, HartSet) {
        let mut held = self.hold(rt);
        let turn = held.exchange(alloc, lease, stop, end);
        (turn, held.called(), held.wanted())
    }

    /// The hart does not go on, for whom others may have waited.
    pub(crate) fn leave<R: Wait>(&self, rt: &R, hart: Hart) {
        let called = self.hold(rt).leave(hart);
        self.calls.make(rt, called);
    }

    /// Has the overseer look, for this hart and others that stand, until none stands. Not where somebody has him: who has him has him
    /// look again for whoever stands by then.
    pub(crate) fn oversee<R: Wait>(&self, rt: &R, alloc: Global, hart: Hart) {
        for _ in rt.forever() {
            if !self.look_once(rt, alloc, hart) || !self.hold(rt).has_standing() {
                return;
            }
        }
        unreachable!()
    }

    /// One look, where it is still asked for, and what comes of it. Whether the overseer was free.
    fn look_once<R: Wait>(&self, rt: &R, alloc: Global, hart: Hart) -> bool {
        let Some(mut overseer) = self.overseer.try_lock() else {
            return false;
        };
        if let Some(called) = self.visit_to_look(rt, alloc, hart, &mut *overseer) {
            self.calls.make(rt, called);
            overseer.hand_on(rt, alloc);
        }
        true
    }

    fn visit_to_look<R: Wait>(
        &self,
        rt: &R,
        alloc: Global,
        hart: Hart,
        overseer: &mut O,
    ) -> Option<HartSet> {
        let mut held = self.hold(rt);
        held.see(rt, alloc, hart, overseer)
    }
}
