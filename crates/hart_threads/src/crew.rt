//! A thread for each hart, where there are more than one.

ghost use Rattle.lease_rounds.specs.Leading.{IsFreeAlone, IsIdle};

use crate::alone::lead_alone;
use crate::calls::Calls;
use crate::desk::Desk;
use crate::overseer::{Nobody, Overseer};
use crate::room::Room;
use crate::together::go_together;
use crate::turns::{Brought, Stop, Turn};
use crate::turnstile::Turnstile;
use ft_types::{COUNT_LIMIT, Count, Counts, HART_LIMIT, HART_ROW, Hart, HartSet, LEASE_STEPS};
use page_book::{Book, Lease, Mode};
use rv32_hart::Tick;
use std::alloc::Global;
use std::sync::{Mutex, Wait};
use std::thread;
use std::thread::Threads;
use steering::{FAR, Pace, Steering};

/// The harts of a book, each on a thread of its own, which ends only where its hart is halted or at its end, where memory is
/// refused or where no hart can go on. A book of one hart is led on the calling thread, without a lock, until the same. Nothing is
/// known of the book that comes back but its type. Those of this set go on the calling thread beside the others, in turn and without
/// the turnstile, as do those whose threads cannot be made.
pub fn run_crew<M: Mode + Send, R: Threads + Wait + Sync, T: Turnstile + Sync>(
    rt: &R,
    alloc: Global,
    book: Book<M>,
    ends: Counts,
    turnstile: &T,
    pace: Pace,
    here: HartSet,
) -> Book<M>
    requires free { IsFreeAlone M.Mode }
    requires idle { IsIdle book }
{
    let (book, _nobody) = run_overseen(rt, alloc, book, ends, turnstile, pace, here, Nobody);
    book
}

/// The same, and an overseer looks at the book whenever a hart has come as far as the overseer has let it.
pub(crate) fn run_overseen<
    M: Mode + Send,
    R: Threads + Wait + Sync,
    T: Turnstile + Sync,
    O: Overseer<M> + Send + Drop,
>(
    rt: &R,
    alloc: Global,
    book: Book<M>,
    ends: Counts,
    turnstile: &T,
    pace: Pace,
    here: HartSet,
    overseer: O,
) -> (Book<M>, O)
    requires free { IsFreeAlone M.Mode }
    requires idle { IsIdle book }
{
    if book.machine().harts() == 1 && ends.harts() == 1 {
        let mut book = book;
        let mut overseer = overseer;
        let end = ends.get(Hart::new(0));
        lead_alone(rt, alloc, &mut book, end, turnstile, &mut overseer);
        return (book, overseer);
    }
    let is_seen = !overseer.is_absent();
    let mut book = book;
    let mut steering = Steering::new(book.machine().harts(), pace, ends, turnstile.is_free());
    let mut left = all_of(ends);
    if here.is_empty() && !is_seen {
        left = go_together(rt, alloc, &mut book, &mut steering, left, ends);
        if left.is_empty() {
            return (book, overseer);
        }
    }
    let room = Room {
        desk: Mutex::new(Desk::new(book, steering, is_seen)),
        ends,
        calls: Calls::new(),
        overseer: Mutex::new(overseer),
    };
    lead_apart(rt, alloc, &room, ends, turnstile, here, left);
    let Room {
        desk,
        ends: _,
        calls: _,
        overseer,
    } = room;
    (desk.into_inner().into_book(), overseer.into_inner())
}

/// All harts that have an end.
fn all_of(ends: Counts) -> HartSet {
    let mut all = HartSet::new();
    for number in 0..ends.harts() {
        all = all.with(Hart::new(number));
    }
    all
}

/// Starts the threads of the harts that are left, leads those that have none, and returns when each has ended. The first hart's thread is this
/// one, unless it has others to lead: else it would sleep, and the system would have to find out that its processor is free.
fn lead_apart<
    'x,
    M: Mode + Send,
    R: Threads + Wait + Sync,
    T: Turnstile + Sync,
    O: Overseer<M> + Send + Drop,
>(
    rt: &'x R,
    alloc: Global,
    room: &'x Room<M, O>,
    ends: Counts,
    turnstile: &'x T,
    here: HartSet,
    left: HartSet,
) {
    thread::scope(thread::scope_env(), rt, |scope| {
        let mut here = here;
        let mut left = left;
        for done in 0..ends.harts() {
            let number = ends.harts() - 1 - done;
            let hart = Hart::new(number);
            let end = ends.get(hart);
            if !left.contains(hart) {
                continue;
            }
            left = left.without(hart);
            if left.is_empty() && here.is_empty() {
                work(rt, alloc, room, number, end, turnstile);
            } else if !here.contains(hart)
                && scope
                    .spawn(move || work(rt, alloc, room, number, end, turnstile))
                    .is_err()
            {
                here = here.with(hart);
            }
        }
        go_in_turn(rt, alloc, room, here, ends);
    });
}

/// Leads these harts in turn on this thread, one lease each, until each is to end.
fn go_in_turn<M: Mode, R: Wait, O: Overseer<M> + Drop>(
    rt: &R,
    alloc: Global,
    room: &Room<M, O>,
    harts: HartSet,
    ends: Counts,
) {
    let mut left = harts;
    for _ in rt.forever() {
        if left.is_empty() {
            return;
        }
        let (next, went) = go_round(rt, alloc, room, left, ends);
        if !went {
            thread::yield_now();
        }
        left = next;
    }
    unreachable!()
}

/// One lease of each of these harts in turn. Who is not to end, and whether one had a lease.
fn go_round<M: Mode, R: Wait, O: Overseer<M> + Drop>(
    rt: &R,
    alloc: Global,
    room: &Room<M, O>,
    harts: HartSet,
    ends: Counts,
) -> (HartSet, bool) {
    let mut left = HartSet::new();
    let mut went = false;
    for number in 0..ends.harts() {
        let hart = Hart::new(number);
        if harts.contains(hart) {
            match go_once(rt, alloc, room, hart, ends.get(hart)) {
                Some(goes) => {
                    went = went || goes;
                    left = left.with(hart);
                }
                None => room.leave(rt, hart),
            }
        }
    }
    (left, went)
}

/// One lease of the hart, where it need not wait for it. Whether it need not; None where it is to end.
fn go_once<M: Mode, R: Wait, O: Overseer<M> + Drop>(
    rt: &R,
    alloc: Global,
    room: &Room<M, O>,
    hart: Hart,
    end: Count,
) -> Option<bool> {
    match room.ask(rt, alloc, hart, end) {
        Turn::Goes(lease, _) => {
            let _settled = lead(rt, room, lease)?;
            Some(true)
        }
        Turn::Ends => None,
        Turn::Looks | Turn::Stands => {
            room.oversee(rt, alloc, hart);
            Some(false)
        }
        Turn::Waits | Turn::Leads(_) => Some(false),
    }
}

/// One hart's thread.
fn work<M: Mode, R: Wait, T: Turnstile, O: Overseer<M> + Drop>(
    rt: &R,
    alloc: Global,
    room: &Room<M, O>,
    hart: u8,
    end: Count,
    turnstile: &T,
) {
    if hart >= HART_LIMIT {
        return;
    }
    let hart = Hart::new(hart);
    if turnstile.is_free() {
        go_freely(rt, alloc, room, hart, end);
    } else {
        go_by(rt, alloc, room, hart, end, turnstile);
    }
    room.leave(rt, hart);
}

/// Leads the hart lease by lease, each lent in the visit to the lock that settles the one before.
fn go_freely<M: Mode, R: Wait, O: Overseer<M> + Drop>(
    rt: &R,
    alloc: Global,
    room: &Room<M, O>,
    hart: Hart,
    end: Count,
) {
    let Some((lease, reach)) = lend(rt, alloc, room, hart, end) else {
        return;
    };
    let mut lease = lease;
    let mut reach = reach;
    for _ in rt.forever() {
        let stop = fill_far(&mut lease, reach, &room.calls);
        let Some((next, further)) = exchange(rt, alloc, room, lease, stop, end) else {
            return;
        };
        lease = next;
        reach = further;
    }
    unreachable!()
}

/// Leads the hart lease by lease, with the turnstile between them.
fn go_by<M: Mode, R: Wait, T: Turnstile, O: Overseer<M> + Drop>(
    rt: &R,
    alloc: Global,
    room: &Room<M, O>,
    hart: Hart,
    end: Count,
    turnstile: &T,
) {
    let mut number = 0u64;
    for _ in rt.forever() {
        if !room.hold(rt).may_go(hart, end) {
            return;
        }
        number = number.saturating_add(1);
        turnstile.before_lease(hart, number);
        let Some(count) = go_on(rt, alloc, room, hart, end) else {
            return;
        };
        turnstile.after_settle(hart, count);
    }
}

/// One lease of the hart that has a step, at which count it was settled. None where its thread is to end.
fn go_on<M: Mode, R: Wait, O: Overseer<M> + Drop>(
    rt: &R,
    alloc: Global,
    room: &Room<M, O>,
    hart: Hart,
    end: Count,
) -> Option<Count> {
    for _ in rt.forever() {
        let Some((lease, _)) = lend(rt, alloc, room, hart, end) else {
            return None;
        };
        let (steps, count) = lead(rt, room, lease)?;
        if steps > 0 {
            return Some(count);
        }
    }
    unreachable!()
}

/// Leads the hart until its lease is settled: how many steps, and up to which count. None where its thread is to end.
fn lead<M: Mode, R: Wait, O: Overseer<M> + Drop>(
    rt: &R,
    room: &Room<M, O>,
    lease: Lease,
) -> Option<(u64, Count)> {
    let mut lease = lease;
    for _ in rt.forever() {
        let stop = fill(&mut lease);
        match room.bring(rt, lease, stop) {
            Brought::Goes(same) => lease = same,
            Brought::Settled(steps, count) => return Some((steps, count)),
            Brought::Ends => return None,
        }
    }
    unreachable!()
}

/// A lease of the hart, once nobody who waits for longer is in its way, and how many steps it may take while nobody waits for it.
fn lend<M: Mode, R: Wait, O: Overseer<M> + Drop>(
    rt: &R,
    alloc: Global,
    room: &Room<M, O>,
    hart: Hart,
    end: Count,
) -> Option<(Lease, u64)> {
    for _ in rt.forever() {
        match room.ask(rt, alloc, hart, end) {
            Turn::Goes(lease, reach) => return Some((lease, reach)),
            Turn::Ends => return None,
            Turn::Looks => room.oversee(rt, alloc, hart),
            Turn::Stands => stand(rt, alloc, room, hart),
            Turn::Waits => room.calls.wait(rt, hart),
            Turn::Leads(rounds) => lead_crowd(rt, alloc, room, rounds),
        }
    }
    unreachable!()
}

/// The hart has come as far as the overseer has let it: he looks, or the hart waits until whoever has him has had him look.
fn stand<M: Mode, R: Wait, O: Overseer<M> + Drop>(
    rt: &R,
    alloc: Global,
    room: &Room<M, O>,
    hart: Hart,
) {
    room.oversee(rt, alloc, hart);
    room.calls.wait(rt, hart);
}

/// Leads all harts in turn on this thread, one lease each, for so many rounds or until none goes on. Their own threads wait meanwhile.
fn lead_crowd<M: Mode, R: Wait, O: Overseer<M> + Drop>(
    rt: &R,
    alloc: Global,
    room: &Room<M, O>,
    rounds: u32,
) {
    for _round in 0..rounds {
        let mut went = false;
        for number in 0..room.ends.harts() {
            let hart = Hart::new(number);
            went = lead_once(rt, alloc, room, hart, room.ends.get(hart)) || went;
        }
        if !went {
            break;
        }
    }
    room.end_to_lead(rt);
}

/// One lease of the hart, where it has more to do than to wait. Whether it took steps, or the overseer looked for it.
fn lead_once<M: Mode, R: Wait, O: Overseer<M> + Drop>(
    rt: &R,
    alloc: Global,
    room: &Room<M, O>,
    hart: Hart,
    end: Count,
) -> bool {
    match room.ask_led(rt, alloc, hart, end) {
        Turn::Goes(lease, _) => match lead(rt, room, lease) {
            Some((steps, _)) => steps > 0,
            None => false,
        },
        Turn::Looks | Turn::Stands => {
            room.oversee(rt, alloc, hart);
            true
        }
        Turn::Waits | Turn::Ends | Turn::Leads(_) => false,
    }
}

/// Takes steps, until the lease is full or one lacks something.
fn fill(lease: &mut Lease) -> Stop {
    if lease.full() {
        return Stop::Full;
    }
    match lease.run() {
        Tick::Done => Stop::Full,
        Tick::Miss(page, want) => Stop::Lacks(page, want),
        Tick::Halted | Tick::Memory => Stop::Memory,
    }
}

/// The same, and on behind a full lease, as long as nobody waits for it, up to so many steps.
fn fill_far(lease: &mut Lease, reach: u64, calls: &Calls) -> Stop {
    for _part in 0..FAR / LEASE_STEPS {
        let stop = fill(lease);
        let steps = lease.steps();
        if stop != Stop::Full || steps >= reach || calls.is_wanted(lease.hart()) {
            return stop;
        }
        lease.allow(
            steps
                .saturating_add(LEASE_STEPS)
                .min(reach)
                .min(COUNT_LIMIT),
        );
        if lease.full() {
            return Stop::Full;
        }
    }
    Stop::Full
}

/// Brings the lease, which stops here, and goes on with it or with the next one.
fn exchange<M: Mode, R: Wait, O: Overseer<M> + Drop>(
    rt: &R,
    alloc: Global,
    room: &Room<M, O>,
    lease: Lease,
    stop: Stop,
    end: Count,
) -> Option<(Lease, u64)> {
    let hart = lease.hart();
    match room.exchange(rt, alloc, lease, stop, end) {
        Turn::Goes(lease, reach) => Some((lease, reach)),
        Turn::Ends => None,
        Turn::Looks => {
            room.oversee(rt, alloc, hart);
            lend(rt, alloc, room, hart, end)
        }
        Turn::Stands => {
            stand(rt, alloc, room, hart);
            lend(rt, alloc, room, hart, end)
        }
        Turn::Waits => {
            room.calls.wait(rt, hart);
            lend(rt, alloc, room, hart, end)
        }
        Turn::Leads(rounds) => {
            lead_crowd(rt, alloc, room, rounds);
            lend(rt, alloc, room, hart, end)
        }
    }
}
