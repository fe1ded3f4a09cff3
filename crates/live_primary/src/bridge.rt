//! What the threads of a primary share: whoever brings events takes them, and leads the first rounds behind a request, where no other thread does so.

use crate::helm::Helm;
use crossbeam_channel::{Receiver as TurnReceiver, Sender as TurnSender, bounded};
use ends::{Event, Fault, Pen, Receiver, Taker};
use ft_types::Memory;
use primary_turns::Said;
use std::alloc::Global;
use std::option::Option;
use std::sync::{Mutex, Wait};

/// The helm, which one thread has at a time, and why nobody has it any more.
#[derive(Drop)]
struct Watch {
    helm: Option<Helm>,
    fault: Option<Fault>,
}

/// What the threads of a primary share.
#[derive(Drop)]
pub(crate) struct Bridge {
    watch: Mutex<Watch>,
    events: Receiver<Event<Said>>,
    /// By it the thread that leads is woken.
    turn: TurnSender<(), Global>,
    turns: TurnReceiver<(), Global>,
}

/// How often events are taken before answers are written.
const TAKES: u8 = 2;

/// What is left to do behind events that were taken.
#[derive(Drop)]
struct Served {
    /// Whether the thread that leads is to be woken.
    calls: bool,
    /// With what answers are to be written that wait for it.
    pen: Option<Pen>,
}

impl Watch {
    /// Takes the events that are there, on a thread that brought some.
    fn serve<R: AllocGlobal + Wait>(
        &mut self,
        rt: &R,
        events: &Receiver<Event<Said>>,
        by: Option<usize>,
    ) -> Served {
        let Some(helm) = &mut self.helm else {
            return Served {
                calls: false,
                pen: None,
            };
        };
        match helm.serve(rt, events, by) {
            Ok(pen) => Served {
                calls: helm.calls(),
                pen,
            },
            Err(fault) => {
                self.helm = None;
                self.fault = Some(fault);
                Served {
                    calls: true,
                    pen: None,
                }
            }
        }
    }

    /// Leads until only waiting is left. Whether all inputs are at their end.
    fn go_on<R: AllocGlobal + Wait>(
        &mut self,
        rt: &R,
        events: &Receiver<Event<Said>>,
    ) -> Result<bool, Fault> {
        if let Some(fault) = self.fault.take() {
            return Err(fault);
        }
        let Some(helm) = &mut self.helm else {
            return Ok(true);
        };
        helm.go_on(rt, events)?;
        if helm.is_over() {
            // The threads of its outputs end with it.
            self.helm = None;
            return Ok(true);
        }
        Ok(false)
    }
}

impl<R: AllocGlobal + Wait> Taker<R> for Bridge {
    /// Takes the events that are there. Where another thread has the helm, that one looks for events behind it.
    fn serve(&self, rt: &R, by: Option<usize>) {
        for _ in rt.forever() {
            let Some(Served { calls, pen }) = self.take(rt, by) else {
                return;
            };
            // Whoever reads answers may make this thread wait: what was left for it meanwhile is taken by another one.
            if calls || pen.is_some() && !self.events.is_empty() {
                let _left = self.turn.try_send(rt, ());
            }
            if let Some(pen) = pen {
                pen.write(rt);
            }
            if self.events.is_empty() {
                return;
            }
        }
    }
}

impl Bridge {
    /// Nobody leads yet.
    pub(crate) fn new(alloc: Global, events: Receiver<Event<Said>>) -> Result<Bridge, Memory> {
        let (turn, turns) = bounded(alloc, 1)?;
        let watch = Watch {
            helm: None,
            fault: None,
        };
        Ok(Bridge {
            watch: Mutex::new(watch),
            events,
            turn,
            turns,
        })
    }

    /// Takes the events that are there, and those that came meanwhile, so that no thread has to be woken for them before answers are written. None where
    /// another thread has the helm, or nobody leads any more.
    fn take<R: AllocGlobal + Wait>(&self, rt: &R, by: Option<usize>) -> Option<Served> {
        let mut taken: Option<Served> = None;
        for _more in 0..TAKES {
            let Some(mut watch) = self.watch.try_lock() else {
                break;
            };
            if watch.helm.is_none() {
                break;
            }
            let Served { calls, pen } = watch.serve(rt, &self.events, by);
            drop(watch);
            let pen = match taken {
                Some(
                    Served {
                        pen: Some(held),
                        ..
                    },
                ) => Some(held),
                _ => pen,
            };
            taken = Some(Served { calls, pen });
            if calls || self.events.is_empty() {
                break;
            }
        }
        taken
    }

    /// Leads until all inputs are at their end, and only waiting is left.
    pub(crate) fn lead<R: AllocGlobal + Wait>(&self, rt: &R, helm: Helm) -> Result<(), Fault> {
        let mut watch = self.watch.lock(rt);
        watch.helm = Some(helm);
        drop(watch);
        for _ in rt.forever() {
            let mut watch = self.watch.lock(rt);
            let is_over = watch.go_on(rt, &self.events)?;
            drop(watch);
            if is_over {
                return Ok(());
            }
            if self.events.is_empty() {
                let _turn = self.turns.recv(rt);
            }
        }
        Ok(())
    }
}
