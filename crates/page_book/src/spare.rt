//! The place in which a book begins its next lease.

ghost use Rattle.std.specs.Prelude.{◌≡◌, ◌≤◌, length, IfOk};
ghost use Rattle.page_book.specs.machinery.Words.{fresh, idle};
ghost use Rattle.rv32_hart.specs.Hart.{without_outputs};

use ft_types::{Hart, Memory, PAGE_LIMIT};
use rv32_hart::HartState;
use std::alloc::Global;
use std::marker::Model;
use std::mem;

/// The last lease that came back, whose place and memory the next one takes.
pub(crate) struct Spare {
    own: Option<Box<hart_lease::Lease>>,
}

impl Drop for Spare {
    fn drop(self) {
        let Spare { own } = self;
        waste(own);
    }
}

impl Model for Spare {
    ghost use Rattle.std.specs.Prelude.{◌≡◌, length, IfSome};
    ghost use Rattle.page_book.specs.machinery.Words.{fresh, idle};
    ghost use Rattle.rv32_hart.specs.Hart.{without_outputs};

    ghost Value = { Unit {0} };

    ghost view = { λ s. tt };

    // It has no page, and has not been sent out.
    ghost invariant = { λ s. IfSome s.own (λ l. l.value ≡ fresh l.value.hart (without_outputs l.value.base) (length l.value.slots) idle) };
}

/// Nothing of a lease is needed, where there is one.
fn waste(own: Option<Box<hart_lease::Lease>>) {
    if let Some(own) = own {
        waste_one(own);
    }
}

/// Nothing of a lease is needed. Not inlined, since a function clears its locals when it begins, a lease is large, and one is seldom wasted.
#[inline(never)]
fn waste_one(own: Box<hart_lease::Lease>) {
    Box::into_inner(own).waste();
}

/// The lease in memory of its own.
fn boxed(alloc: Global, lease: hart_lease::Lease) -> Result<Box<hart_lease::Lease>, Memory>
    ensures { IfOk result (λ own. own.value ≡ lease) }
{
    match Box::new(alloc, lease) {
        Ok(own) => Ok(own),
        Err(refused) => {
            refused.value.waste();
            Err(Memory)
        }
    }
}

/// A lease in a place of its own. Not inlined either: only a book's first one has none to take.
#[inline(never)]
fn begun(
    alloc: Global,
    hart: Hart,
    state: &HartState,
    pages: u16,
) -> Result<Box<hart_lease::Lease>, Memory>
    requires pages { pages ≤ PAGE_LIMIT }
    ensures { IfOk result (λ l. l.value ≡ fresh hart (without_outputs state.now) pages idle) }
{
    boxed(alloc, hart_lease::Lease::fresh(alloc, hart, state, pages)?)
}

impl Spare {
    /// None yet.
    pub(crate) fn none() -> Spare {
        Spare { own: None }
    }

    /// Keeps a lease that came back.
    pub(crate) fn keep(&mut self, own: Box<hart_lease::Lease>)
        requires { own.value ≡ fresh own.value.hart (without_outputs own.value.base) (length own.value.slots) idle }
    {
        waste(mem::replace(&mut self.own, Some(own)));
    }

    /// A lease of a hart in this state but for its outputs, without steps and pages, which may not take any yet. It is begun in the
    /// place of the last one, where that had as many pages.
    pub(crate) fn lease(
        &mut self,
        alloc: Global,
        hart: Hart,
        state: &HartState,
        pages: u16,
    ) -> Result<Box<hart_lease::Lease>, Memory>
        requires pages { pages ≤ PAGE_LIMIT }
        ensures { IfOk result (λ l. l.value ≡ fresh hart (without_outputs state.now) pages idle) }
    {
        match mem::replace(&mut self.own, None) {
            None => {}
            Some(mut own) => {
                if own.pages() == pages as usize {
                    own.begin_anew(hart, state);
                    return Ok(own);
                }
                waste_one(own);
            }
        }
        begun(alloc, hart, state, pages)
    }
}
