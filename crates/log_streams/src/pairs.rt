//! What a pair is asked for, and who runs it.

ghost use Rattle.std.specs.Prelude.{◌≡◌, ◌<◌, ◌≤◌, ◌↔◌, IsSome, IfSome};
ghost use Rattle.ft_types.specs.declared.names.TheConstants.{KEEPER_LIMIT};
ghost use Rattle.scripts.specs.Script.{AreOffered};

use crate::budget::Budget;
use crate::faults::StreamsFault;
use crate::runs::Runs;
use ft_types::{Quorum, Sink};
use guest_image::Image;
use scripts::Offered;
use std::alloc::Global;

/// How far a pair goes, and how many keepers it has.
#[derive(Clone, Copy)]
pub struct PairOrders {
    budget: Budget,
    quorum: Quorum,
}

impl PairOrders {
    /// The orders of a pair whose harts may each go to the budget, with 1 to 5 keepers, of whom 1 to all must hold an output:
    /// `None` for other numbers.
    pub fn new(budget: Budget, keepers: u64, need: u64) -> Option<PairOrders>
        ensures exact { IsSome result ↔ ((0 < need) × (need ≤ keepers) × (keepers ≤ KEEPER_LIMIT)) }
        ensures parts { IfSome result (λ o. (o.budget ≡ budget) × (o.quorum.keepers ≡ keepers) × (o.quorum.need ≡ need)) }
    {
        let quorum = Quorum::new(keepers, need)?;
        Some(PairOrders { budget, quorum })
    }

    /// The limit of each hart.
    pub fn budget(&self) -> Budget
        ensures { result ≡ self.now.budget }
    {
        self.budget
    }

    /// How many keepers it has, and how many of them must hold an output before it goes out.
    pub fn quorum(&self) -> Quorum
        ensures { result ≡ self.now.quorum }
    {
        self.quorum
    }
}

/// Why a pair with a warm keeper comes to no end.
#[derive(Clone, Copy, PartialEq, Eq)]
pub enum WarmFault {
    /// A growth was refused.
    Memory,
    /// The writer failed.
    Write,
    /// No primary goes live at its end, by the number of that fault.
    Live(u8),
}

/// Who runs pairs, a primary, its keepers and a gate, beside runs and replays. How pairs run is in no contract here.
pub trait Pairs: Runs {
    /// Runs a primary of the image from boot, with what the script offers, beside keepers and a gate. Then it writes what went
    /// out, how much did not, and the primary's machine.
    fn run_pair<W: Sink>(
        &self,
        alloc: Global,
        image: &Image,
        script: &[Offered],
        orders: &PairOrders,
        out: &mut W,
    ) -> Result<(), StreamsFault>
        requires may { Self.may_run self.now }
        requires script { AreOffered image.now.harts script.now };

    /// Runs a pair whose first keeper is warm: at its end a primary of the next term goes live from that keeper's machine and what the
    /// others hold. Then it writes what `run_pair` does, and what the new primary has.
    fn run_pair_warm<W: Sink>(
        &self,
        alloc: Global,
        image: &Image,
        script: &[Offered],
        orders: &PairOrders,
        out: &mut W,
    ) -> Result<(), WarmFault>
        requires may { Self.may_run self.now }
        requires script { AreOffered image.now.harts script.now };
}
