//! What is written of a log that is handed over to a term.

ghost use Rattle.std.specs.Prelude.{◌≡◌, ◌++◌, IfOk};
ghost use Rattle.ft_types.specs.Text.{line};
ghost use Rattle.wire.specs.Pairs.{pair_text};
ghost use Rattle.live_keeper.specs.Handing.{HandsOver, IsHandedOut};

use crate::faults::{fence_fault, log_fault};
use ends::Fault;
use ft_types::{Guest, Keeper, Memory, Term};
use stations::{HandedOver, KeeperFiles, fence_off};
use std::alloc::Global;
use std::result::Result;
use wire::{Pair, pair_line};

/// What is written of a log that was handed over.
#[derive(Drop)]
pub(crate) struct HandedOut<F: KeeperFiles + Drop> {
    /// The line of the pair, the line of keeper and term, and the frames.
    pub(crate) bytes: Vec<u8>,
    /// The files.
    pub(crate) files: F,
}

/// The line of a pair, and these bytes behind it.
fn behind_pair(alloc: Global, guest: &Guest, pair: &Pair, handed: &[u8]) -> Result<Vec<u8>, Memory>
    ensures { IfOk result (λ bytes. bytes.items ≡ line (pair_text guest.now pair.now) ++ handed.now) }
{
    let mut bytes = pair_line(guest, pair).as_slice().to_vec(alloc)?;
    bytes.extend_from_slice(handed)?;
    Ok(bytes)
}

/// All that `hand` does with a log: it is fenced off for the term, and then what it hands over to that term is written, behind the line of its pair.
pub(crate) fn hand_out<F: KeeperFiles + Drop>(
    alloc: Global,
    guest: &Guest,
    pair: &Pair,
    keeper: Keeper,
    term: Term,
    files: F,
) -> Result<HandedOut<F>, Fault>
    ensures out { IfOk result (λ h. IsHandedOut guest.now pair.now keeper term (F.acts files) (F.acts h.files) h.bytes.items) }
    ensures hands { IfOk result (λ h. HandsOver guest.now pair.now keeper term h.bytes.items) }
{
    let fenced = match fence_off(alloc, files, term) {
        Ok(fenced) => fenced,
        Err(refused) => return Err(fence_fault(refused.fault)),
    };
    match fenced.hand_over(alloc, guest, keeper) {
        Ok(HandedOver { bytes, files }) => {
            let bytes = behind_pair(alloc, guest, pair, &bytes)?;
            Ok(HandedOut { bytes, files })
        }
        Err(refused) => Err(log_fault(refused.fault)),
    }
}
