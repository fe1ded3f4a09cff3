//! What a log has.

ghost use Rattle.std.specs.Prelude.{◌≡◌, length, IfOk};
ghost use Rattle.log_mending.specs.Checking.{IsChecked};

use crate::faults::Misfit;
use crate::gathering::{Gathered, gather};
use closed_cut::position;
use fragment_codec::{Frame, FrameFault};
use ft_types::{Guest, Memory, Position, Term};
use stations::{LogFront, read_frames};
use std::alloc::Global;
use std::option::Option;
use std::result::Result;

/// What a log has.
#[derive(Drop)]
pub struct Checked {
    /// How many whole right frames stand at its front.
    pub frames: usize,
    /// How many bytes they are.
    pub size: usize,
    /// The fault that stands behind them, where it is not less than a frame.
    pub fault: Option<FrameFault>,
    /// How many of them a keeper takes: all before the first that does not go with those before it.
    pub taken: usize,
    /// Why it does not take that one, where there is one.
    pub misfit: Option<Misfit>,
    /// The greatest term of those that it takes.
    pub last_term: Term,
    /// Their position.
    pub position: Position,
}

fn number_of(frames: &[Frame]) -> usize
    ensures { result ≡ length frames.now }
{
    frames.len()
}

/// What a log has, whatever stands in it.
pub fn check(alloc: Global, guest: Guest, log: &[u8]) -> Result<Checked, Memory>
    ensures { IfOk result (λ checked. IsChecked guest log.now checked) }
{
    let LogFront {
        frames,
        size,
        fault,
    } = read_frames(alloc, log)?;
    let many = number_of(&frames);
    let Gathered {
        store,
        taken,
        misfit,
    } = gather(alloc, guest, frames)?;
    let position = position(alloc, &store)?;
    Ok(Checked {
        frames: many,
        size,
        fault,
        taken,
        misfit,
        last_term: store.last_term(),
        position,
    })
}
