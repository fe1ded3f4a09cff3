//! Why streams gave nothing.

use fragment_codec::FrameFault;
use ft_types::Memory;
use hart_replay::ReplayFault;
use thiserror::Error;

/// Why streams gave no text.
#[derive(Clone, Copy, Debug, PartialEq, Eq, Error)]
pub enum StreamsFault {
    #[error("stream {0} could not be read")]
    Read(usize),
    #[error("stream {0} has the frame fault {1:?}")]
    Frame(usize, FrameFault),
    #[error("stream {0} is of another guest")]
    Guest(usize),
    #[error("the log cannot be replayed: {0:?}")]
    Replay(ReplayFault),
    #[error("the text could not be written")]
    Write,
    #[error("memory was refused")]
    Memory,
}

impl From<Memory> for StreamsFault {
    ghost use Rattle.std.specs.Prelude.{◌≡◌};
    ghost use Rattle.log_streams.specs.declared.faults.StreamsFault.TheVariants.{Memory as NoMemory};

    ghost from_gives = { λ _ e. e ≡ NoMemory };

    fn from(_e: Memory) -> StreamsFault {
        StreamsFault::Memory
    }
}
