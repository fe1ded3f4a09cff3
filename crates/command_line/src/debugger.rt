//! Answers to a debugger.

use crate::faults::{CommandFault, written};
use crate::tracing::timeline_of;
use debugging::Dialogue;
use ft_types::{Sink, Source, write_all};
use guest_image::Image;
use std::alloc::Global;

/// How many bytes are read at once.
const PIECE: usize = 4096;

/// Answers what comes, until the dialogue is over or the input ends.
fn converse<I: Source, O: Sink>(
    alloc: Global,
    dialogue: Dialogue,
    input: &mut I,
    output: &mut O,
) -> Result<(), CommandFault> {
    let mut dialogue = dialogue;
    let mut piece = [0; PIECE];
    for _read in 0..u64::MAX {
        let Ok(count) = input.read(&mut piece) else {
            return Err(CommandFault::Input);
        };
        if count == 0 {
            break;
        }
        let (next, answers) = dialogue.hear(alloc, &piece[..count])?;
        dialogue = next;
        let sent = write_all(output, &answers);
        // Who leaves need not hear the last answer.
        if dialogue.is_over() {
            break;
        }
        written(sent)?;
    }
    Ok(())
}

/// Answers a debugger that looks at the frames of the streams, from boot on, until it leaves or its input ends.
pub fn debug_streams<R: Source, I: Source, O: Sink>(
    alloc: Global,
    image: &Image,
    readers: &mut [R],
    input: &mut I,
    output: &mut O,
) -> Result<(), CommandFault> {
    let line = timeline_of(alloc, image, readers)?;
    converse(alloc, Dialogue::begin(alloc, line), input, output)
}
