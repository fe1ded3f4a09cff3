//! What a pair prints.

ghost use Rattle.std.specs.Prelude.{◌≡◌, ◌+◌, ◌≤◌, ◌++◌, length, drop};
ghost use Rattle.std.specs.List.{flat_map};
ghost use Rattle.ft_types.specs.Devices.{Writes};
ghost use Rattle.guest_image.specs.Text.{machine_text};
ghost use Rattle.pair.specs.Printing.{output_line, kept_line, live_line, pair_text, parts_text, warm_text};

use crate::threads::PairEnd;
use crate::warm::WarmEnd;
use ft_types::{Failed, LineBuffer, Sink, put_before, put_number_before, write_all};
use guest_image::{Machine, put_word_line_before};
use output_gate::Output;

/// How many bytes are written at once.
const BLOCK: usize = 4096;

/// How many lines of outputs are written at once: each has at most 103 bytes.
const BLOCK_LINES: usize = 39;

/// Puts the line of an output that went out so that it ends at `end`, and says where it starts.
#[inline(always)]
#[tactic(auto, unfolding(crate::specs::Printing::output_line))]
fn put_output_before(block: &mut [u8], end: usize, output: &Output) -> usize
    requires room { 103 ≤ end }
    requires end { end ≤ length block.old }
    ensures start { (result ≤ end) × (end ≤ result + 103) }
    ensures written { drop result block.new ≡ output_line output.now ++ drop end block.old }
{
    let mut at = put_word_line_before(block, end, output.word);
    at = put_number_before(block, at, output.step);
    at = put_before(block, at, b" step ");
    at = put_number_before(block, at, output.number);
    at = put_before(block, at, b" number ");
    at = put_number_before(block, at, u64::from(output.hart.number()));
    put_before(block, at, b"released hart ")
}

/// Puts the lines of outputs at the end of the block, and says where they start.
fn put_outputs(block: &mut [u8], outputs: &[Output]) -> usize
    requires few { length outputs.now ≤ BLOCK_LINES }
    requires block { length block.old ≡ BLOCK }
    ensures start { result ≤ BLOCK }
    ensures lines { drop result block.new ≡ flat_map output_line outputs.now }
{
    let mut start = BLOCK;
    let mut left = outputs.len();
    while left > 0 {
        left -= 1;
        start = put_output_before(block, start, &outputs[left]);
    }
    start
}

/// Writes what went out, by hart and number.
fn write_outputs<W: Sink>(outputs: &[Output], out: &mut W) -> Result<(), Failed>
    ensures { Writes result (W.bytes out.old) (W.bytes out.new) (W.failures out.old) (W.failures out.new) (flat_map output_line outputs.now) }
{
    if outputs.is_empty() {
        return Ok(());
    }
    let mut block = [0; BLOCK];
    let mut first = 0;
    while first < outputs.len() {
        let count = (outputs.len() - first).min(BLOCK_LINES);
        let start = put_outputs(&mut block, &outputs[first..first + count]);
        write_all(out, &block[start..])?;
        first += count;
    }
    Ok(())
}

#[tactic(auto, unfolding(crate::specs::Printing::kept_line))]
fn write_kept<W: Sink>(kept: usize, out: &mut W) -> Result<(), Failed>
    ensures { Writes result (W.bytes out.old) (W.bytes out.new) (W.failures out.old) (W.failures out.new) (kept_line kept) }
{
    let mut text = LineBuffer::new();
    text.push(b"kept ");
    text.push_number(kept as u64);
    text.write(out)
}

/// Writes how many outputs did not go out, and the primary's machine.
fn write_rest<W: Sink>(kept: usize, machine: &Machine, out: &mut W) -> Result<(), Failed>
    ensures { Writes result (W.bytes out.old) (W.bytes out.new) (W.failures out.old) (W.failures out.new) (kept_line kept ++ machine_text machine.now) }
{
    write_kept(kept, out)?;
    machine.write_text(out)
}

/// Writes what went out, how much did not, and the primary's machine.
fn write_parts<W: Sink>(
    released: &[Output],
    kept: usize,
    machine: &Machine,
    out: &mut W,
) -> Result<(), Failed>
    ensures { Writes result (W.bytes out.old) (W.bytes out.new) (W.failures out.old) (W.failures out.new) (parts_text released.now kept machine.now) }
{
    write_outputs(released, out)?;
    write_rest(kept, machine, out)
}

/// Writes what a pair came to.
pub fn write_pair<W: Sink>(end: &PairEnd, out: &mut W) -> Result<(), Failed>
    ensures { Writes result (W.bytes out.old) (W.bytes out.new) (W.failures out.old) (W.failures out.new) (pair_text end.now) }
{
    write_parts(&end.released, end.kept, end.book.machine(), out)
}

/// Writes the term of the primary that went live, and how many steps were replayed for it.
fn write_live<W: Sink>(steps: u64, out: &mut W) -> Result<(), Failed>
    ensures { Writes result (W.bytes out.old) (W.bytes out.new) (W.failures out.old) (W.failures out.new) (live_line steps) }
{
    let mut text = LineBuffer::new();
    text.push(b"live term 2 replayed ");
    text.push_number(steps);
    text.write(out)
}

/// Writes the line of the primary that went live, and the machine with which it begins.
fn write_begun<W: Sink>(steps: u64, machine: &Machine, out: &mut W) -> Result<(), Failed>
    ensures { Writes result (W.bytes out.old) (W.bytes out.new) (W.failures out.old) (W.failures out.new) (live_line steps ++ machine_text machine.now) }
{
    write_live(steps, out)?;
    machine.write_text(out)
}

/// Writes what a pair with a warm keeper came to, and what the new primary has.
pub fn write_warm<W: Sink>(end: &WarmEnd, out: &mut W) -> Result<(), Failed>
    ensures { Writes result (W.bytes out.old) (W.bytes out.new) (W.failures out.old) (W.failures out.new) (warm_text end.now) }
{
    write_parts(&end.released, end.kept, end.book.machine(), out)?;
    write_begun(end.steps, end.live.book.machine(), out)
}
