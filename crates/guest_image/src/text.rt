//! The text of a machine.

ghost use Rattle.std.specs.Prelude.{◌≡◌, ℕ, ◌+◌, ◌*◌, ◌^◌, ◌<◌, ◌≤◌, ◌∷◌, ◌++◌, length, drop, codes, decimal};
ghost use Rattle.ft_types.specs.Devices.{Writes};
ghost use Rattle.ft_types.specs.Text.{line, word};
ghost use Rattle.guest_image.specs.Text.{numbered, status, spaced, hart_line, csr_line, device_line, register_line, output_line, count_line, rung_name};
ghost use Rattle.guest_image.specs.Text.{heard_name, hart_lines, bell_lines, hart_tables, hart_text, ram_line};
ghost use Rattle.guest_image.specs.Machine.{words_of};
ghost use Rattle.guest_image.specs.machinery.Fronts.{IsFront, AreFronts};

use crate::front::{Front, Fronts};
use ft_types::{Failed, LineBuffer, PAGE_LIMIT, Sink, put_before, put_word_before, write_all};
use rv32_hart::{HartState, PAGE_WORDS, RAM_BASE};

/// How many bytes are written at once: most blocks of lines are longer than what a buffered writer holds back, which then copies none.
const BLOCK: usize = 20480;

/// How many lines of outputs are written at once: each has at most 69 bytes.
const BLOCK_LINES: usize = 296;

fn status_text(halted: bool) -> &'static [u8]
    ensures text { result.now ≡ status halted }
    ensures short { length result.now ≤ 8 }
{
    if halted { b" halted" } else { b" running" }
}

#[tactic(auto, unfolding(crate::specs::Text::hart_line))]
fn write_hart_line<W: Sink>(hart: &HartState, out: &mut W) -> Result<(), Failed>
    ensures { Writes result (W.bytes out.old) (W.bytes out.new) (W.failures out.old) (W.failures out.new) (hart_line hart.now) }
{
    let mut text = LineBuffer::new();
    text.push(b"hart ");
    text.push_number(u64::from(hart.number().number()));
    text.push(b" count ");
    text.push_number(hart.count());
    text.push(b" pc ");
    text.push_word(hart.pc());
    text.push(status_text(hart.is_halted()));
    text.write(out)
}

fn push_words(text: &mut LineBuffer, words: &[u32])
    requires { length text.old + 9 * length words.now < 96 }
    ensures text { text.new ≡ text.old ++ spaced words.now }
    ensures length { length text.new ≡ length text.old + 9 * length words.now }
{
    for word in words {
        text.push(b" ");
        text.push_word(*word);
    }
}

#[tactic(auto, unfolding(crate::specs::Text::csr_line))]
fn write_csr_line<W: Sink>(hart: &HartState, out: &mut W) -> Result<(), Failed>
    ensures { Writes result (W.bytes out.old) (W.bytes out.new) (W.failures out.old) (W.failures out.new) (csr_line hart.now) }
{
    let mut text = LineBuffer::new();
    text.push(b"csr");
    let words = hart.csr_words();
    push_words(&mut text, &words);
    text.write(out)
}

#[tactic(auto, unfolding(crate::specs::Text::device_line))]
fn write_device_line<W: Sink>(hart: &HartState, out: &mut W) -> Result<(), Failed>
    ensures { Writes result (W.bytes out.old) (W.bytes out.new) (W.failures out.old) (W.failures out.new) (device_line hart.now) }
{
    let mut text = LineBuffer::new();
    text.push(b"dev");
    let words = hart.device_words();
    push_words(&mut text, &words);
    text.write(out)
}

#[tactic(auto, unfolding(crate::specs::Text::register_line))]
fn write_register<W: Sink>(number: usize, value: u32, out: &mut W) -> Result<(), Failed>
    ensures { Writes result (W.bytes out.old) (W.bytes out.new) (W.failures out.old) (W.failures out.new) (register_line number value) }
{
    let mut text = LineBuffer::new();
    if value == 0 {
        return Ok(());
    }
    text.push(b"x");
    text.push_number(number as u64);
    text.push(b" ");
    text.push_word(value);
    text.write(out)
}

/// Puts three bytes so that they end at `end`, and says where they start. One by one: what is put beside each other becomes one store,
/// where a piece of more than one byte is first asked whether it lies in the block.
#[inline(always)]
fn put_three_before(block: &mut [u8], end: usize, first: u8, second: u8, third: u8) -> usize
    requires room { 3 ≤ end }
    requires end { end ≤ length block.old }
    ensures start { result + 3 ≡ end }
    ensures written { drop result block.new ≡ first ∷ second ∷ third ∷ drop end block.old }
{
    block[end - 2] = second;
    block[end - 1] = third;
    block[end - 3] = first;
    end - 3
}

/// Puts what the line of an output has behind its step so that it ends at `end`, and says where it starts.
#[inline(always)]
pub fn put_word_line_before(block: &mut [u8], end: usize, value: u32) -> usize
    requires room { 15 ≤ end }
    requires end { end ≤ length block.old }
    ensures start { result + 15 ≡ end }
    ensures written { drop result block.new ≡ codes " word " ++ line (word value) ++ drop end block.old }
{
    let mut at = put_before(block, end, b"\n");
    at = put_word_before(block, at, value);
    at = put_three_before(block, at, b'r', b'd', b' ');
    put_three_before(block, at, b' ', b'w', b'o')
}

/// Puts the step of an output.
#[inline(always)]
fn put_step_before(block: &mut [u8], end: usize, steps: &mut Front, step: u64) -> usize
    requires steps { IsFront steps.old }
    requires room { 28 ≤ end }
    requires end { end ≤ length block.old }
    ensures steps { IsFront steps.new }
    ensures start { (result ≤ end) × (end ≤ result + 28) }
    ensures written { drop result block.new ≡ codes " step " ++ decimal step ++ drop end block.old }
{
    let mut at = steps.put(block, end, step);
    at = put_three_before(block, at, b'e', b'p', b' ');
    put_three_before(block, at, b' ', b's', b't')
}

/// Puts the number of an output, with which its line begins.
#[inline(always)]
fn put_out_before(block: &mut [u8], end: usize, numbers: &mut Front, number: usize) -> usize
    requires numbers { IsFront numbers.old }
    requires room { 26 ≤ end }
    requires end { end ≤ length block.old }
    ensures numbers { IsFront numbers.new }
    ensures start { (result ≤ end) × (end ≤ result + 26) }
    ensures written { drop result block.new ≡ codes "out " ++ decimal number ++ drop end block.old }
{
    let mut at = numbers.put(block, end, number as u64);
    at = put_three_before(block, at, b'u', b't', b' ');
    put_before(block, at, b"o")
}

/// Puts the line of an output so that it ends at `end`, and says where it starts.
#[inline(always)]
#[tactic(auto, unfolding(crate::specs::Text::output_line))]
fn put_output_before(
    block: &mut [u8],
    end: usize,
    fronts: &mut Fronts,
    number: usize,
    output: (u64, u32),
) -> usize
    requires fronts { AreFronts fronts.old }
    requires room { 69 ≤ end }
    requires end { end ≤ length block.old }
    ensures fronts { AreFronts fronts.new }
    ensures start { (result ≤ end) × (end ≤ result + 69) }
    ensures written { drop result block.new ≡ output_line number output ++ drop end block.old }
{
    let mut at = put_word_line_before(block, end, output.1);
    at = put_step_before(block, at, &mut fronts.step, output.0);
    put_out_before(block, at, &mut fronts.number, number)
}

/// Puts the lines of outputs, of which the first has this number, at the end of the block, and says where they start.
fn put_outputs(block: &mut [u8], fronts: &mut Fronts, first: usize, outputs: &[(u64, u32)]) -> usize
    requires fronts { AreFronts fronts.old }
    requires few { length outputs.now ≤ BLOCK_LINES }
    requires numbers { first + length outputs.now < 2 ^ 64 }
    requires block { length block.old ≡ BLOCK }
    ensures fronts { AreFronts fronts.new }
    ensures start { result ≤ BLOCK }
    ensures lines { drop result block.new ≡ numbered output_line first outputs.now }
{
    let mut start = BLOCK;
    let mut left = outputs.len();
    let mut number = first + left;
    while left > 0 {
        left -= 1;
        number -= 1;
        start = put_output_before(block, start, fronts, number, outputs[left]);
    }
    start
}

#[tactic(auto, unfolding(crate::specs::Text::count_line))]
fn write_count<W: Sink>(name: &[u8], number: usize, count: u64, out: &mut W) -> Result<(), Failed>
    requires { length name.now ≤ 10 }
    ensures { Writes result (W.bytes out.old) (W.bytes out.new) (W.failures out.old) (W.failures out.new) (count_line name.now number count) }
{
    if count == 0 {
        return Ok(());
    }
    let mut text = LineBuffer::new();
    text.push(name);
    text.push_number(number as u64);
    text.push(b" ");
    text.push_number(count);
    text.write(out)
}

#[tactic(auto, unfolding(crate::specs::Text::ram_line))]
fn write_ram_word<W: Sink>(number: u32, contents: u32, out: &mut W) -> Result<(), Failed>
    requires { number < 2 ^ 20 }
    ensures { Writes result (W.bytes out.old) (W.bytes out.new) (W.failures out.old) (W.failures out.new) (ram_line number contents) }
{
    if contents == 0 {
        return Ok(());
    }
    let mut text = LineBuffer::new();
    text.push_word(RAM_BASE + number * 4);
    text.push(b" ");
    text.push_word(contents);
    text.write(out)
}

fn write_registers<W: Sink>(first: usize, values: &[u32], out: &mut W) -> Result<(), Failed>
    requires { first + length values.now < 2 ^ 32 }
    ensures { Writes result (W.bytes out.old) (W.bytes out.new) (W.failures out.old) (W.failures out.new) (numbered register_line first values.now) }
{
    for (i, value) in values.iter().enumerate() {
        write_register(first + i, *value, out)?;
    }
    Ok(())
}

fn write_outputs<W: Sink>(outputs: &[(u64, u32)], out: &mut W) -> Result<(), Failed>
    ensures { Writes result (W.bytes out.old) (W.bytes out.new) (W.failures out.old) (W.failures out.new) (numbered output_line 0 outputs.now) }
{
    if outputs.is_empty() {
        return Ok(());
    }
    let mut block = [0; BLOCK];
    let mut fronts = Fronts::new();
    let mut first = 0;
    while first < outputs.len() {
        let count = (outputs.len() - first).min(BLOCK_LINES);
        let start = put_outputs(
            &mut block,
            &mut fronts,
            first,
            &outputs[first..first + count],
        );
        write_all(out, &block[start..])?;
        first += count;
    }
    Ok(())
}

fn write_counts<W: Sink>(name: &[u8], counts: &[u64], out: &mut W) -> Result<(), Failed>
    requires { length name.now ≤ 10 }
    ensures { Writes result (W.bytes out.old) (W.bytes out.new) (W.failures out.old) (W.failures out.new) (numbered (count_line name.now) 0 counts.now) }
{
    for (i, count) in counts.iter().enumerate() {
        write_count(name, i, *count, out)?;
    }
    Ok(())
}

fn write_hart_registers<W: Sink>(hart: &HartState, out: &mut W) -> Result<(), Failed>
    ensures { Writes result (W.bytes out.old) (W.bytes out.new) (W.failures out.old) (W.failures out.new)
        (numbered register_line 1 (drop 1 hart.now.registers)) }
{
    write_registers(1, hart.registers(), out)
}

fn write_hart_outputs<W: Sink>(hart: &HartState, out: &mut W) -> Result<(), Failed>
    ensures { Writes result (W.bytes out.old) (W.bytes out.new) (W.failures out.old) (W.failures out.new) (numbered output_line 0 hart.now.outputs) }
{
    write_outputs(hart.outputs(), out)
}

fn write_hart_rung<W: Sink>(hart: &HartState, out: &mut W) -> Result<(), Failed>
    ensures { Writes result (W.bytes out.old) (W.bytes out.new) (W.failures out.old) (W.failures out.new) (numbered (count_line rung_name) 0 hart.now.rung) }
{
    write_counts(b"rung ", hart.rung(), out)
}

fn write_hart_heard<W: Sink>(hart: &HartState, out: &mut W) -> Result<(), Failed>
    ensures { Writes result (W.bytes out.old) (W.bytes out.new) (W.failures out.old) (W.failures out.new)
        (numbered (count_line heard_name) 0 hart.now.received.heard) }
{
    write_counts(b"heard ", hart.heard(), out)
}

#[tactic(auto, unfolding(crate::specs::Text::hart_lines))]
fn write_hart_lines<W: Sink>(hart: &HartState, out: &mut W) -> Result<(), Failed>
    ensures { Writes result (W.bytes out.old) (W.bytes out.new) (W.failures out.old) (W.failures out.new) (hart_lines hart.now) }
{
    write_hart_line(hart, out)?;
    write_csr_line(hart, out)?;
    write_device_line(hart, out)
}

#[tactic(auto, unfolding(crate::specs::Text::bell_lines))]
fn write_bell_lines<W: Sink>(hart: &HartState, out: &mut W) -> Result<(), Failed>
    ensures { Writes result (W.bytes out.old) (W.bytes out.new) (W.failures out.old) (W.failures out.new) (bell_lines hart.now) }
{
    write_hart_rung(hart, out)?;
    write_hart_heard(hart, out)
}

#[tactic(auto, unfolding(crate::specs::Text::hart_tables))]
fn write_hart_tables<W: Sink>(hart: &HartState, out: &mut W) -> Result<(), Failed>
    ensures { Writes result (W.bytes out.old) (W.bytes out.new) (W.failures out.old) (W.failures out.new) (hart_tables hart.now) }
{
    write_hart_registers(hart, out)?;
    write_hart_outputs(hart, out)?;
    write_bell_lines(hart, out)
}

/// Writes the text of a hart.
#[tactic(auto, unfolding(crate::specs::Text::hart_text))]
pub(crate) fn write_hart<W: Sink>(hart: &HartState, out: &mut W) -> Result<(), Failed>
    ensures { Writes result (W.bytes out.old) (W.bytes out.new) (W.failures out.old) (W.failures out.new) (hart_text hart.now) }
{
    write_hart_lines(hart, out)?;
    write_hart_tables(hart, out)
}

/// Writes the lines of a page's words.
pub(crate) fn write_page<W: Sink>(number: u32, bytes: &[u8], out: &mut W) -> Result<(), Failed>
    requires number { number < PAGE_LIMIT }
    requires size { length bytes.now ≤ 4096 }
    ensures { Writes result (W.bytes out.old) (W.bytes out.new) (W.failures out.old) (W.failures out.new) (numbered ram_line (number * 1024)
        (words_of bytes.now)) }
{
    let mut rest = bytes;
    let mut place = number * PAGE_WORDS;
    while rest.len() >= 4 {
        let value = u32::from_le_bytes([rest[0], rest[1], rest[2], rest[3]]);
        write_ram_word(place, value, out)?;
        rest = &rest[4..];
        place += 1;
    }
    Ok(())
}
