//! The whole line.

ghost use Rattle.std.specs.Prelude.{◌≡◌, ◌++◌, ◌∷◌, [], codes, decimal, OnOk};
ghost use Rattle.std.specs.List.{flat_map};
ghost use Rattle.step_lines.specs.Parts.{input_text};
ghost use Rattle.step_lines.specs.Line.{front_text, fetched, used_text, made_text, halt_text, trap_text, mnemonic_text, step_line};

use crate::changes::{add_changes, add_rung, is_entry};
use crate::parts::{add_bytes, add_inputs, add_some_word, add_word};
use ft_types::{LineBuffer, Memory};
use input_log::Input;
use rv32_hart::HartState;
use std::option::Option;
use std::result::Result;

/// What a step finds and leaves outside its hart.
#[derive(Clone, Copy)]
pub struct Found {
    /// The bytes of RAM that it reads: their address, and the number that they are.
    pub read: Option<(u32, u32)>,
    /// Those that it writes.
    pub written: Option<(u32, u32)>,
    /// The word that it puts out.
    pub output: Option<u32>,
}

fn add_front(text: &mut Vec<u8>, hart: &HartState) -> Result<(), Memory>
    ensures { OnOk result (text.new.items ≡ text.old.items ++ front_text hart.now) }
{
    let mut front = LineBuffer::new();
    front.push(b"step ");
    front.push_number(hart.count());
    front.push(b" pc ");
    front.push_word(hart.pc());
    text.extend_from_slice(front.as_slice())?;
    Ok(())
}

/// The word that the step fetched: none where it entered an interrupt.
fn fetched_word(before: &HartState, after: &HartState, word: Option<u32>) -> Option<u32>
    ensures { result ≡ fetched before.now after.now word }
{
    let [.., cause] = after.csr_words();
    if is_entry(before, after) && cause >= 0x8000_0000 {
        return None;
    }
    word
}

fn add_used(text: &mut Vec<u8>, fetched: Option<u32>, found: Found) -> Result<(), Memory>
    ensures { OnOk result (text.new.items ≡ text.old.items ++ used_text fetched found) }
{
    add_some_word(text, b"fetch", fetched)?;
    add_bytes(text, b"read", found.read)?;
    add_bytes(text, b"write", found.written)
}

fn add_halt(text: &mut Vec<u8>, halted: bool) -> Result<(), Memory>
    ensures { OnOk result (text.new.items ≡ text.old.items ++ halt_text halted) }
{
    if halted {
        text.extend_from_slice(b" halt")?;
    }
    Ok(())
}

fn add_made(
    text: &mut Vec<u8>,
    before: &HartState,
    after: &HartState,
    output: Option<u32>,
) -> Result<(), Memory>
    ensures { OnOk result (text.new.items ≡ text.old.items ++ made_text before.now after.now output) }
{
    add_changes(text, before, after)?;
    add_some_word(text, b"out", output)?;
    add_rung(text, before, after)?;
    add_halt(text, after.is_halted())
}

fn add_trap(text: &mut Vec<u8>, before: &HartState, after: &HartState) -> Result<(), Memory>
    ensures { OnOk result (text.new.items ≡ text.old.items ++ trap_text before.now after.now) }
{
    let [.., cause] = after.csr_words();
    if is_entry(before, after) {
        return add_word(text, b"trap", cause);
    }
    Ok(())
}

fn add_mnemonic(text: &mut Vec<u8>, fetched: Option<u32>, mnemonic: &[u8]) -> Result<(), Memory>
    ensures { OnOk result (text.new.items ≡ text.old.items ++ mnemonic_text fetched mnemonic.now) }
{
    if fetched.is_some() {
        text.extend_from_slice(b" : ")?;
        text.extend_from_slice(mnemonic)?;
    }
    Ok(())
}

/// Adds what the line has behind the step's inputs.
fn add_rest(
    text: &mut Vec<u8>,
    before: &HartState,
    after: &HartState,
    word: Option<u32>,
    found: Found,
    mnemonic: &[u8],
) -> Result<(), Memory>
    ensures { OnOk result (text.new.items ≡ text.old.items ++ used_text (fetched before.now after.now word) found
        ++ made_text before.now after.now found.output ++ trap_text before.now after.now ++ mnemonic_text (fetched before.now after.now word) mnemonic.now) }
{
    let fetched = fetched_word(before, after, word);
    add_used(text, fetched, found)?;
    add_made(text, before, after, found.output)?;
    add_trap(text, before, after)?;
    add_mnemonic(text, fetched, mnemonic)
}

/// Adds the line of a step on these inputs, which leads the hart from the first state to the second. At its pc stands the word, if that is in RAM, and the mnemonic is what
/// it says.
pub fn add_step_line(
    text: &mut Vec<u8>,
    before: &HartState,
    inputs: &[Input],
    after: &HartState,
    word: Option<u32>,
    found: Found,
    mnemonic: &[u8],
) -> Result<(), Memory>
    ensures { OnOk result (text.new.items ≡ text.old.items ++ step_line before.now inputs.now after.now word found mnemonic.now) }
{
    add_front(text, before)?;
    add_inputs(text, inputs)?;
    add_rest(text, before, after, word, found, mnemonic)?;
    text.push(b'\n')?;
    Ok(())
}
