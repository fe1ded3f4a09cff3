//! Names, numbers and words of a line.

ghost use Rattle.std.specs.Prelude.{◌≡◌, ◌≤◌, ◌++◌, codes, length, OnOk};
ghost use Rattle.std.specs.List.{flat_map};
ghost use Rattle.step_lines.specs.Parts.{named, numbered, some_named, input_text, bytes_text};

use ft_types::{LineBuffer, Memory};
use input_log::Input;
use std::result::Result;

/// Adds a name and a word, each behind a space.
pub(crate) fn add_word(text: &mut Vec<u8>, name: &[u8], word: u32) -> Result<(), Memory>
    requires { length name.now ≤ 24 }
    ensures { OnOk result (text.new.items ≡ text.old.items ++ named name.now word) }
{
    let mut added = LineBuffer::new();
    added.push(b" ");
    added.push(name);
    added.push(b" ");
    added.push_word(word);
    text.extend_from_slice(added.as_slice())?;
    Ok(())
}

/// Adds a name and a number, each behind a space.
pub(crate) fn add_number(text: &mut Vec<u8>, name: &[u8], number: u64) -> Result<(), Memory>
    requires { length name.now ≤ 24 }
    ensures { OnOk result (text.new.items ≡ text.old.items ++ numbered name.now number) }
{
    let mut added = LineBuffer::new();
    added.push(b" ");
    added.push(name);
    added.push(b" ");
    added.push_number(number);
    text.extend_from_slice(added.as_slice())?;
    Ok(())
}

fn add_input(text: &mut Vec<u8>, input: Input) -> Result<(), Memory>
    ensures { OnOk result (text.new.items ≡ text.old.items ++ input_text input) }
{
    match input {
        Input::Timer => {
            text.extend_from_slice(b" timer")?;
            Ok(())
        }
        Input::Word(word) => add_word(text, b"word", word),
        Input::Bell(source) => add_number(text, b"bell", u64::from(source.number())),
    }
}

/// Adds what comes to a step.
pub(crate) fn add_inputs(text: &mut Vec<u8>, inputs: &[Input]) -> Result<(), Memory>
    ensures { OnOk result (text.new.items ≡ text.old.items ++ flat_map input_text inputs.now) }
{
    let Some((input, rest)) = inputs.split_first() else {
        return Ok(());
    };
    add_input(text, *input)?;
    add_inputs(text, rest)
}

/// Adds a name, and the address and the number of bytes of RAM.
pub(crate) fn add_bytes(
    text: &mut Vec<u8>,
    name: &[u8],
    bytes: Option<(u32, u32)>,
) -> Result<(), Memory>
    requires { length name.now ≤ 24 }
    ensures { OnOk result (text.new.items ≡ text.old.items ++ bytes_text name.now bytes) }
{
    let Some((address, number)) = bytes else {
        return Ok(());
    };
    let mut added = LineBuffer::new();
    added.push(b" ");
    added.push_word(number);
    add_word(text, name, address)?;
    text.extend_from_slice(added.as_slice())?;
    Ok(())
}

/// Adds a name and a word, where there is one.
pub(crate) fn add_some_word(
    text: &mut Vec<u8>,
    name: &[u8],
    word: Option<u32>,
) -> Result<(), Memory>
    requires { length name.now ≤ 24 }
    ensures { OnOk result (text.new.items ≡ text.old.items ++ some_named name.now word) }
{
    match word {
        Some(word) => add_word(text, name, word),
        None => Ok(()),
    }
}
