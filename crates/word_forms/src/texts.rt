//! The texts that a program tells of itself.

ghost use Rattle.std.specs.Prelude.{◌≡◌, ◌↔◌, true, is_some, IfOk, IfSome, IsTrue};
ghost use Rattle.word_forms.specs.Texts.{AskForText, AsksForText};

use crate::fault::WordsFault;
use crate::forms::{Form, program};
use crate::matching::fault_of;
use clap::Error;
use clap::error::ErrorKind;
use std::alloc::Global;
use std::result::Result;

/// A program, by what it tells of itself.
#[derive(Clone, Copy)]
pub struct Program {
    /// Its name, as its usage has it.
    pub name: &'static str,
    pub version: &'static str,
    /// What it does.
    pub about: &'static str,
    pub forms: &'static [Form],
}

/// Whether the word asks for a text.
fn is_flag(word: &str) -> bool
    ensures { IsTrue result ↔ AsksForText word.now }
{
    matches!(word, "--help" | "-h" | "--version" | "-V")
}

/// Whether the words are such a word, alone or behind one other.
fn ask_for_text(words: &[String]) -> bool
    ensures { IsTrue result ↔ AskForText words.now }
{
    match words {
        [word] | [_, word] => is_flag(word.as_str()),
        _ => false,
    }
}

/// The text that clap has in place of matches.
fn text_of(alloc: Global, error: Error) -> Result<String, WordsFault> {
    match error.kind() {
        ErrorKind::DisplayHelp | ErrorKind::DisplayVersion => Ok(format!(in alloc; "{error}")?),
        _ => Err(fault_of(error)),
    }
}

/// What clap tells where the words ask for a text.
fn told(alloc: Global, of: &Program, words: &[String]) -> Result<String, WordsFault> {
    let command = program(alloc, of.name, of.forms)?
        .version(of.version)
        .about(of.about)
        .subcommand_required(true);
    match command.try_get_matches_from(words) {
        Ok(_) => Err(WordsFault::Usage),
        Err(error) => text_of(alloc, error),
    }
}

/// The text that the words ask for: the help of the program, or of the form that their first word names, or its version. None where they ask for none.
pub fn read_text(
    alloc: Global,
    program: &Program,
    words: &[String],
) -> Result<Option<String>, WordsFault>
    ensures asked { IfOk result (λ text. IfSome text (λ told. AskForText words.now)) }
    ensures told { AskForText words.now → IfOk result (λ text. is_some text ≡ true) }
{
    if !ask_for_text(words) {
        return Ok(None);
    }
    match told(alloc, program, words) {
        Ok(text) => Ok(Some(text)),
        Err(fault) => Err(fault),
    }
}
