//! The form that words have.

use crate::fault::WordsFault;
use crate::forms::{Form, program};
use clap::error::ErrorKind;
use clap::{ArgMatches, Error};
use std::alloc::Global;
use std::result::Result;

/// Words by their form.
#[derive(Drop)]
pub struct Words<'a> {
    /// The form's name.
    pub name: &'static str,
    /// A word for each of the form's words, in its order.
    pub words: Vec<&'a str>,
    /// The paths, one to eight a row: those behind the words, or those of each name behind them, the first one first.
    pub rows: Vec<Vec<&'a str>>,
}

/// Why clap found nothing.
pub(crate) fn fault_of(error: Error) -> WordsFault {
    match error.kind() {
        ErrorKind::OutOfMemory => WordsFault::Memory,
        _ => WordsFault::Usage,
    }
}

/// The words of these names.
fn words_of<'a>(
    alloc: Global,
    matches: &ArgMatches<'a>,
    names: &[&str],
) -> Result<Vec<&'a str>, WordsFault> {
    let mut words = Vec::new(alloc);
    for name in names {
        match matches.get_str(name) {
            Some(word) => words.push(word)?,
            None => return Err(WordsFault::Usage),
        }
    }
    Ok(words)
}

/// Adds the paths of a command.
fn add_row<'a>(
    alloc: Global,
    matches: &ArgMatches<'a>,
    rows: &mut Vec<Vec<&'a str>>,
) -> Result<(), WordsFault> {
    match matches.get_strs("paths") {
        Some(paths) => {
            rows.push(paths.to_vec(alloc)?)?;
            Ok(())
        }
        None => Err(WordsFault::Usage),
    }
}

/// The matches behind the name of a command's only command.
fn behind<'m, 'a>(matches: &'m ArgMatches<'a>) -> Result<&'m ArgMatches<'a>, WordsFault> {
    match matches.subcommand() {
        Some((_, inner)) => Ok(inner),
        None => Err(WordsFault::Usage),
    }
}

/// The matches of the command behind, whose paths are added.
fn next<'m, 'a>(
    alloc: Global,
    matches: &'m ArgMatches<'a>,
    rows: &mut Vec<Vec<&'a str>>,
) -> Result<&'m ArgMatches<'a>, WordsFault> {
    let inner = behind(matches)?;
    add_row(alloc, inner, rows)?;
    Ok(inner)
}

/// The matches of the second command behind, whose paths are added behind those of the first.
fn second<'m, 'a>(
    alloc: Global,
    matches: &'m ArgMatches<'a>,
    rows: &mut Vec<Vec<&'a str>>,
) -> Result<&'m ArgMatches<'a>, WordsFault> {
    let first = next(alloc, matches, rows)?;
    next(alloc, first, rows)
}

/// Adds the paths of so many commands, none, two or five, one behind the other.
fn add_rows<'a>(
    alloc: Global,
    matches: &ArgMatches<'a>,
    many: usize,
    rows: &mut Vec<Vec<&'a str>>,
) -> Result<(), WordsFault> {
    if many == 0 {
        return Ok(());
    }
    let second_one = second(alloc, matches, rows)?;
    if many == 2 {
        return Ok(());
    }
    let fourth = second(alloc, second_one, rows)?;
    let _fifth = next(alloc, fourth, rows)?;
    Ok(())
}

/// What clap found for a form.
fn found<'a>(
    alloc: Global,
    form: &Form,
    matches: &ArgMatches<'a>,
) -> Result<Words<'a>, WordsFault> {
    let words = words_of(alloc, matches, form.words)?;
    let mut rows = Vec::new(alloc);
    if form.has_paths {
        add_row(alloc, matches, &mut rows)?;
    } else {
        add_rows(alloc, matches, form.behind.len(), &mut rows)?;
    }
    Ok(Words {
        name: form.name,
        words,
        rows,
    })
}

/// What clap found, by the form of that name.
fn found_among<'a>(
    alloc: Global,
    forms: &'static [Form],
    name: &str,
    matches: &ArgMatches<'a>,
) -> Result<Words<'a>, WordsFault> {
    for form in forms {
        if form.name == name {
            return found(alloc, form, matches);
        }
    }
    Err(WordsFault::Usage)
}

/// What clap finds in the words.
fn matches_of<'a>(
    alloc: Global,
    name: &'static str,
    forms: &'static [Form],
    words: &'a [String],
) -> Result<ArgMatches<'a>, WordsFault> {
    match program(alloc, name, forms)?.try_get_matches_from(words) {
        Ok(matches) => Ok(matches),
        Err(error) => Err(fault_of(error)),
    }
}

/// Whether a word begins with `-`.
fn has_option(words: &[String]) -> bool {
    for word in words {
        if let [b'-', ..] = word.as_bytes() {
            return true;
        }
    }
    false
}

/// The words of a program of that name, by the one of these forms that they have. A word that begins with `-` is refused before they are parsed.
pub fn read_form<'a>(
    alloc: Global,
    name: &'static str,
    forms: &'static [Form],
    words: &'a [String],
) -> Result<Words<'a>, WordsFault> {
    if has_option(words) {
        return Err(WordsFault::Usage);
    }
    match matches_of(alloc, name, forms, words)?.subcommand() {
        Some((found, inner)) => found_among(alloc, forms, found, inner),
        None => Err(WordsFault::Usage),
    }
}
