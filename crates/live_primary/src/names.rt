//! The names of files.

use ends::{Fault, NamedFile, name_at};
use live_words::PrimaryWords;

/// The name at a place of two rows, one behind the other.
fn name_in_two<'a>(first: &[&'a str], second: &[&'a str], number: usize) -> &'a str {
    if number < first.len() {
        name_at(first, number)
    } else {
        name_at(second, number - first.len())
    }
}

/// The name of the file that a fault names. Inputs are those of requests and then those of acknowledgements, outputs those of answers and then
/// those of frames.
pub(crate) fn name_in<'a>(words: &PrimaryWords<'a>, fault: &Fault) -> &'a str {
    match fault {
        Fault::File(NamedFile::Image, _) => words.image,
        Fault::File(NamedFile::Handed(number), _) => name_at(&words.handed, *number),
        Fault::File(NamedFile::Input(number), _) => {
            name_in_two(&words.requests, &words.acknowledgements, *number)
        }
        Fault::File(NamedFile::Output(number), _) => {
            name_in_two(&words.answers, &words.frames, *number)
        }
        _ => "",
    }
}
