//! The names of files.

use ends::{Fault, NamedFile, name_at};
use live_words::ClientWords;

/// The name of the file that a fault names.
pub(crate) fn name_in<'a>(words: &ClientWords<'a>, fault: &Fault) -> &'a str {
    match fault {
        Fault::File(NamedFile::Words, _) => words.file,
        Fault::File(NamedFile::Input(number), _) => name_at(&words.answers, *number),
        Fault::File(NamedFile::Output(number), _) => name_at(&words.requests, *number),
        _ => "",
    }
}
