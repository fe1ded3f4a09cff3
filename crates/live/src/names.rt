//! The names of files.

use ends::{Fault, NamedFile, name_at};
use live_words::{CheckWords, MendWords, RenewWords};

/// The name of the file that a fault names where a log is looked at, which for fences is the log's.
pub(crate) fn name_in_check<'a>(words: &CheckWords<'a>, fault: &Fault) -> &'a str {
    match fault {
        Fault::File(NamedFile::Image, _) => words.image,
        Fault::File(NamedFile::Log | NamedFile::Fences, _) => words.log,
        _ => "",
    }
}

/// The name of the file that a fault names where a log is mended, which for fences is the log's.
pub(crate) fn name_in_mend<'a>(words: &MendWords<'a>, fault: &Fault) -> &'a str {
    match fault {
        Fault::File(NamedFile::Image, _) => words.image,
        Fault::File(NamedFile::Log | NamedFile::Fences, _) => words.log,
        Fault::File(NamedFile::From(number) | NamedFile::FromFences(number), _) => {
            name_at(&words.others, *number)
        }
        _ => "",
    }
}

/// The name of the file that a fault names where a log is made anew, which for fences is the log's.
pub(crate) fn name_in_renew<'a>(words: &RenewWords<'a>, fault: &Fault) -> &'a str {
    match fault {
        Fault::File(NamedFile::Image, _) => words.image,
        Fault::File(NamedFile::Log | NamedFile::Fences, _) => words.log,
        Fault::File(NamedFile::Handed(number), _) => name_at(&words.handed, *number),
        _ => "",
    }
}
