//! The names of files.

use ends::{Fault, NamedFile, name_at};
use live_words::{HandWords, KeeperWords, MakeWords};

/// The name of the file that a keeper's fault names, which for fences is the log's.
pub(crate) fn name_in_keeper<'a>(words: &KeeperWords<'a>, fault: &Fault) -> &'a str {
    match fault {
        Fault::File(NamedFile::Image, _) => words.image,
        Fault::File(NamedFile::Log | NamedFile::Fences, _) => words.log,
        Fault::File(NamedFile::Input(number), _) => name_at(&words.inputs, *number),
        Fault::File(NamedFile::Output(number), _) => name_at(&words.outputs, *number),
        _ => "",
    }
}

/// The name of the file that a fault names where a log is handed over, which for fences is the log's.
pub(crate) fn name_in_hand<'a>(words: &HandWords<'a>, fault: &Fault) -> &'a str {
    match fault {
        Fault::File(NamedFile::Image, _) => words.image,
        Fault::File(NamedFile::Log | NamedFile::Fences, _) => words.log,
        _ => "",
    }
}

/// The name of the file that a fault names where a log is made, which for fences is the log's.
pub(crate) fn name_in_make<'a>(words: &MakeWords<'a>, fault: &Fault) -> &'a str {
    match fault {
        Fault::File(NamedFile::Image, _) => words.image,
        Fault::File(NamedFile::Log | NamedFile::Fences, _) => words.log,
        _ => "",
    }
}
