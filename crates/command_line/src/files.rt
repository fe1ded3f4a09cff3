//! Where the program's files and what it is asked come from.

use ft_types::{Failed, Sink, Source};

/// Files by name.
pub trait Files {
    /// An opened file.
    type Reader: Source + Drop;

    /// A file that is being made.
    type Writer: Sink + Drop;

    /// Standard input.
    type Input: Source + Drop;

    /// Standard output, which holds nothing back.
    type Output: Sink + Drop;

    /// Opens a file.
    fn reader(&mut self, name: &str) -> Result<Self::Reader, Failed>;

    /// Makes a file, or empties the one that is there.
    fn maker(&mut self, name: &str) -> Result<Self::Writer, Failed>;

    /// Standard input, for a command that answers what comes.
    fn input(&mut self) -> Self::Input;

    /// Standard output, for the same.
    fn output(&mut self) -> Self::Output;
}
