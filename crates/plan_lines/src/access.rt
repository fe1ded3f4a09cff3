//! What a step uses of RAM.

/// Bytes that follow one another.
#[derive(Clone, Copy, PartialEq, Eq)]
pub struct Bytes {
    /// The address of the first one.
    pub first: u32,
    /// How many there are.
    pub length: u32,
}

/// Which bytes of RAM a step uses beside the word that it fetches.
#[derive(Clone, Copy, PartialEq, Eq)]
pub enum Access {
    /// None.
    Nothing,
    /// A load reads these.
    Reads(Bytes),
    /// A store writes these.
    Writes(Bytes),
    /// An atomic operation reads and writes these.
    Changes(Bytes),
}
