//! What can be wrong with an image file.

ghost use Rattle.std.specs.Prelude.{◌≡◌};
ghost use Rattle.guest_image.specs.Faults.{fault_number};

/// Why an image file isn't read.
#[derive(Clone, Copy, PartialEq, Eq)]
pub enum ImageFault {
    /// The line of this number, from 1, has another form.
    BadLine(u64),
    /// There are too many harts, pages or words.
    TooLarge,
    /// The first line isn't one of a number of harts.
    NoHarts,
    /// A growth was refused.
    Memory,
}

impl ImageFault {
    /// The fault's number, 1 to 4.
    pub fn number(self) -> u8
        ensures { result ≡ fault_number self }
    {
        match self {
            ImageFault::BadLine(_) => 1,
            ImageFault::TooLarge => 2,
            ImageFault::NoHarts => 3,
            ImageFault::Memory => 4,
        }
    }
}
