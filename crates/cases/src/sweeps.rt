//! A case in many ways: each place of a range, and each value there.

use crate::cases::Case;
use crate::files::Change;
use crate::reading::Words;

/// A range of numbers or places, and of values, each with both its ends.
#[derive(Clone, Copy)]
pub struct Sweep<'t> {
    /// What is another one in each call: a byte of the last file, or what the heading of this name sets.
    what: &'t str,
    pub places: (usize, usize),
    pub values: (u8, u8),
}

impl<'t> Sweep<'t> {
    /// The sweep that these words spell.
    pub fn of_words(mut words: Words<'t>) -> Option<Sweep<'t>> {
        let what = words.word()?;
        let places = (words.size()?, words.size()?);
        let values = match what {
            "byte" => (words.byte()?, words.byte()?),
            _ => (0, 0),
        };
        Some(Sweep {
            what,
            places,
            values,
        })
    }
}

impl Case<'_> {
    /// Puts another byte at a place of the last file. Whether it is another one.
    fn set_byte(&mut self, place: usize, value: u8) -> Option<bool> {
        let file = self.files.last_mut()?;
        file.change = Change::Byte(place, value);
        Some(*file.bytes.get(place)? != value)
    }

    /// Makes it the case of this place and value. Whether it is another one than without the sweep.
    pub fn vary(&mut self, sweep: Sweep<'_>, place: usize, value: u8) -> bool {
        match sweep.what {
            "byte" => self.set_byte(place, value).unwrap_or(false),
            what => self.set(what, place).is_some(),
        }
    }
}
