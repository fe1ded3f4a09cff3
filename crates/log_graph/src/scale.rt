//! Where steps stand in a picture.

use crate::canvas::Place;
use ft_types::{Count, Hart};

/// How far from the left the first step of all stands.
pub(crate) const LEFT: u64 = 90;

/// How many pixels all steps take.
pub(crate) const WIDTH: u64 = 1000;

/// How far from the top the first hart stands, and each one from the last.
const TOP: u64 = 60;

const ROW: u64 = 40;

/// How far the rows of a stream stand from each other.
const STREAM_ROW: u64 = 6;

/// How much room is behind the rows of a stream.
const STREAM_GAP: u64 = 14;

/// How many harts there are, and how many steps the longest of them has.
#[derive(Clone, Copy)]
pub(crate) struct Scale {
    pub(crate) harts: u8,
    pub(crate) steps: Count,
}

impl Scale {
    /// How far from the left a count stands: one that is past all steps at their end.
    pub(crate) fn x(&self, count: Count) -> u64 {
        let count = count.min(self.steps);
        let many = self.steps.max(1);
        LEFT + (u128::from(count) * u128::from(WIDTH) / u128::from(many)) as u64
    }

    /// Where a hart stands at a count.
    pub(crate) fn at(&self, hart: Hart, count: Count) -> Place {
        Place {
            x: self.x(count),
            y: TOP + ROW * u64::from(hart.number()),
        }
    }

    /// Where what a stream holds of a hart stands at a count.
    pub(crate) fn stored(&self, stream: u64, hart: Hart, count: Count) -> Place {
        Place {
            x: self.x(count),
            y: self
                .above(stream)
                .saturating_add(STREAM_ROW * u64::from(hart.number())),
        }
    }

    /// How far from the top the rows of the stream with this number begin.
    fn above(&self, stream: u64) -> u64 {
        let harts = u64::from(self.harts);
        let height = STREAM_ROW * harts + STREAM_GAP;
        (TOP + ROW * harts).saturating_add(height.saturating_mul(stream))
    }

    /// How much room so many streams take, with all above them.
    pub(crate) fn height(&self, streams: u64) -> u64 {
        self.above(streams).saturating_add(STREAM_GAP)
    }
}
