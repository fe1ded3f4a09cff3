//! Logs of which edges are changed.

use edge_log::Edge;
use fixtures::Dice;
use fragment_codec::{Fragment, Frame, Record};
use ft_types::{Count, Memory};
use std::alloc::Global;

/// A change of one edge of a log, piece by piece.
#[derive(Clone, Copy)]
struct Change {
    /// How many edges stand before it.
    place: usize,
    /// How many edges have been passed.
    passed: usize,
    /// After how many more steps it is to be. None, where it is taken out.
    more: Option<Count>,
}

impl Change {
    /// A change of one of so many edges.
    fn fallen(edges: usize, more: Option<Count>, dice: &mut Dice) -> Change {
        let fallen = usize::from(u16::from_le_bytes([dice.roll(), dice.roll()]));
        Change {
            place: fallen.checked_rem(edges).unwrap_or(0),
            passed: 0,
            more,
        }
    }

    /// What becomes of the next record.
    fn next(&mut self, record: &Record) -> Option<Record> {
        let Record::Edge(edge) = record else {
            return Some(*record);
        };
        let passed = self.passed;
        self.passed = passed.saturating_add(1);
        if passed != self.place {
            return Some(*record);
        }
        let after = edge.after.saturating_add(self.more?);
        Some(Record::Edge(Edge { after, ..*edge }))
    }

    /// Adds what becomes of these records.
    fn add(&mut self, changed: &mut Vec<Record>, records: &[Record]) -> Result<(), Memory> {
        for record in records {
            if let Some(record) = self.next(record) {
                changed.push(record)?;
            }
        }
        Ok(())
    }

    /// What becomes of the next piece.
    fn piece(&mut self, alloc: Global, piece: &Fragment) -> Result<Frame, Memory> {
        let mut changed = Vec::new(alloc);
        self.add(&mut changed, piece.records())?;
        let (from, to) = (piece.from(), piece.to());
        match Fragment::new(piece.guest(), piece.key(), from, to, changed) {
            Some(piece) => Ok(Frame::Log(piece)),
            None => Err(Memory),
        }
    }

    /// Adds what becomes of these pieces.
    fn add_pieces(
        &mut self,
        alloc: Global,
        changed: &mut Vec<Frame>,
        pieces: &[Frame],
    ) -> Result<(), Memory> {
        for piece in pieces {
            if let Frame::Log(piece) = piece {
                changed.push(self.piece(alloc, piece)?)?;
            }
        }
        Ok(())
    }

    /// What becomes of all pieces.
    fn pieces(&mut self, alloc: Global, pieces: &[Frame]) -> Result<Vec<Frame>, Memory> {
        let mut changed = Vec::new(alloc);
        self.add_pieces(alloc, &mut changed, pieces)?;
        Ok(changed)
    }
}

/// How many edges the pieces have.
fn edges_in(pieces: &[Frame]) -> usize {
    let mut edges = 0usize;
    for piece in pieces {
        if let Frame::Log(piece) = piece {
            for record in piece.records() {
                if let Record::Edge(_) = record {
                    edges = edges.saturating_add(1);
                }
            }
        }
    }
    edges
}

/// The pieces, of which an edge that falls by chance is taken out, and another one is of later steps, if it is to be.
pub fn changed(
    alloc: Global,
    pieces: &[Frame],
    later: bool,
    dice: &mut Dice,
) -> Result<Vec<Frame>, Memory> {
    let edges = edges_in(pieces);
    let lacking = Change::fallen(edges, None, dice).pieces(alloc, pieces)?;
    if !later {
        return Ok(lacking);
    }
    let more = 1 + u64::from(dice.roll() % 16);
    Change::fallen(edges.saturating_sub(1), Some(more), dice).pieces(alloc, &lacking)
}
