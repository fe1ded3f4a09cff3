//! What is new in a primary's book: outputs that were not told, and pieces of its log that were not cut.

ghost use Rattle.std.specs.Prelude.{◌≡◌, ◌++◌, ◌∷◌, ℕ, List, [], Some, length, slice_get, slice_index, IfOk, OnOk};
ghost use Rattle.rv32_hart.specs.Hart.{Hart as HartRecord};
ghost use Rattle.fragment_codec.specs.declared.frame.Frame.{Frame as frame_of_specs};
ghost use Rattle.fragment_codec.specs.declared.frame.Frame.TheVariants.{Opening as OpeningFrame};
ghost use Rattle.log_pieces.specs.Pieces.{IsCut, book_log};
ghost use Rattle.primary.specs.Outputs.{outputs_since as since};

use crate::adding::add_all;
use fragment_codec::{Frame, Opening};
use ft_types::{HART_ROW, Memory, Output};
use guest_image::Machine;
use log_pieces::{Sealed, cut_pieces};
use page_book::{Book, Recording};
use primary::{outputs_since, outputs_told};
use std::alloc::Global;
use std::result::Result;

/// What was taken of a primary's book, and is to be sent.
#[derive(Drop)]
pub(crate) struct News {
    /// The opening of the primary's term.
    pub(crate) opening: Opening,
    /// How far its log was cut.
    pub(crate) sealed: Sealed,
    /// How many outputs of each hart were told.
    pub(crate) told: [usize; HART_ROW],
    /// What is to be sent.
    pub(crate) outputs: Vec<Output>,
    pub(crate) pieces: Vec<Frame>,
}

impl News {
    /// Of a primary whose log is cut so far: its opening is to be sent.
    pub(crate) fn new(alloc: Global, opening: Opening, sealed: Sealed) -> Result<News, Memory>
        ensures opening { IfOk result (λ n. n.opening ≡ opening) }
        ensures sealed { IfOk result (λ n. n.sealed ≡ sealed) }
        ensures pieces { IfOk result (λ n. n.pieces.items ≡ OpeningFrame opening ∷ []) }
        ensures outputs { IfOk result (λ n. n.outputs.items ≡ []) }
    {
        let mut pieces = Vec::new(alloc);
        pieces.push(Frame::Opening(opening.copy()))?;
        Ok(News {
            opening,
            sealed,
            told: [0; HART_ROW],
            outputs: Vec::new(alloc),
            pieces,
        })
    }

    /// Adds what the machine's harts have put out since.
    fn take_outputs(&mut self, alloc: Global, machine: &Machine) -> Result<(), Memory>
        ensures outputs { OnOk result (self.new.outputs.items ≡ self.old.outputs.items ++ since self.old.told machine.now) }
        ensures told { OnOk result ((hart : ℕ) (h : HartRecord) → slice_get machine.now.harts hart ≡ Some h →
            slice_index self.new.told hart ≡ length h.outputs) }
        ensures rest { self.new ≡ record self.old { outputs = self.new.outputs; told = self.new.told } }
    {
        let outputs = outputs_since(alloc, machine, &self.told)?;
        add_all(&mut self.outputs, outputs)?;
        self.told = outputs_told(machine);
        Ok(())
    }

    /// Cuts what the book's log has more into pieces, and adds them. It is refused, as memory is, where the book has other harts than
    /// the opening names, or has settled less than was cut.
    fn take_pieces(&mut self, alloc: Global, book: &Book<Recording>) -> Result<(), Memory>
        ensures pieces { OnOk result ((frames : List frame_of_specs)
            × IsCut (book_log self.old.opening.guest self.old.opening.term book.now) self.old.opening.guest.harts self.old.sealed frames self.new.sealed
            × (self.new.pieces.items ≡ self.old.pieces.items ++ frames)) }
        ensures rest { self.new ≡ record self.old { pieces = self.new.pieces; sealed = self.new.sealed } }
    {
        // proof: an opening's term was granted.
        let _rules = self.opening.base();
        let guest = self.opening.guest();
        let term = self.opening.term();
        let counts = book.counts();
        if counts.harts() != guest.harts() || !self.sealed.is_within(&counts) {
            return Err(Memory);
        }
        let pieces = cut_pieces(alloc, book, &guest, term, &mut self.sealed)?;
        add_all(&mut self.pieces, pieces)
    }

    /// Takes what the book has more: what its harts have put out since, and the pieces of its log from where it was cut to the settled
    /// counts. Where it is refused nobody may take more.
    pub(crate) fn take(&mut self, alloc: Global, book: &Book<Recording>) -> Result<(), Memory>
        ensures outputs { OnOk result (self.new.outputs.items ≡ self.old.outputs.items ++ since self.old.told book.now.machine) }
        ensures told { OnOk result ((hart : ℕ) (h : HartRecord) → slice_get book.now.machine.harts hart ≡ Some h →
            slice_index self.new.told hart ≡ length h.outputs) }
        ensures pieces { OnOk result ((frames : List frame_of_specs)
            × IsCut (book_log self.old.opening.guest self.old.opening.term book.now) self.old.opening.guest.harts self.old.sealed frames self.new.sealed
            × (self.new.pieces.items ≡ self.old.pieces.items ++ frames)) }
        ensures opening { self.new.opening ≡ self.old.opening }
    {
        self.take_outputs(alloc, book.machine())?;
        self.take_pieces(alloc, book)
    }
}
