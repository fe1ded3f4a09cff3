//! A primary's book is what the theory of failover calls a recorder's book.
#![tactic(auto)]

ghost use Rattle.std.specs.Prelude.{ℕ};
ghost use Rattle.fenced_theory.specs.Recorders.{Recorder};
ghost use Rattle.book_recorder.specs.Sealings.{PiecesAreCuts, PiecesTellNotes};
ghost use Rattle.book_recorder.specs.TermBooks.{AreTheory, BootedAreTermBooks, LaterAreTermBooks, RevivedAreTermBooks};

/// A recording book is a run with its honest log, and goes on as such.
pub fn books_are_theory()
    ensures { (pages : ℕ) → AreTheory pages }
{}

/// So are those that begin at boot, that go on from others, and that begin at the machine of another at a cut.
pub fn term_books()
    ensures booted { BootedAreTermBooks }
    ensures later { LaterAreTermBooks }
    ensures revived { RevivedAreTermBooks }
{}

/// The pieces of a hart's log have the book's edges and the log's notes of their range.
pub fn pieces<Book, Fact>()
    ensures cuts { (recorder : Recorder Book Fact) → PiecesAreCuts recorder }
    ensures notes { PiecesTellNotes }
{}
