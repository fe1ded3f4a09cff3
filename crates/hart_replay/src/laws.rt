//! What holds of each plan of honest frames.

ghost use Rattle.std.specs.Prelude.{List};
ghost use Rattle.interleaving.specs.Machine.{System};
ghost use Rattle.input_log.specs.declared.Input.{Input as input_of_specs};
ghost use Rattle.hart_replay.specs.Laws.{LegsFollow, LegsFindStart, PlansLeadToPosition, HonestFramesGather, HonestStoresJoin};
ghost use Rattle.hart_replay.specs.Primaries.{CutsArePieces, PiecesLast, PiecesTell, UnsealedIsOfBook, CutsSealMore, TermsGoOn};
ghost use Rattle.hart_replay.specs.Primaries.{BooksAreTerms, PrimariesAreHistories};
ghost use Rattle.hart_replay.specs.Failovers.{LegsEndAtCuts, PositionsAreCuts, PositionsAreKnown, NewTermsGrow, NewPiecesGrow};
ghost use Rattle.hart_replay.specs.Failovers.{HistoriesGoOn, StoresStay, LaterTermsAreNew, OutcomesBegin, BooksHaveCounts, BooksGoLive, BooksGoOn};
ghost use Rattle.hart_replay.specs.Failovers.{StoresOfImageStay, LaterTermsOfImage};

/// In a plan of a store of honest frames each leg follows its term, from the machine with which the term began. Whatever
/// schedules of the legs are taken, one after the other, they lead from boot to the history's machine at the position.
pub fn honest_plans<H, P>()
    ensures follow { (system : System H P (List input_of_specs)) → LegsFollow system }
    ensures find { (system : System H P (List input_of_specs)) → LegsFindStart system }
    ensures lead { (system : System H P (List input_of_specs)) → PlansLeadToPosition system }
{}

/// The frames of a recording book are honest: each piece that is cut of it has exactly its records in its range, also once
/// the book has gone on, and tells truly of its term. What is cut of it, time after time, is its term's frames, and the term
/// of a book that began at a place of an older term, or at boot, is a term of the history.
pub fn honest_primaries()
    ensures pieces { CutsArePieces }
    ensures last { PiecesLast }
    ensures tell { PiecesTell }
    ensures begin { UnsealedIsOfBook }
    ensures seal { CutsSealMore }
    ensures on { TermsGoOn }
    ensures terms { BooksAreTerms }
    ensures history { PrimariesAreHistories }
{}

/// Honest frames of one history come together as a store of honest frames, in whatever order and however often, and stores
/// of one history join to one of that history.
pub fn honest_stores<H, P>()
    ensures gather { (system : System H P (List input_of_specs)) → HonestFramesGather system }
    ensures join { (system : System H P (List input_of_specs)) → HonestStoresJoin system }
{}

/// The end of each leg of a plan of honest frames is a closed cut of its term, and so is the position, whose machine has
/// its counts, and whose term is none above those of the store.
pub fn honest_positions<H, P>()
    ensures legs { (system : System H P (List input_of_specs)) → LegsEndAtCuts system }
    ensures positions { (system : System H P (List input_of_specs)) → PositionsAreCuts system }
    ensures known { PositionsAreKnown }
{}

/// A history may go on with a term that was not granted, and that term with more pieces: each frame that it had it has, and
/// stores of honest frames stay what they are. A store that knows no term from a number on is one of the terms below it.
pub fn longer_histories<H, P, T>()
    ensures grow { NewTermsGrow T }
    ensures seal { NewPiecesGrow T }
    ensures terms { (system : System H P (List input_of_specs)) → HistoriesGoOn system }
    ensures stores { (system : System H P (List input_of_specs)) → StoresStay system }
    ensures later { (system : System H P (List input_of_specs)) → LaterTermsAreNew system }
{}

/// A recording book that begins at the machine of a position of honest frames, in a later term that was not granted, makes
/// the history one term longer, also while the book goes on.
pub fn honest_failovers()
    ensures begin { OutcomesBegin }
    ensures counts { BooksHaveCounts }
    ensures live { BooksGoLive }
    ensures on { BooksGoOn }
    ensures stores { StoresOfImageStay }
    ensures later { LaterTermsOfImage }
{}
