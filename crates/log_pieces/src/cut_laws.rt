//! What holds of all cuts of logs into pieces.

ghost use Rattle.std.specs.Prelude.{◌≡◌, ◌≤◌, ◌<◌, ◌==◌, ℕ, List, filter, count_by};
ghost use Rattle.std.specs.List.{flat_map};
ghost use Rattle.fragment_codec.specs.declared.frame.Frame.{Frame};
ghost use Rattle.fragment_codec.specs.Rules.{FragmentParts, count_of};
ghost use Rattle.fragment_codec.specs.Facts.{is_between, records_at};
ghost use Rattle.log_pieces.specs.Pieces.{HartLog, Mark, SealedView, IsPiece, IsHartCut, IsCut};

/// A log has one right cut.
pub fn one_cut()
    ensures hart { (log : HartLog) (old m n : Mark) (ps qs : List FragmentParts) → IsHartCut log old ps m → IsHartCut log old qs n → (ps ≡ qs) × (m ≡ n) }
    ensures all { (logs : ℕ → HartLog) (harts : ℕ) (old m n : SealedView) (fs gs : List Frame) → IsCut logs harts old fs m → IsCut logs harts old gs n →
        fs ≡ gs }
{}

/// A piece has all records of each of its counts.
pub fn whole_counts()
    ensures { (log : HartLog) (mark : Mark) (piece : FragmentParts) → IsPiece log mark piece → (count : ℕ) → piece.from ≤ count → count < piece.to →
        filter (λ fact. count_of fact == count) piece.records ≡ records_at count log.facts }
{}

/// Each count that is cut is in one piece, and all pieces together have each record of it, once and in order.
pub fn one_piece()
    ensures pieces { (log : HartLog) (old new : Mark) (pieces : List FragmentParts) → IsHartCut log old pieces new → (count : ℕ) → old.count ≤ count →
        count < new.count →
        count_by (λ piece. is_between piece.from piece.to count) pieces ≡ 1 }
    ensures records { (log : HartLog) (old new : Mark) (pieces : List FragmentParts) → IsHartCut log old pieces new → (count : ℕ) → old.count ≤ count →
        count < new.count →
        filter (λ fact. count_of fact == count) (flat_map (λ piece. piece.records) pieces) ≡ records_at count log.facts }
{}
