//! No term begins twice, though nobody knows which were begun.
#![tactic(auto)]

ghost use Rattle.std.specs.Prelude.{ℕ, Bool};
ghost use Rattle.ft_types.specs.Guests.{GuestParts};
ghost use Rattle.ballots.specs.Ballots.{may_stand};
ghost use Rattle.fenced_theory.specs.Recorders.{Recorder};
ghost use Rattle.fenced_theory.specs.Worlds.{Quorum};
ghost use Rattle.election_theory.specs.Laws.{Unique, Overlaps, Races, AreDealt};

/// Whatever candidates do, and whatever is lost, late or repeated, no term begins twice, where terms are dealt, as ballots are, or enough keepers
/// share one with any that are enough.
pub fn election<Book, Fact>()
    ensures unique { (recorder : Recorder Book Fact) (guest : GuestParts) (quorum : Quorum) (may : ℕ → ℕ → Bool) → Unique recorder guest quorum may }
    ensures dealt { AreDealt may_stand }
    ensures overlaps { (quorum : Quorum) → Overlaps quorum }
    ensures races { (recorder : Recorder Book Fact) → Races recorder }
{}
