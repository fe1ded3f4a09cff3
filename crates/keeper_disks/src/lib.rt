//! What becomes of a keeper's disk: act by act, events of the world of fencing.
#![tactic(auto)]

ghost use Rattle.ft_types.specs.Guests.{GuestParts};
ghost use Rattle.fenced_theory.specs.Recorders.{Recorder};
ghost use Rattle.fenced_theory.specs.Worlds.{Quorum};
ghost use Rattle.keeper_disks.specs.Standing.{DisksBegin, DisksCrash, DisksGo, DisksStay};

/// Whatever is done with a keeper's disk, by a keeper, by whoever hands its log over and by crashes, is events of the world of fencing.
pub fn disks_are_keepers<Book, Fact>()
    // A disk on which there is nothing stands for a keeper that has nothing.
    ensures begins { (guest : GuestParts) → DisksBegin Book guest }
    // It stands for it whatever becomes of others.
    ensures stays { (guest : GuestParts) → DisksStay Book guest }
    // Each can crash, with all of its log or what is on disk alone.
    ensures crashes { (guest : GuestParts) → DisksCrash Book guest }
    // And whatever is done with it is events, behind which it stands for it again.
    ensures goes { (recorder : Recorder Book Fact) (guest : GuestParts) (quorum : Quorum) → DisksGo recorder guest quorum }
{}
