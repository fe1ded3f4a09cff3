//! The processes of a pair together: no answer that was told is lost or changed, whatever they do and whatever is lost.
#![tactic(auto)]

ghost use Rattle.process_world.specs.Promises.{Processes};

/// Whatever processes do, in whatever order, wherever they or their machines crash, and whatever a network does: each answer that was told has one word,
/// which is on the disks of enough keepers, in each machine of its term or a later one, and in each later term's chain. And of the words that clients ask for
/// by their numbers each machine was given the first ones, each once and in order, over all terms.
pub fn processes()
    ensures { Processes }
{}
