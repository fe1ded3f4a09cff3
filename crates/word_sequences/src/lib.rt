//! INSEQ counts words.
#![tactic(auto)]

ghost use Rattle.word_sequences.specs.Sequences.{CutsAreCounted, LogsAreCounted, RunsAreCounted};

/// Behind each run INSEQ of a hart is what it was and how many words the hart was given on the way, or its log has for it, modulo 2^32.
pub fn words_are_counted()
    ensures runs { RunsAreCounted }
    ensures logs { LogsAreCounted }
    ensures cuts { CutsAreCounted }
{}
