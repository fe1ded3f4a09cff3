//! Term (8 R + C) · 4096 + n is candidate C's of round R, renewed n times.

ghost use Rattle.std.specs.Prelude.{◌≡◌, ◌+◌, ◌/◌, ◌<◌, ◌≤◌, ◌^◌, ℕ, IfSome, IfNone, true, false};
ghost use Rattle.ballots.specs.Ballots as spec;

use ft_types::Term;
use std::option::Option;

/// How many candidates there are. Number 0 is a person.
pub const CANDIDATES: u32 = 8;

/// How many terms a ballot has: one to stand in, and its renewals.
pub const BALLOT: u32 = 4096;

/// How many terms a round has: a ballot of each candidate.
pub const ROUND: u32 = CANDIDATES * BALLOT;

/// The first term that is dealt. All below are a person's.
pub const FIRST_DEALT: Term = ROUND;

/// The round of a term.
pub fn round_of(term: Term) -> u32
    ensures { result ≡ term / ROUND }
{
    term / ROUND
}

/// Whose the term is.
pub fn candidate_of(term: Term) -> u32
    ensures { result ≡ spec.candidate_of term }
{
    if term < FIRST_DEALT {
        return 0;
    }
    term / BALLOT % CANDIDATES
}

/// How often the term was renewed.
pub fn renewal_of(term: Term) -> u32
    ensures { result ≡ spec.renewal_of term }
{
    if term < FIRST_DEALT {
        return 0;
    }
    term % BALLOT
}

/// The least term above this one that the candidate may stand in, unless its terms are used up.
pub fn next_ballot(candidate: u32, top: Term) -> Option<Term>
    ensures own { IfSome result (λ t. spec.may_stand candidate t ≡ true) }
    ensures above { IfSome result (λ t. top < t) }
    ensures first { IfSome result (λ t. (u : ℕ) → spec.may_stand candidate u ≡ true → top < u → t ≤ u) }
    ensures none { IfNone result ((u : ℕ) → spec.may_stand candidate u ≡ true → top < u → 2 ^ 32 ≤ u) }
{
    if candidate >= CANDIDATES {
        return None;
    }
    if candidate == 0 && top < FIRST_DEALT - 1 {
        return Some(top + 1);
    }
    // The first dealt ballot above the term, and how many of others stand before the candidate's.
    let first = (top / BALLOT + 1).max(CANDIDATES);
    let before = (candidate + CANDIDATES - first % CANDIDATES) % CANDIDATES;
    (first + before).checked_mul(BALLOT)
}

/// The term as which a term goes on, unless it can't be renewed or its renewals are used up.
pub fn next_renewal(term: Term) -> Option<Term>
    ensures next { IfSome result (λ t. (t ≡ term + 1) × (spec.has_next term ≡ true)) }
    ensures none { IfNone result (spec.has_next term ≡ false) }
{
    if term < FIRST_DEALT || renewal_of(term) == BALLOT - 1 {
        return None;
    }
    Some(term + 1)
}
