//! Terms as ballots. Which of them a candidate may stand in, and which are renewals.
#![tactic(auto)]

mod ballots;

pub use ballots::{
    BALLOT, CANDIDATES, FIRST_DEALT, ROUND, candidate_of, next_ballot, next_renewal, renewal_of,
    round_of,
};
