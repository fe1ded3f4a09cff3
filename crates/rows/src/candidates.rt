//! Which terms candidates may stand in.

use crate::tables::{all_right, number, row, word};
use ballots::{candidate_of, next_ballot, next_renewal, renewal_of, round_of};
use ft_types::Term;

/// Above which term a candidate's next one is which; what a term is renewed as; of which round and whose a term is, and how often renewed.
static TERMS: &str = "\
next 0 0|1
next 0 1|2
next 0 32766|32767
next 0 32767|32768
next 0 32768|65536
next 0 36864|65536
next 1 0|36864
next 1 36863|36864
next 1 36864|69632
next 7 32768|61440
next 8 0|none
next 0 4294934527|4294934528
next 0 4294934528|none
next 7 4294963199|4294963200
next 7 4294963200|none
next 7 4294967295|none
renew 32767|none
renew 32768|32769
renew 36862|36863
renew 36863|none
renew 4294967294|4294967295
renew 4294967295|none
whose 32767|0 0 0
whose 32768|1 0 0
whose 36865|1 1 1
whose 4294967295|131071 7 4095
";

fn term(text: &str) -> Term {
    number(text).min(u64::from(u32::MAX)) as Term
}

/// Whether this term is answered, or `none`.
fn is_term(found: Option<Term>, answer: &str) -> bool {
    match found {
        Some(found) => number(answer) == u64::from(found),
        None => answer == "none",
    }
}

/// Whether a term's round, its candidate and how often it was renewed are answered.
fn is_whose(of: Term, answer: &str) -> bool {
    let (round, rest) = word(answer);
    let (candidate, renewal) = word(rest);
    term(round) == round_of(of)
        && term(candidate) == candidate_of(of)
        && term(renewal) == renewal_of(of)
}

fn is_right(asked: &str, answer: &str) -> bool {
    let (what, of) = word(asked);
    let (first, second) = word(of);
    match what {
        "next" => is_term(next_ballot(term(first), term(second)), answer),
        "renew" => is_term(next_renewal(term(first)), answer),
        _ => is_whose(term(first), answer),
    }
}

/// The first row that is answered otherwise.
fn first_wrong(rows: &'static str) -> Option<&'static str> {
    for line in rows.lines() {
        let (asked, answer) = row(line);
        if !is_right(asked, answer) {
            return Some(line);
        }
    }
    None
}

#[test]
fn terms_of_candidates(rt: HostRuntime) {
    all_right(&rt, first_wrong(TERMS));
}
