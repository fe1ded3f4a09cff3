//! Tables that are texts: a row is a line, with a stroke between what is asked and what is answered. Each entry of a table of values would
//! be proved.

use ft_types::{Count, HART_LIMIT, Hart, read_number};
use std::process::Abort;

/// What is asked in a row, and what is answered: no table has a row without a stroke.
pub fn row(line: &str) -> (&str, &str) {
    match line.split_once('|') {
        Some(row) => row,
        None => (line, "no stroke"),
    }
}

/// What stands before a sign in a text, and behind it: of a text without it all, and nothing.
pub fn parts(text: &str, sign: char) -> (&str, &str) {
    match text.split_once(sign) {
        Some(parts) => parts,
        None => (text, ""),
    }
}

/// The first word of a text, and what stands behind it.
pub fn word(text: &str) -> (&str, &str) {
    parts(text, ' ')
}

/// A number, or one that is none of a table.
pub fn number_of(digits: &[u8]) -> u64 {
    match read_number(digits) {
        Some(number) => number,
        None => u64::MAX,
    }
}

/// As `number_of`, of a text.
pub fn number(text: &str) -> u64 {
    number_of(text.as_bytes())
}

/// The hart of the number that the digits spell, modulo the most harts that a guest has.
pub fn hart_of(digits: &[u8]) -> Hart {
    Hart::new((number_of(digits) % u64::from(HART_LIMIT)) as u8)
}

/// As `hart_of`, of a text.
pub fn hart(text: &str) -> Hart {
    hart_of(text.as_bytes())
}

/// Whether a count is the one that is answered, or `none`.
pub fn is_count(count: Option<Count>, answer: &str) -> bool {
    match count {
        Some(count) => number(answer) == count,
        None => answer == "none",
    }
}

/// Ends a test at a row that is answered otherwise.
pub fn all_right(rt: &impl Abort, wrong: Option<&str>) {
    if let Some(line) = wrong {
        panic!(rt; "{line}");
    }
}
