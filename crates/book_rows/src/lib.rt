//! The tests of books and their logs, of primaries, and of going live, that no command of the program shows: rows of calls, each with what it
//! answers; what a feed tells byte by byte, what stores and tracked positions answer, positions of logs that fall by chance beside those from
//! scratch, plans, pieces of a book, and what stays where memory is refused; and a primary's decisions, as a process of its own takes them.
//! One crate has them all, since each crate of tests pays once for reading what lies below it.
#![tactic(auto)]

#[cfg(test)]
mod again;
#[cfg(test)]
mod begun;
#[cfg(test)]
mod bytes;
#[cfg(test)]
mod chances;
#[cfg(test)]
mod come;
#[cfg(test)]
mod guests;
#[cfg(test)]
mod heard;
#[cfg(test)]
mod lent;
#[cfg(test)]
mod live;
#[cfg(test)]
mod logged;
#[cfg(test)]
mod pieces;
#[cfg(test)]
mod plays;
#[cfg(test)]
mod positions;
#[cfg(test)]
mod primaries;
#[cfg(test)]
mod recorded;
#[cfg(test)]
mod replays;
#[cfg(test)]
mod rows;
#[cfg(test)]
mod runs;
#[cfg(test)]
mod sessions;
#[cfg(test)]
mod starts;
#[cfg(test)]
mod terms;
#[cfg(test)]
mod tracked;
