//! What falls by chance: lists of events beside a plain world, and to processes, which keep what was told; guests and calls for what a primary records, for
//! audits of it, and for primaries that fail and go live. And for each rule of fencing a list by which a plain world without it lets out two words of one
//! number, and processes don't.
#![tactic(auto)]

#[cfg(test)]
mod acts;
#[cfg(test)]
mod again;
#[cfg(test)]
mod audits;
#[cfg(test)]
mod beside;
#[cfg(test)]
mod calls;
#[cfg(test)]
mod chance;
#[cfg(test)]
mod changes;
#[cfg(test)]
mod failures;
#[cfg(test)]
mod fault;
#[cfg(test)]
mod granting;
#[cfg(test)]
mod keeper;
#[cfg(test)]
mod lists;
#[cfg(test)]
mod live;
#[cfg(test)]
mod live_chance;
#[cfg(test)]
mod live_lists;
#[cfg(test)]
mod live_tally;
#[cfg(test)]
mod outcome;
#[cfg(test)]
mod paused;
#[cfg(test)]
mod plain;
#[cfg(test)]
mod plain_audits;
#[cfg(test)]
mod plain_primary;
#[cfg(test)]
mod programs;
#[cfg(test)]
mod releasing;
#[cfg(test)]
mod rules;
#[cfg(test)]
mod starts;
#[cfg(test)]
mod subject;
#[cfg(test)]
mod tally;
#[cfg(test)]
mod verdicts;
