//! Worked rows of what needs no book: words and instructions, counts and sets, inputs, edges and rights, pages, harts and machines
//! without a run, the laws of interleavings, and boards and gates, also on threads. What runs show stands in the cases of the program.
#![tactic(auto)]

#[cfg(test)]
mod attending;
#[cfg(test)]
mod boards;
#[cfg(test)]
mod candidates;
#[cfg(test)]
mod desks;
#[cfg(test)]
mod edges;
#[cfg(test)]
mod gates;
#[cfg(test)]
mod images;
#[cfg(test)]
mod inputs;
#[cfg(test)]
mod isa;
#[cfg(test)]
mod laws;
#[cfg(test)]
mod lines;
#[cfg(test)]
mod machines;
#[cfg(test)]
mod names;
#[cfg(test)]
mod notes;
#[cfg(test)]
mod packets;
#[cfg(test)]
mod queues;
#[cfg(test)]
mod races;
#[cfg(test)]
mod rights;
#[cfg(test)]
mod schedules;
#[cfg(test)]
mod tables;
