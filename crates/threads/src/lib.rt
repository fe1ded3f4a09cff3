//! The tests of threads: harts of primaries and replays, and pairs. Of what steers harts, and of followers, which keep up with stores.
#![tactic(auto)]

#[cfg(test)]
mod apart;
#[cfg(test)]
mod backups;
#[cfg(test)]
mod chances;
#[cfg(test)]
mod decisions;
#[cfg(test)]
mod deeds;
#[cfg(test)]
mod followers;
#[cfg(test)]
mod overseers;
#[cfg(test)]
mod pairs;
#[cfg(test)]
mod refused;
#[cfg(test)]
mod runs;
#[cfg(test)]
mod turnstiles;
#[cfg(test)]
mod virtual_time;
#[cfg(test)]
mod waiting;
