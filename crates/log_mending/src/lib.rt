//! What a keeper's log has, whatever stands in it, and how it is mended: cut at its first fault, and filled from other keepers' logs.
#![tactic(auto)]

mod checking;
mod faults;
mod gathering;
mod mending;
mod scanning;

pub use checking::{Checked, check};
pub use faults::{MendFault, Misfit};
pub use mending::{mend, renew};
