//! Leases: one hart and some pages, on loan, and what is known of them while they are out.
#![tactic(auto)]

mod alike;
mod asked;
mod given_pages;
mod laws;
mod lease;
mod lease_pages;
mod lent;
mod open_lease;
mod stretch;
mod taken;

pub use asked::Asked;
pub use laws::steps_of_leases;
pub use lease::Lease;
pub use lease_pages::{LeasePages, Slot};
pub use lent::{EDGE_ROOM, Lent};
pub use open_lease::OpenLease;
pub use stretch::Stretch;
pub use taken::{Taken, TakenPages};
