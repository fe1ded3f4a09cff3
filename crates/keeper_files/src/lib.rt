//! The files of a keeper over a disk: which calls are made of it, in their order, for what stations asks of them. The disk is a trait of bare calls; no path is named here.
#![tactic(auto)]

mod disk;
mod faults;
mod files;
mod making;
mod opening;
mod owners;

pub use disk::{Disk, Identity, Part};
pub use faults::{MakeFault, OpenFault};
pub use files::{DiskFiles, Known};
pub use making::{make_files, make_marked_files, unmark};
pub use opening::{open_for_hand, open_for_keeper};
