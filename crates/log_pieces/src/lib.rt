//! Cuts the logs of a guest's harts into pieces, which are fragments.
#![tactic(auto)]

mod cut_laws;
mod cutting;
mod merging;
mod sealed;

pub use cut_laws::{one_cut, one_piece, whole_counts};
pub use cutting::{cut_logs, cut_pieces};
pub use sealed::Sealed;
