//! Outputs go out only once enough keepers acknowledged a position that holds their step.
#![tactic(auto)]

mod gate;
mod laws;
mod line;
mod look;
mod notes;

pub use ft_types::Output;
pub use gate::Gate;
pub use laws::outputs_go_in_order;
