//! How far the frames of a store reach: the chain of its terms, and the greatest closed cut along it.
#![tactic(auto)]

mod ancestry;
mod gathering;
mod laws;
mod lowering;
mod walk;

pub use ancestry::{chain, opening_of};
pub use ft_types::Position;
pub use gathering::piece_from;
pub use laws::{one_position, positions_on_chains};
pub use walk::position;
