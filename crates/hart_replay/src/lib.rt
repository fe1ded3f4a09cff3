//! Replays of logs: what a store asks of each hart, term by term, and the machine to which that leads.
#![tactic(auto)]

mod counting;
mod facts;
mod fault;
mod going;
mod laws;
mod leading;
mod onward;
mod plain;
mod planning;
mod plans;

pub use counting::steps_in;
pub use facts::{add_edges, add_inputs, add_notes};
pub use fault::ReplayFault;
pub use going::{lead_all, lead_through};
pub use laws::{
    honest_failovers, honest_plans, honest_positions, honest_primaries, honest_stores,
    longer_histories,
};
pub use leading::{come_to, has_come_to, lead};
pub use onward::{begin_legs, go_on_from};
pub use plain::replay_plain;
pub use planning::plan;
pub use plans::{Plan, PlannedLeg};
