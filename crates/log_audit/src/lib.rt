//! Audits of logs that nobody vouches for: whether each replay leads to one machine, in whatever order its harts go.
#![tactic(auto)]

mod asked_pages;
mod auditing;
mod befores;
mod fault;
mod harts;
mod legs;
mod marks;
mod trimmed;

pub use auditing::audit;
pub use fault::AuditFault;
