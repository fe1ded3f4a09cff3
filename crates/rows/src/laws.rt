//! The laws of interleavings and of ledgers, called at one machine.

use interleaving::counters::{Act, Counter};
use interleaving::{
    as_it_was, closed_cuts, confluence, implied_edges, recording, schedules, stored,
};
use lease_ledger::{edge_order, honest_ledger, leases_go_on, rights_held};

#[test]
fn laws_of_interleavings() {
    confluence::<Counter, u64, Act>();
    as_it_was::<Counter, u64, Act>();
    closed_cuts();
    implied_edges::<Counter, u64, Act>();
    schedules::<Counter, u64, Act>();
    stored::<Counter, u64, Act>();
    recording::<Counter, u64, Act>();
    interleaving::examples::<Counter, u64, Act>();
}

#[test]
fn laws_of_ledgers() {
    honest_ledger::<Counter, u64, Act>();
    edge_order::<Counter, u64, Act>();
    leases_go_on::<Counter, u64, Act>();
    rights_held::<Counter, u64, Act>();
    lease_ledger::examples();
}
