//! The right to a page: many readers or one writer, and the edges that whoever takes it owes to those who were there
//! before.
#![tactic(auto)]

ghost use Rattle.crew_pages.specs.Histories.{KeepsOrder};
ghost use Rattle.crew_pages.specs.Page.{Begins, KeepsGoingOn, KeepsGivingUp, KeepsLowering, KeepsGiving};
ghost use Rattle.crew_pages.specs.Page.{OwesSettled, PutsBefore, OneWriter, GivesIt};

mod left_at;
mod right;

pub use left_at::LeftAt;
pub use right::{Ask, LastWriter, PageRight};

/// Whoever takes the right to a page comes, by the edges given, after every earlier step that conflicts with what it may
/// do: over every list of asks, steps and givings up.
pub fn order_of_histories()
    ensures { KeepsOrder }
{}

/// What a right says of the steps that used its page holds at first, and whatever is done to the right keeps it.
pub fn page_invariant()
    ensures begins { Begins }
    ensures goes_on { KeepsGoingOn }
    ensures gives_up { KeepsGivingUp }
    ensures lowers { KeepsLowering }
    ensures gives { KeepsGiving }
{}

/// What follows for the edges, for the steps of a hart that holds the right, and for those who hold it beside an owner.
pub fn page_order()
    ensures owes { OwesSettled }
    ensures before { PutsBefore }
    ensures one_writer { OneWriter }
    ensures gives { GivesIt }
{}
