//! What holds of all joins.

ghost use Rattle.fragment_codec.specs.Rules.{FragmentParts, OpeningParts};
ghost use Rattle.frame_content.specs.Tests.{same_opening, same_fragment};
ghost use Rattle.log_join.specs.Stores.{StoreView};
ghost use Rattle.log_join.specs.Laws.{Tells, CellsJoin, OneJoin, Associates, Commutes, Idempotent, HasUnit, OrderMakesNoDifference, ComeGathers, OnlyGathered};
ghost use Rattle.log_join.specs.Laws.{GatheredIsStore};
ghost use Rattle.log_join.specs.FamilyLaws.{HonestJoins, HonestAgree, HonestGather, HonestStay};

/// Contents are told apart exactly, and cells join in whatever order and however often.
pub fn joins_of_cells()
    ensures openings_told { Tells same_opening }
    ensures fragments_told { Tells same_fragment }
    ensures openings { CellsJoin same_opening }
    ensures fragments { CellsJoin same_fragment }
{}

/// Stores have one join, in whatever order and however often.
pub fn joins_of_stores()
    ensures one { (a b : StoreView) → OneJoin a b }
    ensures associative { Associates }
    ensures commutative { Commutes }
    ensures idempotent { Idempotent }
    ensures unit { HasUnit }
{}

/// Whoever took or joined the same frames, in whatever order and however often, holds one store, and it has nothing else.
pub fn order_and_repetition()
    ensures one { OrderMakesNoDifference }
    ensures in_turn { ComeGathers }
    ensures only { OnlyGathered }
    ensures rules { GatheredIsStore }
{}

/// Stores that have frames of one family alone join to such a store, without a clash; so is each store that gathered such
/// frames, and it stays one when the family grows.
pub fn honest_joins<T>()
    ensures joins { HonestJoins T }
    ensures agree { HonestAgree T }
    ensures gather { HonestGather T }
    ensures stay { HonestStay T }
{}
