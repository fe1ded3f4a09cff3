//! What holds of all positions.

ghost use Rattle.closed_cut.specs.Unique.{HasPosition, OnePosition, OrderKeepsThePosition};
ghost use Rattle.closed_cut.specs.OnChain.{PositionsOnChains, OneWalk};

/// A store has a position, and only one, and so have all stores to which the same frames came.
pub fn one_position()
    ensures there { HasPosition }
    ensures one { OnePosition }
    ensures same_frames { OrderKeepsThePosition }
{}

/// A position is where the greatest cuts of the chain's terms, one after the other, lead to. A hart's pieces of a term go on without a gap to one place.
pub fn positions_on_chains()
    ensures same { PositionsOnChains }
    ensures walk { OneWalk }
{}
