//! What was noted of the keepers.

ghost use Rattle.std.specs.Prelude.{◌≡◌, ◌↔◌, ℕ, ◌<◌, ◌≤◌, [], slice_index_or};
ghost use Rattle.ft_types.specs.Counts.{count_at};
ghost use Rattle.ft_types.specs.Sets.{IsMember};
ghost use Rattle.output_gate.specs.Gates.{holder_count};

use ft_types::{Count, HART_ROW, Hart, KEEPER_LIMIT, KEEPER_ROW, Keeper, KeeperSet};

/// How many keepers are noted above this step of the hart.
pub(crate) fn keepers_above(
    noted: &[[Count; HART_ROW]; KEEPER_ROW],
    hart: Hart,
    step: Count,
) -> usize
    ensures value { result ≡ holder_count noted.now hart step }
    ensures limit { result ≤ KEEPER_LIMIT }
{
    let column = hart.index();
    let mut keepers = 0usize;
    for keeper in 0..KEEPER_ROW {
        if noted[keeper][column] > step {
            keepers += 1;
        }
    }
    keepers
}

/// The keepers that are noted above this step of the hart.
pub(crate) fn keepers_counted(
    noted: &[[Count; HART_ROW]; KEEPER_ROW],
    hart: Hart,
    step: Count,
) -> KeeperSet
    ensures { (keeper : ℕ) → IsMember result keeper ↔ (step < count_at (slice_index_or noted.now keeper []) hart) }
{
    let column = hart.index();
    let mut set = KeeperSet::new();
    for number in 0..KEEPER_LIMIT {
        let keeper = Keeper::new(number);
        if noted[keeper.index()][column] > step {
            set = set.with(keeper);
        }
    }
    set
}
