//! What holds of files of fences.

ghost use Rattle.std.specs.Prelude.{◌≡◌, ℕ, ◌++◌, List, max};
ghost use Rattle.ft_types.specs.Guests.{GuestParts};
ghost use Rattle.wire.specs.Fences.{IsLastFence, added_fence};
ghost use Rattle.wire.specs.Values.{IsTerm};

/// Whatever bytes a file of fences has, it has one last fence, and a fence that is added makes that the greater of the two.
pub fn fence_is_added()
    ensures one { (guest : GuestParts) (bytes : List ℕ) (last other : ℕ) → IsLastFence guest bytes last → IsLastFence guest bytes other →
        last ≡ other }
    ensures added { (guest : GuestParts) (bytes : List ℕ) (last t : ℕ) → IsTerm t → IsLastFence guest bytes last →
        IsLastFence guest (bytes ++ added_fence guest t) (max t last) }
{}
