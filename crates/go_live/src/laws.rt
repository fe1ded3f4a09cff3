//! What holds of all primaries that go live.

ghost use Rattle.go_live.specs.Quorums.{EnoughMeetAny, MostMeetMost};
ghost use Rattle.go_live.specs.Histories.{PrimariesMakeHistories};

/// A family of recording books joined by `go_live` is an honest history: the terms of primaries that go live one after the
/// other, each from stores of frames of those before it, as far as each of them came.
pub fn live_histories()
    ensures { PrimariesMakeHistories }
{}

/// Keepers that are enough, and any `need` of all keepers, share one: what `need` held, one of those that are here holds.
pub fn enough_meet_any()
    ensures { EnoughMeetAny }
{}

/// Two sets of more than half of the keepers share one.
pub fn most_meet_most()
    ensures { MostMeetMost }
{}
