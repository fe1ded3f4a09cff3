//! What holds of all packets and streams.

ghost use Rattle.std.specs.Prelude.{◌≡◌, ℕ, List};
ghost use Rattle.gdb_packets.specs.declared.event.Event.{Event};
ghost use Rattle.gdb_packets.specs.Packets.{spelling};
ghost use Rattle.gdb_packets.specs.Streams.{Follows, Unread};

/// Two packets with one spelling say the same.
pub fn one_spelling()
    ensures { (a b : List ℕ) → spelling a ≡ spelling b → a ≡ b }
{}

/// Two feeds of one stream have given the same, however each was cut.
pub fn any_cutting()
    ensures { (stream : List ℕ) (es fs : List Event) (a b : Unread) → Follows stream es a → Follows stream fs b → es ≡ fs }
{}
