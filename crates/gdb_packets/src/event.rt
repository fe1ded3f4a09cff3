//! What comes from gdb.

ghost use Rattle.std.specs.Prelude.{◌≡◌};

use std::marker::Model;

/// What a packet says. Contracts see its bytes.
#[derive(Drop)]
pub struct PacketBytes {
    bytes: Vec<u8>,
}

impl Model for PacketBytes {
    ghost use Rattle.std.specs.Prelude.{ℕ, List};

    ghost Value = { List ℕ };

    ghost view = { λ p. p.bytes.items };
}

impl PacketBytes {
    /// These bytes.
    pub(crate) fn of(bytes: Vec<u8>) -> PacketBytes
        ensures { result ≡ bytes.items }
    {
        PacketBytes { bytes }
    }

    /// Its bytes.
    pub fn as_slice(&self) -> &[u8]
        ensures { result.now ≡ self.now }
    {
        self.bytes.as_slice()
    }
}

/// What gdb sends.
#[derive(Drop)]
pub enum Event {
    /// A packet.
    Packet(PacketBytes),
    /// What stands where a packet could, and is none, or is longer than one may be.
    Broken,
    /// `+`: the last packet came.
    Heard,
    /// `-`: the last packet is wanted again.
    Again,
    /// Byte 3: gdb wants the machine to stop.
    Interrupt,
}
