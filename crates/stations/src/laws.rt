//! What the order of acts is for.

ghost use Rattle.stations.specs.Handshake.{Handshake as HandshakeHolds};

/// What a keeper acknowledged of a term, behind the fence that it saw, is in what is handed over to a later term, however the two processes and crashes
/// of their machine fall together.
pub fn handshake()
    ensures { HandshakeHolds }
{}
