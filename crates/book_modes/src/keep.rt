//! What a hart keeps.

ghost use Rattle.std.specs.Prelude.{◌≡◌, ◌↔◌, IsTrue};

/// Which rights a hart keeps when its lease is settled.
#[derive(Clone, Copy, PartialEq, Eq)]
pub enum Keep {
    /// All of them.
    All,
    /// To read alone.
    Readable,
    /// None.
    Nothing,
}
