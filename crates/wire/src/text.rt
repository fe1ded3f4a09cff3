//! The texts of lines that were read.

ghost use Rattle.std.specs.Prelude.{◌≡◌, IfOk};

use ft_types::Memory;
use std::alloc::Global;
use std::marker::Model;
use std::result::Result;

/// The text of a line that was read, without its line feed. Contracts see its bytes.
#[derive(Drop)]
pub struct LineText {
    bytes: Vec<u8>,
}

impl Model for LineText {
    ghost use Rattle.std.specs.Prelude.{ℕ, List};

    ghost Value = { List ℕ };

    ghost view = { λ t. t.bytes.items };
}

impl LineText {
    /// These bytes.
    pub(crate) fn of(alloc: Global, bytes: &[u8]) -> Result<LineText, Memory>
        ensures { IfOk result (λ text. text ≡ bytes.now) }
    {
        Ok(LineText {
            bytes: bytes.to_vec(alloc)?,
        })
    }

    /// Its bytes.
    pub fn as_slice(&self) -> &[u8]
        ensures { result.now ≡ self.now }
    {
        self.bytes.as_slice()
    }
}
