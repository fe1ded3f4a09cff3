//! Readers and writers that tell their bytes where they can, and count their failures.

ghost use Rattle.std.specs.Prelude.{◌≡◌, ℕ, ◌+◌, ◌%◌, ◌^◌, ◌<◌, ◌≤◌, List, Option, length, take, IfOk, IfErr};
ghost use Rattle.std.specs.Io.KnownBytes.{Appends, Consumes, IsAtEnd};
ghost use Rattle.ft_types.specs.Devices.{Writes, IsOneMore};

use crate::errors::Failed;
use std::result::Result;

/// A reader.
pub trait Source {
    // The bytes that are left, where the reader tells them.
    ghost left: { Self → Option (List ℕ) };

    // How often the reader failed, going round at 2 ^ 64.
    ghost failures: { Self → ℕ };

    /// Moves the next bytes to the front of the piece, and says how many: none only at the end or for an empty piece.
    fn read(&mut self, piece: &mut [u8]) -> Result<usize, Failed>
        ensures at_most { IfOk result (λ n. n ≤ length piece.new) }
        ensures taken { IfOk result (λ n. Consumes (left self.old) (left self.new) (take n piece.new) × (failures self.new ≡ failures self.old)) }
        ensures end { IfOk result (λ n. n ≡ 0 → 0 < length piece.new → IsAtEnd (left self.new)) }
        ensures failed { IfErr result (λ _. (left self.new ≡ left self.old) × IsOneMore (failures self.old) (failures self.new)) };
}

/// A writer.
pub trait Sink {
    // The bytes written so far, where the writer tells them.
    ghost bytes: { Self → Option (List ℕ) };

    // How often the writer failed, going round at 2 ^ 64.
    ghost failures: { Self → ℕ };

    /// Takes a beginning of the piece, and says how many bytes that is: none only for an empty piece.
    fn write(&mut self, piece: &[u8]) -> Result<usize, Failed>
        ensures at_most { IfOk result (λ n. n ≤ length piece.now) }
        ensures some { 0 < length piece.now → IfOk result (λ n. 0 < n) }
        ensures taken { IfOk result (λ n. Appends (bytes self.old) (bytes self.new) (take n piece.now) × (failures self.new ≡ failures self.old)) }
        ensures failed { IfErr result (λ _. (bytes self.new ≡ bytes self.old) × IsOneMore (failures self.old) (failures self.new)) };
}

/// Writes the whole piece, or a beginning of it where the writer fails.
pub fn write_all<W: Sink>(out: &mut W, piece: &[u8]) -> Result<(), Failed>
    ensures { Writes result (W.bytes out.old) (W.bytes out.new) (W.failures out.old) (W.failures out.new) piece.now }
{
    let mut rest = piece;
    while rest.len() > 0 {
        let count = out.write(rest)?;
        rest = &rest[count..];
    }
    Ok(())
}
