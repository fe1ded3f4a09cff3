//! Scripts.

ghost use Rattle.std.specs.Prelude.{◌≡◌, ◌⊎◌, ℕ, List, IfOk, IfErr, MatchResult};
ghost use Rattle.scripts.specs.declared.fault.ScriptFault.{ScriptFault};
ghost use Rattle.scripts.specs.declared.script.Offered.{Offered as offered_of_specs};
ghost use Rattle.scripts.specs.Script.{AreOffered, script_text, IsFault};

use crate::fault::ScriptFault;
use crate::script_lines::read_line;
use ft_types::{Count, Hart};
use input_log::Input;
use std::alloc::Global;
use std::vec::Vec;

/// An input that is offered to a hart.
#[derive(Clone, Copy, PartialEq, Eq)]
pub struct Offered {
    /// Whom it is offered to.
    pub hart: Hart,
    /// The least count at which it may be given.
    pub not_before: Count,
    /// What is given.
    pub input: Input,
}

/// Reads line by line, up to the first one at fault.
fn read_lines(alloc: Global, bytes: &[u8], harts: u8) -> Result<Vec<Offered>, ScriptFault>
    ensures found { IfOk result (λ script. AreOffered harts script.items × (bytes.now ≡ script_text script.items)) }
    ensures fault { IfErr result (λ e. IsFault harts bytes.now e) }
{
    let mut script = Vec::new(alloc);
    let mut rest = bytes;
    while rest.len() > 0 {
        let Some((offered, behind)) = read_line(harts, rest) else {
            return Err(ScriptFault::BadLine(script.len() as u64 + 1));
        };
        if script.push(offered).is_err() {
            return Err(ScriptFault::Memory);
        }
        rest = behind;
    }
    Ok(script)
}

/// Reads a script for this number of harts.
pub fn read_script(alloc: Global, bytes: &[u8], harts: u8) -> Result<Vec<Offered>, ScriptFault>
    // What is read is spelled so.
    ensures found { IfOk result (λ script. AreOffered harts script.items × (bytes.now ≡ script_text script.items)) }
    // The first line at fault decides.
    ensures fault { IfErr result (λ e. IsFault harts bytes.now e) }
    // What is spelled so is read, unless memory runs out.
    ensures only { (offers : List offered_of_specs) → AreOffered harts offers → bytes.now ≡ script_text offers →
        MatchResult result (λ script. script.items ≡ offers) (λ e. e ≡ ScriptFault.Memory) }
    // A script with a line at fault has that fault, unless memory runs out.
    ensures exact { (line : ℕ) → IsFault harts bytes.now (ScriptFault.BadLine line) → MatchResult result (λ _. ⊥) (λ e. (e ≡ ScriptFault.Memory) ⊎
        (e ≡ ScriptFault.BadLine line)) }
{
    read_lines(alloc, bytes, harts)
}
