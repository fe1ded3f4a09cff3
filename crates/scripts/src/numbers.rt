//! Numbers that stand one after the other in a line.

ghost use Rattle.std.specs.Prelude.{◌≡◌, ℕ, List, ◌∷◌, IfSome, IfNone, IfOk};
ghost use Rattle.scripts.specs.Events.{AreNumbers, spaced_numbers};

use crate::fields::{cut, read_small};
use ft_types::Memory;
use std::alloc::Global;

/// The numbers that the text is, with one space between them: at least one.
pub(super) fn read_numbers(alloc: Global, text: &[u8]) -> Result<Option<Vec<u64>>, Memory>
    ensures found { IfOk result (λ r. IfSome r (λ v. AreNumbers v.items × (32 ∷ text.now ≡ spaced_numbers v.items))) }
    ensures none { IfOk result (λ r. IfNone r ((ns : List ℕ) → AreNumbers ns → 32 ∷ text.now ≡ spaced_numbers ns → ⊥)) }
{
    let mut numbers = Vec::new(alloc);
    let mut rest = Some(text);
    while let Some(fields) = rest {
        let (field, behind) = cut(fields);
        let Some(number) = read_small(field) else {
            return Ok(None);
        };
        numbers.push(number)?;
        rest = behind;
    }
    Ok(Some(numbers))
}
