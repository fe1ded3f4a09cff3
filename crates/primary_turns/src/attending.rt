//! What a tick finds of keepers is to be attended to.

ghost use Rattle.std.specs.Prelude.{◌≡◌, ◌++◌, ◌∷◌, [], map, OnOk};
ghost use Rattle.primary_turns.specs.declared.deeds.Deed.TheVariants.{Attend as AttendTo};

use crate::deeds::Deed;
use attendance::Finding;
use ft_types::Memory;
use std::result::Result;

/// Has a finding attended to.
fn attend(deeds: &mut Vec<Deed>, finding: Finding) -> Result<(), Memory>
    ensures { OnOk result (deeds.new.items ≡ deeds.old.items ++ AttendTo finding ∷ []) }
{
    Ok(deeds.push(Deed::Attend(finding))?)
}

/// Has findings attended to, one behind the other.
pub(crate) fn attend_all(deeds: &mut Vec<Deed>, findings: &[Finding]) -> Result<(), Memory>
    ensures { OnOk result (deeds.new.items ≡ deeds.old.items ++ map AttendTo findings.now) }
{
    for finding in findings {
        attend(deeds, *finding)?;
    }
    Ok(())
}
