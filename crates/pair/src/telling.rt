//! How much a machine has put out.

ghost use Rattle.std.specs.Prelude.{◌≡◌, length};
ghost use Rattle.primary.specs.Outputs.{outputs_in};

use ft_types::Hart;
use guest_image::Machine;

/// How many outputs all harts have.
pub(crate) fn outputs_in_all(machine: &Machine) -> usize
    ensures { result ≡ length (outputs_in machine.now) }
{
    let mut outputs = 0usize;
    for number in 0..machine.harts() {
        outputs += machine.hart(Hart::new(number)).outputs().len();
    }
    outputs
}
