//! Tests that end in a fault where they fail.

ghost use Rattle.model.specs.Outcome.{Gives, guard};
ghost use Rattle.manifest.specs.Faults.{wants_memory};

use crate::fault::ManifestFault;

pub(crate) fn check(passes: bool, fault: ManifestFault) -> Result<(), ManifestFault>
    ensures { Gives wants_memory (λ u. u) result (guard passes fault) }
{
    if passes { Ok(()) } else { Err(fault) }
}
