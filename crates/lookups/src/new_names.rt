//! Values by names, of which the first stays.

ghost use Rattle.std.specs.Prelude.{OnOk};
ghost use Rattle.lookups.specs.inner.ByName.{PutsNew};

use std::alloc::AllocError;
use std::collections::HashMap;

/// Puts a value, where the name has none.
pub(crate) fn put_new<'a, T: Drop>(
    values: &mut HashMap<&'a str, T>,
    name: &'a str,
    value: T,
) -> Result<(), AllocError>
    ensures { OnOk result (PutsNew values.old name.now value values.new) }
{
    if !values.contains_key(&name) {
        values.insert(name, value)?;
    }
    Ok(())
}
