//! Lists of values, found by texts.

ghost use Rattle.std.specs.Prelude.{OnOk};
ghost use Rattle.numbering.specs.inner.Lists.{Puts};

use std::alloc::{AllocError, Global};
use std::collections::HashMap;

/// Puts a value behind those of its text.
pub(crate) fn put_behind<'a, T: Drop>(
    alloc: Global,
    lists: &mut HashMap<&'a str, Vec<T>>,
    text: &'a str,
    value: T,
) -> Result<(), AllocError>
    ensures { OnOk result (Puts lists.old text.entry value lists.new) }
{
    let values = lists.entry(text)?.or_insert(Vec::new(alloc));
    values.push(value)?;
    Ok(())
}
