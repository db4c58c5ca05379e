//! Whether something is wrong with what stands at a place.

ghost use Rattle.std.specs.Prelude.{◌≡◌, if◌then◌else◌, false, IfOk, option_copied};
ghost use Rattle.toml.specs.Data.{as_bool};
ghost use Rattle.toml.specs.View.{table_view, view};
ghost use Rattle.manifest_faults.specs.inner.Reasons.{is_dev, is_no, is_on, is_wrong, on_some};

use crate::entries::{entry_at, is_no_feature, is_taken, names_none, names_required};
use crate::place::{Place, twin_at};
use crate::shape::{is_foreign, is_inherited, is_no, is_not};
use crate::why::{Sort, Why};
use std::alloc::{AllocError, Global};
use tables::{has_items, has_rows};
use toml::{Table, Value};

/// Whether it is wrong of the value that stands at the place.
pub(crate) fn is_wrong(
    alloc: Global,
    top: &Table,
    place: &Place<'_>,
    why: Why<'_>,
    value: &Value,
) -> Result<bool, AllocError>
    ensures { IfOk result (λ b. b ≡ is_wrong why.entry place.now (table_view top.now) (view value.now)) }
{
    match why {
        Why::Absent => Ok(false),
        Why::NoSuch(kind) => Ok(is_not(kind, value)),
        Why::NoText(sort) => is_no_word(alloc, sort, value.as_str()),
        Why::NoKey(sort) => is_no_word(alloc, sort, place.name),
        Why::Twice => Ok(twin_at(top, place).is_some()),
        Why::DevOptional => Ok(is_optional_dev(place, value)),
        Why::HasRows => Ok(match value.as_table() {
            Some(table) => has_rows(table),
            None => false,
        }),
        Why::HasItems => Ok(match value.as_array() {
            Some(items) => has_items(items),
            None => false,
        }),
        Why::Inherited => Ok(is_inherited(Some(value))),
        Why::Foreign(source) => Ok(match value.as_table() {
            Some(table) => is_foreign(source, table),
            None => false,
        }),
        Why::NoFeature => is_no_feature(alloc, top, value),
        Why::Taken(feature, number) => is_taken(alloc, top, value, entry_at(feature, number, top)),
        Why::NoSuchDependency => names_none(alloc, top, value),
        Why::NotOptional => names_required(alloc, top, value),
    }
}

fn is_no_word(alloc: Global, sort: Sort, text: Option<&str>) -> Result<bool, AllocError>
    ensures { IfOk result (λ b. b ≡ on_some (is_no sort) (option_copied text.entry)) }
{
    match text {
        Some(text) => is_no(alloc, sort, text),
        None => Ok(false),
    }
}

fn is_optional_dev(place: &Place<'_>, value: &Value) -> bool
    ensures { result ≡ (if is_dev place.now.section.now then is_on (as_bool (view value.now)) else false) }
{
    if is_dev(place.section) {
        value.as_bool().unwrap_or(false)
    } else {
        false
    }
}

fn is_dev(section: &str) -> bool
    ensures { result ≡ is_dev section.now }
{
    if section == "dev-dependencies" {
        true
    } else {
        section == "dev_dependencies"
    }
}
