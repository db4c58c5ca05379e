//! What the dependencies of a manifest are called.

ghost use Rattle.std.specs.Prelude.{◌≡◌};
ghost use Rattle.toml.specs.Data.{as_table};
ghost use Rattle.toml.specs.View.{table_view, view};
ghost use Rattle.manifest_faults.specs.inner.Reasons.{has_among, has_in, has_in_target, has_in_targets, is_called};
ghost use Rattle.manifest_faults.specs.inner.Reasons.{is_optional, on_some, passes};

use tables::member;
use toml::{Table, Value};

/// Whether a dependency of the manifest is called so, an optional one if that is asked.
pub(crate) fn is_called(optional: bool, name: &str, top: &Table) -> bool
    ensures { result ≡ is_called optional name.now (table_view top.now) }
{
    if has_among(optional, name, top) {
        true
    } else {
        has_in_target(optional, name, top)
    }
}

fn has_in_target(optional: bool, name: &str, top: &Table) -> bool
    ensures { result ≡ has_in_target optional name.now (table_view top.now) }
{
    match member(top, "target") {
        Some(value) => match value.as_table() {
            Some(targets) => has_in_targets(optional, name, targets),
            None => false,
        },
        None => false,
    }
}

#[tactic(auto, unfolding(crate::specs::inner::Reasons::has_in_targets))]
fn has_in_targets(optional: bool, name: &str, targets: &Table) -> bool
    ensures { result ≡ has_in_targets optional name.now (table_view targets.now) }
{
    'targets: for (_, value) in targets.iter() {
        if has_in_one(optional, name, value) {
            return true;
        }
    }
    false
}

fn has_in_one(optional: bool, name: &str, value: &Value) -> bool
    ensures { result ≡ on_some (has_among optional name.now) (as_table (view value.now)) }
{
    match value.as_table() {
        Some(table) => has_among(optional, name, table),
        None => false,
    }
}

/// Whether a dependency of a table is called so.
fn has_among(optional: bool, name: &str, table: &Table) -> bool
    ensures { result ≡ has_among optional name.now (table_view table.now) }
{
    if has_in(optional, name, "dependencies", table) {
        true
    } else if has_in(optional, name, "dev-dependencies", table) {
        true
    } else if has_in(optional, name, "dev_dependencies", table) {
        true
    } else if has_in(optional, name, "build-dependencies", table) {
        true
    } else {
        has_in(optional, name, "build_dependencies", table)
    }
}

fn has_in(optional: bool, name: &str, section: &str, table: &Table) -> bool
    ensures { result ≡ has_in optional name.now section.now (table_view table.now) }
{
    match member(table, section) {
        Some(value) => match value.get(name) {
            Some(dependency) => passes(optional, dependency),
            None => false,
        },
        None => false,
    }
}

fn passes(optional: bool, dependency: &Value) -> bool
    ensures { result ≡ passes optional (view dependency.now) }
{
    if optional {
        is_optional(dependency)
    } else {
        true
    }
}

/// Whether a dependency says that it is optional.
pub(crate) fn is_optional(dependency: &Value) -> bool
    ensures { result ≡ is_optional (view dependency.now) }
{
    match dependency.get("optional") {
        Some(value) => value.as_bool().unwrap_or(false),
        None => false,
    }
}
