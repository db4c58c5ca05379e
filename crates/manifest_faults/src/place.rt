//! Places in a manifest.

ghost use Rattle.std.specs.Prelude.{◌≡◌, option_copied, option_map};
ghost use Rattle.toml.specs.View.{table_view, view};
ghost use Rattle.manifest_faults.specs.inner.Places.{below, section_value, named_value, value_at};
ghost use Rattle.manifest_faults.specs.inner.Places.{underscored};
ghost use Rattle.manifest_faults.specs.inner.Places.{twin_at};

use tables::member;
use toml::value::Array;
use toml::{Table, Value};

/// Where something stands, as `version` at `serde` in `[target.'cfg(unix)'.dependencies]`.
#[derive(Clone, Copy)]
pub(crate) struct Place<'t> {
    /// In which table of `[target]`, if it stands there.
    pub target: Option<&'t str>,
    /// In which table: `dependencies`, `features`.
    pub section: &'t str,
    /// At which key of the table, if the table isn't meant.
    pub name: Option<&'t str>,
    /// At which key below, if what stands at the name isn't meant.
    pub key: Option<&'t str>,
    /// Where in the list there, if the list isn't meant.
    pub item: Option<usize>,
}

impl<'t> Place<'t> {
    pub(crate) fn of(section: &'t str) -> Place<'t> {
        Place {
            target: None,
            section,
            name: None,
            key: None,
            item: None,
        }
    }

    /// A target, in which tables stand.
    pub(crate) fn of_target(target: &'t str) -> Place<'t> {
        Place {
            target: Some(target),
            section: "",
            name: None,
            key: None,
            item: None,
        }
    }

    pub(crate) fn at_section(&self, section: &'t str) -> Place<'t> {
        Place {
            target: self.target,
            section,
            name: None,
            key: None,
            item: None,
        }
    }

    pub(crate) fn at_name(&self, name: &'t str) -> Place<'t> {
        Place {
            target: self.target,
            section: self.section,
            name: Some(name),
            key: None,
            item: None,
        }
    }

    pub(crate) fn at_key(&self, key: Option<&'t str>) -> Place<'t> {
        Place {
            target: self.target,
            section: self.section,
            name: self.name,
            key,
            item: None,
        }
    }

    pub(crate) fn at_item(&self, item: usize) -> Place<'t> {
        Place {
            target: self.target,
            section: self.section,
            name: self.name,
            key: self.key,
            item: Some(item),
        }
    }
}

/// What stands at a place.
pub(crate) fn value_at<'t>(top: &'t Table, place: &Place<'_>) -> Option<&'t Value>
    ensures { option_map (λ v. view v.now) result ≡ value_at place.now (table_view top.now) }
{
    let value = below(named_value(top, place), place.key);
    match place.item {
        Some(number) => value?.get(number),
        None => value,
    }
}

/// The table that stands at a place.
pub(crate) fn table_at<'t>(top: &'t Table, place: &Place<'_>) -> Option<&'t Table> {
    value_at(top, place)?.as_table()
}

/// The list that stands at a place.
pub(crate) fn items_at<'t>(top: &'t Table, place: &Place<'_>) -> Option<&'t Array> {
    value_at(top, place)?.as_array()
}

/// What stands at the other spelling of the last key of a place.
pub(crate) fn twin_at<'t>(top: &'t Table, place: &Place<'_>) -> Option<&'t Value>
    ensures { option_map (λ v. view v.now) result ≡ twin_at place.now (table_view top.now) }
{
    match place.key {
        Some(key) => match underscored(key) {
            Some(twin) => below(named_value(top, place), Some(twin)),
            None => None,
        },
        None => match underscored(place.section) {
            Some(twin) => section_value(top, place.target, twin),
            None => None,
        },
    }
}

/// What stands at the name of a place, or its whole table.
pub(crate) fn named_value<'t>(top: &'t Table, place: &Place<'_>) -> Option<&'t Value>
    ensures { option_map (λ v. view v.now) result ≡ named_value place.now (table_view top.now) }
{
    below(section_value(top, place.target, place.section), place.name)
}

/// A table at the top of the manifest, or of a target.
fn section_value<'t>(top: &'t Table, target: Option<&str>, section: &str) -> Option<&'t Value>
    ensures { option_map (λ v. view v.now) result
        ≡ section_value (option_copied target.entry) section.now (table_view top.now) }
{
    match target {
        Some(target) => below(below(member(top, "target"), Some(target)), Some(section)),
        None => member(top, section),
    }
}

/// What stands at a key of a value, or the value where no key is named.
fn below<'t>(value: Option<&'t Value>, key: Option<&str>) -> Option<&'t Value>
    ensures { option_map (λ v. view v.now) result
        ≡ below (option_copied key.entry) (option_map (λ v. view v.now) value.entry) }
{
    match key {
        Some(key) => value?.get(key),
        None => value,
    }
}

/// The spelling with underscores of a key that has two.
fn underscored(key: &str) -> Option<&'static str>
    ensures { option_copied result ≡ underscored key.now }
{
    if key == "dev-dependencies" {
        Some("dev_dependencies")
    } else if key == "build-dependencies" {
        Some("build_dependencies")
    } else if key == "default-features" {
        Some("default_features")
    } else {
        None
    }
}
