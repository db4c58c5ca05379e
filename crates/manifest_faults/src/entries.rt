//! What is wrong with entries of features.

ghost use Rattle.std.specs.Prelude.{◌≡◌, IfOk, Some, option_copied, option_map};
ghost use Rattle.toml.specs.Data.{as_str};
ghost use Rattle.toml.specs.View.{table_view, view};
ghost use Rattle.features.specs.Names.{entry_of};
ghost use Rattle.features.specs.EntryViews.{entry_view};
ghost use Rattle.manifest_faults.specs.inner.Reasons.{dependency_in, entry_at, entry_in, feature_in, is_dependency};
ghost use Rattle.manifest_faults.specs.inner.Reasons.{is_no_feature, is_taken, is_taken_by, is_uncalled, is_unknown};
ghost use Rattle.manifest_faults.specs.inner.Reasons.{is_written, named_in, names_none, names_required, on_some};

use crate::called::is_called;
use features::{Entry, EntryFault};
use std::alloc::{AllocError, Global};
use tables::member;
use toml::{Table, Value};

/// Whether an entry is no feature, nor the implicit one of an optional dependency.
pub(crate) fn is_no_feature(alloc: Global, top: &Table, value: &Value) -> Result<bool, AllocError>
    ensures { IfOk result (λ b. b ≡ is_no_feature (table_view top.now) (entry_in (Some (view value.now)))) }
{
    let Some(entry) = entry_in(alloc, value)? else {
        return Ok(false);
    };
    match feature_in(&entry) {
        Some(feature) => Ok(is_unknown(feature, top)),
        None => Ok(false),
    }
}

fn is_unknown(feature: &str, top: &Table) -> bool
    ensures { result ≡ is_unknown (table_view top.now) feature.now }
{
    if is_written(feature, top) {
        false
    } else {
        !is_called(true, feature, top)
    }
}

/// Whether an entry is no feature, and another one keeps it from being an implicit one.
pub(crate) fn is_taken(
    alloc: Global,
    top: &Table,
    value: &Value,
    by: Option<&Value>,
) -> Result<bool, AllocError>
    ensures { IfOk result (λ b. b ≡ is_taken (table_view top.now)
        (entry_in (option_map (λ v. view v.now) by.entry)) (entry_in (Some (view value.now)))) }
{
    let Some(entry) = entry_in(alloc, value)? else {
        return Ok(false);
    };
    match feature_in(&entry) {
        Some(feature) => is_taken_by(alloc, top, feature, by),
        None => Ok(false),
    }
}

fn is_taken_by(
    alloc: Global,
    top: &Table,
    feature: &str,
    by: Option<&Value>,
) -> Result<bool, AllocError>
    ensures { IfOk result (λ b. b ≡ is_taken_by (table_view top.now)
        (entry_in (option_map (λ v. view v.now) by.entry)) feature.now) }
{
    if is_written(feature, top) {
        return Ok(false);
    }
    match by {
        Some(by) => is_dependency(alloc, feature, by),
        None => Ok(false),
    }
}

/// Whether an entry is `dep:name`.
fn is_dependency(alloc: Global, name: &str, value: &Value) -> Result<bool, AllocError>
    ensures { IfOk result (λ b. b ≡ is_dependency (entry_in (Some (view value.now))) name.now) }
{
    let Some(entry) = entry_in(alloc, value)? else {
        return Ok(false);
    };
    match dependency_in(&entry) {
        Some(own) => Ok(name == own),
        None => Ok(false),
    }
}

/// Whether an entry names no dependency.
pub(crate) fn names_none(alloc: Global, top: &Table, value: &Value) -> Result<bool, AllocError>
    ensures { IfOk result (λ b. b ≡ names_none (table_view top.now) (entry_in (Some (view value.now)))) }
{
    let Some(entry) = entry_in(alloc, value)? else {
        return Ok(false);
    };
    Ok(is_uncalled(false, named_in(&entry), top))
}

/// Whether an entry is `dep:d` for a dependency that isn't optional.
pub(crate) fn names_required(alloc: Global, top: &Table, value: &Value) -> Result<bool, AllocError>
    ensures { IfOk result (λ b. b ≡ names_required (table_view top.now) (entry_in (Some (view value.now)))) }
{
    let Some(entry) = entry_in(alloc, value)? else {
        return Ok(false);
    };
    Ok(is_uncalled(true, dependency_in(&entry), top))
}

/// Whether a name is there and no dependency is called so, no optional one if that is asked.
fn is_uncalled(optional: bool, name: Option<&str>, top: &Table) -> bool
    ensures { result ≡ on_some (is_uncalled optional (table_view top.now)) (option_copied name.entry) }
{
    match name {
        Some(name) => !is_called(optional, name, top),
        None => false,
    }
}

/// The feature that an entry is.
pub(crate) fn feature_in(entry: &Entry) -> Option<&str>
    ensures { option_copied result ≡ feature_in (entry_view entry.now) }
{
    match entry {
        Entry::Feature(feature) => Some(feature.as_str()),
        _ => None,
    }
}

/// The dependency that an entry `dep:d` names.
pub(crate) fn dependency_in(entry: &Entry) -> Option<&str>
    ensures { option_copied result ≡ dependency_in (entry_view entry.now) }
{
    match entry {
        Entry::Dependency(name) => Some(name.as_str()),
        _ => None,
    }
}

/// The dependency that an entry names.
pub(crate) fn named_in(entry: &Entry) -> Option<&str>
    ensures { option_copied result ≡ named_in (entry_view entry.now) }
{
    match entry {
        Entry::Feature(_) => None,
        Entry::Dependency(name) => Some(name.as_str()),
        Entry::DependencyFeature(name, _) => Some(name.as_str()),
        Entry::WeakFeature(name, _) => Some(name.as_str()),
    }
}

/// The entry that a value is.
pub(crate) fn entry_in(alloc: Global, value: &Value) -> Result<Option<Entry>, AllocError>
    ensures { IfOk result (λ o. option_map entry_view o ≡ entry_in (Some (view value.now))) }
{
    match value.as_str() {
        Some(text) => entry_of(alloc, text),
        None => Ok(None),
    }
}

/// The entry that a text is.
pub(crate) fn entry_of(alloc: Global, text: &str) -> Result<Option<Entry>, AllocError>
    ensures { IfOk result (λ o. option_map entry_view o ≡ entry_of text.now) }
{
    match Entry::parse(alloc, text) {
        Ok(entry) => Ok(Some(entry)),
        Err(EntryFault::NotAnEntry) => Ok(None),
        Err(EntryFault::OutOfMemory) => Err(AllocError),
    }
}

/// What stands at a place of the list of a feature.
pub(crate) fn entry_at<'t>(feature: &str, number: usize, top: &'t Table) -> Option<&'t Value>
    ensures { option_map (λ v. view v.now) result ≡ entry_at feature.now number (table_view top.now) }
{
    member(top, "features")?.get(feature)?.get(number)
}

/// Whether `[features]` has a feature, or it is `default`.
pub(crate) fn is_written(feature: &str, top: &Table) -> bool
    ensures { result ≡ is_written feature.now (table_view top.now) }
{
    if feature == "default" {
        return true;
    }
    match member(top, "features") {
        Some(features) => features.get(feature).is_some(),
        None => false,
    }
}
