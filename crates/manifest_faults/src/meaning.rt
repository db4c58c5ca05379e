//! Which fault a part of a manifest has, where something is wrong with it.

ghost use Rattle.std.specs.Prelude.{◌≡◌};
ghost use Rattle.manifest_faults.specs.inner.Reasons.{is_at, is_at_either, is_called_by, is_entry_of, is_in, is_meant};
ghost use Rattle.manifest_faults.specs.inner.Reasons.{is_of_feature, is_of_requirement, is_of_rows, is_of_source};
ghost use Rattle.manifest_faults.specs.inner.Reasons.{is_shape};

use crate::place::Place;
use crate::why::{Sort, Why};
use manifest::{ManifestFault, Part, TableFault, Unsupported};

/// Whether it is what the fault says of a place.
pub(crate) fn is_meant(fault: &ManifestFault, place: &Place<'_>, why: Why<'_>) -> bool
    ensures { result ≡ is_meant fault.now place.now why.entry }
{
    match fault {
        ManifestFault::Shape(part) => {
            if is_shape(why) {
                is_in(*part, place)
            } else {
                false
            }
        }
        ManifestFault::UnsupportedSource(source) => is_of_source(*source, place, why),
        ManifestFault::BadRequirement(name) => {
            if is_of_requirement(why) {
                is_called_by(name.as_str(), place)
            } else {
                false
            }
        }
        ManifestFault::RootFeature(fault, feature) => {
            if is_of_feature(*fault, why) {
                is_entry_of(feature.as_str(), place)
            } else {
                false
            }
        }
        ManifestFault::OutOfMemory | ManifestFault::TooLarge | ManifestFault::NotToml => false,
    }
}

/// Whether it is of a shape: no requirement, source or entry that leads nowhere.
fn is_shape(why: Why<'_>) -> bool
    ensures { result ≡ is_shape why.entry }
{
    match why {
        Why::Absent => true,
        Why::NoSuch(_) => true,
        Why::NoText(_) => true,
        Why::NoKey(_) => true,
        Why::Twice => true,
        Why::DevOptional => true,
        _ => false,
    }
}

fn is_of_source(source: Unsupported, place: &Place<'_>, why: Why<'_>) -> bool
    ensures { result ≡ is_of_source source place.now why.entry }
{
    match why {
        Why::HasRows => is_of_rows(source, place),
        Why::HasItems => {
            if source == Unsupported::Workspace {
                is_in(Part::Workspace, place)
            } else {
                false
            }
        }
        Why::Inherited => source == Unsupported::Workspace,
        Why::Foreign(other) => source == other,
        _ => false,
    }
}

fn is_of_rows(source: Unsupported, place: &Place<'_>) -> bool
    ensures { result ≡ is_of_rows source place.now }
{
    match source {
        Unsupported::Patch => is_in(Part::Patch, place),
        Unsupported::Replace => is_in(Part::Replace, place),
        _ => false,
    }
}

fn is_of_requirement(why: Why<'_>) -> bool
    ensures { result ≡ is_of_requirement why.entry }
{
    match why {
        Why::NoText(Sort::Requirement) => true,
        _ => false,
    }
}

/// Whether it is what a fault of the features says.
fn is_of_feature(fault: TableFault, why: Why<'_>) -> bool
    ensures { result ≡ is_of_feature fault why.entry }
{
    match (fault, why) {
        (TableFault::NoSuchFeature, Why::NoFeature) => true,
        (TableFault::NoSuchFeature, Why::Taken(_, _)) => true,
        (TableFault::NoSuchDependency, Why::NoSuchDependency) => true,
        (TableFault::NotOptional, Why::NotOptional) => true,
        _ => false,
    }
}

/// Whether a place is an element of the list of a feature, or that list.
fn is_entry_of(feature: &str, place: &Place<'_>) -> bool
    ensures { result ≡ is_entry_of feature.now place.now }
{
    if is_at("features", place) {
        if place.key.is_some() {
            false
        } else {
            is_called_by(feature, place)
        }
    } else {
        false
    }
}

/// Whether a place is in a part.
fn is_in(part: Part, place: &Place<'_>) -> bool
    ensures { result ≡ is_in part place.now }
{
    match part {
        Part::Package => is_at("package", place),
        Part::Dependencies => is_at("dependencies", place),
        Part::DevDependencies => is_at_either("dev-dependencies", "dev_dependencies", place),
        Part::BuildDependencies => is_at_either("build-dependencies", "build_dependencies", place),
        Part::Target => {
            if place.target.is_some() {
                true
            } else {
                place.section == "target"
            }
        }
        Part::Features => is_at("features", place),
        Part::Workspace => is_at("workspace", place),
        Part::Patch => is_at("patch", place),
        Part::Replace => is_at("replace", place),
    }
}

fn is_at_either(dashed: &str, underscored: &str, place: &Place<'_>) -> bool
    ensures { result ≡ is_at_either dashed.now underscored.now place.now }
{
    if is_at(dashed, place) {
        true
    } else {
        is_at(underscored, place)
    }
}

/// Whether a place is in a table at the top.
fn is_at(section: &str, place: &Place<'_>) -> bool
    ensures { result ≡ is_at section.now place.now }
{
    if place.target.is_some() {
        false
    } else {
        place.section == section
    }
}

/// Whether what stands at a place is called so.
fn is_called_by(name: &str, place: &Place<'_>) -> bool
    ensures { result ≡ is_called_by name.now place.now }
{
    match place.name {
        Some(own) => name == own,
        None => false,
    }
}
