//! The first part of a manifest that has the fault which is sought.

ghost use Rattle.manifest_faults.specs.inner.Finding.{IsFound};

use crate::feature_finding::{entry_culprit, feature_culprit};
use crate::place::{Place, items_at, table_at};
use crate::sought::{Sought, blamed, first_blamed};
use crate::why::{Culprit, Kind, Sort, Why};
use manifest::{ManifestFault, Part, Unsupported};
use std::alloc::{AllocError, Global};

/// The tables of dependencies in the order in which they are read, in both spellings.
pub(crate) const TABLES: [&str; 5] = [
    "dependencies",
    "dev-dependencies",
    "dev_dependencies",
    "build-dependencies",
    "build_dependencies",
];

/// The first part that has the fault.
pub(crate) fn culprit_in<'t>(
    alloc: Global,
    sought: Sought<'t>,
) -> Result<Option<Culprit<'t>>, AllocError>
    ensures { IsFound sought.entry result }
{
    match sought.fault {
        ManifestFault::Shape(part) => shape_culprit(alloc, sought, *part),
        ManifestFault::UnsupportedSource(source) => source_culprit(alloc, sought, *source),
        ManifestFault::BadRequirement(_) => of_dependencies(alloc, sought, Aim::Requirement),
        ManifestFault::RootFeature(fault, feature) => entry_culprit(alloc, sought, *fault, feature),
        _ => Ok(None),
    }
}

/// What is looked for in dependencies.
#[derive(Clone, Copy)]
enum Aim {
    Shape,
    Source(Unsupported),
    Requirement,
}

fn shape_culprit<'t>(
    alloc: Global,
    sought: Sought<'t>,
    part: Part,
) -> Result<Option<Culprit<'t>>, AllocError>
    ensures { IsFound sought.entry result }
{
    let top = Place::of("");
    match part {
        Part::Package => package_culprit(alloc, sought),
        Part::Dependencies => of_tables(alloc, sought, top, &["dependencies"], Aim::Shape),
        Part::DevDependencies => {
            let tables = ["dev-dependencies", "dev_dependencies"];
            of_tables(alloc, sought, top, &tables, Aim::Shape)
        }
        Part::BuildDependencies => {
            let tables = ["build-dependencies", "build_dependencies"];
            of_tables(alloc, sought, top, &tables, Aim::Shape)
        }
        Part::Target => of_targets(alloc, sought, Aim::Shape),
        Part::Features => feature_culprit(alloc, sought),
        Part::Workspace => {
            let workspace = Place::of("workspace");
            let tried = [
                (workspace, Why::NoSuch(Kind::Table)),
                (workspace.at_name("members"), Why::NoSuch(Kind::List)),
            ];
            first_blamed(alloc, sought, &tried)
        }
        Part::Patch => blamed(alloc, sought, Place::of("patch"), Why::NoSuch(Kind::Table)),
        Part::Replace => blamed(
            alloc,
            sought,
            Place::of("replace"),
            Why::NoSuch(Kind::Table),
        ),
    }
}

/// What is wrong with `[package]`.
fn package_culprit<'t>(alloc: Global, sought: Sought<'t>) -> Result<Option<Culprit<'t>>, AllocError>
    ensures { IsFound sought.entry result }
{
    let package = Place::of("package");
    let name = package.at_name("name");
    let version = package.at_name("version");
    let tried = [
        (package, Why::Absent),
        (package, Why::NoSuch(Kind::Table)),
        (name, Why::Absent),
        (name, Why::NoSuch(Kind::OwnText)),
        (name, Why::NoText(Sort::PackageName)),
        (version, Why::NoSuch(Kind::OwnText)),
        (version, Why::NoText(Sort::Version)),
    ];
    first_blamed(alloc, sought, &tried)
}

/// The first part that is from a source.
fn source_culprit<'t>(
    alloc: Global,
    sought: Sought<'t>,
    source: Unsupported,
) -> Result<Option<Culprit<'t>>, AllocError>
    ensures { IsFound sought.entry result }
{
    match source {
        Unsupported::Patch => blamed(alloc, sought, Place::of("patch"), Why::HasRows),
        Unsupported::Replace => blamed(alloc, sought, Place::of("replace"), Why::HasRows),
        Unsupported::Workspace => workspace_culprit(alloc, sought),
        Unsupported::Git | Unsupported::Path | Unsupported::Registry => {
            of_dependencies(alloc, sought, Aim::Source(source))
        }
    }
}

fn workspace_culprit<'t>(
    alloc: Global,
    sought: Sought<'t>,
) -> Result<Option<Culprit<'t>>, AllocError>
    ensures { IsFound sought.entry result }
{
    let package = Place::of("package");
    let tried = [
        (Place::of("workspace").at_name("members"), Why::HasItems),
        (package.at_name("name"), Why::Inherited),
        (package.at_name("version"), Why::Inherited),
    ];
    if let Some(found) = first_blamed(alloc, sought, &tried)? {
        return Ok(Some(found));
    }
    of_dependencies(alloc, sought, Aim::Source(Unsupported::Workspace))
}

/// The first dependency that has what is looked for: of those at the top, then of those of the targets.
fn of_dependencies<'t>(
    alloc: Global,
    sought: Sought<'t>,
    aim: Aim,
) -> Result<Option<Culprit<'t>>, AllocError>
    ensures { IsFound sought.entry result }
{
    if let Some(found) = of_tables(alloc, sought, Place::of(""), &TABLES, aim)? {
        return Ok(Some(found));
    }
    of_targets(alloc, sought, aim)
}

fn of_targets<'t>(
    alloc: Global,
    sought: Sought<'t>,
    aim: Aim,
) -> Result<Option<Culprit<'t>>, AllocError>
    ensures { IsFound sought.entry result }
{
    let target = Place::of("target");
    if let Some(found) = blamed(alloc, sought, target, Why::NoSuch(Kind::Table))? {
        return Ok(Some(found));
    }
    let Some(targets) = table_at(sought.top, &target) else {
        return Ok(None);
    };
    for (name, _) in targets.iter() {
        let own = target.at_name(name.as_str());
        if let Some(found) = blamed(alloc, sought, own, Why::NoSuch(Kind::Table))? {
            return Ok(Some(found));
        }
        let beside = Place::of_target(name.as_str());
        if let Some(found) = of_tables(alloc, sought, beside, &TABLES, aim)? {
            return Ok(Some(found));
        }
    }
    Ok(None)
}

/// The first dependency that has what is looked for, of these tables where a place stands.
fn of_tables<'t>(
    alloc: Global,
    sought: Sought<'t>,
    beside: Place<'t>,
    tables: &[&'static str],
    aim: Aim,
) -> Result<Option<Culprit<'t>>, AllocError>
    ensures { IsFound sought.entry result }
{
    for table in tables.iter() {
        let place = beside.at_section(*table);
        if let Some(found) = blamed(alloc, sought, place, Why::Twice)? {
            return Ok(Some(found));
        }
        if let Some(found) = of_table(alloc, sought, place, aim)? {
            return Ok(Some(found));
        }
    }
    Ok(None)
}

/// The first dependency of a table that has what is looked for.
fn of_table<'t>(
    alloc: Global,
    sought: Sought<'t>,
    place: Place<'t>,
    aim: Aim,
) -> Result<Option<Culprit<'t>>, AllocError>
    ensures { IsFound sought.entry result }
{
    if let Some(found) = blamed(alloc, sought, place, Why::NoSuch(Kind::Table))? {
        return Ok(Some(found));
    }
    let Some(table) = table_at(sought.top, &place) else {
        return Ok(None);
    };
    for (name, _) in table.iter() {
        let own = place.at_name(name.as_str());
        if let Some(found) = of_dependency(alloc, sought, own, aim)? {
            return Ok(Some(found));
        }
    }
    Ok(None)
}

fn of_dependency<'t>(
    alloc: Global,
    sought: Sought<'t>,
    place: Place<'t>,
    aim: Aim,
) -> Result<Option<Culprit<'t>>, AllocError>
    ensures { IsFound sought.entry result }
{
    match aim {
        Aim::Shape => misshapen(alloc, sought, place),
        Aim::Source(Unsupported::Workspace) => blamed(alloc, sought, place, Why::Inherited),
        Aim::Source(source) => blamed(alloc, sought, place, Why::Foreign(source)),
        Aim::Requirement => {
            let why = Why::NoText(Sort::Requirement);
            let tried = [(place, why), (place.at_key(Some("version")), why)];
            first_blamed(alloc, sought, &tried)
        }
    }
}

/// What is wrong with the shape of a dependency, in the order in which it is read.
fn misshapen<'t>(
    alloc: Global,
    sought: Sought<'t>,
    place: Place<'t>,
) -> Result<Option<Culprit<'t>>, AllocError>
    ensures { IsFound sought.entry result }
{
    let real_name = place.at_key(Some("package"));
    let optional = place.at_key(Some("optional"));
    let defaults = place.at_key(Some("default-features"));
    let features = place.at_key(Some("features"));
    let tried = [
        (place, Why::NoKey(Sort::PackageName)),
        (place, Why::NoSuch(Kind::Dependency)),
        (place.at_key(Some("version")), Why::NoSuch(Kind::Text)),
        (place, Why::NoSuch(Kind::Sourced)),
        (real_name, Why::NoSuch(Kind::Text)),
        (real_name, Why::NoText(Sort::PackageName)),
        (optional, Why::NoSuch(Kind::Flag)),
        (optional, Why::DevOptional),
        (defaults, Why::Twice),
        (defaults, Why::NoSuch(Kind::Flag)),
        (
            place.at_key(Some("default_features")),
            Why::NoSuch(Kind::Flag),
        ),
        (features, Why::NoSuch(Kind::List)),
    ];
    if let Some(found) = first_blamed(alloc, sought, &tried)? {
        return Ok(Some(found));
    }
    first_item(alloc, sought, features, Sort::AskedFeature)
}

/// The first element of a list that isn't a text of this sort.
pub(crate) fn first_item<'t>(
    alloc: Global,
    sought: Sought<'t>,
    list: Place<'t>,
    sort: Sort,
) -> Result<Option<Culprit<'t>>, AllocError>
    ensures { IsFound sought.entry result }
{
    let Some(items) = items_at(sought.top, &list) else {
        return Ok(None);
    };
    for (number, _) in items.iter().enumerate() {
        let item = list.at_item(number);
        let tried = [(item, Why::NoSuch(Kind::Text)), (item, Why::NoText(sort))];
        if let Some(found) = first_blamed(alloc, sought, &tried)? {
            return Ok(Some(found));
        }
    }
    Ok(None)
}
