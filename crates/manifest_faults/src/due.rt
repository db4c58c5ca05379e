//! What stands at a place, and what may be wrong with it.

ghost use Rattle.std.specs.Prelude.{◌≡◌, option_copied};
ghost use Rattle.manifest_faults.specs.inner.Blame.{form_at_top, form_in_package, form_in_workspace, form_named};
ghost use Rattle.manifest_faults.specs.inner.Blame.{form_of, form_of_dependency, form_of_item, form_of_key};
ghost use Rattle.manifest_faults.specs.inner.Blame.{is_due, is_kind_due, is_of_dependencies, is_sort_due};

use crate::place::Place;
use crate::why::{Kind, Sort, Why};

/// What stands at a place.
#[derive(Clone, Copy)]
pub(crate) enum Form {
    /// A table of the manifest, or one of `[target]`.
    Table,
    /// The name of the package.
    Name,
    /// The version of the package.
    Version,
    /// A dependency.
    Dependency,
    /// The `version` of a dependency.
    Requirement,
    /// The `package` of a dependency.
    RealName,
    /// Whether a dependency is optional.
    Optional,
    /// Whether a dependency asks for `default`.
    Defaults,
    /// The features that a dependency asks for, and one of them.
    Asked,
    AskedItem,
    /// A feature, and one of its entries.
    Feature,
    Entry,
    /// The members of a workspace.
    Members,
    Other,
}

/// Whether this may be wrong with what stands there.
pub(crate) fn is_due(why: Why<'_>, form: Form) -> bool
    ensures { result ≡ is_due why.entry form }
{
    match (why, form) {
        (Why::Absent, Form::Table) => true,
        (Why::Absent, Form::Name) => true,
        (Why::NoSuch(kind), form) => is_kind_due(kind, form),
        (Why::NoText(sort), form) => is_sort_due(sort, form),
        (Why::NoKey(Sort::PackageName), Form::Dependency) => true,
        (Why::NoKey(Sort::FeatureName), Form::Feature) => true,
        (Why::Twice, Form::Table) => true,
        (Why::Twice, Form::Defaults) => true,
        (Why::DevOptional, Form::Optional) => true,
        (Why::HasRows, Form::Table) => true,
        (Why::HasItems, Form::Members) => true,
        (Why::Inherited, Form::Name) => true,
        (Why::Inherited, Form::Version) => true,
        (Why::Inherited, Form::Dependency) => true,
        (Why::Foreign(_), Form::Dependency) => true,
        (Why::NoFeature, Form::Entry) => true,
        (Why::Taken(_, _), Form::Entry) => true,
        (Why::NoSuchDependency, Form::Entry) => true,
        (Why::NotOptional, Form::Entry) => true,
        _ => false,
    }
}

fn is_kind_due(kind: Kind, form: Form) -> bool
    ensures { result ≡ is_kind_due kind form }
{
    match (kind, form) {
        (Kind::Table, Form::Table) => true,
        (Kind::Dependency, Form::Dependency) => true,
        (Kind::Sourced, Form::Dependency) => true,
        (Kind::Text, Form::Requirement) => true,
        (Kind::Text, Form::RealName) => true,
        (Kind::Text, Form::AskedItem) => true,
        (Kind::Text, Form::Entry) => true,
        (Kind::OwnText, Form::Name) => true,
        (Kind::OwnText, Form::Version) => true,
        (Kind::Flag, Form::Optional) => true,
        (Kind::Flag, Form::Defaults) => true,
        (Kind::List, Form::Asked) => true,
        (Kind::List, Form::Feature) => true,
        (Kind::List, Form::Members) => true,
        _ => false,
    }
}

fn is_sort_due(sort: Sort, form: Form) -> bool
    ensures { result ≡ is_sort_due sort form }
{
    match (sort, form) {
        (Sort::PackageName, Form::RealName) => true,
        (Sort::PackageName, Form::Name) => true,
        (Sort::AskedFeature, Form::AskedItem) => true,
        (Sort::Version, Form::Version) => true,
        (Sort::Requirement, Form::Dependency) => true,
        (Sort::Requirement, Form::Requirement) => true,
        (Sort::Entry, Form::Entry) => true,
        _ => false,
    }
}

/// What stands at a place.
pub(crate) fn form_of(place: &Place<'_>) -> Form
    ensures { result ≡ form_of place.now }
{
    let form = form_named(place);
    match place.item {
        Some(_) => form_of_item(form),
        None => form,
    }
}

/// What an element of a list there is.
fn form_of_item(list: Form) -> Form
    ensures { result ≡ form_of_item list }
{
    match list {
        Form::Asked => Form::AskedItem,
        Form::Feature => Form::Entry,
        _ => Form::Other,
    }
}

/// What stands at a place, but for which element of a list it is.
fn form_named(place: &Place<'_>) -> Form
    ensures { result ≡ form_named place.now (option_copied place.now.name) }
{
    let Some(name) = place.name else {
        return Form::Table;
    };
    if is_of_dependencies(place.section) {
        form_of_dependency(place.key)
    } else if place.target.is_some() {
        Form::Other
    } else if place.key.is_some() {
        Form::Other
    } else {
        form_at_top(place.section, name)
    }
}

fn form_of_dependency(key: Option<&str>) -> Form
    ensures { result ≡ form_of_dependency (option_copied key.entry) }
{
    match key {
        Some(key) => form_of_key(key),
        None => Form::Dependency,
    }
}

fn form_of_key(key: &str) -> Form
    ensures { result ≡ form_of_key key.now }
{
    if key == "version" {
        Form::Requirement
    } else if key == "package" {
        Form::RealName
    } else if key == "optional" {
        Form::Optional
    } else if key == "default-features" {
        Form::Defaults
    } else if key == "default_features" {
        Form::Defaults
    } else if key == "features" {
        Form::Asked
    } else {
        Form::Other
    }
}

fn is_of_dependencies(section: &str) -> bool
    ensures { result ≡ is_of_dependencies section.now }
{
    if section == "dependencies" {
        true
    } else if section == "dev-dependencies" {
        true
    } else if section == "dev_dependencies" {
        true
    } else if section == "build-dependencies" {
        true
    } else {
        section == "build_dependencies"
    }
}

/// What stands at a name in a table at the top that isn't one of dependencies.
fn form_at_top(section: &str, name: &str) -> Form
    ensures { result ≡ form_at_top section.now name.now }
{
    if section == "features" {
        Form::Feature
    } else if section == "package" {
        form_in_package(name)
    } else if section == "workspace" {
        form_in_workspace(name)
    } else if section == "target" {
        Form::Table
    } else {
        Form::Other
    }
}

fn form_in_package(name: &str) -> Form
    ensures { result ≡ form_in_package name.now }
{
    if name == "name" {
        Form::Name
    } else if name == "version" {
        Form::Version
    } else {
        Form::Other
    }
}

fn form_in_workspace(name: &str) -> Form
    ensures { result ≡ form_in_workspace name.now }
{
    if name == "members" {
        Form::Members
    } else {
        Form::Other
    }
}
