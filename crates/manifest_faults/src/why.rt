//! What is wrong with a part of a manifest.

use crate::place::Place;
use manifest::Unsupported;

/// A part of a manifest that has a fault, and what is wrong with it.
#[derive(Clone, Copy)]
pub(crate) struct Culprit<'t> {
    pub place: Place<'t>,
    pub why: Why<'t>,
}

/// What is wrong with what stands at a place.
#[derive(Clone, Copy)]
pub(crate) enum Why<'t> {
    /// It has to be there, and isn't.
    Absent,
    /// It isn't the kind of value that it has to be.
    NoSuch(Kind),
    /// It isn't a text of this sort.
    NoText(Sort),
    /// The key isn't a text of this sort.
    NoKey(Sort),
    /// It is there in its other spelling too.
    Twice,
    /// A dev dependency is optional.
    DevOptional,
    /// The table has entries.
    HasRows,
    /// The list has elements.
    HasItems,
    /// It is left to a workspace.
    Inherited,
    /// The dependency is from this source.
    Foreign(Unsupported),
    /// The entry is no feature.
    NoFeature,
    /// The entry is no feature, since an entry of this feature, at this place, names the dependency that is called so.
    Taken(&'t str, usize),
    /// The entry names no dependency.
    NoSuchDependency,
    /// The entry names a dependency that isn't optional.
    NotOptional,
}

/// What a value has to be.
#[derive(Clone, Copy)]
pub(crate) enum Kind {
    Table,
    /// A text, or a table with a version or a source.
    Dependency,
    /// A table that has a version or a source.
    Sourced,
    Text,
    /// A text, or left to a workspace.
    OwnText,
    Flag,
    List,
}

/// What a text has to be.
#[derive(Clone, Copy)]
pub(crate) enum Sort {
    PackageName,
    FeatureName,
    /// The name of a feature, or empty.
    AskedFeature,
    Version,
    Requirement,
    Entry,
}
