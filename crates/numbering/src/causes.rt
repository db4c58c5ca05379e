//! What the needs of an owner and the entries of its features give rise to.

ghost use Rattle.std.specs.Prelude.{◌≡◌, ◌++◌, ◌∷◌, [], ◌&&◌, Some, None, OnOk, IfOk, map, option_map};
ghost use Rattle.std.specs.Prelude.{if◌then◌else◌};
ghost use Rattle.std.specs.List.{flat_map};
ghost use Rattle.semver.specs.Identifiers.{parts_of};
ghost use Rattle.classes.specs.Classes.{class_view};
ghost use Rattle.features.specs.EntryViews.{entry_view, entry_views};
ghost use Rattle.features.specs.Views.{dependency_view, dependency_views};
ghost use Rattle.model.specs.Selection.{class_of};
ghost use Rattle.model.specs.Summary as model;
ghost use Rattle.model.specs.Summary.{same_text};
ghost use Rattle.model.specs.Vertices as model_vertices;
ghost use Rattle.model.specs.Vertices.{feat, owner_brings, same_vertex};
ghost use Rattle.model.specs.Causes.{of_asking, of_enabling, table_of_owner};
ghost use Rattle.numbering.specs.inner.Called.{AreOfVersion, called_so, named_by, numbered_from, numbered_views};
ghost use Rattle.numbering.specs.GivenViews.{cause_views};
ghost use Rattle.numbering.specs.inner.CausesAt.{each_from, entry_causes, entry_if, feature_causes, need_if, turned_if};
ghost use Rattle.numbering.specs.inner.CausesAt.{version_causes, weak_if, with_causes};
ghost use Rattle.numbering.specs.inner.KnownProblem.{problem};
ghost use Rattle.vertices.specs.inner.RefViews.{owner_ref_view};

use crate::called::{ByName, Numbered};
use crate::known_problem::KnownProblem;
use crate::possible_classes::classes_of;
use classes::{Class, same_class};
use features::{Dependency, DependencyParts, Entry, FeatureName, FeatureTable, PackageName};
use indexmap::IndexSet;
use lookups::{Cause, brings, dependencies_of, is_needed};
use semver::Version;
use std::alloc::{AllocError, Global};
use vertices::OwnerRef;

/// A feature of a version.
#[derive(Clone, Copy)]
pub(crate) struct Own<'a> {
    pub(crate) name: &'a PackageName,
    pub(crate) version: &'a Version,
    pub(crate) feature: &'a FeatureName,
}

/// The dependencies that the owner needs.
pub(crate) fn put_needs<'a>(
    causes: &mut Vec<Cause<'a>>,
    owner: OwnerRef<'a>,
    dependencies: &[Dependency],
) -> Result<(), AllocError>
    ensures { OnOk result (cause_views causes.new.items ≡ cause_views causes.old.items
        ++ each_from (need_if (owner_ref_view owner.entry)) 0 (dependency_views dependencies.now)) }
{
    'dependencies: for (number, dependency) in dependencies.iter().enumerate() {
        put_need(causes, owner, number, dependency)?;
    }
    Ok(())
}

/// The need for one of them: all of the root's are needed, and those of a version that aren't optional.
fn put_need<'a>(
    causes: &mut Vec<Cause<'a>>,
    owner: OwnerRef<'a>,
    number: usize,
    dependency: &Dependency,
) -> Result<(), AllocError>
    ensures { OnOk result (cause_views causes.new.items ≡ cause_views causes.old.items
        ++ need_if (owner_ref_view owner.entry) number (dependency_view dependency.now)) }
{
    if is_needed(&owner, dependency) {
        causes.push(Cause::Need(owner, number))?;
    }
    Ok(())
}

/// What the entries of a version's feature give.
pub(crate) fn put_feature<'a>(
    alloc: Global,
    known: &KnownProblem<'a>,
    causes: &mut Vec<Cause<'a>>,
    own: Own<'a>,
    called: &ByName<'a>,
    entries: &'a [Entry],
) -> Result<(), AllocError>
    requires called { AreOfVersion (problem known.now) own.name.now (parts_of own.version.now) called.now }
    ensures { OnOk result (cause_views causes.new.items
        ≡ cause_views causes.old.items ++ flat_map (entry_causes (problem known.now) own.entry.name.now
        (parts_of own.entry.version.now) own.entry.feature.now) (entry_views entries.entry.now)) }
{
    'entries: for entry in entries.iter() {
        put_entry(alloc, known, causes, own, called, entry)?;
    }
    Ok(())
}

/// What an entry of the feature gives, by itself and with each dependency that it names.
fn put_entry<'a>(
    alloc: Global,
    known: &KnownProblem<'a>,
    causes: &mut Vec<Cause<'a>>,
    own: Own<'a>,
    called: &ByName<'a>,
    entry: &'a Entry,
) -> Result<(), AllocError>
    requires called { AreOfVersion (problem known.now) own.name.now (parts_of own.version.now) called.now }
    ensures { OnOk result (cause_views causes.new.items
        ≡ cause_views causes.old.items ++ entry_causes (problem known.now) own.entry.name.now
        (parts_of own.entry.version.now) own.entry.feature.now (entry_view entry.entry.now)) }
{
    put_turned(causes, own, entry)?;
    put_each(alloc, known, causes, own, called, entry)
}

/// What an entry `g` of the feature gives.
fn put_turned<'a>(
    causes: &mut Vec<Cause<'a>>,
    own: Own<'a>,
    entry: &'a Entry,
) -> Result<(), AllocError>
    ensures { OnOk result (cause_views causes.new.items ≡ cause_views causes.old.items ++ turned_if own.entry.name.now
        (parts_of own.entry.version.now) own.entry.feature.now (entry_view entry.entry.now)) }
{
    match entry {
        Entry::Feature(off) => put_off(causes, own, off),
        Entry::Dependency(_) => Ok(()),
        Entry::DependencyFeature(_, _) => Ok(()),
        Entry::WeakFeature(_, _) => Ok(()),
    }
}

/// A feature that may not be off, unless it is the feature itself.
fn put_off<'a>(
    causes: &mut Vec<Cause<'a>>,
    own: Own<'a>,
    off: &'a FeatureName,
) -> Result<(), AllocError>
    ensures { OnOk result (cause_views causes.new.items ≡ cause_views causes.old.items ++ turned_if own.entry.name.now
        (parts_of own.entry.version.now) own.entry.feature.now (model.feature off.entry.now)) }
{
    if own.feature == off {
        return Ok(());
    }
    causes.push(Cause::Entry(own.name, own.version, own.feature, off))?;
    Ok(())
}

/// What an entry of the feature gives with the dependencies that it names: no other one is looked at.
fn put_each<'a>(
    alloc: Global,
    known: &KnownProblem<'a>,
    causes: &mut Vec<Cause<'a>>,
    own: Own<'a>,
    called: &ByName<'a>,
    entry: &'a Entry,
) -> Result<(), AllocError>
    requires called { AreOfVersion (problem known.now) own.name.now (parts_of own.version.now) called.now }
    ensures { OnOk result (cause_views causes.new.items ≡ cause_views causes.old.items
        ++ each_from (entry_if (problem known.now) own.entry.name.now (parts_of own.entry.version.now)
        own.entry.feature.now (entry_view entry.entry.now)) 0 (owner_brings (problem known.now)
        (model_vertices.version_of own.entry.name.now (parts_of own.entry.version.now))).dependencies) }
{
    match name_of(entry) {
        Some(name) => put_called(alloc, known, causes, own, called, entry, name.as_str()),
        None => Ok(()),
    }
}

/// The name by which an entry calls dependencies.
fn name_of(entry: &Entry) -> Option<&PackageName>
    ensures { option_map (λ name. name.now) result ≡ named_by (entry_view entry.entry.now) }
{
    match entry {
        Entry::Feature(_) => None,
        Entry::Dependency(called) => Some(called),
        Entry::DependencyFeature(called, _) => Some(called),
        Entry::WeakFeature(called, _) => Some(called),
    }
}

/// What an entry of the feature gives with the dependencies called so.
fn put_called<'a>(
    alloc: Global,
    known: &KnownProblem<'a>,
    causes: &mut Vec<Cause<'a>>,
    own: Own<'a>,
    called: &ByName<'a>,
    entry: &'a Entry,
    name: &'a str,
) -> Result<(), AllocError>
    ensures { OnOk result (cause_views causes.new.items ≡ cause_views causes.old.items ++ flat_map (λ p.
        entry_if (problem known.now) own.entry.name.now (parts_of own.entry.version.now) own.entry.feature.now
        (entry_view entry.entry.now) p.0 p.1) (called_so name.entry.now (numbered_from 0 called.now))) }
{
    match called.those(name) {
        Some(those) => put_those(alloc, known, causes, own, entry, those),
        None => Ok(()),
    }
}

/// What an entry of the feature gives with each of these dependencies.
fn put_those<'a>(
    alloc: Global,
    known: &KnownProblem<'a>,
    causes: &mut Vec<Cause<'a>>,
    own: Own<'a>,
    entry: &'a Entry,
    those: &[Numbered<'a>],
) -> Result<(), AllocError>
    ensures { OnOk result (cause_views causes.new.items ≡ cause_views causes.old.items
        ++ flat_map (λ p. entry_if (problem known.now) own.entry.name.now (parts_of own.entry.version.now)
        own.entry.feature.now (entry_view entry.entry.now) p.0 p.1) (numbered_views those.now)) }
{
    'those: for one in those.iter() {
        put_on(alloc, known, causes, own, entry, one.number, one.dependency)?;
    }
    Ok(())
}

/// What an entry gives with one dependency: nothing unless that is called as the entry says.
fn put_on<'a>(
    alloc: Global,
    known: &KnownProblem<'a>,
    causes: &mut Vec<Cause<'a>>,
    own: Own<'a>,
    entry: &'a Entry,
    number: usize,
    dependency: &'a DependencyParts,
) -> Result<(), AllocError>
    ensures { OnOk result (cause_views causes.new.items ≡ cause_views causes.old.items
        ++ entry_if (problem known.now) own.entry.name.now (parts_of own.entry.version.now) own.entry.feature.now
        (entry_view entry.entry.now) number (dependency_view dependency.entry.now)) }
{
    match entry {
        Entry::Feature(_) => Ok(()),
        Entry::Dependency(called) => { put_enabled(causes, own, entry, called, number, dependency) }
        Entry::DependencyFeature(called, asked) => {
            put_asked(causes, own, entry, called, asked, number, dependency)
        }
        Entry::WeakFeature(called, asked) => {
            put_weak(alloc, known, causes, own, called, asked, number, dependency)
        }
    }
}

/// What an entry `dep:d` gives with a dependency.
fn put_enabled<'a>(
    causes: &mut Vec<Cause<'a>>,
    own: Own<'a>,
    entry: &'a Entry,
    called: &PackageName,
    number: usize,
    dependency: &DependencyParts,
) -> Result<(), AllocError>
    ensures { OnOk result (cause_views causes.new.items ≡ cause_views causes.old.items
        ++ (if same_text (dependency_view dependency.now).name called.now then of_enabling own.entry.name.now
        (parts_of own.entry.version.now) own.entry.feature.now (entry_view entry.entry.now) number ∷ [] else [])) }
{
    if dependency.name == *called {
        causes.push(Cause::Enabling(own.name, own.version, own.feature, entry, number))?;
    }
    Ok(())
}

/// What an entry `d/g` gives with a dependency.
fn put_asked<'a>(
    causes: &mut Vec<Cause<'a>>,
    own: Own<'a>,
    entry: &'a Entry,
    called: &PackageName,
    asked: &'a FeatureName,
    number: usize,
    dependency: &DependencyParts,
) -> Result<(), AllocError>
    ensures { OnOk result (cause_views causes.new.items
        ≡ cause_views causes.old.items ++ (if same_text (dependency_view dependency.now).name called.now then
        of_enabling own.entry.name.now (parts_of own.entry.version.now) own.entry.feature.now
        (entry_view entry.entry.now) number ∷ of_asking own.entry.name.now
        (parts_of own.entry.version.now) own.entry.feature.now asked.entry.now number ∷ [] else [])) }
{
    if dependency.name == *called {
        causes.push(Cause::Enabling(own.name, own.version, own.feature, entry, number))?;
        causes.push(Cause::Asking(own.name, own.version, own.feature, asked, number))?;
    }
    Ok(())
}

/// What an entry `d?/g` gives with a dependency.
fn put_weak<'a>(
    alloc: Global,
    known: &KnownProblem<'a>,
    causes: &mut Vec<Cause<'a>>,
    own: Own<'a>,
    called: &'a PackageName,
    asked: &'a FeatureName,
    number: usize,
    dependency: &'a DependencyParts,
) -> Result<(), AllocError>
    ensures { OnOk result (cause_views causes.new.items ≡ cause_views causes.old.items
        ++ entry_if (problem known.now) own.entry.name.now (parts_of own.entry.version.now) own.entry.feature.now
        (model.weak_feature called.entry.now asked.entry.now) number (dependency_view dependency.entry.now)) }
{
    if dependency.name != *called {
        return Ok(());
    }
    let classes = classes_of(alloc, known, dependency)?;
    put_weak_in(causes, own, asked, number, dependency, classes.as_slice())
}

/// The same in each of these classes, to which the dependency may lead.
fn put_weak_in<'a>(
    causes: &mut Vec<Cause<'a>>,
    own: Own<'a>,
    asked: &'a FeatureName,
    number: usize,
    dependency: &DependencyParts,
    classes: &[Class],
) -> Result<(), AllocError>
    ensures { OnOk result (cause_views causes.new.items ≡ cause_views causes.old.items
        ++ flat_map (weak_if own.entry.name.now (parts_of own.entry.version.now) own.entry.feature.now asked.entry.now
        number (dependency_view dependency.now)) (map class_view classes.now)) }
{
    'classes: for class in classes.iter() {
        put_weak_at(causes, own, asked, number, dependency, *class)?;
    }
    Ok(())
}

/// A class of the dependency, unless the feature there is the feature itself.
fn put_weak_at<'a>(
    causes: &mut Vec<Cause<'a>>,
    own: Own<'a>,
    asked: &'a FeatureName,
    number: usize,
    dependency: &DependencyParts,
    class: Class,
) -> Result<(), AllocError>
    ensures { OnOk result (cause_views causes.new.items ≡ cause_views causes.old.items
        ++ weak_if own.entry.name.now (parts_of own.entry.version.now) own.entry.feature.now asked.entry.now number
        (dependency_view dependency.now) (class_view class)) }
{
    if is_itself(&own, asked, dependency, class) {
        return Ok(());
    }
    causes.push(Cause::Weak(own.name, own.version, own.feature, asked, number, class))?;
    Ok(())
}

/// Whether the feature of the dependency's package in the class is the feature itself.
fn is_itself(own: &Own<'_>, asked: &FeatureName, dependency: &DependencyParts, class: Class) -> bool
    ensures { result ≡ same_vertex (feat own.now.name.now (class_of (parts_of own.now.version.now)) own.now.feature.now)
        (feat (dependency_view dependency.now).real_name (class_view class) asked.now) }
{
    *own.name == dependency.real_name
        && same_class(&Class::of(own.version), &class)
        && *own.feature == *asked
}

/// The causes, each once. Most pairs have one at most, which needs no set.
pub(crate) fn each_once<'a>(
    alloc: Global,
    causes: Vec<Cause<'a>>,
) -> Result<Vec<Cause<'a>>, AllocError>
    ensures { IfOk result (λ v. cause_views v.items ≡ with_causes [] (cause_views causes.entry.items)) }
{
    if causes.len() < 2 {
        return Ok(causes);
    }
    let kept = kept_once(alloc, causes.as_slice())?;
    let mut once = Vec::new(alloc);
    once.extend_from_slice(kept.as_slice())?;
    Ok(once)
}

/// A set of the causes, in their order.
#[tactic(auto, using(crate::proofs::SameCauses::cause_put))]
fn kept_once<'a>(alloc: Global, causes: &[Cause<'a>]) -> Result<IndexSet<Cause<'a>>, AllocError>
    ensures { IfOk result (λ s. cause_views s.keys ≡ with_causes [] (cause_views causes.now)) }
{
    let mut kept = IndexSet::new(alloc);
    'causes: for cause in causes.iter() {
        kept.insert(*cause)?;
    }
    Ok(kept)
}

/// What a version's needs and the entries of its features give.
pub(crate) fn put_version<'a>(
    alloc: Global,
    known: &KnownProblem<'a>,
    causes: &mut Vec<Cause<'a>>,
    name: &'a PackageName,
    version: &'a Version,
) -> Result<(), AllocError>
    ensures { OnOk result (cause_views causes.new.items ≡ cause_views causes.old.items
        ++ version_causes (problem known.now) name.entry.now (parts_of version.entry.now)) }
{
    let owner = OwnerRef::Version(name, version);
    put_needs(causes, owner, dependencies_of(&known.problem, &owner))?;
    put_features(alloc, known, causes, name, version)
}

/// What the entries of a version's features give.
fn put_features<'a>(
    alloc: Global,
    known: &KnownProblem<'a>,
    causes: &mut Vec<Cause<'a>>,
    name: &'a PackageName,
    version: &'a Version,
) -> Result<(), AllocError>
    ensures { OnOk result (cause_views causes.new.items ≡ cause_views causes.old.items
        ++ flat_map (λ row. feature_causes (problem known.now) name.entry.now (parts_of version.entry.now) row.0)
        (table_of_owner (problem known.now) (model_vertices.version_of name.entry.now (parts_of version.entry.now)))) }
{
    match brings(&known.problem, &OwnerRef::Version(name, version)) {
        Some(summary) => {
            let called = ByName::of(alloc, summary.dependencies.as_slice())?;
            put_rows(
                alloc,
                known,
                causes,
                name,
                version,
                &called,
                &summary.features,
            )
        }
        None => Ok(()),
    }
}

/// What the entries of the features of a table give.
fn put_rows<'a>(
    alloc: Global,
    known: &KnownProblem<'a>,
    causes: &mut Vec<Cause<'a>>,
    name: &'a PackageName,
    version: &'a Version,
    called: &ByName<'a>,
    table: &'a FeatureTable,
) -> Result<(), AllocError>
    requires called { AreOfVersion (problem known.now) name.now (parts_of version.now) called.now }
    requires table { table.now
        ≡ table_of_owner (problem known.now) (model_vertices.version_of name.now (parts_of version.now)) }
    ensures { OnOk result (cause_views causes.new.items ≡ cause_views causes.old.items ++ flat_map (λ row.
        feature_causes (problem known.now) name.entry.now (parts_of version.entry.now) row.0) table.entry.now) }
{
    'rows: for (feature, entries) in table.iter() {
        let own = Own {
            name,
            version,
            feature,
        };
        put_feature(alloc, known, causes, own, called, entries.as_slice())?;
    }
    Ok(())
}
