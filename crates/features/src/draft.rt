//! What a feature table is built from: what a package writes, its faults, and the features that nobody wrote.

ghost use Rattle.std.specs.Prelude.{◌≡◌, ◌||◌, ℕ, List, IfOk, OnOk, option_copied};
ghost use Rattle.std.specs.List.{list_all, list_any};
ghost use Rattle.std.specs.List.Sorted.{IsStrictlySortedBy-prop};
ghost use Rattle.std.specs.Map.{keys_of};
ghost use Rattle.model.specs.Order.{text_cmp};
ghost use Rattle.model.specs.Outcome.{Gives};
ghost use Rattle.model.specs.Summary.{has_feature, same_text};
ghost use Rattle.model.specs.Tables.{has_dep_entry, has_dependency, has_fault, first_with, is_dep, implicit_entries};
ghost use Rattle.model.specs.Tables.{is_feature, is_implicit, is_optional};
ghost use Rattle.features.specs.inner.Drafts.{faultless, implicit_rows, is_well, lack_view, rows_or_fault, without};
ghost use Rattle.features.specs.inner.Texts.{has_text, HasThose, texts_in};
ghost use Rattle.features.specs.EntryViews.{entry_view, entry_views};
ghost use Rattle.features.specs.inner.Tables.{AreRising, dep_names_view, rows_of, table_wants_memory};

use crate::entry::Entry;
use crate::feature_name::FeatureName;
use crate::name::PackageName;
use crate::row::Row;
use crate::rows::has_row;
use crate::table::{DepName, FeatureFault};
use crate::texts::Texts;
use std::alloc::{AllocError, Global};

/// What an entry may lack.
#[derive(Clone, Copy)]
enum Lack {
    /// The feature that it names.
    Feature,
    /// A dependency of the name in it.
    Dependency,
    /// That the dependency is optional.
    Optional,
}

/// The dependencies and the features that a package writes, with the names in them to be looked up.
#[derive(Drop)]
struct Draft<'a> {
    dependencies: &'a [DepName],
    written: &'a [Row],
    /// What the dependencies are called.
    called: Texts<'a>,
    /// What the optional ones are called.
    optional: Texts<'a>,
    /// What the entries `dep:d` name.
    entered: Texts<'a>,
    ghost called_is: { HasThose (texts_in called) (has_dependency (dep_names_view dependencies.now)) },
    ghost optional_is: { HasThose (texts_in optional) (is_optional (dep_names_view dependencies.now)) },
    ghost entered_is: { HasThose (texts_in entered) (has_dep_entry (rows_of written.now)) },
    ghost rising: { AreRising written.now } by { IsStrictlySortedBy-prop text_cmp (keys_of written.now) },
}

/// What the dependencies are called.
fn called<'a>(alloc: Global, dependencies: &'a [DepName]) -> Result<Texts<'a>, AllocError>
    ensures { IfOk result
        (λ names. HasThose (texts_in names) (has_dependency (dep_names_view dependencies.entry.now))) }
{
    let mut names = Texts::new(alloc);
    for dependency in dependencies {
        names.put(dependency.name.as_str())?;
    }
    Ok(names)
}

/// What the optional dependencies are called.
fn optional<'a>(alloc: Global, dependencies: &'a [DepName]) -> Result<Texts<'a>, AllocError>
    ensures { IfOk result (λ names. HasThose (texts_in names) (is_optional (dep_names_view dependencies.entry.now))) }
{
    let mut names = Texts::new(alloc);
    for dependency in dependencies {
        if dependency.optional {
            names.put(dependency.name.as_str())?;
        }
    }
    Ok(names)
}

/// What the entries `dep:d` name.
fn entered<'a>(alloc: Global, written: &'a [Row]) -> Result<Texts<'a>, AllocError>
    ensures { IfOk result (λ names. HasThose (texts_in names) (has_dep_entry (rows_of written.entry.now))) }
{
    let mut names = Texts::new(alloc);
    'rows: for row in written {
        put_entered(&mut names, row.entries().as_slice())?;
    }
    Ok(names)
}

fn put_entered<'a>(names: &mut Texts<'a>, entries: &'a [Entry]) -> Result<(), AllocError>
    ensures { OnOk result ((d : List ℕ) → has_text (texts_in names.new) d
        ≡ (has_text (texts_in names.old) d || list_any (is_dep d) (entry_views entries.now))) }
{
    for entry in entries {
        if let Entry::Dependency(name) = entry {
            names.put(name.as_str())?;
        }
    }
    Ok(())
}

impl<'a> Draft<'a> {
    ghost use Rattle.features.specs.inner.DraftViews.{names_in, written_in};

    fn of(
        alloc: Global,
        dependencies: &'a [DepName],
        written: &'a [Row],
    ) -> Result<Draft<'a>, AllocError>
        requires { AreRising written.now }
        ensures { IfOk result (λ d. (names_in d ≡ dep_names_view dependencies.entry.now)
            × (written_in d ≡ rows_of written.entry.now)) }
    {
        Ok(Draft {
            dependencies,
            written,
            called: called(alloc, dependencies)?,
            optional: optional(alloc, dependencies)?,
            entered: entered(alloc, written)?,
        })
    }

    /// Whether the package writes this feature.
    fn is_written(&self, name: &str) -> bool
        ensures { result ≡ has_feature (written_in self.now) name.now }
    {
        has_row(self.written, name)
    }

    /// Whether an optional dependency of this name brings a feature that nobody wrote.
    fn is_implicit(&self, name: &str) -> bool
        ensures { result ≡ is_implicit (names_in self.now) (written_in self.now) name.now }
    {
        self.optional.has(name) && !self.entered.has(name) && !self.is_written(name)
    }

    /// Whether the table has this feature in the end.
    fn is_feature(&self, name: &str) -> bool
        ensures { result ≡ is_feature (names_in self.now) (written_in self.now) name.now }
    {
        self.is_written(name) || self.is_implicit(name) || name == "default"
    }

    /// Whether an entry lacks this.
    fn is_lacking(&self, lack: Lack, entry: &Entry) -> bool
        ensures { result ≡ has_fault (names_in self.now) (written_in self.now) (lack_view lack) (entry_view entry.now) }
    {
        match lack {
            Lack::Feature => match entry {
                Entry::Feature(feature) => !self.is_feature(feature.as_str()),
                _ => false,
            },
            Lack::Dependency => match entry {
                Entry::Feature(_) => false,
                Entry::Dependency(name)
                | Entry::DependencyFeature(name, _)
                | Entry::WeakFeature(name, _) => !self.called.has(name.as_str()),
            },
            Lack::Optional => match entry {
                Entry::Dependency(name) => !self.optional.has(name.as_str()),
                _ => false,
            },
        }
    }

    fn some_lacking(&self, lack: Lack, entries: &[Entry]) -> bool
        ensures { result ≡ list_any (λ entry.
            has_fault (names_in self.now) (written_in self.now) (lack_view lack) (entry_view entry)) entries.now }
    {
        entries.iter().any(|entry| self.is_lacking(lack, entry))
    }

    /// The first feature with an entry that lacks this.
    fn first_lacking(&self, lack: Lack) -> Option<&'a FeatureName>
        ensures { option_copied result
            ≡ first_with (has_fault (names_in self.now) (written_in self.now) (lack_view lack)) (written_in self.now) }
    {
        'rows: for row in self.written {
            if self.some_lacking(lack, row.entries().as_slice()) {
                return Some(row.name());
            }
        }
        None
    }

    /// Whether an entry lacks nothing.
    fn is_well(&self, entry: &Entry) -> bool
        ensures { result ≡ is_well (names_in self.now) (written_in self.now) (entry_view entry.now) }
    {
        match entry {
            Entry::Feature(feature) => self.is_feature(feature.as_str()),
            Entry::Dependency(name) => self.optional.has(name.as_str()),
            Entry::DependencyFeature(name, _) | Entry::WeakFeature(name, _) => {
                self.called.has(name.as_str())
            }
        }
    }

    fn are_well(&self, entries: &[Entry]) -> bool
        ensures { result
            ≡ list_all (λ e. is_well (names_in self.now) (written_in self.now) (entry_view e)) entries.now }
    {
        entries.iter().all(|entry| self.is_well(entry))
    }

    fn all_well(&self) -> bool
        ensures { result ≡ list_all (λ row. list_all
            (λ e. is_well (names_in self.now) (written_in self.now) (entry_view e)) row.1.items) self.now.written.now }
    {
        self.written
            .iter()
            .all(|row| self.are_well(row.entries().as_slice()))
    }

    fn without(&self, lack: Lack) -> Result<(), FeatureFault>
        ensures { Gives table_wants_memory
            (λ u. u) result (without (names_in self.now) (written_in self.now) (lack_view lack)) }
    {
        let Some(feature) = self.first_lacking(lack) else {
            return Ok(());
        };
        let feature = feature.clone()?;
        Err(match lack {
            Lack::Feature => FeatureFault::NoSuchFeature(feature),
            Lack::Dependency => FeatureFault::NoSuchDependency(feature),
            Lack::Optional => FeatureFault::NotOptional(feature),
        })
    }

    /// Looks for one fault after another only where there is some.
    fn faultless(&self) -> Result<(), FeatureFault>
        ensures { Gives table_wants_memory (λ u. u) result (faultless (names_in self.now) (written_in self.now)) }
    {
        if self.all_well() {
            return Ok(());
        }
        self.without(Lack::Feature)?;
        self.without(Lack::Dependency)?;
        self.without(Lack::Optional)
    }

    /// The rows of the implicit features, dependency after dependency.
    fn implicit_rows(&self, alloc: Global) -> Result<Vec<Row>, AllocError>
        ensures { IfOk result (λ v. rows_of v.items
            ≡ implicit_rows (is_implicit (names_in self.now) (written_in self.now)) (names_in self.now)) }
    {
        let mut rows = Vec::new(alloc);
        for dependency in self.dependencies {
            if self.is_implicit(dependency.name.as_str()) {
                rows.push(implicit_row(alloc, &dependency.name)?)?;
            }
        }
        Ok(rows)
    }
}

/// The implicit feature of a dependency: with the one entry `dep:d`.
fn implicit_row(alloc: Global, name: &PackageName) -> Result<Row, AllocError>
    ensures { IfOk result (λ row. (row.0 ≡ name.now) × (entry_views row.1.items ≡ implicit_entries name.now)) }
{
    let mut entries = Vec::with_capacity(alloc, 1)?;
    entries.push(Entry::Dependency(name.clone()?))?;
    Row::new(alloc, FeatureName::of_package(alloc, name)?, entries)
}

/// The rows of the implicit features, where what is written has no fault.
pub(crate) fn implicit_rows(
    alloc: Global,
    dependencies: &[DepName],
    written: &[Row],
) -> Result<Vec<Row>, FeatureFault>
    requires { AreRising written.now }
    ensures { Gives table_wants_memory
        (λ v. rows_of v.items) result (rows_or_fault (dep_names_view dependencies.now) (rows_of written.now)) }
{
    let draft = Draft::of(alloc, dependencies, written)?;
    draft.faultless()?;
    Ok(draft.implicit_rows(alloc)?)
}
