//! What a dependency text means.

ghost use Rattle.std.specs.Prelude.{◌≡◌, ◌≢◌, ℕ, suc, List, [], ◌∷◌, ◌++◌, slice_get, MatchOption, Some, true};
ghost use Rattle.std.specs.Option.{ok_or};
ghost use Rattle.std.specs.Ordering.{ordering_then};
ghost use Rattle.semver.specs.Identifiers.{parts_of};
ghost use Rattle.model.specs.Order.{text_cmp, version_cmp};
ghost use Rattle.model.specs.Content as model;
ghost use Rattle.model.specs.Outcome.{Gives};
ghost use Rattle.lockfile.specs.Locks.{wants_memory, place_meant, places_meant, list_of, lists_of, only, places};
ghost use Rattle.lockfile.specs.Locks.{locked_packages};
ghost use Rattle.lockfile.specs.inner.Search.{named_cmp, versioned_cmp, wanted_cmp, is_named, is_wanted, IsOrdered};
ghost use Rattle.model.specs.Content.{passes};
ghost use Rattle.lockfile.specs.inner.Search.{HasNoSpace};
ghost use Rattle.features.specs.Views.{text_views};
ghost use Rattle.lockfile.specs.inner.Views.{package_view, unlinked_views, locked_views, list_views};

use crate::fault::LockFault;
use crate::order::{ordered_list, source_order};
use crate::package::Package;
use crate::packages::UnlinkedPackage;
use crate::table::version;
use classes::version_order;
use semver::Version;
use std::alloc::{AllocError, Global};
use std::cmp::Ordering;
use std::collections::HashMap;

/// The packages that are looked for.
#[derive(Clone, Copy)]
pub(crate) enum Wanted<'t, 'v> {
    /// Those of a name.
    Name(&'t str),
    /// Those of a name and a version.
    Version(&'t str, &'v Version),
    /// The one of a name, a version, and a source or none.
    Source(&'t str, &'v Version, Option<&'t str>),
}

impl<'p> Wanted<'p, 'p> {
    /// Those of the name of a package.
    pub(crate) fn name_of(locked: &'p Package) -> Wanted<'p, 'p>
        ensures { (r : model.Package) → wanted_cmp result r ≡ named_cmp (package_view locked.now).name r }
    {
        Wanted::Name(locked.name.as_str())
    }

    /// Those of the name and the version of a package.
    pub(crate) fn version_of(locked: &'p Package) -> Wanted<'p, 'p>
        ensures { (r : model.Package)
            → wanted_cmp result r ≡ versioned_cmp (package_view locked.now).name (package_view locked.now).version r }
    {
        Wanted::Version(locked.name.as_str(), &locked.version)
    }
}

impl Wanted<'_, '_> {
    /// Where a package stands beside the packages that are wanted.
    pub(crate) fn compare(&self, locked: &Package) -> Ordering
        ensures { result ≡ wanted_cmp self.now (package_view locked.now) }
    {
        match *self {
            Wanted::Name(name) => locked.name.as_str().cmp(name),
            Wanted::Version(name, version) => compare_versions(locked, name, version),
            Wanted::Source(name, version, source) => {
                compare_versions(locked, name, version).then(source_order(locked.source(), source))
            }
        }
    }
}

/// Where a package stands beside those of a name and a version.
fn compare_versions(locked: &Package, name: &str, version: &Version) -> Ordering
    ensures { result ≡ ordering_then (text_cmp locked.now.name name.now)
        (version_cmp (parts_of locked.now.version) (parts_of version.now)) }
{
    locked
        .name
        .as_str()
        .cmp(name)
        .then_with(|| version_order(&locked.version, version))
}

/// Whether there is a package at a place, and it is wanted.
fn is_wanted_at(packages: &[UnlinkedPackage], place: usize, wanted: Wanted) -> bool
    ensures { result ≡ passes (is_wanted wanted.entry) (slice_get (locked_views packages.now) place) }
{
    match packages.get(place) {
        Some(package) => wanted.compare(&package.locked) == Ordering::Equal,
        None => false,
    }
}

/// The place of the only package that is wanted: those that are stand next to one another.
fn only_place(packages: &[UnlinkedPackage], wanted: Wanted) -> Option<usize>
    requires { IsOrdered (locked_packages (unlinked_views packages.now)) }
    ensures { result ≡ only (places (is_wanted wanted.entry) (locked_packages (unlinked_views packages.now))) }
{
    let first = packages.partition_point(|p| wanted.compare(&p.locked) == Ordering::Less);
    let here = is_wanted_at(packages, first, wanted);
    let next = is_wanted_at(packages, first + 1, wanted);
    if next {
        return None;
    }
    if here { Some(first) } else { None }
}

/// Whether the package before a place is wanted.
fn is_wanted_before(packages: &[UnlinkedPackage], place: usize, wanted: Wanted) -> bool
    ensures { (before : ℕ) → place ≡ suc before
        → result ≡ passes (is_wanted wanted.entry) (slice_get (locked_views packages.now) before) }
{
    if place == 0 {
        return false;
    }
    is_wanted_at(packages, place - 1, wanted)
}

/// Whether the package at a place is wanted, and neither of those beside it: then it is the only one.
fn is_only_at(packages: &[UnlinkedPackage], place: usize, wanted: Wanted) -> bool
    requires { IsOrdered (locked_packages (unlinked_views packages.now)) }
    ensures { result ≡ true
        → Some place ≡ only (places (is_wanted wanted.entry) (locked_packages (unlinked_views packages.now))) }
{
    if place >= packages.len() {
        return false;
    }
    if is_wanted_before(packages, place, wanted) {
        return false;
    }
    if is_wanted_at(packages, place + 1, wanted) {
        return false;
    }
    is_wanted_at(packages, place, wanted)
}

/// The place of the only package of a name. The last one of the name is looked at first, for a search looks at many.
fn named_place(
    packages: &[UnlinkedPackage],
    last_places: &HashMap<&str, usize>,
    name: &str,
) -> Option<usize>
    requires { IsOrdered (locked_packages (unlinked_views packages.now)) }
    ensures { result ≡ only (places (is_named name.now) (locked_packages (unlinked_views packages.now))) }
{
    let wanted = Wanted::Name(name);
    if let Some(place) = last_places.get(&name) {
        if is_only_at(packages, *place, wanted) {
            return Some(*place);
        }
    }
    only_place(packages, wanted)
}

/// The last place of each name. No contract says so: who is given one looks whether the package there is the only one.
fn last_places<'p>(
    alloc: Global,
    packages: &'p [UnlinkedPackage],
) -> Result<HashMap<&'p str, usize>, AllocError> {
    let mut places = HashMap::new(alloc);
    'packages: for (place, package) in packages.iter().enumerate() {
        places.insert(package.locked.name.as_str(), place)?;
    }
    Ok(places)
}

/// The place of the package that the text `name version` means.
fn place_with_version(
    alloc: Global,
    packages: &[UnlinkedPackage],
    name: &str,
    version_text: &str,
) -> Result<usize, LockFault>
    requires ordered { IsOrdered (locked_packages (unlinked_views packages.now)) }
    requires name { HasNoSpace name.now }
    requires version_text { HasNoSpace version_text.now }
    ensures { Gives wants_memory (λ i. i) result (ok_or (place_meant (locked_packages (unlinked_views packages.now))
        (name.now ++ (32 ∷ version_text.now))) LockFault.LockShape) }
{
    let version = version(alloc, version_text)?;
    match only_place(packages, Wanted::Version(name, &version)) {
        Some(place) => Ok(place),
        None => {
            only_place(packages, Wanted::Source(name, &version, None)).ok_or(LockFault::LockShape)
        }
    }
}

/// The place of the package that the text `name version (source)` means, the last part being `end`.
fn place_with_source<'t>(
    alloc: Global,
    packages: &[UnlinkedPackage],
    name: &'t str,
    version_text: &str,
    end: &'t str,
) -> Result<usize, LockFault>
    requires ordered { IsOrdered (locked_packages (unlinked_views packages.now)) }
    requires name { HasNoSpace name.now }
    requires version_text { HasNoSpace version_text.now }
    ensures { Gives wants_memory (λ i. i) result (ok_or (place_meant (locked_packages (unlinked_views packages.now))
        (name.now ++ (32 ∷ (version_text.now ++ (32 ∷ end.now))))) LockFault.LockShape) }
{
    let Some(source) = in_parentheses(end) else {
        return Err(LockFault::LockShape);
    };
    let version = version(alloc, version_text)?;
    only_place(packages, Wanted::Source(name, &version, Some(source))).ok_or(LockFault::LockShape)
}

/// What stands between parentheses.
fn in_parentheses(text: &str) -> Option<&str>
    ensures { MatchOption result ((inner : List ℕ) → text.now ≢ 40 ∷ (inner ++ (41 ∷ [])))
        (λ inner. text.now ≡ 40 ∷ (inner.now ++ (41 ∷ []))) }
{
    let Some(inner) = text.strip_prefix('(') else {
        return None;
    };
    inner.strip_suffix(')')
}

/// The place of the package that a text means.
fn place(
    alloc: Global,
    packages: &[UnlinkedPackage],
    last_places: &HashMap<&str, usize>,
    text: &str,
) -> Result<usize, LockFault>
    requires { IsOrdered (locked_packages (unlinked_views packages.now)) }
    ensures { Gives wants_memory (λ i. i) result
        (ok_or (place_meant (locked_packages (unlinked_views packages.now)) text.now) LockFault.LockShape) }
{
    let Some((name, rest)) = text.split_once(' ') else {
        return named_place(packages, last_places, text).ok_or(LockFault::LockShape);
    };
    match rest.split_once(' ') {
        Some((version, end)) => place_with_source(alloc, packages, name, version, end),
        None => place_with_version(alloc, packages, name, rest),
    }
}

#[tactic(auto, unfolding(crate::specs::Locks::places_meant))]
fn places_in(
    alloc: Global,
    packages: &[UnlinkedPackage],
    last_places: &HashMap<&str, usize>,
    texts: &[&str],
) -> Result<Vec<usize>, LockFault>
    requires { IsOrdered (locked_packages (unlinked_views packages.now)) }
    ensures { Gives wants_memory
        (λ v. v.items) result (places_meant (locked_packages (unlinked_views packages.now)) (text_views texts.now)) }
{
    let mut found = Vec::new(alloc);
    'texts: for text in texts.iter() {
        found.push(place(alloc, packages, last_places, text)?)?;
    }
    Ok(found)
}

/// The list of a package that has these texts.
fn list(
    alloc: Global,
    packages: &[UnlinkedPackage],
    last_places: &HashMap<&str, usize>,
    texts: &[&str],
) -> Result<Vec<usize>, LockFault>
    requires { IsOrdered (locked_packages (unlinked_views packages.now)) }
    ensures { Gives wants_memory
        (λ v. v.items) result (list_of (locked_packages (unlinked_views packages.now)) (text_views texts.now)) }
{
    ordered_list(places_in(alloc, packages, last_places, texts)?)
}

/// The lists of packages that stand in package order, no two alike.
pub(crate) fn lists(
    alloc: Global,
    packages: &[UnlinkedPackage],
) -> Result<Vec<Vec<usize>>, LockFault>
    requires { IsOrdered (locked_packages (unlinked_views packages.now)) }
    ensures { Gives wants_memory (λ v. list_views v.items) result
        (lists_of (locked_packages (unlinked_views packages.now)) (unlinked_views packages.now)) }
{
    let last_places = last_places(alloc, packages)?;
    lists_with(alloc, packages, &last_places)
}

#[tactic(auto, unfolding(crate::specs::Locks::lists_of))]
fn lists_with(
    alloc: Global,
    packages: &[UnlinkedPackage],
    last_places: &HashMap<&str, usize>,
) -> Result<Vec<Vec<usize>>, LockFault>
    requires { IsOrdered (locked_packages (unlinked_views packages.now)) }
    ensures { Gives wants_memory (λ v. list_views v.items) result
        (lists_of (locked_packages (unlinked_views packages.now)) (unlinked_views packages.now)) }
{
    let mut found = Vec::new(alloc);
    'packages: for package in packages.iter() {
        found.push(list(alloc, packages, last_places, &package.texts)?)?;
    }
    Ok(found)
}
