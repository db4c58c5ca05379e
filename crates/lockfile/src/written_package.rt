//! The text by which the lists of a lock name a package.

ghost use Rattle.std.specs.Prelude.{◌≡◌, ◌==◌, ◌<◌, ◌++◌, ◌∷◌, [], true, length, map, IfOk, Some, slice_get};
ghost use Rattle.std.specs.Prelude.{string_bytes};
ghost use Rattle.std.specs.List.{filter};
ghost use Rattle.semver.specs.Identifiers.{parts_of, parts_text};
ghost use Rattle.lockfile.specs.inner.Search.{IsOrdered, is_wanted};
ghost use Rattle.model.specs.Content.{passes};
ghost use Rattle.std.specs.Option.{option_map_or};
ghost use Rattle.lockfile.specs.Locks.{version_form, source_form};
ghost use Rattle.lockfile.specs.Spelling.{named, versioned, dependency_text};
ghost use Rattle.lockfile.specs.inner.Views.{package_view, package_views};
ghost use Rattle.lockfile.specs.inner.Written.{written_of, entry_view, entry_views, listed_view};

use crate::meaning::Wanted;
use crate::package::Package;
use std::alloc::{AllocError, Global};
use std::cmp::Ordering;

/// A package with the texts that are written for it more than once.
#[derive(Drop)]
pub(crate) struct WrittenPackage<'a> {
    pub locked: &'a Package,
    /// The text of its version.
    pub version: String,
    /// The text by which lists name it.
    pub text: String,
}

/// What the lines of other packages need of a package that they list.
#[derive(Clone, Copy)]
pub(crate) struct Listed<'e> {
    pub locked: &'e Package,
    pub version: &'e str,
    pub text: &'e str,
}

impl WrittenPackage<'_> {
    pub(crate) fn listed(&self) -> Listed<'_>
        ensures { listed_view result ≡ entry_view self.now }
    {
        Listed {
            locked: self.locked,
            version: self.version.as_str(),
            text: self.text.as_str(),
        }
    }
}

/// Whether there is a package at a place, and it is wanted.
fn is_wanted_at(packages: &[Package], place: usize, wanted: Wanted) -> bool
    ensures { result ≡ passes (is_wanted wanted.entry) (slice_get (package_views packages.now) place) }
{
    match packages.get(place) {
        Some(package) => wanted.compare(package) == Ordering::Equal,
        None => false,
    }
}

/// Whether the package at a place is the only one that is wanted: those that are stand next to one another.
fn is_alone(packages: &[Package], place: usize, wanted: Wanted) -> bool
    requires ordered { IsOrdered (package_views packages.now) }
    requires place { place < length packages.now }
    requires wanted { passes (is_wanted wanted) (slice_get (package_views packages.now) place) ≡ true }
    ensures { result ≡ (length (filter (is_wanted wanted.entry) (package_views packages.now)) == 1) }
{
    let follows = is_wanted_at(packages, place + 1, wanted);
    if place == 0 {
        return !follows;
    }
    let precedes = is_wanted_at(packages, place - 1, wanted);
    !follows && !precedes
}

/// Whether no other package has the name of the package at a place.
fn has_own_name(packages: &[Package], place: usize, locked: &Package) -> bool
    requires ordered { IsOrdered (package_views packages.now) }
    requires place { slice_get packages.now place ≡ Some locked.now }
    ensures { result ≡ (named (package_views packages.now) (package_view locked.now) == 1) }
{
    is_alone(packages, place, Wanted::name_of(locked))
}

/// Whether no other package has the name and the version of the package at a place.
fn has_own_version(packages: &[Package], place: usize, locked: &Package) -> bool
    requires ordered { IsOrdered (package_views packages.now) }
    requires place { slice_get packages.now place ≡ Some locked.now }
    ensures { result ≡ (versioned (package_views packages.now) (package_view locked.now) == 1) }
{
    is_alone(packages, place, Wanted::version_of(locked))
}

/// The text `name version`.
fn version_form(alloc: Global, name: &str, version: &str) -> Result<String, AllocError>
    ensures { IfOk result (λ t. string_bytes t ≡ name.now ++ (32 ∷ version.now)) }
{
    format!(in alloc; "{name} {version}")
}

/// The text `name version (source)`.
fn source_form(alloc: Global, name: &str, version: &str, source: &str) -> Result<String, AllocError>
    ensures { IfOk result
        (λ t. string_bytes t ≡ name.now ++ (32 ∷ (version.now ++ (32 ∷ (40 ∷ (source.now ++ (41 ∷ []))))))) }
{
    format!(in alloc; "{name} {version} ({source})")
}

/// The longest text by which lists name a package whose version has this text.
fn longest_form(alloc: Global, locked: &Package, version: &str) -> Result<String, AllocError>
    requires { version.now ≡ parts_text (parts_of locked.now.version) }
    ensures { IfOk result (λ t. string_bytes t ≡ option_map_or (source_form (package_view locked.now))
        (package_view locked.now).source (version_form (package_view locked.now))) }
{
    let name = locked.name.as_str();
    match locked.source() {
        Some(source) => source_form(alloc, name, version, source),
        None => version_form(alloc, name, version),
    }
}

/// The shortest text that means the package at a place, whose version has this text.
fn dependency_text(
    alloc: Global,
    packages: &[Package],
    place: usize,
    locked: &Package,
    version: &str,
) -> Result<String, AllocError>
    requires ordered { IsOrdered (package_views packages.now) }
    requires place { slice_get packages.now place ≡ Some locked.now }
    requires version { version.now ≡ parts_text (parts_of locked.now.version) }
    ensures { IfOk result
        (λ t. string_bytes t ≡ dependency_text (package_views packages.now) (package_view locked.now)) }
{
    let name = locked.name.as_str();
    if has_own_name(packages, place, locked) {
        return String::from_str(alloc, name);
    }
    if has_own_version(packages, place, locked) {
        return version_form(alloc, name, version);
    }
    longest_form(alloc, locked, version)
}

fn make_entry<'a>(
    alloc: Global,
    packages: &[Package],
    place: usize,
    locked: &'a Package,
) -> Result<WrittenPackage<'a>, AllocError>
    requires ordered { IsOrdered (package_views packages.now) }
    requires place { slice_get packages.now place ≡ Some locked.now }
    ensures { IfOk result (λ e. entry_view e ≡ written_of (package_views packages.now) (package_view locked.now)) }
{
    let version = locked.version.to_string(alloc)?;
    let text = dependency_text(alloc, packages, place, locked, &version)?;
    Ok(WrittenPackage {
        locked,
        version,
        text,
    })
}

/// The entries of the packages of a content.
pub(crate) fn entries(
    alloc: Global,
    packages: &[Package],
) -> Result<Vec<WrittenPackage<'_>>, AllocError>
    requires { IsOrdered (package_views packages.now) }
    ensures { IfOk result
        (λ v. entry_views v.items ≡ map (written_of (package_views packages.now)) (package_views packages.now)) }
{
    let mut found = Vec::new(alloc);
    'packages: for (place, locked) in packages.iter().enumerate() {
        found.push(make_entry(alloc, packages, place, locked)?)?;
    }
    Ok(found)
}
