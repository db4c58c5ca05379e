//! Why nothing fits a dependency of a manifest, and the sentence that tells it.
//!
//! A loaded index has candidates alone, neither yanked lines nor those that can't be used. So the folder is asked once
//! more for the file of a dependency that no candidate fits (`index_file`), and what that has is the reason (`lack`);
//! where nothing of it can be used, it is asked for names that differ by a slip (`slips`). A dependency that some
//! candidate fits may only lack a feature, for which one of nearly the same name may be told (`similar`).
//!
//! What is told is there as a value too (`look_for`, `nothing_fits`), for who tells it otherwise than in sentences; and
//! the file of a name (`file_of`), for who tells why a version of a lock isn't there.
//!
//! A layer above may rely on this: where no candidate is matched, the reason is the one that `specs/inner/Lacks` gives
//! for the lines of the file, and where one is matched, no other is told than a feature that is lacking. Of what the
//! folder is asked and of the sentences nothing is stated.

ghost use Rattle.std.specs.Prelude.{◌≡◌, ◌⊎◌, ◌&&◌, true, false, Some, None, option_copied, option_map};
ghost use Rattle.std.specs.List.{list_any};
ghost use Rattle.semver.specs.EvalViews.{matches_views};
ghost use Rattle.semver.specs.Identifiers.{parts_of};
ghost use Rattle.features.specs.Views.{requirement_view};
ghost use Rattle.catalogue.specs.Stores.{candidates_at};
ghost use Rattle.flaws.specs.inner.Lacks.{has_none, is_held_back, is_met, lack_in, lack_among, matches_yanked, release};
ghost use Rattle.flaws.specs.inner.Lacks.{would_match};
ghost use Rattle.flaws.specs.inner.Views.{record_views};

use catalogue::Catalogue;
use classes::{is_matched, some_matched};
use features::{DependencyParts, FeatureName, PackageName};
use index_reader::Record;
use semver::{Version, VersionReq};

/// Why no candidate fits a dependency.
#[derive(Clone, Copy, Debug, PartialEq, Eq)]
pub enum Lack {
    /// There is no file of its name.
    NoPackage,
    /// There is no line in the file that can be used.
    NoLine,
    /// Its requirement matches lines that are yanked.
    Yanked,
    /// Its requirement would match pre-releases, were they releases.
    PreReleases,
    /// Its requirement matches no line.
    NoVersion,
    /// Its requirement matches candidates, none of which has a feature that it asks for.
    NoFeature,
}

/// Why no candidate fits, if none does: `file` has the lines of the package that can be used, if there is a file.
pub fn lack_of(
    dependency: &DependencyParts,
    catalogue: &Catalogue,
    file: Option<&[Record]>,
) -> Option<Lack>
    ensures unmet { is_met (requirement_view dependency.now.requirement)
        (candidates_at catalogue.now dependency.now.real_name) ≡ false → result ≡ Some
        (lack_in (requirement_view dependency.now.requirement) (option_map record_views (option_copied file.entry))) }
    ensures met { is_met (requirement_view dependency.now.requirement) (candidates_at catalogue.now
        dependency.now.real_name) ≡ true → (result ≡ None) ⊎ (result ≡ Some Lack.NoFeature) }
{
    if is_met(dependency, catalogue) {
        lack_of_features(dependency, catalogue)
    } else {
        Some(lack_in(&dependency.requirement, file))
    }
}

/// That a feature is lacking, if one is.
fn lack_of_features(dependency: &DependencyParts, catalogue: &Catalogue) -> Option<Lack>
    ensures { (result ≡ None) ⊎ (result ≡ Some Lack.NoFeature) }
{
    match missing_feature(dependency, catalogue) {
        Some(_) => Some(Lack::NoFeature),
        None => None,
    }
}

/// Whether a requirement matches some candidate.
pub(crate) fn is_met(dependency: &DependencyParts, catalogue: &Catalogue) -> bool
    ensures { result
        ≡ is_met (requirement_view dependency.now.requirement) (candidates_at catalogue.now dependency.now.real_name) }
{
    some_matched(
        &dependency.requirement,
        catalogue.versions(&dependency.real_name),
    )
}

/// The first feature that a dependency asks for, and that no candidate has which it matches.
pub(crate) fn missing_feature<'a>(
    dependency: &'a DependencyParts,
    catalogue: &Catalogue,
) -> Option<&'a FeatureName> {
    for feature in dependency.features.iter() {
        if !is_offered(dependency, feature, catalogue) {
            return Some(feature);
        }
    }
    None
}

/// Whether some candidate that a dependency matches has a feature.
fn is_offered(dependency: &DependencyParts, feature: &FeatureName, catalogue: &Catalogue) -> bool {
    let name = &dependency.real_name;
    for (place, version) in catalogue.versions(name).iter().enumerate() {
        if is_matched(&dependency.requirement, version)
            && has_feature(catalogue, name, place, feature)
        {
            return true;
        }
    }
    false
}

/// Whether the candidate at a place has a feature.
pub(crate) fn has_feature(
    catalogue: &Catalogue,
    name: &PackageName,
    place: usize,
    feature: &FeatureName,
) -> bool {
    match catalogue.candidates(name).get(place) {
        Some(candidate) => candidate.brings.features.has(feature),
        None => false,
    }
}

/// Why a requirement that no candidate meets has none.
fn lack_in(requirement: &VersionReq, file: Option<&[Record]>) -> Lack
    ensures { result ≡ lack_in (requirement_view requirement.now) (option_map record_views (option_copied file.entry)) }
{
    match file {
        None => Lack::NoPackage,
        Some(records) => lack_among(requirement, records),
    }
}

/// Why a requirement matches none of these records: the first reason that holds.
fn lack_among(requirement: &VersionReq, records: &[Record]) -> Lack
    ensures { result ≡ lack_among (requirement_view requirement.now) (record_views records.now) }
{
    if has_none(records) {
        Lack::NoLine
    } else if matches_yanked(requirement, records) {
        Lack::Yanked
    } else if would_match(requirement, records) {
        Lack::PreReleases
    } else {
        Lack::NoVersion
    }
}

fn has_none(records: &[Record]) -> bool
    ensures { result ≡ has_none (record_views records.now) }
{
    records.is_empty()
}

/// Whether a requirement matches a yanked line.
fn matches_yanked(requirement: &VersionReq, records: &[Record]) -> bool
    ensures { result ≡ matches_yanked (requirement_view requirement.now) (record_views records.now) }
{
    some_yanked(requirement, records)
}

fn some_yanked(requirement: &VersionReq, records: &[Record]) -> bool
    ensures { result ≡ list_any (λ r. r.yanked
        && matches_views (requirement_view requirement.now) (parts_of r.version)) records.now }
{
    records.iter().any(|record| is_yanked(requirement, record))
}

/// Whether a line is yanked and a requirement matches it.
pub(crate) fn is_yanked(requirement: &VersionReq, line: &Record) -> bool
    ensures { result
        ≡ (line.now.yanked && matches_views (requirement_view requirement.now) (parts_of line.now.version)) }
{
    line.yanked && is_matched(requirement, &line.version)
}

/// Whether a requirement would match a pre-release.
fn would_match(requirement: &VersionReq, records: &[Record]) -> bool
    ensures { result ≡ would_match (requirement_view requirement.now) (record_views records.now) }
{
    some_held_back(requirement, records)
}

fn some_held_back(requirement: &VersionReq, records: &[Record]) -> bool
    ensures { result
        ≡ list_any (λ r. is_held_back (requirement_view requirement.now) (parts_of r.version)) records.now }
{
    records
        .iter()
        .any(|record| is_held_back(requirement, &record.version))
}

/// Whether a version is a pre-release, and a requirement matches it without that.
pub(crate) fn is_held_back(requirement: &VersionReq, version: &Version) -> bool
    ensures { result ≡ is_held_back (requirement_view requirement.now) (parts_of version.now) }
{
    !version.pre.is_empty() && is_matched(requirement, &release(version))
}

/// A version without its pre-release.
fn release(version: &Version) -> Version
    ensures { parts_of result ≡ release (parts_of version.now) }
{
    Version::new(version.major, version.minor, version.patch)
}
