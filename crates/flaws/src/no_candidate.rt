//! Why a package is no candidate.

ghost use Rattle.std.specs.Prelude.{◌≡◌, None, option_map, if◌then◌else◌};
ghost use Rattle.semver.specs.Identifiers.{parts_of};
ghost use Rattle.catalogue.specs.Stores.{candidates_at, record_at};
ghost use Rattle.lockfile.specs.inner.Views.{package_view};
ghost use Rattle.flaws.specs.inner.Reasons.{why_none, why_record, why_sum};

use catalogue::{Catalogue, Checksum};
use lockfile::Package;

/// Why a package that isn't the root is no candidate.
#[derive(Clone, Copy, Debug, PartialEq, Eq)]
pub enum NoCandidate {
    /// It has no source.
    NoSource,
    /// It has another source than the run's.
    OtherSource,
    /// No candidate of its name has its version.
    NoVersion,
    /// The lock has no checksum for it.
    NoChecksum,
    /// The lock has another checksum for it than the index.
    OtherChecksum,
}

/// Why a package is no candidate, if it isn't one; of the root nothing is asked.
pub(crate) fn why_not(catalogue: &Catalogue, locked: &Package, is_root: bool) -> Option<NoCandidate>
    ensures { result ≡ (if is_root then None else why_none catalogue.now (package_view locked.now)) }
{
    if is_root {
        None
    } else {
        why_none(catalogue, locked)
    }
}

/// Its source is looked at first, as the index says nothing of another one.
fn why_none(catalogue: &Catalogue, locked: &Package) -> Option<NoCandidate>
    ensures { result ≡ why_none catalogue.now (package_view locked.now) }
{
    match locked.source() {
        Some(source) => {
            if source == catalogue.source() {
                why_no_version(catalogue, locked)
            } else {
                Some(NoCandidate::OtherSource)
            }
        }
        None => Some(NoCandidate::NoSource),
    }
}

/// The same of a package of the run's source.
fn why_no_version(catalogue: &Catalogue, locked: &Package) -> Option<NoCandidate>
    ensures { result ≡ why_record (record_at (candidates_at catalogue.now locked.now.name)
        (parts_of locked.now.version)) (package_view locked.now).checksum }
{
    match catalogue.candidate(&locked.name, &locked.version) {
        Some(candidate) => why_sum(locked.checksum(), &candidate.checksum),
        None => Some(NoCandidate::NoVersion),
    }
}

/// The same of one whose name and version a candidate with this checksum has.
fn why_sum(locked: Option<&str>, checksum: &Checksum) -> Option<NoCandidate>
    ensures { result ≡ why_sum (option_map (λ s. s.now) locked.entry) checksum.now }
{
    match locked {
        Some(locked) => {
            if checksum.is(locked) {
                None
            } else {
                Some(NoCandidate::OtherChecksum)
            }
        }
        None => Some(NoCandidate::NoChecksum),
    }
}
