//! What each package of a lock brings.

ghost use Rattle.std.specs.Prelude.{◌≡◌, Some, option_map, is_some};
ghost use Rattle.model.specs.Content.{is_root, candidate_of, summary_of, same_option};
ghost use Rattle.features.specs.Views.{summary_view, brings_view};
ghost use Rattle.lockfile.specs.inner.Views.{package_view};
ghost use Rattle.manifest.specs.Manifests.{ManifestView};
ghost use Rattle.catalogue.specs.Problems.{problem_in};
ghost use Rattle.catalogue.specs.Stores.{CatalogueView};
ghost use Rattle.selection.specs.inner.Graphs.{is_known};

use catalogue::{Catalogue, Checksum};
use classes::same_version;
use features::Summary;
use lockfile::Package;
use manifest::Manifest;

/// Whether a package is the root: the one without a source that has the manifest's name and version.
pub(crate) fn is_root(manifest: &Manifest, locked: &Package) -> bool
    ensures { (index : CatalogueView) → result ≡ is_root (problem_in manifest.now index) (package_view locked.now) }
{
    locked.source.is_none()
        && *manifest.name() == locked.name
        && same_version(manifest.version(), &locked.version)
}

/// What a package brings that is the root or a candidate.
pub(crate) fn summary_of<'a>(
    manifest: &'a Manifest,
    catalogue: &'a Catalogue,
    locked: &Package,
) -> Option<&'a Summary>
    ensures brings { brings_view result
        ≡ summary_of (problem_in manifest.entry.now catalogue.entry.now) (package_view locked.now) }
    ensures known { is_some result
        ≡ is_known (problem_in manifest.entry.now catalogue.entry.now) (package_view locked.now) }
{
    if is_root(manifest, locked) {
        Some(manifest.brings())
    } else {
        candidate_of(catalogue, locked)
    }
}

/// What a package brings that is a candidate: of the run's source, with the index's checksum.
fn candidate_of<'a>(catalogue: &'a Catalogue, locked: &Package) -> Option<&'a Summary>
    ensures { (m : ManifestView) → option_map (λ o. summary_view o.now) result
        ≡ option_map (λ c. c.brings) (candidate_of (problem_in m catalogue.entry.now) (package_view locked.now)) }
{
    if !is_text(locked.source(), catalogue.source()) {
        return None;
    }
    let candidate = catalogue.candidate(&locked.name, &locked.version)?;
    if has_checksum(locked.checksum(), &candidate.checksum) {
        Some(&candidate.brings)
    } else {
        None
    }
}

/// Whether there is a text, and it is this checksum.
fn has_checksum(found: Option<&str>, checksum: &Checksum) -> bool
    ensures { result ≡ same_option (option_map (λ s. s.now) found.entry) (Some checksum.now) }
{
    match found {
        Some(found) => checksum.is(found),
        None => false,
    }
}

/// Whether there is a text, and it is this one.
fn is_text(found: Option<&str>, text: &str) -> bool
    ensures { result ≡ same_option (option_map (λ s. s.now) found.entry) (Some text.now) }
{
    match found {
        Some(found) => found == text,
        None => false,
    }
}
