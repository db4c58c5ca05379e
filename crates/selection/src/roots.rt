//! The place of the root.

ghost use Rattle.std.specs.Prelude.{◌<◌, length, MatchOption};
ghost use Rattle.model.specs.Content.{is_root};
ghost use Rattle.model.specs.Order.{IsContent};
ghost use Rattle.lockfile.specs.inner.Views.{package_views};
ghost use Rattle.catalogue.specs.Problems.{problem_in};
ghost use Rattle.catalogue.specs.Stores.{CatalogueView};
ghost use Rattle.selection.specs.inner.Graphs.{IsOnlyRoot, HasNoRoot};

use crate::summaries::is_root;
use lockfile::Package;
use manifest::Manifest;

/// The place of the root, if there is one.
pub(crate) fn root_of(manifest: &Manifest, content: &[Package]) -> Option<usize>
    requires { IsContent (package_views content.now) }
    ensures { MatchOption result ((index : CatalogueView)
        → HasNoRoot (problem_in manifest.now index) (package_views content.now)) (λ n. (n < length content.now)
        × ((index : CatalogueView) → IsOnlyRoot (problem_in manifest.now index) (package_views content.now) n)) }
{
    'places: for at in 0..content.len() {
        if is_root(manifest, &content[at]) {
            return Some(at);
        }
    }
    None
}
