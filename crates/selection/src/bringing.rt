//! What stands at the places of versions that were met.

ghost use Rattle.std.specs.Prelude.{◌≡◌, Some, slice_get};
ghost use Rattle.model.specs.Vertices.{Owner, owner_brings};
ghost use Rattle.features.specs.Views.{brings_view};
ghost use Rattle.catalogue.specs.Problems.{problem_in};
ghost use Rattle.selection.specs.inner.Contents.{AreMetVersions, owners_of};

use crate::met::{MetVersion, store_holds};
use catalogue::Catalogue;
use features::Summary;
use manifest::Manifest;

/// What the root or the version at a place brings.
pub fn brings_at<'a>(
    manifest: &'a Manifest,
    catalogue: &'a Catalogue,
    versions: &[MetVersion],
    place: usize,
) -> Option<&'a Summary>
    requires { AreMetVersions catalogue.now versions.now }
    ensures { (o : Owner) → slice_get (owners_of catalogue.now versions.now) place ≡ Some o
        → brings_view result ≡ owner_brings (problem_in manifest.now catalogue.now) o }
{
    store_holds(catalogue);
    if place == 0 {
        return Some(manifest.brings());
    }
    let met = versions.get(place - 1)?;
    Some(&catalogue.record(&met.name, met.place).brings)
}
