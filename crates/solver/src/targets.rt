//! The versions that dependencies lead to, put among those that were met.

ghost use Rattle.std.specs.Prelude.{◌≡◌, ℕ, IfOk, OnOk, Some, length};
ghost use Rattle.features.specs.Views.{dependency_views};
ghost use Rattle.selection.specs.inner.Contents.{Grows, IsCandidate};
ghost use Rattle.solver.specs.inner.Leads.{ArePut, AreThere, IsPut};

use catalogue::Catalogue;
use features::{Dependency, PackageName};
use indexmap::IndexSet;
use selection::{MetVersion, put_met};
use std::alloc::{AllocError, Global};

/// Where the candidate at a place of a name's stands among those that were met.
fn target_of(
    catalogue: &Catalogue,
    versions: &mut IndexSet<MetVersion>,
    name: &PackageName,
    place: Option<usize>,
) -> Result<Option<usize>, AllocError>
    requires { (p : ℕ) → place ≡ Some p → IsCandidate catalogue.now name.now p }
    ensures grows { OnOk result (Grows catalogue.now versions.old.keys versions.new.keys) }
    ensures put { IfOk result (λ o. IsPut catalogue.now versions.new.keys name.now place o) }
{
    match place {
        Some(place) => Ok(Some(put_met(catalogue, versions, name, place)?)),
        None => Ok(None),
    }
}

/// Where the candidates at these places stand among those that were met, by number.
pub(crate) fn targets_of(
    alloc: Global,
    catalogue: &Catalogue,
    versions: &mut IndexSet<MetVersion>,
    dependencies: &[Dependency],
    places: &[Option<usize>],
) -> Result<Vec<Option<usize>>, AllocError>
    requires many { length places.now ≡ length dependencies.now }
    requires there { AreThere catalogue.now (dependency_views dependencies.now) places.now }
    ensures grows { OnOk result (Grows catalogue.now versions.old.keys versions.new.keys) }
    ensures put { IfOk result
        (λ v. ArePut catalogue.now versions.new.keys (dependency_views dependencies.now) places.now v.items) }
{
    let mut targets = Vec::new(alloc);
    'dependencies: for (number, dependency) in dependencies.iter().enumerate() {
        let target = target_of(catalogue, versions, &dependency.real_name, places[number])?;
        targets.push(target)?;
    }
    Ok(targets)
}
