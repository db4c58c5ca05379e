//! The feature table of the root.

ghost use Rattle.std.specs.Prelude.{◌≡◌, IfOk, map};
ghost use Rattle.model.specs.Outcome.{Gives};
ghost use Rattle.features.specs.inner.Tables.{dep_name_view, dep_names_view, rows_of};
ghost use Rattle.features.specs.Views.{dependency_view, dependency_views};
ghost use Rattle.manifest.specs.Faults.{wants_memory};
ghost use Rattle.manifest.specs.Manifests.{dep_name, features_with};

use crate::fault::ManifestFault;
use features::{DepName, Dependency, Entry, FeatureName, FeatureTable};
use std::alloc::{AllocError, Global};
use std::collections::BTreeMap;

/// The feature table of the root: of all its dependencies, dev ones too, and of the features that it writes.
pub(crate) fn root_features(
    alloc: Global,
    dependencies: &[Dependency],
    written: BTreeMap<FeatureName, Vec<Entry>>,
) -> Result<FeatureTable, ManifestFault>
    ensures { Gives wants_memory
        (λ t. t) result (features_with (dependency_views dependencies.now) (rows_of written.entries)) }
{
    let names = dep_names(alloc, dependencies)?;
    Ok(FeatureTable::build(alloc, names.as_slice(), written)?)
}

/// What the dependencies are called, and which are optional.
fn dep_names(alloc: Global, dependencies: &[Dependency]) -> Result<Vec<DepName>, AllocError>
    ensures { IfOk result (λ v. dep_names_view v.items ≡ map dep_name (dependency_views dependencies.now)) }
{
    let mut names = Vec::new(alloc);
    'dependencies: for dependency in dependencies {
        names.push(dep_name(dependency)?)?;
    }
    Ok(names)
}

fn dep_name(dependency: &Dependency) -> Result<DepName, AllocError>
    ensures { IfOk result (λ n. dep_name_view n ≡ dep_name (dependency_view dependency.now)) }
{
    Ok(DepName {
        name: dependency.name.clone()?,
        optional: dependency.optional,
    })
}
