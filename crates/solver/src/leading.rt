//! Where the dependencies of an owner lead.

ghost use Rattle.std.specs.Prelude.{◌≡◌, ◌≤◌, IfOk, Some, length, option_map, slice_get};
ghost use Rattle.semver.specs.Identifiers.{parts_of};
ghost use Rattle.classes.specs.Classes.{class_view};
ghost use Rattle.propagation.specs.Trails.{trail_view};
ghost use Rattle.features.specs.Views.{dependency_view, dependency_views};
ghost use Rattle.vertices.specs.inner.RefViews.{owner_ref_view};
ghost use Rattle.model.specs.Vertices.{Owner, dep, pkg};
ghost use Rattle.numbering.specs.inner.KnownProblem.{problem};
ghost use Rattle.selection.specs.inner.Contents.{AreMetVersions, owners_of};
ghost use Rattle.solver.specs.inner.Leads.{AreLed, HasEnded, IsLed, class_if, ends, version_if};

use crate::states::{class_if, state_of, version_if};
use catalogue::{Catalogue, place_of};
use classes::Class;
use features::{Dependency, DependencyParts, PackageName};
use numbering::{KnownProblem, Table};
use propagation::Trail;
use selection::MetVersion;
use semver::Version;
use std::alloc::{AllocError, Global};
use version_sets::States;
use vertices::{OwnerRef, VertexRef};

/// The class that a dependency has at the end, if it has one.
fn class_at<'a, S: States + Drop>(
    alloc: Global,
    known: &KnownProblem<'a>,
    table: &Table<'a>,
    trail: &Trail<S>,
    owner: &OwnerRef<'a>,
    number: usize,
) -> Result<Option<Class>, AllocError>
    requires whole { length table.now ≤ length (trail_view S.tests trail.now).sets }
    ensures { IfOk result (λ o. option_map class_view o ≡ class_if (ends known.now table.now
        (trail_view S.tests trail.now) (dep (owner_ref_view owner.now) number))) }
{
    let vertex = VertexRef::Dependency(*owner, number);
    let state = state_of(alloc, known, table, trail, &vertex)?;
    Ok(class_if(state))
}

/// The version that a name has in a class at the end, if it has one.
fn version_at<'a, S: States + Drop>(
    alloc: Global,
    known: &KnownProblem<'a>,
    table: &Table<'a>,
    trail: &Trail<S>,
    name: &'a PackageName,
    class: Class,
) -> Result<Option<&'a Version>, AllocError>
    requires whole { length table.now ≤ length (trail_view S.tests trail.now).sets }
    ensures { IfOk result (λ o. option_map (λ v. parts_of v.now) o ≡ version_if (ends known.now table.now
        (trail_view S.tests trail.now) (pkg name.entry.now (class_view class)))) }
{
    let vertex = VertexRef::Package(name, class);
    let state = state_of(alloc, known, table, trail, &vertex)?;
    Ok(version_if(state))
}

/// Where a dependency leads: the place of the version that its name has in the class that it has.
fn led_to<'a, S: States + Drop>(
    alloc: Global,
    known: &KnownProblem<'a>,
    table: &Table<'a>,
    trail: &Trail<S>,
    owner: &OwnerRef<'a>,
    number: usize,
    dependency: &'a DependencyParts,
) -> Result<Option<usize>, AllocError>
    requires { HasEnded known.now table.now (trail_view S.tests trail.now) }
    ensures { IfOk result (λ o. IsLed (problem known.now) (ends known.now table.now (trail_view S.tests trail.now))
        known.now.problem.catalogue.now (owner_ref_view owner.now) number (dependency_view dependency.now) o) }
{
    let Some(class) = class_at(alloc, known, table, trail, owner, number)? else {
        return Ok(None);
    };
    let name = &dependency.real_name;
    let Some(version) = version_at(alloc, known, table, trail, name, class)? else {
        return Ok(None);
    };
    Ok(place_of(known.problem.catalogue.versions(name), version))
}

/// Where dependencies of an owner lead, by number.
fn led_by<'a, S: States + Drop>(
    alloc: Global,
    known: &KnownProblem<'a>,
    table: &Table<'a>,
    trail: &Trail<S>,
    owner: &OwnerRef<'a>,
    dependencies: &'a [Dependency],
) -> Result<Vec<Option<usize>>, AllocError>
    requires { HasEnded known.now table.now (trail_view S.tests trail.now) }
    ensures { IfOk result (λ v. AreLed (problem known.now) (ends known.now table.now (trail_view S.tests trail.now))
        known.now.problem.catalogue.now (owner_ref_view owner.now) (dependency_views dependencies.now) v.items) }
{
    let mut places = Vec::new(alloc);
    'dependencies: for (number, dependency) in dependencies.iter().enumerate() {
        let place = led_to(alloc, known, table, trail, owner, number, dependency)?;
        places.push(place)?;
    }
    Ok(places)
}

/// The owner that stands at a place.
fn owner_at<'a>(catalogue: &'a Catalogue, versions: &'a [MetVersion], place: usize) -> OwnerRef<'a>
    requires { AreMetVersions catalogue.now versions.now }
    ensures { (o : Owner) → slice_get (owners_of catalogue.now versions.now) place ≡ Some o
        → owner_ref_view result ≡ o }
{
    if place == 0 {
        return OwnerRef::Root;
    }
    let Some(met) = versions.get(place - 1) else {
        return OwnerRef::Root;
    };
    match catalogue.versions(&met.name).get(met.place) {
        Some(version) => OwnerRef::Version(&met.name, version),
        None => OwnerRef::Root,
    }
}

/// Where the dependencies of what stands at a place lead.
pub(crate) fn led_at<'a, S: States + Drop>(
    alloc: Global,
    known: &KnownProblem<'a>,
    table: &Table<'a>,
    trail: &Trail<S>,
    versions: &[MetVersion],
    place: usize,
    dependencies: &'a [Dependency],
) -> Result<Vec<Option<usize>>, AllocError>
    requires ended { HasEnded known.now table.now (trail_view S.tests trail.now) }
    requires versions { AreMetVersions known.now.problem.catalogue.now versions.now }
    ensures { IfOk result (λ v. (o : Owner)
        → slice_get (owners_of known.now.problem.catalogue.now versions.now) place ≡ Some o
        → AreLed (problem known.now) (ends known.now table.now (trail_view S.tests trail.now))
        known.now.problem.catalogue.now o (dependency_views dependencies.now) v.items) }
{
    let owner = owner_at(known.problem.catalogue, versions, place);
    led_by(alloc, known, table, trail, &owner, dependencies)
}
