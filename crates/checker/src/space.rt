//! Whether a set has all states that its vertex may have.

ghost use Rattle.std.specs.Prelude.{◌≡◌, ◌++◌, map};
ghost use Rattle.std.specs.List.{list_all};
ghost use Rattle.semver.specs.Identifiers.{parts_of};
ghost use Rattle.model.specs.Axioms.{at, is_full};
ghost use Rattle.model.specs.Vertices.{dep_classes, has_state};
ghost use Rattle.model.specs.Vertices as model;
ghost use Rattle.classes.specs.Classes.{class_view};
ghost use Rattle.features.specs.Views.{dependency_view, requirement_view};
ghost use Rattle.axioms.specs.inner.GatheredViews.{problem_of};
ghost use Rattle.lookups.specs.inner.Views.{problem_view};
ghost use Rattle.vertices.specs.Views.{vertex_view};
ghost use Rattle.vertices.specs.inner.RefViews.{state_ref_view};
ghost use Rattle.axioms.specs.inner.FullTerms.{has_if_matched};

use axioms::Gathered;
use classes::{Class, is_matched};
use features::DependencyParts;
use lookups::{Problem, StateSet, class_versions, dependency_at};
use semver::{Version, VersionReq};
use vertices::{StateRef, Vertex};

/// Whether two sets together have all states of a vertex.
pub(crate) fn is_full<'a>(
    gathered: &Gathered<'a>,
    vertex: &Vertex,
    a: &StateSet<'_>,
    b: &StateSet<'_>,
) -> bool
    ensures { result ≡ is_full (problem_of gathered.now) (at (vertex_view vertex.now) (a.now ++ b.now)) }
{
    if !is_in_either(a, b, &StateRef::Absent) {
        return false;
    }
    match vertex {
        Vertex::Root | Vertex::Feature(_, _, _) | Vertex::Ask(_, _, _, _) => {
            is_in_either(a, b, &StateRef::Present)
        }
        Vertex::Package(name, class) => {
            let catalogue = gathered.problem().catalogue;
            has_versions(class_versions(catalogue, name, *class), a, b)
        }
        Vertex::Dependency(owner, number) => {
            match dependency_at(gathered.problem(), &owner.borrowed(), *number as usize) {
                Some(dependency) => has_classes(gathered, dependency, a, b),
                None => true,
            }
        }
    }
}

/// Whether two sets together have each of these versions.
fn has_versions(versions: &[Version], a: &StateSet<'_>, b: &StateSet<'_>) -> bool
    ensures { result ≡ list_all (λ v. has_state (a.now ++ b.now) (model.version (parts_of v))) versions.now }
{
    versions.iter().all(|version| has_version(version, a, b))
}

fn has_version(version: &Version, a: &StateSet<'_>, b: &StateSet<'_>) -> bool
    ensures { result ≡ has_state (a.now ++ b.now) (model.version (parts_of version.now)) }
{
    is_in_either(a, b, &StateRef::Version(version))
}

/// Whether two sets together have each class to which a dependency may lead.
fn has_classes<'a>(
    gathered: &Gathered<'a>,
    dependency: &'a DependencyParts,
    a: &StateSet<'_>,
    b: &StateSet<'_>,
) -> bool
    ensures { result ≡ list_all (has_state (a.now ++ b.now))
        (map model.in_class (dep_classes (problem_of gathered.now) (dependency_view dependency.now))) }
{
    match gathered.classes(dependency) {
        Some(classes) => has_each(classes, a, b),
        None => has_matched(gathered.problem(), dependency, a, b),
    }
}

fn has_each(classes: &[Class], a: &StateSet<'_>, b: &StateSet<'_>) -> bool
    ensures { result ≡ list_all (λ k. has_state (a.now ++ b.now) (model.in_class (class_view k))) classes.now }
{
    classes.iter().all(|class| has_class(*class, a, b))
}

fn has_class(class: Class, a: &StateSet<'_>, b: &StateSet<'_>) -> bool
    ensures { result ≡ has_state (a.now ++ b.now) (model.in_class (class_view class)) }
{
    is_in_either(a, b, &StateRef::Class(class))
}

/// Whether two sets together have each class to which a dependency may lead, found from its versions.
fn has_matched(
    problem: &Problem<'_>,
    dependency: &DependencyParts,
    a: &StateSet<'_>,
    b: &StateSet<'_>,
) -> bool
    ensures { result ≡ list_all (has_state (a.now ++ b.now))
        (map model.in_class (dep_classes (problem_view problem.now) (dependency_view dependency.now))) }
{
    has_matching(
        problem.catalogue.versions(&dependency.real_name),
        &dependency.requirement,
        a,
        b,
    )
}

/// Whether two sets together have the class of each version that a requirement matches.
fn has_matching(
    versions: &[Version],
    requirement: &VersionReq,
    a: &StateSet<'_>,
    b: &StateSet<'_>,
) -> bool
    ensures { result
        ≡ list_all (λ v. has_if_matched (a.now ++ b.now) (requirement_view requirement.now) (parts_of v)) versions.now }
{
    versions
        .iter()
        .all(|version| has_if_matched(version, requirement, a, b))
}

/// Whether two sets together have the class of a version, if the requirement matches that.
#[tactic(auto, unfolding(axioms::specs::inner::FullTerms::has_if_matched))]
fn has_if_matched(
    version: &Version,
    requirement: &VersionReq,
    a: &StateSet<'_>,
    b: &StateSet<'_>,
) -> bool
    ensures { result ≡ has_if_matched (a.now ++ b.now) (requirement_view requirement.now) (parts_of version.now) }
{
    !is_matched(requirement, version) || has_class(Class::of(version), a, b)
}

/// Whether the state is in one of two sets.
fn is_in_either(a: &StateSet<'_>, b: &StateSet<'_>, state: &StateRef<'_>) -> bool
    ensures { result ≡ has_state (a.now ++ b.now) (state_ref_view state.now) }
{
    a.has(state) || b.has(state)
}
