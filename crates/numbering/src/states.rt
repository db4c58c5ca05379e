//! The states of vertices by their numbers: absent is 0, the others follow in the order of the space.

ghost use Rattle.std.specs.Prelude.{◌≡◌, ◌∷◌, [], IfOk, map, slice_get, unwrap_or};
ghost use Rattle.semver.specs.Identifiers.{parts_of};
ghost use Rattle.classes.specs.Classes.{class_view};
ghost use Rattle.model.specs.Vertices.{absent, dep, in_class, pkg, present, space, version};
ghost use Rattle.numbering.specs.inner.Assignments.{state_at};
ghost use Rattle.numbering.specs.inner.KnownProblem.{problem};
ghost use Rattle.vertices.specs.inner.RefViews.{owner_ref_view, state_ref_view, state_ref_views, vertex_ref_view};

use crate::known_problem::KnownProblem;
use crate::possible_classes::{classes_at, classes_of};
use classes::Class;
use features::PackageName;
use lookups::{class_versions, dependency_at};
use semver::Version;
use std::alloc::{AllocError, Global};
use vertices::{OwnerRef, StateRef, VertexRef};

/// The state of the vertex that has this number: absent where none has it.
pub fn state_at<'a>(
    alloc: Global,
    known: &KnownProblem<'a>,
    vertex: &VertexRef<'a>,
    number: usize,
) -> Result<StateRef<'a>, AllocError>
    ensures { IfOk result (λ s. state_ref_view s ≡ state_at (problem known.now) (vertex_ref_view vertex.now) number) }
{
    match vertex {
        VertexRef::Root => Ok(present_at(number)),
        VertexRef::Package(name, class) => Ok(version_state(known, name, *class, number)),
        VertexRef::Dependency(owner, dependency) => {
            class_state(alloc, known, owner, *dependency, number)
        }
        VertexRef::Feature(_, _, _) => Ok(present_at(number)),
        VertexRef::Ask(_, _, _, _) => Ok(present_at(number)),
    }
}

/// The state of a package in a class: its versions follow absent.
fn version_state<'a>(
    known: &KnownProblem<'a>,
    name: &PackageName,
    class: Class,
    number: usize,
) -> StateRef<'a>
    ensures { state_ref_view result ≡ state_at (problem known.now) (pkg name.now (class_view class)) number }
{
    let versions = class_versions(known.problem.catalogue, name, class);
    version_at(versions, number)
}

/// The state of a dependency: the classes that it may lead to follow absent.
fn class_state<'a>(
    alloc: Global,
    known: &KnownProblem<'a>,
    owner: &OwnerRef<'_>,
    dependency: usize,
    number: usize,
) -> Result<StateRef<'a>, AllocError>
    ensures { IfOk result
        (λ s. state_ref_view s ≡ state_at (problem known.now) (dep (owner_ref_view owner.now) dependency) number) }
{
    let Some(dependency) = dependency_at(&known.problem, owner, dependency) else {
        return Ok(class_at(&[], number));
    };
    // A copy of those that are kept would cost as much as they are.
    if let Some(classes) = known.matched.classes(dependency) {
        return Ok(class_at(classes, number));
    }
    let classes = classes_of(alloc, known, dependency)?;
    Ok(class_at(classes.as_slice(), number))
}

fn present_at<'a>(number: usize) -> StateRef<'a>
    ensures { state_ref_view result ≡ unwrap_or (slice_get (absent ∷ present ∷ []) number) absent }
{
    match number {
        1 => StateRef::Present,
        _ => StateRef::Absent,
    }
}

/// The state of this number: absent, or one of these versions.
fn version_at(versions: &[Version], number: usize) -> StateRef<'_>
    ensures { state_ref_view result
        ≡ unwrap_or (slice_get (absent ∷ map (λ v. version (parts_of v)) versions.entry.now) number) absent }
{
    if number == 0 {
        return StateRef::Absent;
    }
    match versions.get(number - 1) {
        Some(version) => StateRef::Version(version),
        None => StateRef::Absent,
    }
}

/// The state of this number: absent, or one of these classes.
fn class_at<'a>(classes: &[Class], number: usize) -> StateRef<'a>
    ensures { state_ref_view result
        ≡ unwrap_or (slice_get (absent ∷ map (λ k. in_class (class_view k)) classes.now) number) absent }
{
    if number == 0 {
        return StateRef::Absent;
    }
    match classes.get(number - 1) {
        Some(class) => StateRef::Class(*class),
        None => StateRef::Absent,
    }
}

/// The states of a vertex: `absent`, and the others in the order of their numbers.
pub fn states_of<'a>(
    alloc: Global,
    known: &KnownProblem<'a>,
    vertex: &VertexRef<'a>,
) -> Result<Vec<StateRef<'a>>, AllocError>
    ensures { IfOk result (λ v. state_ref_views v.items ≡ space (problem known.now) (vertex_ref_view vertex.now)) }
{
    match vertex {
        VertexRef::Root => two_states(alloc),
        VertexRef::Package(name, class) => version_states(alloc, known, name, *class),
        VertexRef::Dependency(owner, dependency) => {
            class_states(alloc, known, owner, *dependency)
        }
        VertexRef::Feature(_, _, _) => two_states(alloc),
        VertexRef::Ask(_, _, _, _) => two_states(alloc),
    }
}

/// Absent and present.
fn two_states<'a>(alloc: Global) -> Result<Vec<StateRef<'a>>, AllocError>
    ensures { IfOk result (λ v. state_ref_views v.items ≡ absent ∷ present ∷ []) }
{
    let mut states = Vec::with_capacity(alloc, 2)?;
    states.push(StateRef::Absent)?;
    states.push(StateRef::Present)?;
    Ok(states)
}

/// Absent, and the versions of the class.
fn version_states<'a>(
    alloc: Global,
    known: &KnownProblem<'a>,
    name: &PackageName,
    class: Class,
) -> Result<Vec<StateRef<'a>>, AllocError>
    ensures { IfOk result
        (λ v. state_ref_views v.items ≡ space (problem known.now) (pkg name.now (class_view class))) }
{
    let states = with_versions(alloc, class_versions(known.problem.catalogue, name, class))?;
    Ok(states)
}

/// Absent, and these versions.
fn with_versions<'a>(
    alloc: Global,
    versions: &'a [Version],
) -> Result<Vec<StateRef<'a>>, AllocError>
    ensures { IfOk result (λ v. state_ref_views v.items ≡ absent ∷ map (λ v. version (parts_of v)) versions.entry.now) }
{
    let mut states = Vec::new(alloc);
    states.push(StateRef::Absent)?;
    'versions: for version in versions.iter() {
        states.push(StateRef::Version(version))?;
    }
    Ok(states)
}

/// Absent, and the classes that the dependency may lead to.
fn class_states<'a>(
    alloc: Global,
    known: &KnownProblem<'a>,
    owner: &OwnerRef<'_>,
    dependency: usize,
) -> Result<Vec<StateRef<'a>>, AllocError>
    ensures { IfOk result
        (λ v. state_ref_views v.items ≡ space (problem known.now) (dep (owner_ref_view owner.now) dependency)) }
{
    let classes = classes_at(alloc, known, owner, dependency)?;
    let states = with_classes(alloc, classes.as_slice())?;
    Ok(states)
}

/// Absent, and these classes.
fn with_classes<'a>(alloc: Global, classes: &[Class]) -> Result<Vec<StateRef<'a>>, AllocError>
    ensures { IfOk result (λ v. state_ref_views v.items ≡ absent ∷ map (λ k. in_class (class_view k)) classes.now) }
{
    let mut states = Vec::new(alloc);
    states.push(StateRef::Absent)?;
    'classes: for class in classes.iter() {
        states.push(StateRef::Class(*class))?;
    }
    Ok(states)
}
