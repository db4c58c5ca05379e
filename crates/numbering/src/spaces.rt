//! How many states vertices have.

ghost use Rattle.std.specs.Prelude.{◌≡◌, ◌≤◌, IfOk, Some, length, slice_get};
ghost use Rattle.classes.specs.Classes.{class_view};
ghost use Rattle.model.specs.Vertices.{Vertex, dep, pkg, space};
ghost use Rattle.numbering.specs.inner.KnownProblem.{problem};
ghost use Rattle.vertices.specs.inner.RefViews.{owner_ref_view, vertex_ref_view};

use crate::known_problem::KnownProblem;
use crate::possible_classes::class_count;
use crate::table::Table;
use classes::Class;
use features::PackageName;
use lookups::class_versions;
use std::alloc::{AllocError, Global};
use vertices::{OwnerRef, VertexRef};

/// A vertex has at least one state, and no more than a set may have.
pub fn spaces_are_small(known: &KnownProblem<'_>)
    ensures { (v : Vertex)
        → (1 ≤ length (space (problem known.now) v)) × (length (space (problem known.now) v) ≤ 65536) }
{
    let _ = known.problem.catalogue.names();
}

/// How many states the vertex has, absent among them.
pub fn space_of(
    alloc: Global,
    known: &KnownProblem<'_>,
    vertex: &VertexRef<'_>,
) -> Result<usize, AllocError>
    ensures length { IfOk result (λ n. n ≡ length (space (problem known.now) (vertex_ref_view vertex.now))) }
    ensures small { IfOk result (λ n. (1 ≤ n) × (n ≤ 65536)) }
{
    spaces_are_small(known);
    states_counted(alloc, known, vertex)
}

/// How many states the vertex with a number has, absent among them; 0 where no vertex has it.
pub fn space_at(
    alloc: Global,
    known: &KnownProblem<'_>,
    table: &Table<'_>,
    number: usize,
) -> Result<u32, AllocError>
    ensures small { IfOk result (λ n. n ≤ 65536) }
    ensures space { IfOk result
        (λ n. (v : Vertex) → slice_get table.now number ≡ Some v → n ≡ length (space (problem known.now) v)) }
{
    match table.vertex(number) {
        Some(vertex) => Ok(space_of(alloc, known, &vertex)? as u32),
        None => Ok(0),
    }
}

/// The same, by the kind of the vertex.
fn states_counted(
    alloc: Global,
    known: &KnownProblem<'_>,
    vertex: &VertexRef<'_>,
) -> Result<usize, AllocError>
    ensures { IfOk result (λ n. n ≡ length (space (problem known.now) (vertex_ref_view vertex.now))) }
{
    match vertex {
        VertexRef::Root => Ok(2),
        VertexRef::Package(name, class) => Ok(versions_counted(known, name, *class)),
        VertexRef::Dependency(owner, dependency) => {
            classes_counted(alloc, known, owner, *dependency)
        }
        VertexRef::Feature(_, _, _) => Ok(2),
        VertexRef::Ask(_, _, _, _) => Ok(2),
    }
}

/// Absent, and the versions of the class.
fn versions_counted(known: &KnownProblem<'_>, name: &PackageName, class: Class) -> usize
    ensures { result ≡ length (space (problem known.now) (pkg name.now (class_view class))) }
{
    spaces_are_small(known);
    class_versions(known.problem.catalogue, name, class).len() + 1
}

/// Absent, and the classes that the dependency may lead to.
fn classes_counted(
    alloc: Global,
    known: &KnownProblem<'_>,
    owner: &OwnerRef<'_>,
    dependency: usize,
) -> Result<usize, AllocError>
    ensures { IfOk result (λ n. n ≡ length (space (problem known.now) (dep (owner_ref_view owner.now) dependency))) }
{
    spaces_are_small(known);
    Ok(class_count(alloc, known, owner, dependency)? + 1)
}
