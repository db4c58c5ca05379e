//! The states that the vertices of the search have in a content, by their numbers: what a lock says to a search that
//! follows it.
//!
//! The model says of a content by relations which state each vertex has in it (`model/specs/inner/Assignment`), since
//! which features are on is found by chains of reasons. A search that decides as a content does has only one vertex at
//! hand and needs one number, soon. So `state_in` looks up packages and dependencies alone: the package of the name and
//! class, or the package that the dependency leads to, each by search in package order, and from it the place among the
//! states. A vertex of another kind that isn't absent has but one state, `present`.
//!
//! A layer above may rely on this: for a valid selection, the number is that of the state that the model assigns,
//! wherever the vertex has one besides `absent`. A vertex that is absent there may get a number all the same, so this
//! is to be asked of those that can't be absent.

ghost use Rattle.std.specs.Prelude.{◌≡◌, ◌<◌, ℕ, IfOk, Some, length};
ghost use Rattle.classes.specs.Classes.{class_view};
ghost use Rattle.lockfile.specs.inner.Views.{package_views};
ghost use Rattle.model.specs.inner.Assignment.{Has};
ghost use Rattle.model.specs.Selection.{IsValidSelection};
ghost use Rattle.model.specs.Vertices.{State, dep, pkg, space};
ghost use Rattle.numbering.specs.inner.Assignments.{state_at};
ghost use Rattle.numbering.specs.inner.KnownProblem.{problem};
ghost use Rattle.vertices.specs.inner.RefViews.{owner_ref_view, vertex_ref_view};
ghost use Rattle.guiding.specs.inner.Found.{IsStateIn};

use crate::in_content::{led_to, package_in};
use crate::numbers::version_number;
use classes::Class;
use features::PackageName;
use lockfile::{LockContent, Package};
use lookups::dependency_at;
use numbering::{KnownProblem, class_number, spaces_are_small};
use std::alloc::{AllocError, Global};
use vertices::{OwnerRef, VertexRef};

/// The number of the state that a vertex has in a valid selection; `None` only where it is absent there, or has no such
/// state.
///
/// A vertex that is absent may get a number all the same. The only error is want of memory.
pub fn state_in(
    alloc: Global,
    known: &KnownProblem<'_>,
    content: &LockContent,
    vertex: &VertexRef<'_>,
) -> Result<Option<u32>, AllocError>
    requires valid { IsValidSelection (problem known.now) content.now }
    ensures { IfOk result (λ o. (s : State) → Has (problem known.now) content.now (vertex_ref_view vertex.now) s
        → (n : ℕ) × (o ≡ Some n) × (n < length (space (problem known.now) (vertex_ref_view vertex.now)))
        × (state_at (problem known.now) (vertex_ref_view vertex.now) n ≡ s)) }
{
    let packages = content.packages();
    match vertex {
        VertexRef::Root => Ok(Some(1)),
        VertexRef::Package(name, class) => Ok(version_in(known, packages, name, *class)),
        VertexRef::Dependency(owner, number) => class_in(alloc, known, packages, owner, *number),
        VertexRef::Feature(_, _, _) => Ok(Some(1)),
        VertexRef::Ask(_, _, _, _) => Ok(Some(1)),
    }
}

/// The state of a name and a class: the version of its package.
fn version_in(
    known: &KnownProblem<'_>,
    content: &[Package],
    name: &PackageName,
    class: Class,
) -> Option<u32>
    requires valid { IsValidSelection (problem known.now) (package_views content.now) }
    ensures { IsStateIn (problem known.now) (package_views content.now) (pkg name.now (class_view class)) result }
{
    let locked = package_in(content, name, class)?;
    version_number(known, name, class, &locked.version)
}

/// The state of a dependency of an owner: the class of the package that it leads to.
fn class_in(
    alloc: Global,
    known: &KnownProblem<'_>,
    content: &[Package],
    owner: &OwnerRef<'_>,
    number: usize,
) -> Result<Option<u32>, AllocError>
    requires valid { IsValidSelection (problem known.now) (package_views content.now) }
    ensures { IfOk result
        (IsStateIn (problem known.now) (package_views content.now) (dep (owner_ref_view owner.now) number)) }
{
    spaces_are_small(known);
    let Some(dependency) = dependency_at(&known.problem, owner, number) else {
        return Ok(None);
    };
    let Some(locked) = led_to(known, content, owner, dependency) else {
        return Ok(None);
    };
    let class = Class::of(&locked.version);
    match class_number(alloc, known, dependency, class)? {
        Some(number) => Ok(Some(number as u32)),
        None => Ok(None),
    }
}
