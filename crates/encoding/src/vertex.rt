//! Vertices that keep their names.

ghost use Rattle.std.specs.Prelude.{◌≡◌, IfOk};
ghost use Rattle.vertices.specs.inner.RefViews.{owner_ref_view, state_ref_view, vertex_ref_view};
ghost use Rattle.vertices.specs.Views.{owner_view, state_view};
ghost use Rattle.encoding.specs.Views.{vertex_view};

use classes::Class;
use features::{FeatureName, PackageName};
use semver::Version;
use std::alloc::AllocError;
use std::fmt;
use vertices::{Owner, OwnerRef, State, StateRef, VertexRef};

/// What has a state in the search.
///
/// Other than a vertex that is read from the line of a derivation it has any number of a dependency.
#[derive(Drop)]
pub enum Vertex {
    Root,
    /// The versions of a package in a class.
    Package(PackageName, Class),
    /// A dependency of an owner by its number.
    Dependency(Owner, usize),
    /// A feature of the versions of a package in a class.
    Feature(PackageName, Class, FeatureName),
    /// A feature that an entry `d/g` of a version asks for through the dependency of this number.
    Ask(PackageName, Version, usize, FeatureName),
}

impl Vertex {
    /// The vertex in memory of its own.
    ///
    /// # Errors
    /// Memory is wanting.
    pub fn of(vertex: VertexRef<'_>) -> Result<Vertex, AllocError>
        ensures { IfOk result (λ v. vertex_view v ≡ vertex_ref_view vertex.entry) }
    {
        match vertex {
            VertexRef::Root => Ok(Vertex::Root),
            VertexRef::Package(name, class) => Ok(Vertex::Package(name.clone()?, class)),
            VertexRef::Dependency(owner, number) => {
                Ok(Vertex::Dependency(owner_of(owner)?, number))
            }
            VertexRef::Feature(name, class, feature) => {
                Ok(Vertex::Feature(name.clone()?, class, feature.clone()?))
            }
            VertexRef::Ask(name, version, number, feature) => Ok(Vertex::Ask(
                name.clone()?,
                version.clone()?,
                number,
                feature.clone()?,
            )),
        }
    }

    /// The same vertex, borrowed.
    pub fn borrowed(&self) -> VertexRef<'_>
        ensures { vertex_ref_view result ≡ vertex_view self.entry.now }
    {
        match self {
            Vertex::Root => VertexRef::Root,
            Vertex::Package(name, class) => VertexRef::Package(name, *class),
            Vertex::Dependency(owner, number) => VertexRef::Dependency(owner.borrowed(), *number),
            Vertex::Feature(name, class, feature) => VertexRef::Feature(name, *class, feature),
            Vertex::Ask(name, version, number, feature) => {
                VertexRef::Ask(name, version, *number, feature)
            }
        }
    }
}

impl fmt::Display for Vertex {
    ghost use Rattle.std.specs.Prelude.{Some};
    ghost use Rattle.vertices.specs.Texts.{vertex_text};
    ghost use Rattle.encoding.specs.Views.{vertex_view};

    ghost output = { λ vertex. Some (vertex_text (vertex_view vertex)) };

    fn fmt<W: fmt::Write>(&self, f: &mut fmt::Formatter<W>) -> fmt::Result {
        let vertex = self.borrowed();
        write!(f, "{vertex}")
    }
}

fn owner_of(owner: OwnerRef<'_>) -> Result<Owner, AllocError>
    ensures { IfOk result (λ o. owner_view o ≡ owner_ref_view owner.entry) }
{
    match owner {
        OwnerRef::Root => Ok(Owner::Root),
        OwnerRef::Version(name, version) => Ok(Owner::Version(name.clone()?, version.clone()?)),
    }
}

/// A state in memory of its own.
pub(crate) fn state_of(state: StateRef<'_>) -> Result<State, AllocError>
    ensures { IfOk result (λ s. state_view s ≡ state_ref_view state.entry) }
{
    match state {
        StateRef::Absent => Ok(State::Absent),
        StateRef::Present => Ok(State::Present),
        StateRef::Version(version) => Ok(State::Version(version.clone()?)),
        StateRef::Class(class) => Ok(State::Class(class)),
    }
}
