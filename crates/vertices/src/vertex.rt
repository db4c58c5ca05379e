//! Vertices, the owners of dependencies, and the texts of both.

ghost use Rattle.std.specs.Prelude.{◌≡◌};
ghost use Rattle.model.specs.Outcome.{Gives};
ghost use Rattle.vertices.specs.inner.RefViews.{owner_ref_view, vertex_ref_view};
ghost use Rattle.vertices.specs.Texts.{owner_of_text, vertex_of_text, wants_memory};
ghost use Rattle.vertices.specs.Views.{owner_view, vertex_view};

use crate::fault::TextFault;
use crate::reading::{owner_in, vertex_in};
use classes::Class;
use features::{FeatureName, PackageName};
use semver::Version;
use std::alloc::Global;
use std::fmt;

/// Whose dependency it is.
#[derive(Drop)]
pub enum Owner {
    Root,
    /// A version of a package.
    Version(PackageName, Version),
}

/// The same, with a name and a version that lie elsewhere.
#[derive(Clone, Copy)]
pub enum OwnerRef<'a> {
    Root,
    /// A version of a package.
    Version(&'a PackageName, &'a Version),
}

/// What has a state in the search.
#[derive(Drop)]
pub enum Vertex {
    Root,
    /// The versions of a package in a class.
    Package(PackageName, Class),
    /// A dependency of an owner by its number.
    Dependency(Owner, u32),
    /// A feature of the versions of a package in a class.
    Feature(PackageName, Class, FeatureName),
    /// A feature that an entry `d/g` of a version asks for through the dependency of this number.
    Ask(PackageName, Version, u32, FeatureName),
}

/// The same, with names and versions that lie elsewhere.
#[derive(Clone, Copy)]
pub enum VertexRef<'a> {
    Root,
    /// The versions of a package in a class.
    Package(&'a PackageName, Class),
    /// A dependency of an owner by its number.
    Dependency(OwnerRef<'a>, usize),
    /// A feature of the versions of a package in a class.
    Feature(&'a PackageName, Class, &'a FeatureName),
    /// A feature that an entry `d/g` of a version asks for through the dependency of this number.
    Ask(&'a PackageName, &'a Version, usize, &'a FeatureName),
}

impl Owner {
    /// The owner that a text is: `root` or `NAME@VERSION`.
    ///
    /// # Errors
    /// The text is of no owner, or there is no memory.
    pub fn parse(alloc: Global, text: &str) -> Result<Owner, TextFault>
        ensures { Gives wants_memory owner_view result (owner_of_text text.now) }
    {
        owner_in(alloc, text)
    }

    /// The same owner, borrowed.
    pub fn borrowed(&self) -> OwnerRef<'_>
        ensures { owner_ref_view result ≡ owner_view self.entry.now }
    {
        match self {
            Owner::Root => OwnerRef::Root,
            Owner::Version(name, version) => OwnerRef::Version(name, version),
        }
    }
}

impl Vertex {
    /// The vertex that a text is, by its form alone.
    ///
    /// # Errors
    /// The text is of no vertex, or there is no memory.
    pub fn parse(alloc: Global, text: &str) -> Result<Vertex, TextFault>
        ensures { Gives wants_memory vertex_view result (vertex_of_text text.now) }
    {
        vertex_in(alloc, text)
    }

    /// The same vertex, borrowed.
    pub fn borrowed(&self) -> VertexRef<'_>
        ensures { vertex_ref_view result ≡ vertex_view self.entry.now }
    {
        match self {
            Vertex::Root => VertexRef::Root,
            Vertex::Package(name, class) => VertexRef::Package(name, *class),
            Vertex::Dependency(owner, number) => {
                VertexRef::Dependency(owner.borrowed(), *number as usize)
            }
            Vertex::Feature(name, class, feature) => VertexRef::Feature(name, *class, feature),
            Vertex::Ask(name, version, number, feature) => {
                VertexRef::Ask(name, version, *number as usize, feature)
            }
        }
    }
}

impl fmt::Display for Owner {
    ghost use Rattle.std.specs.Prelude.{Some};
    ghost use Rattle.vertices.specs.Texts.{owner_text};
    ghost use Rattle.vertices.specs.Views.{owner_view};

    ghost output = { λ owner. Some (owner_text (owner_view owner)) };

    fn fmt<W: fmt::Write>(&self, f: &mut fmt::Formatter<W>) -> fmt::Result {
        let owner = self.borrowed();
        write!(f, "{owner}")
    }
}

impl<'a> fmt::Display for OwnerRef<'a> {
    ghost use Rattle.std.specs.Prelude.{Some};
    ghost use Rattle.vertices.specs.Texts.{owner_text};
    ghost use Rattle.vertices.specs.inner.RefViews.{owner_ref_view};

    ghost output = { λ owner. Some (owner_text (owner_ref_view owner)) };

    fn fmt<W: fmt::Write>(&self, f: &mut fmt::Formatter<W>) -> fmt::Result {
        match self {
            OwnerRef::Root => f.write_str("root"),
            OwnerRef::Version(name, version) => write!(f, "{name}@{version}"),
        }
    }
}

impl fmt::Display for Vertex {
    ghost use Rattle.std.specs.Prelude.{Some};
    ghost use Rattle.vertices.specs.Texts.{vertex_text};
    ghost use Rattle.vertices.specs.Views.{vertex_view};

    ghost output = { λ vertex. Some (vertex_text (vertex_view vertex)) };

    fn fmt<W: fmt::Write>(&self, f: &mut fmt::Formatter<W>) -> fmt::Result {
        let vertex = self.borrowed();
        write!(f, "{vertex}")
    }
}

impl<'a> fmt::Display for VertexRef<'a> {
    ghost use Rattle.std.specs.Prelude.{Some};
    ghost use Rattle.vertices.specs.Texts.{vertex_text};
    ghost use Rattle.vertices.specs.inner.RefViews.{vertex_ref_view};

    ghost output = { λ vertex. Some (vertex_text (vertex_ref_view vertex)) };

    fn fmt<W: fmt::Write>(&self, f: &mut fmt::Formatter<W>) -> fmt::Result {
        match self {
            VertexRef::Root => f.write_str("root"),
            VertexRef::Package(name, class) => write!(f, "pkg {name} {class}"),
            VertexRef::Dependency(owner, number) => write!(f, "dep {owner} {number}"),
            VertexRef::Feature(name, class, feature) => write!(f, "feat {name} {class} {feature}"),
            VertexRef::Ask(name, version, number, feature) => {
                write!(f, "ask {name}@{version} {number} {feature}")
            }
        }
    }
}
