//! Equality of vertices, owners and states, and their hashes: two are equal just where they stand for one.

ghost use Rattle.std.specs.Prelude.{◌≡◌};
ghost use Rattle.std.specs.Cmp.{on_equiv, partial_equiv_from_equiv};
ghost use Rattle.std.specs.Ordering.{on};
ghost use Rattle.model.specs.Vertices.{same_owner, same_vertex, same_state};
ghost use Rattle.classes.specs.Classes.{class_view};
ghost use Rattle.vertices.specs.Orders.{class_number};
ghost use Rattle.vertices.specs.inner.RefViews.{owner_ref_view, vertex_ref_view, state_ref_view};
ghost use Rattle.vertices.specs.inner.Same.{owner_equivalence, vertex_equivalence, state_equivalence, owner_alike};
ghost use Rattle.vertices.specs.inner.Same.{vertex_alike, state_alike, owner_fed, vertex_fed, state_fed};
ghost use Rattle.vertices.specs.Views.{owner_view, vertex_view, state_view};

use crate::state::{State, StateRef};
use crate::vertex::{Owner, OwnerRef, Vertex, VertexRef};
use classes::{Class, same_class, same_version};
use std::hash::{Hash, Hasher};

impl<'a> PartialEq for VertexRef<'a> {
    ghost eq = { on vertex_ref_view same_vertex };

    ghost laws = { partial_equiv_from_equiv (on_equiv vertex_ref_view vertex_equivalence) };

    fn eq(&self, other: &VertexRef<'a>) -> bool {
        match (self, other) {
            (VertexRef::Root, VertexRef::Root) => true,
            (VertexRef::Package(a, c), VertexRef::Package(b, d)) => a == b && same_class(c, d),
            (VertexRef::Dependency(a, i), VertexRef::Dependency(b, j)) => a == b && i == j,
            (VertexRef::Feature(a, c, f), VertexRef::Feature(b, d, g)) => {
                a == b && same_class(c, d) && f == g
            }
            (VertexRef::Ask(a, v, i, f), VertexRef::Ask(b, w, j, g)) => {
                a == b && same_version(v, w) && i == j && f == g
            }
            _ => false,
        }
    }
}

impl<'a> Eq for VertexRef<'a> {
    ghost laws = { on_equiv vertex_ref_view vertex_equivalence };
}

impl<'a> Hash for VertexRef<'a> {
    ghost hash_input = { λ x. vertex_fed (vertex_ref_view x) };

    ghost respects_eq = { λ x y. vertex_alike (vertex_ref_view x) (vertex_ref_view y) };

    fn hash<H: Hasher>(&self, state: &mut H) {
        match self {
            VertexRef::Root => {}
            VertexRef::Package(name, class) => {
                name.hash(state);
                class_number(class).hash(state);
            }
            VertexRef::Dependency(owner, number) => {
                owner.hash(state);
                number.hash(state);
            }
            VertexRef::Feature(name, class, feature) => {
                name.hash(state);
                class_number(class).hash(state);
                feature.hash(state);
            }
            VertexRef::Ask(name, version, number, feature) => {
                name.hash(state);
                version.hash(state);
                number.hash(state);
                feature.hash(state);
            }
        }
    }
}

impl<'a> PartialEq for OwnerRef<'a> {
    ghost eq = { on owner_ref_view same_owner };

    ghost laws = { partial_equiv_from_equiv (on_equiv owner_ref_view owner_equivalence) };

    fn eq(&self, other: &OwnerRef<'a>) -> bool {
        match (self, other) {
            (OwnerRef::Root, OwnerRef::Root) => true,
            (OwnerRef::Version(a, v), OwnerRef::Version(b, w)) => a == b && same_version(v, w),
            _ => false,
        }
    }
}

impl<'a> Eq for OwnerRef<'a> {
    ghost laws = { on_equiv owner_ref_view owner_equivalence };
}

impl<'a> Hash for OwnerRef<'a> {
    ghost hash_input = { λ x. owner_fed (owner_ref_view x) };

    ghost respects_eq = { λ x y. owner_alike (owner_ref_view x) (owner_ref_view y) };

    fn hash<H: Hasher>(&self, state: &mut H) {
        match self {
            OwnerRef::Root => {}
            OwnerRef::Version(name, version) => {
                name.hash(state);
                version.hash(state);
            }
        }
    }
}

impl<'a> PartialEq for StateRef<'a> {
    ghost eq = { on state_ref_view same_state };

    ghost laws = { partial_equiv_from_equiv (on_equiv state_ref_view state_equivalence) };

    fn eq(&self, other: &StateRef<'a>) -> bool {
        match (self, other) {
            (StateRef::Absent, StateRef::Absent) => true,
            (StateRef::Present, StateRef::Present) => true,
            (StateRef::Version(a), StateRef::Version(b)) => same_version(a, b),
            (StateRef::Class(a), StateRef::Class(b)) => same_class(a, b),
            _ => false,
        }
    }
}

impl<'a> Eq for StateRef<'a> {
    ghost laws = { on_equiv state_ref_view state_equivalence };
}

impl<'a> Hash for StateRef<'a> {
    ghost hash_input = { λ x. state_fed (state_ref_view x) };

    ghost respects_eq = { λ x y. state_alike (state_ref_view x) (state_ref_view y) };

    fn hash<H: Hasher>(&self, state: &mut H) {
        match self {
            StateRef::Absent => 0u8.hash(state),
            StateRef::Present => 1u8.hash(state),
            StateRef::Version(version) => version.hash(state),
            StateRef::Class(class) => class_number(class).hash(state),
        }
    }
}

impl PartialEq for Vertex {
    ghost eq = { on vertex_view same_vertex };

    ghost laws = { partial_equiv_from_equiv (on_equiv vertex_view vertex_equivalence) };

    fn eq(&self, other: &Vertex) -> bool {
        self.borrowed() == other.borrowed()
    }
}

impl Eq for Vertex {
    ghost laws = { on_equiv vertex_view vertex_equivalence };
}

impl Hash for Vertex {
    ghost hash_input = { λ x. vertex_fed (vertex_view x) };

    ghost respects_eq = { λ x y. vertex_alike (vertex_view x) (vertex_view y) };

    fn hash<H: Hasher>(&self, state: &mut H) {
        self.borrowed().hash(state)
    }
}

impl PartialEq for Owner {
    ghost eq = { on owner_view same_owner };

    ghost laws = { partial_equiv_from_equiv (on_equiv owner_view owner_equivalence) };

    fn eq(&self, other: &Owner) -> bool {
        self.borrowed() == other.borrowed()
    }
}

impl Eq for Owner {
    ghost laws = { on_equiv owner_view owner_equivalence };
}

impl Hash for Owner {
    ghost hash_input = { λ x. owner_fed (owner_view x) };

    ghost respects_eq = { λ x y. owner_alike (owner_view x) (owner_view y) };

    fn hash<H: Hasher>(&self, state: &mut H) {
        self.borrowed().hash(state)
    }
}

impl PartialEq for State {
    ghost eq = { on state_view same_state };

    ghost laws = { partial_equiv_from_equiv (on_equiv state_view state_equivalence) };

    fn eq(&self, other: &State) -> bool {
        self.borrowed() == other.borrowed()
    }
}

impl Eq for State {
    ghost laws = { on_equiv state_view state_equivalence };
}

impl Hash for State {
    ghost hash_input = { λ x. state_fed (state_view x) };

    ghost respects_eq = { λ x y. state_alike (state_view x) (state_view y) };

    fn hash<H: Hasher>(&self, state: &mut H) {
        self.borrowed().hash(state)
    }
}

/// Whether two vertices are one.
pub fn same_vertex(a: &VertexRef<'_>, b: &VertexRef<'_>) -> bool
    ensures { result ≡ same_vertex (vertex_ref_view a.now) (vertex_ref_view b.now) }
{
    a == b
}

/// Whether two states are one.
pub fn same_state(a: &StateRef<'_>, b: &StateRef<'_>) -> bool
    ensures { result ≡ same_state (state_ref_view a.now) (state_ref_view b.now) }
{
    a == b
}

/// The number in a class's text.
fn class_number(class: &Class) -> u64
    ensures { result ≡ class_number (class_view class.now) }
{
    match class {
        Class::Patch(n) | Class::Minor(n) | Class::Major(n) => *n,
    }
}
