//! What the search gives states to: vertices, what each may be, the kinds of axioms on them, and their texts.
//!
//! A vertex stands for the root, for the versions of a package in a class, for a dependency of an owner, for a feature,
//! or for what an entry of a feature asks a dependency for. `Owner`, `Vertex` and `State` come in two forms with one
//! meaning: one owns its names and versions, as it is read off a text; the other borrows them (`OwnerRef`, `VertexRef`,
//! `StateRef`) and is copied freely. Order, equality and hash stand at the borrowed form, and the owned one goes
//! through it.
//!
//! What a layer above may rely on: two vertices are equal just where the model's are; a vertex or state of valid names,
//! versions and numbers is what its own text reads as, so no two of them share a text; and what a text reads as is one
//! of these (`laws`).
#![tactic(auto)]

mod fault;
mod kind;
mod laws;
mod order;
mod reading;
mod same;
mod state;
mod text;
mod vertex;

pub use fault::TextFault;
pub use kind::Kind;
pub use laws::{
    classes_of_versions_are_valid, read_vertices_are_valid, spaces_have_valid_states,
    texts_tell_vertices_apart, valid_states_are_read, valid_vertices_are_read,
    vertices_of_problems_are_valid,
};
pub use order::state_order;
pub use same::{same_state, same_vertex};
pub use state::{State, StateRef};
pub use vertex::{Owner, OwnerRef, Vertex, VertexRef};
