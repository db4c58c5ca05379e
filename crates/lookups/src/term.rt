//! Terms whose names and versions lie elsewhere, with their sets of states in the written order, and causes.
//!
//! A checker holds the terms of a step against those of an instance. The names of the one lie in the derivation, those
//! of the other in the manifest and the index, and no name or version is copied: all of these are borrowed. Sets of
//! states are kept in the written order, which they have in a derivation anyway, so a state is found by search, and
//! union, intersection and equality are decided without memory.
//!
//! A layer above may rely on this: `same_terms` says whether two lists of terms say the same of each vertex, in
//! whichever order they stand; a `Cause` names what an instance comes from, and its view is the cause of `model`.
//! The search's encoding takes causes from here too.

use crate::states::StateSet;
use vertices::VertexRef;

/// A vertex and a set of its states.
#[derive(Drop)]
pub struct Term<'a> {
    pub vertex: VertexRef<'a>,
    pub states: StateSet<'a>,
}
