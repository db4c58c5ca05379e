//! Terms of one state.

ghost use Rattle.std.specs.Prelude.{◌≡◌, ◌∷◌, [], IfOk};
ghost use Rattle.semver.specs.Identifiers.{parts_of};
ghost use Rattle.model.specs.Axioms.{at};
ghost use Rattle.model.specs.Selection.{class_of};
ghost use Rattle.model.specs.Vertices as model;
ghost use Rattle.vertices.specs.inner.RefViews.{state_ref_view, vertex_ref_view};
ghost use Rattle.lookups.specs.inner.Symbolic.{flag_state};
ghost use Rattle.lookups.specs.inner.TermViews.{term_view};

use classes::Class;
use features::PackageName;
use lookups::{StateSet, Term};
use semver::Version;
use std::alloc::{AllocError, Global};
use vertices::{StateRef, VertexRef};

/// A vertex with one state.
pub(crate) fn term<'a>(
    alloc: Global,
    vertex: VertexRef<'a>,
    state: StateRef<'a>,
) -> Result<Term<'a>, AllocError>
    ensures { IfOk result (λ t. term_view t ≡ at (vertex_ref_view vertex.entry) (state_ref_view state.entry ∷ [])) }
{
    let states = StateSet::one(alloc, state)?;
    Ok(Term { vertex, states })
}

/// The version is chosen.
pub(crate) fn chosen<'a>(
    alloc: Global,
    name: &'a PackageName,
    version: &'a Version,
) -> Result<Term<'a>, AllocError>
    ensures { IfOk result (λ t. term_view t ≡ at (model.pkg name.entry.now (class_of (parts_of version.entry.now)))
        (model.version (parts_of version.entry.now) ∷ [])) }
{
    term(
        alloc,
        VertexRef::Package(name, Class::of(version)),
        StateRef::Version(version),
    )
}

/// A vertex that is absent or present.
pub(crate) fn flag_term<'a>(
    alloc: Global,
    vertex: VertexRef<'a>,
    present: bool,
) -> Result<Term<'a>, AllocError>
    ensures { IfOk result (λ t. term_view t ≡ at (vertex_ref_view vertex.entry) (flag_state present ∷ [])) }
{
    if present {
        term(alloc, vertex, StateRef::Present)
    } else {
        term(alloc, vertex, StateRef::Absent)
    }
}
