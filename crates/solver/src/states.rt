//! The states that a search ended in.

ghost use Rattle.std.specs.Prelude.{◌≡◌, ◌≤◌, IfOk, length, option_map};
ghost use Rattle.propagation.specs.Trails.{trail_view};
ghost use Rattle.semver.specs.Identifiers.{parts_of};
ghost use Rattle.classes.specs.Classes.{class_view};
ghost use Rattle.vertices.specs.inner.RefViews.{state_ref_view, vertex_ref_view};
ghost use Rattle.guiding.specs.inner.Guides.{first_in};
ghost use Rattle.solver.specs.inner.Leads.{class_if, ends, version_if};

use classes::Class;
use numbering::{KnownProblem, Table, state_at};
use propagation::Trail;
use semver::Version;
use std::alloc::{AllocError, Global};
use version_sets::States;
use vertices::{StateRef, VertexRef};

/// The least number of a set; how many numbers it may have, if it has none.
fn first_in<S: States>(set: &S) -> u32
    ensures { result ≡ first_in (S.tests set.now) }
{
    'numbers: for number in 0..set.universe() {
        if set.member(number) {
            return number;
        }
    }
    set.universe()
}

/// The state that a vertex has at the end: absent without a number.
pub(crate) fn state_of<'a, S: States + Drop>(
    alloc: Global,
    known: &KnownProblem<'a>,
    table: &Table<'a>,
    trail: &Trail<S>,
    vertex: &VertexRef<'a>,
) -> Result<StateRef<'a>, AllocError>
    requires whole { length table.now ≤ length (trail_view S.tests trail.now).sets }
    ensures { IfOk result (λ s. state_ref_view s
        ≡ ends known.now table.now (trail_view S.tests trail.now) (vertex_ref_view vertex.now)) }
{
    match table.number(vertex) {
        Some(number) => {
            let state = first_in(trail.states(number));
            state_at(alloc, known, vertex, state as usize)
        }
        None => Ok(StateRef::Absent),
    }
}

/// The class, where a state is one.
pub(crate) fn class_if(state: StateRef<'_>) -> Option<Class>
    ensures { option_map class_view result ≡ class_if (state_ref_view state.entry) }
{
    match state {
        StateRef::Absent => None,
        StateRef::Present => None,
        StateRef::Version(_) => None,
        StateRef::Class(class) => Some(class),
    }
}

/// The version, where a state is one.
pub(crate) fn version_if<'a>(state: StateRef<'a>) -> Option<&'a Version>
    ensures { option_map (λ v. parts_of v.now) result ≡ version_if (state_ref_view state.entry) }
{
    match state {
        StateRef::Absent => None,
        StateRef::Present => None,
        StateRef::Version(version) => Some(version),
        StateRef::Class(_) => None,
    }
}
