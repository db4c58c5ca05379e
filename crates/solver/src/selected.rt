//! The content of what a search selected: what the root reaches in the states that it ended in.
//!
//! Where nothing is left to decide, each vertex takes `absent` if it still may, else its one state. No instance is
//! broken by that: those of each pair that was asked for are in the store, no entry of which is satisfied, and the laws
//! of `numbering` lead from there to all instances.
//!
//! No contract says that something asks for each of these states, and none has to: `content` follows in them where each
//! dependency leads, from the root on, enabled or not, and takes each version once; `facts` finds which of them are
//! here, and `selection` puts these into package order with their lists. By the laws of `facts` that is a valid
//! selection.
//!
//! A layer above may rely on this: the content is a valid selection, of which the root alone brings all, and whose root
//! has no checksum. It has no more packages than the trail has places.

ghost use Rattle.std.specs.Prelude.{◌≡◌, ◌≤◌, IfOk, length};
ghost use Rattle.propagation.specs.Promises.{IsSound};
ghost use Rattle.propagation.specs.Trails.{trail_view};
ghost use Rattle.model.specs.inner.Search.{IsUnbroken};
ghost use Rattle.model.specs.Selection.{IsValidSelection};
ghost use Rattle.numbering.specs.inner.Assignments.{state_of};
ghost use Rattle.numbering.specs.inner.KnownProblem.{problem};
ghost use Rattle.guiding.specs.inner.Guides.{final_of};
ghost use Rattle.model.specs.Selected.{HasBareRoot, IsBrought};

use crate::meeting::meet;
use catalogue::catalogues_are_well_formed;
use facts::{built_contents_select, built_roots_have_no_checksum, facts_of, packages_are_a_graph};
use lockfile::LockContent;
use numbering::{KnownProblem, Table};
use propagation::Trail;
use selection::{Met, content_of};
use std::alloc::{AllocError, Global};
use version_sets::States;

/// The content that a search selected, in package order: what the root reaches in the states that it ended in, so the
/// root alone brings all of it. Each of its packages has a vertex that was assigned.
///
/// The only error is want of memory.
pub fn content<'a, S: States + Drop>(
    alloc: Global,
    known: &KnownProblem<'a>,
    table: &Table<'a>,
    trail: &Trail<S>,
) -> Result<LockContent, AllocError>
    requires sound { IsSound (trail_view S.tests trail.now) }
    requires whole { length table.now ≤ length (trail_view S.tests trail.now).sets }
    requires unbroken { IsUnbroken (problem known.now)
        (state_of (problem known.now) table.now (final_of (trail_view S.tests trail.now))) }
    ensures selection { IfOk result (λ c. IsValidSelection (problem known.now) c) }
    ensures root { IfOk result (λ c. HasBareRoot (problem known.now) c) }
    ensures brought { IfOk result (λ c. IsBrought (problem known.now) c) }
    ensures assigned { IfOk result (λ c. length c ≤ length (trail_view S.tests trail.now).steps) }
{
    catalogues_are_well_formed(known.problem.manifest, known.problem.catalogue);
    packages_are_a_graph();
    built_contents_select();
    built_roots_have_no_checksum();
    let Met { versions, nodes } = meet(alloc, known, table, trail)?;
    let facts = facts_of(alloc, nodes.as_slice(), 0)?;
    content_of(
        alloc,
        known.problem.manifest,
        known.problem.catalogue,
        versions.as_slice(),
        nodes.as_slice(),
        &facts,
    )
}
