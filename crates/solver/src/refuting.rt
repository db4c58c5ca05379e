//! Why there is no selection: the entries that a store's last one comes from, as a derivation that others can check.
//!
//! A search that finds nothing ends at an entry without terms, which follows from axioms that are instances. `unroll`
//! gives the row of axioms and combinations that it comes from. Each becomes a step, in their order: the numbers of
//! vertices and states become the vertices and states that they stand for, and the builder of `derivations` puts them
//! into the written order.
//!
//! What is hard is what the builder asks for: that each vertex and state is what its own text reads as. So it is for
//! all names, versions and numbers of dependencies of a manifest and a loaded index (`parts_are_valid` of `catalogue`),
//! which `refusal` asks for. Each vertex that is spoken of is spelt once for all steps (`spaces.rt`), in the order of
//! their texts (`listing.rt`), in which terms stand.
//!
//! A layer above may rely on this: the derivation is accepted, by the same definition as the checker's, and has no more
//! combinations and axioms than the store.

ghost use Rattle.std.specs.Prelude.{◌≡◌, ◌<◌, [], IfOk, length};
ghost use Rattle.incompatibilities.specs.Stores.{entries_view, entry};
ghost use Rattle.model.specs.Derivation.{IsAccepted};
ghost use Rattle.vertices.specs.inner.Valid.{HasValidParts};
ghost use Rattle.numbering.specs.inner.KnownProblem.{problem};
ghost use Rattle.numbering.specs.Numberings.{IsNumbering};
ghost use Rattle.solver.specs.inner.Flats.{AreFlat, LieSomewhere, flats_view};
ghost use Rattle.solver.specs.inner.Steps.{AreGiven, AreStepsOf};
ghost use Rattle.solver.specs.Refusing.{HasNoMore};

use crate::flat::Flat;
use crate::listing::list_by_text;
use crate::rows::rows_are_accepted;
use crate::spaces::Spaces;
use crate::stepping::push_step;
use crate::unrolling::unroll;
use catalogue::catalogues_are_well_formed;
use derivations::Derivation;
use incompatibilities::{Id, Store};
use numbering::{KnownProblem, Table};
use std::alloc::{AllocError, Global};
use version_sets::States;

/// The steps of a row, in its order.
fn steps_of<'a, S: States + Drop>(
    alloc: Global,
    known: &KnownProblem<'a>,
    table: &Table<'a>,
    store: &Store<S>,
    row: &[Flat<S>],
) -> Result<Derivation, AllocError>
    requires parts { HasValidParts (problem known.now) }
    requires numbering { IsNumbering (problem known.now) table.now }
    requires axioms { AreGiven (problem known.now) table.now (entries_view S.tests store.now) }
    requires founded { AreFlat (entries_view S.tests store.now) (flats_view S.tests row.now) }
    ensures { IfOk result (λ d. AreStepsOf (problem known.now) table.now (flats_view S.tests row.now) d) }
{
    catalogues_are_well_formed(known.problem.manifest, known.problem.catalogue);
    let mut spaces = Spaces::new(alloc);
    let mut steps = Derivation::new(alloc);
    list_by_text(alloc, known, table, row, &mut spaces, &mut steps)?;
    'row: for flat in row {
        push_step(alloc, known, table, flat, &mut spaces, &mut steps)?;
    }
    Ok(steps)
}

/// Why there is no selection: an accepted derivation, with a step for each axiom that `last`, which has no terms, comes
/// from, and for each combination on the way.
///
/// It takes time and memory in proportion to the entry's place and to what those say.
pub fn refusal<'a, S: States + Drop>(
    alloc: Global,
    known: &KnownProblem<'a>,
    table: &Table<'a>,
    store: &Store<S>,
    last: Id,
) -> Result<Derivation, AllocError>
    requires parts { HasValidParts (problem known.now) }
    requires numbering { IsNumbering (problem known.now) table.now }
    requires axioms { AreGiven (problem known.now) table.now (entries_view S.tests store.now) }
    requires lies { LieSomewhere (entries_view S.tests store.now) }
    requires within { last < length (entries_view S.tests store.now) }
    requires none { (entry (entries_view S.tests store.now) last).terms ≡ [] }
    ensures accepted { IfOk result (λ d. IsAccepted (problem known.now) d) }
    ensures once { IfOk result (λ d. HasNoMore (entries_view S.tests store.now) d) }
{
    catalogues_are_well_formed(known.problem.manifest, known.problem.catalogue);
    rows_are_accepted();
    let row = unroll(alloc, store, last)?;
    let derivation = steps_of(alloc, known, table, store, &row)?;
    let _long = derivation.len();
    Ok(derivation)
}
