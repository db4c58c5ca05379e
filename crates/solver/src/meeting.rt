//! Meeting the versions that dependencies lead to, from the root on.

ghost use Rattle.std.specs.Prelude.{◌≡◌, IfOk};
ghost use Rattle.propagation.specs.Trails.{trail_view};
ghost use Rattle.facts.specs.inner.Graphs.{node_views};
ghost use Rattle.model.specs.inner.Search.{LeadsTo};
ghost use Rattle.facts.specs.inner.Nodes.{AreMet};
ghost use Rattle.numbering.specs.inner.KnownProblem.{problem};
ghost use Rattle.selection.specs.inner.Contents.{AreMetVersions, owners_of};
ghost use Rattle.solver.specs.inner.Leads.{HasEnded, ends};

use crate::leading::led_at;
use crate::targets::targets_of;
use facts::{Node, dependencies_of};
use indexmap::IndexSet;
use numbering::{KnownProblem, Table};
use propagation::Trail;
use selection::{Met, brings_at, store_holds};
use std::alloc::{AllocError, Global};
use version_sets::States;

/// Follows where each dependency leads, enabled or not, and takes each version once.
pub(crate) fn meet<'a, S: States + Drop>(
    alloc: Global,
    known: &KnownProblem<'a>,
    table: &Table<'a>,
    trail: &Trail<S>,
) -> Result<Met<'a>, AllocError>
    requires { HasEnded known.now table.now (trail_view S.tests trail.now) }
    ensures met { IfOk result (λ m. AreMet (problem known.now)
        (LeadsTo (problem known.now) (ends known.now table.now (trail_view S.tests trail.now)))
        (owners_of known.now.problem.catalogue.now m.versions.keys) (node_views m.nodes.items)) }
    ensures versions { IfOk result (λ m. AreMetVersions known.now.problem.catalogue.now m.versions.keys) }
{
    store_holds(known.problem.catalogue);
    let mut versions = IndexSet::new(alloc);
    let mut nodes = Vec::new(alloc);
    'versions: while nodes.len() <= versions.len() {
        let place = nodes.len();
        let brings = brings_at(
            known.problem.manifest,
            known.problem.catalogue,
            versions.as_slice(),
            place,
        );
        let dependencies = dependencies_of(brings);
        let places = led_at(
            alloc,
            known,
            table,
            trail,
            versions.as_slice(),
            place,
            dependencies,
        )?;
        let catalogue = known.problem.catalogue;
        let targets = targets_of(
            alloc,
            catalogue,
            &mut versions,
            dependencies,
            places.as_slice(),
        )?;
        nodes.push(Node {
            brings,
            targets,
            starts: place == 0,
        })?;
    }
    Ok(Met { versions, nodes })
}
