//! A search over a manifest and a loaded index, for any set of states.

ghost use Rattle.std.specs.Prelude.{◌≡◌, ◌≤◌, [], IfOk, length};
ghost use Rattle.incompatibilities.specs.Stores.{entries_view};
ghost use Rattle.propagation.specs.Trails.{trail_view};
ghost use Rattle.numbering.specs.inner.KnownProblem.{KnowsDefault, problem};
ghost use Rattle.guiding.specs.inner.Counting.{IsCount};
ghost use Rattle.guiding.specs.inner.Guides.{CanFollow, HasSearched};

use crate::guide::Encoded;
use crate::turns::{Found, search};
use incompatibilities::Store;
use lockfile::LockContent;
use numbering::KnownProblem;
use propagation::Trail;
use std::alloc::{AllocError, Global};
use version_sets::States;

/// What a search found, and where it ended.
#[derive(Drop)]
pub struct Searched<'a, S: States> {
    /// How it ended, and in how many steps.
    pub found: Found,
    /// The vertices by number.
    pub guide: Encoded<'a, S>,
    /// What is left to each.
    pub trail: Trail<S>,
    /// The axioms, and what follows from them.
    pub store: Store<S>,
}

/// Searches until there is an answer. A search that is given a valid selection decides as that one says, and ends with
/// it: its states break no instance, so they stay among what is left, and nothing that follows can rule them out
/// (`HasFollowed`).
pub fn search_over<'a, S: States + Drop>(
    alloc: Global,
    known: KnownProblem<'a>,
    follows: Option<LockContent>,
) -> Result<Searched<'a, S>, AllocError>
    requires default { KnowsDefault known }
    requires follows { CanFollow (problem known) follows }
    ensures problem { IfOk result (λ r. r.guide.problem ≡ problem known.entry) }
    ensures follows { IfOk result (λ r. r.guide.follows ≡ follows) }
    ensures searched { IfOk result (λ r. HasSearched (problem known.entry) r.guide (trail_view S.tests r.trail)
        (entries_view S.tests r.store) r.found.answer) }
    // There are at least as many steps as combinations.
    ensures counted { IfOk result
        (λ r. IsCount [] (entries_view S.tests r.store) (trail_view S.tests r.trail) r.found.steps) }
    // And as assignments that stand.
    ensures standing { IfOk result (λ r. length (trail_view S.tests r.trail).steps ≤ r.found.steps) }
{
    let mut store = Store::new(alloc);
    let mut trail = Trail::new(alloc, &[])?;
    let mut guide = Encoded::begin(alloc, known, follows, &mut trail, &mut store)?;
    let found = search(alloc, &mut guide, &mut trail, &mut store)?;
    guide.vertices_have_numbers_and_states();
    Ok(Searched {
        found,
        guide,
        trail,
        store,
    })
}
