//! Solving a manifest over a loaded index (Dart pub's `solver.md`).

ghost use Rattle.std.specs.Prelude.{◌≡◌, ◌≤◌, IfOk, IfSome, codes, is_some, length, true};
ghost use Rattle.incompatibilities.specs.Stores.{entries_view};
ghost use Rattle.catalogue.specs.Problems.{preferred_in, problem_in};
ghost use Rattle.numbering.specs.inner.KnownProblem.{problem};
ghost use Rattle.guiding.specs.inner.Guides.{HasSearched, IsOfInstance};
ghost use Rattle.numbering.specs.Numberings.{IsNumbering};
ghost use Rattle.propagation.specs.Trails.{trail_view};
ghost use Rattle.solver.specs.Refusing.{HasNoMore, axioms_of, combinations_of};
ghost use Rattle.guiding.specs.inner.Searching.{IsRefutation};
ghost use Rattle.guiding.specs.inner.Following.{AreGiven};
ghost use Rattle.solver.specs.Solving.{HasStepEach, IsAnswer, IsFound, IsSolved, derivation_of};
ghost use Rattle.model.specs.Selected.{IsUnsolvable};
ghost use Rattle.solver.specs.inner.Flats.{LieSomewhere};

use crate::counting::axioms_in;
use crate::laws::instances_have_their_kinds;
use crate::refuting::refusal;
use crate::selected::content;
use catalogue::{
    Catalogue, accepted_derivations_refute, catalogues_are_well_formed, parts_are_valid,
};
use derivations::Derivation;
use features::{FeatureName, NameFault};
use guiding::{Answer, Encoded, Searched, search_over};
use incompatibilities::{Id, Store};
use lockfile::LockContent;
use manifest::Manifest;
use model::walks_are_unique;
use numbering::{KnownProblem, Table};
use selection::preferred;
use std::alloc::{AllocError, Global};
use version_sets::{States, WordStates};

/// What solving comes to.
#[derive(Drop)]
pub enum Outcome {
    /// A valid selection.
    Selection(LockContent),
    /// Why there is none.
    Unsolvable(Derivation),
}

/// What a search came to, and what it took.
#[derive(Drop)]
pub struct Solved {
    pub outcome: Outcome,
    /// The assignments that there ever were, the conflicts that were resolved, and the combinations that these took: no
    /// fewer than the combinations of a derivation, and no fewer than the packages of a selection, where the root alone
    /// brings all of these: each has a vertex that was assigned. (Of a walk that was followed the search may not reach
    /// all: packages can hold one another in a ring.)
    pub steps: u64,
    /// The instances of axioms that came into its store: no fewer than those of a derivation.
    pub axioms: u64,
}

/// A valid selection for a manifest and a loaded index, where there is one: the preferred walk, where that is complete
/// and valid, else one of which the root alone brings all. Or a derivation that the checker accepts.
///
/// It searches until it knows, without a budget. Where the walk will do, the search decides as it says.
///
/// # Errors
/// Want of memory alone.
pub fn solve(
    alloc: Global,
    manifest: &Manifest,
    catalogue: &Catalogue,
) -> Result<Solved, AllocError>
    ensures solved { IfOk result
        (λ s. IsSolved (problem_in manifest.now catalogue.now) (preferred_in catalogue.now) s.outcome) }
    ensures steps { IfOk result (λ s. combinations_of (derivation_of s.outcome) ≤ s.steps) }
    ensures packages { IfOk result (λ s. HasStepEach (problem_in manifest.now catalogue.now) s.outcome s.steps) }
    ensures axioms { IfOk result (λ s. axioms_of (derivation_of s.outcome) ≤ s.axioms) }
{
    let default = default_name(alloc)?;
    let known = KnownProblem::new(alloc, manifest, catalogue, &default);
    walks_are_unique();
    catalogues_are_well_formed(manifest, catalogue);
    // Where there is one, the search decides as it says, and has nothing to go back from.
    let walk = preferred(alloc, manifest, catalogue)?;
    let searched: Searched<'_, WordStates> = search_over(alloc, known, walk)?;
    let steps = searched.found.steps;
    let axioms = axioms_in(&searched.store);
    let outcome = outcome_of(alloc, searched)?;
    Ok(Solved {
        outcome,
        steps,
        axioms,
    })
}

/// What a search comes to: the content that it followed, if there is one, else what it found.
///
/// What the root reaches in the end may be less than that content, where packages hold one another in a circle.
fn outcome_of<'a, S: States + Drop>(
    alloc: Global,
    searched: Searched<'a, S>,
) -> Result<Outcome, AllocError>
    requires { HasSearched searched.guide.problem searched.guide (trail_view S.tests searched.trail)
        (entries_view S.tests searched.store) searched.found.answer }
    ensures answer { IfOk result (λ o. IsAnswer searched.entry.guide.problem
        (length (trail_view S.tests searched.entry.trail).steps) searched.entry.guide.follows o) }
    ensures once { IfOk result (λ o. HasNoMore (entries_view S.tests searched.entry.store) (derivation_of o)) }
{
    if searched.guide.is_following() {
        Ok(followed(searched.guide))
    } else {
        found(alloc, searched.guide.known(), &searched)
    }
}

/// The content that was followed, as the selection.
fn followed<'a, S: States + Drop>(guide: Encoded<'a, S>) -> Outcome
    requires { is_some guide.follows ≡ true }
    ensures { IfSome guide.entry.follows (λ content. result ≡ Outcome.Selection content) }
{
    match guide.into_followed() {
        Some(content) => Outcome::Selection(content),
        None => unreachable!(),
    }
}

/// What a search found, as a content or a derivation.
fn found<'a, S: States + Drop>(
    alloc: Global,
    known: &KnownProblem<'a>,
    searched: &Searched<'a, S>,
) -> Result<Outcome, AllocError>
    requires { HasSearched (problem known.now) searched.now.guide (trail_view S.tests searched.now.trail)
        (entries_view S.tests searched.now.store) searched.now.found.answer }
    ensures found { IfOk result (λ o. IsFound (problem known.now)
        (length (trail_view S.tests searched.now.trail).steps) o) }
    ensures once { IfOk result (λ o. HasNoMore (entries_view S.tests searched.now.store) (derivation_of o)) }
{
    let table = searched.guide.table();
    match searched.found.answer {
        Answer::Selection => {
            let selected = content(alloc, known, table, &searched.trail)?;
            Ok(Outcome::Selection(selected))
        }
        Answer::Unsolvable(last) => {
            let derivation = why_unsolvable(alloc, known, table, &searched.store, last)?;
            Ok(Outcome::Unsolvable(derivation))
        }
    }
}

/// Why there is no selection, from an entry without terms.
fn why_unsolvable<'a, S: States + Drop>(
    alloc: Global,
    known: &KnownProblem<'a>,
    table: &Table<'a>,
    store: &Store<S>,
    last: Id,
) -> Result<Derivation, AllocError>
    requires numbering { IsNumbering (problem known.now) table.now }
    requires lies { LieSomewhere (entries_view S.tests store.now) }
    requires refutation { IsRefutation (entries_view S.tests store.now) last }
    requires given { AreGiven (IsOfInstance (problem known.now) table.now) (entries_view S.tests store.now) }
    ensures unsolvable { IfOk result (λ d. IsUnsolvable (problem known.now) d) }
    ensures once { IfOk result (λ d. HasNoMore (entries_view S.tests store.now) d) }
{
    parts_are_valid(known.problem.manifest, known.problem.catalogue);
    instances_have_their_kinds();
    accepted_derivations_refute(known.problem.manifest, known.problem.catalogue);
    refusal(alloc, known, table, store, last)
}

/// The name of the feature `default`.
fn default_name(alloc: Global) -> Result<FeatureName, AllocError>
    ensures { IfOk result (λ n. n ≡ codes "default") }
{
    match FeatureName::parse(alloc, "default") {
        Ok(name) => Ok(name),
        Err(NameFault::OutOfMemory) => Err(AllocError),
        Err(NameFault::NotAName) => unreachable!(),
    }
}
