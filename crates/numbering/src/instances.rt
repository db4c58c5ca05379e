//! Instances of axioms as incompatibilities over numbers.

ghost use Rattle.std.specs.Prelude.{◌≡◌, ◌++◌, ◌∷◌, ◌≤◌, ◌+◌, [], true, false, length, replicate, Contains, List, IfOk};
ghost use Rattle.std.specs.Prelude.{OnOk};
ghost use Rattle.std.specs.List.{AllByRecursion};
ghost use Rattle.terms.specs.Terms.{terms_view};
ghost use Rattle.model.specs.Causes.{is_cause, terms_of_cause};
ghost use Rattle.lookups.specs.inner.CauseViews.{cause_view};
ghost use Rattle.numbering.specs.inner.KnownProblem.{problem};
ghost use Rattle.numbering.specs.Numberings.{AddsOnly, IsGrown, IsNumbering, Says};
ghost use Rattle.numbering.specs.Pairs.{spoken_by};
ghost use Rattle.numbering.specs.inner.TestedTerms.{AreOfTested, IsFitting, TestedTerm as TestedView, tested_view};
ghost use Rattle.numbering.specs.inner.TestedTerms.{lone_view, range_view, states_view, tested_views, vertices_of};

use crate::known_problem::KnownProblem;
use crate::making::made_of;
use crate::space_tests::{Lone, Range, Tests};
use crate::table::Table;
use crate::tested_terms::{TestedTerm, terms_tested};
use catalogue::catalogues_are_well_formed;
use incompatibilities::Incompatibility;
use lookups::Cause;
use std::alloc::{AllocError, Global};
use terms::Term;
use version_sets::States;

/// The instance that a cause gives rise to; its vertices get numbers where they have none.
pub fn instance<'a, S: States + Drop>(
    alloc: Global,
    known: &KnownProblem<'a>,
    table: &mut Table<'a>,
    cause: &Cause<'a>,
) -> Result<Incompatibility<S>, AllocError>
    requires numbering { IsNumbering (problem known.now) table.old }
    requires there { is_cause (problem known.now) (cause_view cause.now) ≡ true }
    ensures grown { IsGrown table.old table.new }
    ensures numbering { IsNumbering (problem known.now) table.new }
    ensures only { AddsOnly (Contains (spoken_by (problem known.now) (cause_view cause.now))) table.old table.new }
    ensures says { IfOk result (λ i. Says (problem known.now) table.new (terms_view S.tests i)
        (terms_of_cause (problem known.now) (cause_view cause.now))) }
{
    catalogues_are_well_formed(known.problem.manifest, known.problem.catalogue);
    let _ = known.problem.catalogue.names();
    let tested_terms = terms_tested(alloc, known, cause)?;
    let terms = put_all_tested(alloc, known, table, tested_terms.as_slice())?;
    Ok(made_of(terms))
}

/// Gives the vertices numbers, and makes a term of each.
fn put_all_tested<'a, S: States + Drop>(
    alloc: Global,
    known: &KnownProblem<'a>,
    table: &mut Table<'a>,
    tested_terms: &[TestedTerm<'a>],
) -> Result<Vec<Term<S>>, AllocError>
    requires numbering { IsNumbering (problem known.now) table.old }
    requires fit { AllByRecursion (IsFitting (problem known.now)) (tested_views tested_terms.now) }
    ensures grown { IsGrown table.old table.new }
    ensures numbering { IsNumbering (problem known.now) table.new }
    ensures only { AddsOnly (Contains (vertices_of (tested_views tested_terms.now))) table.old table.new }
    ensures terms { IfOk result
        (λ ts. AreOfTested table.new (terms_view S.tests ts.items) (tested_views tested_terms.now)) }
{
    let mut terms = Vec::new(alloc);
    'tested_terms: for tested_term in tested_terms.iter() {
        put_tested(alloc, known, table, &mut terms, tested_term)?;
    }
    Ok(terms)
}

/// Gives a vertex its number, and makes a term of its tests.
fn put_tested<'a, S: States + Drop>(
    alloc: Global,
    known: &KnownProblem<'a>,
    table: &mut Table<'a>,
    terms: &mut Vec<Term<S>>,
    tested_term: &TestedTerm<'a>,
) -> Result<(), AllocError>
    requires numbering { IsNumbering (problem known.now) table.old }
    requires fit { IsFitting (problem known.now) (tested_view tested_term.now) }
    ensures grown { IsGrown table.old table.new }
    ensures numbering { IsNumbering (problem known.now) table.new }
    ensures only { AddsOnly (λ v. (tested_view tested_term.now).0 ≡ v) table.old table.new }
    ensures terms { OnOk result ((ps : List TestedView) → AreOfTested table.old (terms_view S.tests terms.old.items) ps
        → AreOfTested table.new (terms_view S.tests terms.new.items) (ps ++ tested_view tested_term.now ∷ [])) }
{
    let vertex = table.put(tested_term.vertex)?;
    let states = set_of(alloc, &tested_term.tests)?;
    terms.push(Term { vertex, states })?;
    Ok(())
}

fn set_of<S: States + Drop>(alloc: Global, tests: &Tests) -> Result<S, AllocError>
    requires { length (states_view tests.now) ≤ 65536 }
    ensures { IfOk result (λ s. S.tests s ≡ states_view tests.now) }
{
    match tests {
        Tests::Each(tests) => S::of_tests(alloc, tests.as_slice()),
        Tests::One(lone) => one_of(alloc, lone),
        Tests::Range(range) => set_of_range(alloc, range),
    }
}

/// One of so many states, or none if it lies past them.
fn one_of<S: States + Drop>(alloc: Global, lone: &Lone) -> Result<S, AllocError>
    requires { lone.now.states ≤ 65536 }
    ensures { IfOk result (λ s. S.tests s ≡ lone_view lone.now) }
{
    if lone.state < lone.states {
        S::single(alloc, lone.states as u32, lone.state as u32)
    } else {
        S::empty(alloc, lone.states as u32)
    }
}

/// The states in a range, or the others.
fn set_of_range<S: States + Drop>(alloc: Global, range: &Range) -> Result<S, AllocError>
    requires { range.now.before + (range.now.within + range.now.after) ≤ 65536 }
    ensures { IfOk result (λ s. S.tests s ≡ range_view range.now) }
{
    let within: S = states_within(alloc, range)?;
    if range.inside {
        Ok(within)
    } else {
        within.complement(alloc)
    }
}

/// The states in a range.
fn states_within<S: States + Drop>(alloc: Global, range: &Range) -> Result<S, AllocError>
    requires { range.now.before + (range.now.within + range.now.after) ≤ 65536 }
    ensures { IfOk result (λ s. S.tests s ≡ replicate range.now.before false
        ++ (replicate range.now.within true ++ replicate range.now.after false)) }
{
    let from = range.before as u32;
    let to = from + range.within as u32;
    S::of_range(alloc, to + range.after as u32, from, to)
}
