//! The instances that are added once a vertex has a state.

ghost use Rattle.std.specs.Prelude.{◌≡◌, ◌<◌, ◌++◌, ◌∷◌, [], true, Contains, List, Some, IfOk, OnOk, length};
ghost use Rattle.std.specs.Prelude.{slice_get};
ghost use Rattle.std.specs.List.{AllByRecursion};
ghost use Rattle.model.specs.Vertices.{Vertex, space};
ghost use Rattle.model.specs.Causes as causes;
ghost use Rattle.model.specs.Causes.{is_cause};
ghost use Rattle.numbering.specs.inner.AskedFor.{IsGivenFirst, IsGivenNext, IsNoted, KeepsNoted};
ghost use Rattle.numbering.specs.inner.Assignments.{state_at};
ghost use Rattle.numbering.specs.GivenViews.{cause_views, given_views};
ghost use Rattle.lookups.specs.inner.CauseViews.{cause_view};
ghost use Rattle.numbering.specs.inner.KnownProblem.{KnowsDefault, problem};
ghost use Rattle.numbering.specs.Numberings.{AddsOnly, IsGrown, IsNumbering};
ghost use Rattle.numbering.specs.Pairs.{AreGiven, IsCauseAt, IsGivenAt, IsSpokenOf, spoken_by};

use crate::instances::instance;
use crate::known_problem::KnownProblem;
use crate::noted::Noted;
use crate::pair_causes::{causes_asked, causes_at};
use crate::states::state_at;
use crate::table::Table;
use incompatibilities::Incompatibility;
use lookups::Cause;
use std::alloc::{AllocError, Global};
use version_sets::States;
use vertices::Kind;

/// The instances that have the vertex of this number in the state of this number as their first term, each once, with
/// its kind; their vertices get numbers where they have none, and no others do.
pub fn axioms_at<'a, S: States + Drop>(
    alloc: Global,
    known: &KnownProblem<'a>,
    table: &mut Table<'a>,
    number: usize,
    state: usize,
) -> Result<Vec<(Kind, Incompatibility<S>)>, AllocError>
    requires default { KnowsDefault known.now }
    requires numbering { IsNumbering (problem known.now) table.old }
    requires state { (v : Vertex) → slice_get table.old number ≡ Some v
        → state < length (space (problem known.now) v) }
    ensures grown { IsGrown table.old table.new }
    ensures numbering { IsNumbering (problem known.now) table.new }
    ensures only { (v : Vertex) → slice_get table.old number ≡ Some v → AddsOnly (IsSpokenOf (problem known.now)
        (IsCauseAt (problem known.now) (v, state_at (problem known.now) v state))) table.old table.new }
    ensures given { IfOk result (λ xs. (v : Vertex) → slice_get table.old number ≡ Some v → IsGivenAt
        (problem known.now) table.new (v, state_at (problem known.now) v state) (given_views S.tests xs.items)) }
{
    let Some(vertex) = table.vertex(number) else {
        return Ok(Vec::new(alloc));
    };
    let state = state_at(alloc, known, &vertex, state)?;
    let causes = causes_at(alloc, known, vertex, state)?;
    instances(alloc, known, table, causes.as_slice())
}

/// Of the same just those that come where no other pair was asked for: of a dependency in a class those that speak of
/// no other one. So what the class itself rules out is found before the other dependencies on the package are looked at.
pub fn first_axioms_at<'a, S: States + Drop>(
    alloc: Global,
    known: &KnownProblem<'a>,
    table: &mut Table<'a>,
    number: usize,
    state: usize,
) -> Result<Vec<(Kind, Incompatibility<S>)>, AllocError>
    requires default { KnowsDefault known.now }
    requires numbering { IsNumbering (problem known.now) table.old }
    requires state { (v : Vertex) → slice_get table.old number ≡ Some v
        → state < length (space (problem known.now) v) }
    ensures grown { IsGrown table.old table.new }
    ensures numbering { IsNumbering (problem known.now) table.new }
    ensures given { IfOk result (λ xs. (v : Vertex) → slice_get table.old number ≡ Some v → IsGivenFirst
        (problem known.now) table.new (v, state_at (problem known.now) v state) (given_views S.tests xs.items)) }
{
    let Some(vertex) = table.vertex(number) else {
        return Ok(Vec::new(alloc));
    };
    let state = state_at(alloc, known, &vertex, state)?;
    let causes = causes_asked(alloc, known, &[], vertex, state)?;
    instances(alloc, known, table, causes.as_slice())
}

/// Of the same those that a search needs which asks for one pair after another, and notes each: of a dependency in a
/// class, those that name another dependency in a class only where that pair was noted before, and then whichever of
/// the two they begin with.
pub fn next_axioms_at<'a, S: States + Drop>(
    alloc: Global,
    known: &KnownProblem<'a>,
    table: &mut Table<'a>,
    noted: &mut Noted<'a>,
    number: usize,
    state: usize,
) -> Result<Vec<(Kind, Incompatibility<S>)>, AllocError>
    requires default { KnowsDefault known.now }
    requires numbering { IsNumbering (problem known.now) table.old }
    requires state { (v : Vertex) → slice_get table.old number ≡ Some v
        → state < length (space (problem known.now) v) }
    ensures grown { IsGrown table.old table.new }
    ensures numbering { IsNumbering (problem known.now) table.new }
    ensures kept { KeepsNoted noted.old noted.new }
    ensures noted { OnOk result ((v : Vertex) → slice_get table.old number ≡ Some v
        → IsNoted (problem known.now) noted.new (v, state_at (problem known.now) v state)) }
    ensures given { IfOk result (λ xs. (v : Vertex) → slice_get table.old number ≡ Some v → IsGivenNext
        (problem known.now) table.new (IsNoted (problem known.now) noted.old)
        (v, state_at (problem known.now) v state) (given_views S.tests xs.items)) }
{
    let Some(vertex) = table.vertex(number) else {
        return Ok(Vec::new(alloc));
    };
    let state = state_at(alloc, known, &vertex, state)?;
    let those = noted.note(alloc, known, vertex, state)?;
    let causes = causes_asked(alloc, known, those.as_slice(), vertex, state)?;
    instances(alloc, known, table, causes.as_slice())
}

/// The instances of causes, each with its kind.
fn instances<'a, S: States + Drop>(
    alloc: Global,
    known: &KnownProblem<'a>,
    table: &mut Table<'a>,
    causes: &[Cause<'a>],
) -> Result<Vec<(Kind, Incompatibility<S>)>, AllocError>
    requires numbering { IsNumbering (problem known.now) table.old }
    requires there { AllByRecursion (λ c. is_cause (problem known.now) c ≡ true) (cause_views causes.now) }
    ensures grown { IsGrown table.old table.new }
    ensures numbering { IsNumbering (problem known.now) table.new }
    ensures only { AddsOnly (IsSpokenOf (problem known.now) (Contains (cause_views causes.now))) table.old table.new }
    ensures given { IfOk result
        (λ xs. AreGiven (problem known.now) table.new (cause_views causes.now) (given_views S.tests xs.items)) }
{
    let mut given = Vec::new(alloc);
    'causes: for cause in causes.iter() {
        put_instance(alloc, known, table, &mut given, cause)?;
    }
    Ok(given)
}

/// The instance of one cause; its vertices get numbers where they have none.
fn put_instance<'a, S: States + Drop>(
    alloc: Global,
    known: &KnownProblem<'a>,
    table: &mut Table<'a>,
    given: &mut Vec<(Kind, Incompatibility<S>)>,
    cause: &Cause<'a>,
) -> Result<(), AllocError>
    requires numbering { IsNumbering (problem known.now) table.old }
    requires there { is_cause (problem known.now) (cause_view cause.now) ≡ true }
    ensures grown { IsGrown table.old table.new }
    ensures numbering { IsNumbering (problem known.now) table.new }
    ensures only { AddsOnly (Contains (spoken_by (problem known.now) (cause_view cause.now))) table.old table.new }
    ensures given { OnOk result
        ((cs : List causes.Cause) → AreGiven (problem known.now) table.old cs (given_views S.tests given.old.items)
        → AreGiven (problem known.now) table.new (cs ++ cause_view cause.now ∷ [])
        (given_views S.tests given.new.items)) }
{
    let made = instance(alloc, known, table, cause)?;
    given.push((cause.kind(), made))?;
    Ok(())
}
