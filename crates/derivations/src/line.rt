//! Reading a line as a step.

ghost use Rattle.std.specs.Prelude.{◌≡◌, IfOk, OnOk, length, map};
ghost use Rattle.std.specs.List.Sorted.{IsPermutation};
ghost use Rattle.trees.specs.Trees.{tree_view, trees_view};
ghost use Rattle.serde_json.specs.Find as json;
ghost use Rattle.model.specs.Outcome.{Gives, guard};
ghost use Rattle.vertices.specs.Orders.{state_cmp};
ghost use Rattle.derivations.specs.inner.Earlier.{AreEarlier, IsReading, term_from};
ghost use Rattle.derivations.specs.Orders.{ordered};
ghost use Rattle.derivations.specs.Steps.{states_in, states_of, written_cmp, term_of, terms_in, terms_of, axiom_of};
ghost use Rattle.derivations.specs.Steps.{combination_of, origin_of, is_backward, step_of, step_of_line};
ghost use Rattle.derivations.specs.inner.StepViews.{written_term, written_view, written_views, origin_view};
ghost use Rattle.derivations.specs.Lines.{line_wants_memory};
ghost use Rattle.derivations.specs.inner.Tables.{AreTermsOf, IsGrown, IsStepOf, IsTermOf, TablesView, step_at, term_at};
ghost use Rattle.derivations.specs.inner.Tables.{terms_at};
ghost use Rattle.vertices.specs.Views.{vertex_view, state_views};
ghost use Rattle.derivations.specs.inner.Views.{term_view};

use crate::earlier::{Earlier, Places};
use crate::fault::LineFault;
use crate::keeping_read::{WholeTerm, keep_origin, keep_term};
use crate::spelt::SpeltVertex;
use crate::step::{Origin, Step, Term};
use crate::tables::Tables;
use crate::texts::{read_state, read_vertex};
use crate::values::{array, item, no_item, read_json, text, two, whole};
use std::alloc::{AllocError, Global};
use std::cmp::Ordering;
use trees::{Scratch, Tree, member, root};
use vertices::{Kind, State, Vertex, state_order};

/// A term and the text of its vertex.
#[derive(Clone, Copy)]
pub(crate) struct WrittenTerm<'a> {
    pub text: &'a str,
    pub term: Term,
}

/// The step that a line after these steps is. The room is kept from line to line.
#[tactic(auto, unfolding(crate::specs::Steps::step_of_line))]
pub(crate) fn read_step(
    alloc: Global,
    tables: &mut Tables,
    steps: &[Step],
    line: &[u8],
    scratch: &mut Scratch,
) -> Result<Step, LineFault>
    requires { IsReading tables.old steps.now }
    ensures grown { OnOk result (IsGrown tables.old tables.new) }
    ensures within { IfOk result (IsStepOf tables.new) }
    ensures step { Gives line_wants_memory (step_at tables.new) result (step_of_line (length steps.now) line.now) }
{
    let tape = read_json(alloc, line, scratch)?;
    step(alloc, tables, steps, &root(&tape))
}

/// The step that the value of a line is, after these steps.
#[tactic(auto, unfolding(crate::specs::Steps::step_of))]
fn step(
    alloc: Global,
    tables: &mut Tables,
    steps: &[Step],
    value: &Tree<'_, '_>,
) -> Result<Step, LineFault>
    requires { IsReading tables.old steps.now }
    ensures grown { OnOk result (IsGrown tables.old tables.new) }
    ensures within { IfOk result (IsStepOf tables.new) }
    ensures step { Gives line_wants_memory (step_at tables.new) result
        (step_of (length steps.now) (tree_view value.now)) }
{
    let origin = origin(alloc, value)?;
    let terms = terms(
        alloc,
        tables,
        Earlier::of(steps, origin.references()),
        value,
    )?;
    check(is_backward(steps.len(), &origin), LineFault::Forward)?;
    let origin = keep_origin(tables, origin)?;
    Ok(Step { origin, terms })
}

fn check(passes: bool, why: LineFault) -> Result<(), LineFault>
    ensures { Gives line_wants_memory (λ u. u) result (guard passes why) }
{
    if passes { Ok(()) } else { Err(why) }
}

/// Whether an origin refers to steps before this number alone.
fn is_backward(number: usize, origin: &Origin<SpeltVertex>) -> bool
    ensures { result ≡ is_backward number (origin_view origin.now) }
{
    match origin {
        Origin::Axiom(_) => true,
        Origin::Combination(first, second, _) => {
            *first < number as u64 && *second < number as u64
        }
    }
}

/// What `axiom` or `combine` says: just one of them is there.
fn origin(alloc: Global, value: &Tree<'_, '_>) -> Result<Origin<SpeltVertex>, LineFault>
    ensures { Gives line_wants_memory origin_view result (origin_of (tree_view value.now)) }
{
    match (member(value, "axiom"), member(value, "combine")) {
        (Some(kind), None) => axiom(&kind),
        (None, Some(parts)) => combination(alloc, &parts),
        _ => Err(LineFault::NotALine),
    }
}

#[tactic(auto, unfolding(crate::specs::Steps::axiom_of))]
fn axiom(value: &Tree<'_, '_>) -> Result<Origin<SpeltVertex>, LineFault>
    ensures { Gives line_wants_memory origin_view result (axiom_of (tree_view value.now)) }
{
    match Kind::of_code(text(value)?) {
        Some(kind) => Ok(Origin::Axiom(kind)),
        None => Err(LineFault::NotALine),
    }
}

/// `[A,B,"VERTEX"]`
#[tactic(auto, unfolding(crate::specs::Steps::combination_of))]
fn combination(alloc: Global, value: &Tree<'_, '_>) -> Result<Origin<SpeltVertex>, LineFault>
    ensures { Gives line_wants_memory origin_view result (combination_of (tree_view value.now)) }
{
    let first = whole(&item(value, 0)?)?;
    let second = whole(&item(value, 1)?)?;
    let vertex = read_vertex(alloc, text(&item(value, 2)?)?)?;
    no_item(value, 3)?;
    Ok(Origin::Combination(first, second, vertex))
}

/// The terms by the bytes of their vertices' texts, no vertex twice.
#[tactic(auto, unfolding(crate::specs::Steps::terms_of))]
fn terms(
    alloc: Global,
    tables: &mut Tables,
    earlier: Earlier<'_>,
    value: &Tree<'_, '_>,
) -> Result<Vec<Term>, LineFault>
    requires { AreEarlier tables.old earlier }
    ensures grown { OnOk result (IsGrown tables.old tables.new) }
    ensures within { IfOk result (λ v. AreTermsOf tables.new v.items) }
    ensures terms { Gives line_wants_memory (λ v. terms_at tables.new v.items) result (terms_of (tree_view value.now)) }
{
    let Some(found) = member(value, "terms") else {
        return Err(LineFault::NotALine);
    };
    let written = terms_in(alloc, tables, earlier, &array(alloc, &found)?)?;
    let sorted = ordered_terms(written)?;
    Ok(without_texts(alloc, &sorted)?)
}

/// The terms as they are written, in any order.
#[tactic(auto, unfolding(crate::specs::Steps::terms_in))]
fn terms_in<'a>(
    alloc: Global,
    tables: &mut Tables,
    earlier: Earlier<'_>,
    values: &Vec<Tree<'_, 'a>>,
) -> Result<Vec<WrittenTerm<'a>>, LineFault>
    requires { AreEarlier tables.old earlier }
    ensures grown { OnOk result (IsGrown tables.old tables.new) }
    ensures within { IfOk result (λ v. AreTermsOf tables.new (map written_term v.items)) }
    ensures terms { Gives line_wants_memory
        (λ v. written_views tables.new v.items) result (terms_in (trees_view values.now.items)) }
{
    let mut found = Vec::with_capacity(alloc, values.len())?;
    let mut places = Places::new();
    'items: for value in values.iter() {
        found.push(term(alloc, tables, earlier, &mut places, value)?)?;
    }
    Ok(found)
}

/// `["VERTEX",["STATE",..]]`
#[tactic(auto, unfolding(crate::specs::Steps::term_of))]
fn term<'a>(
    alloc: Global,
    tables: &mut Tables,
    earlier: Earlier<'_>,
    places: &mut Places,
    value: &Tree<'_, 'a>,
) -> Result<WrittenTerm<'a>, LineFault>
    requires { AreEarlier tables.old earlier }
    ensures grown { OnOk result (IsGrown tables.old tables.new) }
    ensures within { IfOk result (λ w. IsTermOf tables.new w.term) }
    ensures term { Gives line_wants_memory (written_view tables.new) result (term_of (tree_view value.now)) }
{
    let (vertex, states) = two(value)?;
    let text = text(&vertex)?;
    let term = found_or_new(alloc, tables, earlier, places, text, &states)?;
    Ok(WrittenTerm { text, term })
}

/// The term of a vertex's text and of its states: an earlier one, if it is found there.
fn found_or_new(
    alloc: Global,
    tables: &mut Tables,
    earlier: Earlier<'_>,
    places: &mut Places,
    text: &str,
    states: &Tree<'_, '_>,
) -> Result<Term, LineFault>
    requires { AreEarlier tables.old earlier }
    ensures grown { OnOk result (IsGrown tables.old tables.new) }
    ensures within { IfOk result (IsTermOf tables.new) }
    ensures term { Gives line_wants_memory (term_at tables.new) result (term_from text.now (tree_view states.now)) }
{
    if let Some(term) = earlier.find(alloc, tables, places, text, states) {
        return Ok(term);
    }
    let whole = whole_term(alloc, text, states)?;
    Ok(keep_term(alloc, tables, whole)?)
}

#[tactic(auto, unfolding(crate::specs::inner::Earlier::term_from))]
fn whole_term(alloc: Global, text: &str, value: &Tree<'_, '_>) -> Result<WholeTerm, LineFault>
    ensures { Gives line_wants_memory term_view result (term_from text.now (tree_view value.now)) }
{
    let vertex = read_vertex(alloc, text)?;
    let states = states(alloc, vertex.vertex(), value)?;
    Ok(WholeTerm { vertex, states })
}

/// The terms in order, no vertex twice. Those of a line that was written here are.
fn ordered_terms(terms: Vec<WrittenTerm<'_>>) -> Result<Vec<WrittenTerm<'_>>, LineFault>
    ensures same { IfOk result (λ v. IsPermutation terms.entry.items v.items) }
    ensures terms { (t : TablesView) → Gives line_wants_memory
        (λ v. written_views t v.items) result (ordered written_cmp (written_views t terms.entry.items)) }
{
    if terms.is_sorted_by(|a, b| a.text.cmp(b.text) == Ordering::Less) {
        Ok(terms)
    } else {
        sorted_terms(terms)
    }
}

/// Sorts the terms: two at one vertex are a fault.
fn sorted_terms(mut terms: Vec<WrittenTerm<'_>>) -> Result<Vec<WrittenTerm<'_>>, LineFault>
    ensures same { IfOk result (λ v. IsPermutation terms.entry.items v.items) }
    ensures terms { (t : TablesView) → Gives line_wants_memory
        (λ v. written_views t v.items) result (ordered written_cmp (written_views t terms.entry.items)) }
{
    terms.sort_by(|a, b| a.text.cmp(b.text))?;
    if terms.is_sorted_by(|a, b| a.text.cmp(b.text) == Ordering::Less) {
        Ok(terms)
    } else {
        Err(LineFault::NotALine)
    }
}

fn without_texts(alloc: Global, written: &[WrittenTerm<'_>]) -> Result<Vec<Term>, AllocError>
    ensures { IfOk result (λ v. v.items ≡ map written_term written.now) }
{
    let mut terms = Vec::with_capacity(alloc, written.len())?;
    'written: for one in written {
        terms.push(one.term)?;
    }
    Ok(terms)
}

/// The states in order, none twice.
#[tactic(auto, unfolding(crate::specs::Steps::states_of))]
fn states(alloc: Global, vertex: &Vertex, value: &Tree<'_, '_>) -> Result<Vec<State>, LineFault>
    ensures { Gives line_wants_memory
        (λ v. state_views v.items) result (states_of (vertex_view vertex.now) (tree_view value.now)) }
{
    let written = states_in(alloc, vertex, &array(alloc, value)?)?;
    ordered_states(written)
}

#[tactic(auto, unfolding(crate::specs::Steps::states_in))]
fn states_in(
    alloc: Global,
    vertex: &Vertex,
    values: &Vec<Tree<'_, '_>>,
) -> Result<Vec<State>, LineFault>
    ensures { Gives line_wants_memory
        (λ v. state_views v.items) result (states_in (vertex_view vertex.now) (trees_view values.now.items)) }
{
    let mut found = Vec::with_capacity(alloc, values.len())?;
    'items: for value in values.iter() {
        found.push(read_state(alloc, vertex, text(value)?)?)?;
    }
    Ok(found)
}

/// The states in order, none twice. Those of a line that was written here are.
fn ordered_states(states: Vec<State>) -> Result<Vec<State>, LineFault>
    ensures { Gives line_wants_memory (λ v. state_views v.items) result (ordered state_cmp (state_views states.items)) }
{
    if states.is_sorted_by(|a, b| state_order(a.borrowed(), b.borrowed()) == Ordering::Less) {
        Ok(states)
    } else {
        sorted_states(states)
    }
}

/// Sorts the states: one that comes twice is a fault.
fn sorted_states(mut states: Vec<State>) -> Result<Vec<State>, LineFault>
    ensures { Gives line_wants_memory (λ v. state_views v.items) result (ordered state_cmp (state_views states.items)) }
{
    states.sort_by(|a, b| state_order(a.borrowed(), b.borrowed()))?;
    if states.is_sorted_by(|a, b| state_order(a.borrowed(), b.borrowed()) == Ordering::Less) {
        Ok(states)
    } else {
        Err(LineFault::NotALine)
    }
}
