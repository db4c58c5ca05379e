//! Writing derivations.

ghost use Rattle.std.specs.Prelude.{◌≡◌, ◌<◌, ◌≤◌, ◌++◌, List, Ok, length, IfOk, OnOk, codes, decimal, map};
ghost use Rattle.std.specs.Prelude.{string_bytes};
ghost use Rattle.model.specs.Axioms as axioms;
ghost use Rattle.vertices.specs.Texts.{vertex_text, kind_text, kind_view};
ghost use Rattle.derivations.specs.Files.{derivation_of_bytes, most_steps};
ghost use Rattle.derivations.specs.inner.Tables.{AreStatesOf, AreStepsOf, AreTermsOf, IsOriginOf, IsStepOf, IsTermOf};
ghost use Rattle.derivations.specs.inner.Tables.{state_at, states_at, step_at, step_by_origin, steps_at, term_at};
ghost use Rattle.derivations.specs.inner.Tables.{terms_at};
ghost use Rattle.derivations.specs.inner.Tables.{vertex_at};
ghost use Rattle.derivations.specs.Written.{quoted, comma_if, with_commas, state_json, term_json, combination_json};
ghost use Rattle.derivations.specs.Written.{origin_json, step_json, lines_of};

use crate::derivation::Derivation;
use crate::step::{Origin, Step, Term};
use crate::tables::Tables;
use std::alloc::{AllocError, Global};
use vertices::Kind;

/// The bytes of a derivation of any length: a line of compact JSON for each step. `read` takes them back, unless there
/// are more lines than it reads.
pub fn write(alloc: Global, derivation: &Derivation) -> Result<Vec<u8>, AllocError>
    ensures text { IfOk result (λ v. v.items ≡ lines_of derivation.now) }
    ensures reads { IfOk result
        (λ v. length derivation.now ≤ most_steps → derivation_of_bytes v.items ≡ Ok derivation.now) }
{
    let (tables, steps) = derivation.parts();
    let text = text_of(alloc, tables, steps)?;
    Ok(text.into_bytes())
}

fn text_of(alloc: Global, tables: &Tables, steps: &[Step]) -> Result<String, AllocError>
    requires { AreStepsOf tables.now steps.now }
    ensures { IfOk result (λ t. string_bytes t ≡ lines_of (steps_at tables.now steps.now)) }
{
    let mut text = String::new(alloc);
    'steps: for step in steps {
        push_line(&mut text, tables, step)?;
    }
    Ok(text)
}

/// The JSON object of a step, and the end of its line.
fn push_line(text: &mut String, tables: &Tables, step: &Step) -> Result<(), AllocError>
    requires { IsStepOf tables.now step.now }
    ensures { OnOk result
        (string_bytes text.new ≡ string_bytes text.old ++ (step_json (step_at tables.now step.now) ++ codes "\n")) }
{
    push_step(text, tables, step)?;
    text.push_str("\n")
}

/// The JSON object of a step.
fn push_step(text: &mut String, tables: &Tables, step: &Step) -> Result<(), AllocError>
    requires { IsStepOf tables.now step.now }
    ensures { OnOk result (string_bytes text.new ≡ string_bytes text.old ++ step_json (step_at tables.now step.now)) }
{
    text.push_str("{")?;
    push_origin(text, tables, &step.origin)?;
    text.push_str(",\"terms\":[")?;
    push_terms(text, tables, &step.terms)?;
    text.push_str("]}")
}

/// The key `axiom` or `combine` with its value.
fn push_origin(text: &mut String, tables: &Tables, origin: &Origin<usize>) -> Result<(), AllocError>
    requires { IsOriginOf tables.now origin.now }
    ensures { OnOk result ((terms : List axioms.Term)
        → string_bytes text.new ≡ string_bytes text.old ++ origin_json (step_by_origin tables.now origin.now terms)) }
{
    match origin {
        Origin::Axiom(kind) => push_kind(text, *kind),
        Origin::Combination(first, second, vertex) => {
            push_combination(text, tables, *first, *second, *vertex)
        }
    }
}

fn push_kind(text: &mut String, kind: Kind) -> Result<(), AllocError>
    ensures { OnOk result
        (string_bytes text.new ≡ string_bytes text.old ++ (codes "\"axiom\":" ++ quoted (kind_text (kind_view kind)))) }
{
    write!(text, "\"axiom\":\"{kind}\"")
}

/// The key `combine`: two numbers of steps and a vertex.
fn push_combination(
    text: &mut String,
    tables: &Tables,
    first: u64,
    second: u64,
    vertex: usize,
) -> Result<(), AllocError>
    requires { vertex < length tables.now.vertices }
    ensures { OnOk result
        (string_bytes text.new ≡ string_bytes text.old ++ combination_json first second (vertex_at tables.now vertex)) }
{
    text.push_str("\"combine\":[")?;
    push_number(text, first)?;
    push_number(text, second)?;
    push_vertex(text, tables, vertex)
}

fn push_vertex(text: &mut String, tables: &Tables, vertex: usize) -> Result<(), AllocError>
    requires { vertex < length tables.now.vertices }
    ensures { OnOk result (string_bytes text.new
        ≡ string_bytes text.old ++ (quoted (vertex_text (vertex_at tables.now vertex)) ++ codes "]")) }
{
    push_quoted(text, tables.vertex_text(vertex))?;
    text.push_str("]")
}

fn push_quoted(text: &mut String, inner: &str) -> Result<(), AllocError>
    ensures { OnOk result (string_bytes text.new ≡ string_bytes text.old ++ quoted inner.now) }
{
    text.push_str("\"")?;
    text.push_str(inner)?;
    text.push_str("\"")
}

/// A number and a comma.
fn push_number(text: &mut String, number: u64) -> Result<(), AllocError>
    ensures { OnOk result (string_bytes text.new ≡ string_bytes text.old ++ (decimal number ++ codes ",")) }
{
    write!(text, "{number},")
}

/// The terms, with commas between them.
fn push_terms(text: &mut String, tables: &Tables, terms: &[Term]) -> Result<(), AllocError>
    requires { AreTermsOf tables.now terms.now }
    ensures { OnOk result
        (string_bytes text.new ≡ string_bytes text.old ++ with_commas (map term_json (terms_at tables.now terms.now))) }
{
    let mut later = false;
    'terms: for term in terms {
        push_term(text, later, tables, term)?;
        later = true;
    }
    Ok(())
}

/// A term, after a comma if it is a later one.
fn push_term(text: &mut String, later: bool, tables: &Tables, term: &Term) -> Result<(), AllocError>
    requires { IsTermOf tables.now term.now }
    ensures { OnOk result
        (string_bytes text.new ≡ string_bytes text.old ++ (comma_if later ++ term_json (term_at tables.now term.now))) }
{
    push_comma(text, later)?;
    text.push_str("[")?;
    push_quoted(text, tables.vertex_text(term.vertex))?;
    text.push_str(",[")?;
    push_states(text, tables, tables.set(term.states))?;
    text.push_str("]]")
}

fn push_comma(text: &mut String, later: bool) -> Result<(), AllocError>
    ensures { OnOk result (string_bytes text.new ≡ string_bytes text.old ++ comma_if later) }
{
    if later { text.push_str(",") } else { Ok(()) }
}

/// The states, with commas between them.
fn push_states(text: &mut String, tables: &Tables, states: &[usize]) -> Result<(), AllocError>
    requires { AreStatesOf tables.now states.now }
    ensures { OnOk result (string_bytes text.new
        ≡ string_bytes text.old ++ with_commas (map state_json (states_at tables.now states.now))) }
{
    let mut later = false;
    'states: for number in states {
        push_state(text, later, tables, *number)?;
        later = true;
    }
    Ok(())
}

/// A state, after a comma if it is a later one.
fn push_state(
    text: &mut String,
    later: bool,
    tables: &Tables,
    number: usize,
) -> Result<(), AllocError>
    requires { number < length tables.now.states }
    ensures { OnOk result
        (string_bytes text.new ≡ string_bytes text.old ++ (comma_if later ++ state_json (state_at tables.now number))) }
{
    push_comma(text, later)?;
    push_quoted(text, tables.state_text(number))
}
