//! The text of a derivation.

ghost use Rattle.std.specs.Prelude.{◌≡◌, ◌++◌, IfOk, List, OnOk, codes, map, string_bytes};
ghost use Rattle.std.specs.List.{flat_map};
ghost use Rattle.std.specs.List.Sorted.{IsNonDecreasing};
ghost use Rattle.model.specs.Axioms as axioms;
ghost use Rattle.vertices.specs.Texts.{kind_view};
ghost use Rattle.derivations.specs.inner.Tables.{AreStepsOf, AreTermsOf, IsStepOf, IsTermOf, TablesView, step_at};
ghost use Rattle.derivations.specs.inner.Tables.{step_by_origin, steps_at, term_at, terms_at};
ghost use Rattle.explainer.specs.Explanations.{text_if, with_between, term_words, claim, kind_name, new_number};
ghost use Rattle.explainer.specs.Explanations.{origin_words, line, line_at, explanation_of};

use crate::needed::needed;
use crate::texts::{Texts, push_if};
use derivations::{Derivation, Origin, Step, Term};
use std::alloc::{AllocError, Global};
use vertices::Kind;

/// The needed steps of a derivation as a text: the last one, and each that a needed one combines, in order and numbered
/// from 1.
pub fn explain(alloc: Global, derivation: &Derivation) -> Result<String, AllocError>
    ensures { IfOk result (λ t. string_bytes t ≡ explanation_of derivation.now) }
{
    let needed = needed(alloc, derivation)?;
    let (tables, steps) = derivation.parts();
    let texts = Texts::new(alloc, tables)?;
    lines(alloc, &texts, steps, &needed)
}

/// The lines of the steps of these numbers.
fn lines(
    alloc: Global,
    texts: &Texts<'_>,
    steps: &[Step],
    needed: &[usize],
) -> Result<String, AllocError>
    requires needed { IsNonDecreasing needed.now }
    requires steps { AreStepsOf texts.now steps.now }
    ensures { IfOk result
        (λ t. string_bytes t ≡ flat_map (line_at needed.now (steps_at texts.now steps.now)) needed.now) }
{
    let mut text = String::new(alloc);
    'needed: for number in needed {
        push_line_at(&mut text, texts, steps, needed, *number)?;
    }
    Ok(text)
}

/// The line of the step of this number.
fn push_line_at(
    text: &mut String,
    texts: &Texts<'_>,
    steps: &[Step],
    needed: &[usize],
    number: usize,
) -> Result<(), AllocError>
    requires needed { IsNonDecreasing needed.now }
    requires steps { AreStepsOf texts.now steps.now }
    ensures { OnOk result
        (string_bytes text.new ≡ string_bytes text.old ++ line_at needed.now (steps_at texts.now steps.now) number) }
{
    match steps.get(number) {
        Some(step) => push_line(text, texts, needed, number, step),
        None => Ok(()),
    }
}

/// The line of a needed step.
fn push_line(
    text: &mut String,
    texts: &Texts<'_>,
    needed: &[usize],
    number: usize,
    step: &Step,
) -> Result<(), AllocError>
    requires needed { IsNonDecreasing needed.now }
    requires step { IsStepOf texts.now step.now }
    ensures { OnOk result
        (string_bytes text.new ≡ string_bytes text.old ++ line needed.now number (step_at texts.now step.now)) }
{
    let own = new_number(needed, number as u64);
    write!(text, "{own}: ")?;
    push_claim(text, texts, &step.terms)?;
    text.push_str(", ")?;
    push_origin(text, needed, &step.origin)?;
    text.push_str("\n")
}

/// What can't all hold.
fn push_claim(text: &mut String, texts: &Texts<'_>, terms: &[Term]) -> Result<(), AllocError>
    requires { AreTermsOf texts.now terms.now }
    ensures { OnOk result (string_bytes text.new ≡ string_bytes text.old ++ claim (terms_at texts.now terms.now)) }
{
    if terms.is_empty() {
        text.push_str("no selection is left")
    } else {
        text.push_str("never ")?;
        push_terms(text, texts, terms)
    }
}

fn push_terms(text: &mut String, texts: &Texts<'_>, terms: &[Term]) -> Result<(), AllocError>
    requires { AreTermsOf texts.now terms.now }
    ensures { OnOk result (string_bytes text.new
        ≡ string_bytes text.old ++ with_between (codes " and ") (map term_words (terms_at texts.now terms.now))) }
{
    let mut later = false;
    'terms: for term in terms {
        push_term(text, later, texts, term)?;
        later = true;
    }
    Ok(())
}

/// A term, after `and` if it is a later one.
fn push_term(
    text: &mut String,
    later: bool,
    texts: &Texts<'_>,
    term: &Term,
) -> Result<(), AllocError>
    requires { IsTermOf texts.now term.now }
    ensures { OnOk result (string_bytes text.new
        ≡ string_bytes text.old ++ (text_if later (codes " and ") ++ term_words (term_at texts.now term.now))) }
{
    push_if(text, later, " and ")?;
    text.push_str(texts.vertex(term.vertex))?;
    text.push_str(" in {")?;
    text.push_str(texts.set(term.states))?;
    text.push_str("}")
}

fn push_origin(
    text: &mut String,
    needed: &[usize],
    origin: &Origin<usize>,
) -> Result<(), AllocError>
    requires { IsNonDecreasing needed.now }
    ensures { OnOk result ((t : TablesView) (terms : List axioms.Term) → string_bytes text.new
        ≡ string_bytes text.old ++ origin_words needed.now (step_by_origin t origin.now terms)) }
{
    match origin {
        Origin::Axiom(kind) => {
            let name = kind_name(*kind);
            write!(text, "as {kind} {name}")
        }
        Origin::Combination(first, second, _) => {
            let first = new_number(needed, *first);
            let second = new_number(needed, *second);
            write!(text, "from {first} and {second}")
        }
    }
}

/// The number of a needed step among the needed ones, from 1.
fn new_number(needed: &[usize], step: u64) -> usize
    requires { IsNonDecreasing needed.now }
    ensures { result ≡ new_number needed.now step }
{
    needed.partition_point(|n| (*n as u64) < step) + 1
}

fn kind_name(kind: Kind) -> &'static str
    ensures { result.now ≡ kind_name (kind_view kind) }
{
    match kind {
        Kind::Root => "root",
        Kind::Needed => "needed",
        Kind::Target => "target",
        Kind::HasFeature => "has feature",
        Kind::WantsFeature => "wants feature",
        Kind::FeatureOnFeature => "feature on feature",
        Kind::FeatureOnDependency => "feature on dependency",
        Kind::FeatureAsks => "feature asks",
        Kind::NewestListed => "newest listed",
        Kind::WeakFeature => "weak feature",
    }
}
