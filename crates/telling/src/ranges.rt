//! Versions as ranges over the candidates of a name, in words.

ghost use Rattle.std.specs.Prelude.{◌≡◌, ◌<◌, ◌++◌, OnOk, codes, length, map, string_bytes};
ghost use Rattle.std.specs.List.{list_all};
ghost use Rattle.semver.specs.Identifiers.{parts_of};
ghost use Rattle.telling.specs.inner.Words as words;
ghost use Rattle.telling.specs.inner.Words.{before_words, runs_words, span_words, spans_words, text_at, versions_words};

use crate::spans::{Span, spans_of};
use features::PackageName;
use semver::Version;
use std::alloc::{AllocError, Global};

/// The marked versions of a name: `a 1.0.0, 1.2.0 to 1.4.3 or 2.0.0`, or `every version of a`, with the word given for
/// `every`. The marks stand at the places of the versions.
pub(crate) fn push_versions(
    alloc: Global,
    text: &mut String,
    name: &PackageName,
    versions: &[Version],
    marks: &[bool],
    every: &str,
) -> Result<(), AllocError>
    ensures { OnOk result (string_bytes text.new
        ≡ string_bytes text.old ++ versions_words every.now name.now (map parts_of versions.now) marks.now) }
{
    if is_every(marks) {
        return write!(text, "{every} version of {name}");
    }
    let spans = spans_of(alloc, marks)?;
    push_runs(text, name, versions, &spans)
}

/// Whether several versions are marked, and none isn't.
pub(crate) fn is_every(marks: &[bool]) -> bool
    ensures { result ≡ words.is_every marks.now }
{
    marks.len() > 1 && are_all(marks)
}

fn are_all(marks: &[bool]) -> bool
    ensures { result ≡ list_all (λ mark. mark) marks.now }
{
    marks.iter().all(|mark| *mark)
}

/// Runs of these versions behind the name, or that there are none.
fn push_runs(
    text: &mut String,
    name: &PackageName,
    versions: &[Version],
    spans: &[Span],
) -> Result<(), AllocError>
    ensures { OnOk result
        (string_bytes text.new ≡ string_bytes text.old ++ runs_words name.now (map parts_of versions.now) spans.now) }
{
    if spans.is_empty() {
        return write!(text, "no version of {name}");
    }
    write!(text, "{name} ")?;
    push_spans(text, versions, spans)
}

#[tactic(auto, unfolding(crate::specs::inner::Words::spans_words))]
fn push_spans(text: &mut String, versions: &[Version], spans: &[Span]) -> Result<(), AllocError>
    ensures { OnOk result (string_bytes text.new
        ≡ string_bytes text.old ++ spans_words (map parts_of versions.now) (length spans.now) 0 spans.now) }
{
    'spans: for (place, span) in spans.iter().enumerate() {
        push_one(text, versions, spans.len(), place, *span)?;
    }
    Ok(())
}

/// A run, and what stands before it.
fn push_one(
    text: &mut String,
    versions: &[Version],
    count: usize,
    place: usize,
    span: Span,
) -> Result<(), AllocError>
    requires { place < count }
    ensures { OnOk result (string_bytes text.new ≡ string_bytes text.old
        ++ (before_words (codes "or") place count ++ span_words (map parts_of versions.now) span)) }
{
    push_before(text, place, count, "or")?;
    push_span(text, versions, span)
}

/// `1.0.0` or `1.0.0 to 1.2.0`.
fn push_span(text: &mut String, versions: &[Version], span: Span) -> Result<(), AllocError>
    ensures { OnOk result
        (string_bytes text.new ≡ string_bytes text.old ++ span_words (map parts_of versions.now) span) }
{
    push_version(text, versions, span.first)?;
    if span.first == span.last {
        return Ok(());
    }
    text.push_str(" to ")?;
    push_version(text, versions, span.last)
}

fn push_version(text: &mut String, versions: &[Version], place: usize) -> Result<(), AllocError>
    ensures { OnOk result (string_bytes text.new ≡ string_bytes text.old ++ text_at (map parts_of versions.now) place) }
{
    match versions.get(place) {
        Some(version) => write!(text, "{version}"),
        None => Ok(()),
    }
}

/// What stands before one of several things: a comma, or the word before the last one.
pub(crate) fn push_before(
    text: &mut String,
    place: usize,
    count: usize,
    word: &str,
) -> Result<(), AllocError>
    requires { place < count }
    ensures { OnOk result (string_bytes text.new ≡ string_bytes text.old ++ before_words word.now place count) }
{
    if place == 0 {
        Ok(())
    } else if place + 1 < count {
        text.push_str(", ")
    } else {
        write!(text, " {word} ")
    }
}
