//! Versions as ranges over the candidates of a name.

ghost use Rattle.std.specs.Prelude.{◌≡◌, ◌↔◌, ◌++◌, ℕ, IfOk, OnOk, Some, true, slice_get};
ghost use Rattle.telling.specs.inner.Spans as spans;
ghost use Rattle.telling.specs.inner.Spans.{IsInOne, extended, run_after, spans_of, spans_put};

use std::alloc::{AllocError, Global};

/// Places that follow one another, from the first to the last.
#[derive(Clone, Copy, Debug)]
pub struct Span {
    pub first: usize,
    pub last: usize,
}

/// The runs of marks: a place is in one of them exactly where it is marked.
pub fn spans_of(alloc: Global, marks: &[bool]) -> Result<Vec<Span>, AllocError>
    ensures spans { IfOk result (λ v. v.items ≡ spans_of marks.now) }
    ensures marked { IfOk result (λ v. (place : ℕ) → IsInOne v.items place ↔ (slice_get marks.now place ≡ Some true)) }
{
    let spans = runs_of(alloc, marks)?;
    Ok(spans)
}

#[tactic(auto, unfolding(crate::specs::inner::Spans::spans_from))]
fn runs_of(alloc: Global, marks: &[bool]) -> Result<Vec<Span>, AllocError>
    ensures { IfOk result (λ v. v.items ≡ spans_of marks.now) }
{
    let mut found = Vec::new(alloc);
    let mut run = None;
    'marks: for (place, mark) in marks.iter().enumerate() {
        push_if_ended(&mut found, run, *mark)?;
        run = run_after(run, place, *mark);
    }
    push_if_ended(&mut found, run, false)?;
    Ok(found)
}

/// Adds the run that is open, if it ends here.
fn push_if_ended(found: &mut Vec<Span>, run: Option<Span>, goes_on: bool) -> Result<(), AllocError>
    ensures { OnOk result (found.new.items ≡ found.old.items ++ spans_put run goes_on) }
{
    match run {
        Some(span) => {
            if !goes_on {
                found.push(span)?;
            }
        }
        None => {}
    }
    Ok(())
}

/// The run that is open after a place.
fn run_after(run: Option<Span>, place: usize, mark: bool) -> Option<Span>
    ensures { result ≡ run_after run place mark }
{
    if mark {
        Some(extended(run, place))
    } else {
        None
    }
}

/// The run that is open and goes on to a place, or one that begins there.
fn extended(run: Option<Span>, place: usize) -> Span
    ensures { result ≡ extended run place }
{
    match run {
        Some(span) => Span {
            first: span.first,
            last: place,
        },
        None => Span {
            first: place,
            last: place,
        },
    }
}
