//! Whether terms are those of an instance of an axiom.

ghost use Rattle.std.specs.Prelude.{◌≡◌, IfOk};
ghost use Rattle.vertices.specs.Texts.{kind_view};
ghost use Rattle.model.specs.inner.Instances.{is_instance, is_its};
ghost use Rattle.lookups.specs.inner.CauseViews.{cause_view};
ghost use Rattle.axioms.specs.inner.GatheredViews.{problem_of};
ghost use Rattle.lookups.specs.inner.TermViews.{term_views};

use crate::gathered::Gathered;
use crate::instances::instance_terms;
use crate::kinds::is_cause;
use crate::listed::keep_list_of;
use lookups::{Cause, Term, cause_in, same_terms};
use std::alloc::{AllocError, Global};
use vertices::Kind;

/// Whether terms, without the full ones, are those of an instance of the kind. What is found for it is kept for the
/// steps to come.
///
/// # Errors
/// Want of memory.
pub fn is_instance<'a>(
    alloc: Global,
    gathered: &mut Gathered<'a>,
    kind: Kind,
    terms: &[Term<'a>],
) -> Result<bool, AllocError>
    ensures instance { IfOk result
        (λ b. b ≡ is_instance (problem_of gathered.old) (kind_view kind) (term_views terms.now)) }
    ensures same { problem_of gathered.new ≡ problem_of gathered.old }
{
    match cause_in(alloc, &mut gathered.numbers, kind, terms)? {
        Some(cause) => is_its(alloc, gathered, terms, &cause),
        None => Ok(false),
    }
}

/// Whether the cause is there, and the terms are those of its instance.
fn is_its<'a>(
    alloc: Global,
    gathered: &mut Gathered<'a>,
    terms: &[Term<'a>],
    cause: &Cause<'a>,
) -> Result<bool, AllocError>
    ensures its { IfOk result
        (λ b. b ≡ is_its (problem_of gathered.old) (term_views terms.now) (cause_view cause.now)) }
    ensures same { problem_of gathered.new ≡ problem_of gathered.old }
{
    gathered.kept.keep(alloc, cause)?;
    keep_list_of(alloc, gathered, cause)?;
    let its = instance_terms(alloc, &mut gathered.kept, cause)?;
    Ok(is_cause(gathered, cause) && same_terms(terms, &its))
}
