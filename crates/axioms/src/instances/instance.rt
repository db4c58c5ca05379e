//! The terms of a cause's instance, without the full ones.

ghost use Rattle.std.specs.Prelude.{◌≡◌, IfOk};
ghost use Rattle.model.specs.Axioms.{without_full};
ghost use Rattle.model.specs.Causes.{terms_of_cause};
ghost use Rattle.axioms.specs.inner.KeptViews.{problem_of};
ghost use Rattle.lookups.specs.inner.CauseViews.{cause_view};
ghost use Rattle.lookups.specs.inner.TermViews.{term_views};

use crate::instances::full_terms::without_full;
use crate::instances::kept::Kept;
use crate::instances::kinds::terms_of_cause;
use crate::instances::lacking::on_alone;
use lookups::{Cause, Term};
use std::alloc::{AllocError, Global};

/// The terms of the instance that a cause gives rise to, without the full ones.
///
/// # Errors
/// Want of memory.
pub fn instance_terms<'a>(
    alloc: Global,
    kept: &mut Kept<'a>,
    cause: &Cause<'a>,
) -> Result<Vec<Term<'a>>, AllocError>
    ensures terms { IfOk result (λ v. term_views v.items ≡ without_full (problem_of kept.old)
        (terms_of_cause (problem_of kept.old) (cause_view cause.now))) }
    ensures same { problem_of kept.new ≡ problem_of kept.old }
{
    match *cause {
        Cause::Feature(name, class, feature) if kept.lacks(name, class, feature) => {
            on_alone(alloc, name, class, feature)
        }
        _ => {
            let terms = terms_of_cause(alloc, kept, cause)?;
            without_full(alloc, kept, terms)
        }
    }
}
