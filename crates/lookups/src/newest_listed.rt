//! The cause of `NewestListed`: two dependencies of an owner, and a class for each.

ghost use Rattle.std.specs.Prelude.{◌≡◌, option_map};
ghost use Rattle.classes.specs.Classes.{class_view};
ghost use Rattle.model.specs.inner.Instances.{newest_in, newest_of};
ghost use Rattle.vertices.specs.inner.RefViews.{owner_ref_view};
ghost use Rattle.lookups.specs.inner.CauseViews.{cause_view};
ghost use Rattle.lookups.specs.inner.TermViews.{term_views};

use crate::cause::Cause;
use crate::named_by_terms::{first_led, first_other};
use crate::term::Term;
use classes::Class;
use vertices::OwnerRef;

pub(crate) fn newest_in<'a>(terms: &[Term<'a>]) -> Option<Cause<'a>>
    ensures { option_map cause_view result ≡ newest_in (term_views terms.now) }
{
    let (owner, number, class) = first_led(terms)?;
    let (other, other_class) = first_other(number, terms)?;
    Some(newest_of(owner, number, class, other, other_class))
}

/// The dependency with the lower class comes first.
fn newest_of(
    owner: OwnerRef<'_>,
    number: usize,
    class: Class,
    other: usize,
    other_class: Class,
) -> Cause<'_>
    ensures { cause_view result
        ≡ newest_of (owner_ref_view owner.entry) number (class_view class) other (class_view other_class) }
{
    if class.is_lower(other_class) {
        Cause::Newest(owner, number, other, class, other_class)
    } else {
        Cause::Newest(owner, other, number, other_class, class)
    }
}
