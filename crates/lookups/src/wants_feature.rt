//! The cause of `WantsFeature`: a dependency, a class and a feature that it asks for, by an entry or by its list.

ghost use Rattle.std.specs.Prelude.{◌≡◌, option_map};
ghost use Rattle.std.specs.Option.{option_or};
ghost use Rattle.model.specs.inner.Instances.{ask_in, list_in};
ghost use Rattle.lookups.specs.inner.CauseViews.{cause_view};
ghost use Rattle.lookups.specs.inner.TermViews.{term_views};

use crate::cause::Cause;
use crate::named_by_terms::{first_ask, first_led, first_off};
use crate::term::Term;

pub(crate) fn ask_or_list_in<'a>(terms: &[Term<'a>]) -> Option<Cause<'a>>
    ensures { option_map cause_view result
        ≡ option_or (ask_in (term_views terms.now)) (list_in (term_views terms.now)) }
{
    match ask_in(terms) {
        Some(cause) => Some(cause),
        None => list_in(terms),
    }
}

fn ask_in<'a>(terms: &[Term<'a>]) -> Option<Cause<'a>>
    ensures { option_map cause_view result ≡ ask_in (term_views terms.now) }
{
    let (name, version, number, feature) = first_ask(terms)?;
    let (_, _, class) = first_led(terms)?;
    Some(Cause::Ask(name, version, number, feature, class))
}

fn list_in<'a>(terms: &[Term<'a>]) -> Option<Cause<'a>>
    ensures { option_map cause_view result ≡ list_in (term_views terms.now) }
{
    let (owner, number, class) = first_led(terms)?;
    let feature = first_off(terms)?;
    Some(Cause::List(owner, number, class, feature))
}
