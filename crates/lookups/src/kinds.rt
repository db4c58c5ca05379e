//! The one cause of a kind that terms can have.
//!
//! A step says its kind and its terms, and by these just one instance can be meant. Of each kind it is known which of
//! its terms names what: the owner, the dependency with its number, the class, the feature (`named_by_terms.rt`). So a
//! cause is read off the terms (`cause_in`), and need not be searched among all. `kinds.rt` goes through the kinds; one
//! that takes more than a function has a file of its name.
//!
//! What is hard is a term that isn't there. That of a dependency which no candidate serves is full and not written;
//! then it is the first such dependency among all of the owner's (`needed.rt`), or among those that the feature's
//! entries enable (`first_enabled.rt`). A derivation can have many such steps of a few bytes each, so each is looked
//! for once for an owner, or for a version and a feature, and remembered (`Numbers`). So are the entries by which
//! features enable dependencies (`first_enabling.rt`), since each of many steps can name another of one list.
//!
//! A layer above may rely on this: if terms are those of an instance of the kind at all, it is that of the cause found.
//! Whether what the cause names is there is left to `axioms`.

ghost use Rattle.std.specs.Prelude.{◌≡◌, option_map, IfOk};
ghost use Rattle.model.specs.inner.Instances.{asking_in, cause_in, entry_in, feature_in, target_in, weak_in};
ghost use Rattle.vertices.specs.Texts.{kind_view};
ghost use Rattle.lookups.specs.inner.CauseViews.{cause_view};
ghost use Rattle.lookups.specs.inner.TermViews.{term_views};
ghost use Rattle.lookups.specs.inner.NumbersViews.{problem_of};

use crate::cause::Cause;
use crate::feature_on_dependency::enabling_in;
use crate::named_by_terms::{
    first_ask, first_feature, first_led, first_off, first_on, first_version,
};
use crate::needed::need_in;
use crate::newest_listed::newest_in;
use crate::numbers::Numbers;
use crate::term::Term;
use crate::wants_feature::ask_or_list_in;
use std::alloc::{AllocError, Global};
use vertices::Kind;

/// The cause of the kind that the terms can have.
pub fn cause_in<'a>(
    alloc: Global,
    numbers: &mut Numbers<'a>,
    kind: Kind,
    terms: &[Term<'a>],
) -> Result<Option<Cause<'a>>, AllocError>
    ensures cause { IfOk result
        (λ c. option_map cause_view c ≡ cause_in (problem_of numbers.old) (kind_view kind) (term_views terms.now)) }
    ensures same { problem_of numbers.new ≡ problem_of numbers.old }
{
    match kind {
        Kind::Root => Ok(Some(Cause::Root)),
        Kind::Needed => need_in(numbers, terms),
        Kind::Target => Ok(target_in(terms)),
        Kind::HasFeature => Ok(feature_in(terms)),
        Kind::WantsFeature => Ok(ask_or_list_in(terms)),
        Kind::FeatureOnFeature => Ok(entry_in(terms)),
        Kind::FeatureOnDependency => enabling_in(alloc, numbers, terms),
        Kind::FeatureAsks => Ok(asking_in(terms)),
        Kind::NewestListed => Ok(newest_in(terms)),
        Kind::WeakFeature => Ok(weak_in(terms)),
    }
}

fn target_in<'a>(terms: &[Term<'a>]) -> Option<Cause<'a>>
    ensures { option_map cause_view result ≡ target_in (term_views terms.now) }
{
    let (owner, number, class) = first_led(terms)?;
    Some(Cause::Target(owner, number, class))
}

fn feature_in<'a>(terms: &[Term<'a>]) -> Option<Cause<'a>>
    ensures { option_map cause_view result ≡ feature_in (term_views terms.now) }
{
    let (name, class, feature) = first_feature(terms)?;
    Some(Cause::Feature(name, class, feature))
}

fn entry_in<'a>(terms: &[Term<'a>]) -> Option<Cause<'a>>
    ensures { option_map cause_view result ≡ entry_in (term_views terms.now) }
{
    let (name, version) = first_version(terms)?;
    let on = first_on(terms)?;
    let off = first_off(terms)?;
    Some(Cause::Entry(name, version, on, off))
}

fn asking_in<'a>(terms: &[Term<'a>]) -> Option<Cause<'a>>
    ensures { option_map cause_view result ≡ asking_in (term_views terms.now) }
{
    let (name, version) = first_version(terms)?;
    let on = first_on(terms)?;
    let (_, _, number, asked) = first_ask(terms)?;
    Some(Cause::Asking(name, version, on, asked, number))
}

fn weak_in<'a>(terms: &[Term<'a>]) -> Option<Cause<'a>>
    ensures { option_map cause_view result ≡ weak_in (term_views terms.now) }
{
    let (name, version) = first_version(terms)?;
    let on = first_on(terms)?;
    let off = first_off(terms)?;
    let (_, number, class) = first_led(terms)?;
    Some(Cause::Weak(name, version, on, off, number, class))
}
