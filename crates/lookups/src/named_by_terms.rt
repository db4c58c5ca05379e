//! What terms name: the first of each sort among them.

ghost use Rattle.std.specs.Prelude.{◌≡◌, option_map};
ghost use Rattle.model.specs.inner.Instances.{first_read, other_read, read_term, owner_read, version_read};
ghost use Rattle.model.specs.inner.Instances.{dep_read};
ghost use Rattle.model.specs.inner.Instances.{led_read, feature_read, on_read, off_read, ask_read};
ghost use Rattle.lookups.specs.inner.TermViews.{term_view, term_views};
ghost use Rattle.vertices.specs.inner.RefViews.{owner_ref_view};
ghost use Rattle.lookups.specs.inner.NamedByTerms.{version_seen, dep_seen, led_seen, other_seen, feature_seen};
ghost use Rattle.lookups.specs.inner.NamedByTerms.{text_seen};
ghost use Rattle.lookups.specs.inner.NamedByTerms.{ask_seen};

use crate::term::Term;
use classes::Class;
use features::{FeatureName, PackageName};
use semver::Version;
use vertices::{OwnerRef, StateRef, VertexRef};

/// The owner that holds.
fn owner_in<'a>(term: &Term<'a>) -> Option<OwnerRef<'a>>
    ensures { option_map owner_ref_view result ≡ read_term owner_read (term_view term.now) }
{
    match (term.vertex, term.states.first()) {
        (VertexRef::Root, _) => Some(OwnerRef::Root),
        (VertexRef::Package(name, _), Some(StateRef::Version(version))) => {
            Some(OwnerRef::Version(name, version))
        }
        _ => None,
    }
}

/// A version that holds.
fn version<'a>(term: &Term<'a>) -> Option<(&'a PackageName, &'a Version)>
    ensures { option_map version_seen result ≡ read_term version_read (term_view term.now) }
{
    match (term.vertex, term.states.first()) {
        (VertexRef::Package(name, _), Some(StateRef::Version(version))) => Some((name, version)),
        _ => None,
    }
}

/// The owner and number of a dependency.
fn dependency<'a>(term: &Term<'a>) -> Option<(OwnerRef<'a>, usize)>
    ensures { option_map dep_seen result ≡ read_term dep_read (term_view term.now) }
{
    match term.vertex {
        VertexRef::Dependency(owner, number) => Some((owner, number)),
        _ => None,
    }
}

/// The same with the class that it leads to.
fn led<'a>(term: &Term<'a>) -> Option<(OwnerRef<'a>, usize, Class)>
    ensures { option_map led_seen result ≡ read_term led_read (term_view term.now) }
{
    match (term.vertex, term.states.first()) {
        (VertexRef::Dependency(owner, number), Some(StateRef::Class(class))) => {
            Some((owner, number, class))
        }
        _ => None,
    }
}

/// The name, class and feature.
fn feature<'a>(term: &Term<'a>) -> Option<(&'a PackageName, Class, &'a FeatureName)>
    ensures { option_map feature_seen result ≡ read_term feature_read (term_view term.now) }
{
    match term.vertex {
        VertexRef::Feature(name, class, feature) => Some((name, class, feature)),
        _ => None,
    }
}

/// A feature that is on.
fn on<'a>(term: &Term<'a>) -> Option<&'a FeatureName>
    ensures { option_map text_seen result ≡ read_term on_read (term_view term.now) }
{
    match (term.vertex, term.states.first()) {
        (VertexRef::Feature(_, _, feature), Some(StateRef::Present)) => Some(feature),
        _ => None,
    }
}

/// A feature that is off.
fn off<'a>(term: &Term<'a>) -> Option<&'a FeatureName>
    ensures { option_map text_seen result ≡ read_term off_read (term_view term.now) }
{
    match (term.vertex, term.states.first()) {
        (VertexRef::Feature(_, _, feature), Some(StateRef::Absent)) => Some(feature),
        _ => None,
    }
}

/// The version, the number and the feature of an entry that asks.
fn ask<'a>(term: &Term<'a>) -> Option<(&'a PackageName, &'a Version, usize, &'a FeatureName)>
    ensures { option_map ask_seen result ≡ read_term ask_read (term_view term.now) }
{
    match term.vertex {
        VertexRef::Ask(name, version, number, feature) => Some((name, version, number, feature)),
        _ => None,
    }
}

/// The first owner that holds.
pub(crate) fn first_owner<'a>(terms: &[Term<'a>]) -> Option<OwnerRef<'a>>
    ensures { option_map owner_ref_view result ≡ first_read owner_read (term_views terms.now) }
{
    'terms: for term in terms.iter() {
        if let Some(found) = owner_in(term) {
            return Some(found);
        }
    }
    None
}

/// The first version that holds.
pub(crate) fn first_version<'a>(terms: &[Term<'a>]) -> Option<(&'a PackageName, &'a Version)>
    ensures { option_map version_seen result ≡ first_read version_read (term_views terms.now) }
{
    'terms: for term in terms.iter() {
        if let Some(found) = version(term) {
            return Some(found);
        }
    }
    None
}

/// The first dependency.
pub(crate) fn first_dependency<'a>(terms: &[Term<'a>]) -> Option<(OwnerRef<'a>, usize)>
    ensures { option_map dep_seen result ≡ first_read dep_read (term_views terms.now) }
{
    'terms: for term in terms.iter() {
        if let Some(found) = dependency(term) {
            return Some(found);
        }
    }
    None
}

/// The first dependency that leads to a class.
pub(crate) fn first_led<'a>(terms: &[Term<'a>]) -> Option<(OwnerRef<'a>, usize, Class)>
    ensures { option_map led_seen result ≡ first_read led_read (term_views terms.now) }
{
    'terms: for term in terms.iter() {
        if let Some(found) = led(term) {
            return Some(found);
        }
    }
    None
}

/// The first feature.
pub(crate) fn first_feature<'a>(
    terms: &[Term<'a>],
) -> Option<(&'a PackageName, Class, &'a FeatureName)>
    ensures { option_map feature_seen result ≡ first_read feature_read (term_views terms.now) }
{
    'terms: for term in terms.iter() {
        if let Some(found) = feature(term) {
            return Some(found);
        }
    }
    None
}

/// The first feature that is on.
pub(crate) fn first_on<'a>(terms: &[Term<'a>]) -> Option<&'a FeatureName>
    ensures { option_map text_seen result ≡ first_read on_read (term_views terms.now) }
{
    'terms: for term in terms.iter() {
        if let Some(found) = on(term) {
            return Some(found);
        }
    }
    None
}

/// The first feature that is off.
pub(crate) fn first_off<'a>(terms: &[Term<'a>]) -> Option<&'a FeatureName>
    ensures { option_map text_seen result ≡ first_read off_read (term_views terms.now) }
{
    'terms: for term in terms.iter() {
        if let Some(found) = off(term) {
            return Some(found);
        }
    }
    None
}

/// The first that asks.
pub(crate) fn first_ask<'a>(
    terms: &[Term<'a>],
) -> Option<(&'a PackageName, &'a Version, usize, &'a FeatureName)>
    ensures { option_map ask_seen result ≡ first_read ask_read (term_views terms.now) }
{
    'terms: for term in terms.iter() {
        if let Some(found) = ask(term) {
            return Some(found);
        }
    }
    None
}

/// A dependency with another number, and the class that it leads to.
fn other(number: usize, term: &Term<'_>) -> Option<(usize, Class)>
    ensures { option_map other_seen result ≡ read_term (other_read number) (term_view term.now) }
{
    let (_, found, class) = led(term)?;
    if found == number {
        None
    } else {
        Some((found, class))
    }
}

/// The first dependency with another number, and the class that it leads to.
pub(crate) fn first_other(number: usize, terms: &[Term<'_>]) -> Option<(usize, Class)>
    ensures { option_map other_seen result ≡ first_read (other_read number) (term_views terms.now) }
{
    'terms: for term in terms.iter() {
        if let Some(found) = other(number, term) {
            return Some(found);
        }
    }
    None
}
