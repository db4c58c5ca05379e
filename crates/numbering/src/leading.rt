//! The causes of the instances that are added once a dependency leads to a class.

ghost use Rattle.std.specs.Prelude.{◌≡◌, ◌++◌, ◌∷◌, [], Some, OnOk, map, codes, if◌then◌else◌};
ghost use Rattle.classes.specs.Classes.{class_view};
ghost use Rattle.features.specs.Views.{dependency_view};
ghost use Rattle.model.specs.Summary.{asked_of_target};
ghost use Rattle.model.specs.Causes.{dependency_at, of_list};
ghost use Rattle.numbering.specs.inner.Asked.{asked_so, features_of};
ghost use Rattle.numbering.specs.GivenViews.{cause_views};
ghost use Rattle.numbering.specs.inner.AskedFor.{asked_leads, noted_views};
ghost use Rattle.numbering.specs.inner.CausesAt.{alone_causes, lead_causes, root_asked};
ghost use Rattle.numbering.specs.inner.KnownProblem.{KnowsDefault, problem};
ghost use Rattle.vertices.specs.inner.RefViews.{owner_ref_view};

use crate::asked::{Asked, Wanted};
use crate::known_problem::KnownProblem;
use crate::newest::{put_both, put_newest};
use classes::Class;
use features::{DependencyParts, FeatureName};
use lookups::{Cause, dependency_at};
use std::alloc::{AllocError, Global};
use vertices::OwnerRef;

/// A dependency of an owner by its number, and a class that it leads to.
#[derive(Clone, Copy)]
pub(crate) struct Lead<'a> {
    pub(crate) owner: OwnerRef<'a>,
    pub(crate) number: usize,
    pub(crate) class: Class,
}

/// What a dependency gives that leads to a class: nothing where it isn't there.
pub(crate) fn put_lead<'a>(
    alloc: Global,
    known: &KnownProblem<'a>,
    causes: &mut Vec<Cause<'a>>,
    lead: Lead<'a>,
) -> Result<(), AllocError>
    requires default { KnowsDefault known.now }
    ensures { OnOk result (cause_views causes.new.items ≡ cause_views causes.old.items ++ lead_causes
        (problem known.now) (owner_ref_view lead.entry.owner) lead.entry.number (class_view lead.entry.class)
        (dependency_at (problem known.now) (owner_ref_view lead.entry.owner) lead.entry.number)) }
{
    match dependency_at(&known.problem, &lead.owner, lead.number) {
        Some(dependency) => put_leading(alloc, known, causes, lead, dependency),
        None => Ok(()),
    }
}

/// Its target, the features that it asks for by its list, and the dependencies on the same package that may lead to a
/// higher class.
fn put_leading<'a>(
    alloc: Global,
    known: &KnownProblem<'a>,
    causes: &mut Vec<Cause<'a>>,
    lead: Lead<'a>,
    dependency: &'a DependencyParts,
) -> Result<(), AllocError>
    requires default { KnowsDefault known.now }
    ensures { OnOk result (cause_views causes.new.items ≡ cause_views causes.old.items
        ++ lead_causes (problem known.now) (owner_ref_view lead.entry.owner) lead.entry.number
        (class_view lead.entry.class) (Some (dependency_view dependency.entry.now))) }
{
    put_alone(alloc, known, causes, lead, dependency)?;
    put_newest(alloc, known, causes, lead, dependency)
}

/// What a dependency gives that leads to a class, with those alone that were asked for before: nothing where it isn't
/// there.
pub(crate) fn put_asked_lead<'a>(
    alloc: Global,
    known: &KnownProblem<'a>,
    those: &[(usize, Class)],
    causes: &mut Vec<Cause<'a>>,
    lead: Lead<'a>,
) -> Result<(), AllocError>
    requires default { KnowsDefault known.now }
    ensures { OnOk result (cause_views causes.new.items ≡ cause_views causes.old.items ++ asked_leads
        (problem known.now) (noted_views those.now) (owner_ref_view lead.entry.owner) lead.entry.number
        (class_view lead.entry.class)
        (dependency_at (problem known.now) (owner_ref_view lead.entry.owner) lead.entry.number)) }
{
    match dependency_at(&known.problem, &lead.owner, lead.number) {
        Some(dependency) => put_asked_leading(alloc, known, those, causes, lead, dependency),
        None => Ok(()),
    }
}

/// What it gives by itself, and with those that were asked for before.
fn put_asked_leading<'a>(
    alloc: Global,
    known: &KnownProblem<'a>,
    those: &[(usize, Class)],
    causes: &mut Vec<Cause<'a>>,
    lead: Lead<'a>,
    dependency: &'a DependencyParts,
) -> Result<(), AllocError>
    requires default { KnowsDefault known.now }
    ensures { OnOk result (cause_views causes.new.items ≡ cause_views causes.old.items
        ++ asked_leads (problem known.now) (noted_views those.now) (owner_ref_view lead.entry.owner)
        lead.entry.number (class_view lead.entry.class) (Some (dependency_view dependency.entry.now))) }
{
    put_alone(alloc, known, causes, lead, dependency)?;
    put_both(known, those, causes, lead)
}

/// Its target, and the features that it asks for by its list.
fn put_alone<'a>(
    alloc: Global,
    known: &KnownProblem<'a>,
    causes: &mut Vec<Cause<'a>>,
    lead: Lead<'a>,
    dependency: &'a DependencyParts,
) -> Result<(), AllocError>
    requires default { KnowsDefault known.now }
    ensures { OnOk result (cause_views causes.new.items ≡ cause_views causes.old.items
        ++ alone_causes (problem known.now) (owner_ref_view lead.entry.owner) lead.entry.number
        (class_view lead.entry.class) (Some (dependency_view dependency.entry.now))) }
{
    causes.push(Cause::Target(lead.owner, lead.number, lead.class))?;
    put_lists(alloc, known, causes, lead, dependency)
}

/// The features that it asks for.
fn put_lists<'a>(
    alloc: Global,
    known: &KnownProblem<'a>,
    causes: &mut Vec<Cause<'a>>,
    lead: Lead<'a>,
    dependency: &'a DependencyParts,
) -> Result<(), AllocError>
    requires default { KnowsDefault known.now }
    ensures { OnOk result (cause_views causes.new.items ≡ cause_views causes.old.items
        ++ map (of_list (owner_ref_view lead.entry.owner) lead.entry.number (class_view lead.entry.class))
        (asked_of_target (dependency_view dependency.entry.now) ++ root_asked (problem known.now)
        (owner_ref_view lead.entry.owner) (dependency_view dependency.entry.now))) }
{
    put_own_list(known, causes, lead, dependency)?;
    put_root_lists(alloc, known, causes, lead, dependency)
}

/// Those of its own list, and `default`.
fn put_own_list<'a>(
    known: &KnownProblem<'a>,
    causes: &mut Vec<Cause<'a>>,
    lead: Lead<'a>,
    dependency: &'a DependencyParts,
) -> Result<(), AllocError>
    requires default { KnowsDefault known.now }
    ensures { OnOk result (cause_views causes.new.items ≡ cause_views causes.old.items
        ++ map (of_list (owner_ref_view lead.entry.owner) lead.entry.number (class_view lead.entry.class))
        (asked_of_target (dependency_view dependency.entry.now))) }
{
    put_listed(causes, lead, dependency.features.as_slice())?;
    put_default(known, causes, lead, dependency)
}

/// The feature `default`, where it asks for default features.
fn put_default<'a>(
    known: &KnownProblem<'a>,
    causes: &mut Vec<Cause<'a>>,
    lead: Lead<'a>,
    dependency: &DependencyParts,
) -> Result<(), AllocError>
    requires default { KnowsDefault known.now }
    ensures { OnOk result (cause_views causes.new.items ≡ cause_views causes.old.items
        ++ (if (dependency_view dependency.now).default_features then of_list (owner_ref_view lead.entry.owner)
        lead.entry.number (class_view lead.entry.class) (codes "default") ∷ [] else [])) }
{
    if dependency.default_features {
        causes.push(Cause::List(lead.owner, lead.number, lead.class, known.default))?;
    }
    Ok(())
}

/// The features that it lists.
fn put_listed<'a>(
    causes: &mut Vec<Cause<'a>>,
    lead: Lead<'a>,
    features: &'a [FeatureName],
) -> Result<(), AllocError>
    ensures { OnOk result (cause_views causes.new.items ≡ cause_views causes.old.items ++ map (of_list
        (owner_ref_view lead.entry.owner) lead.entry.number (class_view lead.entry.class)) features.entry.now) }
{
    'features: for feature in features.iter() {
        causes.push(Cause::List(lead.owner, lead.number, lead.class, feature))?;
    }
    Ok(())
}

/// Those that entries of the root's features ask it for.
fn put_root_lists<'a>(
    alloc: Global,
    known: &KnownProblem<'a>,
    causes: &mut Vec<Cause<'a>>,
    lead: Lead<'a>,
    dependency: &'a DependencyParts,
) -> Result<(), AllocError>
    ensures { OnOk result (cause_views causes.new.items ≡ cause_views causes.old.items
        ++ map (of_list (owner_ref_view lead.entry.owner) lead.entry.number (class_view lead.entry.class))
        (root_asked (problem known.now) (owner_ref_view lead.entry.owner) (dependency_view dependency.entry.now))) }
{
    match lead.owner {
        OwnerRef::Root => put_root_asked(alloc, known, causes, lead, dependency.name.as_str()),
        OwnerRef::Version(_, _) => Ok(()),
    }
}

/// Those that the dependencies called so are asked for: no entry is looked at for each of them.
fn put_root_asked<'a>(
    alloc: Global,
    known: &KnownProblem<'a>,
    causes: &mut Vec<Cause<'a>>,
    lead: Lead<'a>,
    name: &'a str,
) -> Result<(), AllocError>
    ensures { OnOk result (cause_views causes.new.items ≡ cause_views causes.old.items
        ++ map (of_list (owner_ref_view lead.entry.owner) lead.entry.number (class_view lead.entry.class))
        (asked_so name.entry.now (problem known.now).root_asks)) }
{
    match known.matched.asked() {
        Some(asked) => put_asked(causes, lead, name, asked),
        None => {
            let asked = Asked::of(alloc, known.problem.manifest.features())?;
            put_asked(causes, lead, name, &asked)
        }
    }
}

/// Those that are found under this name.
fn put_asked<'a>(
    causes: &mut Vec<Cause<'a>>,
    lead: Lead<'a>,
    name: &'a str,
    asked: &Asked<'a>,
) -> Result<(), AllocError>
    ensures { OnOk result (cause_views causes.new.items ≡ cause_views causes.old.items
        ++ map (of_list (owner_ref_view lead.entry.owner) lead.entry.number (class_view lead.entry.class))
        (asked_so name.entry.now asked.now)) }
{
    match asked.those(name) {
        Some(features) => put_each_asked(causes, lead, features),
        None => Ok(()),
    }
}

fn put_each_asked<'a>(
    causes: &mut Vec<Cause<'a>>,
    lead: Lead<'a>,
    features: &[Wanted<'a>],
) -> Result<(), AllocError>
    ensures { OnOk result (cause_views causes.new.items ≡ cause_views causes.old.items
        ++ map (of_list (owner_ref_view lead.entry.owner) lead.entry.number (class_view lead.entry.class))
        (features_of features.now)) }
{
    'features: for wanted in features.iter() {
        causes.push(Cause::List(lead.owner, lead.number, lead.class, wanted.feature))?;
    }
    Ok(())
}
