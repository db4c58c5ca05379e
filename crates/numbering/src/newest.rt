//! The causes of the instances that two dependencies of an owner give that are on one package: that neither leads to a
//! class where it might lead to the higher one of the other.

ghost use Rattle.std.specs.Prelude.{◌≡◌, ◌++◌, OnOk, map};
ghost use Rattle.std.specs.List.{flat_map};
ghost use Rattle.classes.specs.Classes.{class_view};
ghost use Rattle.features.specs.Views.{dependency_view, dependency_views};
ghost use Rattle.model.specs.Content.{passes};
ghost use Rattle.model.specs.Vertices.{owner_brings};
ghost use Rattle.model.specs.Causes.{dependency_at, is_cause, is_overtaken, of_newest};
ghost use Rattle.numbering.specs.inner.AskedFor.{both_of, newest_of, noted_views};
ghost use Rattle.numbering.specs.inner.CausesAt.{each_from, newest_if, overtaken_if};
ghost use Rattle.numbering.specs.GivenViews.{cause_views};
ghost use Rattle.numbering.specs.inner.KnownProblem.{problem};
ghost use Rattle.numbering.specs.inner.OnPackage.{is_other};
ghost use Rattle.vertices.specs.inner.RefViews.{owner_ref_view};

use crate::known_problem::KnownProblem;
use crate::leading::Lead;
use crate::possible_classes::classes_of;
use classes::Class;
use features::{Dependency, DependencyParts, PackageName};
use lookups::{Cause, dependencies_of, dependency_at, has_class};
use std::alloc::{AllocError, Global};

/// What a dependency that leads to a class gives with each other one, in each higher class.
pub(crate) fn put_newest<'a>(
    alloc: Global,
    known: &KnownProblem<'a>,
    causes: &mut Vec<Cause<'a>>,
    lead: Lead<'a>,
    dependency: &'a DependencyParts,
) -> Result<(), AllocError>
    ensures { OnOk result (cause_views causes.new.items ≡ cause_views causes.old.items
        ++ each_from (newest_if (problem known.now) (owner_ref_view lead.entry.owner) lead.entry.number
        (class_view lead.entry.class) (dependency_view dependency.entry.now)) 0
        (owner_brings (problem known.now) (owner_ref_view lead.entry.owner)).dependencies) }
{
    let all = dependencies_of(&known.problem, &lead.owner);
    put_newest_among(alloc, known, causes, lead, dependency, all)
}

/// The same, where all dependencies of the owner are given.
fn put_newest_among<'a>(
    alloc: Global,
    known: &KnownProblem<'a>,
    causes: &mut Vec<Cause<'a>>,
    lead: Lead<'a>,
    dependency: &'a DependencyParts,
    all: &'a [Dependency],
) -> Result<(), AllocError>
    ensures { OnOk result (cause_views causes.new.items ≡ cause_views causes.old.items
        ++ each_from (newest_if (problem known.now) (owner_ref_view lead.entry.owner) lead.entry.number
        (class_view lead.entry.class) (dependency_view dependency.entry.now)) 0 (dependency_views all.entry.now)) }
{
    'dependencies: for (number, other) in all.iter().enumerate() {
        put_newest_with(alloc, known, causes, lead, dependency, number, other)?;
    }
    Ok(())
}

/// What it gives with one, if that is another one on the same package.
fn put_newest_with<'a>(
    alloc: Global,
    known: &KnownProblem<'a>,
    causes: &mut Vec<Cause<'a>>,
    lead: Lead<'a>,
    dependency: &'a DependencyParts,
    number: usize,
    other: &'a DependencyParts,
) -> Result<(), AllocError>
    ensures { OnOk result (cause_views causes.new.items ≡ cause_views causes.old.items
        ++ newest_if (problem known.now) (owner_ref_view lead.entry.owner) lead.entry.number
        (class_view lead.entry.class) (dependency_view dependency.entry.now) number
        (dependency_view other.entry.now)) }
{
    if !is_other(lead.number, &dependency.real_name, number, other) {
        return Ok(());
    }
    let classes = classes_of(alloc, known, other)?;
    put_newest_in(known, causes, lead, dependency, number, classes.as_slice())
}

/// What it gives with another one in each of these classes, to which that may lead.
fn put_newest_in<'a>(
    known: &KnownProblem<'a>,
    causes: &mut Vec<Cause<'a>>,
    lead: Lead<'a>,
    dependency: &'a DependencyParts,
    number: usize,
    classes: &[Class],
) -> Result<(), AllocError>
    ensures { OnOk result (cause_views causes.new.items ≡ cause_views causes.old.items
        ++ flat_map (overtaken_if (problem known.now) (owner_ref_view lead.entry.owner) lead.entry.number
        (class_view lead.entry.class) (dependency_view dependency.entry.now) number) (map class_view classes.now)) }
{
    'classes: for class in classes.iter() {
        put_overtaken(known, causes, lead, dependency, number, *class)?;
    }
    Ok(())
}

/// Whether a dependency is another one than that of the number, on the same package.
pub(crate) fn is_other(
    number: usize,
    name: &PackageName,
    place: usize,
    other: &DependencyParts,
) -> bool
    ensures { result ≡ is_other number name.now place (dependency_view other.now) }
{
    number != place && *name == other.real_name
}

/// What it gives with another one in a class: nothing unless that is higher, and it may lead there too.
fn put_overtaken<'a>(
    known: &KnownProblem<'a>,
    causes: &mut Vec<Cause<'a>>,
    lead: Lead<'a>,
    dependency: &DependencyParts,
    number: usize,
    higher: Class,
) -> Result<(), AllocError>
    ensures { OnOk result (cause_views causes.new.items ≡ cause_views causes.old.items
        ++ overtaken_if (problem known.now) (owner_ref_view lead.entry.owner) lead.entry.number
        (class_view lead.entry.class) (dependency_view dependency.now) number (class_view higher)) }
{
    if lead.class.is_lower(higher) && has_class(&known.problem, higher, dependency) {
        causes.push(Cause::Newest(lead.owner, lead.number, number, lead.class, higher))?;
    }
    Ok(())
}

/// What it gives with those that were asked for, whichever of the two classes is higher.
pub(crate) fn put_both<'a>(
    known: &KnownProblem<'a>,
    those: &[(usize, Class)],
    causes: &mut Vec<Cause<'a>>,
    lead: Lead<'a>,
) -> Result<(), AllocError>
    ensures { OnOk result (cause_views causes.new.items ≡ cause_views causes.old.items
        ++ flat_map (both_of (problem known.now) (owner_ref_view lead.entry.owner) lead.entry.number
        (class_view lead.entry.class)) (noted_views those.now)) }
{
    'those: for (number, class) in those.iter() {
        let other = Lead {
            owner: lead.owner,
            number: *number,
            class: *class,
        };
        put_both_with(known, causes, lead, other)?;
    }
    Ok(())
}

/// The same with one of them.
fn put_both_with<'a>(
    known: &KnownProblem<'a>,
    causes: &mut Vec<Cause<'a>>,
    lead: Lead<'a>,
    other: Lead<'a>,
) -> Result<(), AllocError>
    requires { owner_ref_view other.owner ≡ owner_ref_view lead.owner }
    ensures { OnOk result (cause_views causes.new.items ≡ cause_views causes.old.items
        ++ both_of (problem known.now) (owner_ref_view lead.entry.owner) lead.entry.number
        (class_view lead.entry.class) (other.entry.number, class_view other.entry.class)) }
{
    put_newest_of(known, causes, lead, other.number, other.class)?;
    put_newest_of(known, causes, other, lead.number, lead.class)
}

/// What it gives with another one in a class, if it may be overtaken there.
fn put_newest_of<'a>(
    known: &KnownProblem<'a>,
    causes: &mut Vec<Cause<'a>>,
    lead: Lead<'a>,
    number: usize,
    higher: Class,
) -> Result<(), AllocError>
    ensures { OnOk result (cause_views causes.new.items ≡ cause_views causes.old.items
        ++ newest_of (problem known.now) (owner_ref_view lead.entry.owner) lead.entry.number
        (class_view lead.entry.class) number (class_view higher)) }
{
    if is_newest(known, lead, number, higher) {
        causes.push(Cause::Newest(lead.owner, lead.number, number, lead.class, higher))?;
    }
    Ok(())
}

/// Whether two dependencies are on one package, and the first may lead to the higher class of the second.
fn is_newest<'a>(known: &KnownProblem<'a>, lead: Lead<'a>, number: usize, higher: Class) -> bool
    ensures { result ≡ is_cause (problem known.now) (of_newest (owner_ref_view lead.entry.owner) lead.entry.number
        number (class_view lead.entry.class) (class_view higher)) }
{
    // Most are in one class: so many of them may be there that nothing else should be looked at.
    if !lead.class.is_lower(higher) || lead.number == number {
        return false;
    }
    match dependency_at(&known.problem, &lead.owner, lead.number) {
        Some(dependency) => is_overtaken_by(known, lead, dependency, number, higher),
        None => false,
    }
}

/// The same where the first of them is there.
fn is_overtaken_by<'a>(
    known: &KnownProblem<'a>,
    lead: Lead<'a>,
    dependency: &DependencyParts,
    number: usize,
    higher: Class,
) -> bool
    ensures { result ≡ passes (is_overtaken (problem known.now) (class_view lead.entry.class) (class_view higher)
        (dependency_view dependency.now))
        (dependency_at (problem known.now) (owner_ref_view lead.entry.owner) number) }
{
    match dependency_at(&known.problem, &lead.owner, number) {
        Some(other) => is_overtaken(known, lead.class, higher, dependency, other),
        None => false,
    }
}

/// The same where both are there.
fn is_overtaken(
    known: &KnownProblem<'_>,
    class: Class,
    higher: Class,
    dependency: &DependencyParts,
    other: &DependencyParts,
) -> bool
    ensures { result ≡ is_overtaken (problem known.now) (class_view class) (class_view higher)
        (dependency_view dependency.now) (dependency_view other.now) }
{
    dependency.real_name == other.real_name
        && has_class(&known.problem, class, dependency)
        && has_class(&known.problem, higher, other)
        && class.is_lower(higher)
        && has_class(&known.problem, higher, dependency)
}
