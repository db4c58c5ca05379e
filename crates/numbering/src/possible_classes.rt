//! The classes that dependencies may lead to.

ghost use Rattle.std.specs.Prelude.{◌≡◌, ◌∷◌, suc, true, false, length, map, option_map, position, IfOk};
ghost use Rattle.classes.specs.Classes.{class_view};
ghost use Rattle.features.specs.Views.{dependency_view};
ghost use Rattle.model.specs.Vertices.{dep_classes, same_class};
ghost use Rattle.model.specs.inner.Listed.{classes_at};
ghost use Rattle.numbering.specs.inner.KnownProblem.{problem};
ghost use Rattle.numbering.specs.inner.TestedTerms.{is_class, lone_view};
ghost use Rattle.vertices.specs.inner.RefViews.{owner_ref_view};

use crate::known_problem::KnownProblem;
use crate::space_tests::{Lone, class_tests, no_class, state_of};
use catalogue::catalogues_are_well_formed;
use classes::Class;
use features::DependencyParts;
use lookups::dependency_at;
use std::alloc::{AllocError, Global};
use vertices::OwnerRef;

/// The classes that a dependency of an owner may lead to, lowest first: none where there is no such dependency.
pub(crate) fn classes_at(
    alloc: Global,
    known: &KnownProblem<'_>,
    owner: &OwnerRef<'_>,
    number: usize,
) -> Result<Vec<Class>, AllocError>
    ensures { IfOk result
        (λ ks. map class_view ks.items ≡ classes_at (problem known.now) (owner_ref_view owner.now) number) }
{
    match dependency_at(&known.problem, owner, number) {
        Some(dependency) => classes_of(alloc, known, dependency),
        None => Ok(Vec::new(alloc)),
    }
}

/// The classes in which some candidate is matched, lowest first: those that are kept, else it is matched for them.
pub fn classes_of<'a>(
    alloc: Global,
    known: &KnownProblem<'a>,
    dependency: &'a DependencyParts,
) -> Result<Vec<Class>, AllocError>
    ensures { IfOk result
        (λ ks. map class_view ks.items ≡ dep_classes (problem known.now) (dependency_view dependency.now)) }
{
    known.matched.classes_of(alloc, dependency)
}

/// How many classes a dependency of an owner may lead to.
pub(crate) fn class_count(
    alloc: Global,
    known: &KnownProblem<'_>,
    owner: &OwnerRef<'_>,
    number: usize,
) -> Result<usize, AllocError>
    ensures { IfOk result (λ n. n ≡ length (classes_at (problem known.now) (owner_ref_view owner.now) number)) }
{
    let Some(dependency) = dependency_at(&known.problem, owner, number) else {
        return Ok(0);
    };
    // A copy of those that are kept would cost as much as they are, for each dependency that shares them.
    if let Some(classes) = known.matched.classes(dependency) {
        return Ok(classes.len());
    }
    Ok(classes_of(alloc, known, dependency)?.len())
}

/// The number of a class among the states of a dependency, where it is one of those to which the dependency may lead.
pub fn class_number<'a>(
    alloc: Global,
    known: &KnownProblem<'a>,
    dependency: &'a DependencyParts,
    class: Class,
) -> Result<Option<usize>, AllocError>
    ensures { IfOk result (λ o. o ≡ option_map suc (position (λ k. same_class k (class_view class))
        (dep_classes (problem known.now) (dependency_view dependency.now)))) }
{
    let lone = class_alone(alloc, known, dependency, class)?;
    Ok(state_of(&lone))
}

/// Of a dependency's states, that it leads to the class.
pub(crate) fn class_alone<'a>(
    alloc: Global,
    known: &KnownProblem<'a>,
    dependency: &'a DependencyParts,
    class: Class,
) -> Result<Lone, AllocError>
    ensures { IfOk result (λ l. lone_view l ≡ false
        ∷ map (is_class (class_view class)) (dep_classes (problem known.now) (dependency_view dependency.now))) }
{
    catalogues_are_well_formed(known.problem.manifest, known.problem.catalogue);
    if let Some(classes) = known.matched.classes(dependency) {
        return Ok(class_tests(class, classes));
    }
    let classes = classes_of(alloc, known, dependency)?;
    Ok(class_tests(class, classes.as_slice()))
}

/// Of a dependency's states, that it is absent.
pub(crate) fn absent_alone<'a>(
    alloc: Global,
    known: &KnownProblem<'a>,
    dependency: &'a DependencyParts,
) -> Result<Lone, AllocError>
    ensures { IfOk result (λ l. lone_view l
        ≡ true ∷ map (λ k. false) (dep_classes (problem known.now) (dependency_view dependency.now))) }
{
    if let Some(classes) = known.matched.classes(dependency) {
        return Ok(no_class(classes));
    }
    let classes = classes_of(alloc, known, dependency)?;
    Ok(no_class(classes.as_slice()))
}
