//! The terms of the instance that a cause gives rise to, each as a vertex and tests of its space.

ghost use Rattle.std.specs.List.{list_all};
ghost use Rattle.std.specs.Prelude.{◌≡◌, ◌∷◌, [], true, filter, map, not, Some, IfOk};
ghost use Rattle.catalogue.specs.Stores.{candidates_at};
ghost use Rattle.lookups.specs.inner.Matching.{is_release};
ghost use Rattle.lookups.specs.inner.Ranges.{is_of};
ghost use Rattle.semver.specs.Identifiers.{parts_of};
ghost use Rattle.classes.specs.Classes.{class_view};
ghost use Rattle.features.specs.Views.{dependency_view};
ghost use Rattle.model.specs.Axioms.{absent_or, at, matched, versions_that};
ghost use Rattle.model.specs.Selection.{class_of};
ghost use Rattle.model.specs.Summary.{has_feature};
ghost use Rattle.model.specs.Vertices as model;
ghost use Rattle.model.specs.Causes.{dependency_at, terms_of_cause};
ghost use Rattle.lookups.specs.inner.CauseViews.{cause_view};
ghost use Rattle.lookups.specs.inner.Symbolic.{symbolic_view};
ghost use Rattle.numbering.specs.inner.KnownProblem.{problem};
ghost use Rattle.numbering.specs.inner.TestedTerms.{states_view, tested, tested_view, tested_views, all_tested};
ghost use Rattle.vertices.specs.inner.RefViews.{owner_ref_view, vertex_ref_view};

use crate::known_problem::KnownProblem;
use crate::possible_classes::{absent_alone, class_alone};
use crate::space_tests::{
    Lone, Tests, chosen_tests, class_tests, lacking_tests, left_tests, no_class, taken_tests,
};
use catalogue::catalogues_are_well_formed;
use classes::Class;
use features::{DependencyParts, FeatureName, PackageName};
use lookups::{
    Cause, Problem, SymbolicTerm, are_releases, class_candidates, class_versions, dependency_at,
    symbolic_terms,
};
use semver::Version;
use std::alloc::{AllocError, Global};
use vertices::{OwnerRef, VertexRef};

/// A term: a vertex, and which of its states the term has.
#[derive(Drop)]
pub(crate) struct TestedTerm<'a> {
    pub(crate) vertex: VertexRef<'a>,
    pub(crate) tests: Tests,
}

/// The terms of the instance.
pub(crate) fn terms_tested<'a>(
    alloc: Global,
    known: &KnownProblem<'a>,
    cause: &Cause<'a>,
) -> Result<Vec<TestedTerm<'a>>, AllocError>
    ensures { IfOk result (λ v. tested_views v.items
        ≡ all_tested (problem known.now) (terms_of_cause (problem known.now) (cause_view cause.now))) }
{
    let terms = symbolic_terms(alloc, &known.problem, cause)?;
    let mut made = Vec::with_capacity(alloc, terms.len())?;
    'terms: for term in terms.iter() {
        made.push(tested(alloc, known, *term)?)?;
    }
    Ok(made)
}

/// A term with the tests of its vertex's states.
fn tested<'a>(
    alloc: Global,
    known: &KnownProblem<'a>,
    term: SymbolicTerm<'a>,
) -> Result<TestedTerm<'a>, AllocError>
    ensures { IfOk result
        (λ p. tested_view p ≡ tested (problem known.now) (symbolic_view (problem known.now) term.entry)) }
{
    match term {
        SymbolicTerm::Root(there) => Ok(two_states(VertexRef::Root, there)),
        SymbolicTerm::Feature(name, class, feature, on) => {
            Ok(two_states(VertexRef::Feature(name, class, feature), on))
        }
        SymbolicTerm::Ask(name, version, number, feature, asks) => Ok(two_states(
            VertexRef::Ask(name, version, number, feature),
            asks,
        )),
        SymbolicTerm::Chosen(name, version) => Ok(chosen(known, name, version)),
        SymbolicTerm::Absent(owner, number) => absent(alloc, known, owner, number),
        SymbolicTerm::Leads(owner, number, class) => leads(alloc, known, owner, number, class),
        SymbolicTerm::Unmatched(dependency, class) => left(alloc, known, dependency, class),
        SymbolicTerm::Matched(dependency, class) => taken(alloc, known, dependency, class),
        SymbolicTerm::Lacking(name, class, feature) => lacking(alloc, known, name, class, feature),
    }
}

/// A vertex that may be absent or present: it is the one of them.
fn two_states(vertex: VertexRef<'_>, present: bool) -> TestedTerm<'_>
    ensures { tested_view result ≡ (vertex_ref_view vertex.entry, not present ∷ present ∷ []) }
{
    let lone = Lone {
        states: 2,
        state: present as usize,
    };
    let tests = Tests::One(lone);
    TestedTerm { vertex, tests }
}

/// The versions of the package in the class that pass, and absent first.
fn package_term<'a>(name: &'a PackageName, class: Class, tests: Tests) -> TestedTerm<'a>
    ensures { tested_view result ≡ (model.pkg name.entry.now (class_view class), states_view tests) }
{
    TestedTerm {
        vertex: VertexRef::Package(name, class),
        tests,
    }
}

fn dependency_term(owner: OwnerRef<'_>, number: usize, tests: Tests) -> TestedTerm<'_>
    ensures { tested_view result ≡ (model.dep (owner_ref_view owner.entry) number, states_view tests) }
{
    TestedTerm {
        vertex: VertexRef::Dependency(owner, number),
        tests,
    }
}

/// The version is chosen.
fn chosen<'a>(
    known: &KnownProblem<'a>,
    name: &'a PackageName,
    version: &'a Version,
) -> TestedTerm<'a>
    ensures { tested_view result ≡ tested (problem known.now) (at (model.pkg name.entry.now
        (class_of (parts_of version.entry.now))) (model.version (parts_of version.entry.now) ∷ [])) }
{
    let class = Class::of(version);
    let versions = class_versions(known.problem.catalogue, name, class);
    package_term(name, class, Tests::One(chosen_tests(version, versions)))
}

/// The dependency is absent.
fn absent<'a>(
    alloc: Global,
    known: &KnownProblem<'a>,
    owner: OwnerRef<'a>,
    number: usize,
) -> Result<TestedTerm<'a>, AllocError>
    ensures { IfOk result (λ p. tested_view p
        ≡ tested (problem known.now) (at (model.dep (owner_ref_view owner.entry) number) (model.absent ∷ []))) }
{
    match dependency_at(&known.problem, &owner, number) {
        Some(dependency) => {
            let lone = absent_alone(alloc, known, dependency)?;
            Ok(dependency_term(owner, number, Tests::One(lone)))
        }
        None => Ok(dependency_term(owner, number, Tests::One(no_class(&[])))),
    }
}

/// The dependency, which has this number among those of its owner, leads to the class.
fn leads_to<'a>(
    alloc: Global,
    known: &KnownProblem<'a>,
    owner: OwnerRef<'a>,
    number: usize,
    dependency: &'a DependencyParts,
    class: Class,
) -> Result<TestedTerm<'a>, AllocError>
    requires { dependency_at (problem known.now) (owner_ref_view owner) number ≡ Some (dependency_view dependency.now) }
    ensures { IfOk result (λ p. tested_view p ≡ tested (problem known.now)
        (at (model.dep (owner_ref_view owner.entry) number) (model.in_class (class_view class) ∷ []))) }
{
    let lone = class_alone(alloc, known, dependency, class)?;
    Ok(dependency_term(owner, number, Tests::One(lone)))
}

/// The dependency leads to the class.
fn leads<'a>(
    alloc: Global,
    known: &KnownProblem<'a>,
    owner: OwnerRef<'a>,
    number: usize,
    class: Class,
) -> Result<TestedTerm<'a>, AllocError>
    ensures { IfOk result (λ p. tested_view p ≡ tested (problem known.now)
        (at (model.dep (owner_ref_view owner.entry) number) (model.in_class (class_view class) ∷ []))) }
{
    match dependency_at(&known.problem, &owner, number) {
        Some(dependency) => leads_to(alloc, known, owner, number, dependency, class),
        None => Ok(dependency_term(owner, number, Tests::One(class_tests(class, &[])))),
    }
}

/// Whether none of the versions of a class is a pre-release: what is kept of the name says so, or they are looked at.
fn are_releases_in<'a>(
    known: &KnownProblem<'a>,
    name: &'a PackageName,
    class: Class,
    versions: &[Version],
) -> bool
    requires { map parts_of versions.now
        ≡ filter (is_of (class_view class)) (map (λ r. r.version)
        (candidates_at known.now.problem.catalogue.now name.now)) }
    ensures { result ≡ list_all (λ w. is_release (parts_of w)) versions.now }
{
    if known.matched.has_releases_alone(name) {
        return true;
    }
    are_releases(versions)
}

/// The package is absent or has a version of the class that isn't matched.
fn left<'a>(
    alloc: Global,
    known: &KnownProblem<'a>,
    dependency: &'a DependencyParts,
    class: Class,
) -> Result<TestedTerm<'a>, AllocError>
    ensures { IfOk result (λ p. tested_view p ≡ tested (problem known.now)
        (at (model.pkg (dependency_view dependency.entry.now).real_name (class_view class))
        (absent_or (problem known.now) (λ c. not (matched (dependency_view dependency.entry.now) c))
        (dependency_view dependency.entry.now).real_name (class_view class)))) }
{
    let versions = class_versions(known.problem.catalogue, &dependency.real_name, class);
    let are_releases = are_releases_in(known, &dependency.real_name, class, versions);
    let tests = left_tests(alloc, &dependency.requirement, versions, are_releases)?;
    Ok(package_term(&dependency.real_name, class, tests))
}

/// The package has a version of the class that is matched.
fn taken<'a>(
    alloc: Global,
    known: &KnownProblem<'a>,
    dependency: &'a DependencyParts,
    class: Class,
) -> Result<TestedTerm<'a>, AllocError>
    ensures { IfOk result
        (λ p. tested_view p
        ≡ tested (problem known.now) (at (model.pkg (dependency_view dependency.entry.now).real_name
        (class_view class)) (versions_that (problem known.now) (matched (dependency_view dependency.entry.now))
        (dependency_view dependency.entry.now).real_name (class_view class)))) }
{
    let versions = class_versions(known.problem.catalogue, &dependency.real_name, class);
    let are_releases = are_releases_in(known, &dependency.real_name, class, versions);
    let tests = taken_tests(alloc, &dependency.requirement, versions, are_releases)?;
    Ok(package_term(&dependency.real_name, class, tests))
}

/// The package is absent or has a version of the class that lacks the feature.
fn lacking<'a>(
    alloc: Global,
    known: &KnownProblem<'a>,
    name: &'a PackageName,
    class: Class,
    feature: &FeatureName,
) -> Result<TestedTerm<'a>, AllocError>
    ensures { IfOk result (λ p. tested_view p ≡ tested (problem known.now)
        (at (model.pkg name.entry.now (class_view class)) (absent_or (problem known.now)
        (λ c. not (has_feature c.brings.features feature.now)) name.entry.now (class_view class)))) }
{
    catalogues_are_well_formed(known.problem.manifest, known.problem.catalogue);
    let candidates = class_candidates(known.problem.catalogue, name, class);
    let tests = lacking_tests(alloc, feature, candidates)?;
    Ok(package_term(name, class, Tests::Each(tests)))
}
