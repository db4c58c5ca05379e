//! The versions that lack a feature.

ghost use Rattle.std.specs.Prelude.{◌≡◌, ◌∷◌, [], IfOk, map, not};
ghost use Rattle.semver.specs.Identifiers.{parts_of};
ghost use Rattle.classes.specs.Classes.{class_view};
ghost use Rattle.model.specs.Axioms.{absent_or, at};
ghost use Rattle.model.specs.Summary.{has_feature};
ghost use Rattle.model.specs.Vertices as model;
ghost use Rattle.vertices.specs.inner.RefViews.{state_ref_views};
ghost use Rattle.lookups.specs.inner.Ranges.{versions_with};
ghost use Rattle.lookups.specs.inner.Views.{problem_view};
ghost use Rattle.lookups.specs.inner.TermViews.{term_view, term_views};
ghost use Rattle.lookups.specs.inner.Matching.{is_lacking};
ghost use Rattle.axioms.specs.inner.Keeping.{lacking_in};
ghost use Rattle.axioms.specs.inner.KeptViews.{problem_of};

use crate::instances::kept::{Kept, Number};
use crate::instances::terms::flag_term;
use classes::Class;
use features::{FeatureName, PackageName};
use lookups::{Problem, StateSet, Term, is_lacking, of_class};
use semver::Version;
use std::alloc::{AllocError, Global};
use vertices::{StateRef, VertexRef};

/// The term of `HasFeature` that is left where the other one is full.
pub(crate) fn on_alone<'a>(
    alloc: Global,
    name: &'a PackageName,
    class: Class,
    feature: &'a FeatureName,
) -> Result<Vec<Term<'a>>, AllocError>
    ensures { IfOk result (λ v. term_views v.items
        ≡ at (model.feat name.entry.now (class_view class) feature.entry.now) (model.present ∷ []) ∷ []) }
{
    let on = flag_term(alloc, VertexRef::Feature(name, class, feature), true)?;
    Ok(vec![in alloc; on]?)
}

/// The package is absent or has a version of the class that lacks the feature.
pub(crate) fn lacking_term<'a>(
    alloc: Global,
    kept: &mut Kept<'a>,
    name: &'a PackageName,
    class: Class,
    feature: &'a FeatureName,
) -> Result<Term<'a>, AllocError>
    ensures term { IfOk result
        (λ t. term_view t ≡ at (model.pkg name.entry.now (class_view class)) (absent_or (problem_of kept.old)
        (λ c. not (has_feature c.brings.features feature.entry.now)) name.entry.now (class_view class))) }
    ensures same { problem_of kept.new ≡ problem_of kept.old }
{
    Ok(Term {
        vertex: VertexRef::Package(name, class),
        states: lacking_of(alloc, kept, name, class, feature)?,
    })
}

/// `absent`, and the versions of the class that lack the feature: those that are kept, or else they are found. Kept are
/// few of them; and where all lack it, which features there are.
fn lacking_of<'a>(
    alloc: Global,
    kept: &mut Kept<'a>,
    name: &'a PackageName,
    class: Class,
    feature: &'a FeatureName,
) -> Result<StateSet<'a>, AllocError>
    ensures states { IfOk result (λ ss. ss
        ≡ lacking_in (problem_of kept.old) name.entry.now feature.entry.now (class_view class)) }
    ensures same { problem_of kept.new ≡ problem_of kept.old }
{
    if let Some(states) = kept.lacking(name, class, feature) {
        return states.copy(alloc);
    }
    let (states, number) = lacking_set(alloc, &kept.problem, name, class, feature)?;
    match number {
        Number::Few => kept.put_lacking(name, class, feature, states.copy(alloc)?)?,
        Number::Many => (),
        Number::All => kept.put_had(alloc, name, class)?,
    }
    Ok(states)
}

/// `absent`, and the versions of the class that lack the feature; and how many of all these are.
fn lacking_set<'a>(
    alloc: Global,
    problem: &Problem<'a>,
    name: &'a PackageName,
    class: Class,
    feature: &FeatureName,
) -> Result<(StateSet<'a>, Number), AllocError>
    ensures { IfOk result (λ s. s.0
        ≡ lacking_in (problem_view problem.now) name.entry.now feature.now (class_view class)) }
{
    let versions = of_class(class, problem.catalogue.versions(name));
    let states = lacking_states(alloc, problem, name, feature, versions)?;
    let number = Number::of(states.len(), versions.len());
    Ok((StateSet::rising(states), number))
}

/// `absent`, and the versions that lack the feature.
fn lacking_states<'a>(
    alloc: Global,
    problem: &Problem<'_>,
    name: &PackageName,
    feature: &FeatureName,
    versions: &'a [Version],
) -> Result<Vec<StateRef<'a>>, AllocError>
    ensures { IfOk result (λ v. state_ref_views v.items ≡ model.absent ∷ versions_with
        (is_lacking (problem_view problem.now) name.now feature.now) (map parts_of versions.entry.now)) }
{
    let mut states = Vec::new(alloc);
    states.push(StateRef::Absent)?;
    'versions: for version in versions.iter() {
        if is_lacking(problem, name, feature, version) {
            states.push(StateRef::Version(version))?;
        }
    }
    Ok(states)
}
