//! The causes of the instances that are added once a vertex has a state.

ghost use Rattle.std.specs.Prelude.{◌≡◌, ◌++◌, ◌∷◌, [], Contains, IfOk, OnOk, map};
ghost use Rattle.semver.specs.Identifiers.{parts_of};
ghost use Rattle.classes.specs.Classes.{class_view};
ghost use Rattle.model.specs.Axioms.{IsVertex};
ghost use Rattle.model.specs.Vertices as model;
ghost use Rattle.model.specs.Causes.{of_ask};
ghost use Rattle.model.specs.inner.Listed.{classes_at};
ghost use Rattle.numbering.specs.GivenViews.{cause_views};
ghost use Rattle.lookups.specs.inner.CauseViews.{cause_view};
ghost use Rattle.numbering.specs.inner.AskedFor.{asked_causes, noted_views};
ghost use Rattle.numbering.specs.inner.CausesAt.{causes_at, with_causes};
ghost use Rattle.numbering.specs.inner.KnownProblem.{KnowsDefault, problem};
ghost use Rattle.numbering.specs.Pairs.{AreCausesAt};
ghost use Rattle.vertices.specs.inner.RefViews.{owner_ref_view, state_ref_view, vertex_ref_view};

use crate::causes::{each_once, put_needs, put_version};
use crate::known_problem::KnownProblem;
use crate::leading::{Lead, put_asked_lead, put_lead};
use crate::possible_classes::classes_at;
use classes::Class;
use features::{FeatureName, PackageName};
use lookups::{Cause, dependencies_of};
use semver::Version;
use std::alloc::{AllocError, Global};
use vertices::{OwnerRef, StateRef, VertexRef};

/// The causes whose instances are added once the vertex has the state, each once.
pub(crate) fn causes_at<'a>(
    alloc: Global,
    known: &KnownProblem<'a>,
    vertex: VertexRef<'a>,
    state: StateRef<'a>,
) -> Result<Vec<Cause<'a>>, AllocError>
    requires default { KnowsDefault known.now }
    requires vertex { IsVertex (problem known.now) (vertex_ref_view vertex) }
    requires state { Contains (model.space (problem known.now) (vertex_ref_view vertex)) (state_ref_view state) }
    ensures { IfOk result (λ v. AreCausesAt (problem known.now)
        (vertex_ref_view vertex.entry, state_ref_view state.entry) (cause_views v.items)) }
{
    let mut causes = Vec::new(alloc);
    put_causes(alloc, known, &mut causes, vertex, state)?;
    each_once(alloc, causes)
}

/// What a vertex gives in a state: of absent ones the root alone gives something.
fn put_causes<'a>(
    alloc: Global,
    known: &KnownProblem<'a>,
    causes: &mut Vec<Cause<'a>>,
    vertex: VertexRef<'a>,
    state: StateRef<'a>,
) -> Result<(), AllocError>
    requires default { KnowsDefault known.now }
    ensures { OnOk result (cause_views causes.new.items ≡ cause_views causes.old.items
        ++ causes_at (problem known.now) (vertex_ref_view vertex.entry) (state_ref_view state.entry)) }
{
    match state {
        StateRef::Absent => match vertex {
            VertexRef::Root => put_one(causes, Cause::Root),
            VertexRef::Package(_, _) => Ok(()),
            VertexRef::Dependency(_, _) => Ok(()),
            VertexRef::Feature(_, _, _) => Ok(()),
            VertexRef::Ask(_, _, _, _) => Ok(()),
        },
        StateRef::Present => put_present(alloc, known, causes, vertex),
        StateRef::Version(version) => put_chosen(alloc, known, causes, vertex, version),
        StateRef::Class(class) => put_in_class(alloc, known, causes, vertex, class),
    }
}

/// The same, where those of a dependency that name another one are given with those alone that were asked for before.
pub(crate) fn causes_asked<'a>(
    alloc: Global,
    known: &KnownProblem<'a>,
    those: &[(usize, Class)],
    vertex: VertexRef<'a>,
    state: StateRef<'a>,
) -> Result<Vec<Cause<'a>>, AllocError>
    requires default { KnowsDefault known.now }
    ensures { IfOk result (λ v. cause_views v.items ≡ with_causes [] (asked_causes (problem known.now)
        (noted_views those.now) (vertex_ref_view vertex.entry) (state_ref_view state.entry))) }
{
    let mut causes = Vec::new(alloc);
    put_asked_causes(alloc, known, those, &mut causes, vertex, state)?;
    each_once(alloc, causes)
}

/// What a vertex gives in a state, a dependency with those alone that were asked for before.
fn put_asked_causes<'a>(
    alloc: Global,
    known: &KnownProblem<'a>,
    those: &[(usize, Class)],
    causes: &mut Vec<Cause<'a>>,
    vertex: VertexRef<'a>,
    state: StateRef<'a>,
) -> Result<(), AllocError>
    requires default { KnowsDefault known.now }
    ensures { OnOk result (cause_views causes.new.items ≡ cause_views causes.old.items ++ asked_causes
        (problem known.now) (noted_views those.now) (vertex_ref_view vertex.entry) (state_ref_view state.entry)) }
{
    match vertex {
        VertexRef::Dependency(owner, number) => {
            put_asked_of(alloc, known, those, causes, owner, number, state)
        }
        VertexRef::Root
        | VertexRef::Package(_, _)
        | VertexRef::Feature(_, _, _)
        | VertexRef::Ask(_, _, _, _) => put_causes(alloc, known, causes, vertex, state),
    }
}

/// What a dependency gives in a state.
fn put_asked_of<'a>(
    alloc: Global,
    known: &KnownProblem<'a>,
    those: &[(usize, Class)],
    causes: &mut Vec<Cause<'a>>,
    owner: OwnerRef<'a>,
    number: usize,
    state: StateRef<'a>,
) -> Result<(), AllocError>
    requires default { KnowsDefault known.now }
    ensures { OnOk result (cause_views causes.new.items ≡ cause_views causes.old.items
        ++ asked_causes (problem known.now) (noted_views those.now)
        (model.dep (owner_ref_view owner.entry) number) (state_ref_view state.entry)) }
{
    match state {
        StateRef::Absent => Ok(()),
        StateRef::Present => Ok(()),
        StateRef::Version(_) => Ok(()),
        StateRef::Class(class) => {
            let lead = Lead {
                owner,
                number,
                class,
            };
            put_asked_lead(alloc, known, those, causes, lead)
        }
    }
}

fn put_one<'a>(causes: &mut Vec<Cause<'a>>, cause: Cause<'a>) -> Result<(), AllocError>
    ensures { OnOk result (cause_views causes.new.items ≡ cause_views causes.old.items ++ cause_view cause.entry ∷ []) }
{
    causes.push(cause)?;
    Ok(())
}

/// The root needs its dependencies, a feature versions that have it, an ask the feature where it leads.
fn put_present<'a>(
    alloc: Global,
    known: &KnownProblem<'a>,
    causes: &mut Vec<Cause<'a>>,
    vertex: VertexRef<'a>,
) -> Result<(), AllocError>
    ensures { OnOk result (cause_views causes.new.items ≡ cause_views causes.old.items
        ++ causes_at (problem known.now) (vertex_ref_view vertex.entry) model.present) }
{
    match vertex {
        VertexRef::Root => {
            let dependencies = dependencies_of(&known.problem, &OwnerRef::Root);
            put_needs(causes, OwnerRef::Root, dependencies)
        }
        VertexRef::Package(_, _) => Ok(()),
        VertexRef::Dependency(_, _) => Ok(()),
        VertexRef::Feature(name, class, feature) => {
            put_one(causes, Cause::Feature(name, class, feature))
        }
        VertexRef::Ask(name, version, number, feature) => {
            put_asks(alloc, known, causes, name, version, number, feature)
        }
    }
}

/// What an ask gives in each class that its dependency may lead to.
fn put_asks<'a>(
    alloc: Global,
    known: &KnownProblem<'a>,
    causes: &mut Vec<Cause<'a>>,
    name: &'a PackageName,
    version: &'a Version,
    number: usize,
    feature: &'a FeatureName,
) -> Result<(), AllocError>
    ensures { OnOk result (cause_views causes.new.items ≡ cause_views causes.old.items
        ++ map (of_ask name.entry.now (parts_of version.entry.now) number feature.entry.now)
        (classes_at (problem known.now) (model.version_of name.entry.now (parts_of version.entry.now)) number)) }
{
    let classes = classes_at(alloc, known, &OwnerRef::Version(name, version), number)?;
    put_asks_in(causes, name, version, number, feature, classes.as_slice())
}

/// What it gives in each of these classes.
fn put_asks_in<'a>(
    causes: &mut Vec<Cause<'a>>,
    name: &'a PackageName,
    version: &'a Version,
    number: usize,
    feature: &'a FeatureName,
    classes: &[Class],
) -> Result<(), AllocError>
    ensures { OnOk result (cause_views causes.new.items ≡ cause_views causes.old.items ++ map (of_ask name.entry.now
        (parts_of version.entry.now) number feature.entry.now) (map class_view classes.now)) }
{
    'classes: for class in classes.iter() {
        put_one(causes, Cause::Ask(name, version, number, feature, *class))?;
    }
    Ok(())
}

/// What a package gives once a version is chosen.
fn put_chosen<'a>(
    alloc: Global,
    known: &KnownProblem<'a>,
    causes: &mut Vec<Cause<'a>>,
    vertex: VertexRef<'a>,
    version: &'a Version,
) -> Result<(), AllocError>
    ensures { OnOk result (cause_views causes.new.items ≡ cause_views causes.old.items ++ causes_at (problem known.now)
        (vertex_ref_view vertex.entry) (model.version (parts_of version.entry.now))) }
{
    match vertex {
        VertexRef::Root => Ok(()),
        VertexRef::Package(name, _) => put_version(alloc, known, causes, name, version),
        VertexRef::Dependency(_, _) => Ok(()),
        VertexRef::Feature(_, _, _) => Ok(()),
        VertexRef::Ask(_, _, _, _) => Ok(()),
    }
}

/// What a dependency gives once it leads to a class.
fn put_in_class<'a>(
    alloc: Global,
    known: &KnownProblem<'a>,
    causes: &mut Vec<Cause<'a>>,
    vertex: VertexRef<'a>,
    class: Class,
) -> Result<(), AllocError>
    requires default { KnowsDefault known.now }
    ensures { OnOk result (cause_views causes.new.items ≡ cause_views causes.old.items
        ++ causes_at (problem known.now) (vertex_ref_view vertex.entry) (model.in_class (class_view class))) }
{
    match vertex {
        VertexRef::Root => Ok(()),
        VertexRef::Package(_, _) => Ok(()),
        VertexRef::Dependency(owner, number) => {
            let lead = Lead {
                owner,
                number,
                class,
            };
            put_lead(alloc, known, causes, lead)
        }
        VertexRef::Feature(_, _, _) => Ok(()),
        VertexRef::Ask(_, _, _, _) => Ok(()),
    }
}
