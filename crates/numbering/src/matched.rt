//! What requirements match, kept so that no requirement is matched twice against one name.

ghost use Rattle.std.specs.Bool.{OnTrue};
ghost use Rattle.std.specs.List.{list_all};
ghost use Rattle.std.specs.Prelude.{◌≡◌, ◌-◌, IfOk, IfSome, drop, map, take, true};
ghost use Rattle.lookups.specs.inner.Matching.{is_release};
ghost use Rattle.classes.specs.Classes.{class_view};
ghost use Rattle.features.specs.Views.{dependency_view};
ghost use Rattle.lookups.specs.inner.Views.{problem_view};
ghost use Rattle.model.specs.Vertices.{dep_classes, owner_brings};
ghost use Rattle.vertices.specs.inner.RefViews.{owner_ref_view};
ghost use Rattle.numbering.specs.inner.Called.{numbered_from, numbered_views};
ghost use Rattle.numbering.specs.inner.IndexedViews.{problem_indexed};
ghost use Rattle.numbering.specs.inner.Matched.{AreMatched, AreNamed, IsOfReleases, kept_classes, name_classes};
ghost use Rattle.numbering.specs.inner.Matched.{name_versions};
ghost use Rattle.numbering.specs.inner.OnPackage.{on_package};

use crate::asked::Asked;
use crate::called::Numbered;
use crate::indexed::Indexed;
use crate::table::Table;
use catalogue::catalogues_are_well_formed;
use classes::Class;
use features::{Dependency, DependencyParts, PackageName};
use lookups::{
    Problem, all_classes, are_releases, class_range, class_versions, classes_matched,
    dependencies_of,
};
use semver::VersionReq;
use std::alloc::{AllocError, Global};
use std::collections::HashMap;
use vertices::{OwnerRef, VertexRef};

/// The classes in which a requirement matches some candidate of a name.
#[derive(Drop)]
pub(crate) enum Kept {
    /// Of all classes of the name those from one place on and up to another. A name with n classes may have as many
    /// requirements, each of which matches most of them: to keep them each by each would take n times as much.
    Range { from: usize, to: usize },
    Each(Vec<Class>),
}

/// From so many versions of a name on its classes are kept, and from so many classes on ranges of them.
const MANY: usize = 64;

/// By name and requirement, the classes of the candidates that are matched; and what owners bring, found by name.
///
/// All classes of a name are kept where its versions are many and none is a pre-release, as only there a range is told;
/// and a range of classes where these are many, as it takes a look-up more than a list.
/// Nothing but time rests on what is kept: what isn't is matched where it is asked for.
#[derive(Drop)]
pub struct Matched<'a> {
    pub(crate) problem: Problem<'a>,
    pub(crate) classes: HashMap<(&'a PackageName, &'a VersionReq), Kept>,
    pub(crate) names: HashMap<&'a PackageName, Option<Vec<Class>>>,
    indexed: Indexed<'a>,
    ghost are_matched: { AreMatched (problem_view problem) classes },
    ghost are_named: { AreNamed (problem_view problem) names },
    ghost same_problem: { problem_indexed indexed ≡ problem_view problem },
}

impl<'a> Matched<'a> {
    ghost use Rattle.numbering.specs.inner.MatchedViews.{problem_of};

    /// Nothing is kept yet.
    pub(crate) fn new(alloc: Global, problem: Problem<'a>) -> Matched<'a>
        ensures { problem_of result ≡ problem_view problem.entry }
    {
        Matched {
            problem,
            classes: HashMap::new(alloc),
            names: HashMap::new(alloc),
            indexed: Indexed::new(alloc, problem),
        }
    }

    /// The classes to which a dependency may lead, lowest first, if they are kept.
    pub(crate) fn classes(&self, dependency: &'a DependencyParts) -> Option<&[Class]>
        ensures { IfSome result
            (λ ks. map class_view ks.now ≡ dep_classes (problem_of self.now) (dependency_view dependency.now)) }
    {
        let requirement: &VersionReq = &dependency.requirement;
        let ask = (&dependency.real_name, requirement);
        match self.classes.get(&ask) {
            Some(Kept::Range { from, to }) => self.between(&dependency.real_name, *from, *to),
            Some(Kept::Each(classes)) => Some(classes.as_slice()),
            None => None,
        }
    }

    /// Of all classes of a name those from one place on and up to another, if they are kept.
    fn between(&self, name: &'a PackageName, from: usize, to: usize) -> Option<&[Class]>
        ensures { IfSome result (λ ks. map class_view ks.now
            ≡ take (to - from) (drop from (name_classes (problem_of self.now) name.now))) }
    {
        self.all_of(name)?.get(from..to)
    }

    /// All classes of a name, lowest first, if none of its versions is a pre-release and they are kept.
    fn all_of(&self, name: &'a PackageName) -> Option<&[Class]>
        ensures { IfSome result (λ ks. IsOfReleases (problem_of self.now) name.now ks.now) }
    {
        match self.names.get(&name) {
            Some(Some(classes)) => Some(classes.as_slice()),
            Some(None) => None,
            None => None,
        }
    }

    /// Whether it is kept that no version of a name is a pre-release: to look at each takes n times as much where as
    /// many requirements are on n versions.
    pub(crate) fn has_releases_alone(&self, name: &'a PackageName) -> bool
        ensures { OnTrue result (list_all is_release (name_versions (problem_of self.now) name.now) ≡ true) }
    {
        self.all_of(name).is_some()
    }

    /// The classes to which a dependency may lead, lowest first: those that are kept, else it is matched for them.
    pub(crate) fn classes_of(
        &self,
        alloc: Global,
        dependency: &'a DependencyParts,
    ) -> Result<Vec<Class>, AllocError>
        ensures { IfOk result
            (λ ks. map class_view ks.items ≡ dep_classes (problem_of self.now) (dependency_view dependency.now)) }
    {
        match self.classes(dependency) {
            Some(classes) => Vec::from_slice(alloc, classes),
            None => match_anew(alloc, &self.problem, dependency),
        }
    }

    /// What the entries of the root's features ask for, if it is kept.
    pub(crate) fn asked(&self) -> Option<&Asked<'a>>
        ensures { IfSome result (λ a. a.now ≡ (problem_of self.now).root_asks) }
    {
        self.indexed.asked()
    }

    /// The dependencies of the owner that are on the package of this name, if there are any and they are kept.
    pub(crate) fn on_package(&self, owner: &OwnerRef<'a>, name: &'a str) -> Option<&[Numbered<'a>]>
        ensures { IfSome result (λ those. numbered_views those.now ≡ on_package name.entry.now
            (numbered_from 0 (owner_brings (problem_of self.now) (owner_ref_view owner.now)).dependencies)) }
    {
        self.indexed.on_package(owner, name)
    }

    /// Whether the vertex of this number is a dependency whose owner has another one on its package.
    pub fn has_others(&self, table: &Table<'a>, number: usize) -> bool {
        let Some(VertexRef::Dependency(owner, place)) = table.vertex(number) else {
            return false;
        };
        let Some(dependency) = dependencies_of(&self.problem, &owner).get(place) else {
            return false;
        };
        match self.on_package(&owner, dependency.real_name.as_str()) {
            Some(those) => those.len() > 1,
            None => false,
        }
    }

    /// Matches what the owner needs that the vertex of this number is in the state of this number: all dependencies of
    /// which the axioms of the two speak are its.
    ///
    /// # Errors
    /// Memory is wanting.
    pub fn keep_at(
        &mut self,
        alloc: Global,
        table: &Table<'a>,
        number: usize,
        state: usize,
    ) -> Result<(), AllocError>
        ensures { problem_of self.new ≡ problem_of self.old }
    {
        let problem = self.problem;
        match owner_at(&problem, table, number, state) {
            Some(owner) => self.keep_owner(alloc, owner),
            None => Ok(()),
        }
    }

    fn keep_owner(&mut self, alloc: Global, owner: OwnerRef<'a>) -> Result<(), AllocError>
        ensures { problem_of self.new ≡ problem_of self.old }
    {
        let problem = self.problem;
        let dependencies = dependencies_of(&problem, &owner);
        self.keep_each(alloc, dependencies)?;
        self.indexed.keep(alloc, owner)
    }

    fn keep_each(&mut self, alloc: Global, dependencies: &'a [Dependency]) -> Result<(), AllocError>
        ensures { problem_of self.new ≡ problem_of self.old }
    {
        'dependencies: for dependency in dependencies.iter() {
            self.keep(alloc, dependency)?;
        }
        Ok(())
    }

    /// Matches the requirement of a dependency, unless what it matches is kept.
    fn keep(&mut self, alloc: Global, dependency: &'a DependencyParts) -> Result<(), AllocError>
        ensures { problem_of self.new ≡ problem_of self.old }
    {
        if self.classes(dependency).is_some() {
            return Ok(());
        }
        self.keep_all_of(alloc, &dependency.real_name)?;
        let kept = self.match_once(alloc, dependency)?;
        let requirement: &VersionReq = &dependency.requirement;
        let ask = (&dependency.real_name, requirement);
        self.classes.insert(ask, kept)?;
        Ok(())
    }

    /// Finds all classes of a name, if it wasn't done before.
    fn keep_all_of(&mut self, alloc: Global, name: &'a PackageName) -> Result<(), AllocError>
        ensures { problem_of self.new ≡ problem_of self.old }
    {
        if self.names.contains_key(&name) {
            return Ok(());
        }
        let classes = release_classes(alloc, &self.problem, name)?;
        self.names.insert(name, classes)?;
        Ok(())
    }

    /// What to keep of a dependency.
    fn match_once(&self, alloc: Global, dependency: &'a DependencyParts) -> Result<Kept, AllocError>
        ensures { IfOk result (λ kept.
            kept_classes (name_classes (problem_of self.now) (dependency_view dependency.now).real_name) kept
            ≡ dep_classes (problem_of self.now) (dependency_view dependency.now)) }
    {
        match self.range_of(dependency) {
            Some((from, to)) => Ok(Kept::Range { from, to }),
            None => Ok(Kept::Each(match_anew(alloc, &self.problem, dependency)?)),
        }
    }

    /// Where among all classes of its name those lie to which a dependency may lead, if it can be told.
    fn range_of(&self, dependency: &'a DependencyParts) -> Option<(usize, usize)>
        ensures { IfSome result (λ r.
            take (r.1 - r.0) (drop r.0 (name_classes (problem_of self.now) (dependency_view dependency.now).real_name))
            ≡ dep_classes (problem_of self.now) (dependency_view dependency.now)) }
    {
        let classes = self.all_of(&dependency.real_name)?;
        if classes.len() < MANY {
            return None;
        }
        range_among(&self.problem, dependency, classes)
    }
}

/// Where among all classes of its name those lie to which a dependency may lead: from which place on and up to which,
/// if that can be told.
fn range_among(
    problem: &Problem<'_>,
    dependency: &DependencyParts,
    classes: &[Class],
) -> Option<(usize, usize)>
    requires { IsOfReleases (problem_view problem.now) (dependency_view dependency.now).real_name classes.now }
    ensures { IfSome result (λ r. map class_view (take (r.1 - r.0) (drop r.0 classes.now))
        ≡ dep_classes (problem_view problem.now) (dependency_view dependency.now)) }
{
    catalogues_are_well_formed(problem.manifest, problem.catalogue);
    let requirement: &VersionReq = &dependency.requirement;
    let versions = problem.catalogue.versions(&dependency.real_name);
    class_range(requirement, versions, classes)
}

/// All classes of a name, lowest first, if its versions are many and none of them is a pre-release.
fn release_classes(
    alloc: Global,
    problem: &Problem<'_>,
    name: &PackageName,
) -> Result<Option<Vec<Class>>, AllocError>
    ensures { IfOk result (λ o. IfSome o (λ ks. IsOfReleases (problem_view problem.now) name.now ks.items)) }
{
    let versions = problem.catalogue.versions(name);
    if versions.len() < MANY {
        return Ok(None);
    }
    if !are_releases(versions) {
        return Ok(None);
    }
    Ok(Some(all_classes(alloc, versions)?))
}

/// The owner that a vertex is in a state: the root where it is present, a version where it is chosen.
fn owner_at<'a>(
    problem: &Problem<'a>,
    table: &Table<'a>,
    number: usize,
    state: usize,
) -> Option<OwnerRef<'a>> {
    match table.vertex(number)? {
        VertexRef::Root => Some(OwnerRef::Root),
        VertexRef::Package(name, class) => {
            let versions = class_versions(problem.catalogue, name, class);
            let version = versions.get(state.checked_sub(1)?)?;
            Some(OwnerRef::Version(name, version))
        }
        VertexRef::Dependency(_, _) => None,
        VertexRef::Feature(_, _, _) => None,
        VertexRef::Ask(_, _, _, _) => None,
    }
}

/// The classes in which some candidate is matched, lowest first.
pub(crate) fn match_anew(
    alloc: Global,
    problem: &Problem<'_>,
    dependency: &DependencyParts,
) -> Result<Vec<Class>, AllocError>
    ensures { IfOk result
        (λ ks. map class_view ks.items ≡ dep_classes (problem_view problem.now) (dependency_view dependency.now)) }
{
    catalogues_are_well_formed(problem.manifest, problem.catalogue);
    let requirement: &VersionReq = &dependency.requirement;
    let versions = problem.catalogue.versions(&dependency.real_name);
    classes_matched(alloc, requirement, versions)
}
