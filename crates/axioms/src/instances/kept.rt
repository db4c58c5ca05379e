//! What requirements match, kept for the steps to come: many steps may ask for the same, each with few bytes.

ghost use Rattle.std.specs.Prelude.{◌≡◌, IfOk, IfSome};
ghost use Rattle.std.specs.List.{list_all};
ghost use Rattle.semver.specs.Identifiers.{parts_of};
ghost use Rattle.classes.specs.Classes.{class_view};
ghost use Rattle.features.specs.Views.{dependency_view};
ghost use Rattle.lookups.specs.inner.Matching.{is_release};
ghost use Rattle.lookups.specs.inner.Views.{problem_view};
ghost use Rattle.features.specs.inner.Texts.{has_text};
ghost use Rattle.axioms.specs.inner.Keeping.{AreHad, AreKept, AreLacking, AreMatched, AreReleases};
ghost use Rattle.axioms.specs.inner.Keeping.{left_in, some_in, taken_in};

use crate::instances::features_had::features_had;
use crate::instances::matched_classes::matched_classes;
use classes::Class;
use features::{DependencyParts, FeatureName, PackageName};
use lookups::{
    Cause, Problem, StateSet, class_candidates, class_versions, dependency_at, has_class,
};
use semver::{Version, VersionReq};
use std::alloc::{AllocError, Global};
use std::collections::{BTreeSet, HashMap};
use vertices::OwnerRef;

/// Of so many versions or fewer nothing is kept: they are soon gone over.
const FEW: usize = 16;

/// How many states are left of all versions of a class.
#[derive(Clone, Copy)]
pub(crate) enum Number {
    /// So few that they are better kept than found again.
    Few,
    /// As many as a step that names them is long; or all are few.
    Many,
    /// `absent` and each version: there is no term.
    All,
}

impl Number {
    /// What so many states are beside so many versions of a class.
    pub(crate) fn of(states: usize, versions: usize) -> Number {
        if versions <= FEW {
            Number::Many
        } else if states <= versions / 4 {
            Number::Few
        } else if states > versions {
            Number::All
        } else {
            Number::Many
        }
    }
}

/// A name and a requirement on it.
type Ask<'a> = (&'a PackageName, &'a VersionReq);

/// The manifest and the loaded index, with what was found of them.
///
/// Nothing but time rests on what is kept: what isn't is found where it is asked for.
#[derive(Drop)]
pub struct Kept<'a> {
    pub(crate) problem: Problem<'a>,
    /// The classes in which some version is matched.
    pub(crate) classes: HashMap<Ask<'a>, Vec<Class>>,
    /// Whether some version of the class is matched.
    pub(crate) some: HashMap<(Ask<'a>, Class), bool>,
    /// Those that are matched, where they are few beside the others.
    pub(crate) taken: HashMap<(Ask<'a>, Class), StateSet<'a>>,
    /// `absent` and those that aren't, where they are.
    pub(crate) left: HashMap<(Ask<'a>, Class), StateSet<'a>>,
    /// By name, feature and class, `absent` and the versions that lack the feature, where they are few.
    pub(crate) lacking: HashMap<((&'a PackageName, &'a FeatureName), Class), StateSet<'a>>,
    /// By name and class, the features that some version has.
    pub(crate) had: HashMap<(&'a PackageName, Class), BTreeSet<&'a str>>,
    /// By name and class, whether none of the versions is a pre-release.
    pub(crate) releases: HashMap<(&'a PackageName, Class), bool>,
    ghost are_classes: { AreMatched (problem_view problem) classes },
    ghost are_some: { AreKept (some_in (problem_view problem)) some },
    ghost are_taken: { AreKept (taken_in (problem_view problem)) taken },
    ghost are_left: { AreKept (left_in (problem_view problem)) left },
    ghost are_lacking: { AreLacking (problem_view problem) lacking },
    ghost are_had: { AreHad (problem_view problem) had },
    ghost are_releases: { AreReleases (problem_view problem) releases },
}

impl<'a> Kept<'a> {
    ghost use Rattle.model.specs.Axioms.{absent_or, matched, versions_that};
    ghost use Rattle.model.specs.Vertices.{dep_classes};
    ghost use Rattle.std.specs.Prelude.{not, true, false};
    ghost use Rattle.model.specs.Causes.{has_class};
    ghost use Rattle.axioms.specs.inner.Keeping.{AreAll, all_releases, is_had, lacking_in};
    ghost use Rattle.axioms.specs.inner.KeptViews.{problem_of};

    /// Nothing is kept yet.
    pub fn new(alloc: Global, problem: Problem<'a>) -> Kept<'a>
        ensures { problem_of result ≡ problem_view problem.entry }
    {
        Kept {
            problem,
            classes: HashMap::new(alloc),
            some: HashMap::new(alloc),
            taken: HashMap::new(alloc),
            left: HashMap::new(alloc),
            lacking: HashMap::new(alloc),
            had: HashMap::new(alloc),
            releases: HashMap::new(alloc),
        }
    }

    /// Whether some candidate of the class is matched.
    pub fn has_class(&self, class: Class, dependency: &'a DependencyParts) -> bool
        ensures { result ≡ has_class (problem_of self.now) (class_view class) (dependency_view dependency.now) }
    {
        let requirement: &VersionReq = &dependency.requirement;
        let place = ((&dependency.real_name, requirement), class);
        match self.some.get(&place) {
            Some(is_some) => *is_some,
            None => has_class(&self.problem, class, dependency),
        }
    }

    /// The classes to which the dependency may lead, if they are kept.
    pub fn classes(&self, dependency: &'a DependencyParts) -> Option<&[Class]>
        ensures { IfSome result
            (λ ks. AreAll (dep_classes (problem_of self.now) (dependency_view dependency.now)) ks.now) }
    {
        let requirement: &VersionReq = &dependency.requirement;
        let ask = (&dependency.real_name, requirement);
        match self.classes.get(&ask) {
            Some(classes) => Some(classes.as_slice()),
            None => None,
        }
    }

    /// The versions of the class that are matched, if they are kept.
    pub(crate) fn taken(
        &self,
        class: Class,
        dependency: &'a DependencyParts,
    ) -> Option<&StateSet<'a>>
        ensures { IfSome result (λ ss. ss.now
            ≡ versions_that (problem_of self.now) (matched (dependency_view dependency.now))
            (dependency_view dependency.now).real_name (class_view class)) }
    {
        let requirement: &VersionReq = &dependency.requirement;
        let place = ((&dependency.real_name, requirement), class);
        match self.taken.get(&place) {
            Some(states) => Some(states),
            None => None,
        }
    }

    /// `absent` and the others, if they are kept.
    pub(crate) fn left(
        &self,
        class: Class,
        dependency: &'a DependencyParts,
    ) -> Option<&StateSet<'a>>
        ensures { IfSome result (λ ss. ss.now
            ≡ absent_or (problem_of self.now) (λ c. not (matched (dependency_view dependency.now) c))
            (dependency_view dependency.now).real_name (class_view class)) }
    {
        let requirement: &VersionReq = &dependency.requirement;
        let place = ((&dependency.real_name, requirement), class);
        match self.left.get(&place) {
            Some(states) => Some(states),
            None => None,
        }
    }

    /// `absent`, and the versions of the class that lack the feature, if they are kept.
    pub(crate) fn lacking(
        &self,
        name: &'a PackageName,
        class: Class,
        feature: &'a FeatureName,
    ) -> Option<&StateSet<'a>>
        ensures { IfSome result
            (λ ss. ss.now ≡ lacking_in (problem_of self.now) name.now feature.now (class_view class)) }
    {
        let place = ((name, feature), class);
        match self.lacking.get(&place) {
            Some(states) => Some(states),
            None => None,
        }
    }

    /// Whether it is known that no version of the class has the feature.
    pub(crate) fn lacks(&self, name: &'a PackageName, class: Class, feature: &FeatureName) -> bool
        ensures { result ≡ true → is_had (problem_of self.now) name.now (class_view class) feature.now ≡ false }
    {
        let place = (name, class);
        match self.had.get(&place) {
            Some(had) => !has_text(had, feature.as_str()),
            None => false,
        }
    }

    /// Keeps what is to be found for a cause and its terms.
    ///
    /// # Errors
    /// Want of memory.
    pub fn keep(&mut self, alloc: Global, cause: &Cause<'a>) -> Result<(), AllocError>
        ensures { problem_of self.new ≡ problem_of self.old }
    {
        match *cause {
            Cause::Need(owner, number) => self.keep_classes(alloc, owner, number),
            Cause::Enabling(name, version, _, _, number) => {
                self.keep_classes(alloc, OwnerRef::Version(name, version), number)
            }
            Cause::Target(owner, number, class) | Cause::List(owner, number, class, _) => {
                self.keep_some(owner, number, class)
            }
            Cause::Ask(name, version, number, _, class)
            | Cause::Weak(name, version, _, _, number, class) => {
                self.keep_some(OwnerRef::Version(name, version), number, class)
            }
            Cause::Newest(owner, number, other, class, higher) => {
                self.keep_some(owner, number, class)?;
                self.keep_some(owner, other, higher)?;
                self.keep_some(owner, number, higher)
            }
            Cause::Root
            | Cause::Feature(_, _, _)
            | Cause::Entry(_, _, _, _)
            | Cause::Asking(_, _, _, _, _) => Ok(()),
        }
    }

    /// Keeps the classes to which a dependency may lead.
    ///
    /// # Errors
    /// Want of memory.
    pub fn keep_classes(
        &mut self,
        alloc: Global,
        owner: OwnerRef<'a>,
        number: usize,
    ) -> Result<(), AllocError>
        ensures { problem_of self.new ≡ problem_of self.old }
    {
        let problem = self.problem;
        match dependency_at(&problem, &owner, number) {
            Some(dependency) => self.put_classes(alloc, dependency),
            None => Ok(()),
        }
    }

    /// Keeps whether some version of the class is matched.
    fn keep_some(
        &mut self,
        owner: OwnerRef<'a>,
        number: usize,
        class: Class,
    ) -> Result<(), AllocError>
        ensures { problem_of self.new ≡ problem_of self.old }
    {
        let problem = self.problem;
        match dependency_at(&problem, &owner, number) {
            Some(dependency) => self.put_some(class, dependency),
            None => Ok(()),
        }
    }

    /// Keeps the classes of a dependency, unless they are kept or its versions are few.
    fn put_classes(
        &mut self,
        alloc: Global,
        dependency: &'a DependencyParts,
    ) -> Result<(), AllocError>
        ensures { problem_of self.new ≡ problem_of self.old }
    {
        let count = self.problem.catalogue.versions(&dependency.real_name).len();
        if count <= FEW || self.classes(dependency).is_some() {
            return Ok(());
        }
        let classes = matched_classes(alloc, &self.problem, dependency)?;
        let requirement: &VersionReq = &dependency.requirement;
        let ask = (&dependency.real_name, requirement);
        self.classes.insert(ask, classes)?;
        Ok(())
    }

    /// Keeps whether some version of the class is matched, unless these are few.
    fn put_some(&mut self, class: Class, dependency: &'a DependencyParts) -> Result<(), AllocError>
        ensures { problem_of self.new ≡ problem_of self.old }
    {
        let versions = class_versions(self.problem.catalogue, &dependency.real_name, class);
        if versions.len() <= FEW {
            return Ok(());
        }
        let requirement: &VersionReq = &dependency.requirement;
        let place = ((&dependency.real_name, requirement), class);
        let is_some = self.has_class(class, dependency);
        self.some.insert(place, is_some)?;
        Ok(())
    }

    /// Keeps the versions of the class that are matched.
    pub(crate) fn put_taken(
        &mut self,
        class: Class,
        dependency: &'a DependencyParts,
        states: StateSet<'a>,
    ) -> Result<(), AllocError>
        requires { states ≡ versions_that (problem_of self.old) (matched (dependency_view dependency.now))
            (dependency_view dependency.now).real_name (class_view class) }
        ensures { problem_of self.new ≡ problem_of self.old }
    {
        let requirement: &VersionReq = &dependency.requirement;
        let place = ((&dependency.real_name, requirement), class);
        self.taken.insert(place, states)?;
        Ok(())
    }

    /// Keeps `absent` and the others.
    pub(crate) fn put_left(
        &mut self,
        class: Class,
        dependency: &'a DependencyParts,
        states: StateSet<'a>,
    ) -> Result<(), AllocError>
        requires { states ≡ absent_or (problem_of self.old) (λ c. not (matched (dependency_view dependency.now) c))
            (dependency_view dependency.now).real_name (class_view class) }
        ensures { problem_of self.new ≡ problem_of self.old }
    {
        let requirement: &VersionReq = &dependency.requirement;
        let place = ((&dependency.real_name, requirement), class);
        self.left.insert(place, states)?;
        Ok(())
    }

    /// Keeps `absent` and the versions of the class that lack the feature.
    pub(crate) fn put_lacking(
        &mut self,
        name: &'a PackageName,
        class: Class,
        feature: &'a FeatureName,
        states: StateSet<'a>,
    ) -> Result<(), AllocError>
        requires { states ≡ lacking_in (problem_of self.old) name.now feature.now (class_view class) }
        ensures { problem_of self.new ≡ problem_of self.old }
    {
        self.lacking.insert(((name, feature), class), states)?;
        Ok(())
    }

    /// Keeps which features the versions of the class have.
    pub(crate) fn put_had(
        &mut self,
        alloc: Global,
        name: &'a PackageName,
        class: Class,
    ) -> Result<(), AllocError>
        ensures { problem_of self.new ≡ problem_of self.old }
    {
        let candidates = class_candidates(self.problem.catalogue, name, class);
        let had = features_had(alloc, candidates)?;
        self.had.insert((name, class), had)?;
        Ok(())
    }

    /// Whether none of the versions of the class is a pre-release, where they are more than a few.
    pub(crate) fn are_releases(
        &mut self,
        name: &'a PackageName,
        class: Class,
    ) -> Result<bool, AllocError>
        ensures releases { IfOk result
            (λ b. b ≡ true → all_releases (problem_of self.old) name.now (class_view class) ≡ true) }
        ensures same { problem_of self.new ≡ problem_of self.old }
    {
        let place = (name, class);
        if let Some(are) = self.releases.get(&place) {
            return Ok(*are);
        }
        let versions = class_versions(self.problem.catalogue, name, class);
        if versions.len() <= FEW {
            return Ok(false);
        }
        let are = are_releases(versions);
        self.releases.insert(place, are)?;
        Ok(are)
    }
}

fn has_text(names: &BTreeSet<&str>, name: &str) -> bool
    ensures { result ≡ has_text names.now.keys name.now }
{
    names.contains(name)
}

fn are_releases(versions: &[Version]) -> bool
    ensures { result ≡ list_all (λ v. is_release (parts_of v)) versions.now }
{
    versions.iter().all(|version| is_release(version))
}

fn is_release(version: &Version) -> bool
    ensures { result ≡ is_release (parts_of version.now) }
{
    version.pre.is_empty()
}
