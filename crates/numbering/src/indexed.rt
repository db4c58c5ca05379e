//! What owners bring, found by name where a pass over all of it would be made many times.

ghost use Rattle.std.specs.Prelude.{◌≡◌, IfSome};
ghost use Rattle.std.specs.Option.{ForSome};
ghost use Rattle.model.specs.Vertices.{owner_brings};
ghost use Rattle.lookups.specs.inner.Views.{problem_view};
ghost use Rattle.vertices.specs.inner.RefViews.{owner_ref_view};
ghost use Rattle.numbering.specs.inner.Called.{numbered_from, numbered_views};
ghost use Rattle.numbering.specs.inner.Indexed.{AreBrought};
ghost use Rattle.numbering.specs.inner.OnPackage.{on_package};

use crate::asked::Asked;
use crate::called::Numbered;
use crate::on_package::OnPackage;
use features::{Dependency, PackageName};
use lookups::{Problem, dependencies_of};
use std::alloc::{AllocError, Global};
use std::collections::HashMap;
use vertices::OwnerRef;

/// What the entries of the root's features ask for, and which of the many dependencies of an owner are on a package.
///
/// Nothing but time rests on what is kept: what isn't is looked for where it is asked for.
#[derive(Drop)]
pub(crate) struct Indexed<'a> {
    pub(crate) problem: Problem<'a>,
    pub(crate) asked: Option<Asked<'a>>,
    pub(crate) owners: HashMap<OwnerRef<'a>, OnPackage<'a>>,
    ghost are_asked: { ForSome asked (λ a. a ≡ (problem_view problem).root_asks) },
    ghost are_brought: { AreBrought (problem_view problem) owners },
}

/// Whether a pass over the dependencies takes no longer than to look up the owner.
fn are_few(dependencies: &[Dependency]) -> bool {
    dependencies.len() <= 32
}

/// Whether two of the dependencies are on one package.
fn share_a_package(dependencies: &[Dependency]) -> bool {
    'dependencies: for (place, dependency) in dependencies.iter().enumerate() {
        if are_on(&dependency.real_name, &dependencies[..place]) {
            return true;
        }
    }
    false
}

/// Whether one of the dependencies is on the package.
fn are_on(name: &PackageName, dependencies: &[Dependency]) -> bool {
    dependencies
        .iter()
        .any(|dependency| dependency.real_name == *name)
}

impl<'a> Indexed<'a> {
    ghost use Rattle.numbering.specs.inner.IndexedViews.{problem_indexed};

    /// Nothing is kept yet.
    pub(crate) fn new(alloc: Global, problem: Problem<'a>) -> Indexed<'a>
        ensures { problem_indexed result ≡ problem_view problem.entry }
    {
        Indexed {
            problem,
            asked: None,
            owners: HashMap::new(alloc),
        }
    }

    /// What the entries of the root's features ask for, if it is kept.
    pub(crate) fn asked(&self) -> Option<&Asked<'a>>
        ensures { IfSome result (λ a. a.now ≡ (problem_indexed self.now).root_asks) }
    {
        self.asked.as_ref()
    }

    /// The dependencies of the owner that are on the package of this name, if there are any and they are kept.
    pub(crate) fn on_package(&self, owner: &OwnerRef<'a>, name: &'a str) -> Option<&[Numbered<'a>]>
        ensures { IfSome result (λ those. numbered_views those.now ≡ on_package name.entry.now
            (numbered_from 0 (owner_brings (problem_indexed self.now) (owner_ref_view owner.now)).dependencies)) }
    {
        match self.owners.get(owner) {
            Some(brought) => brought.those(name),
            None => None,
        }
    }

    /// Keeps what pays of what the owner brings.
    ///
    /// # Errors
    /// Memory is wanting.
    pub(crate) fn keep(&mut self, alloc: Global, owner: OwnerRef<'a>) -> Result<(), AllocError>
        ensures { problem_indexed self.new ≡ problem_indexed self.old }
    {
        self.keep_asked(alloc, owner)?;
        self.keep_dependencies(alloc, owner)
    }

    fn keep_asked(&mut self, alloc: Global, owner: OwnerRef<'a>) -> Result<(), AllocError>
        ensures { problem_indexed self.new ≡ problem_indexed self.old }
    {
        match owner {
            OwnerRef::Root => self.put_asked(alloc),
            OwnerRef::Version(_, _) => Ok(()),
        }
    }

    /// Looks once through all entries of the root.
    fn put_asked(&mut self, alloc: Global) -> Result<(), AllocError>
        ensures { problem_indexed self.new ≡ problem_indexed self.old }
    {
        if self.asked.is_some() {
            return Ok(());
        }
        let asked = Asked::of(alloc, self.problem.manifest.features())?;
        self.asked = Some(asked);
        Ok(())
    }

    /// The dependencies of an owner by their packages, where they are many or two are on one package.
    fn keep_dependencies(&mut self, alloc: Global, owner: OwnerRef<'a>) -> Result<(), AllocError>
        ensures { problem_indexed self.new ≡ problem_indexed self.old }
    {
        let problem = self.problem;
        let dependencies = dependencies_of(&problem, &owner);
        if self.owners.contains_key(&owner) {
            return Ok(());
        }
        if are_few(dependencies) && !share_a_package(dependencies) {
            return Ok(());
        }
        let brought = OnPackage::of(alloc, dependencies)?;
        self.owners.insert(owner, brought)?;
        Ok(())
    }
}
