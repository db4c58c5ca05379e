//! The dependencies of an owner by the packages that they are on.

ghost use Rattle.std.specs.Prelude.{◌≡◌, IfOk, OnOk};
ghost use Rattle.features.specs.Views.{dependency_views};
ghost use Rattle.numbering.specs.inner.Called.{numbered_from, those_views};
ghost use Rattle.numbering.specs.inner.OnPackage.{IsByPackage, PutsOn, on_package};

use crate::called::Numbered;
use crate::lists::put_behind;
use features::Dependency;
use std::alloc::{AllocError, Global};
use std::collections::HashMap;
use std::marker::Model;

/// The dependencies of an owner, found by the package that they are on: several may be on one, under names of their
/// own.
#[derive(Drop)]
pub(crate) struct OnPackage<'a> {
    dependencies: &'a [Dependency],
    on: HashMap<&'a str, Vec<Numbered<'a>>>,
}

impl<'a> Model for OnPackage<'a> {
    ghost use Rattle.std.specs.Prelude.{List};
    ghost use Rattle.features.specs.Views.{dependency_views};
    ghost use Rattle.model.specs.Summary.{Dependency};
    ghost use Rattle.numbering.specs.inner.Called.{numbered_from};
    ghost use Rattle.numbering.specs.inner.OnPackage.{IsByPackage};

    ghost Value = { List Dependency };

    ghost view = { λ b. dependency_views b.dependencies.now };

    ghost invariant = { λ b. IsByPackage b.on (numbered_from 0 (dependency_views b.dependencies.now)) };
}

impl<'a> OnPackage<'a> {
    /// These dependencies, put by their packages in one pass.
    ///
    /// # Errors
    /// Memory is wanting.
    pub(crate) fn of(
        alloc: Global,
        dependencies: &'a [Dependency],
    ) -> Result<OnPackage<'a>, AllocError>
        ensures { IfOk result (λ b. b ≡ dependency_views dependencies.entry.now) }
    {
        let on = by_package(alloc, dependencies)?;
        Ok(OnPackage { dependencies, on })
    }

    /// Those on the package of this name, in their order, if there are any.
    pub(crate) fn those(&self, name: &'a str) -> Option<&[Numbered<'a>]>
        ensures { those_views result ≡ on_package name.entry.now (numbered_from 0 self.now) }
    {
        match self.on.get(&name) {
            Some(those) => Some(those.as_slice()),
            None => None,
        }
    }
}

fn by_package<'a>(
    alloc: Global,
    dependencies: &'a [Dependency],
) -> Result<HashMap<&'a str, Vec<Numbered<'a>>>, AllocError>
    ensures { IfOk result (λ on. IsByPackage on (numbered_from 0 (dependency_views dependencies.entry.now))) }
{
    let mut on = HashMap::new(alloc);
    'dependencies: for (number, dependency) in dependencies.iter().enumerate() {
        put_on(alloc, &mut on, Numbered { number, dependency })?;
    }
    Ok(on)
}

/// Puts a dependency behind those that are on its package too.
fn put_on<'a>(
    alloc: Global,
    on: &mut HashMap<&'a str, Vec<Numbered<'a>>>,
    one: Numbered<'a>,
) -> Result<(), AllocError>
    ensures { OnOk result (PutsOn on.old one.entry on.new) }
{
    put_behind(alloc, on, one.dependency.real_name.as_str(), one)
}
