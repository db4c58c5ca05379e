//! The dependencies of an owner by the names that they are called by.

ghost use Rattle.std.specs.Prelude.{◌≡◌, IfOk, OnOk};
ghost use Rattle.features.specs.Views.{dependency_views};
ghost use Rattle.numbering.specs.inner.Called.{IsByName, PutsCalled, called_so, numbered_from, those_views};

use crate::lists::put_behind;
use features::{Dependency, DependencyParts};
use std::alloc::{AllocError, Global};
use std::collections::HashMap;
use std::marker::Model;

/// A dependency with its number among those of its owner.
#[derive(Clone, Copy)]
pub struct Numbered<'a> {
    pub number: usize,
    pub dependency: &'a DependencyParts,
}

/// The dependencies of an owner, found by the name that they are called by.
///
/// Several may be called alike, as those of one name for several platforms.
#[derive(Drop)]
pub struct ByName<'a> {
    dependencies: &'a [Dependency],
    called: HashMap<&'a str, Vec<Numbered<'a>>>,
}

impl<'a> Model for ByName<'a> {
    ghost use Rattle.std.specs.Prelude.{List};
    ghost use Rattle.features.specs.Views.{dependency_views};
    ghost use Rattle.model.specs.Summary.{Dependency};
    ghost use Rattle.numbering.specs.inner.Called.{IsByName, numbered_from};

    ghost Value = { List Dependency };

    ghost view = { λ b. dependency_views b.dependencies.now };

    ghost invariant = { λ b. IsByName b.called (numbered_from 0 (dependency_views b.dependencies.now)) };
}

impl<'a> ByName<'a> {
    /// These dependencies, put by their names in one pass.
    ///
    /// # Errors
    /// Memory is wanting.
    pub fn of(alloc: Global, dependencies: &'a [Dependency]) -> Result<ByName<'a>, AllocError>
        ensures { IfOk result (λ b. b ≡ dependency_views dependencies.entry.now) }
    {
        let called = by_name(alloc, dependencies)?;
        Ok(ByName {
            dependencies,
            called,
        })
    }

    /// Those called so, in their order, if there are any.
    pub fn those(&self, name: &'a str) -> Option<&[Numbered<'a>]>
        ensures { those_views result ≡ called_so name.entry.now (numbered_from 0 self.now) }
    {
        match self.called.get(&name) {
            Some(those) => Some(those.as_slice()),
            None => None,
        }
    }
}

fn by_name<'a>(
    alloc: Global,
    dependencies: &'a [Dependency],
) -> Result<HashMap<&'a str, Vec<Numbered<'a>>>, AllocError>
    ensures { IfOk result (λ called. IsByName called (numbered_from 0 (dependency_views dependencies.entry.now))) }
{
    let mut called = HashMap::new(alloc);
    'dependencies: for (number, dependency) in dependencies.iter().enumerate() {
        put_called(alloc, &mut called, Numbered { number, dependency })?;
    }
    Ok(called)
}

/// Puts a dependency behind those that are called so too.
fn put_called<'a>(
    alloc: Global,
    called: &mut HashMap<&'a str, Vec<Numbered<'a>>>,
    one: Numbered<'a>,
) -> Result<(), AllocError>
    ensures { OnOk result (PutsCalled called.old one.entry called.new) }
{
    put_behind(alloc, called, one.dependency.name.as_str(), one)
}
