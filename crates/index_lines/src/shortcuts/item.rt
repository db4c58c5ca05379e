//! A dependency of a line that is read on its own.

ghost use Rattle.std.specs.Prelude.{◌≡◌, IfOk, Ok, option_map};
ghost use Rattle.model.specs.Outcome.{Gives};
ghost use Rattle.features.specs.inner.Tables.{dep_name_view};
ghost use Rattle.features.specs.Views.{dependency_view};
ghost use Rattle.index_lines.specs.inner.ByParts.{item_of_bytes, taking_part};
ghost use Rattle.index_lines.specs.inner.Plain.{shape_of_item};
ghost use Rattle.index_lines.specs.Shapes.{wants_memory};
ghost use Rattle.index_lines.specs.inner.ShapeViews.{line_dependency_view};

use crate::fault::{LineFault, SkipReason};
use crate::known::KnownDependencies;
use crate::required::{dependency, is_of_index, part_required};
use crate::shape::{DependencyShape, one_dependency};
use crate::shortcuts::plain::plain_dependency;
use crate::texts::check;
use crate::values::read_item;
use crate::written::dep_name;
use features::{DepName, Dependency};
use std::alloc::{AllocError, Global};
use trees::{Scratch, root};

/// A dependency of a line, and the bytes that it was read off.
#[derive(Drop)]
pub(crate) struct ItemRead<'a> {
    pub bytes: &'a [u8],
    /// What it is called.
    pub name: DepName,
    /// None of a dev dependency, which takes no part.
    pub dependency: Option<Dependency>,
    ghost read: { item_of_bytes bytes.now ≡ Ok (dep_name_view name, option_map dependency_view dependency) },
}

impl<'a> ItemRead<'a> {
    /// What these bytes are as a dependency.
    ///
    /// # Errors
    /// `Skipped` where they are none, or one of another registry.
    pub(crate) fn of(
        alloc: Global,
        bytes: &'a [u8],
        scratch: &mut Scratch,
        known: &mut KnownDependencies,
    ) -> Result<ItemRead<'a>, LineFault>
        ensures { IfOk result (λ i. i.bytes.now ≡ bytes.entry.now) }
    {
        let shape = shape_of(alloc, bytes, scratch)?;
        item_in(alloc, bytes, &shape, known)
    }

    /// The same in another line.
    pub(crate) fn again(&self) -> Result<ItemRead<'a>, AllocError>
        ensures { IfOk result (λ i. i.bytes.now ≡ self.now.bytes.now) }
    {
        Ok(ItemRead {
            bytes: self.bytes,
            name: self.called()?,
            dependency: self.taking_part()?,
        })
    }

    /// What it is called.
    pub(crate) fn called(&self) -> Result<DepName, AllocError>
        ensures { IfOk result (λ n. dep_name_view n ≡ dep_name_view self.now.name) }
    {
        Ok(DepName {
            name: self.name.name.clone()?,
            optional: self.name.optional,
        })
    }

    /// The dependency, if it takes part.
    pub(crate) fn taking_part(&self) -> Result<Option<Dependency>, AllocError>
        ensures { IfOk result
            (λ o. option_map dependency_view o ≡ option_map dependency_view self.now.dependency) }
    {
        match &self.dependency {
            Some(dependency) => Ok(Some(dependency.clone()?)),
            None => Ok(None),
        }
    }
}

/// What these bytes say of a dependency: without a tape where a registry spells it so.
fn shape_of<'a>(
    alloc: Global,
    bytes: &'a [u8],
    scratch: &'a mut Scratch,
) -> Result<DependencyShape<'a>, LineFault>
    ensures { Gives wants_memory line_dependency_view result (shape_of_item bytes.entry.now) }
{
    if let Some(shape) = plain_dependency(alloc, bytes)? {
        return Ok(shape);
    }
    let tape = read_item(alloc, bytes, scratch)?;
    one_dependency(alloc, &root(&tape))
}

/// What bytes that say this are as a dependency.
#[tactic(auto, unfolding(crate::specs::inner::ByParts::item_of_bytes))]
fn item_in<'a>(
    alloc: Global,
    bytes: &'a [u8],
    shape: &DependencyShape<'_>,
    known: &mut KnownDependencies,
) -> Result<ItemRead<'a>, LineFault>
    requires { shape_of_item bytes.now ≡ Ok (line_dependency_view shape.now) }
    ensures { IfOk result (λ i. i.bytes.now ≡ bytes.entry.now) }
{
    check(is_of_index(shape), SkipReason::OtherRegistry)?;
    let name = dep_name(shape)?;
    let dependency = taking_part(alloc, shape, known)?;
    Ok(ItemRead {
        bytes,
        name,
        dependency,
    })
}

/// The dependency that one of a line is, if it takes part.
fn taking_part(
    alloc: Global,
    shape: &DependencyShape<'_>,
    known: &mut KnownDependencies,
) -> Result<Option<Dependency>, LineFault>
    ensures { Gives wants_memory (option_map dependency_view) result (taking_part (line_dependency_view shape.now)) }
{
    match shape {
        DependencyShape::Dev(_) => Ok(None),
        DependencyShape::Part(part) => {
            let required = part_required(alloc, part, known)?;
            Ok(Some(dependency(alloc, required, known)?))
        }
    }
}
