//! What a package brings: its dependencies and its features.

ghost use Rattle.std.specs.Prelude.{◌≡◌, IfOk};

use crate::feature_name::FeatureName;
use crate::name::PackageName;
use crate::requirement::Requirement;
use crate::table::FeatureTable;
use std::alloc::{AllocError, Global};
use std::marker::Model;
use std::ops::Deref;
use std::rc::Rc;

/// What a dependency is needed for.
#[derive(Clone, Copy, Debug, PartialEq, Eq)]
pub enum DependencyKind {
    Normal,
    Dev,
    Build,
}

/// What is written of a dependency.
#[derive(Drop)]
pub struct DependencyParts {
    /// The name that it is called by.
    pub name: PackageName,
    /// The name of the package that it means: another one where it is renamed.
    pub real_name: PackageName,
    pub requirement: Requirement,
    pub optional: bool,
    /// Whether it asks for the feature `default`.
    pub default_features: bool,
    /// The features that it asks for besides.
    pub features: Vec<FeatureName>,
}

/// A dependency of a manifest or of an index line (Cargo book, "Specifying Dependencies"). It acts as a reference to
/// its parts, and a clone has the same: a dependency of a version mostly stands word for word in the next one too.
#[derive(Drop)]
pub struct Dependency {
    parts: Rc<DependencyParts>,
}

impl Model for Dependency {
    ghost use Rattle.features.specs.declared.dependency.DependencyParts.{DependencyParts};

    ghost Value = { DependencyParts };

    ghost view = { λ d. d.parts.value };
}

impl Dependency {
    /// A dependency of these parts.
    pub fn new(alloc: Global, parts: DependencyParts) -> Result<Dependency, AllocError>
        ensures { IfOk result (λ d. d ≡ parts) }
    {
        Ok(Dependency {
            parts: Rc::new(alloc, parts)?,
        })
    }
}

impl Deref for Dependency {
    type Target = DependencyParts;

    ghost deref_gives = { λ d parts. parts ≡ d };

    fn deref(&self) -> &DependencyParts {
        &self.parts
    }
}

impl Clone for Dependency {
    ghost is_clone = { λ d copy. copy ≡ d };

    fn clone(&self) -> Result<Dependency, AllocError> {
        Ok(Dependency {
            parts: self.parts.clone()?,
        })
    }
}

/// What the root or a version of a package brings.
#[derive(Drop)]
pub struct Summary {
    /// The dependencies that take part, by number.
    pub dependencies: Vec<Dependency>,
    pub features: FeatureTable,
}
