//! The faults of a manifest.

use features::{FeatureFault, FeatureName, PackageName};
use std::alloc::{AllocError, AllocFailed};
use std::fmt;
use thiserror::Error;

/// A part of a manifest, in the order in which the shapes of the parts are looked at.
#[derive(Clone, Copy, Debug, PartialEq, Eq)]
pub enum Part {
    Package,
    Dependencies,
    DevDependencies,
    BuildDependencies,
    /// `[target]` with all that stands in it.
    Target,
    Features,
    Workspace,
    Patch,
    Replace,
}

impl fmt::Display for Part {
    ghost use Rattle.std.specs.Prelude.{Some};
    ghost use Rattle.manifest.specs.Faults.{part_name};

    ghost output = { λ part. Some (part_name part) };

    fn fmt<W: fmt::Write>(&self, f: &mut fmt::Formatter<W>) -> fmt::Result {
        f.write_str(match self {
            Part::Package => "package",
            Part::Dependencies => "dependencies",
            Part::DevDependencies => "dev-dependencies",
            Part::BuildDependencies => "build-dependencies",
            Part::Target => "target",
            Part::Features => "features",
            Part::Workspace => "workspace",
            Part::Patch => "patch",
            Part::Replace => "replace",
        })
    }
}

/// A source of packages that is unsupported here, in the order in which they are looked for.
#[derive(Clone, Copy, Debug, PartialEq, Eq)]
pub enum Unsupported {
    /// `[patch]` isn't empty.
    Patch,
    /// `[replace]` isn't empty.
    Replace,
    /// A workspace has members, or a package or dependency takes what it is from a workspace.
    Workspace,
    /// A dependency has the key `git`.
    Git,
    /// A dependency has the key `path`.
    Path,
    /// A dependency has the key `registry` or `registry-index`.
    Registry,
}

impl fmt::Display for Unsupported {
    ghost use Rattle.std.specs.Prelude.{Some};
    ghost use Rattle.manifest.specs.Faults.{source_name};

    ghost output = { λ source. Some (source_name source) };

    fn fmt<W: fmt::Write>(&self, f: &mut fmt::Formatter<W>) -> fmt::Result {
        f.write_str(match self {
            Unsupported::Patch => "Patch",
            Unsupported::Replace => "Replace",
            Unsupported::Workspace => "Workspace",
            Unsupported::Git => "Git",
            Unsupported::Path => "Path",
            Unsupported::Registry => "Registry",
        })
    }
}

/// What is wrong with a feature of a manifest, in the order in which it is looked for. As text: the fault's code.
#[derive(Clone, Copy, Debug, PartialEq, Eq)]
pub enum TableFault {
    /// An entry `g` names no feature.
    NoSuchFeature,
    /// An entry `dep:d`, `d/g` or `d?/g` names no dependency.
    NoSuchDependency,
    /// An entry `dep:d` names a dependency that isn't optional.
    NotOptional,
}

impl fmt::Display for TableFault {
    ghost use Rattle.std.specs.Prelude.{Some};
    ghost use Rattle.manifest.specs.Faults.{table_fault_code};

    ghost output = { λ fault. Some (table_fault_code fault) };

    fn fmt<W: fmt::Write>(&self, f: &mut fmt::Formatter<W>) -> fmt::Result {
        f.write_str(match self {
            TableFault::NoSuchFeature => "F1",
            TableFault::NoSuchDependency => "F2",
            TableFault::NotOptional => "F3",
        })
    }
}

/// The fault of a manifest, in the order in which faults are looked for; memory may be wanting at any point.
#[derive(Debug, Drop, PartialEq, Error)]
pub enum ManifestFault {
    #[error("out of memory")]
    OutOfMemory,
    /// It has more than 1 MiB.
    #[error("the manifest is too large")]
    TooLarge,
    #[error("the manifest is no TOML")]
    NotToml,
    /// A key of this part is absent or of a wrong kind, a name, version or entry doesn't read, a key stands in both of
    /// its spellings, or a dev dependency is optional.
    #[error("the manifest's {0} has another shape")]
    Shape(Part),
    #[error("the manifest asks for an unsupported source: {0}")]
    UnsupportedSource(Unsupported),
    /// The first dependency, by number, whose requirement is none: by the name that the manifest gives it.
    #[error("the requirement of {0} is none")]
    BadRequirement(PackageName),
    /// The lowest fault of the features, at the first feature that has it by the bytes of the names.
    #[error("the feature {1} is refused: {0}")]
    RootFeature(TableFault, FeatureName),
}

impl From<AllocError> for ManifestFault {
    ghost use Rattle.std.specs.Prelude.{◌≡◌};
    ghost use Rattle.manifest.specs.declared.fault.ManifestFault.TheVariants.{OutOfMemory};

    ghost from_gives = { λ _ e. e ≡ OutOfMemory };

    fn from(_e: AllocError) -> ManifestFault {
        ManifestFault::OutOfMemory
    }
}

impl<T: Drop> From<AllocFailed<T>> for ManifestFault {
    ghost use Rattle.std.specs.Prelude.{◌≡◌};
    ghost use Rattle.manifest.specs.declared.fault.ManifestFault.TheVariants.{OutOfMemory};

    ghost from_gives = { λ _ e. e ≡ OutOfMemory };

    fn from(_e: AllocFailed<T>) -> ManifestFault {
        ManifestFault::OutOfMemory
    }
}

impl From<FeatureFault> for ManifestFault {
    ghost use Rattle.std.specs.Prelude.{◌≡◌};
    ghost use Rattle.manifest.specs.Faults.{root_fault};

    ghost from_gives = { λ fault e. e ≡ root_fault fault };

    fn from(fault: FeatureFault) -> ManifestFault {
        match fault {
            FeatureFault::OutOfMemory => ManifestFault::OutOfMemory,
            FeatureFault::NoSuchFeature(feature) => {
                ManifestFault::RootFeature(TableFault::NoSuchFeature, feature)
            }
            FeatureFault::NoSuchDependency(feature) => {
                ManifestFault::RootFeature(TableFault::NoSuchDependency, feature)
            }
            FeatureFault::NotOptional(feature) => {
                ManifestFault::RootFeature(TableFault::NotOptional, feature)
            }
        }
    }
}
