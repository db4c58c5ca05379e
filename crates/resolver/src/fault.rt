//! Why a run has no answer, each with the line that the program prints.

use catalogue::{Limit, LoadFault};
use derivations::DerivationFault;
use features::{FeatureName, PackageName};
use lockfile::LockFault;
use manifest::{ManifestFault, Part, TableFault, Unsupported};
use semver::Version;
use std::alloc::AllocError;
use std::fmt;

/// What is larger than its limit.
#[derive(Debug, Drop)]
pub enum TooLarge {
    /// The manifest has more than 1 MiB.
    Manifest,
    /// The lock has more than 64 MiB.
    Lock,
    /// The names asked for, a file or its lines.
    Index(Limit),
}

/// Why a run has no answer. The numbers are those of the printed lines, in the order in which the faults are looked
/// for.
#[derive(Debug, Drop)]
pub enum Fault {
    /// 1: memory was wanting.
    OutOfMemory,
    /// 2: the manifest is no TOML.
    ManifestNotToml,
    /// 3: this part of the manifest has another shape.
    ManifestShape(Part),
    /// 4: the manifest asks for a source of this kind.
    UnsupportedSource(Unsupported),
    /// 5: the requirement of the dependency called so doesn't read.
    BadRequirement(PackageName),
    /// 6: the feature table has this fault at this feature.
    RootFeature(TableFault, FeatureName),
    /// 7: the lock is no TOML.
    LockNotToml,
    /// 8: the lock's `version` is a whole number other than 1 to 4.
    LockVersion,
    /// 9: the lock breaks another rule.
    LockShape,
    /// 10: the folder failed at this path.
    FolderFailed(String),
    /// 11: a limit is passed.
    TooLarge(TooLarge),
    /// 12: a locked package has another checksum than the index.
    ChecksumChanged(PackageName, Version),
    /// 14: the spelling of the new lock is past a lock's limit, or doesn't read as the same content.
    NotReadBack,
}

/// Why a derivation isn't checked.
#[derive(Debug, Drop)]
pub enum CheckFault {
    /// An input has this fault, or memory was wanting.
    Input(Fault),
    /// The bytes are no derivation.
    Proof(DerivationFault),
}

impl fmt::Display for Fault {
    ghost use Rattle.std.specs.Prelude.{Some};
    ghost use Rattle.resolver.specs.Texts.{fault_text};

    ghost output = { λ fault. Some (fault_text fault) };

    fn fmt<W: fmt::Write>(&self, f: &mut fmt::Formatter<W>) -> fmt::Result {
        match self {
            Fault::OutOfMemory => f.write_str("fault 1 OutOfMemory"),
            Fault::ManifestNotToml => f.write_str("fault 2 ManifestNotToml"),
            Fault::ManifestShape(part) => write!(f, "fault 3 ManifestShape {part}"),
            Fault::UnsupportedSource(kind) => write!(f, "fault 4 UnsupportedSource {kind}"),
            Fault::BadRequirement(name) => write!(f, "fault 5 BadRequirement at {name}"),
            Fault::RootFeature(fault, feature) => {
                write!(f, "fault 6 RootFeature {fault} at {feature}")
            }
            Fault::LockNotToml => f.write_str("fault 7 LockNotToml"),
            Fault::LockVersion => f.write_str("fault 8 LockVersion"),
            Fault::LockShape => f.write_str("fault 9 LockShape"),
            Fault::FolderFailed(path) => write!(f, "fault 10 FolderFailed at {path}"),
            Fault::TooLarge(which) => write!(f, "fault 11 TooLarge {which}"),
            Fault::ChecksumChanged(name, version) => {
                write!(f, "fault 12 ChecksumChanged at {name} {version}")
            }
            Fault::NotReadBack => f.write_str("fault 14 NotReadBack"),
        }
    }
}

impl fmt::Display for TooLarge {
    ghost use Rattle.std.specs.Prelude.{Some};
    ghost use Rattle.resolver.specs.Texts.{large_text};

    ghost output = { λ fault. Some (large_text fault) };

    fn fmt<W: fmt::Write>(&self, f: &mut fmt::Formatter<W>) -> fmt::Result {
        match self {
            TooLarge::Manifest => f.write_str("manifest"),
            TooLarge::Lock => f.write_str("lock"),
            TooLarge::Index(limit) => write!(f, "{limit}"),
        }
    }
}

impl fmt::Display for CheckFault {
    ghost use Rattle.std.specs.Prelude.{Some};
    ghost use Rattle.resolver.specs.Texts.{check_fault_text};

    ghost output = { λ fault. Some (check_fault_text fault) };

    fn fmt<W: fmt::Write>(&self, f: &mut fmt::Formatter<W>) -> fmt::Result {
        match self {
            CheckFault::Input(fault) => write!(f, "{fault}"),
            CheckFault::Proof(fault) => write!(f, "fault {fault}"),
        }
    }
}

impl From<AllocError> for Fault {
    ghost use Rattle.std.specs.Prelude.{◌≡◌};
    ghost use Rattle.resolver.specs.declared.fault.Fault.TheVariants.{OutOfMemory};

    ghost from_gives = { λ _ e. e ≡ OutOfMemory };

    fn from(_e: AllocError) -> Fault {
        Fault::OutOfMemory
    }
}

impl From<ManifestFault> for Fault {
    ghost use Rattle.std.specs.Prelude.{◌≡◌};
    ghost use Rattle.resolver.specs.Inputs.{of_manifest};

    ghost from_gives = { λ e fault. fault ≡ of_manifest e };

    fn from(fault: ManifestFault) -> Fault {
        match fault {
            ManifestFault::OutOfMemory => Fault::OutOfMemory,
            ManifestFault::TooLarge => Fault::TooLarge(TooLarge::Manifest),
            ManifestFault::NotToml => Fault::ManifestNotToml,
            ManifestFault::Shape(part) => Fault::ManifestShape(part),
            ManifestFault::UnsupportedSource(kind) => Fault::UnsupportedSource(kind),
            ManifestFault::BadRequirement(name) => Fault::BadRequirement(name),
            ManifestFault::RootFeature(fault, feature) => Fault::RootFeature(fault, feature),
        }
    }
}

impl From<LockFault> for Fault {
    ghost use Rattle.std.specs.Prelude.{◌≡◌};
    ghost use Rattle.resolver.specs.Inputs.{of_lock};

    ghost from_gives = { λ e fault. fault ≡ of_lock e };

    fn from(fault: LockFault) -> Fault {
        match fault {
            LockFault::OutOfMemory => Fault::OutOfMemory,
            LockFault::TooLarge => Fault::TooLarge(TooLarge::Lock),
            LockFault::NotToml => Fault::LockNotToml,
            LockFault::LockVersion => Fault::LockVersion,
            LockFault::LockShape => Fault::LockShape,
        }
    }
}

impl From<LoadFault> for Fault {
    ghost use Rattle.std.specs.Prelude.{◌≡◌};
    ghost use Rattle.resolver.specs.Inputs.{of_load};

    ghost from_gives = { λ e fault. fault ≡ of_load e };

    fn from(fault: LoadFault) -> Fault {
        match fault {
            LoadFault::OutOfMemory => Fault::OutOfMemory,
            LoadFault::FolderFailed(path) => Fault::FolderFailed(path),
            LoadFault::TooLarge(limit) => Fault::TooLarge(TooLarge::Index(limit)),
            LoadFault::ChecksumChanged(name, version) => Fault::ChecksumChanged(name, version),
        }
    }
}

impl From<Fault> for CheckFault {
    ghost use Rattle.std.specs.Prelude.{◌≡◌};
    ghost use Rattle.resolver.specs.declared.fault.CheckFault.TheVariants.{Input};

    ghost from_gives = { λ fault e. e ≡ Input fault };

    fn from(fault: Fault) -> CheckFault {
        CheckFault::Input(fault)
    }
}

impl From<AllocError> for CheckFault {
    ghost use Rattle.std.specs.Prelude.{◌≡◌};
    ghost use Rattle.resolver.specs.declared.fault.CheckFault.TheVariants.{Input};
    ghost use Rattle.resolver.specs.declared.fault.Fault.TheVariants.{OutOfMemory};

    ghost from_gives = { λ _ e. e ≡ Input OutOfMemory };

    fn from(_e: AllocError) -> CheckFault {
        CheckFault::Input(Fault::OutOfMemory)
    }
}

impl From<DerivationFault> for CheckFault {
    ghost use Rattle.std.specs.Prelude.{◌≡◌};
    ghost use Rattle.resolver.specs.Inputs.{of_derivation};

    ghost from_gives = { λ fault e. e ≡ of_derivation fault };

    fn from(fault: DerivationFault) -> CheckFault {
        match fault {
            DerivationFault::OutOfMemory => CheckFault::Input(Fault::OutOfMemory),
            fault => CheckFault::Proof(fault),
        }
    }
}
