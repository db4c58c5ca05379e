//! The sentences that tell why a package is no candidate: its source, its version or its checksum.

use crate::missing_version::{MissingTold, MissingVersion, why_missing};
use crate::naming::Named;
use crate::no_candidate::NoCandidate;
use crate::package_file::out_of_memory;
use catalogue::Catalogue;
use index_reader::{Folder, FolderFault};
use lockfile::Package;
use std::alloc::{AllocError, Global};

/// What a lock is held against, and whether it has checksums where locks of format 1 have them.
#[derive(Clone, Copy)]
pub(crate) struct Registry<'a> {
    pub(crate) alloc: Global,
    pub(crate) catalogue: &'a Catalogue,
    pub(crate) has_metadata: bool,
}

/// Whether it was told why a package is no candidate.
#[derive(Clone, Copy, Debug, PartialEq, Eq)]
pub(crate) enum Told {
    Reason,
    /// It stands on a list of one that is none either, so nobody knows whether it is needed.
    Nothing,
}

/// Why a package is no candidate. The folder is asked for the file of a version that isn't there.
pub(crate) fn push_no_candidate<F: Folder>(
    text: &mut String,
    registry: Registry<'_>,
    package: &Package,
    is_listed: bool,
    why: NoCandidate,
    folder: &mut F,
) -> Result<Told, FolderFault> {
    let told = match why {
        NoCandidate::NoSource => push_no_source(text, package),
        NoCandidate::OtherSource => push_other_source(text, registry.catalogue, package),
        NoCandidate::NoVersion => {
            return push_no_version(text, registry, package, is_listed, folder);
        }
        NoCandidate::NoChecksum => push_no_checksum(text, package, registry.has_metadata),
        NoCandidate::OtherChecksum => push_other_checksum(text, registry, package),
    };
    told.map_err(out_of_memory)?;
    Ok(Told::Reason)
}

fn push_no_source(text: &mut String, package: &Package) -> Result<(), AllocError> {
    let package = Named(package);
    writeln!(
        text,
        "{package}: it has no source, and isn't the package of the manifest"
    )
}

fn push_other_source(
    text: &mut String,
    catalogue: &Catalogue,
    package: &Package,
) -> Result<(), AllocError> {
    let source = package.source().unwrap_or("");
    let (package, own) = (Named(package), catalogue.source());
    writeln!(text, "{package}: its source is {source}, and not {own}")
}

/// Says of a lock of format 1 where its checksums are.
fn push_no_checksum(
    text: &mut String,
    package: &Package,
    has_metadata: bool,
) -> Result<(), AllocError> {
    let package = Named(package);
    write!(text, "{package}: it has no checksum")?;
    if has_metadata {
        text.push_str(
            " (a lock of format 1 has them in [metadata], which isn't read: a known difference)",
        )?;
    }
    text.push_str("\n")
}

/// Has both checksums, that of the lock and that of the index.
fn push_other_checksum(
    text: &mut String,
    registry: Registry<'_>,
    package: &Package,
) -> Result<(), AllocError> {
    let locked = package.checksum().unwrap_or("");
    match registry
        .catalogue
        .candidate(&package.name, &package.version)
    {
        Some(candidate) => {
            let own = candidate.checksum.to_text(registry.alloc)?;
            let package = Named(package);
            writeln!(
                text,
                "{package}: its checksum is {locked} in the lock, and {own} in this index"
            )
        }
        None => Ok(()),
    }
}

/// `log 0.4.30: this index has no such version; the newest is 0.4.20`.
fn push_no_version<F: Folder>(
    text: &mut String,
    registry: Registry<'_>,
    package: &Package,
    is_listed: bool,
    folder: &mut F,
) -> Result<Told, FolderFault> {
    let name = &package.name;
    let why = why_missing(registry.alloc, registry.catalogue, package, folder)?;
    if is_listed && matches!(why, MissingVersion::Unasked) {
        return Ok(Told::Nothing);
    }
    let package = Named(package);
    let missing = MissingTold { name, why: &why };
    writeln!(text, "{package}: {missing}").map_err(out_of_memory)?;
    Ok(Told::Reason)
}
