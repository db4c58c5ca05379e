//! What is read of a file so far.

ghost use Rattle.std.specs.Prelude.{◌≡◌, IfOk, map};
ghost use Rattle.semver.specs.Identifiers.{parts_of};
ghost use Rattle.index_reader.specs.Files.{has_version, with_skip, with_record, with_found, no_lines, file_view};
ghost use Rattle.index_reader.specs.inner.BareVersions.{bare, WithoutBuild, Agrees};
ghost use Rattle.index_lines.specs.Views.{record_view};

use crate::skip::Skip;
use features::PackageName;
use index_lines::{Record, SkipReason, is_checksum};
use semver::{BuildMetadata, Version};
use std::alloc::{AllocError, Global};
use std::collections::BTreeSet;

/// What the lines of a file say so far.
#[derive(Drop)]
pub(crate) struct FileSoFar {
    pub records: Vec<Record>,
    pub skips: Vec<Skip>,
    /// The versions of the records without their build metadata, so that those of equal precedence are equal.
    kept: BTreeSet<Version>,
    ghost without_build: { WithoutBuild kept.keys },
    ghost agrees: { Agrees kept.keys records.items },
}

impl FileSoFar {
    /// No lines yet, with room for the records of so many.
    pub(crate) fn with_room(alloc: Global, lines: usize) -> Result<FileSoFar, AllocError>
        ensures { IfOk result (λ f. file_view f.records.items f.skips.items ≡ no_lines) }
    {
        Ok(FileSoFar {
            records: Vec::with_capacity(alloc, lines)?,
            skips: Vec::new(alloc),
            kept: BTreeSet::new(alloc),
        })
    }

    /// With a line that is skipped.
    pub(crate) fn with_skip(
        mut self,
        name: &PackageName,
        line: u64,
        reason: SkipReason,
    ) -> Result<FileSoFar, AllocError>
        ensures { IfOk result (λ f. file_view f.records.items f.skips.items
            ≡ with_skip name.now line reason (file_view self.records.items self.skips.items)) }
    {
        let name = name.clone()?;
        self.skips.push(Skip { name, line, reason })?;
        Ok(self)
    }

    /// With what a line says. Of the reasons to skip it, an earlier version of equal precedence comes before a checksum
    /// that is none.
    pub(crate) fn with_found(
        self,
        name: &PackageName,
        line: u64,
        found: Record,
    ) -> Result<FileSoFar, AllocError>
        ensures { IfOk result (λ f. file_view f.records.items f.skips.items
            ≡ with_found name.now line (record_view found) (file_view self.records.items self.skips.items)) }
    {
        if is_checksum(found.checksum.as_str()) {
            return self.with_record(name, line, found);
        }
        if self.has_version(&found.version)? {
            return self.with_skip(name, line, SkipReason::Duplicate);
        }
        self.with_skip(name, line, SkipReason::BadChecksum)
    }

    /// Whether a record that is kept has a version of equal precedence.
    fn has_version(&self, version: &Version) -> Result<bool, AllocError>
        ensures { IfOk result (λ b. b ≡ has_version (map record_view self.now.records.items) (parts_of version.now)) }
    {
        let version = without_build(version)?;
        Ok(self.kept.contains(&version))
    }

    /// With a record, unless an earlier one has a version of equal precedence.
    fn with_record(
        mut self,
        name: &PackageName,
        line: u64,
        found: Record,
    ) -> Result<FileSoFar, AllocError>
        ensures { IfOk result (λ f. file_view f.records.items f.skips.items
            ≡ with_record name.now line (record_view found) (file_view self.records.items self.skips.items)) }
    {
        let version = without_build(&found.version)?;
        if !self.kept.insert(version)? {
            return self.with_skip(name, line, SkipReason::Duplicate);
        }
        self.records.push(found)?;
        Ok(self)
    }
}

/// A version without its build metadata, which doesn't count in precedence (SemVer 2.0.0, section 10).
fn without_build(version: &Version) -> Result<Version, AllocError>
    ensures { IfOk result (λ v. parts_of v ≡ bare (parts_of version.now)) }
{
    Ok(Version {
        major: version.major,
        minor: version.minor,
        patch: version.patch,
        pre: version.pre.clone()?,
        build: BuildMetadata::empty(),
    })
}
