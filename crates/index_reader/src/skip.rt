//! What a line of an index file is that gives no record.

use features::PackageName;
use index_lines::SkipReason;

/// A line that is skipped.
#[derive(Debug, Drop)]
pub struct Skip {
    /// The package whose file it stands in.
    pub name: PackageName,
    /// Its number in the file, from 1.
    pub line: u64,
    pub reason: SkipReason,
}
