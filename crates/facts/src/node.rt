//! A package among those that count.

use features::Summary;

/// A package: what it brings, where its dependencies lead, and whether it is here from the start.
#[derive(Drop)]
pub struct Node<'a> {
    /// None where it brings nothing.
    pub brings: Option<&'a Summary>,
    /// By number, the place to which each dependency leads.
    pub targets: Vec<Option<usize>>,
    pub starts: bool,
}
