//! Versions that a content may have.

ghost use Rattle.catalogue.specs.Stores.{IsStore};

use catalogue::Catalogue;
use facts::Node;
use features::PackageName;
use indexmap::IndexSet;

/// The candidate of a name at a place of its `versions`.
#[derive(Debug, Drop, PartialEq, Eq, Hash)]
pub struct MetVersion {
    pub name: PackageName,
    pub place: usize,
}

/// The versions that are met, with what stands there.
#[derive(Drop)]
pub struct Met<'a> {
    /// In the order in which they are met; the root is none of them.
    pub versions: IndexSet<MetVersion>,
    /// The root, then what stands at each of them.
    pub nodes: Vec<Node<'a>>,
}

/// A catalogue has each name once, and the versions of each rise.
pub fn store_holds(catalogue: &Catalogue)
    ensures { IsStore catalogue.now }
{
    let _ = catalogue.names();
}
