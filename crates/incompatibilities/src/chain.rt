//! How an incompatibility came out of earlier ones.

ghost use Rattle.incompatibilities.specs.inner.Chains.{ChainView};
ghost use Rattle.std.specs.Prelude.{◌≡◌, ◌++◌, ◌∷◌, [], OnErr, OnOk};

use crate::origin::Id;
use std::alloc::{AllocError, Global};
use std::marker::Model;

/// One combination: what there is so far, with an entry, at a vertex.
#[derive(Clone, Copy, PartialEq, Eq, Debug)]
pub struct Link {
    /// The entry.
    pub with: Id,
    /// The vertex.
    pub vertex: usize,
}

/// Combinations one after the other: an entry is combined with another one at a vertex, what comes out with the next
/// one, and so on. What comes out at the end is what it is the chain of; what came out before it is kept nowhere.
#[derive(Drop)]
pub struct Chain {
    first: Id,
    links: Vec<Link>,
}

impl Model for Chain {
    ghost use Rattle.incompatibilities.specs.inner.Chains.{ChainView};

    ghost Value = { ChainView };

    ghost view = { λ c. record { first = c.first; links = c.links.items } };
}

impl Chain {
    /// The chain that is an entry alone.
    pub fn new(alloc: Global, first: Id) -> Chain
        ensures first { result.first ≡ first }
        ensures links { result.links ≡ [] }
    {
        Chain {
            first,
            links: Vec::new(alloc),
        }
    }

    /// The entry that it begins with.
    pub fn first(&self) -> Id
        ensures { result ≡ self.now.first }
    {
        self.first
    }

    /// Its combinations, the first one first.
    pub fn links(&self) -> &[Link]
        ensures { result.now ≡ self.now.links }
    {
        &self.links
    }

    /// Puts a combination at the end.
    pub fn push(&mut self, link: Link) -> Result<(), AllocError>
        ensures first { self.new.first ≡ self.old.first }
        ensures ok { OnOk result (self.new.links ≡ self.old.links ++ link ∷ []) }
        ensures err { OnErr result (self.new.links ≡ self.old.links) }
    {
        self.links.push(link)?;
        Ok(())
    }

    /// Drops the room past its last combination: searches keep many chains.
    pub fn shrink(&mut self)
        ensures { self.new ≡ self.old }
    {
        self.links.shrink_to_fit();
    }
}
