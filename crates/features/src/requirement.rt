//! The requirement of a dependency.

ghost use Rattle.std.specs.Prelude.{◌≡◌, IfOk};

use semver::VersionReq;
use std::alloc::{AllocError, Global};
use std::fmt;
use std::marker::Model;
use std::ops::Deref;
use std::rc::Rc;

/// A requirement. It acts as a reference to what was read, and a clone has the same: an index has few that differ.
#[derive(Drop)]
pub struct Requirement {
    read: Rc<VersionReq>,
}

impl Model for Requirement {
    ghost use Rattle.semver.specs.declared.VersionReq.{VersionReq};

    ghost Value = { VersionReq };

    ghost view = { λ r. r.read.value };
}

impl Requirement {
    /// The requirement that was read as this.
    pub fn new(alloc: Global, read: VersionReq) -> Result<Requirement, AllocError>
        ensures { IfOk result (λ r. r ≡ read) }
    {
        Ok(Requirement {
            read: Rc::new(alloc, read)?,
        })
    }
}

impl Deref for Requirement {
    type Target = VersionReq;

    ghost deref_gives = { λ r read. read ≡ r };

    fn deref(&self) -> &VersionReq {
        &self.read
    }
}

impl Clone for Requirement {
    ghost is_clone = { λ r copy. copy ≡ r };

    fn clone(&self) -> Result<Requirement, AllocError> {
        Ok(Requirement {
            read: self.read.clone()?,
        })
    }
}

impl fmt::Display for Requirement {
    fn fmt<W: fmt::Write>(&self, f: &mut fmt::Formatter<W>) -> fmt::Result {
        fmt::Display::fmt(&*self.read, f)
    }
}
