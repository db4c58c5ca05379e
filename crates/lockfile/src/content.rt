//! The content of a lock.

ghost use Rattle.std.specs.Prelude.{◌≡◌};
ghost use Rattle.model.specs.Order.{IsContent};
ghost use Rattle.lockfile.specs.inner.Views.{package_views};

use crate::package::Package;
use std::marker::Model;

/// What a lock says: its packages in package order, no two alike in name, version and source.
#[derive(Drop)]
pub struct LockContent {
    packages: Vec<Package>,
}

impl Model for LockContent {
    ghost use Rattle.model.specs.Content.{Content};
    ghost use Rattle.model.specs.Order.{IsContent};
    ghost use Rattle.lockfile.specs.inner.Views.{package_views};

    ghost Value = { Content };

    ghost view = { λ c. package_views c.packages.items };

    ghost invariant = { λ c. IsContent (package_views c.packages.items) };
}

impl LockContent {
    /// The content of packages that stand in package order.
    pub fn new(packages: Vec<Package>) -> LockContent
        requires { IsContent (package_views packages.items) }
        ensures { result ≡ package_views packages.items }
    {
        LockContent { packages }
    }

    /// The packages, in package order.
    pub fn packages(&self) -> &[Package]
        ensures views { package_views result.now ≡ self.now }
        ensures content { IsContent self.now }
    {
        self.packages.as_slice()
    }
}
