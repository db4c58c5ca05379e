//! Whether a class of a name is taken twice.

ghost use Rattle.std.specs.Prelude.{◌≡◌, ◌↔◌, ◌<◌, ◌≤◌, ◌≢◌, ℕ, length, false, MatchOption};
ghost use Rattle.model.specs.Content.{Problem};
ghost use Rattle.model.specs.Verdict.{IsFreeOf, two_in_class};
ghost use Rattle.model.specs.Order.{IsContent};
ghost use Rattle.lockfile.specs.inner.Views.{package_view, package_views};
ghost use Rattle.selection.specs.inner.Graphs.{IsOnlyRoot};
ghost use Rattle.selection.specs.inner.Names.{is_like};

use classes::{Class, same_class};
use lockfile::Package;

/// Whether the package at a place isn't the root, and an earlier one other than the root has its name and class: in
/// package order these stand side by side, but for the root.
pub(crate) fn is_second(content: &[Package], root: usize, at: usize) -> bool
    requires content { IsContent (package_views content.now) }
    requires at { at < length content.now }
    ensures { (q : Problem) → IsOnlyRoot q (package_views content.now) root
        → (result ≡ false) ↔ IsFreeOf q (package_views content.now) two_in_class at }
{
    if at == root {
        return false;
    }
    match place_before(root, at) {
        Some(before) => is_like(&content[before], &content[at]),
        None => false,
    }
}

/// The last place before this one that isn't the root's.
pub fn place_before(root: usize, at: usize) -> Option<usize>
    ensures { MatchOption result ((m : ℕ) → m < at → m ≡ root)
        (λ b. (b < at) × (b ≢ root) × ((m : ℕ) → m < at → m ≢ root → m ≤ b)) }
{
    if at == 0 {
        None
    } else if at - 1 != root {
        Some(at - 1)
    } else if root == 0 {
        None
    } else {
        Some(root - 1)
    }
}

/// Whether two packages have one name and one class.
pub fn is_like(a: &Package, b: &Package) -> bool
    ensures { result ≡ is_like (package_view a.now) (package_view b.now) }
{
    a.name == b.name && same_class(&Class::of(&a.version), &Class::of(&b.version))
}
