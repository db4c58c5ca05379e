//! Whether what was read again is what was written.

ghost use Rattle.std.specs.Prelude.{◌≡◌, option_map};
ghost use Rattle.std.specs.List.{list_all, zip};
ghost use Rattle.model.specs.Content.{same_version, same_option};
ghost use Rattle.lockfile.specs.inner.Views.{package_view, package_views};
ghost use Rattle.resolver.specs.inner.Same.{same_package, same_content};

use classes::same_version;
use lockfile::{LockContent, Package};

/// Whether two contents are the same.
pub(crate) fn same_content(a: &LockContent, b: &LockContent) -> bool
    ensures { result ≡ same_content a.now b.now }
{
    same_packages(a.packages(), b.packages())
}

fn same_packages(a: &[Package], b: &[Package]) -> bool
    ensures { result ≡ same_content (package_views a.now) (package_views b.now) }
{
    a.len() == b.len() && all_same(a, b)
}

/// Whether packages are the same, place by place, as far as both lists go.
fn all_same(a: &[Package], b: &[Package]) -> bool
    ensures { result ≡ list_all (λ p. same_package (package_view p.0) (package_view p.1)) (zip a.now b.now) }
{
    a.iter().zip(b).all(|(p, r)| same_package(p, r))
}

fn same_package(a: &Package, b: &Package) -> bool
    ensures { result ≡ same_package (package_view a.now) (package_view b.now) }
{
    a.name == b.name
        && same_version(&a.version, &b.version)
        && same_text(a.source(), b.source())
        && same_text(a.checksum(), b.checksum())
        && a.list.as_slice() == b.list.as_slice()
}

fn same_text(a: Option<&str>, b: Option<&str>) -> bool
    ensures { result ≡ same_option (option_map (λ s. s.now) a.entry) (option_map (λ s. s.now) b.entry) }
{
    match (a, b) {
        (Some(a), Some(b)) => a == b,
        (None, None) => true,
        _ => false,
    }
}
