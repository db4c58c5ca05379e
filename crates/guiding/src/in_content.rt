//! What is looked for among the packages of a content: what owners are, and where their dependencies lead.

ghost use Rattle.std.specs.List.Sorted.{IsPartitionPoint};
ghost use Rattle.std.specs.Ordering.{is_lt};
ghost use Rattle.std.specs.Prelude.{◌≡◌, ◌≤◌, true, false, find, length, option_map};
ghost use Rattle.classes.specs.Classes.{class_view};
ghost use Rattle.features.specs.Views.{dependency_view};
ghost use Rattle.lockfile.specs.inner.Search.{named_cmp};
ghost use Rattle.lockfile.specs.inner.Views.{package_view, package_views};
ghost use Rattle.model.specs.Selection.{IsValidSelection};
ghost use Rattle.model.specs.Vertices.{same_class};
ghost use Rattle.numbering.specs.inner.KnownProblem.{problem};
ghost use Rattle.vertices.specs.inner.RefViews.{owner_ref_view};
ghost use Rattle.model.specs.Order.{IsContent};
ghost use Rattle.guiding.specs.inner.Found.{is_before, is_locked, is_owner, is_sourceless, led_to};

use classes::{Class, same_class};
use features::{DependencyParts, PackageName};
use lockfile::Package;
use numbering::KnownProblem;
use selection::target;
use std::cmp::Ordering;
use vertices::OwnerRef;

/// The first package without a source: the root is the only one in a valid selection.
fn root_in<'a>(known: &KnownProblem<'_>, content: &'a [Package]) -> Option<&'a Package>
    requires { IsValidSelection (problem known.now) (package_views content.now) }
    ensures { option_map (λ p. p.now) result ≡ find (λ p. is_sourceless (package_view p)) content.entry.now }
{
    // It has the manifest's name, and those of a name stand side by side.
    let rest = &content[lower(content, known.problem.manifest.name())..];
    first_sourceless(rest)
}

/// The first package without a source, one by one.
fn first_sourceless(packages: &[Package]) -> Option<&Package>
    ensures { option_map (λ p. p.now) result ≡ find (λ p. is_sourceless (package_view p)) packages.entry.now }
{
    packages.iter().find(|locked| locked.source.is_none())
}

/// The first package of a name and a class, other than the root: there is no second one in a valid selection.
pub(crate) fn package_in<'a>(
    content: &'a [Package],
    name: &PackageName,
    class: Class,
) -> Option<&'a Package>
    requires { IsContent (package_views content.now) }
    ensures { option_map (λ p. p.now) result
        ≡ find (λ p. is_locked name.now (class_view class) (package_view p)) content.entry.now }
{
    // Those of a name stand side by side, oldest first.
    let rest = &content[before_class(content, name, class)..];
    first_locked(rest, name, class)
}

/// The first package of a name and a class, other than the root, one by one.
fn first_locked<'a>(
    packages: &'a [Package],
    name: &PackageName,
    class: Class,
) -> Option<&'a Package>
    ensures { option_map (λ p. p.now) result
        ≡ find (λ p. is_locked name.now (class_view class) (package_view p)) packages.entry.now }
{
    packages
        .iter()
        .find(|locked| is_locked(locked, name, class))
}

/// How many packages have a lower name, or a version of a lower class.
fn before_class(content: &[Package], name: &PackageName, class: Class) -> usize
    requires { IsContent (package_views content.now) }
    ensures few { result ≤ length content.now }
    ensures place { IsPartitionPoint (λ p. is_before name.now (class_view class) (package_view p) ≡ true)
        (λ p. is_before name.now (class_view class) (package_view p) ≡ false) content.now result }
{
    content.partition_point(|locked| is_before(locked, name, class))
}

fn is_before(locked: &Package, name: &PackageName, class: Class) -> bool
    ensures { result ≡ is_before name.now (class_view class) (package_view locked.now) }
{
    match name_order(locked, name) {
        Ordering::Less => true,
        Ordering::Equal => Class::of(&locked.version).is_lower(class),
        Ordering::Greater => false,
    }
}

/// How many packages have a lower name.
fn lower(content: &[Package], name: &PackageName) -> usize
    requires { IsContent (package_views content.now) }
    ensures few { result ≤ length content.now }
    ensures place { IsPartitionPoint (λ p. is_lt (named_cmp name.now (package_view p)) ≡ true)
        (λ p. is_lt (named_cmp name.now (package_view p)) ≡ false) content.now result }
{
    content.partition_point(|locked| name_order(locked, name) == Ordering::Less)
}

/// Where a package's name stands beside another one.
fn name_order(locked: &Package, name: &PackageName) -> Ordering
    ensures { result ≡ named_cmp name.now (package_view locked.now) }
{
    locked.name.cmp(name)
}

fn is_locked(locked: &Package, name: &PackageName, class: Class) -> bool
    ensures { result ≡ is_locked name.now (class_view class) (package_view locked.now) }
{
    locked.source.is_some()
        && *name == locked.name
        && same_class(&class, &Class::of(&locked.version))
}

/// The package that an owner is.
fn owner_in<'a>(
    known: &KnownProblem<'_>,
    content: &'a [Package],
    owner: &OwnerRef<'_>,
) -> Option<&'a Package>
    requires { IsValidSelection (problem known.now) (package_views content.now) }
    ensures { option_map (λ p. p.now) result
        ≡ find (λ p. is_owner (owner_ref_view owner.now) (package_view p)) content.entry.now }
{
    match owner {
        OwnerRef::Root => root_in(known, content),
        OwnerRef::Version(name, version) => package_in(content, name, Class::of(version)),
    }
}

/// The package that a dependency of an owner leads to, if it is enabled.
pub(crate) fn led_to<'a>(
    known: &KnownProblem<'_>,
    content: &'a [Package],
    owner: &OwnerRef<'_>,
    dependency: &DependencyParts,
) -> Option<&'a Package>
    requires { IsValidSelection (problem known.now) (package_views content.now) }
    ensures { option_map (λ p. package_view p.now) result
        ≡ led_to (package_views content.entry.now) (owner_ref_view owner.now) (dependency_view dependency.now) }
{
    let locked = owner_in(known, content, owner)?;
    let place = target(content, locked.list.as_slice(), dependency)?;
    content.get(place)
}
