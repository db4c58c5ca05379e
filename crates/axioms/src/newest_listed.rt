//! Whether what `NewestListed` names is there: two dependencies on one package, with the class of each.

ghost use Rattle.std.specs.Prelude.{◌≡◌};
ghost use Rattle.classes.specs.Classes.{class_view};
ghost use Rattle.features.specs.Views.{dependency_view};
ghost use Rattle.model.specs.Causes.{dependency_at, is_cause, is_overtaken, of_newest};
ghost use Rattle.model.specs.Content.{passes};
ghost use Rattle.vertices.specs.inner.RefViews.{owner_ref_view};
ghost use Rattle.axioms.specs.inner.GatheredViews.{problem_of};

use crate::gathered::Gathered;
use classes::Class;
use features::DependencyParts;
use lookups::dependency_at;
use vertices::OwnerRef;

/// Whether two dependencies are there, and the second overtakes the first: it leads to a higher class, to which the
/// first may lead too.
pub(crate) fn is_newest<'a>(
    gathered: &Gathered<'a>,
    owner: &OwnerRef<'_>,
    number: usize,
    other: usize,
    class: Class,
    higher: Class,
) -> bool
    ensures { result ≡ is_cause (problem_of gathered.now)
        (of_newest (owner_ref_view owner.now) number other (class_view class) (class_view higher)) }
{
    number != other && are_newest(gathered, owner, number, other, class, higher)
}

/// The same of numbers that differ.
fn are_newest<'a>(
    gathered: &Gathered<'a>,
    owner: &OwnerRef<'_>,
    number: usize,
    other: usize,
    class: Class,
    higher: Class,
) -> bool
    ensures { result ≡ passes (λ d. passes (is_overtaken (problem_of gathered.now) (class_view class)
        (class_view higher) d) (dependency_at (problem_of gathered.now) (owner_ref_view owner.now) other))
        (dependency_at (problem_of gathered.now) (owner_ref_view owner.now) number) }
{
    match dependency_at(&gathered.problem, owner, number) {
        Some(dependency) => overtakes(gathered, owner, dependency, other, class, higher),
        None => false,
    }
}

/// The same where the first of them is there.
fn overtakes<'a>(
    gathered: &Gathered<'a>,
    owner: &OwnerRef<'_>,
    dependency: &'a DependencyParts,
    other: usize,
    class: Class,
    higher: Class,
) -> bool
    ensures { result ≡ passes (is_overtaken (problem_of gathered.now) (class_view class) (class_view higher)
        (dependency_view dependency.now))
        (dependency_at (problem_of gathered.now) (owner_ref_view owner.now) other) }
{
    match dependency_at(&gathered.problem, owner, other) {
        Some(other) => is_overtaken(gathered, class, higher, dependency, other),
        None => false,
    }
}

/// Two dependencies on one package, of which the first matches a version of the higher class of the second.
fn is_overtaken<'a>(
    gathered: &Gathered<'a>,
    class: Class,
    higher: Class,
    dependency: &'a DependencyParts,
    other: &'a DependencyParts,
) -> bool
    ensures { result ≡ is_overtaken (problem_of gathered.now) (class_view class) (class_view higher)
        (dependency_view dependency.now) (dependency_view other.now) }
{
    dependency.real_name == other.real_name
        && gathered.has_class(class, dependency)
        && gathered.has_class(higher, other)
        && class.is_lower(higher)
        && gathered.has_class(higher, dependency)
}
