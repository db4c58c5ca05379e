//! How the owners and dependencies that a derivation speaks of are called.

use features::DependencyParts;
use lookups::{Problem, dependency_at, is_unmatched};
use std::alloc::AllocError;
use vertices::OwnerRef;

/// The name of the root, or `NAME VERSION`.
pub(crate) fn push_owner(
    text: &mut String,
    problem: &Problem<'_>,
    owner: &OwnerRef<'_>,
) -> Result<(), AllocError> {
    match owner {
        OwnerRef::Root => {
            let name = problem.manifest.name();
            write!(text, "{name}")
        }
        OwnerRef::Version(name, version) => write!(text, "{name} {version}"),
    }
}

/// `b ^1` of the dependency of an owner that has this number, and that no version fits it where that is so.
pub(crate) fn push_dependency(
    text: &mut String,
    problem: &Problem<'_>,
    owner: &OwnerRef<'_>,
    number: usize,
) -> Result<(), AllocError> {
    match dependency_at(problem, owner, number) {
        Some(dependency) => push_wish(text, problem, dependency),
        None => write!(text, "its dependency {number}"),
    }
}

/// `b ^1 as c`, and a note where no candidate is matched.
fn push_wish(
    text: &mut String,
    problem: &Problem<'_>,
    dependency: &DependencyParts,
) -> Result<(), AllocError> {
    let name = &dependency.real_name;
    let requirement = &dependency.requirement;
    write!(text, "{name} {requirement}")?;
    if dependency.name != *name {
        let called = &dependency.name;
        write!(text, " as {called}")?;
    }
    if is_unmatched(problem, dependency) {
        push_unmatched(text, problem, dependency)
    } else {
        Ok(())
    }
}

/// That no version fits, or that the index has none.
fn push_unmatched(
    text: &mut String,
    problem: &Problem<'_>,
    dependency: &DependencyParts,
) -> Result<(), AllocError> {
    let versions = problem.catalogue.versions(&dependency.real_name);
    match versions.last() {
        Some(newest) => write!(
            text,
            " (no version fits; the newest in this index is {newest})"
        ),
        None => text.push_str(" (no version of it can be used)"),
    }
}
