//! The dependencies that no version fits, of those that the axioms of a derivation speak of.

use crate::facts::kind_of;
use crate::terms::terms_of;
use derivations::Derivation;
use features::DependencyParts;
use lookups::{Cause, Numbers, Problem, cause_in, dependency_at, is_unmatched};
use std::alloc::{AllocError, Global};
use vertices::OwnerRef;

/// The dependencies that no version fits, of those that the axioms of a derivation speak of: of each name the first,
/// and of at most so many names.
pub fn unmatched_in<'a>(
    alloc: Global,
    problem: Problem<'a>,
    derivation: &'a Derivation,
    most: usize,
) -> Result<Vec<&'a DependencyParts>, AllocError> {
    let mut numbers = Numbers::new(alloc, problem);
    let mut found = Vec::new(alloc);
    for number in 0..derivation.len() {
        if found.len() >= most {
            break;
        }
        if let Some(kind) = kind_of(derivation, number) {
            let terms = terms_of(alloc, derivation, number)?;
            if let Some(cause) = cause_in(alloc, &mut numbers, kind, &terms)? {
                put_unmatched(&mut found, &problem, cause)?;
            }
        }
    }
    Ok(found)
}

/// Adds the dependency of a cause, if no version fits it and none of its name is there yet.
fn put_unmatched<'a>(
    found: &mut Vec<&'a DependencyParts>,
    problem: &Problem<'a>,
    cause: Cause<'a>,
) -> Result<(), AllocError> {
    let Some(dependency) = needed_by(problem, cause) else {
        return Ok(());
    };
    if is_unmatched(problem, dependency) && !has_name(found, dependency) {
        found.push(dependency)?;
    }
    Ok(())
}

/// The dependency that an owner needs, or that a feature of it enables.
fn needed_by<'a>(problem: &Problem<'a>, cause: Cause<'a>) -> Option<&'a DependencyParts> {
    match cause {
        Cause::Need(owner, number) => dependency_at(problem, &owner, number),
        Cause::Enabling(name, version, _, _, number) | Cause::Asking(name, version, _, _, number) =>
            { dependency_at(problem, &OwnerRef::Version(name, version), number) }
        _ => None,
    }
}

fn has_name(found: &[&DependencyParts], dependency: &DependencyParts) -> bool {
    found
        .iter()
        .any(|other| other.real_name == dependency.real_name)
}
