//! Why a package is in the lock.

use crate::answers::form::Form;
use changes::tell_steps;
use reports::{Inputs, Meant, PartialId, Way, meant_by};
use std::alloc::{AllocError, Global};

/// Which package of the lock a part of a version asks for.
pub(crate) fn meant_in(
    alloc: Global,
    inputs: &Inputs,
    part: &PartialId,
) -> Result<Meant, AllocError> {
    match &inputs.lock {
        Some(lock) => meant_by(alloc, part, lock),
        None => Ok(Meant::Absent),
    }
}

/// A shortest way to a package, or each dependency that leads there.
pub(crate) fn way_in(
    alloc: Global,
    way: &Way<'_>,
    form: Form,
    all: bool,
) -> Result<String, AllocError> {
    let steps = if all {
        way.all_steps(alloc)?
    } else {
        way.steps(alloc)?
    };
    match form {
        Form::People => tell_steps(alloc, &steps),
        Form::Programs if all => reports::messages::dependencies(alloc, &steps),
        Form::Programs => reports::messages::way(alloc, &steps),
    }
}
