//! The tests: all that is generic over the body, at each body, and both bodies beside each other.

use crate::pigeons::four_to_seven;
use crate::sets::{bodies_agree, sets};
use crate::stores::stores;
use crate::trails::trails;
use crate::worked::all_worked;
use std::alloc::{AllocError, Global};
use std::process::Abort;
use std::test::Fail;
use version_sets::{ListStates, States, WordStates};

fn algebra<S: States + Drop>(rt: &impl Abort, alloc: Global) -> Result<(), AllocError> {
    sets::<S>(rt, alloc)?;
    stores::<S>(rt, alloc)?;
    trails::<S>(rt, alloc)
}

fn searches<S: States + Drop>(rt: &impl Abort, alloc: Global) -> Result<(), AllocError> {
    all_worked::<S>(rt, alloc)?;
    four_to_seven::<S>(rt, alloc)
}

#[test]
fn algebra_as_lists(rt: HostRuntime) -> Result<(), Fail> {
    Ok(algebra::<ListStates>(&rt, rt.alloc())?)
}

#[test]
fn algebra_as_words(rt: HostRuntime) -> Result<(), Fail> {
    Ok(algebra::<WordStates>(&rt, rt.alloc())?)
}

#[test]
fn bodies_alike(rt: HostRuntime) -> Result<(), Fail> {
    assert!(rt; bodies_agree(rt.alloc())?);
    Ok(())
}

#[test]
fn searches_as_lists(rt: HostRuntime) -> Result<(), Fail> {
    Ok(searches::<ListStates>(&rt, rt.alloc())?)
}

#[test]
fn searches_as_words(rt: HostRuntime) -> Result<(), Fail> {
    Ok(searches::<WordStates>(&rt, rt.alloc())?)
}
