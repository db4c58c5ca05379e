//! Why a package is in a lock.

use crate::messages::message::{Message, PackageId, ToldStep, push_message};
use crate::messages::shown::Shown;
use changes::WayStep;
use features::{Dependency, FeatureName};
use lockfile::Package;
use std::alloc::{AllocError, Global};

/// The message of a way, by its steps.
pub fn way(alloc: Global, steps: &[WayStep<'_>]) -> Result<String, AllocError> {
    let mut told = Vec::new(alloc);
    for step in steps.iter() {
        told.push(step_of(alloc, *step)?)?;
    }
    let mut text = String::new(alloc);
    push_message(&mut text, alloc, &Message::Way { steps: told })?;
    Ok(text)
}

/// A message for each of some dependencies.
pub fn dependencies(alloc: Global, steps: &[WayStep<'_>]) -> Result<String, AllocError> {
    let mut text = String::new(alloc);
    for step in steps.iter() {
        let message = Message::Dependency(step_of(alloc, *step)?);
        push_message(&mut text, alloc, &message)?;
    }
    Ok(text)
}

/// A step of a way as it is told, with what its dependency asks for.
fn step_of<'a>(alloc: Global, step: WayStep<'a>) -> Result<ToldStep<'a>, AllocError> {
    let (from, to) = (id_of(step.owner), id_of(step.target));
    let Some(dependency) = step.dependency else {
        return Ok(ToldStep {
            from,
            requirement: None,
            renamed: None,
            features: Vec::new(alloc),
            to,
        });
    };
    Ok(ToldStep {
        from,
        requirement: Some(Shown(&dependency.requirement)),
        renamed: other_name(dependency),
        features: texts(alloc, &dependency.features)?,
        to,
    })
}

pub(crate) fn id_of<'a>(package: &'a Package) -> PackageId<'a> {
    PackageId {
        name: package.name.as_str(),
        version: Shown(&package.version),
    }
}

/// What a dependency is called, where that isn't the name of its package.
fn other_name<'a>(dependency: &'a Dependency) -> Option<&'a str> {
    if dependency.name == dependency.real_name {
        None
    } else {
        Some(dependency.name.as_str())
    }
}

fn texts<'a>(alloc: Global, features: &'a [FeatureName]) -> Result<Vec<&'a str>, AllocError> {
    features
        .iter()
        .map(|feature| feature.as_str())
        .collect(alloc)
}
