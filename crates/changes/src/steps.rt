//! The lines of a way through a lock.

use crate::ways::is_own;
use catalogue::Catalogue;
use features::Dependency;
use lockfile::{LockContent, Package};
use manifest::Manifest;
use std::alloc::{AllocError, Global};
use std::fmt;

/// A step of a way.
#[derive(Clone, Copy)]
pub struct WayStep<'a> {
    pub owner: &'a Package,
    /// The first dependency of the owner that the next package fits, if there is one.
    pub dependency: Option<&'a Dependency>,
    pub target: &'a Package,
}

/// A line for each step, with the requirement that the one package has for the other.
pub fn tell_steps(alloc: Global, steps: &[WayStep<'_>]) -> Result<String, AllocError> {
    let mut text = String::new(alloc);
    for step in steps.iter() {
        push_step(&mut text, *step)?;
    }
    Ok(text)
}

/// The steps of a way, which is given by the places of its packages: the dependencies are those of the manifest at the
/// first place, and those of candidates at the others.
pub fn steps_of<'a>(
    alloc: Global,
    manifest: &'a Manifest,
    catalogue: &'a Catalogue,
    content: &'a LockContent,
    places: &[usize],
) -> Result<Vec<WayStep<'a>>, AllocError> {
    let mut steps = Vec::new(alloc);
    let packages = content.packages();
    let mut dependencies = manifest.dependencies();
    for pair in places.windows(2) {
        if let [owner, target] = pair {
            if let (Some(owner), Some(target)) = (packages.get(*owner), packages.get(*target)) {
                steps.push(step_to(owner, dependencies, target))?;
                dependencies = dependencies_of(catalogue, target);
            }
        }
    }
    Ok(steps)
}

/// The dependencies that are given by the places of a package and of one that it lists; of several of one pair all, or
/// the first.
pub fn dependencies_between<'a>(
    alloc: Global,
    manifest: &'a Manifest,
    catalogue: &'a Catalogue,
    content: &'a LockContent,
    pairs: &[(usize, usize)],
    all: bool,
) -> Result<Vec<WayStep<'a>>, AllocError> {
    let mut steps = Vec::new(alloc);
    let packages = content.packages();
    for (owner, target) in pairs.iter() {
        if let (Some(owner), Some(target)) = (packages.get(*owner), packages.get(*target)) {
            let dependencies = if is_own(manifest, owner) {
                manifest.dependencies()
            } else {
                dependencies_of(catalogue, owner)
            };
            steps.push(step_to(owner, dependencies, target))?;
            if all {
                push_others(&mut steps, owner, dependencies, target)?;
            }
        }
    }
    Ok(steps)
}

/// Puts the steps of all but the first of the dependencies that a package fits.
fn push_others<'a>(
    steps: &mut Vec<WayStep<'a>>,
    owner: &'a Package,
    dependencies: &'a [Dependency],
    target: &'a Package,
) -> Result<(), AllocError> {
    for dependency in dependencies
        .iter()
        .filter(|one| may_mean(one, target))
        .skip(1)
    {
        steps.push(WayStep {
            owner,
            dependency: Some(dependency),
            target,
        })?;
    }
    Ok(())
}

/// A step by the first dependency of the owner that the target fits.
fn step_to<'a>(
    owner: &'a Package,
    dependencies: &'a [Dependency],
    target: &'a Package,
) -> WayStep<'a> {
    WayStep {
        owner,
        dependency: dependencies.iter().find(|one| may_mean(one, target)),
        target,
    }
}

/// The dependencies of the candidate that a package is.
fn dependencies_of<'a>(catalogue: &'a Catalogue, package: &Package) -> &'a [Dependency] {
    match catalogue.candidate(&package.name, &package.version) {
        Some(candidate) => candidate.brings.dependencies.as_slice(),
        None => &[],
    }
}

/// `a 1.0.0 needs b ^1 with feature f: b 1.2.0`.
fn push_step(text: &mut String, step: WayStep<'_>) -> Result<(), AllocError> {
    let (from, to) = (Named(step.owner), Named(step.target));
    let need = Need(step.dependency);
    writeln!(text, "{from} {need}: {to}")
}

/// `b 1.2.0`.
#[derive(Clone, Copy)]
struct Named<'a>(&'a Package);

impl fmt::Display for Named<'_> {
    fn fmt<W: fmt::Write>(&self, f: &mut fmt::Formatter<W>) -> fmt::Result {
        let Package { name, version, .. } = self.0;
        write!(f, "{name} {version}")
    }
}

/// `needs b ^1 as c with feature f and feature g`; `lists it` of a package that needs no such one.
#[derive(Clone, Copy)]
struct Need<'a>(Option<&'a Dependency>);

impl fmt::Display for Need<'_> {
    fn fmt<W: fmt::Write>(&self, f: &mut fmt::Formatter<W>) -> fmt::Result {
        let Some(dependency) = self.0 else {
            return f.write_str("lists it");
        };
        let name = &dependency.name;
        let real_name = &dependency.real_name;
        let requirement = &dependency.requirement;
        write!(f, "needs {real_name} {requirement}")?;
        if name != real_name {
            write!(f, " as {name}")?;
        }
        let mut word = "with";
        for feature in dependency.features.iter() {
            write!(f, " {word} feature {feature}")?;
            word = "and";
        }
        Ok(())
    }
}

/// Whether a package has the name that a dependency means, and a version that it matches.
fn may_mean(dependency: &Dependency, package: &Package) -> bool {
    dependency.real_name == package.name && dependency.requirement.matches(&package.version)
}
