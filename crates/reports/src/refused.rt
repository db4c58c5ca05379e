//! What Cargo refuses of a lock, as it is told: to programs in a sentence, to people with what leads to it.

use catalogue::Catalogue;
use changes::{WayStep, Why, dependencies_between, reason_for};
use lockfile::{LockContent, Package};
use manifest::Manifest;
use std::alloc::{AllocError, Global};

/// What Cargo refuses of a lock that is a valid selection.
#[derive(Drop)]
pub enum Refused {
    /// A cycle: the places of its packages, in the order of its lists.
    Cycle(Vec<usize>),
    /// The library to which two packages link, and their places.
    Links(String, usize, usize),
}

/// Of what people are told why it is refused.
#[derive(Clone, Copy)]
pub struct Beside<'a> {
    pub manifest: &'a Manifest,
    pub catalogue: &'a Catalogue,
    pub lock: &'a LockContent,
}

/// The sentence that has all of it.
pub fn refused_sentence(
    alloc: Global,
    packages: &[Package],
    refused: &Refused,
) -> Result<String, AllocError> {
    match refused {
        Refused::Cycle(cycle) => cycle_sentence(alloc, packages, cycle),
        Refused::Links(library, one, other) => {
            let (one, other) = (packages.get(*one), packages.get(*other));
            links_sentence(alloc, library.as_str(), one, other)
        }
    }
}

/// `Cargo refuses a cycle of packages: a 1.0.0 needs b 1.0.0 needs a 1.0.0`.
fn cycle_sentence(
    alloc: Global,
    packages: &[Package],
    cycle: &[usize],
) -> Result<String, AllocError> {
    let mut text = String::from_str(alloc, "Cargo refuses a cycle of packages: ")?;
    for place in cycle.iter().chain(cycle.first()) {
        if let Some(package) = packages.get(*place) {
            let Package { name, version, .. } = package;
            let lead = if text.ends_with(": ") { "" } else { " needs " };
            write!(text, "{lead}{name} {version}")?;
        }
    }
    Ok(text)
}

/// `Cargo refuses two packages with links = "z": zlib 1.0.0 and zlib-ng 1.0.0; `cargo relock why` tells what needs
/// them`.
fn links_sentence(
    alloc: Global,
    library: &str,
    one: Option<&Package>,
    other: Option<&Package>,
) -> Result<String, AllocError> {
    let (Some(one), Some(other)) = (one, other) else {
        return Ok(String::new(alloc));
    };
    let (name, version) = (&one.name, &one.version);
    let (other_name, other_version) = (&other.name, &other.version);
    format!(in alloc;
        "Cargo refuses two packages with links = \"{library}\": {name} {version} and {other_name} {other_version}; `cargo relock why` tells what needs them"
    )
}

/// What is refused, without the packages.
pub fn refused_kind(alloc: Global, refused: &Refused) -> Result<String, AllocError> {
    match refused {
        Refused::Cycle(_) => String::from_str(alloc, "Cargo refuses a cycle of packages"),
        Refused::Links(library, _, _) => {
            format!(in alloc; "Cargo refuses two packages with links = \"{library}\"")
        }
    }
}

/// The lines of what leads there from the root.
pub fn refused_lines(
    alloc: Global,
    beside: Beside<'_>,
    refused: &Refused,
) -> Result<String, AllocError> {
    let mut text = String::new(alloc);
    match refused {
        Refused::Cycle(cycle) => push_cycle(alloc, &mut text, beside, cycle)?,
        Refused::Links(_, one, other) => {
            push_linked(alloc, &mut text, beside, *one)?;
            push_linked(alloc, &mut text, beside, *other)?;
        }
    }
    Ok(text)
}

/// `zlib 1.0.0: demo needs http ^1, and http 1.0.0 needs zlib ^1`.
fn push_linked(
    alloc: Global,
    text: &mut String,
    beside: Beside<'_>,
    place: usize,
) -> Result<(), AllocError> {
    let Some(package) = beside.lock.packages().get(place) else {
        return Ok(());
    };
    let Package { name, version, .. } = package;
    write!(text, "{name} {version}: ")?;
    let way = way_to(alloc, beside, package)?;
    push_needs(alloc, text, beside, &way)?;
    text.push('\n')
}

/// `demo needs a ^1; a 1.0.0 needs b ^1, and b 1.0.0 needs a ^1`: the way leads to the first package of the cycle on
/// it.
fn push_cycle(
    alloc: Global,
    text: &mut String,
    beside: Beside<'_>,
    cycle: &[usize],
) -> Result<(), AllocError> {
    let Some(first) = cycle.first() else {
        return Ok(());
    };
    let Some(package) = beside.lock.packages().get(*first) else {
        return Ok(());
    };
    let way = way_to(alloc, beside, package)?;
    let entry = way.iter().copied().find(|place| cycle.contains(place));
    let entry = entry.unwrap_or(*first);
    let way = up_to(alloc, &way, entry)?;
    push_needs(alloc, text, beside, &way)?;
    text.push_str("; ")?;
    let round = round_from(alloc, cycle, entry)?;
    push_needs(alloc, text, beside, &round)?;
    text.push('\n')
}

/// The places of a shortest way from the root to a package; without one, none.
fn way_to(alloc: Global, beside: Beside<'_>, package: &Package) -> Result<Vec<usize>, AllocError> {
    let version = Some(&package.version);
    let lock = beside.lock;
    match reason_for(alloc, beside.manifest, lock, &package.name, version)? {
        Why::Way(places) => Ok(places),
        Why::Absent | Why::Unreached => Ok(Vec::new(alloc)),
    }
}

/// The places up to one of them.
fn up_to(alloc: Global, places: &[usize], last: usize) -> Result<Vec<usize>, AllocError> {
    let mut front = Vec::new(alloc);
    for place in places.iter() {
        front.push(*place)?;
        if *place == last {
            return Ok(front);
        }
    }
    Ok(front)
}

/// The places of a cycle from one of them to the same one.
fn round_from(alloc: Global, cycle: &[usize], first: usize) -> Result<Vec<usize>, AllocError> {
    let mut round = Vec::new(alloc);
    let start = cycle.iter().position(|place| *place == first);
    let (front, back) = cycle.split_at(start.unwrap_or(0).min(cycle.len()));
    for place in back.iter().chain(front) {
        round.push(*place)?;
    }
    round.push(first)?;
    Ok(round)
}

/// `demo needs a ^1, and a 1.0.0 needs b ^1`, of the packages at these places one after another.
fn push_needs(
    alloc: Global,
    text: &mut String,
    beside: Beside<'_>,
    places: &[usize],
) -> Result<(), AllocError> {
    let mut pairs = Vec::new(alloc);
    for pair in places.windows(2) {
        if let [owner, target] = pair {
            pairs.push((*owner, *target))?;
        }
    }
    let Beside {
        manifest,
        catalogue,
        lock,
    } = beside;
    let steps = dependencies_between(alloc, manifest, catalogue, lock, &pairs, false)?;
    for (place, step) in steps.iter().enumerate() {
        text.push_str(joint(place, steps.len()))?;
        push_need(text, *step)?;
    }
    Ok(())
}

/// What stands before one of several clauses.
fn joint(place: usize, count: usize) -> &'static str {
    if place == 0 {
        ""
    } else if place.saturating_add(1) < count {
        ", "
    } else {
        ", and "
    }
}

/// `a 1.0.0 needs b ^1`; the root, which has no source, without its version.
fn push_need(text: &mut String, step: WayStep<'_>) -> Result<(), AllocError> {
    let Package { name, version, .. } = step.owner;
    write!(text, "{name}")?;
    if step.owner.source().is_some() {
        write!(text, " {version}")?;
    }
    let target = &step.target.name;
    match step.dependency {
        Some(dependency) => {
            let requirement = &dependency.requirement;
            write!(text, " needs {target} {requirement}")
        }
        None => write!(text, " lists {target}"),
    }
}
