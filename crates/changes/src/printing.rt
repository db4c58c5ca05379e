//! The lines of what changed between two locks, as `cargo update` has them.

use crate::available::{NeededRust, Newer, available, needed};
use crate::changing::Changes;
use crate::relisting::Relisting;
use catalogue::Catalogue;
use classes::{RustVersion, version_order};
use features::PackageName;
use lockfile::{LockContent, Package};
use semver::Version;
use std::alloc::{AllocError, Global};
use std::cmp::Ordering;
use std::fmt;

/// What became of a package, or of two of one name and source; of these the first kind comes first.
#[derive(Clone, Copy)]
pub enum Line<'a> {
    Removing(&'a Package),
    /// The one that went, and the one that came, which is newer.
    Updating(&'a Package, &'a Package),
    /// The same, but older.
    Downgrading(&'a Package, &'a Package),
    Adding(&'a Package),
    Unchanged(&'a Package),
}

/// What is told of a package.
#[derive(Clone, Copy)]
pub struct ToldLine<'a> {
    pub line: Line<'a>,
    /// The version that is told beside the package, if there is a newer one.
    pub newer: Option<&'a Version>,
    /// The Rust version that this needs, or without it the package itself, where the one at hand doesn't do.
    pub rust: Option<NeededRust>,
}

impl<'a> ToldLine<'a> {
    /// A line beside which nothing is told.
    fn of(line: Line<'a>) -> ToldLine<'a> {
        ToldLine {
            line,
            newer: None,
            rust: None,
        }
    }

    fn is_of_one_that_stays(&self) -> bool {
        matches!(self.line, Line::Unchanged(_))
    }

    /// Whether it is of a package that stays although there is a newer version.
    pub fn is_behind(&self) -> bool {
        self.is_of_one_that_stays() && self.newer.is_some()
    }
}

/// How many packages are locked anew, and a line for each that came, went or changed its version; then what else
/// changes in the lock, and how many others have a newer version, or a line for each of them if `all` are asked for.
/// Where Rust versions count, `rust` is the one at hand.
pub fn tell_changes<'a>(
    alloc: Global,
    catalogue: &'a Catalogue,
    new: &'a LockContent,
    changes: &Changes<'a>,
    rust: Option<RustVersion>,
    all: bool,
) -> Result<String, AllocError> {
    let mut text = String::new(alloc);
    let lines = told_lines(alloc, catalogue, new, changes, rust)?;
    let locked = Packages(changes.came.len().saturating_add(came_of_paths(changes)));
    writeln!(text, "     Locking {locked}")?;
    for told in lines.iter() {
        if all || !told.is_of_one_that_stays() {
            push_line(&mut text, *told)?;
        }
    }
    push_beside(&mut text, changes)?;
    push_yanked(&mut text, catalogue, &changes.stayed)?;
    if !all {
        let behind = lines.iter().filter(|told| told.is_behind()).count();
        push_behind(&mut text, behind)?;
    }
    Ok(text)
}

/// What is told of each package, those that stay too: by name and source; of those of one name and source what went
/// stands first, and what stayed last.
pub fn told_lines<'a>(
    alloc: Global,
    catalogue: &'a Catalogue,
    new: &'a LockContent,
    changes: &Changes<'a>,
    rust: Option<RustVersion>,
) -> Result<Vec<ToldLine<'a>>, AllocError> {
    let direct = listed_by_root(alloc, new)?;
    let mut told = Vec::new(alloc);
    for line in lines(alloc, changes)?.iter() {
        told.push(told_line(catalogue, &direct, *line, rust))?;
    }
    Ok(told)
}

/// A line and what is newer, unless the package itself needs a newer Rust: then that is told.
fn told_line<'a>(
    catalogue: &'a Catalogue,
    direct: &[&Package],
    line: Line<'a>,
    rust: Option<RustVersion>,
) -> ToldLine<'a> {
    let package = of(line);
    let needed = needed(catalogue, package, rust);
    match newer(catalogue, direct, package, rust) {
        Some(newer) if needed.is_none() => ToldLine {
            line,
            newer: Some(newer.version),
            rust: newer.rust,
        },
        _ => ToldLine {
            line,
            newer: None,
            rust: needed,
        },
    }
}

/// How many packages from paths are locked anew.
fn came_of_paths(changes: &Changes<'_>) -> usize {
    changes
        .of_paths
        .iter()
        .filter(|line| !matches!(line, Line::Removing(_)))
        .count()
}

/// So many packages.
#[derive(Clone, Copy)]
struct Packages(usize);

impl fmt::Display for Packages {
    fn fmt<W: fmt::Write>(&self, f: &mut fmt::Formatter<W>) -> fmt::Result {
        let count = self.0;
        if count == 1 {
            f.write_str("1 package")
        } else {
            write!(f, "{count} packages")
        }
    }
}

/// The version to tell beside a package, if there is a newer one: in the index, for one that the root lists or not.
fn newer<'a>(
    catalogue: &'a Catalogue,
    direct: &[&Package],
    package: &Package,
    rust: Option<RustVersion>,
) -> Option<Newer<'a>> {
    let is_direct = named(direct, &package.name)
        .iter()
        .any(|other| other.version == package.version);
    available(catalogue, package, is_direct, rust)
}

/// The packages that the root lists, which alone in a valid lock has no source.
fn listed_by_root<'a>(
    alloc: Global,
    content: &'a LockContent,
) -> Result<Vec<&'a Package>, AllocError> {
    let packages = content.packages();
    let mut listed = Vec::new(alloc);
    let root = packages.iter().find(|package| package.source().is_none());
    if let Some(root) = root {
        for place in root.list.iter() {
            if let Some(package) = packages.get(*place) {
                listed.push(package)?;
            }
        }
    }
    Ok(listed)
}

/// What changes in a lock beside its packages of an index: packages from paths, lists, checksums.
fn push_beside(text: &mut String, changes: &Changes<'_>) -> Result<(), AllocError> {
    for line in changes.of_paths.iter() {
        push_line(text, ToldLine::of(*line))?;
    }
    for relisting in changes.relistings.iter() {
        push_relisting(text, *relisting)?;
    }
    let stayed = changes.stood.iter().zip(changes.stayed.iter());
    let summed = stayed
        .filter(|pair| pair.0.checksum() != pair.1.checksum())
        .count();
    match summed {
        0 => Ok(()),
        1 => text.push_str("note: the checksum of 1 unchanged package changes\n"),
        _ => writeln!(
            text,
            "note: the checksums of {summed} unchanged packages change"
        ),
    }
}

/// That a package stays though it is yanked.
fn push_yanked(
    text: &mut String,
    catalogue: &Catalogue,
    stayed: &[&Package],
) -> Result<(), AllocError> {
    for package in stayed.iter() {
        if is_yanked(catalogue, package) {
            let Package { name, version, .. } = package;
            writeln!(
                text,
                "note: {name} v{version} is yanked, and stays since it is locked"
            )?;
        }
    }
    Ok(())
}

/// Whether a package of a lock is yanked.
pub fn is_yanked(catalogue: &Catalogue, package: &Package) -> bool {
    match catalogue.candidate(&package.name, &package.version) {
        Some(candidate) => candidate.yanked,
        None => false,
    }
}

/// `   Relisting a v1.0.0 with b v2.0.0`, or `without` it.
fn push_relisting(text: &mut String, relisting: Relisting<'_>) -> Result<(), AllocError> {
    let Package { name, version, .. } = relisting.package;
    let word = if relisting.gained { "with" } else { "without" };
    let listed = &relisting.listed.name;
    let of = &relisting.listed.version;
    writeln!(text, "   Relisting {name} v{version} {word} {listed} v{of}")
}

/// How many packages stayed that have a newer version, which `--all` tells one by one.
fn push_behind(text: &mut String, behind: usize) -> Result<(), AllocError> {
    match behind {
        0 => Ok(()),
        1 => text.push_str(
            "note: pass `--all` to see 1 unchanged package behind its newest version\n",
        ),
        _ => writeln!(
            text,
            "note: pass `--all` to see {behind} unchanged packages behind their newest versions"
        ),
    }
}

/// The lines in their order.
fn lines<'a>(alloc: Global, changes: &Changes<'a>) -> Result<Vec<Line<'a>>, AllocError> {
    let mut lines = Vec::new(alloc);
    for package in changes.gone.iter() {
        lines.push(gone(changes, *package))?;
    }
    for package in changes.came.iter() {
        if partner(&changes.came, &changes.gone, *package).is_none() {
            lines.push(Line::Adding(*package))?;
        }
    }
    for package in changes.stayed.iter() {
        lines.push(Line::Unchanged(*package))?;
    }
    lines.sort_by(|a, b| line_order(*a, *b))?;
    Ok(lines)
}

/// The line of a package that went: if it is the only one of its name and source, and one alone came, then it changed.
fn gone<'a>(changes: &Changes<'a>, before: &'a Package) -> Line<'a> {
    match partner(&changes.gone, &changes.came, before) {
        Some(after) => moved(before, after),
        None => Line::Removing(before),
    }
}

/// The line of a package that changed its version.
pub(crate) fn moved<'a>(before: &'a Package, after: &'a Package) -> Line<'a> {
    if version_order(&before.version, &after.version) == Ordering::Less {
        Line::Updating(before, after)
    } else {
        Line::Downgrading(before, after)
    }
}

/// The only one of some packages that has the name and source of this one, which is the only one among its own.
fn partner<'a>(
    own: &[&'a Package],
    others: &[&'a Package],
    package: &Package,
) -> Option<&'a Package> {
    only(own, package)?;
    only(others, package)
}

/// The package of a name and source, where it is the only one.
fn only<'a>(packages: &[&'a Package], package: &Package) -> Option<&'a Package> {
    let mut found = None;
    for other in named(packages, &package.name).iter() {
        if other.source() == package.source() {
            if found.is_some() {
                return None;
            }
            found = Some(*other);
        }
    }
    found
}

/// The packages of a name, among packages in package order.
pub fn named<'p, 'a>(packages: &'p [&'a Package], name: &PackageName) -> &'p [&'a Package] {
    let first = packages.partition_point(|other| other.name < *name);
    let rest = &packages[first..];
    let count = rest.partition_point(|other| other.name == *name);
    &rest[..count]
}

/// By name and source, then by kind; lines that are alike in these stay as they are.
fn line_order(a: Line<'_>, b: Line<'_>) -> Ordering {
    let (one, other) = (of(a), of(b));
    one.name
        .cmp(&other.name)
        .then_with(|| one.source().cmp(&other.source()))
        .then(rank(a).cmp(&rank(b)))
}

/// The package that a line is about: where one came, that one.
fn of<'a>(line: Line<'a>) -> &'a Package {
    match line {
        Line::Removing(package) | Line::Adding(package) | Line::Unchanged(package) => package,
        Line::Updating(_, package) | Line::Downgrading(_, package) => package,
    }
}

fn rank(line: Line<'_>) -> u8 {
    match line {
        Line::Removing(_) => 0,
        Line::Updating(..) | Line::Downgrading(..) => 1,
        Line::Adding(_) => 2,
        Line::Unchanged(_) => 3,
    }
}

/// The line, but of what stays only where something is told beside it.
fn push_line(text: &mut String, told: ToldLine<'_>) -> Result<(), AllocError> {
    let ToldLine { line, newer, rust } = told;
    let Package { name, version, .. } = of(line);
    let end = Beside { newer, rust };
    match line {
        Line::Removing(_) => writeln!(text, "    Removing {name} v{version}"),
        Line::Adding(_) => writeln!(text, "      Adding {name} v{version}{end}"),
        Line::Updating(before, _) => push_moved(text, "    Updating", before, version, end),
        Line::Downgrading(before, _) => push_moved(text, " Downgrading", before, version, end),
        Line::Unchanged(_) => {
            if newer.is_none() && rust.is_none() {
                return Ok(());
            }
            writeln!(text, "   Unchanged {name} v{version}{end}")
        }
    }
}

/// `    Updating a v1.0.0 -> v1.1.0 (available: v2.0.0)`.
fn push_moved(
    text: &mut String,
    word: &str,
    before: &Package,
    after: &Version,
    end: Beside<'_>,
) -> Result<(), AllocError> {
    let Package { name, version, .. } = before;
    writeln!(text, "{word} {name} v{version} -> v{after}{end}")
}

/// The end of a line: a newer version, if there is one, and the Rust version that is needed.
#[derive(Clone, Copy)]
struct Beside<'a> {
    newer: Option<&'a Version>,
    rust: Option<NeededRust>,
}

impl fmt::Display for Beside<'_> {
    fn fmt<W: fmt::Write>(&self, f: &mut fmt::Formatter<W>) -> fmt::Result {
        match (self.newer, self.rust) {
            (Some(version), Some(rust)) => {
                write!(f, " (available: v{version}, requires Rust {rust})")
            }
            (Some(version), None) => write!(f, " (available: v{version})"),
            (None, Some(rust)) => write!(f, " (requires Rust {rust})"),
            (None, None) => Ok(()),
        }
    }
}
