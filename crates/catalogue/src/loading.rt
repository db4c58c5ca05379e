//! Loading the index of a run from a folder.

ghost use Rattle.std.specs.Prelude.{◌≡◌, ℕ, IfOk, IfSome, List, OnOk, Some, map, option_map, true};
ghost use Rattle.std.specs.List.{list_any};
ghost use Rattle.classes.specs.Classes.{rust_version_view};
ghost use Rattle.index_reader.specs.Files.{skip_view};
ghost use Rattle.model.specs.Summary.{same_text};
ghost use Rattle.features.specs.Views.{dependency_views};
ghost use Rattle.catalogue.specs.Loads.{packages_of_old, needs_of, Asks, AsksAll, differs, has_changed, Checks};
ghost use Rattle.catalogue.specs.Loads.{rust_for, Loads};
ghost use Rattle.catalogue.specs.inner.Names.{insert_key, insert_all};
ghost use Rattle.catalogue.specs.Problems.{IsProblemOfRun, problem_in};
ghost use Rattle.catalogue.specs.Stores.{candidates_at, record_at, said};
ghost use Rattle.lockfile.specs.inner.Views.{package_view, package_views};
ghost use Rattle.model.specs.Content.{same_option};
ghost use Rattle.catalogue.specs.Runs.{meant_by};

use crate::candidate::Candidate;
use crate::candidates::Candidates;
use crate::choosing::{Run, candidates_of};
use crate::fault::{Limit, LoadFault};
use crate::file::read_name;
use crate::names::Names;
use crate::source::Source;
use crate::store::{Catalogue, Prefer};
use classes::RustVersion;
use features::{Dependency, PackageName};
use index_reader::{Folder, KnownDependencies, Skip};
use lockfile::{LockContent, Package};
use manifest::Manifest;
use std::alloc::{AllocError, Global};
use trees::Scratch;

/// How many names a run asks for at most.
const MAX_NAMES: usize = 65_536;

/// How many dependencies of the candidate before may have the next name: those between aren't needed any more.
const WINDOW: usize = 4;

/// Asks the folder for the names that the root's dependencies and, name after name, those of the candidates mean, each
/// name once.
///
/// A candidate is a record that isn't yanked, or whose name, version and source stand in the old lock. The folder's
/// failures, the limits and a changed checksum of a locked package are faults; then there is no catalogue, and the
/// folder was asked for the names so far.
pub fn load<F: Folder>(
    alloc: Global,
    manifest: &Manifest,
    folder: &mut F,
    old: Option<&LockContent>,
    source: &Source,
    prefer: Prefer,
) -> Result<Catalogue, LoadFault>
    ensures loads { Loads (packages_of_old old.entry) source.now (rust_for prefer manifest.now.rust_version)
        manifest.now.brings.dependencies F.calls F.failed folder.old result folder.new }
    ensures problem { IfOk result (λ c. IsProblemOfRun F.calls folder.old manifest.now
        (packages_of_old old.entry) source.now (problem_in manifest.now c) folder.new) }
{
    let run = Run {
        old,
        source,
        rust_version: rust_for(manifest, prefer),
    };
    let catalogue = ask_all(alloc, manifest.dependencies(), folder, &run)?;
    check_checksums(old, &catalogue)?;
    Ok(catalogue)
}

/// The Rust version that candidates are to fit.
fn rust_for(manifest: &Manifest, prefer: Prefer) -> Option<RustVersion>
    ensures { option_map rust_version_view result ≡ rust_for prefer manifest.now.rust_version }
{
    match prefer {
        Prefer::Newest => None,
        Prefer::RustFirst => manifest.rust_version(),
    }
}

/// Asks for name after name, until none is left.
fn ask_all<F: Folder>(
    alloc: Global,
    dependencies: &[Dependency],
    folder: &mut F,
    run: &Run<'_>,
) -> Result<Catalogue, LoadFault>
    ensures { AsksAll (packages_of_old run.now.old) run.now.source.now (option_map rust_version_view
        run.now.rust_version) (dependency_views dependencies.now) F.calls F.failed folder.old result folder.new }
{
    let mut names = Names::new(alloc);
    let mut candidates = Vec::new(alloc);
    let mut skips = Vec::new(alloc);
    let mut scratch = Scratch::new(alloc);
    let mut known = KnownDependencies::none(alloc);
    let source = String::from_str(alloc, run.source.as_str())?;
    add_names(&mut names, dependencies, &[])?;
    'names: while candidates.len() < names.len() {
        if candidates.len() >= MAX_NAMES {
            return Err(LoadFault::TooLarge(Limit::Names));
        }
        let found = ask(
            alloc,
            folder,
            &names.as_slice()[candidates.len()],
            run,
            &mut skips,
            &mut scratch,
            &mut known,
        )?;
        add_needed(&mut names, found.candidates.as_slice())?;
        candidates.push(found)?;
    }
    Ok(Catalogue {
        alloc,
        names,
        candidates,
        skips,
        source,
    })
}

/// The candidates of a name, by one call of the folder; what was skipped is added to the skips.
fn ask<F: Folder>(
    alloc: Global,
    folder: &mut F,
    name: &PackageName,
    run: &Run<'_>,
    skips: &mut Vec<Skip>,
    scratch: &mut Scratch,
    known: &mut KnownDependencies,
) -> Result<Candidates, LoadFault>
    ensures { Asks F.calls F.failed (packages_of_old run.now.old) run.now.source.now
        (option_map rust_version_view run.now.rust_version) folder.old name.now
        (map skip_view skips.old.items) result folder.new (map skip_view skips.new.items) }
{
    let (records, mut skipped) = read_name(alloc, folder, name, scratch, known)?;
    skips.append(&mut skipped)?;
    Ok(candidates_of(alloc, name, records, run)?)
}

/// Adds the names of the packages that these candidates need, each once.
fn add_needed(names: &mut Names, candidates: &[Candidate]) -> Result<(), AllocError>
    ensures { OnOk result (names.new.keys ≡ insert_all same_text names.old.keys (needs_of candidates.now)) }
{
    let mut before: &[Dependency] = &[];
    'candidates: for candidate in candidates.iter() {
        let dependencies = candidate.brings.dependencies.as_slice();
        add_names(names, dependencies, before)?;
        before = dependencies;
    }
    Ok(())
}

/// Adds the names of the packages that these dependencies mean, each once. Those that the dependencies of the candidate
/// before mean are there: a version mostly needs what the one before it needs, so few names are looked up.
fn add_names(
    names: &mut Names,
    dependencies: &[Dependency],
    before: &[Dependency],
) -> Result<(), AllocError>
    requires { (name : List ℕ) → list_any (same_text name) (meant_by (dependency_views before.now)) ≡ true
        → list_any (same_text name) names.old.keys ≡ true }
    ensures { OnOk result
        (names.new.keys ≡ insert_all same_text names.old.keys (meant_by (dependency_views dependencies.now))) }
{
    let mut place = 0;
    'dependencies: for dependency in dependencies.iter() {
        match place_after(&dependency.real_name, before, place) {
            Some(after) => place = after,
            None => add_name(names, &dependency.real_name)?,
        }
    }
    Ok(())
}

/// The place after that of a dependency which means this name, if it is one of the next ones.
fn place_after(name: &PackageName, dependencies: &[Dependency], place: usize) -> Option<usize>
    ensures { IfSome result (λ _. list_any (same_text name.now) (meant_by (dependency_views dependencies.now)) ≡ true) }
{
    'places: for place in place..place.saturating_add(WINDOW) {
        let Some(dependency) = dependencies.get(place) else {
            return None;
        };
        if *name == dependency.real_name {
            return Some(place + 1);
        }
    }
    None
}

/// Adds a name, unless it is there.
fn add_name(names: &mut Names, name: &PackageName) -> Result<(), AllocError>
    ensures { OnOk result (names.new.keys ≡ insert_key same_text names.old.keys name.now) }
{
    if !names.contains(name) {
        names.insert(name.clone()?)?;
    }
    Ok(())
}

/// The first package of the old lock, in package order, with a checksum other than the index's.
fn check_checksums(old: Option<&LockContent>, catalogue: &Catalogue) -> Result<(), LoadFault>
    ensures { Checks catalogue.now (packages_of_old old.entry) result }
{
    match old {
        Some(content) => check_packages(content.packages(), catalogue),
        None => Ok(()),
    }
}

/// The first of these packages whose checksum has changed.
#[tactic(auto, unfolding(crate::specs::Loads::first_changed))]
fn check_packages(packages: &[Package], catalogue: &Catalogue) -> Result<(), LoadFault>
    ensures { Checks catalogue.now (package_views packages.now) result }
{
    'packages: for locked in packages.iter() {
        if has_changed(locked, catalogue) {
            return Err(LoadFault::ChecksumChanged(locked.name.clone()?, locked.version.clone()?));
        }
    }
    Ok(())
}

/// Whether a package of the run's source has another checksum than the index.
#[tactic(auto, using(crate::proofs::Lookups::checksum_found))]
fn has_changed(locked: &Package, catalogue: &Catalogue) -> bool
    ensures { result ≡ has_changed catalogue.now (package_view locked.now) }
{
    has_source(locked.source(), catalogue.source()) && differs(locked, catalogue)
}

/// Whether the lock has a checksum of the package, and the index another one.
fn differs(locked: &Package, catalogue: &Catalogue) -> bool
    ensures { result ≡ differs (package_view locked.now).checksum (option_map (λ s. s.checksum) (option_map said
        (record_at (candidates_at catalogue.now locked.now.name) (package_view locked.now).version))) }
{
    let Some(checksum) = &locked.checksum else {
        return false;
    };
    match catalogue.candidate(&locked.name, &locked.version) {
        Some(candidate) => !candidate.checksum.is(checksum.as_str()),
        None => false,
    }
}

/// Whether a package is of the run's source.
fn has_source(source: Option<&str>, text: &str) -> bool
    ensures { result ≡ same_option (option_map (λ s. s.now) source.entry) (Some text.now) }
{
    match source {
        Some(source) => source == text,
        None => false,
    }
}
