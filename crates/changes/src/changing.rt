//! What changed between two locks.

ghost use Rattle.std.specs.Prelude.{◌≡◌, ◌++◌, ◌∷◌, [], IfOk, OnOk};
ghost use Rattle.lockfile.specs.inner.Views.{package_view, package_views};
ghost use Rattle.catalogue.specs.Loads.{packages_of_old};
ghost use Rattle.changes.specs.inner.Changed.{is_one, lacking, sharing, those};
ghost use Rattle.changes.specs.inner.Views.{lent_views};

use crate::printing::{Line, moved};
use crate::relisting::{Relisting, has_no_source, relistings};
use catalogue::is_locked;
use lockfile::{LockContent, Package};
use std::alloc::{AllocError, Global};

/// What became of the packages of an index between two locks, each in package order.
#[derive(Drop)]
pub struct Changes<'a> {
    /// Those of the old lock that the new one lacks.
    pub gone: Vec<&'a Package>,
    /// Those of the new lock that the old one lacks.
    pub came: Vec<&'a Package>,
    /// Those of the new lock that the old one has too.
    pub stayed: Vec<&'a Package>,
    /// The same as the old lock has them.
    pub stood: Vec<&'a Package>,
    /// What became of packages from paths.
    pub of_paths: Vec<Line<'a>>,
    /// What came onto lists and went from them, of packages that both locks have.
    pub relistings: Vec<Relisting<'a>>,
}

/// What became of the packages of an index; a lock has a package where it has its name, version and source. Without an
/// old lock all of them came.
pub fn changes_between<'a>(
    alloc: Global,
    old: Option<&'a LockContent>,
    new: &'a LockContent,
) -> Result<Changes<'a>, AllocError>
    ensures gone { IfOk result (λ c. lent_views c.gone.items ≡ lacking new.entry.now (packages_of_old old.entry)) }
    ensures came { IfOk result (λ c. lent_views c.came.items ≡ lacking (packages_of_old old.entry) new.entry.now) }
    ensures stayed { IfOk result (λ c. lent_views c.stayed.items ≡ sharing (packages_of_old old.entry) new.entry.now) }
    ensures stood { IfOk result (λ c. lent_views c.stood.items ≡ sharing new.entry.now (packages_of_old old.entry)) }
{
    let stayed = those(alloc, new.packages(), old, true)?;
    let stood = those(alloc, packages_if(old), Some(new), true)?;
    Ok(Changes {
        gone: those(alloc, packages_if(old), Some(new), false)?,
        came: those(alloc, new.packages(), old, false)?,
        of_paths: of_paths(alloc, old, new)?,
        relistings: relistings(alloc, old, new, &stood, &stayed)?,
        stayed,
        stood,
    })
}

fn packages_if<'a>(content: Option<&'a LockContent>) -> &'a [Package]
    ensures { package_views result.now ≡ packages_of_old content.entry }
{
    match content {
        Some(content) => content.packages(),
        None => &[],
    }
}

/// What became of packages from paths, which have no source, by name: a new lock has that of the manifest alone. Of an
/// old one that has none, as one that was read in part, nothing is told.
fn of_paths<'a>(
    alloc: Global,
    old: Option<&'a LockContent>,
    new: &'a LockContent,
) -> Result<Vec<Line<'a>>, AllocError> {
    let mut lines = Vec::new(alloc);
    let Some(root) = new.packages().iter().find(|one| has_no_source(one)) else {
        return Ok(lines);
    };
    let mut is_new = true;
    for before in packages_if(old).iter().filter(|one| has_no_source(one)) {
        if before.name != root.name {
            lines.push(Line::Removing(before))?;
            continue;
        }
        is_new = false;
        if before.version != root.version {
            lines.push(moved(before, root))?;
        }
    }
    if is_new && !lines.is_empty() {
        lines.push(Line::Adding(root))?;
    }
    Ok(lines)
}

/// The packages of an index that another lock has, or those that it lacks.
fn those<'a>(
    alloc: Global,
    packages: &'a [Package],
    others: Option<&LockContent>,
    had: bool,
) -> Result<Vec<&'a Package>, AllocError>
    ensures { IfOk result
        (λ v. lent_views v.items ≡ those (packages_of_old others.entry) had (package_views packages.entry.now)) }
{
    let mut found = Vec::new(alloc);
    'packages: for locked in packages.iter() {
        push_if_one(&mut found, locked, others, had)?;
    }
    Ok(found)
}

/// Adds a package, if it is one of those.
pub(crate) fn push_if_one<'a>(
    found: &mut Vec<&'a Package>,
    locked: &'a Package,
    others: Option<&LockContent>,
    had: bool,
) -> Result<(), AllocError>
    ensures { OnOk result (lent_views found.new.items ≡ lent_views found.old.items
        ++ those (packages_of_old others.entry) had (package_view locked.entry.now ∷ [])) }
{
    if is_one(locked, others, had) {
        found.push(locked)?;
    }
    Ok(())
}

fn is_one(locked: &Package, others: Option<&LockContent>, had: bool) -> bool
    ensures { result ≡ is_one (packages_of_old others.entry) had (package_view locked.now) }
{
    let Some(source) = locked.source() else {
        return false;
    };
    let has = is_locked(others, &locked.name, &locked.version, source);
    if had { has } else { !has }
}
