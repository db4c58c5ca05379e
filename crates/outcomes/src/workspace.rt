//! A manifest that is a member of a workspace, whose lock isn't its own.

use crate::said::Said;
use std::alloc::{AllocError, Global};
use tables::read_table;
use toml::{Table, Value};

/// Whether a manifest has a workspace of which the package in a folder below it is a member (Cargo book, "Workspaces"):
/// any is that isn't excluded. The folder is told from the manifest's own, as `crates/a`.
pub fn has_workspace(alloc: Global, manifest: &[u8], below: &str) -> Result<bool, AllocError> {
    let Some(manifest) = read_table(alloc, manifest)? else {
        return Ok(false);
    };
    match workspace_of(&manifest) {
        Some(workspace) => Ok(!is_excluded(workspace, below)),
        None => Ok(false),
    }
}

fn workspace_of(manifest: &Table) -> Option<&Table> {
    manifest.get("workspace")?.as_table()
}

fn is_excluded(workspace: &Table, below: &str) -> bool {
    let Some(excluded) = workspace.get("exclude").and_then(|value| value.as_array()) else {
        return false;
    };
    excluded.iter().any(|value| match value.as_str() {
        Some(path) => is_in(below, path),
        None => false,
    })
}

/// Whether a path is that of a folder, or leads into it.
fn is_in(path: &str, folder: &str) -> bool {
    match path.strip_prefix(folder.trim_end_matches('/')) {
        Some(rest) => rest.is_empty() || rest.starts_with('/'),
        None => false,
    }
}

/// What a workspace says of a package in a folder below it.
#[derive(Clone, Copy)]
pub enum Membership {
    /// `members` names it.
    Member,
    /// Nothing can make it a member: there is no member, and no dependency that may be one by its path.
    Stranger,
    Unknown,
}

/// What the workspace of a manifest says of the package in a folder below it.
pub fn standing_of(alloc: Global, manifest: &[u8], below: &str) -> Result<Membership, AllocError> {
    let Some(manifest) = read_table(alloc, manifest)? else {
        return Ok(Membership::Unknown);
    };
    let members = members_of(&manifest);
    if members.iter().any(|member| names(member, below)) {
        Ok(Membership::Member)
    } else if members.is_empty() && is_bare(&manifest) {
        Ok(Membership::Stranger)
    } else {
        Ok(Membership::Unknown)
    }
}

fn members_of(manifest: &Table) -> &[Value] {
    let Some(workspace) = workspace_of(manifest) else {
        return &[];
    };
    match workspace.get("members").and_then(|value| value.as_array()) {
        Some(members) => members.as_slice(),
        None => &[],
    }
}

/// Whether a member is this folder, or by `/*` each folder in the one in which it lies.
fn names(member: &Value, below: &str) -> bool {
    let Some(path) = member.as_str() else {
        return false;
    };
    let path = path.trim_end_matches('/');
    match path.strip_suffix("*") {
        Some(folder) => is_child(below, folder),
        None => path.strip_prefix("./").unwrap_or(path) == below,
    }
}

/// Whether a path is that of a folder in another, which has a `/` behind it or is the whole.
fn is_child(path: &str, folder: &str) -> bool {
    let has_end = folder.is_empty() || folder.ends_with('/');
    match path.strip_prefix(folder) {
        Some(name) => has_end && !name.is_empty() && !name.contains('/'),
        None => false,
    }
}

/// What may bring a member by its path.
const BRINGING: [&str; 7] = [
    "dependencies",
    "dev-dependencies",
    "dev_dependencies",
    "build-dependencies",
    "build_dependencies",
    "target",
    "patch",
];

fn is_bare(manifest: &Table) -> bool {
    BRINGING.iter().all(|key| manifest.get(*key).is_none())
}

/// That a manifest is resolved alone though one above has a workspace, and what comes of that.
pub fn warn_of_workspace(
    alloc: Global,
    manifest: &str,
    workspace: &str,
    below: &str,
    membership: Membership,
    said: &mut Said,
) -> Result<(), AllocError> {
    match membership {
        Membership::Member => {
            let text = format!(in alloc;
                "this package is a member of the workspace of {workspace}, and Cargo locks all members together: this answer is for the package alone"
            )?;
            said.warning("workspace", text.as_str())?;
            said.note("`cargo update --workspace` locks the workspace")
        }
        Membership::Stranger => {
            let text = format!(in alloc;
                "Cargo refuses this package: the workspace of {workspace} neither names nor excludes it"
            )?;
            said.warning("workspace", text.as_str())?;
            let text = format!(in alloc;
                "add `{below}` to `members` or `exclude` there, or an empty `[workspace]` to {manifest}"
            )?;
            said.note(text.as_str())?;
            said.note("this answer is for the package alone, hence its status")
        }
        Membership::Unknown => {
            let text = format!(in alloc;
                "{manifest} is resolved alone, but {workspace} has a workspace that doesn't exclude it: Cargo locks all members together, and refuses what `members` doesn't name; if so, add `{below}` to `members` or `exclude` there"
            )?;
            said.warning("workspace", text.as_str())
        }
    }
}
