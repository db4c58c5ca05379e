//! The workspace that a manifest may be the root of.

ghost use Rattle.std.specs.Prelude.{◌≡◌};
ghost use Rattle.toml.specs.View.{table_view};
ghost use Rattle.manifest.specs.Packages.{members_at, workspace_of};

use crate::fault::{ManifestFault, Part};
use tables::{has_items, member};
use toml::Table;

/// Whether `[workspace]` has members.
pub(crate) fn has_members(top: &Table) -> Result<bool, ManifestFault>
    ensures { result ≡ workspace_of (table_view top.now) }
{
    let Some(value) = member(top, "workspace") else {
        return Ok(false);
    };
    match value.as_table() {
        Some(workspace) => lists_members(workspace),
        None => Err(ManifestFault::Shape(Part::Workspace)),
    }
}

/// Whether the key `members` has items.
fn lists_members(workspace: &Table) -> Result<bool, ManifestFault>
    ensures { result ≡ members_at (table_view workspace.now) }
{
    match member(workspace, "members") {
        Some(value) => match value.as_array() {
            Some(members) => Ok(has_items(members)),
            None => Err(ManifestFault::Shape(Part::Workspace)),
        },
        None => Ok(false),
    }
}
