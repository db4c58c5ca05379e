//! Whether anything stands in a list or a table.

ghost use Rattle.std.specs.Prelude.{◌≡◌};
ghost use Rattle.toml.specs.Text.{has_items};
ghost use Rattle.toml.specs.View.{array_view, table_view};
ghost use Rattle.tables.specs.Rows.{has_rows};

use toml::Table;
use toml::value::Array;

/// Whether a list has items.
pub fn has_items(items: &Array) -> bool
    ensures { result ≡ has_items (array_view items.now) }
{
    !items.is_empty()
}

/// Whether a table has entries.
pub fn has_rows(table: &Table) -> bool
    ensures { result ≡ has_rows (table_view table.now) }
{
    !table.is_empty()
}
