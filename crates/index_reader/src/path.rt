//! Where the file of a name lies.

ghost use Rattle.std.specs.Prelude.{◌≡◌, ◌<◌, ◌++◌, length, IfOk, string_bytes};
ghost use Rattle.std.specs.Str.{IsAscii};
ghost use Rattle.index_reader.specs.Folders.{folder_of, path_of};

use features::PackageName;
use std::alloc::{AllocError, Global};

/// The path of the file of a name in an index (Cargo book, "Registry Index", "Index files").
pub fn index_path(alloc: Global, name: &PackageName) -> Result<String, AllocError>
    ensures { IfOk result (λ path. string_bytes path ≡ path_of name.now) }
{
    let lower = name.as_str().to_ascii_lowercase(alloc)?;
    path_in(alloc, lower.as_str())
}

/// The path of a name in lower case.
fn path_in(alloc: Global, name: &str) -> Result<String, AllocError>
    requires ascii { IsAscii name.now }
    requires named { 0 < length name.now }
    ensures { IfOk result (λ path. string_bytes path ≡ folder_of name.now ++ name.now) }
{
    match name.len() {
        1 => format!(in alloc; "1/{name}"),
        2 => format!(in alloc; "2/{name}"),
        3 => format!(in alloc; "3/{}/{name}", &name[..1]),
        _ => format!(in alloc; "{}/{}/{name}", &name[..2], &name[2..4]),
    }
}
