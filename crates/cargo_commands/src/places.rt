//! Where the files of a command are.

use crate::failure::Failure;
use crate::reading::Places;
use crate::showing::Surroundings;
use catalogue::is_source;
use outcomes::{CRATES_IO, Paths, fetched_index, is_missing, lock_at};
use std::alloc::AllocError;
use std::rt::Files;

/// Where a manifest is looked for: in the present folder, and above it, as Cargo does.
const MANIFESTS: [&str; 8] = [
    "Cargo.toml",
    "../Cargo.toml",
    "../../Cargo.toml",
    "../../../Cargo.toml",
    "../../../../Cargo.toml",
    "../../../../../Cargo.toml",
    "../../../../../../Cargo.toml",
    "../../../../../../../Cargo.toml",
];

/// The nearest manifest; where there is none, the one that there would be here.
fn nearest_manifest<R: Files>(rt: &R) -> &'static str {
    for manifest in MANIFESTS.iter() {
        if !is_missing(rt, manifest) {
            return *manifest;
        }
    }
    "Cargo.toml"
}

/// The folder of the index, and whether it is what Cargo fetched.
struct Index {
    path: String,
    is_fetched: bool,
}

/// What the words name, else the environment, else what Cargo fetched, if it did. What it keeps it keeps in a folder
/// `.cache`, which may be named too.
fn index_of<R: Files + AllocGlobal + Clone + Drop>(
    rt: &R,
    places: Places<'_>,
    around: &Surroundings<'_>,
) -> Result<Option<Index>, AllocError> {
    if let Some(named) = places.index.or(around.index) {
        let path = String::from_str(rt.alloc(), named)?;
        let is_fetched = named.trim_end_matches('/').rsplit('/').next() == Some(".cache");
        return Ok(Some(Index { path, is_fetched }));
    }
    let Some(home) = around.cargo_home else {
        return Ok(None);
    };
    match fetched_index(rt, home)? {
        Some(path) => Ok(Some(Index {
            path,
            is_fetched: true,
        })),
        None => Ok(None),
    }
}

/// Where the words say, else the nearest manifest, `Cargo.lock` beside it, and the index that there is.
pub(crate) fn paths_of<'a, R: Files + AllocGlobal + Clone + Drop>(
    rt: &R,
    places: Places<'a>,
    around: &Surroundings<'_>,
) -> Result<Paths<'a>, Failure<'a>> {
    let Some(Index { path, is_fetched }) = index_of(rt, places, around)? else {
        return Err(Failure::NoIndex);
    };
    let source = places.source.unwrap_or(CRATES_IO);
    if !is_source(source) || !(source.starts_with("registry+") || source.starts_with("sparse+")) {
        return Err(Failure::NoSource(source));
    }
    let manifest = match places.manifest {
        Some(manifest) => manifest,
        None => nearest_manifest(rt),
    };
    let lock = lock_at(rt.alloc(), places.lock, manifest)?;
    Ok(Paths {
        manifest,
        lock,
        index: path,
        is_fetched,
        source,
    })
}
