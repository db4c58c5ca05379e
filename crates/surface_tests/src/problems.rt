//! Manifests and indexes in memory.

use catalogue::{Catalogue, LoadFault, Prefer, Source, load};
use index_reader::MemoryFolder;
use manifest::{Manifest, ManifestFault};
use std::alloc::{AllocError, Global};
use std::collections::BTreeMap;

pub(crate) const SOURCE: &str = "registry+https://github.com/rust-lang/crates.io-index";

/// A manifest, and its index by the paths of the files.
#[derive(Clone, Copy)]
pub(crate) struct Files {
    pub(crate) manifest: &'static str,
    pub(crate) index: &'static [(&'static str, &'static str)],
}

/// A root that needs a.
pub(crate) static PLAIN: Files = Files {
    manifest: r#"[package]
name = "demo"
version = "0.1.0"

[dependencies]
a = "1"
"#,
    index: &[(
        "1/a",
        r#"{"name":"a","vers":"1.0.0","deps":[],"cksum":"0000000000000000000000000000000000000000000000000000000000000000","features":{}}
{"name":"a","vers":"1.1.0","deps":[],"cksum":"0000000000000000000000000000000000000000000000000000000000000000","features":{}}
{"name":"a","vers":"2.0.0","deps":[],"cksum":"0000000000000000000000000000000000000000000000000000000000000000","features":{}}
"#,
    )],
};

/// A root that needs a 1.0.0 alone, and b, whose one version needs a 1.1.0 alone.
pub(crate) static REFUSED: Files = Files {
    manifest: r#"[package]
name = "demo"
version = "0.1.0"

[dependencies]
a = "=1.0.0"
b = "^1"
"#,
    index: &[
        (
            "1/a",
            r#"{"name":"a","vers":"1.0.0","deps":[],"cksum":"0000000000000000000000000000000000000000000000000000000000000000","features":{}}
{"name":"a","vers":"1.1.0","deps":[],"cksum":"0000000000000000000000000000000000000000000000000000000000000000","features":{}}
"#,
        ),
        (
            "1/b",
            r#"{"name":"b","vers":"1.0.0","deps":[{"name":"a","req":"=1.1.0"}],"cksum":"0000000000000000000000000000000000000000000000000000000000000000","features":{}}
"#,
        ),
    ],
};

/// A root with two requirements on a.
pub(crate) static NEWEST: Files = Files {
    manifest: r#"[package]
name = "demo"
version = "0.1.0"

[dependencies]
x = { package = "a", version = ">=1" }
y = { package = "a", version = "2" }
"#,
    index: &[(
        "1/a",
        r#"{"name":"a","vers":"1.0.0","deps":[],"cksum":"0000000000000000000000000000000000000000000000000000000000000000","features":{}}
{"name":"a","vers":"2.0.0","deps":[],"cksum":"0000000000000000000000000000000000000000000000000000000000000000","features":{}}
"#,
    )],
};

/// A root that asks a for a feature, which has an entry of each form.
pub(crate) static FEATURES: Files = Files {
    manifest: r#"[package]
name = "demo"
version = "0.1.0"

[dependencies]
a = { version = "1", features = ["f"] }
"#,
    index: &[
        (
            "1/a",
            r#"{"name":"a","vers":"1.0.0","deps":[{"name":"b","req":"1","optional":true}],"cksum":"0000000000000000000000000000000000000000000000000000000000000000","features":{"f":["g","b/x"],"g":[],"h":["dep:b","b?/x"]}}
"#,
        ),
        (
            "1/b",
            r#"{"name":"b","vers":"1.0.0","deps":[],"cksum":"0000000000000000000000000000000000000000000000000000000000000000","features":{"x":[]}}
"#,
        ),
    ],
};

/// A root that asks a for three features, of which none puts on the two that put on one another.
pub(crate) static CYCLE: Files = Files {
    manifest: r#"[package]
name = "demo"
version = "0.1.0"

[dependencies]
a = { version = "1", features = ["x", "y", "z"] }
"#,
    index: &[
        (
            "1/a",
            r#"{"name":"a","vers":"1.0.0","deps":[{"name":"b","req":"^1","optional":true},{"name":"c","req":"^1","optional":true},{"name":"d","req":"^1","optional":true},{"name":"e","req":"^1","optional":true}],"cksum":"0000000000000000000000000000000000000000000000000000000000000000","features":{"x":["b"],"y":["dep:c"],"z":["d/g"],"q":["r"],"r":["q","dep:e"]}}
"#,
        ),
        (
            "1/b",
            r#"{"name":"b","vers":"1.0.0","deps":[],"cksum":"0000000000000000000000000000000000000000000000000000000000000000","features":{}}
"#,
        ),
        (
            "1/c",
            r#"{"name":"c","vers":"1.0.0","deps":[],"cksum":"0000000000000000000000000000000000000000000000000000000000000000","features":{}}
"#,
        ),
        (
            "1/d",
            r#"{"name":"d","vers":"1.0.0","deps":[{"name":"h","req":"^1","optional":true}],"cksum":"0000000000000000000000000000000000000000000000000000000000000000","features":{"g":["h"]}}
"#,
        ),
        (
            "1/e",
            r#"{"name":"e","vers":"1.0.0","deps":[],"cksum":"0000000000000000000000000000000000000000000000000000000000000000","features":{}}
"#,
        ),
        (
            "1/h",
            r#"{"name":"h","vers":"1.0.0","deps":[],"cksum":"0000000000000000000000000000000000000000000000000000000000000000","features":{}}
"#,
        ),
    ],
};

/// A root that needs a and b.
pub(crate) static TWO: Files = Files {
    manifest: r#"[package]
name = "demo"
version = "0.1.0"

[dependencies]
a = "^1"
b = "^1"
"#,
    index: &[
        (
            "1/a",
            r#"{"name":"a","vers":"1.0.0","deps":[],"cksum":"0000000000000000000000000000000000000000000000000000000000000000","features":{}}
"#,
        ),
        (
            "1/b",
            r#"{"name":"b","vers":"1.0.0","deps":[],"cksum":"0000000000000000000000000000000000000000000000000000000000000000","features":{}}
"#,
        ),
    ],
};

/// The folder that has these files.
pub(crate) fn folder_of(alloc: Global, files: &Files) -> Result<MemoryFolder, AllocError> {
    let mut map = BTreeMap::new(alloc);
    for (path, text) in files.index {
        let path = String::from_str(alloc, path)?;
        map.insert(path, Vec::from_slice(alloc, text.as_bytes())?)?;
    }
    Ok(MemoryFolder::new(alloc, map))
}

/// A value behind a box, since a check goes through all that a test owns wherever it can end.
pub(crate) fn boxed<T: Drop>(alloc: Global, value: T) -> Result<Box<T>, AllocError> {
    Ok(Box::new(alloc, value)?)
}

/// What the manifest says.
pub(crate) fn manifest_of(alloc: Global, files: &Files) -> Result<Box<Manifest>, ManifestFault> {
    Ok(boxed(alloc, Manifest::read(alloc, files.manifest.as_bytes())?)?)
}

/// The index, loaded without an old lock.
pub(crate) fn load_files(
    alloc: Global,
    files: &Files,
    manifest: &Manifest,
) -> Result<Box<Catalogue>, LoadFault> {
    let mut folder = folder_of(alloc, files)?;
    let Ok(source) = Source::parse(alloc, SOURCE) else {
        return Err(LoadFault::OutOfMemory);
    };
    let catalogue = load(alloc, manifest, &mut folder, None, &source, Prefer::Newest)?;
    Ok(boxed(alloc, catalogue)?)
}
