//! What a Cargo.toml says: the package, its dependencies by number, its features, and the faults that it may have.
//!
//! What is hard is that a manifest may have many faults and only the first of them is told. So the definition
//! (`specs/Manifests`) is a function of the bytes, step after step: the size, the TOML, the shape of each part in the
//! order of `Part`, the sources that aren't supported, the requirements, the feature table. The code has a function for
//! each function of the definition, with the same steps in the same order, so that hardly any of it needs a proof by
//! hand.
//!
//! The root differs from other packages. All its dependencies count, normal, dev and build ones and those of targets,
//! and each is known by its number in this order. Since all count, its entry `d?/g` says what `d/g` does.
//!
//! The kind of a dependency decides its number and whether it may be optional; nothing reads it afterwards, so it isn't
//! kept. A dependency's features are feature names: `a/b` and `dep:a` there have another shape, and an empty text is
//! dropped there, but not in `[features]`.
//!
//! A layer above may rely on this: `Manifest::read` gives what the definition gives for the bytes, or says that memory
//! was wanting. The names and the version in a `Manifest` are valid ones by its type. `unsupported_in` says of the
//! table of a dependency alone which unsupported source it asks for.
#![tactic(auto)]

mod check;
mod dependency;
mod fault;
mod feature;
mod package;
mod package_table;
mod reader;
mod root_features;
mod section;
mod shape;
mod table;
mod workspace;

pub use dependency::unsupported_in;
pub use fault::{ManifestFault, Part, TableFault, Unsupported};
pub use reader::{Manifest, manifests_bring_valid_parts};
