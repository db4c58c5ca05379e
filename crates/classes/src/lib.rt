//! What a version is to a lock: its class, its place in package order, and the Rust version that it needs.
//!
//! A lock has at most one version of a name in each class, the leftmost nonzero number with those before it. Classes
//! are ordered as their versions are, so among versions that stand oldest first those of a class stand together:
//! `matching` puts what a requirement matches into classes in one pass, and others find a class by two searches.
//!
//! Two versions that differ in build metadata alone have equal precedence, and an order of packages has to tell them
//! apart. So `version_order` goes by precedence and then by the bytes of the texts.
//!
//! A layer above may rely on this: each call is exact. `matching` is to be given versions that stand oldest first, at
//! most 65,535 of them.
#![tactic(auto)]

mod class;
mod grouping;
mod numbers;
mod order;
mod rust_version;
mod same;

pub use class::Class;
pub use grouping::{is_matched, matching, some_matched};
pub use numbers::whole_number;
pub use order::version_order;
pub use rust_version::RustVersion;
pub use same::{same_class, same_version};
