//! Names of packages and features, the entries of features, and tables of features.
//!
//! A name is one by its type: who holds a `PackageName` or a `FeatureName` needs no test, and contracts speak of its
//! bytes alone. An index has very many names, so one of at most 16 bytes lies in the name itself and asks for no memory
//! (`name_text.rt`).
//!
//! What is hard is the table. A package writes some features; Cargo adds one for each optional dependency that no entry
//! `dep:d` names and no feature is called by, and adds `default`; and an entry may name what isn't there.
//! `FeatureTable::build` is just that function (`table_of`), with the lowest fault at the first feature that has it.
//! What entries name is looked up among texts of which the first few lie in a row (`texts.rt`). What is written and
//! what is built are rows that rise by the names of the features (`rows.rt`), for a map takes longer to make and three
//! times their room. Tables of neighbouring versions share the rows that both have, as a dependency's clone shares its
//! parts.
//!
//! A package's name and a feature's are two types with the same traits, for they may have other bytes and lengths.
//!
//! A layer above may rely on this: `parse` takes exactly the texts that are names or entries. A table has exactly the
//! features that are meant, in the order of their bytes, and each entry that names a feature names one of the same
//! table, so a table knows its features.
#![tactic(auto)]

mod dependency;
mod draft;
mod entry;
mod feature_name;
mod name;
mod name_text;
mod requirement;
mod row;
mod rows;
mod table;
mod texts;
mod versioned;

pub use dependency::{Dependency, DependencyKind, DependencyParts, Summary};
pub use entry::{Entry, EntryFault};
pub use feature_name::FeatureName;
pub use name::{NameFault, PackageName};
pub use name_text::NameText;
pub use requirement::Requirement;
pub use row::{Row, shared};
pub use rows::{map_of, rows_of};
pub use table::{DepName, FeatureFault, FeatureTable, Rows};
pub use versioned::name_and_version;
