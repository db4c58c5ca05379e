//! Reading bytes as a table of TOML, and looking keys up in one.
//!
//! `manifest` and `lockfile` read such tables, `manifest_faults` and `lock_faults` look for what is wrong in them, and
//! each has faults of its own. So what is here has none but want of memory: what is no TOML, or isn't there, is `None`.
//!
//! Where and why bytes are none, and the line that tells it to people, stands beside it (`misreading.rt`).
//!
//! A layer above may rely on this: `read_table` gives what the bytes are in TOML, and nothing exactly where they are
//! none, or says that memory was wanting; what is asked of a table or a list is exact.
#![tactic(auto)]

mod filled;
mod keys;
mod line;
mod misreading;
mod reading;

pub use filled::{has_items, has_rows};
pub use keys::{has_key, member};
pub use line::line_after;
pub use misreading::{Misreading, no_toml};
pub use reading::read_table;
