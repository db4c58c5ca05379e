//! For whom something is told.

/// For whom something is told: in lines, or as JSON.
#[derive(Clone, Copy, Debug, PartialEq, Eq)]
pub enum Form {
    People,
    Programs,
}
