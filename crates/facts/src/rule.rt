//! A reason: two facts that give a third.

/// Where the two facts are given, the third is; a rule that needs one fact alone has it twice.
#[derive(Clone, Copy, Debug)]
pub struct Rule {
    pub first: usize,
    pub second: usize,
    pub gives: usize,
}
