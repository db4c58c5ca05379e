//! Numbers for what the tests draw.

/// The next of a row of numbers that look random (a linear congruential generator).
pub(crate) fn next(seed: u32) -> u32 {
    seed.wrapping_mul(1_664_525).wrapping_add(1_013_904_223)
}
