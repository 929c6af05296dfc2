//! Numbers that look random, the same in each run.

/// The number after a number.
pub fn next(seed: u64) -> u64 {
    seed.wrapping_mul(6_364_136_223_846_793_005)
        .wrapping_add(1_442_695_040_888_963_407)
}

/// A number below n, or 0.
pub fn pick(seed: u64, n: usize) -> usize {
    ((seed >> 33) % (n.max(1) as u64)) as usize
}
