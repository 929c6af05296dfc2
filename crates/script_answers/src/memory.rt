//! Where a run takes its memory.

use std::alloc::{Allocator, Global};

/// The allocator of a run, and the global one, which the reading of a case or a wedge takes alone.
#[derive(Clone, Copy)]
pub struct Memory<A: Allocator + Copy> {
    pub own: A,
    pub global: Global,
}
