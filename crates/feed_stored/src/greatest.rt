//! The greatest counter that a site has made.

ghost use Rattle.std.specs.Prelude.{◌≡◌, IfOk};
ghost use Rattle.feed_stored.specs.Greatest.{greatest_from, greatest_of};

use desk_blocks::Blocks;
use desk_memory::NoMemory;
use desk_ops::Op;
use desk_replica::Replica;
use std::alloc::Allocator;

/// So many operations are looked at in a turn.
const CHUNK: usize = 512;

/// The greatest of a number and the counters of the operations that a site bears.
pub fn greatest_from(least: u64, ops: &[Op], site: u16) -> u64
    ensures { result ≡ greatest_from least ops.now site }
{
    let mut greatest = least;
    for op in ops {
        let stamp = op.stamp();
        if stamp.site == site {
            greatest = greatest.max(stamp.counter);
        }
    }
    greatest
}

/// The greatest counter of the operations that a site bears in a replica, or 0 where it bears none. It takes memory for
/// a few operations at a time.
pub fn greatest_in<A: Allocator + Copy>(
    replica: &Replica<Blocks<A>>,
    site: u16,
) -> Result<u64, NoMemory>
    ensures { IfOk result (λ n. n ≡ greatest_of replica.now.ops site) }
{
    let len = replica.len();
    let mut greatest = 0;
    let mut from = 0;
    'turns: while from < len {
        let until = len.min(from + CHUNK);
        let ops = replica.range(from, until)?;
        greatest = greatest_from(greatest, &ops, site);
        from = until;
    }
    Ok(greatest)
}
