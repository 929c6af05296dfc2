//! What is written of a renumbering.

ghost use Rattle.std.specs.Prelude.{◌≡◌, IfOk, string_bytes};
ghost use Rattle.feed_sites.specs.Renumbering.{Reports, renumbered_line};

use crate::making::Made;
use crate::reported::put_words;
use desk_blocks::Blocks;
use desk_memory::NoMemory;
use desk_replica::Replica;
use std::alloc::Allocator;

/// The line of how many operations were moved.
pub fn renumbered_line<A: Allocator + Copy>(alloc: A, count: usize) -> Result<String<A>, NoMemory>
    ensures { IfOk result (λ s. string_bytes s ≡ renumbered_line count) }
{
    let mut out = String::new(alloc);
    out.push_str("ok renumbered ")?;
    write!(out, "{count}")?;
    out.push_str("\n")?;
    Ok(out)
}

/// What is written: that line, and the words in which the copy reads otherwise.
pub fn reported_of<A: Allocator + Copy>(
    alloc: A,
    feed: &Replica<Blocks<A>>,
    made: &Made<A>,
) -> Result<Vec<u8, A>, NoMemory>
    ensures { IfOk result (λ v. Reports feed.now.ops made.now.replica.ops made.now.moved.ops v.items) }
{
    let line = renumbered_line(alloc, made.moved.len())?;
    let mut out = Vec::new(alloc);
    out.extend_from_slice(line.as_bytes())?;
    put_words(alloc, &mut out, feed, &made.replica)?;
    Ok(out)
}
