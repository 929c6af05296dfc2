//! The stamps that two rooms used for different operations.

ghost use Rattle.std.specs.Prelude.{◌≡◌, ◌||◌, IfOk, Some, false, length, nat_le, ℕ};
ghost use Rattle.std.specs.List.{list_any};
ghost use Rattle.desk_ops.specs.declared.op.Stamp.{Stamp};
ghost use Rattle.feed_sites.specs.Moving.{collides, collides_before, differ, is_from, is_reached, leads_to};

use desk_held::Held;
use desk_memory::NoMemory;
use desk_ops::{Op, Stamp};
use std::alloc::Allocator;

/// Numbers of sites are below this.
pub const SITES: usize = 65536;

/// Whether both are there, and differ.
fn differ(one: Option<Op>, other: Option<Op>) -> bool
    ensures { result ≡ differ one other }
{
    match (one, other) {
        (Some(one), Some(other)) => one != other,
        _ => false,
    }
}

/// Whether a stamp collides between two sets: in each one operation alone bears it, and the two differ.
fn collides<A: Allocator + Copy>(feed: &Held<A>, other: &Held<A>, stamp: Stamp) -> bool
    ensures { result ≡ collides feed.now.ops other.now.ops stamp }
{
    differ(feed.clear_op(stamp), other.clear_op(stamp))
}

/// The lesser of a counter and of what is known of its site.
fn lesser(known: Option<u64>, counter: u64) -> u64
    ensures { (n : ℕ) → is_reached (Some result) n ≡ (nat_le counter n || is_reached known n) }
{
    match known {
        Some(least) => least.min(counter),
        None => counter,
    }
}

/// Notes a stamp that collides.
fn note<A: Allocator>(firsts: &mut Vec<Option<u64>, A>, stamp: Stamp)
    requires { length firsts.old.items ≡ SITES }
    ensures length { length firsts.new.items ≡ SITES }
    ensures from { (s : Stamp) → is_from firsts.new.items s ≡ (leads_to stamp s || is_from firsts.old.items s) }
{
    let site = stamp.site as usize;
    firsts[site] = Some(lesser(firsts[site], stamp.counter));
}

/// A place for each site, with no counter.
fn no_firsts<A: Allocator + Copy>(alloc: A) -> Result<Vec<Option<u64>, A>, NoMemory>
    ensures length { IfOk result (λ v. length v.items ≡ SITES) }
    ensures none { IfOk result (λ v. (s : Stamp) → is_from v.items s ≡ false) }
{
    let mut firsts = Vec::with_capacity(alloc, SITES)?;
    while firsts.len() < SITES {
        firsts.push(None)?;
    }
    Ok(firsts)
}

/// The least counter of each site that collides between two sets, at its place, by the operations of the one in order.
pub fn first_collisions<A: Allocator + Copy>(
    alloc: A,
    ops: &[Op],
    feed: &Held<A>,
    other: &Held<A>,
) -> Result<Vec<Option<u64>, A>, NoMemory>
    ensures length { IfOk result (λ v. length v.items ≡ SITES) }
    ensures from { IfOk result (λ v. (s : Stamp)
        → is_from v.items s ≡ list_any (collides_before feed.now.ops other.now.ops s) ops.now) }
{
    let mut firsts = no_firsts(alloc)?;
    for op in ops {
        let stamp = op.stamp();
        if collides(feed, other, stamp) {
            note(&mut firsts, stamp);
        }
    }
    Ok(firsts)
}
