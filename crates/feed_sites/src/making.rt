//! Two replicas: what the one becomes beside the other.

ghost use Rattle.std.specs.Prelude.{◌≡◌, ◌≤◌, All, IfErr, IfOk};
ghost use Rattle.desk_ops.specs.Op.{IsLawful};
ghost use Rattle.desk_ops.specs.OpSet.{in_order, no_ops, with_all};
ghost use Rattle.feed_sites.specs.Moving.{set_renumbered};
ghost use Rattle.feed_sites.specs.Refusing.{IsRefused, MayMove};

use crate::fault::NumberFault;
use crate::moving::{all_renumbered, moved_of};
use crate::refusals::{any_uses, clashes, first_seen};
use desk_blocks::Blocks;
use desk_held::Held;
use desk_memory::NoMemory;
use desk_ops::Op;
use desk_replica::Replica;
use feed_edit::ANY_SITE;
use std::alloc::Allocator;

/// The operations of a replica as a set.
fn held_of<A: Allocator + Copy>(
    alloc: A,
    replica: &Replica<Blocks<A>>,
) -> Result<(Vec<Op, A>, Held<A>), NoMemory>
    ensures listed { IfOk result (λ p. p.0.items ≡ in_order replica.now.ops) }
    ensures lawful { IfOk result (λ p. All IsLawful p.0.items) }
    ensures held { IfOk result (λ p. p.1.ops ≡ replica.now.ops) }
{
    let ops = replica.in_order()?;
    let held = Held::of_rising(alloc, &ops).ok_or(NoMemory)?;
    Ok((ops, held))
}

/// The operations that are moved to a number, unless it does not serve: they are given as lists in order and as sets.
fn moved_to<A: Allocator + Copy>(
    alloc: A,
    ops: &[Op],
    others: &[Op],
    feed: &Held<A>,
    other: &Held<A>,
    site: u16,
) -> Result<Held<A>, NumberFault>
    requires listed { ops.now ≡ in_order feed.now.ops }
    requires other_listed { others.now ≡ in_order other.now.ops }
    requires lawful { All IsLawful ops.now }
    ensures ok { IfOk result (λ h. MayMove site feed.now.ops other.now.ops h.ops) }
    ensures err { IfErr result (IsRefused site feed.now.ops other.now.ops) }
{
    if any_uses(ops, site) || any_uses(others, site) {
        return Err(NumberFault::InUse);
    }
    let moved = moved_of(alloc, ops, feed, other)?;
    if let Some(stamp) = first_seen(ops, others, &moved, feed, other) {
        return Err(NumberFault::Seen(stamp));
    }
    if clashes(&moved)? {
        return Err(NumberFault::Clash);
    }
    Ok(moved)
}

/// A replica of the operations of a list: as many as a replica holds.
fn replica_of<A: Allocator + Copy>(alloc: A, ops: &[Op]) -> Result<Replica<Blocks<A>>, NoMemory>
    requires { All IsLawful ops.now }
    ensures { IfOk result (λ r. r.ops ≡ with_all no_ops ops.now) }
{
    match Replica::open(alloc, ANY_SITE, ops) {
        Ok(replica) => Ok(replica),
        Err(_) => Err(NoMemory),
    }
}

/// What a replica becomes: the operations that are moved, and all that it holds then.
pub struct Made<A: Allocator + Copy> {
    pub moved: Held<A>,
    pub replica: Replica<Blocks<A>>,
}

// Written out: what drops one calls this, and does not take it apart once more.
impl<A: Allocator + Copy> Drop for Made<A> {
    fn drop(self) {
        let Made { moved, replica } = self;
        drop(moved);
        drop(replica);
    }
}

/// What a replica becomes beside another under a number, unless that does not serve.
pub fn made_of<A: Allocator + Copy>(
    alloc: A,
    feed: &Replica<Blocks<A>>,
    other: &Replica<Blocks<A>>,
    site: u16,
) -> Result<Made<A>, NumberFault>
    requires { 1 ≤ site }
    ensures moved { IfOk result (λ m. MayMove site feed.now.ops other.now.ops m.moved.ops) }
    ensures made { IfOk result (λ m. m.replica.ops ≡ set_renumbered site m.moved.ops feed.now.ops) }
    ensures err { IfErr result (IsRefused site feed.now.ops other.now.ops) }
{
    let (ops, set) = held_of(alloc, feed)?;
    let (others, other_set) = held_of(alloc, other)?;
    let moved = moved_to(alloc, &ops, &others, &set, &other_set, site)?;
    let list = all_renumbered(alloc, &ops, &moved, site)?;
    let replica = replica_of(alloc, &list)?;
    Ok(Made { moved, replica })
}
