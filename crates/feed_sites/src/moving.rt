//! The operations that are moved, and what they are under another number.

ghost use Rattle.std.specs.Prelude.{◌≡◌, ◌≤◌, All, IfOk, length, map};
ghost use Rattle.std.specs.List.{filter};
ghost use Rattle.desk_ops.specs.Op.{IsLawful};
ghost use Rattle.desk_ops.specs.OpSet.{in_order};
ghost use Rattle.feed_sites.specs.Moving.{AreMoved, is_from, is_moved, op_under, renumbered, stamp_under};

use crate::collisions::{SITES, first_collisions};
use desk_held::Held;
use desk_memory::NoMemory;
use desk_ops::{Op, Stamp};
use std::alloc::Allocator;

/// Whether a stamp is from the least counter of its site on.
fn is_from(firsts: &[Option<u64>], stamp: Stamp) -> bool
    requires { length firsts.now ≡ SITES }
    ensures { result ≡ is_from firsts.now stamp }
{
    match firsts[stamp.site as usize] {
        Some(least) => least <= stamp.counter,
        None => false,
    }
}

/// Whether an operation is from the least counter of its site on, and the other set has it not.
fn is_moved<A: Allocator + Copy>(firsts: &[Option<u64>], other: &Held<A>, op: &Op) -> bool
    requires { length firsts.now ≡ SITES }
    ensures { result ≡ is_moved firsts.now other.now.ops op.now }
{
    is_from(firsts, op.stamp()) && !other.has(op)
}

/// The operations of a list that are moved.
fn moved_among<A: Allocator + Copy>(
    alloc: A,
    ops: &[Op],
    firsts: &[Option<u64>],
    other: &Held<A>,
) -> Result<Vec<Op, A>, NoMemory>
    requires length { length firsts.now ≡ SITES }
    requires lawful { All IsLawful ops.now }
    ensures value { IfOk result (λ v. v.items ≡ filter (is_moved firsts.now other.now.ops) ops.now) }
    ensures lawful { IfOk result (λ v. All IsLawful v.items) }
{
    let mut moved = Vec::new(alloc);
    for op in ops {
        if is_moved(firsts, other, op) {
            moved.push(*op)?;
        }
    }
    Ok(moved)
}

/// The set of the operations that are moved. `ops` are those of the feed, in order.
pub fn moved_of<A: Allocator + Copy>(
    alloc: A,
    ops: &[Op],
    feed: &Held<A>,
    other: &Held<A>,
) -> Result<Held<A>, NoMemory>
    requires listed { ops.now ≡ in_order feed.now.ops }
    requires lawful { All IsLawful ops.now }
    ensures { IfOk result (λ h. AreMoved feed.now.ops other.now.ops h.ops) }
{
    let firsts = first_collisions(alloc, ops, feed, other)?;
    let moved = moved_among(alloc, ops, &firsts, other)?;
    Held::of_rising(alloc, &moved).ok_or(NoMemory)
}

/// A stamp under the other number, if an operation that is moved bears it.
fn stamp_under<A: Allocator + Copy>(moved: &Held<A>, site: u16, stamp: Stamp) -> Stamp
    ensures { result ≡ stamp_under site moved.now.ops stamp }
{
    if moved.holds(stamp) {
        Stamp {
            counter: stamp.counter,
            site,
        }
    } else {
        stamp
    }
}

/// An operation, its stamp and what it names under the other number.
fn op_under<A: Allocator + Copy>(moved: &Held<A>, site: u16, op: &Op) -> Op
    ensures { result ≡ op_under site moved.now.ops op.now }
{
    match *op {
        Op::Insert {
            stamp,
            parent,
            symbol,
        } => Op::Insert {
            stamp: stamp_under(moved, site, stamp),
            parent: stamp_under(moved, site, parent),
            symbol,
        },
        Op::Delete { stamp, target } => Op::Delete {
            stamp: stamp_under(moved, site, stamp),
            target: stamp_under(moved, site, target),
        },
        Op::Set { stamp, key, value } => Op::Set {
            stamp: stamp_under(moved, site, stamp),
            key,
            value,
        },
    }
}

/// What an operation of the feed becomes: one that is not moved stays as it is.
fn renumbered<A: Allocator + Copy>(moved: &Held<A>, site: u16, op: &Op) -> Op
    requires numbered { 1 ≤ site }
    requires lawful { IsLawful op.now }
    ensures value { result ≡ renumbered site moved.now.ops op.now }
    ensures lawful { IsLawful result }
{
    let _ = moved.len();
    if moved.has(op) {
        op_under(moved, site, op)
    } else {
        *op
    }
}

/// What the operations of the feed become.
pub fn all_renumbered<A: Allocator + Copy>(
    alloc: A,
    ops: &[Op],
    moved: &Held<A>,
    site: u16,
) -> Result<Vec<Op, A>, NoMemory>
    requires numbered { 1 ≤ site }
    requires lawful { All IsLawful ops.now }
    ensures value { IfOk result (λ v. v.items ≡ map (renumbered site moved.now.ops) ops.now) }
    ensures lawful { IfOk result (λ v. All IsLawful v.items) }
{
    let mut list = Vec::with_capacity(alloc, ops.len())?;
    for op in ops {
        list.push(renumbered(moved, site, op))?;
    }
    Ok(list)
}
