//! The corrections of a set: the longest rows of operations of one site whose counters follow one another.

ghost use Rattle.std.specs.Prelude.{◌≡◌, ℕ, ◌+◌, ◌≤◌, ◌<◌, ◌^◌, All, IfOk, OnOk, drop, length, slice_index_or};
ghost use Rattle.desk_ops.specs.Held.{is_borne};
ghost use Rattle.desk_ops.specs.Op.{IsLawful, stamp_of};
ghost use Rattle.desk_replica.specs.Seats.{Rise};
ghost use Rattle.feed_history.specs.Corrections.{AreEnds, correction_to, ends, first_to};

use crate::stamped::first_bearing;
use desk_memory::NoMemory;
use desk_ops::{Op, Stamp};
use std::alloc::{AllocError, Allocator};

/// A longest row of operations of one site whose counters follow one another, by its first counter and its last.
#[derive(Clone, Copy, Debug, PartialEq, Eq)]
pub struct Correction {
    pub site: u16,
    pub first: u64,
    pub last: u64,
}

/// Whether an operation bears the stamp. It is looked for near a place first.
fn is_borne(ops: &[Op], near: &mut usize, stamp: Stamp) -> bool
    requires rising { Rise stamp_of ops.now }
    requires few { length ops.now < 2 ^ 63 }
    ensures { result ≡ is_borne ops.now stamp }
{
    first_bearing(ops, near, stamp).is_some()
}

/// The first counter of the longest row of a site that comes to a counter. Its operations are looked for near a place
/// first.
fn first_to(ops: &[Op], near: &mut usize, site: u16, last: u64) -> u64
    requires rising { Rise stamp_of ops.now }
    requires few { length ops.now < 2 ^ 63 }
    ensures value { result ≡ first_to ops.now site last }
    ensures within { result ≤ last }
{
    let mut first = last;
    let mut steps = 0;
    while first > 0 {
        let counter = first - 1;
        let mut place = near.saturating_sub(steps);
        if !is_borne(ops, &mut place, Stamp { counter, site }) {
            *near = place;
            return first;
        }
        steps = near.saturating_sub(place).saturating_add(1).max(2);
        *near = place;
        first = counter;
    }
    first
}

/// The correction that ends with a stamp. Its operations are looked for near a place first.
pub fn correction_to(ops: &[Op], near: &mut usize, last: Stamp) -> Correction
    requires rising { Rise stamp_of ops.now }
    requires few { length ops.now < 2 ^ 63 }
    ensures { result ≡ correction_to ops.now last }
{
    Correction {
        site: last.site,
        first: first_to(ops, near, last.site, last.counter),
        last: last.counter,
    }
}

/// Makes a list reach to a site, by zeros.
fn reach<A: Allocator + Copy>(next: &mut Vec<u64, A>, site: usize) -> Result<(), AllocError>
    requires { site < 65536 }
    ensures reached { OnOk result (site < length next.new.items) }
    ensures same { OnOk result
        ((k : ℕ) → slice_index_or next.new.items k 0 ≡ slice_index_or next.old.items k 0) }
{
    while next.len() <= site {
        next.push(0)?;
    }
    Ok(())
}

/// Adds the stamp of the operation at a place, where it ends a correction, newest first. Of each site `next` has the
/// counter of its first operation behind the place, and then of the first from the place on.
fn add_end<A: Allocator + Copy>(
    ends: &mut Vec<Stamp, A>,
    next: &mut Vec<u64, A>,
    ops: &[Op],
    at: usize,
) -> Result<(), AllocError>
    requires rising { Rise stamp_of ops.now }
    requires lawful { All IsLawful ops.now }
    requires within { at < length ops.now }
    requires so_far { AreEnds (drop (at + 1) ops.now) ends.old.items next.old.items }
    ensures ends { OnOk result (AreEnds (drop at ops.now) ends.new.items next.new.items) }
    ensures small { All (λ s. s.counter < 2 ^ 63) ends.old.items
        → OnOk result (All (λ s. s.counter < 2 ^ 63) ends.new.items) }
{
    let stamp = ops[at].stamp();
    let site = usize::from(stamp.site);
    reach(next, site)?;
    let later = next[site];
    next[site] = stamp.counter;
    if later == stamp.counter || later == stamp.counter + 1 {
        return Ok(());
    }
    ends.push(stamp)?;
    Ok(())
}

/// The last stamps of all corrections, in order.
pub fn ends_of<A: Allocator + Copy>(alloc: A, ops: &[Op]) -> Result<Vec<Stamp, A>, NoMemory>
    requires rising { Rise stamp_of ops.now }
    requires lawful { All IsLawful ops.now }
    requires few { length ops.now < 2 ^ 63 }
    ensures ends { IfOk result (λ v. v.items ≡ ends ops.now) }
    ensures small { IfOk result (λ v. All (λ s. s.counter < 2 ^ 63) v.items) }
{
    let mut next = Vec::new(alloc);
    let mut ends = Vec::with_capacity(alloc, ops.len())?;
    let mut at = ops.len();
    while at > 0 {
        at -= 1;
        add_end(&mut ends, &mut next, ops, at)?;
    }
    ends.reverse();
    Ok(ends)
}
