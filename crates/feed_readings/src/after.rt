//! The open readings of a replica and of a list of operations that was joined to it, by what was kept of it before.

ghost use Rattle.std.specs.Prelude.{◌≡◌, ◌≤◌, All, IfOk, IfSome, length};
ghost use Rattle.desk_ops.specs.Op.{IsLawful};
ghost use Rattle.desk_ops.specs.OpSet.{OpSet, no_ops, size, union, with_all};
ghost use Rattle.feed_readings.specs.Before.{IsBefore, IsJoin};
ghost use Rattle.feed_readings.specs.Lines.{reported_of};
ghost use Rattle.feed_readings.specs.Merged.{common_ops, in_common, readings_of, shown_list};
ghost use Rattle.feed_readings.specs.Parts.{AreParts};

use crate::copies::copies_in;
use crate::lines::{Copies, lines_in};
use crate::merged::{common_of, shown_of};
use crate::parts::{Parts, parts_of};
use crate::reading::Shown;
use crate::sides::{Sides, sides_of};
use desk_held::AddRefusal;
use desk_memory::NoMemory;
use desk_ops::Op;
use desk_replica::Replica;
use desk_seq::Sequence;
use std::alloc::Allocator;

/// The operations of a replica in order, and the elements that it shows.
#[derive(Drop)]
pub struct Whole<A: Allocator + Copy> {
    ops: Vec<Op, A>,
    shown: Vec<Shown, A>,
}

/// What is kept of a replica before a list of operations is joined to it, for their open readings.
#[derive(Drop)]
pub enum Before<A: Allocator + Copy> {
    /// One of the two has all that the other does: nothing.
    Held,
    /// What tells the two apart.
    Apart(Parts<A>),
    /// All of it, where the two fork a stamp, or an insert waits in one of them.
    Whole(Whole<A>),
}

/// What tells two lists apart; none where they fork a stamp, an insert of one waits, or memory does not allow it.
fn told_apart<A: Allocator + Copy>(
    alloc: A,
    ones: &[Op],
    ops: &[Op],
) -> Result<Option<Before<A>>, NoMemory>
    requires ones { All IsLawful ones.now }
    requires ops { All IsLawful ops.now }
    ensures { IfOk result (λ o. IfSome o (IsBefore (with_all no_ops ones.now) ops.now)) }
{
    let Some(sides) = sides_of(alloc, ones, ops)? else {
        return Ok(None);
    };
    let Sides { olds, news } = sides;
    if olds.alone.is_empty() {
        return Ok(Some(Before::Held));
    }
    match parts_of(alloc, ones, ops, &news, olds)? {
        Some(parts) => Ok(Some(Before::Apart(parts))),
        None => Ok(None),
    }
}

/// What is kept of a replica before a list of operations is joined to it. Where one of the two has all that the other
/// does that is nothing, and where the list brings nothing new no copy is made to see it. Out of memory comes only
/// where a growth was refused.
pub fn before_of<Q: Sequence>(
    alloc: Q::Memory,
    replica: &Replica<Q>,
    ops: &[Op],
) -> Result<Before<Q::Memory>, NoMemory>
    requires { All IsLawful ops.now }
    ensures { IfOk result (IsBefore replica.now.ops ops.now) }
{
    if replica.is_empty() || replica.has_all(ops) {
        return Ok(Before::Held);
    }
    let ones = replica.in_order()?;
    if let Some(before) = told_apart(alloc, &ones, ops)? {
        return Ok(before);
    }
    let shown = shown_of(alloc, replica)?;
    Ok(Before::Whole(Whole { ops: ones, shown }))
}

/// A replica of a list of operations, all of which another holds.
fn other_of<Q: Sequence>(
    alloc: Q::Memory,
    ops: &[Op],
    both: &Replica<Q>,
) -> Result<Replica<Q>, NoMemory>
    requires lawful { All IsLawful ops.now }
    requires few { size (with_all no_ops ops.now) ≤ size both.now.ops }
    ensures { IfOk result (λ r. r.ops ≡ with_all no_ops ops.now) }
{
    let _len = both.len();
    match Replica::open(alloc, both.site(), ops) {
        Ok(replica) => Ok(replica),
        Err(stopped) => match stopped.why {
            AddRefusal::NoMemory => Err(NoMemory),
            AddRefusal::Full => unreachable!(),
        },
    }
}

/// The elements of the four lists of all of a replica, of another, and of what both make: the other and what they have
/// in common are opened as replicas.
fn copies_after<Q: Sequence>(
    alloc: Q::Memory,
    whole: Whole<Q::Memory>,
    ops: &[Op],
    both: &Replica<Q>,
) -> Result<Copies<Q::Memory>, NoMemory>
    requires own { All IsLawful whole.ops.items }
    requires lawful { All IsLawful ops.now }
    requires few { size (with_all no_ops ops.now) ≤ size both.now.ops }
    ensures base { IfOk result
        (λ c. c.base.items ≡ shown_list (with_all no_ops (common_ops (with_all no_ops ops.now) whole.ops.items))) }
    ensures one { IfOk result (λ c. c.one.items ≡ whole.shown.items) }
    ensures other { IfOk result (λ c. c.other.items ≡ shown_list (with_all no_ops ops.now)) }
    ensures both { IfOk result (λ c. c.both.items ≡ shown_list both.now.ops) }
{
    let Whole { ops: ones, shown } = whole;
    let other = other_of(alloc, ops, both)?;
    let shared = common_of(alloc, &ones, &other)?;
    drop(ones);
    let base = shown_of(alloc, &shared)?;
    drop(shared);
    let others = shown_of(alloc, &other)?;
    drop(other);
    let boths = shown_of(alloc, both)?;
    Ok(Copies {
        base,
        one: shown,
        other: others,
        both: boths,
    })
}

/// The open readings of two sets by what tells them apart.
fn report_apart<Q: Sequence>(
    alloc: Q::Memory,
    parts: Parts<Q::Memory>,
    both: &Replica<Q>,
) -> Result<(Vec<u8, Q::Memory>, usize), NoMemory>
    ensures lines { (one other : OpSet) → AreParts one other parts → both.now.ops ≡ union one other
        → IfOk result (λ t. t.0.items ≡ reported_of one other) }
    ensures count { (one other : OpSet) → AreParts one other parts → both.now.ops ≡ union one other
        → IfOk result (λ t. t.1 ≡ length (readings_of one other)) }
{
    let _len = both.len();
    let copies = copies_in(alloc, &parts, both.sequence())?;
    drop(parts);
    lines_in(alloc, &copies)
}

/// The open readings of what was kept of a replica and of a list of operations that was joined to it as text, and how
/// many they are, as `report_readings` has them: `here` is the replica before, `there` the list, and `now` what both
/// make. Where one of the two holds all that the other does there are none, and no copy is looked at. Where no stamp is
/// forked and no insert waits in one of the two, all four copies are read off the walk of what both make; else the list
/// and what both have in common are opened as replicas. Out of memory comes only where a growth was refused.
pub fn report_after<Q: Sequence>(
    alloc: Q::Memory,
    before: Before<Q::Memory>,
    ops: Vec<Op, Q::Memory>,
    both: &Replica<Q>,
) -> Result<(Vec<u8, Q::Memory>, usize), NoMemory>
    requires lawful { All IsLawful ops.items }
    requires joined { (set : OpSet) × IsJoin set ops.items before both.now.ops }
    ensures lines { (set : OpSet) → IsJoin set ops.items before both.now.ops
        → IfOk result (λ t. t.0.items ≡ reported_of set (with_all no_ops ops.items)) }
    ensures count { (set : OpSet) → IsJoin set ops.items before both.now.ops
        → IfOk result (λ t. t.1 ≡ length (readings_of set (with_all no_ops ops.items))) }
{
    let _len = both.len();
    match before {
        Before::Held => Ok((Vec::new(alloc), 0)),
        Before::Apart(parts) => {
            drop(ops);
            report_apart(alloc, parts, both)
        }
        Before::Whole(whole) => {
            let copies = copies_after(alloc, whole, &ops, both)?;
            drop(ops);
            lines_in(alloc, &copies)
        }
    }
}
