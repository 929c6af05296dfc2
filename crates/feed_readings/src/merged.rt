//! The open readings of two replicas and of what both make.

ghost use Rattle.std.specs.Prelude.{◌≡◌, [], All, IfOk, length};
ghost use Rattle.std.specs.List.{list_all};
ghost use Rattle.desk_ops.specs.Op.{IsLawful};
ghost use Rattle.desk_ops.specs.OpSet.{has_op, in_order, no_ops, union, with_all};
ghost use Rattle.feed_readings.specs.Apart.{AreApart};
ghost use Rattle.feed_readings.specs.Lines.{reported_of};
ghost use Rattle.feed_readings.specs.Merged.{HoldsOther, common_ops, in_common, readings_of, shown_entries, shown_list};

use crate::lines::{Copies, lines_in};
use crate::reading::{Reading, Shown};
use crate::walk::open_readings;
use desk_held::AddRefusal;
use desk_memory::NoMemory;
use desk_ops::Op;
use desk_replica::Replica;
use desk_seq::Sequence;
use std::alloc::{AllocError, Allocator};

/// The elements that a sequence shows, in their order.
fn shown_in<Q: Sequence>(
    alloc: Q::Memory,
    sequence: &Q,
) -> Result<Vec<Shown, Q::Memory>, AllocError>
    ensures { IfOk result (λ v. v.items ≡ shown_entries (Q.entries sequence.now)) }
{
    let mut shown = Vec::with_capacity(alloc, sequence.shown_len())?;
    for at in 0..sequence.len() {
        let entry = sequence.entry(at);
        if !entry.deleted {
            shown.push(Shown {
                stamp: entry.stamp,
                symbol: entry.symbol,
            })?;
        }
    }
    Ok(shown)
}

/// The elements that a replica shows, in their order.
pub fn shown_of<Q: Sequence>(
    alloc: Q::Memory,
    replica: &Replica<Q>,
) -> Result<Vec<Shown, Q::Memory>, NoMemory>
    ensures { IfOk result (λ v. v.items ≡ shown_list replica.now.ops) }
{
    let shown = shown_in(alloc, replica.sequence())?;
    Ok(shown)
}

/// What a replica shows is known by its stamps.
pub fn is_apart<Q: Sequence>(replica: &Replica<Q>)
    ensures { AreApart (shown_list replica.now.ops) }
{
    let _len = replica.sequence().len();
}

/// Whether a replica holds all that another does.
fn holds<Q: Sequence>(one: &Replica<Q>, other: &Replica<Q>) -> Result<bool, NoMemory>
    ensures { IfOk result (λ b. b ≡ list_all (has_op one.now.ops) (in_order other.now.ops)) }
{
    let ops = other.in_order()?;
    Ok(one.has_all(&ops))
}

/// Those of some operations that a replica holds.
fn held_of<Q: Sequence>(
    alloc: Q::Memory,
    replica: &Replica<Q>,
    ops: &[Op],
) -> Result<Vec<Op, Q::Memory>, AllocError>
    ensures { IfOk result (λ v. v.items ≡ common_ops replica.now.ops ops.now) }
{
    let mut held = Vec::new(alloc);
    for op in ops {
        if replica.has(op) {
            held.push(*op)?;
        }
    }
    Ok(held)
}

/// A replica of those of some operations that another holds, which are no more than a replica holds.
pub fn common_of<Q: Sequence>(
    alloc: Q::Memory,
    ops: &[Op],
    other: &Replica<Q>,
) -> Result<Replica<Q>, NoMemory>
    requires lawful { All IsLawful ops.now }
    ensures { IfOk result (λ r. r.ops ≡ with_all no_ops (common_ops other.now.ops ops.now)) }
{
    let held = held_of(alloc, other, ops)?;
    let _len = other.len();
    match Replica::open(alloc, other.site(), &held) {
        Ok(replica) => Ok(replica),
        Err(stopped) => match stopped.why {
            AddRefusal::NoMemory => Err(NoMemory),
            AddRefusal::Full => unreachable!(),
        },
    }
}

/// A replica of what two have in common.
fn common<Q: Sequence>(
    alloc: Q::Memory,
    one: &Replica<Q>,
    other: &Replica<Q>,
) -> Result<Replica<Q>, NoMemory>
    ensures { IfOk result (λ r. r.ops ≡ in_common one.now.ops other.now.ops) }
{
    let ops = one.in_order()?;
    common_of(alloc, &ops, other)
}

/// The elements of the four lists of two replicas and of what both make.
fn copies_of<Q: Sequence>(
    alloc: Q::Memory,
    one: &Replica<Q>,
    other: &Replica<Q>,
    both: &Replica<Q>,
) -> Result<Copies<Q::Memory>, NoMemory>
    requires { both.now.ops ≡ union one.now.ops other.now.ops }
    ensures base { IfOk result (λ c. c.base.items ≡ shown_list (in_common one.now.ops other.now.ops)) }
    ensures one { IfOk result (λ c. c.one.items ≡ shown_list one.now.ops) }
    ensures other { IfOk result (λ c. c.other.items ≡ shown_list other.now.ops) }
    ensures both { IfOk result (λ c. c.both.items ≡ shown_list (union one.now.ops other.now.ops)) }
{
    let shared = common(alloc, one, other)?;
    let base = shown_of(alloc, &shared)?;
    drop(shared);
    let ones = shown_of(alloc, one)?;
    let others = shown_of(alloc, other)?;
    let boths = shown_of(alloc, both)?;
    Ok(Copies {
        base,
        one: ones,
        other: others,
        both: boths,
    })
}

/// The open readings of two replicas of which neither holds all that the other does.
fn compared<Q: Sequence>(
    alloc: Q::Memory,
    one: &Replica<Q>,
    other: &Replica<Q>,
    both: &Replica<Q>,
) -> Result<Vec<Reading, Q::Memory>, NoMemory>
    requires { both.now.ops ≡ union one.now.ops other.now.ops }
    ensures { IfOk result (λ v. v.items ≡ readings_of one.now.ops other.now.ops) }
{
    let copies = copies_of(alloc, one, other, both)?;
    let readings = open_readings(
        alloc,
        &copies.base,
        &copies.one,
        &copies.other,
        &copies.both,
    )?;
    Ok(readings)
}

/// The lines of the open readings of two replicas of which neither holds all that the other does, and how many they
/// are.
fn told<Q: Sequence>(
    alloc: Q::Memory,
    one: &Replica<Q>,
    other: &Replica<Q>,
    both: &Replica<Q>,
) -> Result<(Vec<u8, Q::Memory>, usize), NoMemory>
    requires { both.now.ops ≡ union one.now.ops other.now.ops }
    ensures lines { IfOk result (λ t. t.0.items ≡ reported_of one.now.ops other.now.ops) }
    ensures count { IfOk result (λ t. t.1 ≡ length (readings_of one.now.ops other.now.ops)) }
{
    let copies = copies_of(alloc, one, other, both)?;
    let (lines, count) = lines_in(alloc, &copies)?;
    Ok((lines, count))
}

/// The open readings of two replicas and of what both make: where their merged copy is not the three-way merge of the
/// two copies, word by word. Where one replica holds all that the other does there are none, and no copy is looked at.
/// Out of memory comes only where a growth was refused.
pub fn readings_of<Q: Sequence>(
    alloc: Q::Memory,
    one: &Replica<Q>,
    other: &Replica<Q>,
    both: &Replica<Q>,
) -> Result<Vec<Reading, Q::Memory>, NoMemory>
    requires { both.now.ops ≡ union one.now.ops other.now.ops }
    ensures exact { IfOk result (λ v. v.items ≡ readings_of one.now.ops other.now.ops) }
    ensures none { HoldsOther one.now.ops other.now.ops → IfOk result (λ v. v.items ≡ []) }
{
    let taken = holds(one, other)?;
    if taken {
        is_apart(one);
        return Ok(Vec::new(alloc));
    }
    let stored = holds(other, one)?;
    if stored {
        is_apart(other);
        return Ok(Vec::new(alloc));
    }
    compared(alloc, one, other, both)
}

/// The open readings of two replicas and of what both make as text, and how many they are: of each a line `open at 33`,
/// by its place in the merged copy, and how the copies read there, `now` of both, `here` of the one, `there` of the
/// other, and `was` of what they have in common. The end of a line is shown as a space. Out of memory comes only where
/// a growth was refused.
pub fn report_readings<Q: Sequence>(
    alloc: Q::Memory,
    one: &Replica<Q>,
    other: &Replica<Q>,
    both: &Replica<Q>,
) -> Result<(Vec<u8, Q::Memory>, usize), NoMemory>
    requires { both.now.ops ≡ union one.now.ops other.now.ops }
    ensures lines { IfOk result (λ t. t.0.items ≡ reported_of one.now.ops other.now.ops) }
    ensures count { IfOk result (λ t. t.1 ≡ length (readings_of one.now.ops other.now.ops)) }
{
    let taken = holds(one, other)?;
    if taken {
        is_apart(one);
        return Ok((Vec::new(alloc), 0));
    }
    let stored = holds(other, one)?;
    if stored {
        is_apart(other);
        return Ok((Vec::new(alloc), 0));
    }
    told(alloc, one, other, both)
}
