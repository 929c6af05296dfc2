//! The operations that one list has and another has not, by the stamps that they bear.

ghost use Rattle.std.specs.Prelude.{◌≡◌, ◌++◌, IfOk, OnOk, T, map};
ghost use Rattle.desk_ops.specs.OpSet.{from_rising, is_rising};
ghost use Rattle.feed_sites.specs.Alone.{AreAlone, alone, alone_stamp, begins, skip, site_stamp};

use desk_memory::NoMemory;
use desk_ops::Op;
use feed_edit::SiteStamp;
use std::alloc::{AllocError, Allocator};

/// The stamp of an operation.
fn site_stamp(op: &Op) -> SiteStamp
    ensures { result ≡ site_stamp op.now }
{
    SiteStamp::of(op.stamp())
}

/// The operations from the first on that does not come before another.
fn skip<'a>(ops: &'a [Op], op: &Op) -> &'a [Op]
    ensures { result.now ≡ skip op.now ops.now }
{
    let mut rest = ops;
    while let [first, more @ ..] = rest {
        if first >= op {
            return rest;
        }
        rest = more;
    }
    rest
}

/// Whether the operations begin with another.
fn begins(ops: &[Op], op: &Op) -> bool
    ensures { result ≡ begins op.now ops.now }
{
    match ops.first() {
        Some(first) => op == first,
        None => false,
    }
}

/// Writes the stamp of an operation at the end, unless it is held.
fn put_alone<A: Allocator + Copy>(
    stamps: &mut Vec<SiteStamp, A>,
    op: &Op,
    held: bool,
) -> Result<(), AllocError>
    ensures { OnOk result (stamps.new.items ≡ stamps.old.items ++ alone_stamp op.now held) }
{
    if !held {
        stamps.push(site_stamp(op))?;
    }
    Ok(())
}

/// The stamps of the operations of one list that another has not, in one pass over both.
fn stamps_alone<A: Allocator + Copy>(
    alloc: A,
    one: &[Op],
    other: &[Op],
) -> Result<Vec<SiteStamp, A>, NoMemory>
    requires one { T (is_rising one.now) }
    requires other { T (is_rising other.now) }
    ensures { IfOk result (λ v. v.items ≡ map site_stamp (alone one.now other.now)) }
{
    let mut stamps = Vec::new(alloc);
    let mut others = other;
    for op in one {
        others = skip(others, op);
        put_alone(&mut stamps, op, begins(others, op))?;
    }
    Ok(stamps)
}

/// The stamps of the operations that one set holds and another does not, by site and then by counter, each once.
pub fn alone_in<A: Allocator + Copy>(
    alloc: A,
    one: &[Op],
    other: &[Op],
) -> Result<Vec<SiteStamp, A>, NoMemory>
    requires one { T (is_rising one.now) }
    requires other { T (is_rising other.now) }
    ensures { IfOk result (λ v. AreAlone (from_rising one.now) (from_rising other.now) v.items) }
{
    let mut stamps = stamps_alone(alloc, one, other)?;
    stamps.sort_unstable();
    stamps.dedup();
    Ok(stamps)
}
