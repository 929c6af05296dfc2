//! Why no operation is moved.

ghost use Rattle.std.specs.Prelude.{◌≡◌, ◌↔◌, Bool, IfOk, true};
ghost use Rattle.std.specs.List.{list_any};
ghost use Rattle.desk_ops.specs.declared.op.Stamp.{Stamp};
ghost use Rattle.desk_ops.specs.OpSet.{in_order};
ghost use Rattle.feed_sites.specs.Refusing.{Clash, clash, clashes_with, first_stamp, has_clash, seen, sees, sees_from};
ghost use Rattle.feed_sites.specs.Refusing.{uses};

use desk_held::Held;
use desk_memory::NoMemory;
use desk_ops::{Op, Stamp};
use std::alloc::Allocator;

/// Whether an operation bears or names a stamp of the site.
fn uses(op: &Op, site: u16) -> bool
    ensures { result ≡ uses site op.now }
{
    let names = match op.target() {
        Some(target) => target.site == site,
        None => false,
    };
    op.stamp().site == site || names
}

/// Whether one of the operations bears or names a stamp of the site.
pub fn any_uses(ops: &[Op], site: u16) -> bool
    ensures { result ≡ list_any (uses site) ops.now }
{
    for op in ops {
        if uses(op, site) {
            return true;
        }
    }
    false
}

/// Whether an operation that is not moved names a stamp that is.
fn sees<A: Allocator + Copy>(moved: &Held<A>, op: &Op) -> bool
    ensures { result ≡ sees moved.now.ops op.now }
{
    let names = match op.target() {
        Some(target) => moved.holds(target),
        None => false,
    };
    !moved.has(op) && names
}

/// Whether an operation of the other set names a stamp that is moved, and that none of its set bears.
fn sees_from<A: Allocator + Copy>(moved: &Held<A>, other: &Held<A>, op: &Op) -> bool
    ensures { result ≡ sees_from moved.now.ops other.now.ops op.now }
{
    match op.target() {
        Some(target) => moved.holds(target) && !other.holds(target),
        None => false,
    }
}

/// The first of the feed's operations that has seen what is moved.
fn seen_in_feed<A: Allocator + Copy>(ops: &[Op], moved: &Held<A>) -> Option<Stamp>
    ensures { result ≡ first_stamp (sees moved.now.ops) ops.now }
{
    for op in ops {
        if sees(moved, op) {
            return Some(op.stamp());
        }
    }
    None
}

/// The first of the other set's operations that has.
fn seen_in_other<A: Allocator + Copy>(ops: &[Op], moved: &Held<A>, other: &Held<A>) -> Option<Stamp>
    ensures { result ≡ first_stamp (sees_from moved.now.ops other.now.ops) ops.now }
{
    for op in ops {
        if sees_from(moved, other, op) {
            return Some(op.stamp());
        }
    }
    None
}

/// The stamp of the first operation that has seen what is moved: one of the feed, or else of the other set.
pub fn first_seen<A: Allocator + Copy>(
    ops: &[Op],
    others: &[Op],
    moved: &Held<A>,
    feed: &Held<A>,
    other: &Held<A>,
) -> Option<Stamp>
    requires listed { ops.now ≡ in_order feed.now.ops }
    requires other_listed { others.now ≡ in_order other.now.ops }
    ensures { result ≡ seen moved.now.ops feed.now.ops other.now.ops }
{
    match seen_in_feed(ops, moved) {
        Some(stamp) => Some(stamp),
        None => seen_in_other(others, moved, other),
    }
}

/// Whether two operations have one counter and not one site.
fn clash(one: &Op, other: &Op) -> bool
    ensures { result ≡ clash one.now other.now }
{
    let one = one.stamp();
    let other = other.stamp();
    one.counter == other.counter && one.site != other.site
}

/// Whether an operation and the first of a list have.
fn clashes_with(op: &Op, ops: &[Op]) -> bool
    ensures { result ≡ clashes_with op.now ops.now }
{
    match ops.first() {
        Some(next) => clash(op, next),
        None => false,
    }
}

/// Whether two that follow one another have.
fn any_clash(ops: &[Op]) -> bool
    ensures { result ≡ has_clash ops.now }
{
    let mut rest = ops;
    while let [first, more @ ..] = rest {
        if clashes_with(first, more) {
            return true;
        }
        rest = more;
    }
    false
}

/// Whether two of the operations that are moved would bear one stamp, and are of different sites.
pub fn clashes<A: Allocator + Copy>(moved: &Held<A>) -> Result<bool, NoMemory>
    ensures { IfOk result (λ b. b ≡ true ↔ Clash moved.now.ops) }
{
    let ops = moved.in_order()?;
    Ok(any_clash(&ops))
}
