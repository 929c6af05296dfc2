//! What a set lacks of a list, and its join with one.
ghost use Rattle.std.specs.Prelude.{All};
ghost use Rattle.desk_ops.specs.Op.{IsLawful};

use crate::held::{ballast, counts, row_of};
use desk_held::{Held, put_in_turn};
use desk_ops::Op;
use linked_list_allocator::LocalHeap;
use std::alloc::{Allocator, Global};
use std::test::Fail;

/// Whether this is what a set lacks of a list; where that is nothing, whether it has all of it, and else not.
fn lacks<A: Allocator + Copy>(held: &Held<A>, ops: &[Op], missing: &[Op]) -> Result<bool, Fail> {
    Ok(held.missing(ops)?.as_slice() == missing && held.has_all(ops) == missing.is_empty())
}

/// Whether a set lacks nothing of its own operations, and of a list of these and others, whatever its order, the
/// others.
fn lacks_the_others<A: Allocator + Copy>(
    held: &Held<A>,
    own: &[Op],
    other: &[Op],
    mixed: &[Op],
) -> Result<bool, Fail> {
    Ok(lacks(held, own, &[])? && lacks(held, other, other)? && lacks(held, mixed, other)?)
}

/// Whether the join of a set with a list, where there is one, has the operations of so many counters from 1 on.
fn is_joined<A: Allocator + Copy>(held: &Held<A>, ops: &[Op], number: usize) -> bool
    requires { All IsLawful ops.now }
{
    match held.joined(ops) {
        Some(all) => counts(&all, 1, number) && all.has_all(ops),
        None => false,
    }
}

/// A set of the odd counters, so many.
fn odd<A: Allocator + Copy>(alloc: A, ops: &[Op]) -> Result<Held<A>, Fail>
    requires { All IsLawful ops.now }
{
    let mut held = Held::new(alloc);
    if held.add_all(ops).is_err() {
        return Err(Fail::new("the first were refused"));
    }
    Ok(held)
}

#[test]
fn reports_what_is_missing(rt: HostRuntime) -> Result<(), Fail> {
    let alloc = rt.alloc();
    let own = row_of(alloc, 1, 600)?;
    let other = row_of(alloc, 2, 600)?;
    let held = odd(alloc, &own)?;
    let mut mixed = Vec::from_slice(alloc, &other)?;
    mixed.extend_from_slice(&own)?;
    mixed.extend_from_slice(&other)?;
    assert!(rt; lacks_the_others(&held, &own, &other, &mixed)?);
    mixed.sort_unstable();
    mixed.reverse();
    assert!(rt; lacks(&held, &mixed, &other)?);
    Ok(())
}

#[test]
fn few_are_searched(rt: HostRuntime) -> Result<(), Fail> {
    let alloc = rt.alloc();
    let own = row_of(alloc, 1, 600)?;
    let held = odd(alloc, &own)?;
    let first = row_of(alloc, 1, 1)?;
    let other = row_of(alloc, 2, 1)?;
    assert!(rt; lacks(&held, &first, &[])? && lacks(&held, &other, &other)?);
    Ok(())
}

#[test]
fn lists_are_joined_beside(rt: HostRuntime) -> Result<(), Fail> {
    let alloc = rt.alloc();
    let own = row_of(alloc, 1, 600)?;
    let other = row_of(alloc, 2, 600)?;
    let held = odd(alloc, &own)?;
    assert!(rt; is_joined(&held, &other, 1200));
    Ok(())
}

/// Whether the set of a list that rises is made of it, so many operations.
fn is_laid_out<A: Allocator + Copy>(alloc: A, ops: &[Op], number: usize) -> bool
    requires { All IsLawful ops.now }
{
    match Held::of_rising(alloc, ops) {
        Some(held) => held.len() == number && held.has_all(ops),
        None => false,
    }
}

/// Whether a list is that other one, once it is put in order.
fn comes_in_turn<A: Allocator>(ops: Vec<Op, A>, wanted: &[Op]) -> bool {
    let mut list = ops;
    put_in_turn(&mut list);
    list.as_slice() == wanted
}

#[test]
fn lists_are_put_in_turn(rt: HostRuntime) -> Result<(), Fail> {
    let alloc = rt.alloc();
    let wanted = row_of(alloc, 1, 600)?;
    let mut falls = Vec::from_slice(alloc, &wanted)?;
    falls.reverse();
    let mut mixed = Vec::from_slice(alloc, &wanted)?;
    mixed.extend_from_slice(&wanted)?;
    assert!(rt; comes_in_turn(Vec::from_slice(alloc, &wanted)?, &wanted));
    assert!(rt; comes_in_turn(falls, &wanted) && comes_in_turn(mixed, &wanted));
    Ok(())
}

#[test]
fn rising_lists_are_laid_out(rt: HostRuntime) -> Result<(), Fail> {
    let alloc = rt.alloc();
    let rising = row_of(alloc, 1, 600)?;
    assert!(rt; is_laid_out(alloc, &rising, 600));
    assert!(rt; is_laid_out(alloc, &[], 0));
    Ok(())
}

/// Whether what is missing of a list in falling order was not reported where so many bytes are left of a heap, and
/// whether it was not joined.
fn are_refused_in<'a>(
    heap: &'a LocalHeap,
    held: &Held<&'a LocalHeap>,
    left: usize,
    ops: &[Op],
    falls: &[Op],
) -> Result<(bool, bool), Fail>
    requires { All IsLawful ops.now }
{
    let ballast = ballast(heap, 131_072, left);
    let missing = match held.missing(falls) {
        Ok(list) => list.as_slice() == ops,
        Err(_) => false,
    };
    let joined = is_joined(held, ops, 80);
    drop(ballast);
    Ok((!missing, !joined))
}

/// The same; with memory both succeed.
fn are_refused(alloc: Global, left: usize) -> Result<(bool, bool), Fail> {
    let heap = LocalHeap::new(alloc, 131_072)?;
    let own = row_of(alloc, 1, 40)?;
    let other = row_of(alloc, 2, 40)?;
    let mut falls = Vec::from_slice(alloc, &other)?;
    falls.reverse();
    let held = odd(&heap, &own)?;
    let refused = are_refused_in(&heap, &held, left, &other, &falls)?;
    if !lacks(&held, &falls, &other)? || !is_joined(&held, &other, 80) {
        return Err(Fail::new("refused with memory"));
    }
    Ok(refused)
}

#[test]
fn growths_of_lists_beside(rt: HostRuntime) -> Result<(), Fail> {
    let mut missing = 0u32;
    let mut joined = 0u32;
    for cut in 0..256usize {
        let refused = are_refused(rt.alloc(), cut.saturating_mul(128))?;
        missing = missing.saturating_add(u32::from(refused.0));
        joined = joined.saturating_add(u32::from(refused.1));
    }
    assert!(rt; missing > 3 && missing < 250, "{missing}");
    assert!(rt; joined > 3 && joined < 250, "{joined}");
    Ok(())
}
