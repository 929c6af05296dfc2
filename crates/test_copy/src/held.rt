ghost use Rattle.std.specs.Prelude.{IfOk, All};
ghost use Rattle.desk_ops.specs.Op.{IsLawful};

use crate::ops::is_written;
use desk_held::{AddRefusal, Added, Held, LIMIT, Stopped};
use desk_memory::NoMemory;
use desk_ops::{Key, Op, Stamp, Style, Symbol};
use linked_list_allocator::LocalHeap;
use std::alloc::{Allocator, Global};
use std::test::Fail;

fn insert(counter: u64) -> Op {
    Op::Insert {
        stamp: Stamp { counter, site: 1 },
        parent: Stamp::HEAD,
        symbol: Symbol {
            style: Style::Roman,
            ch: 'a',
        },
    }
}

/// Another operation of the stamp 1.1.
const FORK: Op = Op::Set {
    stamp: Stamp {
        counter: 1,
        site: 1,
    },
    key: Key::Measure,
    value: 120,
};

/// What the answer to an addition was.
#[derive(Clone, Copy, PartialEq, Eq)]
enum Answer {
    Added(Added),
    Refused(AddRefusal),
}

/// Adds a lawful operation.
fn add<A: Allocator + Copy>(held: &mut Held<A>, op: Op) -> Result<Answer, Fail> {
    if op.check().is_err() {
        return Err(Fail::new("an unlawful operation"));
    }
    Ok(match held.add(op) {
        Ok(added) => Answer::Added(added),
        Err(why) => Answer::Refused(why),
    })
}

/// Puts a lawful operation that is not held where there is room; whether it could.
fn put<A: Allocator + Copy>(held: &mut Held<A>, op: Op) -> bool {
    let can = op.check().is_ok() && !held.has(&op) && held.len() < LIMIT && held.spare() > 0;
    if can {
        held.put(op);
    }
    can
}

/// A list in order of so many operations from a counter on, of each second counter.
pub fn row_of(alloc: Global, first: u64, number: u64) -> Result<Vec<Op>, Fail>
    ensures { IfOk result (λ v. All IsLawful v.items) }
{
    let mut ops = Vec::new(alloc);
    for k in 0..number {
        let op = insert(first.saturating_add(k.saturating_mul(2)));
        if op.check().is_ok() {
            ops.push(op)?;
        }
    }
    Ok(ops)
}

/// Adds such a list, or one that falls.
fn add_row<A: Allocator + Copy>(
    alloc: Global,
    held: &mut Held<A>,
    first: u64,
    number: u64,
    falls: bool,
) -> Result<Option<Stopped>, Fail> {
    let mut ops = row_of(alloc, first, number)?;
    if falls {
        ops.reverse();
    }
    Ok(held.add_all(&ops).err())
}

/// Whether what is held are the operations of the counters from 1 on, each second or each, so many.
pub fn counts<A: Allocator + Copy>(held: &Held<A>, step: u64, number: usize) -> bool {
    let mut counter = 1u64;
    for i in 0..held.len() {
        if held.op(i) != insert(counter) {
            return false;
        }
        counter = counter.saturating_add(step);
    }
    held.len() == number
}

/// Takes what a heap of so many bytes can give, but for so many.
pub fn ballast(heap: &LocalHeap, bytes: usize, left: usize) -> Option<Vec<u8, &LocalHeap>> {
    Vec::with_capacity(heap, bytes.saturating_sub(left)).ok()
}

/// Whether adding an operation answers so.
fn is_added<A: Allocator + Copy>(held: &mut Held<A>, op: Op, want: Added) -> Result<bool, Fail> {
    Ok(add(held, op)? == Answer::Added(want))
}

/// Whether what is held is this list, in its order.
fn lists<A: Allocator + Copy>(held: &Held<A>, row: &[Op]) -> Result<bool, Fail> {
    Ok(held.in_order()?.as_slice() == row)
}

/// Whether three are held up to counter 2: the first two of these, and not the last.
fn has_three<A: Allocator + Copy>(held: &Held<A>, one: Op, fork: Op, other: Op) -> bool {
    held.len() == 3
        && held.greatest_counter() == 2
        && !held.is_empty()
        && held.has(&one)
        && held.has(&fork)
        && !held.has(&other)
}

/// Whether the stamp of an operation is held, and this is the only operation held that has it.
fn is_clear<A: Allocator + Copy>(held: &Held<A>, op: Op, holds: bool, clear: Option<Op>) -> bool {
    let stamp = op.stamp();
    held.holds(stamp) == holds
        && held.clear_op(stamp) == clear
        && held.is_clear(stamp) == clear.is_some()
}

/// Whether what comes once is new, what comes again is known, and what bears a stamp that is borne forks it.
fn are_added<A: Allocator + Copy>(held: &mut Held<A>, one: Op, two: Op) -> Result<bool, Fail> {
    Ok(
        is_added(held, one, Added::New)?
            && is_added(held, one, Added::Known)?
            && is_added(held, FORK, Added::Forks)?
            && is_added(held, two, Added::New)?,
    )
}

/// Whether the stamp of the first is borne by several, that of the second by it alone, and that of the third by none.
fn are_borne<A: Allocator + Copy>(held: &Held<A>, one: Op, two: Op, three: Op) -> bool {
    is_clear(held, one, true, None)
        && is_clear(held, two, true, Some(two))
        && is_clear(held, three, false, None)
}

#[test]
fn holds_what_is_added(rt: HostRuntime) -> Result<(), Fail> {
    let mut held = Held::new(rt.alloc());
    let (one, two, three) = (insert(1), insert(2), insert(3));
    assert!(rt; are_added(&mut held, one, two)?);
    assert!(rt; lists(&held, &[one, FORK, two])?);
    assert!(rt; has_three(&held, one, FORK, three));
    assert!(rt; are_borne(&held, one, two, three));
    Ok(())
}

/// Whether a set of 600 operations has no stamp that two bear, and one once the k-th of its stamps is borne by another
/// too.
fn is_forked_at(alloc: Global, k: u64) -> Result<bool, Fail> {
    let mut held = Held::new(alloc);
    let stop = add_row(alloc, &mut held, 1, 600, false)?;
    let stamp = insert(k.saturating_mul(2).saturating_add(1)).stamp();
    let fork = Op::Set {
        stamp,
        key: Key::Measure,
        value: 120,
    };
    let was = held.is_unforked();
    let is_added = is_added(&mut held, fork, Added::Forks)?;
    Ok(stop.is_none() && was && is_added && !held.is_unforked())
}

/// A fork is found wherever it stands: a page has 256 operations.
#[test]
fn forks_are_found(rt: HostRuntime) -> Result<(), Fail> {
    assert!(rt; Held::new(rt.alloc()).is_unforked());
    for k in [0, 1, 255, 256, 599] {
        assert!(rt; is_forked_at(rt.alloc(), k)?);
    }
    Ok(())
}

#[test]
fn put_needs_no_memory(rt: HostRuntime) -> Result<(), Fail> {
    let mut held = Held::new(rt.alloc());
    assert!(rt; !put(&mut held, insert(2)));
    held.reserve(3)?;
    let room = held.spare();
    assert!(rt; put(&mut held, insert(2)) && put(&mut held, FORK) && put(&mut held, insert(1)));
    assert!(rt; held.spare() >= room.saturating_sub(3) && !put(&mut held, FORK));
    assert!(rt; lists(&held, &[insert(1), FORK, insert(2)])?);
    Ok(())
}

/// Whatever the order and the repetition of long lists, each operation is held once, by stamp.
fn long_lists(alloc: Global, falls: bool) -> Result<bool, Fail> {
    let mut held = Held::new(alloc);
    for first in [2, 1, 2] {
        if add_row(alloc, &mut held, first, 50, falls)?.is_some() {
            return Ok(false);
        }
    }
    Ok(counts(&held, 1, 100))
}

#[test]
fn long_lists_are_joined(rt: HostRuntime) -> Result<(), Fail> {
    assert!(rt; long_lists(rt.alloc(), false)?);
    Ok(())
}

#[test]
fn lists_that_fall_are_joined(rt: HostRuntime) -> Result<(), Fail> {
    assert!(rt; long_lists(rt.alloc(), true)?);
    Ok(())
}

/// Adds such a list where so many bytes are left of a heap.
fn add_row_in<'a>(
    alloc: Global,
    heap: &'a LocalHeap,
    held: &mut Held<&'a LocalHeap>,
    left: usize,
    falls: bool,
) -> Result<Option<Stopped>, Fail> {
    let ballast = ballast(heap, 262_144, left);
    let stop = add_row(alloc, held, 1, 600, falls);
    drop(ballast);
    stop
}

/// Whether a list of 600 is stopped where so many bytes are left. It is added up to the refused growth, and with memory
/// to its end.
fn is_stopped(alloc: Global, left: usize, falls: bool) -> Result<bool, Fail> {
    let heap = LocalHeap::new(alloc, 262_144)?;
    is_stopped_in(alloc, &heap, left, falls)
}

fn is_stopped_in(alloc: Global, heap: &LocalHeap, left: usize, falls: bool) -> Result<bool, Fail> {
    let mut held = Held::new(heap);
    let stop = add_row_in(alloc, heap, &mut held, left, falls)?;
    if !is_stop(&held, stop, falls) {
        return Err(Fail::new("another stop"));
    }
    if add_row(alloc, &mut held, 1, 600, falls)?.is_some() || !counts(&held, 2, 600) {
        return Err(Fail::new("not all are held"));
    }
    Ok(stop.is_some())
}

/// Whether a stop, where there is one, is for memory, and so many are held as it says, or all.
fn is_stop<A: Allocator + Copy>(held: &Held<A>, stop: Option<Stopped>, falls: bool) -> bool {
    let (taken, is_right) = match stop {
        None => (600, true),
        Some(stop) => (
            stop.taken,
            stop.taken < 600 && stop.why == AddRefusal::NoMemory,
        ),
    };
    is_right && held.len() == taken && (falls || counts(held, 2, taken))
}

/// How many of the lists of 600 are stopped, in a heap of which each time more is left.
fn stops(alloc: Global, falls: bool) -> Result<u32, Fail> {
    let mut stops = 0u32;
    for cut in 0..128usize {
        let stopped = is_stopped(alloc, cut.saturating_mul(1024), falls)?;
        stops = stops.saturating_add(u32::from(stopped));
    }
    Ok(stops)
}

#[test]
fn stopped_at_k(rt: HostRuntime) -> Result<(), Fail> {
    let rising = stops(rt.alloc(), false)?;
    assert!(rt; rising > 20 && rising < 120, "{rising} stops");
    let falling = stops(rt.alloc(), true)?;
    assert!(rt; falling > 20 && falling < 120, "{falling} stops");
    Ok(())
}

/// Adds the first of each second counter, so many.
fn add_first<A: Allocator + Copy>(
    alloc: Global,
    held: &mut Held<A>,
    number: u64,
) -> Result<(), Fail> {
    if add_row(alloc, held, 1, number, false)?.is_some() {
        return Err(Fail::new("the first were refused"));
    }
    Ok(())
}

/// Adds an operation where so many bytes are left of a heap.
fn add_in<'a>(
    heap: &'a LocalHeap,
    held: &mut Held<&'a LocalHeap>,
    left: usize,
    op: Op,
) -> Result<Answer, Fail> {
    let ballast = ballast(heap, 131_072, left);
    let first = add(held, op);
    drop(ballast);
    first
}

/// Whether a growth was refused where so many bytes are left, four operations are held, and there is room for so many
/// more. A refused addition leaves the set, and with memory it is made; a known operation takes no room.
fn is_refused(alloc: Global, left: usize, op: Op, want: Added, spare: usize) -> Result<bool, Fail> {
    let heap = LocalHeap::new(alloc, 131_072)?;
    let mut held = Held::new(&heap);
    held.reserve(spare)?;
    add_first(alloc, &mut held, 4)?;
    is_refused_in(&heap, &mut held, left, op, want)
}

fn is_refused_in<'a>(
    heap: &'a LocalHeap,
    held: &mut Held<&'a LocalHeap>,
    left: usize,
    op: Op,
    want: Added,
) -> Result<bool, Fail> {
    let has_room = held.spare() > 0 || want == Added::Known;
    match add_in(heap, held, left, op)? {
        Answer::Added(added) if added == want => return Ok(false),
        Answer::Refused(AddRefusal::NoMemory) if !has_room && counts(held, 2, 4) => {}
        _ => return Err(Fail::new("another answer")),
    }
    if !is_added(held, op, want)? {
        return Err(Fail::new("not added with memory"));
    }
    Ok(true)
}

/// Whether additions are refused in a heap of which each time more is left, more than three of 256 or none; never
/// nearly all.
fn are_refused(
    alloc: Global,
    op: Op,
    want: Added,
    spare: usize,
    refusals: bool,
) -> Result<bool, Fail> {
    let mut refused = 0u32;
    for cut in 0..256usize {
        let stopped = is_refused(alloc, cut.saturating_mul(512), op, want, spare)?;
        refused = refused.saturating_add(u32::from(stopped));
    }
    Ok((refused > 3) == refusals && refused < 250)
}

#[test]
fn refused_growths_change_nothing(rt: HostRuntime) -> Result<(), Fail> {
    assert!(rt; are_refused(rt.alloc(), insert(2), Added::New, 0, true)?);
    assert!(rt; are_refused(rt.alloc(), FORK, Added::Forks, 0, true)?);
    assert!(rt; are_refused(rt.alloc(), insert(1), Added::Known, 0, false)?);
    assert!(rt; are_refused(rt.alloc(), insert(100), Added::New, 5, false)?);
    Ok(())
}

/// Whether room for so many is refused where so many bytes are left of a heap.
fn is_reserve_refused_in<'a>(
    heap: &'a LocalHeap,
    held: &mut Held<&'a LocalHeap>,
    left: usize,
    number: usize,
) -> bool {
    let ballast = ballast(heap, 131_072, left);
    let refused = held.reserve(number).is_err();
    drop(ballast);
    refused
}

/// Whether there is room for so many, once it is reserved.
fn has_room<A: Allocator + Copy>(held: &mut Held<A>, number: usize) -> Result<bool, Fail> {
    held.reserve(number)?;
    Ok(held.spare() >= number)
}

/// Whether a reserve was refused where so many bytes are left: the set and its room are as before, and with memory the
/// same call gives room.
fn is_reserve_refused(alloc: Global, left: usize) -> Result<bool, Fail> {
    let heap = LocalHeap::new(alloc, 131_072)?;
    let mut held = Held::new(&heap);
    add_first(alloc, &mut held, 4)?;
    let spare = held.spare();
    let refused = is_reserve_refused_in(&heap, &mut held, left, 20);
    if refused && held.spare() < spare || !counts(&held, 2, 4) {
        return Err(Fail::new("a refused reserve changed the set"));
    }
    if !has_room(&mut held, 20)? {
        return Err(Fail::new("no room"));
    }
    Ok(refused)
}

/// Whether this list of what is held was not made where so many bytes are left of a heap.
fn is_list_refused_in<'a>(
    heap: &'a LocalHeap,
    held: &Held<&'a LocalHeap>,
    left: usize,
    want: &[Op],
) -> bool {
    let ballast = ballast(heap, 131_072, left);
    let refused = match held.in_order() {
        Ok(list) => list.as_slice() != want,
        Err(NoMemory) => true,
    };
    drop(ballast);
    refused
}

/// Whether no list of the operations was made where so many bytes are left; with memory one is.
fn is_list_refused(alloc: Global, left: usize) -> Result<bool, Fail> {
    let heap = LocalHeap::new(alloc, 131_072)?;
    let mut held = Held::new(&heap);
    add_first(alloc, &mut held, 40)?;
    let want = row_of(alloc, 1, 40)?;
    let refused = is_list_refused_in(&heap, &held, left, &want);
    if !lists(&held, &want)? {
        return Err(Fail::new("another list"));
    }
    Ok(refused)
}

#[test]
fn growths_of_reserves_and_lists(rt: HostRuntime) -> Result<(), Fail> {
    let mut reserves = 0u32;
    let mut lists = 0u32;
    for cut in 0..256usize {
        reserves = reserves.saturating_add(u32::from(is_reserve_refused(
            rt.alloc(),
            cut.saturating_mul(512),
        )?));
        lists = lists.saturating_add(u32::from(is_list_refused(
            rt.alloc(),
            cut.saturating_mul(96).saturating_add(8_192),
        )?));
    }
    assert!(rt; reserves > 3 && reserves < 250 && lists > 3 && lists < 250);
    Ok(())
}

#[test]
fn names_its_faults(rt: HostRuntime) -> Result<(), Fail> {
    for (fault, text) in [
        (AddRefusal::Full, "as many operations are held as may be"),
        (AddRefusal::NoMemory, "no memory"),
    ] {
        assert!(rt; is_written(rt.alloc(), &fault, text)?, "{text}");
    }
    Ok(())
}
