//! What waits in a room, and comes out by stamp.

ghost use Rattle.std.specs.Prelude.{◌≡◌, true};
ghost use Rattle.desk_ops.specs.Op.{IsLawful};
ghost use Rattle.desk_walk.specs.Waiting.{HasTarget};

use desk_memory::NoMemory;
use desk_ops::{Key, Op, Stamp, Style, Symbol};
use desk_walk::Room;
use linked_list_allocator::LocalHeap;
use std::alloc::{Allocator, Global};
use std::test::Fail;

fn at(counter: u64, site: u16) -> Stamp {
    Stamp { counter, site }
}

fn insert(stamp: Stamp, parent: Stamp) -> Op {
    Op::Insert {
        stamp,
        parent,
        symbol: Symbol {
            style: Style::Roman,
            ch: 'a',
        },
    }
}

/// Puts an operation, where it may wait, is not there and finds memory.
fn wait<A: Allocator + Copy>(room: &mut Room<A>, op: Op) -> bool {
    if op.check().is_err() || op.target().is_none() {
        return false;
    }
    if room.has(&op) || room.reserve(1).is_err() {
        return false;
    }
    room.put(op);
    true
}

/// Whether exactly so many wait for the target, and come out by stamp.
fn come_out<A: Allocator + Copy>(room: &mut Room<A>, target: Stamp, number: usize) -> bool {
    let mut last = Stamp::HEAD;
    for _ in 0..number {
        match room.release(target) {
            Some(op) if last.is_before(op.stamp()) && op.target() == Some(target) => {
                last = op.stamp();
            }
            _ => return false,
        }
    }
    room.release(target).is_none()
}

/// Of each target the first by stamp and bytes comes out first, whatever the order of the puts, and others stay.
#[test]
fn first_that_waits_comes_first(rt: HostRuntime) {
    let mut room = Room::new(rt.alloc());
    let (one, two) = (at(1, 1), at(2, 1));
    let late = insert(at(9, 1), one);
    let early = insert(at(3, 2), one);
    let fork = Op::Delete {
        stamp: at(3, 2),
        target: one,
    };
    let other = insert(at(4, 1), two);
    let set = Op::Set {
        stamp: at(5, 1),
        key: Key::Measure,
        value: 120,
    };
    for op in [late, fork, other, early] {
        assert!(rt; wait(&mut room, op), "{op:?}");
        assert!(rt; room.has(&op) && !wait(&mut room, op), "{op:?} again");
    }
    assert!(rt; !wait(&mut room, set) && !room.has(&set));
    assert_eq!(rt; room.len(), 4);
    for (target, op) in [
        (Stamp::HEAD, None),
        (one, Some(early)),
        (two, Some(other)),
        (two, None),
        (one, Some(fork)),
        (at(1, 2), None),
        (one, Some(late)),
        (one, None),
    ] {
        assert!(rt; !room.is_empty() || op.is_none());
        assert_eq!(rt; room.release(target), op);
    }
    assert!(rt; room.is_empty());
}

/// 2,000 in an order of their own, over three targets.
#[test]
fn many_wait(rt: HostRuntime) {
    let mut room = Room::new(rt.alloc());
    for k in 0..2000u64 {
        let op = insert(at(10 + k * 7919 % 2000, 1), at(1 + k % 3, 1));
        assert!(rt; wait(&mut room, op));
    }
    assert_eq!(rt; room.len(), 2000);
    assert!(rt; come_out(&mut room, at(2, 1), 667));
    assert!(rt; come_out(&mut room, at(3, 1), 666));
    assert!(rt; come_out(&mut room, at(1, 1), 667));
    assert!(rt; room.is_empty());
}

/// Whether an operation may wait in a room.
fn may_wait(op: &Op) -> bool
    ensures lawful { result ≡ true → IsLawful op.now }
    ensures target { result ≡ true → HasTarget op.now }
{
    op.check().is_ok() && op.target().is_some()
}

/// An operation of this counter.
fn op_of(counter: u64) -> Op {
    insert(at(counter, 1), at(1, 1))
}

/// The room of four operations of these counters, which wait for one target.
fn made<A: Allocator + Copy>(alloc: A, counters: [u64; 4]) -> Result<Room<A>, NoMemory> {
    let [one, two, three, four] = counters;
    let ops = [op_of(one), op_of(two), op_of(three), op_of(four)];
    if may_wait(&ops[0]) && may_wait(&ops[1]) && may_wait(&ops[2]) && may_wait(&ops[3]) {
        Room::from_ops(alloc, &ops)
    } else {
        Room::from_ops(alloc, &[])
    }
}

/// Whether a room of four is made, of which so many differ, and these come out by stamp.
fn is_made<A: Allocator + Copy>(
    alloc: A,
    counters: [u64; 4],
    number: usize,
) -> Result<bool, NoMemory> {
    let mut room = made(alloc, counters)?;
    Ok(room.len() == number && come_out(&mut room, at(1, 1), number))
}

/// Whether a room has one operation, this one, and room for so many more.
fn has_one<A: Allocator + Copy>(room: &Room<A>, op: &Op, spare: usize) -> bool {
    room.spare() >= spare && room.len() == 1 && room.has(op)
}

/// Counters of which one comes twice.
const TWICE: [u64; 4] = [4, 2, 3, 2];

/// Counters that differ.
const ONCE: [u64; 4] = [4, 2, 5, 3];

/// Whether a reserve is refused: the room then has as much room as it had, and this operation alone.
fn is_reserve_refused<A: Allocator + Copy>(room: &mut Room<A>, op: &Op) -> Result<bool, Fail> {
    let spare = room.spare();
    if room.reserve(600).is_ok() {
        return Ok(false);
    }
    if has_one(room, op, spare) {
        Ok(true)
    } else {
        Err(Fail::new("a refused reserve changed the room"))
    }
}

/// Whether no room is made of four operations of these counters.
fn is_unmade<A: Allocator + Copy>(alloc: A, counters: [u64; 4]) -> bool {
    made(alloc, counters).is_err()
}

/// Whether a reserve is refused beside a ballast of so many bytes, and how many makings are.
fn refused_beside<A: Allocator + Copy>(
    alloc: A,
    room: &mut Room<A>,
    op: &Op,
    bytes: usize,
) -> Result<(u32, u32), Fail> {
    let _ballast: Option<Vec<u8, A>> = Vec::with_capacity(alloc, bytes).ok();
    let refused = is_reserve_refused(room, op)?;
    let (twice, once) = (is_unmade(alloc, TWICE), is_unmade(alloc, ONCE));
    Ok((
        u32::from(refused),
        u32::from(twice).saturating_add(u32::from(once)),
    ))
}

/// Whether a room of one takes 600 more, gives out its one, and rooms are made beside it.
fn goes_on<A: Allocator + Copy>(alloc: A, room: &mut Room<A>) -> Result<bool, NoMemory> {
    room.reserve(600)?;
    let is_right = room.spare() >= 600 && come_out(room, at(1, 1), 1);
    Ok(is_right && is_made(alloc, TWICE, 3)? && is_made(alloc, ONCE, 4)?)
}

/// The refused reserves and the refused makings beside a ballast of so many bytes.
fn refusals<A: Allocator + Copy>(alloc: A, bytes: usize) -> Result<(u32, u32), Fail> {
    let op = op_of(2);
    let mut room = Room::new(alloc);
    if !wait(&mut room, op) {
        return Err(Fail::new("the operation does not wait"));
    }
    let refused = refused_beside(alloc, &mut room, &op, bytes)?;
    if goes_on(alloc, &mut room)? {
        Ok(refused)
    } else {
        Err(Fail::new("another room"))
    }
}

/// The same in a heap of its own.
fn refusals_in_heap(alloc: Global, bytes: usize) -> Result<(u32, u32), Fail> {
    let heap = LocalHeap::new(alloc, 262_144)?;
    refusals(&heap, bytes)
}

/// Each growth of `reserve` and `from_ops` refused: the room is as it was, and the call repeated with memory does its
/// work.
#[test]
fn refused_growths_of_room(rt: HostRuntime) -> Result<(), Fail> {
    let mut refused = 0u32;
    let mut unmade = 0u32;
    for cut in 0..128usize {
        let left = if cut < 80 {
            cut * 128
        } else {
            cut * 2048 - 153_600
        };
        let (one, more) = refusals_in_heap(rt.alloc(), 250_000 - left)?;
        refused = refused.saturating_add(one);
        unmade = unmade.saturating_add(more);
    }
    assert!(rt; refused > 40 && refused < 128 && unmade > 40 && unmade < 256);
    Ok(())
}
