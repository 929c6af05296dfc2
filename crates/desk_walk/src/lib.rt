//! A sequence and a room that follow a set of operations.
//!
//! RGA (Roh et al. 2011) takes it that what an operation hangs on came before it. Here operations come in any order:
//! one whose target is missing waits in the room, and an arrival lets out all that waited for it.
//!
//! An arrival refuses nothing, since its caller makes room first. Only a set that is laid out anew can run out of
//! memory.
#![tactic(auto)]

ghost use Rattle.std.specs.Prelude.{◌≡◌, ◌+◌, ◌<◌, ◌≤◌, ℕ, false, IfSome, IsNone, IfOk, length};
ghost use Rattle.std.specs.List.{insert};
ghost use Rattle.desk_ops.specs.declared.op.Op.{Op};
ghost use Rattle.desk_ops.specs.Op.{target_of};
ghost use Rattle.desk_ops.specs.OpSet.{OpSet, has_op, with_op, in_order, size, AllLawful};
ghost use Rattle.desk_seq.specs.Entries.{stamps_of, AreDistinct, IsAbsent, IsFirstBelow};
ghost use Rattle.desk_walk.specs.Tree.{AreSettled};
ghost use Rattle.desk_walk.specs.Following.{places, place_at, new_entry, IsActed, CanAct, IsDraining, IsSettled};
ghost use Rattle.desk_walk.specs.Following.{IsArrival};

use desk_held::Held;
use desk_memory::NoMemory;
use desk_ops::{Op, Stamp, Symbol};
use desk_seq::{Entry, Sequence, integrate_at};
use std::alloc::Allocator;
use tree::settled_lists;

mod room;
mod tree;
mod turn;

pub use room::Room;

/// The stamp at a place: the head's, or that of the entry before it.
fn stamp_at<Q: Sequence>(sequence: &Q, place: usize) -> Stamp
    requires { place ≤ length (Q.entries sequence.now) }
    ensures stamp { result ≡ place_at (Q.entries sequence.now) place }
    ensures distinct { AreDistinct (Q.entries sequence.now) }
{
    let _len = sequence.len();
    if place == 0 {
        return Stamp::HEAD;
    }
    sequence.entry(place - 1).stamp
}

/// The place of a stamp: the head's is 0, that of an entry one above its own. It is looked for at a place near it
/// first.
fn place_of<Q: Sequence>(sequence: &mut Q, stamp: Stamp, near: usize) -> Option<usize>
    ensures same { Q.entries sequence.new ≡ Q.entries sequence.old }
    ensures free { Q.free sequence.new ≡ Q.free sequence.old }
    ensures within { IfSome result (λ place. place ≤ length (Q.entries sequence.old)) }
    ensures is { IfSome result (λ place. place_at (Q.entries sequence.old) place ≡ stamp) }
    ensures none { IsNone result → (j : ℕ) → j < length (places (Q.entries sequence.old))
        → place_at (Q.entries sequence.old) j ≡ stamp → ⊥ }
    ensures distinct { AreDistinct (Q.entries sequence.old) }
{
    let len = sequence.len();
    if stamp.is_head() {
        return Some(0);
    }
    if near <= len && stamp_at(sequence, near).is_same(stamp) {
        return Some(near);
    }
    sequence.prepare_find();
    let Some(place) = sequence.find(stamp) else {
        return None;
    };
    Some(place + 1)
}

/// Puts the element of an insert that hangs on the place where the scan from there leads, and returns where that is.
fn stand<Q: Sequence>(sequence: &mut Q, at: usize, stamp: Stamp, symbol: Symbol) -> usize
    requires within { at ≤ length (Q.entries sequence.old) }
    requires free { 1 ≤ Q.free sequence.old }
    requires absent { IsAbsent stamp (Q.entries sequence.old) }
    ensures first { IsFirstBelow (stamps_of (Q.entries sequence.old)) at stamp result }
    ensures put { Q.entries sequence.new ≡ insert (Q.entries sequence.old) result (new_entry stamp symbol) }
    ensures inside { result < length (Q.entries sequence.new) }
    ensures more { length (Q.entries sequence.new) ≡ length (Q.entries sequence.old) + 1 }
    ensures free { Q.free sequence.old ≤ Q.free sequence.new + 1 }
{
    let entry = Entry {
        stamp,
        symbol,
        deleted: false,
    };
    integrate_at(sequence, at, entry)
}

/// Does what an operation says that hangs on the place, and returns how far something may now wait.
fn act<Q: Sequence>(sequence: &mut Q, op: Op, at: usize, last: usize) -> usize
    requires within { at ≤ length (Q.entries sequence.old) }
    requires last { last ≤ length (Q.entries sequence.old) }
    requires able { CanAct op at (Q.free sequence.old) (Q.entries sequence.old) }
    ensures acted { IsActed op at last (Q.entries sequence.old) (Q.entries sequence.new) result }
    ensures reach { result ≤ length (Q.entries sequence.new) }
    ensures free { Q.free sequence.old ≤ Q.free sequence.new + 1 }
    ensures more { length (Q.entries sequence.new) ≤ length (Q.entries sequence.old) + 1 }
    ensures further { last ≤ result }
{
    match op {
        Op::Insert { stamp, symbol, .. } => {
            let place = stand(sequence, at, stamp, symbol);
            let _len = sequence.len();
            if last < place { place + 1 } else { last + 1 }
        }
        Op::Delete { .. } => {
            sequence.mark(at - 1);
            last
        }
        Op::Set { .. } => last,
    }
}

/// One step of a drain: an operation that waits for the place acts, or the drain goes on to the next place; none where
/// it is at its end.
fn step<Q: Sequence>(
    sequence: &mut Q,
    room: &mut Room<Q::Memory>,
    at: usize,
    last: usize,
) -> Option<(usize, usize)>
    requires order { at ≤ last }
    requires within { last ≤ length (Q.entries sequence.old) }
    requires free { size room.old.ops ≤ Q.free sequence.old }
    requires follows { (h : OpSet) × AllLawful h × IsDraining h (has_op room.old.ops) (Q.entries sequence.old) at last }
    ensures on { IfSome result (λ r. (h : OpSet) → AllLawful h
        → IsDraining h (has_op room.old.ops) (Q.entries sequence.old) at last
        → IsDraining h (has_op room.new.ops) (Q.entries sequence.new) r.0 r.1) }
    ensures order { IfSome result (λ r. r.0 ≤ r.1) }
    ensures within { IfSome result (λ r. r.1 ≤ length (Q.entries sequence.new)) }
    ensures smaller { IfSome result
        (λ r. size room.new.ops + size room.new.ops + length (Q.entries sequence.new) + at
        < size room.old.ops + size room.old.ops + length (Q.entries sequence.old) + r.0) }
    ensures end { IsNone result → (h : OpSet) → AllLawful h
        → IsDraining h (has_op room.old.ops) (Q.entries sequence.old) at last
        → IsSettled h (Q.entries sequence.new) room.new.ops }
    ensures fewer { size room.new.ops ≤ size room.old.ops }
    ensures free { Q.free sequence.old + size room.new.ops ≤ Q.free sequence.new + size room.old.ops }
    ensures spare { room.old.spare ≤ room.new.spare }
{
    let stamp = stamp_at(sequence, at);
    if let Some(op) = room.release(stamp) {
        let reach = act(sequence, op, at, last);
        return Some((at, reach));
    }
    if at < last {
        return Some((at + 1, last));
    }
    None
}

/// Releases all that became live: what waits for the place, and what waits for that, until none is left. No memory is
/// taken.
fn drain<Q: Sequence>(sequence: &mut Q, room: &mut Room<Q::Memory>, from: usize)
    requires within { from ≤ length (Q.entries sequence.old) }
    requires free { size room.old.ops ≤ Q.free sequence.old }
    requires follows { (h : OpSet) × AllLawful h
        × IsDraining h (has_op room.old.ops) (Q.entries sequence.old) from from }
    ensures settled { (h : OpSet) → AllLawful h → IsDraining h (has_op room.old.ops) (Q.entries sequence.old) from from
        → IsSettled h (Q.entries sequence.new) room.new.ops }
    ensures fewer { size room.new.ops ≤ size room.old.ops }
    ensures free { Q.free sequence.old + size room.new.ops ≤ Q.free sequence.new + size room.old.ops }
    ensures spare { room.old.spare ≤ room.new.spare }
{
    let mut at = from;
    let mut last = from;
    while let Some((place, reach)) = step(sequence, room, at, last) {
        at = place;
        last = reach;
    }
}

/// Does what an arrival says that hangs on the place, and releases all that waited for it; returns the place of what it
/// made or marked. Nothing waits for what was there before, so the drain begins at the new element. It cannot run
/// out of memory.
fn arrive<Q: Sequence>(sequence: &mut Q, room: &mut Room<Q::Memory>, op: Op, at: usize) -> usize
    requires arrives { (h : OpSet) × IsArrival h op (Q.entries sequence.old) room.old.ops }
    requires within { at ≤ length (Q.entries sequence.old) }
    requires target { target_of op ≡ Some (place_at (Q.entries sequence.old) at) }
    requires distinct { AreDistinct (Q.entries sequence.old) }
    requires free { size room.old.ops < Q.free sequence.old }
    ensures settled { (h : OpSet) → IsArrival h op (Q.entries sequence.old) room.old.ops
        → IsSettled (with_op h op) (Q.entries sequence.new) room.new.ops }
    ensures fewer { size room.new.ops ≤ size room.old.ops }
    ensures free { Q.free sequence.old + size room.new.ops ≤ Q.free sequence.new + size room.old.ops + 1 }
    ensures spare { room.old.spare ≤ room.new.spare }
{
    match op {
        Op::Insert { stamp, symbol, .. } => {
            let place = stand(sequence, at, stamp, symbol);
            let _len = sequence.len();
            drain(sequence, room, place + 1);
            place + 1
        }
        Op::Delete { .. } => {
            let element = at - 1;
            sequence.mark(element);
            at
        }
        Op::Set { .. } => at,
    }
}

/// Takes in an operation whose stamp none bears: it waits, or acts with all that waited for it. It cannot run out
/// of memory. Its target is looked for at a place near it first, which is never believed without a look; the result is
/// the
/// place to look at for the next.
pub fn enter<Q: Sequence>(
    sequence: &mut Q,
    room: &mut Room<Q::Memory>,
    op: Op,
    near: usize,
) -> usize
    requires arrives { (h : OpSet) × IsArrival h op (Q.entries sequence.old) room.old.ops }
    requires spare { 1 ≤ room.old.spare }
    requires free { size room.old.ops < Q.free sequence.old }
    ensures settled { (h : OpSet) → IsArrival h op (Q.entries sequence.old) room.old.ops
        → IsSettled (with_op h op) (Q.entries sequence.new) room.new.ops }
    ensures few { size room.new.ops ≤ size room.old.ops + 1 }
    ensures free { Q.free sequence.old + size room.new.ops ≤ Q.free sequence.new + size room.old.ops + 1 }
    ensures spare { room.old.spare ≤ room.new.spare + 1 }
{
    let Some(target) = op.target() else {
        return near;
    };
    match place_of(sequence, target, near) {
        Some(at) => arrive(sequence, room, op, at),
        None => {
            room.put(op);
            near
        }
    }
}

/// A sequence of the entries of a set's walk, and a room of what waits.
fn laid_out<Q: Sequence>(
    alloc: Q::Memory,
    held: &Held<Q::Memory>,
    entries: &[Entry],
    waiting: &[Op],
) -> Result<(Q, Room<Q::Memory>), NoMemory>
    requires { AreSettled held.now.ops entries.now waiting.now }
    ensures settled { IfOk result (λ r. IsSettled held.now.ops (Q.entries r.0) r.1.ops) }
    ensures few { IfOk result (λ r. size r.1.ops ≤ size held.now.ops) }
    ensures free { IfOk result (λ r. size r.1.ops ≤ Q.free r.0) }
{
    let _ = held;
    let mut sequence = Q::from_entries(alloc, entries)?;
    let room = Room::from_ops(alloc, waiting)?;
    sequence.reserve(room.len())?;
    Ok((sequence, room))
}

/// The entries of a set's walk, and what waits, by the list of the set, which is gone then.
fn lists_of<A: Allocator + Copy>(
    alloc: A,
    held: &Held<A>,
    ops: Vec<Op, A>,
) -> Result<(Vec<Entry, A>, Vec<Op, A>), NoMemory>
    requires { ops.items ≡ in_order held.now.ops }
    ensures { IfOk result (λ r. AreSettled held.now.ops r.0.items r.1.items) }
{
    settled_lists(alloc, held, &ops)
}

/// The sequence and the room of a set, made anew from the list of its operations in their order.
pub fn made_of<Q: Sequence>(
    alloc: Q::Memory,
    held: &Held<Q::Memory>,
    ops: &[Op],
) -> Result<(Q, Room<Q::Memory>), NoMemory>
    requires { ops.now ≡ in_order held.now.ops }
    ensures settled { IfOk result (λ r. IsSettled held.now.ops (Q.entries r.0) r.1.ops) }
    ensures few { IfOk result (λ r. size r.1.ops ≤ size held.now.ops) }
    ensures free { IfOk result (λ r. size r.1.ops ≤ Q.free r.0) }
{
    let (entries, waiting) = settled_lists(alloc, held, ops)?;
    laid_out(alloc, held, &entries, &waiting)
}

/// The same of a list that nobody wants any more: it is gone before the sequence is made.
pub fn made_of_list<Q: Sequence>(
    alloc: Q::Memory,
    held: &Held<Q::Memory>,
    ops: Vec<Op, Q::Memory>,
) -> Result<(Q, Room<Q::Memory>), NoMemory>
    requires { ops.items ≡ in_order held.now.ops }
    ensures settled { IfOk result (λ r. IsSettled held.now.ops (Q.entries r.0) r.1.ops) }
    ensures few { IfOk result (λ r. size r.1.ops ≤ size held.now.ops) }
    ensures free { IfOk result (λ r. size r.1.ops ≤ Q.free r.0) }
{
    let (entries, waiting) = lists_of(alloc, held, ops)?;
    laid_out(alloc, held, &entries, &waiting)
}
