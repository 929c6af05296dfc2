//! Sets whose operations arrive in many orders.
use crate::calls::{Answer, open, take, takes};
use crate::cases::{Want, answers, are_alike, at, deleted, forked, measure, plain, typed, void};
use desk_blocks::Blocks;
use desk_memory::NoMemory;
use desk_ops::{Op, Stamp};
use desk_replica::{Replica, Took};
use desk_seq::{Flat, Sequence};
use std::alloc::Global;
use std::test::Fail;

pub fn next(seed: u64) -> u64 {
    seed.wrapping_mul(6_364_136_223_846_793_005)
        .wrapping_add(1_442_695_040_888_963_407)
}

/// A number below n, or 0.
fn pick(seed: u64, n: usize) -> usize {
    ((seed >> 33) % (n.max(1) as u64)) as usize
}

/// Puts the list in another order, given by the code: each number below the factorial of its length gives one of its
/// own.
fn reorder(ops: &mut [Op], code: usize) {
    let mut rest = code;
    for place in 0..ops.len() {
        let left = ops.len() - place;
        ops.swap(place, place + rest % left);
        rest /= left;
    }
}

/// Whether a replica takes in new operations, answers so then, and so after more of them.
fn arrive<Q: Sequence>(replica: &mut Replica<Q>, ops: &[Op], more: &[Op], want: Want<'_>) -> bool {
    takes(replica, ops) && answers(replica, want) && takes(replica, more) && answers(replica, want)
}

/// What a set shows: what its replicas answer, and the stamps and marks of the entries of their sequences.
#[derive(Clone, Copy)]
struct Shown<'a> {
    want: Want<'a>,
    entries: &'a [(Stamp, bool)],
}

/// Whether a list shows so in both replicas, and so after more operations.
fn both_arrive<P: Sequence, Q: Sequence>(
    one: &mut Replica<P>,
    two: &mut Replica<Q>,
    ops: &[Op],
    more: &[Op],
    shown: Shown<'_>,
) -> bool {
    arrive(one, ops, more, shown.want)
        && arrive(two, ops, more, shown.want)
        && are_alike(one, two)
        && stands(two.sequence(), shown.entries)
}

/// The same of two new replicas, in one order.
fn in_one_order<P: Sequence, Q: Sequence>(
    first: P::Memory,
    second: Q::Memory,
    ops: &[Op],
    more: &[Op],
    shown: Shown<'_>,
) -> bool {
    let mut one = Replica::<P>::new(first, 1);
    let mut two = Replica::<Q>::new(second, 2);
    both_arrive(&mut one, &mut two, ops, more, shown)
}

/// Whether all orders of a list, so many, show so over both kinds of sequence, and so after more operations.
fn in_each_order(
    alloc: Global,
    ops: &[Op],
    orders: usize,
    more: &[Op],
    shown: Shown<'_>,
) -> Result<bool, Fail> {
    for code in 0..orders {
        let mut ops = Vec::from_slice(alloc, ops)?;
        reorder(&mut ops, code);
        if !in_one_order::<Flat<Global>, Blocks<Global>>(alloc, alloc, &ops, more, shown) {
            return Ok(false);
        }
    }
    Ok(true)
}

/// Whether the entry at a place has this stamp and mark.
fn is_entry<Q: Sequence>(sequence: &Q, place: usize, stamp: Stamp, deleted: bool) -> bool {
    if place >= sequence.len() {
        return false;
    }
    let entry = sequence.entry(place);
    entry.stamp == stamp && entry.deleted == deleted
}

/// Whether the entries of a sequence have these stamps and marks.
fn stands<Q: Sequence>(sequence: &Q, entries: &[(Stamp, bool)]) -> bool {
    let mut right = sequence.len() == entries.len();
    for (place, (stamp, deleted)) in entries.iter().enumerate() {
        right = right && is_entry(sequence, place, *stamp, *deleted);
    }
    right
}

/// Of two operations with one stamp neither acts, nor does what hangs on them; nor does a third.
#[test]
fn forked_stamp(rt: HostRuntime) -> Result<(), Fail> {
    let (one, two) = (at(1, 1), at(2, 1));
    let ops = [
        typed(one, Stamp::HEAD, 'a'),
        typed(two, one, 'b'),
        typed(two, one, 'x'),
        typed(at(3, 2), two, 'c'),
    ];
    let want = Want {
        faults: &[forked(two), void(at(3, 2))],
        waiting: 1,
        ..plain("a")
    };
    let third = [typed(two, one, 'y')];
    let entries = [(one, false)];
    let shown = Shown {
        want,
        entries: &entries,
    };
    assert!(rt; in_each_order(rt.alloc(), &ops, 24, &third, shown)?);
    Ok(())
}

/// What hangs on a delete is void, and what hangs on that.
#[test]
fn void_on_a_delete(rt: HostRuntime) -> Result<(), Fail> {
    let (one, two) = (at(1, 1), at(2, 1));
    let ops = [
        typed(one, Stamp::HEAD, 'a'),
        typed(two, one, 'b'),
        deleted(at(3, 1), two),
        typed(at(4, 2), at(3, 1), 'c'),
        deleted(at(5, 2), at(4, 2)),
    ];
    let want = Want {
        faults: &[void(at(4, 2)), void(at(5, 2))],
        waiting: 2,
        ..plain("a")
    };
    let entries = [(one, false), (two, true)];
    let shown = Shown {
        want,
        entries: &entries,
    };
    assert!(rt; in_each_order(rt.alloc(), &ops, 120, &[], shown)?);
    Ok(())
}

/// What hangs on a deleted element keeps its place, and a delete may come before its insert.
#[test]
fn tombstones_kept(rt: HostRuntime) -> Result<(), Fail> {
    let one = at(1, 1);
    let ops = [
        typed(one, Stamp::HEAD, 'a'),
        typed(at(2, 1), one, 'd'),
        deleted(at(3, 1), one),
        typed(at(3, 2), one, 'b'),
    ];
    let entries = [(one, true), (at(3, 2), false), (at(2, 1), false)];
    let shown = Shown {
        want: plain("bd"),
        entries: &entries,
    };
    assert!(rt; in_each_order(rt.alloc(), &ops, 24, &[], shown)?);
    Ok(())
}

/// A stamp at random with a counter below n, of one of three sites.
fn random_stamp(seed: u64, n: u64) -> Stamp {
    let site = u16::try_from(next(seed) >> 48).unwrap_or(0) % 3;
    at((seed >> 33) % n.max(1), site.saturating_add(1))
}

/// An operation at random, with one of twelve counters and three sites.
fn random_op(seed: u64) -> Op {
    let (more, kind) = (next(seed), next(next(seed)) >> 40);
    let place = random_stamp(seed, 12);
    let stamp = at(place.counter.saturating_add(1), place.site);
    let target = random_stamp(more, stamp.counter);
    if target.counter == 0 {
        return typed(stamp, Stamp::HEAD, 'a');
    }
    match kind % 8 {
        0 => measure(stamp, 144),
        1 => measure(stamp, 120),
        2 | 3 => deleted(stamp, target),
        _ => typed(stamp, target, 'b'),
    }
}

/// Operations at random, some of them twice and some of one stamp.
pub fn random_ops(alloc: Global, seed: u64) -> Result<Vec<Op>, NoMemory> {
    let mut ops = Vec::new(alloc);
    let mut seed = seed;
    for _ in 0..16u32 {
        seed = next(next(seed));
        ops.push(random_op(seed))?;
    }
    Ok(ops)
}

/// Takes in lawful operations one by one.
fn take_each<Q: Sequence>(replica: &mut Replica<Q>, ops: &[Op]) -> bool {
    for op in ops {
        match take(replica, *op) {
            Answer::Took(_) => {}
            _ => return false,
        }
    }
    true
}

/// Whether a replica that is opened with a list is like the other.
fn opens_alike<P: Sequence, Q: Sequence>(memory: Q::Memory, one: &Replica<P>, ops: &[Op]) -> bool {
    let mut all = Replica::<Q>::new(memory, 3);
    open(memory, &mut all, ops);
    are_alike(one, &all)
}

/// Whether replicas that take a list in three orders, one by one and all at once, are alike.
fn agree<P: Sequence, Q: Sequence>(
    first: P::Memory,
    second: Q::Memory,
    ops: &mut [Op],
    seed: u64,
) -> bool {
    let mut one = Replica::<P>::new(first, 1);
    let mut two = Replica::<Q>::new(second, 2);
    let each = take_each(&mut one, ops);
    reorder(ops, pick(seed, usize::MAX));
    let again = take_each(&mut two, ops);
    reorder(ops, pick(next(seed), usize::MAX));
    each && again && are_alike(&one, &two) && opens_alike::<P, Q>(second, &one, ops)
}

/// Whether so many random sets give the same answers in random orders over both kinds of sequence.
fn random_sets(alloc: Global, number: u64) -> Result<bool, Fail> {
    for seed in 0..number {
        let mut ops = random_ops(alloc, seed)?;
        if !agree::<Flat<Global>, Blocks<Global>>(alloc, alloc, &mut ops, seed) {
            return Ok(false);
        }
    }
    Ok(true)
}

#[test]
fn random_sets_in_random_orders(rt: HostRuntime) -> Result<(), Fail> {
    assert!(rt; random_sets(rt.alloc(), 2000)?);
    Ok(())
}

/// So many inserts, each after the one before.
fn chain(alloc: Global, number: u64) -> Result<Vec<Op>, NoMemory> {
    let mut ops = Vec::new(alloc);
    let mut parent = Stamp::HEAD;
    for counter in 1..=number {
        let stamp = at(counter, 1);
        ops.push(typed(stamp, parent, 'a'))?;
        parent = stamp;
    }
    Ok(ops)
}

/// Whether all that is held waits.
fn all_waits<Q: Sequence>(replica: &Replica<Q>) -> bool {
    replica.copy_len() == 0 && replica.room().len() == replica.len()
}

/// Whether nothing acts before the first operation comes, where a replica takes in a list from its end.
fn fall<Q: Sequence>(replica: &mut Replica<Q>, ops: &[Op]) -> bool {
    for op in ops.iter().rev() {
        if !all_waits(replica) {
            return false;
        }
        take(replica, *op);
    }
    replica.room().is_empty()
}

/// Whether a chain that rises and one that falls are shown whole.
fn rise_and_fall<Q: Sequence>(
    rising: &mut Replica<Q>,
    falling: &mut Replica<Q>,
    ops: &[Op],
) -> bool {
    takes(rising, ops)
        && fall(falling, ops)
        && falling.copy_len() == ops.len()
        && are_alike(rising, falling)
}

/// The same of two new replicas.
fn chains<Q: Sequence>(memory: Q::Memory, ops: &[Op]) -> bool {
    let mut rising = Replica::<Q>::new(memory, 1);
    let mut falling = Replica::<Q>::new(memory, 1);
    rise_and_fall(&mut rising, &mut falling, ops)
}

#[test]
fn two_thousand_inserts(rt: HostRuntime) -> Result<(), Fail> {
    let ops = chain(rt.alloc(), 2000)?;
    assert!(rt; chains::<Flat<Global>>(rt.alloc(), &ops));
    assert!(rt; chains::<Blocks<Global>>(rt.alloc(), &ops));
    Ok(())
}
