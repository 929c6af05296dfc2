//! The order of what is shown, before a merge and after it.
use crate::calls::take;
use crate::cases::{at, deleted, roman, shows, typed};
use crate::orders::{next, random_ops};
use desk_blocks::Blocks;
use desk_memory::NoMemory;
use desk_ops::{Op, Stamp};
use desk_replica::Replica;
use desk_seq::{Flat, Sequence};
use std::alloc::Global;
use std::test::Fail;

/// The stamp of the element at a place, where it is shown.
fn shown_at<Q: Sequence>(sequence: &Q, place: usize) -> Option<Stamp> {
    if place >= sequence.len() {
        return None;
    }
    let entry = sequence.entry(place);
    if entry.deleted {
        None
    } else {
        Some(entry.stamp)
    }
}

/// The stamps of the elements that are shown.
fn shown<Q: Sequence>(alloc: Global, replica: &Replica<Q>) -> Result<Vec<Stamp>, NoMemory> {
    let sequence = replica.sequence();
    let mut stamps = Vec::new(alloc);
    for place in 0..sequence.len() {
        if let Some(stamp) = shown_at(sequence, place) {
            stamps.push(stamp)?;
        }
    }
    Ok(stamps)
}

/// Whether what both lists have stands in one order.
fn stand_alike(old: &[Stamp], after: &[Stamp]) -> bool {
    let mut last = 0;
    for stamp in old {
        if let Some(place) = after.iter().position(|other| other == stamp) {
            if place < last {
                return false;
            }
            last = place;
        }
    }
    true
}

/// The parent of the insert with the stamp.
fn parent_of(ops: &[Op], stamp: Stamp) -> Stamp {
    for op in ops {
        if let Op::Insert {
            stamp: own,
            parent,
            ..
        } = op
            && *own == stamp
        {
            return *parent;
        }
    }
    Stamp::HEAD
}

/// The stamps from the child of the head down to an element of the operations.
fn path(alloc: Global, ops: &[Op], stamp: Stamp) -> Result<Vec<Stamp>, NoMemory> {
    let mut path = Vec::new(alloc);
    let mut next = stamp;
    for _ in ops {
        if next.is_head() {
            break;
        }
        path.push(next)?;
        next = parent_of(ops, next);
    }
    path.reverse();
    Ok(path)
}

/// A proper prefix stands first, and else the greater stamp where the two first differ.
fn stands_before(one: &[Stamp], other: &[Stamp]) -> bool {
    for (first, second) in one.iter().zip(other) {
        if first != second {
            return second.is_before(*first);
        }
    }
    one.len() < other.len()
}

/// Whether each element stands before the next by their paths among the operations.
fn is_by_paths(alloc: Global, ops: &[Op], stamps: &[Stamp]) -> Result<bool, NoMemory> {
    let mut before = Vec::new(alloc);
    for stamp in stamps {
        let path = path(alloc, ops, *stamp)?;
        if !stands_before(&before, &path) {
            return Ok(false);
        }
        before = path;
    }
    Ok(true)
}

/// Whether a merge keeps the order of what both show, and whether both and what is left stand by the paths of all the
/// operations held then, where no stamp is forked.
fn keeps_order<Q: Sequence>(
    alloc: Global,
    one: &mut Replica<Q>,
    other: &Replica<Q>,
    forks: bool,
) -> Result<bool, Fail> {
    let (old, others) = (shown(alloc, one)?, shown(alloc, other)?);
    let merged = one.merge(other).is_ok();
    let after = shown(alloc, one)?;
    let mut ops = Vec::new(alloc);
    match one.in_order() {
        Ok(list) => ops.extend_from_slice(&list)?,
        Err(NoMemory) => return Ok(false),
    }
    let one_order = forks
        || is_by_paths(alloc, &ops, &old)?
            && is_by_paths(alloc, &ops, &others)?
            && is_by_paths(alloc, &ops, &after)?;
    Ok(merged && one_order && stand_alike(&old, &after) && stand_alike(&others, &after))
}

/// Operations at random; with forks, or the first of each stamp.
fn pool(alloc: Global, seed: u64, forks: bool) -> Result<Vec<Op>, NoMemory> {
    let mut pool = Vec::<Op, _>::new(alloc);
    for op in &random_ops(alloc, seed)? {
        if forks || !pool.iter().any(|other| other.stamp() == op.stamp()) {
            pool.push(*op)?;
        }
    }
    Ok(pool)
}

/// Hands out operations at random: each to the one replica, to the other, or to both.
fn hand_out<Q: Sequence>(one: &mut Replica<Q>, two: &mut Replica<Q>, ops: &[Op], seed: u64) {
    let mut coin = seed;
    for op in ops {
        coin = next(coin);
        let part = (coin >> 33) % 3;
        if part != 1 {
            take(one, *op);
        }
        if part != 0 {
            take(two, *op);
        }
    }
}

/// Hands out a pool.
fn hand_out_pool<Q: Sequence>(
    alloc: Global,
    one: &mut Replica<Q>,
    two: &mut Replica<Q>,
    seed: u64,
    forks: bool,
) -> Result<(), NoMemory> {
    let pool = pool(alloc, seed, forks)?;
    hand_out(one, two, &pool, seed);
    Ok(())
}

/// Whether two replicas that took in parts of a pool keep its order, merged either way.
fn merge_either_way<Q: Sequence>(
    alloc: Global,
    one: &mut Replica<Q>,
    two: &mut Replica<Q>,
    seed: u64,
    forks: bool,
) -> Result<bool, Fail> {
    hand_out_pool(alloc, one, two, seed, forks)?;
    Ok(keeps_order(alloc, one, two, forks)? && keeps_order(alloc, two, one, forks)?)
}

/// The same of two new replicas.
fn merge_parts<Q: Sequence>(
    alloc: Global,
    memory: Q::Memory,
    seed: u64,
    forks: bool,
) -> Result<bool, Fail> {
    let mut one = Replica::<Q>::new(memory, 1);
    let mut two = Replica::<Q>::new(memory, 2);
    merge_either_way(alloc, &mut one, &mut two, seed, forks)
}

/// Whether merges of so many pairs keep the order.
fn merge_pairs(alloc: Global, number: u64, forks: bool) -> Result<bool, Fail> {
    for seed in 0..number {
        if !merge_parts::<Flat<Global>>(alloc, alloc, seed, forks)?
            || !merge_parts::<Blocks<Global>>(alloc, alloc, seed, forks)?
        {
            return Ok(false);
        }
    }
    Ok(true)
}

/// The shown lists of random sets without forks, and that of their union, stand by the paths of the union.
#[test]
fn merges_stand_by_paths(rt: HostRuntime) -> Result<(), Fail> {
    assert!(rt; merge_pairs(rt.alloc(), 1000, false)?);
    Ok(())
}

/// What two random sets show keeps its order in their union, forks and all.
#[test]
fn merges_keep_the_order(rt: HostRuntime) -> Result<(), Fail> {
    assert!(rt; merge_pairs(rt.alloc(), 1000, true)?);
    Ok(())
}

/// Whether a symbol can be typed at a place.
fn types<Q: Sequence>(replica: &mut Replica<Q>, place: usize, ch: char) -> bool {
    replica.insert_at(place, roman(ch)).is_ok()
}

fn merges<Q: Sequence>(one: &mut Replica<Q>, other: &Replica<Q>) -> bool {
    one.merge(other).is_ok()
}

/// Whether two sites type after one element.
fn both_type<Q: Sequence>(one: &mut Replica<Q>, two: &mut Replica<Q>) -> bool {
    types(one, 0, 'a')
        && merges(two, one)
        && types(one, 1, 'b')
        && types(two, 1, 'c')
        && shows(one, "ab")
        && shows(two, "ac")
}

/// The stamps of `acb`.
const ACB: [Stamp; 3] = [
    Stamp {
        counter: 1,
        site: 1,
    },
    Stamp {
        counter: 2,
        site: 2,
    },
    Stamp {
        counter: 2,
        site: 1,
    },
];

/// Whether two replicas, each of which merges the other, show `acb`.
fn both_merge<Q: Sequence>(one: &mut Replica<Q>, two: &mut Replica<Q>) -> bool {
    merges(one, two) && shows(one, "acb") && merges(two, one) && shows(two, "acb")
}

/// Whether the elements that are shown have these stamps.
fn has_stamps<Q: Sequence>(
    alloc: Global,
    replica: &Replica<Q>,
    stamps: &[Stamp],
) -> Result<bool, NoMemory> {
    Ok(shown(alloc, replica)?.as_slice() == stamps)
}

/// Whether two sites that insert after one element show `acb` once each has merged the other.
fn type_and_merge<Q: Sequence>(
    alloc: Global,
    one: &mut Replica<Q>,
    two: &mut Replica<Q>,
) -> Result<bool, Fail> {
    let met = both_type(one, two) && both_merge(one, two);
    Ok(met && has_stamps(alloc, two, &ACB)?)
}

/// The same of two new replicas.
fn sites_meet<Q: Sequence>(alloc: Global, memory: Q::Memory) -> Result<bool, Fail> {
    let mut one = Replica::<Q>::new(memory, 1);
    let mut two = Replica::<Q>::new(memory, 2);
    type_and_merge(alloc, &mut one, &mut two)
}

#[test]
fn two_sites_show_acb(rt: HostRuntime) -> Result<(), Fail> {
    assert!(rt; sites_meet::<Flat<Global>>(rt.alloc(), rt.alloc())?);
    assert!(rt; sites_meet::<Blocks<Global>>(rt.alloc(), rt.alloc())?);
    Ok(())
}

/// Takes in operations, whatever is answered.
fn take_in<Q: Sequence>(replica: &mut Replica<Q>, ops: &[Op]) {
    for op in ops {
        take(replica, *op);
    }
}

/// Whether a merge that forks the stamp of `b`, and hides what hangs on it, leaves the rest in order.
fn fork_between<Q: Sequence>(
    alloc: Global,
    one: &mut Replica<Q>,
    two: &mut Replica<Q>,
) -> Result<bool, Fail> {
    let first = typed(at(1, 1), Stamp::HEAD, 'a');
    let ops = [
        first,
        typed(at(2, 1), at(1, 1), 'b'),
        typed(at(3, 2), at(2, 1), 'c'),
        typed(at(2, 3), at(1, 1), 'd'),
    ];
    take_in(one, &ops);
    let others = [
        first,
        typed(at(2, 1), at(1, 1), 'x'),
        typed(at(4, 3), at(1, 1), 'e'),
        deleted(at(5, 3), at(4, 3)),
    ];
    take_in(two, &others);
    let apart = shows(one, "adbc") && shows(two, "ax");
    Ok(apart && keeps_order(alloc, one, two, true)? && shows(one, "ad"))
}

/// The same of two new replicas.
fn fork_leaves_order<Q: Sequence>(alloc: Global, memory: Q::Memory) -> Result<bool, Fail> {
    let mut one = Replica::<Q>::new(memory, 1);
    let mut two = Replica::<Q>::new(memory, 2);
    fork_between(alloc, &mut one, &mut two)
}

#[test]
fn fork_keeps_the_order(rt: HostRuntime) -> Result<(), Fail> {
    assert!(rt; fork_leaves_order::<Flat<Global>>(rt.alloc(), rt.alloc())?);
    assert!(rt; fork_leaves_order::<Blocks<Global>>(rt.alloc(), rt.alloc())?);
    Ok(())
}
