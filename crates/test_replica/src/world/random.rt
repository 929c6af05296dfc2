//! A random run over four sites: what they show is compared with the path order of all operations, computed here.

use crate::world::events::roman;
use desk_blocks::Blocks;
use desk_memory::NoMemory;
use desk_ops::{FaultKind, Key, Op, Stamp};
use desk_replica::{Refusal, Replica};
use desk_seq::Sequence;
use script_world::{Answer, Event, StepRefusal, World};
use std::alloc::Global;
use std::test::Fail;

const EVENTS: usize = 2_000;

fn next(seed: u64) -> u64 {
    seed.wrapping_mul(6_364_136_223_846_793_005)
        .wrapping_add(1_442_695_040_888_963_407)
}

/// A number below n, or 0.
fn pick(seed: u64, n: usize) -> usize {
    ((seed >> 33) % (n.max(1) as u64)) as usize
}

/// The site of this seed, from 1 to 4.
fn site_of(seed: u64) -> u16 {
    match pick(seed, 4) {
        0 => 1,
        1 => 2,
        2 => 3,
        _ => 4,
    }
}

/// The other site of its half: 1 with 2, and 3 with 4.
fn partner(site: u16) -> u16 {
    match site {
        1 => 2,
        2 => 1,
        3 => 4,
        _ => 3,
    }
}

/// Gives a site all that another holds.
fn give_all(world: &mut World<Global>, from: u16, to: u16) -> Result<bool, Fail> {
    let Some(replica) = world.replica(from) else {
        return Ok(false);
    };
    let ops = replica.in_order()?;
    Ok(world.step(&Event::Give { to, ops: &ops }).is_ok())
}

fn len_at(world: &World<Global>, site: u16) -> usize {
    match world.replica(site) {
        None => 0,
        Some(replica) => replica.copy_len(),
    }
}

/// An edit of a site, by the seed: mostly an insert.
fn edit(world: &mut World<Global>, site: u16, seed: u64) -> Result<Answer, StepRefusal> {
    let len = len_at(world, site);
    let place = pick(next(seed), len.saturating_add(1));
    match pick(seed, 8) {
        0 | 1 => world.step(&Event::Delete { site, place }),
        2 => world.step(&Event::Set {
            site,
            key: Key::Measure,
            value: 144,
        }),
        _ => world.step(&Event::Insert {
            site,
            place,
            symbol: roman('x'),
        }),
    }
}

/// One event, by the seed: an edit, a gift within the site's half of the world, or a restart.
fn happen(world: &mut World<Global>, seed: u64) -> Result<bool, Fail> {
    let site = site_of(next(seed));
    let more = next(next(seed));
    match pick(seed, 32) {
        0 => Ok(world.step(&Event::Restart(site)).is_ok()),
        1 | 2 => give_all(world, partner(site), site),
        _ => match edit(world, site, more) {
            Ok(_) => Ok(true),
            Err(why) => Ok(matches!(why, StepRefusal::Edit(Refusal::Place))),
        },
    }
}

/// Where the operation of this stamp stands.
fn place_of(ops: &[Op], stamp: Stamp) -> Option<usize> {
    for (place, op) in ops.iter().enumerate() {
        if op.stamp() == stamp {
            return Some(place);
        }
    }
    None
}

/// Of each insert the stamps from the child of the head down to it; of operations in order, so that a parent stands
/// before what hangs on it.
fn paths(alloc: Global, ops: &[Op]) -> Result<Vec<Vec<Stamp>>, NoMemory> {
    let mut paths: Vec<Vec<Stamp>> = Vec::new(alloc);
    for op in ops {
        let mut path = Vec::new(alloc);
        if let Op::Insert { stamp, parent, .. } = *op {
            if let Some(place) = place_of(ops, parent) {
                if place < paths.len() {
                    path.extend_from_slice(&paths[place])?;
                }
            }
            path.push(stamp)?;
        }
        paths.push(path)?;
    }
    Ok(paths)
}

/// Whether the first path stands before the second: where they first differ its stamp is the greater, or it ends there.
fn stands_before(first: &[Stamp], second: &[Stamp]) -> bool {
    for (place, stamp) in first.iter().enumerate() {
        if place >= second.len() {
            return false;
        }
        if *stamp != second[place] {
            return *stamp > second[place];
        }
    }
    first.len() < second.len()
}

/// The stamps of what a site shows.
fn shown(alloc: Global, replica: &Replica<Blocks<Global>>) -> Result<Vec<Stamp>, NoMemory> {
    let mut stamps = Vec::new(alloc);
    let sequence = replica.sequence();
    for place in 0..sequence.len() {
        let entry = sequence.entry(place);
        if !entry.deleted {
            stamps.push(entry.stamp)?;
        }
    }
    Ok(stamps)
}

/// Whether each of the stamps stands before the next, by the paths of the operations.
fn in_path_order(stamps: &[Stamp], ops: &[Op], paths: &[Vec<Stamp>]) -> bool {
    let mut last: Option<usize> = None;
    for stamp in stamps {
        let Some(place) = place_of(ops, *stamp) else {
            return false;
        };
        if place >= paths.len() {
            return false;
        }
        if let Some(before) = last {
            if before >= paths.len() || !stands_before(&paths[before], &paths[place]) {
                return false;
            }
        }
        last = Some(place);
    }
    true
}

/// What each of the four sites shows.
fn shown_by_all(alloc: Global, world: &World<Global>) -> Result<Vec<Vec<Stamp>>, Fail> {
    let mut lists = Vec::new(alloc);
    for site in 1..5u16 {
        let Some(replica) = world.replica(site) else {
            return Err(Fail::new("a site is not there"));
        };
        lists.push(shown(alloc, replica)?)?;
        for fault in &replica.copy_faults()? {
            if fault.kind != FaultKind::Waiting {
                return Err(Fail::new("a fault is forked or void"));
            }
        }
    }
    Ok(lists)
}

/// Whether a site of the one half shows another list than one of the other.
fn halves_differ(lists: &[Vec<Stamp>]) -> bool {
    lists.len() == 4 && lists[0].as_slice() != lists[2].as_slice()
}

/// Gives each site all that the others hold.
fn merge_all(world: &mut World<Global>) -> Result<bool, Fail> {
    for to in 1..5u16 {
        for from in 1..5u16 {
            if !give_all(world, from, to)? {
                return Ok(false);
            }
        }
    }
    Ok(true)
}

/// A world of four sites after a random run in two halves that are cut off from one another.
fn cut_off(alloc: Global) -> Result<World<Global>, Fail> {
    let mut world = World::new(alloc);
    for site in 1..5u16 {
        world.step(&Event::Site(site))?;
    }
    let mut seed = 1;
    for _ in 0..EVENTS {
        seed = next(seed);
        if !happen(&mut world, seed)? {
            return Err(Fail::new("an event was refused"));
        }
    }
    Ok(world)
}

/// What the sites show, cut off and merged, stands in the path order of all operations; merged they show the same.
#[test]
fn cut_off_and_merged(rt: HostRuntime) -> Result<(), Fail> {
    let mut world = cut_off(rt.alloc())?;
    let apart = shown_by_all(rt.alloc(), &world)?;
    assert!(rt; merge_all(&mut world)?);
    let merged = shown_by_all(rt.alloc(), &world)?;
    let Some(replica) = world.replica(1) else {
        return Err(Fail::new("a site is not there"));
    };
    let ops = replica.in_order()?;
    let paths = paths(rt.alloc(), &ops)?;
    for list in &apart {
        assert!(rt; in_path_order(list, &ops, &paths));
    }
    for list in &merged {
        assert!(rt; in_path_order(list, &ops, &paths));
        assert!(rt; list.as_slice() == merged[0].as_slice());
    }
    assert!(rt; replica.copy_faults()?.is_empty());
    assert!(rt; halves_differ(&apart));
    assert!(rt; ops.len() > EVENTS / 2);
    Ok(())
}
