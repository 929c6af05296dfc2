//! Calls of a world where memory runs out: each growth refused in turn.

ghost use Rattle.std.specs.Prelude.{All, IfOk};
ghost use Rattle.desk_ops.specs.Op.{IsLawful};

use crate::world::events::{at, roman, typed};
use desk_held::AddRefusal;
use desk_memory::NoMemory;
use desk_ops::{Key, Op, Stamp};
use desk_replica::{Count, Refusal, Stopped};
use linked_list_allocator::LocalHeap;
use script_world::{Answer, Event, StepRefusal, World};
use std::alloc::{Allocator, Global};
use std::test::Fail;

/// The bytes of a heap: what one site keeps takes some 180,000.
const HEAP: usize = 1_048_576;

/// A call of which a growth is refused.
#[derive(Clone, Copy, PartialEq, Eq)]
enum Call {
    Insert,
    Delete,
    Set,
    Restart,
    Give,
    Bring,
}

fn measure(stamp: Stamp, value: u32) -> Op {
    Op::Set {
        stamp,
        key: Key::Measure,
        value,
    }
}

/// What site 1 holds before the call: two inserts, and the measure set thirty times. It is made at once, with no room
/// for more.
fn list(alloc: Global) -> Result<Vec<Op>, Fail>
    ensures { IfOk result (λ v. All IsLawful v.items) }
{
    let mut all = Vec::new(alloc);
    all.push(typed(at(1, 1), Stamp::HEAD, 'a'))?;
    all.push(typed(at(2, 1), at(1, 1), 'b'))?;
    for counter in 3..33u64 {
        all.push(measure(at(counter, 1), 120))?;
    }
    lawful_of(alloc, &all)
}

/// 1.1 `a` after the head, 2.2 `c` after 1.1, 3.2 `e` after 2.2, 2.1 `b` after 1.1, 4.3 `z` after the head, and 4.3
/// `y`, which forks it, so that all is made anew.
fn arrivals() -> [Op; 6] {
    [
        typed(at(1, 1), Stamp::HEAD, 'a'),
        typed(at(2, 2), at(1, 1), 'c'),
        typed(at(3, 2), at(2, 2), 'e'),
        typed(at(2, 1), at(1, 1), 'b'),
        typed(at(4, 3), Stamp::HEAD, 'z'),
        typed(at(4, 3), Stamp::HEAD, 'y'),
    ]
}

/// The lawful ones of these operations.
pub fn lawful_of(alloc: Global, all: &[Op]) -> Result<Vec<Op>, Fail>
    ensures { IfOk result (λ v. All IsLawful v.items) }
{
    let mut ops = Vec::new(alloc);
    for op in all {
        if op.check().is_ok() {
            ops.push(*op)?;
        }
    }
    Ok(ops)
}

/// What site 2 holds before the call: a symbol of its own. So the fork among the arrivals has all of site 2 made anew,
/// while the arrivals before it find room beside that symbol.
fn own() -> Op {
    typed(at(1, 2), Stamp::HEAD, 's')
}

/// Site 1 with its list, which the next operation grows, site 2 with its symbol, and site 3 with the arrivals.
fn three_sites<A: Allocator + Copy>(
    alloc: A,
    list: &[Op],
    arrivals: &[Op],
) -> Result<World<A>, StepRefusal>
    requires list { All IsLawful list.now }
    requires arrivals { All IsLawful arrivals.now }
{
    let mut world = World::new(alloc);
    world.step(&Event::Site(1))?;
    world.step(&Event::Site(2))?;
    world.step(&Event::Site(3))?;
    world.bring(1, list)?;
    world.step(&Event::Insert {
        site: 2,
        place: 0,
        symbol: roman('s'),
    })?;
    world.bring(3, arrivals)?;
    Ok(world)
}

fn called<A: Allocator + Copy>(
    world: &mut World<A>,
    call: Call,
    ops: &[Op],
) -> Result<Answer, StepRefusal>
    requires { All IsLawful ops.now }
{
    let (site, place) = (1, 0);
    let symbol = roman('x');
    let key = Key::Measure;
    match call {
        Call::Insert => world.step(&Event::Insert {
            site,
            place,
            symbol,
        }),
        Call::Delete => world.step(&Event::Delete { site, place }),
        Call::Set => world.step(&Event::Set {
            site,
            key,
            value: 100,
        }),
        Call::Restart => world.step(&Event::Restart(site)),
        Call::Give => world.step(&Event::Give { to: 2, ops }),
        Call::Bring => match world.bring(2, ops) {
            Ok(count) => Ok(Answer::Taken(count)),
            Err(why) => Err(why),
        },
    }
}

/// The operation that a call makes at site 1.
fn made_by(call: Call) -> Option<Op> {
    let stamp = at(33, 1);
    match call {
        Call::Insert => Some(typed(stamp, Stamp::HEAD, 'x')),
        Call::Delete => Some(Op::Delete {
            stamp,
            target: at(1, 1),
        }),
        Call::Set => Some(measure(stamp, 100)),
        _ => None,
    }
}

/// How many operations a call gives site 2.
fn given_by(call: Call) -> usize {
    match call {
        Call::Give | Call::Bring => 6,
        _ => 0,
    }
}

/// What a call returns, where so many of the operations that it gives are known.
fn answer_of(call: Call, known: usize) -> Answer {
    if given_by(call) > 0 {
        let new = given_by(call).saturating_sub(known);
        return Answer::Taken(Count { new, known });
    }
    match made_by(call) {
        Some(op) => Answer::Made(op),
        None => Answer::Done,
    }
}

/// After how many operations memory ran out, where it did.
fn stop_of(answer: Result<Answer, StepRefusal>) -> Option<usize> {
    match answer {
        Err(StepRefusal::NoMemory | StepRefusal::Edit(Refusal::NoMemory)) => Some(0),
        Err(
            StepRefusal::Halted(
                Stopped {
                    taken,
                    why: AddRefusal::NoMemory,
                },
            ),
        ) => Some(taken),
        _ => None,
    }
}

/// Whether a site holds exactly the first of these operations, so many, and one more, where there is one.
fn holds<A: Allocator + Copy>(
    world: &World<A>,
    site: u16,
    ops: &[Op],
    first: usize,
    more: Option<Op>,
) -> bool {
    let Some(replica) = world.replica(site) else {
        return false;
    };
    let (count, has) = match more {
        None => (first, true),
        Some(op) => (first.saturating_add(1), replica.has(&op)),
    };
    if replica.len() != count || !has {
        return false;
    }
    for (place, op) in ops.iter().enumerate() {
        if replica.has(op) != (place < first) {
            return false;
        }
    }
    true
}

/// Whether site 1 has its list and what was made, and site 2 its symbol and the first arrivals, so many.
fn is_so<A: Allocator + Copy>(
    world: &World<A>,
    list: &[Op],
    made: Option<Op>,
    arrivals: &[Op],
    first: usize,
) -> bool {
    holds(world, 1, list, list.len(), made)
        && holds(world, 2, arrivals, first, Some(own()))
        && holds(world, 3, arrivals, arrivals.len(), None)
}

/// Takes all that a heap has left, but for one piece of so many bytes. Where it has no such piece it takes nothing.
fn fill(
    alloc: Global,
    heap: &LocalHeap,
    bytes: usize,
) -> Result<Vec<Vec<u8, &LocalHeap>>, NoMemory> {
    let mut parts = Vec::new(alloc);
    let Ok(piece) = Vec::<u8, &LocalHeap>::with_capacity(heap, bytes) else {
        return Ok(parts);
    };
    for power in 0..14u32 {
        for _ in 0..HEAP {
            let Ok(part) = Vec::with_capacity(heap, 131_072usize >> power) else {
                break;
            };
            parts.push(part)?;
        }
    }
    drop(piece);
    Ok(parts)
}

/// A call in a heap of which all is taken but for one piece; the greater the cut the greater it is. Where memory ran
/// out the sites are as before, but for the operations that were taken, and the same call succeeds with memory.
fn refused(
    alloc: Global,
    call: Call,
    list: &[Op],
    arrivals: &[Op],
    cut: usize,
) -> Result<Option<usize>, Fail>
    requires list { All IsLawful list.now }
    requires arrivals { All IsLawful arrivals.now }
{
    let heap = LocalHeap::new(alloc, HEAP)?;
    let mut world = three_sites(&heap, list, arrivals)?;
    let parts = fill(alloc, &heap, cut.saturating_mul(1536))?;
    let first = called(&mut world, call, arrivals);
    drop(parts);
    let stop = stop_of(first);
    let taken = stop.unwrap_or(0);
    let mut last = first;
    if stop.is_some() {
        if !is_so(&world, list, None, arrivals, taken) {
            return Err(Fail::new("another state after a refusal"));
        }
        last = called(&mut world, call, arrivals);
    }
    if last != Ok(answer_of(call, taken)) {
        return Err(Fail::new("another answer"));
    }
    if !is_so(&world, list, made_by(call), arrivals, given_by(call)) {
        return Err(Fail::new("another state"));
    }
    Ok(stop)
}

/// Refuses each growth of a call in turn. A call that gives operations is stopped after some, too.
fn growths(alloc: Global, call: Call) -> Result<(), Fail> {
    let list = list(alloc)?;
    let arrivals = lawful_of(alloc, &arrivals())?;
    let (mut done, mut stopped, mut partly) = (0u32, 0u32, 0u32);
    for cut in 0..256usize {
        match refused(alloc, call, &list, &arrivals, cut)? {
            None => done = done.saturating_add(1),
            Some(taken) => {
                stopped = stopped.saturating_add(1);
                partly = partly.saturating_add(u32::from(taken > 0));
            }
        }
    }
    if done > 0 && stopped > 3 && (partly > 0) == (given_by(call) > 0) {
        Ok(())
    } else {
        Err(Fail::new("no growth was refused, or each"))
    }
}

#[test]
fn growths_of_insert(rt: HostRuntime) -> Result<(), Fail> {
    growths(rt.alloc(), Call::Insert)
}

#[test]
fn growths_of_delete(rt: HostRuntime) -> Result<(), Fail> {
    growths(rt.alloc(), Call::Delete)
}

#[test]
fn growths_of_set(rt: HostRuntime) -> Result<(), Fail> {
    growths(rt.alloc(), Call::Set)
}

#[test]
fn growths_of_give(rt: HostRuntime) -> Result<(), Fail> {
    growths(rt.alloc(), Call::Give)
}

#[test]
fn growths_of_bring(rt: HostRuntime) -> Result<(), Fail> {
    growths(rt.alloc(), Call::Bring)
}

/// A restart that opened nothing would want no memory.
#[test]
fn restart_opens_nothing(rt: HostRuntime) -> Result<(), Fail> {
    growths(rt.alloc(), Call::Restart)
}

/// Adds the sites of these numbers, up to one for which memory ran out: that one's number, or the end.
fn add_sites<A: Allocator + Copy>(
    world: &mut World<A>,
    from: u16,
    to: u16,
) -> Result<u16, StepRefusal> {
    for site in from..to {
        match world.step(&Event::Site(site)) {
            Ok(_) => {}
            Err(StepRefusal::NoMemory) => return Ok(site),
            Err(other) => return Err(other),
        }
    }
    Ok(to)
}

/// Whether exactly the sites from 1 to below the number are there.
fn are_sites<A: Allocator + Copy>(world: &World<A>, end: u16) -> bool {
    for site in 1..11u16 {
        if world.replica(site).is_some() != (site < end) {
            return false;
        }
    }
    true
}

/// Sites are added in a small heap; whether memory ran out.
fn refused_site(alloc: Global, cut: usize) -> Result<bool, Fail> {
    let heap = LocalHeap::new(alloc, HEAP)?;
    let mut world = World::new(&heap);
    let size = HEAP.saturating_sub(cut.saturating_mul(1024));
    let ballast = Vec::<u8, &LocalHeap>::with_capacity(&heap, size).ok();
    let stop = add_sites(&mut world, 1, 11)?;
    drop(ballast);
    if are_sites(&world, stop) && add_sites(&mut world, stop, 11)? == 11 && are_sites(&world, 11) {
        Ok(stop < 11)
    } else {
        Err(Fail::new("another state"))
    }
}

/// A site for which memory ran out is not there, and with memory it is added.
#[test]
fn growths_of_site(rt: HostRuntime) -> Result<(), Fail> {
    let (mut done, mut stopped) = (false, 0u32);
    for cut in 0..64usize {
        if refused_site(rt.alloc(), cut)? {
            stopped = stopped.saturating_add(1);
        } else {
            done = true;
        }
    }
    assert!(rt; done);
    assert!(rt; stopped > 3);
    Ok(())
}

/// Where the list of answers finds no room nothing happens, and with memory all does.
#[test]
fn growths_of_play(rt: HostRuntime) -> Result<(), Fail> {
    let list = list(rt.alloc())?;
    let arrivals = lawful_of(rt.alloc(), &arrivals())?;
    let heap = LocalHeap::new(rt.alloc(), HEAP)?;
    let mut world = three_sites(&heap, &list, &arrivals)?;
    let events = [Event::Site(4); 8];
    let parts = fill(rt.alloc(), &heap, 0)?;
    let none = world.play(&events).is_err();
    drop(parts);
    assert!(rt; none);
    assert!(rt; is_so(&world, &list, None, &arrivals, 0));
    assert!(rt; world.replica(4).is_none());
    let answers = world.play(&events)?;
    assert_eq!(rt; answers.len(), 8);
    assert_eq!(rt; answers[0], Ok(Answer::Done));
    assert_eq!(rt; answers[7], Err(StepRefusal::KnownSite));
    assert!(rt; world.replica(4).is_some());
    Ok(())
}
