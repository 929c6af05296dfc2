//! Events of a world, step by step.
ghost use Rattle.std.specs.Prelude.{◌≡◌, true, All};
ghost use Rattle.desk_ops.specs.Op.{IsLawful};

use desk_memory::NoMemory;
use desk_ops::{Op, Stamp, Style, Symbol};
use desk_replica::{Count, Settings};
use script_world::{Answer, Event, StepRefusal, World};
use std::alloc::Allocator;
use std::test::Fail;

pub fn at(counter: u64, site: u16) -> Stamp {
    Stamp { counter, site }
}

pub fn roman(ch: char) -> Symbol {
    Symbol {
        style: Style::Roman,
        ch,
    }
}

pub fn typed(stamp: Stamp, parent: Stamp, ch: char) -> Op {
    Op::Insert {
        stamp,
        parent,
        symbol: roman(ch),
    }
}

/// A site is added or opened again, or the stranger, 9.9 `k` after the head, is given or brought to it.
#[derive(Clone, Copy)]
enum Turn {
    Site(u16),
    Restart(u16),
    Give(u16),
    Bring(u16),
}

/// What a turn returns, where the operation is lawful.
fn turned<A: Allocator + Copy>(
    world: &mut World<A>,
    turn: Turn,
    op: Op,
) -> Option<Result<Answer, StepRefusal>> {
    if op.check().is_err() {
        return None;
    }
    let ops = &[op];
    Some(match turn {
        Turn::Site(site) => world.step(&Event::Site(site)),
        Turn::Restart(site) => world.step(&Event::Restart(site)),
        Turn::Give(to) => world.step(&Event::Give { to, ops }),
        Turn::Bring(site) => match world.bring(site, ops) {
            Ok(count) => Ok(Answer::Taken(count)),
            Err(why) => Err(why),
        },
    })
}

/// The feed of 9.9 `k` after the head.
const STRANGERS_FEED: &[u8] = b"MFD2\x01\0\0\0\0\0\0\0\x09\0\x09\0\0\0\0\0\0\0\0\0\0\0\0\0\0k";

/// Whether a site's copy, copy faults, settings and feed are those of 9.9 `k` alone.
fn answers_of_k<A: Allocator + Copy>(world: &World<A>, site: u16) -> Result<bool, NoMemory> {
    let Some(replica) = world.replica(site) else {
        return Ok(false);
    };
    let none = Settings {
        measure: None,
        tight: None,
        loose: None,
        case: None,
        wedge: None,
    };
    let copy = replica.copy()?;
    let faults = replica.copy_faults()?;
    let feed = replica.write_feed()?;
    Ok(
        copy.as_slice() == [roman('k')].as_slice()
            && faults.is_empty()
            && replica.settings() == none
            && feed.as_slice() == STRANGERS_FEED,
    )
}

/// How many operations a site holds.
pub fn held<A: Allocator + Copy>(world: &World<A>, site: u16) -> usize {
    match world.replica(site) {
        None => 0,
        Some(replica) => replica.len(),
    }
}

const NEW: Answer = Answer::Taken(Count { new: 1, known: 0 });

const KNOWN: Answer = Answer::Taken(Count { new: 0, known: 1 });

/// Turns, what each returns, and how many operations sites 1 and 2 hold afterwards.
const TURNS: &[(Turn, Result<Answer, StepRefusal>, usize, usize)] = &[
    (Turn::Site(1), Ok(Answer::Done), 0, 0),
    (Turn::Site(2), Ok(Answer::Done), 0, 0),
    (Turn::Give(1), Err(StepRefusal::Strange), 0, 0),
    (Turn::Give(3), Err(StepRefusal::NoSite), 0, 0),
    (Turn::Bring(3), Err(StepRefusal::NoSite), 0, 0),
    (Turn::Bring(1), Ok(NEW), 1, 0),
    (Turn::Bring(1), Ok(KNOWN), 1, 0),
    (Turn::Restart(1), Ok(Answer::Done), 1, 0),
    (Turn::Restart(3), Err(StepRefusal::NoSite), 1, 0),
    (Turn::Give(2), Ok(NEW), 1, 1),
];

#[test]
fn strange_and_bring(rt: HostRuntime) -> Result<(), Fail> {
    let mut world = World::new(rt.alloc());
    for (turn, want, first, second) in TURNS {
        let got = turned(&mut world, *turn, typed(at(9, 9), Stamp::HEAD, 'k'));
        assert_eq!(rt; got, Some(*want));
        assert_eq!(rt; held(&world, 1), *first);
        assert_eq!(rt; held(&world, 2), *second);
    }
    assert!(rt; answers_of_k(&world, 1)?);
    Ok(())
}

/// Whether each operation is lawful.
fn are_lawful(ops: &[Op]) -> bool
    ensures { result ≡ true → All IsLawful ops.now }
{
    ops.iter().all(|op| op.check().is_ok())
}

/// What a site answers that is given operations, where these are lawful.
fn given<A: Allocator + Copy>(
    world: &mut World<A>,
    to: u16,
    ops: &[Op],
) -> Option<Result<Answer, StepRefusal>> {
    if !are_lawful(ops) {
        return None;
    }
    Some(world.step(&Event::Give { to, ops }))
}

/// Lists of what two sites hold, of what one of them does, and with an operation that none does.
#[test]
fn given_by_two_sites(rt: HostRuntime) -> Result<(), Fail> {
    let mut world = World::new(rt.alloc());
    let one = typed(at(1, 1), Stamp::HEAD, 'a');
    let two = typed(at(1, 2), Stamp::HEAD, 'b');
    let strange = typed(at(2, 2), at(1, 2), 'c');
    for site in 1..4u16 {
        let _ = turned(&mut world, Turn::Site(site), one);
    }
    let _ = turned(&mut world, Turn::Bring(1), one);
    let _ = turned(&mut world, Turn::Bring(2), two);
    for (ops, new, known) in [([one, two], 2, 0), ([two, one], 0, 2)] {
        let counts = Answer::Taken(Count { new, known });
        assert!(rt; given(&mut world, 3, &ops) == Some(Ok(counts)));
    }
    let refused = Some(Err(StepRefusal::Strange));
    assert!(rt; given(&mut world, 1, &[one, strange]) == refused && held(&world, 1) == 1);
    Ok(())
}
