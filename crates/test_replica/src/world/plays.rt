//! Lists of events: by `step`, one at a time, and by one `play`.

ghost use Rattle.std.specs.Prelude.{All};
ghost use Rattle.desk_ops.specs.Op.{IsLawful};
ghost use Rattle.script_world.specs.World.{event_values, IsSound};

use crate::world::events::{at, held, roman, typed};
use crate::world::growths::lawful_of;
use desk_memory::NoMemory;
use desk_ops::{Key, Op, Stamp};
use desk_replica::{Count, Refusal};
use script_world::{Answer, Event, StepRefusal, World};
use std::alloc::{Allocator, Global};
use std::test::Fail;

type Returned = Result<Answer, StepRefusal>;

/// 1.1 `a` after the head.
fn first() -> Op {
    typed(at(1, 1), Stamp::HEAD, 'a')
}

/// 2.1 `b` after 1.1, made at site 1.
fn second() -> Op {
    typed(at(2, 1), at(1, 1), 'b')
}

/// 2.2 `c` after 1.1, made at site 2.
fn third() -> Op {
    typed(at(2, 2), at(1, 1), 'c')
}

/// An insert of a Roman character at a place of a site's copy.
fn insert<'a>(site: u16, place: usize, ch: char) -> Event<'a>
    ensures { IsSound (event_values result) }
{
    let symbol = roman(ch);
    Event::Insert {
        site,
        place,
        symbol,
    }
}

/// Two sites make and hand on three inserts.
fn table<'a>(one: &'a [Op], twice: &'a [Op], two: &'a [Op]) -> [Event<'a>; 9]
    requires one { All IsLawful one.now }
    requires twice { All IsLawful twice.now }
    requires two { All IsLawful two.now }
    ensures { All (λ event. IsSound (event_values event)) result }
{
    [
        Event::Site(1),
        Event::Site(2),
        insert(1, 0, 'a'),
        Event::Give { to: 2, ops: one },
        insert(1, 1, 'b'),
        insert(2, 1, 'c'),
        Event::Give { to: 1, ops: twice },
        Event::Restart(2),
        Event::Give { to: 2, ops: two },
    ]
}

/// So many of the operations given were new, and so many known.
fn taken(new: usize, known: usize) -> Returned {
    Ok(Answer::Taken(Count { new, known }))
}

/// What the events of the table return.
fn table_answers() -> [Returned; 9] {
    [
        Ok(Answer::Done),
        Ok(Answer::Done),
        Ok(Answer::Made(first())),
        taken(1, 0),
        Ok(Answer::Made(second())),
        Ok(Answer::Made(third())),
        taken(1, 1),
        Ok(Answer::Done),
        taken(1, 1),
    ]
}

/// What sites 1 and 2 show after each event of the table.
const SHOWN: [(&str, &str); 9] = [
    ("", ""),
    ("", ""),
    ("a", ""),
    ("a", "a"),
    ("ab", "a"),
    ("ab", "ac"),
    ("acb", "ac"),
    ("acb", "ac"),
    ("acb", "acb"),
];

/// Whether a site's copy is this text, in Roman. A site that is not there shows nothing.
pub fn shows<A: Allocator + Copy>(
    world: &World<A>,
    site: u16,
    text: &str,
) -> Result<bool, NoMemory> {
    let Some(replica) = world.replica(site) else {
        return Ok(text.is_empty());
    };
    let copy = replica.copy()?;
    let mut chars = text.chars();
    for symbol in &copy {
        match chars.next() {
            Some(ch) if *symbol == roman(ch) => {}
            _ => return Ok(false),
        }
    }
    Ok(chars.next().is_none())
}

#[test]
fn two_sites_by_step(rt: HostRuntime) -> Result<(), Fail> {
    let one = lawful_of(rt.alloc(), &[first()])?;
    let twice = lawful_of(rt.alloc(), &[third(), third()])?;
    let two = lawful_of(rt.alloc(), &[second(), first()])?;
    let events = table(&one, &twice, &two);
    let answers = table_answers();
    let mut world = World::new(rt.alloc());
    for place in 0..9usize {
        let got = world.step(&events[place]);
        assert_eq!(rt; got, answers[place]);
        let (at_first, at_second) = SHOWN[place];
        assert!(rt; shows(&world, 1, at_first)?);
        assert!(rt; shows(&world, 2, at_second)?);
    }
    Ok(())
}

#[test]
fn two_sites_by_one_play(rt: HostRuntime) -> Result<(), Fail> {
    let one = lawful_of(rt.alloc(), &[first()])?;
    let twice = lawful_of(rt.alloc(), &[third(), third()])?;
    let two = lawful_of(rt.alloc(), &[second(), first()])?;
    let events = table(&one, &twice, &two);
    let mut world = World::new(rt.alloc());
    let answers = world.play(&events)?;
    assert!(rt; answers.as_slice() == table_answers().as_slice());
    assert!(rt; shows(&world, 1, "acb")?);
    assert!(rt; shows(&world, 2, "acb")?);
    Ok(())
}

/// Of these events all are refused but the first and the last.
fn refused_events<'a>(strange: &'a [Op]) -> [Event<'a>; 9]
    requires { All IsLawful strange.now }
    ensures { All (λ event. IsSound (event_values event)) result }
{
    [
        Event::Site(1),
        Event::Site(1),
        Event::Site(0),
        insert(2, 0, 'a'),
        insert(1, 1, 'a'),
        Event::Give {
            to: 1,
            ops: strange,
        },
        Event::Give {
            to: 2,
            ops: strange,
        },
        Event::Delete { site: 1, place: 0 },
        insert(1, 0, 'a'),
    ]
}

/// What those events return.
fn refused_answers() -> [Returned; 9] {
    [
        Ok(Answer::Done),
        Err(StepRefusal::KnownSite),
        Err(StepRefusal::Number),
        Err(StepRefusal::NoSite),
        Err(StepRefusal::Edit(Refusal::Place)),
        Err(StepRefusal::Strange),
        Err(StepRefusal::NoSite),
        Err(StepRefusal::Edit(Refusal::Place)),
        Ok(Answer::Made(first())),
    ]
}

#[test]
fn refused_events_of_a_play(rt: HostRuntime) -> Result<(), Fail> {
    let strange = lawful_of(rt.alloc(), &[typed(at(9, 9), Stamp::HEAD, 'k')])?;
    let events = refused_events(&strange);
    let mut world = World::new(rt.alloc());
    let answers = world.play(&events)?;
    assert!(rt; answers.as_slice() == refused_answers().as_slice());
    assert!(rt; shows(&world, 1, "a")?);
    assert_eq!(rt; held(&world, 1), 1);
    assert!(rt; world.replica(2).is_none());
    Ok(())
}

/// A world of three sites, of which the first has made an insert and given it to the second.
fn given_once(alloc: Global) -> Result<World<Global>, Fail> {
    let mut world = World::new(alloc);
    world.step(&Event::Site(1))?;
    world.step(&Event::Site(2))?;
    world.step(&Event::Site(3))?;
    let Answer::Made(op) = world.step(&insert(1, 0, 'a'))? else {
        return Err(Fail::new("no operation was made"));
    };
    let ops = lawful_of(alloc, &[op])?;
    if world.step(&Event::Give { to: 2, ops: &ops }) != taken(1, 0) {
        return Err(Fail::new("not one operation was new"));
    }
    Ok(world)
}

/// A site's next stamp is greater than all that it holds, not only than those that it made.
#[test]
fn stamp_from_own_operations(rt: HostRuntime) -> Result<(), Fail> {
    let mut world = given_once(rt.alloc())?;
    let set = Event::Set {
        site: 2,
        key: Key::Measure,
        value: 144,
    };
    let measure = Op::Set {
        stamp: at(3, 2),
        key: Key::Measure,
        value: 144,
    };
    assert_eq!(rt; world.step(&insert(2, 1, 'c')), Ok(Answer::Made(third())));
    assert_eq!(rt; world.step(&set), Ok(Answer::Made(measure)));
    assert_eq!(rt;
        world.step(&insert(3, 0, 'a')),
        Ok(Answer::Made(typed(at(1, 3), Stamp::HEAD, 'a')))
    );
    Ok(())
}

/// What is given is held afterwards, and by no other site.
#[test]
fn give_changes_nothing(rt: HostRuntime) -> Result<(), Fail> {
    let world = given_once(rt.alloc())?;
    assert!(rt; shows(&world, 2, "a")?);
    assert_eq!(rt; held(&world, 1), 1);
    assert_eq!(rt; held(&world, 2), 1);
    assert_eq!(rt; held(&world, 3), 0);
    Ok(())
}
