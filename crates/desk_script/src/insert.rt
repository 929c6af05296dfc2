//! Symbols inserted one after another.

ghost use Rattle.std.specs.Prelude.{◌≡◌, ◌+◌, ◌<◌, ◌^◌, length, None};
ghost use Rattle.script_answers.specs.NotDone.{reply_of, reply_to};
ghost use Rattle.script_answers.specs.Reply.{reply_values};
ghost use Rattle.script_answers.specs.Command as commands;
ghost use Rattle.desk_ops.specs.Op.{stamp_of};
ghost use Rattle.desk_script.specs.Act.{Does};
ghost use Rattle.desk_script.specs.Insert.{Inserts, after, all_made, all_symbols, first_of};

use crate::event::replica_of;
use desk_ops::{Op, Stamp, Symbol};
use script_answers::{NotDone, Refusal, Reply};
use script_world::{Answer, Event, World};
use std::alloc::Allocator;

/// A refusal after that many edits says that these stand.
fn after(count: usize, end: NotDone) -> NotDone
    ensures { reply_of result ≡ after count (reply_of end) }
{
    match end {
        NotDone::Failed(why) if count > 0 => NotDone::Stopped(count, Refusal::from(why)),
        other => other,
    }
}

/// The first stamp and the last of those made, where this is the next.
fn span(made: Option<(Stamp, Stamp)>, op: &Op) -> (Stamp, Stamp)
    ensures { result ≡ (first_of made (stamp_of op.now), stamp_of op.now) }
{
    match made {
        None => (op.stamp(), op.stamp()),
        Some((first, _)) => (first, op.stamp()),
    }
}

fn all_made<A: Allocator + Copy>(count: usize, made: Option<(Stamp, Stamp)>) -> Reply<A>
    ensures { reply_values result ≡ all_made count made }
{
    match made {
        None => Reply::Done,
        Some((first, _)) if count == 1 => Reply::Made(first),
        Some((first, last)) => Reply::MadeMany(first, last),
    }
}

/// Inserts symbols one after another, up to one that is refused.
fn insert_all<A: Allocator + Copy>(
    world: &mut World<A>,
    site: u16,
    place: usize,
    copy: &[Symbol],
) -> Result<Reply<A>, NotDone>
    requires { place + length copy.now < 2 ^ 64 }
    ensures { Inserts world.old site place copy.now 0 None (reply_to result) world.new }
{
    let mut stamps = None;
    let mut count = 0;
    for symbol in copy {
        let event = Event::Insert {
            site,
            place: place + count,
            symbol: *symbol,
        };
        match world.step(&event) {
            Ok(Answer::Made(op)) => {
                stamps = Some(span(stamps, &op));
                count += 1;
            }
            Ok(Answer::Taken(_)) => unreachable!(),
            Ok(Answer::Done) => unreachable!(),
            Err(why) => return Err(after(count, NotDone::from(why))),
        }
    }
    Ok(all_made(count, stamps))
}

/// Whether each symbol is lawful.
fn all_symbols(copy: &[Symbol]) -> bool
    ensures { result ≡ all_symbols copy.now }
{
    for symbol in copy {
        if symbol.check().is_err() {
            return false;
        }
    }
    true
}

/// Inserts a copy at a place, once the place and each of its symbols are known to be lawful.
pub fn insert<A: Allocator + Copy>(
    world: &mut World<A>,
    site: u32,
    place: u32,
    copy: &[Symbol],
) -> Result<Reply<A>, NotDone>
    ensures { Does world.old (commands.Insert site place copy.now) (reply_to result) world.new }
{
    let replica = replica_of(world, site)?;
    let number = replica.site();
    if place as usize > replica.copy_len() {
        return Err(NotDone::from(Refusal::Place));
    }
    if !all_symbols(copy) {
        return Err(NotDone::from(Refusal::Value));
    }
    insert_all(world, number, place as usize, copy)
}
