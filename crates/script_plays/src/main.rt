//! A list of events, played at once over a world that begins with one site, and what each site then holds.
//!
//! The first line, `take N FEED`, gives site N the operations of a feed. Each other line is an event in the words of a
//! script, and its `insert` has one symbol. What a `take` brings must be held by some site. A site above 65535 counts
//! as 0, which no site has.
//!
//! It refuses a play with a line of another form or a faulty feed: it writes nothing, and the status is 1. The proofs
//! cover safety, lawful events and the answer of each event, and no other output. tests/differential.py compares all of
//! it with tests/oracle_runs.py.
#![tactic(auto)]

ghost use Rattle.std.specs.Prelude.{◌≡◌, All, IfOk};
ghost use Rattle.script_answers.specs.NotDone.{event_reply};
ghost use Rattle.script_answers.specs.Reply.{reply_values};
ghost use Rattle.script_plays.specs.Line.{GivesLawful};
ghost use Rattle.script_world.specs.World.{IsSound, event_values};

mod line;

use anyhow::{bail, ensure};
use desk_blocks::Blocks;
use desk_codec::read_feed;
use desk_replica::Replica;
use line::{Line, number_of};
use script_answers::{Command, NotDone, Reply, parse, put};
use script_world::{Answer, Event, StepRefusal, World};
use std::alloc::{AllocError, Global};
use std::io;

/// A site and the operations that it holds.
type Room = Replica<Blocks<Global>>;

/// The world that the first line says: one site, which holds the operations of a feed.
fn world_of(alloc: Global, text: &str) -> anyhow::Result<World<Global>> {
    let Command::Take { site, feed } = parse(alloc, text.as_bytes())? else {
        bail!("the first line names a site and what it holds");
    };
    let number = number_of(site);
    ensure!(number > 0, "no site has the number {site}");
    let ops = read_feed(alloc, &feed)?;
    let room = Room::open(alloc, number, &ops)?;
    Ok(World::with_site(alloc, room)?)
}

/// The lines of a text.
fn lines_of(alloc: Global, text: &str) -> anyhow::Result<Vec<Line>>
    ensures { IfOk result (λ lines. All GivesLawful lines.items) }
{
    let mut lines = Vec::new(alloc);
    for words in text.lines() {
        lines.push(Line::read(alloc, words)?)?;
    }
    Ok(lines)
}

/// The events of the lines.
fn events_of(alloc: Global, lines: &[Line]) -> Result<Vec<Event<'_>>, AllocError>
    requires { All GivesLawful lines.now }
    ensures { IfOk result (λ events. All (λ event. IsSound (event_values event)) events.items) }
{
    let mut events = Vec::new(alloc);
    for line in lines {
        events.push(line.event())?;
    }
    Ok(events)
}

/// The answer to what an event returned.
fn answer_of(returned: Result<Answer, StepRefusal>) -> Reply<Global>
    ensures { reply_values result ≡ event_reply returned }
{
    match returned {
        Ok(answer) => Reply::from(answer),
        Err(why) => Reply::from(NotDone::from(why)),
    }
}

/// Writes an answer on a line of its own.
fn say(out: &mut String, reply: &Reply<Global>) -> Result<(), AllocError> {
    put(out, reply)?;
    out.push('\n')
}

/// Writes the number of a site and of its operations, its copy, its faults, its settings and its feed.
fn report(alloc: Global, out: &mut String, room: &Room) -> anyhow::Result<()> {
    let number = room.site();
    let held = room.len();
    out.push_str(format!(in alloc; "site {number} holds {held}\n")?.as_str())?;
    say(out, &Reply::Copy(room.copy()?))?;
    say(out, &Reply::Faults(room.copy_faults()?))?;
    say(out, &Reply::Settings(room.settings()))?;
    say(out, &Reply::Feed(room.write_feed()?))?;
    Ok(())
}

/// The first line of a text, and what follows it.
fn parted(text: &str) -> (&str, &str) {
    match text.split_once('\n') {
        Some(parts) => parts,
        None => (text, ""),
    }
}

/// Plays the events of the lines at once, and writes their answers.
fn play(
    alloc: Global,
    out: &mut String,
    world: &mut World<Global>,
    lines: &[Line],
) -> anyhow::Result<()>
    requires { All GivesLawful lines.now }
{
    let events = events_of(alloc, lines)?;
    for returned in &world.play(&events)? {
        say(out, &answer_of(*returned))?;
    }
    Ok(())
}

fn main(rt: HostRuntime) -> anyhow::Result<()> {
    let alloc = rt.alloc();
    let text = io::read_to_string(alloc, rt.reader())?;
    let (first, rest) = parted(&text);
    let mut world = world_of(alloc, first)?;
    let lines = lines_of(alloc, rest)?;
    let mut out = String::new(alloc);
    play(alloc, &mut out, &mut world, &lines)?;
    for number in 1..=u16::MAX {
        if let Some(room) = world.replica(number) {
            report(alloc, &mut out, room)?;
        }
    }
    print!(rt; "{out}")?;
    Ok(())
}
