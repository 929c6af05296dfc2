//! What each command does.

ghost use Rattle.std.specs.Prelude.{◌≡◌, ◌⊎◌, All, IfErr, IfOk, Some};
ghost use Rattle.script_answers.specs.NotDone.{reply_to};
ghost use Rattle.script_answers.specs.Command as commands;
ghost use Rattle.script_answers.specs.Command.{command_values};
ghost use Rattle.feed_files.specs.Files.{Stays};
ghost use Rattle.desk_ops.specs.Op.{IsLawful};
ghost use Rattle.desk_ops.specs.OpSet.{in_order};
ghost use Rattle.desk_script.specs.Act.{Attempts, Does, IsBrought, IsNoPart, Jobs, Lacks, LacksMemory, Takes, Tries};
ghost use Rattle.desk_script.specs.Act.{sent};
ghost use Rattle.desk_script.specs.Desk.{desk};

use crate::event::{happen, number_of, replica_of};
use crate::insert::insert;
use desk_blocks::Blocks;
use desk_codec::{ReadFault, read_feed};
use desk_ops::{Key, Op};
use desk_replica::Replica;
use feed_files::Files;
use script_answers::{Command, Failure, Memory, NotDone, Refusal, Reply, Wanted, job_by_files};
use script_world::{Answer, Event, World};
use std::alloc::Allocator;

fn add_site<A: Allocator + Copy>(world: &mut World<A>, site: u32) -> Result<Reply<A>, NotDone>
    ensures { Does world.old (commands.Site site) (reply_to result) world.new }
{
    let Ok(number) = u16::try_from(site) else {
        return Err(NotDone::from(Refusal::Number));
    };
    happen(world, &Event::Site(number))
}

fn delete<A: Allocator + Copy>(
    world: &mut World<A>,
    site: u32,
    place: u32,
) -> Result<Reply<A>, NotDone>
    ensures { Does world.old (commands.Delete site place) (reply_to result) world.new }
{
    let site = number_of(world, site)?;
    let place = place as usize;
    happen(world, &Event::Delete { site, place })
}

fn set<A: Allocator + Copy>(
    world: &mut World<A>,
    site: u32,
    key: Key,
    value: u32,
) -> Result<Reply<A>, NotDone>
    ensures { Does world.old (commands.SetTo site key value) (reply_to result) world.new }
{
    let site = number_of(world, site)?;
    happen(world, &Event::Set { site, key, value })
}

fn restart<A: Allocator + Copy>(world: &mut World<A>, site: u32) -> Result<Reply<A>, NotDone>
    ensures { Does world.old (commands.Restart site) (reply_to result) world.new }
{
    let site = number_of(world, site)?;
    happen(world, &Event::Restart(site))
}

/// Brings operations to a site that is there.
fn bring<A: Allocator + Copy>(
    world: &mut World<A>,
    site: u16,
    ops: &[Op],
) -> Result<Reply<A>, NotDone>
    requires { All IsLawful ops.now }
    ensures { IsBrought world.old site ops.now (reply_to result) world.new }
{
    let count = world.bring(site, ops)?;
    Ok(Reply::from(Answer::Taken(count)))
}

/// Takes a feed at a site that is there.
fn take_feed<A: Allocator + Copy>(
    alloc: A,
    world: &mut World<A>,
    site: u16,
    feed: &[u8],
) -> Result<Reply<A>, NotDone>
    ensures { Takes world.old site feed.now (reply_to result) world.new ⊎ Lacks world.old (reply_to result) world.new }
{
    match read_feed(alloc, feed) {
        Ok(ops) => bring(world, site, &ops),
        Err(ReadFault::Fault(fault)) => Err(NotDone::from(Refusal::Feed(fault))),
        Err(ReadFault::NoMemory) => Err(NotDone::Failed(Failure::NoMemory)),
        Err(ReadFault::Failed) => unreachable!(),
    }
}

fn take<A: Allocator + Copy>(
    alloc: A,
    world: &mut World<A>,
    site: u32,
    feed: &[u8],
) -> Result<Reply<A>, NotDone>
    ensures { Tries world.old (commands.Take site feed.now) (reply_to result) world.new }
{
    let site = number_of(world, site)?;
    take_feed(alloc, world, site, feed)
}

/// A replica's operations at the places of a range, or all. It copies those alone.
fn part_of<A: Allocator + Copy>(
    replica: &Replica<Blocks<A>>,
    range: Option<(u32, u32)>,
) -> Result<Vec<Op, A>, Failure>
    ensures part { IfOk result (λ part. Some part.items ≡ sent (in_order replica.now.ops) range) }
    ensures lawful { IfOk result (λ part. All IsLawful part.items) }
    ensures refused { IfErr result (λ end. IsNoPart end (sent (in_order replica.now.ops) range)) }
{
    let Some((from, to)) = range else {
        return Ok(replica.in_order()?);
    };
    if from <= to && to as usize <= replica.len() {
        Ok(replica.range(from as usize, to as usize)?)
    } else {
        Err(Failure::Refused(Refusal::Place))
    }
}

fn send<A: Allocator + Copy>(
    world: &mut World<A>,
    from: u32,
    to: u32,
    range: Option<(u32, u32)>,
) -> Result<Reply<A>, NotDone>
    ensures { Tries world.old (commands.Send from to range) (reply_to result) world.new }
{
    let replica = replica_of(world, from)?;
    let to = number_of(world, to)?;
    let ops = part_of(replica, range)?;
    happen(world, &Event::Give { to, ops: &ops })
}

fn merge<A: Allocator + Copy>(world: &mut World<A>, to: u32, from: u32) -> Result<Reply<A>, NotDone>
    ensures { Tries world.old (commands.Merge to from) (reply_to result) world.new }
{
    let to = number_of(world, to)?;
    let ops = replica_of(world, from)?.in_order()?;
    happen(world, &Event::Give { to, ops: &ops })
}

fn show<A: Allocator + Copy>(world: &World<A>, site: u32) -> Result<Reply<A>, NotDone>
    ensures { Tries world.now (commands.Show site) (reply_to result) world.now }
{
    let copy = replica_of(world, site)?.copy()?;
    Ok(Reply::Copy(copy))
}

fn faults<A: Allocator + Copy>(world: &World<A>, site: u32) -> Result<Reply<A>, NotDone>
    ensures { Tries world.now (commands.Faults site) (reply_to result) world.now }
{
    let faults = replica_of(world, site)?.copy_faults()?;
    Ok(Reply::Faults(faults))
}

fn settings<A: Allocator + Copy>(world: &World<A>, site: u32) -> Result<Reply<A>, NotDone>
    ensures { Tries world.now (commands.Settings site) (reply_to result) world.now }
{
    let replica = replica_of(world, site)?;
    Ok(Reply::Settings(replica.settings()))
}

fn feed<A: Allocator + Copy>(world: &World<A>, site: u32) -> Result<Reply<A>, NotDone>
    ensures { Tries world.now (commands.Feed site) (reply_to result) world.now }
{
    let feed = replica_of(world, site)?.write_feed()?;
    Ok(Reply::Feed(feed))
}

/// The copy of a site that is to be cast, and the names of the two files for that.
#[derive(Clone, Copy)]
struct Job<'a> {
    site: u32,
    case: &'a str,
    wedge: &'a str,
}

/// The job of a site's copy by two files.
fn job_at<F: Files, A: Allocator + Copy>(
    memory: Memory<A>,
    world: &World<A>,
    files: &mut F,
    job: Job<'_>,
    wanted: Wanted,
) -> Result<Reply<A>, NotDone>
    ensures made { Jobs wanted (desk world.now (F.shelf files.old)) job.entry.site job.entry.case.now
        job.entry.wedge.now (reply_to result) (desk world.now (F.shelf files.new))
        ⊎ LacksMemory (desk world.now (F.shelf files.old)) (reply_to result) (desk world.now (F.shelf files.new)) }
    ensures stays { Stays (F.shelf files.old) (F.shelf files.new) }
{
    let Job { site, case, wedge } = job;
    let replica = replica_of(world, site)?;
    Ok(job_by_files(memory, replica, files, case, wedge, wanted)?)
}

/// Does what a command says.
pub fn act<F: Files, A: Allocator + Copy>(
    memory: Memory<A>,
    world: &mut World<A>,
    files: &mut F,
    command: Command<'_, A>,
) -> Result<Reply<A>, NotDone>
    ensures done { Attempts (desk world.old (F.shelf files.old)) (command_values command.entry) (reply_to result)
        (desk world.new (F.shelf files.new)) }
    ensures stays { Stays (F.shelf files.old) (F.shelf files.new) }
{
    match command {
        Command::Site(site) => add_site(world, site),
        Command::Insert { site, place, copy } => insert(world, site, place, &copy),
        Command::Delete { site, place } => delete(world, site, place),
        Command::Set { site, key, value } => set(world, site, key, value),
        Command::Take { site, feed } => take(memory.own, world, site, &feed),
        Command::Send { from, to, range } => send(world, from, to, range),
        Command::Merge { to, from } => merge(world, to, from),
        Command::Show(site) => show(world, site),
        Command::Faults(site) => faults(world, site),
        Command::Settings(site) => settings(world, site),
        Command::Feed(site) => feed(world, site),
        Command::Ribbon { site, case, wedge } => {
            job_at(
                memory,
                world,
                files,
                Job { site, case, wedge },
                Wanted::Ribbon,
            )
        }
        Command::Cast { site, case, wedge } => {
            job_at(
                memory,
                world,
                files,
                Job { site, case, wedge },
                Wanted::Lines,
            )
        }
        Command::Restart(site) => restart(world, site),
    }
}
