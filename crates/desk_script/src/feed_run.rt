//! Commands on the feed of a file, answered one by one or as a sheet.

ghost use Rattle.std.specs.Prelude.{◌≡◌, ◌≤◌, ◌⊎◌, IfErr, IfOk, IsErrOf, OnOk, Some, ℕ};
ghost use Rattle.std.specs.FinMap as fin;
ghost use Rattle.std.specs.Io.KnownBytes.{IsAtEnd};
ghost use Rattle.desk_ops.specs.OpSet.{OpSet};
ghost use Rattle.feed_files.specs.Files.{HasFailed, IsHeldAlone, Stays};
ghost use Rattle.feed_stored.specs.Stored.{was_read};
ghost use Rattle.desk_script.specs.Desk.{desk};
ghost use Rattle.desk_script.specs.FeedRun.{AnswersStored, IsBarred, IsOpened, IsStoppedBy, IsStoppedOnFeed};
ghost use Rattle.desk_script.specs.FeedRun.{IsStoredBy, LeavesOffBy};
ghost use Rattle.desk_script.specs.Room.{AnswersInRoom, IsStoppedInRoom};
ghost use Rattle.desk_script.specs.StoredSheet as sheets;

use crate::sheet::answer_lines;
use crate::{Mode, RoomFault, RunFault, SheetFault};
use desk_blocks::Blocks;
use desk_replica::Replica;
use feed_files::{FileRefusal, Files};
use feed_stored::{keep_replica, let_in, mark, open_replica, stored_bytes};
use script_answers::Memory;
use script_world::World;
use std::alloc::{Allocator, Global};
use std::io::{Read, Write};

/// A stored feed that a room works on.
#[derive(Clone, Copy)]
pub struct Room<'a> {
    /// The name of the feed's file.
    pub feed: &'a str,
    /// The site that works on it.
    pub site: u16,
    /// Whether the feed may hold less of the site than this room has made there.
    pub older: bool,
}

/// A stored feed that a run works on.
#[derive(Clone, Copy)]
struct Feed<'a> {
    room: Room<'a>,
    /// Whether the room keeps how far the site has come.
    marks: bool,
}

/// Takes a name for this run alone, and opens a world of one site, which holds the operations of the feed that is
/// stored under it; with it the bytes that were read. Where no file is there it holds none.
fn take_feed<F: Files, A: Allocator + Copy>(
    alloc: A,
    files: &mut F,
    name: &str,
    site: u16,
) -> Result<(Option<Vec<u8, A>>, World<A>), RunFault>
    requires { 1 ≤ site }
    ensures ok { IfOk result
        (λ p. IsOpened name.now site (F.shelf files.old) (was_read p.0) (desk p.1 (F.shelf files.new))) }
    ensures err { IfErr result (IsBarred name.now (F.shelf files.old) (F.shelf files.new)) }
    ensures held { IsHeldAlone name.now (F.shelf files.old) (F.shelf files.new)
        ⊎ Stays (F.shelf files.old) (F.shelf files.new) }
{
    files.hold(name)?;
    let old = stored_bytes(alloc, files, name)?;
    let replica = open_replica(alloc, &old, site)?;
    let world = World::with_site(alloc, replica)?;
    Ok((old, world))
}

/// The replica of a site that is there.
fn replica_at<A: Allocator + Copy>(world: &World<A>, site: u16) -> &Replica<Blocks<A>>
    requires { (set : OpSet) × (fin.get world.now site ≡ Some set) }
    ensures ops { fin.get world.now site ≡ Some result.now.ops }
    ensures number { result.now.site ≡ site }
{
    let Some(replica) = world.replica(site) else {
        unreachable!()
    };
    replica
}

/// Carries out commands on a stored feed, whose name it takes first, and for itself alone: where another run has it,
/// nothing is read, answered or stored. Then the site holds the operations of the named file, or none where that is not
/// there. A feed that is older than what this room made there, by FEED.last, may be refused. Once all was answered the
/// feed of that site alone is stored, unless the file has these bytes, and then FEED.last, where that can be written.
fn on_feed<R: Read, W: Write, F: Files, A: Allocator + Copy>(
    memory: Memory<A>,
    mode: Option<Mode>,
    feed: Feed<'_>,
    reader: &mut R,
    writer: &mut W,
    files: &mut F,
) -> Result<(), SheetFault>
    requires { 1 ≤ feed.room.site }
    ensures ok { OnOk result
        (IsStoredBy mode feed.entry.room.feed.now feed.entry.room.site feed.entry.room.older feed.entry.marks (F.shelf files.old)
        (F.shelf files.new) (R.remaining reader.old) (W.contents writer.old) (W.contents writer.new)) }
    ensures err { IfErr result
        (IsStoppedBy mode feed.entry.room.feed.now feed.entry.room.site feed.entry.room.older (F.shelf files.old) (F.shelf files.new)
        (R.remaining reader.old) (W.contents writer.old) (W.contents writer.new)) }
    ensures held { IsHeldAlone feed.entry.room.feed.now (F.shelf files.old) (F.shelf files.new)
        ⊎ ((reader.new ≡ reader.old) × (writer.new ≡ writer.old) × Stays (F.shelf files.old) (F.shelf files.new)) }
    ensures end { OnOk result (IsAtEnd (R.remaining reader.new)) }
    ensures left { IfErr result (LeavesOffBy mode (R.remaining reader.old) (R.remaining reader.new)) }
    ensures unread { IfErr result (λ fault. (made had : ℕ) → fault ≡ SheetFault.Older made had
        → (reader.new ≡ reader.old) × (writer.new ≡ writer.old)) }
{
    let alloc = memory.own;
    let Room {
        feed: name,
        site,
        older,
    } = feed.room;
    let (old, mut world) = take_feed(alloc, files, name, site)?;
    let_in(alloc, files, name, &old, replica_at(&world, site), older)?;
    answer_lines(memory, mode, &mut world, reader, writer, files)?;
    let replica = replica_at(&world, site);
    keep_replica(alloc, replica, files, name, &old)?;
    if !feed.marks {
        return Ok(());
    }
    mark(alloc, files, name, replica);
    Ok(())
}

/// Runs a script on a stored feed, whose name it takes first, and for itself alone: where another run has it, nothing
/// is read, answered or stored. Then the site holds the operations of the named file, or none where that is not there.
/// Once all commands were answered the feed of that site alone is stored under the name, in place of the old one,
/// unless the file has these bytes; before that no file is changed, and after an `Err` none but `name.new`. What was
/// written then is a prefix of answer lines, or nothing. The name stays taken until the files end.
pub fn run_on_feed<R: Read, W: Write, F: Files, A: Allocator + Copy>(
    alloc: A,
    global: Global,
    reader: &mut R,
    writer: &mut W,
    files: &mut F,
    name: &str,
    site: u16,
) -> Result<(), RunFault>
    requires { 1 ≤ site }
    ensures ok { OnOk result
        (AnswersStored name.now site (F.shelf files.old) (F.shelf files.new) (R.remaining reader.old)
        (W.contents writer.old) (W.contents writer.new)) }
    ensures err { IfErr result
        (IsStoppedOnFeed name.now site (F.shelf files.old) (F.shelf files.new) (R.remaining reader.old)
        (W.contents writer.old) (W.contents writer.new)) }
    ensures held { IsHeldAlone name.now (F.shelf files.old) (F.shelf files.new)
        ⊎ ((reader.new ≡ reader.old) × (writer.new ≡ writer.old) × Stays (F.shelf files.old) (F.shelf files.new)) }
    ensures device { IsErrOf result (RunFault.File FileRefusal.Device)
        → HasFailed (F.shelf files.old) (F.shelf files.new) }
    ensures end { OnOk result (IsAtEnd (R.remaining reader.new)) }
{
    let room = Room {
        feed: name,
        site,
        older: true,
    };
    let feed = Feed { room, marks: false };
    let memory = Memory { own: alloc, global };
    match on_feed(memory, None, feed, reader, writer, files) {
        Ok(()) => Ok(()),
        Err(SheetFault::Run(fault)) => Err(fault),
        Err(SheetFault::Line(_)) => unreachable!(),
        Err(SheetFault::Older { .. }) => unreachable!(),
    }
}

/// Runs a script on a stored feed as `run_on_feed`, and refuses a feed that is older than what this room made there:
/// one that holds less of the site than FEED.last says. Then nothing is read of the reader or written, and no file
/// changes. `older` lets such a feed in. Once the feed was stored FEED.last has the greatest counter that it holds of
/// the site; where that file cannot be written it is as it was.
pub fn run_in_room<R: Read, W: Write, F: Files, A: Allocator + Copy>(
    memory: Memory<A>,
    reader: &mut R,
    writer: &mut W,
    files: &mut F,
    room: Room<'_>,
) -> Result<(), RoomFault>
    requires { 1 ≤ room.site }
    ensures ok { OnOk result
        (AnswersInRoom room.entry (F.shelf files.old) (F.shelf files.new) (R.remaining reader.old)
        (W.contents writer.old) (W.contents writer.new)) }
    ensures err { IfErr result
        (IsStoppedInRoom room.entry (F.shelf files.old) (F.shelf files.new) (R.remaining reader.old)
        (W.contents writer.old) (W.contents writer.new)) }
    ensures held { IsHeldAlone room.entry.feed.now (F.shelf files.old) (F.shelf files.new)
        ⊎ ((reader.new ≡ reader.old) × (writer.new ≡ writer.old) × Stays (F.shelf files.old) (F.shelf files.new)) }
    ensures device { IsErrOf result (RoomFault.Run (RunFault.File FileRefusal.Device))
        → HasFailed (F.shelf files.old) (F.shelf files.new) }
    ensures end { OnOk result (IsAtEnd (R.remaining reader.new)) }
    ensures unread { IfErr result (λ fault. (made had : ℕ) → fault ≡ RoomFault.Older made had
        → (reader.new ≡ reader.old) × (writer.new ≡ writer.old)) }
{
    let feed = Feed { room, marks: true };
    match on_feed(memory, None, feed, reader, writer, files) {
        Ok(()) => Ok(()),
        Err(SheetFault::Run(fault)) => Err(RoomFault::Run(fault)),
        Err(SheetFault::Older { made, held }) => Err(RoomFault::Older { made, held }),
        Err(SheetFault::Line(_)) => unreachable!(),
    }
}

/// Carries out a sheet on a stored feed, whose name it takes first, and for itself alone. Then the site holds the
/// operations of the named file, or none where that is not there. A feed that is older than what this room made there,
/// by FEED.last, is refused unless `older`: nothing is read of the reader or written, and no file changes. Else the
/// sheet is carried out as by `run_sheet`. Once all was answered and written the feed of that site alone is stored
/// under the name, unless the file has these bytes, and then the greatest counter of the site in FEED.last, where that
/// can be written. Where a line stopped the run, or anything failed before that, nothing is stored and no file has
/// changed; where the feed was not stored, none but `name.new`. The name stays taken until the files end.
pub fn run_sheet_on_feed<R: Read, W: Write, F: Files, A: Allocator + Copy>(
    memory: Memory<A>,
    mode: Mode,
    reader: &mut R,
    writer: &mut W,
    files: &mut F,
    room: Room<'_>,
) -> Result<(), SheetFault>
    requires { 1 ≤ room.site }
    ensures ok { OnOk result
        (sheets.IsStoredSheet mode room.entry (F.shelf files.old) (F.shelf files.new) (R.remaining reader.old)
        (W.contents writer.old) (W.contents writer.new)) }
    ensures err { IfErr result
        (sheets.IsStoppedOnFeed mode room.entry (F.shelf files.old) (F.shelf files.new)
        (R.remaining reader.old) (W.contents writer.old) (W.contents writer.new)) }
    ensures held { IsHeldAlone room.entry.feed.now (F.shelf files.old) (F.shelf files.new)
        ⊎ ((reader.new ≡ reader.old) × (writer.new ≡ writer.old) × Stays (F.shelf files.old) (F.shelf files.new)) }
    ensures end { OnOk result (IsAtEnd (R.remaining reader.new)) }
    ensures left { IfErr result (LeavesOffBy (Some mode) (R.remaining reader.old) (R.remaining reader.new)) }
{
    let feed = Feed { room, marks: true };
    on_feed(memory, Some(mode), feed, reader, writer, files)
}
