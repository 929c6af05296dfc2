//! A stored feed whose number another room used too, renumbered.

ghost use Rattle.std.specs.Prelude.{◌≡◌, ◌≤◌, ◌⊎◌, IfErr, IfOk, OnOk};
ghost use Rattle.feed_files.specs.Files.{HoldsOn, IsHeldAlone, Stays};
ghost use Rattle.std.specs.Io.KnownBytes.{Appends};
ghost use Rattle.feed_stored.specs.Stored.{was_read};
ghost use Rattle.feed_sites.specs.Renumbering.{AreOpened, IsDone, IsRenumbered, IsUndone, IsUnopened, IsUnrenumbered};
ghost use Rattle.feed_sites.specs.Renumbering.{IsUnwritten, renumbered_line};

use crate::fault::RenumberFault;
use crate::making::{Made, made_of};
use crate::reporting::{renumbered_line, reported_of};
use desk_blocks::Blocks;
use desk_replica::Replica;
use feed_edit::{ANY_SITE, KeepFault, Origin, open_feed, take_feed, write_and_keep};
use feed_files::Files;
use feed_stored::write_out;
use std::alloc::Allocator;
use std::io::Write;

/// A feed that was taken, with the bytes that were read, and another beside it.
pub struct Opened<A: Allocator + Copy> {
    pub old: Option<Vec<u8, A>>,
    pub feed: Replica<Blocks<A>>,
    pub other: Replica<Blocks<A>>,
}

// Written out: what drops one calls this, and does not take it apart once more.
impl<A: Allocator + Copy> Drop for Opened<A> {
    fn drop(self) {
        let Opened { old, feed, other } = self;
        drop(old);
        drop(feed);
        drop(other);
    }
}

/// Takes a feed, and opens another.
fn open_both<F: Files, A: Allocator + Copy>(
    alloc: A,
    files: &mut F,
    name: &str,
    other: &str,
) -> Result<Opened<A>, RenumberFault>
    ensures ok { IfOk result
        (λ o. AreOpened name.now other.now (F.shelf files.old) (F.shelf files.new)
        (was_read o.old) o.feed.ops o.other.ops) }
    ensures err { IfErr result (IsUnopened name.now other.now (F.shelf files.old) (F.shelf files.new)) }
    ensures held { IsHeldAlone name.now (F.shelf files.old) (F.shelf files.new)
        ⊎ Stays (F.shelf files.old) (F.shelf files.new) }
{
    let (old, feed) = take_feed(alloc, files, name, ANY_SITE)?;
    let other = open_feed(alloc, files, other)?;
    Ok(Opened { old, feed, other })
}

/// Writes the line that nothing was moved.
fn write_none<W: Write, A: Allocator + Copy>(alloc: A, writer: &mut W) -> Result<(), KeepFault>
    ensures ok { OnOk result (Appends (W.contents writer.old) (W.contents writer.new) (renumbered_line 0)) }
    ensures err { IfErr result (IsUnwritten (W.contents writer.old) (W.contents writer.new)) }
{
    let line = renumbered_line(alloc, 0)?;
    Ok(write_out(writer, line.as_bytes())?)
}

/// Writes what was done, and where operations were moved stores what the feed becomes.
fn finish<W: Write, F: Files, A: Allocator + Copy>(
    alloc: A,
    writer: &mut W,
    files: &mut F,
    name: &str,
    opened: &Opened<A>,
    made: &Made<A>,
) -> Result<(), KeepFault>
    ensures ok { OnOk result
        (IsDone name.now opened.now.feed.ops made.now.replica.ops made.now.moved.ops (was_read opened.now.old)
        (F.shelf files.old) (F.shelf files.new) (W.contents writer.old) (W.contents writer.new)) }
    ensures err { IfErr result
        (IsUndone name.now opened.now.feed.ops made.now.replica.ops made.now.moved.ops (F.shelf files.old)
        (F.shelf files.new) (W.contents writer.old) (W.contents writer.new)) }
    ensures held { HoldsOn (F.shelf files.old).held (F.shelf files.new).held }
{
    if made.moved.is_empty() {
        return write_none(alloc, writer);
    }
    let reported = reported_of(alloc, &opened.feed, made)?;
    let origin = Origin {
        name,
        old: &opened.old,
    };
    write_and_keep(alloc, &made.replica, &reported, writer, files, origin)
}

/// Renumbers a stored feed whose number another room used too, so that a merge keeps the corrections of both. A stamp
/// collides where one operation alone bears it in each feed, and the two differ. Of each site the operations from its
/// first such stamp on move to the other number, but for those that the other feed holds. What they name of each other
/// goes along, and all others stay. The name of the feed is taken first and for this run alone; the other feed is only
/// read, and must be there. The line `ok renumbered 12` is written, and below it the words in which the copy reads
/// otherwise, as `report_difference` has them; then the feed is stored. Where nothing collides `ok renumbered 0` is
/// written, and no file changes. `Number` refuses a number that either feed uses, what another operation has seen, and
/// two operations that would bear one stamp. Until all is written no file has changed.
pub fn renumber_feed<W: Write, F: Files, A: Allocator + Copy>(
    alloc: A,
    writer: &mut W,
    files: &mut F,
    name: &str,
    other: &str,
    site: u16,
) -> Result<(), RenumberFault>
    requires { 1 ≤ site }
    ensures ok { OnOk result
        (IsRenumbered name.now other.now site (F.shelf files.old) (F.shelf files.new) (W.contents writer.old)
        (W.contents writer.new)) }
    ensures err { IfErr result
        (IsUnrenumbered name.now other.now site (F.shelf files.old) (F.shelf files.new) (W.contents writer.old)
        (W.contents writer.new)) }
    ensures held { IsHeldAlone name.now (F.shelf files.old) (F.shelf files.new)
        ⊎ ((writer.new ≡ writer.old) × Stays (F.shelf files.old) (F.shelf files.new)) }
{
    let opened = open_both(alloc, files, name, other)?;
    let made = made_of(alloc, &opened.feed, &opened.other, site)?;
    Ok(finish(alloc, writer, files, name, &opened, &made)?)
}
