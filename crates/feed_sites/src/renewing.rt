//! A new feed, stored with the copy and the settings of another.

ghost use Rattle.std.specs.Prelude.{◌≡◌, ◌≢◌, ◌↔◌, ◌≤◌, ◌⊎◌, IfErr, IfOk, IsTrue, List, OnOk, ℕ, string_bytes};
ghost use Rattle.std.specs.Io.KnownBytes.{Appends};
ghost use Rattle.desk_codec.specs.Runs.{set_feed};
ghost use Rattle.feed_files.specs.Files.{HoldsOn, IsHeldAlone, IsReplaced, Stays, new_name};
ghost use Rattle.feed_edit.specs.Keeping.{IsUnkept};
ghost use Rattle.feed_sites.specs.Renewing.{IsFree, IsNotFree, IsNotRenewed, IsRenewed, renewed_line};

use crate::anew::made_anew;
use crate::renew_fault::RenewFault;
use desk_blocks::Blocks;
use desk_memory::NoMemory;
use desk_replica::Replica;
use feed_edit::{FeedTrouble, KeepFault, TakeFault, open_feed};
use feed_files::{FileRefusal, Files};
use feed_stored::{keep_replica, write_out};
use std::alloc::Allocator;
use std::io::Write;

/// Whether a name is that under which a feed is written before it takes its own.
fn is_writing_of(new: &[u8], feed: &[u8]) -> bool
    ensures { IsTrue result ↔ (feed.now ≡ new_name new.now) }
{
    let length = new.len();
    if feed.len() < length {
        return false;
    }
    let (front, end) = feed.split_at(length);
    if front != new {
        return false;
    }
    end == b".new".as_slice()
}

/// Takes a name for this run alone, under which no file may stand.
fn take_free<F: Files, A: Allocator + Copy>(
    alloc: A,
    files: &mut F,
    name: &str,
) -> Result<(), RenewFault>
    ensures ok { OnOk result (IsFree name.now (F.shelf files.old) (F.shelf files.new)) }
    ensures err { IfErr result (IsNotFree name.now (F.shelf files.old) (F.shelf files.new)) }
    ensures held { IsHeldAlone name.now (F.shelf files.old) (F.shelf files.new)
        ⊎ Stays (F.shelf files.old) (F.shelf files.new) }
    ensures others { (other : List ℕ) → other ≢ name.now → other ≢ new_name name.now
        → (F.shelf files.new).kept other ≡ (F.shelf files.old).kept other }
{
    files.hold(name).map_err(TakeFault::Untaken)?;
    match files.read(alloc, name) {
        Err(FileRefusal::Missing) => Ok(()),
        Ok(_) | Err(FileRefusal::Large) => Err(RenewFault::There),
        Err(why) => Err(RenewFault::Take(TakeFault::Feed(FeedTrouble::File(why)))),
    }
}

/// The line of how many symbols the copy of a new feed has.
fn renewed_line<A: Allocator + Copy>(alloc: A, count: usize) -> Result<String<A>, NoMemory>
    ensures { IfOk result (λ s. string_bytes s ≡ renewed_line count) }
{
    let mut out = String::new(alloc);
    out.push_str("ok renewed ")?;
    write!(out, "{count}")?;
    out.push_str("\n")?;
    Ok(out)
}

/// Writes a line, and then stores the feed of a replica under a name, where no file is.
fn keep_new<W: Write, F: Files, A: Allocator + Copy>(
    alloc: A,
    replica: &Replica<Blocks<A>>,
    line: &[u8],
    writer: &mut W,
    files: &mut F,
    name: &str,
) -> Result<(), KeepFault>
    ensures written { OnOk result (Appends (W.contents writer.old) (W.contents writer.new) line.now) }
    ensures stored { OnOk result
        (IsReplaced name.now (set_feed replica.now.ops) (F.shelf files.old).kept (F.shelf files.new).kept) }
    ensures counted { OnOk result ((F.shelf files.new).failures ≡ (F.shelf files.old).failures) }
    ensures err { IfErr result
        (IsUnkept name.now line.now (F.shelf files.old) (F.shelf files.new) (W.contents writer.old)
        (W.contents writer.new)) }
    ensures held { HoldsOn (F.shelf files.old).held (F.shelf files.new).held }
    ensures others { (other : List ℕ) → other ≢ name.now → other ≢ new_name name.now
        → (F.shelf files.new).kept other ≡ (F.shelf files.old).kept other }
{
    let nothing: Option<Vec<u8, A>> = None;
    write_out(writer, line)?;
    Ok(keep_replica(alloc, replica, files, name, &nothing)?)
}

/// Begins a new feed under a name that it takes first and for this run alone, and where no file may stand, with the
/// copy and the settings of a stored feed: all made by one site, with no copy fault, and by one operation for each
/// symbol and each setting that has a value. Of these no edit is refused but for memory. The line `ok renewed 28746` is
/// written, with the number of symbols, and then the new feed is stored. The old feed is only read, and stays. `There`
/// comes where a file stands under the name, also one that is empty or no feed, and where the old feed has the name
/// under which the new one would be written first. After an `Err` no file has changed but `new.new`, and that only once
/// the line was written.
pub fn renew_feed<W: Write, F: Files, A: Allocator + Copy>(
    alloc: A,
    writer: &mut W,
    files: &mut F,
    new: &str,
    feed: &str,
    site: u16,
) -> Result<(), RenewFault>
    requires { 1 ≤ site }
    ensures ok { OnOk result
        (IsRenewed new.now feed.now site (F.shelf files.old) (F.shelf files.new) (W.contents writer.old)
        (W.contents writer.new)) }
    ensures err { IfErr result
        (IsNotRenewed new.now feed.now (F.shelf files.old) (F.shelf files.new) (W.contents writer.old)
        (W.contents writer.new)) }
    ensures held { IsHeldAlone new.now (F.shelf files.old) (F.shelf files.new)
        ⊎ ((writer.new ≡ writer.old) × Stays (F.shelf files.old) (F.shelf files.new)) }
    ensures feed { feed.now ≢ new.now → (F.shelf files.new).kept feed.now ≡ (F.shelf files.old).kept feed.now }
    ensures others { (other : List ℕ) → other ≢ new.now → other ≢ new_name new.now
        → (F.shelf files.new).kept other ≡ (F.shelf files.old).kept other }
{
    if is_writing_of(new.as_bytes(), feed.as_bytes()) {
        return Err(RenewFault::There);
    }
    take_free(alloc, files, new)?;
    let old = open_feed(alloc, files, feed)?;
    let replica = made_anew(alloc, &old, site)?;
    let line = renewed_line(alloc, replica.copy_len())?;
    Ok(keep_new(alloc, &replica, line.as_bytes(), writer, files, new)?)
}
