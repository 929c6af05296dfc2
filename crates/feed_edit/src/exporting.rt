//! The copy of a stored feed, as it is or as it was, written as text.

ghost use Rattle.std.specs.Prelude.{◌≡◌, All, IfErr, IfOk, None, OnOk};
ghost use Rattle.desk_ops.specs.Op.{IsLawful};
ghost use Rattle.desk_ops.specs.Shown.{copy_of};
ghost use Rattle.text_copy.specs.Writing.{text_bytes};
ghost use Rattle.feed_files.specs.Files.{Stays};
ghost use Rattle.feed_edit.specs.Exporting.{IsClosedBy, IsExported, IsSetOf, IsUnexported, IsUnversioned, IsVersion};
ghost use Rattle.feed_edit.specs.Exporting.{ops_until};

use crate::fault::{ExportFault, FeedTrouble};
use crate::merging::{ANY_SITE, operations_of};
use desk_blocks::Blocks;
use desk_memory::NoMemory;
use desk_ops::Op;
use desk_replica::Replica;
use feed_files::Files;
use feed_stored::write_out;
use std::alloc::Allocator;
use std::io::Write;
use text_copy::write_text;

/// A stored feed as it is, or as it was once: by all its operations, or by those whose counter is at most this.
#[derive(Clone, Copy)]
pub struct Version<'a> {
    pub feed: &'a str,
    pub until: Option<u64>,
}

impl<'a> Version<'a> {
    /// A stored feed as it is.
    pub fn whole(feed: &'a str) -> Version<'a>
        ensures { result ≡ record { feed = feed.entry; until = None } }
    {
        Version { feed, until: None }
    }
}

/// Drops the operations whose counter is above a given one.
fn keep_until<A: Allocator>(ops: &mut Vec<Op, A>, until: Option<u64>)
    ensures kept { ops.new.items ≡ ops_until until ops.old.items }
    ensures lawful { All IsLawful ops.old.items → All IsLawful ops.new.items }
{
    if let Some(counter) = until {
        ops.retain(|op| op.stamp().counter <= counter);
    }
}

/// Opens a version of the feed of a file, which must be there, to be read alone. As a target has a smaller counter than
/// what names it, no operation of a version lacks its target where the feed has it. The name is not taken, and no file
/// changes. Nothing is to be edited in the replica, which has a number of no meaning.
pub fn open_version<F: Files, A: Allocator + Copy>(
    alloc: A,
    files: &mut F,
    version: Version<'_>,
) -> Result<Replica<Blocks<A>>, FeedTrouble>
    ensures ok { IfOk result (λ r. IsVersion version.entry (F.shelf files.old) r.ops) }
    ensures counted { OnOk result ((F.shelf files.new).failures ≡ (F.shelf files.old).failures) }
    ensures err { IfErr result (IsUnversioned version.entry (F.shelf files.old) (F.shelf files.new)) }
    ensures stays { Stays (F.shelf files.old) (F.shelf files.new) }
{
    let mut ops = operations_of(alloc, files, version.feed)?;
    keep_until(&mut ops, version.until);
    Ok(Replica::open(alloc, ANY_SITE, &ops)?)
}

/// Opens the feed of a file with all its operations, as `open_version` does.
pub fn open_feed<F: Files, A: Allocator + Copy>(
    alloc: A,
    files: &mut F,
    name: &str,
) -> Result<Replica<Blocks<A>>, FeedTrouble>
    ensures ok { IfOk result (λ r. IsSetOf name.now (F.shelf files.old) r.ops) }
    ensures counted { OnOk result ((F.shelf files.new).failures ≡ (F.shelf files.old).failures) }
    ensures err { IfErr result (IsClosedBy name.now (F.shelf files.old) (F.shelf files.new)) }
    ensures stays { Stays (F.shelf files.old) (F.shelf files.new) }
{
    open_version(alloc, files, Version::whole(name))
}

/// The copy of a replica as text.
fn text_of<A: Allocator + Copy>(
    alloc: A,
    replica: &Replica<Blocks<A>>,
) -> Result<Vec<u8, A>, NoMemory>
    ensures { IfOk result (λ v. v.items ≡ text_bytes (copy_of replica.now.ops)) }
{
    let copy = replica.copy()?;
    write_text(alloc, &copy)
}

/// Writes the copy of a version of a stored feed as text with marks for its styles, as `text_copy` writes it, and
/// nothing else. The file must be there. Its name is not taken, and no file changes: a feed is stored by a rename, so
/// what is read is a whole feed. A refusal of the feed or of memory comes before anything is written.
pub fn export_feed<W: Write, F: Files, A: Allocator + Copy>(
    alloc: A,
    writer: &mut W,
    files: &mut F,
    version: Version<'_>,
) -> Result<(), ExportFault>
    ensures ok { OnOk result
        (IsExported version.entry (F.shelf files.old) (W.contents writer.old) (W.contents writer.new)) }
    ensures counted { OnOk result ((F.shelf files.new).failures ≡ (F.shelf files.old).failures) }
    ensures err { IfErr result
        (IsUnexported version.entry (F.shelf files.old) (F.shelf files.new) (W.contents writer.old)
        (W.contents writer.new)) }
    ensures stays { Stays (F.shelf files.old) (F.shelf files.new) }
{
    let replica = open_version(alloc, files, version)?;
    let text = text_of(alloc, &replica)?;
    Ok(write_out(writer, &text)?)
}
