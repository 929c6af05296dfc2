//! What was done is written, and the feed of a replica stored.

ghost use Rattle.std.specs.Prelude.{◌≡◌, IfErr, IfOk, OnOk, string_bytes};
ghost use Rattle.feed_files.specs.Files.{HoldsOn};
ghost use Rattle.feed_stored.specs.Stored.{was_read};
ghost use Rattle.feed_edit.specs.Keeping.{IsKept, IsUnkept, edited_line};

use crate::editing::Tally;
use crate::fault::KeepFault;
use desk_blocks::Blocks;
use desk_memory::NoMemory;
use desk_replica::Replica;
use feed_files::Files;
use feed_stored::{keep_replica, write_out};
use std::alloc::Allocator;
use std::io::Write;

/// Where a feed was read: under a name, and these bytes; none where no file was there.
#[derive(Clone, Copy)]
pub struct Origin<'a, A: Allocator> {
    pub name: &'a str,
    pub old: &'a Option<Vec<u8, A>>,
}

/// The line of what was inserted and deleted.
fn edited_line<A: Allocator + Copy>(alloc: A, tally: Tally) -> Result<String<A>, NoMemory>
    ensures { IfOk result (λ s. string_bytes s ≡ edited_line tally.inserted tally.deleted) }
{
    let Tally { inserted, deleted } = tally;
    let mut out = String::new(alloc);
    out.push_str("ok inserted ")?;
    write!(out, "{inserted}")?;
    out.push_str(" deleted ")?;
    write!(out, "{deleted}")?;
    out.push_str("\n")?;
    Ok(out)
}

/// Writes a text, and then stores the feed of a replica, unless it is what was stored.
pub fn write_and_keep<W: Write, F: Files, A: Allocator + Copy>(
    alloc: A,
    replica: &Replica<Blocks<A>>,
    text: &[u8],
    writer: &mut W,
    files: &mut F,
    origin: Origin<'_, A>,
) -> Result<(), KeepFault>
    ensures ok { OnOk result
        (IsKept origin.entry.name.now replica.now.ops text.now (was_read origin.entry.old.now) (F.shelf files.old)
        (F.shelf files.new) (W.contents writer.old) (W.contents writer.new)) }
    ensures err { IfErr result
        (IsUnkept origin.entry.name.now text.now (F.shelf files.old) (F.shelf files.new) (W.contents writer.old)
        (W.contents writer.new)) }
    ensures held { HoldsOn (F.shelf files.old).held (F.shelf files.new).held }
{
    write_out(writer, text)?;
    Ok(keep_replica(alloc, replica, files, origin.name, origin.old)?)
}

/// Writes the line of what was inserted and deleted, and stores the feed of a replica.
pub fn report_and_keep<W: Write, F: Files, A: Allocator + Copy>(
    alloc: A,
    replica: &Replica<Blocks<A>>,
    tally: Tally,
    writer: &mut W,
    files: &mut F,
    origin: Origin<'_, A>,
) -> Result<(), KeepFault>
    ensures ok { OnOk result
        (IsKept origin.entry.name.now replica.now.ops (edited_line tally.inserted tally.deleted)
        (was_read origin.entry.old.now) (F.shelf files.old) (F.shelf files.new) (W.contents writer.old)
        (W.contents writer.new)) }
    ensures err { IfErr result
        (IsUnkept origin.entry.name.now (edited_line tally.inserted tally.deleted) (F.shelf files.old)
        (F.shelf files.new) (W.contents writer.old) (W.contents writer.new)) }
    ensures held { HoldsOn (F.shelf files.old).held (F.shelf files.new).held }
{
    let line = edited_line(alloc, tally)?;
    write_and_keep(alloc, replica, line.as_bytes(), writer, files, origin)
}
