//! The reading of a ribbon's file, written as text.

ghost use Rattle.std.specs.Prelude.{◌≡◌, IfErr, IfOk, OnOk};
ghost use Rattle.feed_files.specs.Files.{Stays};
ghost use Rattle.view_ribbon.specs.Reading.{IsRead, IsUnread};

use crate::extent::Extent;
use crate::fault::ReadingFault;
use crate::reported::reported_of;
use crate::sources::{Sources, take_in};
use feed_files::Files;
use feed_stored::write_out;
use script_answers::Memory;
use std::alloc::Allocator;
use std::io::Write;

/// Writes what the caster makes of a ribbon by a case and a wedge: its lines as `put_ribbon` writes them, or their
/// figures as `put_summary` does, or on one line the first fault, of the bytes or of the rows, as `put_ribbon_fault`
/// and `put_cast_fault` write it. It is true exactly where the ribbon was cast whole, and false where a fault was
/// written. The ribbon need not come from this program: any bytes have lines or a first fault. No name is taken, and no
/// file changes. A refusal of the ribbon's file, the case or the wedge, or of memory, comes before anything is written.
pub fn read_job<W: Write, F: Files, A: Allocator + Copy>(
    memory: Memory<A>,
    writer: &mut W,
    files: &mut F,
    from: &Sources<'_>,
    extent: Extent,
) -> Result<bool, ReadingFault>
    ensures ok { IfOk result
        (IsRead from.now extent (F.shelf files.old) (W.contents writer.old) (W.contents writer.new)) }
    ensures counted { OnOk result ((F.shelf files.new).failures ≡ (F.shelf files.old).failures) }
    ensures err { IfErr result
        (IsUnread from.now extent (F.shelf files.old) (F.shelf files.new) (W.contents writer.old)
        (W.contents writer.new)) }
    ensures stays { Stays (F.shelf files.old) (F.shelf files.new) }
{
    let (bytes, case, wedge) = take_in(memory, files, from)?;
    let (text, whole) = reported_of(memory.own, &bytes, &case, &wedge, extent)?;
    write_out(writer, text.as_bytes())?;
    Ok(whole)
}
