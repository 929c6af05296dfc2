//! The sorts of a stored feed's copy by a case, written as text.

ghost use Rattle.std.specs.Prelude.{◌≡◌, IfErr, IfOk, OnOk, string_bytes};
ghost use Rattle.feed_files.specs.Files.{Stays};
ghost use Rattle.desk_ops.specs.Shown.{copy_of};
ghost use Rattle.view_punch.specs.Reporting.{AreListed, AreUnlisted};
ghost use Rattle.view_punch.specs.Reported.{IsReportedOf};

use crate::reported::reported_of;
use crate::sorts_sources::take_in;
use desk_blocks::Blocks;
use desk_case::MatrixCase;
use desk_memory::NoMemory;
use desk_replica::Replica;
use feed_edit::Version;
use feed_files::Files;
use feed_stored::write_out;
use script_answers::Memory;
use std::alloc::Allocator;
use std::io::Write;
use view_preview::PreviewFault;

/// What is reported of the copy of a replica.
fn reported_of_replica<A: Allocator + Copy>(
    alloc: A,
    replica: &Replica<Blocks<A>>,
    case: &MatrixCase,
    layout: bool,
) -> Result<(String<A>, bool), NoMemory>
    ensures { IfOk result (λ t. IsReportedOf (copy_of replica.now.ops) case.now layout (string_bytes t.0) t.1) }
{
    let copy = replica.copy()?;
    reported_of(alloc, &copy, case, layout)
}

/// Writes which sorts the copy of a version of a stored feed needs by a case, as `sorts_of` has them: how many there
/// are, and how many matrices are cast for them; those that the case lacks, each with all its places; and all with
/// their cells. With `layout` a table of what the case holds comes after. Fills are not counted: how many a line takes
/// depends on the lines that are set. It is true exactly where the case lacks no sort. No name is taken, and no file
/// changes. A refusal of the feed or of the case, or of memory, comes before anything is written.
pub fn report_sorts<W: Write, F: Files, A: Allocator + Copy>(
    memory: Memory<A>,
    writer: &mut W,
    files: &mut F,
    version: Version<'_>,
    case: &str,
    layout: bool,
) -> Result<bool, PreviewFault>
    ensures ok { IfOk result
        (AreListed version.entry case.now layout (F.shelf files.old) (W.contents writer.old)
        (W.contents writer.new)) }
    ensures counted { OnOk result ((F.shelf files.new).failures ≡ (F.shelf files.old).failures) }
    ensures err { IfErr result
        (AreUnlisted version.entry case.now layout (F.shelf files.old) (F.shelf files.new) (W.contents writer.old)
        (W.contents writer.new)) }
    ensures stays { Stays (F.shelf files.old) (F.shelf files.new) }
{
    let (replica, case) = take_in(memory, files, version, case)?;
    let (text, complete) = reported_of_replica(memory.own, &replica, &case, layout)?;
    write_out(writer, text.as_bytes())?;
    Ok(complete)
}
