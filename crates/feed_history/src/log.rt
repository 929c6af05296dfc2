//! The log of a stored feed, written as text.

ghost use Rattle.std.specs.Prelude.{◌≡◌, IfErr, IfOk, OnOk};
ghost use Rattle.feed_files.specs.Files.{Stays};
ghost use Rattle.feed_history.specs.Log.{IsLogged, IsUnlogged, log_bytes};

use crate::asked::{Asked, asked_lines};
use crate::line_parts::History;
use crate::spots::spots_of;
use desk_blocks::Blocks;
use desk_memory::NoMemory;
use desk_replica::Replica;
use feed_edit::{ExportFault, open_feed};
use feed_files::Files;
use feed_stored::write_out;
use std::alloc::Allocator;
use std::io::Write;

/// The log of a replica.
fn log_of<A: Allocator + Copy>(
    alloc: A,
    replica: &Replica<Blocks<A>>,
    asked: &Asked<'_>,
) -> Result<Vec<u8, A>, NoMemory>
    ensures { IfOk result (λ v. v.items ≡ log_bytes asked.now replica.now.ops) }
{
    let ops = replica.in_order()?;
    let faults = replica.copy_faults()?;
    let spots = spots_of(alloc, replica.sequence())?;
    let history = History {
        ops: &ops,
        spots: &spots,
        faults: &faults,
    };
    asked_lines(alloc, &history, asked)
}

/// Writes the log of a stored feed: a line for each correction that is asked for, newest last, as `11.1..20.1 at 9 + "
/// by noon."`. The file must be there. Its name is not taken, and no file changes: a feed is stored by a rename, so
/// what is read is a whole feed. A refusal of the feed or of memory comes before anything is written.
pub fn report_log<W: Write, F: Files, A: Allocator + Copy>(
    alloc: A,
    writer: &mut W,
    files: &mut F,
    name: &str,
    asked: &Asked<'_>,
) -> Result<(), ExportFault>
    ensures ok { OnOk result
        (IsLogged asked.now name.now (F.shelf files.old) (W.contents writer.old) (W.contents writer.new)) }
    ensures counted { OnOk result ((F.shelf files.new).failures ≡ (F.shelf files.old).failures) }
    ensures err { IfErr result
        (IsUnlogged asked.now name.now (F.shelf files.old) (F.shelf files.new) (W.contents writer.old)
        (W.contents writer.new)) }
    ensures stays { Stays (F.shelf files.old) (F.shelf files.new) }
{
    let replica = open_feed(alloc, files, name)?;
    let text = log_of(alloc, &replica, asked)?;
    Ok(write_out(writer, &text)?)
}
