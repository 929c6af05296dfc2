//! What is read for a list of sorts: a stored feed, and a case alone.

ghost use Rattle.std.specs.Prelude.{◌≡◌, IfErr, IfOk, OnOk};
ghost use Rattle.feed_files.specs.Files.{Stays};
ghost use Rattle.view_punch.specs.SortsSources.{AreRefused, Give};

use desk_blocks::Blocks;
use desk_case::MatrixCase;
use desk_replica::Replica;
use feed_edit::{Version, open_version};
use feed_files::Files;
use script_answers::{Memory, case_in};
use std::alloc::Allocator;
use view_preview::SourcesFault;

/// Opens a version of a stored feed, and reads a case. No name is taken, and no file changes. `NoMemory` comes only
/// where the device did not fail in the call and the feed was opened.
pub fn take_in<F: Files, A: Allocator + Copy>(
    memory: Memory<A>,
    files: &mut F,
    version: Version<'_>,
    case: &str,
) -> Result<(Replica<Blocks<A>>, MatrixCase), SourcesFault>
    ensures ok { IfOk result (λ t. Give version.entry case.now (F.shelf files.old) t.0.ops t.1) }
    ensures still { OnOk result (F.shelf files.new ≡ F.shelf files.old) }
    ensures err { IfErr result (AreRefused version.entry case.now (F.shelf files.old) (F.shelf files.new)) }
    ensures stays { Stays (F.shelf files.old) (F.shelf files.new) }
{
    let replica = open_version(memory.own, files, version)?;
    let case = case_in(memory, files, case)?;
    Ok((replica, case))
}
