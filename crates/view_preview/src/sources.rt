//! What a preview is made of: a stored feed, a case and a wedge.

ghost use Rattle.std.specs.Prelude.{◌≡◌, IfErr, IfOk, OnOk};
ghost use Rattle.feed_files.specs.Files.{Stays};
ghost use Rattle.view_preview.specs.Sources.{AreRefused, Give};

use crate::fault::SourcesFault;
use desk_blocks::Blocks;
use desk_case::MatrixCase;
use desk_replica::Replica;
use desk_wedge::Wedge;
use feed_edit::{Version, open_version};
use feed_files::Files;
use script_answers::{Memory, both};
use std::alloc::Allocator;

/// What a preview is made of: a version of a stored feed, and the names of a case file and of a wedge file.
#[derive(Clone, Copy)]
pub struct Sources<'a> {
    pub version: Version<'a>,
    pub case: &'a str,
    pub wedge: &'a str,
}

/// Opens a version of a stored feed, and reads a case and a wedge. No name is taken, and no file changes. `NoMemory`
/// comes only where the device did not fail in the call, the feed was opened, and the case, where the wedge was read,
/// was not refused.
pub fn take_in<F: Files, A: Allocator + Copy>(
    memory: Memory<A>,
    files: &mut F,
    from: &Sources<'_>,
) -> Result<(Replica<Blocks<A>>, MatrixCase, Wedge), SourcesFault>
    ensures ok { IfOk result (λ t. Give from.now (F.shelf files.old) t.0.ops t.1 t.2) }
    ensures still { OnOk result (F.shelf files.new ≡ F.shelf files.old) }
    ensures err { IfErr result (AreRefused from.now (F.shelf files.old) (F.shelf files.new)) }
    ensures stays { Stays (F.shelf files.old) (F.shelf files.new) }
{
    let replica = open_version(memory.own, files, from.version)?;
    let (case, wedge) = both(memory, files, from.case, from.wedge)?;
    Ok((replica, case, wedge))
}
