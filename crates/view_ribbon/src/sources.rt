//! What a reading is made of: a ribbon, a case and a wedge.

ghost use Rattle.std.specs.Prelude.{◌≡◌, IfErr, IfOk, OnOk};
ghost use Rattle.feed_files.specs.Files.{Stays};
ghost use Rattle.view_ribbon.specs.Sources.{AreRefused, Give};

use crate::fault::SourcesFault;
use desk_case::MatrixCase;
use desk_wedge::Wedge;
use feed_files::Files;
use script_answers::{Memory, both};
use std::alloc::Allocator;

/// What a reading is made of: the names of a ribbon, of a case file and of a wedge file.
#[derive(Clone, Copy)]
pub struct Sources<'a> {
    pub ribbon: &'a str,
    pub case: &'a str,
    pub wedge: &'a str,
}

/// Reads the bytes of a ribbon, then a case and then a wedge, each by the name of its file. Each file is read whole:
/// one of more than `MAX_FILE` bytes is refused. Whether the bytes are a ribbon is not asked here. No name is taken,
/// and no file changes. Out of memory comes only where the device did not fail in the call and no file that was read
/// was refused.
pub fn take_in<F: Files, A: Allocator + Copy>(
    memory: Memory<A>,
    files: &mut F,
    from: &Sources<'_>,
) -> Result<(Vec<u8, A>, MatrixCase, Wedge), SourcesFault>
    ensures ok { IfOk result (λ t. Give from.now (F.shelf files.old) t.0.items t.1 t.2) }
    ensures still { OnOk result (F.shelf files.new ≡ F.shelf files.old) }
    ensures err { IfErr result (AreRefused from.now (F.shelf files.old) (F.shelf files.new)) }
    ensures stays { Stays (F.shelf files.old) (F.shelf files.new) }
{
    let bytes = files.read(memory.own, from.ribbon)?;
    let (case, wedge) = both(memory, files, from.case, from.wedge)?;
    Ok((bytes, case, wedge))
}
