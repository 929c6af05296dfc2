//! The picture of a ribbon's file, stored under a name.

ghost use Rattle.std.specs.Prelude.{◌≡◌, IfErr, IfOk, MatchOption, OnOk, string_bytes};
ghost use Rattle.feed_files.specs.Files.{HoldsOn};
ghost use Rattle.feed_files.specs.Outputs.{destination};
ghost use Rattle.view_ribbon.specs.Drawing.{IsDrawn, IsNoRibbon, IsPicture, IsUndrawn, of_output};
ghost use Rattle.view_ribbon.specs.Picture.{picture_text};

use crate::extent::Lines;
use crate::picture::put_holes;
use crate::{ReadingFault, Sources, take_in};
use desk_case::MatrixCase;
use desk_caster::{RibbonFault, read_ribbon};
use desk_memory::NoMemory;
use desk_signals::RibbonRow;
use feed_files::{Files, Kind, OutputFault, Target, store_over};
use script_answers::Memory;
use std::alloc::Allocator;

/// The picture of rows, or of those of lines.
fn picture_of<A: Allocator + Copy>(
    alloc: A,
    lines: Option<Lines>,
    rows: &[RibbonRow],
    case: &MatrixCase,
) -> Result<String<A>, NoMemory>
    ensures { IfOk result (λ s. string_bytes s ≡ picture_text lines rows.now case.now) }
{
    let mut out = String::new(alloc);
    put_holes(&mut out, lines, rows, case)?;
    Ok(out)
}

/// The picture of a ribbon's bytes, if they are one.
fn drawn<A: Allocator + Copy>(
    alloc: A,
    lines: Option<Lines>,
    bytes: &[u8],
    case: &MatrixCase,
) -> Result<Option<String<A>>, NoMemory>
    ensures { IfOk result
        (λ o. MatchOption o (IsNoRibbon bytes.now) (λ s. IsPicture lines bytes.now case.now (string_bytes s))) }
{
    match read_ribbon(alloc, bytes) {
        Ok(rows) => Ok(Some(picture_of(alloc, lines, &rows, case)?)),
        Err(RibbonFault::NoMemory) => Err(NoMemory),
        Err(_) => Ok(None),
    }
}

/// What a picture that is not stored is for a drawing.
fn of_output(why: OutputFault) -> ReadingFault
    ensures { result ≡ of_output why }
{
    match why {
        OutputFault::Taken(kind) => ReadingFault::Taken(kind),
        OutputFault::File(why) => ReadingFault::Unstored(why),
    }
}

/// Draws a ribbon, or the rows of these lines of it, by a case as `put_holes` does, and stores the picture under the
/// name of a target. It is true exactly where it did so, and false where the file's bytes are no ribbon: then no file
/// changes, and `read_job` reports why. Rows that the caster would not cast are drawn too. The wedge is read, so that
/// the refusals are those of `read_job`, and not used. No name is taken. Where a file that is no picture stands under
/// the target, which is not forced, the fault is `Taken`, and no file changes. A target that is forced, and is the
/// ribbon, the case or the wedge, is replaced as any other; where the picture is not stored none but `target.new` may
/// have changed.
pub fn draw_ribbon<F: Files, A: Allocator + Copy>(
    memory: Memory<A>,
    files: &mut F,
    from: &Sources<'_>,
    lines: Option<Lines>,
    target: &Target<'_>,
) -> Result<bool, ReadingFault>
    ensures ok { IfOk result
        (IsDrawn from.now lines (destination target.now.name.now target.now.force) (F.shelf files.old)
        (F.shelf files.new)) }
    ensures counted { OnOk result ((F.shelf files.new).failures ≡ (F.shelf files.old).failures) }
    ensures err { IfErr result
        (IsUndrawn from.now lines (destination target.now.name.now target.now.force) (F.shelf files.old)
        (F.shelf files.new)) }
    ensures held { HoldsOn (F.shelf files.old).held (F.shelf files.new).held }
{
    let (bytes, case, _) = take_in(memory, files, from)?;
    let Some(picture) = drawn(memory.own, lines, &bytes, &case)? else {
        return Ok(false);
    };
    match store_over(memory.own, files, target, picture.as_bytes(), Kind::Picture) {
        Ok(()) => Ok(true),
        Err(why) => Err(of_output(why)),
    }
}
