//! The text of a file, read as a copy.

ghost use Rattle.std.specs.Prelude.{◌≡◌, IfErr, IfOk, OnOk};
ghost use Rattle.feed_files.specs.Files.{Stays};
ghost use Rattle.view_preview.specs.Texts.{IsNoText, IsTextOf};

use crate::fault::SourcesFault;
use desk_held::LIMIT;
use desk_ops::Symbol;
use feed_edit::MAX_TEXT;
use feed_files::Files;
use std::alloc::Allocator;
use text_copy::read_text;

/// The text of a file, at most 8,388,608 bytes, and the copy that it is, at most 1,048,576 symbols: with marks for its
/// styles, or plain. No file changes. `NoMemory` comes only where the file was read.
pub fn text_in<F: Files, A: Allocator + Copy>(
    alloc: A,
    files: &mut F,
    name: &str,
    plain: bool,
) -> Result<(Vec<u8, A>, Vec<Symbol, A>), SourcesFault>
    ensures ok { IfOk result (λ t. IsTextOf plain name.now (F.shelf files.old) t.0.items t.1.items) }
    ensures still { OnOk result (F.shelf files.new ≡ F.shelf files.old) }
    ensures err { IfErr result (IsNoText plain name.now (F.shelf files.old) (F.shelf files.new)) }
    ensures stays { Stays (F.shelf files.old) (F.shelf files.new) }
{
    let text = files.read(alloc, name)?;
    if text.len() > MAX_TEXT {
        return Err(SourcesFault::TooLong);
    }
    let copy = read_text(alloc, &text, plain)?;
    if copy.len() > LIMIT {
        return Err(SourcesFault::TooLong);
    }
    Ok((text, copy))
}
