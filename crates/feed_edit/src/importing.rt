//! The copy of a stored feed, made a text that is read.

ghost use Rattle.std.specs.Prelude.{◌≡◌, ◌≤◌, ◌⊎◌, IfErr, IfOk, OnOk, false};
ghost use Rattle.feed_files.specs.Files.{IsHeldAlone, Stays};
ghost use Rattle.text_copy.specs.Laws.{AreLawful};
ghost use Rattle.feed_edit.specs.Editing.{IsRevised};
ghost use Rattle.feed_edit.specs.Importing.{IsImported, IsLeft, IsNoText, IsReadAs, IsReadOut, IsSpared, IsUnimported};
ghost use Rattle.feed_edit.specs.Importing.{IsUnspared, LeavesOff, RefusesText, SparesCopy, TakesText, is_wiped};

use crate::editing::{Tally, revise};
use crate::fault::{ImportFault, InputFault};
use crate::keeping::{Origin, report_and_keep};
use crate::merging::take_feed;
use crate::room::Room;
use desk_blocks::Blocks;
use desk_ops::Symbol;
use desk_replica::Replica;
use feed_files::{Files, read_whole};
use feed_stored::{let_in, mark};
use std::alloc::Allocator;
use std::io::{Read, Write};
use text_copy::read_text;

/// The most bytes of a text: eight for each symbol that a copy may have.
pub const MAX_TEXT: usize = 8_388_608;

/// How a text is imported.
#[derive(Clone, Copy, Debug, PartialEq, Eq)]
pub struct ImportMode {
    /// The text has no marks for its styles.
    pub plain: bool,
    /// All of the copy may be deleted.
    pub all: bool,
}

/// The copy that all that a reader has left is.
fn text_from<R: Read, A: Allocator + Copy>(
    alloc: A,
    reader: &mut R,
    plain: bool,
) -> Result<Vec<Symbol, A>, InputFault>
    ensures ok { IfOk result (λ v. IsReadAs plain (R.remaining reader.old) v.items) }
    ensures lawful { IfOk result (λ v. AreLawful v.items) }
    ensures err { IfErr result (IsNoText plain (R.remaining reader.old)) }
    ensures end { OnOk result (IsReadOut (R.remaining reader.old) (R.remaining reader.new)) }
    ensures left { IfErr result (IsLeft (R.remaining reader.old) (R.remaining reader.new)) }
{
    let bytes = read_whole(alloc, reader, MAX_TEXT)?;
    Ok(read_text(alloc, &bytes, plain)?)
}

/// Whether a copy of so many symbols is wiped: it has some and the text none; or it has 200 or more, and more than half
/// of them are deleted.
fn is_wiped(of: usize, text: &[Symbol], deleted: usize) -> bool
    ensures { result ≡ is_wiped of text.now deleted }
{
    (of > 0 && text.is_empty()) || (of >= 200 && deleted > of / 2)
}

/// Makes the copy of a replica a text. Unless all may be deleted, not most of the copy is; else the replica is to be
/// dropped.
fn revise_spared<A: Allocator + Copy>(
    alloc: A,
    replica: &mut Replica<Blocks<A>>,
    text: &[Symbol],
    all: bool,
) -> Result<Tally, ImportFault>
    requires { AreLawful text.now }
    ensures site { replica.new.site ≡ replica.old.site }
    ensures ok { IfOk result
        (λ t. IsRevised replica.old.site replica.old.ops replica.new.ops text.now t.inserted t.deleted) }
    ensures spared { IfOk result (λ t. IsSpared all replica.old.ops text.now t.deleted) }
    ensures err { IfErr result (IsUnspared replica.old.site all replica.old.ops text.now) }
{
    let of = replica.copy_len();
    let tally = revise(alloc, replica, text)?;
    let deleted = tally.deleted;
    if !all && is_wiped(of, text, deleted) {
        return Err(ImportFault::Wipes { deleted, of });
    }
    Ok(tally)
}

/// Makes the copy of a replica all that a reader has left. Unless all may be deleted, not most of the copy is.
fn take_text<R: Read, A: Allocator + Copy>(
    alloc: A,
    replica: &mut Replica<Blocks<A>>,
    reader: &mut R,
    plain: bool,
    all: bool,
) -> Result<Tally, ImportFault>
    ensures site { replica.new.site ≡ replica.old.site }
    ensures ok { IfOk result
        (λ t. TakesText replica.old.site plain all
        (R.remaining reader.old) replica.old.ops replica.new.ops t.inserted t.deleted) }
    ensures err { IfErr result (RefusesText replica.old.site plain all (R.remaining reader.old) replica.old.ops) }
    ensures end { OnOk result (IsReadOut (R.remaining reader.old) (R.remaining reader.new)) }
    ensures left { IfErr result (LeavesOff (R.remaining reader.old) (R.remaining reader.new)) }
{
    let text = text_from(alloc, reader, plain)?;
    revise_spared(alloc, replica, &text, all)
}

/// Makes the copy of a stored feed the text that a reader has left, whole: with marks for its styles as `text_copy`
/// reads it, or plain. The name of the feed is taken first and for this run alone; a missing one holds nothing. Each
/// change is an operation of the site, and no other is made; nothing that the feed held is lost. The line `ok inserted
/// 12 deleted 7` is written, and then the feed is stored, unless the file has these bytes. `Input` has the first fault
/// of the text, that it has more than `MAX_TEXT` bytes, or that the reader or memory failed, and `Revision` that the
/// feed would have more operations than a replica holds or counters above the greatest, or that memory ran out. `Wipes`
/// comes unless all may be deleted: the text is empty and the copy is not, or the copy has 200 symbols or more, and
/// more than half of them would be deleted. `Last` comes unless an older feed is wanted: the feed holds less of the
/// site than FEED.last says that it made here; then nothing is read. Until the line is written no file has changed, and
/// where the feed is not stored none but `name.new`. Once it is stored FEED.last has the greatest counter of the site;
/// where that cannot be written it stays.
pub fn import_text<R: Read, W: Write, F: Files, A: Allocator + Copy>(
    alloc: A,
    reader: &mut R,
    writer: &mut W,
    files: &mut F,
    room: Room<'_>,
    mode: ImportMode,
) -> Result<(), ImportFault>
    requires { 1 ≤ room.site }
    ensures ok { OnOk result
        (IsImported room.entry mode (F.shelf files.old) (F.shelf files.new) (R.remaining reader.old)
        (W.contents writer.old) (W.contents writer.new)) }
    ensures spared { mode.all ≡ false
        → OnOk result (SparesCopy room.entry.feed.now mode.plain (F.shelf files.old) (R.remaining reader.old)
        (W.contents writer.old) (W.contents writer.new)) }
    ensures err { IfErr result
        (IsUnimported room.entry mode (F.shelf files.old) (F.shelf files.new) (R.remaining reader.old)
        (W.contents writer.old) (W.contents writer.new)) }
    ensures held { IsHeldAlone room.entry.feed.now (F.shelf files.old) (F.shelf files.new)
        ⊎ ((reader.new ≡ reader.old) × (writer.new ≡ writer.old) × Stays (F.shelf files.old) (F.shelf files.new)) }
    ensures end { OnOk result (IsReadOut (R.remaining reader.old) (R.remaining reader.new)) }
    ensures left { IfErr result (LeavesOff (R.remaining reader.old) (R.remaining reader.new)) }
{
    let name = room.feed;
    let (old, mut replica) = take_feed(alloc, files, name, room.site)?;
    let_in(alloc, files, name, &old, &replica, room.older)?;
    let tally = take_text(alloc, &mut replica, reader, mode.plain, mode.all)?;
    let origin = Origin { name, old: &old };
    report_and_keep(alloc, &replica, tally, writer, files, origin)?;
    mark(alloc, files, name, &replica);
    Ok(())
}
