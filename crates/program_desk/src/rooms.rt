//! What the words of the command line ask for in a room, whose file gives options that need not be typed.

ghost use Rattle.std.specs.Prelude.{◌≡◌, ◌≤◌, ◌⊎◌, ℕ, Bool, List, IfErr, IfOk, Ok, map, string_bytes};
ghost use Rattle.clap.specs.Words.{Text};
ghost use Rattle.feed_files.specs.Files.{Stays};
ghost use Rattle.feed_check.specs.Room.{IsRoom};
ghost use Rattle.feed_check.specs.declared.room.RoomFile.TheVariants as rooms;
ghost use Rattle.program_desk.specs.Completed.{completed};
ghost use Rattle.program_desk.specs.Rooms.{AreAll, IsFilled, IsRefused, TellsNoMemory, TellsWrong, all_or};
ghost use Rattle.program_desk.specs.Rooms.{refused_lines};
ghost use Rattle.program_desk.specs.Runs.{IsRun, IsStopped};
ghost use Rattle.program_desk.specs.Told.{IsShown, Tells};
ghost use Rattle.program_words.specs.Words.{AsksHelp, AsksNothing};

use crate::causes::file_cause;
use crate::completing::{completed, wants_room};
use crate::explained::tell_name;
use crate::reporting::{out_of_memory, stopped};
use crate::runs::program;
use crate::told::{Ending, silent, tell_more};
use feed_check::{ROOM_FILE, RoomFile, room_of};
use feed_files::{FileRefusal, Files};
use program_host::Explains;
use std::alloc::Global;
use std::io::{Read, Write};

/// Writes what is wrong with a room's file, and gives the status of it.
fn refused_room<E: Write>(alloc: Global, faults: &mut E, words: &str) -> Ending
    ensures status { result.status ≡ 1 }
    ensures told { (shown : List ℕ) × IsShown words.now shown
        × Tells result.told.is_whole (E.contents faults.old) (E.contents faults.new) (refused_lines shown) }
{
    let head = tell_more(
        faults,
        silent(),
        b"copydesk: input refused\ncopydesk.toml: ",
    );
    let named = tell_name(alloc, faults, head, words);
    Ending {
        status: 1,
        told: tell_more(faults, named, b"\n"),
    }
}

/// The words with what the bytes of a room's file give, or how the run ends that has none.
fn filled_by<E: Write>(
    alloc: Global,
    bytes: &[u8],
    words: &[String],
    faults: &mut E,
) -> Result<Option<Vec<String>>, Ending>
    ensures ok { IfOk result
        (λ o. IsFilled (Ok bytes.now) (map string_bytes words.now) (all_or (map string_bytes words.now) o)
        × (faults.new ≡ faults.old)) }
    ensures err { IfErr result (λ e. (e.status ≡ 1)
        × (TellsWrong bytes.now e.told.is_whole (E.contents faults.old) (E.contents faults.new)
        ⊎ TellsNoMemory e.told.is_whole (E.contents faults.old) (E.contents faults.new))) }
{
    match room_of(alloc, bytes) {
        Ok(RoomFile::Taken(options)) => match completed(alloc, &options, words) {
            Ok(all) => Ok(Some(all)),
            Err(_) => Err(out_of_memory(faults)),
        },
        Ok(RoomFile::Refused(why)) => Err(refused_room(alloc, faults, &why)),
        Err(_) => Err(out_of_memory(faults)),
    }
}

/// The words with what the file of the room gives, where they want something of it and it is there; or how the run ends
/// where that is refused.
fn filled<E: Write, F: Files + Explains>(
    alloc: Global,
    words: &[String],
    faults: &mut E,
    files: &mut F,
) -> Result<Option<Vec<String>>, Ending>
    ensures ok { IfOk result
        (λ o. AreAll (F.shelf files.old) (map string_bytes words.now) (all_or (map string_bytes words.now) o)
        × (F.shelf files.new ≡ F.shelf files.old) × (faults.new ≡ faults.old)) }
    ensures err { IfErr result (λ e. (e.status ≡ 1)
        × IsRefused (F.shelf files.old) (F.shelf files.new) e.told.is_whole (E.contents faults.old)
        (E.contents faults.new)) }
{
    if !wants_room(words) {
        return Ok(None);
    }
    match files.read(alloc, ROOM_FILE) {
        Ok(bytes) => filled_by(alloc, &bytes, words, faults),
        Err(why) => {
            if why == FileRefusal::Missing {
                return Ok(None);
            }
            let cause = file_cause(ROOM_FILE, why);
            Err(stopped(alloc, faults, files, true, cause))
        }
    }
}

/// Does what the words ask for, with the options that the file of the room gives, `copydesk.toml` in the current
/// folder: those that a subcommand requires and the words do not give, and settings to be tried before those that the
/// words give. The status is that of `program` on all these words; 1 also where the file is refused or cannot be read.
pub fn program_in_room<R: Read, W: Write, E: Write, F: Files + Explains>(
    alloc: Global,
    words: &[String],
    reader: &mut R,
    writer: &mut W,
    faults: &mut E,
    files: &mut F,
) -> u8
    ensures status { result ≤ 2 }
    ensures done { result ≡ 0
        → (all : List Text) × AreAll (F.shelf files.old) (map string_bytes words.now) all
        × (IsRun (F.shelf files.old) (F.shelf files.new) all (R.remaining reader.old) (W.contents writer.old)
        (W.contents writer.new)
        ⊎ (AsksHelp all × (reader.new ≡ reader.old) × Stays (F.shelf files.old) (F.shelf files.new))) }
    ensures stopped { result ≡ 1
        → ((all : List Text) × AreAll (F.shelf files.old) (map string_bytes words.now) all
        × IsStopped (F.shelf files.old) (F.shelf files.new) all (R.remaining reader.old) (W.contents writer.old)
        (W.contents writer.new) (E.contents faults.old) (E.contents faults.new))
        ⊎ ((reader.new ≡ reader.old) × (writer.new ≡ writer.old) × (whole : Bool)
        × IsRefused (F.shelf files.old) (F.shelf files.new) whole (E.contents faults.old) (E.contents faults.new)) }
    ensures refused { result ≡ 2
        → (all : List Text) × AreAll (F.shelf files.old) (map string_bytes words.now) all × AsksNothing all
        × (reader.new ≡ reader.old) × (writer.new ≡ writer.old) × Stays (F.shelf files.old) (F.shelf files.new) }
{
    match filled(alloc, words, faults, files) {
        Ok(Some(all)) => program(alloc, &all, reader, writer, faults, files),
        Ok(None) => program(alloc, words, reader, writer, faults, files),
        Err(ending) => ending.status,
    }
}
