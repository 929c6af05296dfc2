//! Commands carried out, each answered at once, or as a sheet.

ghost use Rattle.std.specs.Prelude.{◌≡◌, ◌≤◌, ◌||◌, MatchResult};
ghost use Rattle.program_desk.specs.Causes.{room_cause, stop_cause};
ghost use Rattle.program_desk.specs.Explained.{TellsOf};
ghost use Rattle.program_desk.specs.Sheets.{IsOffDesk, IsOnDesk, IsScripted, IsUnscripted, TellsRun, TellsSheet};
ghost use Rattle.program_desk.specs.Sheets.{is_older, is_older_sheet, is_sheet, mode_of};

use crate::causes::{desk_cause, room_cause, stop_cause};
use crate::reporting::stopped;
use crate::told::{Ending, ended};
use desk_script::{
    Memory, Mode, Room, RoomFault, RunFault, SheetFault, run, run_in_room, run_sheet,
    run_sheet_on_feed,
};
use feed_files::Files;
use program_host::Explains;
use program_words::Manner;
use std::alloc::Global;
use std::io::{Read, Write};

/// A run of commands on a stored feed.
#[derive(Clone, Copy)]
pub struct Desk<'a> {
    pub room: Room<'a>,
    /// A second line says why the run stopped.
    pub why: bool,
    pub manner: Manner,
}

/// Whether the commands are read to their end before the first is carried out.
fn is_sheet(manner: Manner) -> bool
    ensures { result ≡ is_sheet manner }
{
    manner.strict || manner.number
}

/// How a sheet is answered.
fn mode_of(manner: Manner) -> Mode
    ensures { result ≡ mode_of manner }
{
    Mode {
        strict: manner.strict,
        number: manner.number,
    }
}

/// How a run of a script ended.
fn run_ending<E: Write, F: Explains>(
    alloc: Global,
    faults: &mut E,
    files: &F,
    outcome: Result<(), RunFault>,
) -> Ending
    ensures { MatchResult outcome (λ _. result.status ≡ 0)
        (λ fault. (result.status ≡ 1)
        × TellsRun fault result.told.is_whole (E.contents faults.old) (E.contents faults.new)) }
{
    match outcome {
        Ok(()) => ended(0),
        Err(fault) => stopped(alloc, faults, files, false, desk_cause("", fault)),
    }
}

/// How a sheet ended.
fn sheet_ending<E: Write, F: Explains>(
    alloc: Global,
    faults: &mut E,
    files: &F,
    outcome: Result<(), SheetFault>,
) -> Ending
    ensures { MatchResult outcome (λ _. result.status ≡ 0)
        (λ fault. (result.status ≡ 1)
        × TellsSheet fault result.told.is_whole (E.contents faults.old) (E.contents faults.new)) }
{
    match outcome {
        Ok(()) => ended(0),
        Err(fault) => stopped(alloc, faults, files, false, stop_cause("", 0, fault)),
    }
}

/// Whether a second line is written: where it is asked why, or the feed is older than what was made in this room.
fn is_explained(why: bool, fault: RoomFault) -> bool
    ensures { result ≡ (why || is_older fault) }
{
    match fault {
        RoomFault::Older { .. } => true,
        RoomFault::Run(_) => why,
    }
}

/// Whether it is of a sheet.
fn is_explained_sheet(why: bool, fault: SheetFault) -> bool
    ensures { result ≡ (why || is_older_sheet fault) }
{
    match fault {
        SheetFault::Older { .. } => true,
        SheetFault::Line(_) | SheetFault::Run(_) => why,
    }
}

/// How a run on a feed ended.
fn room_ending<E: Write, F: Explains>(
    alloc: Global,
    faults: &mut E,
    files: &F,
    room: Room<'_>,
    why: bool,
    outcome: Result<(), RoomFault>,
) -> Ending
    ensures { MatchResult outcome (λ _. result.status ≡ 0)
        (λ fault. (result.status ≡ 1)
        × TellsOf (why || is_older fault) (room_cause room.entry.feed room.entry.site fault) result.told.is_whole
        (E.contents faults.old) (E.contents faults.new)) }
{
    match outcome {
        Ok(()) => ended(0),
        Err(fault) => {
            let Room { feed, site, .. } = room;
            let asked = is_explained(why, fault);
            stopped(alloc, faults, files, asked, room_cause(feed, site, fault))
        }
    }
}

/// How a sheet on a feed ended.
fn stored_ending<E: Write, F: Explains>(
    alloc: Global,
    faults: &mut E,
    files: &F,
    room: Room<'_>,
    why: bool,
    outcome: Result<(), SheetFault>,
) -> Ending
    ensures { MatchResult outcome (λ _. result.status ≡ 0)
        (λ fault. (result.status ≡ 1)
        × TellsOf (why || is_older_sheet fault) (stop_cause room.entry.feed room.entry.site fault)
        result.told.is_whole (E.contents faults.old) (E.contents faults.new)) }
{
    match outcome {
        Ok(()) => ended(0),
        Err(fault) => {
            let Room { feed, site, .. } = room;
            let asked = is_explained_sheet(why, fault);
            stopped(alloc, faults, files, asked, stop_cause(feed, site, fault))
        }
    }
}

/// Carries out a script, and says how it ended.
pub fn scripted<R: Read, W: Write, E: Write, F: Files + Explains>(
    alloc: Global,
    manner: Manner,
    reader: &mut R,
    writer: &mut W,
    faults: &mut E,
    files: &mut F,
) -> Ending
    ensures within { result.status ≤ 1 }
    ensures done { result.status ≡ 0
        → IsScripted manner (F.shelf files.old) (F.shelf files.new) (R.remaining reader.old) (W.contents writer.old)
        (W.contents writer.new) }
    ensures stopped { result.status ≡ 1
        → IsUnscripted manner (F.shelf files.old) (F.shelf files.new) (R.remaining reader.old) (W.contents writer.old)
        (W.contents writer.new) result.told.is_whole (E.contents faults.old) (E.contents faults.new) }
{
    if is_sheet(manner) {
        let mode = mode_of(manner);
        let outcome = run_sheet(alloc, alloc, mode, reader, writer, files);
        sheet_ending(alloc, faults, files, outcome)
    } else {
        let outcome = run(alloc, alloc, reader, writer, files);
        run_ending(alloc, faults, files, outcome)
    }
}

/// Carries out commands on a stored feed, and says how that ended.
pub fn on_desk<R: Read, W: Write, E: Write, F: Files + Explains>(
    alloc: Global,
    desk: Desk<'_>,
    reader: &mut R,
    writer: &mut W,
    faults: &mut E,
    files: &mut F,
) -> Ending
    requires { 1 ≤ desk.room.site }
    ensures within { result.status ≤ 1 }
    ensures done { result.status ≡ 0
        → IsOnDesk desk.entry.manner desk.entry.room (F.shelf files.old) (F.shelf files.new) (R.remaining reader.old)
        (W.contents writer.old) (W.contents writer.new) }
    ensures stopped { result.status ≡ 1
        → IsOffDesk desk.entry.manner desk.entry.room desk.entry.why (F.shelf files.old) (F.shelf files.new)
        (R.remaining reader.old) (W.contents writer.old) (W.contents writer.new) result.told.is_whole
        (E.contents faults.old) (E.contents faults.new) }
{
    let Desk { room, why, manner } = desk;
    let memory = Memory {
        own: alloc,
        global: alloc,
    };
    if is_sheet(manner) {
        let mode = mode_of(manner);
        let outcome = run_sheet_on_feed(memory, mode, reader, writer, files, room);
        stored_ending(alloc, faults, files, room, why, outcome)
    } else {
        let outcome = run_in_room(memory, reader, writer, files, room);
        room_ending(alloc, faults, files, room, why, outcome)
    }
}
