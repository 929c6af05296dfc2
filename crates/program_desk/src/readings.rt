//! A stored ribbon read as the caster would, and the sorts of a stored feed.

ghost use Rattle.std.specs.Option.{option_copied};
ghost use Rattle.std.specs.Prelude.{◌≡◌, ◌≤◌, IfErr, IfOk, MatchResult, false, true};
ghost use Rattle.program_desk.specs.Causes.{sorts_cause};
ghost use Rattle.program_desk.specs.Explained.{IsSilent, Reports, StaysSo};
ghost use Rattle.program_desk.specs.Readings.{AreHolesAbsent, AreHolesThere, IsListed, IsNotListed, IsNotReadOut};
ghost use Rattle.program_desk.specs.Readings.{IsNotReadWhole, IsReadOut, IsReadWhole, lines_of};

use crate::causes::{Cause, Output, reading_cause, sorts_cause};
use crate::previews::{is_source, memory_of};
use crate::reporting::{reported, reported_more, stopped};
use crate::told::{Ending, Told, ended, silent};
use feed_edit::Version;
use feed_files::{Files, Target};
use program_host::Explains;
use std::alloc::Global;
use std::io::Write;
use view_preview::PreviewFault;
use view_punch::report_sorts;
use view_ribbon::{Extent, Lines, ReadingFault, Sources, draw_ribbon, read_job};

/// A reading that is asked for: what it is made of, how much is written, the name of the file that the ribbon's picture
/// is stored in, if any, and whether whatever stands there is replaced.
#[derive(Clone, Copy)]
pub struct Reading<'a> {
    pub from: Sources<'a>,
    pub extent: Extent,
    pub picture: Option<&'a str>,
    pub force: bool,
}

/// The lines that a picture has, or nothing where it has all.
fn lines_of(extent: Extent) -> Option<Lines>
    ensures { result ≡ lines_of extent }
{
    match extent {
        Extent::Lines(lines) => lines,
        Extent::Figures(_) => None,
    }
}

/// Writes the reading of a ribbon, and says whether it is cast whole, or why it was not written.
fn read_out<W: Write, F: Files>(
    alloc: Global,
    asked: &Reading<'_>,
    writer: &mut W,
    files: &mut F,
) -> Result<bool, ReadingFault>
    ensures ok { IfOk result
        (IsReadOut asked.now (F.shelf files.old) (F.shelf files.new) (W.contents writer.old) (W.contents writer.new)) }
    ensures err { IfErr result
        (IsNotReadOut asked.now (F.shelf files.old) (F.shelf files.new) (W.contents writer.old)
        (W.contents writer.new)) }
{
    read_job(memory_of(alloc), writer, files, &asked.from, asked.extent)
}

/// Stores the picture of a ribbon, where one is asked for, after what was written on standard error: with status 0
/// where none is asked for or it is there.
fn drawn<E: Write, F: Files + Explains>(
    alloc: Global,
    asked: &Reading<'_>,
    told: Told,
    faults: &mut E,
    files: &mut F,
) -> Ending
    ensures within { result.status ≤ 1 }
    ensures there { result.status ≡ 0
        → AreHolesThere asked.now (option_copied asked.now.picture) (F.shelf files.old) (F.shelf files.new)
        × StaysSo told.is_whole result.told.is_whole (E.contents faults.old) (E.contents faults.new) }
    ensures absent { result.status ≡ 1
        → AreHolesAbsent asked.now asked.now.picture (F.shelf files.old) (F.shelf files.new) told.is_whole
        result.told.is_whole (E.contents faults.old) (E.contents faults.new) }
{
    let Some(name) = asked.picture else {
        return Ending { status: 0, told };
    };
    let force = asked.force;
    let target = Target { name, force };
    let memory = memory_of(alloc);
    let lines = lines_of(asked.extent);
    match draw_ribbon(memory, files, &asked.from, lines, &target) {
        Ok(true) => Ending { status: 0, told },
        Ok(false) => Ending { status: 1, told },
        Err(fault) => {
            let cause = reading_cause(&asked.from, name, fault);
            let told = reported_more(alloc, faults, told, files, cause);
            Ending { status: 1, told }
        }
    }
}

/// Writes what a caster would cast of a stored ribbon by a case and a wedge, stores its picture where one is asked for,
/// and says how that ended: with status 0 where it is cast whole and all was written. The picture is stored also where
/// the writer failed. It replaces only a picture, or, by force, any file but the ribbon, the case and the wedge.
pub fn read_whole<W: Write, E: Write, F: Files + Explains>(
    alloc: Global,
    asked: &Reading<'_>,
    writer: &mut W,
    faults: &mut E,
    files: &mut F,
) -> Ending
    ensures within { result.status ≤ 1 }
    ensures done { result.status ≡ 0
        → IsReadWhole asked.now (F.shelf files.old) (F.shelf files.new) (W.contents writer.old)
        (W.contents writer.new) }
    ensures stopped { result.status ≡ 1
        → IsNotReadWhole asked.now (F.shelf files.old) (F.shelf files.new) (W.contents writer.old)
        (W.contents writer.new) result.told.is_whole (E.contents faults.old) (E.contents faults.new) }
{
    if let Some(target) = asked.picture {
        let from = &asked.from;
        if is_source(from.ribbon, from.case, from.wedge, target) {
            let cause = Cause::Source(target, Output::Picture);
            return stopped(alloc, faults, files, true, cause);
        }
    }
    match read_out(alloc, asked, writer, files) {
        Ok(whole) => {
            let ending = drawn(alloc, asked, silent(), faults, files);
            if whole {
                return ending;
            }
            Ending {
                status: 1,
                told: ending.told,
            }
        }
        Err(ReadingFault::Write) => {
            let told = reported(alloc, faults, files, Cause::ReportOutput).told;
            let ending = drawn(alloc, asked, told, faults, files);
            Ending {
                status: 1,
                told: ending.told,
            }
        }
        Err(fault) => reported(alloc, faults, files, reading_cause(&asked.from, "", fault)),
    }
}

/// How a list of sorts ended: with status 1 also where a sort is missing.
fn sorts_ending<E: Write, F: Explains>(
    alloc: Global,
    faults: &mut E,
    files: &F,
    feed: &str,
    case: &str,
    outcome: Result<bool, PreviewFault>,
) -> Ending
    ensures { MatchResult outcome
        (λ complete. (complete ≡ true → result.status ≡ 0) × (complete ≡ false → result.status ≡ 1)
        × IsSilent result.told.is_whole (E.contents faults.old) (E.contents faults.new))
        (λ fault. (result.status ≡ 1) × Reports (sorts_cause feed.entry case.entry fault) result.told.is_whole
        (E.contents faults.old) (E.contents faults.new)) }
{
    match outcome {
        Ok(true) => ended(0),
        Ok(false) => ended(1),
        Err(fault) => reported(alloc, faults, files, sorts_cause(feed, case, fault)),
    }
}

/// A list of the sorts that the copy of a stored feed wants by a case.
#[derive(Clone, Copy)]
pub struct Listing<'a> {
    pub version: Version<'a>,
    pub case: &'a str,
    /// The case is written as a table.
    pub layout: bool,
}

/// Writes which sorts the copy of a stored feed wants by a case, and says how that ended: with status 0 only where none
/// is missing.
pub fn listed<W: Write, E: Write, F: Files + Explains>(
    alloc: Global,
    asked: Listing<'_>,
    writer: &mut W,
    faults: &mut E,
    files: &mut F,
) -> Ending
    ensures within { result.status ≤ 1 }
    ensures done { result.status ≡ 0
        → IsListed asked.entry.version asked.entry.case.now asked.entry.layout (F.shelf files.old)
        (F.shelf files.new) (W.contents writer.old) (W.contents writer.new) true }
    ensures stopped { result.status ≡ 1
        → IsNotListed asked.entry.version asked.entry.case asked.entry.layout (F.shelf files.old)
        (F.shelf files.new) (W.contents writer.old) (W.contents writer.new) result.told.is_whole
        (E.contents faults.old) (E.contents faults.new) }
{
    let Listing {
        version,
        case,
        layout,
    } = asked;
    let outcome = report_sorts(memory_of(alloc), writer, files, version, case, layout);
    sorts_ending(alloc, faults, files, version.feed, case, outcome)
}
