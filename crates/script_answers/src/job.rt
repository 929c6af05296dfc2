//! The job of a site's copy: its ribbon, and the ribbon cast.

ghost use Rattle.std.specs.Prelude.{◌≡◌, ◌<◌, ◌^◌, length, List, Ok, IfErr, IfOk};
ghost use Rattle.desk_signals.specs.declared.RibbonRow.{RibbonRow};
ghost use Rattle.desk_caster.specs.Caster.{Line, cast};
ghost use Rattle.desk_caster.specs.Reading.{IsRibbon};
ghost use Rattle.feed_files.specs.Files.{Stays};
ghost use Rattle.script_answers.specs.Failure.{IfReplied};
ghost use Rattle.script_answers.specs.Reply.{reply_values};
ghost use Rattle.script_answers.specs.Job.{IsJobByFiles, JobLacksMemory, ReportsCast, ReportsJob, job_of};

use crate::inputs::both;
use crate::memory::Memory;
use crate::{Failure, Reply};
use desk_blocks::Blocks;
use desk_case::MatrixCase;
use desk_caster::{CastFault, CastLine, RibbonFault, cast, read_ribbon};
use desk_job::{JobRefusal, make};
use desk_memory::NoMemory;
use desk_replica::Replica;
use desk_signals::RibbonRow;
use desk_wedge::Wedge;
use feed_files::Files;
use std::alloc::Allocator;

/// The rows of bytes that are a ribbon.
fn rows_in<A: Allocator + Copy>(alloc: A, bytes: &[u8]) -> Result<Vec<RibbonRow, A>, NoMemory>
    requires { (rows : List RibbonRow) × IsRibbon bytes.now rows }
    ensures { IfOk result (λ rows. IsRibbon bytes.now rows.items) }
{
    match read_ribbon(alloc, bytes) {
        Ok(rows) => Ok(rows),
        Err(RibbonFault::NoMemory) => Err(NoMemory),
        Err(RibbonFault::Magic) => unreachable!(),
        Err(RibbonFault::Count) => unreachable!(),
        Err(RibbonFault::Row(_, _)) => unreachable!(),
    }
}

/// The lines of rows that are cast without a fault.
fn lines_in<A: Allocator + Copy>(
    alloc: A,
    rows: &[RibbonRow],
    case: &MatrixCase,
    wedge: &Wedge,
) -> Result<Vec<CastLine<A>, A>, NoMemory>
    requires number { length rows.now < 2 ^ 32 }
    requires whole { (lines : List Line) × (cast case.now wedge.now rows.now ≡ Ok lines) }
    ensures { IfOk result (λ lines. cast case.now wedge.now rows.now ≡ Ok lines.items) }
{
    match cast(alloc, rows, case, wedge) {
        Ok(lines) => Ok(lines),
        Err(CastFault::NoMemory) => Err(NoMemory),
        Err(CastFault::NoWedges(_)) => unreachable!(),
        Err(CastFault::NoMatrix(_)) => unreachable!(),
        Err(CastFault::NotSentOut(_)) => unreachable!(),
    }
}

/// The lines that a ribbon's bytes cast, where these are of a ribbon that is cast without a fault.
fn cast_bytes<A: Allocator + Copy>(
    memory: Memory<A>,
    bytes: &[u8],
    case: &MatrixCase,
    wedge: &Wedge,
) -> Result<Reply<A>, NoMemory>
    requires { (rows : List RibbonRow) × IsRibbon bytes.now rows
        × ((lines : List Line) × (cast case.now wedge.now rows ≡ Ok lines)) }
    ensures { IfOk result (λ a. ReportsCast case.now wedge.now bytes.now (reply_values a)) }
{
    let rows = rows_in(memory.own, bytes)?;
    let lines = lines_in(memory.own, &rows, case, wedge)?;
    Ok(Reply::Lines(lines))
}

/// What is wanted of a job: its ribbon, or the lines that it casts.
#[derive(Clone, Copy, Debug, PartialEq, Eq)]
pub enum Wanted {
    Ribbon,
    Lines,
}

/// The ribbon of a replica's copy or the lines that it casts, or the faults of its job.
fn made<A: Allocator + Copy>(
    memory: Memory<A>,
    replica: &Replica<Blocks<A>>,
    case: &MatrixCase,
    wedge: &Wedge,
    wanted: Wanted,
) -> Result<Reply<A>, NoMemory>
    ensures { IfOk result
        (λ a. ReportsJob wanted case.now wedge.now (job_of replica.now.ops case.now wedge.now) (reply_values a)) }
{
    match make(memory.own, replica, case, wedge) {
        Ok(bytes) => match wanted {
            Wanted::Ribbon => Ok(Reply::Ribbon(bytes)),
            Wanted::Lines => cast_bytes(memory, &bytes, case, wedge),
        },
        Err(JobRefusal::Faults(faults)) => Ok(Reply::NoRibbon(faults)),
        Err(JobRefusal::NoMemory) => Err(NoMemory),
    }
}

/// The job of a replica's copy by two files. Out of memory comes in place of no refusal of the device: it comes where
/// memory ran out by one of the files, or once both had given a case and a wedge.
pub fn job_by_files<F: Files, A: Allocator + Copy>(
    memory: Memory<A>,
    replica: &Replica<Blocks<A>>,
    files: &mut F,
    case: &str,
    wedge: &str,
    wanted: Wanted,
) -> Result<Reply<A>, Failure>
    ensures made { IfReplied result
        (λ reply. IsJobByFiles wanted replica.now.ops case.now wedge.now (F.shelf files.old) reply
        (F.shelf files.new)) }
    ensures memory { IfErr result (λ end. end ≡ Failure.NoMemory
        → JobLacksMemory case.now wedge.now (F.shelf files.old) (F.shelf files.new)) }
    ensures stays { Stays (F.shelf files.old) (F.shelf files.new) }
{
    let (case, wedge) = both(memory, files, case, wedge)?;
    Ok(made(memory, replica, &case, &wedge, wanted)?)
}
