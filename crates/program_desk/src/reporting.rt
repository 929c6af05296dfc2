//! What is reported of a run that stopped.

ghost use Rattle.std.specs.Prelude.{◌≡◌, ◌↔◌, ◌⊎◌, true};
ghost use Rattle.std.specs.IoError.{error_kind};
ghost use Rattle.program_desk.specs.Explained.{Reports, ReportsMore, TellsOf};
ghost use Rattle.program_desk.specs.Headlines.{said_line};
ghost use Rattle.program_desk.specs.Told.{Tells};

use crate::causes::{Cause, Said};
use crate::explained::tell_cause;
use crate::headlines::tell_head;
use crate::told::{Ending, Told, silent};
use desk_script::RunFault;
use program_host::Explains;
use std::alloc::Global;
use std::io::{self, ErrorKind, Write};

/// Writes the lines on what stopped a run, the second where it is asked for, and gives the status of it.
pub fn stopped<E: Write, F: Explains>(
    alloc: Global,
    faults: &mut E,
    files: &F,
    asked: bool,
    cause: Cause<'_>,
) -> Ending
    ensures { (result.status ≡ 1) × TellsOf asked cause.entry result.told.is_whole (E.contents faults.old)
        (E.contents faults.new) }
{
    let told = tell_cause(alloc, faults, silent(), files, asked, cause);
    Ending { status: 1, told }
}

/// Whether a report was to go to standard output, and its reader has closed it, as `head` does: nobody waits for more.
fn is_over<F: Explains>(files: &F, cause: Cause<'_>) -> bool
    ensures { result ≡ true → cause.entry ≡ Cause.ReportOutput }
{
    match cause {
        Cause::ReportOutput => files.is_output_closed(),
        _ => false,
    }
}

/// Writes both lines on what stopped a report after what was written; nothing where standard output is closed.
pub fn reported_more<E: Write, F: Explains>(
    alloc: Global,
    faults: &mut E,
    told: Told,
    files: &F,
    cause: Cause<'_>,
) -> Told
    ensures { ReportsMore cause.entry told.is_whole result.is_whole (E.contents faults.old) (E.contents faults.new) }
{
    if is_over(files, cause) {
        return told;
    }
    tell_cause(alloc, faults, told, files, true, cause)
}

/// Writes both lines on what stopped a report, and gives the status of it; nothing where standard output is closed.
pub fn reported<E: Write, F: Explains>(
    alloc: Global,
    faults: &mut E,
    files: &F,
    cause: Cause<'_>,
) -> Ending
    ensures { (result.status ≡ 1) × Reports cause.entry result.told.is_whole (E.contents faults.old)
        (E.contents faults.new) }
{
    let told = reported_more(alloc, faults, silent(), files, cause);
    Ending { status: 1, told }
}

/// Writes that memory ran out for the words, and gives the status of it.
pub fn out_of_memory<E: Write>(faults: &mut E) -> Ending
    ensures { (result.status ≡ 1) × Tells result.told.is_whole (E.contents faults.old) (E.contents faults.new)
        (said_line Said.NoMemory) }
{
    let told = tell_head(faults, silent(), Cause::Said(Said::NoMemory));
    Ending { status: 1, told }
}

/// Says why the words could not be read, and gives the status of it: 1 where memory ran out, as of a run, and else 2,
/// as of words that `clap` refuses. A failure to write the line changes no status.
pub fn unread<E: Write>(faults: &mut E, error: &io::Error) -> u8
    ensures within { (result ≡ 1) ⊎ (result ≡ 2) }
    ensures memory { (result ≡ 1) ↔ (error_kind error.now ≡ ErrorKind.OutOfMemory) }
{
    if error.kind() == ErrorKind::OutOfMemory {
        return out_of_memory(faults).status;
    }
    let _ = writeln!(faults, "error: a word of the command line is not UTF-8");
    2
}
