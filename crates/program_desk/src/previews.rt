//! Galleys seen before they are cast: as text, as a picture and as a document, and their ribbon in a file.

ghost use Rattle.std.specs.Prelude.{◌≡◌, ◌≤◌, ◌↔◌, IfErr, IfOk, MatchResult, true};
ghost use Rattle.desk_job.specs.Answer.{AreValues};
ghost use Rattle.program_desk.specs.Causes.{punch_cause};
ghost use Rattle.program_desk.specs.Depicting.{IsSource};
ghost use Rattle.program_desk.specs.Explained.{Reports};
ghost use Rattle.program_desk.specs.Previews.{IsInFile, IsInNoFile, IsSeen, IsSeenBy, IsShown, IsUnseen, IsUnseenBy};
ghost use Rattle.program_desk.specs.Previews.{IsUnshown, MakesRibbon, is_one_of};

use crate::causes::{Cause, Output, proof_cause, punch_cause, trial_cause};
use crate::depicting::{depicted, misplaced};
use crate::reporting::{reported, stopped};
use crate::told::{Ending, ended, silent};
use desk_replica::Settings;
use feed_files::{Files, Target};
use program_host::Explains;
use program_words::Drawings;
use script_answers::Memory;
use std::alloc::Global;
use std::io::Write;
use view_preview::{Job, Manner, PreviewFault, proof_job, trial_of};
use view_punch::{Galleys, Stop, punch_feeds};

/// The memory of all that a preview is made of.
pub fn memory_of(alloc: Global) -> Memory<Global> {
    Memory {
        own: alloc,
        global: alloc,
    }
}

/// A galley that is asked for: what it is of, how it is written, and the files that it is drawn in.
#[derive(Clone, Copy)]
pub struct Preview<'a> {
    pub job: Job<'a>,
    pub manner: Manner,
    pub drawings: Drawings<'a>,
}

/// Whether a name is one of those of what an output is made of.
pub fn is_source(name: &str, case: &str, wedge: &str, target: &str) -> bool
    ensures { result ≡ true ↔ IsSource name.now case.now wedge.now target.now }
{
    target == name || target == case || target == wedge
}

/// Writes a galley by its settings and those that are tried, and says whether it is clean, or why it was not written.
fn shown<W: Write, F: Files>(
    alloc: Global,
    asked: &Preview<'_>,
    trial: &Settings,
    writer: &mut W,
    files: &mut F,
) -> Result<bool, PreviewFault>
    requires { AreValues trial.now }
    ensures ok { IfOk result
        (IsShown asked.now trial.now (F.shelf files.old) (F.shelf files.new) (W.contents writer.old)
        (W.contents writer.new)) }
    ensures err { IfErr result
        (IsUnshown asked.now trial.now (F.shelf files.old) (F.shelf files.new) (W.contents writer.old)
        (W.contents writer.new)) }
{
    let memory = memory_of(alloc);
    proof_job(memory, writer, files, &asked.job, trial, asked.manner)
}

/// Writes a galley, stores its picture and its document where they are asked for, and says how that ended. These are
/// stored also where the writer failed: whoever reads the galley may have seen enough of it.
fn seen_by<W: Write, E: Write, F: Files + Explains>(
    alloc: Global,
    asked: &Preview<'_>,
    trial: &Settings,
    writer: &mut W,
    faults: &mut E,
    files: &mut F,
) -> Ending
    requires { AreValues trial.now }
    ensures within { result.status ≤ 1 }
    ensures done { result.status ≡ 0
        → IsSeenBy asked.now trial.now (F.shelf files.old) (F.shelf files.new) (W.contents writer.old)
        (W.contents writer.new) }
    ensures stopped { result.status ≡ 1
        → IsUnseenBy asked.now trial.now (F.shelf files.old) (F.shelf files.new) (W.contents writer.old)
        (W.contents writer.new) result.told.is_whole (E.contents faults.old) (E.contents faults.new) }
{
    match shown(alloc, asked, trial, writer, files) {
        Ok(clean) => {
            let ending = depicted(alloc, asked, trial, silent(), faults, files);
            if clean {
                return ending;
            }
            Ending {
                status: 1,
                told: ending.told,
            }
        }
        Err(PreviewFault::Write) => {
            let told = reported(alloc, faults, files, Cause::ReportOutput).told;
            let ending = depicted(alloc, asked, trial, told, faults, files);
            Ending {
                status: 1,
                told: ending.told,
            }
        }
        Err(fault) => reported(alloc, faults, files, proof_cause(&asked.job, "", fault)),
    }
}

/// Writes a galley by its settings and those that texts as `loose=200` try, stores its picture and then its document,
/// each where it is asked for, and says how that ended: with status 0 where there is no fault and all was written. The
/// picture replaces only a picture, and the document only a document, or, by force, any file but the feed or the text,
/// the case and the wedge; the document does not replace the picture.
pub fn proofed<W: Write, E: Write, F: Files + Explains>(
    alloc: Global,
    asked: &Preview<'_>,
    sets: &[&str],
    writer: &mut W,
    faults: &mut E,
    files: &mut F,
) -> Ending
    ensures within { result.status ≤ 1 }
    ensures done { result.status ≡ 0
        → IsSeen asked.now sets.now (F.shelf files.old) (F.shelf files.new) (W.contents writer.old)
        (W.contents writer.new) }
    ensures stopped { result.status ≡ 1
        → IsUnseen asked.now sets.now (F.shelf files.old) (F.shelf files.new) (W.contents writer.old)
        (W.contents writer.new) result.told.is_whole (E.contents faults.old) (E.contents faults.new) }
{
    if let Some(cause) = misplaced(asked) {
        return stopped(alloc, faults, files, true, cause);
    }
    match trial_of(alloc, sets) {
        Ok(trial) => seen_by(alloc, asked, &trial, writer, faults, files),
        Err(fault) => stopped(alloc, faults, files, true, trial_cause(sets, fault)),
    }
}

/// Galleys of stored feeds, and the file that their ribbon is stored in.
#[derive(Clone, Copy)]
pub struct Punch<'a> {
    pub from: Galleys<'a>,
    pub target: Target<'a>,
    /// A copy with faults is punched.
    pub faulty: bool,
}

/// Whether a name is one of these.
fn is_one_of(names: &[&str], target: &str) -> bool
    ensures { result ≡ is_one_of names.now target.now }
{
    for &name in names {
        if name == target {
            return true;
        }
    }
    false
}

/// Whether a name is one of those of what a ribbon is made of.
fn makes_ribbon(from: &Galleys<'_>, target: &str) -> bool
    ensures { result ≡ true ↔ MakesRibbon from.now target.now }
{
    is_source(from.first, from.case, from.wedge, target) || is_one_of(from.others, target)
}

/// How a punch ended.
fn punch_ending<E: Write, F: Explains>(
    alloc: Global,
    faults: &mut E,
    files: &F,
    from: &Galleys<'_>,
    target: &str,
    outcome: Result<(), Stop>,
) -> Ending
    ensures { MatchResult outcome (λ _. result.status ≡ 0)
        (λ stop. (result.status ≡ 1) × Reports (punch_cause from.now target.entry stop) result.told.is_whole
        (E.contents faults.old) (E.contents faults.new)) }
{
    match outcome {
        Ok(()) => ended(0),
        Err(stop) => reported(alloc, faults, files, punch_cause(from, target, stop)),
    }
}

/// Stores the ribbon of stored feeds, one galley after the other, under the name of a target, and says how that ended.
/// The ribbon replaces only a ribbon, or, by force, any file but the feeds, the case and the wedge. A copy with faults
/// is punched only where that is asked for. A stop is that of the feed at which it came, and nothing is stored then.
pub fn punched<W: Write, E: Write, F: Files + Explains>(
    alloc: Global,
    punch: &Punch<'_>,
    writer: &mut W,
    faults: &mut E,
    files: &mut F,
) -> Ending
    ensures within { result.status ≤ 1 }
    ensures done { result.status ≡ 0
        → IsInFile punch.now.from punch.now.target.name.now punch.now.target.force punch.now.faulty
        (F.shelf files.old) (F.shelf files.new) (W.contents writer.old) (W.contents writer.new) }
    ensures stopped { result.status ≡ 1
        → IsInNoFile punch.now.from punch.now.target.name punch.now.target.force punch.now.faulty
        (F.shelf files.old) (F.shelf files.new) (W.contents writer.old) (W.contents writer.new)
        result.told.is_whole (E.contents faults.old) (E.contents faults.new) }
{
    let Punch {
        from,
        target,
        faulty,
    } = punch;
    if makes_ribbon(from, target.name) {
        let cause = Cause::Source(target.name, Output::Ribbon);
        return stopped(alloc, faults, files, true, cause);
    }
    let outcome = punch_feeds(memory_of(alloc), writer, files, from, target, *faulty);
    punch_ending(alloc, faults, files, from, target.name, outcome)
}
