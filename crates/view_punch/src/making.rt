//! The ribbon of the copy of a stored feed by a case and a wedge, or the line of its faults.

ghost use Rattle.std.specs.Prelude.{◌≡◌, IfErr, IfOk, OnOk};
ghost use Rattle.desk_ops.specs.Settings.{setting_of};
ghost use Rattle.desk_ops.specs.Shown.{copy_of};
ghost use Rattle.desk_job.specs.Reading.{CastsCopy};
ghost use Rattle.view_punch.specs.Making.{IsLetThrough, IsMadeOf, IsStopped, IsUnmade};

use crate::job_line::{report, report_job};
use desk_blocks::Blocks;
use desk_case::MatrixCase;
use desk_job::{JobRefusal, make};
use desk_replica::Replica;
use desk_wedge::Wedge;
use script_answers::Reply;
use std::alloc::Allocator;
use std::io::Write;
use view_preview::PreviewFault;
use view_proof::other_number;

/// By what copies are made into ribbons: a case and a wedge, and whether a copy with faults is let through.
#[derive(Clone, Copy)]
pub struct Means<'a> {
    pub case: &'a MatrixCase,
    pub wedge: &'a Wedge,
    pub faulty: bool,
}

/// Lets the copy of a replica through where it has no fault, or where faults are let through. Else the line that the
/// command `faults` has for them is written, and the fault is `CopyFaults`, or another where that line is not written.
fn let_through<W: Write, A: Allocator + Copy>(
    alloc: A,
    writer: &mut W,
    replica: &Replica<Blocks<A>>,
    faulty: bool,
) -> Result<(), PreviewFault>
    ensures ok { OnOk result (IsLetThrough faulty replica.now.ops) }
    ensures silent { OnOk result (W.contents writer.new ≡ W.contents writer.old) }
    ensures err { IfErr result (IsStopped faulty replica.now.ops (W.contents writer.old) (W.contents writer.new)) }
{
    if faulty {
        return Ok(());
    }
    let faults = replica.copy_faults()?;
    if faults.is_empty() {
        return Ok(());
    }
    report(alloc, writer, &Reply::Faults(faults))?;
    Err(PreviewFault::CopyFaults)
}

/// The ribbon of the job of a replica's copy. Where the copy has faults that are not let through, their line is
/// written. So is the line of the job's faults, with all the settings that are missing. Nothing else is written.
pub fn ribbon_of<W: Write, A: Allocator + Copy>(
    alloc: A,
    writer: &mut W,
    replica: &Replica<Blocks<A>>,
    means: &Means<'_>,
) -> Result<Vec<u8, A>, PreviewFault>
    ensures ok { IfOk result
        (λ v. IsMadeOf (means.now).faulty replica.now.ops (means.now).case.now (means.now).wedge.now v.items) }
    ensures cast { IfOk result
        (λ v. CastsCopy (copy_of replica.now.ops) (setting_of replica.now.ops) (means.now).case.now
        (means.now).wedge.now v.items) }
    ensures silent { OnOk result (W.contents writer.new ≡ W.contents writer.old) }
    ensures err { IfErr result
        (IsUnmade (means.now).faulty replica.now.ops (means.now).case.now (means.now).wedge.now
        (W.contents writer.old) (W.contents writer.new)) }
{
    let_through(alloc, writer, replica, means.faulty)?;
    match make(alloc, replica, means.case, means.wedge) {
        Ok(ribbon) => Ok(ribbon),
        Err(JobRefusal::Faults(faults)) => {
            let settings = replica.settings();
            report_job(alloc, writer, &settings, faults)?;
            Err(PreviewFault::Faulty(other_number(&settings, means.case, means.wedge)))
        }
        Err(JobRefusal::NoMemory) => Err(PreviewFault::NoMemory),
    }
}
