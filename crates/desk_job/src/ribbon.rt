//! The ribbon of a replica's copy.

ghost use Rattle.std.specs.Prelude.{◌≡◌, ◌≤◌, ◌∷◌, [], length, IfOk, IfErr};
ghost use Rattle.desk_ops.specs.Settings.{setting_of};
ghost use Rattle.desk_ops.specs.Shown.{copy_of};
ghost use Rattle.desk_lines.specs.Words.{most_symbols};
ghost use Rattle.desk_job.specs.Job as job;
ghost use Rattle.desk_job.specs.Reading.{CastsCopy};
ghost use Rattle.desk_job.specs.Answer.{AreValues, IsMade, IsRefused, HasFaults, by_key};

use crate::making::set_copy;
use crate::terms::{Terms, Values};
use crate::{JobFault, JobFaults, JobRefusal};
use desk_case::MatrixCase;
use desk_ops::{Key, Symbol};
use desk_replica::{Replica, Settings};
use desk_seq::Sequence;
use desk_wedge::Wedge;
use std::alloc::Allocator;

/// The values of settings, or the least key that has none.
pub fn given(settings: &Settings) -> Result<Values, Key>
    ensures { result ≡ job.values_of (by_key settings.now) }
{
    let Some(measure) = settings.measure else {
        return Err(Key::Measure);
    };
    let Some(tight) = settings.tight else {
        return Err(Key::Tight);
    };
    let Some(loose) = settings.loose else {
        return Err(Key::Loose);
    };
    let Some(case) = settings.case else {
        return Err(Key::Case);
    };
    let Some(wedge) = settings.wedge else {
        return Err(Key::Wedge);
    };
    Ok(Values {
        measure,
        tight,
        loose,
        case,
        wedge,
    })
}

/// The refusal of a job for one fault.
fn one_fault<A: Allocator>(alloc: A, fault: JobFault) -> JobRefusal<A>
    ensures { HasFaults result (fault ∷ []) }
{
    let mut faults = Vec::new(alloc);
    match faults.push(fault) {
        Ok(()) => JobRefusal::Faults(JobFaults::from_vec(faults)),
        Err(_) => JobRefusal::NoMemory,
    }
}

/// The ribbon of a copy of at most 1,048,576 symbols, or the faults of its job: the first that holds of a missing
/// setting, another case, another wedge, settings that cross, fills in no order and a space that vanishes; or the place
/// of each symbol that the case lacks; or the fault of each line that can't be set. Out of memory may come in place of
/// any.
///
/// The ribbon, cast with the same case and wedge, is the copy line by line, each line short of the measure by less than
/// a step for each of its spaces.
pub fn make_from<A: Allocator + Copy>(
    alloc: A,
    copy: &[Symbol],
    settings: &Settings,
    case: &MatrixCase,
    wedge: &Wedge,
) -> Result<Vec<u8, A>, JobRefusal<A>>
    requires copy { length copy.now ≤ most_symbols }
    requires settings { AreValues settings.now }
    ensures ok { IfOk result (λ bytes. IsMade bytes.items (job.job copy.now (by_key settings.now) case.now wedge.now)) }
    ensures err { IfErr result
        (λ refusal. IsRefused refusal (job.job copy.now (by_key settings.now) case.now wedge.now)) }
    ensures cast { IfOk result (λ bytes. CastsCopy copy.now (by_key settings.now) case.now wedge.now bytes.items) }
{
    let values = match given(settings) {
        Ok(values) => values,
        Err(key) => return Err(one_fault(alloc, JobFault::MissingSetting(key))),
    };
    match Terms::new(case, wedge, values) {
        Ok(terms) => set_copy(alloc, &terms, copy),
        Err(fault) => Err(one_fault(alloc, fault)),
    }
}

/// The ribbon of a replica's copy by its settings, or the faults of the job, as for `make_from`. The ribbon, cast,
/// is the copy line by line.
pub fn make<Q: Sequence>(
    alloc: Q::Memory,
    replica: &Replica<Q>,
    case: &MatrixCase,
    wedge: &Wedge,
) -> Result<Vec<u8, Q::Memory>, JobRefusal<Q::Memory>>
    ensures ok { IfOk result
        (λ bytes. IsMade bytes.items
        (job.job (copy_of replica.now.ops) (setting_of replica.now.ops) case.now wedge.now)) }
    ensures err { IfErr result
        (λ refusal. IsRefused refusal
        (job.job (copy_of replica.now.ops) (setting_of replica.now.ops) case.now wedge.now)) }
    ensures cast { IfOk result
        (λ bytes. CastsCopy (copy_of replica.now.ops) (setting_of replica.now.ops) case.now wedge.now bytes.items) }
{
    let copy = replica.copy()?;
    make_from(alloc, &copy, &replica.settings(), case, wedge)
}
