//! Stored feeds, and ribbons, compared.

ghost use Rattle.std.specs.Prelude.{◌≡◌, ◌≤◌, MatchResult, false, true};
ghost use Rattle.program_desk.specs.Causes.{comparison_cause, difference_cause};
ghost use Rattle.program_desk.specs.Compared.{AreCastAlike, AreNotCastAlike, AreNotOne, AreOne};
ghost use Rattle.program_desk.specs.Explained.{IsSilent, Reports};

use crate::causes::{comparison_cause, difference_cause};
use crate::previews::memory_of;
use crate::reporting::reported;
use crate::told::{Ending, ended};
use feed_edit::Version;
use feed_files::Files;
use feed_sites::{DifferenceFault, report_difference};
use program_host::Explains;
use std::alloc::Global;
use std::io::Write;
use view_ribbon::{ComparisonFault, Pair, compare_ribbons};

/// How a comparison ended: with status 1 also where the feeds do not hold the same.
fn difference_ending<E: Write, F: Explains>(
    alloc: Global,
    faults: &mut E,
    files: &F,
    one: &str,
    other: &str,
    outcome: Result<bool, DifferenceFault>,
) -> Ending
    ensures { MatchResult outcome
        (λ same. (same ≡ true → result.status ≡ 0) × (same ≡ false → result.status ≡ 1)
        × IsSilent result.told.is_whole (E.contents faults.old) (E.contents faults.new))
        (λ fault. (result.status ≡ 1) × Reports (difference_cause one.entry other.entry fault) result.told.is_whole
        (E.contents faults.old) (E.contents faults.new)) }
{
    match outcome {
        Ok(true) => ended(0),
        Ok(false) => ended(1),
        Err(fault) => {
            let cause = difference_cause(one, other, fault);
            reported(alloc, faults, files, cause)
        }
    }
}

/// Says in what a version of a stored feed and another feed differ, and how that ended: with status 0 only where they
/// hold the same.
pub fn compared<W: Write, E: Write, F: Files + Explains>(
    alloc: Global,
    one: Version<'_>,
    other: &str,
    writer: &mut W,
    faults: &mut E,
    files: &mut F,
) -> Ending
    ensures within { result.status ≤ 1 }
    ensures done { result.status ≡ 0
        → AreOne one.entry other.now (F.shelf files.old) (F.shelf files.new) (W.contents writer.old)
        (W.contents writer.new) }
    ensures stopped { result.status ≡ 1
        → AreNotOne one.entry other.entry (F.shelf files.old) (F.shelf files.new) (W.contents writer.old)
        (W.contents writer.new) result.told.is_whole (E.contents faults.old) (E.contents faults.new) }
{
    let outcome = report_difference(alloc, writer, files, one, other);
    difference_ending(alloc, faults, files, one.feed, other, outcome)
}

/// How a comparison of ribbons ended: with status 1 also where they are not cast alike.
fn comparison_ending<E: Write, F: Explains>(
    alloc: Global,
    faults: &mut E,
    files: &F,
    pair: &Pair<'_>,
    outcome: Result<bool, ComparisonFault>,
) -> Ending
    ensures { MatchResult outcome
        (λ alike. (alike ≡ true → result.status ≡ 0) × (alike ≡ false → result.status ≡ 1)
        × IsSilent result.told.is_whole (E.contents faults.old) (E.contents faults.new))
        (λ fault. (result.status ≡ 1) × Reports (comparison_cause pair.now fault) result.told.is_whole
        (E.contents faults.old) (E.contents faults.new)) }
{
    match outcome {
        Ok(true) => ended(0),
        Ok(false) => ended(1),
        Err(fault) => {
            let cause = comparison_cause(pair, fault);
            reported(alloc, faults, files, cause)
        }
    }
}

/// Says which lines of two ribbons a caster casts otherwise, and how that ended: with status 0 only where both are
/// cast, and alike.
pub fn cast_compared<W: Write, E: Write, F: Files + Explains>(
    alloc: Global,
    pair: &Pair<'_>,
    writer: &mut W,
    faults: &mut E,
    files: &mut F,
) -> Ending
    ensures within { result.status ≤ 1 }
    ensures done { result.status ≡ 0
        → AreCastAlike pair.now (F.shelf files.old) (F.shelf files.new) (W.contents writer.old)
        (W.contents writer.new) }
    ensures stopped { result.status ≡ 1
        → AreNotCastAlike pair.now (F.shelf files.old) (F.shelf files.new) (W.contents writer.old)
        (W.contents writer.new) result.told.is_whole (E.contents faults.old) (E.contents faults.new) }
{
    let outcome = compare_ribbons(memory_of(alloc), writer, files, pair);
    comparison_ending(alloc, faults, files, pair, outcome)
}
