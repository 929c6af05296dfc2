//! What holds of corrections, and a worked log.

ghost use Rattle.feed_history.specs.CorrectionLaws.{CorrectionsPartSets};
ghost use Rattle.feed_history.specs.WorkedLog.{WorkedLog};

/// Each operation of a set is in one correction and in no other. No two corrections of one site can be joined, and the
/// newest is the last.
pub fn corrections_part_sets()
    ensures { CorrectionsPartSets }
{}

/// The log of a worked set.
pub fn worked_log()
    ensures { WorkedLog }
{}
