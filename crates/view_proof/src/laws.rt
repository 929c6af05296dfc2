//! What holds of the settings that are missing.

ghost use Rattle.view_proof.specs.Reasons.{MissingBegin};

/// Where all settings have values none is missing; else the least that has none, which is the fault of a job, is the
/// first of the missing.
pub fn missing_begin()
    ensures { MissingBegin }
{}
