//! What is kept after any settings.

ghost use Rattle.desk_registers.specs.Laws.{GreatestIsKept, OneGreatest};

/// After settings in any order, of each key the one of the greatest stamp is kept.
pub fn greatest_is_kept()
    ensures { GreatestIsKept }
{}

/// Where a stamp sets a key to one value, which it is depends on what the settings are alone, and not on their order or
/// repetition.
pub fn there_is_one_greatest()
    ensures { OneGreatest }
{}
