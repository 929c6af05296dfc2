//! What holds of events, whoever lets them happen.
ghost use Rattle.script_world.specs.OneAnswer.{OneAnswer};

/// Memory aside, an event has one answer and leaves the same sites, and so has a list of events. This is said of sites
/// that hold no more than 1,048,576 operations each. Every event keeps them so.
pub fn one_answer()
    ensures { OneAnswer }
{}
