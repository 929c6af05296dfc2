//! The law over the definitions alone, the contract of a function that does nothing.

ghost use Rattle.view_preview.specs.Trial.{NothingIsAsSet};

/// Where nothing is tried each key has the value that the set gives it.
pub fn nothing_is_as_set()
    ensures { NothingIsAsSet }
{}
