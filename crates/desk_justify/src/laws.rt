//! The laws over the definitions alone, each the contract of a function that does nothing.

ghost use Rattle.desk_justify.specs.Filled.{OneFilling};

/// The fills of a rest are what the definition of a filled line says, and no others are.
pub fn one_filling()
    ensures { OneFilling }
{}
