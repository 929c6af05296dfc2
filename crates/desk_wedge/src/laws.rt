//! The law over the definitions alone, the contract of a function that does nothing.

ghost use Rattle.desk_wedge.specs.Descent.{DescentIsFirstFall};

/// The row that a file's fault names is the least one with fewer units than the row before.
pub fn descent_is_first_fall()
    ensures { DescentIsFirstFall }
{}
