//! The laws over the definitions alone, each the contract of a function that does nothing.

ghost use Rattle.desk_units.specs.WedgeSum.{OnePairForEachSum};
ghost use Rattle.desk_units.specs.Widths.{OneNumberOfSteps};

/// There is one number of steps that leaves less than a step for each space.
pub fn one_number_of_steps()
    ensures { OneNumberOfSteps }
{}

/// Each number from 16 to 240 is the sum of one pair of positions, and no other number is that of any.
pub fn one_pair_for_each_sum()
    ensures { OnePairForEachSum }
{}
