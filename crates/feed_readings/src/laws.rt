//! What holds of open readings.

ghost use Rattle.feed_readings.specs.Aligned.{CutsAreShared, CutsRise};
ghost use Rattle.feed_readings.specs.Closed.{PartsShowOfTheWalk};
ghost use Rattle.feed_readings.specs.Laws.{AllElseIsSettled, ExchangedCopiesReadAlike};

/// Outside the open readings each piece of the merged copy is the three-way merge of the two copies: so a change of
/// one room alone stands as that room has it. The cuts are the same elements in all four lists, and those of sets
/// stand in one order, so pieces are compared with their own. Exchanged copies have the same readings.
pub fn readings_are_sound()
    ensures settled { AllElseIsSettled }
    ensures shared { CutsAreShared }
    ensures aligned { CutsRise }
    ensures alike { ExchangedCopiesReadAlike }
{}

/// Where no stamp of a set is forked, and a part of it holds what its inserts hang on, the part shows the set's walk:
/// all elements whose stamps it bears and that it does not delete, in that order.
pub fn parts_show_of_the_walk()
    ensures { PartsShowOfTheWalk }
{}
