//! Laws of the definitions alone, each the contract of a function that does nothing.

ghost use Rattle.desk_signals.specs.RowLaws.{RepeatsAreTwoPlaces, RowsAreSignalSets, SignalsHaveOneRow};

/// Signals are those of one row at most.
pub fn signals_have_one_row()
    ensures { SignalsHaveOneRow }
{}

/// The signals of a row in any order are those that, without repeats, have the row's signals and no others.
pub fn rows_are_signal_sets()
    ensures { RowsAreSignalSets }
{}

/// The test for repeats finds exactly two places with the same signal.
pub fn repeats_are_two_places()
    ensures { RepeatsAreTwoPlaces }
{}
