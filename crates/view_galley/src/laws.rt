//! The laws over the definitions alone, each the contract of a function that does nothing.

ghost use Rattle.view_galley.specs.Laws.{FaultsAreOfJob, LinesAreOfJob, RowsAreOfGalley};
ghost use Rattle.view_galley.specs.Svg.{EscapedIsReadBack};

/// The lines of a galley are those of the job.
pub fn lines_are_of_job()
    ensures { LinesAreOfJob }
{}

/// The faults of the lines of a galley are those of the lines of the job.
pub fn faults_are_of_job()
    ensures { FaultsAreOfJob }
{}

/// Where no line has a fault, the rows of the job are those of the lines of the galley.
pub fn rows_are_of_galley()
    ensures { RowsAreOfGalley }
{}

/// A reader of XML finds the text in an escaped text, with U+FFFD in place of what XML 1.0 does not allow.
pub fn escaped_is_read_back()
    ensures { EscapedIsReadBack }
{}
