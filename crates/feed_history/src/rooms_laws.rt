//! What holds of the lines of sites.

ghost use Rattle.feed_history.specs.RoomsLaws.{LinesAreOfThese, SpansAreBetween, SumsAreCounts};

/// Each operation, each symbol that is shown and each fault counts in the line of one site.
pub fn lines_count_each_once()
    ensures { SumsAreCounts }
{}

/// A site's operations are from the least of its stamps to the greatest, and it has gaps exactly where it bears no
/// operation at some counter between.
pub fn spans_are_between()
    ensures { SpansAreBetween }
{}

/// A site has a line exactly where it bears an operation.
pub fn lines_are_of_these()
    ensures { LinesAreOfThese }
{}
