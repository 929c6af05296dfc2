//! What holds of the differences that are reported.

ghost use Rattle.feed_sites.specs.DifferenceLaws.{EqualSetsAreReportedSo, EqualCopiesHaveNoWords};

/// Of two sets that are one it is reported that each has nothing alone, and nothing else; and there are lines of words
/// exactly where the copies are not one.
pub fn equals_have_no_differences()
    ensures sets { EqualSetsAreReportedSo }
    ensures copies { EqualCopiesHaveNoWords }
{}
