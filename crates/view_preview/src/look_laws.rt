//! What holds of words that are alike, and worked looks.

ghost use Rattle.view_preview.specs.LookLaws.{AlikeAreSame, WorkedLooks};

/// Words that the test calls alike have the same symbols in the same styles, and no others have.
pub fn alike_are_same()
    ensures { AlikeAreSame }
{}

/// The looks at a worked copy of each kind.
pub fn worked_looks()
    ensures { WorkedLooks }
{}
