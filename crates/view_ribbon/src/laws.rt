//! What holds of the rows that are drawn, and of those of several galleys.

ghost use Rattle.view_ribbon.specs.EndLaws.{GalleysEnd};
ghost use Rattle.view_ribbon.specs.StretchLaws.{RowsOfLinesAreDrawn};

/// Of a ribbon that is cast exactly the rows of lines are drawn, where the first of these is 1 or more: each row by the
/// number of Coarse rows before it. So they are one stretch.
pub fn rows_of_lines_are_drawn()
    ensures { RowsOfLinesAreDrawn }
{}

/// Where the rows of galleys stand one after the other, each galley but the last ends behind its own lines. So a ribbon
/// of so many galleys has one mark fewer, and a ribbon of one galley has none.
pub fn galleys_end()
    ensures { GalleysEnd }
{}
