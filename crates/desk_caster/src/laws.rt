//! What the caster makes of the rows of lines.
ghost use Rattle.std.specs.Prelude.{◌≡◌, Ok, map};
ghost use Rattle.desk_ribbon.specs.Ribbon.{ribbon_rows};
ghost use Rattle.desk_caster.specs.Caster.{cast};
ghost use Rattle.desk_caster.specs.Lines.{LinesHaveAll, line_cast};
ghost use Rattle.desk_caster.specs.ReadingLaws.{RibbonsHaveNoFault, RibbonsHaveOneReading};

use desk_case::MatrixCase;
use desk_ribbon::PunchLine;
use desk_wedge::Wedge;
use std::alloc::Allocator;

/// The rows of lines whose cells the case has, cast from the last to the first, give exactly these lines, with their
/// matrices, positions and totals.
pub fn lines_come_back<A: Allocator>(case: &MatrixCase, wedge: &Wedge, lines: &[PunchLine<A>])
    requires { LinesHaveAll case.now lines.now }
    ensures { cast case.now wedge.now (ribbon_rows lines.now) ≡ Ok (map (line_cast case.now wedge.now) lines.now) }
{}

/// No ribbon has a fault: what `read_ribbon` refuses for another cause than memory is no ribbon.
pub fn ribbons_have_no_fault()
    ensures { RibbonsHaveNoFault }
{}

/// Bytes are the ribbon of one list of rows at most.
pub fn ribbons_have_one_reading()
    ensures { RibbonsHaveOneReading }
{}
