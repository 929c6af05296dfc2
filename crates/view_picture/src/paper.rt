//! Where things stand on the paper, in hundredths of a point.

ghost use Rattle.std.specs.Prelude.{◌≡◌, ◌+◌, ◌*◌, ◌/◌, ◌≤◌, ◌^◌};
ghost use Rattle.desk_units.specs.Widths.{point_atoms};
ghost use Rattle.view_picture.specs.Paper.{across, foot, leading};

use desk_units::{Pica, point_atoms};
use view_proof::Scale;

/// Where the frame begins, from the left.
pub const EDGE: u128 = 10_000;

/// What a galley is drawn by: the pica and the limits of a wedge sum; the set of the wedge; and where the frame begins,
/// from the top.
#[derive(Clone, Copy, PartialEq, Eq, Debug)]
pub struct Paper {
    pub scale: Scale,
    /// In hundredths of a point, as the letters are high.
    pub set: u32,
    /// In hundredths of a point.
    pub top: u128,
}

/// A number over the atoms of a point.
fn over_point(pica: Pica, n: u128) -> u128
    ensures value { result ≡ n / point_atoms pica }
    ensures limit { result ≤ n }
{
    n / point_atoms(pica) as u128
}

/// So many atoms from the edge of the frame, rounded down.
pub fn across(pica: Pica, atoms: u128) -> u128
    requires { atoms ≤ 2 ^ 112 }
    ensures value { result ≡ across pica atoms }
    ensures limit { result ≤ 2 ^ 120 }
{
    EDGE + over_point(pica, atoms * 100)
}

/// How far apart lines stand: the set of the wedge, and 4 points.
pub fn leading(paper: Paper) -> u128
    ensures value { result ≡ leading paper }
    ensures limit { result ≤ 2 ^ 33 }
{
    paper.set as u128 + 400
}

/// Where the letters of the line of a number stand, from the top.
pub fn foot(paper: Paper, number: usize) -> u128
    requires { paper.top ≤ 2 ^ 100 }
    ensures value { result ≡ foot paper number }
    ensures limit { result ≤ 2 ^ 101 }
{
    paper.top + leading(paper) * number as u128
}
