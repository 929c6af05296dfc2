//! What the figures of a proof are written by.

use desk_units::Pica;

/// The pica, by which widths are written in points, the limits of a wedge sum, and the atoms of a space at tight.
#[derive(Clone, Copy, PartialEq, Eq, Debug)]
pub struct Scale {
    pub pica: Pica,
    pub tight: u32,
    pub loose: u32,
    pub space: u32,
}
