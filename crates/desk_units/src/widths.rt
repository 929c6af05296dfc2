//! Widths of units and measures, and the division of what a line lacks among its spaces.

ghost use Rattle.std.specs.Prelude.{◌≡◌, ◌≤◌, ◌^◌, pos};
ghost use Rattle.desk_units.specs.Widths.{IsSteps, measure_width, point_atoms, steps_of, unit_atoms, units_width};

use crate::{Atoms, Pica, SetQ};

/// The atoms of a step of 0.0005 inch.
pub const ATOMS_PER_STEP: i64 = 648;

/// The atoms of a unit for each quarter point of the set.
fn unit_atoms(pica: Pica) -> u32
    ensures { result ≡ unit_atoms pica }
{
    match pica {
        Pica::Sixth => 250,
        Pica::American => 249,
    }
}

/// The atoms of a point.
pub fn point_atoms(pica: Pica) -> u32
    ensures value { result ≡ point_atoms pica }
    ensures some { 1 ≤ result }
    ensures small { result ≤ 18000 }
{
    72 * unit_atoms(pica)
}

/// The width of 1 to 24 units.
pub fn width(units: u8, set: SetQ, pica: Pica) -> Atoms
    requires some { 1 ≤ units }
    requires limit { units ≤ 24 }
    ensures { result ≡ pos (units_width units set pica) }
{
    let quarters = units as u32 * set.get() as u32;
    Atoms::new((quarters * unit_atoms(pica)) as i64)
}

/// A measure of 12 to 720 points.
pub fn measure(points: u32, pica: Pica) -> Atoms
    requires least { 12 ≤ points }
    requires limit { points ≤ 720 }
    ensures { result ≡ pos (measure_width points pica) }
{
    Atoms::new((points * point_atoms(pica)) as i64)
}

/// The whole number of steps for each of 1 to 2^32 spaces, below 0 too, that leaves at least 0 and less than a step for
/// each space of the atoms.
pub fn floor_steps(atoms: Atoms, spaces: u64) -> i64
    requires some { 1 ≤ spaces }
    requires limit { spaces ≤ 2 ^ 32 }
    ensures steps { IsSteps atoms spaces result }
    ensures value { result ≡ steps_of atoms spaces }
{
    atoms.get().div_euclid(ATOMS_PER_STEP * spaces as i64)
}
