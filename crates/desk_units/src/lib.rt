//! Widths of type in atoms, of which a step of 0.0005 inch has 648, and the sums of wedge positions.
//!
//! In the Monotype system a unit is an 18th of the set, and a set of q quarter points is q/4 points. Where a pica, 12
//! points, is a sixth of an inch, u units are u*q/5184 inch, which is u*q*250/648 steps, and where it is 0.1660 inch
//! they are u*q*249/648. So in atoms all widths and measures are whole numbers, and no width is rounded.
#![tactic(auto)]

ghost use Rattle.std.specs.Prelude.{◌≡◌, ◌≤◌, ◌^◌, SomeIff, pos};

pub mod laws;
mod wedge_sum;
mod widths;

use std::marker::Model;
pub use wedge_sum::WedgeSum;
pub use widths::{floor_steps, measure, point_atoms, width};

/// A width in atoms; a step of 0.0005 inch has 648 of them.
#[derive(Clone, Copy, PartialEq, Eq, Debug)]
pub struct Atoms(i64);

impl Model for Atoms {
    ghost use Rattle.std.specs.Prelude.{ℤ};

    ghost Value = { ℤ };

    ghost view = { λ a. a.0 };

    ghost inverse = { λ z. record { 0 = z } };
}

impl Atoms {
    /// So many atoms.
    pub fn new(atoms: i64) -> Atoms
        ensures { result ≡ atoms }
    {
        Atoms(atoms)
    }

    /// The number of atoms.
    pub fn get(self) -> i64
        ensures { result ≡ self }
    {
        self.0
    }
}

/// The length of a pica: a sixth of an inch, or 0.1660 inch.
#[derive(Clone, Copy, PartialEq, Eq, Debug)]
pub enum Pica {
    Sixth,
    American,
}

/// The set of a wedge in quarter points, 20 to 96.
#[derive(Clone, Copy, PartialEq, Eq, Debug)]
pub struct SetQ {
    quarters: u8,
}

impl Model for SetQ {
    ghost use Rattle.std.specs.Prelude.{ℕ, ◌≤◌};

    ghost Value = { ℕ };

    ghost view = { λ q. q.quarters };

    ghost invariant = { λ q. (20 ≤ q.quarters) × (q.quarters ≤ 96) };

    ghost inverse = { λ n. record { quarters = n } };
}

impl SetQ {
    /// The set of so many quarter points, 20 to 96, or none.
    pub fn new(quarters: u8) -> Option<SetQ>
        ensures { SomeIff result ((20 ≤ quarters) × (quarters ≤ 96)) quarters }
    {
        if quarters >= 20 && quarters <= 96 {
            Some(SetQ { quarters })
        } else {
            None
        }
    }

    /// Its quarter points.
    pub fn get(self) -> u8
        ensures value { result ≡ self }
        ensures low { 20 ≤ self }
        ensures high { self ≤ 96 }
    {
        self.quarters
    }
}
