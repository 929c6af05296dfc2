//! Ribbons: lines of matrices as rows, and rows as bytes.
//!
//! The caster reads a ribbon from its end, as in the Monotype system, so the rows that set the wedges for a line are
//! punched after its matrices. The bytes are this project's: a magic, the number of rows, and an image of each.
#![tactic(auto)]

mod bytes;
mod writer;

pub use bytes::write_ribbon;
use desk_signals::{Cell, Position};
use std::alloc::Allocator;
use std::marker::Model;
pub use writer::RibbonWriter;

/// A matrix to be cast; with `s` its width is that of a justified space.
#[derive(Clone, Copy, PartialEq, Eq, Debug)]
pub struct Punch {
    pub cell: Cell,
    pub s: bool,
}

/// Matrices to be cast, in reading order.
#[derive(Drop)]
pub struct Punches<A: Allocator> {
    punches: Vec<Punch, A>,
}

impl<A: Allocator> Model for Punches<A> {
    ghost use Rattle.std.specs.Prelude.{List};
    ghost use Rattle.desk_ribbon.specs.declared.Punch.{Punch};

    ghost Value = { List Punch };

    ghost view = { λ m. m.punches.items };
}

impl<A: Allocator> Punches<A> {
    ghost use Rattle.std.specs.Prelude.{◌≡◌};

    /// These matrices, in reading order.
    pub fn from_vec(punches: Vec<Punch, A>) -> Punches<A>
        ensures { result ≡ punches.items }
    {
        Punches { punches }
    }

    /// The matrices, in reading order.
    pub fn as_slice(&self) -> &[Punch]
        ensures { result.now ≡ self.now }
    {
        self.punches.as_slice()
    }
}

/// A line to be cast, with the positions of its wedges.
#[derive(Drop)]
pub struct PunchLine<A: Allocator> {
    pub matrices: Punches<A>,
    pub coarse: Position,
    pub fine: Position,
}
