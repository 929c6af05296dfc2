//! Lines that were sent out, and the line in progress.
ghost use Rattle.std.specs.Prelude.{◌≡◌, ◌+◌, ◌*◌, ◌<◌, ◌≤◌, ◌^◌, [], ◌∷◌, IfOk, length, ◌+ℤ◌};
ghost use Rattle.desk_units.specs.WedgeSum.{sum_at};
ghost use Rattle.desk_caster.specs.Bounds.{IsWithin};
ghost use Rattle.desk_caster.specs.Caster.{sent_out};

use crate::CastMatrix;
use desk_memory::NoMemory;
use desk_signals::Position;
use desk_units::{Atoms, WedgeSum};
use std::alloc::Allocator;
use std::marker::Model;

/// A line that was sent out: its positions, its matrices in reading order, and the width of all of them.
#[derive(Drop)]
pub struct CastLine<A: Allocator> {
    coarse: Position,
    fine: Position,
    matrices: Vec<CastMatrix, A>,
    total: Atoms,
}

impl<A: Allocator> Model for CastLine<A> {
    ghost use Rattle.desk_caster.specs.Caster.{Line};

    ghost Value = { Line };

    ghost view = { λ l. record { coarse = l.coarse; fine = l.fine; matrices = l.matrices.items; total = l.total } };
}

impl<A: Allocator> CastLine<A> {
    /// The position of the 0075 wedge.
    pub fn coarse(&self) -> Position
        ensures { result ≡ self.now.coarse }
    {
        self.coarse
    }

    /// The position of the 0005 wedge.
    pub fn fine(&self) -> Position
        ensures { result ≡ self.now.fine }
    {
        self.fine
    }

    /// The matrices, in reading order.
    pub fn matrices(&self) -> &[CastMatrix]
        ensures { result.now ≡ self.now.matrices }
    {
        self.matrices.as_slice()
    }

    /// The width of all the matrices, in atoms.
    pub fn total(&self) -> Atoms
        ensures { result ≡ self.now.total }
    {
        self.total
    }
}

/// A line in progress. Its matrices are kept in the order met, which is the reverse of reading order.
#[derive(Drop)]
pub struct Begun<A: Allocator> {
    started: u32,
    coarse: Position,
    fine: Position,
    met: Vec<CastMatrix, A>,
    total: Atoms,
}

impl<A: Allocator> Model for Begun<A> {
    ghost use Rattle.std.specs.Prelude.{reverse};
    ghost use Rattle.desk_caster.specs.Caster as caster;
    ghost use Rattle.desk_caster.specs.Bounds.{IsTotal};

    ghost Value = { caster.Begun };

    ghost view = { λ b. record {
      started = b.started;
      coarse = b.coarse;
      fine = b.fine;
      matrices = reverse b.met.items;
    } };

    ghost invariant = { λ b. IsTotal b.total (reverse b.met.items) };
}

impl<A: Allocator + Copy> Begun<A> {
    /// A line that the Coarse row of this place starts.
    pub fn new(alloc: A, started: u32, coarse: Position, fine: Position) -> Self
        ensures { result ≡ record { started = started; coarse = coarse; fine = fine; matrices = [] } }
    {
        Begun {
            started,
            coarse,
            fine,
            met: Vec::new(alloc),
            total: Atoms::new(0),
        }
    }

    /// The place of the Coarse row that started the line.
    pub fn started(&self) -> u32
        ensures { result ≡ self.now.started }
    {
        self.started
    }

    /// The wedge sum of the line's positions.
    pub fn wedge_sum(&self) -> WedgeSum
        ensures { result ≡ sum_at self.now.coarse self.now.fine }
    {
        WedgeSum::of_positions(self.coarse, self.fine)
    }

    /// The line with a matrix cast before its others.
    pub fn with(self, matrix: CastMatrix) -> Result<Self, NoMemory>
        requires width { IsWithin matrix.width 1 }
        requires room { length self.matrices + 1 < 2 ^ 32 }
        ensures { IfOk result (λ b. b ≡ record self { matrices = matrix ∷ self.matrices }) }
    {
        let Begun {
            started,
            coarse,
            fine,
            mut met,
            total,
        } = self;
        let wider = sum(matrix.width, total);
        met.push(matrix)?;
        Ok(Begun {
            started,
            coarse,
            fine,
            met,
            total: wider,
        })
    }

    /// The line as it is sent out.
    pub fn sent_out(self) -> CastLine<A>
        ensures { result ≡ sent_out self }
    {
        let Begun {
            coarse,
            fine,
            mut met,
            total,
            ..
        } = self;
        met.reverse();
        CastLine {
            coarse,
            fine,
            matrices: met,
            total,
        }
    }
}

/// The sum of two widths.
fn sum(a: Atoms, b: Atoms) -> Atoms
    requires { IsWithin (a +ℤ b) (2 ^ 32) }
    ensures { result ≡ a +ℤ b }
{
    Atoms::new(a.get() + b.get())
}
