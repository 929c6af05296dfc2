//! Wedge sums: how far the justification wedges of the Monotype caster drive the spaces of a line apart.
//!
//! The caster sets the width of a justified space by two wedges, each at one of 15 positions. A step of the coarse
//! wedge is 0.0075 inch and one of the fine wedge 0.0005 inch, so 15 times the first position and the second together
//! are one number in steps of 0.0005 inch, and each number from 16 to 240 is that of one pair. The signals of the
//! wedges are named 0075 and 0005 for these steps. That a space has the width of its units at 3 and 8 is this project's
//! choice.

use crate::Atoms;
use crate::widths::ATOMS_PER_STEP;
use desk_signals::Position;
use std::marker::Model;

/// A wedge sum: 15 times the position of the coarse wedge and the position of the fine wedge, 16 to 240.
#[derive(Clone, Copy, PartialEq, Eq, PartialOrd, Ord, Debug)]
pub struct WedgeSum {
    sum: u8,
}

impl Model for WedgeSum {
    ghost use Rattle.std.specs.Prelude.{ℕ};
    ghost use Rattle.desk_units.specs.WedgeSum.{IsWedgeSum};

    ghost Value = { ℕ };

    ghost view = { λ w. w.sum };

    ghost invariant = { λ w. IsWedgeSum w.sum };

    ghost inverse = { λ n. record { sum = n } };
}

impl WedgeSum {
    ghost use Rattle.std.specs.Prelude.{◌≡◌, ◌≤◌, ◌≤ℤ◌, pos, SomeIff, MatchOption};
    ghost use Rattle.desk_units.specs.WedgeSum.{IsOutside, IsWedgeSum, coarse_of, driven, fine_of, greatest, least};
    ghost use Rattle.desk_units.specs.WedgeSum.{neutral, sum_at, widening};

    /// The sum at which a space has the width of its units: the positions 3 and 8.
    pub const NEUTRAL: WedgeSum = WedgeSum { sum: 15 * 3 + 8 };

    /// The greatest sum, with both wedges at their last position.
    pub const GREATEST: WedgeSum = WedgeSum { sum: 15 * 15 + 15 };

    /// The wedge sum of this number, 16 to 240, or none.
    pub fn new(sum: u32) -> Option<WedgeSum>
        ensures { SomeIff result (IsWedgeSum sum) sum }
    {
        if sum >= 16 && sum <= 240 {
            Some(WedgeSum { sum: sum as u8 })
        } else {
            None
        }
    }

    /// The wedge sum so many steps of 0.0005 inch above neutral, or below it, or none where the wedges do not reach so
    /// far.
    pub fn from_steps(steps: i64) -> Option<WedgeSum>
        ensures { MatchOption result (IsOutside (driven steps)) (λ sum. pos sum ≡ driven steps) }
    {
        let neutral = WedgeSum::NEUTRAL.sum as i64;
        let sum = u32::try_from(neutral.checked_add(steps)?).ok()?;
        WedgeSum::new(sum)
    }

    /// The sum of a position of the coarse wedge and one of the fine wedge.
    pub fn of_positions(coarse: Position, fine: Position) -> WedgeSum
        ensures { result ≡ sum_at coarse fine }
    {
        WedgeSum {
            sum: 15 * coarse.get() + fine.get(),
        }
    }

    /// The positions of the coarse and the fine wedge, the one pair with this sum.
    pub fn positions(self) -> (Position, Position)
        ensures { result ≡ (coarse_of self, fine_of self) }
    {
        let coarse = Position::new((self.sum - 1) / 15).unwrap();
        let fine = Position::new((self.sum - 1) % 15 + 1).unwrap();
        (coarse, fine)
    }

    /// Its number.
    pub fn get(self) -> u8
        ensures value { result ≡ self }
        ensures range { IsWedgeSum self }
    {
        self.sum
    }

    /// How much wider than its units a justified matrix is, less than 0 below neutral.
    pub fn widening(self) -> Atoms
        ensures value { result ≡ widening self }
        ensures low { widening least ≤ℤ result }
        ensures high { result ≤ℤ widening greatest }
    {
        Atoms::new(ATOMS_PER_STEP * (self.sum as i64 - WedgeSum::NEUTRAL.sum as i64))
    }
}
