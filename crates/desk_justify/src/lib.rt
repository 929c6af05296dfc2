//! Wedge positions that justify a line, and fills for a line that its own spaces do not.
//!
//! The wedges move all spaces of a line by one width, in whole steps of 0.0005 inch. The steps are rounded down, so
//! that no line is wider than its measure, and each is short of it by less than a step for each space. Fills are taken
//! widest first, as often as each fits: few matrices then come near the measure.
#![tactic(auto)]

ghost use Rattle.std.specs.Prelude.{◌≡◌, ◌≤◌, ◌^◌, ◌↔◌, pos, ◌≤ℤ◌, IfSome, IsNone, MatchOption, length};
ghost use Rattle.desk_units.specs.WedgeSum.{IsOutside, IsWedgeSum, pair_of};
ghost use Rattle.desk_justify.specs.Positions.{Justifies, sum_of};
ghost use Rattle.desk_justify.specs.Filled.{ArePositive, Descend, fills_of, room};

pub mod laws;

use arrayvec::ArrayVec;
use desk_signals::Position;
use desk_units::{Atoms, WedgeSum, floor_steps};

/// The wedge sum at which 1 to 2^32 spaces take up the rest, but for less than a step for each; none where the wedges
/// do not reach so far.
pub fn wedge_sum(rest: Atoms, spaces: u64) -> Option<WedgeSum>
    requires some { 1 ≤ spaces }
    requires limit { spaces ≤ 2 ^ 32 }
    ensures { MatchOption result (IsOutside (sum_of rest spaces)) (λ sum. (pos sum ≡ sum_of rest spaces)
        × IsWedgeSum sum) }
{
    WedgeSum::from_steps(floor_steps(rest, spaces))
}

/// The positions of the coarse and the fine wedge at which 1 to 2^32 spaces take up the rest, but for less than a
/// step for each; none where the wedges do not reach so far.
pub fn positions(rest: Atoms, spaces: u64) -> Option<(Position, Position)>
    requires some { 1 ≤ spaces }
    requires limit { spaces ≤ 2 ^ 32 }
    ensures justified { IfSome result (λ p. Justifies rest spaces p.0 p.1) }
    ensures outside { IsNone result ↔ IsOutside (sum_of rest spaces) }
    ensures value { result ≡ pair_of (sum_of rest spaces) }
{
    let sum = wedge_sum(rest, spaces)?;
    Some(sum.positions())
}

/// What may be filled: nothing where the rest is negative.
fn room(rest: Atoms) -> u64
    ensures { result ≡ room rest }
{
    u64::try_from(rest.get()).unwrap_or(0)
}

/// How often each of one to four fills is used, the widest first: as often as it fits in what those before it leave of
/// the rest, and never where the rest is negative. The rest is at most 2^31 atoms, the widths are above 0, and each is
/// less than the one before.
pub fn fill(rest: Atoms, widths: &[Atoms]) -> ArrayVec<u32, 4>
    requires some { 1 ≤ length widths.now }
    requires four { length widths.now ≤ 4 }
    requires positive { ArePositive widths.now }
    requires descending { Descend widths.now }
    requires limit { rest ≤ℤ pos (2 ^ 31) }
    ensures { result.items ≡ fills_of rest widths.now }
{
    let mut counts = ArrayVec::new();
    let mut left = room(rest);
    for width in widths {
        let width = width.get() as u64;
        let count = left / width;
        left -= count * width;
        counts.push(count as u32);
    }
    counts
}
