//! The widths of a line as it is drawn, in atoms.

ghost use Rattle.std.specs.Prelude.{◌≡◌, ◌+◌, ◌≤◌, ◌^◌, max, length};
ghost use Rattle.desk_lines.specs.Groups.{widest_matrix};
ghost use Rattle.desk_job.specs.Job as job;
ghost use Rattle.view_picture.specs.Widths.{drawn_space, frame_or, reach, space_at, widest, widest_from};

use desk_job::terms::{Terms, whole};
use desk_signals::Position;
use desk_units::WedgeSum;
use std::alloc::Allocator;
use view_galley::Line;

/// A space as it is cast at these positions of the wedges, at neutral where there are none.
fn space_at(terms: &Terms, positions: Option<(Position, Position)>) -> u64
    ensures value { result ≡ space_at terms.now positions }
    ensures limit { result ≤ widest_matrix }
{
    let Some((coarse, fine)) = positions else {
        return terms.space();
    };
    let widening = WedgeSum::of_positions(coarse, fine).widening().get();
    let width = terms.space() as i64 + widening;
    if width > 0 { width as u64 } else { 0 }
}

/// A space of a line: at its wedge sum, or at neutral where the wedges do not reach it.
pub fn drawn_space<A: Allocator>(terms: &Terms, line: &Line<A>) -> u64
    ensures value { result ≡ drawn_space terms.now line.now }
    ensures limit { result ≤ widest_matrix }
{
    space_at(terms, line.positions())
}

/// How far the words and spaces of a line go.
fn reach<A: Allocator>(terms: &Terms, line: &Line<A>) -> u128
    ensures value { result ≡ reach terms.now line.now }
    ensures limit { result ≤ 2 ^ 90 }
{
    let spaces = line.spaces() as u128;
    let words = (line.width() as u128).saturating_sub(spaces * terms.space() as u128);
    words + spaces * drawn_space(terms, line) as u128
}

/// The measure.
fn measure(terms: &Terms) -> u128
    ensures value { result ≡ job.measure terms.now }
    ensures limit { result ≤ 2 ^ 90 }
{
    whole(terms.measure()) as u128
}

/// The measure, or how far a line goes that goes further.
pub fn frame_or<A: Allocator>(terms: &Terms, line: &Line<A>) -> u128
    ensures value { result ≡ frame_or terms.now line.now }
    ensures limit { result ≤ 2 ^ 90 }
{
    measure(terms).max(reach(terms, line))
}

/// The measure, or how far the widest line goes where that is further.
pub fn widest<A: Allocator>(terms: &Terms, lines: &[Line<A>]) -> u128
    ensures value { result ≡ widest terms.now lines.now }
    ensures limit { result ≤ 2 ^ 90 }
{
    let mut most = measure(terms);
    for line in lines {
        most = most.max(reach(terms, line));
    }
    most
}
