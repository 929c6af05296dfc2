//! Which rows of a ribbon are those of lines.

ghost use Rattle.std.specs.Prelude.{◌≡◌, ◌≤◌, ◌+◌, ◌<◌, ◌^◌, length};
ghost use Rattle.view_ribbon.specs.Stretch.{coarse_through, first_drawn, front, line_of, rows_drawn};

use crate::extent::Lines;
use desk_signals::RibbonRow;

/// The line of a row, from 1, where so many Coarse rows come before it.
fn line_of(before: u64, row: &RibbonRow) -> u64
    requires { before + 1 < 2 ^ 64 }
    ensures { result ≡ line_of before row.now }
{
    match row {
        RibbonRow::Cell { .. } | RibbonRow::Coarse(_) => before + 1,
        RibbonRow::FineOut(_) => before,
    }
}

/// How many Coarse rows come before the row behind it.
fn coarse_through(before: u64, row: &RibbonRow) -> u64
    requires { before + 1 < 2 ^ 64 }
    ensures value { result ≡ coarse_through before row.now }
    ensures within { result ≤ before + 1 }
{
    match row {
        RibbonRow::Coarse(_) => before + 1,
        RibbonRow::Cell { .. } | RibbonRow::FineOut(_) => before,
    }
}

/// How many rows come before the first one of a line behind the last.
fn front(last: u64, rows: &[RibbonRow]) -> usize
    ensures value { result ≡ front last rows.now }
    ensures within { result ≤ length rows.now }
{
    let mut before = 0;
    let mut place = 0;
    for row in rows {
        if last < line_of(before, row) {
            return place;
        }
        before = coarse_through(before, row);
        place += 1;
    }
    place
}

/// The rows that are drawn, all or those of lines, behind the place of their first one. A row is of a line by the
/// number of Coarse rows before it: a FineOut row is of that number, and any other of the next. So the rows of lines
/// are one stretch, from the first row that is of the first line or of one behind it, up to the first that is of a line
/// behind the last.
pub fn drawn_of<'a>(lines: Option<Lines>, rows: &'a [RibbonRow]) -> (usize, &'a [RibbonRow])
    ensures first { result.0 ≡ first_drawn lines rows.now }
    ensures rows { (result.1).now ≡ rows_drawn lines rows.now }
    ensures within { result.0 + length (result.1).now ≤ length rows.now }
{
    let Some(lines) = lines else {
        return (0, rows);
    };
    let kept = &rows[..front(lines.last, rows)];
    let first = front(lines.first.saturating_sub(1), kept);
    (first, &kept[first..])
}
