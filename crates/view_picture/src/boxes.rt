//! The fills of a line as boxes.

ghost use Rattle.std.specs.Prelude.{◌≡◌, ◌+◌, ◌++◌, ◌≤◌, ◌^◌, length, OnOk, string_bytes};
ghost use Rattle.std.specs.List.{zip};
ghost use Rattle.view_picture.specs.Boxes.{box_text, boxes_text, fills_text, height, rise_text, span_text};

use crate::paper::{Paper, across};
use desk_units::{Atoms, Pica};
use std::alloc::{AllocError, Allocator};
use view_galley::put_attribute;

/// How high a box is: two thirds of the set of the wedge.
fn height(paper: Paper) -> u128
    ensures { result ≡ height paper }
{
    paper.set as u128 * 2 / 3
}

/// Writes where a matrix stands from the left that goes from here to there, and how wide it is.
fn put_span<A: Allocator + Copy>(
    out: &mut String<A>,
    pica: Pica,
    from: u128,
    to: u128,
) -> Result<(), AllocError>
    requires from { from ≤ 2 ^ 112 }
    requires to { to ≤ 2 ^ 112 }
    ensures { OnOk result (string_bytes out.new ≡ string_bytes out.old ++ span_text pica from to) }
{
    let left = across(pica, from);
    put_attribute(out, "x", left)?;
    put_attribute(out, "width", across(pica, to).saturating_sub(left))
}

/// Writes where a matrix stands from the top, on a line, and how high it is.
fn put_rise<A: Allocator + Copy>(
    out: &mut String<A>,
    paper: Paper,
    y: u128,
) -> Result<(), AllocError>
    ensures { OnOk result (string_bytes out.new ≡ string_bytes out.old ++ rise_text paper y) }
{
    let height = height(paper);
    put_attribute(out, "y", y.saturating_sub(height))?;
    put_attribute(out, "height", height)
}

/// Writes the box of a matrix that goes from here to there.
fn put_box<A: Allocator + Copy>(
    out: &mut String<A>,
    paper: Paper,
    y: u128,
    from: u128,
    to: u128,
) -> Result<(), AllocError>
    requires from { from ≤ 2 ^ 112 }
    requires to { to ≤ 2 ^ 112 }
    ensures { OnOk result (string_bytes out.new ≡ string_bytes out.old ++ box_text paper y from to) }
{
    out.push_str("<rect class=\"b\"")?;
    put_span(out, paper.scale.pica, from, to)?;
    put_rise(out, paper, y)?;
    out.push_str("/>\n")
}

/// Writes so many boxes of one width, the first of which begins here.
fn put_boxes<A: Allocator + Copy>(
    out: &mut String<A>,
    paper: Paper,
    y: u128,
    width: u64,
    here: u128,
    count: u32,
) -> Result<(), AllocError>
    requires { here ≤ 2 ^ 110 }
    ensures { OnOk result (string_bytes out.new ≡ string_bytes out.old ++ boxes_text paper y width here count) }
{
    let mut from = here;
    for _ in 0..count {
        let to = from + width as u128;
        put_box(out, paper, y, from, to)?;
        from = to;
    }
    Ok(())
}

/// Writes a box for each fill, as often as it is used, the first of which begins here.
pub fn put_fills<A: Allocator + Copy>(
    out: &mut String<A>,
    paper: Paper,
    y: u128,
    here: u128,
    counts: &[u32],
    widths: &[Atoms],
) -> Result<(), AllocError>
    requires here { here ≤ 2 ^ 106 }
    requires number { length counts.now ≤ length widths.now }
    requires four { length widths.now ≤ 4 }
    ensures { OnOk result
        (string_bytes out.new ≡ string_bytes out.old ++ fills_text paper y here (zip counts.now widths.now)) }
{
    let mut next = here;
    for (i, count) in counts.iter().enumerate() {
        let width = widths[i].get().unsigned_abs();
        put_boxes(out, paper, y, width, next, *count)?;
        next += *count as u128 * width as u128;
    }
    Ok(())
}
