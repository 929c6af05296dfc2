//! The lines of a galley as text, each with its figures.

ghost use Rattle.std.specs.Prelude.{◌≡◌, ◌++◌, ◌≤◌, All, OnOk, option_and_then, string_bytes};
ghost use Rattle.desk_job.specs.Setting.{IsWord};
ghost use Rattle.view_proof.specs.Lines.{HasWords, above_hand, figures_text, gauge_text, hand, hand_text, mark_text};
ghost use Rattle.view_proof.specs.Lines.{pair_text, place_between, line_text, lines_text, set_text, sum_text};
ghost use Rattle.view_proof.specs.Parts.{right};

use crate::marked::put_words;
use crate::parts::{begin_of, put_fills, put_left, put_many, put_number, put_right};
use crate::scale::Scale;
use desk_ops::Symbol;
use desk_signals::Position;
use itoa::Buffer;
use std::alloc::{AllocError, Allocator};
use view_galley::Line;

/// How far a gauge goes.
const GAUGE: usize = 20;

/// Writes the positions of the wedges, coarse and fine.
fn put_pair<A: Allocator + Copy>(
    out: &mut String<A>,
    pair: Option<(Position, Position)>,
) -> Result<(), AllocError>
    ensures { OnOk result (string_bytes out.new ≡ string_bytes out.old ++ pair_text pair) }
{
    let Some((coarse, fine)) = pair else {
        return out.push_str("     - ");
    };
    put_number(out, 4, u64::from(coarse.get()))?;
    out.push_str("/")?;
    let mut digits = Buffer::new();
    put_left(out, 2, digits.format(fine.get()))
}

/// Writes a wedge sum at the right of a column.
fn put_sum_right<A: Allocator + Copy>(
    out: &mut String<A>,
    width: usize,
    sum: Option<i64>,
) -> Result<(), AllocError>
    ensures { OnOk result (string_bytes out.new ≡ string_bytes out.old ++ right width (sum_text sum)) }
{
    let Some(sum) = sum else {
        return put_right(out, width, "-");
    };
    let mut digits = Buffer::new();
    put_right(out, width, digits.format(sum))
}

/// Writes a wedge sum.
pub fn put_sum<A: Allocator + Copy>(out: &mut String<A>, sum: Option<i64>) -> Result<(), AllocError>
    ensures { OnOk result (string_bytes out.new ≡ string_bytes out.old ++ sum_text sum) }
{
    match sum {
        Some(sum) => write!(out, "{sum}"),
        None => out.push_str("-"),
    }
}

/// Where a number stands between two, from 0 to 20.
fn place_between(low: u32, high: u32, sum: i64) -> usize
    ensures value { result ≡ place_between low high sum }
    ensures limit { result ≤ GAUGE }
{
    if sum <= low as i64 {
        0
    } else if sum >= high as i64 {
        GAUGE
    } else {
        (sum as usize - low as usize) * GAUGE / (high as usize - low as usize)
    }
}

/// The hand of a gauge above loose, where a line that is filled may stand.
fn above_hand(is_faulty: bool) -> char
    ensures { result ≡ above_hand is_faulty }
{
    if is_faulty { '>' } else { '+' }
}

/// The hand of a gauge, of a line with a fault or without.
fn hand(low: u32, high: u32, is_faulty: bool, sum: i64) -> char
    ensures { result ≡ hand low high is_faulty sum }
{
    if sum < low as i64 {
        '<'
    } else if sum > high as i64 {
        above_hand(is_faulty)
    } else {
        '|'
    }
}

/// Writes a hand at a place over dots.
fn put_hand<A: Allocator + Copy>(
    out: &mut String<A>,
    place: usize,
    hand: char,
) -> Result<(), AllocError>
    requires { place ≤ GAUGE }
    ensures { OnOk result (string_bytes out.new ≡ string_bytes out.old ++ hand_text place hand) }
{
    put_many(out, '.', place)?;
    out.push(hand)?;
    put_many(out, '.', GAUGE - place)
}

/// Writes a wedge sum as a hand between tight and loose, of a line with a fault or without.
fn put_gauge<A: Allocator + Copy>(
    out: &mut String<A>,
    scale: Scale,
    is_faulty: bool,
    sum: Option<i64>,
) -> Result<(), AllocError>
    ensures { OnOk result (string_bytes out.new ≡ string_bytes out.old ++ gauge_text scale is_faulty sum) }
{
    let Some(sum) = sum else {
        return put_many(out, '.', GAUGE + 1);
    };
    let place = place_between(scale.tight, scale.loose, sum);
    put_hand(out, place, hand(scale.tight, scale.loose, is_faulty, sum))
}

/// The mark of a line with a fault, and of another.
fn mark(is_faulty: bool) -> &'static str
    ensures { result.now ≡ mark_text is_faulty }
{
    if is_faulty { " ! " } else { "   " }
}

/// Writes the figures of a line.
fn put_figures<A: Allocator + Copy>(
    out: &mut String<A>,
    scale: Scale,
    line: &Line<A>,
) -> Result<(), AllocError>
    ensures { OnOk result (string_bytes out.new ≡ string_bytes out.old ++ figures_text scale line.now) }
{
    put_number(out, 6, line.number() as u64)?;
    put_number(out, 8, begin_of(line.words()) as u64)?;
    put_pair(out, line.positions())?;
    put_sum_right(out, 6, line.wedge_sum())?;
    out.push_str("  ")?;
    put_gauge(out, scale, line.is_faulty(), line.wedge_sum())
}

/// Writes the words of a line, and its fills.
pub fn put_set<A: Allocator + Copy>(
    out: &mut String<A>,
    copy: &[Symbol],
    line: &Line<A>,
) -> Result<(), AllocError>
    requires { All (IsWord copy.now) (line.now).words }
    ensures { OnOk result (string_bytes out.new ≡ string_bytes out.old ++ set_text copy.now line.now) }
{
    put_words(out, copy, line.words())?;
    put_fills(out, line.fills())?;
    out.push_str("\n")
}

/// Writes a line with its figures.
fn put_line<A: Allocator + Copy>(
    out: &mut String<A>,
    copy: &[Symbol],
    scale: Scale,
    line: &Line<A>,
) -> Result<(), AllocError>
    requires { All (IsWord copy.now) (line.now).words }
    ensures { OnOk result (string_bytes out.new ≡ string_bytes out.old ++ line_text copy.now scale line.now) }
{
    put_figures(out, scale, line)?;
    out.push_str(mark(line.is_faulty()))?;
    put_set(out, copy, line)
}

/// Writes lines with their figures.
pub fn put_lines<A: Allocator + Copy>(
    out: &mut String<A>,
    copy: &[Symbol],
    scale: Scale,
    lines: &[Line<A>],
) -> Result<(), AllocError>
    requires { All (HasWords copy.now) lines.now }
    ensures { OnOk result (string_bytes out.new ≡ string_bytes out.old ++ lines_text copy.now scale lines.now) }
{
    for line in lines {
        put_line(out, copy, scale, line)?;
    }
    Ok(())
}
