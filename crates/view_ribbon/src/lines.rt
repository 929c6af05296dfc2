//! The lines of a ribbon as text.

ghost use Rattle.std.specs.Prelude.{◌≡◌, ◌+◌, ◌++◌, ◌<◌, ◌^◌, IfOk, OnOk, length, take, drop, string_bytes};
ghost use Rattle.std.specs.Prelude.{unsigned_abs, ◌-ℤ◌};
ghost use Rattle.desk_caster.specs.Lines.{meaning};
ghost use Rattle.view_ribbon.specs.Casting.{cast_in};
ghost use Rattle.view_ribbon.specs.Lines.{columns_text, counts_text, figures_text, galleys_from, head_text, line_text};
ghost use Rattle.view_ribbon.specs.Lines.{lines_from, mark_text, marked_line, shown_mark, shown_text};
ghost use Rattle.view_ribbon.specs.Lines.{longest_from, longest_of, matrices_text, meaning_text, pair_text};
ghost use Rattle.view_ribbon.specs.Lines.{ribbon_text, short_text, width_text, widths_text};

use crate::casting::Casting;
use crate::extent::{Lines, is_shown};
use desk_caster::{CastLine, CastMatrix};
use desk_ops::Symbol;
use desk_signals::Position;
use desk_units::{Atoms, Pica};
use itoa::Buffer;
use std::alloc::{AllocError, Allocator};
use view_proof::{put_left, put_number, put_points_down, put_points_up, put_right, put_symbols};

/// The greatest of a width and of those of lines.
fn longest_from<A: Allocator>(width: Atoms, lines: &[CastLine<A>]) -> Atoms
    ensures { result ≡ longest_from width lines.now }
{
    let mut widest = width;
    for line in lines {
        if widest.get() < line.total().get() {
            widest = line.total();
        }
    }
    widest
}

/// The width of the longest line, or nothing where there is none.
pub fn longest_of<A: Allocator>(lines: &[CastLine<A>]) -> Atoms
    ensures { result ≡ longest_of lines.now }
{
    match lines {
        [first, rest @ ..] => longest_from(first.total(), rest),
        [] => Atoms::new(0),
    }
}

/// Writes a width in points, rounded down to a tenth.
pub fn put_width<A: Allocator + Copy>(
    out: &mut String<A>,
    pica: Pica,
    width: Atoms,
) -> Result<(), AllocError>
    ensures { OnOk result (string_bytes out.new ≡ string_bytes out.old ++ width_text pica width) }
{
    let atoms = width.get();
    if atoms < 0 {
        out.push_str("-")?;
        put_points_up(out, pica, atoms.unsigned_abs())
    } else {
        put_points_down(out, pica, atoms.unsigned_abs())
    }
}

/// How far one width is from another.
fn between(longest: Atoms, width: Atoms) -> u64
    ensures { result ≡ unsigned_abs (longest -ℤ width) }
{
    (longest.get() as i128 - width.get() as i128).unsigned_abs() as u64
}

/// A width in points.
fn width_text<A: Allocator + Copy>(
    alloc: A,
    pica: Pica,
    width: Atoms,
) -> Result<String<A>, AllocError>
    ensures { IfOk result (λ s. string_bytes s ≡ width_text pica width) }
{
    let mut text = String::new(alloc);
    put_width(&mut text, pica, width)?;
    Ok(text)
}

/// How far below the longest a width is, in points, rounded up to a tenth.
fn short_text<A: Allocator + Copy>(
    alloc: A,
    pica: Pica,
    longest: Atoms,
    width: Atoms,
) -> Result<String<A>, AllocError>
    ensures { IfOk result (λ s. string_bytes s ≡ short_text pica longest width) }
{
    let mut text = String::new(alloc);
    put_points_up(&mut text, pica, between(longest, width))?;
    Ok(text)
}

/// Writes what a matrix means, or a middle dot where it means nothing.
fn put_meaning<A: Allocator + Copy>(
    out: &mut String<A>,
    matrix: &CastMatrix,
) -> Result<(), AllocError>
    ensures { OnOk result
        (string_bytes out.new ≡ string_bytes out.old ++ meaning_text (meaning (matrix.now).s (matrix.now).symbol)) }
{
    if matrix.s {
        return put_symbols(out, &[Symbol::SPACE]);
    }
    match matrix.symbol {
        Some(symbol) => put_symbols(out, &[symbol]),
        None => out.push('·'),
    }
}

/// Writes what the matrices of a line mean.
fn put_matrices<A: Allocator + Copy>(
    out: &mut String<A>,
    matrices: &[CastMatrix],
) -> Result<(), AllocError>
    ensures { OnOk result (string_bytes out.new ≡ string_bytes out.old ++ matrices_text matrices.now) }
{
    for matrix in matrices {
        put_meaning(out, matrix)?;
    }
    Ok(())
}

/// Writes the positions of the wedges, coarse and fine.
fn put_pair<A: Allocator + Copy>(
    out: &mut String<A>,
    coarse: Position,
    fine: Position,
) -> Result<(), AllocError>
    ensures { OnOk result (string_bytes out.new ≡ string_bytes out.old ++ pair_text coarse fine) }
{
    put_number(out, 5, u64::from(coarse.get()))?;
    out.push_str("/")?;
    let mut digits = Buffer::new();
    put_left(out, 2, digits.format(fine.get()))
}

/// Writes the width of a line, and how short of the longest it is.
fn put_widths<A: Allocator + Copy>(
    alloc: A,
    out: &mut String<A>,
    pica: Pica,
    longest: Atoms,
    width: Atoms,
) -> Result<(), AllocError>
    ensures { OnOk result (string_bytes out.new ≡ string_bytes out.old ++ widths_text pica longest width) }
{
    let points = width_text(alloc, pica, width)?;
    put_right(out, 10, points.as_str())?;
    let short = short_text(alloc, pica, longest, width)?;
    put_right(out, 8, short.as_str())
}

/// Writes the number of a line, its wedge pair and its widths.
fn put_figures<A: Allocator + Copy>(
    alloc: A,
    out: &mut String<A>,
    pica: Pica,
    longest: Atoms,
    number: usize,
    line: &CastLine<A>,
) -> Result<(), AllocError>
    ensures { OnOk result (string_bytes out.new ≡ string_bytes out.old ++ figures_text pica longest number line.now) }
{
    put_number(out, 6, number as u64)?;
    put_pair(out, line.coarse(), line.fine())?;
    put_widths(alloc, out, pica, longest, line.total())
}

/// Writes a line.
pub fn put_line<A: Allocator + Copy>(
    alloc: A,
    out: &mut String<A>,
    pica: Pica,
    longest: Atoms,
    number: usize,
    line: &CastLine<A>,
) -> Result<(), AllocError>
    ensures { OnOk result (string_bytes out.new ≡ string_bytes out.old ++ line_text pica longest number line.now) }
{
    put_figures(alloc, out, pica, longest, number, line)?;
    out.push_str("  ")?;
    put_matrices(out, line.matrices())?;
    out.push_str("\n")
}

/// How lines are written: in points by this pica, each with how short of this width it is; and which are shown.
#[derive(Clone, Copy)]
struct Showing {
    pica: Pica,
    longest: Atoms,
    shown: Option<Lines>,
}

/// Writes a line with this number, where it is shown.
fn put_shown<A: Allocator + Copy>(
    alloc: A,
    out: &mut String<A>,
    showing: &Showing,
    number: usize,
    line: &CastLine<A>,
) -> Result<(), AllocError>
    ensures { OnOk result (string_bytes out.new ≡ string_bytes out.old
        ++ shown_text (showing.now).pica (showing.now).longest (showing.now).shown number line.now) }
{
    if is_shown(showing.shown, number as u64) {
        put_line(alloc, out, showing.pica, showing.longest, number, line)
    } else {
        Ok(())
    }
}

/// Writes those of lines that are shown, where so many stand before them.
fn put_lines<A: Allocator + Copy>(
    alloc: A,
    out: &mut String<A>,
    showing: &Showing,
    first: usize,
    lines: &[CastLine<A>],
) -> Result<(), AllocError>
    requires { first + length lines.now < 2 ^ 64 }
    ensures { OnOk result (string_bytes out.new ≡ string_bytes out.old
        ++ lines_from (showing.now).pica (showing.now).longest (showing.now).shown first lines.now) }
{
    let mut before = first;
    for line in lines {
        put_shown(alloc, out, showing, before + 1, line)?;
        before += 1;
    }
    Ok(())
}

/// Writes the mark of the end of a galley with this number.
#[tactic(auto, unfolding(crate::specs::Lines::mark_text))]
fn put_mark<A: Allocator + Copy>(out: &mut String<A>, number: usize) -> Result<(), AllocError>
    ensures { OnOk result (string_bytes out.new ≡ string_bytes out.old ++ mark_text number) }
{
    write!(out, "  -- end of galley {number} --\n")
}

/// The number of the line that a mark behind so many goes with: that of the last, or of the first where there is none.
fn marked_line(before: usize) -> u64
    ensures { result ≡ marked_line before }
{
    if before == 0 { 1 } else { before as u64 }
}

/// Writes the mark of a galley behind so many lines, where that line is shown.
fn put_shown_mark<A: Allocator + Copy>(
    out: &mut String<A>,
    shown: Option<Lines>,
    before: usize,
    number: usize,
) -> Result<(), AllocError>
    ensures { OnOk result (string_bytes out.new ≡ string_bytes out.old ++ shown_mark shown before number) }
{
    if is_shown(shown, marked_line(before)) {
        put_mark(out, number)
    } else {
        Ok(())
    }
}

/// The first lines, so many of them where there are as many, and the others.
fn cut<A: Allocator>(lines: &[CastLine<A>], size: usize) -> (&[CastLine<A>], &[CastLine<A>])
    ensures front { result.0.now ≡ take size lines.now }
    ensures back { result.1.now ≡ drop size lines.now }
{
    if size <= lines.len() {
        lines.split_at(size)
    } else {
        (lines, &[])
    }
}

/// Writes those of lines that are shown, with a mark behind each galley that ends. Such a galley has so many lines.
fn put_galleys<A: Allocator + Copy>(
    alloc: A,
    out: &mut String<A>,
    showing: &Showing,
    ended: &[usize],
    lines: &[CastLine<A>],
) -> Result<(), AllocError>
    ensures { OnOk result (string_bytes out.new ≡ string_bytes out.old
        ++ galleys_from (showing.now).pica (showing.now).longest (showing.now).shown 0 0 ended.now lines.now) }
{
    let mut rest = lines;
    let mut before = 0;
    for (done, size) in ended.iter().enumerate() {
        let (galley, others) = cut(rest, *size);
        put_lines(alloc, out, showing, before, galley)?;
        before += galley.len();
        put_shown_mark(out, showing.shown, before, done + 1)?;
        rest = others;
    }
    put_lines(alloc, out, showing, before, rest)
}

/// Writes how many lines there are, of how many rows.
fn put_counts<A: Allocator + Copy>(
    out: &mut String<A>,
    lines: usize,
    rows: usize,
) -> Result<(), AllocError>
    ensures { OnOk result (string_bytes out.new ≡ string_bytes out.old ++ counts_text lines rows) }
{
    write!(out, "RIBBON {lines} lines, {rows} rows")
}

/// Writes how many lines there are, of how many rows, and how long the longest is.
pub fn put_head<A: Allocator + Copy>(
    out: &mut String<A>,
    pica: Pica,
    rows: usize,
    lines: &[CastLine<A>],
) -> Result<(), AllocError>
    ensures { OnOk result (string_bytes out.new ≡ string_bytes out.old ++ head_text pica rows lines.now) }
{
    put_counts(out, lines.len(), rows)?;
    out.push_str(", longest ")?;
    put_width(out, pica, longest_of(lines))?;
    out.push_str(" points\n")
}

/// The names of the columns.
fn columns() -> &'static str
    ensures { result.now ≡ columns_text }
{
    "\n  line    c/f     points   short  text\n"
}

/// Writes the lines that rows cast, in reading order: how many there are and how long the longest is; then each that is
/// shown, with its number from 1, the positions of its wedges, its width and how short of the longest of all it is,
/// both in points to a tenth, the width rounded down and what it is short rounded up; and its text, where a space
/// stands for a matrix with S, and a middle dot for one that means nothing, as a fill. Behind each galley but the last
/// stands a mark with its number from 1, where the line before it is shown, or, with no line before it, where the first
/// is.
pub fn put_ribbon<A: Allocator + Copy>(
    alloc: A,
    out: &mut String<A>,
    pica: Pica,
    shown: Option<Lines>,
    cast: &Casting<A>,
) -> Result<(), AllocError>
    ensures { OnOk result (string_bytes out.new ≡ string_bytes out.old ++ ribbon_text pica shown (cast_in cast.now)) }
{
    put_head(out, pica, cast.rows, &cast.lines)?;
    out.push_str(columns())?;
    let longest = longest_of(&cast.lines);
    let showing = Showing {
        pica,
        longest,
        shown,
    };
    put_galleys(alloc, out, &showing, &cast.ended, &cast.lines)
}
