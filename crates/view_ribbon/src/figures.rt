//! The figures of a ribbon.

ghost use Rattle.std.specs.Prelude.{◌≡◌, ◌≤◌, ◌++◌, length, OnOk, string_bytes};
ghost use Rattle.std.specs.Fmt.{decimal};
ghost use Rattle.std.specs.List.{count_by};
ghost use Rattle.view_proof.specs.Parts.{right, tenths_text};
ghost use Rattle.view_ribbon.specs.Figures.{below_text, case_text, count_of, counts_text, first_tight, first_wide};
ghost use Rattle.view_ribbon.specs.Figures.{is_counted, least_of, length_text, line_sum, pitch_text, row_text};
ghost use Rattle.view_ribbon.specs.Figures.{summary_text};
ghost use Rattle.view_ribbon.specs.Figures.{table_text, tenths_of, tightest_text, tightest_words, under_of};
ghost use Rattle.view_ribbon.specs.Figures.{widest_text, widest_words};

use crate::extent::Pitch;
use crate::lines::{longest_of, put_head, put_width};
use desk_caster::{CastLine, CastMatrix};
use desk_units::{Atoms, Pica, WedgeSum};
use itoa::Buffer;
use std::alloc::{AllocError, Allocator};
use view_proof::{put_number, put_right};

/// The rows of a case.
const CASE_ROWS: [u8; 15] = [1, 2, 3, 4, 5, 6, 7, 8, 9, 10, 11, 12, 13, 14, 15];

/// Which matrices are counted.
#[derive(Clone, Copy)]
pub enum Counted {
    All,
    /// Those that mean nothing.
    Blank,
    /// Those of this row of the case.
    Row(u8),
}

/// The number of the first line that is as wide as this.
fn first_wide<A: Allocator>(width: Atoms, lines: &[CastLine<A>]) -> Option<usize>
    ensures { result ≡ first_wide width 0 lines.now }
{
    let mut before = 0;
    for line in lines {
        before += 1;
        if line.total().get() >= width.get() {
            return Some(before);
        }
    }
    None
}

/// Writes where the widest line is, and how wide it is.
fn put_widest_words<A: Allocator + Copy>(
    out: &mut String<A>,
    pica: Pica,
    width: Atoms,
    place: Option<usize>,
) -> Result<(), AllocError>
    ensures { OnOk result (string_bytes out.new ≡ string_bytes out.old ++ widest_words pica width place) }
{
    let Some(number) = place else {
        return out.push_str("none");
    };
    write!(out, "line {number}, ")?;
    put_width(out, pica, width)?;
    out.push_str(" points")
}

/// Writes which line is the widest.
#[tactic(auto, unfolding(crate::specs::Figures::widest_text))]
fn put_widest<A: Allocator + Copy>(
    out: &mut String<A>,
    pica: Pica,
    lines: &[CastLine<A>],
) -> Result<(), AllocError>
    ensures { OnOk result (string_bytes out.new ≡ string_bytes out.old ++ widest_text pica lines.now) }
{
    let width = longest_of(lines);
    out.push_str("\nwidest    ")?;
    put_widest_words(out, pica, width, first_wide(width, lines))?;
    out.push_str("\n")
}

/// The wedge sum of a line.
fn line_sum<A: Allocator>(line: &CastLine<A>) -> u8
    ensures { result ≡ line_sum line.now }
{
    WedgeSum::of_positions(line.coarse(), line.fine()).get()
}

/// The least wedge sum of lines.
fn least_of<A: Allocator>(lines: &[CastLine<A>]) -> u8
    ensures { result ≡ least_of lines.now }
{
    let mut least = WedgeSum::GREATEST.get();
    for line in lines {
        if line_sum(line) < least {
            least = line_sum(line);
        }
    }
    least
}

/// The number of the first line that has no greater wedge sum than this.
fn first_tight<A: Allocator>(sum: u8, lines: &[CastLine<A>]) -> Option<usize>
    ensures { result ≡ first_tight sum 0 lines.now }
{
    let mut before = 0;
    for line in lines {
        before += 1;
        if line_sum(line) <= sum {
            return Some(before);
        }
    }
    None
}

/// Writes where the tightest line is, and its wedge sum.
fn put_tightest_words<A: Allocator + Copy>(
    out: &mut String<A>,
    sum: u8,
    place: Option<usize>,
) -> Result<(), AllocError>
    ensures { OnOk result (string_bytes out.new ≡ string_bytes out.old ++ tightest_words sum place) }
{
    let Some(number) = place else {
        return out.push_str("none");
    };
    write!(out, "line {number}, wedge sum {sum}")
}

/// Writes which line is the tightest.
#[tactic(auto, unfolding(crate::specs::Figures::tightest_text))]
fn put_tightest<A: Allocator + Copy>(
    out: &mut String<A>,
    lines: &[CastLine<A>],
) -> Result<(), AllocError>
    ensures { OnOk result (string_bytes out.new ≡ string_bytes out.old ++ tightest_text lines.now) }
{
    let sum = least_of(lines);
    out.push_str("tightest  ")?;
    put_tightest_words(out, sum, first_tight(sum, lines))?;
    out.push_str("\n")
}

/// What is under the way of a row.
fn under_of(pitch: Pitch) -> u128
    ensures value { result ≡ under_of pitch }
    ensures some { 1 ≤ result }
{
    if pitch.under == 0 {
        1
    } else {
        u128::from(pitch.under)
    }
}

/// The length of so many rows in tenths of an inch, rounded up.
fn tenths_of(rows: usize, pitch: Pitch) -> u128
    ensures { result ≡ tenths_of rows pitch }
{
    let under = under_of(pitch);
    (rows as u128 * u128::from(pitch.over) * 10 + (under - 1)) / under
}

/// Writes tenths as a number with one decimal.
fn put_tenths<A: Allocator + Copy>(out: &mut String<A>, tenths: u128) -> Result<(), AllocError>
    ensures { OnOk result (string_bytes out.new ≡ string_bytes out.old ++ tenths_text tenths) }
{
    let whole = tenths / 10;
    let part = tenths % 10;
    write!(out, "{whole}.{part}")
}

/// Writes the way of a row.
fn put_pitch<A: Allocator + Copy>(out: &mut String<A>, pitch: Pitch) -> Result<(), AllocError>
    ensures { OnOk result (string_bytes out.new ≡ string_bytes out.old ++ pitch_text pitch) }
{
    let Pitch { over, under } = pitch;
    write!(out, " inches, {over}/{under} inch a row\n")
}

/// Writes how long so many rows are.
#[tactic(auto, unfolding(crate::specs::Figures::length_text))]
fn put_length<A: Allocator + Copy>(
    out: &mut String<A>,
    rows: usize,
    pitch: Pitch,
) -> Result<(), AllocError>
    ensures { OnOk result (string_bytes out.new ≡ string_bytes out.old ++ length_text rows pitch) }
{
    out.push_str("length    ")?;
    put_tenths(out, tenths_of(rows, pitch))?;
    put_pitch(out, pitch)
}

/// Whether a matrix is counted.
fn is_counted(what: Counted, matrix: &CastMatrix) -> bool
    ensures { result ≡ is_counted what matrix.now }
{
    match what {
        Counted::All => true,
        Counted::Blank => !matrix.s && matrix.symbol.is_none(),
        Counted::Row(number) => matrix.cell.row.get() == number,
    }
}

/// How many of matrices are counted.
fn count_in(what: Counted, matrices: &[CastMatrix]) -> usize
    ensures value { result ≡ count_by (is_counted what) matrices.now }
    ensures within { result ≤ length matrices.now }
{
    let mut count = 0;
    for matrix in matrices {
        if is_counted(what, matrix) {
            count += 1;
        }
    }
    count
}

/// How many matrices of lines are counted.
fn count_of<A: Allocator>(what: Counted, lines: &[CastLine<A>]) -> u128
    ensures { result ≡ count_of what lines.now }
{
    let mut count = 0u128;
    for line in lines {
        count += count_in(what, line.matrices()) as u128;
    }
    count
}

/// Writes how many matrices lines have, and how many of them mean nothing.
#[tactic(auto, unfolding(crate::specs::Figures::counts_text))]
fn put_counts<A: Allocator + Copy>(
    out: &mut String<A>,
    lines: &[CastLine<A>],
) -> Result<(), AllocError>
    ensures { OnOk result (string_bytes out.new ≡ string_bytes out.old ++ counts_text lines.now) }
{
    let all = count_of(Counted::All, lines);
    let blank = count_of(Counted::Blank, lines);
    write!(out, "matrices  {all}\nblank     {blank}\n")
}

/// Writes how many matrices of lines are of a row of the case.
fn put_row<A: Allocator + Copy>(
    out: &mut String<A>,
    lines: &[CastLine<A>],
    row: u8,
) -> Result<(), AllocError>
    ensures { OnOk result (string_bytes out.new ≡ string_bytes out.old ++ row_text lines.now row) }
{
    put_number(out, 5, u64::from(row))?;
    let mut digits = Buffer::new();
    put_right(out, 10, digits.format(count_of(Counted::Row(row), lines)))?;
    out.push_str("\n")
}

/// Writes that of each of these rows.
#[tactic(auto, unfolding(crate::specs::Figures::table_text))]
fn put_table<A: Allocator + Copy>(
    out: &mut String<A>,
    lines: &[CastLine<A>],
    rows: &[u8],
) -> Result<(), AllocError>
    ensures { OnOk result (string_bytes out.new ≡ string_bytes out.old ++ table_text lines.now rows.now) }
{
    for &row in rows {
        put_row(out, lines, row)?;
    }
    Ok(())
}

/// Writes that of each row of the case, below the names of the columns.
#[tactic(auto, unfolding(crate::specs::Figures::case_text))]
fn put_case<A: Allocator + Copy>(
    out: &mut String<A>,
    lines: &[CastLine<A>],
) -> Result<(), AllocError>
    ensures { OnOk result (string_bytes out.new ≡ string_bytes out.old ++ case_text lines.now) }
{
    out.push_str("\n  row  matrices\n")?;
    put_table(out, lines, &CASE_ROWS)
}

/// Writes what is below the head.
#[tactic(auto, unfolding(crate::specs::Figures::below_text))]
fn put_below<A: Allocator + Copy>(
    out: &mut String<A>,
    pica: Pica,
    pitch: Pitch,
    rows: usize,
    lines: &[CastLine<A>],
) -> Result<(), AllocError>
    ensures { OnOk result (string_bytes out.new ≡ string_bytes out.old ++ below_text pica pitch rows lines.now) }
{
    put_widest(out, pica, lines)?;
    put_tightest(out, lines)?;
    put_length(out, rows, pitch)?;
    put_counts(out, lines)?;
    put_case(out, lines)
}

/// Writes the figures of the lines that so many rows cast: the head of `put_ribbon`; the first line of the greatest
/// width; the first of the least wedge sum; the length of the rows by the way of each, in inches, rounded up to a
/// tenth; how many matrices all lines have, and how many of these mean nothing; and how many are cast from each of the
/// 15 rows of a case.
pub fn put_summary<A: Allocator + Copy>(
    out: &mut String<A>,
    pica: Pica,
    pitch: Pitch,
    rows: usize,
    lines: &[CastLine<A>],
) -> Result<(), AllocError>
    ensures { OnOk result (string_bytes out.new ≡ string_bytes out.old ++ summary_text pica pitch rows lines.now) }
{
    put_head(out, pica, rows, lines)?;
    put_below(out, pica, pitch, rows, lines)
}
