//! The open readings of four lists.

ghost use Rattle.std.specs.Prelude.{◌≡◌, ◌≤◌, ◌<◌, ◌+◌, ◌^◌, ◌++◌, IfOk, OnOk, length};
ghost use Rattle.feed_readings.specs.Finding.{AreThree};
ghost use Rattle.feed_readings.specs.Pieces.{LiesIn, behind, ends, is_open, part, reads_same, settles};
ghost use Rattle.feed_readings.specs.Readings.{ended, joined, of_row, open_readings, row_behind};

use crate::cuts::{Index, cut_of, index_of};
use crate::reading::{Point, Reading, Shown};
use desk_memory::NoMemory;
use std::alloc::{AllocError, Allocator};

/// Whether two lists have the same symbols.
fn reads_same(one: &[Shown], other: &[Shown]) -> bool
    ensures { result ≡ reads_same one.now other.now }
{
    let mut ones = one;
    let mut others = other;
    while let [first, firsts @ ..] = ones {
        let [second, seconds @ ..] = others else {
            return false;
        };
        if first.symbol != second.symbol {
            return false;
        }
        ones = firsts;
        others = seconds;
    }
    others.is_empty()
}

/// Whether what came of two copies is what they settle as.
fn settles(base: &[Shown], one: &[Shown], other: &[Shown], both: &[Shown]) -> bool
    ensures { result ≡ settles base.now one.now other.now both.now }
{
    if reads_same(one, other) {
        return reads_same(one, both);
    }
    if reads_same(base, one) {
        return reads_same(other, both);
    }
    reads_same(base, other) && reads_same(one, both)
}

/// The elements of a list between two places.
pub fn part(list: &[Shown], from: usize, to: usize) -> &[Shown]
    requires { to ≤ length list.now }
    ensures { result.now ≡ part list.now from to }
{
    if from < to { &list[from..to] } else { &[] }
}

/// Whether what came of a piece is not what it settles as.
fn is_open(base: &[Shown], one: &[Shown], other: &[Shown], both: &[Shown], piece: Reading) -> bool
    requires { LiesIn base.now one.now other.now both.now piece.to }
    ensures { result ≡ is_open base.now one.now other.now both.now piece }
{
    let Reading { from, to } = piece;
    !settles(
        part(base, from.base, to.base),
        part(one, from.one, to.one),
        part(other, from.other, to.other),
        part(both, from.both, to.both),
    )
}

/// The row that goes on with a piece, or begins with it.
fn joined(row: Option<Reading>, piece: Reading) -> Reading
    ensures { result ≡ joined row piece }
{
    match row {
        None => piece,
        Some(row) => Reading {
            from: row.from,
            to: piece.to,
        },
    }
}

/// Writes a row that is over at the end, if there is one.
fn end_row<A: Allocator + Copy>(
    readings: &mut Vec<Reading, A>,
    row: Option<Reading>,
) -> Result<(), AllocError>
    ensures { OnOk result (readings.new.items ≡ readings.old.items ++ of_row row) }
{
    if let Some(row) = row {
        readings.push(row)?;
    }
    Ok(())
}

/// The row behind a piece. One that the piece ends is written at the end.
fn pass<A: Allocator + Copy>(
    readings: &mut Vec<Reading, A>,
    row: Option<Reading>,
    piece: Reading,
    opens: bool,
) -> Result<Option<Reading>, AllocError>
    ensures row { IfOk result (λ r. r ≡ row_behind row piece opens) }
    ensures written { OnOk result (readings.new.items ≡ readings.old.items ++ ended row opens) }
{
    if opens {
        return Ok(Some(joined(row, piece)));
    }
    end_row(readings, row)?;
    Ok(None)
}

/// Where four lists end.
fn ends(base: &[Shown], one: &[Shown], other: &[Shown], both: &[Shown]) -> Point
    ensures { result ≡ ends base.now one.now other.now both.now }
{
    Point {
        base: base.len(),
        one: one.len(),
        other: other.len(),
        both: both.len(),
    }
}

/// The point behind a cut.
fn behind(cut: Point) -> Point
    requires base { cut.base + 1 < 2 ^ 64 }
    requires one { cut.one + 1 < 2 ^ 64 }
    requires other { cut.other + 1 < 2 ^ 64 }
    requires both { cut.both + 1 < 2 ^ 64 }
    ensures { result ≡ behind cut }
{
    Point {
        base: cut.base + 1,
        one: cut.one + 1,
        other: cut.other + 1,
        both: cut.both + 1,
    }
}

/// The open readings of four lists, by the places of the first three.
fn walk<A: Allocator + Copy>(
    alloc: A,
    base: &[Shown],
    one: &[Shown],
    other: &[Shown],
    both: &[Shown],
    index: &Index<A>,
) -> Result<Vec<Reading, A>, NoMemory>
    requires { AreThree base.now one.now other.now index.now }
    ensures { IfOk result (λ v. v.items ≡ open_readings base.now one.now other.now both.now) }
{
    let end = ends(base, one, other, both);
    let mut readings = Vec::new(alloc);
    let mut row = None;
    let mut from = Point::START;
    for (place, element) in both.iter().enumerate() {
        if let Some(cut) = cut_of(index, place, element) {
            let piece = Reading { from, to: cut };
            let opens = is_open(base, one, other, both, piece);
            row = pass(&mut readings, row, piece, opens)?;
            from = behind(cut);
        }
    }
    let last = Reading { from, to: end };
    let opens = is_open(base, one, other, both, last);
    let open_row = pass(&mut readings, row, last, opens)?;
    end_row(&mut readings, open_row)?;
    Ok(readings)
}

/// The open readings of four lists of shown elements: each longest row of neighbouring pieces that came out otherwise
/// than they settle, in their order. The lists are cut at the spaces and line feeds that all four have. Out of memory
/// comes only where a growth was refused.
pub fn open_readings<A: Allocator + Copy>(
    alloc: A,
    base: &[Shown],
    one: &[Shown],
    other: &[Shown],
    both: &[Shown],
) -> Result<Vec<Reading, A>, NoMemory>
    ensures exact { IfOk result (λ v. v.items ≡ open_readings base.now one.now other.now both.now) }
{
    let index = index_of(alloc, base, one, other)?;
    let readings = walk(alloc, base, one, other, both, &index)?;
    Ok(readings)
}
