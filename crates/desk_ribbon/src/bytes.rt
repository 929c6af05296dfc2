//! The bytes of a ribbon.

ghost use Rattle.std.specs.Prelude.{◌≡◌, ◌+◌, ◌*◌, ◌^◌, ◌<◌, ◌≤◌, ◌++◌, length, codes, IfOk, OnOk};
ghost use Rattle.std.specs.Int.{to_be_bytes, w32};
ghost use Rattle.std.specs.List.{flat_map};
ghost use Rattle.desk_ribbon.specs.Ribbon.{head_row, image_bytes, line_rows, punch_row, ribbon, ribbon_rows};

use crate::{Punch, PunchLine};
use desk_image::Image;
use desk_memory::NoMemory;
use desk_signals::RibbonRow;
use desk_units::WedgeSum;
use std::alloc::Allocator;

/// The row of a matrix.
pub fn row_of(punch: Punch) -> RibbonRow
    ensures { result ≡ punch_row punch }
{
    RibbonRow::Cell {
        column: punch.cell.column,
        row: punch.cell.row,
        s: punch.s,
    }
}

/// The row before the first line, which the caster reads last: it sends that line out and leaves the fine wedge at
/// neutral.
fn first_row() -> RibbonRow
    ensures { result ≡ head_row }
{
    let (_, fine) = WedgeSum::NEUTRAL.positions();
    RibbonRow::FineOut(fine)
}

/// Writes the image of a row.
pub fn put_row<A: Allocator>(out: &mut Vec<u8, A>, row: RibbonRow) -> Result<(), NoMemory>
    ensures { OnOk result (out.new.items ≡ out.old.items ++ image_bytes row) }
{
    out.extend_from_slice(&Image::of_row(row).bits().to_be_bytes())?;
    Ok(())
}

/// A ribbon's bytes up to its head row, with room for all its rows.
pub fn begin<A: Allocator>(alloc: A, rows: u32) -> Result<Vec<u8, A>, NoMemory>
    ensures { IfOk result (λ out. out.items ≡ codes "MRB1" ++ (to_be_bytes w32 rows ++ image_bytes head_row)) }
{
    let mut out = Vec::with_capacity(alloc, 8 + 4 * rows as usize)?;
    out.extend_from_slice(b"MRB1")?;
    out.extend_from_slice(&rows.to_be_bytes())?;
    put_row(&mut out, first_row())?;
    Ok(out)
}

/// Writes the images of a line's rows.
fn put_line<A: Allocator, B: Allocator>(
    out: &mut Vec<u8, A>,
    line: &PunchLine<B>,
) -> Result<(), NoMemory>
    ensures { OnOk result (out.new.items ≡ out.old.items ++ flat_map image_bytes (line_rows line.now)) }
{
    for &punch in line.matrices.as_slice() {
        put_row(out, row_of(punch))?;
    }
    put_row(out, RibbonRow::Coarse(line.coarse))?;
    put_row(out, RibbonRow::FineOut(line.fine))?;
    Ok(())
}

/// The number of rows of a ribbon of these lines.
fn count_rows<B: Allocator>(lines: &[PunchLine<B>]) -> usize
    requires { length (ribbon_rows lines.now) < 2 ^ 32 }
    ensures { result ≡ length (ribbon_rows lines.now) }
{
    let mut rows = 1;
    for line in lines {
        rows += line.matrices.as_slice().len() + 2;
    }
    rows
}

/// The bytes of a ribbon of these lines. A ribbon has at most 4,294,967,295 rows: one before the lines, and for each
/// line its matrices and two more.
pub fn write_ribbon<A: Allocator, B: Allocator>(
    alloc: A,
    lines: &[PunchLine<B>],
) -> Result<Vec<u8, A>, NoMemory>
    requires { length (ribbon_rows lines.now) < 2 ^ 32 }
    ensures { IfOk result (λ bytes. bytes.items ≡ ribbon (ribbon_rows lines.now)) }
{
    let rows = count_rows(lines);
    let mut out = begin(alloc, rows as u32)?;
    for line in lines {
        put_line(&mut out, line)?;
    }
    Ok(out)
}
