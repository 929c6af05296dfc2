//! Rows of a ribbon.

ghost use Rattle.std.specs.Prelude.{◌≤◌};

use desk_image::Image;
use desk_signals::{Column, Position, RibbonRow, RowNo, Signal, from_signals};

pub fn coarse(number: u8) -> RibbonRow
    requires low { 1 ≤ number }
    requires high { number ≤ 15 }
{
    RibbonRow::Coarse(Position::new(number).unwrap())
}

/// The row of the cell in this column and row, with S or without it; none where there is no such row.
pub fn cell_row(column: Column, number: u8, s: bool) -> Option<RibbonRow> {
    let row = RowNo::new(number)?;
    Some(RibbonRow::Cell { column, row, s })
}

/// The row that sets a wedge to a number, with 0005 or without it; none where there is no such number.
pub fn wedge_row(fine: bool, number: u8) -> Option<RibbonRow> {
    let position = Position::new(number)?;
    Some(if fine {
        RibbonRow::FineOut(position)
    } else {
        RibbonRow::Coarse(position)
    })
}

/// Whether a row has this image.
fn has_image(row: RibbonRow, bits: u32) -> bool {
    let image = Image::of_row(row);
    if image != Image::new(bits) || image.bits() != bits {
        return false;
    }
    match image.to_row() {
        Ok(read) => read == row,
        Err(_) => false,
    }
}

/// Whether there is a row, and this is its image.
pub fn is_image(row: Option<RibbonRow>, bits: u32) -> bool {
    match row {
        Some(row) => has_image(row, bits),
        None => false,
    }
}

/// Whether there is a row, and these are its signals, in their order.
pub fn shows(row: Option<RibbonRow>, signals: &[Signal]) -> bool {
    match row {
        Some(row) => row.signals().as_slice() == signals,
        None => false,
    }
}

/// Whether there is a row, and these signals are it.
pub fn is_read(row: Option<RibbonRow>, signals: &[Signal]) -> bool {
    match row {
        Some(row) => from_signals(signals) == Ok(row),
        None => false,
    }
}
