//! The names and places of cells.
ghost use Rattle.std.specs.Prelude.{◌≡◌, ◌+◌, ◌*◌, ◌<◌, IfSome};
ghost use Rattle.desk_case.specs.Names.{column_of_letter, row_of_digits, cell_named, place, same_cell, cell_of_place};
ghost use Rattle.desk_case.specs.Names.{IsCell};

use crate::{COLUMNS, ROWS};
use desk_signals::{Cell, Column, RowNo};

/// The column of a letter, A to O.
fn column(letter: u8) -> Option<Column>
    ensures { result ≡ column_of_letter letter }
{
    if letter < b'A' || letter > b'O' {
        return None;
    }
    Column::at(letter - b'A')
}

/// A row in decimal, with no leading zero.
fn row(digits: &[u8]) -> Option<RowNo>
    ensures { result ≡ row_of_digits digits.now }
{
    match digits {
        [d] if *d >= b'1' && *d <= b'9' => RowNo::new(*d - b'0'),
        [b'1', d] if *d >= b'0' && *d <= b'5' => RowNo::new(*d - b'0' + 10),
        _ => None,
    }
}

/// The cell that a text names, as `G1`, `O15` or `NI3`.
pub fn cell(name: &str) -> Option<Cell>
    ensures { result ≡ cell_named name.now }
{
    let (column, digits) = match name.as_bytes() {
        [b'N', b'I', digits @ ..] => (Column::NI, digits),
        [b'N', b'L', digits @ ..] => (Column::NL, digits),
        [letter, digits @ ..] => (column(*letter)?, digits),
        _ => return None,
    };
    let row = row(digits)?;
    Some(Cell { column, row })
}

/// The place of a cell among all, from 0, row by row and column by column.
pub fn place(cell: &Cell) -> usize
    ensures value { result ≡ place cell.now }
    ensures within { result < ROWS * COLUMNS }
    ensures cell { IsCell cell.now }
{
    COLUMNS * (cell.row.get() as usize - 1) + cell.column.index() as usize
}

/// Whether the cells are one.
pub fn is_same(a: &Cell, b: &Cell) -> bool
    ensures { result ≡ same_cell a.now b.now }
{
    place(a) == place(b)
}

/// The cell at a place.
pub fn cell_of_place(place: usize) -> Cell
    requires { place < ROWS * COLUMNS }
    ensures { result ≡ cell_of_place place }
{
    let column = Column::at((place % COLUMNS) as u8).unwrap();
    let row = RowNo::new((place / COLUMNS) as u8 + 1).unwrap();
    Cell { column, row }
}
