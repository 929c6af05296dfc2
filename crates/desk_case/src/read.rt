//! The values of a case file, key by key.
ghost use Rattle.std.specs.Prelude.{◌≡◌, ◌≢◌, ◌≤◌, ◌*◌, ◌++◌, [], ◌∷◌, Ok, Err, Some, None, OnOk, IfOk, IfErr};
ghost use Rattle.std.specs.Prelude.{MatchOption, length, replicate, option_map, is_some, true, false};
ghost use Rattle.toml.specs.Data.{no_members};
ghost use Rattle.toml.specs.View.{view, table_view};
ghost use Rattle.desk_wedge.specs.Keys.{number_of};
ghost use Rattle.desk_case.specs.Case.{symbol_in, IsIndexOf};
ghost use Rattle.desk_case.specs.Names.{IsCell};
ghost use Rattle.desk_case.specs.File.{at_key, row_of, matrices_of, sheet_of, cell_of_data, fill_of, grid_from};
ghost use Rattle.desk_case.specs.File.{first_doubled, first_held, case_of_members};
ghost use Rattle.desk_case.specs.Reading.{Gives, AddsRow, sheet_seen};
ghost use Rattle.desk_case.specs.declared.CaseFault.TheVariants as fault;

use crate::{COLUMNS, CaseFault, CaseKey, MatrixCase, NARROW, ROWS, names, texts};
use desk_ops::Symbol;
use desk_signals::Cell;
use desk_wedge::{member, whole_number};
use indexmap::IndexMap;
use std::alloc::{AllocError, Global};
use toml::{Table, Value};

/// The number at its key.
fn number_at(table: &Table) -> Result<u16, CaseFault>
    ensures { result ≡ at_key CaseKey.Case (number_of 1 65535) (table_view table.now) }
{
    let value = member(table, CaseKey::Case.name()).ok_or(CaseFault::Missing(CaseKey::Case))?;
    whole_number(value, 1, 65535).ok_or(CaseFault::Shape(CaseKey::Case))
}

/// The cell that a value names, where a file of so many columns has it.
fn cell(columns: usize, value: &Value) -> Option<Cell>
    ensures { result ≡ cell_of_data columns (view value.now) }
{
    let cell = names::cell(value.as_str()?)?;
    if (cell.column.index() as usize) < columns {
        Some(cell)
    } else {
        None
    }
}

/// The space at its key.
fn space_at(columns: usize, table: &Table) -> Result<Cell, CaseFault>
    ensures { result ≡ at_key CaseKey.Space (cell_of_data columns) (table_view table.now) }
{
    let value = member(table, CaseKey::Space.name()).ok_or(CaseFault::Missing(CaseKey::Space))?;
    cell(columns, value).ok_or(CaseFault::Shape(CaseKey::Space))
}

/// The fills that a value names, 1 to 4.
fn fill(alloc: Global, columns: usize, value: &Value) -> Result<Option<Vec<Cell>>, AllocError>
    ensures { IfOk result (λ o. option_map (λ v. v.items) o ≡ fill_of columns (view value.now)) }
{
    let Some(items) = value.as_array() else {
        return Ok(None);
    };
    if items.is_empty() || items.len() > 4 {
        return Ok(None);
    }
    let mut fill = Vec::new(alloc);
    for item in items.iter() {
        match cell(columns, item) {
            Some(cell) => fill.push(cell)?,
            None => return Ok(None),
        }
    }
    Ok(Some(fill))
}

/// The fills at their key.
fn fill_at(alloc: Global, columns: usize, table: &Table) -> Result<Vec<Cell>, CaseFault>
    ensures { Gives (λ v. v.items) (at_key CaseKey.Fill (fill_of columns) (table_view table.now)) result }
{
    let value = member(table, CaseKey::Fill.name()).ok_or(CaseFault::Missing(CaseKey::Fill))?;
    let fill = fill(alloc, columns, value)?;
    fill.ok_or(CaseFault::Shape(CaseKey::Fill))
}

/// Adds blanks.
fn add_blanks(matrices: &mut Vec<Option<Option<Symbol>>>, count: usize) -> Result<(), AllocError>
    ensures { OnOk result (matrices.new.items ≡ matrices.old.items ++ replicate count (Some None)) }
{
    for _ in 0..count {
        matrices.push(Some(None))?;
    }
    Ok(())
}

/// Adds what the texts of a row stand for, with blanks in the columns that it has not, and returns whether it is a row
/// of so many texts.
fn add_row(
    columns: usize,
    matrices: &mut Vec<Option<Option<Symbol>>>,
    row: &Value,
) -> Result<bool, AllocError>
    requires { columns ≤ COLUMNS }
    ensures { IfOk result (AddsRow matrices.old.items matrices.new.items (row_of columns (view row.now))) }
{
    let Some(items) = row.as_array() else {
        return Ok(false);
    };
    if items.len() != columns {
        return Ok(false);
    }
    for item in items.iter() {
        match item.as_str() {
            Some(text) => matrices.push(texts::matrix(text))?,
            None => return Ok(false),
        }
    }
    add_blanks(matrices, COLUMNS - columns)?;
    Ok(true)
}

/// What the texts of rows of so many columns stand for, row by row.
fn rows(
    alloc: Global,
    columns: usize,
    value: &Value,
) -> Result<Option<Vec<Option<Option<Symbol>>>>, AllocError>
    requires { columns ≤ COLUMNS }
    ensures { IfOk result (λ o. option_map (λ v. v.items) o ≡ matrices_of columns (view value.now)) }
{
    let Some(items) = value.as_array() else {
        return Ok(None);
    };
    if items.len() != ROWS {
        return Ok(None);
    }
    let mut matrices = Vec::new(alloc);
    for item in items.iter() {
        if !add_row(columns, &mut matrices, item)? {
            return Ok(None);
        }
    }
    Ok(Some(matrices))
}

/// The rows of a file: how many columns each has, and what the texts of all cells stand for.
#[derive(Drop)]
struct FileRows {
    columns: usize,
    matrices: Vec<Option<Option<Symbol>>>,
}

/// The rows that a value gives: all of the columns A to O, or all of all columns.
fn sheet(alloc: Global, value: &Value) -> Result<Option<FileRows>, AllocError>
    ensures { IfOk result (λ o. option_map sheet_seen o ≡ sheet_of (view value.now)) }
{
    if let Some(matrices) = rows(alloc, NARROW, value)? {
        return Ok(Some(FileRows {
            columns: NARROW,
            matrices,
        }));
    }
    match rows(alloc, COLUMNS, value)? {
        Some(matrices) => Ok(Some(FileRows {
            columns: COLUMNS,
            matrices,
        })),
        None => Ok(None),
    }
}

/// The rows at their key.
fn sheet_at(alloc: Global, table: &Table) -> Result<FileRows, CaseFault>
    ensures { Gives sheet_seen (at_key CaseKey.Rows sheet_of (table_view table.now)) result }
{
    let value = member(table, CaseKey::Rows.name()).ok_or(CaseFault::Missing(CaseKey::Rows))?;
    let sheet = sheet(alloc, value)?;
    sheet.ok_or(CaseFault::Shape(CaseKey::Rows))
}

/// What the cells hold, where each text is blank or a symbol.
fn grid(
    alloc: Global,
    matrices: &[Option<Option<Symbol>>],
) -> Result<Vec<Option<Symbol>>, CaseFault>
    requires { length matrices.now ≤ ROWS * COLUMNS }
    ensures { Gives (λ v. v.items) (grid_from 0 matrices.now) result }
{
    let mut grid = Vec::new(alloc);
    for (at, matrix) in matrices.iter().enumerate() {
        let Some(held) = matrix else {
            return Err(CaseFault::BadText(names::cell_of_place(at)));
        };
        grid.push(*held)?;
    }
    Ok(grid)
}

/// The cell of each symbol, where no symbol stands in two cells.
fn cells(alloc: Global, grid: &[Option<Symbol>]) -> Result<IndexMap<Symbol, Cell>, CaseFault>
    requires { length grid.now ≤ ROWS * COLUMNS }
    ensures ok { IfOk result (λ m. (first_doubled grid.now ≡ None) × IsIndexOf m.entries grid.now) }
    ensures err { IfErr result (λ e. e ≢ fault.NoMemory → option_map fault.Doubled (first_doubled grid.now) ≡ Some e) }
{
    let mut cells = IndexMap::new(alloc);
    for (at, held) in grid.iter().enumerate() {
        if let Some(symbol) = held {
            if cells.contains_key(symbol) {
                return Err(CaseFault::Doubled(*symbol));
            }
            cells.insert(*symbol, names::cell_of_place(at))?;
        }
    }
    Ok(cells)
}

/// The symbol that a cell of a grid holds.
pub fn held(grid: &[Option<Symbol>], cell: &Cell) -> Option<Symbol>
    requires { length grid.now ≡ ROWS * COLUMNS }
    ensures value { result ≡ symbol_in grid.now cell.now }
    ensures cell { IsCell cell.now }
{
    grid[names::place(cell)]
}

/// The space or else the first fill that holds a symbol.
fn first_held(grid: &[Option<Symbol>], space: &Cell, fill: &[Cell]) -> Option<Cell>
    requires { length grid.now ≡ ROWS * COLUMNS }
    ensures { result ≡ first_held grid.now (space.now ∷ fill.now) }
{
    if held(grid, space).is_some() {
        return Some(*space);
    }
    for cell in fill {
        if held(grid, cell).is_some() {
            return Some(*cell);
        }
    }
    None
}

/// The case that a document gives.
pub fn case(alloc: Global, table: &Table) -> Result<MatrixCase, CaseFault>
    ensures value { Gives (λ c. c) (case_of_members (table_view table.now)) result }
    ensures memory { result ≡ Err fault.NoMemory → table_view table.now ≢ no_members }
{
    let number = number_at(table)?;
    let sheet = sheet_at(alloc, table)?;
    let space = space_at(sheet.columns, table)?;
    let fill = fill_at(alloc, sheet.columns, table)?;
    let grid = grid(alloc, sheet.matrices.as_slice())?;
    let cells = cells(alloc, grid.as_slice())?;
    match first_held(grid.as_slice(), &space, fill.as_slice()) {
        Some(cell) => Err(CaseFault::NotBlank(cell)),
        None => Ok(MatrixCase {
            number,
            grid,
            cells,
            space,
            fill,
        }),
    }
}
