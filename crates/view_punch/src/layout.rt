//! A case as a table.

ghost use Rattle.std.specs.Prelude.{◌≡◌, ◌++◌, ◌<◌, OnOk, string_bytes};
ghost use Rattle.desk_case.specs.Case.{symbol_at};
ghost use Rattle.view_punch.specs.Layout.{blank_text, case_text, cells_to, fill_from, fill_text, held_text, line_text};
ghost use Rattle.view_punch.specs.Layout.{lines_to, mark_in_table, names_to, shown_cell, text_in_table};

use desk_case::{COLUMNS, MatrixCase, ROWS, names};
use desk_ops::{Style, Symbol};
use desk_signals::Cell;
use std::alloc::{AllocError, Allocator};
use view_proof::{put_number, put_right, put_symbols};

/// What stands before a character of a style in a table, in three places.
fn mark_in_table(style: Style) -> &'static str
    ensures { result.now ≡ mark_in_table style }
{
    match style {
        Style::Roman => "   ",
        Style::Italic => "  _",
        Style::SmallCap => "  ^",
    }
}

fn put_symbol<A: Allocator + Copy>(out: &mut String<A>, symbol: Symbol) -> Result<(), AllocError>
    ensures { OnOk result (string_bytes out.new ≡ string_bytes out.old ++ text_in_table symbol) }
{
    out.push_str(mark_in_table(symbol.style))?;
    put_symbols(out, &[symbol])
}

/// The number of the fill in a cell, from 1.
fn fill_in(fills: &[Cell], cell: &Cell) -> Option<usize>
    ensures { result ≡ fill_from 1 fills.now cell.now }
{
    for (index, fill) in fills.iter().enumerate() {
        if names::is_same(fill, cell) {
            return Some(index + 1);
        }
    }
    None
}

fn put_fill<A: Allocator + Copy>(out: &mut String<A>, fill: Option<usize>) -> Result<(), AllocError>
    ensures { OnOk result (string_bytes out.new ≡ string_bytes out.old ++ fill_text fill) }
{
    match fill {
        Some(number) => write!(out, "  f{number}"),
        None => out.push_str("  .."),
    }
}

/// Writes a cell that holds no symbol.
fn put_blank<A: Allocator + Copy>(
    out: &mut String<A>,
    case: &MatrixCase,
    cell: &Cell,
) -> Result<(), AllocError>
    ensures { OnOk result (string_bytes out.new ≡ string_bytes out.old ++ blank_text case.now cell.now) }
{
    if names::is_same(&case.space(), cell) {
        out.push_str("  sp")
    } else {
        put_fill(out, fill_in(case.fill(), cell))
    }
}

/// Writes a cell of a case.
fn put_held<A: Allocator + Copy>(
    out: &mut String<A>,
    case: &MatrixCase,
    cell: &Cell,
) -> Result<(), AllocError>
    ensures { OnOk result
        (string_bytes out.new ≡ string_bytes out.old ++ held_text case.now cell.now (symbol_at case.now cell.now)) }
{
    match case.symbol_at(*cell) {
        Some(symbol) => put_symbol(out, symbol),
        None => put_blank(out, case, cell),
    }
}

/// The cell of a row that stands at a place of the line.
#[tactic(auto, unfolding(crate::specs::Layout::shown_cell))]
fn shown_cell(row: usize, at: usize) -> Cell
    requires row { row < ROWS }
    requires at { at < COLUMNS }
    ensures { result ≡ shown_cell row at }
{
    names::cell_of_place(COLUMNS * row + (at + 15) % COLUMNS)
}

/// Writes the names of the columns.
fn put_names<A: Allocator + Copy>(out: &mut String<A>) -> Result<(), AllocError>
    ensures { OnOk result (string_bytes out.new ≡ string_bytes out.old ++ names_to COLUMNS) }
{
    for at in 0..COLUMNS {
        put_right(out, 4, shown_cell(0, at).column.name())?;
    }
    Ok(())
}

/// Writes the cells of a row.
fn put_cells<A: Allocator + Copy>(
    out: &mut String<A>,
    case: &MatrixCase,
    row: usize,
) -> Result<(), AllocError>
    requires { row < ROWS }
    ensures { OnOk result (string_bytes out.new ≡ string_bytes out.old ++ cells_to case.now row COLUMNS) }
{
    for at in 0..COLUMNS {
        put_held(out, case, &shown_cell(row, at))?;
    }
    Ok(())
}

/// Writes a row.
fn put_line<A: Allocator + Copy>(
    out: &mut String<A>,
    case: &MatrixCase,
    row: usize,
) -> Result<(), AllocError>
    requires { row < ROWS }
    ensures { OnOk result (string_bytes out.new ≡ string_bytes out.old ++ line_text case.now row) }
{
    put_number(out, 4, row as u64 + 1)?;
    put_cells(out, case, row)?;
    out.push_str("\n")
}

/// Writes the rows.
fn put_lines<A: Allocator + Copy>(out: &mut String<A>, case: &MatrixCase) -> Result<(), AllocError>
    ensures { OnOk result (string_bytes out.new ≡ string_bytes out.old ++ lines_to case.now ROWS) }
{
    for row in 0..ROWS {
        put_line(out, case, row)?;
    }
    Ok(())
}

/// Writes a case as a table at the end, a row of the case a line, its number above it. A cell has four characters: a
/// symbol with `_` before it where it is italic and `^` where it is a small capital, `sp` for the space, `f1` to `f4`
/// for the fills, and two dots where nothing stands.
pub fn put_case<A: Allocator + Copy>(
    out: &mut String<A>,
    case: &MatrixCase,
) -> Result<(), AllocError>
    ensures { OnOk result (string_bytes out.new ≡ string_bytes out.old ++ case_text case.now) }
{
    let number = case.number();
    write!(out, "\nCASE {number}\n\n    ")?;
    put_names(out)?;
    out.push_str("\n")?;
    put_lines(out, case)
}
