//! The rows of a ribbon in a picture of it.

ghost use Rattle.std.specs.Prelude.{◌≡◌, ◌++◌, ◌+◌, ◌<◌, ◌^◌, length, OnOk, string_bytes};
ghost use Rattle.std.specs.Fmt.{decimal};
ghost use Rattle.desk_case.specs.Case.{symbol_at};
ghost use Rattle.desk_signals.specs.Rows.{signals_of};
ghost use Rattle.view_ribbon.specs.Rows.{blank_text, held_text, hole_text, hole_x, hole_y, holes_text, meaning_at};
ghost use Rattle.view_ribbon.specs.Rows.{meaning_place};
ghost use Rattle.view_ribbon.specs.Rows.{meaning_text, number_place, number_text, number_value, row_at, row_text};
ghost use Rattle.view_ribbon.specs.Rows.{rows_text, s_text};
ghost use Rattle.view_ribbon.specs.Rows.{style_text, symbol_text, y_of};

use crate::channels::x_of;
use crate::parts::put_between;
use desk_case::MatrixCase;
use desk_case::names::is_same;
use desk_ops::{Style, Symbol};
use desk_signals::{Cell, Position, RibbonRow, Signal};
use std::alloc::{AllocError, Allocator};
use view_galley::{put_escaped, text_end};

/// Writes how far to the right a hole stands.
#[tactic(auto, unfolding(crate::specs::Rows::hole_x))]
fn put_hole_x<A: Allocator + Copy>(out: &mut String<A>, signal: Signal) -> Result<(), AllocError>
    ensures { OnOk result (string_bytes out.new ≡ string_bytes out.old ++ hole_x signal) }
{
    put_between(out, "<circle cx=\"", u128::from(x_of(signal)), "\"")
}

/// Writes how far down it stands.
#[tactic(auto, unfolding(crate::specs::Rows::hole_y))]
fn put_hole_y<A: Allocator + Copy>(out: &mut String<A>, y: u128) -> Result<(), AllocError>
    ensures { OnOk result (string_bytes out.new ≡ string_bytes out.old ++ hole_y y) }
{
    put_between(out, " cy=\"", y, "\" r=\"4\"/>")
}

fn put_hole<A: Allocator + Copy>(
    out: &mut String<A>,
    y: u128,
    signal: Signal,
) -> Result<(), AllocError>
    ensures { OnOk result (string_bytes out.new ≡ string_bytes out.old ++ hole_text y signal) }
{
    put_hole_x(out, signal)?;
    put_hole_y(out, y)
}

/// Writes a hole for each signal of a row.
fn put_holes_of<A: Allocator + Copy>(
    out: &mut String<A>,
    y: u128,
    row: RibbonRow,
) -> Result<(), AllocError>
    ensures { OnOk result (string_bytes out.new ≡ string_bytes out.old ++ holes_text y (signals_of row)) }
{
    let signals = row.signals();
    for &signal in signals.as_slice() {
        put_hole(out, y, signal)?;
    }
    Ok(())
}

fn style_text(style: Style) -> &'static str
    ensures { result.now ≡ style_text style }
{
    match style {
        Style::Roman => "",
        Style::Italic => " italic",
        Style::SmallCap => " small capital",
    }
}

/// Writes a symbol by its character and its style.
fn put_symbol<A: Allocator + Copy>(out: &mut String<A>, symbol: Symbol) -> Result<(), AllocError>
    ensures { OnOk result (string_bytes out.new ≡ string_bytes out.old ++ symbol_text symbol) }
{
    put_escaped(out, symbol.ch)?;
    out.push_str(style_text(symbol.style))
}

/// What stands in a cell without a symbol.
fn blank_text(case: &MatrixCase, cell: &Cell) -> &'static str
    ensures { result.now ≡ blank_text case.now cell.now }
{
    if is_same(&case.space(), cell) {
        return "space";
    }
    if case.is_fill(cell) {
        "fill"
    } else {
        "no matrix"
    }
}

/// Writes what stands in a cell.
fn put_held<A: Allocator + Copy>(
    out: &mut String<A>,
    case: &MatrixCase,
    cell: &Cell,
) -> Result<(), AllocError>
    ensures { OnOk result
        (string_bytes out.new ≡ string_bytes out.old ++ held_text case.now cell.now (symbol_at case.now cell.now)) }
{
    match case.symbol_at(*cell) {
        Some(symbol) => put_symbol(out, symbol),
        None => out.push_str(blank_text(case, cell)),
    }
}

fn s_text(s: bool) -> &'static str
    ensures { result.now ≡ s_text s }
{
    if s { " S" } else { "" }
}

/// Writes the position of a wedge behind these words.
fn put_position<A: Allocator + Copy>(
    out: &mut String<A>,
    words: &str,
    position: Position,
) -> Result<(), AllocError>
    ensures { OnOk result (string_bytes out.new ≡ string_bytes out.old ++ (words.now ++ decimal position)) }
{
    out.push_str(words)?;
    write!(out, "{}", position.get())
}

/// Writes what a row means to the caster.
fn put_meaning<A: Allocator + Copy>(
    out: &mut String<A>,
    case: &MatrixCase,
    row: RibbonRow,
) -> Result<(), AllocError>
    ensures { OnOk result (string_bytes out.new ≡ string_bytes out.old ++ meaning_text case.now row) }
{
    match row {
        RibbonRow::Cell { column, row, s } => {
            put_held(out, case, &Cell { column, row })?;
            out.push_str(s_text(s))
        }
        RibbonRow::Coarse(position) => put_position(out, "0075 at ", position),
        RibbonRow::FineOut(position) => put_position(out, "line out; 0005 at ", position),
    }
}

/// Writes where the place of a row stands.
#[tactic(auto, unfolding(crate::specs::Rows::number_place))]
fn put_number_place<A: Allocator + Copy>(out: &mut String<A>, y: u128) -> Result<(), AllocError>
    requires { y + 3 < 2 ^ 128 }
    ensures { OnOk result (string_bytes out.new ≡ string_bytes out.old ++ number_place y) }
{
    put_between(out, "<text class=\"n\" x=\"48\" y=\"", y + 3, "\"")
}

/// Writes it.
#[tactic(auto, unfolding(crate::specs::Rows::number_value))]
fn put_number_value<A: Allocator + Copy>(
    out: &mut String<A>,
    place: usize,
) -> Result<(), AllocError>
    ensures { OnOk result (string_bytes out.new ≡ string_bytes out.old ++ number_value place) }
{
    put_between(out, ">", place as u128, "</text>")
}

/// Writes the place of a row at its left.
fn put_number<A: Allocator + Copy>(
    out: &mut String<A>,
    y: u128,
    place: usize,
) -> Result<(), AllocError>
    requires { y + 3 < 2 ^ 128 }
    ensures { OnOk result (string_bytes out.new ≡ string_bytes out.old ++ number_text y place) }
{
    put_number_place(out, y)?;
    put_number_value(out, place)
}

/// Writes where the meaning of a row stands.
#[tactic(auto, unfolding(crate::specs::Rows::meaning_place))]
fn put_meaning_place<A: Allocator + Copy>(out: &mut String<A>, y: u128) -> Result<(), AllocError>
    requires { y + 3 < 2 ^ 128 }
    ensures { OnOk result (string_bytes out.new ≡ string_bytes out.old ++ meaning_place y) }
{
    put_between(out, "<text class=\"m\" x=\"477\" y=\"", y + 3, "\">")
}

/// Writes what a row means at its right.
fn put_meaning_at<A: Allocator + Copy>(
    out: &mut String<A>,
    case: &MatrixCase,
    y: u128,
    row: RibbonRow,
) -> Result<(), AllocError>
    requires { y + 3 < 2 ^ 128 }
    ensures { OnOk result (string_bytes out.new ≡ string_bytes out.old ++ meaning_at case.now y row) }
{
    put_meaning_place(out, y)?;
    put_meaning(out, case, row)?;
    out.push_str(text_end())
}

/// Writes a row that stands so far down.
fn put_row_at<A: Allocator + Copy>(
    out: &mut String<A>,
    case: &MatrixCase,
    y: u128,
    place: usize,
    row: &RibbonRow,
) -> Result<(), AllocError>
    requires { y + 3 < 2 ^ 128 }
    ensures { OnOk result (string_bytes out.new ≡ string_bytes out.old ++ row_at case.now y place row.now) }
{
    put_number(out, y, place)?;
    put_holes_of(out, y, *row)?;
    put_meaning_at(out, case, y, *row)
}

/// How far down a row of so many stands.
#[tactic(auto, unfolding(crate::specs::Rows::y_of))]
fn y_of(count: usize, place: usize) -> u128
    requires { place < count }
    ensures value { result ≡ y_of count place }
    ensures small { result < 2 ^ 80 }
{
    58 + 13 * ((count - 1 - place) as u128)
}

fn put_row<A: Allocator + Copy>(
    out: &mut String<A>,
    case: &MatrixCase,
    count: usize,
    place: usize,
    row: &RibbonRow,
) -> Result<(), AllocError>
    requires { place < count }
    ensures { OnOk result (string_bytes out.new ≡ string_bytes out.old ++ row_text case.now count place row.now) }
{
    put_row_at(out, case, y_of(count, place), place, row)
}

/// Writes rows, of which the first has this place, as the caster meets them, the last first.
pub fn put_rows<A: Allocator + Copy>(
    out: &mut String<A>,
    first: usize,
    rows: &[RibbonRow],
    case: &MatrixCase,
) -> Result<(), AllocError>
    requires { first + length rows.now < 2 ^ 64 }
    ensures { OnOk result
        (string_bytes out.new ≡ string_bytes out.old
        ++ rows_text case.now (first + length rows.now) first rows.now) }
{
    let count = rows.len();
    let mut place = count;
    'rows: while place > 0 {
        place -= 1;
        put_row(out, case, first + count, first + place, &rows[place])?;
    }
    Ok(())
}
