//! The sorts of a copy as text, by a case.

ghost use Rattle.std.specs.Prelude.{◌≡◌, ◌++◌, All, OnOk, string_bytes};
ghost use Rattle.view_punch.specs.Listing.{IsWithin, cast_of, cell_text, columns_text, first_text, head_text};
ghost use Rattle.view_punch.specs.Listing.{is_missing};
ghost use Rattle.view_punch.specs.Listing.{line_begin, missing_lines, missing_of, missing_text, place_lines};
ghost use Rattle.view_punch.specs.Listing.{place_text};
ghost use Rattle.view_punch.specs.Listing.{sort_line, sort_lines, sort_name, sorts_text, title_text};
ghost use Rattle.view_punch.specs.Places.{AreFound, places_of};

use crate::cells::{cell_for, lacks};
use crate::places::{Found, find, places_in};
use crate::sorts::Sort;
use desk_case::MatrixCase;
use desk_ops::Symbol;
use desk_signals::Cell;
use itoa::Buffer;
use std::alloc::{AllocError, Allocator};
use view_proof::{put_around, put_left, put_name, put_number, put_right};

/// Whether the symbol of a sort is one that the case lacks.
fn is_missing(case: &MatrixCase, sort: Sort) -> bool
    ensures { result ≡ is_missing case.now sort }
{
    lacks(case, sort.symbol)
}

/// How many of the sorts the case lacks.
pub fn missing_of(case: &MatrixCase, sorts: &[Sort]) -> usize
    ensures { result ≡ missing_of case.now sorts.now }
{
    let mut missing = 0;
    for sort in sorts {
        if is_missing(case, *sort) {
            missing += 1;
        }
    }
    missing
}

/// How many matrices are cast for the symbols of a copy.
fn cast_of(copy: &[Symbol]) -> usize
    ensures { result ≡ cast_of copy.now }
{
    let mut cast = 0;
    for symbol in copy {
        if !symbol.is_line_feed() {
            cast += 1;
        }
    }
    cast
}

/// Writes how many sorts there are, how often they are wanted together, and how many are missing.
fn put_head<A: Allocator + Copy>(
    out: &mut String<A>,
    copy: &[Symbol],
    case: &MatrixCase,
    sorts: &[Sort],
) -> Result<(), AllocError>
    ensures { OnOk result (string_bytes out.new ≡ string_bytes out.old ++ head_text copy.now case.now sorts.now) }
{
    let kinds = sorts.len();
    let wanted = cast_of(copy);
    let missing = missing_of(case, sorts);
    write!(
        out,
        "SORTS {kinds} kinds, {wanted} wanted, {missing} missing\n"
    )
}

/// Writes a sort by the name of its symbol.
fn put_sort_name<A: Allocator + Copy>(out: &mut String<A>, symbol: Symbol) -> Result<(), AllocError>
    ensures { OnOk result (string_bytes out.new ≡ string_bytes out.old ++ sort_name symbol) }
{
    if symbol.is_space() {
        out.push_str("space")
    } else {
        put_name(out, symbol)
    }
}

/// Writes how often a sort is wanted, and where first.
fn put_first<A: Allocator + Copy>(out: &mut String<A>, sort: Sort) -> Result<(), AllocError>
    ensures { OnOk result (string_bytes out.new ≡ string_bytes out.old ++ first_text sort) }
{
    let wanted = sort.wanted;
    let first = sort.first;
    write!(out, ", wanted {wanted}, first at place {first}\n  | ")
}

/// Writes a missing sort by its name, how often it is wanted, and where first.
fn put_title<A: Allocator + Copy>(out: &mut String<A>, sort: Sort) -> Result<(), AllocError>
    ensures { OnOk result (string_bytes out.new ≡ string_bytes out.old ++ title_text sort) }
{
    out.push_str("missing ")?;
    put_sort_name(out, sort.symbol)?;
    put_first(out, sort)
}

/// What stands before a place by its number among those of its sort, from 0.
fn line_begin(number: usize) -> &'static str
    ensures { result.now ≡ line_begin number }
{
    if number % 10 == 0 { "\n  at" } else { "" }
}

/// Writes a place in its column.
fn put_place<A: Allocator + Copy>(
    out: &mut String<A>,
    number: usize,
    place: usize,
) -> Result<(), AllocError>
    ensures { OnOk result (string_bytes out.new ≡ string_bytes out.old ++ place_text number place) }
{
    out.push_str(line_begin(number))?;
    out.push_str(" ")?;
    put_number(out, 7, place as u64)
}

/// Writes places, ten to a line.
fn put_place_lines<A: Allocator + Copy>(
    out: &mut String<A>,
    places: &[usize],
) -> Result<(), AllocError>
    ensures { OnOk result (string_bytes out.new ≡ string_bytes out.old ++ place_lines 0 places.now) }
{
    for (number, place) in places.iter().enumerate() {
        put_place(out, number, *place)?;
    }
    Ok(())
}

/// Writes a missing sort, what surrounds its first place, and all its places.
fn put_missing<A: Allocator + Copy>(
    out: &mut String<A>,
    copy: &[Symbol],
    sort: Sort,
    places: &[usize],
) -> Result<(), AllocError>
    requires within { IsWithin copy.now sort }
    requires all { places.now ≡ places_of copy.now sort.symbol }
    ensures { OnOk result (string_bytes out.new ≡ string_bytes out.old ++ missing_text copy.now sort) }
{
    put_title(out, sort)?;
    put_around(out, copy, sort.first)?;
    put_place_lines(out, places)?;
    out.push_str("\n")
}

/// Writes the sorts that the case lacks, by the places that were found of them.
fn put_missing_lines<A: Allocator + Copy>(
    out: &mut String<A>,
    copy: &[Symbol],
    case: &MatrixCase,
    sorts: &[Sort],
    found: &Found<A>,
) -> Result<(), AllocError>
    requires within { All (IsWithin copy.now) sorts.now }
    requires all { AreFound copy.now case.now found.now }
    ensures { OnOk result (string_bytes out.new ≡ string_bytes out.old ++ missing_lines copy.now case.now sorts.now) }
{
    for sort in sorts {
        if is_missing(case, *sort) {
            put_missing(out, copy, *sort, places_in(found, sort.symbol))?;
        }
    }
    Ok(())
}

/// The names of the columns.
fn columns() -> &'static str
    ensures { result.now ≡ columns_text }
{
    "\n  cell   wanted  sort\n"
}

/// Writes the name of a cell, or that there is none.
fn put_cell<A: Allocator + Copy>(out: &mut String<A>, cell: Option<Cell>) -> Result<(), AllocError>
    ensures { OnOk result (string_bytes out.new ≡ string_bytes out.old ++ cell_text cell) }
{
    let Some(cell) = cell else {
        return out.push_str("   -  ");
    };
    put_right(out, 4, cell.column.name())?;
    let mut digits = Buffer::new();
    put_left(out, 2, digits.format(cell.row.get()))
}

/// Writes a sort with its cell.
fn put_sort_line<A: Allocator + Copy>(
    out: &mut String<A>,
    case: &MatrixCase,
    sort: Sort,
) -> Result<(), AllocError>
    ensures { OnOk result (string_bytes out.new ≡ string_bytes out.old ++ sort_line case.now sort) }
{
    put_cell(out, cell_for(case, sort.symbol))?;
    put_number(out, 9, sort.wanted as u64)?;
    out.push_str("  ")?;
    put_sort_name(out, sort.symbol)?;
    out.push_str("\n")
}

/// Writes each sort with its cell.
fn put_sort_lines<A: Allocator + Copy>(
    out: &mut String<A>,
    case: &MatrixCase,
    sorts: &[Sort],
) -> Result<(), AllocError>
    ensures { OnOk result (string_bytes out.new ≡ string_bytes out.old ++ sort_lines case.now sorts.now) }
{
    for sort in sorts {
        put_sort_line(out, case, *sort)?;
    }
    Ok(())
}

/// Writes the sorts of a copy at the end: how many there are, those that the case lacks, each with all its places, and
/// all of them with their cells. Fills are not counted: how many a line takes depends on the lines that are set. Places
/// take their memory from `alloc`.
pub fn put_sorts<A: Allocator + Copy>(
    alloc: A,
    out: &mut String<A>,
    copy: &[Symbol],
    case: &MatrixCase,
    sorts: &[Sort],
) -> Result<(), AllocError>
    requires { All (IsWithin copy.now) sorts.now }
    ensures { OnOk result (string_bytes out.new ≡ string_bytes out.old ++ sorts_text copy.now case.now sorts.now) }
{
    let found = find(alloc, copy, case)?;
    put_head(out, copy, case, sorts)?;
    put_missing_lines(out, copy, case, sorts, &found)?;
    out.push_str(columns())?;
    put_sort_lines(out, case, sorts)
}
