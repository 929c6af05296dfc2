//! What is said of the bytes of a case file.

ghost use Rattle.std.specs.Prelude.{◌≡◌, ◌≤◌, ◌<◌, ◌*◌, ◌++◌, Err, IfOk, Ok, OnOk, Some, false, option_map};
ghost use Rattle.std.specs.Prelude.{string_bytes, true};
ghost use Rattle.desk_case.specs.Case.{IsCase};
ghost use Rattle.desk_case.specs.File.{case_of};
ghost use Rattle.feed_check.specs.Lines.{SaysCase};
ghost use Rattle.feed_check.specs.Metal.{of_case};
ghost use Rattle.feed_check.specs.Rows.{fault_rows};
ghost use Rattle.feed_check.specs.Sorts.{sort_at, sorts};
ghost use Rattle.feed_check.specs.Texts.{cells_in, fault_holders};
ghost use Rattle.feed_check.specs.Words.{around_words, case_fault_words, case_words, cell_fault_words, cells_words};
ghost use Rattle.feed_check.specs.Words.{counted_words};
ghost use Rattle.feed_check.specs.Words.{doubled_from, doubled_words, held_words, number_words, other_words, row_words};
ghost use Rattle.feed_check.specs.Words.{rows_fault_words, shape_words, sorts_words, twice_words};

use crate::metal::Found;
use crate::reported::Reported;
use crate::rows::{RowsFault, fault_rows};
use crate::texts::{cells_in, fault_holders};
use desk_case::names::cell_of_place;
use desk_case::{COLUMNS, CaseFault, CaseKey, MatrixCase, ROWS};
use desk_memory::NoMemory;
use desk_ops::Symbol;
use desk_signals::Cell;
use std::alloc::{AllocError, Allocator, Global};

/// One where the cell at a place holds a symbol, else none.
fn sort_at(case: &MatrixCase, place: usize) -> usize
    requires { place < ROWS * COLUMNS }
    ensures value { result ≡ sort_at (case.now).grid place }
    ensures small { result ≤ 1 }
    ensures lawful { IsCase case.now }
{
    if case.symbol_at(cell_of_place(place)).is_some() {
        1
    } else {
        0
    }
}

/// How many cells of a case hold a symbol.
fn sorts(case: &MatrixCase) -> usize
    ensures { result ≡ sorts (case.now).grid }
{
    let mut count: usize = 0;
    for place in 0..ROWS * COLUMNS {
        count += sort_at(case, place);
    }
    count
}

fn put_case_number<A: Allocator + Copy>(out: &mut String<A>, number: u16) -> Result<(), AllocError>
    ensures { OnOk result (string_bytes out.new ≡ string_bytes out.old ++ number_words number) }
{
    write!(out, "ok: case {number}")
}

fn put_cells<A: Allocator + Copy>(out: &mut String<A>, cells: usize) -> Result<(), AllocError>
    ensures { OnOk result (string_bytes out.new ≡ string_bytes out.old ++ cells_words cells) }
{
    write!(out, ", {cells} cells")
}

fn put_sorts<A: Allocator + Copy>(out: &mut String<A>, sorts: usize) -> Result<(), AllocError>
    ensures { OnOk result (string_bytes out.new ≡ string_bytes out.old ++ sorts_words sorts) }
{
    write!(out, ", {sorts} sorts")
}

/// Writes what a case is, with how many cells its file has texts for.
fn put_case<A: Allocator + Copy>(
    out: &mut String<A>,
    case: &MatrixCase,
    cells: usize,
) -> Result<(), AllocError>
    ensures { OnOk result
        (string_bytes out.new ≡ string_bytes out.old ++ number_words (case.now).number ++ cells_words cells
        ++ sorts_words (sorts (case.now).grid)) }
{
    put_case_number(out, case.number())?;
    put_cells(out, cells)?;
    put_sorts(out, sorts(case))
}

/// Writes what is wrong with a cell.
fn put_cell_fault<A: Allocator + Copy>(
    out: &mut String<A>,
    cell: Cell,
    what: &str,
) -> Result<(), AllocError>
    ensures { OnOk result (string_bytes out.new ≡ string_bytes out.old ++ cell_fault_words cell what.now) }
{
    write!(out, "cell {cell}{what}")
}

/// Writes a cell and the symbol that it holds.
fn put_held<A: Allocator + Copy>(
    out: &mut String<A>,
    cell: Cell,
    symbol: Symbol,
) -> Result<(), AllocError>
    ensures { OnOk result (string_bytes out.new ≡ string_bytes out.old ++ held_words cell symbol) }
{
    write!(out, "cell {cell} holds {symbol}")
}

/// Writes a cell between two texts.
fn put_around<A: Allocator + Copy>(
    out: &mut String<A>,
    before: &str,
    cell: Cell,
    after: &str,
) -> Result<(), AllocError>
    ensures { OnOk result (string_bytes out.new ≡ string_bytes out.old ++ around_words before.now cell after.now) }
{
    write!(out, "{before}{cell}{after}")
}

/// Writes another cell that holds it.
fn put_other<A: Allocator + Copy>(out: &mut String<A>, cell: Cell) -> Result<(), AllocError>
    ensures { OnOk result (string_bytes out.new ≡ string_bytes out.old ++ other_words cell) }
{
    put_around(out, ", which stands in ", cell, " too")
}

/// Writes that a symbol stands in two cells.
fn put_twice<A: Allocator + Copy>(out: &mut String<A>, symbol: Symbol) -> Result<(), AllocError>
    ensures { OnOk result (string_bytes out.new ≡ string_bytes out.old ++ twice_words symbol) }
{
    write!(out, "{symbol} stands in two cells")
}

/// Writes that a symbol stands in two cells, with the first that holds it and the second, if that is known.
fn put_doubled_from<A: Allocator + Copy>(
    out: &mut String<A>,
    symbol: Symbol,
    first: Cell,
    rest: &[Cell],
) -> Result<(), AllocError>
    ensures { OnOk result (string_bytes out.new ≡ string_bytes out.old ++ doubled_from first rest.now symbol) }
{
    let [second, _more @ ..] = rest else {
        return put_twice(out, symbol);
    };
    put_held(out, *second, symbol)?;
    put_other(out, first)
}

/// Writes that a symbol stands in two cells, with the first two that hold it.
fn put_doubled<A: Allocator + Copy>(
    out: &mut String<A>,
    symbol: Symbol,
    holders: &[Cell],
) -> Result<(), AllocError>
    ensures { OnOk result (string_bytes out.new ≡ string_bytes out.old ++ doubled_words holders.now symbol) }
{
    let [first, rest @ ..] = holders else {
        return put_twice(out, symbol);
    };
    put_doubled_from(out, symbol, *first, rest)
}

/// Writes so many of something.
fn put_counted<A: Allocator + Copy>(
    out: &mut String<A>,
    count: usize,
    one: &str,
    many: &str,
) -> Result<(), AllocError>
    ensures { OnOk result (string_bytes out.new ≡ string_bytes out.old ++ counted_words count one.now many.now) }
{
    write!(out, "{count}")?;
    out.push_str(if count == 1 { one } else { many })
}

/// Writes how many texts a row has, and how many are wanted.
fn put_row<A: Allocator + Copy>(
    out: &mut String<A>,
    row: usize,
    texts: usize,
    wanted: usize,
) -> Result<(), AllocError>
    ensures { OnOk result (string_bytes out.new ≡ string_bytes out.old ++ row_words row texts wanted) }
{
    write!(out, "row {row} has ")?;
    put_counted(out, texts, " text", " texts")?;
    write!(out, ", and {wanted} are wanted")
}

/// Writes the number that is wrong in rows.
fn put_rows_fault<A: Allocator + Copy>(
    out: &mut String<A>,
    fault: RowsFault,
) -> Result<(), AllocError>
    ensures { OnOk result (string_bytes out.new ≡ string_bytes out.old ++ rows_fault_words fault) }
{
    match fault {
        RowsFault::Rows(count) => {
            put_counted(out, count, " row", " rows")?;
            out.push_str(", and 15 are wanted")
        }
        RowsFault::Row { row, texts, wanted } => put_row(out, row, texts, wanted),
    }
}

/// Writes that a key holds no such value, with the number that is wrong in rows, if one is.
fn put_shape<A: Allocator + Copy>(
    out: &mut String<A>,
    key: CaseKey,
    rows: Option<RowsFault>,
) -> Result<(), AllocError>
    ensures { OnOk result (string_bytes out.new ≡ string_bytes out.old ++ shape_words key rows) }
{
    match rows {
        None => write!(
            out,
            "`{}` is of another type, number, length or name",
            key.name()
        ),
        Some(fault) => {
            write!(out, "`{}`: ", key.name())?;
            put_rows_fault(out, fault)
        }
    }
}

/// Writes the first fault of a case file, with its key, its cell, its symbol and the cells that hold it, or the number
/// that is wrong in its rows. Where the fault is that memory ran out, nothing is written.
fn put_case_fault<A: Allocator + Copy>(
    out: &mut String<A>,
    fault: CaseFault,
    holders: &[Cell],
    rows: Option<RowsFault>,
) -> Result<(), AllocError>
    ensures { OnOk result
        (Some (string_bytes out.new)
        ≡ option_map (λ words. string_bytes out.old ++ words) (case_fault_words holders.now rows fault)) }
{
    match fault {
        CaseFault::NotToml => out.push_str("it is not TOML"),
        CaseFault::Missing(key) => write!(out, "`{}` is missing", key.name()),
        CaseFault::Shape(key) => put_shape(out, key, rows),
        CaseFault::BadText(cell) => put_cell_fault(out, cell, " has a text that is no symbol"),
        CaseFault::Doubled(symbol) => put_doubled(out, symbol, holders),
        CaseFault::NotBlank(cell) => {
            put_cell_fault(out, cell, ", the space or a fill, holds a symbol")
        }
        CaseFault::FillOrder => out.push_str("the units of the fills do not descend"),
        CaseFault::NoMemory => Err(AllocError),
    }
}

/// What is said of a case, with how many cells its file has texts for.
fn case_in_order<A: Allocator + Copy>(
    alloc: A,
    global: Global,
    bytes: &[u8],
    case: &MatrixCase,
) -> Result<Reported<A>, NoMemory>
    ensures text { IfOk result
        (λ t. case_words (cells_in bytes.now) (fault_holders bytes.now) (fault_rows bytes.now) (Ok case.now)
        ≡ Some (string_bytes t.text)) }
    ensures well { IfOk result (λ t. t.well ≡ true) }
{
    let mut text = String::new(alloc);
    let cells = cells_in(global, bytes)?;
    put_case(&mut text, case, cells)?;
    Ok(Reported { text, well: true })
}

/// What is said of a case file that has a fault.
fn case_refused<A: Allocator + Copy>(
    alloc: A,
    global: Global,
    bytes: &[u8],
    fault: CaseFault,
) -> Result<Reported<A>, NoMemory>
    ensures text { IfOk result
        (λ t. case_words (cells_in bytes.now) (fault_holders bytes.now) (fault_rows bytes.now) (Err fault)
        ≡ Some (string_bytes t.text)) }
    ensures well { IfOk result (λ t. t.well ≡ false) }
{
    let mut text = String::new(alloc);
    let holders = fault_holders(alloc, global, bytes, &fault)?;
    let rows = fault_rows(global, bytes, &fault)?;
    text.push_str("case refused: ")?;
    put_case_fault(&mut text, fault, &holders, rows)?;
    Ok(Reported { text, well: false })
}

/// What is said of a case file: what it gives, or its first fault; and the case.
pub fn case_reported<A: Allocator + Copy>(
    alloc: A,
    global: Global,
    bytes: &[u8],
) -> Result<(Reported<A>, Found), NoMemory>
    ensures said { IfOk result (λ t. SaysCase bytes.now (string_bytes t.0.text) t.0.well) }
    ensures found { IfOk result (λ t. t.1 ≡ of_case (case_of bytes.now)) }
{
    match MatrixCase::read(global, bytes) {
        Ok(case) => {
            let reported = case_in_order(alloc, global, bytes, &case)?;
            Ok((reported, Found::Case(case)))
        }
        Err(fault) => {
            let reported = case_refused(alloc, global, bytes, fault)?;
            Ok((reported, Found::Neither))
        }
    }
}
