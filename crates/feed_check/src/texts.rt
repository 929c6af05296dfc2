//! The texts of a case file's cells.

ghost use Rattle.std.specs.Prelude.{◌≡◌, ◌≤◌, ◌++◌, ◌<◌, ◌*◌, IfOk, OnOk, Some, option_and_then, option_map};
ghost use Rattle.std.specs.Prelude.{string_bytes};
ghost use Rattle.toml.specs.View.{table_view, view};
ghost use Rattle.desk_wedge.specs.Keys.{document};
ghost use Rattle.feed_check.specs.Texts.{cells_in, cells_of, fault_holders, holder, holders, holders_of, is_text};
ghost use Rattle.feed_check.specs.Texts.{mark_in_file, one_text, rows_in, text_at, text_in_file, texts};

use crate::kinds::document;
use desk_case::names::cell_of_place;
use desk_case::{COLUMNS, CaseFault, CaseKey, ROWS};
use desk_memory::NoMemory;
use desk_ops::{Style, Symbol};
use desk_signals::Cell;
use desk_wedge::member;
use std::alloc::{AllocError, Allocator, Global};
use toml::Value;

/// The text at a place of rows, counted row by row.
fn text_at(rows: &Value, place: usize) -> Option<&str>
    ensures { option_map (λ t. t.now) result ≡ text_at (view rows.now) place }
{
    rows.get(place / COLUMNS)?.get(place % COLUMNS)?.as_str()
}

/// One where a place has a text, else none.
fn one_text(rows: &Value, place: usize) -> usize
    ensures value { result ≡ one_text (view rows.now) place }
    ensures small { result ≤ 1 }
{
    if text_at(rows, place).is_some() { 1 } else { 0 }
}

/// How many places have a text.
#[tactic(auto, using(crate::proofs::Places::texts_none))]
fn texts(rows: &Value) -> usize
    ensures { result ≡ texts (view rows.now) (ROWS * COLUMNS) }
{
    let mut count: usize = 0;
    for place in 0..ROWS * COLUMNS {
        count += one_text(rows, place);
    }
    count
}

/// Whether a text is this one.
fn is_text(text: &str, found: Option<&str>) -> bool
    ensures { result ≡ is_text text.now (option_map (λ t. t.now) found.entry) }
{
    match found {
        Some(found) => found == text,
        None => false,
    }
}

/// Adds the cell at a place, where it has a text.
fn add_holder<A: Allocator + Copy>(
    cells: &mut Vec<Cell, A>,
    rows: &Value,
    text: &str,
    place: usize,
) -> Result<(), NoMemory>
    requires { place < ROWS * COLUMNS }
    ensures { OnOk result (cells.new.items ≡ cells.old.items ++ holder (view rows.now) text.now place) }
{
    if is_text(text, text_at(rows, place)) {
        cells.push(cell_of_place(place))?;
    }
    Ok(())
}

/// The cells that have a text.
#[tactic(auto, using(crate::proofs::Places::holders_none, crate::proofs::Places::holders_more))]
fn holders<A: Allocator + Copy>(
    alloc: A,
    rows: &Value,
    text: &str,
) -> Result<Vec<Cell, A>, NoMemory>
    ensures { IfOk result (λ v. v.items ≡ holders (view rows.now) text.now (ROWS * COLUMNS)) }
{
    let mut cells = Vec::new(alloc);
    for place in 0..ROWS * COLUMNS {
        add_holder(&mut cells, rows, text, place)?;
    }
    Ok(cells)
}

/// What stands before a character of a style in a case file.
fn mark_in_file(style: Style) -> &'static str
    ensures { result.now ≡ mark_in_file style }
{
    match style {
        Style::Roman => "",
        Style::Italic => "i:",
        Style::SmallCap => "s:",
    }
}

/// The text that stands for a symbol in a case file.
fn text_in_file<A: Allocator + Copy>(alloc: A, symbol: Symbol) -> Result<String<A>, NoMemory>
    ensures { IfOk result (λ s. string_bytes s ≡ text_in_file symbol) }
{
    let mut text = String::new(alloc);
    text.push_str(mark_in_file(symbol.style))?;
    text.push(symbol.ch)?;
    Ok(text)
}

/// How many texts the value has, if there is one.
fn cells_of(rows: Option<&Value>) -> usize
    ensures { result ≡ cells_of (option_map (λ v. view v.now) rows.entry) }
{
    match rows {
        Some(rows) => texts(rows),
        None => 0,
    }
}

/// How many cells a file has texts for.
pub fn cells_in(global: Global, bytes: &[u8]) -> Result<usize, NoMemory>
    ensures { IfOk result (λ n. n ≡ cells_in bytes.now) }
{
    match document(global, bytes)? {
        Some(table) => Ok(cells_of(member(&table, CaseKey::Rows.name()))),
        None => Ok(0),
    }
}

/// The cells of a value that have a text, if there is one.
fn holders_of<A: Allocator + Copy>(
    alloc: A,
    rows: Option<&Value>,
    text: &str,
) -> Result<Vec<Cell, A>, NoMemory>
    ensures { IfOk result (λ v. v.items ≡ holders_of text.now (option_map (λ v. view v.now) rows.entry)) }
{
    match rows {
        Some(rows) => holders(alloc, rows, text),
        None => Ok(Vec::new(alloc)),
    }
}

/// The cells of a file that have a text.
fn holders_in<A: Allocator + Copy>(
    alloc: A,
    global: Global,
    bytes: &[u8],
    text: &str,
) -> Result<Vec<Cell, A>, NoMemory>
    ensures { IfOk result (λ v. v.items ≡ holders_of text.now (rows_in bytes.now)) }
{
    match document(global, bytes)? {
        Some(table) => holders_of(alloc, member(&table, CaseKey::Rows.name()), text),
        None => Ok(Vec::new(alloc)),
    }
}

/// The cells of a file that hold a symbol.
fn symbol_holders<A: Allocator + Copy>(
    alloc: A,
    global: Global,
    bytes: &[u8],
    symbol: Symbol,
) -> Result<Vec<Cell, A>, NoMemory>
    ensures { IfOk result (λ v. v.items ≡ holders_of (text_in_file symbol) (rows_in bytes.now)) }
{
    let text = text_in_file(alloc, symbol)?;
    holders_in(alloc, global, bytes, text.as_str())
}

/// The cells that hold the symbol of a fault, if it is of one.
pub fn fault_holders<A: Allocator + Copy>(
    alloc: A,
    global: Global,
    bytes: &[u8],
    fault: &CaseFault,
) -> Result<Vec<Cell, A>, NoMemory>
    ensures { IfOk result (λ v. v.items ≡ fault_holders bytes.now fault.now) }
{
    match fault {
        CaseFault::Doubled(symbol) => symbol_holders(alloc, global, bytes, *symbol),
        CaseFault::NotToml
        | CaseFault::Missing(_)
        | CaseFault::Shape(_)
        | CaseFault::BadText(_)
        | CaseFault::NotBlank(_)
        | CaseFault::FillOrder
        | CaseFault::NoMemory => Ok(Vec::new(alloc)),
    }
}
