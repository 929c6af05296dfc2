//! The rows of a case file, where their number, or the number of the texts of one, is not the one wanted.

ghost use Rattle.std.specs.Prelude.{◌≡◌, IfOk, option_map};
ghost use Rattle.toml.specs.View.{items_view, view};
ghost use Rattle.feed_check.specs.Rows.{fault_rows, first_row, rows_fault, rows_fault_in, rows_fault_of, texts_in};
ghost use Rattle.feed_check.specs.Rows.{wanted_by, wanted_of};
ghost use Rattle.feed_check.specs.Texts.{rows_in};

use crate::kinds::document;
use desk_case::{COLUMNS, CaseFault, CaseKey, ROWS};
use desk_memory::NoMemory;
use desk_wedge::member;
use std::alloc::Global;
use toml::Value;

/// The columns A to O, of a file that does not have the last two.
const NARROW: usize = 15;

/// A number of rows or of texts that is not the one wanted.
#[derive(Clone, Copy, Debug, PartialEq, Eq)]
pub enum RowsFault {
    /// There are so many rows.
    Rows(usize),
    /// A row, counted from 1, has so many texts, and so many are wanted.
    Row {
        row: usize,
        texts: usize,
        wanted: usize,
    },
}

/// How many texts a row has, where it is an array of texts alone.
fn texts_in(row: &Value) -> Option<usize>
    ensures { result ≡ texts_in (view row.now) }
{
    let items = row.as_array()?;
    for item in items.iter() {
        let Some(_text) = item.as_str() else {
            return None;
        };
    }
    Some(items.len())
}

/// How many texts are wanted of each row, where the first has so many.
fn wanted_of(first: Option<usize>) -> usize
    ensures { result ≡ wanted_of first }
{
    match first {
        Some(texts) if texts == COLUMNS => COLUMNS,
        _ => NARROW,
    }
}

/// How many texts are wanted of each row, by the first: one of each column where it has so many, else of A to O.
fn wanted_by(rows: &[Value]) -> usize
    ensures { result ≡ wanted_by (items_view rows.now) }
{
    let [first, _more @ ..] = rows else {
        return NARROW;
    };
    wanted_of(texts_in(first))
}

/// The first row that has not as many texts as are wanted. There is none where a row before it is no row of texts.
fn first_row(rows: &[Value], wanted: usize) -> Option<RowsFault>
    ensures { result ≡ first_row wanted 1 (items_view rows.now) }
{
    for (at, row) in rows.iter().enumerate() {
        let texts = texts_in(row)?;
        if texts != wanted {
            return Some(RowsFault::Row {
                row: at + 1,
                texts,
                wanted,
            });
        }
    }
    None
}

/// The number that is wrong in a value of rows.
fn rows_fault_of(rows: &Value) -> Option<RowsFault>
    ensures { result ≡ rows_fault_of (view rows.now) }
{
    let rows = rows.as_array()?;
    if rows.len() != ROWS {
        return Some(RowsFault::Rows(rows.len()));
    }
    first_row(rows, wanted_by(rows))
}

/// The number that is wrong in the value of rows, if there is one.
fn rows_fault_in(rows: Option<&Value>) -> Option<RowsFault>
    ensures { result ≡ rows_fault_in (option_map (λ v. view v.now) rows.entry) }
{
    match rows {
        Some(rows) => rows_fault_of(rows),
        None => None,
    }
}

/// The number that is wrong in the rows of a file.
fn rows_fault(global: Global, bytes: &[u8]) -> Result<Option<RowsFault>, NoMemory>
    ensures { IfOk result (λ f. f ≡ rows_fault bytes.now) }
{
    match document(global, bytes)? {
        Some(table) => Ok(rows_fault_in(member(&table, CaseKey::Rows.name()))),
        None => Ok(None),
    }
}

/// The number that is wrong in the rows of a file, where its fault is of their shape.
pub fn fault_rows(
    global: Global,
    bytes: &[u8],
    fault: &CaseFault,
) -> Result<Option<RowsFault>, NoMemory>
    ensures { IfOk result (λ f. f ≡ fault_rows bytes.now fault.now) }
{
    match fault {
        CaseFault::Shape(CaseKey::Rows) => rows_fault(global, bytes),
        CaseFault::Shape(CaseKey::Case | CaseKey::Space | CaseKey::Fill)
        | CaseFault::NotToml
        | CaseFault::Missing(_)
        | CaseFault::BadText(_)
        | CaseFault::Doubled(_)
        | CaseFault::NotBlank(_)
        | CaseFault::FillOrder
        | CaseFault::NoMemory => Ok(None),
    }
}
