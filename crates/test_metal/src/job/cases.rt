//! The wedge and the case of the formats' examples.

use desk_case::MatrixCase;
use desk_wedge::Wedge;
use linked_list_allocator::LocalHeap;
use std::alloc::{AllocError, Global};
use std::test::Fail;

pub const WEDGE: &str =
    "wedge = 5\nset_q = 48\npica = \"sixth\"\nunits = [5, 6, 7, 8, 9, 9, 9, 10, 10, 11, 12, 13, 14, 15, 18]\n";

/// A wedge whose first row at 20 quarter points gives a space of no width at the least wedge sum.
pub const SMALL_WEDGE: &str =
    "wedge = 5\nset_q = 20\npica = \"sixth\"\nunits = [4, 6, 7, 8, 9, 9, 9, 10, 10, 11, 12, 13, 14, 15, 18]\n";

pub const FILLS: &str = "'O15', 'A5'";

/// The wedge of this text.
pub fn wedge_of(alloc: Global, text: &str) -> Result<Wedge, Fail> {
    Ok(Wedge::read(alloc, text.as_bytes())?)
}

/// The first case, with these fills: its rows by their first three cells, the others blank.
pub fn case_with(alloc: Global, fill: &str) -> Result<MatrixCase, Fail> {
    case_ended(alloc, fill, "", "")
}

/// The first case with two columns more, which are blank but for `q` in NI8.
pub fn wide_case(alloc: Global) -> Result<MatrixCase, Fail> {
    case_ended(alloc, FILLS, ",'',''", ",'q',''")
}

/// The rows of the first case by their first three cells.
const ROWS: [&str; 15] = [
    "'.','',''",
    "'','',''",
    "'','',''",
    "'t','',''",
    "'','a','i:a'",
    "'','',''",
    "'','',''",
    "'n','',''",
    "'','',''",
    "'','',''",
    "'','',''",
    "'','',''",
    "'','',''",
    "'m','',''",
    "'M','s:M',''",
];

/// Adds a row to a case file: its first three cells, twelve blank ones, and its end.
fn push_row(text: &mut String, cells: &str, end: &str) -> Result<(), AllocError> {
    text.push_str("[")?;
    text.push_str(cells)?;
    text.push_str(",'','','','','','','','','','','',''")?;
    text.push_str(end)?;
    text.push_str("],\n")
}

/// The file of the first case, with these fills, and with these ends of its rows and of its eighth row.
fn file_ended(alloc: Global, fill: &str, end: &str, eighth: &str) -> Result<String, AllocError> {
    let mut text = format!(in alloc; "case = 1\nspace = 'G1'\nfill = [{fill}]\nrows = [\n")?;
    for &cells in &ROWS {
        let end = if cells == "'n','',''" { eighth } else { end };
        push_row(&mut text, cells, end)?;
    }
    text.push_str("]\n")?;
    Ok(text)
}

/// The case of that file.
fn case_ended(alloc: Global, fill: &str, end: &str, eighth: &str) -> Result<MatrixCase, Fail> {
    let text = file_ended(alloc, fill, end, eighth)?;
    Ok(MatrixCase::read(alloc, text.as_bytes())?)
}

/// Takes what a heap of so many bytes has left, but for so many times 16.
pub fn ballast(heap: &LocalHeap, bytes: usize, cut: usize) -> Option<Vec<u8, &LocalHeap>> {
    let left = bytes.saturating_sub(heap.used());
    Vec::with_capacity(heap, left.saturating_sub(cut.saturating_mul(16))).ok()
}
