//! The columns NI and NL, and cases that have them.

use crate::cases::{
    CASE_1, HEAD, Texts, at, case_with, has_symbol, is_blank, is_faulty, is_file_reported,
    is_framed,
};
use crate::rows::{cell_row, coarse, is_image, is_read, shows};
use desk_case::{CaseFault, CaseKey, MatrixCase};
use desk_image::{BadImage, Image};
use desk_ops::Style;
use desk_signals::Signal::{A, I, L, N, S, Three};
use desk_signals::{BadRow, Cell, Column, RowNo, Signal, from_signals};
use std::alloc::{AllocError, Global};
use std::test::Fail;

/// Cells, each by its column, its row and S, and their images.
const IMAGES: [(Column, u8, bool, u32); 7] = [
    (Column::NI, 3, false, 0x0042_4000),
    (Column::NL, 15, true, 0x000a_0001),
    (Column::NI, 15, false, 0x0042_0000),
    (Column::NI, 8, false, 0x0042_0200),
    (Column::N, 15, false, 0x0002_0000),
    (Column::I, 15, false, 0x0040_0000),
    (Column::L, 15, false, 0x0008_0000),
];

#[test]
fn images_of_wide_rows(rt: HostRuntime) {
    for &(column, number, s, bits) in &IMAGES {
        assert!(rt; is_image(cell_row(column, number, s), bits), "{bits:08x}");
    }
}

/// Images that are no rows, and why.
const NO_COLUMNS: [(u32, BadRow); 10] = [
    (0x0048_0000, BadRow::TwoLetters),
    (0x004a_0000, BadRow::TwoLetters),
    (0x4002_0000, BadRow::TwoLetters),
    (0x0006_0000, BadRow::TwoLetters),
    (0x4042_0000, BadRow::TwoLetters),
    (0x0043_8000, BadRow::TwoNumbers),
    (0x0042_0002, BadRow::WedgeWithLetter),
    (0x0042_0003, BadRow::WedgeWithLetter),
    (0x0042_0004, BadRow::FineAlone),
    (0x000a_0006, BadRow::WedgeWithLetter),
];

/// Whether an image is no row for this reason.
fn is_no_row(bits: u32, why: BadRow) -> bool {
    Image::new(bits).to_row() == Err(BadImage::Row(why))
}

#[test]
fn letters_that_are_no_column(rt: HostRuntime) {
    for &(bits, why) in &NO_COLUMNS {
        assert!(rt; is_no_row(bits, why), "{bits:08x}");
    }
}

/// Signals, and the cell that they are: its column, its row, and S.
static CELLS: [(&[Signal], Column, u8, bool); 4] = [
    (&[I, N, Three], Column::NI, 3, false),
    (&[N, I, Three], Column::NI, 3, false),
    (&[S, N, Three, L], Column::NL, 3, true),
    (&[L, N], Column::NL, 15, false),
];

static NO_ROWS: [(&[Signal], BadRow); 5] = [
    (&[L, I], BadRow::TwoLetters),
    (&[N, A], BadRow::TwoLetters),
    (&[N, I, L], BadRow::TwoLetters),
    (&[N, N], BadRow::Repeated),
    (&[N, I, N], BadRow::Repeated),
];

/// Whether signals are no row for this reason.
fn are_no_row(signals: &[Signal], why: BadRow) -> bool {
    from_signals(signals) == Err(why)
}

#[test]
fn signals_in_any_order(rt: HostRuntime) {
    for &(signals, column, number, s) in &CELLS {
        assert!(rt;
            is_read(cell_row(column, number, s), signals),
            "{signals:?}"
        );
    }
    for &(signals, why) in &NO_ROWS {
        assert!(rt; are_no_row(signals, why), "{signals:?}");
    }
    assert!(rt; shows(cell_row(Column::NI, 3, true), &[I, N, Three, S]));
    assert!(rt; shows(cell_row(Column::NL, 3, true), &[L, N, Three, S]));
}

/// Columns, each with its place in their order.
const COLUMNS: [(u8, Column); 5] = [
    (0, Column::A),
    (13, Column::N),
    (14, Column::O),
    (15, Column::NI),
    (16, Column::NL),
];

/// Whether a column has this place, and stands there.
fn is_column_at(index: u8, column: Column) -> bool {
    Column::at(index) == Some(column) && column.index() == index
}

#[test]
fn columns_in_their_order(rt: HostRuntime) {
    for &(index, column) in &COLUMNS {
        assert!(rt; is_column_at(index, column), "{index}");
    }
    for &index in &[17, 255] {
        assert!(rt; Column::at(index).is_none(), "{index}");
    }
    assert!(rt; coarse(3).signals().len() == 2);
}

/// The texts of the wide case: Case 1, and three symbols in its last columns.
const WIDE: Texts<'static> = &[
    (0, 0, "."),
    (0, 16, "fi"),
    (3, 0, "t"),
    (4, 1, "a"),
    (7, 15, "q"),
    (14, 14, "z"),
    (14, 16, "i:q"),
];

const SYMBOLS_17: [(&str, Style, char); 5] = [
    ("A4", Style::Roman, 't'),
    ("B5", Style::Roman, 'a'),
    ("NI8", Style::Roman, 'q'),
    ("O15", Style::Roman, 'z'),
    ("NL15", Style::Italic, 'q'),
];

const BLANKS_17: [&str; 7] = ["NI1", "NL14", "NI5", "NL8", "N8", "I8", "NI15"];

#[test]
fn reads_wide_cases(rt: HostRuntime) -> Result<(), Fail> {
    let head = "case = 17\nspace = 'NI1'\nfill = ['NL14', 'NI5']\nrows = [\n";
    let case = case_with(rt.alloc(), head, 17, &WIDE[2..])?;
    for &(name, style, ch) in &SYMBOLS_17 {
        assert!(rt; has_symbol(&case, name, style, ch), "{name}");
    }
    for &name in &BLANKS_17 {
        assert!(rt; is_blank(&case, name), "{name}");
    }
    let fills = [at(Column::NL, 14), at(Column::NI, 5)];
    assert!(rt; is_framed(&case, 17, at(Column::NI, 1), &fills));
    Ok(())
}

/// Whether the cells in the last two columns of a row are blank.
fn ends_blank(case: &MatrixCase, number: u8) -> bool {
    let Some(row) = RowNo::new(number) else {
        return false;
    };
    let column = Column::NI;
    let other = Column::NL;
    case.symbol_at(Cell { column, row }).is_none()
        && case.symbol_at(Cell { column: other, row }).is_none()
}

#[test]
fn narrow_cases_have_blanks(rt: HostRuntime) -> Result<(), Fail> {
    let case = case_with(rt.alloc(), HEAD, 15, CASE_1)?;
    for row in 1..16u8 {
        assert!(rt; ends_blank(&case, row), "{row}");
    }
    assert!(rt; has_symbol(&case, "B15", Style::SmallCap, 'M'));
    Ok(())
}

const SPACED: &str = "case = 1\nspace = 'NI1'\nfill = ['O15']\nrows = [\n";

const FILLED: &str = "case = 1\nspace = 'G1'\nfill = ['O15', 'NL3']\nrows = [\n";

/// Heads, numbers of columns and texts, and the words of the fault, if there is one.
static WIDE_FILES: [(&str, usize, Texts<'static>, Option<&str>); 10] = [
    (
        SPACED,
        15,
        CASE_1,
        Some("`space` is of another type, number, length or name"),
    ),
    (SPACED, 17, CASE_1, None),
    (
        FILLED,
        15,
        CASE_1,
        Some("`fill` is of another type, number, length or name"),
    ),
    (FILLED, 17, CASE_1, None),
    (
        HEAD,
        16,
        CASE_1,
        Some("`rows` is of another type, number, length or name"),
    ),
    (
        HEAD,
        18,
        CASE_1,
        Some("`rows` is of another type, number, length or name"),
    ),
    (
        HEAD,
        17,
        WIDE,
        Some("cell NL1 has a text that is no symbol"),
    ),
    (
        HEAD,
        17,
        &[(3, 14, "bb"), (3, 15, "cc")],
        Some("cell O4 has a text that is no symbol"),
    ),
    (
        HEAD,
        17,
        &[(3, 15, "b"), (3, 16, "a"), (4, 0, "a"), (4, 1, "b")],
        Some("roman a stands in two cells"),
    ),
    (
        FILLED,
        17,
        &[(2, 16, "x")],
        Some("cell NL3, the space or a fill, holds a symbol"),
    ),
];

#[test]
fn faults_of_wide_files(rt: HostRuntime) {
    for &(head, columns, texts, words) in &WIDE_FILES {
        assert!(rt;
            is_file_reported(rt.alloc(), head, (columns, 15), texts, words),
            "{head} {columns}"
        );
    }
}

const NARROW_ROW: &str = " ['','','','','','','','','','','','','','',''],\n";

const WIDE_ROW: &str = " ['','','','','','','','','','','','','','','','',''],\n";

/// A file with this row, then fourteen like the next one, and then the last.
fn fifteen(alloc: Global, first: &str, one: &str, last: &str) -> Result<String, AllocError> {
    let mut text = String::from_str(alloc, HEAD)?;
    text.push_str(first)?;
    for _ in 0..14u32 {
        text.push_str(one)?;
    }
    text.push_str(last)?;
    text.push_str("]\n")?;
    Ok(text)
}

/// Whether such a file answers that its rows are of another form.
fn is_of_both(alloc: Global, first: &str, one: &str, last: &str) -> bool {
    match fifteen(alloc, first, one, last) {
        Ok(text) => is_faulty(alloc, text.as_bytes(), CaseFault::Shape(CaseKey::Rows)),
        Err(AllocError) => false,
    }
}

/// Fourteen rows of the one width, and before them or after them one of the other.
#[test]
fn rows_of_both_widths(rt: HostRuntime) {
    for &(first, one, last) in &[
        (WIDE_ROW, NARROW_ROW, ""),
        ("", NARROW_ROW, WIDE_ROW),
        (NARROW_ROW, WIDE_ROW, ""),
        ("", WIDE_ROW, NARROW_ROW),
    ] {
        assert!(rt;
            is_of_both(rt.alloc(), first, one, last),
            "{first} {one} {last}"
        );
    }
}
