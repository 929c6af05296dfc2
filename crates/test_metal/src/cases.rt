ghost use Rattle.std.specs.Prelude.{◌≤◌};

use crate::words::is_worded;
use desk_case::{CaseFault, CaseKey, MatrixCase, names};
use desk_ops::{Style, Symbol};
use desk_signals::{Cell, Column, RowNo};
use desk_wedge::Wedge;
use std::alloc::{AllocError, Global};
use std::test::Fail;

const W: &str =
    "wedge = 5\nset_q = 48\npica = \"sixth\"\nunits = [5, 6, 7, 8, 9, 9, 9, 10, 10, 11, 12, 13, 14, 15, 18]\n";

/// Case 1, without its rows.
pub const HEAD: &str = "case = 1\nspace = \"G1\"\nfill = [\"O15\", \"A5\"]\nrows = [\n";

/// Texts of cells, each with its row and column, counted from 0.
pub type Texts<'a> = &'a [(usize, usize, &'a str)];

/// The texts of Case 1.
pub const CASE_1: Texts<'static> = &[
    (0, 0, "."),
    (3, 0, "t"),
    (4, 1, "a"),
    (4, 2, "i:a"),
    (7, 0, "n"),
    (13, 0, "m"),
    (14, 0, "M"),
    (14, 1, "s:M"),
];

pub fn symbol(style: Style, ch: char) -> Symbol {
    Symbol { style, ch }
}

pub fn at(column: Column, row: u8) -> Cell
    requires low { 1 ≤ row }
    requires high { row ≤ 15 }
{
    let row = RowNo::new(row).unwrap();
    Cell { column, row }
}

/// The text of a cell, which is blank where there is none.
fn text_at<'a>(texts: Texts<'a>, row: usize, column: usize) -> &'a str {
    for (r, c, text) in texts {
        if *r == row && *c == column {
            return text;
        }
    }
    ""
}

/// Adds a row of so many columns to a case file.
fn push_row(
    file: &mut String,
    columns: usize,
    row: usize,
    texts: Texts<'_>,
) -> Result<(), AllocError> {
    file.push_str(" [")?;
    for column in 0..columns {
        file.push_str("\"")?;
        file.push_str(text_at(texts, row, column))?;
        file.push_str("\",")?;
    }
    file.push_str("],\n")
}

/// A case file of so many columns: what stands before its rows, the number of rows, and the texts that are not blank.
pub fn file_of(
    alloc: Global,
    head: &str,
    columns: usize,
    rows: usize,
    texts: Texts<'_>,
) -> Result<String, AllocError> {
    let mut file = String::from_str(alloc, head)?;
    for row in 0..rows {
        push_row(&mut file, columns, row, texts)?;
    }
    file.push_str("]\n")?;
    Ok(file)
}

/// A case file without NI and NL.
pub fn file(
    alloc: Global,
    head: &str,
    rows: usize,
    texts: Texts<'_>,
) -> Result<String, AllocError> {
    file_of(alloc, head, 15, rows, texts)
}

/// The case of a file of so many columns.
pub fn case_with(
    alloc: Global,
    head: &str,
    columns: usize,
    texts: Texts<'_>,
) -> Result<MatrixCase, CaseFault> {
    match file_of(alloc, head, columns, 15, texts) {
        Ok(text) => MatrixCase::read(alloc, text.as_bytes()),
        Err(AllocError) => Err(CaseFault::NoMemory),
    }
}

/// The case of a file without NI and NL.
fn case_of(alloc: Global, head: &str, texts: Texts<'_>) -> Result<MatrixCase, CaseFault> {
    case_with(alloc, head, 15, texts)
}

/// Whether reading bytes answers this fault.
pub fn is_faulty(alloc: Global, bytes: &[u8], fault: CaseFault) -> bool {
    MatrixCase::read(alloc, bytes).err() == Some(fault)
}

/// Whether a file answers this fault.
pub fn is_file_faulty(
    alloc: Global,
    head: &str,
    rows: usize,
    texts: Texts<'_>,
    fault: CaseFault,
) -> bool {
    match file(alloc, head, rows, texts) {
        Ok(text) => is_faulty(alloc, text.as_bytes(), fault),
        Err(AllocError) => false,
    }
}

/// Whether a file of so many columns and rows answers the fault of these words, or none where there are none.
pub fn is_file_reported(
    alloc: Global,
    head: &str,
    (columns, rows): (usize, usize),
    texts: Texts<'_>,
    words: Option<&str>,
) -> bool {
    let Ok(text) = file_of(alloc, head, columns, rows, texts) else {
        return false;
    };
    match (MatrixCase::read(alloc, text.as_bytes()).err(), words) {
        (Some(fault), Some(words)) => is_worded(alloc, &fault, words),
        (fault, words) => fault.is_none() && words.is_none(),
    }
}

/// Whether a case has a symbol in the cell of this name, and there alone.
pub fn has_symbol(case: &MatrixCase, name: &str, style: Style, ch: char) -> bool {
    let Some(cell) = names::cell(name) else {
        return false;
    };
    let Some(found) = case.cell_of(symbol(style, ch)) else {
        return false;
    };
    found == cell && case.symbol_at(cell) == Some(symbol(style, ch))
}

/// Whether the cell of this name is blank.
pub fn is_blank(case: &MatrixCase, name: &str) -> bool {
    match names::cell(name) {
        Some(cell) => case.symbol_at(cell).is_none(),
        None => false,
    }
}

/// Whether a case has this number, this space and these two fills.
pub fn is_framed(case: &MatrixCase, number: u16, space: Cell, fills: &[Cell; 2]) -> bool {
    case.number() == number && case.space() == space && case.fill() == fills.as_slice()
}

const SYMBOLS_1: [(&str, Style, char); 8] = [
    ("A1", Style::Roman, '.'),
    ("A4", Style::Roman, 't'),
    ("B5", Style::Roman, 'a'),
    ("C5", Style::Italic, 'a'),
    ("A8", Style::Roman, 'n'),
    ("A14", Style::Roman, 'm'),
    ("A15", Style::Roman, 'M'),
    ("B15", Style::SmallCap, 'M'),
];

const BLANKS_1: [&str; 7] = ["G1", "O15", "A5", "B1", "D5", "B8", "C15"];

const NOWHERE: [(Style, char); 2] = [(Style::SmallCap, 'a'), (Style::Roman, ' ')];

/// Whether no cell of a case has a symbol.
fn lacks(case: &MatrixCase, style: Style, ch: char) -> bool {
    case.cell_of(symbol(style, ch)).is_none()
}

#[test]
fn reads_case_1_whole(rt: HostRuntime) -> Result<(), Fail> {
    let case = case_of(rt.alloc(), HEAD, CASE_1)?;
    for &(name, style, ch) in &SYMBOLS_1 {
        assert!(rt; has_symbol(&case, name, style, ch), "{name}");
    }
    for &name in &BLANKS_1 {
        assert!(rt; is_blank(&case, name), "{name}");
    }
    for &(style, ch) in &NOWHERE {
        assert!(rt; lacks(&case, style, ch), "{ch:?}");
    }
    let fills = [at(Column::O, 15), at(Column::A, 5)];
    assert!(rt; is_framed(&case, 1, at(Column::G, 1), &fills));
    Ok(())
}

/// Fills, and whether their units descend.
const FILLS: [(&str, bool); 7] = [
    ("'O15', 'A5'", true),
    ("'A5', 'O15'", false),
    ("'O15'", true),
    ("'O15', 'O15'", false),
    ("'O15', 'A6', 'A5'", false),
    ("'O15', 'B14', 'B8', 'B1'", true),
    ("'O15', 'B14', 'B1', 'B8'", false),
];

/// Whether the check of Case 1 with these fills answers that they descend, or that they do not.
fn is_checked(alloc: Global, wedge: &Wedge, fill: &str, descend: bool) -> bool {
    let Ok(head) = format!(in alloc; "case = 1\nspace = 'G1'\nfill = [{fill}]\nrows = [\n") else {
        return false;
    };
    let Ok(case) = case_of(alloc, head.as_str(), CASE_1) else {
        return false;
    };
    case.check(wedge)
        == if descend {
            Ok(())
        } else {
            Err(CaseFault::FillOrder)
        }
}

#[test]
fn checks_fill_order(rt: HostRuntime) -> Result<(), Fail> {
    let wedge = Wedge::read(rt.alloc(), W.as_bytes())?;
    for &(fill, descend) in &FILLS {
        assert!(rt; is_checked(rt.alloc(), &wedge, fill, descend), "{fill}");
    }
    Ok(())
}

/// Heads, numbers of rows and texts, and the words of the fault.
static UNLAWFUL: [(&str, usize, Texts<'static>, &str); 5] = [
    (
        HEAD,
        15,
        &[(7, 0, "n"), (7, 1, "nn")],
        "cell B8 has a text that is no symbol",
    ),
    (
        HEAD,
        15,
        &[(7, 0, "n"), (7, 1, "n")],
        "roman n stands in two cells",
    ),
    (
        "case = 1\nspace = 'A8'\nfill = ['O15', 'A5']\nrows = [\n",
        15,
        CASE_1,
        "cell A8, the space or a fill, holds a symbol",
    ),
    (
        HEAD,
        14,
        CASE_1,
        "`rows` is of another type, number, length or name",
    ),
    (
        "case = 1\nspace = 'G1'\nrows = [\n",
        15,
        CASE_1,
        "`fill` is missing",
    ),
];

#[test]
fn unlawful_files(rt: HostRuntime) {
    for &(head, rows, texts, words) in &UNLAWFUL {
        assert!(rt;
            is_file_reported(rt.alloc(), head, (15, rows), texts, Some(words)),
            "{words}"
        );
    }
}

const HOSTILE_NAMES: [&str; 32] = [
    "",
    "A",
    "A0",
    "A16",
    "a1",
    "P1",
    "A01",
    "A1 ",
    " A1",
    "15",
    "AA1",
    "A115",
    "A-1",
    "A+1",
    "A1\\u0000",
    "Ａ1",
    "P3",
    "Q3",
    "NI3",
    "NL15",
    "NI",
    "NI0",
    "NI16",
    "NI03",
    "NLI3",
    "IN3",
    "LN3",
    "NM3",
    "NN3",
    "Ni3",
    "ni3",
    "N I3",
];

/// Whether a file with this name, between these texts after `space`, answers that the key is of another form.
fn is_no_name(alloc: Global, before: &str, name: &str, after: &str, key: CaseKey) -> bool {
    match format!(in alloc; "case = 1\nspace = {before}\"{name}\"{after}\nrows = [\n") {
        Ok(head) => is_file_faulty(alloc, head.as_str(), 15, &[], CaseFault::Shape(key)),
        Err(AllocError) => false,
    }
}

/// Whether a name is none of a cell, of the space and of a fill.
fn names_nothing(alloc: Global, name: &str) -> bool {
    is_no_name(alloc, "", name, "", CaseKey::Space)
        && is_no_name(alloc, "'G1'\nfill = ['O15', ", name, "]", CaseKey::Fill)
}

/// Names, each with its column, its row and its place.
const NAMES: [(&str, Column, u8, usize); 10] = [
    ("A1", Column::A, 1, 0),
    ("B2", Column::B, 2, 18),
    ("G1", Column::G, 1, 6),
    ("H9", Column::H, 9, 143),
    ("H10", Column::H, 10, 160),
    ("N3", Column::N, 3, 47),
    ("NI3", Column::NI, 3, 49),
    ("O15", Column::O, 15, 252),
    ("NI15", Column::NI, 15, 253),
    ("NL15", Column::NL, 15, 254),
];

/// Whether a name is of the cell in this column and row, which has this place and no other cell has.
fn is_named(name: &str, column: Column, row: u8, place: usize) -> bool {
    let Some(cell) = names::cell(name) else {
        return false;
    };
    cell.column == column
        && cell.row.get() == row
        && names::place(&cell) == place
        && names::cell_of_place(place) == cell
}

#[test]
fn names_of_cells(rt: HostRuntime) {
    for &name in &HOSTILE_NAMES {
        assert!(rt; names_nothing(rt.alloc(), name), "{name}");
    }
    for &(name, column, row, place) in &NAMES {
        assert!(rt; is_named(name, column, row, place), "{name}");
    }
}

const UNLAWFUL_TEXTS: [&str; 25] = [
    "i:",
    "i: ",
    "i:\\n",
    "s:\\u007F",
    " ",
    "\\n",
    "\\t",
    "\\u0000",
    "\\u007F",
    "\\u0085",
    "ab",
    "nn",
    "x:a",
    "I:a",
    "i:ab",
    "r:a",
    "a\\u0301",
    "i:a\\u0301",
    "e\u{301}",
    "\u{301}\u{301}",
    "s:",
    ":a",
    "::",
    "i::i",
    "\u{130}:a",
];

/// Whether a text in D3, before another fault, is no symbol.
fn is_no_symbol(alloc: Global, text: &str) -> bool {
    let texts = [(1, 0, "a"), (1, 1, "a"), (2, 3, text), (3, 0, "bb")];
    let fault = CaseFault::BadText(at(Column::D, 3));
    is_file_faulty(alloc, HEAD, 15, &texts, fault)
}

const LAWFUL_TEXTS: [(&str, Style, char); 13] = [
    ("i", Style::Roman, 'i'),
    ("i::", Style::Italic, ':'),
    (":", Style::Roman, ':'),
    ("s:i", Style::SmallCap, 'i'),
    ("\\u00A0", Style::Roman, '\u{a0}'),
    ("\\u0301", Style::Roman, '\u{301}'),
    ("é", Style::Roman, 'é'),
    ("\\\\", Style::Roman, '\\'),
    ("\\\"", Style::Roman, '"'),
    ("i:😀", Style::Italic, '😀'),
    ("\u{301}", Style::Roman, '\u{301}'),
    ("i:\u{301}", Style::Italic, '\u{301}'),
    ("s:\u{fb01}", Style::SmallCap, '\u{fb01}'),
];

/// Whether a text in D3 is this symbol.
fn is_symbol(alloc: Global, text: &str, style: Style, ch: char) -> bool {
    match case_of(alloc, HEAD, &[(2, 3, text)]) {
        Ok(case) => case.symbol_at(at(Column::D, 3)) == Some(symbol(style, ch)),
        Err(_) => false,
    }
}

#[test]
fn texts_of_cells(rt: HostRuntime) {
    for &text in &UNLAWFUL_TEXTS {
        assert!(rt; is_no_symbol(rt.alloc(), text), "{text}");
    }
    for &(text, style, ch) in &LAWFUL_TEXTS {
        assert!(rt; is_symbol(rt.alloc(), text, style, ch), "{text}");
    }
}

/// Files, and the words of their faults.
const HOSTILE_HEADS: [(&str, &str); 33] = [
    ("", "`case` is missing"),
    ("case", "the file is not TOML"),
    ("case = 1\ncase = 1", "the file is not TOML"),
    ("case = 9223372036854775808", "the file is not TOML"),
    (
        "case = 9223372036854775807",
        "`case` is of another type, number, length or name",
    ),
    (
        "case = 0",
        "`case` is of another type, number, length or name",
    ),
    (
        "case = -1",
        "`case` is of another type, number, length or name",
    ),
    (
        "case = 65536",
        "`case` is of another type, number, length or name",
    ),
    (
        "case = 1.0",
        "`case` is of another type, number, length or name",
    ),
    (
        "case = 1979-05-27T07:32:00Z",
        "`case` is of another type, number, length or name",
    ),
    (
        "[case]",
        "`case` is of another type, number, length or name",
    ),
    (
        "[[case]]",
        "`case` is of another type, number, length or name",
    ),
    ("[a]\ncase = 1", "`case` is missing"),
    ("case = 1\nspace = 5\nfill = 5", "`rows` is missing"),
    (
        "case = 65535\nrows = 3",
        "`rows` is of another type, number, length or name",
    ),
    (
        "case = 1\nrows = []",
        "`rows` is of another type, number, length or name",
    ),
    (
        "case = 1\nrows = \"a\"\nfill = 5",
        "`rows` is of another type, number, length or name",
    ),
    (
        "case = 1\nrows = [[],[],[],[],[],[],[],[],[],[],[],[],[],[],[]]",
        "`rows` is of another type, number, length or name",
    ),
    (
        "case = 1\nrows = [1,2,3,4,5,6,7,8,9,10,11,12,13,14,15]",
        "`rows` is of another type, number, length or name",
    ),
    (
        "case = inf",
        "`case` is of another type, number, length or name",
    ),
    (
        "case = 07:32:00",
        "`case` is of another type, number, length or name",
    ),
    (
        "case = true",
        "`case` is of another type, number, length or name",
    ),
    (
        "case = \"1\"",
        "`case` is of another type, number, length or name",
    ),
    (
        "case = [1]",
        "`case` is of another type, number, length or name",
    ),
    (
        "case = {}",
        "`case` is of another type, number, length or name",
    ),
    (
        "case = 0x1_0000",
        "`case` is of another type, number, length or name",
    ),
    ("case = 01", "the file is not TOML"),
    ("case = -9223372036854775809", "the file is not TOML"),
    ("case = 1\n'case' = 1", "the file is not TOML"),
    ("case = 1\ncase.a = 1", "the file is not TOML"),
    ("case = 0\nrows = []\nrows = []", "the file is not TOML"),
    (
        "case = 1\n[rows]",
        "`rows` is of another type, number, length or name",
    ),
    (
        "case = 1\nrows = 1979-05-27",
        "`rows` is of another type, number, length or name",
    ),
];

/// Whether reading a text answers the fault of these words.
fn is_refused(alloc: Global, text: &str, words: &str) -> bool {
    match MatrixCase::read(alloc, text.as_bytes()).err() {
        Some(fault) => is_worded(alloc, &fault, words),
        None => false,
    }
}

/// Bytes that are no text.
const NO_TEXTS: [&[u8]; 3] = [
    b"\xff",
    b"case = 0 # \xc3\x28\n",
    b"case = 1\n# \xed\xa0\x80\n",
];

/// Rows that open so many lists.
fn deep(alloc: Global, depth: u32) -> Result<String, AllocError> {
    let mut text = String::from_str(alloc, "case = 1\nrows = ")?;
    for _ in 0..depth {
        text.push_str("[")?;
    }
    Ok(text)
}

#[test]
fn hostile_files(rt: HostRuntime) -> Result<(), Fail> {
    for &(text, words) in &HOSTILE_HEADS {
        assert!(rt; is_refused(rt.alloc(), text, words), "{text}");
    }
    for &bytes in &NO_TEXTS {
        assert!(rt;
            is_faulty(rt.alloc(), bytes, CaseFault::NotToml),
            "{bytes:?}"
        );
    }
    let deep = deep(rt.alloc(), 5000)?;
    assert!(rt; is_faulty(rt.alloc(), deep.as_bytes(), CaseFault::NotToml));
    Ok(())
}

/// A symbol in two cells, and then a text that is no symbol.
const DOUBLED_AND_BAD: Texts<'static> = &[(0, 0, "x"), (0, 1, "x"), (1, 2, "xx")];

/// Two symbols in two cells each, and then a symbol in the cell of the space.
const TWICE: Texts<'static> = &[
    (1, 0, "b"),
    (1, 1, "a"),
    (2, 0, "b"),
    (2, 1, "a"),
    (0, 6, "x"),
];

/// Heads and texts, and the words of the first fault.
static FIRST_FAULTS: [(&str, Texts<'static>, &str); 12] = [
    (
        "case = 1\nrows = [\n",
        DOUBLED_AND_BAD,
        "`space` is missing",
    ),
    (
        "case = 1\nspace = 5\nfill = 5\nrows = [\n",
        DOUBLED_AND_BAD,
        "`space` is of another type, number, length or name",
    ),
    (
        "case = 1\nspace = 'A1'\nrows = [\n",
        DOUBLED_AND_BAD,
        "`fill` is missing",
    ),
    (
        "case = 1\nspace = 'A1'\nfill = 'A1'\nrows = [\n",
        DOUBLED_AND_BAD,
        "`fill` is of another type, number, length or name",
    ),
    (
        "case = 1\nspace = 'A1'\nfill = []\nrows = [\n",
        DOUBLED_AND_BAD,
        "`fill` is of another type, number, length or name",
    ),
    (
        "case = 1\nspace = 'A1'\nfill = [5]\nrows = [\n",
        DOUBLED_AND_BAD,
        "`fill` is of another type, number, length or name",
    ),
    (
        "case = 1\nspace = 'A1'\nfill = ['A1','A2','A3','A4','A5']\nrows = [\n",
        DOUBLED_AND_BAD,
        "`fill` is of another type, number, length or name",
    ),
    (
        "case = 1\nspace = 'A1'\nfill = ['A1','A2','A3','A4']\nrows = [\n",
        DOUBLED_AND_BAD,
        "cell C2 has a text that is no symbol",
    ),
    (HEAD, TWICE, "roman b stands in two cells"),
    (
        HEAD,
        &[(0, 6, "x"), (14, 14, "y")],
        "cell G1, the space or a fill, holds a symbol",
    ),
    (
        HEAD,
        &[(4, 0, "x"), (14, 14, "y")],
        "cell O15, the space or a fill, holds a symbol",
    ),
    (
        HEAD,
        &[(4, 0, "x")],
        "cell A5, the space or a fill, holds a symbol",
    ),
];

#[test]
fn faults_in_their_order(rt: HostRuntime) -> Result<(), Fail> {
    for &(head, texts, words) in &FIRST_FAULTS {
        assert!(rt;
            is_file_reported(rt.alloc(), head, (15, 15), texts, Some(words)),
            "{head}"
        );
    }
    let shared = "case = 1\nspace = 'O15'\nfill = ['O15']\nrows = [\n";
    assert!(rt; case_of(rt.alloc(), shared, &[])?.fill().len() == 1);
    Ok(())
}

const CELLS: [(Column, u8, &str); 4] = [
    (Column::A, 1, "A1"),
    (Column::O, 15, "O15"),
    (Column::NI, 10, "NI10"),
    (Column::NL, 9, "NL9"),
];

/// Whether the cell in this column and row is this text, which begins with its column.
fn is_in_words(alloc: Global, column: Column, row: u8, text: &str) -> bool {
    let Some(row) = RowNo::new(row) else {
        return false;
    };
    let cell = Cell { column, row };
    match format!(in alloc; "{cell}") {
        Ok(reported) => reported.as_str() == text && text.starts_with(column.name()),
        Err(AllocError) => false,
    }
}

/// Columns and cells, in words.
#[test]
fn cells_in_words(rt: HostRuntime) {
    for &(column, row, text) in &CELLS {
        assert!(rt; is_in_words(rt.alloc(), column, row, text), "{text}");
    }
}

/// Faults that name no cell, each with its number and its words.
const FAULTS: [(CaseFault, Option<u8>, &str); 6] = [
    (CaseFault::NotToml, Some(1), "the file is not TOML"),
    (
        CaseFault::Missing(CaseKey::Case),
        Some(2),
        "`case` is missing",
    ),
    (
        CaseFault::Shape(CaseKey::Rows),
        Some(3),
        "`rows` is of another type, number, length or name",
    ),
    (
        CaseFault::Doubled(Symbol {
            style: Style::Roman,
            ch: 'n',
        }),
        Some(5),
        "roman n stands in two cells",
    ),
    (
        CaseFault::FillOrder,
        Some(7),
        "the units of the fills do not descend",
    ),
    (CaseFault::NoMemory, None, "no memory"),
];

const KEYS: [(CaseKey, &str); 4] = [
    (CaseKey::Case, "case"),
    (CaseKey::Space, "space"),
    (CaseKey::Fill, "fill"),
    (CaseKey::Rows, "rows"),
];

/// Whether a fault has this number, or none, and these words.
fn is_reported(alloc: Global, fault: CaseFault, number: Option<u8>, words: &str) -> bool {
    is_worded(alloc, &fault, words) && fault.number() == number
}

#[test]
fn names_its_faults(rt: HostRuntime) {
    for &(fault, number, words) in &FAULTS {
        assert!(rt; is_reported(rt.alloc(), fault, number, words), "{words}");
    }
    let bad = "cell A1 has a text that is no symbol";
    assert!(rt;
        is_reported(
            rt.alloc(),
            CaseFault::BadText(at(Column::A, 1)),
            Some(4),
            bad
        )
    );
    let held = "cell A1, the space or a fill, holds a symbol";
    assert!(rt;
        is_reported(
            rt.alloc(),
            CaseFault::NotBlank(at(Column::A, 1)),
            Some(6),
            held
        )
    );
    for &(key, name) in &KEYS {
        assert!(rt; key.name() == name, "{name}");
    }
}
