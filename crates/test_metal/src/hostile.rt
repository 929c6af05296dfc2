//! Hostile cases: rows of no shape, and 64 MiB of text.
use crate::cases::{CASE_1, HEAD, at, file, is_faulty, is_file_faulty, symbol};
use desk_case::{CaseFault, CaseKey, MatrixCase};
use desk_ops::Style;
use desk_signals::Column;
use std::alloc::{AllocError, Global};
use std::test::Fail;

/// First rows that have no 15 texts, or are no list.
const HOSTILE_ROWS: [&str; 14] = [
    "['','','','','','','','','','','','','','']",
    "['','','','','','','','','','','','','','','','']",
    "['','','','','','','','','','','','','','',1]",
    "['','','','','','','','','','','','','','',1.0]",
    "['','','','','','','','','','','','','','',nan]",
    "['','','','','','','','','','','','','','',true]",
    "['','','','','','','','','','','','','','',1979-05-27]",
    "['','','','','','','','','','','','','','',{}]",
    "['','','','','','','','','','','','','','',[]]",
    "['','','','','','','','','','','','','','',['a']]",
    "1",
    "'abcdefghijklmno'",
    "{}",
    "1979-05-27",
];

/// Whether a first row before a text that is no symbol is of another form.
fn is_no_row(alloc: Global, row: &str) -> bool {
    let fault = CaseFault::Shape(CaseKey::Rows);
    match format!(in alloc; "{HEAD} {row},\n") {
        Ok(head) => is_file_faulty(alloc, head.as_str(), 14, &[(0, 0, "bad")], fault),
        Err(AllocError) => false,
    }
}

#[test]
fn hostile_rows(rt: HostRuntime) {
    for &row in &HOSTILE_ROWS {
        assert!(rt; is_no_row(rt.alloc(), row), "{row}");
    }
}

/// 64 MiB of text: its prefix, then one byte over and over, and its end.
fn long(alloc: Global, prefix: &str, filler: u8, end: &str) -> Result<Vec<u8>, AllocError> {
    let mut bytes = Vec::with_capacity(alloc, 67_108_864)?;
    bytes.extend_from_slice(prefix.as_bytes())?;
    bytes.resize(67_108_864usize.saturating_sub(end.len()), filler)?;
    bytes.extend_from_slice(end.as_bytes())?;
    Ok(bytes)
}

/// Case 1 after a comment, in 64 MiB.
fn commented(alloc: Global) -> Result<Vec<u8>, AllocError> {
    let head = "\ncase = 1\nspace = \"G1\"\nfill = [\"O15\", \"A5\"]\nrows = [\n";
    let end = file(alloc, head, 15, CASE_1)?;
    long(alloc, "#", b'x', end.as_str())
}

/// Whether bytes are a case that has the small capital M in B15.
fn has_small_m(alloc: Global, bytes: &[u8]) -> bool {
    match MatrixCase::read(alloc, bytes) {
        Ok(case) => case.symbol_at(at(Column::B, 15)) == Some(symbol(Style::SmallCap, 'M')),
        Err(_) => false,
    }
}

#[test]
fn comment_of_64_mib(rt: HostRuntime) -> Result<(), Fail> {
    let text = commented(rt.alloc())?;
    assert!(rt; text.len() == 67_108_864 && has_small_m(rt.alloc(), text.as_slice()));
    Ok(())
}

#[test]
fn garbage_of_64_mib(rt: HostRuntime) -> Result<(), Fail> {
    let text = long(rt.alloc(), "case = 1\nrows = ", b'7', "")?;
    assert!(rt;
        text.len() == 67_108_864 && is_faulty(rt.alloc(), text.as_slice(), CaseFault::NotToml)
    );
    Ok(())
}

/// Case 1 with a cell that makes it 64 MiB.
fn long_cell(alloc: Global) -> Result<Vec<u8>, AllocError> {
    let rest = "','','','','','','','','','','','',''],\n";
    let end = file(alloc, rest, 14, CASE_1)?;
    let prefix = "case = 1\nspace = \"G1\"\nfill = [\"O15\", \"A5\"]\nrows = [\n ['','','";
    long(alloc, prefix, b'n', end.as_str())
}

#[test]
fn cell_of_64_mib(rt: HostRuntime) -> Result<(), Fail> {
    let text = long_cell(rt.alloc())?;
    let fault = CaseFault::BadText(at(Column::C, 1));
    assert!(rt; text.len() == 67_108_864 && is_faulty(rt.alloc(), text.as_slice(), fault));
    Ok(())
}
