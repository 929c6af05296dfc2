//! A wedge, and the text of a case with few symbols: of these the files of most of these tests are made.

use std::alloc::{AllocError, Global};

/// A unit at this set is 12,000 atoms, and a point 18,000.
pub const WEDGE: &[u8] =
    b"wedge = 5\nset_q = 48\npica = \"sixth\"\nunits = [5, 6, 7, 8, 9, 9, 9, 10, 10, 11, 12, 13, 14, 15, 18]\n";

const CASE: &[u8] = b"case = 1\nspace = \"G1\"\nfill = [\"O15\", \"A5\"]\n";

/// A full stop, `t`, `a` of two styles, `n`, `m`, and `M` of two styles.
#[rattlefmt::skip]
pub const ROWS: &[u8] =
    b"rows = [\n\
 [\".\",\"\",\"\",\"\",\"\",\"\",\"\",\"\",\"\",\"\",\"\",\"\",\"\",\"\",\"\"],\n\
 [\"\",\"\",\"\",\"\",\"\",\"\",\"\",\"\",\"\",\"\",\"\",\"\",\"\",\"\",\"\"],\n\
 [\"\",\"\",\"\",\"\",\"\",\"\",\"\",\"\",\"\",\"\",\"\",\"\",\"\",\"\",\"\"],\n\
 [\"t\",\"\",\"\",\"\",\"\",\"\",\"\",\"\",\"\",\"\",\"\",\"\",\"\",\"\",\"\"],\n\
 [\"\",\"a\",\"i:a\",\"\",\"\",\"\",\"\",\"\",\"\",\"\",\"\",\"\",\"\",\"\",\"\"],\n\
 [\"\",\"\",\"\",\"\",\"\",\"\",\"\",\"\",\"\",\"\",\"\",\"\",\"\",\"\",\"\"],\n\
 [\"\",\"\",\"\",\"\",\"\",\"\",\"\",\"\",\"\",\"\",\"\",\"\",\"\",\"\",\"\"],\n\
 [\"n\",\"\",\"\",\"\",\"\",\"\",\"\",\"\",\"\",\"\",\"\",\"\",\"\",\"\",\"\"],\n\
 [\"\",\"\",\"\",\"\",\"\",\"\",\"\",\"\",\"\",\"\",\"\",\"\",\"\",\"\",\"\"],\n\
 [\"\",\"\",\"\",\"\",\"\",\"\",\"\",\"\",\"\",\"\",\"\",\"\",\"\",\"\",\"\"],\n\
 [\"\",\"\",\"\",\"\",\"\",\"\",\"\",\"\",\"\",\"\",\"\",\"\",\"\",\"\",\"\"],\n\
 [\"\",\"\",\"\",\"\",\"\",\"\",\"\",\"\",\"\",\"\",\"\",\"\",\"\",\"\",\"\"],\n\
 [\"\",\"\",\"\",\"\",\"\",\"\",\"\",\"\",\"\",\"\",\"\",\"\",\"\",\"\",\"\"],\n\
 [\"m\",\"\",\"\",\"\",\"\",\"\",\"\",\"\",\"\",\"\",\"\",\"\",\"\",\"\",\"\"],\n\
 [\"M\",\"s:M\",\"\",\"\",\"\",\"\",\"\",\"\",\"\",\"\",\"\",\"\",\"\",\"\",\"\"]\n]\n";

/// The text of a case with these rows.
pub fn case_with(alloc: Global, rows: &[u8]) -> Result<Vec<u8, Global>, AllocError> {
    let mut case = Vec::new(alloc);
    case.extend_from_slice(CASE)?;
    case.extend_from_slice(rows)?;
    Ok(case)
}

/// The text of the case with U+202E in place of its `t`.
pub fn case_with_mark(alloc: Global) -> Result<Vec<u8, Global>, AllocError> {
    let mut case = Vec::new(alloc);
    for byte in &case_with(alloc, ROWS)? {
        if *byte == b't' {
            case.extend_from_slice("\u{202e}".as_bytes())?;
        } else {
            case.push(*byte)?;
        }
    }
    Ok(case)
}
