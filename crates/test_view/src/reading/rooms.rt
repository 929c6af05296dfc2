//! The files of the tests.

use crate::metal::{ROWS, WEDGE, case_with, case_with_mark};
use feed_files::trial::TrialFiles;
use script_answers::Memory;
use std::alloc::{AllocError, Global};

/// The space of this wedge has 5,000 atoms.
const SMALL: &[u8] =
    b"wedge = 6\nset_q = 20\npica = \"sixth\"\nunits = [1, 6, 7, 8, 9, 9, 9, 10, 10, 11, 12, 13, 14, 15, 18]\n";

/// The head; n, a space, t, and the wedges at 4 and 10; a, a fill, and the wedges at 3 and 8.
const LINES: &[u8] =
    b"MRB1\0\0\0\x0a\0\0\x02\x06\x40\0\x02\0\x01\x01\0\x01\x40\0\x20\0\0\0\x20\x02\0\0\0\x86\x20\0\x10\0\0\0\0\0\0\0\x40\x02\0\0\x02\x06";

/// The same, but for the fine wedge of the second line, which is at 7; and n, and the wedges at 3 and 8.
const MORE: &[u8] =
    b"MRB1\0\0\0\x0d\0\0\x02\x06\x40\0\x02\0\x01\x01\0\x01\x40\0\x20\0\0\0\x20\x02\0\0\0\x86\x20\0\x10\0\0\0\0\0\0\0\x40\x02\0\0\x04\x06\x40\0\x02\0\0\0\x40\x02\0\0\x02\x06";

/// The first ribbon with the fill A5 for O15.
const FILLS: &[u8] =
    b"MRB1\0\0\0\x0a\0\0\x02\x06\x40\0\x02\0\x01\x01\0\x01\x40\0\x20\0\0\0\x20\x02\0\0\0\x86\x20\0\x10\0\x40\0\x10\0\0\0\x40\x02\0\0\x02\x06";

/// The first ribbon with a space that has no S.
const FIXED: &[u8] =
    b"MRB1\0\0\0\x0a\0\0\x02\x06\x40\0\x02\0\x01\x01\0\0\x40\0\x20\0\0\0\x20\x02\0\0\0\x86\x20\0\x10\0\0\0\0\0\0\0\x40\x02\0\0\x02\x06";

/// The first ribbon with the coarse wedge of the first line at 3.
const COARSE: &[u8] =
    b"MRB1\0\0\0\x0a\0\0\x02\x06\x40\0\x02\0\x01\x01\0\x01\x40\0\x20\0\0\0\x40\x02\0\0\0\x86\x20\0\x10\0\0\0\0\0\0\0\x40\x02\0\0\x02\x06";

/// The head; twice a, and the wedges at 3 and 8.
const TWINS: &[u8] =
    b"MRB1\0\0\0\x07\0\0\x02\x06\x20\0\x10\0\0\0\x40\x02\0\0\x02\x06\x20\0\x10\0\0\0\x40\x02\0\0\x02\x06";

/// The head; a space, and the wedges at 1 and 1.
const SPACE: &[u8] = b"MRB1\0\0\0\x04\0\0\x02\x06\x01\x01\0\x01\0\x01\0\x02\0\x01\0\x06";

/// A ribbon without lines.
const HEAD: &[u8] = b"MRB1\0\0\0\x01\0\0\x02\x06";

/// The rows of ribbons one after the other, of which there are so many.
fn joined(alloc: Global, rows: u8, parts: &[&[u8]]) -> Result<Vec<u8, Global>, AllocError> {
    let mut out = Vec::new(alloc);
    out.extend_from_slice(&[b'M', b'R', b'B', b'1', 0, 0, 0, rows])?;
    for part in parts {
        for byte in part.iter().skip(8) {
            out.push(*byte)?;
        }
    }
    Ok(out)
}

/// Files of which the k-th call fails: ribbons, bytes that are none, a case and wedges.
pub fn rooms(alloc: Global, k: u64) -> Result<TrialFiles<Global>, AllocError> {
    let mut files = TrialFiles::new(alloc).failing_at_call(k);
    files.put("lines", LINES)?;
    files.put("more", MORE)?;
    files.put("fills", FILLS)?;
    files.put("fixed", FIXED)?;
    files.put("coarse", COARSE)?;
    files.put("twins", TWINS)?;
    files.put("\x1b.rib", LINES)?;
    files.put("space", SPACE)?;
    files.put("head", HEAD)?;
    files.put("three", &joined(alloc, 21, &[LINES, HEAD, LINES])?)?;
    files.put("second", &joined(alloc, 11, &[HEAD, LINES])?)?;
    files.put("feed", b"MFD2\0\0\0\0")?;
    files.put("cut", b"MRB1\0\0\0\x02\0\0\x02\x06")?;
    files.put("two", b"MRB1\0\0\0\x02\0\0\x02\x06\x60\0\x02\0")?;
    files.put("high", b"MRB1\0\0\0\x01\x80\0\x02\x06")?;
    files.put("alone", b"MRB1\0\0\0\x02\0\0\x02\x06\x40\0\x02\0")?;
    files.put(
        "blank",
        b"MRB1\0\0\0\x04\0\0\x02\x06\x20\x01\0\0\0\0\x40\x02\0\0\x02\x06",
    )?;
    files.put("open", b"MRB1\0\0\0\x02\0\0\x40\x02\0\0\x02\x06")?;
    let case = case_with(alloc, ROWS)?;
    files.put("c", &case)?;
    files.put("marked", &case_with_mark(alloc)?)?;
    files.put("w", WEDGE)?;
    files.put("small", SMALL)?;
    files.put("broken", b"wedge =")?;
    Ok(files)
}

/// All memory is the global.
pub fn memory(alloc: Global) -> Memory<Global> {
    Memory {
        own: alloc,
        global: alloc,
    }
}
