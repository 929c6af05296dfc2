//! The files of the tests.

use crate::metal::{WEDGE, case_with};
use feed_files::Target;
use feed_files::trial::TrialFiles;
use script_answers::Memory;
use std::alloc::{AllocError, Global};
use view_ribbon::Sources;

#[rattlefmt::skip]
const ROWS: &[u8] =
    b"rows = [\n\
 [\"<\",\"\",\"\",\"\",\"\",\"\",\"\",\"\",\"\",\"\",\"\",\"\",\"\",\"\",\"\"],\n\
 [\"\",\"\",\"\",\"\",\"\",\"\",\"\",\"\",\"\",\"\",\"\",\"\",\"\",\"\",\"\"],\n\
 [\"\",\"\",\"\",\"\",\"\",\"\",\"\",\"\",\"\",\"\",\"\",\"\",\"\",\"\",\"\"],\n\
 [\"\",\"\",\"\",\"\",\"\",\"\",\"\",\"\",\"\",\"\",\"\",\"\",\"\",\"\",\"\"],\n\
 [\"\",\"a\",\"i:a\",\"\",\"\",\"\",\"\",\"\",\"\",\"\",\"\",\"\",\"\",\"\",\"\"],\n\
 [\"\",\"\",\"\",\"\",\"\",\"\",\"\",\"\",\"\",\"\",\"\",\"\",\"\",\"\",\"\"],\n\
 [\"\",\"\",\"\",\"\",\"\",\"\",\"\",\"\",\"\",\"\",\"\",\"\",\"\",\"\",\"\"],\n\
 [\"\",\"\",\"\",\"\",\"\",\"\",\"\",\"\",\"\",\"\",\"\",\"\",\"\",\"\",\"\"],\n\
 [\"\",\"\",\"\",\"\",\"\",\"\",\"\",\"\",\"\",\"\",\"\",\"\",\"\",\"\",\"\"],\n\
 [\"\",\"\",\"\",\"\",\"\",\"\",\"\",\"\",\"\",\"\",\"\",\"\",\"\",\"\",\"\"],\n\
 [\"\",\"\",\"\",\"\",\"\",\"\",\"\",\"\",\"\",\"\",\"\",\"\",\"\",\"\",\"\"],\n\
 [\"\",\"\",\"\",\"\",\"\",\"\",\"\",\"\",\"\",\"\",\"\",\"\",\"\",\"\",\"\"],\n\
 [\"\",\"\",\"\",\"\",\"\",\"\",\"\",\"\",\"\",\"\",\"\",\"\",\"\",\"\",\"\"],\n\
 [\"\",\"\",\"\",\"\",\"\",\"\",\"\",\"\",\"\",\"\",\"\",\"\",\"\",\"\",\"\"],\n\
 [\"\",\"\",\"\",\"\",\"\",\"\",\"\",\"\",\"\",\"\",\"\",\"\",\"\",\"\",\"\"]\n]\n";

/// The head, A1, C5, G1 with S, O15, B1, and the wedges at 3 and 10.
const RIBBON: &[u8] =
    b"MRB1\0\0\0\x08\0\0\x02\x06\x40\x01\0\0\x10\0\x10\0\x01\x01\0\x01\0\0\0\0\x20\x01\0\0\0\0\x40\x02\0\0\0\x86";

/// The head; B1 without a matrix in the first line, and the wedges at 3 and 10; C5, and the wedges at 3 and 8.
const LINES: &[u8] =
    b"MRB1\0\0\0\x07\0\0\x02\x06\x20\x01\0\0\0\0\x40\x02\0\0\0\x86\x10\0\x10\0\0\0\x40\x02\0\0\x02\x06";

/// What most of the drawings are made of.
pub const FROM: Sources<'static> = Sources {
    ribbon: "ribbon",
    case: "c",
    wedge: "w",
};

/// What stands under the target before a picture is stored there.
pub const OLD: &[u8] = b"<svg old";

/// Where a picture is stored, over another picture alone.
pub const TARGET: Target<'static> = Target {
    name: "a.svg",
    force: false,
};

/// Files of which the k-th call fails: a ribbon, bytes that are none, a case, a wedge, and what stands under the
/// target.
pub fn rooms(alloc: Global, k: u64) -> Result<TrialFiles<Global>, AllocError> {
    let mut files = TrialFiles::new(alloc).failing_at_call(k);
    files.put("ribbon", RIBBON)?;
    files.put("lines", LINES)?;
    files.put("cut", b"MRB1\0\0\0\x02\0\0\x02\x06")?;
    let case = case_with(alloc, ROWS)?;
    files.put("c", &case)?;
    files.put("w", WEDGE)?;
    files.put("a.svg", OLD)?;
    Ok(files)
}

/// All memory is the global.
pub fn memory(alloc: Global) -> Memory<Global> {
    Memory {
        own: alloc,
        global: alloc,
    }
}
