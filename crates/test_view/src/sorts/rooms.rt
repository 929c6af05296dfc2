//! The files of the tests.

use crate::metal::{ROWS, case_with, case_with_mark};
use feed_files::trial::TrialFiles;
use script_answers::Memory;
use std::alloc::{AllocError, Global};

/// Adds the inserts of symbols in one run from 6.1 on: of each its style, 0 to 2, and its character.
fn put_copy(out: &mut Vec<u8, Global>, copy: &[(u8, u8)]) -> Result<(), AllocError> {
    out.extend_from_slice(&[4, 0, 0, 0, 0, 0, 0, 0, 6, 0, 1])?;
    out.extend_from_slice(&[0; 10])?;
    out.push(u8::try_from(copy.len()).unwrap_or(0))?;
    for (style, ch) in copy {
        out.extend_from_slice(&[*style, 0, 0, 0, *ch])?;
    }
    Ok(())
}

/// A feed with a copy.
fn feed(alloc: Global, copy: &[(u8, u8)]) -> Result<Vec<u8, Global>, AllocError> {
    let mut out = Vec::new(alloc);
    out.extend_from_slice(b"MFD2")?;
    put_copy(&mut out, copy)?;
    Ok(out)
}

/// `a n`, an italic `a`, `é`, a line feed, `né` and a small capital `M`; the case has no `é`.
const LACKING: &[(u8, u8)] = &[
    (0, b'a'),
    (0, b' '),
    (0, b'n'),
    (1, b'a'),
    (0, 0xe9),
    (0, b'\n'),
    (0, b'n'),
    (0, 0xe9),
    (2, b'M'),
];

/// An `é` and a `q`, which the case has not.
const PAIR: &[(u8, u8)] = &[(0, 0xe9), (0, b'q')];

/// A feed with these two by turns, eleven times.
fn many(alloc: Global) -> Result<Vec<u8, Global>, AllocError> {
    let mut copy = Vec::new(alloc);
    for _ in 0..11 {
        copy.extend_from_slice(PAIR)?;
    }
    feed(alloc, &copy)
}

/// An `n`, an italic U+202E and an `n`, in one run from 6.1 on.
const MARKED: &[u8] =
    b"MFD2\x04\0\0\0\0\0\0\0\x06\0\x01\0\0\0\0\0\0\0\0\0\0\x03\0\0\0\0n\x01\0\0\x20\x2e\0\0\0\0n";

/// Files of which the k-th call fails: feeds, cases, and a file that is no case.
pub fn rooms(alloc: Global, k: u64) -> Result<TrialFiles<Global>, AllocError> {
    let mut files = TrialFiles::new(alloc).failing_at_call(k);
    files.put("lacking.feed", &feed(alloc, LACKING)?)?;
    files.put("many.feed", &many(alloc)?)?;
    files.put("whole.feed", &feed(alloc, &[(0, b'n'), (0, b'n')])?)?;
    files.put("marked.feed", MARKED)?;
    files.put("none.feed", b"MFD2")?;
    let case = case_with(alloc, ROWS)?;
    files.put("c", &case)?;
    files.put("marked", &case_with_mark(alloc)?)?;
    files.put("broken", b"case =")?;
    Ok(files)
}

/// All memory is the global.
pub fn memory(alloc: Global) -> Memory<Global> {
    Memory {
        own: alloc,
        global: alloc,
    }
}
