//! The files of the tests, and what is said of them.

use feed_check::{CheckFault, check_files};
use feed_files::trial::TrialFiles;
use script_answers::Memory;
use std::alloc::Global;
use std::test::Fail;

/// All memory is the global.
pub fn memory(alloc: Global) -> Memory<Global> {
    Memory {
        own: alloc,
        global: alloc,
    }
}

/// What a check writes, and how it ends.
pub fn checked(
    alloc: Global,
    files: &mut TrialFiles<Global>,
    names: &[&str],
) -> (Vec<u8, Global>, Result<bool, CheckFault>) {
    let mut written = Vec::new(alloc);
    let ended = check_files(memory(alloc), &mut written, files, names);
    (written, ended)
}

/// Whether a file of these bytes has this line, and is in order or not.
pub fn says(alloc: Global, bytes: &[u8], line: &str, well: bool) -> Result<bool, Fail> {
    let mut files = TrialFiles::new(alloc);
    files.put("f", bytes)?;
    let (written, ended) = checked(alloc, &mut files, &["f"]);
    let stays = files.holds("f", bytes);
    Ok(stays && written.as_slice() == line.as_bytes() && ended == Ok(well))
}
