//! Imports that would delete most of a copy.

use feed_edit::{ImportFault, ImportMode, Room, import_text};
use feed_files::trial::{TrialFiles, TrialReader};
use std::alloc::{AllocError, Global};
use std::test::Fail;

/// A plain text of so many letters `n`, and then so many other letters.
fn letters(alloc: Global, count: usize, others: usize) -> Result<Vec<u8>, AllocError> {
    let mut text = Vec::with_capacity(alloc, count.saturating_add(others))?;
    text.resize(count, b'n')?;
    text.resize(count.saturating_add(others), b'e')?;
    Ok(text)
}

/// What an import by site 4 writes.
fn imported(
    alloc: Global,
    files: &mut TrialFiles<Global>,
    text: &[u8],
    all: bool,
) -> Result<Vec<u8>, ImportFault> {
    let mut reader = TrialReader::new(text);
    let mut written = Vec::new(alloc);
    match import_text(
        alloc,
        &mut reader,
        &mut written,
        files,
        Room {
            feed: "a.feed",
            site: 4,
            older: false,
        },
        ImportMode { plain: true, all },
    ) {
        Ok(()) => Ok(written),
        Err(fault) => Err(fault),
    }
}

/// What an import of a text writes into the feed of another, and whether the feed stays; where it writes nothing no
/// file changes.
fn over(alloc: Global, first: &[u8], text: &[u8], all: bool) -> Result<Option<ImportFault>, Fail> {
    let mut files = TrialFiles::new(alloc);
    imported(alloc, &mut files, first, false)?;
    let mut files = files.for_next_run();
    let old = match files.bytes_of("a.feed") {
        Some(bytes) => Vec::from_slice(alloc, bytes)?,
        None => Vec::new(alloc),
    };
    let ended = imported(alloc, &mut files, text, all).err();
    if ended.is_some() && (!files.holds("a.feed", &old) || files.bytes_of("a.feed.new").is_some()) {
        return Err(Fail::new("another feed"));
    }
    Ok(ended)
}

/// Where so many of so many letters would go.
fn wipes(deleted: usize, of: usize) -> Option<ImportFault> {
    Some(ImportFault::Wipes { deleted, of })
}

/// Of 200 letters and more not more than half are deleted.
#[test]
fn most_of_a_long_copy_stays(rt: HostRuntime) -> Result<(), Fail> {
    let alloc = rt.alloc();
    let ends = [
        (199, 1, None),
        (200, 100, None),
        (200, 99, wipes(101, 200)),
        (201, 101, None),
        (201, 100, wipes(101, 201)),
        (30_003, 1, wipes(30_002, 30_003)),
    ];
    for &(first, left, end) in &ends {
        let old = letters(alloc, first, 0)?;
        let text = letters(alloc, left, 0)?;
        assert_eq!(rt; over(alloc, &old, &text, false)?, end);
        assert_eq!(rt; over(alloc, &old, &text, true)?, None);
    }
    Ok(())
}

/// What comes in the place of letters does not count.
#[test]
fn most_of_a_copy_exchanged(rt: HostRuntime) -> Result<(), Fail> {
    let old = letters(rt.alloc(), 200, 0)?;
    let half = letters(rt.alloc(), 100, 100)?;
    assert_eq!(rt; over(rt.alloc(), &old, &half, false)?, None);
    let most = letters(rt.alloc(), 99, 101)?;
    assert_eq!(rt; over(rt.alloc(), &old, &most, false)?, wipes(101, 200));
    Ok(())
}

/// An empty text deletes no copy that has something, however short.
#[test]
fn empty_text_over_a_copy(rt: HostRuntime) -> Result<(), Fail> {
    assert_eq!(rt; over(rt.alloc(), b"n", b"", false)?, wipes(1, 1));
    assert_eq!(rt; over(rt.alloc(), b"n", b"", true)?, None);
    assert_eq!(rt; over(rt.alloc(), b"", b"", false)?, None);
    let old = letters(rt.alloc(), 300, 0)?;
    assert_eq!(rt; over(rt.alloc(), &old, b"", false)?, wipes(300, 300));
    assert_eq!(rt; over(rt.alloc(), b"", &old, false)?, None);
    Ok(())
}
