//! Imports into feeds that are older than what was stored here.

use feed_edit::{ImportFault, ImportMode, Room, import_text};
use feed_files::trial::{TrialFiles, TrialReader};
use feed_stored::LastFault;
use std::alloc::Global;
use std::test::Fail;

/// Site 3 inserts a Roman x with its first counter.
const X: &[u8] = b"MFD2\x01\0\0\0\0\0\0\0\x01\0\x03\0\0\0\0\0\0\0\0\0\0\0\0\0\0x";

/// How an import by site 4 ends, with what it wrote.
fn imported(
    alloc: Global,
    files: &mut TrialFiles<Global>,
    text: &[u8],
    older: bool,
) -> Result<Vec<u8>, ImportFault> {
    let mut reader = TrialReader::new(text);
    let mut written = Vec::new(alloc);
    match import_text(
        alloc,
        &mut reader,
        &mut written,
        files,
        Room {
            feed: "x.feed",
            site: 4,
            older,
        },
        ImportMode {
            plain: false,
            all: false,
        },
    ) {
        Ok(()) => Ok(written),
        Err(fault) => Err(fault),
    }
}

/// A feed that is put back is refused, and taken where an older one is wanted: a new counter is then the greatest.
#[test]
fn older_feed_takes_no_text(rt: HostRuntime) -> Result<(), Fail> {
    let mut files = TrialFiles::new(rt.alloc());
    files.put("x.feed", X)?;
    let first = imported(rt.alloc(), &mut files, b"xyz", false)?;
    assert_eq!(rt; first.as_slice(), b"ok inserted 2 deleted 0\n".as_slice());
    assert!(rt; files.holds("x.feed.last", b"site 4 3\n"));
    let mut files = files.for_next_run();
    files.put("x.feed", X)?;
    let older = LastFault::Older { made: 3, held: 0 };
    assert_eq!(rt;
        imported(rt.alloc(), &mut files, b"xy", false).err(),
        Some(ImportFault::Last(older))
    );
    assert!(rt; files.holds("x.feed", X));
    assert!(rt; files.holds("x.feed.last", b"site 4 3\n"));
    assert!(rt; files.bytes_of("x.feed.new").is_none());
    let mut files = files.for_next_run();
    let wanted = imported(rt.alloc(), &mut files, b"xy", true)?;
    assert_eq!(rt; wanted.as_slice(), b"ok inserted 1 deleted 0\n".as_slice());
    assert!(rt; files.holds("x.feed.last", b"site 4 2\n"));
    Ok(())
}

/// A feed that is not there is new, whatever was stored here under its name.
#[test]
fn missing_feed_takes_a_text(rt: HostRuntime) -> Result<(), Fail> {
    let mut files = TrialFiles::new(rt.alloc());
    files.put("x.feed.last", b"site 4 785\n")?;
    let first = imported(rt.alloc(), &mut files, b"xy", false)?;
    assert_eq!(rt; first.as_slice(), b"ok inserted 2 deleted 0\n".as_slice());
    assert!(rt; files.holds("x.feed.last", b"site 4 2\n"));
    Ok(())
}
