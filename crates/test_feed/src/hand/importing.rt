use crate::hand::feeds::X;
use desk_codec::{FeedFault, FeedWhy};
use feed_edit::{
    FeedTrouble, ImportFault, ImportMode, InputFault, KeepFault, MAX_TEXT, RevisionFault, Room,
    TakeFault, Version, export_feed, import_text,
};
use feed_files::trial::{AtEnd, TrialFiles, TrialReader, TrialWriter};
use feed_files::{FileRefusal, Files};
use feed_stored::LastFault;
use linked_list_allocator::LocalHeap;
use std::alloc::{AllocError, Global};
use std::test::Fail;
use text_copy::{Cause, TextFault};

/// `X`, and 2.4, which inserts a Roman z behind it.
const XZ: &[u8] =
    b"MFD2\x01\0\0\0\0\0\0\0\x01\0\x03\0\0\0\0\0\0\0\0\0\0\0\0\0\0x\x01\0\0\0\0\0\0\0\x02\0\x04\0\0\0\0\0\0\0\x01\0\x03\0\0\0\0z";

/// `X`, and 2.4, which deletes it.
const GONE: &[u8] =
    b"MFD2\x01\0\0\0\0\0\0\0\x01\0\x03\0\0\0\0\0\0\0\0\0\0\0\0\0\0x\x02\0\0\0\0\0\0\0\x02\0\x04\0\0\0\0\0\0\0\x01\0\x03";

/// A run of site 4 from 1.4 on: an italic y, a Roman end of a line and a Roman low line.
const NEW: &[u8] =
    b"MFD2\x04\0\0\0\0\0\0\0\x01\0\x04\0\0\0\0\0\0\0\0\0\0\x03\x01\0\0\0y\0\0\0\0\n\0\0\0\0_";

/// An insert with the greatest counter.
const LATE: &[u8] = b"MFD2\x01\x40\0\0\0\0\0\0\0\0\x03\0\0\0\0\0\0\0\0\0\0\0\0\0\0x";

/// Files of which the k-th call fails, with a feed, one with the greatest counter, and one that is refused.
fn rooms(alloc: Global, k: u64) -> Result<TrialFiles<Global>, AllocError> {
    let mut files = TrialFiles::new(alloc).failing_at_call(k);
    files.put("x.feed", X)?;
    files.put("late.feed", LATE)?;
    files.put("cut.feed", b"MFD2\x01")?;
    Ok(files)
}

/// What an import by site 4 writes.
fn imported(
    alloc: Global,
    files: &mut TrialFiles<Global>,
    name: &str,
    text: &[u8],
    plain: bool,
) -> Result<Vec<u8>, ImportFault> {
    let mut reader = TrialReader::new(text).in_steps_of(3);
    let mut written = Vec::new(alloc);
    match import_text(
        alloc,
        &mut reader,
        &mut written,
        files,
        Room {
            feed: name,
            site: 4,
            older: false,
        },
        ImportMode { plain, all: true },
    ) {
        Ok(()) => Ok(written),
        Err(fault) => Err(fault),
    }
}

/// Whether a text with marks makes a feed these bytes, with this line.
fn makes(alloc: Global, name: &str, text: &[u8], line: &str, bytes: &[u8]) -> Result<bool, Fail> {
    let mut files = rooms(alloc, 0)?;
    let written = imported(alloc, &mut files, name, text, false)?;
    Ok(written.as_slice() == line.as_bytes() && files.holds(name, bytes))
}

#[test]
fn texts_are_imported(rt: HostRuntime) -> Result<(), Fail> {
    let (more, less) = ("ok inserted 1 deleted 0\n", "ok inserted 0 deleted 1\n");
    assert!(rt; makes(rt.alloc(), "x.feed", b"xz", more, XZ)?);
    assert!(rt; makes(rt.alloc(), "x.feed", b"", less, GONE)?);
    let new = "ok inserted 3 deleted 0\n";
    assert!(rt; makes(rt.alloc(), "new.feed", b"_y_\r\n\\_", new, NEW)?);
    Ok(())
}

/// A plain text has no marks.
#[test]
fn plain_texts_are_imported(rt: HostRuntime) -> Result<(), Fail> {
    let mut files = rooms(rt.alloc(), 0)?;
    let line = imported(rt.alloc(), &mut files, "x.feed", b"_x\\", true)?;
    assert!(rt; line.as_slice() == b"ok inserted 2 deleted 0\n".as_slice());
    assert!(rt; exports(rt.alloc(), &mut files, "x.feed", b"\\_x\\\\")?);
    Ok(())
}

/// Whether a feed's copy is written as this text.
fn exports(
    alloc: Global,
    files: &mut TrialFiles<Global>,
    name: &str,
    text: &[u8],
) -> Result<bool, Fail> {
    let mut written = Vec::new(alloc);
    export_feed(alloc, &mut written, files, Version::whole(name))?;
    Ok(written.as_slice() == text)
}

/// One symbol in place of another: two operations, in either order.
#[test]
fn symbol_is_replaced(rt: HostRuntime) -> Result<(), Fail> {
    let mut files = rooms(rt.alloc(), 0)?;
    let line = imported(rt.alloc(), &mut files, "x.feed", b"_x_", false)?;
    assert!(rt; line.as_slice() == b"ok inserted 1 deleted 1\n".as_slice());
    assert!(rt; exports(rt.alloc(), &mut files, "x.feed", b"_x_")?);
    Ok(())
}

/// A feed whose copy is the text is not written.
#[test]
fn same_text_changes_nothing(rt: HostRuntime) -> Result<(), Fail> {
    let mut files = rooms(rt.alloc(), 0)?;
    files.put("x.feed.new", b"left over")?;
    let line = imported(rt.alloc(), &mut files, "x.feed", b"x", false)?;
    assert!(rt; line.as_slice() == b"ok inserted 0 deleted 0\n".as_slice());
    assert!(rt; files.holds("x.feed", X));
    assert!(rt; files.holds("x.feed.new", b"left over"));
    Ok(())
}

/// Why an import writes nothing and leaves the feed, if it does.
fn stop_of(
    alloc: Global,
    files: &mut TrialFiles<Global>,
    name: &str,
    text: &[u8],
) -> Result<Option<ImportFault>, Fail> {
    let mut reader = TrialReader::new(text);
    let mut written = Vec::new(alloc);
    let ended = import_text(
        alloc,
        &mut reader,
        &mut written,
        files,
        Room {
            feed: name,
            site: 4,
            older: false,
        },
        ImportMode {
            plain: false,
            all: true,
        },
    );
    let stays = files.holds("x.feed", X) && files.holds("late.feed", LATE);
    if !stays || !written.is_empty() || files.bytes_of("x.feed.new").is_some() {
        return Err(Fail::new("bytes before a fault"));
    }
    Ok(ended.err())
}

/// Where a text has its first fault.
fn text_fault(line: u64, column: u64, cause: Cause) -> Option<ImportFault> {
    Some(ImportFault::Input(InputFault::Text(TextFault::At {
        line,
        column,
        cause,
    })))
}

#[test]
fn texts_that_are_refused(rt: HostRuntime) -> Result<(), Fail> {
    let mut files = rooms(rt.alloc(), 0)?;
    assert_eq!(rt;
        stop_of(rt.alloc(), &mut files, "x.feed", b"ab\nc\td")?,
        text_fault(2, 2, Cause::Symbol)
    );
    let mut files = files.for_next_run();
    assert_eq!(rt;
        stop_of(rt.alloc(), &mut files, "x.feed", b"a_b")?,
        text_fault(1, 4, Cause::Unclosed)
    );
    let mut files = files.for_next_run();
    assert_eq!(rt;
        stop_of(rt.alloc(), &mut files, "x.feed", b"ab\xff")?,
        text_fault(1, 3, Cause::Encoding)
    );
    Ok(())
}

#[test]
fn feeds_that_take_no_text(rt: HostRuntime) -> Result<(), Fail> {
    let mut files = rooms(rt.alloc(), 0)?;
    let cut = FeedTrouble::Feed(FeedFault {
        at: 4,
        why: FeedWhy::Cut,
    });
    assert_eq!(rt;
        stop_of(rt.alloc(), &mut files, "cut.feed", b"x")?,
        Some(ImportFault::Take(TakeFault::Feed(cut)))
    );
    let mut files = files.for_next_run();
    let late = ImportFault::Revision(RevisionFault::ClockFull);
    assert_eq!(rt;
        stop_of(rt.alloc(), &mut files, "late.feed", b"xz")?,
        Some(late)
    );
    assert_eq!(rt;
        stop_of(rt.alloc(), &mut files, "x.feed", b"xz")?,
        Some(ImportFault::Take(TakeFault::Untaken(FileRefusal::Device)))
    );
    Ok(())
}

#[test]
fn files_that_fail_under_an_import(rt: HostRuntime) -> Result<(), Fail> {
    let device = FileRefusal::Device;
    let mut files = rooms(rt.alloc(), 1)?;
    let untaken = Some(ImportFault::Take(TakeFault::Untaken(device)));
    assert_eq!(rt; stop_of(rt.alloc(), &mut files, "x.feed", b"xz")?, untaken);
    let mut files = rooms(rt.alloc(), 2)?;
    let unread = Some(ImportFault::Take(TakeFault::Feed(FeedTrouble::File(device))));
    assert_eq!(rt; stop_of(rt.alloc(), &mut files, "x.feed", b"xz")?, unread);
    // The third call reads FEED.last, which refuses nothing where it fails.
    let mut files = rooms(rt.alloc(), 3)?;
    assert!(rt; imported(rt.alloc(), &mut files, "x.feed", b"xz", false).is_ok());
    assert!(rt; files.holds("x.feed", XZ));
    for k in 4..6u64 {
        let mut files = rooms(rt.alloc(), k)?;
        let ended = imported(rt.alloc(), &mut files, "x.feed", b"xz", false).err();
        let unstored = ImportFault::Keep(KeepFault::Unstored(device));
        assert_eq!(rt; ended, Some(unstored));
        assert!(rt; files.holds("x.feed", X));
    }
    Ok(())
}

#[test]
fn reader_that_fails(rt: HostRuntime) -> Result<(), Fail> {
    let mut files = rooms(rt.alloc(), 0)?;
    let mut reader = TrialReader::new(b"xz").in_steps_of(1).failing_at_call(3);
    let mut written = Vec::new(rt.alloc());
    let ended = import_text(
        rt.alloc(),
        &mut reader,
        &mut written,
        &mut files,
        Room {
            feed: "x.feed",
            site: 4,
            older: false,
        },
        ImportMode {
            plain: false,
            all: true,
        },
    );
    assert_eq!(rt; ended, Err(ImportFault::Input(InputFault::Read)));
    assert!(rt; written.is_empty() && files.holds("x.feed", X));
    Ok(())
}

#[test]
fn text_that_is_too_long(rt: HostRuntime) -> Result<(), Fail> {
    let mut text = Vec::with_capacity(rt.alloc(), MAX_TEXT.saturating_add(1))?;
    text.resize(MAX_TEXT.saturating_add(1), b'\t')?;
    let mut files = rooms(rt.alloc(), 0)?;
    let long = stop_of(rt.alloc(), &mut files, "x.feed", &text)?;
    assert_eq!(rt; long, Some(ImportFault::Input(InputFault::TooLong)));
    text.truncate(MAX_TEXT);
    let mut files = files.for_next_run();
    let read = stop_of(rt.alloc(), &mut files, "x.feed", &text)?;
    assert_eq!(rt; read, text_fault(1, 1, Cause::Symbol));
    Ok(())
}

#[test]
fn closed_output_imports_nothing(rt: HostRuntime) -> Result<(), Fail> {
    let mut files = rooms(rt.alloc(), 0)?;
    let mut reader = TrialReader::new(b"xz");
    let mut writer = TrialWriter::new(rt.alloc()).with_room(9, AtEnd::Fails);
    let ended = import_text(
        rt.alloc(),
        &mut reader,
        &mut writer,
        &mut files,
        Room {
            feed: "x.feed",
            site: 4,
            older: false,
        },
        ImportMode {
            plain: false,
            all: true,
        },
    );
    assert_eq!(rt; ended, Err(ImportFault::Keep(KeepFault::Write)));
    assert!(rt; b"ok inserted 1 deleted 0\n".starts_with(writer.written()));
    assert!(rt; files.holds("x.feed", X));
    assert!(rt; files.bytes_of("x.feed.new").is_none());
    Ok(())
}

/// A text of so many letters, a line of 60 after the other.
fn long_text(alloc: Global, count: usize) -> Result<Vec<u8>, AllocError> {
    let mut text = Vec::with_capacity(alloc, count)?;
    for place in 0..count {
        let letter = if place % 60 == 59 { b'\n' } else { b'n' };
        text.push(letter)?;
    }
    Ok(text)
}

#[test]
fn long_text_is_imported(rt: HostRuntime) -> Result<(), Fail> {
    let mut text = long_text(rt.alloc(), 20_000)?;
    let mut files = rooms(rt.alloc(), 0)?;
    let line = imported(rt.alloc(), &mut files, "long.feed", &text, false)?;
    assert!(rt; line.as_slice() == b"ok inserted 20000 deleted 0\n".as_slice());
    assert!(rt; exports(rt.alloc(), &mut files, "long.feed", &text)?);
    if let Some(letter) = text.get_mut(10_000) {
        *letter = b'e';
    }
    let mut files = files.for_next_run();
    let line = imported(rt.alloc(), &mut files, "long.feed", &text, false)?;
    assert!(rt; line.as_slice() == b"ok inserted 1 deleted 1\n".as_slice());
    assert!(rt; exports(rt.alloc(), &mut files, "long.feed", &text)?);
    Ok(())
}

/// The bytes of the heap of the next test.
const HEAP: usize = 1_048_576;

/// Whether a fault that comes before the line is out of memory.
fn is_of_memory(fault: ImportFault) -> bool {
    match fault {
        ImportFault::Take(TakeFault::Feed(why)) => {
            why == FeedTrouble::NoMemory || why == FeedTrouble::File(FileRefusal::NoMemory)
        }
        ImportFault::Input(why) => why == InputFault::NoMemory,
        ImportFault::Revision(why) => why == RevisionFault::NoMemory,
        ImportFault::Keep(why) => why == KeepFault::NoMemory,
        ImportFault::Last(why) => why == LastFault::NoMemory,
        ImportFault::Take(TakeFault::Untaken(_)) | ImportFault::Wipes { .. } => false,
    }
}

/// Whether an import in a cut heap is out of memory, and leaves the feed; any other end is the wanted one.
fn is_refused(alloc: Global, cut: usize) -> Result<bool, Fail> {
    let heap = LocalHeap::new(alloc, HEAP)?;
    let kept = HEAP.saturating_sub(cut.saturating_mul(512));
    let ballast: Option<Vec<u8, &LocalHeap>> = Vec::with_capacity(&heap, kept).ok();
    let mut files = rooms(alloc, 0)?;
    let mut reader = TrialReader::new(b"xz");
    let mut written = Vec::new(alloc);
    let ended = import_text(
        &heap,
        &mut reader,
        &mut written,
        &mut files,
        Room {
            feed: "x.feed",
            site: 4,
            older: false,
        },
        ImportMode {
            plain: false,
            all: true,
        },
    );
    drop(ballast);
    let (is_refused, is_reported) = match ended {
        Ok(()) => (false, true),
        Err(ImportFault::Keep(KeepFault::Unstored(FileRefusal::NoMemory))) => (true, true),
        Err(fault) if is_of_memory(fault) => (true, false),
        Err(_) => return Err(Fail::new("another fault")),
    };
    let line: &[u8] = if is_reported {
        b"ok inserted 1 deleted 0\n"
    } else {
        b""
    };
    let feed = if is_refused { X } else { XZ };
    if written.as_slice() != line || !files.holds("x.feed", feed) {
        return Err(Fail::new("another line or another feed"));
    }
    Ok(is_refused)
}

#[test]
fn growths_of_an_import_refused(rt: HostRuntime) -> Result<(), Fail> {
    let mut refused = 0u32;
    for cut in 0..384usize {
        refused = refused.saturating_add(u32::from(is_refused(rt.alloc(), cut)?));
    }
    assert!(rt; 6 <= refused && refused <= 380, "refused {refused} times");
    Ok(())
}
