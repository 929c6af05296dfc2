use desk_codec::{FeedFault, FeedWhy};
use feed_edit::{ExportFault, FeedTrouble, Version, export_feed};
use feed_files::trial::{AtEnd, TrialFiles, TrialWriter};
use feed_files::{FileRefusal, Files};
use linked_list_allocator::LocalHeap;
use std::alloc::{AllocError, Global};
use std::test::Fail;

/// A run of four inserts by site 3: Roman a, a space, italic b, and a Roman low line.
const MIXED: &[u8] =
    b"MFD2\x04\0\0\0\0\0\0\0\x01\0\x03\0\0\0\0\0\0\0\0\0\0\x04\0\0\0\0a\0\0\0\0 \x01\0\0\0b\0\0\0\0_";

/// Its copy as text.
const TEXT: &[u8] = b"a _b_\\_";

/// Files of which the k-th call fails, with a feed, one of nothing, and one that is refused.
fn rooms(alloc: Global, k: u64) -> Result<TrialFiles<Global>, AllocError> {
    let mut files = TrialFiles::new(alloc).failing_at_call(k);
    files.put("a.feed", MIXED)?;
    files.put("none.feed", b"MFD2")?;
    files.put("cut.feed", b"MFD2\x01")?;
    Ok(files)
}

/// What an export writes, or why it writes nothing.
#[derive(Drop)]
enum End {
    Text(Vec<u8>),
    Nothing(ExportFault),
}

/// How an export ends, if the files stay.
fn exported(alloc: Global, k: u64, version: Version<'_>) -> Result<End, Fail> {
    let mut files = rooms(alloc, k)?;
    let mut written = Vec::new(alloc);
    let ended = export_feed(alloc, &mut written, &mut files, version);
    if !files.holds("a.feed", MIXED) || files.bytes_of("a.feed.new").is_some() {
        return Err(Fail::new("a file changed"));
    }
    match ended {
        Ok(()) => Ok(End::Text(written)),
        Err(_) if !written.is_empty() => Err(Fail::new("bytes before a fault")),
        Err(fault) => Ok(End::Nothing(fault)),
    }
}

/// Whether an export writes this text.
fn writes(alloc: Global, version: Version<'_>, text: &[u8]) -> Result<bool, Fail> {
    match exported(alloc, 0, version)? {
        End::Text(written) => Ok(written.as_slice() == text),
        End::Nothing(_) => Ok(false),
    }
}

/// Why an export writes nothing.
fn fault_of(alloc: Global, k: u64, name: &str) -> Result<Option<ExportFault>, Fail> {
    match exported(alloc, k, Version::whole(name))? {
        End::Text(_) => Ok(None),
        End::Nothing(fault) => Ok(Some(fault)),
    }
}

#[test]
fn copies_are_exported(rt: HostRuntime) -> Result<(), Fail> {
    assert!(rt; writes(rt.alloc(), Version::whole("a.feed"), TEXT)?);
    assert!(rt; writes(rt.alloc(), Version::whole("none.feed"), b"")?);
    Ok(())
}

/// The operations have the counters 1 to 4.
const EARLIER: [(u64, &[u8]); 6] = [
    (0, b""),
    (1, b"a"),
    (2, b"a "),
    (3, b"a _b_"),
    (4, TEXT),
    (u64::MAX, TEXT),
];

#[test]
fn earlier_copies_are_exported(rt: HostRuntime) -> Result<(), Fail> {
    for &(counter, text) in &EARLIER {
        let version = Version {
            feed: "a.feed",
            until: Some(counter),
        };
        assert!(rt; writes(rt.alloc(), version, text)?, "at {counter}");
    }
    Ok(())
}

#[test]
fn feeds_that_are_not_exported(rt: HostRuntime) -> Result<(), Fail> {
    let missing = ExportFault::Feed(FeedTrouble::File(FileRefusal::Missing));
    assert_eq!(rt; fault_of(rt.alloc(), 0, "b.feed")?, Some(missing));
    let device = ExportFault::Feed(FeedTrouble::File(FileRefusal::Device));
    assert_eq!(rt; fault_of(rt.alloc(), 1, "a.feed")?, Some(device));
    let cut = ExportFault::Feed(FeedTrouble::Feed(FeedFault {
        at: 4,
        why: FeedWhy::Cut,
    }));
    assert_eq!(rt; fault_of(rt.alloc(), 0, "cut.feed")?, Some(cut));
    Ok(())
}

/// No name is taken: another run may have it.
#[test]
fn held_feed_is_exported(rt: HostRuntime) -> Result<(), Fail> {
    let mut files = rooms(rt.alloc(), 0)?;
    files.hold("a.feed")?;
    let mut written = Vec::new(rt.alloc());
    assert_eq!(rt;
        export_feed(
            rt.alloc(),
            &mut written,
            &mut files,
            Version::whole("a.feed")
        ),
        Ok(())
    );
    assert!(rt; written.as_slice() == TEXT);
    Ok(())
}

#[test]
fn closed_output_of_an_export(rt: HostRuntime) -> Result<(), Fail> {
    let mut files = rooms(rt.alloc(), 0)?;
    let mut writer = TrialWriter::new(rt.alloc()).with_room(3, AtEnd::TakesNone);
    let ended = export_feed(
        rt.alloc(),
        &mut writer,
        &mut files,
        Version::whole("a.feed"),
    );
    assert_eq!(rt; ended, Err(ExportFault::Write));
    assert!(rt; TEXT.starts_with(writer.written()));
    Ok(())
}

/// The bytes of the heap of the next test.
const HEAP: usize = 1_048_576;

/// Whether an export in a cut heap is out of memory; any other end is the text, and with memory each is.
fn is_refused(alloc: Global, cut: usize) -> Result<bool, Fail> {
    let heap = LocalHeap::new(alloc, HEAP)?;
    let kept = HEAP.saturating_sub(cut.saturating_mul(1_024));
    let ballast: Option<Vec<u8, &LocalHeap>> = Vec::with_capacity(&heap, kept).ok();
    let mut files = rooms(alloc, 0)?;
    let mut written = Vec::new(alloc);
    let refused = match export_feed(&heap, &mut written, &mut files, Version::whole("a.feed")) {
        Ok(()) => false,
        Err(ExportFault::NoMemory) => true,
        Err(ExportFault::Feed(FeedTrouble::NoMemory)) => true,
        Err(ExportFault::Feed(FeedTrouble::File(FileRefusal::NoMemory))) => true,
        Err(_) => return Err(Fail::new("another fault")),
    };
    let wanted: &[u8] = if refused { b"" } else { TEXT };
    if written.as_slice() != wanted {
        return Err(Fail::new("another text"));
    }
    drop(ballast);
    written.clear();
    if export_feed(&heap, &mut written, &mut files, Version::whole("a.feed")).is_err() {
        return Err(Fail::new("refused with memory"));
    }
    Ok(refused)
}

#[test]
fn growths_of_an_export_refused(rt: HostRuntime) -> Result<(), Fail> {
    let mut refused = 0u32;
    for cut in 0..256usize {
        refused = refused.saturating_add(u32::from(is_refused(rt.alloc(), cut)?));
    }
    assert!(rt; 6 <= refused && refused <= 250, "refused {refused} times");
    Ok(())
}
