//! The tests of feed_sites.

use desk_codec::{FeedFault, FeedWhy};
use feed_edit::{
    FeedTrouble, ImportMode, KeepFault, Room, TakeFault, Version, export_feed, import_text,
};
use feed_files::trial::{AtEnd, TrialFiles, TrialReader, TrialWriter};
use feed_files::{FileRefusal, Files};
use feed_sites::{RenewFault, renew_feed};
use linked_list_allocator::LocalHeap;
use std::alloc::{AllocError, Global};
use std::test::Fail;

/// 1.3 and 2.3 insert x and an italic z. 3.4 is forked, 4.5 hangs on it, and 8.3 waits for 7.9. 5.3 and 6.4 set the
/// measure to 300 and to 252, and 7.3 the case to 3.
const FORKED: &[u8] = b"MFD2\
\x01\0\0\0\0\0\0\0\x01\0\x03\0\0\0\0\0\0\0\0\0\0\0\0\0\0x\
\x01\0\0\0\0\0\0\0\x02\0\x03\0\0\0\0\0\0\0\x01\0\x03\x01\0\0\0z\
\x01\0\0\0\0\0\0\0\x03\0\x04\0\0\0\0\0\0\0\x01\0\x03\0\0\0\0a\
\x01\0\0\0\0\0\0\0\x03\0\x04\0\0\0\0\0\0\0\x01\0\x03\0\0\0\0b\
\x01\0\0\0\0\0\0\0\x04\0\x05\0\0\0\0\0\0\0\x03\0\x04\0\0\0\0c\
\x03\0\0\0\0\0\0\0\x05\0\x03\x01\0\0\x01\x2c\
\x03\0\0\0\0\0\0\0\x06\0\x04\x01\0\0\0\xfc\
\x03\0\0\0\0\0\0\0\x07\0\x03\x04\0\0\0\x03\
\x02\0\0\0\0\0\0\0\x08\0\x03\0\0\0\0\0\0\0\x07\0\x09";

/// By site 7, from 1.7 on: the measure 252, the case 3, and a run of x and an italic z.
const RENEWED: &[u8] = b"MFD2\
\x03\0\0\0\0\0\0\0\x01\0\x07\x01\0\0\0\xfc\
\x03\0\0\0\0\0\0\0\x02\0\x07\x04\0\0\0\x03\
\x04\0\0\0\0\0\0\0\x03\0\x07\0\0\0\0\0\0\0\0\0\0\x02\0\0\0\0x\x01\0\0\0z";

/// 1.3 inserts an x, and 2.3 deletes it.
const GONE: &[u8] = b"MFD2\
\x01\0\0\0\0\0\0\0\x01\0\x03\0\0\0\0\0\0\0\0\0\0\0\0\0\0x\
\x02\0\0\0\0\0\0\0\x02\0\x03\0\0\0\0\0\0\0\x01\0\x03";

/// An insert with the greatest counter.
const LATE: &[u8] = b"MFD2\x01\x40\0\0\0\0\0\0\0\0\x03\0\0\0\0\0\0\0\0\0\0\0\0\0\0x";

/// 1.7 inserts an x.
const EARLY: &[u8] = b"MFD2\x01\0\0\0\0\0\0\0\x01\0\x07\0\0\0\0\0\0\0\0\0\0\0\0\0\0x";

/// Files of which the k-th call fails, with several feeds and one that is refused.
fn rooms(alloc: Global, k: u64) -> Result<TrialFiles<Global>, AllocError> {
    let mut files = TrialFiles::new(alloc).failing_at_call(k);
    files.put("a.feed", FORKED)?;
    files.put("gone.feed", GONE)?;
    files.put("none.feed", b"MFD2")?;
    files.put("late.feed", LATE)?;
    files.put("cut.feed", b"MFD2\x01")?;
    files.put("empty", b"")?;
    files.put("b.feed.new", GONE)?;
    Ok(files)
}

/// Whether a feed, renewed as b.feed by site 7, is these bytes with this line, and stays as it was.
fn renews(alloc: Global, feed: &str, old: &[u8], line: &str, new: &[u8]) -> Result<bool, Fail> {
    let mut files = rooms(alloc, 0)?;
    let mut written = Vec::new(alloc);
    renew_feed(alloc, &mut written, &mut files, "b.feed", feed, 7)?;
    let stays = files.holds(feed, old) && files.bytes_of("b.feed.new").is_none();
    Ok(stays && written.as_slice() == line.as_bytes() && files.holds("b.feed", new))
}

/// The settings first and then the copy, from counter 1 on, and nothing that is forked, void or waiting.
#[test]
fn feeds_are_renewed(rt: HostRuntime) -> Result<(), Fail> {
    assert!(rt; renews(rt.alloc(), "a.feed", FORKED, "ok renewed 2\n", RENEWED)?);
    assert!(rt; renews(rt.alloc(), "late.feed", LATE, "ok renewed 1\n", EARLY)?);
    Ok(())
}

#[test]
fn empty_copies_are_renewed(rt: HostRuntime) -> Result<(), Fail> {
    assert!(rt; renews(rt.alloc(), "gone.feed", GONE, "ok renewed 0\n", b"MFD2")?);
    assert!(rt; renews(rt.alloc(), "none.feed", b"MFD2", "ok renewed 0\n", b"MFD2")?);
    Ok(())
}

/// A text of 20,000 letters, a line of 60 after the other.
fn long_text(alloc: Global) -> Result<Vec<u8>, AllocError> {
    let mut text = Vec::with_capacity(alloc, 20_000)?;
    for place in 0..20_000usize {
        let letter = if place % 60 == 59 { b'\n' } else { b'n' };
        text.push(letter)?;
    }
    Ok(text)
}

/// Of 20,000 symbols are 312 runs of 64 and one of 32: 22 bytes for each run and 5 for each symbol behind the magic.
#[test]
fn long_copy_is_renewed(rt: HostRuntime) -> Result<(), Fail> {
    let text = long_text(rt.alloc())?;
    let mut files = TrialFiles::new(rt.alloc());
    let mut reader = TrialReader::new(&text);
    let mut written = Vec::new(rt.alloc());
    import_text(
        rt.alloc(),
        &mut reader,
        &mut written,
        &mut files,
        Room {
            feed: "long",
            site: 3,
            older: false,
        },
        ImportMode {
            plain: false,
            all: true,
        },
    )?;
    let mut files = files.for_next_run();
    let mut written = Vec::new(rt.alloc());
    renew_feed(rt.alloc(), &mut written, &mut files, "new", "long", 7)?;
    assert!(rt; written.as_slice() == b"ok renewed 20000\n".as_slice());
    let mut shown = Vec::new(rt.alloc());
    export_feed(rt.alloc(), &mut shown, &mut files, Version::whole("new"))?;
    assert!(rt; shown.as_slice() == text.as_slice());
    let length = files.bytes_of("new").map(|bytes| bytes.len());
    assert_eq!(rt; length, Some(106_890));
    Ok(())
}

/// As many operations as a replica holds: 16,384 runs of 64 inserts of an n, typed by site 3 from front to back.
pub fn full_feed(alloc: Global) -> Result<Vec<u8>, AllocError> {
    let mut bytes = Vec::with_capacity(alloc, 5_603_332)?;
    bytes.extend_from_slice(b"MFD2")?;
    for run in 0..16_384u64 {
        let parent = run.saturating_mul(64);
        bytes.push(4)?;
        bytes.extend_from_slice(&parent.saturating_add(1).to_be_bytes())?;
        bytes.extend_from_slice(b"\0\x03")?;
        bytes.extend_from_slice(&parent.to_be_bytes())?;
        bytes.extend_from_slice(if run == 0 { b"\0\0" } else { b"\0\x03" })?;
        bytes.push(64)?;
        for _ in 0..64u32 {
            bytes.extend_from_slice(b"\0\0\0\0n")?;
        }
    }
    Ok(bytes)
}

/// A full feed is renewed as it is, under the other site's number: 16,384 runs, of 342 bytes each.
#[test]
fn full_feed_is_renewed(rt: HostRuntime) -> Result<(), Fail> {
    let full = full_feed(rt.alloc())?;
    let mut files = TrialFiles::new(rt.alloc());
    files.put("full", &full)?;
    let mut written = Vec::new(rt.alloc());
    renew_feed(rt.alloc(), &mut written, &mut files, "new", "full", 7)?;
    assert!(rt; written.as_slice() == b"ok renewed 1048576\n".as_slice());
    let length = files.bytes_of("new").map(|bytes| bytes.len());
    assert_eq!(rt; length, Some(5_603_332));
    assert!(rt; files.holds("full", &full));
    Ok(())
}

/// Why a renewal writes nothing and leaves all feeds, if it does.
fn stop_of(
    alloc: Global,
    files: &mut TrialFiles<Global>,
    new: &str,
    feed: &str,
) -> Result<Option<RenewFault>, Fail> {
    let mut written = Vec::new(alloc);
    let ended = renew_feed(alloc, &mut written, files, new, feed, 7);
    let stays = files.holds("a.feed", FORKED)
        && files.holds("empty", b"")
        && files.holds("cut.feed", b"MFD2\x01")
        && files.holds("b.feed.new", GONE)
        && files.bytes_of("b.feed").is_none();
    if !stays || !written.is_empty() {
        return Err(Fail::new("bytes before a fault"));
    }
    Ok(ended.err())
}

/// A feed, an empty file, one that is no feed, and the old feed itself.
#[test]
fn files_that_are_there(rt: HostRuntime) -> Result<(), Fail> {
    for new in ["late.feed", "empty", "cut.feed", "a.feed"] {
        let mut files = rooms(rt.alloc(), 0)?;
        let fault = stop_of(rt.alloc(), &mut files, new, "a.feed")?;
        assert_eq!(rt; fault, Some(RenewFault::There), "{new}");
    }
    Ok(())
}

/// The old feed stands where the new one would be written first: no name is taken.
#[test]
fn feed_at_the_place_of_the_writing(rt: HostRuntime) -> Result<(), Fail> {
    let mut files = rooms(rt.alloc(), 0)?;
    let fault = stop_of(rt.alloc(), &mut files, "b.feed", "b.feed.new")?;
    assert_eq!(rt; fault, Some(RenewFault::There));
    files.hold("b.feed")?;
    Ok(())
}

#[test]
fn feeds_that_are_not_renewed(rt: HostRuntime) -> Result<(), Fail> {
    let mut files = rooms(rt.alloc(), 0)?;
    let missing = FeedTrouble::File(FileRefusal::Missing);
    assert_eq!(rt;
        stop_of(rt.alloc(), &mut files, "b.feed", "c.feed")?,
        Some(RenewFault::Feed(missing))
    );
    let mut files = files.for_next_run();
    let cut = FeedTrouble::Feed(FeedFault {
        at: 4,
        why: FeedWhy::Cut,
    });
    assert_eq!(rt;
        stop_of(rt.alloc(), &mut files, "b.feed", "cut.feed")?,
        Some(RenewFault::Feed(cut))
    );
    // The name is held.
    let held = TakeFault::Untaken(FileRefusal::Device);
    assert_eq!(rt;
        stop_of(rt.alloc(), &mut files, "b.feed", "a.feed")?,
        Some(RenewFault::Take(held))
    );
    Ok(())
}

#[test]
fn files_that_fail_under_a_renewal(rt: HostRuntime) -> Result<(), Fail> {
    let device = FileRefusal::Device;
    let faults = [
        RenewFault::Take(TakeFault::Untaken(device)),
        RenewFault::Take(TakeFault::Feed(FeedTrouble::File(device))),
        RenewFault::Feed(FeedTrouble::File(device)),
        RenewFault::Keep(KeepFault::Unstored(device)),
        RenewFault::Keep(KeepFault::Unstored(device)),
    ];
    for at in 0..faults.len() {
        let k = (at as u64).saturating_add(1);
        let mut files = rooms(rt.alloc(), k)?;
        let mut written = Vec::new(rt.alloc());
        let ended = renew_feed(rt.alloc(), &mut written, &mut files, "b.feed", "a.feed", 7);
        assert_eq!(rt; ended, Err(faults[at]));
        let line: &[u8] = if at < 3 { b"" } else { b"ok renewed 2\n" };
        assert!(rt; written.as_slice() == line);
        assert!(rt; files.holds("a.feed", FORKED) && files.bytes_of("b.feed").is_none());
    }
    Ok(())
}

#[test]
fn closed_output_renews_nothing(rt: HostRuntime) -> Result<(), Fail> {
    for at_end in [AtEnd::Fails, AtEnd::TakesNone] {
        let mut files = rooms(rt.alloc(), 0)?;
        let mut writer = TrialWriter::new(rt.alloc()).with_room(9, at_end);
        let ended = renew_feed(rt.alloc(), &mut writer, &mut files, "b.feed", "a.feed", 7);
        assert_eq!(rt; ended, Err(RenewFault::Keep(KeepFault::Write)));
        assert!(rt; b"ok renewed 2\n".starts_with(writer.written()));
        assert!(rt; files.holds("a.feed", FORKED) && files.holds("b.feed.new", GONE));
        assert!(rt; files.bytes_of("b.feed").is_none());
    }
    Ok(())
}

/// The bytes of the heap of the next test.
const HEAP: usize = 1_048_576;

/// Whether a fault is out of memory.
fn is_of_memory(fault: RenewFault) -> bool {
    match fault {
        RenewFault::Take(TakeFault::Feed(why)) | RenewFault::Feed(why) => {
            why == FeedTrouble::NoMemory || why == FeedTrouble::File(FileRefusal::NoMemory)
        }
        RenewFault::Take(TakeFault::Untaken(_)) | RenewFault::There => false,
        RenewFault::Keep(why) => {
            why == KeepFault::NoMemory || why == KeepFault::Unstored(FileRefusal::NoMemory)
        }
    }
}

/// Whether a renewal in a cut heap is out of memory, and leaves the feed and makes none; it ends no other way but well.
fn is_refused(alloc: Global, cut: usize) -> Result<bool, Fail> {
    let heap = LocalHeap::new(alloc, HEAP)?;
    let kept = HEAP.saturating_sub(cut.saturating_mul(512));
    let ballast: Option<Vec<u8, &LocalHeap>> = Vec::with_capacity(&heap, kept).ok();
    let mut files = rooms(alloc, 0)?;
    let mut written = Vec::new(alloc);
    let ended = renew_feed(&heap, &mut written, &mut files, "b.feed", "a.feed", 7);
    drop(ballast);
    let is_refused = match ended {
        Ok(()) => false,
        Err(fault) if is_of_memory(fault) => true,
        Err(_) => return Err(Fail::new("another fault")),
    };
    let is_there = files.holds("b.feed", RENEWED);
    let is_none = files.bytes_of("b.feed").is_none();
    if !files.holds("a.feed", FORKED) || is_there == is_refused || is_none != is_refused {
        return Err(Fail::new("another feed"));
    }
    Ok(is_refused)
}

#[test]
fn growths_of_a_renewal_refused(rt: HostRuntime) -> Result<(), Fail> {
    let mut refused = 0u32;
    for cut in 0..384usize {
        refused = refused.saturating_add(u32::from(is_refused(rt.alloc(), cut)?));
    }
    assert!(rt; 6 <= refused && refused <= 380, "refused {refused} times");
    Ok(())
}

/// Whether a fault has these words.
fn says(alloc: Global, fault: RenewFault, words: &str) -> Result<bool, AllocError> {
    let said = format!(in alloc; "{fault}")?;
    Ok(said.as_str() == words)
}

#[test]
fn words_of_renew_faults(rt: HostRuntime) -> Result<(), Fail> {
    let untaken = RenewFault::Take(TakeFault::Untaken(FileRefusal::Device));
    assert!(rt; says(rt.alloc(), untaken, "file fault")?);
    assert!(rt; says(rt.alloc(), RenewFault::There, "already there")?);
    assert!(rt; says(rt.alloc(), RenewFault::Feed(FeedTrouble::Full), "full")?);
    assert!(rt;
        says(
            rt.alloc(),
            RenewFault::Keep(KeepFault::Write),
            "write fault"
        )?
    );
    Ok(())
}
