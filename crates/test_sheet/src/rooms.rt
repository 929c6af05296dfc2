//! The tests of the rooms of a feed.

use desk_codec::{FeedFault, FeedWhy};
use feed_edit::{ExportFault, FeedTrouble};
use feed_files::trial::{AtEnd, TrialFiles, TrialWriter};
use feed_files::{FileRefusal, Files};
use feed_history::report_rooms;
use linked_list_allocator::LocalHeap;
use std::alloc::{AllocError, Global};
use std::test::Fail;

/// 1.3 and 2.3 insert x and an italic z, and 9.5 deletes the z. 3.4 is forked, 4.5 hangs on it, and 8.3 waits for 7.9.
/// 5.3 and 6.4 set the measure, and 7.3 the case.
const FORKED: &[u8] = b"MFD2\
\x01\0\0\0\0\0\0\0\x01\0\x03\0\0\0\0\0\0\0\0\0\0\0\0\0\0x\
\x01\0\0\0\0\0\0\0\x02\0\x03\0\0\0\0\0\0\0\x01\0\x03\x01\0\0\0z\
\x01\0\0\0\0\0\0\0\x03\0\x04\0\0\0\0\0\0\0\x01\0\x03\0\0\0\0a\
\x01\0\0\0\0\0\0\0\x03\0\x04\0\0\0\0\0\0\0\x01\0\x03\0\0\0\0b\
\x01\0\0\0\0\0\0\0\x04\0\x05\0\0\0\0\0\0\0\x03\0\x04\0\0\0\0c\
\x03\0\0\0\0\0\0\0\x05\0\x03\x01\0\0\x01\x2c\
\x03\0\0\0\0\0\0\0\x06\0\x04\x01\0\0\0\xfc\
\x03\0\0\0\0\0\0\0\x07\0\x03\x04\0\0\0\x03\
\x02\0\0\0\0\0\0\0\x08\0\x03\0\0\0\0\0\0\0\x07\0\x09\
\x02\0\0\0\0\0\0\0\x09\0\x05\0\0\0\0\0\0\0\x02\0\x03";

const FORKED_ROOMS: &str = "\
site 3 from 1.3 to 8.3 with gaps: inserts 2, deletes 1, sets 2, shown 1, faults 1\n\
site 4 from 3.4 to 6.4 with gaps: inserts 2, deletes 0, sets 1, shown 0, faults 1\n\
site 5 from 4.5 to 9.5 with gaps: inserts 1, deletes 1, sets 0, shown 0, faults 1\n\
copy: inserts 5, deletes 2, sets 3, shown 1, faults 3\n";

/// 1.3 inserts an x and 3.3 a y, of which 2.1 inserts the z between, and 4.3 deletes the x.
const APART: &[u8] = b"MFD2\
\x01\0\0\0\0\0\0\0\x01\0\x03\0\0\0\0\0\0\0\0\0\0\0\0\0\0x\
\x01\0\0\0\0\0\0\0\x02\0\x01\0\0\0\0\0\0\0\x01\0\x03\0\0\0\0z\
\x01\0\0\0\0\0\0\0\x03\0\x03\0\0\0\0\0\0\0\x02\0\x01\0\0\0\0y\
\x02\0\0\0\0\0\0\0\x04\0\x03\0\0\0\0\0\0\0\x01\0\x03";

const APART_ROOMS: &str = "\
site 1 from 2.1 to 2.1: inserts 1, deletes 0, sets 0, shown 1, faults 0\n\
site 3 from 1.3 to 4.3 with gaps: inserts 2, deletes 1, sets 0, shown 1, faults 0\n\
copy: inserts 3, deletes 1, sets 0, shown 2, faults 0\n";

/// 1.3 inserts an x, 2.3 sets the case, and 3.3 deletes the x.
const GONE: &[u8] = b"MFD2\
\x01\0\0\0\0\0\0\0\x01\0\x03\0\0\0\0\0\0\0\0\0\0\0\0\0\0x\
\x03\0\0\0\0\0\0\0\x02\0\x03\x04\0\0\0\x03\
\x02\0\0\0\0\0\0\0\x03\0\x03\0\0\0\0\0\0\0\x01\0\x03";

const GONE_ROOMS: &str = "\
site 3 from 1.3 to 3.3: inserts 1, deletes 1, sets 1, shown 0, faults 0\n\
copy: inserts 1, deletes 1, sets 1, shown 0, faults 0\n";

/// The greatest site inserts an x, with the greatest counter.
const LAST: &[u8] = b"MFD2\x01\x40\0\0\0\0\0\0\0\xff\xff\0\0\0\0\0\0\0\0\0\0\0\0\0\0x";

const LAST_ROOMS: &str = "\
site 65535 from 4611686018427387904.65535 to 4611686018427387904.65535: \
inserts 1, deletes 0, sets 0, shown 1, faults 0\n\
copy: inserts 1, deletes 0, sets 0, shown 1, faults 0\n";

const NO_ROOMS: &str = "copy: inserts 0, deletes 0, sets 0, shown 0, faults 0\n";

/// Files of which the k-th call fails.
fn stored(alloc: Global, k: u64) -> Result<TrialFiles<Global>, AllocError> {
    let mut files = TrialFiles::new(alloc).failing_at_call(k);
    files.put("a.feed", FORKED)?;
    files.put("apart.feed", APART)?;
    files.put("gone.feed", GONE)?;
    files.put("last.feed", LAST)?;
    files.put("none.feed", b"MFD2")?;
    files.put("cut.feed", b"MFD2\x01")?;
    files.put("empty", b"")?;
    Ok(files)
}

#[test]
fn worked_rooms(rt: HostRuntime) -> Result<(), Fail> {
    for (name, rooms) in [
        ("a.feed", FORKED_ROOMS),
        ("apart.feed", APART_ROOMS),
        ("gone.feed", GONE_ROOMS),
        ("last.feed", LAST_ROOMS),
        ("none.feed", NO_ROOMS),
    ] {
        let mut files = stored(rt.alloc(), 0)?;
        let mut written = Vec::new(rt.alloc());
        report_rooms(rt.alloc(), &mut written, &mut files, name)?;
        assert!(rt; written.as_slice() == rooms.as_bytes(), "{name}");
        assert!(rt; files.holds("a.feed", FORKED) && files.holds("gone.feed", GONE));
        // No name was taken.
        files.hold(name)?;
    }
    Ok(())
}

/// Each site but the last inserts a letter, with the counters from 1 on; by hundreds the sites' numbers fall.
fn many_rooms(alloc: Global) -> Result<Vec<u8>, AllocError> {
    let mut bytes = Vec::with_capacity(alloc, 1_703_914)?;
    bytes.extend_from_slice(b"MFD2")?;
    for at in 1..65_535u64 {
        let site = 65_535u64.saturating_sub(at);
        bytes.push(1)?;
        bytes.extend_from_slice(&at.to_be_bytes())?;
        bytes.push((site / 256) as u8)?;
        bytes.push((site % 256) as u8)?;
        bytes.extend_from_slice(b"\0\0\0\0\0\0\0\0\0\0\0\0\0\0n")?;
    }
    Ok(bytes)
}

/// How many lines there are.
fn lines_in(text: &[u8]) -> usize {
    let mut lines = 0usize;
    for byte in text {
        if *byte == b'\n' {
            lines = lines.saturating_add(1);
        }
    }
    lines
}

#[test]
fn many_sites(rt: HostRuntime) -> Result<(), Fail> {
    let mut files = TrialFiles::new(rt.alloc());
    files.put("many", &many_rooms(rt.alloc())?)?;
    let mut written = Vec::new(rt.alloc());
    report_rooms(rt.alloc(), &mut written, &mut files, "many")?;
    assert_eq!(rt; lines_in(&written), 65_535usize);
    let first: &[u8] =
        b"site 1 from 65534.1 to 65534.1: inserts 1, deletes 0, sets 0, shown 1, faults 0\nsite 2 ";
    assert!(rt; written.as_slice().starts_with(first));
    let last: &[u8] =
        b"\nsite 65534 from 1.65534 to 1.65534: inserts 1, deletes 0, sets 0, shown 1, faults 0\n\
copy: inserts 65534, deletes 0, sets 0, shown 65534, faults 0\n";
    assert!(rt; written.as_slice().ends_with(last));
    Ok(())
}

/// As many operations as a replica holds, of one site.
#[test]
fn full_room(rt: HostRuntime) -> Result<(), Fail> {
    let mut files = TrialFiles::new(rt.alloc());
    files.put("full", &crate::renewing::full_feed(rt.alloc())?)?;
    let mut written = Vec::new(rt.alloc());
    report_rooms(rt.alloc(), &mut written, &mut files, "full")?;
    let text: &[u8] =
        b"site 3 from 1.3 to 1048576.3: inserts 1048576, deletes 0, sets 0, shown 1048576, faults 0\n\
copy: inserts 1048576, deletes 0, sets 0, shown 1048576, faults 0\n";
    assert!(rt; written.as_slice() == text);
    Ok(())
}

/// Why no rooms are written of a feed, and nothing is.
fn stop_of(
    alloc: Global,
    files: &mut TrialFiles<Global>,
    name: &str,
) -> Result<Option<ExportFault>, Fail> {
    let mut written = Vec::new(alloc);
    let ended = report_rooms(alloc, &mut written, files, name);
    if !written.is_empty() || !files.holds("a.feed", FORKED) {
        return Err(Fail::new("bytes before a fault"));
    }
    Ok(ended.err())
}

#[test]
fn feeds_without_rooms(rt: HostRuntime) -> Result<(), Fail> {
    for (name, why) in [
        ("b.feed", FeedTrouble::File(FileRefusal::Missing)),
        (
            "cut.feed",
            FeedTrouble::Feed(FeedFault {
                at: 4,
                why: FeedWhy::Cut,
            }),
        ),
        (
            "empty",
            FeedTrouble::Feed(FeedFault {
                at: 0,
                why: FeedWhy::Magic,
            }),
        ),
    ] {
        let mut files = stored(rt.alloc(), 0)?;
        let fault = stop_of(rt.alloc(), &mut files, name)?;
        assert_eq!(rt; fault, Some(ExportFault::Feed(why)), "{name}");
    }
    let mut files = stored(rt.alloc(), 1)?;
    let device = FeedTrouble::File(FileRefusal::Device);
    assert_eq!(rt;
        stop_of(rt.alloc(), &mut files, "a.feed")?,
        Some(ExportFault::Feed(device))
    );
    Ok(())
}

#[test]
fn closed_output_of_rooms(rt: HostRuntime) -> Result<(), Fail> {
    for at_end in [AtEnd::Fails, AtEnd::TakesNone] {
        let mut files = stored(rt.alloc(), 0)?;
        let mut writer = TrialWriter::new(rt.alloc()).with_room(90, at_end);
        let ended = report_rooms(rt.alloc(), &mut writer, &mut files, "a.feed");
        assert_eq!(rt; ended, Err(ExportFault::Write));
        assert!(rt; FORKED_ROOMS.as_bytes().starts_with(writer.written()));
        assert!(rt; files.holds("a.feed", FORKED));
    }
    Ok(())
}

/// The bytes of the heap of the next test.
const HEAP: usize = 8_388_608;

/// Whether rooms in a cut heap are out of memory, and nothing is written; they end no other way but well.
fn is_refused(alloc: Global, cut: usize) -> Result<bool, Fail> {
    let heap = LocalHeap::new(alloc, HEAP)?;
    let kept = HEAP.saturating_sub(cut.saturating_mul(16_384));
    let ballast: Option<Vec<u8, &LocalHeap>> = Vec::with_capacity(&heap, kept).ok();
    let mut files = stored(alloc, 0)?;
    let mut written = Vec::new(alloc);
    let ended = report_rooms(&heap, &mut written, &mut files, "a.feed");
    drop(ballast);
    let text: &[u8] = match ended {
        Ok(()) => FORKED_ROOMS.as_bytes(),
        Err(
            ExportFault::NoMemory
            | ExportFault::Feed(FeedTrouble::NoMemory | FeedTrouble::File(FileRefusal::NoMemory)),
        ) => b"",
        Err(_) => return Err(Fail::new("another fault")),
    };
    if written.as_slice() != text {
        return Err(Fail::new("another text"));
    }
    Ok(text.is_empty())
}

#[test]
fn growths_of_rooms_refused(rt: HostRuntime) -> Result<(), Fail> {
    let mut refused = 0u32;
    for cut in 0..384usize {
        refused = refused.saturating_add(u32::from(is_refused(rt.alloc(), cut)?));
    }
    assert!(rt; 6 <= refused && refused <= 380, "refused {refused} times");
    Ok(())
}
