use crate::hand::feeds::X;
use desk_codec::{FeedFault, FeedWhy};
use feed_edit::{FeedTrouble, KeepFault, MergeFault, TakeFault, merge_feeds};
use feed_files::trial::{AtEnd, TrialFiles, TrialWriter};
use feed_files::{FileRefusal, Files};
use std::alloc::{AllocError, Global};
use std::test::Fail;

/// One insert, 1.4 of a Roman y.
const Y: &[u8] = b"MFD2\x01\0\0\0\0\0\0\0\x01\0\x04\0\0\0\0\0\0\0\0\0\0\0\0\0\0y";

/// That and `X`.
const BOTH: &[u8] =
    b"MFD2\x01\0\0\0\0\0\0\0\x01\0\x03\0\0\0\0\0\0\0\0\0\0\0\0\0\0x\x01\0\0\0\0\0\0\0\x01\0\x04\0\0\0\0\0\0\0\0\0\0\0\0\0\0y";

/// Files of which the k-th call fails, with the two feeds and one that is refused.
fn rooms(alloc: Global, k: u64) -> Result<TrialFiles<Global>, AllocError> {
    let mut files = TrialFiles::new(alloc).failing_at_call(k);
    files.put("x.feed", X)?;
    files.put("y.feed", Y)?;
    files.put("cut.feed", b"MFD1\x01")?;
    Ok(files)
}

/// What a merge writes.
fn written_by(
    alloc: Global,
    files: &mut TrialFiles<Global>,
    name: &str,
    others: &[&str],
) -> Result<Vec<u8>, MergeFault<Global>> {
    let mut written = Vec::new(alloc);
    match merge_feeds(alloc, &mut written, files, name, others, false) {
        Ok(_) => Ok(written),
        Err(fault) => Err(fault),
    }
}

#[test]
fn merged_feeds_are_the_union(rt: HostRuntime) -> Result<(), Fail> {
    let mut files = rooms(rt.alloc(), 0)?;
    let first = written_by(rt.alloc(), &mut files, "x.feed", &["y.feed", "x.feed"])?;
    let lines = b"y.feed ok new 1 known 0\nopen at 0\n  now   yx\n  here  x\n  there y\n  was  \n\
x.feed ok new 0 known 1\nfaults none\n";
    assert_eq!(rt; first.as_slice(), lines.as_slice());
    assert!(rt; files.holds("x.feed", BOTH));
    assert!(rt; files.bytes_of("x.feed.new").is_none());
    let mut files = rooms(rt.alloc(), 0)?;
    let second = written_by(rt.alloc(), &mut files, "y.feed", &["x.feed"])?;
    let line =
        b"x.feed ok new 1 known 0\nopen at 0\n  now   yx\n  here  y\n  there x\n  was  \nfaults none\n";
    assert_eq!(rt; second.as_slice(), line.as_slice());
    assert!(rt; files.holds("y.feed", BOTH));
    assert!(rt; files.holds("x.feed", X));
    Ok(())
}

#[test]
fn merged_into_a_missing_feed(rt: HostRuntime) -> Result<(), Fail> {
    let mut files = rooms(rt.alloc(), 0)?;
    let first = written_by(rt.alloc(), &mut files, "new.feed", &["y.feed"])?;
    let line = b"y.feed ok new 1 known 0\nfaults none\n";
    assert_eq!(rt; first.as_slice(), line.as_slice());
    assert!(rt; files.holds("new.feed", Y));
    Ok(())
}

/// The name of a feed is written out.
#[test]
fn names_of_merged_feeds(rt: HostRuntime) -> Result<(), Fail> {
    let mut files = rooms(rt.alloc(), 0)?;
    files.put("\u{1b}[31my\u{202e}", Y)?;
    let written = written_by(rt.alloc(), &mut files, "new.feed", &["\u{1b}[31my\u{202e}"])?;
    let line = b"\\x1b[31my<U+202E> ok new 1 known 0\nfaults none\n";
    assert_eq!(rt; written.as_slice(), line.as_slice());
    Ok(())
}

/// A feed that has all is not written.
#[test]
fn unchanged_feed_is_not_written(rt: HostRuntime) -> Result<(), Fail> {
    let mut files = rooms(rt.alloc(), 0)?;
    files.put("x.feed.new", b"left over")?;
    let first = written_by(rt.alloc(), &mut files, "x.feed", &["x.feed"])?;
    let line = b"x.feed ok new 0 known 1\nfaults none\n";
    assert_eq!(rt; first.as_slice(), line.as_slice());
    assert!(rt; files.holds("x.feed.new", b"left over"));
    Ok(())
}

/// Why a merge of two feeds into `x.feed` stops that writes nothing, if the feed stays.
fn stop_of(
    alloc: Global,
    k: u64,
    others: &[&str],
) -> Result<Option<MergeFault<Global>>, AllocError> {
    let mut files = rooms(alloc, k)?;
    let mut writer = TrialWriter::new(alloc);
    let ended = merge_feeds(alloc, &mut writer, &mut files, "x.feed", others, false);
    if !files.holds("x.feed", X) || (k < 4 && !writer.written().is_empty()) {
        return Ok(None);
    }
    Ok(ended.err())
}

#[test]
fn feeds_that_do_not_come_in(rt: HostRuntime) -> Result<(), Fail> {
    let missing = MergeFault::Other {
        at: 1,
        why: FeedTrouble::File(FileRefusal::Missing),
    };
    assert_eq!(rt;
        stop_of(rt.alloc(), 0, &["y.feed", "z.feed"])?,
        Some(missing)
    );
    let cut = MergeFault::Other {
        at: 0,
        why: FeedTrouble::Feed(FeedFault {
            at: 4,
            why: FeedWhy::Cut,
        }),
    };
    assert_eq!(rt; stop_of(rt.alloc(), 0, &["cut.feed", "y.feed"])?, Some(cut));
    Ok(())
}

#[test]
fn files_that_fail_at_each_call(rt: HostRuntime) -> Result<(), Fail> {
    let device = FileRefusal::Device;
    let faults = [
        Some(MergeFault::Take(TakeFault::Untaken(device))),
        Some(MergeFault::Take(TakeFault::Feed(FeedTrouble::File(device)))),
        Some(MergeFault::Other {
            at: 0,
            why: FeedTrouble::File(device),
        }),
        Some(MergeFault::Keep(KeepFault::Unstored(device))),
        Some(MergeFault::Keep(KeepFault::Unstored(device))),
    ];
    for (at, fault) in faults.iter().enumerate() {
        let k = (at as u64).saturating_add(1);
        let ended = stop_of(rt.alloc(), k, &["y.feed"])?;
        assert!(rt; ended == *fault);
    }
    Ok(())
}

#[test]
fn held_feed_is_not_merged(rt: HostRuntime) -> Result<(), Fail> {
    let mut files = rooms(rt.alloc(), 0)?;
    files.hold("x.feed")?;
    let ended = written_by(rt.alloc(), &mut files, "x.feed", &["y.feed"]).err();
    let untaken = TakeFault::Untaken(FileRefusal::Device);
    assert_eq!(rt; ended, Some(MergeFault::Take(untaken)));
    assert!(rt; files.holds("x.feed", X));
    Ok(())
}

#[test]
fn closed_output_stores_nothing(rt: HostRuntime) -> Result<(), Fail> {
    let mut files = rooms(rt.alloc(), 0)?;
    let mut writer = TrialWriter::new(rt.alloc()).with_room(9, AtEnd::Fails);
    let others = ["y.feed"];
    let ended = merge_feeds(
        rt.alloc(),
        &mut writer,
        &mut files,
        "x.feed",
        &others,
        false,
    );
    assert_eq!(rt; ended, Err(MergeFault::Keep(KeepFault::Write)));
    assert!(rt; b"y.feed ok new 1 known 0\n".starts_with(writer.written()));
    assert!(rt; files.holds("x.feed", X));
    Ok(())
}
