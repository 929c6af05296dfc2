use crate::difference::rooms::{keyed, reported};
use desk_codec::{FeedFault, FeedWhy};
use feed_edit::{FeedTrouble, Version};
use feed_files::trial::{AtEnd, TrialFiles, TrialWriter};
use feed_files::{FileRefusal, Files};
use feed_sites::{DifferenceFault, report_difference};
use linked_list_allocator::LocalHeap;
use std::alloc::{AllocError, Global};
use std::test::Fail;

/// One insert, 1.3 of a Roman x.
const X: &[u8] = b"MFD2\x01\0\0\0\0\0\0\0\x01\0\x03\0\0\0\0\0\0\0\0\0\0\0\0\0\0x";

/// Files of which the k-th call fails, with a feed, one of nothing, and one that is refused.
fn rooms(alloc: Global, k: u64) -> Result<TrialFiles<Global>, AllocError> {
    let mut files = TrialFiles::new(alloc).failing_at_call(k);
    files.put("x.feed", X)?;
    files.put("none.feed", b"MFD2")?;
    files.put("cut.feed", b"MFD2\x01")?;
    Ok(files)
}

/// Why nothing is written of two feeds, if nothing is.
fn fault_of(
    alloc: Global,
    k: u64,
    one: &str,
    other: &str,
) -> Result<Option<DifferenceFault>, Fail> {
    let mut files = rooms(alloc, k)?;
    let left = reported(alloc, &mut files, one, other)?;
    if left.ended.is_err() && !left.text.is_empty() {
        return Err(Fail::new("bytes before a fault"));
    }
    Ok(left.ended.err())
}

/// The first feed is reported before the other.
#[test]
fn feeds_that_are_not_opened(rt: HostRuntime) -> Result<(), Fail> {
    let missing = FeedTrouble::File(FileRefusal::Missing);
    let cut = FeedTrouble::Feed(FeedFault {
        at: 4,
        why: FeedWhy::Cut,
    });
    let one = fault_of(rt.alloc(), 0, "b.feed", "cut.feed")?;
    assert_eq!(rt; one, Some(DifferenceFault::One(missing)));
    let one = fault_of(rt.alloc(), 0, "cut.feed", "b.feed")?;
    assert_eq!(rt; one, Some(DifferenceFault::One(cut)));
    let other = fault_of(rt.alloc(), 0, "x.feed", "b.feed")?;
    assert_eq!(rt; other, Some(DifferenceFault::Other(missing)));
    let other = fault_of(rt.alloc(), 0, "x.feed", "cut.feed")?;
    assert_eq!(rt; other, Some(DifferenceFault::Other(cut)));
    assert_eq!(rt; fault_of(rt.alloc(), 0, "x.feed", "none.feed")?, None);
    Ok(())
}

#[test]
fn feeds_that_are_not_read(rt: HostRuntime) -> Result<(), Fail> {
    let device = FeedTrouble::File(FileRefusal::Device);
    let one = fault_of(rt.alloc(), 1, "x.feed", "none.feed")?;
    assert_eq!(rt; one, Some(DifferenceFault::One(device)));
    let other = fault_of(rt.alloc(), 2, "x.feed", "none.feed")?;
    assert_eq!(rt; other, Some(DifferenceFault::Other(device)));
    assert_eq!(rt; fault_of(rt.alloc(), 3, "x.feed", "none.feed")?, None);
    Ok(())
}

/// No name is taken: another run may have both.
#[test]
fn held_feeds_are_compared(rt: HostRuntime) -> Result<(), Fail> {
    let mut files = rooms(rt.alloc(), 0)?;
    files.hold("x.feed")?;
    let mut other = files.for_next_run();
    other.hold("none.feed")?;
    let left = reported(rt.alloc(), &mut other, "x.feed", "none.feed")?;
    assert_eq!(rt; left.ended, Ok(false));
    let text = b"x.feed alone 3: 1\nnone.feed alone none\n- 0 x\n+ 0\n";
    assert!(rt; left.text.as_slice() == text.as_slice());
    Ok(())
}

#[test]
fn closed_output_of_a_difference(rt: HostRuntime) -> Result<(), Fail> {
    let text = b"x.feed alone 3: 1\nnone.feed alone none\n- 0 x\n+ 0\n";
    for end in [AtEnd::Fails, AtEnd::TakesNone] {
        for room in 0..text.len() {
            let mut files = rooms(rt.alloc(), 0)?;
            let mut writer = TrialWriter::new(rt.alloc()).with_room(room, end);
            let ended = report_difference(
                rt.alloc(),
                &mut writer,
                &mut files,
                Version::whole("x.feed"),
                "none.feed",
            );
            assert_eq!(rt; ended, Err(DifferenceFault::Write));
            assert!(rt; text.starts_with(writer.written()));
        }
    }
    Ok(())
}

/// The bytes of the heap of the next test.
const HEAP: usize = 1_048_576;

/// Whether a fault is out of memory.
fn is_of_memory(fault: DifferenceFault) -> bool {
    match fault {
        DifferenceFault::NoMemory => true,
        DifferenceFault::One(why) | DifferenceFault::Other(why) => {
            why == FeedTrouble::NoMemory || why == FeedTrouble::File(FileRefusal::NoMemory)
        }
        DifferenceFault::Write => false,
    }
}

/// Whether a run in a cut heap is out of memory, and then writes nothing; any other end is the wanted one.
fn is_refused(alloc: Global, cut: usize) -> Result<bool, Fail> {
    let heap = LocalHeap::new(alloc, HEAP)?;
    let kept = HEAP.saturating_sub(cut.saturating_mul(512));
    let ballast: Option<Vec<u8, &LocalHeap>> = Vec::with_capacity(&heap, kept).ok();
    let mut files = keyed(alloc, b"a quick fox", b"a slow fox")?;
    let mut written = Vec::new(alloc);
    let ended = report_difference(
        &heap,
        &mut written,
        &mut files,
        Version::whole("one.feed"),
        "two.feed",
    );
    drop(ballast);
    if let Err(fault) = ended {
        if !is_of_memory(fault) || !written.is_empty() {
            return Err(Fail::new("another fault"));
        }
        return Ok(true);
    }
    let text = b"- 2 quick\n+ 2 slow\n";
    if ended != Ok(false) || !written.ends_with(text) {
        return Err(Fail::new("another difference"));
    }
    Ok(false)
}

#[test]
fn growths_of_a_difference_refused(rt: HostRuntime) -> Result<(), Fail> {
    let mut refused = 0u32;
    for cut in 0..768usize {
        refused = refused.saturating_add(u32::from(is_refused(rt.alloc(), cut)?));
    }
    assert!(rt; 6 <= refused && refused <= 764, "refused {refused} times");
    Ok(())
}

/// Whether a fault has these words.
fn says(alloc: Global, fault: DifferenceFault, words: &str) -> Result<bool, AllocError> {
    let said = format!(in alloc; "{fault}")?;
    Ok(said.as_str() == words)
}

#[test]
fn words_of_difference_faults(rt: HostRuntime) -> Result<(), Fail> {
    let missing = FeedTrouble::File(FileRefusal::Missing);
    assert!(rt; says(rt.alloc(), DifferenceFault::One(missing), "file fault")?);
    assert!(rt;
        says(
            rt.alloc(),
            DifferenceFault::Other(FeedTrouble::Full),
            "full"
        )?
    );
    assert!(rt; says(rt.alloc(), DifferenceFault::Write, "write fault")?);
    assert!(rt; says(rt.alloc(), DifferenceFault::NoMemory, "no memory")?);
    Ok(())
}
