//! A punch of a copy that has faults.

use crate::preview::punching::{LINE, RIBBON, is_of_memory};
use crate::preview::rooms::{OLD, TARGET, galleys, memory, rooms, stop};
use feed_files::trial::{AtEnd, TrialWriter};
use linked_list_allocator::LocalHeap;
use script_answers::Memory;
use std::alloc::Global;
use std::test::Fail;
use view_preview::PreviewFault;
use view_punch::{Stop, punch_feeds};

/// The line of the faults of both feeds: a delete whose target is not held, and one whose target is a setting.
pub const COPY_LINE: &[u8] = b"faults waiting 40.1, void 41.1\n";

/// Punches a feed: how it ends, where this is written, and where the target has these bytes afterwards.
fn punched(
    alloc: Global,
    feed: &str,
    faulty: bool,
    line: &[u8],
    target: &[u8],
) -> Result<Result<(), PreviewFault>, Fail> {
    let mut files = rooms(alloc, 0)?;
    let mut written = Vec::new(alloc);
    let ended = punch_feeds(
        memory(alloc),
        &mut written,
        &mut files,
        &galleys(feed, "c", "w"),
        &TARGET,
        faulty,
    );
    if written.as_slice() != line || !files.holds("a.ribbon", target) {
        return Err(Fail::new("another line or target"));
    }
    Ok(ended.map_err(|stop| stop.why))
}

#[test]
fn faults_of_a_copy_are_reported(rt: HostRuntime) -> Result<(), Fail> {
    let ended = punched(rt.alloc(), "faulty.feed", false, COPY_LINE, OLD)?;
    assert_eq!(rt; ended, Err(PreviewFault::CopyFaults));
    let ended = punched(rt.alloc(), "set.feed", false, b"", RIBBON)?;
    assert_eq!(rt; ended, Ok(()));
    Ok(())
}

/// Those of the copy come before those of the job.
#[test]
fn faults_of_both_are_reported(rt: HostRuntime) -> Result<(), Fail> {
    let ended = punched(rt.alloc(), "both.feed", false, COPY_LINE, OLD)?;
    assert_eq!(rt; ended, Err(PreviewFault::CopyFaults));
    let ended = punched(rt.alloc(), "both.feed", true, LINE, OLD)?;
    assert_eq!(rt; ended, Err(PreviewFault::Faulty(None)));
    Ok(())
}

#[test]
fn faults_of_a_copy_are_let_through(rt: HostRuntime) -> Result<(), Fail> {
    let ended = punched(rt.alloc(), "faulty.feed", true, b"", RIBBON)?;
    assert_eq!(rt; ended, Ok(()));
    Ok(())
}

#[test]
fn closed_output_of_copy_faults(rt: HostRuntime) -> Result<(), Fail> {
    let mut files = rooms(rt.alloc(), 0)?;
    let mut writer = TrialWriter::new(rt.alloc()).with_room(5, AtEnd::Fails);
    let ended = punch_feeds(
        memory(rt.alloc()),
        &mut writer,
        &mut files,
        &galleys("faulty.feed", "c", "w"),
        &TARGET,
        false,
    );
    assert_eq!(rt; ended, Err(stop(PreviewFault::Write)));
    assert!(rt; COPY_LINE.starts_with(writer.written()));
    assert!(rt; files.holds("a.ribbon", OLD));
    Ok(())
}

/// The bytes of the heap of the next test.
const HEAP: usize = 1_048_576;

/// Whether a punch in a cut heap is out of memory, with nothing written; else the line is written.
fn is_refused(alloc: Global, cut: usize) -> Result<bool, Fail> {
    let heap = LocalHeap::new(alloc, HEAP)?;
    let kept = HEAP.saturating_sub(cut.saturating_mul(1_024));
    let ballast: Option<Vec<u8, &LocalHeap>> = Vec::with_capacity(&heap, kept).ok();
    let mut files = rooms(alloc, 0)?;
    let mut written = Vec::new(alloc);
    let cut_memory = Memory {
        own: &heap,
        global: alloc,
    };
    let ended = punch_feeds(
        cut_memory,
        &mut written,
        &mut files,
        &galleys("faulty.feed", "c", "w"),
        &TARGET,
        false,
    );
    drop(ballast);
    if !files.holds("a.ribbon", OLD) {
        return Err(Fail::new("another target"));
    }
    match ended {
        Err(
            Stop {
                feed: 0,
                why: PreviewFault::CopyFaults,
            },
        ) if written.as_slice() == COPY_LINE => Ok(false),
        Err(stop) if is_of_memory(stop.why) && written.is_empty() => Ok(true),
        _ => Err(Fail::new("another end")),
    }
}

#[test]
fn growths_of_copy_faults_refused(rt: HostRuntime) -> Result<(), Fail> {
    let mut refused = 0u32;
    for cut in 0..256usize {
        refused = refused.saturating_add(u32::from(is_refused(rt.alloc(), cut)?));
    }
    assert!(rt; 6 <= refused && refused <= 250, "refused {refused} times");
    Ok(())
}
