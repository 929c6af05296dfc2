//! A punch of several feeds.

use crate::preview::faults::COPY_LINE;
use crate::preview::punching::{LINE, RIBBON, is_of_memory};
use crate::preview::rooms::{OLD, TARGET, rooms};
use feed_edit::FeedTrouble;
use feed_files::FileRefusal;
use linked_list_allocator::LocalHeap;
use script_answers::Memory;
use std::alloc::{AllocError, Allocator, Global};
use std::test::Fail;
use view_preview::PreviewFault;
use view_punch::{Galleys, Stop, punch_feeds};

/// The ribbon of the empty paragraph, and once more: the rows of both under one number of rows.
fn twice(alloc: Global) -> Result<Vec<u8, Global>, AllocError> {
    let mut out = Vec::new(alloc);
    out.extend_from_slice(b"MRB1\0\0\0\x1c")?;
    for _ in 0..2u32 {
        for byte in RIBBON.iter().skip(8) {
            out.push(*byte)?;
        }
    }
    Ok(out)
}

/// Punches feeds, the first of which is `set.feed`, where the k-th call fails: how it ends, where this is written, and
/// where the target has these bytes afterwards.
fn punched<A: Allocator + Copy>(
    alloc: Global,
    own: A,
    k: u64,
    others: &[&str],
    faulty: bool,
    left: (&[u8], &[u8]),
) -> Result<Result<(), Stop>, Fail> {
    let mut files = rooms(alloc, k)?;
    let mut written = Vec::new(alloc);
    let from = Galleys {
        first: "set.feed",
        others,
        case: "c",
        wedge: "w",
    };
    let memory = Memory { own, global: alloc };
    let ended = punch_feeds(memory, &mut written, &mut files, &from, &TARGET, faulty);
    if written.as_slice() != left.0 || !files.holds("a.ribbon", left.1) {
        return Err(Fail::new("another line or target"));
    }
    Ok(ended)
}

#[test]
fn galleys_in_one_ribbon(rt: HostRuntime) -> Result<(), Fail> {
    let alloc = rt.alloc();
    let both = twice(alloc)?;
    let ended = punched(alloc, alloc, 0, &["set.feed"], false, (b"", &both))?;
    assert_eq!(rt; ended, Ok(()));
    let ended = punched(alloc, alloc, 0, &["faulty.feed"], true, (b"", &both))?;
    assert_eq!(rt; ended, Ok(()));
    let ended = punched(alloc, alloc, 0, &[], false, (b"", RIBBON))?;
    assert_eq!(rt; ended, Ok(()));
    Ok(())
}

/// The first feed with a fault stops it, and is named.
#[test]
fn galley_that_stops_a_ribbon(rt: HostRuntime) -> Result<(), Fail> {
    let alloc = rt.alloc();
    let ended = punched(
        alloc,
        alloc,
        0,
        &["set.feed", "loose.feed", "faulty.feed"],
        false,
        (LINE, OLD),
    )?;
    let why = PreviewFault::Faulty(None);
    assert_eq!(rt; ended, Err(Stop { feed: 2, why }));
    let ended = punched(
        alloc,
        alloc,
        0,
        &["faulty.feed", "loose.feed"],
        false,
        (COPY_LINE, OLD),
    )?;
    let why = PreviewFault::CopyFaults;
    assert_eq!(rt; ended, Err(Stop { feed: 1, why }));
    let ended = punched(alloc, alloc, 0, &["b.feed"], false, (b"", OLD))?;
    let why = PreviewFault::Feed(FeedTrouble::File(FileRefusal::Missing));
    assert_eq!(rt; ended, Err(Stop { feed: 1, why }));
    Ok(())
}

/// The case and the wedge are read once, behind the first feed.
#[test]
fn files_that_fail_under_several_galleys(rt: HostRuntime) -> Result<(), Fail> {
    let alloc = rt.alloc();
    let why = PreviewFault::Feed(FeedTrouble::File(FileRefusal::Device));
    let ended = punched(alloc, alloc, 4, &["set.feed"], false, (b"", OLD))?;
    assert_eq!(rt; ended, Err(Stop { feed: 1, why }));
    let why = PreviewFault::Unstored(FileRefusal::Device);
    for k in 5..8u64 {
        let ended = punched(alloc, alloc, k, &["set.feed"], false, (b"", OLD))?;
        assert_eq!(rt; ended, Err(Stop { feed: 1, why }));
    }
    let both = twice(alloc)?;
    let ended = punched(alloc, alloc, 8, &["set.feed"], false, (b"", &both))?;
    assert_eq!(rt; ended, Ok(()));
    Ok(())
}

/// The bytes of the heap of the next test.
const HEAP: usize = 1_048_576;

/// Whether a punch of two feeds in a cut heap is out of memory, and the target then as it was.
fn is_refused(alloc: Global, cut: usize) -> Result<bool, Fail> {
    let heap = LocalHeap::new(alloc, HEAP)?;
    let kept = HEAP.saturating_sub(cut.saturating_mul(1_024));
    let ballast: Option<Vec<u8, &LocalHeap>> = Vec::with_capacity(&heap, kept).ok();
    let mut files = rooms(alloc, 0)?;
    let mut written = Vec::new(alloc);
    let from = Galleys {
        first: "set.feed",
        others: &["set.feed"],
        case: "c",
        wedge: "w",
    };
    let memory = Memory {
        own: &heap,
        global: alloc,
    };
    let ended = punch_feeds(memory, &mut written, &mut files, &from, &TARGET, false);
    drop(ballast);
    let both = twice(alloc)?;
    match ended {
        Ok(()) if files.holds("a.ribbon", &both) => Ok(false),
        Err(stop) if is_of_memory(stop.why) && files.holds("a.ribbon", OLD) => Ok(true),
        _ => Err(Fail::new("another end")),
    }
}

#[test]
fn growths_of_several_galleys_refused(rt: HostRuntime) -> Result<(), Fail> {
    let mut refused = 0u32;
    for cut in 0..256usize {
        refused = refused.saturating_add(u32::from(is_refused(rt.alloc(), cut)?));
    }
    assert!(rt; 6 <= refused && refused <= 250, "refused {refused} times");
    Ok(())
}
