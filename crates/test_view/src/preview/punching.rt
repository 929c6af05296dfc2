use crate::preview::rooms::{OLD, TARGET, galleys, memory, rooms, stop};
use feed_edit::FeedTrouble;
use feed_files::FileRefusal;
use feed_files::trial::{AtEnd, TrialFiles, TrialWriter};
use linked_list_allocator::LocalHeap;
use script_answers::{Memory, Refusal};
use std::alloc::Global;
use std::test::Fail;
use view_preview::PreviewFault;
use view_proof::OtherNumber;
use view_punch::punch_feeds;

/// The ribbon of one empty paragraph: the head, an added space, nine fills and one, and the wedges at 8 and 7.
pub const RIBBON: &[u8] =
    b"MRB1\0\0\0\x0e\0\0\x02\x06\x01\x01\0\x01\0\0\0\0\0\0\0\0\0\0\0\0\0\0\0\0\0\0\0\0\0\0\0\0\0\0\0\0\0\0\0\0\0\0\0\0\x40\0\x10\0\0\0\x02\x02\0\0\x04\x06";

/// The line of the faults of the feed that is too loose.
pub const LINE: &[u8] = b"no ribbon: too loose 1\n";

/// What a punch writes, and how it ends, if the target has these bytes then.
fn punched(
    alloc: Global,
    files: &mut TrialFiles<Global>,
    names: (&str, &str, &str),
    target: &[u8],
) -> Result<(Vec<u8, Global>, Result<(), PreviewFault>), Fail> {
    let (feed, case, wedge) = names;
    let mut written = Vec::new(alloc);
    let ended = punch_feeds(
        memory(alloc),
        &mut written,
        files,
        &galleys(feed, case, wedge),
        &TARGET,
        false,
    );
    if !files.holds("a.ribbon", target) {
        return Err(Fail::new("the target has other bytes"));
    }
    Ok((written, ended.map_err(|stop| stop.why)))
}

/// Why a punch ends, with nothing written and the target as it was.
fn fault_of(
    alloc: Global,
    k: u64,
    names: (&str, &str, &str),
) -> Result<Option<PreviewFault>, Fail> {
    let mut files = rooms(alloc, k)?;
    let (written, ended) = punched(alloc, &mut files, names, OLD)?;
    if !written.is_empty() {
        return Err(Fail::new("bytes before a fault"));
    }
    Ok(ended.err())
}

#[test]
fn ribbon_is_punched(rt: HostRuntime) -> Result<(), Fail> {
    let mut files = rooms(rt.alloc(), 0)?;
    let (written, ended) = punched(rt.alloc(), &mut files, ("set.feed", "c", "w"), RIBBON)?;
    assert_eq!(rt; ended, Ok(()));
    assert!(rt; written.is_empty());
    assert!(rt; files.bytes_of("a.ribbon.new").is_none());
    Ok(())
}

#[test]
fn faults_of_a_job_are_reported(rt: HostRuntime) -> Result<(), Fail> {
    let mut files = rooms(rt.alloc(), 0)?;
    let (written, ended) = punched(rt.alloc(), &mut files, ("loose.feed", "c", "w"), OLD)?;
    assert_eq!(rt; ended, Err(PreviewFault::Faulty(None)));
    assert!(rt; written.as_slice() == LINE);
    let (written, ended) = punched(rt.alloc(), &mut files, ("none.feed", "c", "w"), OLD)?;
    assert_eq!(rt; ended, Err(PreviewFault::Faulty(None)));
    let all =
        b"no ribbon: missing measure, missing tight, missing loose, missing case, missing wedge\n";
    assert!(rt; written.as_slice() == all.as_slice());
    Ok(())
}

/// The line of a job, and the number that is another, if one is.
fn refused(alloc: Global, feed: &str, line: &[u8]) -> Result<Option<OtherNumber>, Fail> {
    let mut files = rooms(alloc, 0)?;
    let (written, ended) = punched(alloc, &mut files, (feed, "c", "w"), OLD)?;
    match ended {
        Err(PreviewFault::Faulty(other)) if written.as_slice() == line => Ok(other),
        _ => Err(Fail::new("another line or end")),
    }
}

#[test]
fn numbers_of_another_case_and_wedge(rt: HostRuntime) -> Result<(), Fail> {
    let few = b"no ribbon: missing loose, missing wedge\n";
    assert_eq!(rt; refused(rt.alloc(), "few.feed", few)?, None);
    let case = OtherNumber::Case { set: 7, number: 1 };
    let line = b"no ribbon: other case\n";
    assert_eq!(rt; refused(rt.alloc(), "other.feed", line)?, Some(case));
    let wedge = OtherNumber::Wedge { set: 9, number: 5 };
    let line = b"no ribbon: other wedge\n";
    assert_eq!(rt; refused(rt.alloc(), "wedge.feed", line)?, Some(wedge));
    Ok(())
}

#[test]
fn sources_that_give_no_ribbon(rt: HostRuntime) -> Result<(), Fail> {
    let missing = PreviewFault::Feed(FeedTrouble::File(FileRefusal::Missing));
    assert_eq!(rt;
        fault_of(rt.alloc(), 0, ("b.feed", "c", "w"))?,
        Some(missing)
    );
    let no_case = PreviewFault::Input(Refusal::FileMissing);
    assert_eq!(rt;
        fault_of(rt.alloc(), 0, ("set.feed", "d", "w"))?,
        Some(no_case)
    );
    let no_wedge = PreviewFault::Input(Refusal::Wedge(1));
    assert_eq!(rt;
        fault_of(rt.alloc(), 0, ("set.feed", "c", "broken"))?,
        Some(no_wedge)
    );
    Ok(())
}

#[test]
fn files_that_fail_under_a_punch(rt: HostRuntime) -> Result<(), Fail> {
    let names = ("set.feed", "c", "w");
    let feed = PreviewFault::Feed(FeedTrouble::File(FileRefusal::Device));
    assert_eq!(rt; fault_of(rt.alloc(), 1, names)?, Some(feed));
    for k in 2..4u64 {
        let input = PreviewFault::Input(Refusal::FileDevice);
        assert_eq!(rt; fault_of(rt.alloc(), k, names)?, Some(input));
    }
    for k in 4..7u64 {
        let unstored = PreviewFault::Unstored(FileRefusal::Device);
        assert_eq!(rt; fault_of(rt.alloc(), k, names)?, Some(unstored));
    }
    Ok(())
}

#[test]
fn closed_output_of_a_punch(rt: HostRuntime) -> Result<(), Fail> {
    let mut files = rooms(rt.alloc(), 0)?;
    let mut writer = TrialWriter::new(rt.alloc()).with_room(5, AtEnd::TakesNone);
    let ended = punch_feeds(
        memory(rt.alloc()),
        &mut writer,
        &mut files,
        &galleys("loose.feed", "c", "w"),
        &TARGET,
        false,
    );
    assert_eq!(rt; ended, Err(stop(PreviewFault::Write)));
    assert!(rt; LINE.starts_with(writer.written()));
    assert!(rt; files.holds("a.ribbon", OLD));
    Ok(())
}

/// The bytes of the heap of the next test.
const HEAP: usize = 1_048_576;

/// Whether a fault is of memory.
pub fn is_of_memory(fault: PreviewFault) -> bool {
    match fault {
        PreviewFault::NoMemory => true,
        PreviewFault::Feed(FeedTrouble::NoMemory) => true,
        PreviewFault::Feed(FeedTrouble::File(why)) => why == FileRefusal::NoMemory,
        PreviewFault::Unstored(why) => why == FileRefusal::NoMemory,
        _ => false,
    }
}

/// Whether a punch in a cut heap is out of memory, and the target then as it was.
fn is_refused(alloc: Global, cut: usize) -> Result<bool, Fail> {
    let heap = LocalHeap::new(alloc, HEAP)?;
    let kept = HEAP.saturating_sub(cut.saturating_mul(1_024));
    let ballast: Option<Vec<u8, &LocalHeap>> = Vec::with_capacity(&heap, kept).ok();
    let mut files = rooms(alloc, 0)?;
    let mut written = Vec::new(alloc);
    let cut_memory = Memory {
        own: &heap,
        global: alloc,
    };
    let ended = punch_feeds(
        cut_memory,
        &mut written,
        &mut files,
        &galleys("set.feed", "c", "w"),
        &TARGET,
        false,
    );
    let refused = match ended {
        Ok(()) => false,
        Err(stop) if is_of_memory(stop.why) => true,
        Err(_) => return Err(Fail::new("another fault")),
    };
    drop(ballast);
    let wanted: &[u8] = if refused { OLD } else { RIBBON };
    if !written.is_empty() || !files.holds("a.ribbon", wanted) {
        return Err(Fail::new("another ribbon"));
    }
    Ok(refused)
}

#[test]
fn growths_of_a_punch_refused(rt: HostRuntime) -> Result<(), Fail> {
    let mut refused = 0u32;
    for cut in 0..256usize {
        refused = refused.saturating_add(u32::from(is_refused(rt.alloc(), cut)?));
    }
    assert!(rt; 6 <= refused && refused <= 250, "refused {refused} times");
    Ok(())
}
