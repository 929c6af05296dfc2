use crate::replace::rooms::{X, feed_of, left_by, text_of};
use desk_codec::{FeedFault, FeedWhy};
use feed_edit::{
    Exchange, ExchangeFault, FeedTrouble, KeepFault, PlaceFault, ReplaceFault, RevisionFault, Room,
    TakeFault, Where, replace_text,
};
use feed_files::trial::{AtEnd, TrialFiles, TrialWriter};
use feed_files::{FileRefusal, Files};
use feed_stored::LastFault;
use linked_list_allocator::LocalHeap;
use std::alloc::{AllocError, Global};
use std::test::Fail;
use text_copy::{Cause, TextFault};

/// An insert with the greatest counter.
const LATE: &[u8] = b"MFD2\x01\x40\0\0\0\0\0\0\0\0\x03\0\0\0\0\0\0\0\0\0\0\0\0\0\0x";

/// Of one x an xz.
const LONGER: Exchange<'static> = Exchange {
    from: "x",
    to: "xz",
    plain: false,
    at: Where::Once,
};

/// Files of which the k-th call fails, with a feed, one with the greatest counter, and one that is refused.
fn rooms(alloc: Global, k: u64) -> Result<TrialFiles<Global>, AllocError> {
    let mut files = TrialFiles::new(alloc).failing_at_call(k);
    files.put("x.feed", X)?;
    files.put("late.feed", LATE)?;
    files.put("cut.feed", b"MFD2\x01")?;
    Ok(files)
}

/// Why a replacement writes nothing and leaves the feeds, if it does.
fn stop_of(
    alloc: Global,
    files: &mut TrialFiles<Global>,
    name: &str,
    exchange: &Exchange<'_>,
) -> Result<Option<ReplaceFault>, Fail> {
    let mut written = Vec::new(alloc);
    let ended = replace_text(
        alloc,
        &mut written,
        files,
        Room {
            feed: name,
            site: 4,
            older: false,
        },
        exchange,
    );
    let stays = files.holds("x.feed", X) && files.holds("late.feed", LATE);
    if !stays || !written.is_empty() || files.bytes_of("x.feed.new").is_some() {
        return Err(Fail::new("bytes before a fault"));
    }
    Ok(ended.err())
}

/// A fault of a text.
fn text_fault(line: u64, column: u64, cause: Cause) -> TextFault {
    TextFault::At {
        line,
        column,
        cause,
    }
}

/// The text that is to be replaced is none.
fn old_fault(why: TextFault) -> ReplaceFault {
    ReplaceFault::Exchange(ExchangeFault::Old(why))
}

/// The text that is to take its place is none.
fn new_fault(why: TextFault) -> ReplaceFault {
    ReplaceFault::Exchange(ExchangeFault::New(why))
}

/// Why two texts are not exchanged, if no name was taken for them.
fn fault_of(
    alloc: Global,
    from: &str,
    to: &str,
    plain: bool,
) -> Result<Option<ReplaceFault>, Fail> {
    let mut files = rooms(alloc, 0)?;
    let exchange = Exchange {
        from,
        to,
        plain,
        at: Where::Once,
    };
    let fault = stop_of(alloc, &mut files, "x.feed", &exchange)?;
    files.hold("x.feed")?;
    Ok(fault)
}

/// The first text is reported before the other.
#[test]
fn texts_that_are_none(rt: HostRuntime) -> Result<(), Fail> {
    let old = old_fault(text_fault(1, 2, Cause::Symbol));
    assert_eq!(rt; fault_of(rt.alloc(), "x\t", "_y", false)?, Some(old));
    let new = new_fault(text_fault(2, 3, Cause::Unclosed));
    assert_eq!(rt; fault_of(rt.alloc(), "x", "\n_y", false)?, Some(new));
    let mark = old_fault(text_fault(1, 1, Cause::Escape));
    assert_eq!(rt; fault_of(rt.alloc(), "\\x", "y", false)?, Some(mark));
    let plain = new_fault(text_fault(1, 4, Cause::Symbol));
    assert_eq!(rt; fault_of(rt.alloc(), "_\\", "_\\^\r", true)?, Some(plain));
    Ok(())
}

#[test]
fn feeds_that_take_no_exchange(rt: HostRuntime) -> Result<(), Fail> {
    let mut files = rooms(rt.alloc(), 0)?;
    let cut = FeedTrouble::Feed(FeedFault {
        at: 4,
        why: FeedWhy::Cut,
    });
    assert_eq!(rt;
        stop_of(rt.alloc(), &mut files, "cut.feed", &LONGER)?,
        Some(ReplaceFault::Take(TakeFault::Feed(cut)))
    );
    let mut files = files.for_next_run();
    let late = RevisionFault::ClockFull;
    assert_eq!(rt;
        stop_of(rt.alloc(), &mut files, "late.feed", &LONGER)?,
        Some(ReplaceFault::Revision(late))
    );
    // Another feed is held.
    let held = TakeFault::Untaken(FileRefusal::Device);
    assert_eq!(rt;
        stop_of(rt.alloc(), &mut files, "x.feed", &LONGER)?,
        Some(ReplaceFault::Take(held))
    );
    Ok(())
}

/// A missing feed holds nothing, and none is made.
#[test]
fn missing_feed_has_no_place(rt: HostRuntime) -> Result<(), Fail> {
    let mut files = rooms(rt.alloc(), 0)?;
    let mut written = Vec::new(rt.alloc());
    let ended = replace_text(
        rt.alloc(),
        &mut written,
        &mut files,
        Room {
            feed: "b.feed",
            site: 4,
            older: false,
        },
        &LONGER,
    );
    assert_eq!(rt; ended, Err(ReplaceFault::Place(PlaceFault::NoPlace)));
    assert!(rt; written.as_slice() == b"no place\n".as_slice());
    assert!(rt; files.bytes_of("b.feed").is_none());
    Ok(())
}

#[test]
fn files_that_fail_under_an_exchange(rt: HostRuntime) -> Result<(), Fail> {
    let device = FileRefusal::Device;
    // The third call reads FEED.last, which refuses nothing where it fails.
    let faults = [
        (1, ReplaceFault::Take(TakeFault::Untaken(device))),
        (
            2,
            ReplaceFault::Take(TakeFault::Feed(FeedTrouble::File(device))),
        ),
        (4, ReplaceFault::Keep(KeepFault::Unstored(device))),
        (5, ReplaceFault::Keep(KeepFault::Unstored(device))),
    ];
    for (k, fault) in faults {
        let mut files = rooms(rt.alloc(), k)?;
        let mut written = Vec::new(rt.alloc());
        let ended = replace_text(
            rt.alloc(),
            &mut written,
            &mut files,
            Room {
                feed: "x.feed",
                site: 4,
                older: false,
            },
            &LONGER,
        );
        assert_eq!(rt; ended, Err(fault));
        assert!(rt; files.holds("x.feed", X));
    }
    Ok(())
}

#[test]
fn closed_output_of_an_exchange(rt: HostRuntime) -> Result<(), Fail> {
    let mut files = rooms(rt.alloc(), 0)?;
    let mut writer = TrialWriter::new(rt.alloc()).with_room(9, AtEnd::Fails);
    let ended = replace_text(
        rt.alloc(),
        &mut writer,
        &mut files,
        Room {
            feed: "x.feed",
            site: 4,
            older: false,
        },
        &LONGER,
    );
    assert_eq!(rt; ended, Err(ReplaceFault::Keep(KeepFault::Write)));
    assert!(rt; b"ok inserted 1 deleted 0\n".starts_with(writer.written()));
    assert!(rt; files.holds("x.feed", X));
    assert!(rt; files.bytes_of("x.feed.new").is_none());
    Ok(())
}

#[test]
fn closed_output_of_places(rt: HostRuntime) -> Result<(), Fail> {
    let mut files = feed_of(rt.alloc(), b"x x")?;
    let mut writer = TrialWriter::new(rt.alloc()).with_room(9, AtEnd::TakesNone);
    let ended = replace_text(
        rt.alloc(),
        &mut writer,
        &mut files,
        Room {
            feed: "a.feed",
            site: 4,
            older: false,
        },
        &LONGER,
    );
    assert_eq!(rt; ended, Err(ReplaceFault::Place(PlaceFault::Write)));
    assert!(rt; b"place 0: x x\n".starts_with(writer.written()));
    assert!(rt; text_of(rt.alloc(), &mut files)?.as_slice() == b"x x".as_slice());
    Ok(())
}

/// The bytes of the heap of the next tests.
const HEAP: usize = 1_048_576;

/// Whether a fault is out of memory.
fn is_of_memory(fault: ReplaceFault) -> bool {
    match fault {
        ReplaceFault::Exchange(why) => why == ExchangeFault::NoMemory,
        ReplaceFault::Take(TakeFault::Feed(why)) => {
            why == FeedTrouble::NoMemory || why == FeedTrouble::File(FileRefusal::NoMemory)
        }
        ReplaceFault::Take(TakeFault::Untaken(_)) => false,
        ReplaceFault::Last(why) => why == LastFault::NoMemory,
        ReplaceFault::Place(why) => why == PlaceFault::NoMemory,
        ReplaceFault::Revision(why) => why == RevisionFault::NoMemory,
        ReplaceFault::Keep(why) => {
            why == KeepFault::NoMemory || why == KeepFault::Unstored(FileRefusal::NoMemory)
        }
    }
}

/// Whether an exchange in a cut heap is out of memory, and leaves the copy; any other end is the wanted one.
fn is_refused(
    alloc: Global,
    cut: usize,
    at: Where,
    text: &[u8],
    wanted: Result<(), ReplaceFault>,
    after: &[u8],
) -> Result<bool, Fail> {
    let exchange = Exchange { at, ..LONGER };
    let heap = LocalHeap::new(alloc, HEAP)?;
    let kept = HEAP.saturating_sub(cut.saturating_mul(512));
    let ballast: Option<Vec<u8, &LocalHeap>> = Vec::with_capacity(&heap, kept).ok();
    let mut files = feed_of(alloc, text)?;
    let mut written = Vec::new(alloc);
    let ended = replace_text(
        &heap,
        &mut written,
        &mut files,
        Room {
            feed: "a.feed",
            site: 4,
            older: false,
        },
        &exchange,
    );
    drop(ballast);
    let is_refused = match ended {
        Ok(()) => false,
        Err(fault) => is_of_memory(fault),
    };
    if !is_refused && ended != wanted {
        return Err(Fail::new("another fault"));
    }
    let shown: &[u8] = if is_refused { text } else { after };
    if text_of(alloc, &mut files)?.as_slice() != shown {
        return Err(Fail::new("another copy"));
    }
    Ok(is_refused)
}

#[test]
fn growths_of_an_exchange_refused(rt: HostRuntime) -> Result<(), Fail> {
    let mut refused = 0u32;
    for cut in 0..384usize {
        let out = is_refused(rt.alloc(), cut, Where::Once, b"x", Ok(()), b"xz")?;
        refused = refused.saturating_add(u32::from(out));
    }
    assert!(rt; 6 <= refused && refused <= 380, "refused {refused} times");
    Ok(())
}

#[test]
fn growths_of_places_refused(rt: HostRuntime) -> Result<(), Fail> {
    let several = Err(ReplaceFault::Place(PlaceFault::ManyPlaces(2)));
    let mut refused = 0u32;
    for cut in 0..384usize {
        let out = is_refused(rt.alloc(), cut, Where::Once, b"x x", several, b"x x")?;
        refused = refused.saturating_add(u32::from(out));
    }
    assert!(rt; 6 <= refused && refused <= 380, "refused {refused} times");
    Ok(())
}

#[test]
fn growths_of_all_places_refused(rt: HostRuntime) -> Result<(), Fail> {
    let mut refused = 0u32;
    for cut in 0..384usize {
        let all = is_refused(rt.alloc(), cut, Where::All, b"x x", Ok(()), b"xz xz")?;
        let second = is_refused(rt.alloc(), cut, Where::At(2), b"x x", Ok(()), b"x xz")?;
        refused = refused.saturating_add(u32::from(all));
        refused = refused.saturating_add(u32::from(second));
    }
    assert!(rt; 12 <= refused && refused <= 760, "refused {refused} times");
    Ok(())
}

/// Whether a fault has these words.
fn says(alloc: Global, fault: ReplaceFault, words: &str) -> Result<bool, AllocError> {
    let said = format!(in alloc; "{fault}")?;
    Ok(said.as_str() == words)
}

#[test]
fn words_of_replace_faults(rt: HostRuntime) -> Result<(), Fail> {
    let fault = text_fault(1, 3, Cause::Symbol);
    let old = "OLD, line 1, column 3: no symbol of a copy";
    assert!(rt; says(rt.alloc(), old_fault(fault), old)?);
    let new = "NEW, line 1, column 3: no symbol of a copy";
    assert!(rt; says(rt.alloc(), new_fault(fault), new)?);
    let rows = [
        (ReplaceFault::Exchange(ExchangeFault::NoMemory), "no memory"),
        (
            ReplaceFault::Take(TakeFault::Untaken(FileRefusal::Device)),
            "file fault",
        ),
        (
            ReplaceFault::Last(LastFault::Older { made: 5, held: 4 }),
            "older feed",
        ),
        (ReplaceFault::Last(LastFault::NoMemory), "no memory"),
        (ReplaceFault::Place(PlaceFault::NoPlace), "no place"),
        (ReplaceFault::Place(PlaceFault::ManyPlaces(3)), "3 places"),
        (ReplaceFault::Place(PlaceFault::Write), "write fault"),
        (ReplaceFault::Place(PlaceFault::NoMemory), "no memory"),
        (
            ReplaceFault::Revision(RevisionFault::ClockFull),
            "the greatest counter is held",
        ),
        (ReplaceFault::Keep(KeepFault::Write), "write fault"),
    ];
    for (fault, words) in rows {
        assert!(rt; says(rt.alloc(), fault, words)?, "{words}");
    }
    Ok(())
}

/// Exchanges that are refused leave the copy as it is.
#[test]
fn copy_stays_under_a_refusal(rt: HostRuntime) -> Result<(), Fail> {
    let left = left_by(rt.alloc(), b"_a_ b", "_a", "c", false)?;
    let fault = old_fault(text_fault(1, 3, Cause::Unclosed));
    assert_eq!(rt; left.ended, Err(fault));
    assert!(rt; left.written.is_empty());
    assert!(rt; left.text.as_slice() == b"_a_ b".as_slice());
    Ok(())
}
