//! Feeds that are older than what was stored here.

ghost use Rattle.std.specs.Prelude.{◌≤◌};

use crate::replace::rooms::{X, feed_of, text_of};
use feed_edit::{
    Exchange, FeedTrouble, KeepFault, PlaceFault, ReplaceFault, Room, TakeFault, Where,
    replace_text,
};
use feed_files::trial::{AtEnd, TrialFiles, TrialWriter};
use feed_files::{FileRefusal, Files};
use feed_stored::LastFault;
use linked_list_allocator::LocalHeap;
use std::alloc::{AllocError, Global};
use std::test::Fail;

/// `X`, and 2.4, which inserts a Roman z behind it.
const XZ: &[u8] =
    b"MFD2\x01\0\0\0\0\0\0\0\x01\0\x03\0\0\0\0\0\0\0\0\0\0\0\0\0\0x\x01\0\0\0\0\0\0\0\x02\0\x04\0\0\0\0\0\0\0\x01\0\x03\0\0\0\0z";

/// Of one x an xz.
const LONGER: Exchange<'static> = Exchange {
    from: "x",
    to: "xz",
    plain: false,
    at: Where::Once,
};

/// A text that does not stand in it.
const NOWHERE: Exchange<'static> = Exchange {
    from: "q",
    to: "z",
    plain: false,
    at: Where::Once,
};

/// Files with a feed of one x, and what was kept of it here.
fn room_with(alloc: Global, last: &[u8]) -> Result<TrialFiles<Global>, AllocError> {
    let mut files = TrialFiles::new(alloc);
    files.put("x.feed", X)?;
    files.put("x.feed.last", last)?;
    Ok(files)
}

/// How a replacement by a site ends, with what it wrote.
fn ended(
    alloc: Global,
    files: &mut TrialFiles<Global>,
    site: u16,
    older: bool,
    exchange: &Exchange<'_>,
) -> Result<Vec<u8>, ReplaceFault>
    requires { 1 ≤ site }
{
    let mut written = Vec::new(alloc);
    match replace_text(
        alloc,
        &mut written,
        files,
        Room {
            feed: "x.feed",
            site,
            older,
        },
        exchange,
    ) {
        Ok(()) => Ok(written),
        Err(fault) => Err(fault),
    }
}

/// How a replacement by site 4 ends that writes nothing.
fn silent_on(
    alloc: Global,
    files: &mut TrialFiles<Global>,
    exchange: &Exchange<'_>,
) -> Result<(), ReplaceFault> {
    let mut writer = TrialWriter::new(alloc).with_room(0, AtEnd::Fails);
    replace_text(
        alloc,
        &mut writer,
        files,
        Room {
            feed: "x.feed",
            site: 4,
            older: false,
        },
        exchange,
    )
}

/// The feed holds less than was made here.
fn older_than(made: u64, held: u64) -> Result<(), ReplaceFault> {
    Err(ReplaceFault::Last(LastFault::Older { made, held }))
}

/// A replacement keeps its greatest counter. A feed that is put back is refused, whatever is looked for in it.
#[test]
fn restored_feed_is_refused(rt: HostRuntime) -> Result<(), Fail> {
    let mut files = TrialFiles::new(rt.alloc());
    files.put("x.feed", X)?;
    let first = ended(rt.alloc(), &mut files, 4, false, &LONGER)?;
    assert_eq!(rt; first.as_slice(), b"ok inserted 1 deleted 0\n".as_slice());
    assert!(rt; files.holds("x.feed", XZ));
    assert!(rt; files.holds("x.feed.last", b"site 4 2\n"));
    let mut files = files.for_next_run();
    files.put("x.feed", X)?;
    assert_eq!(rt;
        silent_on(rt.alloc(), &mut files, &LONGER),
        older_than(2, 0)
    );
    let mut files = files.for_next_run();
    assert_eq!(rt;
        silent_on(rt.alloc(), &mut files, &NOWHERE),
        older_than(2, 0)
    );
    assert!(rt; files.holds("x.feed", X));
    assert!(rt; files.holds("x.feed.last", b"site 4 2\n"));
    assert!(rt; files.bytes_of("x.feed.new").is_none());
    assert!(rt; files.bytes_of("x.feed.last.new").is_none());
    Ok(())
}

/// An older feed is taken where it is wanted, and its counter takes the place of the greater one.
#[test]
fn older_feed_is_taken_where_wanted(rt: HostRuntime) -> Result<(), Fail> {
    let mut files = room_with(rt.alloc(), b"site 1 9\nsite 4 785\nsite 5 6\n")?;
    let taken = ended(rt.alloc(), &mut files, 4, true, &LONGER)?;
    assert_eq!(rt; taken.as_slice(), b"ok inserted 1 deleted 0\n".as_slice());
    assert!(rt; files.holds("x.feed", XZ));
    assert!(rt; files.holds("x.feed.last", b"site 1 9\nsite 4 2\nsite 5 6\n"));
    Ok(())
}

/// What was kept of the site is all that is compared: not what was kept of another, nor a text that is none.
#[test]
fn feeds_that_are_not_older(rt: HostRuntime) -> Result<(), Fail> {
    let rows: [(&[u8], &[u8]); 3] = [
        (b"site 3 785\n", b"site 3 785\nsite 4 2\n"),
        (b"site 4 785", b"site 4 2\n"),
        (b"", b"site 4 2\n"),
    ];
    for (before, after) in rows {
        let mut files = room_with(rt.alloc(), before)?;
        let taken = ended(rt.alloc(), &mut files, 4, false, &LONGER)?;
        assert!(rt;
            taken.as_slice() == b"ok inserted 1 deleted 0\n".as_slice(),
            "{before:?}"
        );
        assert!(rt; files.holds("x.feed.last", after), "{before:?}");
    }
    // As many were made here as are held.
    let mut files = room_with(rt.alloc(), b"site 3 1\n")?;
    let taken = ended(rt.alloc(), &mut files, 3, false, &LONGER)?;
    assert_eq!(rt; taken.as_slice(), b"ok inserted 1 deleted 0\n".as_slice());
    assert!(rt; files.holds("x.feed.last", b"site 3 2\n"));
    // One more was made here.
    let mut files = room_with(rt.alloc(), b"site 3 2\n")?;
    assert!(rt; ended(rt.alloc(), &mut files, 3, false, &LONGER).err() == older_than(2, 1).err());
    Ok(())
}

/// A feed that is missing holds nothing, and is no older one.
#[test]
fn missing_feed_is_no_older_one(rt: HostRuntime) -> Result<(), Fail> {
    let exchange = Exchange {
        from: "",
        to: "a",
        plain: false,
        at: Where::Once,
    };
    let mut files = TrialFiles::new(rt.alloc());
    files.put("x.feed.last", b"site 4 785\n")?;
    let taken = ended(rt.alloc(), &mut files, 4, false, &exchange)?;
    assert_eq!(rt; taken.as_slice(), b"ok inserted 1 deleted 0\n".as_slice());
    assert!(rt; files.holds("x.feed.last", b"site 4 1\n"));
    Ok(())
}

/// A replacement that stops leaves what was kept.
#[test]
fn stopped_replacement_leaves_last(rt: HostRuntime) -> Result<(), Fail> {
    let mut files = room_with(rt.alloc(), b"site 3 1\n")?;
    let end = ended(rt.alloc(), &mut files, 3, false, &NOWHERE);
    assert!(rt; end.err() == Some(ReplaceFault::Place(PlaceFault::NoPlace)));
    assert!(rt; files.holds("x.feed.last", b"site 3 1\n"));
    let mut files = room_with(rt.alloc(), b"site 4 0\n")?;
    let closed = Err(ReplaceFault::Keep(KeepFault::Write));
    assert_eq!(rt; silent_on(rt.alloc(), &mut files, &LONGER), closed);
    assert!(rt; files.holds("x.feed", X));
    assert!(rt; files.holds("x.feed.last", b"site 4 0\n"));
    Ok(())
}

/// How a replacement ends whose k-th call of the files fails; none where it ends well.
fn fault_at(k: u64) -> Option<ReplaceFault> {
    let device = FileRefusal::Device;
    match k {
        1 => Some(ReplaceFault::Take(TakeFault::Untaken(device))),
        2 => Some(ReplaceFault::Take(TakeFault::Feed(FeedTrouble::File(device)))),
        4 | 5 => Some(ReplaceFault::Keep(KeepFault::Unstored(device))),
        _ => None,
    }
}

/// The third call reads FEED.last, the fourth and the fifth store the feed, and three more write FEED.last.
#[test]
fn failing_calls_with_last(rt: HostRuntime) -> Result<(), Fail> {
    for k in 1..10u64 {
        let mut files = room_with(rt.alloc(), b"site 4 0\n")?.failing_at_call(k);
        let end = ended(rt.alloc(), &mut files, 4, false, &LONGER);
        let fault = fault_at(k);
        let is_stored = fault.is_none();
        assert!(rt; end.err() == fault, "{k}");
        let feed: &[u8] = if is_stored { XZ } else { X };
        assert!(rt; files.holds("x.feed", feed), "{k}");
        let last: &[u8] = if k == 3 || k > 8 {
            b"site 4 2\n"
        } else {
            b"site 4 0\n"
        };
        assert!(rt; files.holds("x.feed.last", last), "{k}");
    }
    Ok(())
}

/// The bytes of the heap of the next test.
const HEAP: usize = 1_048_576;

/// What was kept of 400 sites.
fn long_last(alloc: Global) -> Result<Vec<u8>, AllocError> {
    let mut last = Vec::with_capacity(alloc, 8_192)?;
    for site in 1_000..1_400u32 {
        let line = format!(in alloc; "site {site} 7\n")?;
        last.extend_from_slice(line.as_bytes())?;
    }
    Ok(last)
}

/// How a replacement in a cut heap ends.
#[derive(Clone, Copy, Debug, PartialEq, Eq)]
enum End {
    /// Memory ran out, in the comparison or elsewhere, and nothing was stored.
    Uncompared,
    Refused,
    /// The feed was stored, and FEED.last is as it was, or has the counter.
    Unmarked,
    Marked,
}

/// How a replacement ends in a heap that is cut, with what was kept of 400 sites.
fn end_of(alloc: Global, cut: usize, last: &[u8]) -> Result<End, Fail> {
    let heap = LocalHeap::new(alloc, HEAP)?;
    let kept = HEAP.saturating_sub(cut.saturating_mul(512));
    let ballast: Option<Vec<u8, &LocalHeap>> = Vec::with_capacity(&heap, kept).ok();
    let mut files = feed_of(alloc, b"x")?;
    files.put("a.feed.last", last)?;
    let mut written = Vec::new(alloc);
    let ended = replace_text(
        &heap,
        &mut written,
        &mut files,
        Room {
            feed: "a.feed",
            site: 4,
            older: false,
        },
        &LONGER,
    );
    drop(ballast);
    let is_unmarked = files.holds("a.feed.last", last);
    let text = text_of(alloc, &mut files)?;
    let shown: &[u8] = if ended.is_ok() { b"xz" } else { b"x" };
    if text.as_slice() != shown || (ended.is_err() && !is_unmarked) {
        return Err(Fail::new("another copy"));
    }
    Ok(match ended {
        Ok(()) => {
            if is_unmarked {
                End::Unmarked
            } else {
                End::Marked
            }
        }
        Err(ReplaceFault::Last(why)) => {
            if why != LastFault::NoMemory {
                return Err(Fail::new("another fault"));
            }
            End::Uncompared
        }
        Err(_) => End::Refused,
    })
}

/// Memory is refused in the comparison, or once the feed is stored; then FEED.last stays.
#[test]
fn growths_of_last_refused(rt: HostRuntime) -> Result<(), Fail> {
    let last = long_last(rt.alloc())?;
    let mut uncompared = 0u32;
    let mut unmarked = 0u32;
    let mut marked = 0u32;
    for cut in 0..384usize {
        let end = end_of(rt.alloc(), cut, &last)?;
        uncompared = uncompared.saturating_add(u32::from(end == End::Uncompared));
        unmarked = unmarked.saturating_add(u32::from(end == End::Unmarked));
        marked = marked.saturating_add(u32::from(end == End::Marked));
    }
    assert!(rt;
        uncompared > 0 && unmarked > 0 && marked > 0,
        "{uncompared} {unmarked} {marked}"
    );
    Ok(())
}
