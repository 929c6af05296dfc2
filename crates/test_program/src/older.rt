//! Runs in a room, which FEED.last guards against an older feed.

use crate::feeds::{DEVICE, ONE_INSERT};
use crate::running::{Space, Turn, Way, are_kept, ended, played, put_all};
use desk_script::{RoomFault, RunFault};
use feed_files::trial::TrialFiles;
use linked_list_allocator::LocalHeap;
use std::alloc::Global;
use std::test::Fail;

const MAKES_X: (Way, u16, &[u8]) = (Way::InRoom, 3, b"insert 3 0 r\"x\"\n");

const MAKES_Y: (Way, u16, &[u8]) = (Way::InRoom, 3, b"insert 3 1 r\"y\"\n");

const SHOWS: (Way, u16, &[u8]) = (Way::InRoom, 3, b"show 3\n");

const COPY: (Space, &[u8]) = (Space::All, b"copy r\"x\"\n");

const SILENT: (Space, &[u8]) = (Space::None, b"");

const OLDER: Option<RoomFault> = Some(RoomFault::Older { made: 2, held: 1 });

#[rattlefmt::skip]
const REFUSED: &[Turn<'static>] = &[
    Turn {
        puts: &[], run: MAKES_X, written: (Space::All, b"ok 1.3\n"), end: None,
        kept: &[("a.feed", Some(ONE_INSERT)), ("a.feed.last", Some(b"site 3 1\n")), ("a.feed.last.new", None)],
    },
    Turn {
        puts: &[], run: MAKES_Y, written: (Space::All, b"ok 2.3\n"), end: None,
        kept: &[("a.feed.last", Some(b"site 3 2\n"))],
    },
    Turn {
        puts: &[("a.feed", ONE_INSERT)], run: MAKES_Y, written: SILENT, end: OLDER,
        kept: &[("a.feed", Some(ONE_INSERT)), ("a.feed.last", Some(b"site 3 2\n"))],
    },
];

/// A run leaves FEED.last; an older feed that comes back is refused, for that site alone, and is taken where that is
/// wanted.
#[test]
fn older_feed_is_refused(rt: HostRuntime) -> Result<(), Fail> {
    played(rt.alloc(), (0, 0), REFUSED)
}

#[rattlefmt::skip]
const TAKEN: &[Turn<'static>] = &[
    Turn {
        puts: &[("a.feed", ONE_INSERT), ("a.feed.last", b"site 3 2\n")],
        run: (Way::InRoom, 4, b"insert 4 0 r\"z\"\n"), written: (Space::All, b"ok 2.4\n"), end: None,
        kept: &[("a.feed.last", Some(b"site 3 2\nsite 4 2\n"))],
    },
    Turn { puts: &[], run: MAKES_Y, written: SILENT, end: OLDER, kept: &[] },
    Turn {
        puts: &[], run: (Way::Older, 3, b"show 3\n"), written: (Space::All, b"copy r\"zx\"\n"), end: None,
        kept: &[("a.feed.last", Some(b"site 3 1\nsite 4 2\n"))],
    },
    Turn {
        puts: &[], run: (Way::InRoom, 3, b"insert 3 0 r\"w\"\n"), written: (Space::All, b"ok 3.3\n"), end: None,
        kept: &[("a.feed.last", Some(b"site 3 3\nsite 4 2\n"))],
    },
];

#[test]
fn older_feed_is_taken_where_wanted(rt: HostRuntime) -> Result<(), Fail> {
    played(rt.alloc(), (0, 0), TAKEN)
}

/// What is no text of FEED.last, or says nothing of the site.
#[rattlefmt::skip]
const GARBLED: [&[u8]; 12] = [
    b"", b"site 3 9", b"site 3 09\n", b"site 3 9\n\n", b"site 4 1\nsite 3 9\n", b"site 3 9\nsite 3 9\n", b"\xff",
    b"site 3 18446744073709551616\n", b"site 65539 9\n", b"site 3  9\n", b"Site 3 9\n", b"site 3 +9\n",
];

/// Whether this text of FEED.last guards nothing.
fn guards_nothing(alloc: Global, bytes: &[u8]) -> Result<(), Fail> {
    let turn = Turn {
        puts: &[("a.feed", ONE_INSERT), ("a.feed.last", bytes)],
        run: SHOWS,
        written: COPY,
        end: None,
        kept: &[
            ("a.feed", Some(ONE_INSERT)),
            ("a.feed.last", Some(b"site 3 1\n")),
        ],
    };
    played(alloc, (0, 0), &[turn])
}

#[test]
fn garbled_last_guards_nothing(rt: HostRuntime) -> Result<(), Fail> {
    for &bytes in &GARBLED {
        guards_nothing(rt.alloc(), bytes)?;
    }
    Ok(())
}

#[rattlefmt::skip]
const OTHERS: &[Turn<'static>] = &[
    Turn {
        puts: &[("a.feed", ONE_INSERT), ("a.feed.last", b"site 2 7\nsite 4 9\n")], run: SHOWS, written: COPY, end: None,
        kept: &[("a.feed.last", Some(b"site 2 7\nsite 3 1\nsite 4 9\n"))],
    },
    Turn {
        puts: &[("a.feed.last", b"site 2 7\nsite 3 2\nsite 65535 1\n")], run: MAKES_Y, written: SILENT, end: OLDER,
        kept: &[],
    },
];

#[test]
fn last_of_other_sites(rt: HostRuntime) -> Result<(), Fail> {
    played(rt.alloc(), (0, 0), OTHERS)
}

#[rattlefmt::skip]
const ALONE: &[Turn<'static>] = &[Turn {
    puts: &[("a.feed.last", b"site 3 9\n")], run: MAKES_X, written: (Space::All, b"ok 1.3\n"), end: None,
    kept: &[("a.feed", Some(ONE_INSERT)), ("a.feed.last", Some(b"site 3 1\n"))],
}];

/// FEED.last beside no feed guards nothing.
#[test]
fn no_feed_beside_last(rt: HostRuntime) -> Result<(), Fail> {
    played(rt.alloc(), (0, 0), ALONE)
}

/// A run of two inserts, 1.3 and 2.3.
const BOTH: &[u8] = b"MFD2\x04\0\0\0\0\0\0\0\x01\0\x03\0\0\0\0\0\0\0\0\0\0\x02\0\0\0\0x\0\0\0\0y";

/// Both calls before FEED.last is read fail.
#[rattlefmt::skip]
const UNREAD: &[Turn<'static>] = &[Turn {
    puts: PUTS, run: MAKES_Y, written: (Space::All, b""), end: DEVICE,
    kept: &[("a.feed", Some(ONE_INSERT)), ("a.feed.last", Some(b"site 3 1\n"))],
}];

#[rattlefmt::skip]
const UNSTORED: &[Turn<'static>] = &[Turn {
    puts: PUTS, run: MAKES_Y, written: (Space::All, b"ok 2.3\n"), end: DEVICE,
    kept: &[("a.feed", Some(ONE_INSERT)), ("a.feed.last", Some(b"site 3 1\n"))],
}];

#[rattlefmt::skip]
const UNNOTED: &[Turn<'static>] = &[Turn {
    puts: PUTS, run: MAKES_Y, written: (Space::All, b"ok 2.3\n"), end: None,
    kept: &[("a.feed", Some(BOTH)), ("a.feed.last", Some(b"site 3 1\n"))],
}];

#[rattlefmt::skip]
const WHOLE: &[Turn<'static>] = &[Turn {
    puts: PUTS, run: MAKES_Y, written: (Space::All, b"ok 2.3\n"), end: None,
    kept: &[("a.feed", Some(BOTH)), ("a.feed.last", Some(b"site 3 2\n"))],
}];

const PUTS: &[(&str, &[u8])] = &[("a.feed", ONE_INSERT), ("a.feed.last", b"site 3 1\n")];

/// The k-th call of the files fails: 1 takes the name, 2 reads the feed, 3 FEED.last; 4 and 5 store the feed; 6, 7 and 8
/// write FEED.last. There is no ninth.
const ENDINGS: [&[Turn<'static>]; 9] = [
    UNREAD, UNREAD, WHOLE, UNSTORED, UNSTORED, UNNOTED, UNNOTED, UNNOTED, WHOLE,
];

#[test]
fn failing_calls_with_last(rt: HostRuntime) -> Result<(), Fail> {
    let mut k = 0u64;
    for turns in &ENDINGS {
        k = k.saturating_add(1);
        played(rt.alloc(), (k, u64::from(k < 9)), turns)?;
    }
    Ok(())
}

const HEAP: usize = 65_536;

#[rattlefmt::skip]
const PINCHED: Turn<'static> = Turn {
    puts: &[("a.feed", ONE_INSERT), ("a.feed.last", b"site 3 2\n")], run: MAKES_Y, written: SILENT, end: OLDER,
    kept: &[("a.feed", Some(ONE_INSERT)), ("a.feed.last", Some(b"site 3 2\n"))],
};

/// Whether a run on an older feed, in a heap of which so much is left, is out of memory; else the feed is refused.
fn is_pinched(alloc: Global, left: usize) -> Result<bool, Fail> {
    let heap = LocalHeap::new(alloc, HEAP)?;
    let kept = HEAP.saturating_sub(left);
    let ballast: Option<Vec<u8, &LocalHeap>> = Vec::with_capacity(&heap, kept).ok();
    let mut files = TrialFiles::new(alloc);
    put_all(&mut files, &PINCHED)?;
    let end = ended(&heap, alloc, &mut files, &PINCHED, 0)?;
    drop(ballast);
    are_kept(&files, &PINCHED)?;
    if end != OLDER && end != Some(RoomFault::Run(RunFault::NoMemory)) {
        return Err(Fail::new("another end"));
    }
    Ok(end != OLDER)
}

/// Each growth is refused, and an older feed never taken for that.
#[test]
fn older_feed_without_memory(rt: HostRuntime) -> Result<(), Fail> {
    let mut refused = 0u32;
    for part in 0..128usize {
        let pinched = is_pinched(rt.alloc(), part.saturating_mul(512))?;
        refused = refused.saturating_add(u32::from(pinched));
    }
    assert!(rt; refused > 2 && !is_pinched(rt.alloc(), HEAP)?);
    Ok(())
}
