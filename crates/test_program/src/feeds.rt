//! Runs on a stored feed.

use crate::running::{Space, Turn, Way, ended, played};
use desk_codec::{FeedFault, FeedWhy};
use desk_held::AddRefusal;
use desk_replica::Stopped;
use desk_script::{RoomFault, RunFault};
use feed_files::{FileRefusal, NoFiles};
use std::alloc::{AllocError, Global};
use std::test::Fail;

/// One insert, 1.3 by site 3.
pub const ONE_INSERT: &[u8] = b"MFD2\x01\0\0\0\0\0\0\0\x01\0\x03\0\0\0\0\0\0\0\0\0\0\0\0\0\0x";

/// The same and one insert more, 2.3 at the head.
const TWO_INSERTS: &[u8] =
    b"MFD2\x01\0\0\0\0\0\0\0\x01\0\x03\0\0\0\0\0\0\0\0\0\0\0\0\0\0x\x01\0\0\0\0\0\0\0\x02\0\x03\0\0\0\0\0\0\0\0\0\0\0\0\0\0y";

/// The one insert and its delete, 2.3.
const ONE_DELETED: &[u8] =
    b"MFD2\x01\0\0\0\0\0\0\0\x01\0\x03\0\0\0\0\0\0\0\0\0\0\0\0\0\0x\x02\0\0\0\0\0\0\0\x02\0\x03\0\0\0\0\0\0\0\x01\0\x03";

pub const DEVICE: Option<RoomFault> = Some(RoomFault::Run(RunFault::File(FileRefusal::Device)));

const MISSING: Option<RoomFault> = Some(RoomFault::Run(RunFault::File(FileRefusal::Missing)));

const MAGIC: Option<RoomFault> = Some(RoomFault::Run(RunFault::Feed(FeedFault {
    at: 0,
    why: FeedWhy::Magic,
})));

const FULL: Option<RoomFault> = Some(RoomFault::Run(RunFault::Opening(Stopped {
    taken: 0,
    why: AddRefusal::Full,
})));

const CLOSED: Option<RoomFault> = Some(RoomFault::Run(RunFault::Write));

const INSERTS: &[u8] = b"insert 3 0 r\"x\"\nsite 4\ninsert 4 0 r\"y\"\n";

const MAKES_Y: (Way, u16, &[u8]) = (Way::OnFeed, 3, b"insert 3 0 r\"y\"\n");

const AT_ONCE: (Way, u16, &[u8]) = (Way::AtOnce, 3, b"insert 3 0 r\"y\"\n");

const SHOWS: (Way, u16, &[u8]) = (Way::OnFeed, 3, b"show 3\n");

const COPY: (Space, &[u8]) = (Space::All, b"copy r\"x\"\n");

const SILENT: (Space, &[u8]) = (Space::None, b"");

#[rattlefmt::skip]
const FULL_SET: &[Turn<'static>] = &[Turn {
    puts: &[], run: (Way::OnFeed, 3, INSERTS), written: (Space::All, b"ok 1.3\nok\nok 1.4\n"), end: None,
    kept: &[("a.feed", Some(ONE_INSERT)), ("a.feed.new", None)],
}];

#[test]
fn full_set_and_stored_feed(rt: HostRuntime) -> Result<(), Fail> {
    played(rt.alloc(), (0, 0), FULL_SET)
}

#[rattlefmt::skip]
const ONE_RUN: &[Turn<'static>] = &[
    Turn {
        puts: &[("a.feed", ONE_INSERT), ("a.feed.new", b"left over")], run: SHOWS, written: COPY, end: None, kept: &[],
    },
    Turn { puts: &[], run: AT_ONCE, written: SILENT, end: DEVICE, kept: &[] },
    Turn {
        puts: &[], run: SHOWS, written: COPY, end: None,
        kept: &[("a.feed", Some(ONE_INSERT)), ("a.feed.new", Some(b"left over"))],
    },
];

/// A second run on files that hold the feed's name is refused at once; where they were let go it reads the feed. A feed
/// that it does not change is not written.
#[test]
fn one_run_at_a_time(rt: HostRuntime) -> Result<(), Fail> {
    played(rt.alloc(), (0, 1), ONE_RUN)
}

/// A run on a feed that is refused or not opened: nothing is written, and the file stays.
fn refused_on(alloc: Global, k: u64, bytes: &[u8], end: Option<RoomFault>) -> Result<(), Fail> {
    let turn = Turn {
        puts: &[("a.feed", bytes)],
        run: SHOWS,
        written: (Space::All, b""),
        end,
        kept: &[("a.feed", Some(bytes))],
    };
    played(alloc, (k, k.min(1)), &[turn])
}

const REFUSED: [(u64, &[u8], Option<RoomFault>); 4] = [
    (0, b"MF", MAGIC),
    (0, b"", MAGIC),
    (1, ONE_INSERT, DEVICE),
    (2, ONE_INSERT, DEVICE),
];

#[test]
fn refused_stored_feeds(rt: HostRuntime) -> Result<(), Fail> {
    for &(k, bytes, end) in &REFUSED {
        refused_on(rt.alloc(), k, bytes, end)?;
    }
    Ok(())
}

/// The feed of so many settings, each of the measure.
fn settings_feed(alloc: Global, count: u64) -> Result<Vec<u8>, AllocError> {
    let mut bytes = Vec::new(alloc);
    bytes.extend_from_slice(b"MFD1")?;
    for counter in 0..count {
        bytes.push(3)?;
        bytes.extend_from_slice(&counter.wrapping_add(1).to_be_bytes())?;
        bytes.extend_from_slice(b"\0\x01\x01\0\0\0\x0c")?;
    }
    Ok(bytes)
}

#[test]
fn too_many_stored(rt: HostRuntime) -> Result<(), Fail> {
    let feed = settings_feed(rt.alloc(), 1_048_577)?;
    refused_on(rt.alloc(), 0, &feed, FULL)
}

#[rattlefmt::skip]
const STOPPED: &[Turn<'static>] = &[Turn {
    puts: &[("a.feed", ONE_INSERT)], run: (Way::OnFeed, 3, b"insert 3 0 r\"y\"\nshow 3\n"),
    written: (Space::Bytes(5), b"ok 2."), end: CLOSED, kept: &[("a.feed", Some(ONE_INSERT)), ("a.feed.new", None)],
}];

#[test]
fn feed_stored_after_stopped_run(rt: HostRuntime) -> Result<(), Fail> {
    played(rt.alloc(), (0, 0), STOPPED)
}

/// The next run stores its own feed.
#[rattlefmt::skip]
const NEXT: Turn<'static> = Turn {
    puts: &[], run: (Way::OnFeed, 3, b"delete 3 0\n"), written: (Space::All, b"ok 2.3\n"), end: None,
    kept: &[("a.feed", Some(ONE_DELETED)), ("a.feed.new", None)],
};

/// The writing fails: the old feed stays.
#[rattlefmt::skip]
const UNWRITTEN: &[Turn<'static>] = &[Turn {
    puts: &[("a.feed", ONE_INSERT)], run: MAKES_Y, written: (Space::All, b"ok 2.3\n"), end: DEVICE,
    kept: &[("a.feed", Some(ONE_INSERT)), ("a.feed.new", None)],
}, NEXT];

/// The renaming fails: the new feed is beside the old one.
#[rattlefmt::skip]
const UNRENAMED: &[Turn<'static>] = &[Turn {
    puts: &[("a.feed", ONE_INSERT)], run: MAKES_Y, written: (Space::All, b"ok 2.3\n"), end: DEVICE,
    kept: &[("a.feed", Some(ONE_INSERT)), ("a.feed.new", Some(TWO_INSERTS))],
}, NEXT];

/// The answers are written before the feed is stored.
#[test]
fn not_stored_after_all_answers(rt: HostRuntime) -> Result<(), Fail> {
    played(rt.alloc(), (3, 1), UNWRITTEN)?;
    played(rt.alloc(), (4, 1), UNRENAMED)
}

#[rattlefmt::skip]
const NOWHERE: Turn<'static> = Turn {
    puts: &[], run: (Way::OnFeed, 3, b"insert 3 0 r\"x\"\n"), written: (Space::All, b""), end: MISSING, kept: &[],
};

/// Where there is no place for the feed nothing is answered.
#[test]
fn not_stored_where_no_file_can_be(rt: HostRuntime) -> Result<(), Fail> {
    let end = ended(rt.alloc(), rt.alloc(), &mut NoFiles, &NOWHERE, 0)?;
    assert_eq!(rt; end, MISSING);
    Ok(())
}

const READS_A_CASE: (Way, u16, &[u8]) = (Way::OnFeed, 3, b"insert 3 0 r\"x\"\nribbon 3 c w\n");

#[rattlefmt::skip]
const FAILED_READ: &[Turn<'static>] = &[Turn {
    puts: &[], run: READS_A_CASE, written: (Space::All, b"ok 1.3\nrefused file device\n"), end: None,
    kept: &[("a.feed", Some(ONE_INSERT))],
}];

#[rattlefmt::skip]
const FAILED_READ_AND_WRITE: &[Turn<'static>] = &[Turn {
    puts: &[], run: READS_A_CASE, written: (Space::Bytes(20), b"ok 1.3\nrefused file "), end: CLOSED,
    kept: &[("a.feed", None)],
}];

/// A failed read of a case is reported in its line, and is no fault of the feed: it is stored, or the writer's fault is
/// returned.
#[test]
fn stored_after_a_failed_read(rt: HostRuntime) -> Result<(), Fail> {
    played(rt.alloc(), (3, 1), FAILED_READ)?;
    played(rt.alloc(), (3, 1), FAILED_READ_AND_WRITE)
}
