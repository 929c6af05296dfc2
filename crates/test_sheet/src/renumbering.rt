//! The tests of feed_sites.
use desk_ops::Stamp;
use feed_edit::{
    FeedTrouble, ImportMode, KeepFault, Room, TakeFault, Version, export_feed, import_text,
    merge_feeds,
};
use feed_files::trial::{AtEnd, TrialFiles, TrialReader, TrialWriter};
use feed_files::{FileRefusal, Files};
use feed_sites::{NumberFault, RenumberFault, renumber_feed};
use linked_list_allocator::LocalHeap;
use std::alloc::{AllocError, Allocator, Global};
use std::test::Fail;

// ---- feeds, by their operations

/// A stamp: its counter and its site.
type Place = (u64, u16);

/// An operation: a Roman letter behind a parent, a delete of a target, or a value of the measure.
#[derive(Clone, Copy)]
enum Made {
    Insert(Place, Place, u8),
    Delete(Place, Place),
    Measure(Place, u8),
}

/// The first letter of a copy, by site 1.
fn first(letter: u8) -> Made {
    Made::Insert((1, 1), (0, 0), letter)
}

fn put_stamp(feed: &mut Vec<u8>, stamp: Place) -> Result<(), AllocError> {
    feed.extend_from_slice(&stamp.0.to_be_bytes())?;
    feed.extend_from_slice(&stamp.1.to_be_bytes())
}

fn put_made(feed: &mut Vec<u8>, made: Made) -> Result<(), AllocError> {
    match made {
        Made::Insert(stamp, parent, letter) => {
            feed.push(1)?;
            put_stamp(feed, stamp)?;
            put_stamp(feed, parent)?;
            feed.extend_from_slice(&[0, 0, 0, 0, letter])
        }
        Made::Delete(stamp, target) => {
            feed.push(2)?;
            put_stamp(feed, stamp)?;
            put_stamp(feed, target)
        }
        Made::Measure(stamp, value) => {
            feed.push(3)?;
            put_stamp(feed, stamp)?;
            feed.extend_from_slice(&[1, 0, 0, 0, value])
        }
    }
}

fn feed_of(alloc: Global, made: &[Made]) -> Result<Vec<u8>, AllocError> {
    let mut feed = Vec::from_slice(alloc, b"MFD2")?;
    for one in made {
        put_made(&mut feed, *one)?;
    }
    Ok(feed)
}

/// Puts two feeds in files.
fn put_rooms(
    alloc: Global,
    files: &mut TrialFiles<Global>,
    one: &[Made],
    two: &[Made],
) -> Result<(), AllocError> {
    files.put("one.feed", &feed_of(alloc, one)?)?;
    files.put("two.feed", &feed_of(alloc, two)?)
}

/// Files with two feeds.
fn rooms(alloc: Global, one: &[Made], two: &[Made]) -> Result<TrialFiles<Global>, AllocError> {
    let mut files = TrialFiles::new(alloc);
    put_rooms(alloc, &mut files, one, two)?;
    Ok(files)
}

/// Whether a feed has these operations, in this order.
fn has(
    alloc: Global,
    files: &TrialFiles<Global>,
    name: &str,
    made: &[Made],
) -> Result<bool, AllocError> {
    Ok(files.holds(name, &feed_of(alloc, made)?))
}

// ---- feeds that are keyed

/// Makes the copy of a feed a text, by site 1.
fn key(alloc: Global, files: &mut TrialFiles<Global>, name: &str, text: &[u8]) -> Result<(), Fail> {
    let mut reader = TrialReader::new(text);
    let mut written = Vec::new(alloc);
    import_text(
        alloc,
        &mut reader,
        &mut written,
        files,
        Room {
            feed: name,
            site: 1,
            older: false,
        },
        ImportMode {
            plain: false,
            all: true,
        },
    )?;
    Ok(())
}

/// Files with two feeds of one backup, with which site 1 went on in both rooms.
fn two_rooms(alloc: Global) -> Result<TrialFiles<Global>, Fail> {
    let mut files = TrialFiles::new(alloc);
    key(alloc, &mut files, "one.feed", b"a quick fox")?;
    let mut files = files.for_next_run();
    let Some(bytes) = files.bytes_of("one.feed") else {
        return Err(Fail::new("no feed"));
    };
    let bytes = Vec::from_slice(alloc, bytes)?;
    files.put("two.feed", &bytes)?;
    key(alloc, &mut files, "one.feed", b"a slow fox")?;
    let mut files = files.for_next_run();
    key(alloc, &mut files, "two.feed", b"a quick dog")?;
    Ok(files.for_next_run())
}

/// How `one.feed` is renumbered to a site beside `two.feed`, if this is written.
fn renumbers(
    alloc: Global,
    files: &mut TrialFiles<Global>,
    site: u16,
    text: &[u8],
) -> Result<bool, Fail> {
    if site == 0 {
        return Err(Fail::new("no site"));
    }
    let mut written = Vec::new(alloc);
    renumber_feed(alloc, &mut written, files, "one.feed", "two.feed", site)?;
    Ok(written.as_slice() == text)
}

/// Why it is not, if nothing was written.
fn fault_of(
    alloc: Global,
    files: &mut TrialFiles<Global>,
    site: u16,
) -> Result<Option<RenumberFault>, Fail> {
    if site == 0 {
        return Err(Fail::new("no site"));
    }
    let mut written = Vec::new(alloc);
    let ended = renumber_feed(alloc, &mut written, files, "one.feed", "two.feed", site);
    if !written.is_empty() {
        return Err(Fail::new("something was written"));
    }
    Ok(ended.err())
}

/// Whether the copy of `two.feed` is a text, once `one.feed` was merged into it and this was written.
fn merges(
    alloc: Global,
    files: &mut TrialFiles<Global>,
    lines: &[u8],
    text: &[u8],
) -> Result<bool, Fail> {
    let mut written = Vec::new(alloc);
    merge_feeds(alloc, &mut written, files, "two.feed", &["one.feed"], false)?;
    let mut copy = Vec::new(alloc);
    export_feed(alloc, &mut copy, files, Version::whole("two.feed"))?;
    Ok(written.as_slice() == lines && copy.as_slice() == text)
}

// ---- the corrections of both stand

/// Five deletes and four inserts of the one room, two and two of the other, all with the number 1.
#[test]
fn corrections_of_both_rooms_stand(rt: HostRuntime) -> Result<(), Fail> {
    let mut files = two_rooms(rt.alloc())?;
    assert!(rt; renumbers(rt.alloc(), &mut files, 9, b"ok renumbered 9\n")?);
    let mut files = files.for_next_run();
    let lines = b"one.feed ok new 9 known 11\nfaults none\n";
    assert!(rt; merges(rt.alloc(), &mut files, lines, b"a slow dog")?);
    Ok(())
}

/// Whether of two feeds the first is renumbered to site 9, if this is written, and the second is kept.
fn is_renumbered(alloc: Global, one: &[Made], two: &[Made], text: &[u8]) -> Result<bool, Fail> {
    let mut files = rooms(alloc, one, two)?;
    Ok(renumbers(alloc, &mut files, 9, text)? && has(alloc, &files, "two.feed", two)?)
}

/// Why of two feeds the first is not renumbered to a site, and kept as it is.
fn refusal_of(
    alloc: Global,
    one: &[Made],
    two: &[Made],
    site: u16,
) -> Result<Option<NumberFault>, Fail> {
    let mut files = rooms(alloc, one, two)?;
    let fault = fault_of(alloc, &mut files, site)?;
    if !has(alloc, &files, "one.feed", one)? {
        return Err(Fail::new("another feed"));
    }
    match fault {
        Some(RenumberFault::Number(why)) => Ok(Some(why)),
        _ => Ok(None),
    }
}

/// What is behind an operation that is moved goes with it. The newest of those behind one parent is first.
#[test]
fn parents_go_along(rt: HostRuntime) -> Result<(), Fail> {
    let one = [
        first(b'a'),
        Made::Insert((2, 1), (1, 1), b'b'),
        Made::Insert((3, 1), (2, 1), b'c'),
    ];
    let two = [first(b'a'), Made::Insert((2, 1), (1, 1), b'x')];
    let mut files = rooms(rt.alloc(), &one, &two)?;
    assert!(rt; renumbers(rt.alloc(), &mut files, 9, b"ok renumbered 2\n")?);
    let mut files = files.for_next_run();
    let lines =
        b"one.feed ok new 2 known 1\nopen at 0\n  now   abcx\n  here  ax\n  there abc\n  was   a\nfaults none\n";
    assert!(rt; merges(rt.alloc(), &mut files, lines, b"abcx")?);
    Ok(())
}

/// Deletes and settings too, and nothing else is moved. The measure that is set last by both is that of the greater
/// number.
#[test]
fn deletes_and_settings_that_collide(rt: HostRuntime) -> Result<(), Fail> {
    let one = [
        first(b'a'),
        Made::Delete((2, 1), (1, 1)),
        Made::Measure((3, 1), 20),
    ];
    let two = [
        first(b'a'),
        Made::Insert((2, 1), (1, 1), b'b'),
        Made::Measure((3, 1), 30),
    ];
    let moved = [
        first(b'a'),
        Made::Delete((2, 9), (1, 1)),
        Made::Measure((3, 9), 20),
    ];
    let mut files = rooms(rt.alloc(), &one, &two)?;
    assert!(rt; renumbers(rt.alloc(), &mut files, 9, b"ok renumbered 2\n")?);
    assert!(rt; has(rt.alloc(), &files, "one.feed", &moved)?);
    assert!(rt; files.bytes_of("one.feed.new").is_none());
    let mut files = files.for_next_run();
    let lines =
        b"one.feed ok new 2 known 1\nopen at 0\n  now   b\n  here  ab\n  there\n  was   a\nfaults none\n";
    assert!(rt; merges(rt.alloc(), &mut files, lines, b"b")?);
    Ok(())
}

/// Beside an insert of another site with its counter, one that is moved may come first: the words say so.
#[test]
fn copy_that_reads_otherwise(rt: HostRuntime) -> Result<(), Fail> {
    let one = [first(b'a'), Made::Insert((1, 2), (0, 0), b'b')];
    let text = b"ok renumbered 1\n- 0 ba\n+ 0 ab\n";
    assert!(rt; is_renumbered(rt.alloc(), &one, &[first(b'x')], text)?);
    Ok(())
}

// ---- nothing collides

/// Then nothing is stored, not even the same operations in order; a feed that is missing stays so.
#[test]
fn nothing_collides(rt: HostRuntime) -> Result<(), Fail> {
    let one = [Made::Insert((2, 1), (0, 0), b'b'), first(b'a')];
    let two = [first(b'a'), Made::Insert((3, 1), (0, 0), b'c')];
    let mut files = rooms(rt.alloc(), &one, &two)?;
    assert!(rt; renumbers(rt.alloc(), &mut files, 9, b"ok renumbered 0\n")?);
    assert!(rt; has(rt.alloc(), &files, "one.feed", &one)?);
    let mut files = TrialFiles::new(rt.alloc());
    files.put("two.feed", &feed_of(rt.alloc(), &two)?)?;
    assert!(rt; renumbers(rt.alloc(), &mut files, 9, b"ok renumbered 0\n")?);
    assert!(rt; files.bytes_of("one.feed").is_none());
    Ok(())
}

/// A stamp that is forked in one of them does not collide.
#[test]
fn forked_stamp_does_not_collide(rt: HostRuntime) -> Result<(), Fail> {
    let one = [first(b'a'), first(b'b')];
    assert!(rt; is_renumbered(rt.alloc(), &one, &[first(b'c')], b"ok renumbered 0\n")?);
    Ok(())
}

// ---- refusals

/// A number that bears a stamp in one of them, or that one of them names.
#[test]
fn number_in_use(rt: HostRuntime) -> Result<(), Fail> {
    let one = [first(b'a'), Made::Insert((2, 5), (1, 6), b'b')];
    let two = [first(b'x'), Made::Delete((2, 7), (1, 8))];
    for site in [1, 5, 6, 7, 8] {
        assert_eq!(rt;
            refusal_of(rt.alloc(), &one, &two, site)?,
            Some(NumberFault::InUse)
        );
    }
    assert!(rt; is_renumbered(rt.alloc(), &one, &two, b"ok renumbered 1\n")?);
    Ok(())
}

/// Another site has built upon what is to be moved. An operation of the other room that names its own is no witness.
#[test]
fn seen_by_another(rt: HostRuntime) -> Result<(), Fail> {
    let one = [
        first(b'a'),
        Made::Insert((2, 1), (1, 1), b'b'),
        Made::Insert((3, 1), (2, 1), b'c'),
        Made::Insert((3, 2), (2, 1), b'd'),
    ];
    let two = [
        first(b'a'),
        Made::Insert((2, 1), (1, 1), b'x'),
        Made::Insert((4, 3), (2, 1), b'y'),
        Made::Delete((5, 3), (3, 1)),
    ];
    assert!(rt; is_renumbered(rt.alloc(), &one[..3], &two[..3], b"ok renumbered 2\n")?);
    let there = NumberFault::Seen(Stamp {
        counter: 5,
        site: 3,
    });
    assert_eq!(rt; refusal_of(rt.alloc(), &one[..3], &two, 9)?, Some(there));
    let here = NumberFault::Seen(Stamp {
        counter: 3,
        site: 2,
    });
    assert_eq!(rt; refusal_of(rt.alloc(), &one, &two, 9)?, Some(here));
    Ok(())
}

/// Two numbers collide, and one counter of both is to be moved; with other counters both are.
#[test]
fn collisions_of_two_sites(rt: HostRuntime) -> Result<(), Fail> {
    let one = [
        first(b'a'),
        Made::Insert((2, 2), (0, 0), b'b'),
        Made::Insert((2, 1), (0, 0), b'c'),
    ];
    let two = [first(b'x'), Made::Insert((2, 2), (0, 0), b'y')];
    assert!(rt; is_renumbered(rt.alloc(), &one[..2], &two, b"ok renumbered 2\n")?);
    assert_eq!(rt;
        refusal_of(rt.alloc(), &one, &two, 9)?,
        Some(NumberFault::Clash)
    );
    Ok(())
}

#[test]
fn other_feed_is_missing(rt: HostRuntime) -> Result<(), Fail> {
    let mut files = TrialFiles::new(rt.alloc());
    files.put("one.feed", &feed_of(rt.alloc(), &[first(b'a')])?)?;
    let missing = RenumberFault::Other(FeedTrouble::File(FileRefusal::Missing));
    assert_eq!(rt; fault_of(rt.alloc(), &mut files, 9)?, Some(missing));
    assert!(rt; has(rt.alloc(), &files, "one.feed", &[first(b'a')])?);
    Ok(())
}

/// Two feeds of one operation that collide, of files of which the k-th call fails.
fn failing_at(alloc: Global, k: u64) -> Result<TrialFiles<Global>, AllocError> {
    let mut files = TrialFiles::new(alloc).failing_at_call(k);
    put_rooms(alloc, &mut files, &[first(b'a')], &[first(b'x')])?;
    Ok(files)
}

/// How a renumbering of those files ends at the k-th call, and whether nothing was written.
fn ended_at(alloc: Global, k: u64) -> Result<(Option<RenumberFault>, bool), Fail> {
    let mut files = failing_at(alloc, k)?;
    let mut written = Vec::new(alloc);
    let ended = renumber_feed(alloc, &mut written, &mut files, "one.feed", "two.feed", 9);
    if !has(alloc, &files, "one.feed", &[first(b'a')])? {
        return Err(Fail::new("another feed"));
    }
    Ok((ended.err(), written.is_empty()))
}

#[test]
fn files_that_fail_at_each_call(rt: HostRuntime) -> Result<(), Fail> {
    let device = FileRefusal::Device;
    let faults = [
        RenumberFault::Take(TakeFault::Untaken(device)),
        RenumberFault::Take(TakeFault::Feed(FeedTrouble::File(device))),
        RenumberFault::Other(FeedTrouble::File(device)),
        RenumberFault::Keep(KeepFault::Unstored(device)),
        RenumberFault::Keep(KeepFault::Unstored(device)),
    ];
    for at in 0..faults.len() {
        let k = (at as u64).saturating_add(1);
        let (ended, is_silent) = ended_at(rt.alloc(), k)?;
        assert_eq!(rt; ended, Some(faults[at]));
        assert_eq!(rt; is_silent, k < 4);
    }
    Ok(())
}

/// Whether a renumbering with so much room in its output stops there, and keeps the feed.
fn is_closed(alloc: Global, room: usize, end: AtEnd) -> Result<bool, Fail> {
    let mut files = failing_at(alloc, 0)?;
    let mut writer = TrialWriter::new(alloc).with_room(room, end);
    let ended = renumber_feed(alloc, &mut writer, &mut files, "one.feed", "two.feed", 9);
    Ok(
        ended == Err(RenumberFault::Keep(KeepFault::Write))
            && b"ok renumbered 1\n".starts_with(writer.written())
            && has(alloc, &files, "one.feed", &[first(b'a')])?,
    )
}

#[test]
fn closed_output_renumbers_nothing(rt: HostRuntime) -> Result<(), Fail> {
    for room in 0..16usize {
        assert!(rt; is_closed(rt.alloc(), room, AtEnd::Fails)?);
        assert!(rt; is_closed(rt.alloc(), room, AtEnd::TakesNone)?);
    }
    Ok(())
}

// ---- memory

/// The bytes of the heap of the next test: the places of all sites take half.
const HEAP: usize = 2_097_152;

/// Whether a fault is out of memory.
fn is_of_memory(fault: RenumberFault) -> bool {
    match fault {
        RenumberFault::Take(TakeFault::Untaken(why)) => why == FileRefusal::NoMemory,
        RenumberFault::Take(TakeFault::Feed(why)) | RenumberFault::Other(why) => {
            why == FeedTrouble::NoMemory || why == FeedTrouble::File(FileRefusal::NoMemory)
        }
        RenumberFault::Number(why) => why == NumberFault::NoMemory,
        RenumberFault::Keep(why) => {
            why == KeepFault::NoMemory || why == KeepFault::Unstored(FileRefusal::NoMemory)
        }
    }
}

/// Whether a run in a cut heap is out of memory, and then changes nothing; else all is done.
fn is_refused(alloc: Global, cut: usize) -> Result<bool, Fail> {
    let heap = LocalHeap::new(alloc, HEAP)?;
    let kept = HEAP.saturating_sub(cut.saturating_mul(2048));
    let ballast: Option<Vec<u8, &LocalHeap>> = Vec::with_capacity(&heap, kept).ok();
    let mut files = two_rooms(alloc)?;
    let Some(bytes) = files.bytes_of("one.feed") else {
        return Err(Fail::new("no feed"));
    };
    let old = Vec::from_slice(alloc, bytes)?;
    let mut written = Vec::new(alloc);
    let ended = renumber_feed(&heap, &mut written, &mut files, "one.feed", "two.feed", 9);
    drop(ballast);
    if let Err(fault) = ended {
        if !is_of_memory(fault) || !files.holds("one.feed", &old) {
            return Err(Fail::new("another fault"));
        }
        return Ok(true);
    }
    if written.as_slice() != b"ok renumbered 9\n".as_slice() {
        return Err(Fail::new("another answer"));
    }
    Ok(false)
}

#[test]
fn growths_of_a_renumbering_refused(rt: HostRuntime) -> Result<(), Fail> {
    let mut refused = 0u32;
    for cut in 0..768usize {
        refused = refused.saturating_add(u32::from(is_refused(rt.alloc(), cut)?));
    }
    assert!(rt; 6 <= refused && refused <= 764, "refused {refused} times");
    Ok(())
}

// ---- words

fn says<A: Allocator + Copy>(
    alloc: A,
    fault: RenumberFault,
    words: &str,
) -> Result<bool, AllocError> {
    let said = format!(in alloc; "{fault}")?;
    Ok(said.as_str() == words)
}

#[test]
fn words_of_renumber_faults(rt: HostRuntime) -> Result<(), Fail> {
    let seen = NumberFault::Seen(Stamp {
        counter: 5,
        site: 3,
    });
    let words = [
        (RenumberFault::Number(NumberFault::InUse), "number in use"),
        (RenumberFault::Number(seen), "seen by another room"),
        (RenumberFault::Number(NumberFault::Clash), "number in use"),
        (RenumberFault::Number(NumberFault::NoMemory), "no memory"),
        (RenumberFault::Keep(KeepFault::Write), "write fault"),
    ];
    for (fault, said) in words {
        assert!(rt; says(rt.alloc(), fault, said)?);
    }
    Ok(())
}
