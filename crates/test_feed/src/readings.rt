//! What a merge and a difference report of readings that are open, worked out by hand from operations.

use desk_ops::{Style, Symbol};
use desk_replica::Replica;
use desk_seq::Flat;
use feed_edit::{FeedTrouble, KeepFault, MergeFault, TakeFault, Version, merge_feeds};
use feed_files::FileRefusal;
use feed_files::trial::TrialFiles;
use feed_sites::{DifferenceFault, report_difference};
use linked_list_allocator::LocalHeap;
use std::alloc::{Allocator, Global};
use std::test::Fail;

type Room = Replica<Flat<Global>>;

/// Types Roman symbols at a place, one behind the other.
fn type_at(room: &mut Room, place: usize, text: &str) -> Result<(), Fail> {
    let mut at = place;
    for ch in text.chars() {
        let symbol = Symbol {
            style: Style::Roman,
            ch,
        };
        if room.insert_at(at, symbol).is_err() {
            return Err(Fail::new("a symbol was refused"));
        }
        at = at.saturating_add(1);
    }
    Ok(())
}

/// Deletes some symbols from a place on.
fn delete_at(room: &mut Room, place: usize, count: usize) -> Result<(), Fail> {
    for _ in 0..count {
        if room.delete_at(place).is_err() {
            return Err(Fail::new("a delete was refused"));
        }
    }
    Ok(())
}

/// A room of a site that has typed a text.
fn room_of(alloc: Global, text: &str) -> Result<Room, Fail> {
    let mut room = Replica::new(alloc, 1);
    type_at(&mut room, 0, text)?;
    Ok(room)
}

/// Another site's room with the operations of one.
fn other_room(alloc: Global, room: &Room, site: u16) -> Result<Room, Fail> {
    if site == 0 {
        return Err(Fail::new("no site has the number 0"));
    }
    let mut other = Replica::new(alloc, site);
    other.merge(room)?;
    Ok(other)
}

/// Makes the words from a place on others.
fn exchange(room: &mut Room, place: usize, count: usize, text: &str) -> Result<(), Fail> {
    delete_at(room, place, count)?;
    type_at(room, place, text)
}

/// `agian` made `again` by a room: the first `i` goes, and one comes behind the `a`.
fn mend_again(room: &mut Room, place: usize) -> Result<(), Fail> {
    delete_at(room, place.saturating_add(2), 1)?;
    type_at(room, place.saturating_add(3), "i")
}

/// `Teh` made `The` by a room: the `e` goes, and one comes behind the `h`.
fn mend_the(room: &mut Room) -> Result<(), Fail> {
    delete_at(room, 1, 1)?;
    type_at(room, 2, "e")
}

/// Files with the feeds of two rooms.
fn files_of(alloc: Global, one: &Room, two: &Room) -> Result<TrialFiles<Global>, Fail> {
    let mut files = TrialFiles::new(alloc);
    files.put("one.feed", &one.write_feed()?)?;
    files.put("two.feed", &two.write_feed()?)?;
    Ok(files)
}

/// Whether a merge into the first feed writes this, answers this, and stores the feed of what all make.
fn merges(
    alloc: Global,
    files: &mut TrialFiles<Global>,
    others: &[&str],
    text: &str,
    clean: bool,
    both: &Room,
) -> Result<bool, Fail> {
    let mut written = Vec::new(alloc);
    let ended = merge_feeds(alloc, &mut written, files, "one.feed", others, false);
    let stored = files.holds("one.feed", &both.write_feed()?);
    Ok(ended == Ok(clean) && written.as_slice() == text.as_bytes() && stored)
}

/// What two rooms make.
fn both_of(alloc: Global, one: &Room, two: &Room) -> Result<Room, Fail> {
    let mut both = other_room(alloc, one, 9)?;
    both.merge(two)?;
    Ok(both)
}

/// Whether a merge of two rooms writes this behind the line of the feed, answers this, and stores what both make.
fn two_merge(alloc: Global, one: &Room, two: &Room, text: &str, clean: bool) -> Result<bool, Fail> {
    let mut files = files_of(alloc, one, two)?;
    let both = both_of(alloc, one, two)?;
    merges(alloc, &mut files, &["two.feed"], text, clean, &both)
}

#[test]
fn typo_that_two_rooms_mend(rt: HostRuntime) -> Result<(), Fail> {
    let mut one = room_of(rt.alloc(), "so agian. Yes")?;
    let mut two = other_room(rt.alloc(), &one, 2)?;
    mend_again(&mut one, 3)?;
    mend_again(&mut two, 3)?;
    let text =
        "two.feed ok new 2 known 13\nopen at 3\n  now   agaiin.\n  here  again.\n  there again.\n\
\x20 was   agian.\nfaults none\n";
    assert!(rt; two_merge(rt.alloc(), &one, &two, text, false)?);
    Ok(())
}

#[test]
fn first_word_that_two_rooms_mend(rt: HostRuntime) -> Result<(), Fail> {
    let mut one = room_of(rt.alloc(), "Teh end")?;
    let mut two = other_room(rt.alloc(), &one, 2)?;
    mend_the(&mut one)?;
    mend_the(&mut two)?;
    let text = "two.feed ok new 2 known 7\nopen at 0\n  now   Thee\n  here  The\n  there The\n\
\x20 was   Teh\nfaults none\n";
    assert!(rt; two_merge(rt.alloc(), &one, &two, text, false)?);
    Ok(())
}

/// What is here and what is there are not exchanged.
#[test]
fn word_that_two_rooms_exchange(rt: HostRuntime) -> Result<(), Fail> {
    let mut one = room_of(rt.alloc(), "on Friday")?;
    let mut two = other_room(rt.alloc(), &one, 2)?;
    exchange(&mut one, 3, 3, "Mon")?;
    exchange(&mut two, 3, 3, "Tues")?;
    let text =
        "two.feed ok new 7 known 9\nopen at 3\n  now   TuesMonday\n  here  Monday\n  there Tuesday\n\
\x20 was   Friday\nfaults none\n";
    assert!(rt; two_merge(rt.alloc(), &one, &two, text, false)?);
    Ok(())
}

/// A directional mark is shown by its name.
#[test]
fn word_with_a_mark_that_two_rooms_exchange(rt: HostRuntime) -> Result<(), Fail> {
    let mut one = room_of(rt.alloc(), "on Friday")?;
    let mut two = other_room(rt.alloc(), &one, 2)?;
    exchange(&mut one, 3, 3, "\u{202e}M")?;
    exchange(&mut two, 3, 3, "T")?;
    let text = "two.feed ok new 4 known 9\nopen at 3\n  now   T<U+202E>Mday\n  here  <U+202E>Mday\n\
\x20 there Tday\n  was   Friday\nfaults none\n";
    assert!(rt; two_merge(rt.alloc(), &one, &two, text, false)?);
    Ok(())
}

#[test]
fn other_words_that_two_rooms_exchange(rt: HostRuntime) -> Result<(), Fail> {
    let mut one = room_of(rt.alloc(), "one two three")?;
    let mut two = other_room(rt.alloc(), &one, 2)?;
    exchange(&mut one, 0, 3, "six")?;
    exchange(&mut two, 4, 3, "ten or so")?;
    let text = "two.feed ok new 12 known 13\nfaults none\n";
    assert!(rt; two_merge(rt.alloc(), &one, &two, text, true)?);
    Ok(())
}

/// A feed that brings nothing new, and one that holds all that is stored.
#[test]
fn feeds_of_which_one_holds_all(rt: HostRuntime) -> Result<(), Fail> {
    let one = room_of(rt.alloc(), "so agian")?;
    let mut two = other_room(rt.alloc(), &one, 2)?;
    mend_again(&mut two, 3)?;
    let known = "two.feed ok new 0 known 8\nfaults none\n";
    assert!(rt; two_merge(rt.alloc(), &two, &one, known, true)?);
    let new = "two.feed ok new 2 known 8\nfaults none\n";
    assert!(rt; two_merge(rt.alloc(), &one, &two, new, true)?);
    Ok(())
}

/// What is here is what was joined so far. A clean join behind an open one does not make it clean.
#[test]
fn three_feeds_in_one_merge(rt: HostRuntime) -> Result<(), Fail> {
    let mut one = room_of(rt.alloc(), "so agian. Yes")?;
    let mut two = other_room(rt.alloc(), &one, 2)?;
    let mut three = other_room(rt.alloc(), &one, 3)?;
    let mut four = other_room(rt.alloc(), &one, 4)?;
    mend_again(&mut one, 3)?;
    mend_again(&mut two, 3)?;
    mend_again(&mut three, 3)?;
    exchange(&mut four, 10, 3, "No")?;
    let mut files = files_of(rt.alloc(), &one, &two)?;
    files.put("three.feed", &three.write_feed()?)?;
    files.put("four.feed", &four.write_feed()?)?;
    let mut all = both_of(rt.alloc(), &one, &two)?;
    all.merge(&three)?;
    all.merge(&four)?;
    let others = ["two.feed", "three.feed", "four.feed"];
    let text =
        "two.feed ok new 2 known 13\nopen at 3\n  now   agaiin.\n  here  again.\n  there again.\n\
\x20 was   agian.\nthree.feed ok new 2 known 13\nopen at 3\n  now   agaiiin.\n  here  agaiin.\n\
\x20 there again.\n  was   agian.\nfour.feed ok new 5 known 13\nfaults none\n";
    assert!(rt; merges(rt.alloc(), &mut files, &others, text, false, &all)?);
    Ok(())
}

/// An open join behind a clean one is open.
#[test]
fn second_feed_opens_a_reading(rt: HostRuntime) -> Result<(), Fail> {
    let mut one = room_of(rt.alloc(), "so agian. Yes")?;
    let mut two = other_room(rt.alloc(), &one, 2)?;
    let mut three = other_room(rt.alloc(), &one, 3)?;
    mend_again(&mut one, 3)?;
    exchange(&mut two, 10, 3, "No")?;
    mend_again(&mut three, 3)?;
    let mut files = files_of(rt.alloc(), &one, &two)?;
    files.put("three.feed", &three.write_feed()?)?;
    let mut all = both_of(rt.alloc(), &one, &two)?;
    all.merge(&three)?;
    let others = ["two.feed", "three.feed"];
    let text =
        "two.feed ok new 5 known 13\nthree.feed ok new 2 known 13\nopen at 3\n  now   agaiin.\n\
\x20 here  again.\n  there again.\n  was   agian.\nfaults none\n";
    assert!(rt; merges(rt.alloc(), &mut files, &others, text, false, &all)?);
    Ok(())
}

/// Whether a difference of two rooms writes this; no file changes.
fn differ(alloc: Global, one: &Room, two: &Room, text: &str) -> Result<bool, Fail> {
    let mut files = files_of(alloc, one, two)?;
    let mut written = Vec::new(alloc);
    let ended = report_difference(
        alloc,
        &mut written,
        &mut files,
        Version::whole("one.feed"),
        "two.feed",
    );
    let stays = files.holds("one.feed", &one.write_feed()?);
    Ok(ended == Ok(false) && written.as_slice() == text.as_bytes() && stays)
}

#[test]
fn difference_of_two_rooms_that_mend_a_typo(rt: HostRuntime) -> Result<(), Fail> {
    let mut one = room_of(rt.alloc(), "so agian. Yes")?;
    let mut two = other_room(rt.alloc(), &one, 2)?;
    mend_again(&mut one, 3)?;
    mend_again(&mut two, 3)?;
    // The copies are one, and what both make reads otherwise.
    let text =
        "one.feed alone 1: 14..15\ntwo.feed alone 2: 14..15\nopen at 3\n  now   agaiin.\n  here  again.\n\
\x20 there again.\n  was   agian.\n";
    assert!(rt; differ(rt.alloc(), &one, &two, text)?);
    Ok(())
}

#[test]
fn difference_where_nothing_would_be_open(rt: HostRuntime) -> Result<(), Fail> {
    let mut one = room_of(rt.alloc(), "one two three")?;
    let mut two = other_room(rt.alloc(), &one, 2)?;
    let known = "one.feed alone none\ntwo.feed alone 2: 14..19\n- 4 two\n+ 4 ten\n";
    exchange(&mut two, 4, 3, "ten")?;
    assert!(rt; differ(rt.alloc(), &one, &two, known)?);
    exchange(&mut one, 0, 3, "six")?;
    let text = "one.feed alone 1: 14..19\ntwo.feed alone 2: 14..19\n- 0 six two\n+ 0 one ten\n";
    assert!(rt; differ(rt.alloc(), &one, &two, text)?);
    Ok(())
}

// ---- each growth refused

/// The bytes of the heap of the next tests.
const HEAP: usize = 1_048_576;

/// Two rooms that mend a typo.
fn mended(alloc: Global) -> Result<TrialFiles<Global>, Fail> {
    let mut one = room_of(alloc, "so agian. Yes")?;
    let mut two = other_room(alloc, &one, 2)?;
    mend_again(&mut one, 3)?;
    mend_again(&mut two, 3)?;
    files_of(alloc, &one, &two)
}

/// Whether a fault of a feed is out of memory.
fn is_of_feed(why: FeedTrouble) -> bool {
    why == FeedTrouble::NoMemory || why == FeedTrouble::File(FileRefusal::NoMemory)
}

/// Whether a fault of a merge is out of memory.
fn is_of_merge<A: Allocator>(fault: &MergeFault<A>) -> bool {
    match fault {
        MergeFault::Take(TakeFault::Feed(why)) | MergeFault::Other { why, .. } => is_of_feed(*why),
        MergeFault::Keep(why) => *why == KeepFault::NoMemory,
        MergeFault::Take(TakeFault::Untaken(_)) | MergeFault::Forks { .. } => false,
    }
}

/// Whether a fault of a difference is out of memory.
fn is_of_difference(fault: DifferenceFault) -> bool {
    match fault {
        DifferenceFault::NoMemory => true,
        DifferenceFault::One(why) | DifferenceFault::Other(why) => is_of_feed(why),
        DifferenceFault::Write => false,
    }
}

/// Whether a merge in a cut heap is out of memory, and writes nothing; else it reports the reading.
fn is_refused(alloc: Global, cut: usize) -> Result<bool, Fail> {
    let heap = LocalHeap::new(alloc, HEAP)?;
    let kept = HEAP.saturating_sub(cut.saturating_mul(2048));
    let ballast: Option<Vec<u8, &LocalHeap>> = Vec::with_capacity(&heap, kept).ok();
    let mut files = mended(alloc)?;
    let mut written = Vec::new(alloc);
    let others = ["two.feed"];
    let ended = merge_feeds(&heap, &mut written, &mut files, "one.feed", &others, false);
    drop(ballast);
    match ended {
        Ok(false) if written.ends_with(b"  was   agian.\nfaults none\n") => Ok(false),
        Err(fault) if is_of_merge(&fault) && written.is_empty() => Ok(true),
        _ => Err(Fail::new("another end")),
    }
}

#[test]
fn growths_of_an_open_merge_refused(rt: HostRuntime) -> Result<(), Fail> {
    let mut refused = 0u32;
    for cut in 0..384usize {
        refused = refused.saturating_add(u32::from(is_refused(rt.alloc(), cut)?));
    }
    assert!(rt; 6 <= refused && refused <= 380, "refused {refused} times");
    Ok(())
}

/// Whether a difference in a cut heap is out of memory, and writes nothing; else it reports the reading.
fn is_unwritten(alloc: Global, cut: usize) -> Result<bool, Fail> {
    let heap = LocalHeap::new(alloc, HEAP)?;
    let kept = HEAP.saturating_sub(cut.saturating_mul(2048));
    let ballast: Option<Vec<u8, &LocalHeap>> = Vec::with_capacity(&heap, kept).ok();
    let mut files = mended(alloc)?;
    let mut written = Vec::new(alloc);
    let ended = report_difference(
        &heap,
        &mut written,
        &mut files,
        Version::whole("one.feed"),
        "two.feed",
    );
    drop(ballast);
    match ended {
        Ok(false) if written.ends_with(b"  there again.\n  was   agian.\n") => Ok(false),
        Err(fault) if is_of_difference(fault) && written.is_empty() => Ok(true),
        _ => Err(Fail::new("another end")),
    }
}

#[test]
fn growths_of_an_open_difference_refused(rt: HostRuntime) -> Result<(), Fail> {
    let mut refused = 0u32;
    for cut in 0..384usize {
        refused = refused.saturating_add(u32::from(is_unwritten(rt.alloc(), cut)?));
    }
    assert!(rt; 6 <= refused && refused <= 380, "refused {refused} times");
    Ok(())
}
