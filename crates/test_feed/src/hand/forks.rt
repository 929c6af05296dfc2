//! Merges with which a number is used twice.

use feed_edit::{
    FeedTrouble, KeepFault, MergeFault, SiteStamp, SiteStamps, TakeFault, forks_line, merge_feeds,
};
use feed_files::FileRefusal;
use feed_files::trial::TrialFiles;
use linked_list_allocator::LocalHeap;
use std::alloc::{AllocError, Allocator, Global};
use std::test::Fail;

/// An insert at the head of a copy: its counter, its site and a Roman letter.
type Letter = (u64, u16, u8);

/// A feed of inserts at the head.
fn feed_of(alloc: Global, letters: &[Letter]) -> Result<Vec<u8>, AllocError> {
    let mut feed = Vec::from_slice(alloc, b"MFD2")?;
    for (counter, site, letter) in letters {
        feed.push(1)?;
        feed.extend_from_slice(&counter.to_be_bytes())?;
        feed.extend_from_slice(&site.to_be_bytes())?;
        feed.extend_from_slice(&[0; 14])?;
        feed.push(*letter)?;
    }
    Ok(feed)
}

/// A feed of 3.2, which is one in all, and of 775.1 to 791.1, 805.1 and 7.3, which insert this letter.
fn room_of(alloc: Global, letter: u8) -> Result<Vec<u8>, AllocError> {
    let mut letters = Vec::from_slice(alloc, &[(3u64, 2u16, b'e'), (7, 3, letter)])?;
    for counter in 775..792u64 {
        letters.push((counter, 1, letter))?;
    }
    letters.push((805, 1, letter))?;
    feed_of(alloc, &letters)
}

/// Files with two such feeds, one that shares no number with them, one that uses a number twice itself, and one in
/// which that is one of two.
fn rooms(alloc: Global) -> Result<TrialFiles<Global>, AllocError> {
    let mut files = TrialFiles::new(alloc);
    files.put("one.feed", &room_of(alloc, b'a')?)?;
    files.put("two.feed", &room_of(alloc, b'b')?)?;
    files.put("apart.feed", &feed_of(alloc, &[(4, 4, b'd')])?)?;
    files.put(
        "twice.feed",
        &feed_of(alloc, &[(9, 2, b'f'), (9, 2, b'g')])?,
    )?;
    let more = [(5, 2, b'h'), (5, 2, b'i'), (9, 2, b'f'), (9, 2, b'g')];
    files.put("more.feed", &feed_of(alloc, &more)?)?;
    Ok(files)
}

/// Whether the feed of this name stands there as it was.
fn stays(alloc: Global, files: &TrialFiles<Global>, name: &str) -> Result<bool, AllocError> {
    let first = rooms(alloc)?;
    Ok(match (first.bytes_of(name), files.bytes_of(name)) {
        (Some(old), Some(now)) => old == now,
        (None, None) => true,
        _ => false,
    })
}

/// What a merge writes.
fn written_by(
    alloc: Global,
    files: &mut TrialFiles<Global>,
    name: &str,
    others: &[&str],
    forks: bool,
) -> Result<Vec<u8>, Fail> {
    let mut written = Vec::new(alloc);
    match merge_feeds(alloc, &mut written, files, name, others, forks) {
        Ok(_) => Ok(written),
        Err(_) => Err(Fail::new("not merged")),
    }
}

/// The place of the feed that adds forks, and the second line; nothing was written, and no file has changed.
fn fork_of(
    alloc: Global,
    files: &mut TrialFiles<Global>,
    name: &str,
    others: &[&str],
) -> Result<(usize, String), Fail> {
    let mut written = Vec::new(alloc);
    let ended = merge_feeds(alloc, &mut written, files, name, others, false);
    if !written.is_empty() || files.bytes_of("one.feed.new").is_some() {
        return Err(Fail::new("bytes before a fault"));
    }
    match ended {
        Err(MergeFault::Forks { at, stamps }) => {
            let line = forks_line(alloc, others.get(at).copied().unwrap_or(""), &stamps)?;
            Ok((at, line))
        }
        Ok(_) => Err(Fail::new("merged")),
        Err(_) => Err(Fail::new("another fault")),
    }
}

#[test]
fn number_used_in_two_rooms_is_refused(rt: HostRuntime) -> Result<(), Fail> {
    let mut files = rooms(rt.alloc())?;
    let (at, line) = fork_of(rt.alloc(), &mut files, "one.feed", &["two.feed"])?;
    assert_eq!(rt; at, 0);
    let whole = "two.feed: site 1 made 775..791 805, site 3 made 7 here and there\n";
    assert_eq!(rt; line.as_str(), whole);
    assert!(rt; stays(rt.alloc(), &files, "one.feed")?);
    assert!(rt; stays(rt.alloc(), &files, "two.feed")?);
    Ok(())
}

/// The first of the others that adds a fork is named; one that brings nothing, or nothing forked, does not.
#[test]
fn second_of_two_adds_a_fork(rt: HostRuntime) -> Result<(), Fail> {
    let mut files = rooms(rt.alloc())?;
    let others = ["one.feed", "apart.feed", "two.feed", "twice.feed"];
    let (at, line) = fork_of(rt.alloc(), &mut files, "one.feed", &others)?;
    assert_eq!(rt; at, 2);
    let whole = "two.feed: site 1 made 775..791 805, site 3 made 7 here and there\n";
    assert_eq!(rt; line.as_str(), whole);
    assert!(rt; stays(rt.alloc(), &files, "one.feed")?);
    Ok(())
}

#[test]
fn number_used_twice_in_the_other_is_refused(rt: HostRuntime) -> Result<(), Fail> {
    let mut files = rooms(rt.alloc())?;
    let (at, line) = fork_of(rt.alloc(), &mut files, "one.feed", &["twice.feed"])?;
    assert_eq!(rt; at, 0);
    assert_eq!(rt; line.as_str(), "twice.feed: site 2 made 9 here and there\n");
    let mut files = files.for_next_run();
    let (_, line) = fork_of(rt.alloc(), &mut files, "new.feed", &["more.feed"])?;
    assert_eq!(rt;
        line.as_str(),
        "more.feed: site 2 made 5 9 here and there\n"
    );
    assert!(rt; files.bytes_of("new.feed").is_none());
    Ok(())
}

/// Where forks are asked for all is merged.
#[test]
fn forks_that_are_asked_for_are_merged(rt: HostRuntime) -> Result<(), Fail> {
    let mut files = rooms(rt.alloc())?;
    let written = written_by(rt.alloc(), &mut files, "one.feed", &["two.feed"], true)?;
    let lines = b"two.feed ok new 19 known 1\nopen at 0\n  now   e\n  here  aaaaaaaaaaaaaaaaaaae\n\
\x20 there bbbbbbbbbbbbbbbbbbbe\n  was   e\nfaults ";
    assert!(rt; written.starts_with(lines));
    assert!(rt; !stays(rt.alloc(), &files, "one.feed")?);
    Ok(())
}

/// A fork that is stored already stops nothing, and is not named beside another.
#[test]
fn stored_fork_is_no_new_one(rt: HostRuntime) -> Result<(), Fail> {
    let mut files = rooms(rt.alloc())?;
    let written = written_by(rt.alloc(), &mut files, "new.feed", &["twice.feed"], true)?;
    assert!(rt; written.starts_with(b"twice.feed ok new 2 known 0\nfaults "));
    let mut files = files.for_next_run();
    let others = ["twice.feed", "apart.feed"];
    let written = written_by(rt.alloc(), &mut files, "new.feed", &others, false)?;
    let lines = b"twice.feed ok new 0 known 2\napart.feed ok new 1 known 0\nfaults ";
    assert!(rt; written.starts_with(lines));
    let mut files = files.for_next_run();
    let (at, line) = fork_of(rt.alloc(), &mut files, "new.feed", &["more.feed"])?;
    assert_eq!(rt; at, 0);
    assert_eq!(rt; line.as_str(), "more.feed: site 2 made 5 here and there\n");
    Ok(())
}

/// Whether these are the stamps of the first of these tests.
fn are_all<A: Allocator>(stamps: &SiteStamps<A>) -> bool {
    let all = stamps.as_slice();
    let last = SiteStamp {
        site: 3,
        counter: 7,
    };
    all.len() == 19 && all.last() == Some(&last)
}

/// The bytes of the heap of the next test.
const HEAP: usize = 1_048_576;

/// Whether a fault is out of memory.
fn is_of_memory<A: Allocator>(fault: &MergeFault<A>) -> bool {
    match fault {
        MergeFault::Take(TakeFault::Feed(why)) | MergeFault::Other { why, .. } => {
            *why == FeedTrouble::NoMemory || *why == FeedTrouble::File(FileRefusal::NoMemory)
        }
        MergeFault::Keep(why) => *why == KeepFault::NoMemory,
        MergeFault::Take(TakeFault::Untaken(_)) | MergeFault::Forks { .. } => false,
    }
}

/// Whether a merge in a cut heap is out of memory, and writes nothing; else the fork is found.
fn is_refused(alloc: Global, cut: usize) -> Result<bool, Fail> {
    let heap = LocalHeap::new(alloc, HEAP)?;
    let kept = HEAP.saturating_sub(cut.saturating_mul(512));
    let ballast: Option<Vec<u8, &LocalHeap>> = Vec::with_capacity(&heap, kept).ok();
    let mut files = rooms(alloc)?;
    let mut written = Vec::new(alloc);
    let others = ["apart.feed", "two.feed"];
    let ended = merge_feeds(&heap, &mut written, &mut files, "one.feed", &others, false);
    drop(ballast);
    if !written.is_empty() || !stays(alloc, &files, "one.feed")? {
        return Err(Fail::new("bytes before a fault"));
    }
    match ended {
        Err(MergeFault::Forks { at, stamps }) => {
            if at != 1 || !are_all(&stamps) {
                return Err(Fail::new("other stamps"));
            }
            Ok(false)
        }
        Err(fault) if is_of_memory(&fault) => Ok(true),
        _ => Err(Fail::new("another end")),
    }
}

#[test]
fn growths_of_a_refused_merge_refused(rt: HostRuntime) -> Result<(), Fail> {
    let mut refused = 0u32;
    for cut in 0..384usize {
        refused = refused.saturating_add(u32::from(is_refused(rt.alloc(), cut)?));
    }
    assert!(rt; 6 <= refused && refused <= 380, "refused {refused} times");
    Ok(())
}
