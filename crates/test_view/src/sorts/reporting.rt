use crate::sorts::rooms::{memory, rooms};
use feed_edit::{FeedTrouble, Version};
use feed_files::FileRefusal;
use feed_files::trial::{AtEnd, TrialWriter};
use linked_list_allocator::LocalHeap;
use script_answers::{Memory, Refusal};
use std::alloc::Global;
use std::test::Fail;
use view_preview::PreviewFault;
use view_punch::report_sorts;

/// The nine symbols have six sorts and a line feed; `é` stands at places 4 and 7.
const LACKING: &str = "SORTS 6 kinds, 8 wanted, 1 missing\n\
missing Roman 'é' (U+00E9), wanted 2, first at place 4\n\
\x20 | a n_a_é né^M^\n\
\x20 at       4       7\n\
\n  cell   wanted  sort\n\
\x20  G1         1  space\n\
\x20  B5         1  Roman 'a' (U+0061)\n\
\x20  A8         2  Roman 'n' (U+006E)\n\
\x20  -          2  Roman 'é' (U+00E9)\n\
\x20  C5         1  italic 'a' (U+0061)\n\
\x20  B15        1  small capital 'M' (U+004D)\n";

/// `é` and `q` by turns, eleven times: neither is in the case, and each has ten places in its first line.
const MANY: &str = "SORTS 2 kinds, 22 wanted, 2 missing\n\
missing Roman 'q' (U+0071), wanted 11, first at place 1\n\
\x20 | éqéqéqéqéqéqéqéqéqéqéq\n\
\x20 at       1       3       5       7       9      11      13      15      17      19\n\
\x20 at      21\n\
missing Roman 'é' (U+00E9), wanted 11, first at place 0\n\
\x20 | éqéqéqéqéqéqéqéqéqéqéq\n\
\x20 at       0       2       4       6       8      10      12      14      16      18\n\
\x20 at      20\n\
\n  cell   wanted  sort\n\
\x20  -         11  Roman 'q' (U+0071)\n\
\x20  -         11  Roman 'é' (U+00E9)\n";

/// Two symbols of one sort, and the case.
const WHOLE: &str = "SORTS 1 kinds, 2 wanted, 0 missing\n\
\n  cell   wanted  sort\n\
\x20  A8         2  Roman 'n' (U+006E)\n\
\nCASE 1\n\n\x20     NI  NL   A   B   C   D   E   F   G   H   I   J   K   L   M   N   O\n\
\x20  1  ..  ..   .  ..  ..  ..  ..  ..  sp  ..  ..  ..  ..  ..  ..  ..  ..\n\
\x20  2  ..  ..  ..  ..  ..  ..  ..  ..  ..  ..  ..  ..  ..  ..  ..  ..  ..\n\
\x20  3  ..  ..  ..  ..  ..  ..  ..  ..  ..  ..  ..  ..  ..  ..  ..  ..  ..\n\
\x20  4  ..  ..   t  ..  ..  ..  ..  ..  ..  ..  ..  ..  ..  ..  ..  ..  ..\n\
\x20  5  ..  ..  f2   a  _a  ..  ..  ..  ..  ..  ..  ..  ..  ..  ..  ..  ..\n\
\x20  6  ..  ..  ..  ..  ..  ..  ..  ..  ..  ..  ..  ..  ..  ..  ..  ..  ..\n\
\x20  7  ..  ..  ..  ..  ..  ..  ..  ..  ..  ..  ..  ..  ..  ..  ..  ..  ..\n\
\x20  8  ..  ..   n  ..  ..  ..  ..  ..  ..  ..  ..  ..  ..  ..  ..  ..  ..\n\
\x20  9  ..  ..  ..  ..  ..  ..  ..  ..  ..  ..  ..  ..  ..  ..  ..  ..  ..\n\
\x20 10  ..  ..  ..  ..  ..  ..  ..  ..  ..  ..  ..  ..  ..  ..  ..  ..  ..\n\
\x20 11  ..  ..  ..  ..  ..  ..  ..  ..  ..  ..  ..  ..  ..  ..  ..  ..  ..\n\
\x20 12  ..  ..  ..  ..  ..  ..  ..  ..  ..  ..  ..  ..  ..  ..  ..  ..  ..\n\
\x20 13  ..  ..  ..  ..  ..  ..  ..  ..  ..  ..  ..  ..  ..  ..  ..  ..  ..\n\
\x20 14  ..  ..   m  ..  ..  ..  ..  ..  ..  ..  ..  ..  ..  ..  ..  ..  ..\n\
\x20 15  ..  ..   M  ^M  ..  ..  ..  ..  ..  ..  ..  ..  ..  ..  ..  ..  f1\n";

/// An `n`, an italic U+202E, which the case has not, and an `n`: the mark is shown by its name in its style.
const MARKED: &str = "SORTS 2 kinds, 3 wanted, 1 missing\n\
missing italic '<U+202E>' (U+202E), wanted 1, first at place 1\n\
\x20 | n_<U+202E>_n\n\
\x20 at       1\n\
\n  cell   wanted  sort\n\
\x20  A8         2  Roman 'n' (U+006E)\n\
\x20  -          1  italic '<U+202E>' (U+202E)\n";

/// No symbol at all.
const NONE: &str = "SORTS 0 kinds, 0 wanted, 0 missing\n\n  cell   wanted  sort\n";

/// What is written of a feed, and how that ends.
#[derive(Drop)]
struct Left {
    written: Vec<u8, Global>,
    ended: Result<bool, PreviewFault>,
}

/// Writes the list of a feed, where the k-th call of the files fails: after a fault nothing is written.
fn reported(alloc: Global, k: u64, names: (&str, &str), layout: bool) -> Result<Left, Fail> {
    let (feed, case) = names;
    let mut files = rooms(alloc, k)?;
    let mut written = Vec::new(alloc);
    let ended = report_sorts(
        memory(alloc),
        &mut written,
        &mut files,
        Version::whole(feed),
        case,
        layout,
    );
    if ended.is_err() && !written.is_empty() {
        return Err(Fail::new("bytes before a fault"));
    }
    Ok(Left { written, ended })
}

/// Whether a feed has this list, and the case each of its sorts or not.
fn has_list(
    alloc: Global,
    feed: &str,
    layout: bool,
    text: &str,
    complete: bool,
) -> Result<bool, Fail> {
    let list = reported(alloc, 0, (feed, "c"), layout)?;
    Ok(list.written.as_slice() == text.as_bytes() && list.ended == Ok(complete))
}

#[test]
fn sorts_are_reported(rt: HostRuntime) -> Result<(), Fail> {
    assert!(rt; has_list(rt.alloc(), "lacking.feed", false, LACKING, false)?);
    assert!(rt; has_list(rt.alloc(), "many.feed", false, MANY, false)?);
    assert!(rt; has_list(rt.alloc(), "whole.feed", true, WHOLE, true)?);
    assert!(rt; has_list(rt.alloc(), "none.feed", false, NONE, true)?);
    assert!(rt; has_list(rt.alloc(), "marked.feed", false, MARKED, false)?);
    Ok(())
}

/// So is a mark that a cell of the case holds.
#[test]
fn mark_in_a_table(rt: HostRuntime) -> Result<(), Fail> {
    let list = reported(rt.alloc(), 0, ("whole.feed", "marked"), true)?;
    let Ok(text) = std::str::from_utf8(&list.written) else {
        return Err(Fail::new("no text"));
    };
    assert!(rt; text.contains("\n   4  ..  ..   <U+202E>  ..  .."));
    Ok(())
}

/// Why nothing is written.
fn fault_of(alloc: Global, k: u64, names: (&str, &str)) -> Result<Option<PreviewFault>, Fail> {
    let list = reported(alloc, k, names, true)?;
    Ok(list.ended.err())
}

#[test]
fn sources_that_give_no_list(rt: HostRuntime) -> Result<(), Fail> {
    let missing = PreviewFault::Feed(FeedTrouble::File(FileRefusal::Missing));
    assert_eq!(rt; fault_of(rt.alloc(), 0, ("b.feed", "c"))?, Some(missing));
    let no_case = PreviewFault::Input(Refusal::Case(1));
    assert_eq!(rt;
        fault_of(rt.alloc(), 0, ("whole.feed", "broken"))?,
        Some(no_case)
    );
    let no_file = PreviewFault::Input(Refusal::FileMissing);
    assert_eq!(rt;
        fault_of(rt.alloc(), 0, ("whole.feed", "d"))?,
        Some(no_file)
    );
    Ok(())
}

#[test]
fn files_that_fail_under_a_list(rt: HostRuntime) -> Result<(), Fail> {
    let names = ("whole.feed", "c");
    let feed = PreviewFault::Feed(FeedTrouble::File(FileRefusal::Device));
    assert_eq!(rt; fault_of(rt.alloc(), 1, names)?, Some(feed));
    let case = PreviewFault::Input(Refusal::FileDevice);
    assert_eq!(rt; fault_of(rt.alloc(), 2, names)?, Some(case));
    assert_eq!(rt; fault_of(rt.alloc(), 3, names)?, None);
    Ok(())
}

/// Whether a list is out of memory in a cut heap; where it is not, it is whole.
fn is_refused(alloc: Global, cut: usize) -> Result<bool, Fail> {
    let heap = LocalHeap::new(alloc, 1_048_576)?;
    let kept = 1_048_576usize.saturating_sub(cut.saturating_mul(8192));
    let ballast: Option<Vec<u8, &LocalHeap>> = Vec::with_capacity(&heap, kept).ok();
    let mut files = rooms(alloc, 0)?;
    let mut written = Vec::new(alloc);
    let memory = Memory {
        own: &heap,
        global: alloc,
    };
    let ended = report_sorts(
        memory,
        &mut written,
        &mut files,
        Version::whole("many.feed"),
        "c",
        false,
    );
    drop(ballast);
    match ended {
        Ok(_) if written.as_slice() != MANY.as_bytes() => Err(Fail::new("another list")),
        Ok(_) => Ok(false),
        Err(_) if !written.is_empty() => Err(Fail::new("bytes before a fault")),
        Err(_) => Ok(true),
    }
}

#[test]
fn growths_of_a_list_refused(rt: HostRuntime) -> Result<(), Fail> {
    let mut refused = 0u32;
    for cut in 0..128usize {
        refused = refused.saturating_add(u32::from(is_refused(rt.alloc(), cut)?));
    }
    assert!(rt; 2 <= refused && refused <= 126, "refused {refused} times");
    Ok(())
}

#[test]
fn sorts_as_they_were(rt: HostRuntime) -> Result<(), Fail> {
    let mut files = rooms(rt.alloc(), 0)?;
    let mut written = Vec::new(rt.alloc());
    let version = Version {
        feed: "many.feed",
        until: Some(0),
    };
    let ended = report_sorts(
        memory(rt.alloc()),
        &mut written,
        &mut files,
        version,
        "c",
        false,
    );
    assert_eq!(rt; ended, Ok(true));
    assert!(rt; written.as_slice() == NONE.as_bytes());
    Ok(())
}

#[test]
fn closed_output_of_a_list(rt: HostRuntime) -> Result<(), Fail> {
    let mut files = rooms(rt.alloc(), 0)?;
    let mut writer = TrialWriter::new(rt.alloc()).with_room(5, AtEnd::Fails);
    let ended = report_sorts(
        memory(rt.alloc()),
        &mut writer,
        &mut files,
        Version::whole("lacking.feed"),
        "c",
        false,
    );
    assert_eq!(rt; ended, Err(PreviewFault::Write));
    assert!(rt; LACKING.as_bytes().starts_with(writer.written()));
    Ok(())
}
