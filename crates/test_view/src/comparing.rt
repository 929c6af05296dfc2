//! The tests of view_ribbon's comparison.

use crate::reading::rooms::{memory, rooms};
use feed_files::FileRefusal;
use feed_files::trial::{AtEnd, TrialWriter};
use linked_list_allocator::LocalHeap;
use script_answers::{Memory, Refusal};
use std::alloc::{AllocError, Global};
use std::test::Fail;
use view_ribbon::{ComparisonFault, Pair, compare_ribbons};

/// The names of two ribbons with the case and the wedge of most of these tests.
fn pair<'a>(one: &'a str, other: &'a str) -> Pair<'a> {
    Pair {
        one,
        other,
        case: "c",
        wedge: "w",
    }
}

/// Whether a comparison writes this, and finds the ribbons alike or not.
fn is_written(
    alloc: Global,
    one: &str,
    other: &str,
    text: &str,
    alike: bool,
) -> Result<bool, Fail> {
    let mut files = rooms(alloc, 0)?;
    let mut written = Vec::new(alloc);
    let ended = compare_ribbons(memory(alloc), &mut written, &mut files, &pair(one, other));
    Ok(written.as_slice() == text.as_bytes() && ended == Ok(alike))
}

/// The fine wedge of the second line is at another position, and the third line, of 6.6667 points, is of one alone.
const MORE: &str = "lines 2 lines, more 3 lines, 2 differ\n\
\n-      2    3/8       18.0     0.0  a·\n\
+      2    3/7       18.0     0.0  a·\n\
+      3    3/8        6.6    11.4  n\n";

const FEWER: &str = "more 3 lines, lines 2 lines, 2 differ\n\
\n-      2    3/7       18.0     0.0  a·\n\
+      2    3/8       18.0     0.0  a·\n\
-      3    3/8        6.6    11.4  n\n";

/// The fill A5 has 9 units and not 18: the line has 216,000 atoms, 71,016 less than the longest of its own ribbon. The
/// first line is as far from another longest, and does not differ.
const FILLS: &str = "lines 2 lines, fills 2 lines, 1 differs\n\
\n-      2    3/8       18.0     0.0  a·\n\
+      2    3/8       12.0     4.0  a·\n";

/// A space without S has 60,000 atoms, and means nothing.
const FIXED: &str = "fixed 2 lines, lines 2 lines, 1 differs\n\
\n-      1    4/10      15.3     2.7  n·t\n\
+      1    4/10      15.9     2.1  n t\n";

/// At 3 and 10 the space is 2 steps of 648 atoms wider than its 60,000: 277,296 atoms, 15.4053 points.
const COARSE: &str = "lines 2 lines, coarse 2 lines, 1 differs\n\
\n-      1    4/10      15.9     2.1  n t\n\
+      1    3/10      15.4     2.6  n t\n";

#[test]
fn ribbons_are_compared(rt: HostRuntime) -> Result<(), Fail> {
    let alloc = rt.alloc();
    assert!(rt; is_written(alloc, "lines", "more", MORE, false)?);
    assert!(rt; is_written(alloc, "more", "lines", FEWER, false)?);
    assert!(rt; is_written(alloc, "lines", "fills", FILLS, false)?);
    assert!(rt; is_written(alloc, "fixed", "lines", FIXED, false)?);
    assert!(rt; is_written(alloc, "lines", "coarse", COARSE, false)?);
    Ok(())
}

/// A name is shown with its control characters written out.
#[test]
fn ribbons_that_are_alike(rt: HostRuntime) -> Result<(), Fail> {
    let alloc = rt.alloc();
    let same = "lines 2 lines, \\x1b.rib 2 lines, none differs\n";
    assert!(rt; is_written(alloc, "lines", "\x1b.rib", same, true)?);
    let none = "head 0 lines, head 0 lines, none differs\n";
    assert!(rt; is_written(alloc, "head", "head", none, true)?);
    Ok(())
}

#[test]
fn ribbons_that_are_not_cast(rt: HostRuntime) -> Result<(), Fail> {
    let alloc = rt.alloc();
    let other = "two: no ribbon: row 1: two letters\n";
    assert!(rt; is_written(alloc, "lines", "two", other, false)?);
    assert!(rt; is_written(alloc, "two", "lines", other, false)?);
    let both = "open: row 0: not sent out: nothing sends out the line that this row starts\n\
two: no ribbon: row 1: two letters\n";
    assert!(rt; is_written(alloc, "open", "two", both, false)?);
    Ok(())
}

/// Why nothing is written.
fn fault_of(alloc: Global, k: u64, names: &Pair<'_>) -> Result<Option<ComparisonFault>, Fail> {
    let mut files = rooms(alloc, k)?;
    let mut written = Vec::new(alloc);
    let ended = compare_ribbons(memory(alloc), &mut written, &mut files, names);
    if ended.is_err() && !written.is_empty() {
        return Err(Fail::new("bytes before a fault"));
    }
    Ok(ended.err())
}

#[test]
fn files_that_are_not_compared(rt: HostRuntime) -> Result<(), Fail> {
    let alloc = rt.alloc();
    let one = ComparisonFault::One(FileRefusal::Missing);
    assert_eq!(rt; fault_of(alloc, 0, &pair("none", "none"))?, Some(one));
    let other = ComparisonFault::Other(FileRefusal::Missing);
    assert_eq!(rt; fault_of(alloc, 0, &pair("lines", "none"))?, Some(other));
    let broken = Pair {
        wedge: "broken",
        ..pair("feed", "lines")
    };
    let no_wedge = ComparisonFault::Input(Refusal::Wedge(1));
    assert_eq!(rt; fault_of(alloc, 0, &broken)?, Some(no_wedge));
    let names = pair("lines", "more");
    let one = ComparisonFault::One(FileRefusal::Device);
    assert_eq!(rt; fault_of(alloc, 1, &names)?, Some(one));
    let other = ComparisonFault::Other(FileRefusal::Device);
    assert_eq!(rt; fault_of(alloc, 2, &names)?, Some(other));
    for k in 3..5u64 {
        let input = ComparisonFault::Input(Refusal::FileDevice);
        assert_eq!(rt; fault_of(alloc, k, &names)?, Some(input));
    }
    Ok(())
}

#[test]
fn closed_output_of_a_comparison(rt: HostRuntime) -> Result<(), Fail> {
    let mut files = rooms(rt.alloc(), 0)?;
    let mut writer = TrialWriter::new(rt.alloc()).with_room(9, AtEnd::Fails);
    let names = pair("lines", "more");
    let ended = compare_ribbons(memory(rt.alloc()), &mut writer, &mut files, &names);
    assert_eq!(rt; ended, Err(ComparisonFault::Write));
    assert!(rt; MORE.as_bytes().starts_with(writer.written()));
    Ok(())
}

/// The bytes of the heap of the next test.
const HEAP: usize = 65_536;

/// Whether a comparison in a cut heap is out of memory, and nothing was written then.
fn is_refused(alloc: Global, cut: usize) -> Result<bool, Fail> {
    let heap = LocalHeap::new(alloc, HEAP)?;
    let kept = HEAP.saturating_sub(cut.saturating_mul(64));
    let ballast: Option<Vec<u8, &LocalHeap>> = Vec::with_capacity(&heap, kept).ok();
    let mut files = rooms(alloc, 0)?;
    let mut written = Vec::new(alloc);
    let cut_memory = Memory {
        own: &heap,
        global: alloc,
    };
    let ended = compare_ribbons(cut_memory, &mut written, &mut files, &pair("lines", "more"));
    drop(ballast);
    match ended {
        Ok(false) if written.as_slice() == MORE.as_bytes() => Ok(false),
        Err(ComparisonFault::NoMemory) if written.is_empty() => Ok(true),
        _ => Err(Fail::new("another end")),
    }
}

#[test]
fn growths_of_a_comparison_refused(rt: HostRuntime) -> Result<(), Fail> {
    let mut refused = 0u32;
    for cut in 0..256usize {
        refused = refused.saturating_add(u32::from(is_refused(rt.alloc(), cut)?));
    }
    assert!(rt; 6 <= refused && refused <= 250, "refused {refused} times");
    Ok(())
}

const WORDS: [(ComparisonFault, &str); 5] = [
    (ComparisonFault::One(FileRefusal::Missing), "file fault"),
    (ComparisonFault::Other(FileRefusal::Device), "file fault"),
    (ComparisonFault::Input(Refusal::Wedge(4)), "input refused"),
    (ComparisonFault::Write, "write fault"),
    (ComparisonFault::NoMemory, "no memory"),
];

/// Whether these are the words of a fault.
fn is_worded(alloc: Global, fault: ComparisonFault, words: &str) -> bool {
    match format!(in alloc; "{fault}") {
        Ok(reported) => reported.as_str() == words,
        Err(AllocError) => false,
    }
}

#[test]
fn names_faults_of_comparisons(rt: HostRuntime) {
    for &(fault, words) in &WORDS {
        assert!(rt; is_worded(rt.alloc(), fault, words), "{words}");
    }
}
