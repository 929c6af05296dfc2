use crate::reading::rooms::{memory, rooms};
use feed_files::FileRefusal;
use feed_files::trial::{AtEnd, TrialWriter};
use linked_list_allocator::LocalHeap;
use script_answers::{Memory, Refusal};
use std::alloc::Global;
use std::test::Fail;
use view_ribbon::{Extent, Lines, Pitch, ReadingFault, Sources, read_job};

/// At a wedge sum of 70 the space is 17 steps of 648 atoms wider than its 60,000, so the first line has 120,000, 71,016
/// and 96,000 atoms: 15.9453 points. The second has 108,000 and 216,000, and the first is 36,984 short: 2.0547 points.
const LINES: &str = "RIBBON 2 lines, 10 rows, longest 18.0 points\n\
\n  line    c/f     points   short  text\n\
\x20    1    4/10      15.9     2.1  n t\n\
\x20    2    3/8       18.0     0.0  a·\n";

/// The same by a case that has U+202E in place of the `t`.
const MARKED: &str = "RIBBON 2 lines, 10 rows, longest 18.0 points\n\
\n  line    c/f     points   short  text\n\
\x20    1    4/10      15.9     2.1  n <U+202E>\n\
\x20    2    3/8       18.0     0.0  a·\n";

/// At the sum 16 the space is 37 steps narrower than its 5,000 atoms: 18,976 less than nothing, 1.0542 points.
const SPACE: &str = "RIBBON 1 lines, 4 rows, longest -1.1 points\n\
\n  line    c/f     points   short  text\n\
\x20    1    1/1       -1.1     0.0   \n";

/// A ribbon may have no line.
const HEAD: &str = "RIBBON 0 lines, 1 rows, longest 0.0 points\n\
\n  line    c/f     points   short  text\n";

/// The sources of most of these tests.
const FROM: Sources<'static> = Sources {
    ribbon: "lines",
    case: "c",
    wedge: "w",
};

/// All lines.
const ALL: Extent = Extent::Lines(None);

/// What a reading writes, and how it ends.
#[derive(Drop)]
struct Left {
    written: Vec<u8, Global>,
    ended: Result<bool, ReadingFault>,
}

/// Reads a ribbon: where it ends with a fault nothing is written.
fn read(alloc: Global, k: u64, names: (&str, &str, &str)) -> Result<Left, Fail> {
    let (ribbon, case, wedge) = names;
    let from = Sources {
        ribbon,
        case,
        wedge,
    };
    let mut files = rooms(alloc, k)?;
    let mut written = Vec::new(alloc);
    let ended = read_job(memory(alloc), &mut written, &mut files, &from, ALL);
    if ended.is_err() && !written.is_empty() {
        return Err(Fail::new("bytes before a fault"));
    }
    Ok(Left { written, ended })
}

/// A directional mark is shown by its name.
#[test]
fn mark_of_a_case_is_read(rt: HostRuntime) -> Result<(), Fail> {
    let reading = read(rt.alloc(), 0, ("lines", "marked", "w"))?;
    assert_eq!(rt; reading.written.as_slice(), MARKED.as_bytes());
    assert_eq!(rt; reading.ended, Ok(true));
    Ok(())
}

/// Whether this is said of a ribbon by a wedge, and it is whole or not.
fn is_reported(
    alloc: Global,
    ribbon: &str,
    wedge: &str,
    text: &str,
    whole: bool,
) -> Result<bool, Fail> {
    let reading = read(alloc, 0, (ribbon, "c", wedge))?;
    Ok(reading.written.as_slice() == text.as_bytes() && reading.ended == Ok(whole))
}

#[test]
fn lines_are_reported(rt: HostRuntime) -> Result<(), Fail> {
    assert!(rt; is_reported(rt.alloc(), "lines", "w", LINES, true)?);
    assert!(rt; is_reported(rt.alloc(), "space", "small", SPACE, true)?);
    assert!(rt; is_reported(rt.alloc(), "head", "w", HEAD, true)?);
    Ok(())
}

/// Bytes that are no ribbon, and rows that are not cast.
const FAULTS: [(&str, &str); 7] = [
    ("feed", "no ribbon: it does not begin with MRB1\n"),
    ("cut", "no ribbon: it has not as many rows as it says\n"),
    ("two", "no ribbon: row 1: two letters\n"),
    ("high", "no ribbon: row 0: bit 31 is set\n"),
    (
        "alone",
        "row 1: no wedges: the caster meets it before the wedges of a line are set\n",
    ),
    (
        "blank",
        "row 1: no matrix: the case has neither a symbol, its space nor a fill there\n",
    ),
    (
        "open",
        "row 0: not sent out: nothing sends out the line that this row starts\n",
    ),
];

#[test]
fn first_fault_is_reported(rt: HostRuntime) -> Result<(), Fail> {
    for &(ribbon, line) in &FAULTS {
        assert!(rt; is_reported(rt.alloc(), ribbon, "w", line, false)?);
    }
    Ok(())
}

/// Why nothing is written.
fn fault_of(
    alloc: Global,
    k: u64,
    names: (&str, &str, &str),
) -> Result<Option<ReadingFault>, Fail> {
    let reading = read(alloc, k, names)?;
    Ok(reading.ended.err())
}

#[test]
fn files_that_are_not_read(rt: HostRuntime) -> Result<(), Fail> {
    let missing = ReadingFault::Ribbon(FileRefusal::Missing);
    assert_eq!(rt; fault_of(rt.alloc(), 0, ("none", "c", "w"))?, Some(missing));
    let no_case = ReadingFault::Input(Refusal::FileMissing);
    assert_eq!(rt; fault_of(rt.alloc(), 0, ("feed", "d", "w"))?, Some(no_case));
    let no_wedge = ReadingFault::Input(Refusal::Wedge(1));
    assert_eq!(rt;
        fault_of(rt.alloc(), 0, ("lines", "c", "broken"))?,
        Some(no_wedge)
    );
    let device = ReadingFault::Ribbon(FileRefusal::Device);
    assert_eq!(rt; fault_of(rt.alloc(), 1, ("lines", "c", "w"))?, Some(device));
    for k in 2..4u64 {
        let input = ReadingFault::Input(Refusal::FileDevice);
        assert_eq!(rt; fault_of(rt.alloc(), k, ("lines", "c", "w"))?, Some(input));
    }
    Ok(())
}

#[test]
fn closed_output_of_a_reading(rt: HostRuntime) -> Result<(), Fail> {
    let mut files = rooms(rt.alloc(), 0)?;
    let mut writer = TrialWriter::new(rt.alloc()).with_room(9, AtEnd::Fails);
    let ended = read_job(memory(rt.alloc()), &mut writer, &mut files, &FROM, ALL);
    assert_eq!(rt; ended, Err(ReadingFault::Write));
    assert!(rt; LINES.as_bytes().starts_with(writer.written()));
    Ok(())
}

/// The bytes of the heap of the next test.
const HEAP: usize = 65_536;

/// Whether a reading in a cut heap is out of memory, and nothing was written then; else it writes this.
fn is_refused(alloc: Global, cut: usize, extent: Extent, text: &str) -> Result<bool, Fail> {
    let heap = LocalHeap::new(alloc, HEAP)?;
    let kept = HEAP.saturating_sub(cut.saturating_mul(64));
    let ballast: Option<Vec<u8, &LocalHeap>> = Vec::with_capacity(&heap, kept).ok();
    let mut files = rooms(alloc, 0)?;
    let mut written = Vec::new(alloc);
    let cut_memory = Memory {
        own: &heap,
        global: alloc,
    };
    let ended = read_job(cut_memory, &mut written, &mut files, &FROM, extent);
    drop(ballast);
    match ended {
        Ok(true) if written.as_slice() == text.as_bytes() => Ok(false),
        Err(ReadingFault::NoMemory) if written.is_empty() => Ok(true),
        _ => Err(Fail::new("another end")),
    }
}

/// How often such a reading is refused.
fn refusals(alloc: Global, extent: Extent, text: &str) -> Result<u32, Fail> {
    let mut refused = 0u32;
    for cut in 0..256usize {
        refused = refused.saturating_add(u32::from(is_refused(alloc, cut, extent, text)?));
    }
    Ok(refused)
}

#[test]
fn growths_of_a_reading_refused(rt: HostRuntime) -> Result<(), Fail> {
    let refused = refusals(rt.alloc(), ALL, LINES)?;
    assert!(rt; 6 <= refused && refused <= 250, "refused {refused} times");
    let figures = refusals(rt.alloc(), Extent::Figures(EIGHTH), FIGURES)?;
    assert!(rt; 6 <= figures && figures <= 250, "refused {figures} times");
    Ok(())
}

/// The head of the lines.
const LINES_HEAD: &str = "RIBBON 2 lines, 10 rows, longest 18.0 points\n\
\n  line    c/f     points   short  text\n";

const LINE_ONE: &str = "     1    4/10      15.9     2.1  n t\n";

const LINE_TWO: &str = "     2    3/8       18.0     0.0  a·\n";

/// Whether the reading of a ribbon as far as this has the first of these texts and then the others.
fn is_read(alloc: Global, ribbon: &str, extent: Extent, parts: &[&str]) -> Result<bool, Fail> {
    let mut files = rooms(alloc, 0)?;
    let mut written = Vec::new(alloc);
    let from = Sources { ribbon, ..FROM };
    let ended = read_job(memory(alloc), &mut written, &mut files, &from, extent);
    let mut wanted = Vec::new(alloc);
    for part in parts {
        wanted.extend_from_slice(part.as_bytes())?;
    }
    Ok(ended == Ok(true) && written == wanted)
}

/// The lines from one to another.
fn lines(first: u64, last: u64) -> Extent {
    Extent::Lines(Some(Lines { first, last }))
}

/// Lines that a ribbon lacks are left out, and each other is as in the whole.
#[test]
fn some_lines_are_read(rt: HostRuntime) -> Result<(), Fail> {
    let alloc = rt.alloc();
    assert!(rt; is_read(alloc, "lines", lines(1, 1), &[LINES_HEAD, LINE_ONE])?);
    assert!(rt; is_read(alloc, "lines", lines(2, 2), &[LINES_HEAD, LINE_TWO])?);
    assert!(rt;
        is_read(
            alloc,
            "lines",
            lines(1, 2),
            &[LINES_HEAD, LINE_ONE, LINE_TWO]
        )?
    );
    assert!(rt; is_read(alloc, "lines", lines(2, 1 << 40), &[LINES_HEAD, LINE_TWO])?);
    assert!(rt; is_read(alloc, "lines", lines(3, 4), &[LINES_HEAD])?);
    Ok(())
}

/// The head of two ribbons of these lines with one without lines between them.
const THREE_HEAD: &str = "RIBBON 4 lines, 21 rows, longest 18.0 points\n\
\n  line    c/f     points   short  text\n";

/// The head of one behind one without lines.
const SECOND_HEAD: &str = "RIBBON 2 lines, 11 rows, longest 18.0 points\n\
\n  line    c/f     points   short  text\n";

const MARK_ONE: &str = "  -- end of galley 1 --\n";

const MARK_TWO: &str = "  -- end of galley 2 --\n";

const LINE_THREE: &str = "     3    4/10      15.9     2.1  n t\n";

const LINE_FOUR: &str = "     4    3/8       18.0     0.0  a·\n";

/// A mark goes with the line before it, or with the first.
#[test]
fn marks_ends_of_galleys(rt: HostRuntime) -> Result<(), Fail> {
    let alloc = rt.alloc();
    let all = [
        THREE_HEAD, LINE_ONE, LINE_TWO, MARK_ONE, MARK_TWO, LINE_THREE, LINE_FOUR,
    ];
    assert!(rt; is_read(alloc, "three", ALL, &all)?);
    let two = [THREE_HEAD, LINE_TWO, MARK_ONE, MARK_TWO];
    assert!(rt; is_read(alloc, "three", lines(2, 2), &two)?);
    assert!(rt; is_read(alloc, "three", lines(3, 3), &[THREE_HEAD, LINE_THREE])?);
    let second = [SECOND_HEAD, MARK_ONE, LINE_ONE, LINE_TWO];
    assert!(rt; is_read(alloc, "second", ALL, &second)?);
    assert!(rt;
        is_read(
            alloc,
            "second",
            lines(1, 1),
            &[SECOND_HEAD, MARK_ONE, LINE_ONE]
        )?
    );
    assert!(rt; is_read(alloc, "second", lines(2, 2), &[SECOND_HEAD, LINE_TWO])?);
    Ok(())
}

/// An eighth of an inch.
const EIGHTH: Pitch = Pitch { over: 1, under: 8 };

/// The sums are 70 and 53. The matrices are A8, G1, A4, B5 and O15, of which the last means nothing; ten rows of an
/// eighth are 1.25 inches.
const FIGURES: &str = "RIBBON 2 lines, 10 rows, longest 18.0 points\n\
\nwidest    line 2, 18.0 points\n\
tightest  line 2, wedge sum 53\n\
length    1.3 inches, 1/8 inch a row\n\
matrices  5\n\
blank     1\n\
\n  row  matrices\n\
\x20   1         1\n\
\x20   2         0\n\
\x20   3         0\n\
\x20   4         1\n\
\x20   5         1\n\
\x20   6         0\n\
\x20   7         0\n\
\x20   8         1\n\
\x20   9         0\n\
\x20  10         0\n\
\x20  11         0\n\
\x20  12         0\n\
\x20  13         0\n\
\x20  14         0\n\
\x20  15         1\n";

/// Two lines of nine units each, 108,000 atoms, at the sum 53; seven rows of 1/10 inch are just 0.7.
const TWINS: &str = "RIBBON 2 lines, 7 rows, longest 6.0 points\n\
\nwidest    line 1, 6.0 points\n\
tightest  line 1, wedge sum 53\n\
length    0.7 inches, 1/10 inch a row\n\
matrices  2\n\
blank     0\n\
\n  row  matrices\n\
\x20   1         0\n\
\x20   2         0\n\
\x20   3         0\n\
\x20   4         0\n\
\x20   5         2\n";

/// A ribbon without lines; 1 row of 65535 inches.
const NO_LINES: &str = "RIBBON 0 lines, 1 rows, longest 0.0 points\n\
\nwidest    none\n\
tightest  none\n\
length    65535.0 inches, 65535/1 inch a row\n\
matrices  0\n\
blank     0\n\
\n  row  matrices\n\
\x20   1         0\n\
\x20   2         0\n\
\x20   3         0\n\
\x20   4         0\n\
\x20   5         0\n";

/// How the tables of the last two end.
const NO_ROWS: &str = "    6         0\n\
\x20   7         0\n\
\x20   8         0\n\
\x20   9         0\n\
\x20  10         0\n\
\x20  11         0\n\
\x20  12         0\n\
\x20  13         0\n\
\x20  14         0\n\
\x20  15         0\n";

/// The figures by this way of a row.
fn figures(over: u16, under: u16) -> Extent {
    Extent::Figures(Pitch { over, under })
}

#[test]
fn figures_are_read(rt: HostRuntime) -> Result<(), Fail> {
    let alloc = rt.alloc();
    assert!(rt; is_read(alloc, "lines", Extent::Figures(EIGHTH), &[FIGURES])?);
    assert!(rt; is_read(alloc, "twins", figures(1, 10), &[TWINS, NO_ROWS])?);
    assert!(rt; is_read(alloc, "head", figures(65535, 1), &[NO_LINES, NO_ROWS])?);
    Ok(())
}

/// Where a ribbon is not cast, its fault is written whatever is asked for.
#[test]
fn fault_in_place_of_figures(rt: HostRuntime) -> Result<(), Fail> {
    let mut files = rooms(rt.alloc(), 0)?;
    let mut written = Vec::new(rt.alloc());
    let from = Sources {
        ribbon: "two",
        ..FROM
    };
    let ended = read_job(
        memory(rt.alloc()),
        &mut written,
        &mut files,
        &from,
        figures(1, 8),
    );
    assert_eq!(rt; ended, Ok(false));
    assert_eq!(rt;
        written.as_slice(),
        b"no ribbon: row 1: two letters\n".as_slice()
    );
    Ok(())
}
