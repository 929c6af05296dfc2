ghost use Rattle.std.specs.Prelude.{◌≤◌};

use crate::job::cases::{FILLS, WEDGE, ballast, case_with, wedge_of};
use crate::job::jobs::TWO_LINES;
use crate::words::is_worded;
use desk_case::MatrixCase;
use desk_caster::{CastFault, CastLine, CastMatrix, RibbonFault, cast, read_ribbon};
use desk_image::{BadImage, Image};
use desk_signals::{Column, Position, RibbonRow, RowNo};
use desk_wedge::Wedge;
use linked_list_allocator::LocalHeap;
use std::alloc::{AllocError, Allocator, Global};
use std::fmt::Write;
use std::test::Fail;

fn cell(column: Column, row: u8, s: bool) -> RibbonRow
    requires low { 1 ≤ row }
    requires high { row ≤ 15 }
{
    let row = RowNo::new(row).unwrap();
    RibbonRow::Cell { column, row, s }
}

fn coarse(number: u8) -> RibbonRow
    requires low { 1 ≤ number }
    requires high { number ≤ 15 }
{
    RibbonRow::Coarse(Position::new(number).unwrap())
}

fn fine(number: u8) -> RibbonRow
    requires low { 1 ≤ number }
    requires high { number ≤ 15 }
{
    RibbonRow::FineOut(Position::new(number).unwrap())
}

/// The rows of an empty paragraph: the head row, the added space, nine fills of O15 and one of A5, and the wedges.
fn empty_paragraph(alloc: Global) -> Result<Vec<RibbonRow>, Fail> {
    let mut rows = Vec::new(alloc);
    rows.push(fine(8))?;
    rows.push(cell(Column::G, 1, true))?;
    for _ in 0..9u32 {
        rows.push(cell(Column::O, 15, false))?;
    }
    rows.push(cell(Column::A, 5, false))?;
    rows.push(coarse(8))?;
    rows.push(fine(7))?;
    Ok(rows)
}

/// Adds a matrix to lines as text: its symbol, or `_`, or of a justified space the width.
fn show_matrix(text: &mut String, matrix: &CastMatrix) -> Result<(), Fail> {
    match matrix.symbol {
        Some(symbol) => text.push(symbol.ch)?,
        None if matrix.s => write!(text, "({})", matrix.width.get())?,
        None => text.push('_')?,
    }
    Ok(())
}

/// Adds a line to lines as text: its positions, its total, each matrix, and a semicolon.
fn show_line<A: Allocator>(text: &mut String, line: &CastLine<A>) -> Result<(), Fail> {
    let (coarse, fine) = (line.coarse().get(), line.fine().get());
    write!(text, "{coarse}/{fine} {} ", line.total().get())?;
    for matrix in line.matrices() {
        show_matrix(text, matrix)?;
    }
    text.push(';')?;
    Ok(())
}

/// Lines as text.
fn shown<A: Allocator>(alloc: Global, lines: &[CastLine<A>]) -> Result<String, Fail> {
    let mut text = String::new(alloc);
    for line in lines {
        show_line(&mut text, line)?;
    }
    Ok(text)
}

/// What the caster makes of rows: lines as text, or its fault.
#[derive(Drop)]
enum Answer {
    Lines(String),
    Fault(CastFault),
}

/// What the caster makes of rows, in a heap.
fn cast_in<A: Allocator + Copy>(
    alloc: Global,
    heap: A,
    rows: &[RibbonRow],
) -> Result<Answer, Fail> {
    if rows.len() > 100 {
        return Err(Fail::new("more rows than a test has"));
    }
    let wedge = wedge_of(alloc, WEDGE)?;
    let case = case_with(alloc, FILLS)?;
    match cast(heap, rows, &case, &wedge) {
        Ok(lines) => Ok(Answer::Lines(shown(alloc, &lines)?)),
        Err(fault) => Ok(Answer::Fault(fault)),
    }
}

fn is_as(answer: &Answer, want: Result<&str, CastFault>) -> bool {
    match (answer, want) {
        (Answer::Lines(text), Ok(want)) => text.as_str() == want,
        (Answer::Fault(fault), Err(want)) => *fault == want,
        _ => false,
    }
}

/// Whether the cast asked for memory where a heap has so much left, or none where its answer is another than the wanted
/// one, then or with memory.
fn is_refused(
    alloc: Global,
    rows: &[RibbonRow],
    want: Result<&str, CastFault>,
    cut: usize,
) -> Result<Option<bool>, Fail> {
    let heap = LocalHeap::new(alloc, 8192)?;
    let ballast = ballast(&heap, 8192, cut);
    let first = cast_in(alloc, &heap, rows)?;
    drop(ballast);
    let refused = is_as(&first, Err(CastFault::NoMemory));
    let right = refused || is_as(&first, want);
    Ok(if right && is_as(&cast_in(alloc, &heap, rows)?, want) {
        Some(refused)
    } else {
        None
    })
}

/// Of rows whose cast has each growth refused in turn: how often it asked for memory, and how often not. Its other
/// answers are the wanted one, and so is the answer with memory.
fn refusals(
    alloc: Global,
    rows: &[RibbonRow],
    want: Result<&str, CastFault>,
) -> Result<(u32, u32), Fail> {
    let mut refused = 0u32;
    let mut others = 0u32;
    for cut in 0..256usize {
        match is_refused(alloc, rows, want, cut)? {
            Some(true) => refused = refused.saturating_add(1),
            Some(false) => others = others.saturating_add(1),
            None => return Err(Fail::new("another answer, then or with memory")),
        }
    }
    Ok((refused, others))
}

#[test]
fn faults_of_rows(rt: HostRuntime) -> Result<(), Fail> {
    let (head, n) = (fine(8), cell(Column::A, 8, false));
    let cases: [(&[RibbonRow], Result<&str, CastFault>); 6] = [
        (&[head], Ok("")),
        (&[], Ok("")),
        (&[coarse(6), fine(9)], Err(CastFault::NotSentOut(0))),
        (
            &[head, coarse(3), coarse(3), head],
            Err(CastFault::NotSentOut(2)),
        ),
        (&[head, n, head], Err(CastFault::NoWedges(1))),
        (
            &[head, cell(Column::B, 1, false), coarse(3), head],
            Err(CastFault::NoMatrix(1)),
        ),
    ];
    for (rows, want) in cases {
        assert!(rt;
            is_as(&cast_in(rt.alloc(), rt.alloc(), rows)?, want),
            "{want:?}"
        );
    }
    Ok(())
}

const EMPTY_PARAGRAPH: &str = "8/7 2159952 (107952)__________;";

#[test]
fn empty_paragraph_ribbon(rt: HostRuntime) -> Result<(), Fail> {
    let rows = empty_paragraph(rt.alloc())?;
    let answer = cast_in(rt.alloc(), rt.alloc(), &rows)?;
    assert!(rt; is_as(&answer, Ok(EMPTY_PARAGRAPH)));
    Ok(())
}

/// Characters come back in reading order, and each growth of `cast` refused in turn is out of memory.
#[test]
fn growths_of_cast(rt: HostRuntime) -> Result<(), Fail> {
    let (n, space) = (cell(Column::A, 8, false), cell(Column::G, 1, true));
    let one = [
        fine(8),
        n,
        space,
        cell(Column::C, 5, false),
        coarse(3),
        fine(8),
    ];
    let six = [
        fine(8),
        n,
        n,
        n,
        n,
        n,
        n,
        n,
        space,
        coarse(1),
        fine(9),
        space,
        coarse(2),
        fine(9),
        space,
        coarse(3),
        fine(9),
        space,
        coarse(4),
        fine(9),
        space,
        coarse(5),
        fine(9),
        space,
        coarse(6),
        fine(9),
    ];
    let lines =
        "1/9 881208 nnnnnnn(41208);2/9 50928 (50928);3/9 60648 (60648);4/9 70368 (70368);5/9 80088 (80088);6/9 89808 (89808);";
    let bad = [cell(Column::B, 1, false), n, coarse(3), fine(8)];
    let cases: [(&[RibbonRow], Result<&str, CastFault>); 3] = [
        (&one, Ok("3/8 288000 n(60000)a;")),
        (&six, Ok(lines)),
        (&bad, Err(CastFault::NoMatrix(0))),
    ];
    for (rows, want) in cases {
        let (refused, others) = refusals(rt.alloc(), rows, want)?;
        assert!(rt;
            refused > 1 && others > 9,
            "{want:?} refused {refused} times"
        );
    }
    Ok(())
}

/// The bytes of an empty paragraph's ribbon.
const RIBBON: [u8; 64] = [
    0x4d, 0x52, 0x42, 0x31, 0, 0, 0, 14, 0, 0, 2, 6, 1, 1, 0, 1, 0, 0, 0, 0, 0, 0, 0, 0, 0, 0, 0,
    0, 0, 0, 0, 0, 0, 0, 0, 0, 0, 0, 0, 0, 0, 0, 0, 0, 0, 0, 0, 0, 0, 0, 0, 0, 0x40, 0, 0x10, 0, 0,
    0, 2, 2, 0, 0, 4, 6,
];

/// The same, which says one row fewer, without its last one.
const FEWER: [u8; 60] = [
    0x4d, 0x52, 0x42, 0x31, 0, 0, 0, 13, 0, 0, 2, 6, 1, 1, 0, 1, 0, 0, 0, 0, 0, 0, 0, 0, 0, 0, 0,
    0, 0, 0, 0, 0, 0, 0, 0, 0, 0, 0, 0, 0, 0, 0, 0, 0, 0, 0, 0, 0, 0, 0, 0, 0, 0x40, 0, 0x10, 0, 0,
    0, 2, 2,
];

/// Whether reading bytes in a heap answers these rows, or this fault.
fn is_read_as<A: Allocator>(
    heap: A,
    bytes: &[u8],
    want: Result<&[RibbonRow], RibbonFault>,
) -> bool {
    match (read_ribbon(heap, bytes), want) {
        (Ok(rows), Ok(want)) => rows.as_slice() == want,
        (Err(fault), Err(want)) => fault == want,
        _ => false,
    }
}

/// Bytes that are no ribbon, and why.
const NO_RIBBONS: [(&[u8], RibbonFault); 6] = [
    (b"MR", RibbonFault::Magic),
    (b"MRB2\0\0\0\0", RibbonFault::Magic),
    (b"MRB1", RibbonFault::Count),
    (b"MRB1\0\0\0\x01", RibbonFault::Count),
    (b"MRB1\0\0\0\0\0", RibbonFault::Count),
    (
        b"MRB1\0\0\0\x01\x80\0\0\0",
        RibbonFault::Row(0, BadImage::HighBit),
    ),
];

#[test]
fn ribbons_are_read(rt: HostRuntime) -> Result<(), Fail> {
    let rows = empty_paragraph(rt.alloc())?;
    assert!(rt; is_read_as(rt.alloc(), &RIBBON, Ok(&rows)));
    assert!(rt; is_read_as(rt.alloc(), &RIBBON[..60], Err(RibbonFault::Count)));
    for &(bytes, why) in &NO_RIBBONS {
        assert!(rt; is_read_as(rt.alloc(), bytes, Err(why)), "{bytes:?}");
    }
    Ok(())
}

/// A ribbon without its last row, which says so: the row before it meets no wedges.
#[test]
fn damaged_ribbon(rt: HostRuntime) -> Result<(), Fail> {
    let rows = read_ribbon(rt.alloc(), &FEWER)?;
    let answer = cast_in(rt.alloc(), rt.alloc(), &rows)?;
    assert!(rt; is_as(&answer, Err(CastFault::NoWedges(12))));
    Ok(())
}

/// Bytes with one bit changed, counted from the highest bit of the first byte.
fn with_bit_changed(alloc: Global, bytes: &[u8], bit: usize) -> Result<Vec<u8>, AllocError> {
    let mut changed = Vec::new(alloc);
    for (place, byte) in bytes.iter().enumerate() {
        let change = if place == bit / 8 {
            128u8 >> (bit % 8)
        } else {
            0
        };
        changed.push(*byte ^ change)?;
    }
    Ok(changed)
}

/// Whether rows have these words as their images, of four bytes each.
fn have_images(rows: &[RibbonRow], words: &[u8]) -> bool {
    let mut rest = words;
    for row in rows {
        let Some((word, after)) = rest.split_first_chunk::<4>() else {
            return false;
        };
        if Image::of_row(*row).bits() != u32::from_be_bytes(*word) {
            return false;
        }
        rest = after;
    }
    rest.is_empty()
}

/// How a ribbon with one bit changed was answered.
#[derive(Clone, Copy)]
enum Reported {
    /// Its first eight bytes were refused.
    Start,
    /// The row of the bit was refused.
    Row,
    /// Its rows were cast.
    Cast,
    /// Its rows were refused by the caster.
    Uncast,
}

/// What is reported of rows whose images are to be these words: nothing where they are others, or the caster asks for
/// memory.
fn reported_of_rows(
    alloc: Global,
    rows: &[RibbonRow],
    words: &[u8],
    case: &MatrixCase,
    wedge: &Wedge,
) -> Option<Reported> {
    if rows.len() > 100 || !have_images(rows, words) {
        return None;
    }
    match cast(alloc, rows, case, wedge) {
        Ok(_) => Some(Reported::Cast),
        Err(CastFault::NoMemory) => None,
        Err(_) => Some(Reported::Uncast),
    }
}

/// Whether the fault is that of a changed bit of the first eight bytes, or of the row in which the bit is.
fn is_fault_of(fault: RibbonFault, bit: usize) -> bool {
    match fault {
        RibbonFault::Magic => bit < 32,
        RibbonFault::Count => 32 <= bit && bit < 64,
        RibbonFault::Row(row, why) => {
            bit / 32 == (row as usize).saturating_add(2)
                && (why == BadImage::HighBit) == (bit % 32 == 0)
        }
        RibbonFault::NoMemory => false,
    }
}

/// What is reported of a ribbon in which this bit is changed, where that is right.
fn reported_of(
    alloc: Global,
    changed: &[u8],
    bit: usize,
    case: &MatrixCase,
    wedge: &Wedge,
) -> Option<Reported> {
    let [_, _, _, _, _, _, _, _, words @ ..] = changed else {
        return None;
    };
    match read_ribbon(alloc, changed) {
        Ok(rows) if bit < 64 => None,
        Ok(rows) => reported_of_rows(alloc, &rows, words, case, wedge),
        Err(fault) if !is_fault_of(fault, bit) => None,
        Err(RibbonFault::Row(_, _)) => Some(Reported::Row),
        Err(_) => Some(Reported::Start),
    }
}

/// Of a ribbon of which each bit is changed in turn: how many changes its start refused, its rows, and the caster, and
/// how many were cast.
fn tally_of_bits(alloc: Global, bytes: &[u8]) -> Result<[u32; 4], Fail> {
    let wedge = wedge_of(alloc, WEDGE)?;
    let case = case_with(alloc, FILLS)?;
    let mut tally = [0u32; 4];
    for bit in 0..bytes.len().saturating_mul(8) {
        let changed = with_bit_changed(alloc, bytes, bit)?;
        let reported = reported_of(alloc, &changed, bit, &case, &wedge);
        let Some(reported) = reported else {
            return Err(Fail::new("another answer"));
        };
        let place = reported as usize;
        tally[place] = tally[place].saturating_add(1);
    }
    Ok(tally)
}

/// Each bit of a ribbon changed in turn: of the empty paragraph's, and of that of two lines. A bit of `MRB1` and one of
/// the number of rows are refused as such, and any other is refused in its own row, or read as the row that it spells.
/// How many are refused and how many cast is as the independent caster counts them.
#[test]
fn each_bit_of_a_ribbon(rt: HostRuntime) -> Result<(), Fail> {
    let empty = tally_of_bits(rt.alloc(), &RIBBON)?;
    assert!(rt; empty == [64, 165, 33, 250], "{empty:?}");
    let two = tally_of_bits(rt.alloc(), &TWO_LINES)?;
    assert!(rt; two == [64, 831, 70, 251], "{two:?}");
    Ok(())
}

/// Whether reading asked for memory where a heap has so much left, or none where its answer is another than the wanted
/// one, then or with memory.
fn is_reading_refused(
    alloc: Global,
    bytes: &[u8],
    want: Result<&[RibbonRow], RibbonFault>,
    cut: usize,
) -> Result<Option<bool>, AllocError> {
    let heap = LocalHeap::new(alloc, 4096)?;
    let ballast = ballast(&heap, 4096, cut);
    let refused = is_read_as(&heap, bytes, Err(RibbonFault::NoMemory));
    let right = refused || is_read_as(&heap, bytes, want);
    drop(ballast);
    Ok(if right && is_read_as(&heap, bytes, want) {
        Some(refused)
    } else {
        None
    })
}

/// How often reading asked for memory, of 64 heaps that have ever more left. Its other answers are the wanted one.
fn refusals_of_reading(
    alloc: Global,
    bytes: &[u8],
    want: Result<&[RibbonRow], RibbonFault>,
) -> Result<u32, Fail> {
    let mut refused = 0u32;
    for cut in 0..64usize {
        match is_reading_refused(alloc, bytes, want, cut)? {
            Some(reported) => refused = refused.saturating_add(u32::from(reported)),
            None => return Err(Fail::new("another answer, then or with memory")),
        }
    }
    Ok(refused)
}

/// Each growth of reading refused in turn is out of memory, also of a ribbon whose second row has no meaning; with
/// memory the answer is the same.
#[test]
fn refused_growths_of_reading(rt: HostRuntime) -> Result<(), Fail> {
    let rows = empty_paragraph(rt.alloc())?;
    let bad = b"MRB1\0\0\0\x02\0\0\x02\x06\x80\0\0\0";
    let cases: [(&[u8], Result<&[RibbonRow], RibbonFault>); 2] = [
        (&RIBBON, Ok(&rows)),
        (bad, Err(RibbonFault::Row(1, BadImage::HighBit))),
    ];
    for (bytes, want) in cases {
        let refused = refusals_of_reading(rt.alloc(), bytes, want)?;
        assert!(rt; refused > 0 && refused < 60, "refused {refused} times");
    }
    Ok(())
}

const CAST_WORDS: [(CastFault, &str); 4] = [
    (
        CastFault::NoWedges(3),
        "row 3 needs wedges that are not set",
    ),
    (
        CastFault::NoMatrix(3),
        "row 3: the case has no matrix there",
    ),
    (
        CastFault::NotSentOut(3),
        "the line that row 3 started was not sent out",
    ),
    (CastFault::NoMemory, "no memory"),
];

const RIBBON_WORDS: [(RibbonFault, &str); 4] = [
    (RibbonFault::Magic, "no ribbon begins so"),
    (
        RibbonFault::Count,
        "the ribbon has not as many rows as it says",
    ),
    (
        RibbonFault::Row(3, BadImage::HighBit),
        "row 3: bit 31 is set",
    ),
    (RibbonFault::NoMemory, "no memory"),
];

#[test]
fn names_its_faults(rt: HostRuntime) {
    for &(fault, words) in &CAST_WORDS {
        assert!(rt; is_worded(rt.alloc(), &fault, words), "{words}");
    }
    for &(fault, words) in &RIBBON_WORDS {
        assert!(rt; is_worded(rt.alloc(), &fault, words), "{words}");
    }
}
