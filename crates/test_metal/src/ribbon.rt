ghost use Rattle.std.specs.Prelude.{◌≡◌, ◌+◌, ◌*◌, ◌≤◌, ◌<◌, ◌^◌, IfOk, length};
ghost use Rattle.std.specs.List.{flat_map};
ghost use Rattle.desk_ribbon.specs.Ribbon.{line_rows, ribbon_rows};

use desk_memory::NoMemory;
use desk_ribbon::{Punch, PunchLine, Punches, RibbonWriter, write_ribbon};
use desk_signals::{Cell, Column, Position, RowNo};
use linked_list_allocator::LocalHeap;
use std::alloc::{AllocError, Global};
use std::test::Fail;

fn punch(column: Column, row: u8, s: bool) -> Punch
    requires low { 1 ≤ row }
    requires high { row ≤ 15 }
{
    let row = RowNo::new(row).unwrap();
    Punch {
        cell: Cell { column, row },
        s,
    }
}

/// The line of an empty paragraph: a space, nine fills at O15, one at A5, Coarse(8) and FineOut(7).
fn empty_paragraph(alloc: Global) -> Result<PunchLine<Global>, Fail>
    ensures { IfOk result (λ line. length line.matrices ≡ 11) }
{
    let space = punch(Column::G, 1, true);
    let wide = punch(Column::O, 15, false);
    let narrow = punch(Column::A, 5, false);
    let all = [
        space, wide, wide, wide, wide, wide, wide, wide, wide, wide, narrow,
    ];
    Ok(PunchLine {
        matrices: Punches::from_vec(Vec::from_array(alloc, all)?),
        coarse: Position::new(8).unwrap(),
        fine: Position::new(7).unwrap(),
    })
}

const EMPTY_COPY: [u8; 12] = [0x4d, 0x52, 0x42, 0x31, 0, 0, 0, 1, 0, 0, 2, 6];

const EMPTY_PARAGRAPH: [u8; 64] = [
    0x4d, 0x52, 0x42, 0x31, 0, 0, 0, 14, 0, 0, 2, 6, 1, 1, 0, 1, 0, 0, 0, 0, 0, 0, 0, 0, 0, 0, 0,
    0, 0, 0, 0, 0, 0, 0, 0, 0, 0, 0, 0, 0, 0, 0, 0, 0, 0, 0, 0, 0, 0, 0, 0, 0, 0x40, 0, 0x10, 0, 0,
    0, 2, 2, 0, 0, 4, 6,
];

#[test]
fn empty_copy_ribbon(rt: HostRuntime) -> Result<(), Fail> {
    let lines: [PunchLine<Global>; 0] = [];
    assert!(rt; write_ribbon(rt.alloc(), &lines)?.as_slice() == EMPTY_COPY.as_slice());
    let writer = RibbonWriter::new(rt.alloc());
    assert!(rt; writer.finish()?.as_slice() == EMPTY_COPY.as_slice());
    Ok(())
}

#[test]
fn empty_paragraph_ribbon(rt: HostRuntime) -> Result<(), Fail> {
    let line = empty_paragraph(rt.alloc())?;
    let mut writer = RibbonWriter::new(rt.alloc());
    writer.push(&line)?;
    for _ in 0..2u32 {
        assert!(rt; writer.finish()?.as_slice() == EMPTY_PARAGRAPH.as_slice());
    }
    assert!(rt; write_ribbon(rt.alloc(), &[line])?.as_slice() == EMPTY_PARAGRAPH.as_slice());
    Ok(())
}

/// The word of a matrix in NI8: the head row, NI8, the space with S, nine fills of O15, and the wedges at 7 and 3.
const WIDE_WORD: [u8; 64] = [
    0x4d, 0x52, 0x42, 0x31, 0, 0, 0, 14, 0, 0, 2, 6, 0, 0x42, 2, 0, 1, 1, 0, 1, 0, 0, 0, 0, 0, 0,
    0, 0, 0, 0, 0, 0, 0, 0, 0, 0, 0, 0, 0, 0, 0, 0, 0, 0, 0, 0, 0, 0, 0, 0, 0, 0, 0, 0, 0, 0, 0, 0,
    4, 2, 0, 0, 0x40, 6,
];

#[test]
fn wide_word_ribbon(rt: HostRuntime) -> Result<(), Fail> {
    let word = punch(Column::NI, 8, false);
    let space = punch(Column::G, 1, true);
    let fill = punch(Column::O, 15, false);
    let all = [
        word, space, fill, fill, fill, fill, fill, fill, fill, fill, fill,
    ];
    let line = PunchLine {
        matrices: Punches::from_vec(Vec::from_array(rt.alloc(), all)?),
        coarse: Position::new(7).unwrap(),
        fine: Position::new(3).unwrap(),
    };
    let mut writer = RibbonWriter::new(rt.alloc());
    writer.push(&line)?;
    assert!(rt; writer.finish()?.as_slice() == WIDE_WORD.as_slice());
    Ok(())
}

/// The ribbon of two empty paragraphs.
const TWO_PARAGRAPHS: [u8; 116] = [
    0x4d, 0x52, 0x42, 0x31, 0, 0, 0, 27, 0, 0, 2, 6, 1, 1, 0, 1, 0, 0, 0, 0, 0, 0, 0, 0, 0, 0, 0,
    0, 0, 0, 0, 0, 0, 0, 0, 0, 0, 0, 0, 0, 0, 0, 0, 0, 0, 0, 0, 0, 0, 0, 0, 0, 0x40, 0, 0x10, 0, 0,
    0, 2, 2, 0, 0, 4, 6, 1, 1, 0, 1, 0, 0, 0, 0, 0, 0, 0, 0, 0, 0, 0, 0, 0, 0, 0, 0, 0, 0, 0, 0, 0,
    0, 0, 0, 0, 0, 0, 0, 0, 0, 0, 0, 0, 0, 0, 0, 0x40, 0, 0x10, 0, 0, 0, 2, 2, 0, 0, 4, 6,
];

/// The ribbon of no line, of an empty paragraph, or of two.
fn paragraphs(number: usize) -> &'static [u8] {
    match number {
        0 => &EMPTY_COPY,
        1 => &EMPTY_PARAGRAPH,
        _ => &TWO_PARAGRAPHS,
    }
}

/// Takes what a heap of 1024 bytes has left, but for so many times 16.
fn ballast(heap: &LocalHeap, cut: usize) -> Option<Vec<u8, &LocalHeap>> {
    let left = 1024usize.saturating_sub(heap.used());
    Vec::with_capacity(heap, left.saturating_sub(cut.saturating_mul(16))).ok()
}

/// Whether `push` after so many lines, or else `finish` after it, is out of memory in a cut heap: the writer is as it
/// was, and with memory it goes on.
fn is_writer_refused(alloc: Global, before: usize, cut: usize) -> Result<(bool, bool), Fail> {
    let line = empty_paragraph(alloc)?;
    let heap = LocalHeap::new(alloc, 1024)?;
    let mut writer = RibbonWriter::new(&heap);
    if before == 1 {
        writer.push(&line)?;
    }
    let ballast = ballast(&heap, cut);
    let pushed = writer.push(&line);
    let finished = pushed.is_ok() && writer.finish().is_ok();
    drop(ballast);
    let lines = before.saturating_add(usize::from(pushed.is_ok()));
    if writer.finish()?.as_slice() != paragraphs(lines) {
        return Err(Fail::new("another ribbon"));
    }
    if pushed.is_err() {
        writer.push(&line)?;
    }
    if writer.finish()?.as_slice() != paragraphs(before.saturating_add(1)) {
        return Err(Fail::new("another ribbon with memory"));
    }
    Ok((pushed.is_err(), pushed.is_ok() && !finished))
}

/// Each growth of `push` and `finish` refused in turn, of the first line and of the second.
#[test]
fn growths_refused(rt: HostRuntime) -> Result<(), Fail> {
    for before in [0usize, 1] {
        let mut pushes = 0u8;
        let mut finishes = 0u8;
        for cut in 0..48usize {
            let (push, finish) = is_writer_refused(rt.alloc(), before, cut)?;
            pushes = pushes.saturating_add(u8::from(push));
            finishes = finishes.saturating_add(u8::from(finish));
        }
        assert!(rt;
            pushes > 0 && finishes > 0 && pushes < 40,
            "{before} lines before"
        );
    }
    Ok(())
}

/// Whether `write_ribbon` is out of memory in a cut heap; with memory, and where it is not, these are the bytes.
fn is_write_refused(
    alloc: Global,
    cut: usize,
    lines: &[PunchLine<Global>],
    wanted: &[u8],
) -> Result<bool, Fail>
    requires { length (ribbon_rows lines.now) < 2 ^ 32 }
{
    let heap = LocalHeap::new(alloc, 1024)?;
    let ballast = ballast(&heap, cut);
    let refused = match write_ribbon(&heap, lines) {
        Ok(bytes) if bytes.as_slice() == wanted => false,
        Ok(_) => return Err(Fail::new("another ribbon")),
        Err(NoMemory) => true,
    };
    drop(ballast);
    if write_ribbon(&heap, lines)?.as_slice() != wanted {
        return Err(Fail::new("another ribbon with memory"));
    }
    Ok(refused)
}

/// Each growth of `write_ribbon` refused in turn.
#[test]
fn growths_of_write_ribbon(rt: HostRuntime) -> Result<(), Fail> {
    let one = [empty_paragraph(rt.alloc())?];
    let mut copies = 0u8;
    let mut lines = 0u8;
    for cut in 0..16usize {
        let copy = is_write_refused(rt.alloc(), cut, &[], EMPTY_COPY.as_slice())?;
        let line = is_write_refused(rt.alloc(), cut, &one, EMPTY_PARAGRAPH.as_slice())?;
        copies = copies.saturating_add(u8::from(copy));
        lines = lines.saturating_add(u8::from(line));
    }
    assert!(rt; copies > 0 && copies < 16 && lines > 0 && lines < 16);
    Ok(())
}

/// The line of a word of a matrix in A8: that matrix, the space with S, and the wedges at 7 and 3.
fn short_line(alloc: Global) -> Result<PunchLine<Global>, Fail>
    ensures { IfOk result (λ line. length line.matrices ≡ 2) }
{
    let all = [punch(Column::A, 8, false), punch(Column::G, 1, true)];
    Ok(PunchLine {
        matrices: Punches::from_vec(Vec::from_array(alloc, all)?),
        coarse: Position::new(7).unwrap(),
        fine: Position::new(3).unwrap(),
    })
}

/// Twice so many lines: an empty paragraph and then a short line, again and again.
fn lines_in_turn(alloc: Global, pairs: u32) -> Result<Vec<PunchLine<Global>>, Fail>
    ensures { IfOk result (λ lines. length (ribbon_rows lines.items) ≡ 1 + 17 * pairs) }
{
    let mut lines = Vec::new(alloc);
    for pair in 0..pairs {
        lines.push(empty_paragraph(alloc)?)?;
        lines.push(short_line(alloc)?)?;
    }
    Ok(lines)
}

/// Pushes lines to a writer.
fn push_all(writer: &mut RibbonWriter<Global>, lines: &[PunchLine<Global>]) -> Result<(), NoMemory>
    requires { length writer.old + length (flat_map line_rows lines.now) + 1 < 2 ^ 32 }
{
    for line in lines {
        writer.push(line)?;
    }
    Ok(())
}

/// The rows of the short line.
const SHORT_ROWS: [u8; 16] = [0x40, 0, 2, 0, 1, 1, 0, 1, 0, 0, 4, 2, 0, 0, 0x40, 6];

/// The bytes of 85,001 rows: the head row, 13 for each of 5,000 empty paragraphs, and 4 for each of as many short
/// lines.
fn bytes_in_turn(alloc: Global) -> Result<Vec<u8>, AllocError> {
    let mut bytes = Vec::new(alloc);
    bytes.extend_from_slice(b"MRB1\x00\x01\x4c\x09\0\0\x02\x06")?;
    for _ in 0..5_000u32 {
        bytes.extend_from_slice(&EMPTY_PARAGRAPH[12..])?;
        bytes.extend_from_slice(&SHORT_ROWS)?;
    }
    Ok(bytes)
}

/// Ten thousand lines, at once and one by one.
#[test]
fn ten_thousand_lines(rt: HostRuntime) -> Result<(), Fail> {
    let lines = lines_in_turn(rt.alloc(), 5_000)?;
    let wanted = bytes_in_turn(rt.alloc())?;
    assert!(rt; lines.len() == 10_000 && wanted.len() == 8 + 4 * 85_001);
    let at_once = write_ribbon(rt.alloc(), &lines)?;
    assert!(rt; at_once.as_slice() == wanted.as_slice());
    let mut writer = RibbonWriter::new(rt.alloc());
    push_all(&mut writer, &lines)?;
    assert!(rt; writer.finish()?.as_slice() == wanted.as_slice());
    Ok(())
}
