//! Drawings of the rows of lines.

use crate::holes::rooms::{FROM, TARGET, memory, rooms};
use std::alloc::Global;
use std::test::Fail;
use view_ribbon::{Lines, Sources, draw_ribbon};

/// Three rows at 13 each: the picture is 109 high, its paper 45, and that ends at 95.
const SECOND: &[u8] =
    b"<svg xmlns=\"http://www.w3.org/2000/svg\" width=\"640\" height=\"109\" font-family=\"sans-serif\" font-size=\"9\">\n\
<style>.n{text-anchor:end;fill:#777}.m{font-size:11px}</style>\n\
<rect width=\"100%\" height=\"100%\" fill=\"#fff\"/>\n\
<text x=\"60\" y=\"16\" font-size=\"12\">Rows 4 to 6 of a ribbon of 7 rows, as the caster meets them</text>\n\
<rect x=\"54\" y=\"50\" width=\"415\" height=\"45\" fill=\"#f1e6cc\" stroke=\"#b9a97f\"/>\n\
<path d=\"M66 50V95\" stroke=\"#d9ccab\"/><text transform=\"translate(69,46) rotate(-60)\">A</text>\n";

/// The rows of the second line, with their places in the whole: the end of the first line is before them.
const SECOND_ROWS: &[u8] =
    b"<path d=\"M456 50V95\" stroke=\"#d9ccab\"/><text transform=\"translate(459,46) rotate(-60)\">S</text>\n\
<text class=\"n\" x=\"48\" y=\"61\">6</text><circle cx=\"339\" cy=\"58\" r=\"4\"/><circle cx=\"430\" cy=\"58\" r=\"4\"/><circle cx=\"443\" cy=\"58\" r=\"4\"/><text class=\"m\" x=\"477\" y=\"61\">line out; 0005 at 8</text>\n\
<text class=\"n\" x=\"48\" y=\"74\">5</text><circle cx=\"274\" cy=\"71\" r=\"4\"/><circle cx=\"443\" cy=\"71\" r=\"4\"/><text class=\"m\" x=\"477\" y=\"74\">0075 at 3</text>\n\
<text class=\"n\" x=\"48\" y=\"87\">4</text><circle cx=\"92\" cy=\"84\" r=\"4\"/><circle cx=\"300\" cy=\"84\" r=\"4\"/><text class=\"m\" x=\"477\" y=\"87\">a italic</text>\n\
</svg>\n";

const FIRST: &[u8] =
    b"<svg xmlns=\"http://www.w3.org/2000/svg\" width=\"640\" height=\"109\" font-family=\"sans-serif\" font-size=\"9\">\n\
<style>.n{text-anchor:end;fill:#777}.m{font-size:11px}</style>\n\
<rect width=\"100%\" height=\"100%\" fill=\"#fff\"/>\n\
<text x=\"60\" y=\"16\" font-size=\"12\">Rows 1 to 3 of a ribbon of 7 rows, as the caster meets them</text>\n";

/// The rows of the first line: the head is of none.
const FIRST_ROWS: &[u8] =
    b"<text class=\"n\" x=\"48\" y=\"61\">3</text><circle cx=\"365\" cy=\"58\" r=\"4\"/><circle cx=\"430\" cy=\"58\" r=\"4\"/><circle cx=\"443\" cy=\"58\" r=\"4\"/><text class=\"m\" x=\"477\" y=\"61\">line out; 0005 at 10</text>\n\
<text class=\"n\" x=\"48\" y=\"74\">2</text><circle cx=\"274\" cy=\"71\" r=\"4\"/><circle cx=\"443\" cy=\"71\" r=\"4\"/><text class=\"m\" x=\"477\" y=\"74\">0075 at 3</text>\n\
<text class=\"n\" x=\"48\" y=\"87\">1</text><circle cx=\"79\" cy=\"84\" r=\"4\"/><circle cx=\"248\" cy=\"84\" r=\"4\"/><text class=\"m\" x=\"477\" y=\"87\">no matrix</text>\n\
</svg>\n";

const NONE: &[u8] =
    b"<svg xmlns=\"http://www.w3.org/2000/svg\" width=\"640\" height=\"70\" font-family=\"sans-serif\" font-size=\"9\">\n\
<style>.n{text-anchor:end;fill:#777}.m{font-size:11px}</style>\n\
<rect width=\"100%\" height=\"100%\" fill=\"#fff\"/>\n\
<text x=\"60\" y=\"16\" font-size=\"12\">No rows of a ribbon of 7 rows</text>\n\
<rect x=\"54\" y=\"50\" width=\"415\" height=\"6\" fill=\"#f1e6cc\" stroke=\"#b9a97f\"/>\n";

const NO_ROWS: &[u8] =
    b"<path d=\"M456 50V56\" stroke=\"#d9ccab\"/><text transform=\"translate(459,46) rotate(-60)\">S</text>\n\
</svg>\n";

/// Whether the picture of these lines begins and ends so.
fn is_drawn(alloc: Global, lines: Lines, front: &[u8], back: &[u8]) -> Result<bool, Fail> {
    let mut files = rooms(alloc, 0)?;
    let from = Sources {
        ribbon: "lines",
        ..FROM
    };
    let ended = draw_ribbon(memory(alloc), &mut files, &from, Some(lines), &TARGET);
    let kept = match files.bytes_of("a.svg") {
        Some(kept) => kept.starts_with(front) && kept.ends_with(back),
        None => false,
    };
    Ok(ended == Ok(true) && kept)
}

/// The caster would not cast the first line, and its rows are drawn.
#[test]
fn rows_of_lines_are_drawn(rt: HostRuntime) -> Result<(), Fail> {
    let alloc = rt.alloc();
    let second = Lines { first: 2, last: 2 };
    assert!(rt; is_drawn(alloc, second, SECOND, SECOND_ROWS)?);
    let rest = Lines { first: 2, last: 9 };
    assert!(rt; is_drawn(alloc, rest, SECOND, SECOND_ROWS)?);
    let first = Lines { first: 1, last: 1 };
    assert!(rt; is_drawn(alloc, first, FIRST, FIRST_ROWS)?);
    let none = Lines { first: 3, last: 5 };
    assert!(rt; is_drawn(alloc, none, NONE, NO_ROWS)?);
    Ok(())
}
