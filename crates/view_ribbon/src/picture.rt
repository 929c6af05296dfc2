//! A ribbon as a picture in the form SVG.

ghost use Rattle.std.specs.Prelude.{◌≡◌, ◌+◌, ◌<◌, ◌^◌, ◌++◌, length, OnOk, string_bytes};
ghost use Rattle.view_ribbon.specs.Picture.{bottom_of, close_text, drawn_text, head_text, height_of, no_rows_words};
ghost use Rattle.view_ribbon.specs.Picture.{open_text, paper_of, paper_text, picture_text, rows_words, style_text};
ghost use Rattle.view_ribbon.specs.Picture.{title_open, title_text, title_words, whole_words};

use crate::channels::put_channels;
use crate::extent::Lines;
use crate::parts::put_between;
use crate::rows::put_rows;
use crate::stretch::drawn_of;
use desk_case::MatrixCase;
use desk_memory::NoMemory;
use desk_signals::RibbonRow;
use std::alloc::{AllocError, Allocator};
use view_galley::text_end;

/// How high a picture of so many rows is.
#[tactic(auto, unfolding(crate::specs::Picture::height_of))]
fn height_of(count: usize) -> u128
    ensures { result ≡ height_of count }
{
    70 + 13 * (count as u128)
}

/// How high its paper is.
#[tactic(auto, unfolding(crate::specs::Picture::paper_of))]
fn paper_of(count: usize) -> u128
    ensures { result ≡ paper_of count }
{
    6 + 13 * (count as u128)
}

/// Where the paper ends.
#[tactic(auto, unfolding(crate::specs::Picture::bottom_of))]
fn bottom_of(count: usize) -> u128
    ensures { result ≡ bottom_of count }
{
    56 + 13 * (count as u128)
}

#[tactic(auto, unfolding(crate::specs::Picture::open_text))]
fn put_open<A: Allocator + Copy>(out: &mut String<A>, count: usize) -> Result<(), AllocError>
    ensures { OnOk result (string_bytes out.new ≡ string_bytes out.old ++ open_text count) }
{
    put_between(
        out,
        "<svg xmlns=\"http://www.w3.org/2000/svg\" width=\"640\" height=\"",
        height_of(count),
        "\" font-family=\"sans-serif\" font-size=\"9\">\n",
    )
}

/// How numbers and meanings look, and the ground.
#[tactic(auto, unfolding(crate::specs::Picture::style_text))]
fn style_text() -> &'static str
    ensures { result.now ≡ style_text }
{
    "<style>.n{text-anchor:end;fill:#777}.m{font-size:11px}</style>\n<rect width=\"100%\" height=\"100%\" fill=\"#fff\"/>\n"
}

/// How a title begins.
#[tactic(auto, unfolding(crate::specs::Picture::title_open))]
fn title_open() -> &'static str
    ensures { result.now ≡ title_open }
{
    "<text x=\"60\" y=\"16\" font-size=\"12\">"
}

/// Writes that a ribbon of so many rows is drawn.
#[tactic(auto, unfolding(crate::specs::Picture::whole_words))]
fn put_whole_words<A: Allocator + Copy>(out: &mut String<A>, count: usize) -> Result<(), AllocError>
    ensures { OnOk result (string_bytes out.new ≡ string_bytes out.old ++ whole_words count) }
{
    put_between(
        out,
        "Ribbon of ",
        count as u128,
        " rows, as the caster meets them",
    )
}

/// Writes that the rows from one place to another are.
#[tactic(auto, unfolding(crate::specs::Picture::rows_words))]
fn put_rows_words<A: Allocator + Copy>(
    out: &mut String<A>,
    first: usize,
    last: usize,
    count: usize,
) -> Result<(), AllocError>
    ensures { OnOk result (string_bytes out.new ≡ string_bytes out.old ++ rows_words first last count) }
{
    write!(
        out,
        "Rows {first} to {last} of a ribbon of {count} rows, as the caster meets them"
    )
}

/// Writes that none is.
#[tactic(auto, unfolding(crate::specs::Picture::no_rows_words))]
fn put_no_rows_words<A: Allocator + Copy>(
    out: &mut String<A>,
    count: usize,
) -> Result<(), AllocError>
    ensures { OnOk result (string_bytes out.new ≡ string_bytes out.old ++ no_rows_words count) }
{
    put_between(out, "No rows of a ribbon of ", count as u128, " rows")
}

/// Writes which rows of so many are drawn.
fn put_title_words<A: Allocator + Copy>(
    out: &mut String<A>,
    lines: Option<Lines>,
    count: usize,
    first: usize,
    drawn: usize,
) -> Result<(), AllocError>
    requires { first + drawn < 2 ^ 64 }
    ensures { OnOk result
        (string_bytes out.new ≡ string_bytes out.old ++ title_words lines count first drawn) }
{
    if lines.is_none() {
        put_whole_words(out, count)
    } else if drawn == 0 {
        put_no_rows_words(out, count)
    } else {
        put_rows_words(out, first, first + drawn - 1, count)
    }
}

fn put_title<A: Allocator + Copy>(
    out: &mut String<A>,
    lines: Option<Lines>,
    count: usize,
    first: usize,
    drawn: usize,
) -> Result<(), AllocError>
    requires { first + drawn < 2 ^ 64 }
    ensures { OnOk result (string_bytes out.new ≡ string_bytes out.old ++ title_text lines count first drawn) }
{
    out.push_str(title_open())?;
    put_title_words(out, lines, count, first, drawn)?;
    out.push_str(text_end())
}

#[tactic(auto, unfolding(crate::specs::Picture::paper_text))]
fn put_paper<A: Allocator + Copy>(out: &mut String<A>, count: usize) -> Result<(), AllocError>
    ensures { OnOk result (string_bytes out.new ≡ string_bytes out.old ++ paper_text count) }
{
    put_between(
        out,
        "<rect x=\"54\" y=\"50\" width=\"415\" height=\"",
        paper_of(count),
        "\" fill=\"#f1e6cc\" stroke=\"#b9a97f\"/>\n",
    )
}

/// The end of a picture.
#[tactic(auto, unfolding(crate::specs::Picture::close_text))]
fn close_text() -> &'static str
    ensures { result.now ≡ close_text }
{
    "</svg>\n"
}

fn put_head<A: Allocator + Copy>(
    out: &mut String<A>,
    lines: Option<Lines>,
    count: usize,
    first: usize,
    drawn: usize,
) -> Result<(), AllocError>
    requires { first + drawn < 2 ^ 64 }
    ensures { OnOk result (string_bytes out.new ≡ string_bytes out.old ++ head_text lines count first drawn) }
{
    put_open(out, drawn)?;
    out.push_str(style_text())?;
    put_title(out, lines, count, first, drawn)?;
    put_paper(out, drawn)
}

/// Writes rows, of which the first has this place, with the paper's channels.
fn put_drawn<A: Allocator + Copy>(
    out: &mut String<A>,
    first: usize,
    drawn: &[RibbonRow],
    case: &MatrixCase,
) -> Result<(), AllocError>
    requires { first + length drawn.now < 2 ^ 64 }
    ensures { OnOk result (string_bytes out.new ≡ string_bytes out.old ++ drawn_text case.now first drawn.now) }
{
    put_channels(out, bottom_of(drawn.len()))?;
    put_rows(out, first, drawn, case)?;
    out.push_str(close_text())
}

/// Writes a ribbon, or the rows of these lines of it, at the end as a picture in the form SVG: the paper with its 31
/// channels, and the rows as the caster meets them, the last row first. A row has its place at the left, from 0 in
/// punched order of the whole ribbon, a hole for each signal that it punches, and at the right what it means by the
/// case: the symbol of its cell, `space`, `fill` or `no matrix`, with S where it is cast with S; or the position of a
/// wedge. A place that is not punched has nothing. The character of a symbol is escaped as XML wants it. It fails only
/// where memory ran out.
pub fn put_holes<A: Allocator + Copy>(
    out: &mut String<A>,
    lines: Option<Lines>,
    rows: &[RibbonRow],
    case: &MatrixCase,
) -> Result<(), NoMemory>
    ensures { OnOk result (string_bytes out.new ≡ string_bytes out.old ++ picture_text lines rows.now case.now) }
{
    let (first, drawn) = drawn_of(lines, rows);
    put_head(out, lines, rows.len(), first, drawn.len())?;
    put_drawn(out, first, drawn, case)?;
    Ok(())
}
