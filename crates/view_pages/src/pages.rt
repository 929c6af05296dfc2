//! The pages of a document, each a picture of so many lines of the galley.

ghost use Rattle.std.specs.Prelude.{◌≡◌, ◌+◌, ◌*◌, ◌++◌, ◌≤◌, ◌<◌, ◌^◌, length, All, OnOk, string_bytes};
ghost use Rattle.std.specs.Int.{div_ceil};
ghost use Rattle.desk_lines.specs.Words.{most_symbols};
ghost use Rattle.view_galley.specs.Galley.{Stands};
ghost use Rattle.view_proof.specs.Lines.{HasWords};
ghost use Rattle.view_pages.specs.Pages.{among_text, body_text, column_text, columns_text, extent_text, frame_of, head_text};
ghost use Rattle.view_pages.specs.Pages.{id_text, line_marks, lines_below, lines_text, linked_line, page_body};
ghost use Rattle.view_pages.specs.Pages.{page_text, pages_text, sheet_text};

use crate::layouts::{Layout, lines_on};
use crate::rules::put_rules;
use crate::tags::{group_end, line_begin, sheet_end, sheet_height, sheet_number, sheet_paper};
use crate::ways::put_way_below;
use desk_job::terms::Terms;
use desk_ops::Symbol;
use std::alloc::{AllocError, Allocator};
use view_galley::{Galley, Line, put_attribute, put_hundredths, put_number, text_end};
use view_picture::paper::{EDGE, Paper, foot};
use view_picture::{frame_height, put_frame, put_line_at, put_size, put_text_at};

/// Writes how large a page is.
#[tactic(auto, unfolding(crate::specs::Pages::extent_text))]
pub fn put_extent<A: Allocator + Copy>(
    out: &mut String<A>,
    layout: Layout,
) -> Result<(), AllocError>
    ensures { OnOk result (string_bytes out.new ≡ string_bytes out.old ++ extent_text layout) }
{
    put_hundredths(out, layout.width)?;
    out.push_str(sheet_height())?;
    put_hundredths(out, layout.height)
}

/// Writes the id of a page by its number from 0, and its paper.
#[tactic(auto, unfolding(crate::specs::Pages::id_text))]
fn put_id<A: Allocator + Copy>(out: &mut String<A>, number: usize) -> Result<(), AllocError>
    ensures { OnOk result (string_bytes out.new ≡ string_bytes out.old ++ id_text number) }
{
    out.push_str(sheet_number())?;
    put_number(out, number as u128 + 1)?;
    out.push_str(sheet_paper())
}

/// Writes the beginning of a page.
#[tactic(auto, unfolding(crate::specs::Pages::sheet_text))]
fn put_sheet<A: Allocator + Copy>(
    out: &mut String<A>,
    layout: Layout,
    number: usize,
) -> Result<(), AllocError>
    ensures { OnOk result (string_bytes out.new ≡ string_bytes out.old ++ sheet_text layout number) }
{
    put_size(out, layout.width, layout.height)?;
    put_extent(out, layout)?;
    put_id(out, number)
}

/// Writes the number of a page among all.
#[tactic(auto, unfolding(crate::specs::Pages::among_text))]
fn put_among<A: Allocator + Copy>(
    out: &mut String<A>,
    layout: Layout,
    number: usize,
) -> Result<(), AllocError>
    ensures { OnOk result (string_bytes out.new ≡ string_bytes out.old ++ among_text layout number) }
{
    out.push_str(", page ")?;
    put_number(out, number as u128 + 1)?;
    out.push_str(" of ")?;
    put_number(out, layout.pages as u128)?;
    out.push_str(text_end())
}

/// Writes the head of a page: the heading, and its number among all.
#[tactic(auto, unfolding(crate::specs::Pages::head_text))]
fn put_head<A: Allocator + Copy>(
    out: &mut String<A>,
    heading: &str,
    layout: Layout,
    number: usize,
) -> Result<(), AllocError>
    ensures { OnOk result (string_bytes out.new ≡ string_bytes out.old ++ head_text heading.now layout number) }
{
    put_text_at(out, "h", 1_000, 2_000)?;
    out.push_str(heading)?;
    put_among(out, layout, number)
}

/// Writes a word above a column.
#[tactic(auto, unfolding(crate::specs::Pages::column_text))]
fn put_column<A: Allocator + Copy>(
    out: &mut String<A>,
    class: &str,
    x: u128,
    word: &str,
) -> Result<(), AllocError>
    ensures { OnOk result (string_bytes out.new ≡ string_bytes out.old ++ column_text class.now x word.now) }
{
    put_text_at(out, class, x, 3_200)?;
    out.push_str(word)?;
    out.push_str(text_end())
}

/// Writes the words above the columns.
#[tactic(auto, unfolding(crate::specs::Pages::columns_text))]
fn put_columns<A: Allocator + Copy>(out: &mut String<A>) -> Result<(), AllocError>
    ensures { OnOk result (string_bytes out.new ≡ string_bytes out.old ++ columns_text) }
{
    put_column(out, "n", 4_000, "line")?;
    put_column(out, "n", 8_800, "place")?;
    put_column(out, "h", EDGE, "as it is set")
}

/// Writes the rules of a line whose letters stand here, and its way out if it is at fault.
#[tactic(auto, unfolding(crate::specs::Pages::line_marks))]
fn put_line_marks<A: Allocator + Copy>(
    out: &mut String<A>,
    terms: &Terms,
    copy: &[Symbol],
    paper: Paper,
    y: u128,
    line: &Line<A>,
) -> Result<(), AllocError>
    requires copy { length copy.now ≤ most_symbols }
    requires y { y ≤ 2 ^ 101 }
    requires line { HasWords copy.now line.now }
    ensures { OnOk result
        (string_bytes out.new ≡ string_bytes out.old ++ line_marks terms.now copy.now paper y line.now) }
{
    put_rules(out, terms, copy, paper, y, line)?;
    put_way_below(out, terms, copy, paper, y, line)
}

/// Writes a line that stands here, which can be linked to by its number in the galley.
#[tactic(auto, unfolding(crate::specs::Pages::linked_line))]
fn put_linked_line<A: Allocator + Copy>(
    out: &mut String<A>,
    terms: &Terms,
    copy: &[Symbol],
    paper: Paper,
    y: u128,
    line: &Line<A>,
) -> Result<(), AllocError>
    requires copy { length copy.now ≤ most_symbols }
    requires y { y ≤ 2 ^ 101 }
    requires line { Stands copy.now terms.now.case line.now }
    ensures { OnOk result
        (string_bytes out.new ≡ string_bytes out.old ++ linked_line terms.now copy.now paper y line.now) }
{
    out.push_str(line_begin())?;
    put_number(out, line.number() as u128)?;
    out.push_str("\">\n")?;
    put_line_at(out, terms, copy, paper, y, line)?;
    put_line_marks(out, terms, copy, paper, y, line)?;
    out.push_str(group_end())
}

/// Writes lines under one another.
fn put_lines_below<A: Allocator + Copy>(
    out: &mut String<A>,
    terms: &Terms,
    copy: &[Symbol],
    paper: Paper,
    lines: &[Line<A>],
) -> Result<(), AllocError>
    requires copy { length copy.now ≤ most_symbols }
    requires top { paper.top ≤ 2 ^ 100 }
    requires lines { All (Stands copy.now terms.now.case) lines.now }
    ensures { OnOk result
        (string_bytes out.new ≡ string_bytes out.old ++ lines_below terms.now copy.now paper 0 lines.now) }
{
    for (above, line) in lines.iter().enumerate() {
        let y = foot(paper, above + 1);
        put_linked_line(out, terms, copy, paper, y, line)?;
    }
    Ok(())
}

/// Writes the lines of a page, in letters of the size of the set.
#[tactic(auto, unfolding(crate::specs::Pages::lines_text))]
fn put_lines<A: Allocator + Copy>(
    out: &mut String<A>,
    terms: &Terms,
    copy: &[Symbol],
    paper: Paper,
    lines: &[Line<A>],
) -> Result<(), AllocError>
    requires copy { length copy.now ≤ most_symbols }
    requires top { paper.top ≤ 2 ^ 100 }
    requires lines { All (Stands copy.now terms.now.case) lines.now }
    ensures { OnOk result
        (string_bytes out.new ≡ string_bytes out.old ++ lines_text terms.now copy.now paper lines.now) }
{
    out.push_str("<g")?;
    put_attribute(out, "font-size", paper.set as u128)?;
    out.push_str(">\n")?;
    put_lines_below(out, terms, copy, paper, lines)?;
    out.push_str(group_end())
}

/// Writes the frame round so many lines.
#[tactic(auto, unfolding(crate::specs::Pages::frame_of))]
fn put_frame_of<'a, A: Allocator + Copy>(
    out: &mut String<A>,
    paper: Paper,
    galley: &Galley<'a, A>,
    lines: usize,
) -> Result<(), AllocError>
    ensures { OnOk result (string_bytes out.new ≡ string_bytes out.old ++ frame_of paper galley.now lines) }
{
    let high = frame_height(paper, lines);
    let values = galley.values();
    put_frame(out, paper, values.measure as u128 * 100, high)
}

/// Writes these lines of a galley in their frame.
#[tactic(auto, unfolding(crate::specs::Pages::body_text))]
fn put_body<'a, A: Allocator + Copy>(
    out: &mut String<A>,
    copy: &[Symbol],
    paper: Paper,
    galley: &Galley<'a, A>,
    lines: &[Line<A>],
) -> Result<(), AllocError>
    requires copy { length copy.now ≤ most_symbols }
    requires top { paper.top ≤ 2 ^ 100 }
    requires lines { All (Stands copy.now galley.now.terms.case) lines.now }
    ensures { OnOk result
        (string_bytes out.new ≡ string_bytes out.old ++ body_text copy.now paper galley.now lines.now) }
{
    put_frame_of(out, paper, galley, lines.len())?;
    put_lines(out, galley.terms(), copy, paper, lines)?;
    out.push_str(sheet_end())
}

/// Writes what stands on a page by its number from 0, whose beginning is written.
#[tactic(auto, unfolding(crate::specs::Pages::page_body))]
pub fn put_page_body<'a, A: Allocator + Copy>(
    out: &mut String<A>,
    copy: &[Symbol],
    galley: &Galley<'a, A>,
    layout: Layout,
    heading: &str,
    number: usize,
) -> Result<(), AllocError>
    requires copy { length copy.now ≤ most_symbols }
    requires top { layout.paper.top ≤ 2 ^ 100 }
    requires lines { All (Stands copy.now galley.now.terms.case) galley.now.lines }
    requires number { number * layout.lines ≤ length galley.now.lines }
    ensures { OnOk result
        (string_bytes out.new ≡ string_bytes out.old ++ page_body copy.now galley.now layout heading.now number) }
{
    let lines = lines_on(galley.lines(), layout.lines, number);
    put_head(out, heading, layout, number)?;
    put_columns(out)?;
    put_body(out, copy, layout.paper, galley, lines)
}

/// Writes a page by its number from 0.
#[tactic(auto, unfolding(crate::specs::Pages::page_text))]
fn put_page<'a, A: Allocator + Copy>(
    out: &mut String<A>,
    copy: &[Symbol],
    galley: &Galley<'a, A>,
    layout: Layout,
    heading: &str,
    number: usize,
) -> Result<(), AllocError>
    requires copy { length copy.now ≤ most_symbols }
    requires top { layout.paper.top ≤ 2 ^ 100 }
    requires lines { All (Stands copy.now galley.now.terms.case) galley.now.lines }
    requires number { number * layout.lines ≤ length galley.now.lines }
    ensures { OnOk result
        (string_bytes out.new ≡ string_bytes out.old ++ page_text copy.now galley.now layout heading.now number) }
{
    put_sheet(out, layout, number)?;
    put_page_body(out, copy, galley, layout, heading, number)
}

/// Writes all pages of a galley that is laid out.
pub fn put_pages<'a, A: Allocator + Copy>(
    out: &mut String<A>,
    copy: &[Symbol],
    galley: &Galley<'a, A>,
    layout: Layout,
    heading: &str,
) -> Result<(), AllocError>
    requires copy { length copy.now ≤ most_symbols }
    requires top { layout.paper.top ≤ 2 ^ 100 }
    requires some { 1 ≤ layout.lines }
    requires pages { layout.pages ≡ div_ceil (length galley.now.lines) layout.lines }
    requires lines { All (Stands copy.now galley.now.terms.case) galley.now.lines }
    ensures { OnOk result
        (string_bytes out.new ≡ string_bytes out.old ++ pages_text copy.now galley.now layout heading.now) }
{
    for number in 0..layout.pages {
        put_page(out, copy, galley, layout, heading, number)?;
    }
    Ok(())
}
