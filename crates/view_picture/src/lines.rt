//! A line of the galley.

ghost use Rattle.std.specs.Prelude.{◌≡◌, ◌+◌, ◌++◌, ◌≤◌, ◌^◌, length, All, IfOk, OnOk, string_bytes};
ghost use Rattle.desk_lines.specs.Words.{most_symbols};
ghost use Rattle.view_galley.specs.Galley.{Stands};
ghost use Rattle.view_picture.specs.Lines.{beside, boxes_from, class_of, fault_text, line_at, line_text, line_words};
ghost use Rattle.view_picture.specs.Lines.{lines_text, margin_text, number_text, text_at, words_at, words_end};

use crate::boxes::put_fills;
use crate::paper::{Paper, across, foot};
use crate::widths::{drawn_space, frame_or};
use crate::words::put_words;
use desk_job::terms::Terms;
use desk_ops::Symbol;
use std::alloc::{AllocError, Allocator};
use view_galley::{Line, put_attribute, put_number, text_end};
use view_proof::{begin_of, put_cause};

/// Writes the beginning of a text of a class that stands here.
pub fn put_text_at<A: Allocator + Copy>(
    out: &mut String<A>,
    class: &str,
    x: u128,
    y: u128,
) -> Result<(), AllocError>
    ensures { OnOk result (string_bytes out.new ≡ string_bytes out.old ++ text_at class.now x y) }
{
    out.push_str("<text class=\"")?;
    out.push_str(class)?;
    out.push_str("\"")?;
    put_attribute(out, "x", x)?;
    put_attribute(out, "y", y)?;
    out.push_str(">")
}

/// Writes a number at the margin.
fn put_margin_number<A: Allocator + Copy>(
    out: &mut String<A>,
    x: u128,
    y: u128,
    n: usize,
) -> Result<(), AllocError>
    ensures { OnOk result (string_bytes out.new ≡ string_bytes out.old ++ number_text x y n) }
{
    put_text_at(out, "n", x, y)?;
    put_number(out, n as u128)?;
    out.push_str(text_end())
}

/// Writes the number of a line and its place.
fn put_margin<A: Allocator + Copy>(
    out: &mut String<A>,
    y: u128,
    line: &Line<A>,
) -> Result<(), AllocError>
    ensures { OnOk result (string_bytes out.new ≡ string_bytes out.old ++ margin_text y line.now) }
{
    put_margin_number(out, 4_000, y, line.number())?;
    put_margin_number(out, 8_800, y, begin_of(line.words()))
}

fn class_of(is_faulty: bool) -> &'static str
    ensures { result.now ≡ class_of is_faulty }
{
    if is_faulty { "w f" } else { "w" }
}

/// Writes the beginning of the text of a line.
fn put_words_at<A: Allocator + Copy>(
    out: &mut String<A>,
    y: u128,
    line: &Line<A>,
) -> Result<(), AllocError>
    ensures { OnOk result (string_bytes out.new ≡ string_bytes out.old ++ words_at y line.now) }
{
    out.push_str("<text class=\"")?;
    out.push_str(class_of(line.is_faulty()))?;
    out.push_str("\"")?;
    put_attribute(out, "y", y)?;
    out.push_str(">")
}

/// Writes the words of a line, and returns where they end, or the added space.
fn put_line_words<A: Allocator + Copy>(
    out: &mut String<A>,
    terms: &Terms,
    copy: &[Symbol],
    paper: Paper,
    y: u128,
    line: &Line<A>,
) -> Result<u128, AllocError>
    requires copy { length copy.now ≤ most_symbols }
    requires line { Stands copy.now terms.now.case line.now }
    ensures text { OnOk result
        (string_bytes out.new ≡ string_bytes out.old ++ line_words terms.now copy.now paper y line.now) }
    ensures end { IfOk result (λ end. end ≡ words_end terms.now copy.now line.now) }
    ensures limit { IfOk result (λ end. end ≤ 2 ^ 106) }
{
    let space = drawn_space(terms, line);
    put_words_at(out, y, line)?;
    let after = put_words(out, terms, copy, paper.scale.pica, space, line.words())?;
    out.push_str(text_end())?;
    let beyond = if line.has_added() { 0 } else { space };
    Ok(after.saturating_sub(beyond as u128))
}

/// Writes the boxes of the fills of a line, whose words end here.
fn put_line_boxes<A: Allocator + Copy>(
    out: &mut String<A>,
    terms: &Terms,
    paper: Paper,
    y: u128,
    end: u128,
    line: &Line<A>,
) -> Result<(), AllocError>
    requires limit { end ≤ 2 ^ 106 }
    requires fills { length line.now.fills ≤ length terms.now.case.fill }
    ensures { OnOk result
        (string_bytes out.new ≡ string_bytes out.old ++ boxes_from terms.now paper y end line.now) }
{
    put_fills(out, paper, y, end, line.fills(), terms.fill_widths())
}

/// Where what is written beside a line begins, from the left: 6 points from the frame, or from the words where these go
/// further.
pub fn beside<A: Allocator>(terms: &Terms, paper: Paper, line: &Line<A>) -> u128
    ensures { result ≡ beside terms.now paper line.now }
{
    across(paper.scale.pica, frame_or(terms, line)) + 600
}

/// Writes a fault beside its line.
#[tactic(auto, unfolding(view_galley::specs::Svg::text_end))]
fn put_fault<A: Allocator + Copy>(
    out: &mut String<A>,
    terms: &Terms,
    paper: Paper,
    y: u128,
    line: &Line<A>,
) -> Result<(), AllocError>
    ensures { OnOk result
        (string_bytes out.new ≡ string_bytes out.old ++ fault_text terms.now paper y line.now line.now.faults) }
{
    let Some(fault) = line.fault() else {
        return Ok(());
    };
    put_text_at(out, "c", beside(terms, paper, line), y)?;
    put_cause(out, paper.scale, line.wedge_sum(), fault)?;
    out.push_str(text_end())
}

/// Writes a line whose letters stand here, from the top: its number and its place, its words, its boxes and its fault.
pub fn put_line_at<A: Allocator + Copy>(
    out: &mut String<A>,
    terms: &Terms,
    copy: &[Symbol],
    paper: Paper,
    y: u128,
    line: &Line<A>,
) -> Result<(), AllocError>
    requires copy { length copy.now ≤ most_symbols }
    requires line { Stands copy.now terms.now.case line.now }
    ensures { OnOk result (string_bytes out.new ≡ string_bytes out.old ++ line_at terms.now copy.now paper y line.now) }
{
    put_margin(out, y, line)?;
    let end = put_line_words(out, terms, copy, paper, y, line)?;
    put_line_boxes(out, terms, paper, y, end, line)?;
    put_fault(out, terms, paper, y, line)
}

/// Writes a line.
fn put_line<A: Allocator + Copy>(
    out: &mut String<A>,
    terms: &Terms,
    copy: &[Symbol],
    paper: Paper,
    line: &Line<A>,
) -> Result<(), AllocError>
    requires copy { length copy.now ≤ most_symbols }
    requires top { paper.top ≤ 2 ^ 100 }
    requires line { Stands copy.now terms.now.case line.now }
    ensures { OnOk result (string_bytes out.new ≡ string_bytes out.old ++ line_text terms.now copy.now paper line.now) }
{
    let y = foot(paper, line.number());
    put_line_at(out, terms, copy, paper, y, line)
}

/// Writes lines.
pub fn put_lines<A: Allocator + Copy>(
    out: &mut String<A>,
    terms: &Terms,
    copy: &[Symbol],
    paper: Paper,
    lines: &[Line<A>],
) -> Result<(), AllocError>
    requires copy { length copy.now ≤ most_symbols }
    requires top { paper.top ≤ 2 ^ 100 }
    requires lines { All (Stands copy.now terms.now.case) lines.now }
    ensures { OnOk result
        (string_bytes out.new ≡ string_bytes out.old ++ lines_text terms.now copy.now paper lines.now) }
{
    for line in lines {
        put_line(out, terms, copy, paper, line)?;
    }
    Ok(())
}
