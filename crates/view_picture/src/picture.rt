//! A galley as a picture.

ghost use Rattle.std.specs.Prelude.{◌≡◌, ◌+◌, ◌*◌, ◌++◌, ◌≤◌, ◌^◌, length, All, OnOk, string_bytes};
ghost use Rattle.desk_lines.specs.Words.{most_symbols};
ghost use Rattle.view_galley.specs.Galley.{Stands};
ghost use Rattle.view_picture.specs.Picture.{begin_text, frame_height, frame_text, galley_frame, galley_height};
ghost use Rattle.view_picture.specs.Picture.{group_text};
ghost use Rattle.view_picture.specs.Picture.{looks_text, no_galley_picture, page_height, page_text, page_width};
ghost use Rattle.view_picture.specs.Picture.{paper_of};
ghost use Rattle.view_picture.specs.Picture.{picture_on, picture_text, points_text, size_text, style_text, why_text};
ghost use Rattle.view_picture.specs.Picture.{why_words};

use crate::heads::{head_count, head_y, put_copy_faults, put_heads};
use crate::lines::{put_lines, put_text_at};
use crate::paper::{EDGE, Paper, across, leading};
use crate::widths::widest;
use desk_memory::NoMemory;
use desk_ops::{CopyFault, Symbol};
use std::alloc::{AllocError, Allocator};
use view_galley::{Galley, put_attribute, put_hundredths, text_end};
use view_proof::{NoGalley, put_reason, scale_of};

/// How the classes of texts and boxes look, as CSS.
#[tactic(auto, unfolding(crate::specs::Picture::looks_text))]
pub fn looks() -> &'static str
    ensures { result.now ≡ looks_text }
{
    "text{font-family:Times New Roman,Liberation Serif,Times,serif;white-space:pre}\
    .w{direction:ltr;unicode-bidi:bidi-override;font-variant-ligatures:none;font-kerning:none}\
    .i{font-style:italic}.s{font-variant:small-caps;font-variant-caps:all-small-caps}.m{fill:#c00}\
    .f,.c{fill:#b00}.c,.h,.n{font-family:sans-serif;font-size:8px}\
    .n{fill:#777;text-anchor:end;user-select:none}.b{fill:#e4e9ef;stroke:#a9b4c0;stroke-width:.3}\
    .frame{fill:#fff;stroke:#999;stroke-width:.5}"
}

/// Writes how the classes of texts and boxes look.
fn put_looks<A: Allocator + Copy>(out: &mut String<A>) -> Result<(), AllocError>
    ensures { OnOk result (string_bytes out.new ≡ string_bytes out.old ++ style_text) }
{
    out.push_str("<style>")?;
    out.push_str(looks())?;
    out.push_str("</style>\n")
}

/// Writes the beginning of a picture of so many hundredths of a point, up to its size in points.
pub fn put_size<A: Allocator + Copy>(
    out: &mut String<A>,
    width: u128,
    height: u128,
) -> Result<(), AllocError>
    ensures { OnOk result (string_bytes out.new ≡ string_bytes out.old ++ size_text width height) }
{
    out.push_str(
        "<svg xmlns=\"http://www.w3.org/2000/svg\" xml:space=\"preserve\" viewBox=\"0 0 ",
    )?;
    put_hundredths(out, width)?;
    out.push_str(" ")?;
    put_hundredths(out, height)?;
    out.push_str("\" width=\"")
}

/// Writes the size of a picture in points.
fn put_points<A: Allocator + Copy>(
    out: &mut String<A>,
    width: u128,
    height: u128,
) -> Result<(), AllocError>
    ensures { OnOk result (string_bytes out.new ≡ string_bytes out.old ++ points_text width height) }
{
    put_hundredths(out, width)?;
    out.push_str("pt\" height=\"")?;
    put_hundredths(out, height)?;
    out.push_str("pt\">\n")
}

/// Writes the beginning of a picture, its looks, and the paper.
fn put_begin<A: Allocator + Copy>(
    out: &mut String<A>,
    width: u128,
    height: u128,
) -> Result<(), AllocError>
    ensures { OnOk result (string_bytes out.new ≡ string_bytes out.old ++ begin_text width height) }
{
    put_size(out, width, height)?;
    put_points(out, width, height)?;
    put_looks(out)?;
    out.push_str("<rect width=\"100%\" height=\"100%\" fill=\"#fbf9f2\"/>\n")
}

/// The paper of a galley below so many heads.
pub fn paper_of<'a, A: Allocator>(galley: &Galley<'a, A>, heads: u128) -> Paper
    requires { heads ≤ 2 ^ 80 }
    ensures value { result ≡ paper_of galley.now heads }
    ensures limit { result.top ≤ 2 ^ 96 }
{
    Paper {
        scale: scale_of(galley),
        set: galley.wedge().set_q().get() as u32 * 25,
        top: head_y(heads),
    }
}

/// How high the frame of so many lines is, in hundredths of a point.
pub fn frame_height(paper: Paper, lines: usize) -> u128
    ensures value { result ≡ frame_height paper lines }
    ensures limit { result ≤ 2 ^ 98 }
{
    leading(paper) * lines as u128 + paper.set as u128 / 2
}

/// Writes the frame of the measure, of this width and height in hundredths of a point.
pub fn put_frame<A: Allocator + Copy>(
    out: &mut String<A>,
    paper: Paper,
    width: u128,
    high: u128,
) -> Result<(), AllocError>
    ensures { OnOk result (string_bytes out.new ≡ string_bytes out.old ++ frame_text paper width high) }
{
    out.push_str("<rect class=\"frame\"")?;
    put_attribute(out, "x", EDGE)?;
    put_attribute(out, "y", paper.top)?;
    put_attribute(out, "width", width)?;
    put_attribute(out, "height", high)?;
    out.push_str("/>\n")
}

/// Writes the lines, in letters of the size of the set.
fn put_group<'a, A: Allocator + Copy>(
    out: &mut String<A>,
    copy: &[Symbol],
    paper: Paper,
    galley: &Galley<'a, A>,
) -> Result<(), AllocError>
    requires copy { length copy.now ≤ most_symbols }
    requires top { paper.top ≤ 2 ^ 100 }
    requires lines { All (Stands copy.now galley.now.terms.case) galley.now.lines }
    ensures { OnOk result (string_bytes out.new ≡ string_bytes out.old ++ group_text copy.now paper galley.now) }
{
    out.push_str("<g")?;
    put_attribute(out, "font-size", paper.set as u128)?;
    out.push_str(">\n")?;
    put_lines(out, galley.terms(), copy, paper, galley.lines())?;
    out.push_str("</g>\n")
}

/// How wide the picture of a galley is, in hundredths of a point: 270 points beside the frame, or the widest line, are
/// for the causes.
pub fn page_width<'a, A: Allocator>(paper: Paper, galley: &Galley<'a, A>) -> u128
    ensures value { result ≡ page_width paper galley.now }
    ensures limit { result ≤ 2 ^ 121 }
{
    across(paper.scale.pica, widest(galley.terms(), galley.lines())) + 27_000
}

/// How high the frame of a galley is.
fn galley_height<'a, A: Allocator>(paper: Paper, galley: &Galley<'a, A>) -> u128
    ensures value { result ≡ galley_height paper galley.now }
    ensures limit { result ≤ 2 ^ 98 }
{
    frame_height(paper, galley.lines().len())
}

/// How high the picture of a galley is.
fn page_height<'a, A: Allocator>(paper: Paper, galley: &Galley<'a, A>) -> u128
    requires { paper.top ≤ 2 ^ 100 }
    ensures { result ≡ page_height paper galley.now }
{
    paper.top + (galley_height(paper, galley) + 1_000)
}

/// Writes the beginning of the picture of a galley.
fn put_page<'a, A: Allocator + Copy>(
    out: &mut String<A>,
    paper: Paper,
    galley: &Galley<'a, A>,
) -> Result<(), AllocError>
    requires { paper.top ≤ 2 ^ 100 }
    ensures { OnOk result (string_bytes out.new ≡ string_bytes out.old ++ page_text paper galley.now) }
{
    let width = page_width(paper, galley);
    let height = page_height(paper, galley);
    put_begin(out, width, height)
}

/// Writes the frame of a galley.
fn put_galley_frame<'a, A: Allocator + Copy>(
    out: &mut String<A>,
    paper: Paper,
    galley: &Galley<'a, A>,
) -> Result<(), AllocError>
    ensures { OnOk result (string_bytes out.new ≡ string_bytes out.old ++ galley_frame paper galley.now) }
{
    let height = galley_height(paper, galley);
    let values = galley.values();
    put_frame(out, paper, values.measure as u128 * 100, height)
}

/// Writes a galley on its paper.
fn put_picture_on<'a, A: Allocator + Copy>(
    out: &mut String<A>,
    copy: &[Symbol],
    faults: &[CopyFault],
    galley: &Galley<'a, A>,
    paper: Paper,
) -> Result<(), AllocError>
    requires copy { length copy.now ≤ most_symbols }
    requires top { paper.top ≤ 2 ^ 100 }
    requires lines { All (Stands copy.now galley.now.terms.case) galley.now.lines }
    ensures { OnOk result
        (string_bytes out.new ≡ string_bytes out.old ++ picture_on copy.now faults.now galley.now paper) }
{
    put_page(out, paper, galley)?;
    put_heads(out, copy, faults, galley)?;
    put_galley_frame(out, paper, galley)?;
    put_group(out, copy, paper, galley)?;
    out.push_str("</svg>\n")
}

/// Writes a galley of a copy of at most 1,048,576 symbols as a picture in the form SVG at the end, and the faults of
/// the copy, which mean that a correction is not shown.
pub fn put_picture<'a, A: Allocator + Copy>(
    out: &mut String<A>,
    copy: &[Symbol],
    faults: &[CopyFault],
    galley: &Galley<'a, A>,
) -> Result<(), NoMemory>
    requires copy { length copy.now ≤ most_symbols }
    requires lines { All (Stands copy.now galley.now.terms.case) galley.now.lines }
    ensures { OnOk result (string_bytes out.new ≡ string_bytes out.old ++ picture_text copy.now faults.now galley.now) }
{
    let paper = paper_of(galley, head_count(faults, galley));
    put_picture_on(out, copy, faults, galley, paper)?;
    Ok(())
}

/// Writes why there is no galley, in words.
pub fn put_why_words<A: Allocator + Copy>(
    out: &mut String<A>,
    why: &NoGalley,
) -> Result<(), AllocError>
    ensures { OnOk result (string_bytes out.new ≡ string_bytes out.old ++ why_words why.now) }
{
    out.push_str("no galley: ")?;
    put_reason(out, why)
}

/// Writes why there is no galley.
fn put_why<A: Allocator + Copy>(
    out: &mut String<A>,
    y: u128,
    why: &NoGalley,
) -> Result<(), AllocError>
    ensures { OnOk result (string_bytes out.new ≡ string_bytes out.old ++ why_text y why.now) }
{
    put_text_at(out, "c", 1_000, y)?;
    put_why_words(out, why)?;
    out.push_str(text_end())
}

/// Writes a picture of the faults of a copy, of which there are so many, and why it has no galley.
fn put_none<A: Allocator + Copy>(
    out: &mut String<A>,
    faults: &[CopyFault],
    why: &NoGalley,
    count: u128,
) -> Result<(), AllocError>
    requires value { count ≡ length faults.now }
    requires limit { count ≤ 2 ^ 64 }
    ensures { OnOk result (string_bytes out.new ≡ string_bytes out.old ++ no_galley_picture faults.now why.now) }
{
    let height = head_y(count + 1);
    let y = head_y(count);
    put_begin(out, 50_000, height)?;
    put_copy_faults(out, faults)?;
    put_why(out, y, why)?;
    out.push_str("</svg>\n")
}

/// Writes a picture of the faults of a copy, and of why it has no galley, at the end.
pub fn put_no_galley_picture<A: Allocator + Copy>(
    out: &mut String<A>,
    faults: &[CopyFault],
    why: &NoGalley,
) -> Result<(), NoMemory>
    ensures { OnOk result (string_bytes out.new ≡ string_bytes out.old ++ no_galley_picture faults.now why.now) }
{
    put_none(out, faults, why, faults.len() as u128)?;
    Ok(())
}
