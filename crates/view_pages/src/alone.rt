//! The pages of a galley, each as a picture of its own.

ghost use Rattle.std.specs.Prelude.{◌≡◌, ◌+◌, ◌*◌, ◌++◌, ◌≤◌, ◌^◌, [], length, map, All, IfOk, OnOk, string_bytes};
ghost use Rattle.std.specs.Int.{div_ceil};
ghost use Rattle.desk_lines.specs.Words.{most_symbols};
ghost use Rattle.view_galley.specs.Galley.{Stands};
ghost use Rattle.view_pages.specs.Alone.{all_alone, alone_heading, faulty_text, looks_begin, page_alone, paper_looks};
ghost use Rattle.view_pages.specs.Alone.{id_alone, sheet_alone};
ghost use Rattle.view_pages.specs.Alone as alone;

use crate::layouts::Layout;
use crate::names::{put_files, put_source};
use crate::pages::{put_extent, put_page_body};
use crate::tags::sheet_number;
use desk_ops::{CopyFault, Symbol};
use std::alloc::{AllocError, Allocator};
use view_galley::{Galley, put_number};
use view_picture::{looks, put_size};
use view_preview::Job;
use view_proof::put_head_words;

/// What ends the beginning of a page, and begins its looks.
#[tactic(auto, unfolding(crate::specs::Alone::looks_begin))]
fn looks_begin() -> &'static str
    ensures { result.now ≡ looks_begin }
{
    "\">\n<style>"
}

/// How its paper and its rules look, and the paper.
#[tactic(auto, unfolding(crate::specs::Alone::paper_looks))]
fn paper_looks() -> &'static str
    ensures { result.now ≡ paper_looks }
{
    ".paper{fill:#fbf9f2}.r{stroke:#fff;stroke-width:.3;fill:none}\
    .e{fill:none}.d{stroke:#111;stroke-width:.6;fill:none}.d.f{stroke:#b00;fill:none}\
    .y{fill:#b00;font-family:sans-serif;font-size:6px}</style>\n\
    <rect class=\"paper\" width=\"100%\" height=\"100%\"/>\n"
}

/// Writes how many faults a copy has, where it has any.
#[tactic(auto, unfolding(crate::specs::Alone::faulty_text))]
fn put_faulty<A: Allocator + Copy>(out: &mut String<A>, count: usize) -> Result<(), AllocError>
    ensures { OnOk result (string_bytes out.new ≡ string_bytes out.old ++ faulty_text count) }
{
    if count == 0 {
        return Ok(());
    }
    out.push_str(", ")?;
    put_number(out, count as u128)?;
    out.push_str(" faults of the copy")
}

/// Writes all names, what the galley has, and how many faults the copy has.
#[tactic(auto, unfolding(crate::specs::Alone::alone_heading))]
fn put_alone_heading<'a, A: Allocator + Copy>(
    out: &mut String<A>,
    job: &Job<'_>,
    faults: &[CopyFault],
    galley: &Galley<'a, A>,
) -> Result<(), AllocError>
    ensures { OnOk result (string_bytes out.new ≡ string_bytes out.old ++ alone_heading job.now faults.now galley.now) }
{
    put_source(out, job)?;
    put_files(out, job)?;
    out.push_str(", ")?;
    put_head_words(out, galley)?;
    put_faulty(out, faults.len())
}

/// What stands at the head of each page.
pub fn alone_heading<'a, A: Allocator + Copy>(
    alloc: A,
    job: &Job<'_>,
    faults: &[CopyFault],
    galley: &Galley<'a, A>,
) -> Result<String<A>, AllocError>
    ensures { IfOk result (λ s. string_bytes s ≡ alone.alone_heading job.now faults.now galley.now) }
{
    let mut out = String::new(alloc);
    put_alone_heading(&mut out, job, faults, galley)?;
    Ok(out)
}

/// Writes the id of a page by its number from 0, its looks and its paper.
#[tactic(auto, unfolding(crate::specs::Alone::id_alone))]
fn put_id_alone<A: Allocator + Copy>(out: &mut String<A>, number: usize) -> Result<(), AllocError>
    ensures { OnOk result (string_bytes out.new ≡ string_bytes out.old ++ id_alone number) }
{
    out.push_str(sheet_number())?;
    put_number(out, number as u128 + 1)?;
    out.push_str(looks_begin())?;
    out.push_str(looks())?;
    out.push_str(paper_looks())
}

/// Writes the beginning of a page.
#[tactic(auto, unfolding(crate::specs::Alone::sheet_alone))]
fn put_sheet_alone<A: Allocator + Copy>(
    out: &mut String<A>,
    layout: Layout,
    number: usize,
) -> Result<(), AllocError>
    ensures { OnOk result (string_bytes out.new ≡ string_bytes out.old ++ sheet_alone layout number) }
{
    put_size(out, layout.width, layout.height)?;
    put_extent(out, layout)?;
    put_id_alone(out, number)
}

/// Writes a page by its number from 0.
#[tactic(auto, unfolding(crate::specs::Alone::page_alone))]
fn put_page_alone<'a, A: Allocator + Copy>(
    out: &mut String<A>,
    copy: &[Symbol],
    galley: &Galley<'a, A>,
    layout: Layout,
    heading: &str,
    number: usize,
) -> Result<(), AllocError>
    requires copy { length copy.now ≤ most_symbols }
    requires top { layout.paper.top ≤ 2 ^ 100 }
    requires lines { All (Stands copy.now galley.now.terms.case) galley.now.lines }
    requires number { number * layout.lines ≤ length galley.now.lines }
    ensures { OnOk result
        (string_bytes out.new ≡ string_bytes out.old ++ page_alone copy.now galley.now layout heading.now number) }
{
    put_sheet_alone(out, layout, number)?;
    put_page_body(out, copy, galley, layout, heading, number)
}

/// A page by its number from 0.
fn page_alone<'a, A: Allocator + Copy>(
    alloc: A,
    copy: &[Symbol],
    galley: &Galley<'a, A>,
    layout: Layout,
    heading: &str,
    number: usize,
) -> Result<String<A>, AllocError>
    requires copy { length copy.now ≤ most_symbols }
    requires top { layout.paper.top ≤ 2 ^ 100 }
    requires lines { All (Stands copy.now galley.now.terms.case) galley.now.lines }
    requires number { number * layout.lines ≤ length galley.now.lines }
    ensures { IfOk result (λ s. string_bytes s ≡ page_alone copy.now galley.now layout heading.now number) }
{
    let mut out = String::new(alloc);
    put_page_alone(&mut out, copy, galley, layout, heading, number)?;
    Ok(out)
}

/// All pages of a galley that is laid out.
pub fn all_alone<'a, A: Allocator + Copy>(
    alloc: A,
    copy: &[Symbol],
    galley: &Galley<'a, A>,
    layout: Layout,
    heading: &str,
) -> Result<Vec<String<A>, A>, AllocError>
    requires copy { length copy.now ≤ most_symbols }
    requires top { layout.paper.top ≤ 2 ^ 100 }
    requires some { 1 ≤ layout.lines }
    requires pages { layout.pages ≡ div_ceil (length galley.now.lines) layout.lines }
    requires lines { All (Stands copy.now galley.now.terms.case) galley.now.lines }
    ensures { IfOk result (λ v. map string_bytes v.items ≡ all_alone copy.now galley.now layout heading.now) }
{
    let mut texts = Vec::new(alloc);
    for number in 0..layout.pages {
        texts.push(page_alone(alloc, copy, galley, layout, heading, number)?)?;
    }
    Ok(texts)
}
