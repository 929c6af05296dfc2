//! A galley as a document in HTML.

ghost use Rattle.std.specs.Prelude.{◌≡◌, ◌++◌, ◌≤◌, length, All, IfOk, OnOk, string_bytes};
ghost use Rattle.desk_lines.specs.Words.{most_symbols};
ghost use Rattle.view_galley.specs.Galley.{Stands};
ghost use Rattle.view_pages.specs.Document.{document_text, galley_pages, galley_rule};
ghost use Rattle.view_pages.specs.Document as document;
ghost use Rattle.view_pages.specs.Layouts as layouts;

use crate::layouts::layout_of;
use crate::names::heading_of;
use crate::pages::put_pages;
use crate::report::{put_begin, put_refusal, put_report};
use crate::screen::{put_size_rule, put_size_rule_alone};
use crate::tags::document_end;
use desk_memory::NoMemory;
use desk_ops::{CopyFault, Symbol};
use std::alloc::{AllocError, Allocator};
use view_galley::Galley;
use view_preview::Job;
use view_proof::NoGalley;

/// Writes the size of the pages of a galley on paper.
#[tactic(auto, unfolding(crate::specs::Document::galley_rule))]
fn put_galley_rule<'a, A: Allocator + Copy>(
    out: &mut String<A>,
    galley: &Galley<'a, A>,
    height: u16,
) -> Result<(), AllocError>
    ensures { OnOk result (string_bytes out.new ≡ string_bytes out.old ++ galley_rule galley.now height) }
{
    let layout = layout_of(galley, height);
    put_size_rule(out, layout.width, height)
}

/// Writes the pages of a galley that is laid out for this height, behind the first page, and the end of the document.
#[tactic(auto, unfolding(crate::specs::Document::galley_pages))]
fn put_galley_pages<'a, A: Allocator + Copy>(
    out: &mut String<A>,
    job: &Job<'_>,
    copy: &[Symbol],
    galley: &Galley<'a, A>,
    height: u16,
) -> Result<(), AllocError>
    requires copy { length copy.now ≤ most_symbols }
    requires lines { All (Stands copy.now galley.now.terms.case) galley.now.lines }
    ensures { OnOk result
        (string_bytes out.new ≡ string_bytes out.old ++
        galley_pages job.now copy.now galley.now (layouts.layout_of galley.now height)) }
{
    let layout = layout_of(galley, height);
    let heading = heading_of(*out.allocator(), job, galley.values())?;
    put_pages(out, copy, galley, layout, heading.as_str())?;
    out.push_str(document_end())
}

/// A galley of a copy of at most 1,048,576 symbols as a document in HTML with pages of this height in points, and the
/// faults of the copy, which mean that a correction is not shown.
#[tactic(auto, unfolding(crate::specs::Document::document_text))]
pub fn document_of<'a, A: Allocator + Copy>(
    alloc: A,
    job: &Job<'_>,
    height: u16,
    copy: &[Symbol],
    faults: &[CopyFault],
    galley: &Galley<'a, A>,
) -> Result<String<A>, NoMemory>
    requires copy { length copy.now ≤ most_symbols }
    requires lines { All (Stands copy.now galley.now.terms.case) galley.now.lines }
    ensures { IfOk result (λ s. string_bytes s ≡ document_text job.now height copy.now faults.now galley.now) }
{
    let mut out = String::new(alloc);
    put_begin(&mut out, job)?;
    put_galley_rule(&mut out, galley, height)?;
    put_report(&mut out, job, copy, faults, galley)?;
    put_galley_pages(&mut out, job, copy, galley, height)?;
    Ok(out)
}

/// A document of the faults of a copy, and of why it has no galley.
#[tactic(auto, unfolding(crate::specs::Document::no_galley_document))]
pub fn no_galley_document<A: Allocator + Copy>(
    alloc: A,
    job: &Job<'_>,
    height: u16,
    faults: &[CopyFault],
    why: &NoGalley,
) -> Result<String<A>, NoMemory>
    ensures { IfOk result (λ s. string_bytes s ≡ document.no_galley_document job.now height faults.now why.now) }
{
    let mut out = String::new(alloc);
    put_begin(&mut out, job)?;
    put_size_rule_alone(&mut out, height)?;
    put_refusal(&mut out, job, faults, why)?;
    out.push_str(document_end())?;
    Ok(out)
}
