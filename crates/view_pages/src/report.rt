//! The first page of a document: what it is of, the faults of the copy, and what is wrong with the galley.

ghost use Rattle.std.specs.Prelude.{◌≡◌, ◌++◌, All, OnOk, string_bytes};
ghost use Rattle.view_proof.specs.Lines.{HasWords};
ghost use Rattle.view_pages.specs.Report.{begin_text, cause_line, numbered_text, numbers_text, opening_text, refusal_text};
ghost use Rattle.view_pages.specs.Report.{report_text, summary_text, troubles_text};

use crate::lists::{put_faults_list, put_sorts_list};
use crate::names::{put_escaped_text, put_source};
use crate::screen::page_looks;
use crate::table::put_table;
use crate::tags::{
    case_in, cause_begin, cause_end, main_begin, main_end, main_next, names_end, title_begin,
    title_end, wedge_in,
};
use desk_job::terms::Values;
use desk_ops::{CopyFault, Symbol};
use feed_files::document_head;
use std::alloc::{AllocError, Allocator};
use view_galley::{Galley, put_number};
use view_picture::{looks, put_why_words};
use view_preview::Job;
use view_proof::{NoGalley, put_head_words, scale_of};

/// Writes the beginning of a document, up to the size of its pages.
#[tactic(auto, unfolding(crate::specs::Report::begin_text))]
pub fn put_begin<A: Allocator + Copy>(out: &mut String<A>, job: &Job<'_>) -> Result<(), AllocError>
    ensures { OnOk result (string_bytes out.new ≡ string_bytes out.old ++ begin_text job.now) }
{
    out.push_str(document_head())?;
    out.push_str(title_begin())?;
    put_source(out, job)?;
    out.push_str(title_end())?;
    out.push_str(looks())?;
    out.push_str(page_looks())
}

/// Writes the beginning of the first page, with the name of the feed or the text.
#[tactic(auto, unfolding(crate::specs::Report::opening_text))]
fn put_opening<A: Allocator + Copy>(out: &mut String<A>, job: &Job<'_>) -> Result<(), AllocError>
    ensures { OnOk result (string_bytes out.new ≡ string_bytes out.old ++ opening_text job.now) }
{
    out.push_str(main_begin())?;
    put_source(out, job)?;
    out.push_str(main_next())
}

/// Writes a file by its name, behind the number in it.
#[tactic(auto, unfolding(crate::specs::Report::numbered_text))]
fn put_numbered<A: Allocator + Copy>(
    out: &mut String<A>,
    before: &str,
    number: u32,
    name: &str,
) -> Result<(), AllocError>
    ensures { OnOk result
        (string_bytes out.new ≡ string_bytes out.old ++ numbered_text before.now number name.now) }
{
    out.push_str(before)?;
    put_number(out, number as u128)?;
    out.push_str(" in ")?;
    put_escaped_text(out, name)
}

/// Writes the numbers of the case and the wedge, and their files.
#[tactic(auto, unfolding(crate::specs::Report::numbers_text))]
fn put_numbers<A: Allocator + Copy>(
    out: &mut String<A>,
    job: &Job<'_>,
    values: Values,
) -> Result<(), AllocError>
    ensures { OnOk result (string_bytes out.new ≡ string_bytes out.old ++ numbers_text job.now values) }
{
    put_numbered(out, case_in(), values.case, job.case)?;
    put_numbered(out, wedge_in(), values.wedge, job.wedge)?;
    out.push_str(names_end())
}

/// Writes how many lines there are, how many are at fault, what they are set by, and the files.
#[tactic(auto, unfolding(crate::specs::Report::summary_text))]
fn put_summary<'a, A: Allocator + Copy>(
    out: &mut String<A>,
    job: &Job<'_>,
    galley: &Galley<'a, A>,
) -> Result<(), AllocError>
    ensures { OnOk result (string_bytes out.new ≡ string_bytes out.old ++ summary_text job.now galley.now) }
{
    out.push_str("<p>")?;
    put_head_words(out, galley)?;
    put_numbers(out, job, galley.values())
}

/// Writes the faults of the copy, the symbols that the case lacks, and the lines at fault.
#[tactic(auto, unfolding(crate::specs::Report::troubles_text))]
fn put_troubles<'a, A: Allocator + Copy>(
    out: &mut String<A>,
    copy: &[Symbol],
    faults: &[CopyFault],
    galley: &Galley<'a, A>,
) -> Result<(), AllocError>
    requires { All (HasWords copy.now) galley.now.lines }
    ensures { OnOk result
        (string_bytes out.new ≡ string_bytes out.old ++ troubles_text copy.now faults.now galley.now) }
{
    put_faults_list(out, faults)?;
    put_sorts_list(out, copy, galley.lacking())?;
    put_table(out, copy, scale_of(galley), galley.lines())
}

/// Writes the first page.
#[tactic(auto, unfolding(crate::specs::Report::report_text))]
pub fn put_report<'a, A: Allocator + Copy>(
    out: &mut String<A>,
    job: &Job<'_>,
    copy: &[Symbol],
    faults: &[CopyFault],
    galley: &Galley<'a, A>,
) -> Result<(), AllocError>
    requires { All (HasWords copy.now) galley.now.lines }
    ensures { OnOk result
        (string_bytes out.new ≡ string_bytes out.old ++ report_text job.now copy.now faults.now galley.now) }
{
    put_opening(out, job)?;
    put_summary(out, job, galley)?;
    put_troubles(out, copy, faults, galley)?;
    out.push_str(main_end())
}

/// Writes why there is no galley.
#[tactic(auto, unfolding(crate::specs::Report::cause_line))]
fn put_cause_line<A: Allocator + Copy>(
    out: &mut String<A>,
    why: &NoGalley,
) -> Result<(), AllocError>
    ensures { OnOk result (string_bytes out.new ≡ string_bytes out.old ++ cause_line why.now) }
{
    out.push_str(cause_begin())?;
    put_why_words(out, why)?;
    out.push_str(cause_end())
}

/// Writes the first page where there is no galley: the faults of the copy, and why.
#[tactic(auto, unfolding(crate::specs::Report::refusal_text))]
pub fn put_refusal<A: Allocator + Copy>(
    out: &mut String<A>,
    job: &Job<'_>,
    faults: &[CopyFault],
    why: &NoGalley,
) -> Result<(), AllocError>
    ensures { OnOk result
        (string_bytes out.new ≡ string_bytes out.old ++ refusal_text job.now faults.now why.now) }
{
    put_opening(out, job)?;
    put_faults_list(out, faults)?;
    put_cause_line(out, why)?;
    out.push_str(main_end())
}
