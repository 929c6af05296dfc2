//! Names of files as they stand in a document.

ghost use Rattle.std.specs.Prelude.{◌≡◌, ◌++◌, IfOk, OnOk, string_bytes};
ghost use Rattle.view_pages.specs.Names.{escaped_text, files_text, heading_text, source_text};
ghost use Rattle.view_preview.specs.Proofing.{name_of};

use desk_job::terms::Values;
use std::alloc::{AllocError, Allocator};
use view_galley::put_escaped;
use view_preview::{Job, Source};
use view_proof::put_values;

/// Writes a text, each character of it as XML has it.
pub fn put_escaped_text<A: Allocator + Copy>(
    out: &mut String<A>,
    text: &str,
) -> Result<(), AllocError>
    ensures { OnOk result (string_bytes out.new ≡ string_bytes out.old ++ escaped_text text.now) }
{
    for ch in text.chars() {
        put_escaped(out, ch)?;
    }
    Ok(())
}

/// The name of the feed, or of the file of the text.
pub fn name_of<'a>(source: Source<'a>) -> &'a str
    ensures { result.now ≡ name_of source.entry }
{
    match source {
        Source::Feed(version) => version.feed,
        Source::Text { name, .. } => name,
    }
}

/// Writes the name of the feed or the text.
#[tactic(auto, unfolding(crate::specs::Names::source_text))]
pub fn put_source<A: Allocator + Copy>(out: &mut String<A>, job: &Job<'_>) -> Result<(), AllocError>
    ensures { OnOk result (string_bytes out.new ≡ string_bytes out.old ++ source_text job.now) }
{
    let name = name_of(job.source);
    put_escaped_text(out, name)
}

/// Writes the names of the case and of the wedge.
#[tactic(auto, unfolding(crate::specs::Names::files_text))]
pub fn put_files<A: Allocator + Copy>(out: &mut String<A>, job: &Job<'_>) -> Result<(), AllocError>
    ensures { OnOk result (string_bytes out.new ≡ string_bytes out.old ++ files_text job.now) }
{
    out.push_str(", case ")?;
    put_escaped_text(out, job.case)?;
    out.push_str(", wedge ")?;
    put_escaped_text(out, job.wedge)
}

/// Writes all names, and what the lines are set by.
#[tactic(auto, unfolding(crate::specs::Names::heading_text))]
fn put_heading<A: Allocator + Copy>(
    out: &mut String<A>,
    job: &Job<'_>,
    values: Values,
) -> Result<(), AllocError>
    ensures { OnOk result (string_bytes out.new ≡ string_bytes out.old ++ heading_text job.now values) }
{
    put_source(out, job)?;
    put_files(out, job)?;
    out.push_str(", ")?;
    put_values(out, values)
}

/// What stands at the head of each page.
pub fn heading_of<A: Allocator + Copy>(
    alloc: A,
    job: &Job<'_>,
    values: Values,
) -> Result<String<A>, AllocError>
    ensures { IfOk result (λ s. string_bytes s ≡ heading_text job.now values) }
{
    let mut out = String::new(alloc);
    put_heading(&mut out, job, values)?;
    Ok(out)
}
