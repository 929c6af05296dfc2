//! The pages of the galley of a stored feed or of a text, each stored as a picture under a name with its number.

ghost use Rattle.std.specs.Prelude.{◌≡◌, ◌≤◌, ◌<◌, ◌++◌, ◌↔◌, true, length, map, All, IfErr, IfOk, IfSome, IsNone};
ghost use Rattle.std.specs.Prelude.{OnOk, drop};
ghost use Rattle.std.specs.Prelude.{string_bytes};
ghost use Rattle.std.specs.Str.{IsCharBoundary};
ghost use Rattle.feed_files.specs.Files.{HoldsOn, Stays};
ghost use Rattle.feed_files.specs.Outputs.{destination};
ghost use Rattle.desk_job.specs.Answer.{AreValues};
ghost use Rattle.view_galley.specs.Galley.{Stands};
ghost use Rattle.view_pages.specs.Alone.{pictures_of};
ghost use Rattle.view_pages.specs.Layouts as layouts;
ghost use Rattle.view_pages.specs.Numbering.{ArePaged, ArePut, AreUnpaged, AreUnput, GivesPages, GivesShort, IsLong};
ghost use Rattle.view_pages.specs.Numbering.{IsPut, IsShort, IsSource, IsUndrawn, IsUnput};
ghost use Rattle.view_pages.specs.Numbering.{ShowsPages, ending_at, has_slash, page_name};

use crate::alone::{all_alone, alone_heading};
use crate::layouts::layout_of;
use crate::names::name_of;
use desk_memory::NoMemory;
use desk_replica::Settings;
use feed_files::{Files, Kind, Target, store_over};
use script_answers::Memory;
use std::alloc::{AllocError, Allocator};
use view_galley::{Galley, put_number};
use view_picture::picture_job;
use view_preview::{Job, Matter, PreviewFault, Unset, take_job};

/// Whether bytes have a slash.
fn has_slash(bytes: &[u8]) -> bool
    ensures { result ≡ has_slash bytes.now }
{
    bytes.iter().any(|byte| *byte == b'/')
}

/// Whether bytes have a slash from a place on.
fn has_slash_behind(bytes: &[u8], at: usize) -> bool
    requires { at ≤ length bytes.now }
    ensures { result ≡ has_slash (drop at bytes.now) }
{
    has_slash(&bytes[at..])
}

/// Where the ending of a name begins, with its point; none where a slash is behind the last point.
fn ending_at(name: &str) -> Option<usize>
    ensures value { result ≡ ending_at name.now }
    ensures boundary { IfSome result (IsCharBoundary name.now) }
{
    match name.rfind('.') {
        Some(at) => {
            if has_slash_behind(name.as_bytes(), at) {
                None
            } else {
                Some(at)
            }
        }
        None => None,
    }
}

/// Writes a name with a number before its ending, or behind it.
fn put_page_name<A: Allocator + Copy>(
    out: &mut String<A>,
    name: &str,
    number: usize,
) -> Result<(), AllocError>
    ensures { OnOk result (string_bytes out.new ≡ string_bytes out.old ++ page_name name.now number) }
{
    let Some(at) = ending_at(name) else {
        out.push_str(name)?;
        out.push_str(".")?;
        return put_number(out, number as u128);
    };
    let (stem, ending) = name.split_at(at);
    out.push_str(stem)?;
    out.push_str(".")?;
    put_number(out, number as u128)?;
    out.push_str(ending)
}

/// The name of the page of a number: `one.svg` gives `one.2.svg`.
fn page_name<A: Allocator + Copy>(
    alloc: A,
    name: &str,
    number: usize,
) -> Result<String<A>, NoMemory>
    ensures { IfOk result (λ s. string_bytes s ≡ page_name name.now number) }
{
    let mut out = String::new(alloc);
    put_page_name(&mut out, name, number)?;
    Ok(out)
}

/// Whether a name is one of those of what is drawn.
fn is_source(job: &Job<'_>, name: &str) -> bool
    ensures { result ≡ true ↔ IsSource job.now name.now }
{
    name == name_of(job.source) || name == job.case || name == job.wedge
}

/// Stores a picture under a name, where nothing stands but a picture, and which is none of what is drawn.
fn put_picture<F: Files, A: Allocator + Copy>(
    alloc: A,
    files: &mut F,
    job: &Job<'_>,
    name: &str,
    text: &str,
) -> Result<(), PreviewFault>
    ensures ok { OnOk result (IsPut job.now name.now text.now (F.shelf files.old) (F.shelf files.new)) }
    ensures counted { OnOk result ((F.shelf files.new).failures ≡ (F.shelf files.old).failures) }
    ensures err { IfErr result (IsUnput job.now name.now (F.shelf files.old) (F.shelf files.new)) }
    ensures held { HoldsOn (F.shelf files.old).held (F.shelf files.new).held }
{
    if is_source(job, name) {
        return Err(PreviewFault::Taken(Kind::Other));
    }
    let target = Target { name, force: false };
    store_over(alloc, files, &target, text.as_bytes(), Kind::Picture)?;
    Ok(())
}

/// Stores a page under its name with its number.
fn put_page<F: Files, A: Allocator + Copy>(
    alloc: A,
    files: &mut F,
    job: &Job<'_>,
    name: &str,
    number: usize,
    text: &str,
) -> Result<(), PreviewFault>
    ensures ok { OnOk result
        (IsPut job.now (page_name name.now number) text.now (F.shelf files.old) (F.shelf files.new)) }
    ensures counted { OnOk result ((F.shelf files.new).failures ≡ (F.shelf files.old).failures) }
    ensures err { IfErr result
        (IsUnput job.now (page_name name.now number) (F.shelf files.old) (F.shelf files.new)) }
    ensures held { HoldsOn (F.shelf files.old).held (F.shelf files.new).held }
{
    let own = page_name(alloc, name, number)?;
    put_picture(alloc, files, job, own.as_str(), text)
}

/// Stores pages under their names, in their order.
fn put_pages<F: Files, A: Allocator + Copy>(
    alloc: A,
    files: &mut F,
    job: &Job<'_>,
    name: &str,
    texts: &[String<A>],
) -> Result<(), PreviewFault>
    ensures ok { OnOk result
        (ArePut job.now name.now 1 (map string_bytes texts.now) (F.shelf files.old) (F.shelf files.new)) }
    ensures counted { OnOk result ((F.shelf files.new).failures ≡ (F.shelf files.old).failures) }
    ensures err { IfErr result
        (AreUnput job.now name.now 1 (map string_bytes texts.now) (F.shelf files.old) (F.shelf files.new)) }
    ensures held { HoldsOn (F.shelf files.old).held (F.shelf files.new).held }
{
    for (before, text) in texts.iter().enumerate() {
        let put = put_page(alloc, files, job, name, before + 1, text.as_str());
        if let Err(why) = put {
            return Err(why);
        }
    }
    Ok(())
}

/// The pages of a galley, where there are more than one.
fn pages_of<'a, A: Allocator + Copy>(
    alloc: A,
    job: &Job<'_>,
    matter: &Matter<A>,
    galley: &Galley<'a, A>,
    height: u16,
) -> Result<Option<Vec<String<A>, A>>, NoMemory>
    requires { All (Stands (matter.now).copy galley.now.terms.case) galley.now.lines }
    ensures some { IfOk result (λ o. IfSome o (λ v. IsLong galley.now height
        × (map string_bytes v.items ≡ pictures_of job.now height (matter.now).copy (matter.now).faults galley.now))) }
    ensures none { IfOk result (λ o. IsNone o → (layouts.layout_of galley.now height).pages ≤ 1) }
{
    let layout = layout_of(galley, height);
    if layout.pages <= 1 {
        return Ok(None);
    }
    let heading = alone_heading(alloc, job, matter.faults(), galley)?;
    Ok(Some(all_alone(alloc, matter.copy(), galley, layout, heading.as_str())?))
}

/// The pages of the galley of a matter, where there are more than one.
fn long_pages<A: Allocator + Copy>(
    alloc: A,
    job: &Job<'_>,
    matter: &Matter<A>,
    trial: &Settings,
    height: u16,
) -> Result<Option<Vec<String<A>, A>>, NoMemory>
    requires { AreValues trial.now }
    ensures some { IfOk result (λ o. IfSome o
        (λ v. ShowsPages job.now matter.now trial.now height (map string_bytes v.items))) }
    ensures none { IfOk result (λ o. IsNone o → IsShort matter.now trial.now height) }
{
    match matter.galley(alloc, trial) {
        Ok(galley) => pages_of(alloc, job, matter, &galley, height),
        Err(Unset::Reason(_)) => Ok(None),
        Err(Unset::NoMemory) => Err(NoMemory),
    }
}

/// The pages of what a job gives, where there are more than one.
fn take_pages<F: Files, A: Allocator + Copy>(
    memory: Memory<A>,
    files: &mut F,
    job: &Job<'_>,
    trial: &Settings,
    height: u16,
) -> Result<Option<Vec<String<A>, A>>, PreviewFault>
    requires { AreValues trial.now }
    ensures some { IfOk result (λ o. IfSome o
        (λ v. GivesPages job.now (F.shelf files.old) trial.now height (map string_bytes v.items))) }
    ensures none { IfOk result (λ o. IsNone o → GivesShort job.now (F.shelf files.old) trial.now height) }
    ensures still { OnOk result (F.shelf files.new ≡ F.shelf files.old) }
    ensures err { IfErr result (IsUndrawn job.now (F.shelf files.old) (F.shelf files.new)) }
    ensures stays { Stays (F.shelf files.old) (F.shelf files.new) }
{
    let matter = take_job(memory, files, job)?;
    Ok(long_pages(memory.own, job, &matter, trial, height)?)
}

/// Draws the galley of a version of a stored feed, or of a text, by a case and a wedge, as pictures with pages of this
/// height in points. Where it is longer than a page, each page is stored under the name of the target with its number
/// before the ending, as `one.2.svg`, in their order; nothing is stored under the name itself. Else the picture is
/// stored as `picture_job` does. Each page takes the place of a picture alone, also where the target is forced, and of
/// none of the files that are read. After an `Err` the pages before the one that was not stored stand there. Pages of
/// an older galley that was longer stay.
pub fn pages_job<F: Files, A: Allocator + Copy>(
    memory: Memory<A>,
    files: &mut F,
    job: &Job<'_>,
    trial: &Settings,
    height: u16,
    target: &Target<'_>,
) -> Result<(), PreviewFault>
    requires { AreValues trial.now }
    ensures ok { OnOk result
        (ArePaged job.now trial.now height (destination target.now.name.now target.now.force)
        (F.shelf files.old) (F.shelf files.new)) }
    ensures counted { OnOk result ((F.shelf files.new).failures ≡ (F.shelf files.old).failures) }
    ensures err { IfErr result
        (AreUnpaged job.now trial.now height (destination target.now.name.now target.now.force)
        (F.shelf files.old) (F.shelf files.new)) }
    ensures held { HoldsOn (F.shelf files.old).held (F.shelf files.new).held }
{
    match take_pages(memory, files, job, trial, height)? {
        Some(texts) => put_pages(memory.own, files, job, target.name, &texts),
        None => picture_job(memory, files, job, trial, target),
    }
}
