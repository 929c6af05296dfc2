//! The picture of a galley and its document, stored after the galley was written.

ghost use Rattle.std.specs.Option.{option_copied};
ghost use Rattle.std.specs.Prelude.{◌≡◌, ◌≤◌, ◌↔◌, ◌⊎◌, IfErr, OnOk, true};
ghost use Rattle.desk_job.specs.Answer.{AreValues};
ghost use Rattle.feed_files.specs.Outputs.{destination};
ghost use Rattle.program_desk.specs.Depicting.{AreAbsent, AreThere, DocumentTakes, IsDocumentAbsent, IsDocumentThere};
ghost use Rattle.program_desk.specs.Depicting.{IsMisplaced, IsNameOf, IsOrNone, IsPictureAbsent, IsPictureThere};
ghost use Rattle.program_desk.specs.Depicting.{IsPictured, IsSourceOf, IsUnpictured, PictureTakes, height_of};
ghost use Rattle.program_desk.specs.Explained.{StaysSo};

use crate::causes::{Cause, Output, name_of, proof_cause};
use crate::previews::{Preview, is_source, memory_of};
use crate::reporting::reported_more;
use crate::told::{Ending, Told};
use desk_replica::Settings;
use feed_files::{Files, Target};
use program_host::Explains;
use std::alloc::Global;
use std::io::Write;
use view_pages::{document_job, pages_job};
use view_picture::picture_job;
use view_preview::{Job, PreviewFault};

/// The height of a document's pages in points, where none is given that of a4.
fn height_of(page: Option<u16>) -> u16
    ensures { result ≡ height_of page }
{
    match page {
        Some(height) => height,
        None => 842,
    }
}

/// Stores the picture of a galley under a target: whole, or in pages where their height is given.
fn picture_by<F: Files>(
    alloc: Global,
    asked: &Preview<'_>,
    trial: &Settings,
    target: &Target<'_>,
    files: &mut F,
) -> Result<(), PreviewFault>
    requires { AreValues trial.now }
    ensures ok { OnOk result
        (IsPictured asked.now.job trial.now asked.now.drawings.page
        (destination target.now.name.now target.now.force) (F.shelf files.old) (F.shelf files.new)) }
    ensures err { IfErr result
        (IsUnpictured asked.now.job trial.now asked.now.drawings.page
        (destination target.now.name.now target.now.force) (F.shelf files.old) (F.shelf files.new)) }
{
    let memory = memory_of(alloc);
    match asked.drawings.page {
        Some(height) => pages_job(memory, files, &asked.job, trial, height, target),
        None => picture_job(memory, files, &asked.job, trial, target),
    }
}

/// Stores the picture of a galley, where one is asked for, after what was written on standard error: with status 0
/// where none is asked for or it is there.
fn pictured<E: Write, F: Files + Explains>(
    alloc: Global,
    asked: &Preview<'_>,
    trial: &Settings,
    told: Told,
    faults: &mut E,
    files: &mut F,
) -> Ending
    requires { AreValues trial.now }
    ensures within { result.status ≤ 1 }
    ensures there { result.status ≡ 0
        → IsPictureThere asked.now trial.now (option_copied asked.now.drawings.picture) (F.shelf files.old)
        (F.shelf files.new) × StaysSo told.is_whole result.told.is_whole (E.contents faults.old)
        (E.contents faults.new) }
    ensures absent { result.status ≡ 1
        → IsPictureAbsent asked.now trial.now asked.now.drawings.picture (F.shelf files.old) (F.shelf files.new)
        told.is_whole result.told.is_whole (E.contents faults.old) (E.contents faults.new) }
{
    let Some(name) = asked.drawings.picture else {
        return Ending { status: 0, told };
    };
    let force = asked.drawings.force;
    let target = Target { name, force };
    match picture_by(alloc, asked, trial, &target, files) {
        Ok(()) => Ending { status: 0, told },
        Err(fault) => {
            let cause = proof_cause(&asked.job, name, fault);
            let told = reported_more(alloc, faults, told, files, cause);
            Ending { status: 1, told }
        }
    }
}

/// Stores the document of a galley, where one is asked for, after what was written on standard error: with status 0
/// where none is asked for or it is there.
fn documented<E: Write, F: Files + Explains>(
    alloc: Global,
    asked: &Preview<'_>,
    trial: &Settings,
    told: Told,
    faults: &mut E,
    files: &mut F,
) -> Ending
    requires { AreValues trial.now }
    ensures within { result.status ≤ 1 }
    ensures there { result.status ≡ 0
        → IsDocumentThere asked.now trial.now (option_copied asked.now.drawings.document) (F.shelf files.old)
        (F.shelf files.new) × StaysSo told.is_whole result.told.is_whole (E.contents faults.old)
        (E.contents faults.new) }
    ensures absent { result.status ≡ 1
        → IsDocumentAbsent asked.now trial.now asked.now.drawings.document (F.shelf files.old) (F.shelf files.new)
        told.is_whole result.told.is_whole (E.contents faults.old) (E.contents faults.new) }
{
    let Some(name) = asked.drawings.document else {
        return Ending { status: 0, told };
    };
    let force = asked.drawings.force;
    let to = Target { name, force };
    let memory = memory_of(alloc);
    let height = height_of(asked.drawings.page);
    match document_job(memory, files, &asked.job, trial, height, &to) {
        Ok(()) => Ending { status: 0, told },
        Err(fault) => {
            let cause = proof_cause(&asked.job, name, fault);
            let said = reported_more(alloc, faults, told, files, cause);
            Ending {
                status: 1,
                told: said,
            }
        }
    }
}

/// The status of two ends: 0 where both have it.
fn worse(one: u8, other: u8) -> u8
    requires first { one ≤ 1 }
    requires other { other ≤ 1 }
    ensures within { result ≤ 1 }
    ensures both { result ≡ 0 → (one ≡ 0) × (other ≡ 0) }
    ensures second { result ≡ 1 → one ≡ 0 → other ≡ 1 }
{
    if one == 0 { other } else { 1 }
}

/// Stores the picture of a galley and then its document, each where it is asked for, after what was written on standard
/// error: with status 0 where none that is asked for is absent. The document is stored also where the picture was not.
pub fn depicted<E: Write, F: Files + Explains>(
    alloc: Global,
    asked: &Preview<'_>,
    trial: &Settings,
    told: Told,
    faults: &mut E,
    files: &mut F,
) -> Ending
    requires { AreValues trial.now }
    ensures within { result.status ≤ 1 }
    ensures there { result.status ≡ 0
        → AreThere asked.now trial.now (F.shelf files.old) (F.shelf files.new)
        × StaysSo told.is_whole result.told.is_whole (E.contents faults.old) (E.contents faults.new) }
    ensures absent { result.status ≡ 1
        → AreAbsent asked.now trial.now (F.shelf files.old) (F.shelf files.new) told.is_whole
        result.told.is_whole (E.contents faults.old) (E.contents faults.new) }
{
    let one = pictured(alloc, asked, trial, told, faults, files);
    let other = documented(alloc, asked, trial, one.told, faults, files);
    let status = worse(one.status, other.status);
    Ending {
        status,
        told: other.told,
    }
}

/// Whether a name is one of those of what a galley is made of.
fn is_source_of(job: &Job<'_>, target: &str) -> bool
    ensures { result ≡ true ↔ IsSourceOf job.now target.now }
{
    is_source(name_of(job.source), job.case, job.wedge, target)
}

/// Whether a name is that of a picture.
fn is_name_of(picture: Option<&str>, target: &str) -> bool
    ensures { result ≡ true ↔ IsNameOf picture.entry target.now }
{
    match picture {
        Some(name) => name == target,
        None => false,
    }
}

/// Whether a name is that of the picture of a galley, or one of those of what the galley is made of.
fn is_taken(asked: &Preview<'_>, target: &str) -> bool
    ensures { result ≡ true
        ↔ IsNameOf asked.now.drawings.picture target.now ⊎ IsSourceOf asked.now.job target.now }
{
    is_name_of(asked.drawings.picture, target) || is_source_of(&asked.job, target)
}

/// Why the picture is not begun, if so: it would take the place of what it is made of.
fn picture_taking<'a>(asked: &Preview<'a>) -> Option<Cause<'a>>
    ensures { IsOrNone (PictureTakes asked.now) result }
{
    match asked.drawings.picture {
        Some(target) => {
            if is_source_of(&asked.job, target) {
                return Some(Cause::Source(target, Output::Picture));
            }
            None
        }
        None => None,
    }
}

/// Why the document is not begun, if so: it would take the place of what it is made of, or that of the picture.
fn document_taking<'a>(asked: &Preview<'a>) -> Option<Cause<'a>>
    ensures { IsOrNone (DocumentTakes asked.now) result }
{
    match asked.drawings.document {
        Some(target) => {
            if is_taken(asked, target) {
                return Some(Cause::Source(target, Output::Document));
            }
            None
        }
        None => None,
    }
}

/// Why nothing is begun, if so: the picture or the document would take the place of a file that is read, or the
/// document that of the picture.
pub fn misplaced<'a>(asked: &Preview<'a>) -> Option<Cause<'a>>
    ensures { IsMisplaced asked.now result }
{
    match picture_taking(asked) {
        Some(cause) => Some(cause),
        None => document_taking(asked),
    }
}
