//! The document of the galley of a stored feed or of a text, stored under a name.

ghost use Rattle.std.specs.Prelude.{◌≡◌, ◌≤◌, length, All, IfErr, IfOk, OnOk, string_bytes};
ghost use Rattle.feed_files.specs.Files.{HoldsOn};
ghost use Rattle.feed_files.specs.Outputs.{destination};
ghost use Rattle.desk_job.specs.Answer.{AreValues};
ghost use Rattle.view_pages.specs.Documenting.{IsDocumented, IsDrawn, IsUndocumented};

use crate::document::{document_of, no_galley_document};
use desk_memory::NoMemory;
use desk_replica::Settings;
use feed_files::{Files, Kind, Target, store_over};
use script_answers::Memory;
use std::alloc::Allocator;
use view_preview::{Job, Matter, PreviewFault, Unset, take_job};

/// What is drawn of a matter by its settings and those that are tried, on pages of so many points.
fn drawn_of<A: Allocator + Copy>(
    alloc: A,
    job: &Job<'_>,
    matter: &Matter<A>,
    trial: &Settings,
    height: u16,
) -> Result<String<A>, NoMemory>
    requires { AreValues trial.now }
    ensures { IfOk result (λ s. IsDrawn job.now matter.now trial.now height (string_bytes s)) }
{
    match matter.galley(alloc, trial) {
        Ok(galley) => document_of(alloc, job, height, matter.copy(), matter.faults(), &galley),
        Err(Unset::Reason(why)) => no_galley_document(alloc, job, height, matter.faults(), &why),
        Err(Unset::NoMemory) => Err(NoMemory),
    }
}

/// Draws the galley of a version of a stored feed, or of a text, by a case and a wedge, as a document in HTML with
/// pages of this height in points, and stores it under the name of a target; where there is no galley, a document that
/// says why. The names of the feed or text, the case and the wedge stand in it. A line that can't be set is drawn with
/// its fault, and no refusal. Settings that are tried count in place of the copy's, and are stored nowhere. No name is
/// taken: a feed is stored by a rename, so what is read is a whole feed. Where a file that is no document stands under
/// the target, which is not forced, the fault is `Taken`. A target that is forced, and is the feed, the text, the case
/// or the wedge, is replaced as any other. After an `Err` the target has its old bytes.
pub fn document_job<F: Files, A: Allocator + Copy>(
    memory: Memory<A>,
    files: &mut F,
    job: &Job<'_>,
    trial: &Settings,
    height: u16,
    target: &Target<'_>,
) -> Result<(), PreviewFault>
    requires { AreValues trial.now }
    ensures ok { OnOk result
        (IsDocumented job.now trial.now height (destination target.now.name.now target.now.force)
        (F.shelf files.old) (F.shelf files.new)) }
    ensures counted { OnOk result ((F.shelf files.new).failures ≡ (F.shelf files.old).failures) }
    ensures err { IfErr result
        (IsUndocumented job.now trial.now height (destination target.now.name.now target.now.force)
        (F.shelf files.old) (F.shelf files.new)) }
    ensures held { HoldsOn (F.shelf files.old).held (F.shelf files.new).held }
{
    let matter = take_job(memory, files, job)?;
    let drawn = drawn_of(memory.own, job, &matter, trial, height)?;
    store_over(memory.own, files, target, drawn.as_bytes(), Kind::Document)?;
    Ok(())
}
