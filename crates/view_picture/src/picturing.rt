//! The picture of the galley of a stored feed or of a text, stored under a name.

ghost use Rattle.std.specs.Prelude.{◌≡◌, ◌≤◌, length, All, IfErr, IfOk, OnOk, string_bytes};
ghost use Rattle.feed_files.specs.Files.{HoldsOn};
ghost use Rattle.desk_lines.specs.Words.{most_symbols};
ghost use Rattle.feed_files.specs.Outputs.{destination};
ghost use Rattle.view_galley.specs.Galley.{Stands};
ghost use Rattle.desk_job.specs.Answer.{AreValues};
ghost use Rattle.view_picture.specs.Picture.{no_galley_picture, picture_text};
ghost use Rattle.view_picture.specs.Picturing.{IsDrawn, IsPictured, IsUnpictured};

use crate::picture::{put_no_galley_picture, put_picture};
use desk_memory::NoMemory;
use desk_ops::{CopyFault, Symbol};
use desk_replica::Settings;
use feed_files::{Files, Kind, Target, store_over};
use script_answers::Memory;
use std::alloc::Allocator;
use view_galley::Galley;
use view_preview::{Job, Matter, PreviewFault, Unset, take_job};
use view_proof::NoGalley;

/// The picture of a galley of a copy.
fn picture_of<'a, A: Allocator + Copy>(
    alloc: A,
    copy: &[Symbol],
    faults: &[CopyFault],
    galley: &Galley<'a, A>,
) -> Result<String<A>, NoMemory>
    requires copy { length copy.now ≤ most_symbols }
    requires lines { All (Stands copy.now galley.now.terms.case) galley.now.lines }
    ensures { IfOk result (λ s. string_bytes s ≡ picture_text copy.now faults.now galley.now) }
{
    let mut out = String::new(alloc);
    put_picture(&mut out, copy, faults, galley)?;
    Ok(out)
}

/// What is drawn where there is no galley.
fn refusal_of<A: Allocator + Copy>(
    alloc: A,
    faults: &[CopyFault],
    why: &NoGalley,
) -> Result<String<A>, NoMemory>
    ensures { IfOk result (λ s. string_bytes s ≡ no_galley_picture faults.now why.now) }
{
    let mut out = String::new(alloc);
    put_no_galley_picture(&mut out, faults, why)?;
    Ok(out)
}

/// What is drawn of a matter by its settings and those that are tried.
fn drawn_of<A: Allocator + Copy>(
    alloc: A,
    matter: &Matter<A>,
    trial: &Settings,
) -> Result<String<A>, NoMemory>
    requires { AreValues trial.now }
    ensures { IfOk result (λ s. IsDrawn matter.now trial.now (string_bytes s)) }
{
    match matter.galley(alloc, trial) {
        Ok(galley) => picture_of(alloc, matter.copy(), matter.faults(), &galley),
        Err(Unset::Reason(why)) => refusal_of(alloc, matter.faults(), &why),
        Err(Unset::NoMemory) => Err(NoMemory),
    }
}

/// Draws the galley of a version of a stored feed, or of a text, by a case and a wedge, as `put_picture` does, and
/// stores the picture under the name of a target; where there is no galley, a picture that says why. A line that can't
/// be set is drawn with its fault, and no refusal. Settings that are tried count in place of the copy's, and are stored
/// nowhere. No name is taken: a feed is stored by a rename, so what is read is a whole feed. Where a file that is no
/// picture stands under the target, which is not forced, the fault is `Taken`. A target that is forced, and is the
/// feed, the text, the case or the wedge, is replaced as any other. After an `Err` the target has its old bytes.
pub fn picture_job<F: Files, A: Allocator + Copy>(
    memory: Memory<A>,
    files: &mut F,
    job: &Job<'_>,
    trial: &Settings,
    target: &Target<'_>,
) -> Result<(), PreviewFault>
    requires { AreValues trial.now }
    ensures ok { OnOk result
        (IsPictured job.now trial.now (destination target.now.name.now target.now.force)
        (F.shelf files.old) (F.shelf files.new)) }
    ensures counted { OnOk result ((F.shelf files.new).failures ≡ (F.shelf files.old).failures) }
    ensures err { IfErr result
        (IsUnpictured job.now trial.now (destination target.now.name.now target.now.force)
        (F.shelf files.old) (F.shelf files.new)) }
    ensures held { HoldsOn (F.shelf files.old).held (F.shelf files.new).held }
{
    let matter = take_job(memory, files, job)?;
    let drawn = drawn_of(memory.own, &matter, trial)?;
    store_over(memory.own, files, target, drawn.as_bytes(), Kind::Picture)?;
    Ok(())
}
