//! The proof of a stored feed or of a text, written as text.

ghost use Rattle.std.specs.Prelude.{◌≡◌, IfErr, IfOk, OnOk, string_bytes};
ghost use Rattle.feed_files.specs.Files.{Stays};
ghost use Rattle.desk_job.specs.Answer.{AreValues};
ghost use Rattle.view_preview.specs.Proofing.{IsProofed, IsReported, IsUnproofed, are_set, is_clean, name_of};

use crate::fault::PreviewFault;
use crate::job::{Job, Source};
use crate::manner::Manner;
use crate::matter::{Matter, Unset};
use crate::taking::take_job;
use crate::written::{none_of, written_of};
use desk_memory::NoMemory;
use desk_ops::CopyFault;
use desk_replica::Settings;
use feed_files::Files;
use feed_stored::write_out;
use script_answers::Memory;
use std::alloc::Allocator;
use std::io::Write;
use view_galley::{Galley, Line};

/// Whether none of the lines has a fault.
fn are_set<A: Allocator>(lines: &[Line<A>]) -> bool
    ensures { result ≡ are_set lines.now }
{
    for line in lines {
        if line.is_faulty() {
            return false;
        }
    }
    true
}

/// Whether no fault stands at all: of the copy, of a symbol that the case lacks, or of a line.
fn is_clean<'a, A: Allocator>(faults: &[CopyFault], galley: &Galley<'a, A>) -> bool
    ensures { result ≡ is_clean faults.now galley.now }
{
    faults.is_empty() && galley.lacking().is_empty() && are_set(galley.lines())
}

/// What is reported of a matter by its settings and those that are tried, under the name of its text, and whether no
/// fault stands in it.
fn reported_of<A: Allocator + Copy>(
    alloc: A,
    name: &str,
    matter: &Matter<A>,
    trial: &Settings,
    manner: Manner,
) -> Result<(String<A>, bool), NoMemory>
    requires { AreValues trial.now }
    ensures { IfOk result (λ t. IsReported name.now matter.now trial.now manner (string_bytes t.0) t.1) }
{
    match matter.galley(alloc, trial) {
        Ok(galley) => {
            let text = written_of(alloc, name, matter, &galley, manner)?;
            Ok((text, is_clean(matter.faults(), &galley)))
        }
        Err(Unset::Reason(why)) => {
            let text = none_of(alloc, name, matter.faults(), &why, manner.form)?;
            Ok((text, false))
        }
        Err(Unset::NoMemory) => Err(NoMemory),
    }
}

/// The name of the feed, or of the file of the text.
fn name_of<'a>(source: Source<'a>) -> &'a str
    ensures { result.now ≡ name_of source.entry }
{
    match source {
        Source::Feed(version) => version.feed,
        Source::Text { name, .. } => name,
    }
}

/// Writes the proof of a version of a stored feed, or of a text, by a case and a wedge: the faults of its copy, and its
/// galley as text, as `view_proof` writes it; or why there is no galley. Where the form is `Located` it writes each
/// fault on one line, behind its place in the text, or in what `export` writes of the feed. Second looks come below,
/// where they are asked for, and are no faults. It is true exactly where no fault stands at all: no correction is
/// missing, the case has every symbol, and each line is set. Settings that are tried count in place of the copy's, and
/// are stored nowhere; where none is tried it is the galley that would be cast. A text has no faults of its copy, and
/// no settings but the numbers of the case and the wedge. No name is taken, and no file changes. A refusal of the feed
/// or the text, the case or the wedge, or of memory, comes before anything is written.
pub fn proof_job<W: Write, F: Files, A: Allocator + Copy>(
    memory: Memory<A>,
    writer: &mut W,
    files: &mut F,
    job: &Job<'_>,
    trial: &Settings,
    manner: Manner,
) -> Result<bool, PreviewFault>
    requires { AreValues trial.now }
    ensures ok { IfOk result
        (IsProofed job.now trial.now manner (F.shelf files.old) (W.contents writer.old)
        (W.contents writer.new)) }
    ensures counted { OnOk result ((F.shelf files.new).failures ≡ (F.shelf files.old).failures) }
    ensures err { IfErr result
        (IsUnproofed job.now trial.now manner (F.shelf files.old) (F.shelf files.new)
        (W.contents writer.old) (W.contents writer.new)) }
    ensures stays { Stays (F.shelf files.old) (F.shelf files.new) }
{
    let matter = take_job(memory, files, job)?;
    let name = name_of(job.source);
    let (text, clean) = reported_of(memory.own, name, &matter, trial, manner)?;
    write_out(writer, text.as_bytes())?;
    Ok(clean)
}
