//! The line of the faults of a job: that of the command `ribbon`, with all the settings that are missing.

ghost use Rattle.std.specs.Prelude.{◌≡◌, ◌++◌, IfErr, IfOk, OnOk, string_bytes, true};
ghost use Rattle.std.specs.Io.KnownBytes.{Appends};
ghost use Rattle.script_answers.specs.Reply.{reply_values};
ghost use Rattle.script_answers.specs.Text.{job_fault_text, list_text, separator};
ghost use Rattle.desk_job.specs.Answer.{by_key};
ghost use Rattle.view_proof.specs.Reasons.{missing};
ghost use Rattle.view_punch.specs.Lines.{IsUnreported, all_missing, job_line, line_of, missing_text, no_ribbon_line};

use crate::fault::LineFault;
use desk_job::JobFaults;
use desk_memory::NoMemory;
use desk_ops::Key;
use desk_replica::Settings;
use feed_stored::write_out;
use script_answers::{Reply, put};
use std::alloc::{AllocError, Allocator};
use std::io::Write;
use view_proof::missing;

/// The line of an answer.
fn line_of<A: Allocator + Copy>(alloc: A, answer: &Reply<A>) -> Result<String<A>, NoMemory>
    ensures { IfOk result (λ s. string_bytes s ≡ line_of (reply_values answer.now)) }
{
    let mut out = String::new(alloc);
    put(&mut out, answer)?;
    out.push_str("\n")?;
    Ok(out)
}

/// What stands before the first fault, and before each other.
fn separator(is_first: bool) -> &'static str
    ensures { result.now ≡ separator is_first }
{
    if is_first { " " } else { ", " }
}

/// Writes that a setting is missing, as the first fault or as another.
fn put_missing<A: Allocator + Copy>(
    out: &mut String<A>,
    is_first: bool,
    key: Key,
) -> Result<(), AllocError>
    ensures { OnOk result (string_bytes out.new ≡ string_bytes out.old ++ missing_text is_first key) }
{
    out.push_str(separator(is_first))?;
    out.push_str("missing ")?;
    out.push_str(key.name())
}

/// Writes the settings that are missing.
fn put_all_missing<A: Allocator + Copy>(out: &mut String<A>, keys: &[Key]) -> Result<(), AllocError>
    ensures { OnOk result
        (string_bytes out.new ≡ string_bytes out.old ++ list_text job_fault_text true (all_missing keys.now)) }
{
    let mut is_first = true;
    for key in keys {
        put_missing(out, is_first, *key)?;
        is_first = false;
    }
    Ok(())
}

/// The line of a job whose settings are missing.
fn missing_line<A: Allocator + Copy>(alloc: A, keys: &[Key]) -> Result<String<A>, NoMemory>
    ensures { IfOk result (λ s. string_bytes s ≡ no_ribbon_line (all_missing keys.now)) }
{
    let mut out = String::new(alloc);
    out.push_str("no ribbon:")?;
    put_all_missing(&mut out, keys)?;
    out.push_str("\n")?;
    Ok(out)
}

/// The line of the faults of a job by these settings: all that are missing, where some are.
fn job_line<A: Allocator + Copy>(
    alloc: A,
    settings: &Settings,
    faults: JobFaults<A>,
) -> Result<String<A>, NoMemory>
    ensures { IfOk result (λ s. string_bytes s ≡ job_line (missing (by_key settings.now)) faults) }
{
    let keys = missing(alloc, settings)?;
    if keys.is_empty() {
        line_of(alloc, &Reply::NoRibbon(faults))
    } else {
        missing_line(alloc, &keys)
    }
}

/// Writes the line of an answer.
pub fn report<W: Write, A: Allocator + Copy>(
    alloc: A,
    writer: &mut W,
    answer: &Reply<A>,
) -> Result<(), LineFault>
    ensures ok { OnOk result
        (Appends (W.contents writer.old) (W.contents writer.new) (line_of (reply_values answer.now))) }
    ensures err { IfErr result
        (IsUnreported (line_of (reply_values answer.now)) (W.contents writer.old) (W.contents writer.new)) }
{
    let line = line_of(alloc, answer)?;
    write_out(writer, line.as_bytes())?;
    Ok(())
}

/// Writes the line of the faults of a job by these settings.
pub fn report_job<W: Write, A: Allocator + Copy>(
    alloc: A,
    writer: &mut W,
    settings: &Settings,
    faults: JobFaults<A>,
) -> Result<(), LineFault>
    ensures ok { OnOk result
        (Appends (W.contents writer.old) (W.contents writer.new) (job_line (missing (by_key settings.now)) faults)) }
    ensures err { IfErr result
        (IsUnreported (job_line (missing (by_key settings.now)) faults) (W.contents writer.old)
        (W.contents writer.new)) }
{
    let reported = job_line(alloc, settings, faults)?;
    write_out(writer, reported.as_bytes())?;
    Ok(())
}
