//! A sheet on a world of sites.

ghost use Rattle.std.specs.Prelude.{◌≡◌, ◌<◌, ◌++◌, ◌∷◌, [], Bool, IfErr, IfOk, IfSome, MatchBool, MatchOption};
ghost use Rattle.std.specs.Prelude.{OnErr, OnOk, length, string_bytes};
ghost use Rattle.std.specs.Io.KnownBytes.{IsAtEnd};
ghost use Rattle.script_answers.specs.Reply.{reply_values};
ghost use Rattle.feed_files.specs.Files.{Stays};
ghost use Rattle.desk_script.specs.Lines.{lines};
ghost use Rattle.desk_script.specs.Desk.{KeepsSites, desk};
ghost use Rattle.desk_script.specs.Line.{line_of};
ghost use Rattle.desk_script.specs.FeedRun.{HasAnswered, IsBroken, IsCutOff};
ghost use Rattle.script_world.specs.Sites.{Sites, no_sites};
ghost use Rattle.desk_script.specs.Sheet.{Ends, IsDone, IsLeft, IsStopped, IsUnanswered, IsWritten, LeavesOff, Stops};
ghost use Rattle.desk_script.specs.Sheet.{Reports, answer_line, head, is_passed_over, is_refusal};

use crate::stream::answer_all;
use crate::{MAX_LINE, RunFault, SheetFault, answer, without_cr};
use desk_memory::NoMemory;
use feed_files::{Files, read_whole};
use feed_stored::write_out;
use script_answers::{Memory, Reply, put};
use script_world::World;
use std::alloc::{AllocError, Allocator, Global};
use std::io::{Read, Write};

/// The most bytes of a sheet.
pub const MAX_SHEET: usize = 67_108_864;

/// How a sheet is carried out and answered.
#[derive(Clone, Copy, Debug, PartialEq, Eq)]
pub struct Mode {
    /// The run ends at the first line that is answered by a refusal or by `stopped`; empty lines, and those that begin
    /// with `#`
    /// and are not too long, are passed over. Without it each line is answered, and the run goes on.
    pub strict: bool,
    /// The number of its line and a space stand before each answer. Lines are counted from 1, passed ones too.
    pub number: bool,
}

/// Whether a line is empty, or begins with `#` and is not too long.
fn is_passed_over(line: &[u8]) -> bool
    ensures { result ≡ is_passed_over (line_of line.now) }
{
    match line.first() {
        None => true,
        Some(first) => *first == b'#' && line.len() <= MAX_LINE,
    }
}

/// Whether an answer stops a strict run.
fn is_refusal<A: Allocator + Copy>(reply: &Reply<A>) -> bool
    ensures { result ≡ is_refusal (reply_values reply.now) }
{
    matches!(reply, Reply::Refused(_) | Reply::Stopped(_, _))
}

/// The first line without its end, and what follows that end; none where no byte is left.
fn next_line(bytes: &[u8]) -> Option<(&[u8], &[u8])>
    ensures first { MatchOption result (bytes.now ≡ []) (λ p. lines bytes.now ≡ line_of p.0.now ∷ lines p.1.now) }
    ensures shorter { IfSome result (λ p. length p.1.now < length bytes.now) }
{
    for (at, byte) in bytes.iter().enumerate() {
        if *byte == b'\n' {
            return Some((without_cr(&bytes[..at]), &bytes[at + 1..]));
        }
    }
    if bytes.is_empty() {
        return None;
    }
    Some((bytes, &bytes[bytes.len()..]))
}

/// Writes what stands before the answer of a line.
fn put_head<A: Allocator + Copy>(
    reported: &mut String<A>,
    mode: Mode,
    number: u64,
) -> Result<(), AllocError>
    ensures { OnOk result (string_bytes reported.new ≡ string_bytes reported.old ++ head mode number) }
{
    if mode.number {
        write!(reported, "{number} ")?;
    }
    Ok(())
}

/// Writes the answer of a line at the end.
fn put_answer<A: Allocator + Copy>(
    reported: &mut String<A>,
    mode: Mode,
    number: u64,
    reply: &Reply<A>,
) -> Result<(), AllocError>
    ensures { OnOk result
        (string_bytes reported.new ≡ string_bytes reported.old ++ answer_line mode number (reply_values reply.now)) }
{
    put_head(reported, mode, number)?;
    put(reported, reply)?;
    reported.push_str("\n")
}

/// A line of a sheet, and its number.
#[derive(Clone, Copy)]
struct Numbered<'a> {
    number: u64,
    line: &'a [u8],
}

/// Answers a line, or passes over it, and writes the answer at the end. Returns whether the run goes on.
fn report_line<F: Files, A: Allocator + Copy>(
    memory: Memory<A>,
    mode: Mode,
    world: &mut World<A>,
    files: &mut F,
    reported: &mut String<A>,
    at: Numbered<'_>,
) -> Result<bool, NoMemory>
    ensures ok { IfOk result (λ (goes_on : Bool). MatchBool goes_on
        (Reports mode at.entry.number (desk world.old (F.shelf files.old)) (string_bytes reported.old)
        (line_of at.entry.line.now) (desk world.new (F.shelf files.new)) (string_bytes reported.new))
        (Stops mode at.entry.number (desk world.old (F.shelf files.old)) (string_bytes reported.old)
        (line_of at.entry.line.now) (desk world.new (F.shelf files.new)) (string_bytes reported.new))) }
    ensures sites { KeepsSites world.old world.new }
    ensures stays { Stays (F.shelf files.old) (F.shelf files.new) }
{
    let Numbered { number, line } = at;
    if mode.strict && is_passed_over(line) {
        return Ok(true);
    }
    let reply = answer(memory, world, files, line);
    put_answer(reported, mode, number, &reply)?;
    Ok(!(mode.strict && is_refusal(&reply)))
}

/// Answers lines up to the end, or to the one that stops the run, whose number is returned.
fn report_lines<F: Files, A: Allocator + Copy>(
    memory: Memory<A>,
    mode: Mode,
    world: &mut World<A>,
    files: &mut F,
    reported: &mut String<A>,
    input: &[u8],
) -> Result<Option<u64>, NoMemory>
    ensures ok { IfOk result
        (λ end. Ends mode (desk world.old (F.shelf files.old)) (string_bytes reported.old) (lines input.now) end
        (desk world.new (F.shelf files.new)) (string_bytes reported.new)) }
    ensures some { OnErr result (0 < length input.now) }
    ensures sites { KeepsSites world.old world.new }
    ensures stays { Stays (F.shelf files.old) (F.shelf files.new) }
{
    let mut rest = input;
    let mut number = 0;
    'lines: while let Some((line, more)) = next_line(rest) {
        number += 1;
        let at = Numbered { number, line };
        if !report_line(memory, mode, world, files, reported, at)? {
            return Ok(Some(number));
        }
        rest = more;
    }
    Ok(None)
}

/// Carries out what a reader has left on a world, and writes the answers once all are there: up to the end, or to the
/// line that stops the run, whose number is returned.
fn answer_sheet<R: Read, W: Write, F: Files, A: Allocator + Copy>(
    memory: Memory<A>,
    mode: Mode,
    world: &mut World<A>,
    reader: &mut R,
    writer: &mut W,
    files: &mut F,
) -> Result<Option<u64>, RunFault>
    ensures ok { IfOk result
        (IsWritten mode (desk world.old (F.shelf files.old)) (desk world.new (F.shelf files.new))
        (R.remaining reader.old) (W.contents writer.old) (W.contents writer.new)) }
    ensures err { IfErr result
        (IsUnanswered mode (desk world.old (F.shelf files.old)) (desk world.new (F.shelf files.new))
        (R.remaining reader.old) (W.contents writer.old) (W.contents writer.new)) }
    ensures sites { KeepsSites world.old world.new }
    ensures stays { Stays (F.shelf files.old) (F.shelf files.new) }
    ensures end { OnOk result (IsAtEnd (R.remaining reader.new)) }
    ensures left { IfErr result (IsLeft (R.remaining reader.old) (R.remaining reader.new)) }
{
    let input = read_whole(memory.own, reader, MAX_SHEET)?;
    let mut reported = String::new(memory.own);
    let end = report_lines(memory, mode, world, files, &mut reported, &input)?;
    write_out(writer, reported.as_bytes())?;
    Ok(end)
}

/// Answers commands one by one, or as a sheet of a mode, which a line may stop.
pub fn answer_lines<R: Read, W: Write, F: Files, A: Allocator + Copy>(
    memory: Memory<A>,
    mode: Option<Mode>,
    world: &mut World<A>,
    reader: &mut R,
    writer: &mut W,
    files: &mut F,
) -> Result<(), SheetFault>
    ensures ok { OnOk result
        (HasAnswered mode (desk world.old (F.shelf files.old)) (desk world.new (F.shelf files.new))
        (R.remaining reader.old) (W.contents writer.old) (W.contents writer.new)) }
    ensures err { IfErr result
        (IsBroken mode (desk world.old (F.shelf files.old)) (desk world.new (F.shelf files.new))
        (R.remaining reader.old) (W.contents writer.old) (W.contents writer.new)) }
    ensures sites { OnOk result (KeepsSites world.old world.new) }
    ensures stays { Stays (F.shelf files.old) (F.shelf files.new) }
    ensures end { OnOk result (IsAtEnd (R.remaining reader.new)) }
    ensures left { IfErr result (IsCutOff mode (R.remaining reader.old) (R.remaining reader.new)) }
{
    let Some(mode) = mode else {
        return Ok(answer_all(memory, world, reader, writer, files)?);
    };
    match answer_sheet(memory, mode, world, reader, writer, files)? {
        Some(number) => Err(SheetFault::Line(number)),
        None => Ok(()),
    }
}

/// Carries out a sheet on a world that has no site yet. All that the reader has left is read first, `MAX_SHEET` bytes
/// at most; its lines are those of a script. Each is answered as in a script, or, where the run is strict, passed over.
/// The answers are written once all are there: up to the end, or to the line that stops the run, whose number `Line`
/// then has. No file changes, and nothing is written under `Read`, `TooLong` and `NoMemory`. Memory that is refused to
/// a command is an answer; `NoMemory` says that the sheet or its answers were not kept, and of an empty sheet it never
/// comes. The reading of a case or a wedge takes the global allocator alone.
pub fn run_sheet<R: Read, W: Write, F: Files, A: Allocator + Copy>(
    alloc: A,
    global: Global,
    mode: Mode,
    reader: &mut R,
    writer: &mut W,
    files: &mut F,
) -> Result<(), SheetFault>
    ensures ok { OnOk result ((new : Sites)
        × IsDone mode (desk no_sites (F.shelf files.old)) (desk new (F.shelf files.new)) (R.remaining reader.old)
        (W.contents writer.old) (W.contents writer.new)) }
    ensures err { IfErr result (λ fault. (new : Sites)
        × IsStopped mode (desk no_sites (F.shelf files.old)) (desk new (F.shelf files.new)) (R.remaining reader.old)
        (W.contents writer.old) (W.contents writer.new) fault) }
    ensures stays { Stays (F.shelf files.old) (F.shelf files.new) }
    ensures end { OnOk result (IsAtEnd (R.remaining reader.new)) }
    ensures left { IfErr result (LeavesOff (R.remaining reader.old) (R.remaining reader.new)) }
{
    let mut world = World::new(alloc);
    let memory = Memory { own: alloc, global };
    answer_lines(memory, Some(mode), &mut world, reader, writer, files)
}
