//! Scripts, read and answered line by line.

ghost use Rattle.std.specs.Prelude.{◌≡◌, ◌≤◌, ◌++◌, ◌∷◌, [], List, OnOk, OnErr, IfErr, IfOk, IfSome, IsErrOf};
ghost use Rattle.std.specs.Prelude.{length, string_bytes};
ghost use Rattle.std.specs.Io.KnownBytes.{Appends, IsAtEnd};
ghost use Rattle.desk_script.specs.Line.{Line, line_of};
ghost use Rattle.desk_script.specs.Lines.{without_cr};
ghost use Rattle.script_answers.specs.Reply.{ReplyValues, reply_values};
ghost use Rattle.script_answers.specs.Text.{text};
ghost use Rattle.script_world.specs.Sites.{Sites, no_sites};
ghost use Rattle.desk_script.specs.Desk.{KeepsSites, desk};
ghost use Rattle.feed_files.specs.Files.{Stays};
ghost use Rattle.desk_script.specs.Script.{Turn, StopsWithin, Answers, AnswersBefore, AnswersPrefix, IsReported};
ghost use Rattle.feed_stored.specs.Sending.{WritesPrefix};
ghost use Rattle.desk_script.specs.Fault.{IsOfLines};
ghost use Rattle.desk_script.specs.Pending.{Takes, last_line, progress};
ghost use Rattle.desk_script.specs.Taking.{IsTakenIn, IsTakenWithin, max_reads};

use crate::{MAX_LINE, RunFault, answer};
use desk_memory::NoMemory;
use feed_files::Files;
use feed_stored::{Unsent, let_out, send};
use script_answers::{Memory, Reply, put, short};
use script_world::World;
use std::alloc::{Allocator, Global};
use std::io::{Read, Write};

/// The most calls of `read` in a run.
pub const MAX_READS: u32 = 268_435_456;

/// No more of a line is kept: with more bytes than these it is too long, however it ends.
const PENDING_LIMIT: usize = MAX_LINE + 2;

/// The bytes that most long answers fit in.
const USUAL: usize = 64;

/// The answer where there is no memory for another.
const NO_MEMORY: &str = "refused memory\n";

/// So much is read at a time.
const CHUNK: usize = 8192;

/// The line of a long answer.
fn spelled<A: Allocator + Copy>(alloc: A, answer: &Reply<A>) -> Result<String<A>, NoMemory>
    ensures { IfOk result (λ s. string_bytes s ≡ text (reply_values answer.now) ++ 10 ∷ []) }
{
    let mut out = String::with_capacity(alloc, USUAL)?;
    put(&mut out, answer)?;
    out.push_str("\n")?;
    Ok(out)
}

/// Writes the line of an answer, which may be a long one only where nothing has changed: if there is no memory for its
/// text, the line is refused for that. All else is written with no memory.
fn report<W: Write, A: Allocator + Copy>(
    alloc: A,
    writer: &mut W,
    answer: &Reply<A>,
) -> Result<(), Unsent>
    ensures ok { OnOk result ((r : ReplyValues) × IsReported (reply_values answer.now) r
        × Appends (W.contents writer.old) (W.contents writer.new) (text r ++ 10 ∷ [])) }
    ensures err { OnErr result ((r : ReplyValues) × IsReported (reply_values answer.now) r
        × WritesPrefix (W.contents writer.old) (W.contents writer.new) (text r ++ 10 ∷ [])) }
{
    if let Some(mut line) = short(answer) {
        line.push_str("\n");
        return send(writer, line.as_str().as_bytes());
    }
    match spelled(alloc, answer) {
        Ok(line) => send(writer, line.as_bytes()),
        Err(NoMemory) => send(writer, NO_MEMORY.as_bytes()),
    }
}

/// Answers a line. Only the writer can fail: a line that was kept never ends the run as out of memory.
fn take_line<W: Write, F: Files, A: Allocator + Copy>(
    memory: Memory<A>,
    world: &mut World<A>,
    writer: &mut W,
    files: &mut F,
    line: &[u8],
) -> Result<(), Unsent>
    ensures ok { OnOk result
        (Turn (desk world.old (F.shelf files.old)) (desk world.new (F.shelf files.new)) (W.contents writer.old)
        (W.contents writer.new) (line_of line.now ∷ [])) }
    ensures err { OnErr result ((more : List Line)
        → StopsWithin (desk world.old (F.shelf files.old)) (F.shelf files.new) (W.contents writer.old)
        (W.contents writer.new) (line_of line.now ∷ more)) }
    ensures sites { OnOk result (KeepsSites world.old world.new) }
    ensures stays { Stays (F.shelf files.old) (F.shelf files.new) }
{
    let reply = answer(memory, world, files, line);
    report(memory.own, writer, &reply)
}

/// The line without a carriage return at its end.
pub fn without_cr(line: &[u8]) -> &[u8]
    ensures { result.now ≡ without_cr line.now }
{
    if let Some((last, prefix)) = line.split_last() {
        if *last == b'\r' {
            return prefix;
        }
    }
    line
}

/// Takes the next byte: it is kept where it can matter, and the line that it ends is answered.
fn take_byte<W: Write, F: Files, A: Allocator + Copy>(
    memory: Memory<A>,
    world: &mut World<A>,
    writer: &mut W,
    files: &mut F,
    line: &mut Vec<u8, A>,
    byte: u8,
) -> Result<(), RunFault>
    requires { length line.old.items ≤ PENDING_LIMIT }
    ensures kept { length line.new.items ≤ PENDING_LIMIT }
    ensures taken { Takes result (progress world.old (F.shelf files.old) (W.contents writer.old) line.old.items)
        (progress world.new (F.shelf files.new) (W.contents writer.new) line.new.items) (byte ∷ []) }
    ensures sites { OnOk result (KeepsSites world.old world.new) }
    ensures stays { Stays (F.shelf files.old) (F.shelf files.new) }
{
    if byte == b'\n' {
        take_line(memory, world, writer, files, without_cr(line))?;
        line.clear();
        return Ok(());
    }
    if line.len() == PENDING_LIMIT {
        return Ok(());
    }
    match line.push(byte) {
        Ok(()) => Ok(()),
        Err(_) => Err(RunFault::NoMemory),
    }
}

/// Takes the next bytes, and answers each line that is whole now: its answers are out before more is read.
fn take_bytes<W: Write, F: Files, A: Allocator + Copy>(
    memory: Memory<A>,
    world: &mut World<A>,
    writer: &mut W,
    files: &mut F,
    line: &mut Vec<u8, A>,
    bytes: &[u8],
) -> Result<(), RunFault>
    requires { length line.old.items ≤ PENDING_LIMIT }
    ensures kept { length line.new.items ≤ PENDING_LIMIT }
    ensures taken { Takes result (progress world.old (F.shelf files.old) (W.contents writer.old) line.old.items)
        (progress world.new (F.shelf files.new) (W.contents writer.new) line.new.items) bytes.now }
    ensures sites { OnOk result (KeepsSites world.old world.new) }
    ensures stays { Stays (F.shelf files.old) (F.shelf files.new) }
{
    for b in bytes {
        take_byte(memory, world, writer, files, line, *b)?;
    }
    Ok(let_out(writer)?)
}

/// Answers a last line that has no end, and lets its answer out.
fn finish<W: Write, F: Files, A: Allocator + Copy>(
    memory: Memory<A>,
    world: &mut World<A>,
    writer: &mut W,
    files: &mut F,
    line: &[u8],
) -> Result<(), RunFault>
    ensures ok { OnOk result
        (Turn (desk world.old (F.shelf files.old)) (desk world.new (F.shelf files.new)) (W.contents writer.old)
        (W.contents writer.new) (last_line line.now)) }
    ensures err { OnErr result
        (StopsWithin (desk world.old (F.shelf files.old)) (F.shelf files.new) (W.contents writer.old)
        (W.contents writer.new) (last_line line.now)) }
    ensures fault { IfErr result (λ fault. fault ≡ RunFault.Write) }
    ensures sites { OnOk result (KeepsSites world.old world.new) }
    ensures stays { Stays (F.shelf files.old) (F.shelf files.new) }
{
    if line.is_empty() {
        return Ok(());
    }
    take_line(memory, world, writer, files, line)?;
    Ok(let_out(writer)?)
}

/// Reads commands to their end, and writes the line of each one's answer. A writer may hold them back: it is flushed
/// before each read, and at the end. Memory that is refused to a command is an answer, and the run goes on: `NoMemory`
/// comes only where a line cannot be kept, and then every answer before it was written. After any other `Err` what was
/// written is a prefix of such lines. `TooLong` comes only after `MAX_READS` calls of `read` that each gave bytes.
pub fn answer_all<R: Read, W: Write, F: Files, A: Allocator + Copy>(
    memory: Memory<A>,
    world: &mut World<A>,
    reader: &mut R,
    writer: &mut W,
    files: &mut F,
) -> Result<(), RunFault>
    ensures ok { OnOk result
        (IfSome (R.remaining reader.old)
        (λ input. Answers (desk world.old (F.shelf files.old)) (desk world.new (F.shelf files.new)) input
        (W.contents writer.old) (W.contents writer.new))) }
    ensures err { OnErr result
        (IfSome (R.remaining reader.old)
        (λ input. AnswersPrefix (desk world.old (F.shelf files.old)) (F.shelf files.new) input
        (W.contents writer.old) (W.contents writer.new))) }
    ensures memory { IsErrOf result RunFault.NoMemory
        → IfSome (R.remaining reader.old)
        (λ input. AnswersBefore (desk world.old (F.shelf files.old)) (F.shelf files.new) input (W.contents writer.old)
        (W.contents writer.new)) }
    ensures taken { IsTakenWithin max_reads (R.remaining reader.old) (R.remaining reader.new) }
    ensures long { IsErrOf result RunFault.TooLong
        → IsTakenIn max_reads (R.remaining reader.old) (R.remaining reader.new) }
    ensures sites { OnOk result (KeepsSites world.old world.new) }
    ensures stays { Stays (F.shelf files.old) (F.shelf files.new) }
    ensures own { IfErr result IsOfLines }
    ensures end { OnOk result (IsAtEnd (R.remaining reader.new)) }
{
    let mut line = Vec::new(memory.own);
    let mut chunk = [0u8; CHUNK];
    'reads: for _ in 0..MAX_READS {
        match reader.read(&mut chunk) {
            Err(_) => return Err(RunFault::Read),
            Ok(0) => return finish(memory, world, writer, files, &line),
            Ok(n) => take_bytes(memory, world, writer, files, &mut line, &chunk[..n])?,
        }
    }
    Err(RunFault::TooLong)
}

/// Reads commands to their end, on a world that has no site yet, and writes the line of each one's answer. Memory that
/// is refused to a command is an answer: `NoMemory` comes only where a line cannot be kept, and then every answer
/// before it was written. After any other `Err` what was written is a prefix of such lines. `TooLong` comes only after
/// `MAX_READS` calls of `read` that each gave bytes. The reading of a case or a wedge takes the global allocator alone.
pub fn run<R: Read, W: Write, F: Files, A: Allocator + Copy>(
    alloc: A,
    global: Global,
    reader: &mut R,
    writer: &mut W,
    files: &mut F,
) -> Result<(), RunFault>
    ensures ok { OnOk result
        (IfSome (R.remaining reader.old) (λ input. (new : Sites)
        × Answers (desk no_sites (F.shelf files.old)) (desk new (F.shelf files.new)) input
        (W.contents writer.old) (W.contents writer.new))) }
    ensures err { OnErr result
        (IfSome (R.remaining reader.old)
        (λ input. AnswersPrefix (desk no_sites (F.shelf files.old)) (F.shelf files.new) input
        (W.contents writer.old) (W.contents writer.new))) }
    ensures memory { IsErrOf result RunFault.NoMemory
        → IfSome (R.remaining reader.old)
        (λ input. AnswersBefore (desk no_sites (F.shelf files.old)) (F.shelf files.new) input (W.contents writer.old)
        (W.contents writer.new)) }
    ensures taken { IsTakenWithin max_reads (R.remaining reader.old) (R.remaining reader.new) }
    ensures long { IsErrOf result RunFault.TooLong
        → IsTakenIn max_reads (R.remaining reader.old) (R.remaining reader.new) }
    ensures stays { Stays (F.shelf files.old) (F.shelf files.new) }
    ensures own { IfErr result IsOfLines }
    ensures end { OnOk result (IsAtEnd (R.remaining reader.new)) }
{
    let mut world = World::new(alloc);
    let memory = Memory { own: alloc, global };
    answer_all(memory, &mut world, reader, writer, files)
}
