//! Files that are checked by their names.

ghost use Rattle.std.specs.Prelude.{◌≡◌, ◌&&◌, false, IfErr, IfOk, OnErr, Some, map, option_map, string_bytes};
ghost use Rattle.feed_files.specs.Files.{Stays};
ghost use Rattle.feed_check.specs.Checking.{IsChecked, IsEnded, IsLine, IsRead, IsUnchecked, IsUnended, IsUnsaid};
ghost use Rattle.feed_check.specs.Checking.{SaysLine, SaysNamed, found_under};
ghost use Rattle.feed_check.specs.Lines.{line_of};
ghost use Rattle.feed_check.specs.Metal.{unfit_of};
ghost use Rattle.feed_check.specs.Words.{refusal_words};

use crate::fault::CheckFault;
use crate::metal::{Found, Metal, unfit};
use crate::reported::{Reported, reported_of};
use crate::room::{is_room_file, room_reported};
use desk_memory::NoMemory;
use feed_files::{FileRefusal, Files};
use feed_stored::write_out;
use script_answers::Memory;
use std::alloc::Allocator;
use std::io::Write;
use text_copy::put_plain;

/// Why a file was not read. Where memory ran out, nothing is written.
fn refusal_words(why: FileRefusal) -> Option<&'static str>
    ensures { option_map (λ w. w.now) result ≡ refusal_words why }
{
    match why {
        FileRefusal::Missing => Some("no file"),
        FileRefusal::Device => Some("file fault"),
        FileRefusal::Large => Some("too large"),
        FileRefusal::NoMemory => None,
    }
}

/// That a file was not read.
fn unread<A: Allocator + Copy>(alloc: A, why: FileRefusal) -> Result<Reported<A>, NoMemory>
    ensures text { IfOk result (λ t. refusal_words why ≡ Some (string_bytes t.text)) }
    ensures well { IfOk result (λ t. t.well ≡ false) }
{
    let words = refusal_words(why).ok_or(NoMemory)?;
    let text = String::from_str(alloc, words)?;
    Ok(Reported { text, well: false })
}

/// What is said of bytes, as those of a room's file where they have its name, and else by their kind; and what they
/// give for a cast.
#[tactic(auto, unfolding(crate::specs::Checking::SaysNamed, crate::specs::Checking::found_under))]
fn reported_by<A: Allocator + Copy>(
    memory: Memory<A>,
    name: &str,
    bytes: Vec<u8, A>,
) -> Result<(Reported<A>, Found), NoMemory>
    ensures said { IfOk result (λ t. SaysNamed name.now bytes.items (string_bytes t.0.text) t.0.well) }
    ensures found { IfOk result (λ t. t.1 ≡ found_under name.now bytes.items) }
{
    if is_room_file(name) {
        let reported = room_reported(memory.own, memory.global, &bytes)?;
        return Ok((reported, Found::Neither));
    }
    reported_of(memory, bytes)
}

/// The line of a file.
fn line_of<A: Allocator + Copy>(alloc: A, name: &str, said: &str) -> Result<String<A>, NoMemory>
    ensures { IfOk result (λ s. string_bytes s ≡ line_of name.now said.now) }
{
    let mut line = String::new(alloc);
    put_plain(&mut line, name)?;
    line.push_str(" ")?;
    put_plain(&mut line, said)?;
    line.push_str("\n")?;
    Ok(line)
}

/// Reads a file by its name: its line, whether it is in order, and what it gives for a cast.
fn look<F: Files, A: Allocator + Copy>(
    memory: Memory<A>,
    files: &mut F,
    name: &str,
) -> Result<(String<A>, bool, Found), NoMemory>
    ensures ok { IfOk result (λ l. IsLine name.now (F.shelf files.old) (F.shelf files.new) (string_bytes l.0) l.1 l.2) }
    ensures err { OnErr result (IsRead name.now (F.shelf files.old) (F.shelf files.new)) }
    ensures stays { Stays (F.shelf files.old) (F.shelf files.new) }
{
    let (reported, found) = match files.read(memory.own, name) {
        Ok(bytes) => reported_by(memory, name, bytes)?,
        Err(why) => (unread(memory.own, why)?, Found::Neither),
    };
    let line = line_of(memory.own, name, reported.text.as_str())?;
    Ok((line, reported.well, found))
}

/// Writes the line of a file, and returns whether it is in order, and what it gives for a cast.
fn check_file<W: Write, F: Files, A: Allocator + Copy>(
    memory: Memory<A>,
    writer: &mut W,
    files: &mut F,
    name: &str,
) -> Result<(bool, Found), CheckFault>
    ensures ok { IfOk result
        (λ l. SaysLine name.now (F.shelf files.old) (F.shelf files.new) (W.contents writer.old)
        (W.contents writer.new) l.0 l.1) }
    ensures err { IfErr result
        (IsUnsaid name.now (F.shelf files.old) (F.shelf files.new) (W.contents writer.old) (W.contents writer.new)) }
    ensures stays { Stays (F.shelf files.old) (F.shelf files.new) }
{
    let (line, well, found) = look(memory, files, name)?;
    write_out(writer, line.as_bytes())?;
    Ok((well, found))
}

/// Writes the line of the only case and the only wedge, where they do not go together, and returns whether none is
/// written.
fn check_metal<W: Write, A: Allocator + Copy>(
    alloc: A,
    writer: &mut W,
    metal: &Metal<'_>,
) -> Result<bool, CheckFault>
    ensures ok { IfOk result (IsEnded (unfit_of metal.now) (W.contents writer.old) (W.contents writer.new)) }
    ensures err { IfErr result (IsUnended (unfit_of metal.now) (W.contents writer.old) (W.contents writer.new)) }
{
    match unfit(alloc, metal)? {
        Some(last) => {
            write_out(writer, last.as_bytes())?;
            Ok(false)
        }
        None => Ok(true),
    }
}

/// Whether the files before are in order, and one more.
fn both(before: bool, one: bool) -> bool
    ensures { result ≡ before && one }
{
    before && one
}

/// Checks files by their names, in their order. Each has one line, written before the next file is read: what is in it
/// as a feed, a ribbon, a case or a wedge, by its content, or as a room's file, by its name, or its first fault, or that
/// it is none of these, or why it was not read. Where exactly one is a case in order and exactly one a wedge in order,
/// and they do not go together, a last line says so. It is true exactly where every file is in order and there is no
/// such line. No name is taken, and no file changes.
pub fn check_files<W: Write, F: Files, A: Allocator + Copy>(
    memory: Memory<A>,
    writer: &mut W,
    files: &mut F,
    names: &[&str],
) -> Result<bool, CheckFault>
    ensures ok { IfOk result
        (IsChecked (map (λ n. n.now) names.now) (F.shelf files.old) (F.shelf files.new) (W.contents writer.old)
        (W.contents writer.new)) }
    ensures err { IfErr result
        (IsUnchecked (map (λ n. n.now) names.now) (F.shelf files.old) (F.shelf files.new) (W.contents writer.old)
        (W.contents writer.new)) }
    ensures stays { Stays (F.shelf files.old) (F.shelf files.new) }
{
    let mut all = true;
    let mut metal = Metal::new();
    for at in 0..names.len() {
        let (well, found) = check_file(memory, writer, files, names[at])?;
        all = both(all, well);
        metal = metal.with(names[at], found);
    }
    let fit = check_metal(memory.own, writer, &metal)?;
    Ok(both(all, fit))
}
