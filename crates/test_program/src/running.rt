//! Each call of desk_script stands here once, and what is compared with its answers.

use desk_script::{Memory, Room, RoomFault, RunFault, run, run_in_room, run_on_feed};
use feed_files::Files;
use feed_files::trial::{AtEnd, TrialFiles, TrialReader, TrialWriter};
use std::alloc::{AllocError, Allocator, Global};
use std::fmt::Display;
use std::io::{Read, Write};
use std::test::Fail;

/// Runs a script, and says nothing of it to the prover.
pub fn ran<R: Read, W: Write, F: Files, A: Allocator + Copy>(
    alloc: A,
    global: Global,
    reader: &mut R,
    writer: &mut W,
    files: &mut F,
) -> Result<(), RunFault> {
    run(alloc, global, reader, writer, files)
}

/// Nothing, where both are the same bytes.
pub fn same(got: &[u8], want: &[u8], row: usize) -> Result<(), Fail> {
    if got == want {
        Ok(())
    } else {
        Err(Fail::new(format_args!("row {row}: another answer")))
    }
}

/// What a script is answered, read in steps of so many bytes.
pub fn answers<F: Files, A: Allocator + Copy>(
    alloc: A,
    global: Global,
    input: &[u8],
    step: usize,
    files: &mut F,
) -> Result<Vec<u8, A>, RunFault> {
    let mut reader = TrialReader::new(input).in_steps_of(step);
    let mut written = Vec::new(alloc);
    match ran(alloc, global, &mut reader, &mut written, files) {
        Ok(()) => Ok(written),
        Err(fault) => Err(fault),
    }
}

/// The commands of rows as lines.
fn commands(alloc: Global, rows: &str) -> Result<String, Fail> {
    let mut input = String::new(alloc);
    for row in rows.split(';') {
        match row.trim_start().split_once(" => ") {
            Some((command, _)) => {
                input.push_str(command)?;
                input.push_str("\n")?;
            }
            None if row.trim().is_empty() => {}
            None => return Err(Fail::new(format_args!("no row: {row}"))),
        }
    }
    Ok(input)
}

/// Whether each command of a script has its answer.
fn has_answers<F: Files>(alloc: Global, files: &mut F, name: &str, rows: &str) -> Result<(), Fail> {
    let input = commands(alloc, rows)?;
    let written = answers(alloc, alloc, input.as_bytes(), 1000, files)?;
    let mut left = written.as_slice();
    for row in rows.split(';') {
        if let Some((_, answer)) = row.split_once(" => ") {
            let Some(after) = left.strip_prefix(answer.as_bytes()) else {
                return Err(Fail::new(format_args!("{name}: {row}")));
            };
            let Some(next) = after.strip_prefix(b"\n".as_slice()) else {
                return Err(Fail::new(format_args!("{name}: {row}, and more")));
            };
            left = next;
        }
    }
    if !left.is_empty() {
        return Err(Fail::new(format_args!("{name}: more answers than rows")));
    }
    Ok(())
}

/// Whether all scripts of a text are answered so. Each begins with a line of its name, and has rows that end with
/// semicolons: a command, an arrow and its answer.
pub fn answered<F: Files>(alloc: Global, files: &mut F, text: &str) -> Result<(), Fail> {
    for script in text.split("\n# ") {
        if let Some((name, rows)) = script.split_once('\n') {
            has_answers(alloc, files, name, rows)?;
        }
    }
    Ok(())
}

/// How a stored feed is run on: as it is, also before the last run has let go of it; or in a room, which an older feed
/// may enter or not.
#[derive(Clone, Copy, PartialEq, Eq)]
pub enum Way {
    OnFeed,
    AtOnce,
    InRoom,
    Older,
}

/// How many bytes are written: all, so many, or none, and none is read.
#[derive(Clone, Copy)]
pub enum Space {
    All,
    Bytes(usize),
    None,
}

/// A name, and the bytes that it has, if any.
pub type Kept<'a> = (&'a str, Option<&'a [u8]>);

/// A run on `a.feed`: files that are put there before, the way and the site, the input, what is written and how it ends,
/// files as they are afterwards.
#[derive(Clone, Copy)]
pub struct Turn<'a> {
    pub puts: &'a [(&'a str, &'a [u8])],
    pub run: (Way, u16, &'a [u8]),
    pub written: (Space, &'a [u8]),
    pub end: Option<RoomFault>,
    pub kept: &'a [Kept<'a>],
}

/// Whether a turn on these files ends with this, and has written what it is to.
pub fn ended<F: Files, A: Allocator + Copy>(
    alloc: A,
    global: Global,
    files: &mut F,
    turn: &Turn<'_>,
    at: usize,
) -> Result<Option<RoomFault>, Fail> {
    let (way, site, input) = turn.run;
    let mut reader = TrialReader::new(input);
    let mut writer = TrialWriter::new(global);
    match turn.written.0 {
        Space::All => {}
        Space::Bytes(bytes) => writer = writer.with_room(bytes, AtEnd::Fails),
        Space::None => {
            reader = reader.failing_at_call(1);
            writer = writer.with_room(0, AtEnd::Fails);
        }
    }
    let end = run_a_way(alloc, global, &mut reader, &mut writer, files, (way, site));
    same(writer.written(), turn.written.1, at)?;
    Ok(end.err())
}

/// Runs on `a.feed` one way.
fn run_a_way<R: Read, W: Write, F: Files, A: Allocator + Copy>(
    alloc: A,
    global: Global,
    reader: &mut R,
    writer: &mut W,
    files: &mut F,
    (way, site): (Way, u16),
) -> Result<(), RoomFault> {
    let site = site.max(1);
    let older = match way {
        Way::OnFeed | Way::AtOnce => {
            return match run_on_feed(alloc, global, reader, writer, files, "a.feed", site) {
                Ok(()) => Ok(()),
                Err(fault) => Err(RoomFault::Run(fault)),
            };
        }
        Way::InRoom => false,
        Way::Older => true,
    };
    let memory = Memory { own: alloc, global };
    let feed = "a.feed";
    let room = Room { feed, site, older };
    run_in_room(memory, reader, writer, files, room)
}

/// Puts what is there before a turn.
pub fn put_all(files: &mut TrialFiles<Global>, turn: &Turn<'_>) -> Result<(), AllocError> {
    for &(name, bytes) in turn.puts {
        files.put(name, bytes)?;
    }
    Ok(())
}

/// Whether the files are as they are to be after a turn.
pub fn are_kept(files: &TrialFiles<Global>, turn: &Turn<'_>) -> Result<(), Fail> {
    for &(name, bytes) in turn.kept {
        if files.bytes_of(name) != bytes {
            return Err(Fail::new(format_args!("another {name}")));
        }
    }
    Ok(())
}

/// Plays turns, one run after the other, where the k-th call of the files fails and so often a call failed at the end.
pub fn played(alloc: Global, (k, failures): (u64, u64), turns: &[Turn<'_>]) -> Result<(), Fail> {
    let mut files = TrialFiles::new(alloc).failing_at_call(k);
    for (at, turn) in turns.iter().enumerate() {
        if turn.run.0 != Way::AtOnce {
            files = files.for_next_run();
        }
        put_all(&mut files, turn)?;
        if ended(alloc, alloc, &mut files, turn, at)? != turn.end {
            return Err(Fail::new(format_args!("call {k}, row {at}: another end")));
        }
        are_kept(&files, turn)?;
    }
    if files.failures() != failures {
        return Err(Fail::new(format_args!("call {k}: another count of failures")));
    }
    Ok(())
}

/// Whether each value has its words.
pub fn have_words<T: Display>(alloc: Global, rows: &[(T, &str)]) -> Result<(), Fail> {
    for (value, words) in rows {
        let said = format!(in alloc; "{value}")?;
        if said.as_str() != *words {
            return Err(Fail::new(format_args!("other words than {words}")));
        }
    }
    Ok(())
}
