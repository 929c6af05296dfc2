//! The copy desk's command line: it hands the words, streams and files of the machine to `program_desk`.
//!
//! `main` has no contract: what is proved is in `program_desk`. At a terminal `desk` is a conversation and reports the
//! cause of a stop, and `program_host` reports how far a run is. docs/FORMATS.md has the subcommands and docs/GUIDE.md
//! their use.
#![tactic(auto)]

ghost use Rattle.std.specs.Prelude.{◌≡◌, ◌≤◌, length, true};

use program_desk::{program_in_room, unread};
use program_host::{HostFiles, Progress, Prompted, Watched};
use program_words::COMMANDS;
use std::alloc::Global;
use std::io::{BufWriter, IsTerminal};
use std::process::ExitCode;
use std::{env, io};

fn main(rt: HostRuntime) -> ExitCode {
    match on_streams(&rt) {
        Ok(status) => ExitCode::from(status),
        Err(error) => ExitCode::from(unread(&mut rt.stderr(), &error)),
    }
}

/// Does what the words ask for, and gives the status. Answers are gathered in a buffer: it is let out before more
/// commands are read, and at the end. How far the run is, is reported where standard error is a terminal, once a second
/// at most. A desk at a terminal prompts for each line, and says at the end what was stored.
fn on_streams(rt: &HostRuntime) -> io::Result<u8> {
    let words = words_of(rt)?;
    let progress = progress_of(rt, &words);
    let mut writer = BufWriter::new(rt.alloc(), Watched::answer(&progress, io::writer(rt)))?;
    let reader = Watched::input(&progress, rt.reader());
    let mut files = HostFiles::new(rt, &progress);
    let status = program_in_room(
        rt.alloc(),
        &words,
        &mut Prompted::new(&progress, reader, list_of_commands()),
        &mut writer,
        &mut rt.stderr(),
        &mut files,
    );
    if status == 0 {
        files.report_end();
    }
    Ok(status)
}

/// The progress of a run that begins now: only that of a desk may be a conversation.
fn progress_of<'a>(rt: &'a HostRuntime, words: &[String]) -> Progress<'a> {
    if is_desk(words) {
        Progress::of_desk(rt)
    } else {
        Progress::new(rt)
    }
}

/// The list of the commands: what the help of `script` has after the example of its first paragraph.
fn list_of_commands() -> &'static str {
    match COMMANDS.split_once("\n\n") {
        Some((_, list)) => list,
        None => COMMANDS,
    }
}

/// Whether words ask for a desk.
fn is_desk(words: &[String]) -> bool
    ensures { result ≡ true → 1 ≤ length words.now }
{
    match words.first() {
        Some(word) => word.as_str() == "desk",
        None => false,
    }
}

/// The words after the program's name. Where standard error is a terminal a desk is asked to say why it stopped.
fn words_of(rt: &HostRuntime) -> io::Result<Vec<String>> {
    let mut words = Vec::new(rt.alloc());
    for word in env::args(rt)?.skip(1) {
        words.push(word)?;
    }
    if rt.stderr().is_terminal() {
        ask_why(rt.alloc(), &mut words)?;
    }
    Ok(words)
}

/// Adds `--why` to the words of a desk, unless it is among them.
fn ask_why(alloc: Global, words: &mut Vec<String>) -> io::Result<()> {
    if is_desk(words) && !words.iter().any(|word| word.as_str() == "--why") {
        words.insert(1, String::from_str(alloc, "--why")?)?;
    }
    Ok(())
}
