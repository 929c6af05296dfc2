//! Standard input of a desk, which is a conversation at a terminal.

ghost use Rattle.std.specs.Prelude.{◌≡◌, ◌&&◌, IfOk, None, false, if◌then◌else◌, take, true};
ghost use Rattle.std.specs.Io.{ReadsAtMost};
ghost use Rattle.std.specs.Io.KnownBytes.{ReadConsumes};
ghost use Rattle.program_host.specs.Prompt.{HandsOn, after_blanks, asks_help, begins_after, is_blank, is_end};

use crate::progress::Progress;
use std::io::{self, ErrorKind, Read};

/// The most lines `help` that are answered before another line is read.
const MAX_HELPS: u32 = 268_435_456;

/// What asks for a line.
const PROMPT: &str = "> ";

/// How the commands end, which their list does not say.
const ON_THE_END: &str = "\nCtrl-D ends the commands. Once all are answered the feed is stored.\n";

fn is_blank(byte: u8) -> bool
    ensures { result ≡ is_blank byte }
{
    byte == b' ' || byte == b'\t'
}

fn after_blanks(line: &[u8]) -> &[u8]
    ensures { result.now ≡ after_blanks line.now }
{
    let mut rest = line;
    while let [first, more @ ..] = rest {
        if !is_blank(*first) {
            return rest;
        }
        rest = more;
    }
    rest
}

fn is_end(bytes: &[u8]) -> bool
    ensures { result ≡ is_end bytes.now }
{
    match bytes {
        [last] => *last == b'\n',
        _ => false,
    }
}

/// Whether a line is `help`, with blanks around it or none.
fn asks_help(line: &[u8]) -> bool
    ensures { result ≡ asks_help line.now }
{
    match after_blanks(line) {
        [b'h', b'e', b'l', b'p', rest @ ..] => is_end(after_blanks(rest)),
        _ => false,
    }
}

/// Whether the next byte begins a line, after these.
fn begins_after(begins: bool, bytes: &[u8]) -> bool
    ensures { result ≡ begins_after begins bytes.now }
{
    let mut begins = begins;
    for byte in bytes {
        begins = *byte == b'\n';
    }
    begins
}

/// A reader that is a conversation where the run is one: it prompts on standard error for each line, and answers a line
/// `help` there by the list of the commands, and does not hand it on. Elsewhere it is the reader behind it.
#[derive(Drop)]
pub struct Prompted<'a, S: Drop> {
    progress: &'a Progress<'a>,
    stream: S,
    /// The list of the commands.
    list: &'a str,
    talks: bool,
    /// Whether the next byte begins a line.
    begins: bool,
}

impl<'a, S: Read + Drop> Prompted<'a, S> {
    /// A reader before its first line.
    pub fn new(progress: &'a Progress<'a>, stream: S, list: &'a str) -> Self
        ensures stream { result.stream ≡ stream }
        ensures talks { result.talks ≡ progress.now.talks }
        ensures begins { result.begins ≡ true }
    {
        Prompted {
            progress,
            stream,
            list,
            talks: progress.talks(),
            begins: true,
        }
    }

    /// Reads once, after a prompt where a line begins. Where no byte comes the line of the prompt is ended.
    fn take(&mut self, buf: &mut [u8]) -> io::Result<usize>
        ensures bound { ReadsAtMost result buf.new }
        ensures bytes { ReadConsumes (S.remaining self.old.stream) (S.remaining self.new.stream) result buf.new }
        ensures begins { self.new.begins ≡ self.old.begins }
        ensures talks { self.new.talks ≡ self.old.talks }
    {
        if self.begins {
            self.progress.say(PROMPT);
        }
        let read = self.stream.read(buf);
        match &read {
            Ok(0) | Err(_) => self.progress.say("\n"),
            Ok(_) => {}
        }
        read
    }

    /// Answers a line `help`.
    fn tell_list(&self) {
        self.progress.say(self.list);
        self.progress.say("\n");
        self.progress.say(ON_THE_END);
    }

    /// Reads until something comes that is no line `help`.
    fn ask(&mut self, buf: &mut [u8]) -> io::Result<usize>
        ensures bound { ReadsAtMost result buf.new }
        ensures handed { HandsOn self.old.begins (S.remaining self.old.stream) (S.remaining self.new.stream) result buf.new }
        ensures line { self.old.begins ≡ true → IfOk result (λ n. asks_help (take n buf.new) ≡ false) }
        ensures begins { IfOk result (λ n. self.new.begins ≡ begins_after self.old.begins (take n buf.new)) }
        ensures talks { self.new.talks ≡ self.old.talks }
    {
        'helps: for _ in 0..MAX_HELPS {
            let count = self.take(buf)?;
            let bytes = &buf[..count];
            if !self.begins || !asks_help(bytes) {
                self.begins = begins_after(self.begins, bytes);
                return Ok(count);
            }
            self.tell_list();
        }
        Err(io::Error::from(ErrorKind::InvalidData))
    }
}

impl<'a, S: Read + Drop> Read for Prompted<'a, S> {
    ghost remaining = { λ p. if p.talks then None else S.remaining p.stream };

    fn read(&mut self, buf: &mut [u8]) -> io::Result<usize>
        ensures bound { ReadsAtMost result buf.new }
        ensures bytes { ReadConsumes (if self.old.talks then None else S.remaining self.old.stream)
            (if self.new.talks then None else S.remaining self.new.stream) result buf.new }
        ensures handed { HandsOn (self.old.talks && self.old.begins) (S.remaining self.old.stream)
            (S.remaining self.new.stream) result buf.new }
        ensures line { self.old.talks ≡ true → self.old.begins ≡ true
            → IfOk result (λ n. asks_help (take n buf.new) ≡ false) }
        ensures begins { self.old.talks ≡ true
            → IfOk result (λ n. self.new.begins ≡ begins_after self.old.begins (take n buf.new)) }
        ensures talks { self.new.talks ≡ self.old.talks }
    {
        if self.talks {
            self.ask(buf)
        } else {
            self.stream.read(buf)
        }
    }
}
